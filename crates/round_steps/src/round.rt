//! A round from the one before it.
ghost use Rattle.std.specs.Prelude.{◌≡◌, ℕ, ◌+◌, ◌-◌, ◌^◌, ◌<◌, ◌≤◌, List, vec_len, vec_capacity};
ghost use Rattle.graph_model.specs.declared.edge.Edge.{Edge};
ghost use Rattle.graph_model.specs.Jobs.{IsWellFormedJob};
ghost use Rattle.partitioner.specs.Splits.{IsSplit, IsSplitOf};
ghost use Rattle.chunk_object.specs.History.{most_chunks};
ghost use Rattle.store_reader.specs.Indexed.{lens_of};
ghost use Rattle.epoch_seats.specs.Between.{IsBetweenEpochs};
ghost use Rattle.ports.specs.Devices.{MetersGoOn};
ghost use Rattle.scatter_epoch.specs.Sent.{RowsTell};
ghost use Rattle.round_steps.specs.Crews.{AreCrews};
ghost use Rattle.round_steps.specs.Going.{IsStore, KeepsStore, SomeRose, NoCountRose};
ghost use Rattle.round_steps.specs.Standing.{IsSound, HaveEdges, IsBefore};
ghost use Rattle.round_steps.specs.Damage.{IsDamage, NamesDamage};
ghost use Rattle.round_steps.specs.Rounds.{StoresRound, MakesEpochs};

use crate::crews::Crews;
use crate::run::{RoundEnd, Run, is_done};
use crate::store::store_round;
use crate::updates::sum_round;
use chunk_cursor::CursorSeat;
use gather_laws::VertexProgram;
use ports::{Beat, Disk, Gate};
use std::thread::Threads;
use store_reader::{Outcome, Store};

/// Makes the values of a round from those of the round before and stores them on the values devices: edges send, what was
/// sent is gathered, and the new values are written. Where `changed_only` is set, those vertices alone send whose value
/// has changed in the round before. The epochs are number `epoch` and the next one. `meters` has one meter for each
/// engine.
pub fn make_round<R: Threads + Sync, P: VertexProgram, D: Disk, G: Gate + Sync>(
    run: &Run<R, P, G>,
    crews: &mut Crews<D>,
    store: &mut Store<D>,
    meters: &mut Vec<D::M>,
    seat: &mut CursorSeat,
    beat: &mut Beat,
    round: u64,
    changed_only: bool,
    epoch: u64,
) -> RoundEnd
    requires job { IsWellFormedJob run.now.job.now }
    requires split { IsSplit run.now.split.now × IsSplitOf run.now.job.now run.now.split.now }
    requires few { (cursor : ℕ) → lens_of run.now.index.now cursor ≤ most_chunks }
    requires crews { AreCrews run.now.job.now run.now.split.now crews.old }
    requires store { IsStore D.state run.now.split.now beat.old store.old }
    requires meters { vec_len meters.old ≡ run.now.split.now.engines }
    requires table { seat.old.table ≡ run.now.table.now }
    requires between { IsBetweenEpochs seat.old.view }
    requires beat { beat.old < 2 ^ 64 - 1 }
    requires round { 1 ≤ round }
    requires epoch { epoch ≤ 2 ^ 32 }
    // On every answer.
    ensures crews { AreCrews run.now.job.now run.now.split.now crews.new }
    ensures store { IsStore D.state run.now.split.now beat.new store.new }
    ensures keeps { KeepsStore D.state run.now.split.now round (beat.old + 1) (result.outcome ≡ Outcome.Done) store.old store.new }
    ensures room { vec_capacity meters.old ≤ vec_capacity meters.new }
    ensures meters { MetersGoOn D.M.faults meters.old.items meters.new.items }
    ensures few { result.admitted ≤ 1024 }
    ensures table { seat.new.table ≡ seat.old.table }
    ensures beat { (beat.old ≤ beat.new) × (beat.new ≤ beat.old + 1) }
    ensures through { result.outcome ≡ Outcome.Done → beat.new ≡ beat.old + 1 }
    ensures cause { result.outcome ≡ Outcome.DiskFault → SomeRose D.state D.M.faults store.old store.new meters.old.items meters.new.items }
    ensures calm { result.outcome ≡ Outcome.Done → NoCountRose D.state D.M.faults store.old store.new meters.old.items meters.new.items }
    ensures sound { (records : ℕ → ℕ → List Edge) → HaveEdges D.state run.now.job.now run.now.split.now run.now.index.now store.old.graphs.items records → RowsTell D.state store.old.lanes.items → IsSound result.outcome }
    ensures damaged { NamesDamage (IsDamage D.state run.now.job.now run.now.split.now run.now.index.now store.old.graphs.items store.new.lanes.items) result.outcome }
    ensures epochs { MakesEpochs D.state (P.rules run.now.program.now) run.now.job.now run.now.split.now run.now.index.now round changed_only epoch store.old (result.outcome ≡ Outcome.Done) seat.old.view seat.new.view result.claims result.admitted }
    // Where the store is whole.
    ensures round { (edges : List Edge) → IsBefore D.state (P.rules run.now.program.now) run.now.job.now run.now.split.now run.now.index.now edges round changed_only store.old
        → StoresRound D.state (P.rules run.now.program.now) run.now.split.now edges round (beat.old + 1) (result.outcome ≡ Outcome.Done) result.changed store.old.values.items store.new.values.items }
{
    let summed = sum_round(
        run,
        crews,
        store,
        meters,
        seat,
        beat,
        round,
        changed_only,
        epoch,
    );
    if !is_done(summed.outcome) {
        return RoundEnd {
            outcome: summed.outcome,
            changed: 0,
            claims: summed.claims,
            admitted: summed.admitted,
        };
    }
    beat.next();
    let applied = store_round(
        run,
        &mut crews.apply,
        &mut store.values,
        crews.replicas.as_slice(),
        store.spills.as_slice(),
        meters,
        round,
        beat,
    );
    RoundEnd {
        outcome: applied.outcome,
        changed: applied.changed,
        claims: summed.claims,
        admitted: summed.admitted,
    }
}
