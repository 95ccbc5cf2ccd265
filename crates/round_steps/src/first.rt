//! Round 0.
ghost use Rattle.std.specs.Prelude.{◌≡◌, ℕ, ◌+◌, ◌-◌, ◌^◌, ◌<◌, ◌≤◌, List, false, vec_len, vec_capacity};
ghost use Rattle.graph_model.specs.declared.edge.Edge.{Edge};
ghost use Rattle.graph_model.specs.Jobs.{IsWellFormedJob};
ghost use Rattle.partitioner.specs.Splits.{IsSplit, IsSplitOf};
ghost use Rattle.chunk_object.specs.History.{most_chunks};
ghost use Rattle.store_reader.specs.Indexed.{lens_of};
ghost use Rattle.epoch_seats.specs.Between.{IsBetweenEpochs};
ghost use Rattle.ports.specs.Devices.{MetersGoOn};
ghost use Rattle.round_steps.specs.Crews.{AreCrews};
ghost use Rattle.round_steps.specs.Going.{IsStore, KeepsStore, SomeRose, NoCountRose};
ghost use Rattle.round_steps.specs.Standing.{IsSound, HaveEdges, IsBefore};
ghost use Rattle.round_steps.specs.Damage.{IsEdgeDamage, NamesDamage};
ghost use Rattle.round_steps.specs.Rounds.{StoresRound, MakesFirst};

use crate::crews::Crews;
use crate::epochs::sum_first;
use crate::run::{RoundEnd, Run, is_done};
use crate::store::store_round;
use chunk_cursor::CursorSeat;
use gather_laws::VertexProgram;
use ports::{Beat, Disk, Gate};
use std::thread::Threads;
use store_reader::{Outcome, Store};

/// Makes the values of round 0 and stores them on the values devices. Where the program counts, each worker counts edges
/// first, in an epoch. `meters` has one meter for each engine.
pub fn make_first<R: Threads + Sync, P: VertexProgram, D: Disk, G: Gate + Sync>(
    run: &Run<R, P, G>,
    crews: &mut Crews<D>,
    store: &mut Store<D>,
    meters: &mut Vec<D::M>,
    seat: &mut CursorSeat,
    beat: &mut Beat,
) -> RoundEnd
    requires job { IsWellFormedJob run.now.job.now }
    requires split { IsSplit run.now.split.now × IsSplitOf run.now.job.now run.now.split.now }
    requires few { (cursor : ℕ) → lens_of run.now.index.now cursor ≤ most_chunks }
    requires crews { AreCrews run.now.job.now run.now.split.now crews.old }
    requires store { IsStore D.state run.now.split.now beat.old store.old }
    requires meters { vec_len meters.old ≡ run.now.split.now.engines }
    requires table { seat.old.table ≡ run.now.table.now }
    requires between { IsBetweenEpochs seat.old.view }
    requires beat { beat.old < 2 ^ 64 - 1 }
    // On every answer.
    ensures crews { AreCrews run.now.job.now run.now.split.now crews.new }
    ensures store { IsStore D.state run.now.split.now beat.new store.new }
    ensures keeps { KeepsStore D.state run.now.split.now 0 (beat.old + 1) (result.outcome ≡ Outcome.Done) store.old store.new }
    ensures room { vec_capacity meters.old ≤ vec_capacity meters.new }
    ensures meters { MetersGoOn D.M.faults meters.old.items meters.new.items }
    ensures few { result.admitted ≤ 1024 }
    ensures table { seat.new.table ≡ seat.old.table }
    ensures beat { (beat.old ≤ beat.new) × (beat.new ≤ beat.old + 1) }
    ensures through { result.outcome ≡ Outcome.Done → beat.new ≡ beat.old + 1 }
    ensures cause { result.outcome ≡ Outcome.DiskFault → SomeRose D.state D.M.faults store.old store.new meters.old.items meters.new.items }
    ensures calm { result.outcome ≡ Outcome.Done → NoCountRose D.state D.M.faults store.old store.new meters.old.items meters.new.items }
    ensures sound { (records : ℕ → ℕ → List Edge) → HaveEdges D.state run.now.job.now run.now.split.now run.now.index.now store.old.graphs.items records → IsSound result.outcome }
    ensures damaged { NamesDamage (IsEdgeDamage D.state run.now.job.now run.now.split.now run.now.index.now store.old.graphs.items) result.outcome }
    ensures epochs { MakesFirst (P.rules run.now.program.now).counts run.now.job.now run.now.index.now (result.outcome ≡ Outcome.Done) seat.old.view seat.new.view result.claims result.admitted }
    // Where the store is whole.
    ensures round { (edges : List Edge) → IsBefore D.state (P.rules run.now.program.now) run.now.job.now run.now.split.now run.now.index.now edges 0 false store.old
        → StoresRound D.state (P.rules run.now.program.now) run.now.split.now edges 0 (beat.old + 1) (result.outcome ≡ Outcome.Done) result.changed store.old.values.items store.new.values.items }
{
    let summed = sum_first(
        run,
        store.graphs.as_slice(),
        crews,
        &mut store.spills,
        meters,
        seat,
        beat,
    );
    if !is_done(summed.outcome) {
        return RoundEnd {
            outcome: summed.outcome,
            changed: 0,
            claims: summed.claims,
            admitted: summed.admitted,
        };
    }
    beat.next();
    let applied = store_round(
        run,
        &mut crews.apply,
        &mut store.values,
        crews.replicas.as_slice(),
        store.spills.as_slice(),
        meters,
        0,
        beat,
    );
    RoundEnd {
        outcome: applied.outcome,
        changed: applied.changed,
        claims: summed.claims,
        admitted: summed.admitted,
    }
}
