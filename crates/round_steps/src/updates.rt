//! The two epochs of a round: edges send, and what was sent is gathered.
ghost use Rattle.std.specs.Prelude.{◌≡◌, ◌⊎◌, ℕ, ◌^◌, ◌<◌, ◌≤◌, if◌then◌else◌, Some, None, All, List, map, vec_len, vec_capacity, length, slice_index_or};
ghost use Rattle.graph_model.specs.declared.edge.Edge.{Edge};
ghost use Rattle.graph_model.specs.declared.value.Update.{Update};
ghost use Rattle.phase_model.specs.Shelves.{Shelf as Chunks};
ghost use Rattle.graph_model.specs.Jobs.{IsWellFormedJob};
ghost use Rattle.partitioner.specs.Splits.{IsSplit, IsSplitOf};
ghost use Rattle.chunk_object.specs.History.{most_chunks};
ghost use Rattle.store_model.specs.Slots.{device_size, slot_of};
ghost use Rattle.store_reader.specs.Reading.{own_in};
ghost use Rattle.store_reader.specs.Indexed.{lens_of};
ghost use Rattle.update_lanes.specs.Lanes.{GoOn};
ghost use Rattle.epoch_seats.specs.Between.{IsBetweenEpochs};
ghost use Rattle.replica_merge.specs.Accumulators.{split_of};
ghost use Rattle.gather_epoch.specs.Crews.{IsCrew};
ghost use Rattle.ports.specs.Devices.{OneRose, NoneRose, MetersGoOn, AreDevices, AreRows, OneRowRose, OneCountRose, NoRowRose, SameCounts};
ghost use Rattle.scatter_epoch.specs.Scattering.{RowsGoOn};
ghost use Rattle.scatter_epoch.specs.Sent.{RowsTell};
ghost use Rattle.round_steps.specs.Crews.{AreCrews, LieWithin};
ghost use Rattle.round_steps.specs.Going.{IsStore};
ghost use Rattle.round_steps.specs.Standing.{IsSound, HaveEdges, IsBefore};
ghost use Rattle.round_steps.specs.Damage.{IsEdgeDamage, IsUpdateDamage, IsDamage, NamesDamage};
ghost use Rattle.round_steps.specs.Rounds.{MakesEpochs, HasSums};
ghost use Rattle.round_steps.specs.Updates.{Scatters, AreServed, Stand, IsIdle, Gathers};

use crate::crews::Crews;
use crate::run::{Run, is_done};
use chunk_cursor::CursorSeat;
use chunk_file::Index;
use epoch_laws::round_is_gathered;
use gather_epoch::{GatherCrew, gather_all};
use gather_laws::{VertexProgram, values_have_room};
use gather_phase::GatherContext;
use ports::{Beat, Disk, Gate};
use replica_merge::Replicas;
use scatter_epoch::scatter_all;
use scatter_phase::ScatterContext;
use std::thread::Threads;
use store_reader::{Outcome, Serving, Shelf, Store};
use worker_outcomes::{EpochEnd, outcome_is_of_a_worker};

/// Makes ready what a round is made of: edges send, and what was sent is gathered.
pub(crate) fn sum_round<R: Threads + Sync, P: VertexProgram, D: Disk, G: Gate + Sync>(
    run: &Run<R, P, G>,
    crews: &mut Crews<D>,
    store: &mut Store<D>,
    meters: &mut Vec<D::M>,
    seat: &mut CursorSeat,
    beat: &Beat,
    round: u64,
    changed_only: bool,
    epoch: u64,
) -> EpochEnd
    requires job { IsWellFormedJob run.now.job.now }
    requires split { IsSplit run.now.split.now × IsSplitOf run.now.job.now run.now.split.now }
    requires few { (cursor : ℕ) → lens_of run.now.index.now cursor ≤ most_chunks }
    requires crews { AreCrews run.now.job.now run.now.split.now crews.old }
    requires store { IsStore D.state run.now.split.now beat.now store.old }
    requires meters { vec_len meters.old ≡ run.now.split.now.engines }
    requires table { seat.old.table ≡ run.now.table.now }
    requires between { IsBetweenEpochs seat.old.view }
    requires round { 1 ≤ round }
    requires epoch { epoch ≤ 2 ^ 32 }
    ensures crews { AreCrews run.now.job.now run.now.split.now crews.new }
    ensures graphs { store.new.graphs ≡ store.old.graphs }
    ensures values { store.new.values ≡ store.old.values }
    ensures lanes { RowsGoOn D.state beat.now store.old.lanes.items store.new.lanes.items }
    ensures spills { GoOn D.state beat.now store.old.spills.items store.new.spills.items }
    ensures meters { MetersGoOn D.M.faults meters.old.items meters.new.items }
    ensures room { vec_capacity meters.old ≤ vec_capacity meters.new }
    ensures few { result.admitted ≤ 1024 }
    ensures table { seat.new.table ≡ seat.old.table }
    ensures cause { result.outcome ≡ Outcome.DiskFault → OneCountRose D.M.faults meters.old.items meters.new.items ⊎ (OneRowRose D.state store.old.lanes.items store.new.lanes.items ⊎ OneRose D.state store.old.spills.items store.new.spills.items) }
    ensures calm { result.outcome ≡ Outcome.Done → SameCounts D.M.faults meters.old.items meters.new.items × NoRowRose D.state store.old.lanes.items store.new.lanes.items × NoneRose D.state store.old.spills.items store.new.spills.items }
    ensures sound { (records : ℕ → ℕ → List Edge) → HaveEdges D.state run.now.job.now run.now.split.now run.now.index.now store.old.graphs.items records → RowsTell D.state store.old.lanes.items → IsSound result.outcome }
    ensures damaged { NamesDamage (IsDamage D.state run.now.job.now run.now.split.now run.now.index.now store.old.graphs.items store.new.lanes.items) result.outcome }
    ensures epochs { MakesEpochs D.state (P.rules run.now.program.now) run.now.job.now run.now.split.now run.now.index.now round changed_only epoch store.old (result.outcome ≡ Outcome.Done) seat.old.view seat.new.view result.claims result.admitted }
    ensures within { result.outcome ≡ Outcome.Done → LieWithin D.state crews.new.replicas.items store.new.spills.items }
    ensures sums { result.outcome ≡ Outcome.Done → (edges : List Edge) → IsBefore D.state (P.rules run.now.program.now) run.now.job.now run.now.split.now run.now.index.now edges round changed_only store.old
        → HasSums (P.rules run.now.program.now) run.now.split.now edges round crews.new.replicas.items (map (λ d. (D.state d).bytes) store.new.spills.items) }
{
    let scattered = scatter_edges(
        run,
        store.graphs.as_slice(),
        store.values.as_slice(),
        crews,
        &mut store.lanes,
        meters,
        seat,
        beat,
        round,
        changed_only,
        epoch,
    );
    if !is_done(scattered.outcome) {
        return scattered;
    }
    round_is_gathered(run.program);
    let gathered = gather_updates(
        run,
        store.lanes.as_slice(),
        &crews.updates,
        &mut crews.gather,
        &mut crews.replicas,
        &mut store.spills,
        meters,
        seat,
        beat,
        epoch + 1,
    );
    EpochEnd {
        outcome: gathered.outcome,
        claims: scattered.claims + gathered.claims,
        admitted: scattered.admitted + gathered.admitted,
    }
}

/// Lets all workers send along edges, each its share, to its lanes. The values of the round before are in the slot that is
/// not the round's own.
pub(crate) fn scatter_edges<R: Threads + Sync, P: VertexProgram, D: Disk, G: Gate + Sync>(
    run: &Run<R, P, G>,
    graphs: &[D],
    values: &[D],
    crews: &mut Crews<D>,
    lanes: &mut Vec<Vec<D>>,
    meters: &mut Vec<D::M>,
    seat: &mut CursorSeat,
    beat: &Beat,
    round: u64,
    changed_only: bool,
    epoch: u64,
) -> EpochEnd
    requires job { IsWellFormedJob run.now.job.now }
    requires split { IsSplit run.now.split.now × IsSplitOf run.now.job.now run.now.split.now }
    requires few { (cursor : ℕ) → lens_of run.now.index.now cursor ≤ most_chunks }
    requires graphs { length graphs.now ≡ run.now.split.now.engines }
    requires values { length values.now ≡ run.now.split.now.engines }
    requires sizes { (e : ℕ) (d : D) → e < run.now.split.now.engines → (D.state (slice_index_or values.now e d)).size ≡ device_size (own_in run.now.split.now e) }
    requires crews { AreCrews run.now.job.now run.now.split.now crews.old }
    requires lanes { AreRows D.state run.now.split.now.engines beat.now lanes.old.items }
    requires meters { vec_len meters.old ≡ run.now.split.now.engines }
    requires table { seat.old.table ≡ run.now.table.now }
    requires between { IsBetweenEpochs seat.old.view }
    requires round { 1 ≤ round }
    requires epoch { epoch ≤ 2 ^ 32 }
    ensures crews { AreCrews run.now.job.now run.now.split.now crews.new }
    ensures lanes { RowsGoOn D.state beat.now lanes.old.items lanes.new.items }
    ensures meters { MetersGoOn D.M.faults meters.old.items meters.new.items }
    ensures room { vec_capacity meters.old ≤ vec_capacity meters.new }
    ensures few { (result.claims ≤ 17592186044416) × (result.admitted ≤ 512) }
    ensures table { seat.new.table ≡ seat.old.table }
    ensures between { IsBetweenEpochs seat.new.view }
    ensures cause { result.outcome ≡ Outcome.DiskFault → OneCountRose D.M.faults meters.old.items meters.new.items ⊎ OneRowRose D.state lanes.old.items lanes.new.items }
    ensures calm { result.outcome ≡ Outcome.Done → SameCounts D.M.faults meters.old.items meters.new.items × NoRowRose D.state lanes.old.items lanes.new.items }
    ensures sound { (records : ℕ → ℕ → List Edge) → HaveEdges D.state run.now.job.now run.now.split.now run.now.index.now graphs.now records → IsSound result.outcome }
    ensures damaged { NamesDamage (IsEdgeDamage D.state run.now.job.now run.now.split.now run.now.index.now graphs.now) result.outcome }
    ensures scattered { Scatters D.M D.state (P.rules run.now.program.now) run.now.job.now run.now.split.now run.now.index.now graphs.now values.now round changed_only epoch lanes.new.items crews.new.updates (result.outcome ≡ Outcome.Done) seat.old.view seat.new.view result.claims result.admitted }
{
    let slot = 1 - (round % 2) as u32;
    let before = slot_before(round, changed_only);
    let context = ScatterContext {
        program: run.program,
        serving: Serving {
            shelf: Shelf::Graphs(graphs),
            index: run.index,
            job: run.job,
            split: run.split,
            table: run.table,
        },
        values,
        round,
        slot,
        before,
        epoch,
        gate: run.gate,
        beat,
    };
    values_have_room(run.program);
    scatter_all(
        run.rt,
        &context,
        seat,
        &mut crews.scatter,
        meters,
        lanes,
        &mut crews.updates,
    )
}

/// The slot of the values of two rounds before, where those alone send that have changed since.
fn slot_before(round: u64, changed_only: bool) -> Option<u32>
    ensures { result ≡ (if changed_only then Some (slot_of round) else None) }
{
    if changed_only {
        Some((round % 2) as u32)
    } else {
        None
    }
}

/// Lets all workers gather what was sent, each its share.
pub(crate) fn gather_updates<R: Threads + Sync, P: VertexProgram, D: Disk, G: Gate + Sync>(
    run: &Run<R, P, G>,
    lanes: &[Vec<D>],
    updates: &Index,
    crew: &mut GatherCrew<D>,
    replicas: &mut Vec<Replicas>,
    spills: &mut Vec<D>,
    meters: &mut Vec<D::M>,
    seat: &mut CursorSeat,
    beat: &Beat,
    epoch: u64,
) -> EpochEnd
    requires job { IsWellFormedJob run.now.job.now }
    requires split { IsSplit run.now.split.now × IsSplitOf run.now.job.now run.now.split.now }
    requires served { AreServed D.M run.now.job.now run.now.split.now lanes.now updates.now }
    requires crew { IsCrew run.now.job.now crew.old }
    requires replicas { (vec_len replicas.old ≡ run.now.split.now.engines) × All (λ r. split_of r ≡ run.now.split.now) replicas.old.items }
    requires spills { AreDevices D.state run.now.split.now.engines beat.now spills.old.items }
    requires meters { vec_len meters.old ≡ run.now.split.now.engines }
    requires table { seat.old.table ≡ run.now.table.now }
    requires between { IsBetweenEpochs seat.old.view }
    ensures crew { IsCrew run.now.job.now crew.new }
    ensures replicas { (vec_len replicas.new ≡ run.now.split.now.engines) × All (λ r. split_of r ≡ run.now.split.now) replicas.new.items }
    ensures spills { GoOn D.state beat.now spills.old.items spills.new.items }
    ensures meters { MetersGoOn D.M.faults meters.old.items meters.new.items }
    ensures room { vec_capacity meters.old ≤ vec_capacity meters.new }
    ensures few { (result.claims ≤ 17592186044416) × (result.admitted ≤ 512) }
    ensures table { seat.new.table ≡ seat.old.table }
    ensures between { IsBetweenEpochs seat.new.view }
    ensures cause { result.outcome ≡ Outcome.DiskFault → OneCountRose D.M.faults meters.old.items meters.new.items ⊎ OneRose D.state spills.old.items spills.new.items }
    ensures calm { result.outcome ≡ Outcome.Done → SameCounts D.M.faults meters.old.items meters.new.items × NoneRose D.state spills.old.items spills.new.items }
    ensures sound { (shelf : Chunks Update) → Stand D.M D.state run.now.job.now run.now.split.now lanes.now updates.now shelf → IsSound result.outcome }
    ensures damaged { NamesDamage (IsUpdateDamage D.state run.now.job.now run.now.split.now lanes.now) result.outcome }
    ensures within { result.outcome ≡ Outcome.Done → LieWithin D.state replicas.new.items spills.new.items }
    ensures gathered { IsIdle (result.outcome ≡ Outcome.Done) seat.old.view seat.new.view result.claims result.admitted
        ⊎ Gathers D.M D.state (P.rules run.now.program.now) run.now.job.now run.now.split.now lanes.now updates.now spills.old.items replicas.new.items spills.new.items (result.outcome ≡ Outcome.Done) seat.old.view seat.new.view result.claims result.admitted }
{
    let context = GatherContext {
        program: run.program,
        serving: Serving {
            shelf: Shelf::Lanes(lanes),
            index: updates,
            job: run.job,
            split: run.split,
            table: run.table,
        },
        counting: false,
        epoch,
        gate: run.gate,
        beat,
    };
    outcome_is_of_a_worker();
    gather_all(run.rt, &context, seat, crew, meters, replicas, spills)
}
