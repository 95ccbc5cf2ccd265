//! The epochs in which edges are counted, and in which what was sent is gathered.
ghost use Rattle.std.specs.Prelude.{◌≡◌, ◌⊎◌, ℕ, ◌<◌, ◌≤◌, All, List, map, true, vec_len, vec_capacity, length};
ghost use Rattle.graph_model.specs.declared.edge.Edge.{Edge};
ghost use Rattle.graph_model.specs.Jobs.{IsWellFormedJob};
ghost use Rattle.graph_model.specs.Rounds.{out_degree};
ghost use Rattle.partitioner.specs.declared.split.Split.{Split};
ghost use Rattle.partitioner.specs.Splits.{IsSplit, IsSplitOf};
ghost use Rattle.chunk_object.specs.History.{most_chunks};
ghost use Rattle.replica_merge.specs.Accumulators.{split_of, unit_of, IsUnspilled};
ghost use Rattle.store_reader.specs.Indexed.{lens_of};
ghost use Rattle.update_lanes.specs.Lanes.{GoOn};
ghost use Rattle.epoch_seats.specs.Between.{IsBetweenEpochs};
ghost use Rattle.apply_round.specs.Made.{AreMerged};
ghost use Rattle.ports.specs.Devices.{OneRose, NoneRose, MetersGoOn, AreDevices, OneCountRose, SameCounts};
ghost use Rattle.round_steps.specs.Crews.{AreCrews, LieWithin};
ghost use Rattle.round_steps.specs.Going.{Tell};
ghost use Rattle.round_steps.specs.Standing.{IsSound, HaveEdges, HasEdges};
ghost use Rattle.round_steps.specs.Damage.{IsEdgeDamage, NamesDamage};
ghost use Rattle.round_steps.specs.Rounds.{MakesFirst, HasSums};

use crate::crews::Crews;
use crate::run::Run;
use chunk_cursor::CursorSeat;
use epoch_laws::edges_are_counted;
use gather_epoch::gather_all;
use gather_laws::VertexProgram;
use gather_phase::GatherContext;
use ports::{Beat, Disk, Gate};
use replica_merge::Replicas;
use std::thread::Threads;
use store_reader::{Outcome, Serving, Shelf};
use worker_outcomes::{EpochEnd, outcome_is_of_a_worker};

/// Makes ready what round 0 is made of: where the program counts, each worker counts edges.
pub(crate) fn sum_first<R: Threads + Sync, P: VertexProgram, D: Disk, G: Gate + Sync>(
    run: &Run<R, P, G>,
    graphs: &[D],
    crews: &mut Crews<D>,
    spills: &mut Vec<D>,
    meters: &mut Vec<D::M>,
    seat: &mut CursorSeat,
    beat: &Beat,
) -> EpochEnd
    requires job { IsWellFormedJob run.now.job.now }
    requires split { IsSplit run.now.split.now × IsSplitOf run.now.job.now run.now.split.now }
    requires few { (cursor : ℕ) → lens_of run.now.index.now cursor ≤ most_chunks }
    requires graphs { length graphs.now ≡ run.now.split.now.engines }
    requires crews { AreCrews run.now.job.now run.now.split.now crews.old }
    requires spills { AreDevices D.state run.now.split.now.engines beat.now spills.old.items }
    requires meters { vec_len meters.old ≡ run.now.split.now.engines }
    requires table { seat.old.table ≡ run.now.table.now }
    requires between { IsBetweenEpochs seat.old.view }
    ensures crews { AreCrews run.now.job.now run.now.split.now crews.new }
    ensures spills { GoOn D.state beat.now spills.old.items spills.new.items }
    ensures meters { MetersGoOn D.M.faults meters.old.items meters.new.items }
    ensures room { vec_capacity meters.old ≤ vec_capacity meters.new }
    ensures few { result.admitted ≤ 512 }
    ensures table { seat.new.table ≡ seat.old.table }
    ensures cause { result.outcome ≡ Outcome.DiskFault → OneCountRose D.M.faults meters.old.items meters.new.items ⊎ OneRose D.state spills.old.items spills.new.items }
    ensures calm { result.outcome ≡ Outcome.Done → SameCounts D.M.faults meters.old.items meters.new.items × NoneRose D.state spills.old.items spills.new.items }
    ensures sound { (records : ℕ → ℕ → List Edge) → HaveEdges D.state run.now.job.now run.now.split.now run.now.index.now graphs.now records → IsSound result.outcome }
    ensures damaged { NamesDamage (IsEdgeDamage D.state run.now.job.now run.now.split.now run.now.index.now graphs.now) result.outcome }
    ensures epochs { MakesFirst (P.rules run.now.program.now).counts run.now.job.now run.now.index.now (result.outcome ≡ Outcome.Done) seat.old.view seat.new.view result.claims result.admitted }
    ensures within { result.outcome ≡ Outcome.Done → LieWithin D.state crews.new.replicas.items spills.new.items }
    ensures sums { result.outcome ≡ Outcome.Done → (edges : List Edge) → HasEdges D.state run.now.job.now run.now.split.now run.now.index.now graphs.now edges → Tell D.state spills.old.items
        → HasSums (P.rules run.now.program.now) run.now.split.now edges 0 crews.new.replicas.items (map (λ d. (D.state d).bytes) spills.new.items) }
{
    edges_are_counted(run.program);
    if run.program.counts() {
        return count_edges(run, graphs, crews, spills, meters, seat, beat);
    }
    let unit = run.program.unit();
    reset_all(&mut crews.replicas, unit);
    EpochEnd {
        outcome: Outcome::Done,
        claims: 0,
        admitted: 0,
    }
}

/// Lets all workers count edges, each its share.
fn count_edges<R: Threads + Sync, P: VertexProgram, D: Disk, G: Gate + Sync>(
    run: &Run<R, P, G>,
    graphs: &[D],
    crews: &mut Crews<D>,
    spills: &mut Vec<D>,
    meters: &mut Vec<D::M>,
    seat: &mut CursorSeat,
    beat: &Beat,
) -> EpochEnd
    requires job { IsWellFormedJob run.now.job.now }
    requires split { IsSplit run.now.split.now × IsSplitOf run.now.job.now run.now.split.now }
    requires few { (cursor : ℕ) → lens_of run.now.index.now cursor ≤ most_chunks }
    requires graphs { length graphs.now ≡ run.now.split.now.engines }
    requires crews { AreCrews run.now.job.now run.now.split.now crews.old }
    requires spills { AreDevices D.state run.now.split.now.engines beat.now spills.old.items }
    requires meters { vec_len meters.old ≡ run.now.split.now.engines }
    requires table { seat.old.table ≡ run.now.table.now }
    requires between { IsBetweenEpochs seat.old.view }
    ensures crews { AreCrews run.now.job.now run.now.split.now crews.new }
    ensures spills { GoOn D.state beat.now spills.old.items spills.new.items }
    ensures meters { MetersGoOn D.M.faults meters.old.items meters.new.items }
    ensures room { vec_capacity meters.old ≤ vec_capacity meters.new }
    ensures few { result.admitted ≤ 512 }
    ensures table { seat.new.table ≡ seat.old.table }
    ensures cause { result.outcome ≡ Outcome.DiskFault → OneCountRose D.M.faults meters.old.items meters.new.items ⊎ OneRose D.state spills.old.items spills.new.items }
    ensures calm { result.outcome ≡ Outcome.Done → SameCounts D.M.faults meters.old.items meters.new.items × NoneRose D.state spills.old.items spills.new.items }
    ensures sound { (records : ℕ → ℕ → List Edge) → HaveEdges D.state run.now.job.now run.now.split.now run.now.index.now graphs.now records → IsSound result.outcome }
    ensures damaged { NamesDamage (IsEdgeDamage D.state run.now.job.now run.now.split.now run.now.index.now graphs.now) result.outcome }
    ensures epochs { MakesFirst true run.now.job.now run.now.index.now (result.outcome ≡ Outcome.Done) seat.old.view seat.new.view result.claims result.admitted }
    ensures within { result.outcome ≡ Outcome.Done → LieWithin D.state crews.new.replicas.items spills.new.items }
    ensures counted { result.outcome ≡ Outcome.Done → (P.rules run.now.program.now).counts ≡ true → (edges : List Edge) → HasEdges D.state run.now.job.now run.now.split.now run.now.index.now graphs.now edges → Tell D.state spills.old.items
        → AreMerged (P.rules run.now.program.now) run.now.split.now crews.new.replicas.items (map (λ d. (D.state d).bytes) spills.new.items) (out_degree edges) }
{
    let context = GatherContext {
        program: run.program,
        serving: Serving {
            shelf: Shelf::Graphs(graphs),
            index: run.index,
            job: run.job,
            split: run.split,
            table: run.table,
        },
        counting: true,
        epoch: 0,
        gate: run.gate,
        beat,
    };
    outcome_is_of_a_worker();
    edges_are_counted(run.program);
    gather_all(
        run.rt,
        &context,
        seat,
        &mut crews.gather,
        meters,
        &mut crews.replicas,
        spills,
    )
}

/// Makes all accumulators new, with nothing on a device.
fn reset_all(all: &mut Vec<Replicas>, unit: u64)
    ensures many { vec_len all.new ≡ vec_len all.old }
    ensures splits { (split : Split) → All (λ r. split_of r ≡ split) all.old.items → All (λ r. split_of r ≡ split) all.new.items }
    ensures reset { All (λ r. (unit_of r ≡ unit) × IsUnspilled r) all.new.items }
{
    'workers: for worker in 0..all.len() {
        all[worker].reset(unit);
    }
}
