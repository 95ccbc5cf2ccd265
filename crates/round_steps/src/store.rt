//! Apply: the values of a round are made and stored.
ghost use Rattle.std.specs.Prelude.{◌≡◌, ◌⊎◌, ℕ, ◌-◌, ◌<◌, ◌≤◌, All, List, map, false, slice_index_or, vec_len, vec_capacity, length};
ghost use Rattle.graph_model.specs.declared.edge.Edge.{Edge};
ghost use Rattle.graph_model.specs.Rounds.{IsWithinGraph, values as round_values};
ghost use Rattle.partitioner.specs.Splits.{IsSplit, IsSplitOf};
ghost use Rattle.graph_model.specs.Jobs.{IsWellFormedJob};
ghost use Rattle.store_model.specs.Slots.{device_size};
ghost use Rattle.store_reader.specs.Reading.{own_in};
ghost use Rattle.apply_round.specs.Made.{AreMerged, made};
ghost use Rattle.replica_merge.specs.Accumulators.{split_of};
ghost use Rattle.apply_round.specs.Crew.{IsCrewOf};
ghost use Rattle.ports.specs.Devices.{OneRose, NoneRose, MetersGoOn, AreDevices, OneCountRose, SameCounts};
ghost use Rattle.round_steps.specs.Crews.{LieWithin};
ghost use Rattle.round_steps.specs.Going.{KeepsOthers};
ghost use Rattle.round_steps.specs.Standing.{IsSound, StandsBefore};
ghost use Rattle.round_steps.specs.Rounds.{StoresRound};

use crate::run::Run;
use apply_round::{Applied, ApplyCrew, apply_all};
use checkpoint::ApplyContext;
use gather_laws::{VertexProgram, values_have_room};
use ports::{Beat, Disk, Gate};
use replica_merge::Replicas;
use std::thread::Threads;
use store_reader::Outcome;

/// Makes a round of all vertices of what the workers have summed up, and stores it on the values devices.
pub(crate) fn store_round<R: Threads + Sync, P: VertexProgram, D: Disk, G: Gate + Sync>(
    run: &Run<R, P, G>,
    crew: &mut ApplyCrew<D>,
    values: &mut Vec<D>,
    replicas: &[Replicas],
    spills: &[D],
    meters: &mut Vec<D::M>,
    round: u64,
    beat: &Beat,
) -> Applied
    requires job { IsWellFormedJob run.now.job.now }
    requires split { IsSplit run.now.split.now × IsSplitOf run.now.job.now run.now.split.now }
    requires crew { IsCrewOf run.now.split.now crew.old }
    requires replicas { (length replicas.now ≡ run.now.split.now.engines) × All (λ r. split_of r ≡ run.now.split.now) replicas.now }
    requires values { AreDevices D.state run.now.split.now.engines beat.now values.old.items }
    requires sizes { (e : ℕ) (d : D) → e < run.now.split.now.engines → (D.state (slice_index_or values.old.items e d)).size ≡ device_size (own_in run.now.split.now e) }
    requires spills { length spills.now ≡ run.now.split.now.engines }
    requires meters { vec_len meters.old ≡ run.now.split.now.engines }
    requires within { LieWithin D.state replicas.now spills.now }
    ensures crew { IsCrewOf run.now.split.now crew.new }
    ensures meters { MetersGoOn D.M.faults meters.old.items meters.new.items }
    ensures room { vec_capacity meters.old ≤ vec_capacity meters.new }
    ensures cause { result.outcome ≡ Outcome.DiskFault → OneCountRose D.M.faults meters.old.items meters.new.items ⊎ OneRose D.state values.old.items values.new.items }
    ensures calm { result.outcome ≡ Outcome.Done → SameCounts D.M.faults meters.old.items meters.new.items × NoneRose D.state values.old.items values.new.items }
    ensures sound { IsSound result.outcome }
    ensures keeps { KeepsOthers D.state run.now.split.now round beat.now (result.outcome ≡ Outcome.Done) values.old.items values.new.items }
    ensures stored { (edges : List Edge) (numbers : ℕ → ℕ) → IsWithinGraph run.now.split.now.vertices edges
        → AreMerged (P.rules run.now.program.now) run.now.split.now replicas.now (map (λ d. (D.state d).bytes) spills.now) numbers
        → made (P.rules run.now.program.now) run.now.split.now.vertices round numbers (round_values (P.rules run.now.program.now) run.now.split.now.vertices edges (round - 1)) ≡ round_values (P.rules run.now.program.now) run.now.split.now.vertices edges round
        → ((e : ℕ) (d : D) → e < run.now.split.now.engines → StandsBefore (P.rules run.now.program.now) run.now.split.now edges round false e (D.state (slice_index_or values.old.items e d)).bytes)
        → StoresRound D.state (P.rules run.now.program.now) run.now.split.now edges round beat.now (result.outcome ≡ Outcome.Done) result.changed values.old.items values.new.items }
{
    let context = ApplyContext {
        program: run.program,
        split: run.split,
        replicas,
        spills,
        round,
        beat,
    };
    values_have_room(run.program);
    apply_all(run.rt, &context, crew, values, meters)
}
