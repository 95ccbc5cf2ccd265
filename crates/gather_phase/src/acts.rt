//! The acts of a worker in a gather phase.
ghost use Rattle.std.specs.Prelude.{◌≡◌, ◌+◌, ◌*◌, ◌^◌, ◌<◌, ◌≤◌, length, OnOk};
ghost use Rattle.ports.specs.Told.{AsTold};
ghost use Rattle.replica_merge.specs.Accumulators.{split_of, unit_of, begun_of, sums_of, accumulators_of, LiesWithin, KeepsOthers};
ghost use Rattle.replica_merge.specs.Appending.{HasAppended};
ghost use Rattle.replica_merge.specs.Numbers.{bytes_of_numbers};
ghost use Rattle.store_reader.specs.Indexed.{IsServing};
ghost use Rattle.gather_phase.specs.Acting.{MayServeAt, HasServedAt, MayProposeAt, HasProposedAt, MayLeaveAt, HasLeftAt};

use crate::chunk::{serve_edges, serve_updates};
use crate::desk::{GatherContext, GatherDesk};
use gather_laws::VertexProgram;
use ports::{Beat, Disk, Failed, Gate};
use replica_merge::Replicas;
use steal_policy::{Proposal, propose};
use store_reader::Outcome;
use worker_duty::{Step, ask_about};

/// Claims a chunk once, and takes it into the accumulators of its partition.
pub(crate) fn serve_chunk<P: VertexProgram, D: Disk, G: Gate>(
    context: &GatherContext<P, D, G>,
    desk: &mut GatherDesk<D>,
    engine: u32,
    partition: u32,
) -> Step
    requires serving { IsServing context.now.serving }
    requires may { MayServeAt P.rules D.state D.M.faults context.now desk.old engine partition }
    ensures { HasServedAt P.rules D.state D.M.faults context.now desk.old desk.new engine partition result }
{
    if context.counting {
        return serve_edges(context, desk, engine, partition);
    }
    serve_updates(context, desk, engine, partition)
}

/// Proposes help with a partition.
pub(crate) fn propose_help<P: VertexProgram, D: Disk, G: Gate>(
    context: &GatherContext<P, D, G>,
    desk: &mut GatherDesk<D>,
    partition: u32,
) -> Proposal
    requires serving { IsServing context.now.serving }
    requires may { MayProposeAt P.rules D.state D.M.faults context.now desk.old partition }
    ensures { HasProposedAt P.rules D.state D.M.faults context.now desk.old desk.new partition result }
{
    let serving = &context.serving;
    let ask = ask_about(serving.job, serving.split, partition);
    propose(serving.table, &mut desk.seat, &ask)
}

/// Spills the accumulators of the partition that the worker leaves, where a chunk of it was taken.
pub(crate) fn leave_partition<P: VertexProgram, D: Disk, G: Gate>(
    context: &GatherContext<P, D, G>,
    desk: &mut GatherDesk<D>,
    partition: u32,
) -> bool
    requires serving { IsServing context.now.serving }
    requires may { MayLeaveAt P.rules D.state D.M.faults context.now desk.old partition }
    ensures { HasLeftAt P.rules D.state D.M.faults context.now desk.old desk.new partition result }
{
    let Some(begun) = desk.room.begun else {
        return true;
    };
    let room = &mut desk.room;
    match spill_sums(
        &mut desk.replicas,
        begun,
        &mut desk.spill,
        &mut room.bytes,
        context.beat,
    ) {
        Ok(()) => {
            desk.room.begun = None;
            true
        }
        Err(Failed) => {
            desk.outcome = Outcome::DiskFault;
            false
        }
    }
}

/// Appends the accumulators in memory to their device, through a buffer.
fn spill_sums<D: Disk>(
    replicas: &mut Replicas,
    partition: u32,
    spill: &mut D,
    bytes: &mut Vec<u8>,
    beat: &Beat,
) -> Result<(), Failed>
    requires partition { partition ≡ begun_of replicas.old }
    requires bytes { 8 ≤ length bytes.old.items }
    requires end { (D.state spill.old).size + 8 * length (sums_of replicas.old) < 2 ^ 63 }
    requires beat { (D.state spill.old).beat ≤ beat.now }
    requires within { LiesWithin replicas.old (D.state spill.old).size }
    ensures room { length bytes.new.items ≡ length bytes.old.items }
    ensures device { HasAppended beat.now (bytes_of_numbers (sums_of replicas.old)) (D.state spill.old) (D.state spill.new) result }
    ensures within { LiesWithin replicas.new (D.state spill.new).size }
    ensures split { split_of replicas.new ≡ split_of replicas.old }
    ensures unit { unit_of replicas.new ≡ unit_of replicas.old }
    ensures spilled { OnOk result (AsTold (λ before now. accumulators_of replicas.new now partition ≡ sums_of replicas.old) (D.state spill.old).bytes (D.state spill.new).bytes) }
    ensures others { AsTold (KeepsOthers replicas.old replicas.new partition) (D.state spill.old).bytes (D.state spill.new).bytes }
{
    replicas.spill(partition, spill, bytes, beat)
}
