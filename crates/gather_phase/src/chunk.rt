//! What a worker does with a chunk.
ghost use Rattle.std.specs.Prelude.{◌≡◌, ◌*◌, ◌<◌, ◌≤◌, true, false, Some, length, take};
ghost use Rattle.graph_model.specs.Programs.{plus as capped_sum};
ghost use Rattle.phase_model.specs.Sums.{counts_of};
ghost use Rattle.replica_merge.specs.Accumulators.{split_of, begun_of, sums_of};
ghost use Rattle.gather_phase.specs.Summing.{AreWithin, ComeFrom, HasSummed};
ghost use Rattle.gather_phase.specs.Memory.{SameSpills, HasCome, begun_or};
ghost use Rattle.store_reader.specs.Indexed.{IsServing};
ghost use Rattle.gather_phase.specs.Acting.{MayServeAt, HasServedAt};

use crate::desk::{GatherContext, GatherDesk};
use crate::sums::{count_edges, fold_updates};
use gather_laws::VertexProgram;
use graph_model::{Edge, Update};
use ports::{Disk, Gate};
use replica_merge::Replicas;
use store_reader::{Outcome, Part, Served, read_records};
use worker_duty::Step;

/// Claims a chunk of updates once, and takes its updates into the sums of its partition.
pub(crate) fn serve_updates<P: VertexProgram, D: Disk, G: Gate>(
    context: &GatherContext<P, D, G>,
    desk: &mut GatherDesk<D>,
    engine: u32,
    partition: u32,
) -> Step
    requires serving { IsServing context.now.serving }
    requires kind { context.now.counting ≡ false }
    requires may { MayServeAt P.rules D.state D.M.faults context.now desk.old engine partition }
    ensures { HasServedAt P.rules D.state D.M.faults context.now desk.old desk.new engine partition result }
{
    let (first, _) = context.serving.split.range(partition);
    let room = &mut desk.room;
    let served = read_records(
        &context.serving,
        &mut desk.meter,
        &mut desk.seat,
        engine,
        partition,
        &mut room.bytes,
        &mut room.updates,
    );
    match served {
        Served::Chunk(count) => {
            come_to(&mut desk.replicas, &mut desk.room.begun, partition);
            add_updates(
                context.program,
                &mut desk.replicas,
                first,
                &desk.room.updates,
                count,
            );
            Step::Took
        }
        Served::Exhausted => Step::Exhausted,
        Served::DiskFault => {
            desk.outcome = Outcome::DiskFault;
            Step::Stopped
        }
        Served::Damaged(place) => {
            desk.outcome = Outcome::Damaged {
                part: Part::Lane,
                engine,
                place,
            };
            Step::Stopped
        }
    }
}

/// Claims a chunk of edges once, and counts its edges in the accumulators of its partition.
pub(crate) fn serve_edges<P: VertexProgram, D: Disk, G: Gate>(
    context: &GatherContext<P, D, G>,
    desk: &mut GatherDesk<D>,
    engine: u32,
    partition: u32,
) -> Step
    requires serving { IsServing context.now.serving }
    requires kind { context.now.counting ≡ true }
    requires may { MayServeAt P.rules D.state D.M.faults context.now desk.old engine partition }
    ensures { HasServedAt P.rules D.state D.M.faults context.now desk.old desk.new engine partition result }
{
    let (first, _) = context.serving.split.range(partition);
    let room = &mut desk.room;
    let served = read_records(
        &context.serving,
        &mut desk.meter,
        &mut desk.seat,
        engine,
        partition,
        &mut room.bytes,
        &mut room.edges,
    );
    match served {
        Served::Chunk(count) => {
            come_to(&mut desk.replicas, &mut desk.room.begun, partition);
            add_edges(&mut desk.replicas, first, &desk.room.edges, count);
            Step::Took
        }
        Served::Exhausted => Step::Exhausted,
        Served::DiskFault => {
            desk.outcome = Outcome::DiskFault;
            Step::Stopped
        }
        Served::Damaged(place) => {
            desk.outcome = Outcome::Damaged {
                part: Part::Graph,
                engine,
                place,
            };
            Step::Stopped
        }
    }
}

/// Begins the partition, where none is begun.
fn come_to(replicas: &mut Replicas, begun: &mut Option<u32>, partition: u32)
    requires { partition < (split_of replicas.old).parts }
    ensures begun { begun.new ≡ Some (begun_or begun.old partition) }
    ensures come { HasCome replicas.old replicas.new begun.old partition }
{
    if begun.is_none() {
        replicas.begin(partition);
        *begun = Some(partition);
    }
}

/// Takes the first updates of a buffer into the accumulators in memory. The first of these is that of the vertex `first`.
fn add_updates<P: VertexProgram>(
    program: &P,
    replicas: &mut Replicas,
    first: u32,
    updates: &Vec<Update>,
    count: u32,
)
    requires count { count ≤ length updates.now.items }
    requires within { AreWithin first (length (sums_of replicas.old)) (take count updates.now.items) }
    ensures same { SameSpills replicas.old replicas.new }
    ensures begun { begun_of replicas.new ≡ begun_of replicas.old }
    ensures summed { HasSummed (P.rules program.now).fold first (take count updates.now.items) (sums_of replicas.old) (sums_of replicas.new) }
{
    fold_updates(program, replicas.acc(), first, &updates[..count as usize]);
}

/// Counts the first edges of a buffer in the accumulators in memory. The first of these is that of the vertex `first`.
fn add_edges(replicas: &mut Replicas, first: u32, edges: &Vec<Edge>, count: u32)
    requires count { count ≤ length edges.now.items }
    requires within { ComeFrom first (length (sums_of replicas.old)) (take count edges.now.items) }
    ensures same { SameSpills replicas.old replicas.new }
    ensures begun { begun_of replicas.new ≡ begun_of replicas.old }
    ensures summed { HasSummed capped_sum first (counts_of (take count edges.now.items)) (sums_of replicas.old) (sums_of replicas.new) }
{
    count_edges(replicas.acc(), first, &edges[..count as usize]);
}
