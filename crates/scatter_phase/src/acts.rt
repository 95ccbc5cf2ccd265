//! The acts of a worker in a scatter phase.
ghost use Rattle.std.specs.Prelude.{◌*◌, ◌<◌};
ghost use Rattle.store_reader.specs.Indexed.{IsServing};
ghost use Rattle.store_reader.specs.Values.{AreValueDevices};
ghost use Rattle.scatter_phase.specs.Rooms.{AreSlots};
ghost use Rattle.scatter_phase.specs.Acting.{MayServeAt, HasServedAt, MayProposeAt, HasProposedAt, MayLeaveAt, HasLeftAt};

use crate::desk::{ScatterContext, ScatterDesk};
use crate::send::scatter_chunk;
use gather_laws::VertexProgram;
use ports::{Disk, Gate};
use steal_policy::{Proposal, propose};
use store_reader::{Outcome, Part, Served, read_records};
use worker_duty::{Step, ask_about};

/// Claims a chunk once, and sends along its edges.
pub(crate) fn serve_chunk<P: VertexProgram, D: Disk, G: Gate>(
    context: &ScatterContext<P, D, G>,
    desk: &mut ScatterDesk<D>,
    engine: u32,
    partition: u32,
) -> Step
    requires serving { IsServing context.now.serving }
    requires values { AreValueDevices D.state context.now.serving.split.now context.now.values.now }
    requires slots { AreSlots context.now.slot context.now.before }
    requires may { MayServeAt P.rules D.state D.M.faults context.now desk.old engine partition }
    ensures { HasServedAt P.rules D.state D.M.faults context.now desk.old desk.new engine partition result }
{
    let room = &mut desk.room;
    let served = read_records(
        &context.serving,
        &mut desk.meter,
        &mut desk.seat,
        engine,
        partition,
        &mut room.bytes,
        &mut room.edges,
    );
    match served {
        Served::Chunk(count) => scatter_chunk(context, desk, partition, count),
        Served::Exhausted => Step::Exhausted,
        Served::DiskFault => {
            desk.outcome = Outcome::DiskFault;
            Step::Stopped
        }
        Served::Damaged(place) => {
            desk.outcome = Outcome::Damaged {
                part: Part::Graph,
                engine,
                place,
            };
            Step::Stopped
        }
    }
}

/// Proposes help with a partition.
pub(crate) fn propose_help<P: VertexProgram, D: Disk, G: Gate>(
    context: &ScatterContext<P, D, G>,
    desk: &mut ScatterDesk<D>,
    partition: u32,
) -> Proposal
    requires serving { IsServing context.now.serving }
    requires may { MayProposeAt P.rules D.state D.M.faults context.now desk.old partition }
    ensures { HasProposedAt P.rules D.state D.M.faults context.now desk.old desk.new partition result }
{
    let serving = &context.serving;
    let ask = ask_about(serving.job, serving.split, partition);
    propose(serving.table, &mut desk.seat, &ask)
}

/// Leaves a partition as it is: what was sent waits for its chunks, whatever partition it came from.
pub(crate) fn leave_partition<P: VertexProgram, D: Disk, G: Gate>(
    context: &ScatterContext<P, D, G>,
    desk: &mut ScatterDesk<D>,
    partition: u32,
) -> bool
    requires may { MayLeaveAt P.rules D.state D.M.faults context.now desk.old partition }
    ensures { HasLeftAt P.rules D.state D.M.faults context.now desk.old desk.new partition result }
{
    let _context = context;
    let _desk = &*desk;
    let _partition = partition;
    true
}
