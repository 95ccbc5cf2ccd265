//! What a worker has at hand in a scatter phase.
ghost use Rattle.std.specs.Prelude.{IfOk};
ghost use Rattle.graph_model.specs.Jobs.{IsWellFormedJob};
ghost use Rattle.partitioner.specs.Splits.{IsSplit, IsSplitOf};

use chunk_cursor::CursorSeat;
use gather_laws::VertexProgram;
use graph_model::{Edge, Job, Value};
use partitioner::Split;
use phase_model::Placed;
use ports::{Beat, Disk, Gate, Memory};
use std::alloc::Global;
use store_reader::{Outcome, Serving};
use update_lanes::Outgoing;

/// The bytes of a chunk's head, and the most of a record in any format, which are also those of a value.
const HEAD_WIDTH: usize = 8;

const RECORD_WIDTH: usize = 16;

/// What is lent to all workers of a phase.
#[derive(Drop)]
pub struct ScatterContext<'a, P: VertexProgram, D: Disk, G: Gate> {
    pub program: &'a P,
    /// The chunks of edges.
    pub serving: Serving<'a, D>,
    /// The values device of each engine.
    pub values: &'a [D],
    /// The number of the round that the updates lead to.
    pub round: u64,
    /// The slot of the values of the round before.
    pub slot: u32,
    /// The slot of the values of two rounds before, where those vertices alone send whose value has changed since.
    pub before: Option<u32>,
    /// The number of the phase.
    pub epoch: u64,
    pub gate: &'a G,
    pub beat: &'a Beat,
}

/// What one worker owns in a phase, and how its work has ended.
#[derive(Drop)]
pub struct ScatterDesk<D: Disk> {
    pub worker: u32,
    pub seat: CursorSeat,
    pub meter: D::M,
    /// The worker's lane on each engine.
    pub lanes: Vec<D>,
    /// Where the chunks on the lanes stand, in order of making.
    pub places: Vec<Placed>,
    pub room: ScatterRoom,
    /// How many chunks were taken.
    pub claims: u64,
    /// How often help was admitted.
    pub admitted: u64,
    pub outcome: Outcome,
}

/// The buffers of a worker.
#[derive(Drop)]
pub struct ScatterRoom {
    /// The updates that wait for their chunks.
    pub(crate) outgoing: Outgoing,
    /// One chunk of edges, or the values of one partition, as they stand on a device.
    pub(crate) bytes: Vec<u8>,
    pub(crate) edges: Vec<Edge>,
    /// The values of the round before in the partition that is loaded, and those of the round before that.
    pub(crate) now: Vec<Value>,
    pub(crate) before: Vec<Value>,
    /// Of each vertex of that partition whether the two differ.
    pub(crate) changed: Vec<bool>,
    /// The partition whose values are in memory.
    pub(crate) loaded: Option<u32>,
}

impl ScatterRoom {
    ghost use Rattle.scatter_phase.specs.Rooms.{IsRoom};

    /// Buffers for the chunks of a job, and for the values of any of its partitions.
    pub fn new(alloc: Global, job: &Job, split: &Split) -> Result<ScatterRoom, Memory>
        requires job { IsWellFormedJob job.now }
        requires split { IsSplit split.now }
        requires of_job { IsSplitOf job.now split.now }
        ensures { IfOk result (IsRoom job.now) }
    {
        let chunk = job.chunk as usize;
        let span = split.span as usize;
        let no_edge = Edge {
            src: 0,
            dst: 0,
            weight: 0,
        };
        let no_value = Value { main: 0, side: 0 };
        Ok(ScatterRoom {
            outgoing: Outgoing::new(alloc, job, split)?,
            bytes: vec![in alloc; 0; HEAD_WIDTH + RECORD_WIDTH * chunk.max(span)]?,
            edges: vec![in alloc; no_edge; chunk]?,
            now: vec![in alloc; no_value; span]?,
            before: vec![in alloc; no_value; span]?,
            changed: vec![in alloc; false; span]?,
            loaded: None,
        })
    }
}
