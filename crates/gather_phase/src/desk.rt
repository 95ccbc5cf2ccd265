//! What a worker has at hand in a gather phase.
ghost use Rattle.std.specs.Prelude.{IfOk};
ghost use Rattle.graph_model.specs.Jobs.{IsWellFormedJob};

use chunk_cursor::CursorSeat;
use gather_laws::VertexProgram;
use graph_model::{Edge, Job, Update};
use ports::{Beat, Disk, Gate, Memory};
use replica_merge::Replicas;
use std::alloc::Global;
use store_reader::{Outcome, Serving};

/// The bytes of a chunk's head, and the most of a record in any format.
const HEAD_WIDTH: usize = 8;

const RECORD_WIDTH: usize = 16;

/// What is lent to all workers of a phase.
#[derive(Drop)]
pub struct GatherContext<'a, P: VertexProgram, D: Disk, G: Gate> {
    pub program: &'a P,
    /// The chunks: of edges where they are counted, else of updates.
    pub serving: Serving<'a, D>,
    /// Edges are counted at their sources, in place of updates that are summed at their destinations.
    pub counting: bool,
    /// The number of the phase.
    pub epoch: u64,
    pub gate: &'a G,
    pub beat: &'a Beat,
}

/// What one worker owns in a phase, and how its work has ended.
#[derive(Drop)]
pub struct GatherDesk<D: Disk> {
    pub worker: u32,
    pub seat: CursorSeat,
    pub meter: D::M,
    /// The worker's accumulators, with the device that they are spilled to.
    pub replicas: Replicas,
    pub spill: D,
    pub room: GatherRoom,
    /// How many chunks were taken.
    pub claims: u64,
    /// How often help was admitted.
    pub admitted: u64,
    pub outcome: Outcome,
}

/// The buffers of a worker.
#[derive(Drop)]
pub struct GatherRoom {
    /// One chunk as it stands on a device.
    pub(crate) bytes: Vec<u8>,
    pub(crate) updates: Vec<Update>,
    pub(crate) edges: Vec<Edge>,
    /// The partition whose accumulators are in memory and not spilled yet.
    pub(crate) begun: Option<u32>,
}

impl GatherRoom {
    ghost use Rattle.gather_phase.specs.Rooms.{IsRoom};

    /// Buffers for the chunks of a job.
    pub fn new(alloc: Global, job: &Job) -> Result<GatherRoom, Memory>
        requires { IsWellFormedJob job.now }
        ensures { IfOk result (IsRoom job.now) }
    {
        let chunk = job.chunk as usize;
        let no_update = Update { dst: 0, value: 0 };
        let no_edge = Edge {
            src: 0,
            dst: 0,
            weight: 0,
        };
        Ok(GatherRoom {
            bytes: vec![in alloc; 0; HEAD_WIDTH + RECORD_WIDTH * chunk]?,
            updates: vec![in alloc; no_update; chunk]?,
            edges: vec![in alloc; no_edge; chunk]?,
            begun: None,
        })
    }
}
