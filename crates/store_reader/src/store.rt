//! The devices of a store, and what a worker on them comes to.
use ports::Disk;

/// The devices of a store: for each engine a graph device, a values device and a device for a worker's replicas, and for
/// each worker a lane on each engine, `lanes[worker][engine]`.
#[derive(Drop)]
pub struct Store<D: Disk> {
    pub graphs: Vec<D>,
    pub values: Vec<D>,
    pub lanes: Vec<Vec<D>>,
    pub spills: Vec<D>,
}

/// A kind of device.
#[derive(Clone, Copy, Debug, PartialEq, Eq)]
pub enum Part {
    Graph,
    Values,
    Lane,
}

/// How a worker's part of a phase has ended.
#[derive(Clone, Copy, Debug, PartialEq, Eq)]
pub enum Outcome {
    /// All of it was done.
    Done,
    /// A call of a device or a read through a meter failed.
    DiskFault,
    /// What stands on a device of this engine from this byte on is no part of a store.
    Damaged { part: Part, engine: u32, place: u64 },
    /// No memory was left.
    Memory,
}

/// The head of a slot of a values device.
#[derive(Clone, Copy, Debug, PartialEq, Eq)]
pub struct SlotHead {
    /// Whether its gate is open; if not, the numbers mean nothing.
    pub is_open: bool,
    /// The round whose values the slot has.
    pub round: u64,
    /// How many of the engine's vertices changed in that round.
    pub changed: u64,
}
