//! How a call of the program ended.
ghost use Rattle.std.specs.Prelude.{◌≡◌};

use store_reader::Part;

/// What a run tells of itself when its answer was printed.
#[derive(Clone, Copy, PartialEq, Eq, Debug)]
pub struct Report {
    /// The last round.
    pub rounds: u64,
    /// How many engines there were, 8 at most.
    pub engines: u32,
    /// How many edge chunks each engine had, that of engine 0 first. Nothing is told of places from `engines` on.
    pub chunks: [u64; 8],
    /// How many chunks the workers took in this call.
    pub claims: u64,
    /// How often they were admitted as helpers in this call.
    pub admitted: u64,
}

/// How a call of the program ended.
#[derive(Clone, Copy, PartialEq, Eq, Debug)]
pub enum Ending {
    /// The answer was printed.
    Answered(Report),
    /// The store was given up.
    Dropped,
    /// The words are refused.
    Usage,
    /// The line of this number, from 1, is the first malformed one.
    BadLine(u64),
    /// A call of a device or a read through a meter failed.
    DiskFault,
    /// No round within this limit repeats the values of the round before it.
    RoundLimit(u32),
    /// No memory was left.
    Memory,
    /// A read of the source failed.
    ReadFault,
    /// A write of the answer failed.
    WriteFault,
    /// Some graph device is not open.
    NotPrepared,
    /// The store is one of `held` engines, not of as many as were asked.
    EnginesDiffer { held: u32, asked: u32 },
    /// What stands on a device of this engine from this byte on is no part of a store.
    Damaged { part: Part, engine: u32, place: u64 },
    /// The text goes on past this number of bytes.
    TooLong(u64),
    /// All graph devices are open.
    StoreHolds,
}

impl Ending {
    ghost use Rattle.endings.specs.Endings.{status_of};

    /// The status that the program ends with.
    pub fn status(&self) -> u8
        ensures { result ≡ status_of self.now }
    {
        match self {
            Ending::Answered(_) | Ending::Dropped => 0,
            Ending::Usage => 1,
            Ending::BadLine(_) => 2,
            Ending::DiskFault => 3,
            Ending::RoundLimit(_) => 4,
            Ending::Memory => 5,
            Ending::ReadFault => 6,
            Ending::WriteFault => 7,
            Ending::NotPrepared => 8,
            Ending::EnginesDiffer { .. } => 9,
            Ending::Damaged { .. } => 10,
            Ending::TooLong(_) => 11,
            Ending::StoreHolds => 12,
        }
    }
}
