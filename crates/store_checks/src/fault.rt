use store_reader::Part;
use thiserror::Error;

/// Why a store was not recovered. Of several faults of the devices' bytes it is the first by the order of the checks.
#[derive(Clone, Copy, PartialEq, Eq, Debug, Error)]
pub enum RecoverFault {
    /// Some graph device is not open.
    #[error("the store is not prepared")]
    NotPrepared,
    /// The heads are of another number of engines than there are devices.
    #[error("the store has {held} engines, not {asked}")]
    EnginesDiffer { held: u32, asked: u32 },
    /// What stands on a device of this engine from this byte on is no part of a store.
    #[error("a device of engine {engine} is damaged at byte {place}")]
    Damaged { part: Part, engine: u32, place: u64 },
    /// A read of a device failed.
    #[error("a read of a device failed")]
    DiskFault,
    /// No memory was left.
    #[error("out of memory")]
    Memory,
}
