ghost use Rattle.std.specs.Prelude.{◌≡◌};
ghost use Rattle.storage_engine.specs.declared.fault.MakeFault.TheVariants as make;

use ports::{Failed, Memory};
use thiserror::Error;

/// Why a store was not made.
#[derive(Clone, Copy, PartialEq, Eq, Debug, Error)]
pub enum PrepareFault {
    /// The line of this number, from 1, is the first malformed one.
    #[error("line {0} is malformed")]
    BadLine(u64),
    /// The text goes on past its limit.
    #[error("the text is longer than its limit")]
    TooLong,
    /// A read of the source failed.
    #[error("a read of the source failed")]
    ReadFault,
    /// A write, cut or sync of a device failed.
    #[error("a call of a device failed")]
    DiskFault,
    /// No memory was left.
    #[error("out of memory")]
    Memory,
}

/// Why an edge was not taken into a store, or the store was not finished.
#[derive(Clone, Copy, PartialEq, Eq, Debug)]
pub(crate) enum MakeFault {
    /// A write, cut or sync of a device failed.
    DiskFault,
    /// No memory was left.
    Memory,
}

impl From<Failed> for MakeFault {
    ghost from_gives = { λ failed fault. fault ≡ make.DiskFault };

    fn from(_: Failed) -> Self {
        MakeFault::DiskFault
    }
}

impl From<Memory> for MakeFault {
    ghost from_gives = { λ memory fault. fault ≡ make.Memory };

    fn from(_: Memory) -> Self {
        MakeFault::Memory
    }
}
