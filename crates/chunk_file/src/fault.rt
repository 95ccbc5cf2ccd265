//! What keeps chunks from being read.
ghost use Rattle.std.specs.Prelude.{◌≡◌};

use ports::{Failed, Memory};
use thiserror::Error;

/// Why chunks were not read.
#[derive(Clone, Copy, PartialEq, Eq, Debug, Error)]
pub enum ChunkFault {
    /// A read of the device failed.
    #[error("a read of a device failed")]
    DiskFault,
    /// No well-formed chunk stands at this byte, or the index has no room for its place.
    #[error("no chunk stands at byte {0}")]
    Damaged(u64),
    /// No memory was left.
    #[error("out of memory")]
    Memory,
}

impl From<Failed> for ChunkFault {
    ghost use Rattle.chunk_file.specs.declared.fault.ChunkFault.TheVariants.{DiskFault};

    ghost from_gives = { λ _ fault. fault ≡ DiskFault };

    fn from(_: Failed) -> Self {
        ChunkFault::DiskFault
    }
}

impl From<Memory> for ChunkFault {
    ghost use Rattle.chunk_file.specs.declared.fault.ChunkFault.TheVariants as fault;

    ghost from_gives = { λ _ made. made ≡ fault.Memory };

    fn from(_: Memory) -> Self {
        ChunkFault::Memory
    }
}
