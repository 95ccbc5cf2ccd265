//! Why a run has ended before its last round.
ghost use Rattle.std.specs.Prelude.{◌≡◌, IfErr, OnOk};
ghost use Rattle.round_loop.specs.Answers.{IsFaultOf};
ghost use Rattle.round_loop.specs.declared.fault.RoundFault.TheVariants as fault;

use ports::Memory as NoMemory;
use store_reader::{Outcome, Part};
use thiserror::Error;

/// Why a run has ended before its last round.
#[derive(Clone, Copy, PartialEq, Eq, Debug, Error)]
pub enum RoundFault {
    /// The values still change in the last round that may be made.
    #[error("the values still change in the last round within the limit")]
    RoundLimit,
    /// A call of a device or a read through a meter failed.
    #[error("a call of a device failed")]
    DiskFault,
    /// What stands on a device of this engine from this byte on is no part of a store.
    #[error("a device of engine {engine} is damaged at byte {place}")]
    Damaged { part: Part, engine: u32, place: u64 },
    /// No memory was left.
    #[error("out of memory")]
    Memory,
}

impl From<NoMemory> for RoundFault {
    ghost from_gives = { λ _ given. given ≡ fault.Memory };

    fn from(_: NoMemory) -> Self {
        RoundFault::Memory
    }
}

/// The fault that an outcome is, if it is one.
pub(crate) fn check(outcome: Outcome) -> Result<(), RoundFault>
    ensures done { OnOk result (outcome ≡ Outcome.Done) }
    ensures fault { IfErr result (IsFaultOf outcome) }
{
    match outcome {
        Outcome::Done => Ok(()),
        Outcome::DiskFault => Err(RoundFault::DiskFault),
        Outcome::Damaged {
            part,
            engine,
            place,
        } => Err(RoundFault::Damaged {
            part,
            engine,
            place,
        }),
        Outcome::Memory => Err(RoundFault::Memory),
    }
}
