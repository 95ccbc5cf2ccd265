//! Checkpoints: the values of a round in a slot of each engine's values device, while the round before stands in the other.
//!
//! To the room above this crate promises, for a stop at each moment, that the other slot is as it was, that the slot is
//! as it was or closed until it is open again, and that it then holds the round whole. `apply_work` makes that round of
//! the accumulators of all workers. It touches nothing but the devices and meters that it is handed, and takes no memory
//! but for its buffers.
#![tactic(auto)]

mod apply;
mod bytes;
mod room;
mod slots;
mod values;

pub use apply::{ApplyContext, ApplyDesk, apply_work};
pub use room::ApplyRoom;
pub use slots::{close_slot, open_slot, write_set};
