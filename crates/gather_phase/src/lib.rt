//! The gather phase of a worker: it claims chunks by its duty and takes the updates in them into sums of their
//! destinations, or, where a job begins, counts edges at their sources.
//!
//! To the room above it promises that the worker's list meets the duty where the outcome is `Done`, and is otherwise a
//! front of such a list; that its accumulators, with the device that they are spilled to, are then the sums over exactly
//! the chunks in that list, and no chunk in it was passed over; that it takes no memory; that a disk fault comes only
//! where a count of faults rose; and that damage is that of a chunk of the index, and never comes where the devices tell
//! their bytes and have the chunks that the index names. It keeps the accumulators of one partition in memory, and spills
//! them as the worker leaves it, where a chunk of it was taken. It touches the desk of its worker, and of what is lent to
//! all workers the cursors alone.
#![tactic(auto)]

mod acts;
mod chunk;
mod desk;
mod gather;
mod sums;

pub use desk::{GatherContext, GatherDesk, GatherRoom};
pub use gather::gather_work;
