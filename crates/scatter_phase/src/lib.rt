//! The scatter phase of a worker: it claims chunks of edges by its duty and sends along each edge from the value of its
//! source, from all vertices or from those alone whose value has changed, in chunks of updates on its lanes.
//!
//! To the room above it promises that the worker's list meets the duty where the outcome is `Done`, and is otherwise a
//! front of such a list; that its lanes and places are then exactly the update chunks of what the chunks in that list
//! send, in order, and no chunk in it was passed over; that places are few and within the split, whatever the answer;
//! that a disk fault comes only where a count of faults rose, and `Done` only where none did; and that damage is that of a
//! chunk of the index, and never comes where the devices tell their bytes and have the chunks that the index names. It
//! touches the desk of its worker, and of what is lent to all workers the cursors alone.
//!
//! In the code alone, memory is taken for the growth of the places, lanes are emptied before the first claim, and the
//! values of a partition are read once, after the first claim there that takes a chunk.
#![tactic(auto)]

mod acts;
mod desk;
mod empty;
mod load;
mod scatter;
mod send;

pub use desk::{ScatterContext, ScatterDesk, ScatterRoom};
pub use phase_model::Placed;
pub use scatter::scatter_work;
