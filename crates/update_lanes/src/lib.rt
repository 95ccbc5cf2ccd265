//! The updates of a worker on their way to its lanes: buffers by partition, of which a full one becomes a chunk on the lane
//! that the placing names.
//!
//! To the room above it promises that lanes and places are exactly the chunks that the definition makes of the updates
//! sent, in their order; that edges send just what the definition says, from all vertices or from those that changed; that
//! a place is reserved before its chunk is written; that a fault has raised the count of a lane; and that on Ok none rose. It
//! touches nothing but the buffers, places and lanes that it is handed, and takes memory for buffers and places alone.
#![tactic(auto)]

mod lanes;
mod outgoing;
mod sending;

pub use lanes::{LaneFault, write_chunk};
pub use outgoing::{Outgoing, flush_lanes, flush_rest, put, reset};
pub use sending::{mark_changes, send_all, send_changed};
