//! The seats of one epoch: the first seat opens the cursors, greets the partitions and splits off a seat for each worker,
//! and takes them all back.
//!
//! To the room above it promises what an epoch adds to the story of the first seat, in words of `chunk_object`; that each
//! worker's seat may do all that the duty asks; that after the epoch the first seat is ready for the next one; and, where
//! each worker's list meets the duty, that each chunk was taken exactly once. It takes no memory, and touches nothing but
//! the table of cursors and the seats.
#![tactic(auto)]

mod close;
mod laws;
mod open;

pub use close::close_epoch;
pub use laws::{
    dutiful_epoch_is_taken_once, new_seat_is_between_epochs, seats_keep_to_their_own_calls,
};
pub use open::open_epoch;

#[cfg(test)]
mod tests;
