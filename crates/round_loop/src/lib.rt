//! The rounds of a job on a store: from the first one, or from one that stands, to the last.
//!
//! To the room above it promises that on every answer all devices, meters and the seat are back in their places and the
//! seat is ready for the next epoch; that a run goes through exactly the epochs of its job; that the last round stands on
//! every engine when it is done, and that the limit is answered exactly where the rounds do not settle within it; that
//! the round before stands whenever it ends; that damage names a chunk of the index, or of updates, that was refused; and
//! what a stop in each beat leaves of each values device. A round that is handed in need only be what reads give: where
//! it also stood in every image, it still does while the next one is made. It makes each round by `round_steps`, takes
//! what memory it can before the first, and touches nothing but what it is handed.
#![tactic(auto)]

mod course;
mod fault;
mod run;

pub use fault::RoundFault;
pub use run::{Done, Start, run_rounds};
