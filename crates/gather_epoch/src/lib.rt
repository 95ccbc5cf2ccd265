//! One epoch in which all workers gather updates, or count edges.
//!
//! To the room above it promises that all that is handed to the workers comes back in its place, whatever their outcomes;
//! that the first seat's story has the epoch's entries more, and that it is ready for the next epoch; that the outcome is
//! that of the lowest worker that is not done; and, where all are done, that each chunk was taken once, and that each
//! worker's accumulators, with its device, are the sums over exactly the chunks in its list. `GatherCrew::new` alone
//! takes memory. It touches nothing but what it is handed.
#![tactic(auto)]

mod crew;
mod epoch;
mod moves;

pub use crew::GatherCrew;
pub use epoch::gather_all;
