//! One epoch in which all workers scatter updates along the edges.
//!
//! To the room above it promises that all that is handed to the workers comes back in its place, whatever their outcomes;
//! that the first seat's story has the epoch's entries more, and that it is ready for the next epoch; that the outcome is
//! that of the lowest worker that is not done, and `Done` only where no count of faults rose; and, where all are done, that
//! each chunk of edges was taken once, and that the index of updates names exactly the chunks on the lanes, worker by
//! worker, which are those that the definition makes of what each worker sent. `ScatterCrew::new` and the lists of places
//! alone take memory. It touches nothing but what it is handed.
#![tactic(auto)]

mod crew;
mod epoch;
mod index;
mod moves;

pub use crew::ScatterCrew;
pub use epoch::scatter_all;
