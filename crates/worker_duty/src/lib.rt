//! The duty of a worker in a phase, written once: its own partitions first, each to the end, then one proposal of help to
//! each other partition, and claims to the end where that is admitted. What is done with a chunk that was claimed is the
//! business of the phase, which hands over its acts as closures, and says what they mean for its desks by the trait
//! `Phase`.
//!
//! To the room above it promises that the list of the worker's seat meets the duty where the work is through, and is
//! otherwise a front of such a list; that chunks taken and proposals admitted are counted; and that the acts of the phase
//! were done for just the chunks that were taken, in their order. It takes no memory, and touches nothing but what the
//! phase hands it.
#![tactic(auto)]

mod acts;
mod ask;
mod duty;
mod laws;

pub use acts::{Acts, Phase, Share, Step, Worked};
pub use ask::ask_about;
pub use duty::work;
pub use laws::{no_call_begins_a_duty, seats_may_work};
