//! The pure machine of a phase: its chunks, its shared cursors and helper counts, and the sums of each worker, without a
//! thread, a device or a handle.
//!
//! Events come in any order, from any worker, also at the wrong time. To the room above it promises that each event is
//! answered as the chunk object answers it, or with `NotNow` where it may not come now, which changes nothing; that a
//! chunk that is taken is folded into the sums of the worker that took it; and that the merge of all workers' sums is
//! the merge of what was taken, whoever took it. `laws` ties it to the calls of seats. It takes memory and touches
//! nothing outside.
#![tactic(auto)]

mod chunk;
mod chunks;
mod event;
mod gather;
mod laws;
mod machine;
mod run;
mod state;
#[cfg(test)]
mod tests;

pub use event::{Event, Reply};
pub use laws::{events_are_calls, merged_is_what_was_taken};
pub use run::{merged, run_events, step};
pub use state::Core;
