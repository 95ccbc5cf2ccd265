//! From what the workers of an epoch did to the sums of a round: laws on lists of calls, with no state and no code.
//!
//! Where each worker's list of calls in an epoch meets its duty, each chunk was taken exactly once (`chunk_object`).
//! This room says what follows from that: whoever took what, the merge of all workers' sums is that of the round, or the
//! number of edges out of each vertex, and the calls are events that the pure machine answers alike. It promises the laws
//! to the room above, and touches nothing.
#![tactic(auto)]

mod laws;

pub use laws::{calls_are_events, edges_are_counted, epoch_has_history, round_is_gathered};
