//! What the workers of a phase take, send and sum up, in words of their lists of calls. It has definitions and laws on
//! them and no state of its own: the chunks that a list took and the records in them, what edges send under given
//! values, the update chunks that a worker's buffers make of this and where each comes to stand, and the sums over what
//! was taken. Where records come from stands in no definition: each takes a function from a cursor and a place to a
//! list of records. `proofs/WorkedExamples.antt` runs the definitions on examples.
//!
//! To the room above it promises the laws; it touches nothing.
#![tactic(auto)]

mod laws;
mod placed;

pub use laws::{counts_are_degrees, sends_are_those_of_rounds};
pub use placed::Placed;
