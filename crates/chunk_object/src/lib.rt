//! What calls on shared cursors mean, for every layer that speaks of them. It has data types and definitions and no
//! state of its own: the chunk object as one thread would keep it, lists of calls with their callers, legal histories,
//! epochs, the duty of a worker in an epoch, and laws on these, each of which stands on a function with an empty body.
//! `proofs/WorkedExamples.antt` runs the definitions on examples.
//!
//! To the room above it promises the laws; it touches nothing.
#![tactic(auto)]

mod call;
mod laws;

pub use call::{Call, Entry};
pub use laws::{
    cursor_is_taken_once, duty_takes_each_chunk_once, epoch_is_taken_once, lists_keep_order,
};
