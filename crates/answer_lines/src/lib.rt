//! The answer of a job, printed line by line from the values devices of a store.
//!
//! To the room above it promises that what it wrote are exactly the lines of the values that stand in a slot, of all
//! vertices in order of ids, or after a fault a front of them, and that every fault has raised the count of the meter or
//! of the sink. It touches nothing but the devices, the meter and the sink that it is handed, and takes no memory but for
//! its buffers.
#![tactic(auto)]

mod buffer;
mod print;
mod room;
#[cfg(test)]
mod tests;

pub use print::{PrintFault, print_answer};
pub use room::AnswerRoom;
