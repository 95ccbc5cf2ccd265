//! How a call of the program ends: its status, and the line that tells of it.
//!
//! To the rooms above it promises that each ending has its status and its message, and that what is written to a
//! sink is exactly the message, or a front of it where the sink failed. It touches nothing but that sink.
#![tactic(auto)]

mod ending;
mod message;
#[cfg(test)]
mod tests;

pub use ending::{Ending, Report};
pub use message::{MessageLine, append_number, tell};
