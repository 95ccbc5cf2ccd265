//! The line of a vertex in an answer.
//!
//! It promises the exact bytes of the line, however its buffer was used before. It takes no memory and touches nothing
//! outside.
#![tactic(auto)]

mod line;
#[cfg(test)]
mod tests;

pub use line::{Shown, put_line};
