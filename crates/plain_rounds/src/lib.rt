//! The plain engine: all rounds of a program over a list of edges in memory, on one thread.
//!
//! Other engines are compared with it. It promises the values of the program's last round, or that there is none
//! within the limit. A round takes one pass over the edges and one over the vertices, and no memory. It touches
//! nothing outside.
#![tactic(auto)]

mod pass;
mod run;
mod start;
#[cfg(test)]
mod tests;

pub use run::{PlainFault, plain_run};
