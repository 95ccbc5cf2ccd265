//! The partitions of a job's vertices: consecutive ranges of one length, each with the engine that is its master.
//!
//! To the room above it promises that the number of partitions is the least that is enough, and that each number it
//! answers is the definition's; `proofs/Ranges.antt` says that the ranges together are all vertices and that the
//! engines' counts add up. Whoever is handed a split may ask that it is one that `Split::of` answers, and nothing more.
//! It takes no memory and touches nothing outside.
#![tactic(auto)]

mod split;
#[cfg(test)]
mod tests;

pub use split::Split;
