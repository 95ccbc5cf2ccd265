//! The five programs: breadth-first levels, labels of components, shortest distances, degrees and PageRank.
//!
//! Each type follows its record of rules exactly and meets the laws of gather, so any engine that is generic over
//! `VertexProgram` computes it. The calls saturate, take no memory, touch nothing outside and are inlined in loops.
#![tactic(auto)]

mod least;
mod totals;

pub use least::{Bfs, Labels, Sssp};
pub use totals::{Degrees, PageRank};
