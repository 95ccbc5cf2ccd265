//! The laws of gather: what a vertex program is, and why its updates may be merged in any order.
//!
//! `VertexProgram` is the trait that every engine is generic over. Its contracts name one record of rules, and its
//! laws say that the updates to a vertex can be merged in any grouping and any order. The functions below state what
//! follows for every program: the merge over a list of sums is the merge over its pieces. This crate runs nothing,
//! takes no memory and touches nothing outside.
#![tactic(auto)]

mod laws;
mod numbers;
mod program;

pub use graph_model::Value;
pub use laws::{rounds_by_changed, sums_of_pieces, values_have_room};
pub use numbers::{CAP, NONE, plus};
pub use program::VertexProgram;
