//! Reads an edge text that comes in pieces.
//!
//! To the room above: whatever the cut into pieces, `EdgeReader` appends exactly the edges of the text, and refuses
//! it exactly where a line is malformed or the text is longer than its limit, the first malformed line within the
//! limit first. A refusal is answered again by every later call. It keeps no byte of the text, takes a byte in a
//! step, and wants memory only where the list of edges grows. It touches nothing outside.
#![tactic(auto)]

mod line;
mod reader;
#[cfg(test)]
mod tests;

pub use graph_model::{Edge, TextFault};
pub use reader::EdgeReader;
