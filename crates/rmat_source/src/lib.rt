//! A large graph that a number stands for, and a summary of what was written.
//!
//! `RmatText` is a source of exactly the edge text that its scale, its number of edges and its number name; it is
//! made line by line as it is read, and is never in memory as a whole. `Summary` is a sink that counts and marks
//! exactly what is written to it. Neither ever fails, takes memory or touches anything outside. Two laws (`laws`)
//! say that no line of such a text is malformed, and which edges it has.
#![tactic(auto)]

mod laws;
mod line;
mod summary;
mod text;
mod words;
mod written;

pub use laws::{made_text_has_the_edges_drawn, made_text_is_well_formed};
pub use summary::Summary;
pub use text::RmatText;

#[cfg(test)]
mod tests;
