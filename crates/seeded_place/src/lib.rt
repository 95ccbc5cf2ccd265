//! On which engine each chunk is placed.
//!
//! To the room above it promises that the k-th chunk of a stream goes to the engine that the k-th word of ChaCha8 names,
//! modulo the engines, exactly: so whoever knows the seed, the stream and the number of engines can say where each chunk
//! is. It takes no memory and touches nothing.
#![tactic(auto)]

mod placer;

pub use placer::Placer;

#[cfg(test)]
mod tests;
