//! What a chunk is: some records of one partition, as buffers make it of a list of items, and as it stands on a device.
//!
//! This is a bottom room of definitions. `specs/Chunks.antt` says which chunks are made of a list, with no buffer in
//! the definition, `specs/Buffers.antt` what buffers hold meanwhile, and `specs/Layout.antt` and
//! `specs/ChunkBytes.antt` how records and chunks are written and which bytes are a chunk. To the rooms above it
//! promises what follows from these, in `proofs/` and on the functions below, whose bodies are empty. It touches
//! nothing.
#![tactic(auto)]

mod laws;
#[cfg(test)]
mod tests;

pub use laws::{bytes_tell_chunks, chunks_hold_items};
