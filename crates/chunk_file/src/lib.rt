//! Chunks of records on a device, and the index of where they stand.
//!
//! To the room above it promises that what `append_chunk` wrote `read_chunk` reads, whatever follows, that `read_chunk`
//! and `scan` accept exactly the well-formed chunks of `chunk_model`, and that every fault of a device raised its count
//! or its meter's. A chunk is one call of the device each way. It touches the devices it is handed and nothing else.
#![tactic(auto)]

mod append;
mod chunk;
mod fault;
mod index;
mod read;
mod record;
#[cfg(test)]
mod tests;
mod whole;

pub use append::append_chunk;
pub use fault::ChunkFault;
pub use index::{Index, MOST_PLACES, Place};
pub use read::read_chunk;
pub use record::Record;
pub use whole::{FIRST_CHUNK, scan};
