//! A store that stands: what is on its graph devices and values devices, and the chunks that it serves.
//!
//! To the room above it promises that reads tell what stands on the devices, each by one call, that a claim is made once
//! and gives the chunk at the place that it took, and that every fault has raised the count of its meter. It knows the
//! ports, files of chunks, shared cursors and the definitions of stores, and touches nothing but the devices, meters and
//! seats that it is handed.
#![tactic(auto)]

mod reading;
mod serving;
#[cfg(test)]
mod serving_tests;
mod store;
#[cfg(test)]
mod tests;

pub use reading::{all_open, read_set, read_values, slot_head};
pub use serving::{Served, Serving, Shelf, read_records, serve};
pub use store::{Outcome, Part, SlotHead, Store};
