//! A worker's accumulators, and the merge over all workers.
//!
//! A worker keeps the accumulators of one partition at a time in memory, and spills them to a device of its own. To the
//! room above this crate promises that replicas with their device are one list of accumulators for each partition, that
//! what was spilled lies within the device, and that the merge over all replicas takes each worker's accumulators once.
//! `Replicas::new` alone takes memory. It touches nothing but the devices that it is handed.
#![tactic(auto)]

mod merge;
mod numbers;
mod replicas;
mod spill;

pub use merge::merge_replicas;
pub use replicas::Replicas;

#[cfg(test)]
mod tests;
