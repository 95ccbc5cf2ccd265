//! Stores after a stop: what stands in a store that is opened again, and how a store is given up.
//!
//! To the room above it promises that of a store's bytes the first of six checks that fails is answered, which is
//! only one, or its job, the places of its chunks and the greatest round that every engine has; and that a store
//! which is being dropped is never open in part: at each moment its devices are as they were, or some graph device
//! is not open, and afterwards nothing is left of it. It touches nothing but the devices, meters and beats that it
//! is handed.
#![tactic(auto)]

#[cfg(test)]
mod byte_tests;
#[cfg(test)]
mod drop_tests;
mod dropping;
#[cfg(test)]
mod engine_tests;
mod laws;
#[cfg(test)]
mod plain_checker;
#[cfg(test)]
mod recover_tests;
mod recovering;
#[cfg(test)]
mod test_stores;
#[cfg(test)]
mod tests;

pub use dropping::drop_store;
pub use laws::first_fault_is_one;
pub use recovering::{Recovered, recover};
pub use store_checks::RecoverFault;
