//! A store, given up.
//!
//! To the room above it promises what `specs/Drops.antt` says of giving a store up: at every stop all devices are
//! as they were or some graph device is not open, afterwards every device is empty, and all is in its place for a
//! further call. It does it by `restart`, and touches nothing but what it is handed.
#![tactic(auto)]

mod dropping;

pub use dropping::give_up;
