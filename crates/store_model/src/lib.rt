//! What the devices of a store hold: the heads and chunks of graph devices, the slots of values devices, and the
//! store of a job over its edges.
//!
//! This is a room of definitions, which those who make, read and recover stores share. `specs/Heads.antt` and
//! `specs/Graphs.antt` say what stands on graph devices, in both formats, `specs/Slots.antt` how values devices are
//! laid out, `specs/Kept.antt` which contents are the store of a job, with its kept round, and `specs/Damage.antt`
//! what is wrong with a store, by the first check that fails. To the rooms above it promises what follows from
//! these, in `proofs/`. It touches nothing.
#![tactic(auto)]

mod field;

pub use field::{FIELDS, Field};
