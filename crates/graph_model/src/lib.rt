//! What the engine computes: the meaning of an edge text, the programs, the rounds, the answer, partitions and jobs.
//!
//! This is the bottom room. It has the plain data types that the rooms above pass on under their own names, and in
//! `specs/` the definitions that every contract cites, over numbers and lists alone: no device, no thread and no engine
//! stands in them. `proofs/WorkedExamples.antt` computes each definition on worked examples, and the other files of
//! `proofs/` hold what follows from the definitions for every room above. It touches nothing outside.
#![tactic(auto)]

mod edge;
mod job;
mod value;

pub use edge::{Edge, MAX_WEIGHT, Meaning, TextFault};
pub use job::{Job, Program};
pub use value::{Update, Value};
