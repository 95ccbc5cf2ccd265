//! What the commands of the program promise of a store: definitions, and how the finish of a job is told, with the chunks
//! of each engine.
//!
//! `Calls` says what can be seen of a call and when devices are ready for one; `Causes` why each ending comes and what the
//! text and the devices call for; `Printing` what was printed; `Epochs` what the seat went through; `Standing` what stands
//! afterwards; `Stops` what a stop leaves; and `Runs` puts them together. The rooms above prove each command against them.
//! It touches nothing, and takes no memory.
#![tactic(auto)]

mod telling;

pub use telling::ending_of;
