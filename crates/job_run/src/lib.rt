//! The rounds of a job's program on a store, and the answer of its last round.
//!
//! To the room above it promises that the rounds are those of the program that the job names, with all that `round_loop`
//! promises of them; that after the last round exactly the lines of its values were printed, or a front of them where the
//! sink or a values device failed, and nothing where the rounds were stopped; and that every fault has raised its count.
//! It touches nothing but what it is handed.
#![tactic(auto)]

mod answer;
mod finish;
mod run;

pub use finish::Finish;
pub use run::run_job;
