//! A job, run over the text of a source on a store of its own.
//!
//! To the room above it promises what `run_model` says of a run: its ending has its cause and is what the text and the
//! devices call for, no call has failed unless it was interrupted or met damage, the answer is exactly that of the
//! synchronous rounds over the text's edges, the seat went through exactly the epochs of the job, and it is said what
//! stands after it and after a stop at any moment. It refuses a store that holds a job, makes one by `storage_engine`, runs it by `job_run`, and touches
//! nothing but what it is handed.
#![tactic(auto)]

mod run;

pub use run::run_text;
