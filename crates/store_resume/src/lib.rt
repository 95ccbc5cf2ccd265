//! A job that stands on a store, gone on with from the round that the store keeps.
//!
//! To the room above it promises what `specs/Resumes.antt` says of a resume: each check of the store that fails is
//! answered, the first of them; of a whole store of a job it makes the job's rounds and prints exactly its answer;
//! no graph device is touched; and what a stop leaves of a store of a job is one of that job. It finds the job by
//! `restart`, runs it by `job_run`, and touches nothing but what it is handed.
#![tactic(auto)]

mod resume;

pub use resume::resume_store;
