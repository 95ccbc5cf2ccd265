//! A job, run over the text that a number stands for, with a summary in place of its answer.
//!
//! To the room above it promises what `specs/Benches.antt` says of a bench: it is a run by `text_run` over exactly
//! the text of the number, of which `out` gets the summary of the answer and nothing else, and no line of that text
//! is called malformed where the graph has room for its vertices. It touches nothing but what it is handed.
#![tactic(auto)]

mod bench;
mod summary_lines;

pub use bench::run_bench;
