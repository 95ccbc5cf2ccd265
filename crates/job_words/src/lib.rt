//! What the words of a command line mean.
//!
//! `specs/` says it over the list of words, apart from any reader: `Tables` has the commands, programs, positional words,
//! options, flags, ranges and defaults, a row each; `Reading` says what the words give, in order, and which words are
//! refused; `Commands` makes of that the command, `command_of words`, or None. `job_of` is that definition over every list
//! of words, and its commands are in their ranges; `wanted` answers their engines. The words are read by one simple command
//! of `clap`, after `-` and `--` are refused. This room takes memory, and touches nothing outside.
#![tactic(auto)]

mod command;
mod decimal;
mod meaning;
mod reader;
mod tables;
mod words;

pub use command::{Command, WordFault};
pub use graph_model::{Job, Program};
pub use words::{job_of, wanted};
