//! The top call of the program: from the words and the edge text to the printed lines.
//!
//! `chaos` reads the words, does what they ask for on the store that it is handed, and tells how it ended. Its
//! contract is the promise of the whole program: `specs/Outcome.antt` says by the words which record of the rooms
//! below holds of the call. It touches the source, the two sinks, and the store with its meters, table, seat and
//! beat.
#![tactic(auto)]

mod serve;
mod top;

pub use top::chaos;
