//! Cursors that all engines share: any caller may claim the next chunk of any cursor, and each chunk is given once.
//! It stands on words that change in single atomic steps, and takes no lock.
//!
//! To the room above it promises that the calls of all seats, each with its reply, stand in one legal history of the
//! chunk object; that each call adds itself to its own seat's list, and to no other; and that no call waits, or takes
//! memory but the one that makes the table. It touches nothing but its own words.
#![tactic(auto)]

mod rule;
mod table;
mod view;

pub use table::{Admit, Claim, CursorSeat, CursorTable};
pub use view::View;

#[cfg(test)]
mod tests;
