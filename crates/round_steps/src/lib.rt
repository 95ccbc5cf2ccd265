//! One step of the rounds of a job on a store: round 0, or a round from the one before it, on all engines at once.
//!
//! To the room above it promises that on every answer all devices, meters and the seat are back in their places and the
//! seat is ready for the next epoch; that the epochs of a step are exactly those of its round; that where all is done
//! the values of the round stand on every engine, whatever worker took what; that damage names a chunk that was refused,
//! on devices that tell their bytes and on others; and what a stop at any moment leaves of each values device.
//! `Crews::new` takes what memory it can beforehand; a round takes memory for the places of its updates alone. The beat
//! goes on right before the values devices are written, and nowhere else. It touches nothing but what it is handed.
#![tactic(auto)]

mod crews;
mod epochs;
mod first;
mod round;
mod run;
mod store;
mod updates;

pub use crews::Crews;
pub use first::make_first;
pub use round::make_round;
pub use run::{RoundEnd, Run};
