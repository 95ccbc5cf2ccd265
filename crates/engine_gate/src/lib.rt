//! Gates: what a worker passes before it works in a phase.
//!
//! `OpenGate` lets everybody pass at once, and is what a program uses. `MeetGate` holds each worker of a phase until all
//! workers of it have come, or for a limited number of looks, so that a test can see that workers run beside each other.
//! To the room above this crate promises that a pass returns, takes no memory, and waits for nobody by a lock; no
//! contract says whom a gate holds. It touches nothing but the words of its own gates.
#![tactic(auto)]

mod gate;
mod meet;

pub use gate::OpenGate;
pub use meet::MeetGate;

#[cfg(test)]
mod tests;
