//! Whether a worker helps with a partition that is not its own, and how it proposes that.
//!
//! To the room above it promises that help is accepted exactly where the rule of cost says so, and that a proposal
//! makes just the calls that it is to make, in their order, and answers by what they found. It decides on the shared
//! words alone: nobody is asked, nobody waits, and no memory is taken. It touches nothing but the cursor table.
#![tactic(auto)]

mod cost;
mod proposal;

pub use cost::accepts;
pub use proposal::{Ask, Proposal, propose};

#[cfg(test)]
mod tests;
