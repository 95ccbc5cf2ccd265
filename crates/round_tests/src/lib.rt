//! Tests that cross the rooms of rounds: scatter epochs of many workers over one store, workers that meet in each
//! phase and wait at their gate first, runs of all programs beside the plain engine, runs in which a single call of
//! a device fails, and runs that begin at a round that stands. It has no code of its own, promises nothing and
//! touches disks in memory alone.
#![tactic(auto)]

#[cfg(test)]
mod fault_tests;
#[cfg(test)]
mod faults;
#[cfg(test)]
mod graphs;
#[cfg(test)]
mod jobs;
#[cfg(test)]
mod made;
#[cfg(test)]
mod meet_tests;
#[cfg(test)]
mod reading;
#[cfg(test)]
mod run_tests;
#[cfg(test)]
mod runs;
#[cfg(test)]
mod scatter_tests;
#[cfg(test)]
mod scatters;
