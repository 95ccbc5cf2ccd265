//! Tests that cross the rooms of stores: a store that is made while single calls fail, a worker's share of a gather
//! phase, two workers in threads, rounds that are stored, and a store that is recovered. It has no code of its own,
//! promises nothing and touches disks in memory alone.
#![tactic(auto)]

#[cfg(test)]
mod apply_tests;
#[cfg(test)]
mod crew;
#[cfg(test)]
mod fixtures;
#[cfg(test)]
mod fork_tests;
#[cfg(test)]
mod gather_tests;
#[cfg(test)]
mod prepare_tests;
#[cfg(test)]
mod recover_tests;
#[cfg(test)]
mod seats;
#[cfg(test)]
mod slot_tests;
