//! Tests of the top call on devices in memory: what lines of words at the borders mean, rows of words and texts
//! with what must be printed, what a report counts, calls in turn on one store, stores of which a byte was changed,
//! each call of the outside that fails, a stop at every moment of a call and once more in the resume, two engines
//! that meet in a phase, chunks placed by many seeds, a device that changes an edge between two rounds, and a large
//! run beside the plain engine. It has no code of its own, promises nothing and touches disks in memory alone.
#![tactic(auto)]

#[cfg(test)]
mod bench_tests;
#[cfg(test)]
mod call;
#[cfg(test)]
mod changing;
#[cfg(test)]
mod changing_tests;
#[cfg(test)]
mod contents;
#[cfg(test)]
mod engine_tests;
#[cfg(test)]
mod fault_tests;
#[cfg(test)]
mod faults;
#[cfg(test)]
mod jobs;
#[cfg(test)]
mod row_tests;
#[cfg(test)]
mod rows;
#[cfg(test)]
mod stop_tests;
#[cfg(test)]
mod stops;
#[cfg(test)]
mod stores;
#[cfg(test)]
mod stream_tests;
#[cfg(test)]
mod turn_tests;
#[cfg(test)]
mod word_tests;
#[cfg(test)]
mod world;
