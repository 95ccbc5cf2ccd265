//! What an epoch came to.

use store_reader::Outcome;

/// What an epoch of all workers came to.
#[derive(Clone, Copy)]
pub struct EpochEnd {
    /// That of the lowest worker that is not done; `Memory` where there was none for the index of a scatter epoch.
    pub outcome: Outcome,
    /// How many chunks were taken.
    pub claims: u64,
    /// How often help was admitted.
    pub admitted: u64,
}
