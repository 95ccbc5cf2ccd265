//! What the outcomes of several workers come to.
//!
//! To the room above this crate promises that it is the outcome of the lowest worker that is not done, and `Done` where
//! all are; and `EpochEnd` is what the epochs answer. It touches nothing.
#![tactic(auto)]

ghost use Rattle.std.specs.Prelude.{◌≡◌, ◌≢◌, ℕ, ◌<◌, [], ◌∷◌, ◌++◌, List, length, slice_index_or};
ghost use Rattle.worker_outcomes.specs.Lowest.{lowest_outcome, IsLowestAt};

mod epoch_end;

pub use epoch_end::EpochEnd;
use store_reader::Outcome;

/// The outcome of two workers, or of two groups of workers of which all in the first are lower.
pub fn lower_outcome(first: Outcome, next: Outcome) -> Outcome
    ensures { result ≡ lowest_outcome (first ∷ next ∷ []) }
{
    match first {
        Outcome::Done => next,
        Outcome::DiskFault => first,
        Outcome::Damaged { .. } => first,
        Outcome::Memory => first,
    }
}

/// With one worker more, the outcome is that of all before it, or else its own.
pub fn one_worker_more()
    ensures { (outcomes : List Outcome) (next : Outcome) → lowest_outcome (outcomes ++ next ∷ []) ≡ lowest_outcome (lowest_outcome outcomes ∷ next ∷ []) }
{}

/// Where the outcome is `Done` each worker is done, and else it is that of a worker, below which all are.
pub fn outcome_is_of_a_worker()
    ensures done { (outcomes : List Outcome) → lowest_outcome outcomes ≡ Outcome.Done → (worker : ℕ) (outcome : Outcome) → worker < length outcomes → slice_index_or outcomes worker outcome ≡ Outcome.Done }
    ensures of { (outcomes : List Outcome) → lowest_outcome outcomes ≢ Outcome.Done → (worker : ℕ) × IsLowestAt outcomes worker }
{}

#[cfg(test)]
mod tests;
