//! What is the same in all rounds.
ghost use Rattle.std.specs.Prelude.{◌≡◌, ◌≢◌, true, false};

use chunk_cursor::CursorTable;
use chunk_file::Index;
use gather_laws::VertexProgram;
use graph_model::Job;
use partitioner::Split;
use ports::Gate;
use std::thread::Threads;
use store_reader::Outcome;

/// What is lent to all rounds of a run.
#[derive(Drop)]
pub struct Run<'a, R: Threads + Sync, P: VertexProgram, G: Gate + Sync> {
    pub rt: &'a R,
    pub program: &'a P,
    pub job: &'a Job,
    pub split: &'a Split,
    /// Where the chunks of edges stand.
    pub index: &'a Index,
    pub table: &'a CursorTable,
    pub gate: &'a G,
}

/// What a round came to.
#[derive(Clone, Copy, Debug, PartialEq, Eq)]
pub struct RoundEnd {
    /// That of the lowest worker that is not done, in the phase that came last.
    pub outcome: Outcome,
    /// How many vertices the round has changed, where all is done.
    pub changed: u64,
    /// How many chunks were taken.
    pub claims: u64,
    /// How often help was admitted.
    pub admitted: u64,
}

/// Whether all was done.
pub(crate) fn is_done(outcome: Outcome) -> bool
    ensures done { result ≡ true → outcome ≡ Outcome.Done }
    ensures stopped { result ≡ false → outcome ≢ Outcome.Done }
{
    match outcome {
        Outcome::Done => true,
        Outcome::DiskFault => false,
        Outcome::Damaged { .. } => false,
        Outcome::Memory => false,
    }
}
