// How a job ends.
use round_loop::{Done, RoundFault};

/// How a job has ended.
#[derive(Clone, Copy, Debug, PartialEq, Eq)]
pub enum Finish {
    /// The last round was made, and its answer printed.
    Answered(Done),
    /// The last round was made, and the sink took no more of its answer.
    NotWritten(Done),
    /// The last round was made, and a values device could not be read while its answer was printed.
    NotRead(Done),
    /// There was a fault before the last round.
    Stopped(RoundFault),
}
