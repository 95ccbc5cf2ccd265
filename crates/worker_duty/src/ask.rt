//! What a worker asks in a job.
ghost use Rattle.std.specs.Prelude.{◌≡◌, ◌<◌};
ghost use Rattle.graph_model.specs.Jobs.{IsWellFormedJob};
ghost use Rattle.partitioner.specs.Splits.{IsSplit, IsSplitOf};
ghost use Rattle.phase_model.specs.JobTerms.{terms_of};
ghost use Rattle.worker_duty.specs.Views.{ask_of};

use graph_model::Job;
use partitioner::Split;
use steal_policy::Ask;

/// The bytes that a vertex counts for, and those of a record and of the head of a chunk, whatever their width on a
/// device is.
const VERTEX_BYTES: u64 = 16;

const RECORD_BYTES: u64 = 12;

const HEAD_BYTES: u64 = 8;

/// What a proposal to help with a partition of a job is about.
pub fn ask_about(job: &Job, split: &Split, partition: u32) -> Ask
    requires job { IsWellFormedJob job.now }
    requires split { IsSplit split.now × IsSplitOf job.now split.now }
    requires partition { partition < split.now.parts }
    ensures { result ≡ ask_of (terms_of job.now) partition }
{
    let (first, end) = split.range(partition);
    Ask {
        engines: job.engines,
        partition,
        set_bytes: VERTEX_BYTES * u64::from(end - first),
        chunk_bytes: HEAD_BYTES + RECORD_BYTES * u64::from(job.chunk),
        alpha: job.alpha,
    }
}
