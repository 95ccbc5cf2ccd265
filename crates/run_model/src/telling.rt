// How the finish of a job is told.
ghost use Rattle.std.specs.Prelude.{◌≡◌, ℕ, ◌<◌, ◌≤◌};
ghost use Rattle.chunk_object.specs.History.{most_chunks};
ghost use Rattle.store_reader.specs.Indexed.{lens_of};
ghost use Rattle.run_model.specs.Telling;

use chunk_file::Index;
use endings::{Ending, Report};
use graph_model::Job;
use job_run::Finish;
use round_loop::{Done, RoundFault};

/// The ending by which it is told how a job has finished whose edge chunks stand at the places of the index.
pub fn ending_of(finish: Finish, job: &Job, index: &Index) -> Ending
    requires few { (cursor : ℕ) → lens_of index.now cursor ≤ most_chunks }
    ensures { result ≡ Telling.ending_of job.now index.now finish }
{
    match finish {
        Finish::Answered(done) => Ending::Answered(report_of(&done, job, index)),
        Finish::NotWritten(_) => Ending::WriteFault,
        Finish::NotRead(_) => Ending::DiskFault,
        Finish::Stopped(RoundFault::RoundLimit) => Ending::RoundLimit(job.limit),
        Finish::Stopped(RoundFault::DiskFault) => Ending::DiskFault,
        Finish::Stopped(
            RoundFault::Damaged {
                part,
                engine,
                place,
            },
        ) => Ending::Damaged {
            part,
            engine,
            place,
        },
        Finish::Stopped(RoundFault::Memory) => Ending::Memory,
    }
}

/// What is told of the rounds that were made.
fn report_of(done: &Done, job: &Job, index: &Index) -> Report
    requires few { (cursor : ℕ) → lens_of index.now cursor ≤ most_chunks }
    ensures { result ≡ Telling.report_of job.now index.now done.now }
{
    Report {
        rounds: done.round,
        engines: job.engines,
        chunks: counts_of(index),
        claims: done.claims,
        admitted: done.admitted,
    }
}

/// How many places the index has of each engine.
fn counts_of(index: &Index) -> [u64; 8]
    requires few { (cursor : ℕ) → lens_of index.now cursor ≤ most_chunks }
    ensures { result ≡ Telling.counts_of index.now }
{
    let mut counts = [0; 8];
    for engine in 0..8 {
        counts[engine as usize] = count_on(index, engine);
    }
    counts
}

/// How many places the index has of an engine.
fn count_on(index: &Index, engine: u32) -> u64
    requires few { (cursor : ℕ) → lens_of index.now cursor ≤ most_chunks }
    requires engine { engine < 8 }
    ensures { result ≡ Telling.count_on index.now engine }
{
    let mut count = 0;
    for partition in 0..64 {
        count += index.len(engine, partition);
    }
    count
}
