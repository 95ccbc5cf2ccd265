//! What several tests begin with.
ghost use Rattle.std.specs.Prelude.{◌≡◌, ◌≤◌, length};
ghost use Rattle.std.specs.List.{All};
ghost use Rattle.mem_devices.specs.MemDisk.{disk_state};
ghost use Rattle.graph_model.specs.Jobs.{IsWellFormedJob, parts_of};

use chunk_file::Index;
use graph_model::{Job, Program};
use mem_devices::{MemDisk, MemMeter, SureSource};
use partitioner::Split;
use ports::{Beat, Source};
use std::alloc::Global;
use std::process::Abort;
use storage_engine::{PrepareFault, prepare};
use store_reader::Store;

/// Shortest distances from vertex 0 of three, on one engine that has one partition, in chunks of so many records.
pub(crate) fn job_of_three(chunk: u32) -> Job
    requires { (1 ≤ chunk) × (chunk ≤ 65536) }
    ensures job { IsWellFormedJob result }
    ensures format { result.format ≡ 2 }
    ensures engines { result.engines ≡ 1 }
    ensures parts { parts_of result ≡ 1 }
{
    Job {
        program: Program::Sssp(0),
        vertices: 3,
        engines: 1,
        most: 2_097_152,
        chunk,
        seed: 1,
        alpha: 100,
        limit: 100_000,
        format: 2,
        keep: 1,
    }
}

/// A disk with these bytes, of which some writes, cuts and syncs fail.
pub(crate) fn disk_of(rt: &impl Abort, alloc: Global, bytes: &[u8], fails: &[u64]) -> MemDisk
    ensures { (disk_state result).beat ≡ 0 }
{
    MemDisk::new(alloc, bytes, fails).expect(rt, "a disk")
}

/// One disk with these bytes.
pub(crate) fn one_disk(rt: &impl Abort, alloc: Global, bytes: &[u8], fails: &[u64]) -> Vec<MemDisk>
    ensures one { length result.items ≡ 1 }
    ensures beats { All (λ disk. (disk_state disk).beat ≤ 0) result.items }
{
    let mut devices = Vec::new(alloc);
    devices
        .push(disk_of(rt, alloc, bytes, fails))
        .expect(rt, "room");
    devices
}

pub(crate) fn meter_of(rt: &impl Abort, alloc: Global, fails: &[u64]) -> MemMeter {
    MemMeter::new(alloc, fails).expect(rt, "a meter")
}

/// Makes a store of one engine out of a source, where these calls of its graph device and its values device fail; no call
/// has number 0.
pub(crate) fn make_from<S: Source>(
    rt: &impl Abort,
    alloc: Global,
    job: &Job,
    source: &mut S,
    graph_fails: u64,
    values_fails: u64,
) -> (Store<MemDisk>, Result<Index, PrepareFault>)
    requires job { IsWellFormedJob job.now }
    requires format { job.now.format ≡ 2 }
    requires engines { job.now.engines ≡ 1 }
{
    let mut store = Store {
        graphs: one_disk(rt, alloc, &[], &[graph_fails]),
        values: one_disk(rt, alloc, &[], &[values_fails]),
        lanes: Vec::new(alloc),
        spills: Vec::new(alloc),
    };
    let mut meter = meter_of(rt, alloc, &[]);
    let mut beat = Beat::new();
    let made = prepare(alloc, job, source, &mut store, &mut meter, &mut beat);
    (store, made)
}

/// The same out of a text.
pub(crate) fn make(
    rt: &impl Abort,
    alloc: Global,
    job: &Job,
    text: &[u8],
) -> (Store<MemDisk>, Result<Index, PrepareFault>)
    requires job { IsWellFormedJob job.now }
    requires format { job.now.format ≡ 2 }
    requires engines { job.now.engines ≡ 1 }
{
    let mut source = SureSource::new(alloc, text).expect(rt, "a source");
    make_from(rt, alloc, job, &mut source, 0, 0)
}
