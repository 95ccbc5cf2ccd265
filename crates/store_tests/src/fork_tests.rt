// Two workers of a gather phase, in threads.
ghost use Rattle.std.specs.Prelude.{◌≡◌, ℕ, ◌<◌, ◌≤◌, length};
ghost use Rattle.std.specs.List.{All};
ghost use Rattle.mem_devices.specs.MemDisk.{disk_state};
ghost use Rattle.graph_model.specs.Jobs.{IsWellFormedJob, parts_of};
ghost use Rattle.partitioner.specs.Splits.{IsSplit, IsSplitOf};
ghost use Rattle.chunk_cursor.specs.View.{IsFirst};
ghost use Rattle.replica_merge.specs.Accumulators.{split_of, LiesWithin};
ghost use Rattle.chunk_object.specs.History.{most_chunks};
ghost use Rattle.chunk_file.specs.Places.{places_of};
ghost use Rattle.store_reader.specs.Indexed.{lens_of, IsServing};
ghost use Rattle.store_reader.specs.Serving.{HasDevices};
ghost use Rattle.store_tests.specs.Crews.{AreOfSplit};
ghost use Rattle.store_tests.specs.Desks.{IsReady, HasEnded};

use crate::fixtures::{disk_of, meter_of, one_disk};
use crate::gather_tests::{desk_of, end, index_of};
use crate::seats::seats_of_two;
use chunk_cursor::{CursorSeat, CursorTable};
use chunk_file::{Index, Place};
use engine_gate::MeetGate;
use gather_laws::VertexProgram;
use gather_phase::{GatherContext, GatherDesk, gather_work};
use graph_model::{Job, Program};
use mem_devices::MemDisk;
use partitioner::Split;
use phase_barrier::fork_all;
use ports::{Beat, Gate};
use replica_merge::{Replicas, merge_replicas};
use std::alloc::Global;
use std::process::Abort;
use std::test::*;
use std::thread::Threads;
use store_reader::{Outcome, Serving, Shelf};
use vertex_programs::Degrees;

/// Four vertices in two partitions, on two engines.
fn job_of_four() -> Job
    ensures job { IsWellFormedJob result }
    ensures two { (result.engines ≡ 2) × (parts_of result ≡ 2) }
{
    Job {
        program: Program::Degrees,
        vertices: 4,
        engines: 2,
        most: 2,
        chunk: 4,
        seed: 1,
        alpha: 100,
        limit: 100_000,
        format: 2,
        keep: 1,
    }
}

/// Each worker does its share, in a thread of its own.
fn gather_all<R: Threads + Sync, P: VertexProgram, G: Gate + Sync>(
    rt: &R,
    context: &GatherContext<P, MemDisk, G>,
    desks: &mut [GatherDesk<MemDisk>],
)
    requires serving { IsServing context.now.serving }
    requires ready { All (IsReady disk_state context.now.serving context.now.beat.now) desks.old }
    ensures many { length desks.new ≡ length desks.old }
    ensures ended { All (HasEnded disk_state context.now.serving.table.now context.now.serving.split.now) desks.new }
{
    let work = |_: &(), desk: &mut GatherDesk<MemDisk>|
        requires serving { IsServing context.now.serving }
        requires ready { IsReady disk_state context.now.serving context.now.beat.now desk.now }
        ensures { HasEnded disk_state context.entry.now.serving.table.now context.entry.now.serving.split.now desk.exit.now }
    { gather_work(context, desk) };
    fork_all(rt, &(), desks, &work);
}

/// Two workers do their shares.
fn gather_both<R: Threads + Sync + Abort, P: VertexProgram, G: Gate + Sync>(
    rt: &R,
    alloc: Global,
    context: &GatherContext<P, MemDisk, G>,
    one: GatherDesk<MemDisk>,
    two: GatherDesk<MemDisk>,
) -> (GatherDesk<MemDisk>, GatherDesk<MemDisk>)
    requires serving { IsServing context.now.serving }
    requires ready { IsReady disk_state context.now.serving context.now.beat.now one × IsReady disk_state context.now.serving context.now.beat.now two }
    ensures one { HasEnded disk_state context.now.serving.table.now context.now.serving.split.now result.0 }
    ensures two { HasEnded disk_state context.now.serving.table.now context.now.serving.split.now result.1 }
{
    let mut desks = Vec::new(alloc);
    desks.push(one).expect(rt, "room");
    desks.push(two).expect(rt, "room");
    gather_all(rt, context, desks.as_mut_slice());
    let two = desks.pop().expect(rt, "a desk");
    let one = desks.pop().expect(rt, "a desk");
    (one, two)
}

/// Takes the seat of a worker who is through back, and answers what it has gathered, with its device, and its claims.
fn take_back(
    rt: &impl Abort,
    table: &CursorTable,
    first: &mut CursorSeat,
    split: &Split,
    desk: GatherDesk<MemDisk>,
) -> (Replicas, MemDisk, u64)
    requires table { first.old.table ≡ table.now }
    requires first { IsFirst first.old.view }
    requires ended { HasEnded disk_state table.now split.now desk }
    ensures table { first.new.table ≡ table.now }
    ensures first { IsFirst first.new.view }
    ensures split { split_of result.0 ≡ split.now }
    ensures within { LiesWithin result.0 (disk_state result.1).size }
{
    let _split = split;
    assert!(rt; desk.outcome == Outcome::Done);
    let GatherDesk {
        seat,
        replicas,
        spill,
        claims,
        ..
    } = desk;
    table.join(first, seat);
    (replicas, spill, claims)
}

/// What two workers have gathered, each with its device.
#[derive(Drop)]
struct Gathered {
    replicas: [Replicas; 2],
    spills: [MemDisk; 2],
    claims: u64,
}

/// The shares of two workers, who meet at a gate first.
fn share_of_two<'a, R: Threads + Sync + Abort>(
    rt: &R,
    alloc: Global,
    job: &'a Job,
    split: &'a Split,
    shelf: Shelf<'a, MemDisk>,
    index: &'a Index,
) -> Gathered
    requires job { IsWellFormedJob job.now }
    requires split { IsSplit split.now × IsSplitOf job.now split.now }
    requires two { (job.now.engines ≡ 2) × (parts_of job.now ≡ 2) }
    requires few { (cursor : ℕ) → lens_of index.now cursor ≤ most_chunks }
    requires devices { (engine partition : ℕ) → engine < 2 → partition < 2 → HasDevices shelf engine (places_of index.now engine partition) }
    ensures { AreOfSplit split.now result.replicas result.spills }
{
    let (table, mut first) = CursorTable::new(alloc).expect(rt, "a table");
    let (one, two) = seats_of_two(&table, &mut first, job, index);
    let gate = MeetGate::new(2, 10_000_000);
    let context = GatherContext {
        program: &Degrees,
        serving: Serving {
            shelf,
            index,
            job,
            split,
            table: &table,
        },
        counting: false,
        epoch: 3,
        gate: &gate,
        beat: &Beat::new(),
    };
    let one = desk_of(rt, alloc, job, split, one, 0, &[], &[]);
    let two = desk_of(rt, alloc, job, split, two, 1, &[], &[]);
    let (one, two) = gather_both(rt, alloc, &context, one, two);
    end(context);
    assert!(rt; !gate.missed());
    let (one, one_spill, claims) = take_back(rt, &table, &mut first, split, one);
    let (two, two_spill, claims_too) = take_back(rt, &table, &mut first, split, two);
    table.settle(&mut first);
    Gathered {
        replicas: [one, two],
        spills: [one_spill, two_spill],
        claims: claims.saturating_add(claims_too),
    }
}

/// The merge over both workers of a partition of two vertices.
fn merged(
    rt: &impl Abort,
    alloc: Global,
    split: &Split,
    gathered: &Gathered,
    partition: u32,
) -> [u64; 2]
    requires split { IsSplit split.now }
    requires crew { AreOfSplit split.now gathered.now.replicas gathered.now.spills }
{
    assert!(rt; partition < split.parts);
    let (first, end) = split.range(partition);
    assert!(rt; end == first + 2);
    let mut sums = [0; 2];
    let mut meter = meter_of(rt, alloc, &[]);
    let read = merge_replicas(
        &Degrees,
        split,
        &gathered.replicas,
        &gathered.spills,
        &mut meter,
        partition,
        &mut [0; 8],
        &mut sums,
    );
    assert!(rt; read.is_ok());
    sums
}

/// Updates of vertices 0 and 1, and of 2 and 3, each behind its partition and their number.
const LANES: [&[u8]; 3] = [
    &[
        0, 0, 0, 0, 0, 0, 0, 2, //
        0, 0, 0, 0, 0, 0, 0, 0, 0, 0, 0, 5, //
        0, 0, 0, 1, 0, 0, 0, 0, 0, 0, 0, 7, //
    ],
    &[
        0, 0, 0, 0, 0, 0, 0, 1, //
        0, 0, 0, 1, 0, 0, 0, 0, 0, 0, 0, 20, //
    ],
    &[
        0, 0, 0, 1, 0, 0, 0, 3, //
        0, 0, 0, 2, 0, 0, 0, 0, 0, 0, 1, 44, //
        0, 0, 0, 3, 0, 0, 0, 0, 0, 0, 0, 1, //
        0, 0, 0, 2, 0, 0, 0, 0, 0, 0, 0, 4, //
    ],
];

/// A lane on two engines.
fn lane_of(rt: &impl Abort, alloc: Global, one: &[u8], two: &[u8]) -> Vec<MemDisk>
    ensures { length result.items ≡ 2 }
{
    let mut lane = one_disk(rt, alloc, one, &[]);
    lane.push(disk_of(rt, alloc, two, &[])).expect(rt, "room");
    lane
}

/// The place of a chunk at the front of a lane, behind its engine and its partition.
const fn front(engine: u32, partition: u32, lane: u32) -> (u32, u32, Place) {
    (engine, partition, Place { lane, at: 0 })
}

#[test]
fn two_workers_gather_all_updates(rt: HostRuntime) -> Result<(), Fail> {
    let alloc = rt.alloc();
    let job = job_of_four();
    let split = Split::of_job(&job);
    let lanes = [
        lane_of(&rt, alloc, LANES[0], LANES[1]),
        lane_of(&rt, alloc, &[], LANES[2]),
    ];
    let places = [front(0, 0, 0), front(1, 0, 0), front(1, 1, 1)];
    let index = index_of(&rt, alloc, 2, &places);
    let gathered = share_of_two(&rt, alloc, &job, &split, Shelf::Lanes(&lanes), &index);
    assert_eq!(&rt; gathered.claims, 3);
    assert_eq!(&rt; merged(&rt, alloc, &split, &gathered, 0), [5, 27]);
    assert_eq!(&rt; merged(&rt, alloc, &split, &gathered, 1), [304, 1]);
    Ok(())
}
