// A worker's share of a gather phase, and of a count.
ghost use Rattle.std.specs.Prelude.{◌≡◌, ℕ, [], ◌<◌, ◌≤◌};
ghost use Rattle.mem_devices.specs.MemDisk.{disk_state};
ghost use Rattle.graph_model.specs.Jobs.{IsWellFormedJob, parts_of};
ghost use Rattle.partitioner.specs.Splits.{IsSplit};
ghost use Rattle.chunk_object.specs.History.{most_chunks};
ghost use Rattle.chunk_file.specs.Places.{places_of};
ghost use Rattle.store_reader.specs.Indexed.{lens_of};
ghost use Rattle.store_reader.specs.Serving.{HasDevices};
ghost use Rattle.replica_merge.specs.Accumulators.{split_of};
ghost use Rattle.gather_phase.specs.Rooms.{IsRoom};
ghost use Rattle.store_tests.specs.Lanes.{AreOnLanes};

use crate::fixtures::{disk_of, job_of_three, make, meter_of, one_disk};
use crate::seats::seat_of_one;
use chunk_cursor::{CursorSeat, CursorTable};
use chunk_file::{Index, Place};
use engine_gate::OpenGate;
use gather_laws::VertexProgram;
use gather_phase::{GatherContext, GatherDesk, GatherRoom, gather_work};
use graph_model::Job;
use mem_devices::MemDisk;
use partitioner::Split;
use ports::{Beat, Disk, Gate};
use replica_merge::Replicas;
use std::alloc::Global;
use std::process::Abort;
use std::test::*;
use store_reader::{Outcome, Serving, Shelf};
use vertex_programs::{Degrees, Sssp};

/// A desk with an empty device for what is spilled, of which these reads and these writes fail.
pub(crate) fn desk_of(
    rt: &impl Abort,
    alloc: Global,
    job: &Job,
    split: &Split,
    seat: CursorSeat,
    worker: u32,
    read_fails: &[u64],
    spill_fails: &[u64],
) -> GatherDesk<MemDisk>
    requires job { IsWellFormedJob job.now }
    requires split { IsSplit split.now }
    ensures seat { (result.seat ≡ seat) × (result.worker ≡ worker) }
    ensures replicas { split_of result.replicas ≡ split.now }
    ensures room { IsRoom job.now result.room }
    ensures spill { ((disk_state result.spill).size ≡ 0) × ((disk_state result.spill).beat ≡ 0) }
{
    let spill = disk_of(rt, alloc, &[], spill_fails);
    assert!(rt; spill.size() == 0);
    GatherDesk {
        worker,
        seat,
        meter: meter_of(rt, alloc, read_fails),
        replicas: Replicas::new(alloc, split, 0).expect(rt, "replicas"),
        spill,
        room: GatherRoom::new(alloc, job).expect(rt, "a room"),
        claims: 0,
        admitted: 0,
        outcome: Outcome::Memory,
    }
}

/// A context is taken apart where it ends, since it is not `Drop`.
pub(crate) fn end<P: VertexProgram, G: Gate>(context: GatherContext<P, MemDisk, G>) {
    let GatherContext {
        program: _program,
        serving: _serving,
        counting: _counting,
        epoch: _epoch,
        gate: _gate,
        beat: _beat,
    } = context;
}

/// What is left of a worker's share.
#[derive(Drop)]
struct Share {
    replicas: Replicas,
    spill: MemDisk,
    claims: u64,
    outcome: Outcome,
}

/// The whole share of one worker.
fn share_of_one<'a, P: VertexProgram>(
    rt: &impl Abort,
    alloc: Global,
    program: &'a P,
    job: &'a Job,
    shelf: Shelf<'a, MemDisk>,
    index: &'a Index,
    counting: bool,
    read_fails: &[u64],
    spill_fails: &[u64],
) -> Share
    requires job { IsWellFormedJob job.now }
    requires one { (job.now.engines ≡ 1) × (parts_of job.now ≡ 1) }
    requires few { (cursor : ℕ) → lens_of index.now cursor ≤ most_chunks }
    requires devices { HasDevices shelf 0 (places_of index.now 0 0) }
{
    let (table, mut first) = CursorTable::new(alloc).expect(rt, "a table");
    let seat = seat_of_one(&table, &mut first, job, index);
    let split = Split::of_job(job);
    let mut desk = desk_of(rt, alloc, job, &split, seat, 0, read_fails, spill_fails);
    let context = GatherContext {
        program,
        serving: Serving {
            shelf,
            index,
            job,
            split: &split,
            table: &table,
        },
        counting,
        epoch: 0,
        gate: &OpenGate,
        beat: &Beat::new(),
    };
    gather_work(&context, &mut desk);
    end(context);
    let GatherDesk {
        seat,
        replicas,
        spill,
        claims,
        outcome,
        ..
    } = desk;
    table.join(&mut first, seat);
    table.settle(&mut first);
    Share {
        replicas,
        spill,
        claims,
        outcome,
    }
}

/// An index of places, each behind its engine and its partition, on so many lanes.
pub(crate) fn index_of(
    rt: &impl Abort,
    alloc: Global,
    lanes: u32,
    places: &[(u32, u32, Place)],
) -> Index
    ensures few { (cursor : ℕ) → lens_of result cursor ≤ most_chunks }
    ensures lanes { AreOnLanes lanes result }
{
    let mut index = Index::new(alloc).expect(rt, "an index");
    for &(engine, partition, place) in places {
        assert!(rt; engine < 8 && partition < 64 && place.lane < lanes);
        assert!(rt; index.len(engine, partition) < 1000);
        index.add(engine, partition, place).expect(rt, "a place");
    }
    assert!(rt; index.total() < 1000);
    index
}

/// The updates (1, 5) and (2, 1) in a chunk of partition 0.
const LANE: [u8; 32] = [
    0, 0, 0, 0, 0, 0, 0, 2, // partition and count
    0, 0, 0, 1, 0, 0, 0, 0, 0, 0, 0, 5, //
    0, 0, 0, 2, 0, 0, 0, 0, 0, 0, 0, 1, //
];

/// The accumulators of three vertices.
const SPILLED: [u8; 24] = [
    0xff, 0xff, 0xff, 0xff, 0xff, 0xff, 0xff, 0xff, //
    0, 0, 0, 0, 0, 0, 0, 5, //
    0, 0, 0, 0, 0, 0, 0, 1, //
];

#[test]
fn updates_of_a_lane_are_gathered(rt: HostRuntime) -> Result<(), Fail> {
    let alloc = rt.alloc();
    let job = job_of_three(4096);
    let lanes = [one_disk(&rt, alloc, &LANE, &[])];
    let index = index_of(&rt, alloc, 1, &[(0, 0, Place { lane: 0, at: 0 })]);
    let share = share_of_one(
        &rt,
        alloc,
        &Sssp { root: 0 },
        &job,
        Shelf::Lanes(&lanes),
        &index,
        false,
        &[],
        &[],
    );
    assert_eq!(&rt; share.outcome, Outcome::Done);
    assert_eq!(&rt; share.claims, 1);
    let spilled = share.spill.all_bytes(alloc).expect(&rt, "room");
    assert_eq!(&rt; spilled.as_slice(), SPILLED.as_slice());
    Ok(())
}

/// A store of five edges, of which three are the same, in chunks of one edge each; and the share of one worker that counts
/// them, of which these reads and these writes fail.
fn count_of_five(rt: &impl Abort, alloc: Global, read_fails: &[u64], spill_fails: &[u64]) -> Share {
    let job = job_of_three(1);
    let text = b"0 1 5\n0 1 5\n2 1 1\n0 2 1\n0 1 5\n";
    let (store, made) = make(rt, alloc, &job, text);
    let index = made.expect(rt, "a store");
    assert!(rt; index.total() == 5 && store.graphs.len() == 1);
    share_of_one(
        rt,
        alloc,
        &Degrees,
        &job,
        Shelf::Graphs(store.graphs.as_slice()),
        &index,
        true,
        read_fails,
        spill_fails,
    )
}

#[test]
fn repeated_edges_are_counted_each(rt: HostRuntime) -> Result<(), Fail> {
    let alloc = rt.alloc();
    let share = count_of_five(&rt, alloc, &[], &[]);
    assert_eq!(&rt; share.outcome, Outcome::Done);
    assert_eq!(&rt; share.claims, 5);
    let spilled = share.spill.all_bytes(alloc).expect(&rt, "room");
    let mut counts = [0; 24];
    counts[7] = 4;
    counts[23] = 1;
    assert_eq!(&rt; spilled.as_slice(), counts.as_slice());
    Ok(())
}

#[test]
fn each_read_fails_once(rt: HostRuntime) -> Result<(), Fail> {
    let alloc = rt.alloc();
    for read in 1..=5 {
        let share = count_of_five(&rt, alloc, &[read], &[]);
        assert_eq!(&rt; share.outcome, Outcome::DiskFault, "read {read}");
        assert_eq!(&rt; share.claims, read, "read {read}");
        assert_eq!(&rt; share.spill.size(), 0, "read {read}");
    }
    let share = count_of_five(&rt, alloc, &[6], &[]);
    assert_eq!(&rt; share.outcome, Outcome::Done);
    Ok(())
}

#[test]
fn each_write_of_the_spill_fails_once(rt: HostRuntime) -> Result<(), Fail> {
    let alloc = rt.alloc();
    let share = count_of_five(&rt, alloc, &[], &[1]);
    assert_eq!(&rt; share.outcome, Outcome::DiskFault);
    assert_eq!(&rt; share.claims, 5);
    let share = count_of_five(&rt, alloc, &[], &[2]);
    assert_eq!(&rt; share.outcome, Outcome::Done);
    Ok(())
}
