// A chunk that is claimed twice, and a device whose read fails.
ghost use Rattle.std.specs.Prelude.{◌≡◌, ◌∷◌, []};
ghost use Rattle.chunk_object.specs.Epochs.{cursor_of};
ghost use Rattle.chunk_object.specs.History.{opened_len};
ghost use Rattle.chunk_cursor.specs.View.{knows, MayClaim};
ghost use Rattle.partitioner.specs.Splits.{IsSplit};
ghost use Rattle.chunk_file.specs.Places.{places_of};

use crate::{Served, Serving, Shelf, serve};
use chunk_cursor::{CursorSeat, CursorTable};
use chunk_file::{Index, Place};
use graph_model::{Edge, Job, Program};
use mem_devices::{MemDisk, MemMeter};
use partitioner::Split;
use std::alloc::Global;
use std::process::Abort;
use std::test::*;

const JOB: Job = Job {
    program: Program::Sssp(0),
    vertices: 3,
    engines: 1,
    most: 2_097_152,
    chunk: 4096,
    seed: 1,
    alpha: 100,
    limit: 100_000,
    format: 1,
    keep: 1,
};

// The edges 0 to 1 of weight 5 and 2 to 1 of weight 1, in partition 0, behind three bytes.
const DEVICE: [u8; 35] = [
    9, 9, 9, // no chunk
    0, 0, 0, 0, 0, 0, 0, 2, // partition and count
    0, 0, 0, 0, 0, 0, 0, 1, 0, 0, 0, 5, // edges
    0, 0, 0, 2, 0, 0, 0, 1, 0, 0, 0, 1, //
];

fn split_of_job(rt: &impl Abort) -> Split
    ensures { IsSplit result }
{
    Split::of(3, 1, 2_097_152).expect(rt, "a split")
}

// An index with one place of engine 0 and partition 0.
fn index_of_one(rt: &impl Abort, alloc: Global, place: Place) -> Index
    ensures { places_of result 0 0 ≡ place ∷ [] }
{
    let mut index = Index::new(alloc).expect(rt, "an index");
    index.add(0, 0, place).expect(rt, "a place");
    index
}

// Serves engine 0 and partition 0 from a device, to a seat that may claim the only chunk there.
fn serve_edges(
    rt: &impl Abort,
    alloc: Global,
    meter: &mut MemMeter,
    table: &CursorTable,
    seat: &mut CursorSeat,
    into: &mut [Edge],
) -> Served
    requires table { seat.old.table ≡ table.now }
    requires once { MayClaim seat.old.view (cursor_of 0 0) }
    requires len { opened_len (cursor_of 0 0) (knows seat.old.view) ≡ 1 }
{
    let graphs = [MemDisk::new(alloc, &DEVICE, &[]).expect(rt, "a disk")];
    let index = index_of_one(rt, alloc, Place { lane: 0, at: 3 });
    let split = split_of_job(rt);
    let mut bytes = [0; 32];
    assert!(rt; split.parts == 1 && into.len() == 2);
    let from = Serving {
        shelf: Shelf::Graphs(&graphs),
        index: &index,
        job: &JOB,
        split: &split,
        table,
    };
    serve(&from, meter, seat, 0, 0, &mut bytes, into)
}

#[test]
fn a_chunk_is_served_once(rt: HostRuntime) {
    let alloc = rt.alloc();
    let (table, mut first) = CursorTable::new(alloc).expect(&rt, "a table");
    table.open(&mut first, 0, 1);
    let mut seat = table.split(&mut first, 0);
    let mut other = table.split(&mut first, 1);
    let mut meter = MemMeter::new(alloc, &[]).expect(&rt, "a meter");
    let none = Edge {
        src: 0,
        dst: 0,
        weight: 0,
    };
    let mut edges = [none, none];
    let served = serve_edges(&rt, alloc, &mut meter, &table, &mut seat, &mut edges);
    assert_eq!(&rt; served, Served::Chunk(2));
    let want = Edge {
        src: 2,
        dst: 1,
        weight: 1,
    };
    assert_eq!(&rt; edges[1], want);
    let served = serve_edges(&rt, alloc, &mut meter, &table, &mut other, &mut edges);
    assert_eq!(&rt; served, Served::Exhausted);
}
