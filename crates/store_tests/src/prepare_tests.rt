// A store is made of a text, while single calls of its devices or its source fail; every image of a device is looked at.
ghost use Rattle.std.specs.Prelude.{◌≡◌, ◌<◌, length};
ghost use Rattle.chunk_object.specs.Epochs.{cursor_of};
ghost use Rattle.chunk_object.specs.History.{opened_len};
ghost use Rattle.chunk_cursor.specs.View.{knows, MayClaim};
ghost use Rattle.chunk_file.specs.Places.{places_of};

use crate::fixtures::{job_of_three, make, make_from, meter_of};
use chunk_cursor::{CursorSeat, CursorTable};
use chunk_file::Index;
use graph_model::Edge;
use mem_devices::{MemDisk, MemSource, SureSource};
use partitioner::Split;
use std::alloc::Global;
use std::process::Abort;
use std::test::*;
use storage_engine::PrepareFault;
use store_reader::{Served, Serving, Shelf, Store, all_open, serve};

const TEXT: &[u8] = b"0 1 5\n0 2 1\n2 1 1\n";

/// The whole graph device.
const GRAPH: [u8; 121] = [
    0xA5, 2, 1, 0, 2, 0, 0, 1, // gate, format, engines, engine, program, zero and every so many rounds
    0, 0, 0, 0, 0, 0, 0, 0, // root
    0, 0, 0, 0, 0, 0, 0, 3, // vertices
    0, 0, 0, 0, 0, 0x20, 0, 0, // most vertices of a partition
    0, 0, 0, 0, 0, 0, 0x10, 0, // records of a chunk
    0, 0, 0, 0, 0, 0, 0, 1, // seed
    0, 0, 0, 0, 0, 0, 0, 0x64, // alpha
    0, 0, 0, 0, 0, 1, 0x86, 0xA0, // limit
    0x47, // mark
    0, 0, 0, 0, 0, 0, 0, 3, // partition and count
    0, 0, 0, 0, 0, 0, 0, 1, 0, 0, 0, 0, 0, 0, 0, 5, // edges
    0, 0, 0, 0, 0, 0, 0, 2, 0, 0, 0, 0, 0, 0, 0, 1, //
    0, 0, 0, 2, 0, 0, 0, 1, 0, 0, 0, 0, 0, 0, 0, 1, //
];

/// A store of three edges, where these calls of its graph device and its values device fail.
fn make_three(
    rt: &impl Abort,
    alloc: Global,
    graph_fails: u64,
    values_fails: u64,
) -> (Store<MemDisk>, Result<Index, PrepareFault>) {
    let job = job_of_three(4096);
    let mut source = SureSource::new(alloc, TEXT).expect(rt, "a source");
    make_from(rt, alloc, &job, &mut source, graph_fails, values_fails)
}

#[test]
fn a_store_is_made_byte_by_byte(rt: HostRuntime) {
    let alloc = rt.alloc();
    let (store, made) = make_three(&rt, alloc, 0, 0);
    assert!(&rt; made.is_ok() && store.graphs.len() == 1 && store.values.len() == 1);
    let graph = store.graphs[0].all_bytes(alloc).expect(&rt, "room");
    assert_eq!(&rt; graph.as_slice(), GRAPH.as_slice());
    let values = store.values[0].all_bytes(alloc).expect(&rt, "room");
    assert_eq!(&rt; values.as_slice(), [0; 144].as_slice());
    let mut meter = meter_of(&rt, alloc, &[]);
    assert_eq!(&rt; all_open(&store, &mut meter), Ok(true));
}

/// Serves partition 0 from the store to a seat.
fn serve_one(
    rt: &impl Abort,
    alloc: Global,
    graphs: &[MemDisk],
    index: &Index,
    table: &CursorTable,
    seat: &mut CursorSeat,
    into: &mut [Edge; 3],
) -> Served
    requires graphs { 0 < length graphs.now }
    requires table { seat.old.table ≡ table.now }
    requires once { MayClaim seat.old.view (cursor_of 0 0) }
    requires len { opened_len (cursor_of 0 0) (knows seat.old.view) ≡ length (places_of index.now 0 0) }
{
    let job = job_of_three(4096);
    let split = Split::of_job(&job);
    let mut meter = meter_of(rt, alloc, &[]);
    assert!(rt; split.parts == 1);
    let from = Serving {
        shelf: Shelf::Graphs(graphs),
        index,
        job: &job,
        split: &split,
        table,
    };
    serve(&from, &mut meter, seat, 0, 0, &mut [0; 56], into)
}

#[test]
fn the_chunk_of_a_store_is_served_once(rt: HostRuntime) {
    let alloc = rt.alloc();
    let (store, made) = make_three(&rt, alloc, 0, 0);
    let index = made.expect(&rt, "a store");
    let graphs = store.graphs.as_slice();
    assert!(&rt; graphs.len() == 1 && index.len(0, 0) == 1);
    let (table, mut first) = CursorTable::new(alloc).expect(&rt, "a table");
    table.open(&mut first, 0, 1);
    let mut seat = table.split(&mut first, 0);
    let mut other = table.split(&mut first, 1);
    let none = Edge {
        src: 9,
        dst: 9,
        weight: 9,
    };
    let mut edges = [none; 3];
    let served = serve_one(&rt, alloc, graphs, &index, &table, &mut seat, &mut edges);
    assert_eq!(&rt; served, Served::Chunk(3));
    let wanted = Edge {
        src: 2,
        dst: 1,
        weight: 1,
    };
    assert_eq!(&rt; edges[2], wanted);
    let served = serve_one(&rt, alloc, graphs, &index, &table, &mut other, &mut edges);
    assert_eq!(&rt; served, Served::Exhausted);
}

/// A graph device is not open, or it is whole.
fn expect_shut_or_whole(rt: &impl Abort, bytes: &[u8]) {
    let is_open = bytes.len() >= 65 && bytes[0] == 0xA5;
    assert!(rt; !is_open || bytes == GRAPH.as_slice());
}

/// Neither slot of a values device of its whole size is open.
fn expect_closed(rt: &impl Abort, bytes: &[u8]) {
    assert!(rt; bytes.len() != 144 || (bytes[0] != 0xA5 && bytes[72] != 0xA5));
}

/// Looks at what a stop at any moment may leave. The zero bytes of a values device may be any until a sync has covered
/// them, while the graph device is not open.
fn expect_of_images(rt: &impl Abort, alloc: Global, disk: &MemDisk, is_graph: bool) {
    let picks = if is_graph { 4 } else { 3 };
    for moment in 0..=disk.moments() {
        for pick in 0..picks {
            let image = disk.image(alloc, moment + 1, pick).expect(rt, "an image");
            let bytes = image.all_bytes(alloc).expect(rt, "room");
            if is_graph {
                expect_shut_or_whole(rt, &bytes);
            } else {
                expect_closed(rt, &bytes);
            }
        }
    }
}

/// The graph device or the values device of a store.
fn pick<'a>(graph: &'a MemDisk, values: &'a MemDisk, is_graph: bool) -> &'a MemDisk {
    if is_graph { graph } else { values }
}

/// Fails each call of the graph device once, or of the values device, and answers the number of the first that is never
/// made.
fn count_calls(rt: &impl Abort, alloc: Global, is_graph: bool) -> u64 {
    for number in 1..100 {
        // no call has number 0
        let (graph, values) = if is_graph { (number, 0) } else { (0, number) };
        let (store, made) = make_three(rt, alloc, graph, values);
        assert!(rt; store.graphs.len() == 1 && store.values.len() == 1);
        let disk = pick(&store.graphs[0], &store.values[0], is_graph);
        expect_of_images(rt, alloc, disk, is_graph);
        if made.is_ok() {
            return number;
        }
        assert!(rt; matches!(made, Err(PrepareFault::DiskFault)));
    }
    0
}

#[test]
fn each_call_of_the_graph_device_fails_once(rt: HostRuntime) {
    // a cut and a sync, the front and its sync, the mark, a chunk, a sync, the gate and its sync
    assert_eq!(&rt; count_calls(&rt, rt.alloc(), true), 10);
}

#[test]
fn each_call_of_the_values_device_fails_once(rt: HostRuntime) {
    // a cut and a sync, the zero bytes and a sync
    assert_eq!(&rt; count_calls(&rt, rt.alloc(), false), 5);
}

/// Makes a store of a source that gives so many bytes at once, of which this read fails.
fn make_slowly(
    rt: &impl Abort,
    alloc: Global,
    text: &[u8],
    fails: u64,
) -> (Store<MemDisk>, Result<Index, PrepareFault>) {
    let job = job_of_three(1);
    let mut source = MemSource::new(alloc, text, 4, &[fails]).expect(rt, "a source");
    make_from(rt, alloc, &job, &mut source, 0, 0)
}

#[test]
fn each_read_of_the_source_fails_once(rt: HostRuntime) {
    let alloc = rt.alloc();
    // 18 bytes, four at once, and one read that finds the end
    for read in 1..=6 {
        let (store, made) = make_slowly(&rt, alloc, TEXT, read);
        let mut meter = meter_of(&rt, alloc, &[]);
        assert!(&rt; matches!(made, Err(PrepareFault::ReadFault)), "read {read}");
        assert_eq!(&rt; all_open(&store, &mut meter), Ok(false), "read {read}");
    }
    let (_store, made) = make_slowly(&rt, alloc, TEXT, 7);
    assert!(&rt; made.is_ok());
}

#[test]
fn a_refused_text_leaves_no_open_store(rt: HostRuntime) {
    let alloc = rt.alloc();
    let (store, made) = make(&rt, alloc, &job_of_three(1), b"0 1\n# 3 4\n0 3\n");
    let mut meter = meter_of(&rt, alloc, &[]);
    assert!(&rt; matches!(made, Err(PrepareFault::BadLine(3))));
    assert_eq!(&rt; all_open(&store, &mut meter), Ok(false));
}
