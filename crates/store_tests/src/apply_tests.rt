// Rounds of all five programs, made of the accumulators of three workers and stored on two engines.
ghost use Rattle.std.specs.Prelude.{◌≡◌, ◌<◌};
ghost use Rattle.mem_devices.specs.MemDisk.{disk_state};
ghost use Rattle.partitioner.specs.Splits.{IsSplit};

use crate::crew::{Sending, apply_on, crew_of};
use crate::fixtures::{disk_of, meter_of};
use gather_laws::{Value, VertexProgram};
use graph_model::Edge;
use mem_devices::MemDisk;
use partitioner::Split;
use plain_rounds::plain_run;
use ports::Disk;
use std::alloc::Global;
use std::process::Abort;
use std::test::*;
use store_reader::{Outcome, read_set};
use vertex_programs::{Bfs, Degrees, Labels, PageRank, Sssp};

/// Four partitions, of which the last is empty, on two engines.
fn split_of_five(rt: &impl Abort) -> Split
    ensures split { IsSplit result }
    ensures engines { result.engines ≡ 2 }
{
    match Split::of(5, 2, 2) {
        Some(split) => split,
        None => panic!(rt; "five vertices have a split"),
    }
}

/// The device of an engine of a store that has no round yet.
fn blank(rt: &impl Abort, alloc: Global, split: &Split, engine: u32) -> MemDisk
    requires split { IsSplit split.now }
    requires engine { engine < split.now.engines }
    ensures { (disk_state result).beat ≡ 0 }
{
    let size = 2 * (24 + 16 * split.own(engine) as usize);
    let bytes = vec![in alloc; 7; size].expect(rt, "room");
    disk_of(rt, alloc, bytes.as_slice(), &[])
}

/// Adds the values of a partition in a slot to those of the lower ones.
fn read_partition(
    rt: &impl Abort,
    alloc: Global,
    split: &Split,
    disk: &MemDisk,
    partition: u32,
    slot: u32,
    values: &mut Vec<Value>,
)
    requires split { IsSplit split.now }
    requires partition { partition < split.now.parts }
    requires slot { slot < 2 }
{
    let own = split.own(split.master_of(partition));
    let (first, end) = split.range(partition);
    assert!(rt; first <= end && disk.size() == 2 * (24 + 16 * u64::from(own)));
    let count = (end - first) as usize;
    let mut bytes = vec![in alloc; 0; 16 * count].expect(rt, "room");
    let mut into = vec![in alloc; Value { main: 0, side: 0 }; count].expect(rt, "room");
    let mut meter = meter_of(rt, alloc, &[]);
    let read = read_set(
        disk,
        &mut meter,
        split,
        partition,
        slot,
        bytes.as_mut_slice(),
        into.as_mut_slice(),
    );
    assert!(rt; read.is_ok());
    values.extend_from_slice(&into).expect(rt, "room");
}

/// The values of all vertices in a slot.
fn read_values(
    rt: &impl Abort,
    alloc: Global,
    split: &Split,
    first: &MemDisk,
    second: &MemDisk,
    slot: u32,
) -> Vec<Value>
    requires split { IsSplit split.now }
    requires slot { slot < 2 }
{
    let mut values = Vec::new(alloc);
    for partition in 0..split.parts {
        let disk = if partition % 2 == 0 { first } else { second };
        read_partition(rt, alloc, split, disk, partition, slot, &mut values);
    }
    values
}

/// Makes a round on the device of an engine. Answers the device and how many values have changed.
fn round_on<P: VertexProgram>(
    rt: &impl Abort,
    alloc: Global,
    program: &P,
    split: &Split,
    sending: &Sending,
    engine: u32,
    disk: MemDisk,
) -> (MemDisk, u64)
    requires split { IsSplit split.now }
    requires engine { engine < split.now.engines }
    requires beat { (disk_state disk).beat ≡ 0 }
    ensures beat { (disk_state result.0).beat ≡ 0 }
{
    let crew = crew_of(rt, alloc, program, split, sending);
    let round = sending.round;
    let applied = apply_on(rt, alloc, program, split, round, &crew, engine, disk, &[]);
    assert_eq!(rt; applied.outcome, Outcome::Done);
    (applied.disk, applied.changed)
}

/// The values of the last round, round by round on two engines.
fn stored_run<P: VertexProgram>(
    rt: &impl Abort,
    alloc: Global,
    program: &P,
    edges: &[Edge],
) -> Vec<Value> {
    let split = split_of_five(rt);
    let mut first = blank(rt, alloc, &split, 0);
    let mut second = blank(rt, alloc, &split, 1);
    let mut values = Vec::new(alloc);
    for round in 0..100u64 {
        let counted = round > 0 || program.counts();
        let sending = Sending {
            edges: if counted { edges } else { &[] },
            values: values.as_slice(),
            round,
        };
        let (one, changed) = round_on(rt, alloc, program, &split, &sending, 0, first);
        let (two, changed_too) = round_on(rt, alloc, program, &split, &sending, 1, second);
        values = read_values(rt, alloc, &split, &one, &two, (round % 2) as u32);
        first = one;
        second = two;
        if program.rounds() == Some(round) || (round > 0 && changed == 0 && changed_too == 0) {
            return values;
        }
    }
    values
}

/// Edges with their weights, of which one comes twice.
const EDGES: [(u32, u32, u64); 6] = [
    (0, 1, 7),
    (0, 2, 1),
    (2, 1, 2),
    (1, 4, 3),
    (0, 1, 7),
    (4, 1, 1),
];

/// The edges, and each reverse where both directions are wanted.
fn edges_of(rt: &impl Abort, alloc: Global, both: bool) -> Vec<Edge> {
    let mut edges = Vec::new(alloc);
    for &(src, dst, weight) in &EDGES {
        edges.push(Edge { src, dst, weight }).expect(rt, "room");
        if both {
            let reverse = Edge {
                src: dst,
                dst: src,
                weight,
            };
            edges.push(reverse).expect(rt, "room");
        }
    }
    edges
}

/// The rounds that are stored end with the values of the plain engine.
fn expect_plain<P: VertexProgram>(rt: &impl Abort, alloc: Global, program: &P, both: bool) {
    let edges = edges_of(rt, alloc, both);
    assert!(rt; edges.iter().all(|edge| edge.src < 5 && edge.dst < 5));
    let wanted = plain_run(alloc, program, 5, &edges, 100).expect(rt, "values");
    let stored = stored_run(rt, alloc, program, &edges);
    assert_eq!(rt; stored.as_slice(), wanted.as_slice());
}

#[test]
fn rounds_of_levels_are_stored(rt: HostRuntime) {
    expect_plain(&rt, rt.alloc(), &Bfs { root: 0 }, false);
}

#[test]
fn rounds_of_labels_are_stored(rt: HostRuntime) {
    expect_plain(&rt, rt.alloc(), &Labels, true);
}

#[test]
fn rounds_of_distances_are_stored(rt: HostRuntime) {
    expect_plain(&rt, rt.alloc(), &Sssp { root: 0 }, false);
}

#[test]
fn a_round_of_degrees_is_stored(rt: HostRuntime) {
    expect_plain(&rt, rt.alloc(), &Degrees, false);
}

#[test]
fn rounds_of_ranks_are_stored(rt: HostRuntime) {
    expect_plain(&rt, rt.alloc(), &PageRank { rounds: 3 }, false);
}
