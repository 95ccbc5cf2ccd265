//! Accumulators of workers, as the edges of a graph in memory make them, and rounds that are stored from them.
ghost use Rattle.std.specs.Prelude.{◌≡◌, ◌<◌};
ghost use Rattle.mem_devices.specs.MemDisk.{disk_state};
ghost use Rattle.partitioner.specs.Splits.{IsSplit};
ghost use Rattle.replica_merge.specs.Accumulators.{split_of, begun_of, LiesWithin};
ghost use Rattle.store_tests.specs.Crews.{AreOfSplit};

use crate::fixtures::{disk_of, meter_of};
use checkpoint::{ApplyContext, ApplyDesk, ApplyRoom, apply_work};
use gather_laws::{Value, VertexProgram, plus};
use graph_model::Edge;
use mem_devices::MemDisk;
use partitioner::Split;
use ports::{Beat, Disk};
use replica_merge::Replicas;
use std::alloc::Global;
use std::process::Abort;
use store_reader::Outcome;

/// What workers sum in a round: edges that are counted in round 0, and else what edges send from these values. Edge k is
/// taken by worker k modulo 3.
#[derive(Clone, Copy)]
pub(crate) struct Sending<'a> {
    pub edges: &'a [Edge],
    pub values: &'a [Value],
    pub round: u64,
}

/// Takes one edge into the sums of the vertices from `first` on, if its end is one of them.
fn take_edge<P: VertexProgram>(
    program: &P,
    sending: &Sending,
    edge: &Edge,
    first: u32,
    sums: &mut [u64],
) -> bool {
    let end = if sending.round == 0 {
        edge.src
    } else {
        edge.dst
    };
    if end < first {
        return false;
    }
    let Some(sum) = sums.get_mut((end - first) as usize) else {
        return false;
    };
    if sending.round == 0 {
        *sum = plus(*sum, 1);
        return true;
    }
    let Some(value) = sending.values.get(edge.src as usize) else {
        return false;
    };
    let Some(update) = program.send(*value, edge.weight) else {
        return false;
    };
    *sum = program.fold(*sum, update);
    true
}

/// Takes the edges of a worker into the sums of the partition that is begun. Whether there was one.
fn take_edges<P: VertexProgram>(
    program: &P,
    sending: &Sending,
    worker: u32,
    first: u32,
    replicas: &mut Replicas,
) -> bool
    ensures split { split_of replicas.new ≡ split_of replicas.old }
    ensures begun { begun_of replicas.new ≡ begun_of replicas.old }
    ensures places { replicas.new.places ≡ replicas.old.places }
{
    let sums = replicas.acc();
    let mut took = false;
    for (index, edge) in sending.edges.iter().enumerate() {
        if index % 3 == worker as usize && take_edge(program, sending, edge, first, sums) {
            took = true;
        }
    }
    took
}

/// Spills the sums of the partition that is begun.
fn spill_sums(rt: &impl Abort, partition: u32, replicas: &mut Replicas, disk: &mut MemDisk)
    requires split { IsSplit (split_of replicas.old) }
    requires partition { begun_of replicas.old ≡ partition }
    requires beat { (disk_state disk.old).beat ≡ 0 }
    requires within { LiesWithin replicas.old (disk_state disk.old).size }
    ensures split { split_of replicas.new ≡ split_of replicas.old }
    ensures beat { (disk_state disk.new).beat ≡ 0 }
    ensures within { LiesWithin replicas.new (disk_state disk.new).size }
{
    assert!(rt; disk.size() < 100_000);
    let spilled = replicas.spill(partition, disk, &mut [0; 16], &Beat::new());
    assert!(rt; spilled.is_ok());
}

/// Sums a worker's edges in one partition of two vertices, and spills the sums, if there was an edge.
fn spill_partition<P: VertexProgram>(
    rt: &impl Abort,
    program: &P,
    sending: &Sending,
    worker: u32,
    partition: u32,
    replicas: &mut Replicas,
    disk: &mut MemDisk,
)
    requires split { IsSplit (split_of replicas.old) }
    requires partition { partition < (split_of replicas.old).parts }
    requires beat { (disk_state disk.old).beat ≡ 0 }
    requires within { LiesWithin replicas.old (disk_state disk.old).size }
    ensures split { split_of replicas.new ≡ split_of replicas.old }
    ensures beat { (disk_state disk.new).beat ≡ 0 }
    ensures within { LiesWithin replicas.new (disk_state disk.new).size }
{
    replicas.begin(partition);
    if !take_edges(program, sending, worker, 2 * partition, replicas) {
        return;
    }
    spill_sums(rt, partition, replicas, disk);
}

/// A worker's accumulators with their device, over partitions of two vertices each.
fn spilled<P: VertexProgram>(
    rt: &impl Abort,
    alloc: Global,
    program: &P,
    split: &Split,
    sending: &Sending,
    worker: u32,
) -> (Replicas, MemDisk)
    requires { IsSplit split.now }
    ensures split { split_of result.0 ≡ split.now }
    ensures within { LiesWithin result.0 (disk_state result.1).size }
{
    let mut replicas = Replicas::new(alloc, split, program.unit()).expect(rt, "replicas");
    let mut disk = disk_of(rt, alloc, &[], &[]);
    for partition in 0..split.parts {
        spill_partition(
            rt,
            program,
            sending,
            worker,
            partition,
            &mut replicas,
            &mut disk,
        );
    }
    (replicas, disk)
}

/// The accumulators of three workers, and the device of each.
#[derive(Drop)]
pub(crate) struct Crew {
    replicas: [Replicas; 3],
    spills: [MemDisk; 3],
}

pub(crate) fn crew_of<P: VertexProgram>(
    rt: &impl Abort,
    alloc: Global,
    program: &P,
    split: &Split,
    sending: &Sending,
) -> Crew
    requires { IsSplit split.now }
    ensures { AreOfSplit split.now result.replicas result.spills }
{
    let (one, one_spill) = spilled(rt, alloc, program, split, sending, 0);
    let (two, two_spill) = spilled(rt, alloc, program, split, sending, 1);
    let (three, three_spill) = spilled(rt, alloc, program, split, sending, 2);
    Crew {
        replicas: [one, two, three],
        spills: [one_spill, two_spill, three_spill],
    }
}

/// What apply has left of a device.
#[derive(Drop)]
pub(crate) struct Applied {
    pub disk: MemDisk,
    pub changed: u64,
    pub outcome: Outcome,
}

/// Makes a round on the device of an engine, where these reads fail.
pub(crate) fn apply_on<P: VertexProgram>(
    rt: &impl Abort,
    alloc: Global,
    program: &P,
    split: &Split,
    round: u64,
    crew: &Crew,
    engine: u32,
    disk: MemDisk,
    read_fails: &[u64],
) -> Applied
    requires split { IsSplit split.now }
    requires engine { engine < split.now.engines }
    requires beat { (disk_state disk).beat ≡ 0 }
    requires crew { AreOfSplit split.now crew.now.replicas crew.now.spills }
    ensures beat { (disk_state result.disk).beat ≡ 0 }
{
    assert!(rt; disk.size() == 2 * (24 + 16 * u64::from(split.own(engine))));
    let context = ApplyContext {
        program,
        split,
        replicas: &crew.replicas,
        spills: &crew.spills,
        round,
        beat: &Beat::new(),
    };
    let mut desk = ApplyDesk {
        engine,
        meter: meter_of(rt, alloc, read_fails),
        disk,
        room: ApplyRoom::new(alloc, split).expect(rt, "a room"),
        changed: 9,
        outcome: Outcome::Memory,
    };
    apply_work(&context, &mut desk);
    let ApplyDesk {
        engine: _engine,
        meter: _meter,
        disk,
        room: _room,
        changed,
        outcome,
    } = desk;
    Applied {
        disk,
        changed,
        outcome,
    }
}
