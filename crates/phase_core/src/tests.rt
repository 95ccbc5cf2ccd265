ghost use Rattle.std.specs.Prelude.{IfOk, OnOk};
ghost use Rattle.phase_core.specs.View.{IsUnused, machine_of};

use super::*;
use graph_model::{Edge, Update, Value};
use partitioner::Split;
use plain_rounds::plain_run;
use std::alloc::Global;
use std::process::Abort;
use std::test::*;
use vertex_programs::Degrees;

fn claim(worker: u32, engine: u32, partition: u32) -> Event {
    Event::Claim {
        worker,
        engine,
        partition,
    }
}

fn admit(worker: u32, partition: u32, seen: u64) -> Event {
    Event::Admit {
        worker,
        partition,
        seen,
    }
}

// An empty machine of two engines, with `most` vertices in a partition.
fn machine(rt: &impl Abort, alloc: Global, vertices: u32, most: u32) -> Result<Core, Fail>
    ensures { IfOk result (λ core. IsUnused (machine_of core)) }
{
    assert!(rt; 1 <= most);
    let split = Split::of(vertices, 2, most).expect(rt, "a split");
    Ok(Core::new(alloc, &split, 0)?)
}

// Puts a chunk of one update.
fn put(
    rt: &impl Abort,
    alloc: Global,
    core: &mut Core,
    engine: u32,
    dst: u32,
    value: u64,
) -> Result<(), Fail>
    requires { IsUnused (machine_of core.old) }
    ensures { OnOk result (IsUnused (machine_of core.new)) }
{
    assert!(rt; engine < core.split.engines);
    assert!(rt; dst < core.split.vertices);
    let partition = core.split.partition_of(dst);
    core.put_chunk(alloc, engine, partition, &[Update { dst, value }])?;
    Ok(())
}

// The merge of the sums of all workers for the vertices of a partition.
fn merged_of(
    rt: &impl Abort,
    alloc: Global,
    core: &Core,
    partition: u32,
) -> Result<Vec<u64>, Fail> {
    assert!(rt; partition < core.split.parts);
    let (first, end) = core.split.range(partition);
    let mut into = vec![in alloc; 0u64; (end - first) as usize]?;
    merged(core, &Degrees, partition, &mut into);
    Ok(into)
}

// Two vertices, one in each partition, and two chunks for the first.
fn two_chunks(rt: &impl Abort, alloc: Global) -> Result<Core, Fail> {
    let mut core = machine(rt, alloc, 2, 1)?;
    put(rt, alloc, &mut core, 0, 0, 1)?;
    put(rt, alloc, &mut core, 0, 0, 2)?;
    Ok(core)
}

#[test]
fn two_workers_take_two_chunks(rt: HostRuntime) -> Result<(), Fail> {
    let events = [
        claim(1, 0, 0),
        admit(1, 0, 1),
        claim(0, 0, 0),
        claim(1, 0, 0),
        claim(0, 0, 0),
    ];
    let want = [
        Reply::NotNow,
        Reply::Admitted,
        Reply::Took(0),
        Reply::Took(1),
        Reply::Exhausted,
    ];
    let mut core = two_chunks(&rt, rt.alloc())?;
    for (event, reply) in events.iter().zip(&want) {
        assert_eq!(&rt; step(&mut core, &Degrees, event), *reply);
    }
    let stepped = merged_of(&rt, rt.alloc(), &core, 0)?;
    assert_eq!(&rt; stepped.as_slice(), [3].as_slice());
    let mut core = two_chunks(&rt, rt.alloc())?;
    let replies = run_events(rt.alloc(), &mut core, &Degrees, &events)?;
    assert_eq!(&rt; replies.as_slice(), want.as_slice());
    let run = merged_of(&rt, rt.alloc(), &core, 0)?;
    assert_eq!(&rt; run.as_slice(), [3].as_slice());
    Ok(())
}

// Vertices 0 and 1, and 2 and 3, are a partition each; the edges to them stand on both engines.
const EDGES: [(u32, u32); 5] = [(0, 1), (2, 1), (1, 3), (3, 0), (0, 1)];

fn chunks_of_edges(rt: &impl Abort, alloc: Global) -> Result<Core, Fail>
    ensures { IfOk result (λ core. IsUnused (machine_of core)) }
{
    let mut core = machine(rt, alloc, 4, 2)?;
    for (src, dst) in EDGES {
        put(rt, alloc, &mut core, src % 2, dst, 1)?;
    }
    Ok(core)
}

// The numbers of edges into each vertex, as the plain engine finds them.
fn plain_degrees(rt: &impl Abort, alloc: Global) -> Result<Vec<Value>, Fail> {
    let mut edges = Vec::new(alloc);
    for (src, dst) in EDGES {
        edges.push(Edge {
            src,
            dst,
            weight: 1,
        })?;
    }
    assert!(rt; edges.iter().all(|edge| edge.src < 4 && edge.dst < 4));
    Ok(plain_run(alloc, &Degrees, 4, &edges, 1)?)
}

// Runs the events and compares the merge with the plain engine.
fn expect_degrees(rt: &impl Abort, alloc: Global, events: &[Event]) -> Result<(), Fail> {
    let values = plain_degrees(rt, alloc)?;
    let mut core = chunks_of_edges(rt, alloc)?;
    let _replies = run_events(alloc, &mut core, &Degrees, events)?;
    let low = merged_of(rt, alloc, &core, 0)?;
    let high = merged_of(rt, alloc, &core, 1)?;
    let found = low.iter().chain(&high);
    for (sum, value) in found.zip(&values) {
        assert_eq!(rt; *sum, value.main);
    }
    Ok(())
}

#[test]
fn any_schedule_gives_the_plain_sums(rt: HostRuntime) -> Result<(), Fail> {
    let alone = [
        claim(0, 0, 0),
        claim(0, 0, 0),
        claim(0, 0, 0),
        claim(0, 1, 0),
        claim(1, 1, 1),
        claim(1, 0, 1),
    ];
    let helped = [
        admit(1, 0, 1),
        admit(0, 1, 1),
        claim(1, 1, 0),
        claim(0, 1, 1),
        claim(1, 0, 0),
        claim(0, 0, 0),
        claim(1, 0, 0),
    ];
    let early = [
        claim(1, 0, 0),
        admit(0, 0, 1),
        claim(0, 1, 0),
        admit(1, 0, 2),
        claim(0, 0, 0),
        claim(1, 1, 1),
        claim(2, 0, 0),
        Event::Finish { worker: 1 },
        claim(1, 0, 1),
        claim(0, 0, 0),
        claim(0, 0, 0),
        claim(0, 0, 0),
    ];
    expect_degrees(&rt, rt.alloc(), &alone)?;
    expect_degrees(&rt, rt.alloc(), &helped)?;
    expect_degrees(&rt, rt.alloc(), &early)
}
