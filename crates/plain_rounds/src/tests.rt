// The values here were computed by hand from the edge lists.
use crate::{PlainFault, plain_run};
use gather_laws::{NONE, Value, VertexProgram};
use graph_model::Edge;
use std::alloc::Global;
use std::process::Abort;
use vertex_programs::{Bfs, Degrees, Labels, PageRank, Sssp};

fn edge(src: u32, dst: u32, weight: u64) -> Edge {
    Edge { src, dst, weight }
}

// The final values of a program over edges within the graph.
fn run<P: VertexProgram>(
    rt: &impl Abort,
    alloc: Global,
    program: &P,
    vertices: u32,
    edges: &[Edge],
    limit: u32,
) -> Result<Vec<Value>, PlainFault> {
    assert!(rt;
        edges
            .iter()
            .all(|edge| edge.src < vertices && edge.dst < vertices)
    );
    plain_run(alloc, program, vertices, edges, limit)
}

fn expect_values(rt: &impl Abort, found: Result<Vec<Value>, PlainFault>, wanted: &[Value]) {
    match found {
        Ok(values) => assert_eq!(rt; values.as_slice(), wanted),
        Err(fault) => panic!(rt; "{fault:?}"),
    }
}

fn value(main: u64, side: u64) -> Value {
    Value { main, side }
}

#[test]
fn levels_of_a_path(rt: HostRuntime) {
    let edges = [edge(0, 1, 1), edge(1, 2, 1)];
    let found = run(&rt, rt.alloc(), &Bfs { root: 0 }, 4, &edges, 100_000);
    expect_values(
        &rt,
        found,
        &[value(0, 0), value(1, 0), value(2, 0), value(NONE, 0)],
    );
}

#[test]
fn labels_of_an_edge_and_of_none(rt: HostRuntime) {
    let edges = [edge(2, 1, 1), edge(1, 2, 1)];
    let found = run(&rt, rt.alloc(), &Labels, 3, &edges, 100_000);
    expect_values(&rt, found, &[value(0, 0), value(1, 0), value(1, 0)]);
    let found = run(&rt, rt.alloc(), &Labels, 3, &[], 100_000);
    expect_values(&rt, found, &[value(0, 0), value(1, 0), value(2, 0)]);
}

#[test]
fn distances_of_a_detour(rt: HostRuntime) {
    let edges = [edge(0, 1, 5), edge(0, 2, 1), edge(2, 1, 1)];
    let found = run(&rt, rt.alloc(), &Sssp { root: 0 }, 3, &edges, 3);
    expect_values(&rt, found, &[value(0, 0), value(2, 0), value(1, 0)]);
    let found = run(&rt, rt.alloc(), &Sssp { root: 0 }, 3, &edges, 2);
    assert!(rt; matches!(found, Err(PlainFault::RoundLimit)));
}

#[test]
fn degrees_of_a_double_edge(rt: HostRuntime) {
    let edges = [edge(0, 1, 1), edge(0, 1, 1)];
    let found = run(&rt, rt.alloc(), &Degrees, 2, &edges, 0);
    expect_values(&rt, found, &[value(0, 2), value(2, 0)]);
}

#[test]
fn ranks_of_a_triangle(rt: HostRuntime) {
    let edges = [edge(0, 1, 1), edge(0, 2, 1), edge(1, 2, 1)];
    let found = run(&rt, rt.alloc(), &PageRank { rounds: 1 }, 3, &edges, 1);
    expect_values(
        &rt,
        found,
        &[value(150_000, 2), value(575_000, 1), value(1_425_000, 0)],
    );
    let found = run(&rt, rt.alloc(), &PageRank { rounds: 2 }, 3, &edges, 1);
    expect_values(
        &rt,
        found,
        &[value(150_000, 2), value(213_750, 1), value(702_500, 0)],
    );
}
