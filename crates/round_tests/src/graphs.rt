//! Small graphs, and their texts.
ghost use Rattle.std.specs.Prelude.{◌<◌};

use gather_laws::{Value, VertexProgram};
use graph_model::Edge;
use plain_rounds::{PlainFault, plain_run};
use std::alloc::Global;
use std::process::Abort;

/// The vertices of each graph.
pub(crate) const VERTICES: u32 = 9;

/// The seed of a graph in which vertex 3 reaches most others, over several rounds.
pub(crate) const FAR: u64 = 2;

/// The next of numbers in no visible order, below a bound.
fn draw(state: &mut u64, bound: u32) -> u32
    requires { 0 < bound }
    ensures { result < bound }
{
    *state = state
        .wrapping_mul(6_364_136_223_846_793_005)
        .wrapping_add(1_442_695_040_888_963_407);
    (*state >> 33) as u32 % bound
}

/// So many edges, which a seed determines.
pub(crate) fn edges_of(rt: &impl Abort, alloc: Global, seed: u64, many: u32) -> Vec<Edge> {
    let mut state = seed;
    let mut edges = Vec::new(alloc);
    for _ in 0..many {
        let edge = Edge {
            src: draw(&mut state, VERTICES),
            dst: draw(&mut state, VERTICES),
            weight: u64::from(draw(&mut state, 5)),
        };
        edges.push(edge).expect(rt, "room");
    }
    edges
}

/// The edges, each with its reverse.
pub(crate) fn in_both_directions(rt: &impl Abort, alloc: Global, edges: &[Edge]) -> Vec<Edge> {
    let mut both = Vec::new(alloc);
    for &edge in edges {
        both.push(edge).expect(rt, "room");
        let reverse = Edge {
            src: edge.dst,
            dst: edge.src,
            weight: edge.weight,
        };
        both.push(reverse).expect(rt, "room");
    }
    both
}

/// A line for each edge.
pub(crate) fn text_of(rt: &impl Abort, alloc: Global, edges: &[Edge]) -> String {
    let mut text = String::new(alloc);
    for edge in edges {
        let line = format!(in alloc; "{} {} {}\n", edge.src, edge.dst, edge.weight);
        text.push_str(&line.expect(rt, "a line")).expect(rt, "room");
    }
    text
}

/// The values of the last round by the plain engine, if there is one within the limit.
pub(crate) fn plain_values<P: VertexProgram>(
    rt: &impl Abort,
    alloc: Global,
    program: &P,
    edges: &[Edge],
    limit: u32,
) -> Option<Vec<Value>> {
    assert!(rt;
        edges
            .iter()
            .all(|edge| edge.src < VERTICES && edge.dst < VERTICES)
    );
    match plain_run(alloc, program, VERTICES, edges, limit) {
        Ok(values) => Some(values),
        Err(PlainFault::RoundLimit) => None,
        Err(PlainFault::Memory) => panic!(rt; "out of memory"),
    }
}
