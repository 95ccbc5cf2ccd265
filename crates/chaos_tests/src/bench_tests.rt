// A large run, over a text that is made of a number, beside the plain engine.

use crate::call::call;
use crate::world::new_world;
use edge_reader::EdgeReader;
use gather_laws::{NONE, Value};
use graph_model::Edge;
use plain_rounds::{PlainFault, plain_run};
use ports::Source;
use rmat_source::RmatText;
use std::alloc::Global;
use std::process::Abort;
use std::test::*;
use vertex_programs::Sssp;

const SCALE: u32 = 16;

const VERTICES: u32 = 65_536;

const EDGES: u64 = 1_048_576;

/// The edges of the text of number 1.
fn edges(rt: &impl Abort, alloc: Global) -> Vec<Edge> {
    let mut source = RmatText::new(SCALE, EDGES, 1);
    let mut reader = EdgeReader::new(VERTICES, false, 1 << 40);
    let mut edges = Vec::new(alloc);
    let mut piece = vec![in alloc; 0; 65_536].expect(rt, "room");
    for _ in 0..1_000_000 {
        let many = source.read(piece.as_mut_slice()).expect(rt, "a piece");
        if many == 0 {
            break;
        }
        assert!(rt; many <= piece.len());
        assert!(rt; reader.feed(&piece[..many], &mut edges).is_ok());
    }
    assert!(rt; reader.finish(&mut edges).is_ok());
    edges
}

/// The round that repeats the one before it, and its values.
fn last_round(rt: &impl Abort, alloc: Global, edges: &[Edge]) -> (u32, Vec<Value>) {
    assert!(rt;
        edges
            .iter()
            .all(|edge| edge.src < VERTICES && edge.dst < VERTICES)
    );
    for limit in 1..100 {
        match plain_run(alloc, &Sssp { root: 0 }, VERTICES, edges, limit) {
            Ok(values) => return (limit, values),
            Err(PlainFault::RoundLimit) => {}
            Err(PlainFault::Memory) => panic!(rt; "out of memory"),
        }
    }
    panic!(rt; "no round repeats the one before it")
}

/// The lines of distances.
fn lines_of(rt: &impl Abort, alloc: Global, values: &[Value]) -> String {
    let mut lines = String::new(alloc);
    for (vertex, value) in values.iter().enumerate() {
        let line = if value.main == NONE {
            format!(in alloc; "{vertex} -\n")
        } else {
            format!(in alloc; "{vertex} {}\n", value.main)
        };
        lines
            .push_str(&line.expect(rt, "a line"))
            .expect(rt, "room");
    }
    lines
}

fn mark_of(bytes: &[u8]) -> u32 {
    let mut mark: u32 = 0;
    for byte in bytes {
        mark = mark.wrapping_mul(31).wrapping_add(u32::from(*byte));
    }
    mark
}

/// What a bench prints.
fn summary(rt: &impl Abort, alloc: Global) -> String {
    let edges = edges(rt, alloc);
    let (round, values) = last_round(rt, alloc, &edges);
    let lines = lines_of(rt, alloc, &values);
    let bytes = lines.len();
    let mark = mark_of(lines.as_bytes());
    format!(in alloc;
        "vertices {VERTICES}\nedges {EDGES}\nrounds {round}\nlines {VERTICES}\nbytes {bytes}\nmark {mark}\n"
    ).expect(rt, "room")
}

#[test]
fn a_large_run_is_that_of_the_plain_engine(rt: HostRuntime) {
    let alloc = rt.alloc();
    let wanted = summary(&rt, alloc);
    for _ in 0..2 {
        let mut world = new_world(&rt, alloc, 4);
        let words = "bench sssp 0 --scale 16 --edges 1048576 --engines 4";
        let told = call(&rt, alloc, &mut world, words, b"");
        assert!(&rt; told.is(0, wanted.as_bytes(), b""));
    }
}
