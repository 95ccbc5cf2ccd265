// Each byte of a store is set to five values, one after another, and what is recovered is what a plain reading says.
use crate::plain_checker::plain_answer;
use crate::test_stores::*;
use std::alloc::Global;
use std::process::Abort;
use std::test::*;

const FIVE: [u8; 5] = [0, 1, 3, 0xA5, 0xFF];

/// Sets each byte of the graph device, and gives the number of the stores that were tried.
fn graph_bytes(rt: &impl Abort, alloc: Global, graph: &[u8]) -> u64 {
    let mut tried: u64 = 0;
    for at in 0..graph.len() {
        for byte in &FIVE {
            let graph = changed(rt, alloc, graph, at, *byte);
            assert_eq!(rt;
                answer_of(rt, alloc, &graph, &VALUES),
                plain_answer(&graph, &VALUES)
            );
            tried = tried.saturating_add(1);
        }
    }
    tried
}

#[test]
fn each_byte_of_a_graph_device_of_format_1(rt: HostRuntime) {
    assert_eq!(&rt; graph_bytes(&rt, rt.alloc(), &GRAPH_1), 545);
}

#[test]
fn each_byte_of_a_graph_device_of_format_2(rt: HostRuntime) {
    assert_eq!(&rt; graph_bytes(&rt, rt.alloc(), &GRAPH_2), 605);
}

#[test]
fn each_byte_of_a_values_device(rt: HostRuntime) {
    let alloc = rt.alloc();
    for at in 0..VALUES.len() {
        for byte in &FIVE {
            let values = changed(&rt, alloc, &VALUES, at, *byte);
            assert_eq!(&rt;
                answer_of(&rt, alloc, &GRAPH_1, &values),
                plain_answer(&GRAPH_1, &values)
            );
        }
    }
}

#[test]
fn each_length_of_a_device(rt: HostRuntime) {
    let alloc = rt.alloc();
    for length in 0..=GRAPH_1.len() {
        let graph = &GRAPH_1[..length];
        assert_eq!(&rt;
            answer_of(&rt, alloc, graph, &VALUES),
            plain_answer(graph, &VALUES)
        );
    }
    for length in 0..=VALUES.len() {
        let values = &VALUES[..length];
        assert_eq!(&rt;
            answer_of(&rt, alloc, &GRAPH_1, values),
            plain_answer(&GRAPH_1, values)
        );
    }
}
