// What is recovered of stores whose bytes were written by hand, and of which one byte is another.
use crate::test_stores::*;
use crate::{RecoverFault, Recovered, recover};
use mem_devices::MemMeter;
use std::alloc::Global;
use std::process::Abort;
use std::test::*;

/// What is recovered where a byte of the graph device is another.
fn with_graph_byte(rt: &impl Abort, alloc: Global, graph: &[u8], at: usize, byte: u8) -> Answer {
    let graph = changed(rt, alloc, graph, at, byte);
    answer_of(rt, alloc, &graph, &VALUES)
}

/// What is recovered where a byte of the values device is another.
fn with_values_byte(rt: &impl Abort, alloc: Global, at: usize, byte: u8) -> Answer {
    let values = changed(rt, alloc, &VALUES, at, byte);
    answer_of(rt, alloc, &GRAPH_1, &values)
}

#[test]
fn a_whole_store_has_its_greater_round(rt: HostRuntime) {
    let alloc = rt.alloc();
    let third = Answer::Found {
        round: 3,
        changed: 0,
    };
    assert_eq!(&rt; answer_of(&rt, alloc, &GRAPH_1, &VALUES), third);
    assert_eq!(&rt; answer_of(&rt, alloc, &GRAPH_2, &VALUES), third);
}

#[test]
fn its_job_and_index_are_recovered(rt: HostRuntime) {
    let alloc = rt.alloc();
    let store = store_of(&rt, alloc, &GRAPH_2, &VALUES);
    let mut meter = MemMeter::new(alloc, &[]).expect(&rt, "a meter");
    match recover(alloc, &store, &mut meter) {
        Ok(Recovered::Found { job, index, .. }) => {
            assert_eq!(&rt; job.vertices, 3);
            assert_eq!(&rt; job.format, 2);
            assert_eq!(&rt; job.keep, 1);
            assert_eq!(&rt; job.limit, 100_000);
            assert_eq!(&rt; index.total(), 1);
            assert!(&rt; index.len(0, 0) == 1);
            assert_eq!(&rt; index.place(0, 0, 0).at, 65);
        }
        Ok(Recovered::Fresh { .. }) => assert!(&rt; false),
        Err(_) => assert!(&rt; false),
    }
}

#[test]
fn a_changed_byte_of_a_head_is_found(rt: HostRuntime) {
    let alloc = rt.alloc();
    let differ = Answer::Fault(RecoverFault::EnginesDiffer { held: 2, asked: 1 });
    assert_eq!(&rt;
        with_graph_byte(&rt, alloc, &GRAPH_1, 1, 7),
        graph_is_damaged(1)
    );
    assert_eq!(&rt; with_graph_byte(&rt, alloc, &GRAPH_1, 2, 2), differ);
    assert_eq!(&rt;
        with_graph_byte(&rt, alloc, &GRAPH_1, 3, 1),
        graph_is_damaged(3)
    );
    assert_eq!(&rt;
        with_graph_byte(&rt, alloc, &GRAPH_1, 7, 1),
        graph_is_damaged(5)
    );
    assert_eq!(&rt;
        with_graph_byte(&rt, alloc, &GRAPH_1, 15, 3),
        graph_is_damaged(8)
    );
    assert_eq!(&rt;
        with_graph_byte(&rt, alloc, &GRAPH_1, 64, 0),
        graph_is_damaged(64)
    );
}

#[test]
fn the_fields_of_format_2_are_checked(rt: HostRuntime) {
    let alloc = rt.alloc();
    let second = with_graph_byte(&rt, alloc, &GRAPH_2, 7, 0);
    assert_eq!(&rt; second, graph_is_damaged(6));
    assert_eq!(&rt;
        with_graph_byte(&rt, alloc, &GRAPH_2, 6, 1),
        graph_is_damaged(6)
    );
    assert_eq!(&rt;
        with_graph_byte(&rt, alloc, &GRAPH_2, 5, 1),
        graph_is_damaged(5)
    );
    // 4,194,305 vertices are too many in format 1 alone: then the values device is too short
    let first = changed(&rt, alloc, &GRAPH_1, 21, 0x40);
    assert_eq!(&rt;
        with_graph_byte(&rt, alloc, &first, 23, 1),
        graph_is_damaged(16)
    );
    let second = changed(&rt, alloc, &GRAPH_2, 21, 0x40);
    assert_eq!(&rt;
        with_graph_byte(&rt, alloc, &second, 23, 1),
        values_are_damaged(0)
    );
}

#[test]
fn a_changed_chunk_is_found(rt: HostRuntime) {
    let alloc = rt.alloc();
    let shut = Answer::Fault(RecoverFault::NotPrepared);
    assert_eq!(&rt;
        with_graph_byte(&rt, alloc, &GRAPH_1, 72, 0),
        graph_is_damaged(65)
    );
    assert_eq!(&rt;
        with_graph_byte(&rt, alloc, &GRAPH_1, 72, 4),
        graph_is_damaged(65)
    );
    assert_eq!(&rt;
        with_graph_byte(&rt, alloc, &GRAPH_1, 76, 3),
        graph_is_damaged(65)
    );
    assert_eq!(&rt;
        answer_of(&rt, alloc, &GRAPH_1[..108], &VALUES),
        graph_is_damaged(65)
    );
    assert_eq!(&rt; answer_of(&rt, alloc, &GRAPH_1[..64], &VALUES), shut);
}

#[test]
fn a_changed_byte_of_a_slot_is_found(rt: HostRuntime) {
    let alloc = rt.alloc();
    let second = Answer::Found {
        round: 2,
        changed: 1,
    };
    assert_eq!(&rt;
        answer_of(&rt, alloc, &GRAPH_1, &VALUES[..143]),
        values_are_damaged(0)
    );
    assert_eq!(&rt; with_values_byte(&rt, alloc, 15, 3), values_are_damaged(0));
    assert_eq!(&rt; with_values_byte(&rt, alloc, 95, 4), values_are_damaged(72));
    assert_eq!(&rt; with_values_byte(&rt, alloc, 72, 0), second);
    let first = changed(&rt, alloc, &VALUES, 0, 0);
    let both = changed(&rt, alloc, &first, 72, 0);
    assert_eq!(&rt; answer_of(&rt, alloc, &GRAPH_1, &both), Answer::Fresh);
}

#[test]
fn a_failed_read_is_a_fault(rt: HostRuntime) {
    let alloc = rt.alloc();
    let store = store_of(&rt, alloc, &GRAPH_1, &VALUES);
    // one read of the gate, two of the head, two of the chunk, and two of the slots, twice
    for call in 1..10 {
        let mut meter = MemMeter::new(alloc, &[call]).expect(&rt, "a meter");
        assert!(&rt;
            matches!(
                recover(alloc, &store, &mut meter),
                Err(RecoverFault::DiskFault)
            )
        );
    }
    let mut meter = MemMeter::new(alloc, &[10]).expect(&rt, "a meter");
    assert!(&rt; recover(alloc, &store, &mut meter).is_ok());
}
