// What is recovered of stores of two engines without edges.

use crate::test_stores::Answer;
use crate::{RecoverFault, Recovered, recover};
use mem_devices::{MemDisk, MemMeter};
use std::alloc::Global;
use std::process::Abort;
use std::test::*;
use store_reader::{Part, Store};

/// A head of three vertices on two engines, of engine 0: two vertices are on engine 0 and one is on engine 1.
const HEAD: [u8; 65] = [
    0xA5, 2, 2, 0, 1, 0, 0, 1, //
    0, 0, 0, 0, 0, 0, 0, 0, //
    0, 0, 0, 0, 0, 0, 0, 3, //
    0, 0, 0, 0, 0, 0x20, 0, 0, //
    0, 0, 0, 0, 0, 0, 0x10, 0, //
    0, 0, 0, 0, 0, 0, 0, 1, //
    0, 0, 0, 0, 0, 0, 0, 100, //
    0, 0, 0, 0, 0, 1, 0x86, 0xA0, //
    0x47,
];

/// What stands in the slots of an engine: a round and its changes, or nothing.
type Slots = [Option<(u8, u8)>; 2];

/// A values device of so many vertices.
fn values_of(rt: &impl Abort, alloc: Global, own: usize, slots: &Slots) -> Vec<u8> {
    let mut bytes = Vec::new(alloc);
    for slot in slots {
        let (gate, round, changed) = match slot {
            Some((round, changed)) => (0xA5, *round, *changed),
            None => (0, 0, 0),
        };
        let head = [
            gate, 0, 0, 0, 0, 0, 0, 0, 0, 0, 0, 0, 0, 0, 0, round, 0, 0, 0, 0, 0, 0, 0, changed,
        ];
        bytes.extend_from_slice(&head).expect(rt, "room");
        for _ in 0..own {
            bytes.extend_from_slice(&[0; 16]).expect(rt, "room");
        }
    }
    bytes
}

/// What is recovered of two engines with these slots, where a byte of the second head is another.
fn answer_with(
    rt: &impl Abort,
    alloc: Global,
    first: &Slots,
    second: &Slots,
    at: usize,
    byte: u8,
) -> Answer {
    let mut head = HEAD;
    head[3] = 1;
    assert!(rt; at < head.len());
    head[at] = byte;
    let first = values_of(rt, alloc, 2, first);
    let second = values_of(rt, alloc, 1, second);
    let mut store = Store {
        graphs: Vec::new(alloc),
        values: Vec::new(alloc),
        lanes: Vec::new(alloc),
        spills: Vec::new(alloc),
    };
    let graphs = &mut store.graphs;
    graphs
        .push(MemDisk::new(alloc, &HEAD, &[]).expect(rt, "a disk"))
        .expect(rt, "room");
    graphs
        .push(MemDisk::new(alloc, &head, &[]).expect(rt, "a disk"))
        .expect(rt, "room");
    let values = &mut store.values;
    values
        .push(MemDisk::new(alloc, &first, &[]).expect(rt, "a disk"))
        .expect(rt, "room");
    values
        .push(MemDisk::new(alloc, &second, &[]).expect(rt, "a disk"))
        .expect(rt, "room");
    let mut meter = MemMeter::new(alloc, &[]).expect(rt, "a meter");
    match recover(alloc, &store, &mut meter) {
        Ok(Recovered::Found { round, changed, .. }) => Answer::Found { round, changed },
        Ok(Recovered::Fresh { .. }) => Answer::Fresh,
        Err(fault) => Answer::Fault(fault),
    }
}

/// What is recovered of two engines with these slots.
fn answer_of(rt: &impl Abort, alloc: Global, first: &Slots, second: &Slots) -> Answer {
    answer_with(rt, alloc, first, second, 3, 1)
}

fn damaged(part: Part, engine: u32, place: u64) -> Answer {
    Answer::Fault(RecoverFault::Damaged {
        part,
        engine,
        place,
    })
}

#[test]
fn the_greatest_round_of_all_engines_is_kept(rt: HostRuntime) {
    let alloc = rt.alloc();
    let second = Answer::Found {
        round: 2,
        changed: 3,
    };
    let third = Answer::Found {
        round: 3,
        changed: 1,
    };
    let both = [Some((2, 2)), Some((3, 1))];
    assert_eq!(&rt;
        answer_of(&rt, alloc, &both, &[Some((2, 1)), Some((1, 1))]),
        second
    );
    assert_eq!(&rt; answer_of(&rt, alloc, &both, &[Some((2, 1)), None]), second);
    assert_eq!(&rt;
        answer_of(&rt, alloc, &both, &[Some((2, 1)), Some((3, 0))]),
        third
    );
    assert_eq!(&rt;
        answer_of(&rt, alloc, &both, &[Some((4, 1)), None]),
        Answer::Fresh
    );
    assert_eq!(&rt; answer_of(&rt, alloc, &both, &[None, None]), Answer::Fresh);
}

#[test]
fn damage_of_the_second_engine_is_found(rt: HostRuntime) {
    let alloc = rt.alloc();
    let none = [None, None];
    let wrong_round = [None, Some((2, 0))];
    let many_changed = [None, Some((3, 2))];
    assert_eq!(&rt;
        answer_of(&rt, alloc, &none, &wrong_round),
        damaged(Part::Values, 1, 40)
    );
    assert_eq!(&rt;
        answer_of(&rt, alloc, &none, &many_changed),
        damaged(Part::Values, 1, 40)
    );
    assert_eq!(&rt;
        answer_with(&rt, alloc, &none, &none, 3, 0),
        damaged(Part::Graph, 1, 3)
    );
    assert_eq!(&rt;
        answer_with(&rt, alloc, &none, &none, 47, 9),
        damaged(Part::Graph, 1, 40)
    );
    let shut = Answer::Fault(RecoverFault::NotPrepared);
    assert_eq!(&rt; answer_with(&rt, alloc, &none, &none, 0, 0xA4), shut);
}
