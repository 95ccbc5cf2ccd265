// A store is given up while each of its calls fails once, and every image of its devices is looked at.

use crate::drop_store;
use crate::test_stores::{GRAPH_1, VALUES, changed, store_with};
use mem_devices::{MemDisk, MemMeter};
use ports::{Beat, Disk, Failed};
use std::alloc::Global;
use std::process::Abort;
use std::test::*;
use store_reader::Store;

/// Gives up a store with this graph device, of which these calls fail; no call has number 0.
fn dropped(
    rt: &impl Abort,
    alloc: Global,
    graph: &[u8],
    graph_fails: u64,
    values_fails: u64,
) -> (Store<MemDisk>, Result<(), Failed>) {
    let mut store = store_with(rt, alloc, graph, &VALUES, graph_fails, values_fails);
    let mut meter = MemMeter::new(alloc, &[]).expect(rt, "a meter");
    let mut beat = Beat::new();
    let result = drop_store(&mut store, &mut meter, &mut beat);
    (store, result)
}

fn byte_at(rt: &impl Abort, alloc: Global, disk: &MemDisk, at: u64) -> u8 {
    let mut meter = MemMeter::new(alloc, &[]).expect(rt, "a meter");
    let mut byte = [0];
    assert!(rt; at < disk.size());
    disk.read_at(&mut meter, at, &mut byte).expect(rt, "a read");
    byte[0]
}

fn is_open(rt: &impl Abort, alloc: Global, disk: &MemDisk) -> bool {
    disk.size() >= 65 && byte_at(rt, alloc, disk, 0) == 0xA5
}

/// A disk has these bytes.
fn expect_bytes(rt: &impl Abort, alloc: Global, disk: &MemDisk, bytes: &[u8]) {
    assert_eq!(rt; disk.size(), bytes.len() as u64);
    for at in 0..bytes.len() {
        assert_eq!(rt; byte_at(rt, alloc, disk, at as u64), bytes[at]);
    }
}

/// Each image of the graph device is as it was, in the first beat, or not open. Gives the number of its calls.
fn look_at_graph(rt: &impl Abort, alloc: Global, disk: &MemDisk, old: &[u8]) -> u64 {
    let last = disk.moments();
    assert!(rt; last >= 1);
    let is_one_beat = disk.beat_of(last) == 0;
    for moment in 1..=last + 1 {
        let is_first = moment <= last && disk.beat_of(moment) == 0;
        for pick in 0..4 {
            let image = disk.image(alloc, moment, pick).expect(rt, "an image");
            if is_open(rt, alloc, &image) {
                assert!(rt; is_first || is_one_beat);
                expect_bytes(rt, alloc, &image, old);
            }
        }
    }
    last
}

/// No call of the values device is in the first beat. Gives the number of its calls.
fn look_at_values(rt: &impl Abort, disk: &MemDisk) -> u64 {
    let last = disk.moments();
    for moment in 1..=last {
        assert_eq!(rt; disk.beat_of(moment), 1);
    }
    last
}

/// Nothing is left of a disk, in no image.
fn expect_empty(rt: &impl Abort, alloc: Global, disk: &MemDisk) {
    let last = disk.moments();
    for pick in 0..4 {
        let image = disk.image(alloc, last + 1, pick).expect(rt, "an image");
        assert_eq!(rt; image.size(), 0);
    }
}

/// The first call of the graph device that does not fail, when all before it were failed in turn.
fn calls_of_graph(rt: &impl Abort, alloc: Global) -> u64 {
    for fails in 1..100 {
        let (store, result) = dropped(rt, alloc, &GRAPH_1, fails, 0);
        assert!(rt; store.graphs.len() == 1 && store.values.len() == 1);
        look_at_graph(rt, alloc, &store.graphs[0], &GRAPH_1);
        look_at_values(rt, &store.values[0]);
        if result.is_ok() {
            expect_empty(rt, alloc, &store.graphs[0]);
            expect_empty(rt, alloc, &store.values[0]);
            return fails;
        }
    }
    0
}

fn calls_of_values(rt: &impl Abort, alloc: Global) -> u64 {
    for fails in 1..100 {
        let (store, result) = dropped(rt, alloc, &GRAPH_1, 0, fails);
        assert!(rt; store.graphs.len() == 1 && store.values.len() == 1);
        look_at_graph(rt, alloc, &store.graphs[0], &GRAPH_1);
        look_at_values(rt, &store.values[0]);
        if result.is_ok() {
            return fails;
        }
    }
    0
}

#[test]
fn each_call_of_the_graph_device_fails_once(rt: HostRuntime) {
    // a sync, the gate and its sync; a cut and a sync
    assert_eq!(&rt; calls_of_graph(&rt, rt.alloc()), 6);
}

#[test]
fn each_call_of_the_values_device_fails_once(rt: HostRuntime) {
    // a cut and a sync
    assert_eq!(&rt; calls_of_values(&rt, rt.alloc()), 3);
}

#[test]
fn a_closed_gate_is_not_written(rt: HostRuntime) {
    let alloc = rt.alloc();
    let shut = changed(&rt, alloc, &GRAPH_1, 0, 0);
    let (store, result) = dropped(&rt, alloc, &shut, 0, 0);
    assert!(&rt; result.is_ok() && store.graphs.len() == 1);
    // a sync; a cut and a sync
    assert_eq!(&rt; look_at_graph(&rt, alloc, &store.graphs[0], &shut), 3);
    expect_empty(&rt, alloc, &store.graphs[0]);
}
