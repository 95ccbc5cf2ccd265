// A stop comes at every moment of a call, and a resume goes on from what it may leave.
use crate::call::call;
use crate::contents::{Contents, after_run, before_last_round};
use crate::faults::{Fault, Kind, Object};
use crate::jobs::{DROP, ON_TWO, RESUME, Small};
use crate::stops::{copies_of, is_resumed, pairs_in, stopped};
use crate::world::{World, world_on};
use mem_devices::MemDisk;
use std::alloc::Global;
use std::process::Abort;
use std::test::*;
use std::thread::Threads;

/// Whether some stops left a store to go on with, and whether some left none.
#[derive(Clone, Copy, PartialEq, Eq, Debug)]
struct Seen {
    prepared: bool,
    bare: bool,
}

const NONE: Seen = Seen {
    prepared: false,
    bare: false,
};

const BARE: Seen = Seen {
    prepared: false,
    bare: true,
};

const EITHER: Seen = Seen {
    prepared: true,
    bare: true,
};

const PREPARED: Seen = Seen {
    prepared: true,
    bare: false,
};

/// Goes on from what a stop left.
fn look<R: Threads + Sync + Abort>(
    rt: &R,
    alloc: Global,
    held: &Contents,
    job: &Small,
    seen: &mut Seen,
) {
    if is_resumed(rt, alloc, held, job) {
        seen.prepared = true;
    } else {
        seen.bare = true;
    }
}

/// Goes on from these graph devices with each pair of values devices.
fn look_at_values<R: Threads + Sync + Abort>(
    rt: &R,
    alloc: Global,
    graphs: &[Vec<u8>],
    all_values: &[Vec<Vec<u8>>],
    seen: &mut Seen,
) {
    for values in all_values {
        let held = Contents {
            graphs: copies_of(rt, alloc, graphs),
            values: copies_of(rt, alloc, values),
            lanes: Vec::new(alloc),
        };
        look(rt, alloc, &held, &ON_TWO, seen);
    }
}

/// Goes on from all that a stop in a beat may have left.
fn look_in<R: Threads + Sync + Abort>(
    rt: &R,
    alloc: Global,
    world: &World<MemDisk>,
    beat: u64,
) -> Seen {
    let all_values = pairs_in(rt, alloc, &world.store.values, beat);
    let mut seen = NONE;
    for graphs in &pairs_in(rt, alloc, &world.store.graphs, beat) {
        look_at_values(rt, alloc, graphs, &all_values, &mut seen);
    }
    seen
}

/// The world after a call that ends well.
fn world_after<R: Threads + Sync + Abort>(
    rt: &R,
    alloc: Global,
    held: &Contents,
    words: &str,
) -> World<MemDisk> {
    let mut world = world_on(rt, alloc, 2, held, &Fault::NONE);
    let told = call(rt, alloc, &mut world, words, ON_TWO.text);
    assert!(rt; told.status == 0);
    world
}

#[test]
fn no_stop_of_a_run_loses_more_than_the_text(rt: HostRuntime) {
    let alloc = rt.alloc();
    let world = world_after(&rt, alloc, &Contents::empty(alloc), ON_TWO.run);
    for beat in 1..=world.beat.number() {
        // the store is made in the first beat but for its gates, which are opened in the second
        let wanted = match beat {
            1 => BARE,
            2 => EITHER,
            _ => PREPARED,
        };
        let seen = look_in(&rt, alloc, &world, beat);
        assert_eq!(&rt; seen, wanted, "beat {beat}");
    }
}

#[test]
fn no_stop_of_a_resume_loses_the_store(rt: HostRuntime) {
    let alloc = rt.alloc();
    let held = before_last_round(&rt, alloc, &ON_TWO);
    let world = world_after(&rt, alloc, &held, RESUME);
    for beat in 1..=world.beat.number() {
        let seen = look_in(&rt, alloc, &world, beat);
        assert_eq!(&rt; seen, PREPARED, "beat {beat}");
    }
}

#[test]
fn a_store_that_is_given_up_is_whole_or_none(rt: HostRuntime) {
    let alloc = rt.alloc();
    let held = after_run(&rt, alloc, &ON_TWO);
    let world = world_after(&rt, alloc, &held, DROP);
    assert!(&rt; world.beat.number() == 2);
    // the gates are closed in the first beat, and all else is done in the second
    assert_eq!(&rt; look_in(&rt, alloc, &world, 1), EITHER);
    assert_eq!(&rt; look_in(&rt, alloc, &world, 2), BARE);
}

/// Fails each call of a values device in a resume, and goes on from each image of it.
fn stop_again<R: Threads + Sync + Abort>(rt: &R, alloc: Global, held: &Contents, engine: u32) {
    let object = Object::new(Kind::Values, 0, engine);
    for number in 1..100 {
        let fault = Fault { object, number };
        let stops = stopped(rt, alloc, held, &ON_TWO, RESUME, &fault);
        if stops.is_empty() {
            return;
        }
        let mut seen = NONE;
        look_at(rt, alloc, &stops, &mut seen);
        assert!(rt; seen == PREPARED, "call {number}");
    }
    assert!(rt; false, "a call never ends");
}

/// Goes on from what each stop left.
fn look_at<R: Threads + Sync + Abort>(rt: &R, alloc: Global, stops: &[Contents], seen: &mut Seen) {
    for stop in stops {
        look(rt, alloc, stop, &ON_TWO, seen);
    }
}

/// Goes on from what each stop left, and stops that once more by the values of each engine.
fn look_again<R: Threads + Sync + Abort>(rt: &R, alloc: Global, stops: &[Contents]) {
    for stop in stops {
        if is_resumed(rt, alloc, stop, &ON_TWO) {
            stop_again(rt, alloc, stop, 0);
            stop_again(rt, alloc, stop, 1);
        }
    }
}

/// Fails each call of a device in a run, goes on from each image of it, and stops that again.
fn stop_twice<R: Threads + Sync + Abort>(rt: &R, alloc: Global, kind: Kind, engine: u32) {
    let object = Object::new(kind, 0, engine);
    let held = Contents::empty(alloc);
    for number in 1..100 {
        let fault = Fault { object, number };
        let stops = stopped(rt, alloc, &held, &ON_TWO, ON_TWO.run, &fault);
        if stops.is_empty() {
            return;
        }
        look_again(rt, alloc, &stops);
    }
    assert!(rt; false, "a call never ends");
}

#[test]
fn a_run_is_stopped_by_its_first_graph_device_and_stopped_again(rt: HostRuntime) {
    stop_twice(&rt, rt.alloc(), Kind::Graph, 0);
}

#[test]
fn a_run_is_stopped_by_its_second_graph_device_and_stopped_again(rt: HostRuntime) {
    stop_twice(&rt, rt.alloc(), Kind::Graph, 1);
}

#[test]
fn a_run_is_stopped_by_its_first_values_device_and_stopped_again(rt: HostRuntime) {
    stop_twice(&rt, rt.alloc(), Kind::Values, 0);
}

#[test]
fn a_run_is_stopped_by_its_second_values_device_and_stopped_again(rt: HostRuntime) {
    stop_twice(&rt, rt.alloc(), Kind::Values, 1);
}
