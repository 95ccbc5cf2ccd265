// Each call of the outside fails once, and what stands then is gone on from.
ghost use Rattle.std.specs.Prelude.{◌≡◌};
ghost use Rattle.mem_devices.specs.MemDisk.{disk_state};
ghost use Rattle.round_loop.specs.Keeping.{moment};
ghost use Rattle.run_model.specs.Calls.{IsReady};

use crate::call::{call, call_at};
use crate::contents::{Contents, after_run, before_last_round};
use crate::faults::{Fault, Kind, Object};
use crate::jobs::{DROP, LATE_RANKS, ON_TWO, RESUME};
use crate::world::{World, calls_at, new_world, world_on};
use engine_gate::OpenGate;
use mem_devices::MemDisk;
use std::alloc::Global;
use std::process::Abort;
use std::test::*;
use std::thread::Threads;

/// The status and the message of a call in which an object of this kind fails.
fn ending_of(kind: Kind) -> (u8, &'static [u8]) {
    match kind {
        Kind::Source => (6, b"read fault\n"),
        Kind::Out => (7, b"write fault\n"),
        Kind::Err => (0, b""),
        Kind::Graph | Kind::Values | Kind::Lane | Kind::Spill | Kind::Meter => {
            (3, b"disk fault\n")
        }
    }
}

/// All that two engines were handed is in its place.
fn expect_whole(rt: &impl Abort, world: &World<MemDisk>) {
    let store = &world.store;
    assert!(rt; store.graphs.len() == 2 && store.values.len() == 2);
    assert!(rt; store.lanes.len() == 2 && store.spills.len() == 2);
    assert!(rt; store.lanes.iter().all(|row| row.len() == 2));
    assert!(rt; world.meters.len() == 3);
}

/// A resume prints the answer, or there is nothing to go on with: then a run prints it.
fn expect_answer<R: Threads + Sync + Abort>(
    rt: &R,
    alloc: Global,
    world: &mut World<MemDisk>,
    fault: &Fault,
)
    requires ready { IsReady disk_state world.old.engines (moment world.old.store world.old.meters.items world.old.seat.view world.old.beat) }
    requires table { world.old.seat.table ≡ world.old.table }
{
    let told = call(rt, alloc, world, RESUME, b"");
    if told.status == 0 {
        assert!(rt; told.is(0, LATE_RANKS.answer, b""), "{fault:?}");
        return;
    }
    assert!(rt; told.is(8, b"", b"store is not prepared\n"), "{fault:?}");
    let told = call(rt, alloc, world, LATE_RANKS.run, LATE_RANKS.text);
    assert!(rt; told.is(0, LATE_RANKS.answer, b""), "{fault:?}");
}

/// A call that prints this, where no call of the outside fails; and one that goes on, where this one fails. Whether it did.
fn expect_fault<R: Threads + Sync + Abort>(
    rt: &R,
    alloc: Global,
    held: &Contents,
    words: &str,
    printed: &[u8],
    fault: &Fault,
) -> bool {
    let mut world = world_on(rt, alloc, 2, held, fault);
    let text = LATE_RANKS.text;
    let told = call_at(rt, alloc, &mut world, words, text, &OpenGate, fault);
    expect_whole(rt, &world);
    if told.status == 0 {
        assert!(rt; told.is(0, printed, b""), "{fault:?}");
        assert!(rt; calls_at(&world.store, fault.object) < fault.number);
        return false;
    }
    let (status, message) = ending_of(fault.object.kind);
    let front = told.out.written();
    assert!(rt; told.is(status, front, message), "{fault:?}");
    assert!(rt; printed.starts_with(front), "{fault:?}");
    expect_answer(rt, alloc, &mut world, fault);
    true
}

/// Fails each call of an object once, until two calls in turn meet no fault: who takes a chunk, and so makes a call, may be
/// another worker each time.
fn expect_faults<R: Threads + Sync + Abort>(
    rt: &R,
    alloc: Global,
    held: &Contents,
    words: &str,
    printed: &[u8],
    object: Object,
) {
    let mut spared = 0;
    for number in 1..1000 {
        let fault = Fault { object, number };
        if expect_fault(rt, alloc, held, words, printed, &fault) {
            spared = 0;
        } else if spared == 0 {
            spared = 1;
        } else {
            return;
        }
    }
    assert!(rt; false, "a call never ends");
}

/// All that two engines are handed, but what messages are told to.
const OBJECTS: [(Kind, u32, u32); 15] = [
    (Kind::Graph, 0, 0),
    (Kind::Graph, 0, 1),
    (Kind::Values, 0, 0),
    (Kind::Values, 0, 1),
    (Kind::Lane, 0, 0),
    (Kind::Lane, 0, 1),
    (Kind::Lane, 1, 0),
    (Kind::Lane, 1, 1),
    (Kind::Spill, 0, 0),
    (Kind::Spill, 0, 1),
    (Kind::Meter, 0, 0),
    (Kind::Meter, 0, 1),
    (Kind::Meter, 0, 2),
    (Kind::Source, 0, 0),
    (Kind::Out, 0, 0),
];

/// Fails each call of each object once.
fn expect_all_faults<R: Threads + Sync + Abort>(
    rt: &R,
    alloc: Global,
    held: &Contents,
    words: &str,
    printed: &[u8],
) {
    for &(kind, worker, engine) in &OBJECTS {
        let object = Object::new(kind, worker, engine);
        expect_faults(rt, alloc, held, words, printed, object);
    }
}

#[test]
fn each_call_fails_once_in_a_run(rt: HostRuntime) {
    let alloc = rt.alloc();
    let held = Contents::empty(alloc);
    expect_all_faults(&rt, alloc, &held, LATE_RANKS.run, LATE_RANKS.answer);
}

#[test]
fn each_call_fails_once_in_a_resume(rt: HostRuntime) {
    let alloc = rt.alloc();
    let held = before_last_round(&rt, alloc, &LATE_RANKS);
    expect_all_faults(&rt, alloc, &held, RESUME, LATE_RANKS.answer);
}

#[test]
fn each_call_fails_once_where_a_store_is_given_up(rt: HostRuntime) {
    let alloc = rt.alloc();
    let held = after_run(&rt, alloc, &LATE_RANKS);
    expect_all_faults(&rt, alloc, &held, DROP, b"");
}

/// What is said where the last of two rounds still changed a value.
const UNSETTLED: &[u8] = b"no fixpoint within 2 rounds\n";

#[test]
fn a_message_that_is_not_told_changes_no_status(rt: HostRuntime) {
    let alloc = rt.alloc();
    let words = "run sssp 0 --vertices 3 --engines 2 --chunk 1 --limit 2";
    for number in 1..8 {
        let object = Object::ERR;
        let fault = Fault { object, number };
        let mut world = new_world(&rt, alloc, 2);
        let text = ON_TWO.text;
        let told = call_at(&rt, alloc, &mut world, words, text, &OpenGate, &fault);
        let front = told.err.written();
        assert!(&rt; told.is(4, b"", front) && UNSETTLED.starts_with(front));
        // the message takes six writes
        assert!(&rt; (front.len() < UNSETTLED.len()) == (number < 7));
        let told = call(&rt, alloc, &mut world, RESUME, b"");
        assert!(&rt; told.is(4, b"", UNSETTLED));
    }
}
