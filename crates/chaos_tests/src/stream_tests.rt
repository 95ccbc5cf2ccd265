// Reads and writes that fail, each once.
use crate::call::{Told, call_at};
use crate::faults::{Fault, Kind, Object};
use crate::jobs::ON_ONE;
use crate::world::world_of;
use engine_gate::OpenGate;
use std::alloc::Global;
use std::process::Abort;
use std::test::*;
use std::thread::Threads;

/// A call on one engine, in which this call of an object fails.
fn told_at<R: Threads + Sync + Abort>(
    rt: &R,
    alloc: Global,
    words: &str,
    text: &[u8],
    object: Object,
    number: u64,
) -> Told {
    let fault = Fault { object, number };
    let mut world = world_of(rt, alloc, 1, &fault);
    call_at(rt, alloc, &mut world, words, text, &OpenGate, &fault)
}

#[test]
fn a_read_of_the_source_fails(rt: HostRuntime) {
    for number in 1..3 {
        let told = told_at(
            &rt,
            rt.alloc(),
            ON_ONE.run,
            ON_ONE.text,
            Object::SOURCE,
            number,
        );
        assert!(&rt; told.is(6, b"", b"read fault\n"), "read {number}");
    }
}

#[test]
fn a_write_of_the_answer_fails(rt: HostRuntime) {
    let told = told_at(&rt, rt.alloc(), ON_ONE.run, ON_ONE.text, Object::OUT, 2);
    assert!(&rt; told.is(7, b"0 0\n1", b"write fault\n"));
}

#[test]
fn a_write_of_the_message_fails(rt: HostRuntime) {
    let told = told_at(&rt, rt.alloc(), ON_ONE.run, b"0 x\n", Object::ERR, 1);
    assert!(&rt; told.is(2, b"", b""));
    let told = told_at(&rt, rt.alloc(), ON_ONE.run, b"0 x\n", Object::ERR, 3);
    assert!(&rt; told.is(2, b"", b"line 1 is "));
}

#[test]
fn a_read_of_a_worker_fails(rt: HostRuntime) {
    let meter = Object::new(Kind::Meter, 0, 0);
    let told = told_at(&rt, rt.alloc(), ON_ONE.run, ON_ONE.text, meter, 1);
    assert!(&rt; told.is(3, b"", b"disk fault\n"));
}

/// The lines of so many vertices, each with its own label.
fn own_labels(rt: &impl Abort, alloc: Global, vertices: u32) -> String {
    let mut lines = String::new(alloc);
    for vertex in 0..vertices {
        let line = format!(in alloc; "{vertex} {vertex}\n").expect(rt, "a line");
        lines.push_str(&line).expect(rt, "room");
    }
    lines
}

#[test]
fn a_read_of_the_last_values_fails(rt: HostRuntime) {
    let alloc = rt.alloc();
    let answer = own_labels(&rt, alloc, 20_000);
    let words = "run labels --vertices 20000 --most 10000";
    // the values of one partition, and then of the other: before these the calling thread reads nothing
    let meter = Object::new(Kind::Meter, 0, 1);
    let told = told_at(&rt, alloc, words, b"", meter, 1);
    assert!(&rt; told.is(3, b"", b"disk fault\n"));
    let told = told_at(&rt, alloc, words, b"", meter, 2);
    let printed = told.out.written();
    assert!(&rt; told.is(3, printed, b"disk fault\n"));
    assert!(&rt; printed.len() > 60_000 && answer.as_bytes().starts_with(printed));
    let told = told_at(&rt, alloc, words, b"", meter, 3);
    assert!(&rt; told.is(0, answer.as_bytes(), b""));
}
