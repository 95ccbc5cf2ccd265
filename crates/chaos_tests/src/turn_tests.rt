// Calls in turn on one store, and calls on a store whose bytes were written by hand.
use crate::contents::{Contents, set_byte};
use crate::faults::Kind;
use crate::rows::expect_turns;
use crate::stores::whole_store;
use std::alloc::Global;
use std::process::Abort;
use std::test::*;
use std::thread::Threads;

/// Calls in turn on devices that are empty at first, in each paragraph.
fn expect_stories<R: Threads + Sync + Abort>(rt: &R, alloc: Global, stories: &str) {
    for story in stories.split("\n\n") {
        expect_turns(rt, alloc, &Contents::empty(alloc), story);
    }
}

#[test]
fn calls_come_in_turn(rt: HostRuntime) {
    expect_stories(
        &rt,
        rt.alloc(),
        "run sssp 0 --vertices 3;0 1 5/0 2 1/2 1 1/;0;0 0/1 2/2 1/;
run sssp 0 --vertices 3;0 1 5/0 2 1/2 1 1/;12;;store holds a job/
run bfs 0 --vertices 4;0 x/;12;;store holds a job/
resume;;0;0 0/1 2/2 1/;
resume;;0;0 0/1 2/2 1/;
drop;;0;;
resume;;8;;store is not prepared/
drop;;0;;
run bfs 0 --vertices 4;0 1/1 2/;0;0 0/1 1/2 2/3 -/;
resume;;0;0 0/1 1/2 2/3 -/;

run bfs 0 --vertices 4;0 1/0 x/;2;;line 2 is malformed/
resume;;8;;store is not prepared/
run bfs 0 --vertices 4;0 1/1 2/;0;0 0/1 1/2 2/3 -/;

run sssp 0 --vertices 3 --limit 2;0 1 5/0 2 1/2 1 1/;4;;no fixpoint within 2 rounds/
resume;;4;;no fixpoint within 2 rounds/
run sssp 0 --vertices 3;0 1 5/;12;;store holds a job/
resume;;4;;no fixpoint within 2 rounds/

run labels --vertices 3;;0;0 0/1 1/2 2/;
resume;;0;0 0/1 1/2 2/;

run degrees --vertices 0;;0;;
resume;;0;;

bench degrees --scale 0 --edges 3;0 x/;0;vertices 1/edges 3/rounds 1/lines 1/bytes 6/mark 1405303604/;
bench degrees --scale 0 --edges 3;;12;;store holds a job/
resume;;0;0 3 3/;

run pagerank 2 --vertices 3 --engines 2 --chunk 1;0 1/0 2/1 2/;0;0 150000/1 213750/2 702500/;
run degrees --vertices 3 --engines 2;0 1/;12;;store holds a job/
resume --engines 2;;0;0 150000/1 213750/2 702500/;
drop --engines 2;;0;;
resume --engines 2;;8;;store is not prepared/
run degrees --vertices 3 --engines 2;0 1/;0;0 0 1/1 1 0/2 0 0/;",
    )
}

#[test]
fn a_store_is_of_so_many_engines(rt: HostRuntime) {
    expect_stories(
        &rt,
        rt.alloc(),
        "run sssp 0 --vertices 3 --engines 3;0 1 5/0 2 1/2 1 1/;0;0 0/1 2/2 1/;
resume --engines 2;;9;;held 3, asked 2/
run sssp 0 --vertices 3 --engines 2;0 1 5/0 2 1/2 1 1/;12;;store holds a job/

run sssp 0 --vertices 3 --engines 3;0 1 5/0 2 1/2 1 1/;0;0 0/1 2/2 1/;
resume --engines 4;;8;;store is not prepared/
resume --engines 3;;0;0 0/1 2/2 1/;
run bfs 0 --vertices 4 --engines 4;0 1/1 2/;0;0 0/1 1/2 2/3 -/;
resume --engines 4;;0;0 0/1 1/2 2/3 -/;",
    )
}

/// The whole store with these bytes, each by the kind of its device, its place and its value.
fn changed_store(rt: &impl Abort, alloc: Global, changes: &str) -> Contents {
    let words: Vec<&str> = changes.split(' ').collect(alloc).expect(rt, "room");
    let mut held = whole_store(rt, alloc);
    for change in words.as_slice().chunks(3) {
        let [kind, at, byte] = change else {
            panic!(rt; "a change has three words");
        };
        let at = at.parse().expect(rt, "a place");
        let byte = byte.parse().expect(rt, "a byte");
        let is_graph = *kind == "graph";
        let devices = if is_graph {
            &mut held.graphs
        } else {
            &mut held.values
        };
        set_byte(rt, devices, 0, at, byte);
    }
    held
}

/// A changed store, and the calls on it.
fn expect_change<R: Threads + Sync + Abort>(rt: &R, alloc: Global, row: &str) {
    let (changes, call) = row.split_once(';').expect(rt, "changes");
    let held = changed_store(rt, alloc, changes);
    expect_turns(rt, alloc, &held, call);
}

#[test]
fn changed_bytes_are_told(rt: HostRuntime) {
    let rows = "graph 64 71;resume;;0;0 0/1 2/2 1/;
graph 0 0;resume;;8;;store is not prepared/
graph 1 7;resume;;10;;graph 0 is damaged at byte 1/
graph 2 2;resume;;9;;held 2, asked 1/
graph 3 1;resume;;10;;graph 0 is damaged at byte 3/
graph 7 1;resume;;10;;graph 0 is damaged at byte 5/
graph 15 3;resume;;10;;graph 0 is damaged at byte 8/
graph 21 64 graph 23 1;resume;;10;;graph 0 is damaged at byte 16/
graph 64 0;resume;;10;;graph 0 is damaged at byte 64/
graph 68 64;resume;;10;;graph 0 is damaged at byte 65/
graph 72 0;resume;;10;;graph 0 is damaged at byte 65/
graph 72 4;resume;;10;;graph 0 is damaged at byte 65/
graph 76 3;resume;;10;;graph 0 is damaged at byte 65/
values 15 3;resume;;10;;values 0 is damaged at byte 0/
values 95 4;resume;;10;;values 0 is damaged at byte 72/
values 72 0;resume;;0;0 0/1 2/2 1/;
values 72 0;resume --report;;0;0 0/1 2/2 1/;rounds 3/engine 0 chunks 1/claims 2/admitted 0/
values 0 0 values 72 0;resume;;0;0 0/1 2/2 1/;
values 72 0;resume --report;;0;0 0/1 2/2 1/;rounds 3/engine 0 chunks 1/claims 2/admitted 0/
graph 1 7;run bfs 0 --vertices 4;0 1/1 2/;12;;store holds a job/
graph 0 0;run bfs 0 --vertices 4;0 1/1 2/;0;0 0/1 1/2 2/3 -/;";
    for row in rows.lines() {
        expect_change(&rt, rt.alloc(), row);
    }
}

/// The whole store, with one device cut to so many bytes.
fn cut_store(rt: &impl Abort, alloc: Global, kind: Kind, size: usize) -> Contents {
    let mut held = whole_store(rt, alloc);
    let devices = match kind {
        Kind::Graph => &mut held.graphs,
        _ => &mut held.values,
    };
    let bytes = devices.first_mut().expect(rt, "a device");
    bytes.truncate(size);
    held
}

#[test]
fn short_devices_are_told(rt: HostRuntime) {
    let alloc = rt.alloc();
    let held = cut_store(&rt, alloc, Kind::Graph, 108);
    let row = "resume;;10;;graph 0 is damaged at byte 65/";
    expect_turns(&rt, alloc, &held, row);
    let held = cut_store(&rt, alloc, Kind::Graph, 64);
    let row = "resume;;8;;store is not prepared/";
    expect_turns(&rt, alloc, &held, row);
    let held = cut_store(&rt, alloc, Kind::Values, 143);
    let row = "resume;;10;;values 0 is damaged at byte 0/";
    expect_turns(&rt, alloc, &held, row);
}

#[test]
fn what_stands_on_lanes_is_of_no_use(rt: HostRuntime) {
    let alloc = rt.alloc();
    let mut held = whole_store(&rt, alloc);
    let bytes = vec![in alloc; 0xFF; 1000].expect(&rt, "room");
    held.lanes.push(bytes).expect(&rt, "room");
    set_byte(&rt, &mut held.values, 0, 72, 0);
    expect_turns(&rt, alloc, &held, "resume;;0;0 0/1 2/2 1/;");
}
