// Whole calls over texts in memory; what they must print was worked out by hand.
use crate::call::{call, words_of};
use crate::rows::expect_row;
use crate::world::new_world;
use job_words::wanted;
use std::alloc::Global;
use std::process::Abort;
use std::test::*;
use std::thread::Threads;

fn expect_rows<R: Threads + Sync + Abort>(rt: &R, alloc: Global, rows: &str) {
    for row in rows.lines() {
        expect_row(rt, alloc, row);
    }
}

#[test]
fn answers_are_printed(rt: HostRuntime) {
    expect_rows(
        &rt,
        rt.alloc(),
        "run bfs 0 --vertices 4;0 1/1 2/;0;0 0/1 1/2 2/3 -/;
run bfs 00 --vertices 04;0 1/1 2/;0;0 0/1 1/2 2/3 -/;
run bfs 0 --vertices 4 --limit 3;0 1/1 2/;0;0 0/1 1/2 2/3 -/;
--seed=1 run --vertices 4 bfs 0;0 1/1 2/;0;0 0/1 1/2 2/3 -/;
run labels --vertices 3;;0;0 0/1 1/2 2/;
run labels --vertices 3;2 1/;0;0 0/1 1/2 1/;
run degrees --vertices 0;;0;;
run degrees --vertices 2;0 1/0 1/;0;0 0 2/1 2 0/;
run sssp 0 --vertices 3;0 1 5/0 2 1/2 1 1/;0;0 0/1 2/2 1/;
run sssp 0 --vertices 3 --limit 3;0 1 5/0 2 1/2 1 1/;0;0 0/1 2/2 1/;
run sssp 0 --vertices 3;# Nodes: 3^/0~1^/^/1 2 7;0;0 0/1 1/2 8/;
run sssp 0 --vertices 2;0 1 4294967296/;0;0 0/1 4294967296/;
run sssp 0 --vertices 2;0 1 1099511627775/;0;0 0/1 1099511627775/;
run pagerank 1 --vertices 3;0 1/0 2/1 2/;0;0 150000/1 575000/2 1425000/;
run pagerank 2 --vertices 3 --limit 1;0 1/0 2/1 2/;0;0 150000/1 213750/2 702500/;
drop --engines 3;;0;;
drop;;0;;",
    )
}

#[test]
fn reports_are_told(rt: HostRuntime) {
    expect_rows(
        &rt,
        rt.alloc(),
        "run sssp 0 --vertices 3 --report;0 1 5/0 2 1/2 1 1/;0;0 0/1 2/2 1/;rounds 3/engine 0 chunks 1/claims 5/admitted 0/
run sssp 0 --vertices 3 --limit 2 --report;0 1 5/0 2 1/2 1 1/;4;;no fixpoint within 2 rounds/
run degrees --vertices 2 --engines 2 --report;;0;0 0 0/1 0 0/;rounds 1/engine 0 chunks 0/engine 1 chunks 0/claims 0/admitted 0/",
    )
}

#[test]
fn refusals_print_nothing(rt: HostRuntime) {
    expect_rows(
        &rt,
        rt.alloc(),
        "run bfs 0 --vertices 4;0 1/0 x/;2;;line 2 is malformed/
run sssp 0 --vertices 2;0 2/;2;;line 1 is malformed/
run sssp 0 --vertices 2;0 1 1099511627776/;2;;line 1 is malformed/
run bfs 0 --vertices 4;0 1//# more/4 0;2;;line 4 is malformed/
run bfs 0 --vertices 4 --limit 2;0 1/1 2/;4;;no fixpoint within 2 rounds/
run sssp 0 --vertices 3 --limit 2;0 1 5/0 2 1/2 1 1/;4;;no fixpoint within 2 rounds/
resume;;8;;store is not prepared/
resume --engines 8;;8;;store is not prepared/",
    )
}

/// Words that are refused, one row each.
const REFUSED: &str = "run bfs 0 --vertices 0
run bfs 4 --vertices 4
run bfs 0 --vertices 4 more
run bfs 0 --vertices 4 --seed 1 --seed 1
run degrees 1 --vertices 2
run labels --vertices 1000 --most 10
run degrees --vertices 67108865
run bfs 0 --vertices 4 --edges 3
bench degrees --edges 3
bench degrees --scale 0 --edges 3 --report";

const USAGE: &str =
    "usage: chaos_cli run|bench|resume|drop [bfs ROOT|labels|sssp ROOT|degrees|pagerank ROUNDS] [options]\n";

#[test]
fn refused_words_are_told(rt: HostRuntime) {
    let alloc = rt.alloc();
    for words in REFUSED.lines() {
        let engines = wanted(alloc, &words_of(&rt, alloc, words)).expect(&rt, "room");
        let mut world = new_world(&rt, alloc, engines);
        let told = call(&rt, alloc, &mut world, words, b"0 1\n");
        assert!(&rt; told.is(1, b"", USAGE.as_bytes()), "{words}");
    }
}
