// The same bytes, wherever chunks are placed and whoever takes them.
use crate::call::{call, call_at};
use crate::faults::Fault;
use crate::jobs::RANKS;
use crate::world::new_world;
use engine_gate::MeetGate;
use std::test::*;

#[test]
fn seeds_do_not_change_the_answer(rt: HostRuntime) {
    let alloc = rt.alloc();
    for seed in 0..10 {
        let words = format!(in alloc;
            "run pagerank 1 --vertices 3 --engines 8 --chunk 1 --alpha 1000 --seed {seed}"
        );
        let mut world = new_world(&rt, alloc, 8);
        let told = call(
            &rt,
            alloc,
            &mut world,
            &words.expect(&rt, "room"),
            RANKS.text,
        );
        assert!(&rt; told.is(0, RANKS.answer, b""), "seed {seed}");
    }
}

#[test]
fn workers_that_meet_print_the_same(rt: HostRuntime) {
    let alloc = rt.alloc();
    let gate = MeetGate::new(2, 10_000_000);
    let mut world = new_world(&rt, alloc, 2);
    let told = call_at(
        &rt,
        alloc,
        &mut world,
        RANKS.run,
        RANKS.text,
        &gate,
        &Fault::NONE,
    );
    assert!(&rt; told.is(0, RANKS.answer, b""));
    assert!(&rt; !gate.missed());
}
