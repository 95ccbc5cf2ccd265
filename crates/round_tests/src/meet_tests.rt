// Two engines whose workers meet at a gate in each phase leave the same bytes, and a run goes on where another has ended.
ghost use Rattle.std.specs.Prelude.{◌≡◌, ℕ, ◌≤◌, Some};
ghost use Rattle.graph_model.specs.Jobs.{IsWellFormedProgram};
ghost use Rattle.round_loop.specs.Conditions.{MOST_ROUNDS};

use crate::faults::Fault;
use crate::graphs::{FAR, edges_of, text_of};
use crate::jobs::{ON_TWO, job_of};
use crate::made::{Made, make};
use crate::runs::{expect_plain, go_on, run};
use engine_gate::{MeetGate, OpenGate};
use gather_laws::VertexProgram;
use graph_model::{Job, Program};
use round_loop::Start;
use std::alloc::Global;
use std::process::Abort;
use std::test::*;
use std::thread::Threads;
use vertex_programs::{Bfs, PageRank, Sssp};

/// The values devices have the same bytes.
fn expect_same(rt: &impl Abort, alloc: Global, one: &Made, other: &Made) {
    let (one, other) = (&one.store.values, &other.store.values);
    assert_eq!(rt; one.len(), other.len());
    for (first, second) in one.iter().zip(other) {
        let bytes = first.all_bytes(alloc).expect(rt, "room");
        let others = second.all_bytes(alloc).expect(rt, "room");
        assert_eq!(rt; bytes.as_slice(), others.as_slice());
    }
}

/// A run whose two workers meet in each phase, beside one whose workers do not wait.
fn expect_meeting<R: Threads + Abort + Sync, P: VertexProgram>(
    rt: &R,
    alloc: Global,
    program: &P,
    named: Program,
    row: u32,
)
    requires named { IsWellFormedProgram 9 named }
    requires rounds { (last : ℕ) → (P.rules program.now).rounds ≡ Some last → last ≤ MOST_ROUNDS }
{
    let job = job_of(named, row);
    let edges = edges_of(rt, alloc, FAR, 20);
    let text = text_of(rt, alloc, &edges);
    let none = Fault::NONE;
    let mut one = make(rt, alloc, &job, &text, &none).expect(rt, "a store");
    let mut other = make(rt, alloc, &job, &text, &none).expect(rt, "a store");
    let gate = MeetGate::new(2, 10_000_000);
    let answer = run(
        rt,
        alloc,
        program,
        &job,
        Start::Fresh,
        &mut one,
        &gate,
        &none,
    );
    run(
        rt,
        alloc,
        program,
        &job,
        Start::Fresh,
        &mut other,
        &OpenGate,
        &none,
    )
    .expect(rt, "a last round");
    assert!(rt; !gate.missed());
    expect_plain(rt, alloc, program, &job, &edges, &one, answer);
    expect_same(rt, alloc, &one, &other);
}

#[test]
fn workers_that_meet_leave_the_same_bytes(rt: HostRuntime) {
    for row in ON_TWO {
        expect_meeting(&rt, rt.alloc(), &Sssp { root: 3 }, Program::Sssp(3), row);
        expect_meeting(
            &rt,
            rt.alloc(),
            &PageRank { rounds: 3 },
            Program::PageRank(3),
            row,
        );
    }
}

/// A run of two rounds, and one that goes on from there.
fn expect_going_on<R: Threads + Abort + Sync, P: VertexProgram>(
    rt: &R,
    alloc: Global,
    shorter: &P,
    program: &P,
    named: Program,
    row: u32,
)
    requires named { IsWellFormedProgram 9 named }
    requires shorter { (last : ℕ) → (P.rules shorter.now).rounds ≡ Some last → last ≤ MOST_ROUNDS }
    requires rounds { (last : ℕ) → (P.rules program.now).rounds ≡ Some last → last ≤ MOST_ROUNDS }
{
    let job = job_of(named, row);
    let edges = edges_of(rt, alloc, FAR, 20);
    let text = text_of(rt, alloc, &edges);
    let mut made = make(rt, alloc, &job, &text, &Fault::NONE).expect(rt, "a store");
    let first = Job { limit: 2, ..job };
    let answer = run(
        rt,
        alloc,
        shorter,
        &first,
        Start::Fresh,
        &mut made,
        &OpenGate,
        &Fault::NONE,
    );
    expect_plain(rt, alloc, shorter, &first, &edges, &made, answer);
    go_on(rt, alloc, program, &job, &edges, &mut made);
}

#[test]
fn a_run_goes_on_where_another_has_ended(rt: HostRuntime) {
    for row in ON_TWO {
        let levels = Bfs { root: 3 };
        expect_going_on(&rt, rt.alloc(), &levels, &levels, Program::Bfs(3), row);
        let (two, four) = (PageRank { rounds: 2 }, PageRank { rounds: 4 });
        expect_going_on(&rt, rt.alloc(), &two, &four, Program::PageRank(4), row);
    }
}
