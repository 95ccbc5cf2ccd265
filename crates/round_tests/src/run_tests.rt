// Runs of all programs on one to eight engines end with the values of the plain engine.
ghost use Rattle.std.specs.Prelude.{◌≡◌, ℕ, ◌≤◌, Some};
ghost use Rattle.graph_model.specs.Jobs.{IsWellFormedProgram};
ghost use Rattle.round_loop.specs.Conditions.{MOST_ROUNDS};

use crate::faults::Fault;
use crate::graphs::{edges_of, in_both_directions, text_of};
use crate::jobs::{ROWS, job_of};
use crate::made::make;
use crate::runs::{expect_plain, run};
use engine_gate::OpenGate;
use gather_laws::VertexProgram;
use graph_model::Program;
use round_loop::Start;
use std::alloc::Global;
use std::process::Abort;
use std::test::*;
use std::thread::Threads;
use vertex_programs::{Bfs, Degrees, Labels, PageRank, Sssp};

/// The run of a row, over a graph of its own.
fn expect_row<R: Threads + Abort + Sync, P: VertexProgram>(
    rt: &R,
    alloc: Global,
    program: &P,
    named: Program,
    row: u32,
)
    requires named { IsWellFormedProgram 9 named }
    requires rounds { (last : ℕ) → (P.rules program.now).rounds ≡ Some last → last ≤ MOST_ROUNDS }
{
    let job = job_of(named, row);
    let edges = edges_of(rt, alloc, u64::from(row), row % 19);
    let text = text_of(rt, alloc, &edges);
    let mut made = make(rt, alloc, &job, &text, &Fault::NONE).expect(rt, "a store");
    let answer = run(
        rt,
        alloc,
        program,
        &job,
        Start::Fresh,
        &mut made,
        &OpenGate,
        &Fault::NONE,
    );
    if named == Program::Labels {
        let both = in_both_directions(rt, alloc, &edges);
        expect_plain(rt, alloc, program, &job, &both, &made, answer);
    } else {
        expect_plain(rt, alloc, program, &job, &edges, &made, answer);
    }
}

/// The runs of all rows.
fn expect_rows<R: Threads + Abort + Sync, P: VertexProgram>(
    rt: &R,
    alloc: Global,
    program: &P,
    named: Program,
)
    requires named { IsWellFormedProgram 9 named }
    requires rounds { (last : ℕ) → (P.rules program.now).rounds ≡ Some last → last ≤ MOST_ROUNDS }
{
    for row in 0..ROWS {
        expect_row(rt, alloc, program, named, row);
    }
}

#[test]
fn levels_are_those_of_the_plain_engine(rt: HostRuntime) {
    expect_rows(&rt, rt.alloc(), &Bfs { root: 3 }, Program::Bfs(3));
}

#[test]
fn labels_are_those_of_the_plain_engine(rt: HostRuntime) {
    expect_rows(&rt, rt.alloc(), &Labels, Program::Labels);
}

#[test]
fn distances_are_those_of_the_plain_engine(rt: HostRuntime) {
    expect_rows(&rt, rt.alloc(), &Sssp { root: 0 }, Program::Sssp(0));
}

#[test]
fn degrees_are_those_of_the_plain_engine(rt: HostRuntime) {
    expect_rows(&rt, rt.alloc(), &Degrees, Program::Degrees);
}

#[test]
fn ranks_are_those_of_the_plain_engine(rt: HostRuntime) {
    expect_rows(
        &rt,
        rt.alloc(),
        &PageRank { rounds: 3 },
        Program::PageRank(3),
    );
}
