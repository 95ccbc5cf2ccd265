// Each call of each device and of each meter of two engines fails once, and a run goes on from what stands then.
ghost use Rattle.std.specs.Prelude.{◌≡◌, ℕ, ◌≤◌, Some};
ghost use Rattle.graph_model.specs.Jobs.{IsWellFormedProgram};
ghost use Rattle.round_loop.specs.Conditions.{MOST_ROUNDS};

use crate::faults::{Called, Fault};
use crate::graphs::{FAR, edges_of, text_of};
use crate::jobs::{ON_TWO, job_of};
use crate::made::make;
use crate::runs::{expect_plain, go_on, run};
use engine_gate::OpenGate;
use gather_laws::VertexProgram;
use graph_model::Program;
use round_loop::{RoundFault, Start};
use std::alloc::Global;
use std::process::Abort;
use std::test::*;
use std::thread::Threads;
use vertex_programs::{PageRank, Sssp};

/// A run in which this call fails, and the run that goes on then. Whether a call failed.
fn expect_fault<R: Threads + Abort + Sync, P: VertexProgram>(
    rt: &R,
    alloc: Global,
    program: &P,
    named: Program,
    row: u32,
    fault: &Fault,
) -> bool
    requires named { IsWellFormedProgram 9 named }
    requires rounds { (last : ℕ) → (P.rules program.now).rounds ≡ Some last → last ≤ MOST_ROUNDS }
{
    let job = job_of(named, row);
    let edges = edges_of(rt, alloc, FAR, 12);
    let text = text_of(rt, alloc, &edges);
    let Some(mut made) = make(rt, alloc, &job, &text, fault) else {
        return true;
    };
    let answer = run(
        rt,
        alloc,
        program,
        &job,
        Start::Fresh,
        &mut made,
        &OpenGate,
        fault,
    );
    if answer == Err(RoundFault::DiskFault) {
        go_on(rt, alloc, program, &job, &edges, &mut made);
        return true;
    }
    expect_plain(rt, alloc, program, &job, &edges, &made, answer);
    false
}

/// Fails each call of a device or meter once, until two runs meet no fault: who makes a call may be another worker in each
/// run.
fn expect_faults<R: Threads + Abort + Sync, P: VertexProgram>(
    rt: &R,
    alloc: Global,
    program: &P,
    named: Program,
    row: u32,
    place: (Called, u32, u32),
)
    requires named { IsWellFormedProgram 9 named }
    requires rounds { (last : ℕ) → (P.rules program.now).rounds ≡ Some last → last ≤ MOST_ROUNDS }
{
    let (called, worker, engine) = place;
    for number in 1..1000 {
        let fault = Fault {
            called,
            worker,
            engine,
            number,
        };
        let next = Fault {
            number: number + 1,
            ..fault
        };
        if !expect_fault(rt, alloc, program, named, row, &fault)
            && !expect_fault(rt, alloc, program, named, row, &next)
        {
            return;
        }
    }
    assert!(rt; false, "a run never ends");
}

/// The meters of two workers.
const METERS: [(Called, u32, u32); 2] = [(Called::Meter, 0, 0), (Called::Meter, 1, 0)];

/// The devices of two engines.
const DEVICES: [(Called, u32, u32); 8] = [
    (Called::Values, 0, 0),
    (Called::Values, 0, 1),
    (Called::Lane, 0, 0),
    (Called::Lane, 0, 1),
    (Called::Lane, 1, 0),
    (Called::Lane, 1, 1),
    (Called::Spill, 0, 0),
    (Called::Spill, 0, 1),
];

/// Fails each call at some places, in a run in which only vertices that changed send.
fn expect_in_distances<R: Threads + Abort + Sync>(
    rt: &R,
    alloc: Global,
    places: &[(Called, u32, u32)],
) {
    for place in places {
        let program = Sssp { root: 3 };
        expect_faults(rt, alloc, &program, Program::Sssp(3), ON_TWO[1], *place);
    }
}

/// The same in a run in which all vertices send.
fn expect_in_ranks<R: Threads + Abort + Sync>(
    rt: &R,
    alloc: Global,
    places: &[(Called, u32, u32)],
) {
    for place in places {
        let program = PageRank { rounds: 2 };
        expect_faults(rt, alloc, &program, Program::PageRank(2), ON_TWO[2], *place);
    }
}

#[test]
fn each_read_fails_once_where_changed_vertices_send(rt: HostRuntime) {
    expect_in_distances(&rt, rt.alloc(), &METERS);
}

#[test]
fn each_call_fails_once_where_changed_vertices_send(rt: HostRuntime) {
    expect_in_distances(&rt, rt.alloc(), &DEVICES);
}

#[test]
fn each_read_fails_once_where_all_vertices_send(rt: HostRuntime) {
    expect_in_ranks(&rt, rt.alloc(), &METERS);
}

#[test]
fn each_call_fails_once_where_all_vertices_send(rt: HostRuntime) {
    expect_in_ranks(&rt, rt.alloc(), &DEVICES);
}
