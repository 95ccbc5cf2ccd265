// The updates on the lanes of one, two, three and eight workers are what the edges send.
ghost use Rattle.std.specs.Prelude.{◌≡◌, ℕ, ◌≤◌, Some};
ghost use Rattle.graph_model.specs.Jobs.{IsWellFormedJob, IsWellFormedProgram};
ghost use Rattle.mem_devices.specs.MemDisk.{disk_state};
ghost use Rattle.chunk_object.specs.History.{most_chunks};
ghost use Rattle.scatter_phase.specs.Rooms.{AreSlots};
ghost use Rattle.store_reader.specs.Indexed.{lens_of};
ghost use Rattle.round_steps.specs.Going.{IsStore};
ghost use Rattle.partitioner.specs.Splits.{split_for};
ghost use Rattle.round_loop.specs.Conditions.{MOST_ROUNDS};

use crate::faults::{Called, Fault};
use crate::graphs::{FAR, edges_of, text_of};
use crate::jobs::{ON_TWO, job_of};
use crate::made::{Made, make, rows};
use crate::reading::read_values;
use crate::runs::run;
use crate::scatters::{scatter, sent_by, sent_on};
use chunk_file::Index;
use engine_gate::{MeetGate, OpenGate};
use gather_laws::VertexProgram;
use graph_model::{Edge, Job, Program};
use partitioner::Split;
use round_loop::Start;
use std::alloc::Global;
use std::process::Abort;
use std::test::*;
use std::thread::Threads;
use store_reader::Outcome;
use vertex_programs::{PageRank, Sssp};

/// The edges that are sent along.
const EDGES: u32 = 30;

/// The store of a graph on which rounds 0 and 1 stand.
fn made_to_round_one<R: Threads + Abort + Sync, P: VertexProgram>(
    rt: &R,
    alloc: Global,
    program: &P,
    job: &Job,
    edges: &[Edge],
) -> Made
    requires job { IsWellFormedJob job.now }
    requires format { job.now.format ≡ 2 }
    requires rounds { (last : ℕ) → (P.rules program.now).rounds ≡ Some last → last ≤ MOST_ROUNDS }
    ensures store { IsStore disk_state (split_for job.now) result.beat result.store }
    ensures few { (cursor : ℕ) → lens_of result.index cursor ≤ most_chunks }
{
    let text = text_of(rt, alloc, edges);
    let mut made = make(rt, alloc, job, &text, &Fault::NONE).expect(rt, "a store");
    let shorter = Job { limit: 1, ..*job };
    let _answer = run(
        rt,
        alloc,
        program,
        &shorter,
        Start::Fresh,
        &mut made,
        &OpenGate,
        &Fault::NONE,
    );
    made
}

/// One epoch from a slot, in which a call of a lane may fail. The lanes have what the edges send, if none did.
fn expect_sent<R: Threads + Abort + Sync, P: VertexProgram>(
    rt: &R,
    alloc: Global,
    program: &P,
    job: &Job,
    edges: &[Edge],
    made: &Made,
    slots: (u32, Option<u32>),
    fault: &Fault,
) -> Outcome
    requires job { IsWellFormedJob job.now }
    requires store { IsStore disk_state (split_for job.now) made.now.beat made.now.store }
    requires few { (cursor : ℕ) → lens_of made.now.index cursor ≤ most_chunks }
    requires slots { AreSlots slots.0 slots.1 }
{
    let (slot, other) = slots;
    let split = Split::of_job(job);
    let mut lanes = rows(rt, alloc, job.engines, fault);
    let mut updates = Index::new(alloc).expect(rt, "an index");
    let outcome = scatter(
        rt,
        alloc,
        program,
        job,
        made,
        slot,
        other,
        &OpenGate,
        &mut lanes,
        &mut updates,
    );
    if outcome == Outcome::Done {
        let devices = made.store.values.as_slice();
        let now = read_values(rt, alloc, &split, devices, slot);
        let before = match other {
            Some(other) => read_values(rt, alloc, &split, devices, other),
            None => Vec::new(alloc),
        };
        let wanted = sent_by(rt, alloc, program, edges, &now, &before);
        let sent = sent_on(rt, alloc, job, &lanes, &updates);
        assert_eq!(rt; sent.as_slice(), wanted.as_slice(), "{job:?}");
    }
    outcome
}

/// The epochs of a row: from round 0, from round 1, and from what has changed in round 1.
fn expect_all_sent<R: Threads + Abort + Sync, P: VertexProgram>(
    rt: &R,
    alloc: Global,
    program: &P,
    named: Program,
    row: u32,
)
    requires named { IsWellFormedProgram 9 named }
    requires rounds { (last : ℕ) → (P.rules program.now).rounds ≡ Some last → last ≤ MOST_ROUNDS }
{
    let job = job_of(named, row);
    let edges = edges_of(rt, alloc, u64::from(row), EDGES);
    let made = made_to_round_one(rt, alloc, program, &job, &edges);
    for slots in [(0, None), (1, None), (1, Some(0))] {
        let outcome = expect_sent(rt, alloc, program, &job, &edges, &made, slots, &Fault::NONE);
        assert_eq!(rt; outcome, Outcome::Done, "{job:?}");
    }
}

/// The rows of one, two, three and eight workers, for each alpha, with chunks of one edge or two.
const MANY: [u32; 24] = [
    0, 1, 2, 7, 8, 9, 10, 15, 16, 17, 18, 23, 24, 25, 26, 31, 32, 33, 34, 39, 40, 41, 42, 47,
];

#[test]
fn all_is_sent(rt: HostRuntime) {
    for row in MANY {
        expect_all_sent(&rt, rt.alloc(), &Sssp { root: 3 }, Program::Sssp(3), row);
        expect_all_sent(
            &rt,
            rt.alloc(),
            &PageRank { rounds: 1 },
            Program::PageRank(1),
            row,
        );
    }
}

/// Fails each call of a lane once, until an epoch meets no fault.
fn expect_faults<R: Threads + Abort + Sync>(
    rt: &R,
    alloc: Global,
    row: u32,
    worker: u32,
    engine: u32,
) {
    let job = job_of(Program::PageRank(1), row);
    let program = PageRank { rounds: 1 };
    let edges = edges_of(rt, alloc, FAR, EDGES);
    let made = made_to_round_one(rt, alloc, &program, &job, &edges);
    for number in 1..1000 {
        let fault = Fault {
            called: Called::Lane,
            worker,
            engine,
            number,
        };
        let outcome = expect_sent(rt, alloc, &program, &job, &edges, &made, (1, None), &fault);
        if outcome == Outcome::Done {
            return;
        }
        assert_eq!(rt; outcome, Outcome::DiskFault);
    }
    assert!(rt; false, "an epoch never ends");
}

#[test]
fn each_call_of_a_lane_fails_once(rt: HostRuntime) {
    for row in ON_TWO {
        for (worker, engine) in [(0, 0), (0, 1), (1, 0), (1, 1)] {
            expect_faults(&rt, rt.alloc(), row, worker, engine);
        }
    }
}

#[test]
fn the_gate_is_passed_first(rt: HostRuntime) {
    let alloc = rt.alloc();
    let program = PageRank { rounds: 1 };
    let job = job_of(Program::PageRank(1), 0);
    let edges = edges_of(&rt, alloc, FAR, EDGES);
    let made = made_to_round_one(&rt, alloc, &program, &job, &edges);
    let fault = Fault {
        called: Called::Lane,
        worker: 0,
        engine: 0,
        number: 1,
    };
    let mut lanes = rows(&rt, alloc, job.engines, &fault);
    let mut updates = Index::new(alloc).expect(&rt, "an index");
    // The only worker waits in vain for another one, and cannot empty its lane then.
    let gate = MeetGate::new(2, 10);
    let outcome = scatter(
        &rt,
        alloc,
        &program,
        &job,
        &made,
        1,
        None,
        &gate,
        &mut lanes,
        &mut updates,
    );
    assert_eq!(&rt; outcome, Outcome::DiskFault);
    assert!(&rt; gate.missed());
}
