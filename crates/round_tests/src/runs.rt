//! Runs on a store that was made, beside those of the plain engine.
ghost use Rattle.std.specs.Prelude.{◌≡◌, ℕ, ◌≤◌, Some};
ghost use Rattle.graph_model.specs.Jobs.{IsWellFormedJob};
ghost use Rattle.mem_devices.specs.MemDisk.{disk_state};
ghost use Rattle.chunk_object.specs.History.{most_chunks};
ghost use Rattle.store_reader.specs.Indexed.{lens_of};
ghost use Rattle.round_steps.specs.Going.{IsStore};
ghost use Rattle.partitioner.specs.Splits.{split_for};
ghost use Rattle.round_loop.specs.Conditions.{MOST_ROUNDS};

use crate::faults::Fault;
use crate::graphs::plain_values;
use crate::made::{Made, meters};
use crate::reading::{changed_in, kept, read_values};
use chunk_cursor::CursorTable;
use engine_gate::OpenGate;
use epoch_seats::new_seat_is_between_epochs;
use gather_laws::VertexProgram;
use graph_model::{Edge, Job};
use partitioner::Split;
use ports::Gate;
use round_loop::{Done, RoundFault, Start, run_rounds};
use std::alloc::Global;
use std::process::Abort;
use std::thread::Threads;

/// One run. All devices and meters are in their places afterwards.
pub(crate) fn run<R: Threads + Abort + Sync, P: VertexProgram, G: Gate + Sync>(
    rt: &R,
    alloc: Global,
    program: &P,
    job: &Job,
    start: Start,
    made: &mut Made,
    gate: &G,
    fault: &Fault,
) -> Result<Done, RoundFault>
    requires job { IsWellFormedJob job.now }
    requires rounds { (last : ℕ) → (P.rules program.now).rounds ≡ Some last → last ≤ MOST_ROUNDS }
    requires store { IsStore disk_state (split_for job.now) made.old.beat made.old.store }
    requires few { (cursor : ℕ) → lens_of made.old.index cursor ≤ most_chunks }
    ensures store { IsStore disk_state (split_for job.now) made.new.beat made.new.store }
    ensures few { (cursor : ℕ) → lens_of made.new.index cursor ≤ most_chunks }
{
    let (table, mut seat) = CursorTable::new(alloc).expect(rt, "a table");
    new_seat_is_between_epochs();
    let mut meters = meters(rt, alloc, job.engines + 1, fault);
    assert!(rt; made.beat.number() < 1_000_000_000);
    let result = run_rounds(
        rt,
        alloc,
        program,
        job,
        start,
        &made.index,
        &mut made.store,
        &table,
        &mut seat,
        &mut meters,
        gate,
        &mut made.beat,
    );
    let engines = job.engines as usize;
    assert_eq!(rt; meters.len(), engines + 1);
    assert_eq!(rt; made.store.graphs.len(), engines);
    assert_eq!(rt; made.store.values.len(), engines);
    assert_eq!(rt; made.store.spills.len(), engines);
    assert!(rt; made.store.lanes.iter().all(|row| row.len() == engines));
    result
}

/// What a run answered, and the values that stand then, are those of the plain engine.
pub(crate) fn expect_plain<P: VertexProgram>(
    rt: &impl Abort,
    alloc: Global,
    program: &P,
    job: &Job,
    edges: &[Edge],
    made: &Made,
    answer: Result<Done, RoundFault>,
)
    requires { IsWellFormedJob job.now }
{
    let split = Split::of_job(job);
    let devices = made.store.values.as_slice();
    let Some(wanted) = plain_values(rt, alloc, program, edges, job.limit) else {
        assert_eq!(rt; answer, Err(RoundFault::RoundLimit), "{job:?}");
        let kept = changed_in(rt, alloc, &split, devices, u64::from(job.limit));
        assert!(rt; kept.is_some(), "{job:?}");
        return;
    };
    let done = answer.expect(rt, "a last round");
    assert!(rt;
        changed_in(rt, alloc, &split, devices, done.round).is_some(),
        "{job:?}"
    );
    let stored = read_values(rt, alloc, &split, devices, (done.round % 2) as u32);
    assert_eq!(rt; stored.as_slice(), wanted.as_slice(), "{job:?}");
}

/// A further run from the round that stands, to the values of the plain engine.
pub(crate) fn go_on<R: Threads + Abort + Sync, P: VertexProgram>(
    rt: &R,
    alloc: Global,
    program: &P,
    job: &Job,
    edges: &[Edge],
    made: &mut Made,
)
    requires job { IsWellFormedJob job.now }
    requires rounds { (last : ℕ) → (P.rules program.now).rounds ≡ Some last → last ≤ MOST_ROUNDS }
    requires store { IsStore disk_state (split_for job.now) made.old.beat made.old.store }
    requires few { (cursor : ℕ) → lens_of made.old.index cursor ≤ most_chunks }
{
    let split = Split::of_job(job);
    let start = kept(rt, alloc, &split, made.store.values.as_slice(), job.limit);
    let answer = run(
        rt,
        alloc,
        program,
        job,
        start,
        made,
        &OpenGate,
        &Fault::NONE,
    );
    expect_plain(rt, alloc, program, job, edges, made, answer);
}
