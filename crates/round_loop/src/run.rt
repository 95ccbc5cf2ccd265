//! A run, from its start to its end.
ghost use Rattle.std.specs.Prelude.{◌≡◌, ℕ, ◌+◌, ◌^◌, ◌<◌, ◌≤◌, None, Some, length, vec_len, vec_capacity, ◌++◌, ◌∷◌, []};
ghost use Rattle.graph_model.specs.Jobs.{IsWellFormedJob};
ghost use Rattle.partitioner.specs.Splits.{split_for};
ghost use Rattle.ports.specs.Devices.{SameCounts};
ghost use Rattle.chunk_object.specs.History.{most_chunks};
ghost use Rattle.store_reader.specs.Indexed.{lens_of};
ghost use Rattle.epoch_seats.specs.Between.{IsBetweenEpochs};
ghost use Rattle.round_steps.specs.Crews.{AreCrews};
ghost use Rattle.round_steps.specs.Going.{IsStore};
ghost use Rattle.round_loop.specs.Keeping.{Moment, moment};
ghost use Rattle.round_loop.specs.Conditions.{IsRun, MOST_ROUNDS};
ghost use Rattle.round_loop.specs.Coming.{IsAt};
ghost use Rattle.round_loop.specs.Run.{HasRun, OnMade};

use crate::course::{Progress, begin, go_on, is_last, is_to_go_on};
use crate::fault::RoundFault;
use chunk_cursor::{CursorSeat, CursorTable};
use chunk_file::Index;
use gather_laws::VertexProgram;
use graph_model::Job;
use list_moves::put_last;
use partitioner::Split;
use ports::{Beat, Disk, Gate};
use round_steps::{Crews, Run};
use std::alloc::Global;
use std::thread::Threads;
use store_reader::Store;

/// Where a run begins.
#[derive(Clone, Copy, Debug, PartialEq, Eq)]
pub enum Start {
    /// At the beginning.
    Fresh,
    /// At this round, which a read of every engine gives, and in which so many values changed.
    At { round: u64, changed: u64 },
}

/// What a run came to.
#[derive(Clone, Copy, Debug, PartialEq, Eq)]
pub struct Done {
    /// The last round.
    pub round: u64,
    /// How many chunks the workers of this run took.
    pub claims: u64,
    /// How often they were admitted as helpers.
    pub admitted: u64,
}

/// Makes rounds until the last one of the job stands on every engine, from round 0 or from one that stands. The graph
/// devices have the chunks of the job's edges, at the places of the index. There is one meter for each engine, and one
/// for the calling thread, which comes last. Round r is made in a beat of its own.
///
/// # Errors
///
/// `RoundLimit` where no round within the job's limit repeats the values of the round before it; the limit's round
/// stands then. Otherwise what the lowest worker that was stopped has met.
pub fn run_rounds<R: Threads + Sync, P: VertexProgram, D: Disk, G: Gate + Sync>(
    rt: &R,
    alloc: Global,
    program: &P,
    job: &Job,
    start: Start,
    index: &Index,
    store: &mut Store<D>,
    table: &CursorTable,
    seat: &mut CursorSeat,
    meters: &mut Vec<D::M>,
    gate: &G,
    beat: &mut Beat,
) -> Result<Done, RoundFault>
    requires job { IsWellFormedJob job.now }
    requires rounds { (last : ℕ) → (P.rules program.now).rounds ≡ Some last → last ≤ MOST_ROUNDS }
    requires few { (cursor : ℕ) → lens_of index.now cursor ≤ most_chunks }
    requires store { IsStore D.state (split_for job.now) beat.old store.old }
    requires meters { vec_len meters.old ≡ job.now.engines + 1 }
    requires table { seat.old.table ≡ table.now }
    requires between { IsBetweenEpochs seat.old.view }
    requires beat { beat.old ≤ 2 ^ 63 + 10 }
    ensures table { seat.new.table ≡ seat.old.table }
    ensures run { HasRun D.state D.M.faults (P.rules program.now) job.now start index.now (moment store.old meters.old.items seat.old.view beat.old) (moment store.new meters.new.items seat.new.view beat.new) result }
    ensures calm { OnMade result (SameCounts D.M.faults meters.old.items meters.new.items) }
{
    let split = Split::of_job(job);
    let mut crews = match Crews::new(alloc, job, &split) {
        Ok(crews) => crews,
        Err(_) => return Err(RoundFault::Memory),
    };
    let run = Run {
        rt,
        program,
        job,
        split: &split,
        index,
        table,
        gate,
    };
    let own = take_last(meters);
    let result = run_from(&run, &mut crews, start, store, meters, seat, beat);
    put_last(meters, own);
    result
}

/// Runs with the meters of the workers alone.
fn run_from<R: Threads + Sync, P: VertexProgram, D: Disk, G: Gate + Sync>(
    run: &Run<R, P, G>,
    crews: &mut Crews<D>,
    start: Start,
    store: &mut Store<D>,
    meters: &mut Vec<D::M>,
    seat: &mut CursorSeat,
    beat: &mut Beat,
) -> Result<Done, RoundFault>
    requires run { IsRun P.rules run.now }
    requires crews { AreCrews run.now.job.now run.now.split.now crews.old }
    requires store { IsStore D.state run.now.split.now beat.old store.old }
    requires meters { vec_len meters.old ≡ run.now.job.now.engines }
    requires table { seat.old.table ≡ run.now.table.now }
    requires between { IsBetweenEpochs seat.old.view }
    requires beat { beat.old ≤ 2 ^ 63 + 10 }
    ensures table { seat.new.table ≡ seat.old.table }
    ensures room { vec_capacity meters.old ≤ vec_capacity meters.new }
    ensures run { HasRun D.state D.M.faults (P.rules run.now.program.now) run.now.job.now start run.now.index.now (moment store.old meters.old.items seat.old.view beat.old) (moment store.new meters.new.items seat.new.view beat.new) result }
    ensures calm { OnMade result (SameCounts D.M.faults meters.old.items meters.new.items) }
{
    match start {
        Start::Fresh => match begin(run, crews, store, meters, seat, beat) {
            Ok(begun) => run_on(run, crews, start, begun, store, meters, seat, beat),
            Err(fault) => Err(fault),
        },
        Start::At { round, changed } => {
            let found = Progress {
                round,
                changed,
                epochs: 0,
                claims: 0,
                admitted: 0,
            };
            run_on(run, crews, start, found, store, meters, seat, beat)
        }
    }
}

/// Makes further rounds until the last one.
fn run_on<R: Threads + Sync, P: VertexProgram, D: Disk, G: Gate + Sync>(
    run: &Run<R, P, G>,
    crews: &mut Crews<D>,
    start: Start,
    begun: Progress,
    store: &mut Store<D>,
    meters: &mut Vec<D::M>,
    seat: &mut CursorSeat,
    beat: &mut Beat,
) -> Result<Done, RoundFault>
    requires run { IsRun P.rules run.now }
    requires crews { AreCrews run.now.job.now run.now.split.now crews.old }
    requires table { seat.old.table ≡ run.now.table.now }
    requires at { (from : Moment D D.M) × (from.beat ≤ 2 ^ 63 + 10) × (length from.meters ≡ run.now.job.now.engines) × IsAt D.state D.M.faults (P.rules run.now.program.now) run.now.job.now start run.now.index.now begun from (moment store.old meters.old.items seat.old.view beat.old) }
    ensures table { seat.new.table ≡ seat.old.table }
    ensures room { vec_capacity meters.old ≤ vec_capacity meters.new }
    ensures run { (from : Moment D D.M) → from.beat ≤ 2 ^ 63 + 10 → IsAt D.state D.M.faults (P.rules run.now.program.now) run.now.job.now start run.now.index.now begun from (moment store.old meters.old.items seat.old.view beat.old)
        → HasRun D.state D.M.faults (P.rules run.now.program.now) run.now.job.now start run.now.index.now from (moment store.new meters.new.items seat.new.view beat.new) result }
    ensures calm { (from : Moment D D.M) → IsAt D.state D.M.faults (P.rules run.now.program.now) run.now.job.now start run.now.index.now begun from (moment store.old meters.old.items seat.old.view beat.old)
        → OnMade result (SameCounts D.M.faults from.meters meters.new.items) }
{
    let rounds = run.program.rounds();
    let mut so_far = begun;
    'rounds: while is_to_go_on(rounds, run.job.limit, &so_far) {
        match go_on(run, crews, start, so_far, store, meters, seat, beat) {
            Ok(next) => so_far = next,
            Err(fault) => return Err(fault),
        }
    }
    if !is_last(rounds, &so_far) {
        return Err(RoundFault::RoundLimit);
    }
    Ok(Done {
        round: so_far.round,
        claims: so_far.claims,
        admitted: so_far.admitted,
    })
}

/// Takes the last item out of a list that has one. The list keeps its room.
fn take_last<T>(list: &mut Vec<T>) -> T
    requires { 0 < vec_len list.old }
    ensures items { list.old.items ≡ list.new.items ++ result ∷ [] }
    ensures len { vec_len list.new + 1 ≡ vec_len list.old }
    ensures room { vec_capacity list.new ≡ vec_capacity list.old }
{
    match list.pop() {
        Some(item) => item,
        None => unreachable!(),
    }
}
