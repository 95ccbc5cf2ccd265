// One resume, from the heads of the store to the printed answer.
ghost use Rattle.std.specs.Prelude.{◌≡◌, ℕ, ◌+◌, ◌^◌, ◌≤◌, Option, List, vec_len};
ghost use Rattle.graph_model.specs.Jobs.{IsWellFormedJob};
ghost use Rattle.chunk_file.specs.declared.index.TheConstants.{MOST_PLACES};
ghost use Rattle.chunk_file.specs.Places.{total_of};
ghost use Rattle.epoch_seats.specs.Between.{IsBetweenEpochs};
ghost use Rattle.round_steps.specs.Going.{IsStore};
ghost use Rattle.partitioner.specs.Splits.{split_for};
ghost use Rattle.round_loop.specs.Keeping.{moment};
ghost use Rattle.run_model.specs.Calls.{IsReady};
ghost use Rattle.restart.specs.Recovering.{job_in, index_in};
ghost use Rattle.store_rounds.specs.Going.{start_of};
ghost use Rattle.store_resume.specs.Resumes.{IsResume};
ghost use Rattle.store_resume.specs.Going.{GoesOn};
ghost use Rattle.store_resume.specs.Refusals;

use answer_lines::AnswerRoom;
use chunk_cursor::{CursorSeat, CursorTable};
use chunk_file::Index;
use endings::Ending;
use graph_model::Job;
use job_run::run_job;
use partitioner::Split;
use ports::{Beat, Disk, Gate, Sink};
use restart::{RecoverFault, Recovered, recover};
use round_loop::Start;
use run_model::ending_of;
use std::alloc::Global;
use std::thread::Threads;
use store_reader::Store;

/// Goes on with the job of a store of so many engines from the round that it keeps, and prints the job's answer on `out`.
/// There is one meter for each engine, and one for the calling thread, which comes last.
pub fn resume_store<R: Threads + Sync, K: Sink, D: Disk, G: Gate + Sync>(
    rt: &R,
    alloc: Global,
    engines: u32,
    out: &mut K,
    store: &mut Store<D>,
    meters: &mut Vec<D::M>,
    table: &CursorTable,
    seat: &mut CursorSeat,
    gate: &G,
    beat: &mut Beat,
) -> Ending
    requires engines { (1 ≤ engines) × (engines ≤ 8) }
    requires ready { IsReady D.state engines (moment store.old meters.old.items seat.old.view beat.old) }
    requires table { seat.old.table ≡ table.now }
    requires beat { beat.old ≤ 2 ^ 63 + 9 }
    ensures table { seat.new.table ≡ seat.old.table }
    ensures resume { (text : Option (List ℕ)) (read_faults : ℕ) → IsResume D.state D.M.faults (record {
      text = text;
      text_after = text;
      read_faults = read_faults;
      read_faults_after = read_faults;
      out = K.written out.old;
      out_after = K.written out.new;
      write_faults = K.faults out.old;
      write_faults_after = K.faults out.new;
      before = moment store.old meters.old.items seat.old.view beat.old;
      after = moment store.new meters.new.items seat.new.view beat.new;
    }) engines result }
{
    match recover(alloc, store, &mut meters[engines as usize]) {
        Ok(found) => {
            let (job, index, start) = start_from(found);
            go_on(
                rt, alloc, &job, start, &index, out, store, meters, table, seat, gate, beat,
            )
        }
        Err(fault) => refusal(fault),
    }
}

/// The job that was found, the places of its chunks, and where its rounds start.
fn start_from(found: Recovered) -> (Job, Index, Start)
    ensures { result ≡ (job_in found, index_in found, start_of found) }
{
    match found {
        Recovered::Found {
            job,
            index,
            round,
            changed,
        } => {
            let start = Start::At { round, changed };
            (job, index, start)
        }
        Recovered::Fresh { job, index } => (job, index, Start::Fresh),
    }
}

/// Makes the rounds of the job that was found, and prints its answer.
fn go_on<R: Threads + Sync, K: Sink, D: Disk, G: Gate + Sync>(
    rt: &R,
    alloc: Global,
    job: &Job,
    start: Start,
    index: &Index,
    out: &mut K,
    store: &mut Store<D>,
    meters: &mut Vec<D::M>,
    table: &CursorTable,
    seat: &mut CursorSeat,
    gate: &G,
    beat: &mut Beat,
) -> Ending
    requires job { IsWellFormedJob job.now }
    requires places { total_of index.now ≤ MOST_PLACES }
    requires store { IsStore D.state (split_for job.now) beat.old store.old }
    requires meters { vec_len meters.old ≡ job.now.engines + 1 }
    requires table { seat.old.table ≡ table.now }
    requires between { IsBetweenEpochs seat.old.view }
    requires beat { beat.old ≤ 2 ^ 63 + 9 }
    ensures table { seat.new.table ≡ seat.old.table }
    ensures goes_on { (text : Option (List ℕ)) (read_faults : ℕ) → GoesOn D.state D.M.faults job.now start index.now (record {
      text = text;
      text_after = text;
      read_faults = read_faults;
      read_faults_after = read_faults;
      out = K.written out.old;
      out_after = K.written out.new;
      write_faults = K.faults out.old;
      write_faults_after = K.faults out.new;
      before = moment store.old meters.old.items seat.old.view beat.old;
      after = moment store.new meters.new.items seat.new.view beat.new;
    }) result }
{
    let split = Split::of_job(job);
    let mut room = match AnswerRoom::new(alloc, &split) {
        Ok(room) => room,
        Err(_) => return Ending::Memory,
    };
    let finish = run_job(
        rt, alloc, job, start, index, store, table, seat, meters, gate, beat, &mut room, out,
    );
    ending_of(finish, job, index)
}

/// The ending by which it is told that a store was not recovered.
fn refusal(fault: RecoverFault) -> Ending
    ensures { result ≡ Refusals.refusal fault }
{
    match fault {
        RecoverFault::NotPrepared => Ending::NotPrepared,
        RecoverFault::EnginesDiffer { held, asked } => Ending::EnginesDiffer { held, asked },
        RecoverFault::Damaged {
            part,
            engine,
            place,
        } => Ending::Damaged {
            part,
            engine,
            place,
        },
        RecoverFault::DiskFault => Ending::DiskFault,
        RecoverFault::Memory => Ending::Memory,
    }
}
