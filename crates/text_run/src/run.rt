// One run, from the text to the printed answer.
ghost use Rattle.std.specs.Prelude.{◌≡◌, ◌+◌, ◌^◌, ◌≤◌, List};
ghost use Rattle.graph_model.specs.Jobs.{IsWellFormedJob};
ghost use Rattle.store_reader.specs.Devices.{SomeShut};
ghost use Rattle.round_loop.specs.Keeping.{moment};
ghost use Rattle.run_model.specs.Calls.{IsReady};
ghost use Rattle.run_model.specs.Runs.{IsRun};
ghost use Rattle.ports.specs.Devices.{MetersGoOn, SameCounts};
ghost use Rattle.text_run.specs.Refusals;

use answer_lines::AnswerRoom;
use chunk_cursor::{CursorSeat, CursorTable};
use endings::Ending;
use graph_model::Job;
use job_run::run_job;
use partitioner::Split;
use ports::{Beat, Disk, Gate, Sink, Source};
use round_loop::Start;
use run_model::ending_of;
use std::alloc::Global;
use std::thread::Threads;
use storage_engine::{PrepareFault, all_open, prepare, text_limit};
use store_reader::Store;

/// Runs a job of format 2 over the text that is left in the source, on a store with as many devices of each kind as the
/// job has engines, and prints its answer on `out`. There is one meter for each engine, and one for the calling thread,
/// which comes last. A store whose graph devices are all open is refused and left as it is.
pub fn run_text<R: Threads + Sync, S: Source, K: Sink, D: Disk, G: Gate + Sync>(
    rt: &R,
    alloc: Global,
    job: &Job,
    source: &mut S,
    out: &mut K,
    store: &mut Store<D>,
    meters: &mut Vec<D::M>,
    table: &CursorTable,
    seat: &mut CursorSeat,
    gate: &G,
    beat: &mut Beat,
) -> Ending
    requires job { IsWellFormedJob job.now }
    requires format { job.now.format ≡ 2 }
    requires ready { IsReady D.state job.now.engines (moment store.old meters.old.items seat.old.view beat.old) }
    requires table { seat.old.table ≡ table.now }
    requires beat { beat.old ≤ 2 ^ 63 + 9 }
    ensures table { seat.new.table ≡ seat.old.table }
    ensures run { IsRun D.state D.M.faults job.now (record {
      text = S.left source.old;
      text_after = S.left source.new;
      read_faults = S.faults source.old;
      read_faults_after = S.faults source.new;
      out = K.written out.old;
      out_after = K.written out.new;
      write_faults = K.faults out.old;
      write_faults_after = K.faults out.new;
      before = moment store.old meters.old.items seat.old.view beat.old;
      after = moment store.new meters.new.items seat.new.view beat.new;
    }) result }
{
    match all_open(store, &mut meters[job.engines as usize]) {
        Ok(true) => Ending::StoreHolds,
        Ok(false) => run_anew(
            rt, alloc, job, source, out, store, meters, table, seat, gate, beat,
        ),
        Err(_) => Ending::DiskFault,
    }
}

/// Runs a job on a store of which some graph device is not open.
fn run_anew<R: Threads + Sync, S: Source, K: Sink, D: Disk, G: Gate + Sync>(
    rt: &R,
    alloc: Global,
    job: &Job,
    source: &mut S,
    out: &mut K,
    store: &mut Store<D>,
    meters: &mut Vec<D::M>,
    table: &CursorTable,
    seat: &mut CursorSeat,
    gate: &G,
    beat: &mut Beat,
) -> Ending
    requires job { IsWellFormedJob job.now }
    requires format { job.now.format ≡ 2 }
    requires ready { IsReady D.state job.now.engines (moment store.old meters.old.items seat.old.view beat.old) }
    requires table { seat.old.table ≡ table.now }
    requires beat { beat.old ≤ 2 ^ 63 + 9 }
    requires shut { SomeShut D.state store.old.graphs.items }
    ensures table { seat.new.table ≡ seat.old.table }
    ensures run { (earlier : List D.M) → MetersGoOn D.M.faults earlier meters.old.items → SameCounts D.M.faults earlier meters.old.items → IsRun D.state D.M.faults job.now (record {
      text = S.left source.old;
      text_after = S.left source.new;
      read_faults = S.faults source.old;
      read_faults_after = S.faults source.new;
      out = K.written out.old;
      out_after = K.written out.new;
      write_faults = K.faults out.old;
      write_faults_after = K.faults out.new;
      before = moment store.old earlier seat.old.view beat.old;
      after = moment store.new meters.new.items seat.new.view beat.new;
    }) result }
{
    let split = Split::of_job(job);
    let mut room = match AnswerRoom::new(alloc, &split) {
        Ok(room) => room,
        Err(_) => return Ending::Memory,
    };
    let index = match prepare(
        alloc,
        job,
        source,
        store,
        &mut meters[job.engines as usize],
        beat,
    ) {
        Ok(index) => index,
        Err(fault) => return refusal(fault, text_limit(job.chunk)),
    };
    let finish = run_job(
        rt,
        alloc,
        job,
        Start::Fresh,
        &index,
        store,
        table,
        seat,
        meters,
        gate,
        beat,
        &mut room,
        out,
    );
    ending_of(finish, job, &index)
}

/// The ending by which it is told that a store was not made.
fn refusal(fault: PrepareFault, limit: u64) -> Ending
    ensures { result ≡ Refusals.refusal limit fault }
{
    match fault {
        PrepareFault::BadLine(line) => Ending::BadLine(line),
        PrepareFault::TooLong => Ending::TooLong(limit),
        PrepareFault::ReadFault => Ending::ReadFault,
        PrepareFault::DiskFault => Ending::DiskFault,
        PrepareFault::Memory => Ending::Memory,
    }
}
