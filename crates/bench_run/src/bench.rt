// One run over a made text, and the summary of its answer.
ghost use Rattle.std.specs.Prelude.{◌≡◌, ℕ, ◌+◌, ◌^◌, ◌≤◌, Option, List};
ghost use Rattle.graph_model.specs.Jobs.{IsWellFormedJob};
ghost use Rattle.round_loop.specs.Keeping.{moment};
ghost use Rattle.run_model.specs.Calls.{IsReady};
ghost use Rattle.bench_run.specs.Benches.{IsBench};

use crate::summary_lines::summary_lines;
use chunk_cursor::{CursorSeat, CursorTable};
use endings::Ending;
use graph_model::Job;
use ports::{Beat, Disk, Gate, Sink, write_all};
use rmat_source::{RmatText, Summary, made_text_is_well_formed};
use std::alloc::Global;
use std::thread::Threads;
use store_reader::Store;
use text_run::run_text;

/// Runs a job of format 2 over the text of so many `edges`, at most 2^28, among 2^`scale` vertices, `scale` at most 22, that
/// is drawn from the number `rng`, and prints the summary of its answer on `out`. The store and the meters are as
/// `run_text` wants them. Where the answer was found and `out` fails, the ending is `WriteFault`.
pub fn run_bench<R: Threads + Sync, K: Sink, D: Disk, G: Gate + Sync>(
    rt: &R,
    alloc: Global,
    job: &Job,
    scale: u32,
    edges: u64,
    rng: u64,
    out: &mut K,
    store: &mut Store<D>,
    meters: &mut Vec<D::M>,
    table: &CursorTable,
    seat: &mut CursorSeat,
    gate: &G,
    beat: &mut Beat,
) -> Ending
    requires job { IsWellFormedJob job.now }
    requires format { job.now.format ≡ 2 }
    requires scale { scale ≤ 22 }
    requires edges { edges ≤ 268435456 }
    requires ready { IsReady D.state job.now.engines (moment store.old meters.old.items seat.old.view beat.old) }
    requires table { seat.old.table ≡ table.now }
    requires beat { beat.old ≤ 2 ^ 63 + 9 }
    ensures table { seat.new.table ≡ seat.old.table }
    ensures bench { (text : Option (List ℕ)) (read_faults : ℕ) → IsBench D.state D.M.faults job.now scale edges rng (record {
      text = text;
      text_after = text;
      read_faults = read_faults;
      read_faults_after = read_faults;
      out = K.written out.old;
      out_after = K.written out.new;
      write_faults = K.faults out.old;
      write_faults_after = K.faults out.new;
      before = moment store.old meters.old.items seat.old.view beat.old;
      after = moment store.new meters.new.items seat.new.view beat.new;
    }) result }
{
    made_text_is_well_formed();
    let mut text = RmatText::new(scale, edges, rng);
    let mut summary = Summary::new();
    let ending = run_text(
        rt,
        alloc,
        job,
        &mut text,
        &mut summary,
        store,
        meters,
        table,
        seat,
        gate,
        beat,
    );
    let Ending::Answered(report) = ending else {
        return ending;
    };
    let lines = summary_lines(job.vertices, edges, report.rounds, &summary);
    match write_all(out, &lines) {
        Ok(()) => ending,
        Err(_) => Ending::WriteFault,
    }
}
