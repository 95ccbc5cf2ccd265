// What each command does.
ghost use Rattle.std.specs.Prelude.{◌≡◌, ◌+◌, ◌^◌, ◌≤◌, Some};
ghost use Rattle.job_words.specs.Commands.{IsInRanges, engines_of};
ghost use Rattle.round_loop.specs.Keeping.{moment};
ghost use Rattle.run_model.specs.Calls.{IsReady};
ghost use Rattle.chaos_top.specs.Outcome.{IsOutcome};

use bench_run::run_bench;
use chunk_cursor::{CursorSeat, CursorTable};
use endings::Ending;
use job_words::Command;
use ports::{Beat, Disk, Gate, Sink, Source};
use std::alloc::Global;
use std::thread::Threads;
use store_drop::give_up;
use store_reader::Store;
use store_resume::resume_store;
use text_run::run_text;

/// Does what a command asks for.
pub(crate) fn serve<R: Threads + Sync, S: Source, K: Sink, D: Disk, G: Gate + Sync>(
    rt: &R,
    alloc: Global,
    command: &Command,
    source: &mut S,
    out: &mut K,
    store: &mut Store<D>,
    meters: &mut Vec<D::M>,
    table: &CursorTable,
    seat: &mut CursorSeat,
    gate: &G,
    beat: &mut Beat,
) -> Ending
    requires ranges { IsInRanges command.now }
    requires ready { IsReady D.state (engines_of (Some command.now)) (moment store.old meters.old.items seat.old.view beat.old) }
    requires table { seat.old.table ≡ table.now }
    requires beat { beat.old ≤ 2 ^ 63 + 1 }
    ensures table { seat.new.table ≡ seat.old.table }
    ensures ready { IsReady D.state (engines_of (Some command.now)) (moment store.new meters.new.items seat.new.view beat.new) }
    ensures outcome { IsOutcome D.state D.M.faults (record {
      text = S.left source.old;
      text_after = S.left source.new;
      read_faults = S.faults source.old;
      read_faults_after = S.faults source.new;
      out = K.written out.old;
      out_after = K.written out.new;
      write_faults = K.faults out.old;
      write_faults_after = K.faults out.new;
      before = moment store.old meters.old.items seat.old.view beat.old;
      after = moment store.new meters.new.items seat.new.view beat.new;
    }) (Some command.now) result }
{
    match command {
        Command::Run { job, .. } => run_text(
            rt, alloc, job, source, out, store, meters, table, seat, gate, beat,
        ),
        Command::Bench {
            job,
            scale,
            edges,
            rng,
        } => run_bench(
            rt, alloc, job, *scale, *edges, *rng, out, store, meters, table, seat, gate, beat,
        ),
        Command::Resume { engines, .. } => resume_store(
            rt, alloc, *engines, out, store, meters, table, seat, gate, beat,
        ),
        Command::Discard { engines } => give_up(*engines, store, meters, beat),
    }
}
