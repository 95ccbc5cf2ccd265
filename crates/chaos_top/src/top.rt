// The top call.
ghost use Rattle.std.specs.Prelude.{◌≡◌, ◌+◌, ◌^◌, ◌≤◌, Some, map, string_bytes};
ghost use Rattle.job_words.specs.Commands.{command_of, engines_of};
ghost use Rattle.round_loop.specs.Keeping.{moment};
ghost use Rattle.endings.specs.declared.ending.Ending.{Ending};
ghost use Rattle.endings.specs.Telling.{Announces};
ghost use Rattle.run_model.specs.Calls.{IsReady};
ghost use Rattle.chaos_top.specs.Outcome.{reports, IsOutcome};

use crate::serve::serve;
use chunk_cursor::{CursorSeat, CursorTable};
use endings::{Ending, tell};
use job_words::{Command, WordFault, job_of};
use ports::{Beat, Disk, Gate, Sink, Source};
use std::alloc::Global;
use std::thread::Threads;
use store_reader::Store;

/// Serves one command line: `words` are those after the program's name. The store has as many devices of each kind as the
/// command has engines, and there is a meter for each engine and one for the calling thread, which comes last.
///
/// Prints the answer of the job on `out`, or the summary of a bench, and on `err` the report that was asked for, or a message
/// where there is no answer; and answers the status of the ending. A failing `err` changes no status.
pub fn chaos<R: Threads + Sync, S: Source, K: Sink, E: Sink, D: Disk, G: Gate + Sync>(
    rt: &R,
    alloc: Global,
    words: &[String],
    source: &mut S,
    out: &mut K,
    err: &mut E,
    store: &mut Store<D>,
    meters: &mut Vec<D::M>,
    table: &CursorTable,
    seat: &mut CursorSeat,
    gate: &G,
    beat: &mut Beat,
) -> u8
    requires ready { IsReady D.state (engines_of (command_of (map string_bytes words.now))) (moment store.old meters.old.items seat.old.view beat.old) }
    requires table { seat.old.table ≡ table.now }
    requires beat { beat.old ≤ 2 ^ 63 }
    ensures table { seat.new.table ≡ seat.old.table }
    // Whatever the ending, a further call may be made of a command of as many engines.
    ensures ready { IsReady D.state (engines_of (command_of (map string_bytes words.now))) (moment store.new meters.new.items seat.new.view beat.new) }
    ensures outcome { (ending : Ending)
        × IsOutcome D.state D.M.faults (record {
          text = S.left source.old;
          text_after = S.left source.new;
          read_faults = S.faults source.old;
          read_faults_after = S.faults source.new;
          out = K.written out.old;
          out_after = K.written out.new;
          write_faults = K.faults out.old;
          write_faults_after = K.faults out.new;
          before = moment store.old meters.old.items seat.old.view (beat.old + 1);
          after = moment store.new meters.new.items seat.new.view beat.new;
        }) (command_of (map string_bytes words.now)) ending
        × Announces (reports (command_of (map string_bytes words.now))) ending result (E.written err.old) (E.written err.new) (E.faults err.old) (E.faults err.new) }
{
    beat.next();
    match job_of(alloc, words) {
        Ok(command) => {
            let ending = serve(
                rt, alloc, &command, source, out, store, meters, table, seat, gate, beat,
            );
            told(&ending, reports(&command), err)
        }
        Err(WordFault::Usage) => told(&Ending::Usage, false, err),
        Err(WordFault::Memory) => told(&Ending::Memory, false, err),
    }
}

/// Tells of an ending, and answers its status.
fn told<E: Sink>(ending: &Ending, reports: bool, err: &mut E) -> u8
    ensures { Announces reports ending.now result (E.written err.old) (E.written err.new) (E.faults err.old) (E.faults err.new) }
{
    tell(ending, reports, err);
    ending.status()
}

/// Whether a command asks for a report.
fn reports(command: &Command) -> bool
    ensures { result ≡ reports (Some command.now) }
{
    match command {
        Command::Run { report, .. } | Command::Resume { report, .. } => *report,
        Command::Bench { .. } | Command::Discard { .. } => false,
    }
}
