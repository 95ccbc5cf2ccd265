// A job on a store, from its start to its printed answer.
ghost use Rattle.std.specs.Prelude.{◌≡◌, ℕ, ◌+◌, ◌^◌, ◌≤◌, Some, vec_len};
ghost use Rattle.graph_model.specs.Jobs.{IsWellFormedJob};
ghost use Rattle.graph_model.specs.Programs.{rules_of, shows_side};
ghost use Rattle.partitioner.specs.Splits.{split_for};
ghost use Rattle.chunk_object.specs.History.{most_chunks};
ghost use Rattle.store_reader.specs.Indexed.{lens_of};
ghost use Rattle.epoch_seats.specs.Between.{IsBetweenEpochs};
ghost use Rattle.answer_lines.specs.Room.{IsRoom};
ghost use Rattle.round_steps.specs.Going.{IsStore};
ghost use Rattle.round_loop.specs.Keeping.{moment};
ghost use Rattle.round_loop.specs.Conditions.{MOST_ROUNDS};
ghost use Rattle.round_loop.specs.Run.{HasRun};
ghost use Rattle.job_run.specs.Finish.{rounds_of};
ghost use Rattle.job_run.specs.Running.{Prints, HasFinishCause};

use crate::answer::answer;
use crate::finish::Finish;
use answer_lines::AnswerRoom;
use chunk_cursor::{CursorSeat, CursorTable};
use chunk_file::Index;
use gather_laws::VertexProgram;
use graph_model::{Job, Program};
use partitioner::Split;
use ports::{Beat, Disk, Gate, Sink};
use round_loop::{Start, run_rounds};
use std::alloc::Global;
use std::thread::Threads;
use store_reader::Store;
use vertex_programs::{Bfs, Degrees, Labels, PageRank, Sssp};

/// Makes the rounds of a job's program, from the start to the last round, and prints the answer. The graph devices have
/// the chunks of the job's edges, at the places of the index. There is one meter for each engine, and one for the calling
/// thread, which comes last.
pub fn run_job<R: Threads + Sync, K: Sink, D: Disk, G: Gate + Sync>(
    rt: &R,
    alloc: Global,
    job: &Job,
    start: Start,
    index: &Index,
    store: &mut Store<D>,
    table: &CursorTable,
    seat: &mut CursorSeat,
    meters: &mut Vec<D::M>,
    gate: &G,
    beat: &mut Beat,
    room: &mut AnswerRoom,
    out: &mut K,
) -> Finish
    requires job { IsWellFormedJob job.now }
    requires few { (cursor : ℕ) → lens_of index.now cursor ≤ most_chunks }
    requires store { IsStore D.state (split_for job.now) beat.old store.old }
    requires meters { vec_len meters.old ≡ job.now.engines + 1 }
    requires table { seat.old.table ≡ table.now }
    requires between { IsBetweenEpochs seat.old.view }
    requires beat { beat.old ≤ 2 ^ 63 + 10 }
    requires room { IsRoom (split_for job.now) room.old }
    ensures table { seat.new.table ≡ seat.old.table }
    ensures room { IsRoom (split_for job.now) room.new }
    ensures rounds { HasRun D.state D.M.faults (rules_of job.now.program) job.now start index.now (moment store.old meters.old.items seat.old.view beat.old) (moment store.new meters.new.items seat.new.view beat.new) (rounds_of result) }
    ensures printed { Prints D.state (split_for job.now) store.new.values.items (shows_side job.now.program) result (K.written out.old) (K.written out.new) }
    ensures cause { HasFinishCause D.M.faults meters.old.items meters.new.items (K.faults out.old) (K.faults out.new) result }
{
    match job.program {
        Program::Bfs(root) => {
            let program = Bfs { root };
            run_program(
                rt, alloc, &program, job, start, index, store, table, seat, meters, gate, beat,
                room, out,
            )
        }
        Program::Labels => run_program(
            rt, alloc, &Labels, job, start, index, store, table, seat, meters, gate, beat, room,
            out,
        ),
        Program::Sssp(root) => {
            let program = Sssp { root };
            run_program(
                rt, alloc, &program, job, start, index, store, table, seat, meters, gate, beat,
                room, out,
            )
        }
        Program::Degrees => run_program(
            rt, alloc, &Degrees, job, start, index, store, table, seat, meters, gate, beat, room,
            out,
        ),
        Program::PageRank(rounds) => {
            let program = PageRank { rounds };
            run_program(
                rt, alloc, &program, job, start, index, store, table, seat, meters, gate, beat,
                room, out,
            )
        }
    }
}

/// The same for a program that is that of the job.
fn run_program<R: Threads + Sync, P: VertexProgram, K: Sink, D: Disk, G: Gate + Sync>(
    rt: &R,
    alloc: Global,
    program: &P,
    job: &Job,
    start: Start,
    index: &Index,
    store: &mut Store<D>,
    table: &CursorTable,
    seat: &mut CursorSeat,
    meters: &mut Vec<D::M>,
    gate: &G,
    beat: &mut Beat,
    room: &mut AnswerRoom,
    out: &mut K,
) -> Finish
    requires job { IsWellFormedJob job.now }
    requires rounds { (last : ℕ) → (P.rules program.now).rounds ≡ Some last → last ≤ MOST_ROUNDS }
    requires few { (cursor : ℕ) → lens_of index.now cursor ≤ most_chunks }
    requires store { IsStore D.state (split_for job.now) beat.old store.old }
    requires meters { vec_len meters.old ≡ job.now.engines + 1 }
    requires table { seat.old.table ≡ table.now }
    requires between { IsBetweenEpochs seat.old.view }
    requires beat { beat.old ≤ 2 ^ 63 + 10 }
    requires room { IsRoom (split_for job.now) room.old }
    ensures table { seat.new.table ≡ seat.old.table }
    ensures room { IsRoom (split_for job.now) room.new }
    ensures rounds { HasRun D.state D.M.faults (P.rules program.now) job.now start index.now (moment store.old meters.old.items seat.old.view beat.old) (moment store.new meters.new.items seat.new.view beat.new) (rounds_of result) }
    ensures printed { Prints D.state (split_for job.now) store.new.values.items (shows_side job.now.program) result (K.written out.old) (K.written out.new) }
    ensures cause { HasFinishCause D.M.faults meters.old.items meters.new.items (K.faults out.old) (K.faults out.new) result }
{
    let split = Split::of_job(job);
    match run_rounds(
        rt, alloc, program, job, start, index, store, table, seat, meters, gate, beat,
    ) {
        Ok(done) => answer(job.program, &split, done, &store.values, meters, room, out),
        Err(fault) => Finish::Stopped(fault),
    }
}
