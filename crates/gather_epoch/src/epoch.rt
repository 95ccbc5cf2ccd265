//! A gather epoch.
ghost use Rattle.std.specs.Prelude.{◌≡◌, ◌≢◌, ◌⊎◌, ℕ, ◌<◌, ◌≤◌, All, length, vec_len, vec_capacity, slice_index_or};
ghost use Rattle.ports.specs.Devices.{NoneRose, SameCounts};
ghost use Rattle.replica_merge.specs.Accumulators.{split_of};
ghost use Rattle.store_reader.specs.Indexed.{IsServing};
ghost use Rattle.gather_phase.specs.Phases.{MayStopBy};
ghost use Rattle.epoch_seats.specs.Between.{IsBetweenEpochs};
ghost use Rattle.gather_epoch.specs.Crews.{IsCrew};
ghost use Rattle.gather_epoch.specs.Desks.{IsReady, HasWorkedAt};
ghost use Rattle.gather_epoch.specs.Gathering.{GoesOn, RoseOfOne, HaveGathered, IsNotBegun};

use crate::crew::GatherCrew;
use crate::moves::{collect, deal};
use chunk_cursor::CursorSeat;
use epoch_seats::{close_epoch, open_epoch};
use gather_laws::VertexProgram;
use gather_phase::{GatherContext, GatherDesk, gather_work};
use phase_barrier::fork_all;
use ports::{Disk, Failed, Gate, cut_all};
use replica_merge::Replicas;
use std::thread::Threads;
use store_reader::Outcome;
use worker_outcomes::EpochEnd;

/// Lets all workers gather the chunks of the context's index, each its share: worker w with meter w, with the
/// accumulators `replicas[w]` and with the device `spills[w]`, which is emptied first. Where that fails no cursor is
/// opened. On every answer all is back in its place, and the seat is ready for the next epoch.
pub fn gather_all<R: Threads + Sync, P: VertexProgram, D: Disk, G: Gate + Sync>(
    rt: &R,
    context: &GatherContext<P, D, G>,
    seat: &mut CursorSeat,
    crew: &mut GatherCrew<D>,
    meters: &mut Vec<D::M>,
    replicas: &mut Vec<Replicas>,
    spills: &mut Vec<D>,
) -> EpochEnd
    requires serving { IsServing context.now.serving }
    requires table { seat.old.table ≡ context.now.serving.table.now }
    requires between { IsBetweenEpochs seat.old.view }
    requires crew { IsCrew context.now.serving.job.now crew.old }
    requires meters { vec_len meters.old ≡ context.now.serving.job.now.engines }
    requires replicas { (vec_len replicas.old ≡ context.now.serving.job.now.engines) × All (λ r. split_of r ≡ context.now.serving.split.now) replicas.old.items }
    requires spills { (vec_len spills.old ≡ context.now.serving.job.now.engines) × All (λ d. (D.state d).beat ≤ context.now.beat.now) spills.old.items }
    // On every answer.
    ensures table { seat.new.table ≡ seat.old.table }
    ensures between { IsBetweenEpochs seat.new.view }
    ensures crew { IsCrew context.now.serving.job.now crew.new }
    ensures meters { (vec_len meters.new ≡ vec_len meters.old) × (vec_capacity meters.old ≤ vec_capacity meters.new) }
    ensures replicas { (vec_len replicas.new ≡ vec_len replicas.old) × All (λ r. split_of r ≡ context.now.serving.split.now) replicas.new.items }
    ensures spills { (vec_len spills.new ≡ vec_len spills.old) × All (λ d. (D.state d).beat ≤ context.now.beat.now) spills.new.items }
    ensures goes_on { (w : ℕ) (m : _) (d : D) → w < context.now.serving.job.now.engines → GoesOn D.state D.M.faults (slice_index_or meters.old.items w m) (slice_index_or meters.new.items w m) (slice_index_or spills.old.items w d) (slice_index_or spills.new.items w d) }
    ensures cause { result.outcome ≡ Outcome.DiskFault → RoseOfOne D.state D.M.faults context.now.serving.job.now.engines meters.old.items meters.new.items spills.old.items spills.new.items }
    ensures calm { result.outcome ≡ Outcome.Done → SameCounts D.M.faults meters.old.items meters.new.items × NoneRose D.state spills.old.items spills.new.items }
    ensures stopped { result.outcome ≢ Outcome.Done → MayStopBy P.rules D.state context.now result.outcome }
    ensures few { (result.claims ≤ 1099511627776) × (result.admitted ≤ 512) }
    // What was done.
    ensures gathered { IsNotBegun P.rules D.state D.M.faults context.now seat.old.view seat.new.view result
        ⊎ HaveGathered P.rules D.state D.M.faults context.now seat.old.view seat.new.view meters.old.items meters.new.items spills.old.items spills.new.items replicas.new.items result }
{
    if let Err(Failed) = cut_all(spills, context.beat) {
        return EpochEnd {
            outcome: Outcome::DiskFault,
            claims: 0,
            admitted: 0,
        };
    }
    let serving = &context.serving;
    open_epoch(
        serving.table,
        seat,
        serving.job,
        serving.split,
        serving.index,
        &mut crew.seats,
    );
    deal(crew, meters, replicas, spills);
    fork_gather(rt, context, &mut crew.desks);
    let gathered = collect(crew, meters, replicas, spills);
    close_epoch(serving.table, seat, &mut crew.seats);
    gathered
}

/// One call of the work on each desk.
fn fork_gather<R: Threads + Sync, P: VertexProgram, D: Disk, G: Gate + Sync>(
    rt: &R,
    context: &GatherContext<P, D, G>,
    desks: &mut Vec<GatherDesk<D>>,
)
    requires serving { IsServing context.now.serving }
    requires ready { (w : ℕ) (d : _) → w < length desks.old.items → IsReady P.rules D.state context.now (slice_index_or desks.old.items w d) }
    ensures many { (vec_len desks.new ≡ vec_len desks.old) × (vec_capacity desks.new ≡ vec_capacity desks.old) }
    ensures worked { (w : ℕ) (d : _) → w < length desks.old.items → HasWorkedAt P.rules D.state D.M.faults context.now (slice_index_or desks.old.items w d) (slice_index_or desks.new.items w d) }
{
    let work = |_: &(), desk: &mut GatherDesk<D>|
        requires serving { IsServing context.now.serving }
        requires ready { IsReady P.rules D.state context.now desk.now }
        ensures { HasWorkedAt P.rules D.state D.M.faults context.entry.now desk.entry.now desk.exit.now }
    { gather_work(context, desk) };
    fork_all(rt, &(), desks.as_mut_slice(), &work);
}
