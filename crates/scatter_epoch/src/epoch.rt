//! A scatter epoch.
ghost use Rattle.std.specs.Prelude.{◌≡◌, ◌≢◌, ◌⊎◌, ℕ, ◌<◌, ◌≤◌, All, length, map, vec_len, vec_capacity, slice_index_or, Vec as VecOf};
ghost use Rattle.std.specs.Global.{Global as Heap};
ghost use Rattle.phase_model.specs.declared.placed.Placed.{Placed as PlacedOf};
ghost use Rattle.update_lanes.specs.Lanes.{IsWithin};
ghost use Rattle.scatter_phase.specs.Phases.{MayStopBy};
ghost use Rattle.epoch_seats.specs.Between.{IsBetweenEpochs};
ghost use Rattle.ports.specs.Devices.{AreRows, MetersGoOn, NoRowRose, SameCounts};
ghost use Rattle.scatter_epoch.specs.Crews.{IsCrew};
ghost use Rattle.scatter_epoch.specs.Joining.{IsIndexOf};
ghost use Rattle.scatter_epoch.specs.Desks.{IsContext, IsReady, HasWorkedAt};
ghost use Rattle.scatter_epoch.specs.Scattering.{RowsGoOn, RoseOfOne, HaveScattered};

use crate::crew::ScatterCrew;
use crate::index::index_places;
use crate::moves::{collect, deal};
use chunk_cursor::CursorSeat;
use chunk_file::Index;
use epoch_seats::{close_epoch, open_epoch};
use gather_laws::VertexProgram;
use phase_barrier::fork_all;
use ports::{Disk, Gate, Memory};
use scatter_phase::{Placed, ScatterContext, ScatterDesk, scatter_work};
use std::thread::Threads;
use store_reader::Outcome;
use worker_outcomes::EpochEnd;

/// Lets all workers scatter along the edges of the context's index, each its share: worker w with meter w, to its lanes
/// `lanes[w]`. Where all are done, `updates` becomes the index of the chunks on all lanes. On every answer all is back in
/// its place, and the seat is ready for the next epoch.
pub fn scatter_all<R: Threads + Sync, P: VertexProgram, D: Disk, G: Gate + Sync>(
    rt: &R,
    context: &ScatterContext<P, D, G>,
    seat: &mut CursorSeat,
    crew: &mut ScatterCrew<D>,
    meters: &mut Vec<D::M>,
    lanes: &mut Vec<Vec<D>>,
    updates: &mut Index,
) -> EpochEnd
    requires context { IsContext P.rules D.state context.now }
    requires table { seat.old.table ≡ context.now.serving.table.now }
    requires between { IsBetweenEpochs seat.old.view }
    requires crew { IsCrew context.now.serving.job.now crew.old }
    requires meters { vec_len meters.old ≡ context.now.serving.job.now.engines }
    requires lanes { AreRows D.state context.now.serving.job.now.engines context.now.beat.now lanes.old.items }
    // On every answer.
    ensures table { seat.new.table ≡ seat.old.table }
    ensures between { IsBetweenEpochs seat.new.view }
    ensures crew { IsCrew context.now.serving.job.now crew.new }
    ensures meters { MetersGoOn D.M.faults meters.old.items meters.new.items }
    ensures lanes { RowsGoOn D.state context.now.beat.now lanes.old.items lanes.new.items }
    ensures room { (vec_capacity meters.old ≤ vec_capacity meters.new) × (vec_capacity lanes.old ≤ vec_capacity lanes.new) }
    ensures few { (result.claims ≤ 1099511627776) × (result.admitted ≤ 512) }
    ensures cause { result.outcome ≡ Outcome.DiskFault → RoseOfOne D.state D.M.faults context.now.serving.job.now.engines meters.old.items meters.new.items lanes.old.items lanes.new.items }
    ensures calm { result.outcome ≡ Outcome.Done → SameCounts D.M.faults meters.old.items meters.new.items × NoRowRose D.state lanes.old.items lanes.new.items }
    ensures stopped { result.outcome ≢ Outcome.Done → MayStopBy P.rules D.state context.now result.outcome }
    // What was done.
    ensures scattered { HaveScattered P.rules D.state D.M.faults context.now seat.old.view seat.new.view meters.old.items meters.new.items lanes.old.items lanes.new.items updates.new result }
{
    let serving = &context.serving;
    open_epoch(
        serving.table,
        seat,
        serving.job,
        serving.split,
        serving.index,
        &mut crew.seats,
    );
    deal(crew, meters, lanes);
    fork_scatter(rt, context, &mut crew.desks);
    let scattered = collect(crew, meters, lanes);
    close_epoch(serving.table, seat, &mut crew.seats);
    EpochEnd {
        outcome: index_where_done(scattered.outcome, &crew.places, updates),
        ..scattered
    }
}

/// Makes the index where all workers are done.
fn index_where_done(outcome: Outcome, places: &Vec<Vec<Placed>>, updates: &mut Index) -> Outcome
    requires few { length places.now.items ≤ 8 }
    requires within { All (λ own. All (IsWithin 8 64) own.items) places.now.items }
    ensures outcome { (result ≡ outcome) ⊎ ((outcome ≡ Outcome.Done) × (result ≡ Outcome.Memory)) }
    ensures index { result ≡ Outcome.Done → IsIndexOf (map (λ (own : VecOf PlacedOf Heap). own.items) places.now.items) updates.new }
{
    if outcome != Outcome::Done {
        return outcome;
    }
    match index_places(places, updates) {
        Ok(()) => Outcome::Done,
        Err(Memory) => Outcome::Memory,
    }
}

/// One call of the work on each desk.
fn fork_scatter<R: Threads + Sync, P: VertexProgram, D: Disk, G: Gate + Sync>(
    rt: &R,
    context: &ScatterContext<P, D, G>,
    desks: &mut Vec<ScatterDesk<D>>,
)
    requires context { IsContext P.rules D.state context.now }
    requires ready { (w : ℕ) (d : _) → w < length desks.old.items → IsReady P.rules D.state context.now (slice_index_or desks.old.items w d) }
    ensures many { (vec_len desks.new ≡ vec_len desks.old) × (vec_capacity desks.new ≡ vec_capacity desks.old) }
    ensures worked { (w : ℕ) (d : _) → w < length desks.old.items → HasWorkedAt P.rules D.state D.M.faults context.now (slice_index_or desks.old.items w d) (slice_index_or desks.new.items w d) }
{
    let work = |_: &(), desk: &mut ScatterDesk<D>|
        requires context { IsContext P.rules D.state context.now }
        requires ready { IsReady P.rules D.state context.now desk.now }
        ensures { HasWorkedAt P.rules D.state D.M.faults context.entry.now desk.entry.now desk.exit.now }
    { scatter_work(context, desk) };
    fork_all(rt, &(), desks.as_mut_slice(), &work);
}
