//! What the workers own, on its way to their desks and back.
ghost use Rattle.std.specs.Prelude.{◌≡◌, ◌-◌, ◌^◌, ◌≤◌, [], All, map, min, sum_by, vec_len, vec_capacity};
ghost use Rattle.std.specs.List.{range_with_len};
ghost use Rattle.worker_outcomes.specs.Lowest.{lowest_outcome};
ghost use Rattle.scatter_epoch.specs.Dealing.{number_at, outcome_at, claims_at, admitted_at, places_on, AreDealt};

use crate::crew::ScatterCrew;
use list_moves::{put_last, take_first};
use ports::Disk;
use scatter_phase::ScatterDesk;
use store_reader::Outcome;
use worker_outcomes::{EpochEnd, lower_outcome};

/// Puts a desk for each worker together, in order, without places.
pub(crate) fn deal<D: Disk>(
    crew: &mut ScatterCrew<D>,
    meters: &mut Vec<D::M>,
    lanes: &mut Vec<Vec<D>>,
)
    requires few { vec_len meters.old ≤ 8 }
    requires many { (vec_len crew.old.seats ≡ vec_len meters.old) × (vec_len lanes.old ≡ vec_len meters.old) × (vec_len crew.old.places ≡ vec_len meters.old) × (vec_len crew.old.rooms ≡ vec_len meters.old) }
    requires room { (vec_len crew.old.desks ≡ 0) × (vec_len meters.old ≤ vec_capacity crew.old.desks) }
    ensures dealt { AreDealt crew.new.desks.items crew.old.seats.items meters.old.items lanes.old.items crew.old.rooms.items }
    ensures numbers { map number_at crew.new.desks.items ≡ range_with_len 0 (vec_len meters.old) }
    ensures places { All (λ desk. (places_on desk).items ≡ []) crew.new.desks.items }
    ensures many { vec_len crew.new.desks ≡ vec_len meters.old }
    ensures empty { (vec_len crew.new.seats ≡ 0) × (vec_len meters.new ≡ 0) × (vec_len lanes.new ≡ 0) × (vec_len crew.new.places ≡ 0) × (vec_len crew.new.rooms ≡ 0) }
    ensures room { (vec_capacity crew.old.desks ≤ vec_capacity crew.new.desks) × (vec_capacity crew.new.seats ≡ vec_capacity crew.old.seats) × (vec_capacity meters.new ≡ vec_capacity meters.old) × (vec_capacity lanes.new ≡ vec_capacity lanes.old) × (vec_capacity crew.new.places ≡ vec_capacity crew.old.places) × (vec_capacity crew.new.rooms ≡ vec_capacity crew.old.rooms) }
{
    for worker in 0..meters.len() {
        let mut places = take_first(&mut crew.places);
        places.clear();
        let desk = ScatterDesk {
            worker: worker as u32,
            seat: take_first(&mut crew.seats),
            meter: take_first(meters),
            lanes: take_first(lanes),
            places,
            room: take_first(&mut crew.rooms),
            claims: 0,
            admitted: 0,
            outcome: Outcome::Done,
        };
        put_last(&mut crew.desks, desk);
    }
}

/// Takes all desks apart, in order, so that all is back in its place.
pub(crate) fn collect<D: Disk>(
    crew: &mut ScatterCrew<D>,
    meters: &mut Vec<D::M>,
    lanes: &mut Vec<Vec<D>>,
) -> EpochEnd
    requires empty { (vec_len crew.old.seats ≡ 0) × (vec_len meters.old ≡ 0) × (vec_len lanes.old ≡ 0) × (vec_len crew.old.places ≡ 0) × (vec_len crew.old.rooms ≡ 0) }
    requires room { (vec_len crew.old.desks ≤ vec_capacity crew.old.seats) × (vec_len crew.old.desks ≤ vec_capacity meters.old) × (vec_len crew.old.desks ≤ vec_capacity lanes.old) × (vec_len crew.old.desks ≤ vec_capacity crew.old.places) × (vec_len crew.old.desks ≤ vec_capacity crew.old.rooms) }
    ensures dealt { AreDealt crew.old.desks.items crew.new.seats.items meters.new.items lanes.new.items crew.new.rooms.items }
    ensures places { crew.new.places.items ≡ map places_on crew.old.desks.items }
    ensures outcome { result.outcome ≡ lowest_outcome (map outcome_at crew.old.desks.items) }
    ensures claims { result.claims ≡ min (sum_by claims_at crew.old.desks.items) (2 ^ 64 - 1) }
    ensures admitted { result.admitted ≡ min (sum_by admitted_at crew.old.desks.items) (2 ^ 64 - 1) }
    ensures many { (vec_len crew.new.seats ≡ vec_len crew.old.desks) × (vec_len meters.new ≡ vec_len crew.old.desks) × (vec_len lanes.new ≡ vec_len crew.old.desks) × (vec_len crew.new.places ≡ vec_len crew.old.desks) × (vec_len crew.new.rooms ≡ vec_len crew.old.desks) }
    ensures empty { vec_len crew.new.desks ≡ 0 }
    ensures room { (vec_capacity crew.new.desks ≡ vec_capacity crew.old.desks) × (vec_capacity crew.old.seats ≤ vec_capacity crew.new.seats) × (vec_capacity meters.old ≤ vec_capacity meters.new) × (vec_capacity lanes.old ≤ vec_capacity lanes.new) }
{
    let mut all = EpochEnd {
        outcome: Outcome::Done,
        claims: 0,
        admitted: 0,
    };
    for _ in 0..crew.desks.len() {
        let desk = take_first(&mut crew.desks);
        put_last(&mut crew.seats, desk.seat);
        put_last(meters, desk.meter);
        put_last(lanes, desk.lanes);
        put_last(&mut crew.places, desk.places);
        put_last(&mut crew.rooms, desk.room);
        all.outcome = lower_outcome(all.outcome, desk.outcome);
        all.claims = all.claims.saturating_add(desk.claims);
        all.admitted = all.admitted.saturating_add(desk.admitted);
    }
    all
}
