//! What the workers own, on its way to their desks and back.
ghost use Rattle.std.specs.Prelude.{◌≡◌, ◌-◌, ◌^◌, ◌≤◌, map, min, sum_by, vec_len, vec_capacity};
ghost use Rattle.std.specs.List.{range_with_len};
ghost use Rattle.worker_outcomes.specs.Lowest.{lowest_outcome};
ghost use Rattle.gather_epoch.specs.Dealing.{number_at, outcome_at, claims_at, admitted_at, AreDealt};

use crate::crew::GatherCrew;
use gather_phase::GatherDesk;
use list_moves::{put_last, take_first};
use ports::Disk;
use replica_merge::Replicas;
use store_reader::Outcome;
use worker_outcomes::{EpochEnd, lower_outcome};

/// Puts a desk for each worker together, in order.
pub(crate) fn deal<D: Disk>(
    crew: &mut GatherCrew<D>,
    meters: &mut Vec<D::M>,
    replicas: &mut Vec<Replicas>,
    spills: &mut Vec<D>,
)
    requires few { vec_len meters.old ≤ 8 }
    requires many { (vec_len crew.old.seats ≡ vec_len meters.old) × (vec_len replicas.old ≡ vec_len meters.old) × (vec_len spills.old ≡ vec_len meters.old) × (vec_len crew.old.rooms ≡ vec_len meters.old) }
    requires room { (vec_len crew.old.desks ≡ 0) × (vec_len meters.old ≤ vec_capacity crew.old.desks) }
    ensures dealt { AreDealt crew.new.desks.items crew.old.seats.items meters.old.items replicas.old.items spills.old.items crew.old.rooms.items }
    ensures numbers { map number_at crew.new.desks.items ≡ range_with_len 0 (vec_len meters.old) }
    ensures many { vec_len crew.new.desks ≡ vec_len meters.old }
    ensures empty { (vec_len crew.new.seats ≡ 0) × (vec_len meters.new ≡ 0) × (vec_len replicas.new ≡ 0) × (vec_len spills.new ≡ 0) × (vec_len crew.new.rooms ≡ 0) }
    ensures room { (vec_capacity crew.old.desks ≤ vec_capacity crew.new.desks) × (vec_capacity crew.new.seats ≡ vec_capacity crew.old.seats) × (vec_capacity meters.new ≡ vec_capacity meters.old) × (vec_capacity replicas.new ≡ vec_capacity replicas.old) × (vec_capacity spills.new ≡ vec_capacity spills.old) × (vec_capacity crew.new.rooms ≡ vec_capacity crew.old.rooms) }
{
    for worker in 0..meters.len() {
        let desk = GatherDesk {
            worker: worker as u32,
            seat: take_first(&mut crew.seats),
            meter: take_first(meters),
            replicas: take_first(replicas),
            spill: take_first(spills),
            room: take_first(&mut crew.rooms),
            claims: 0,
            admitted: 0,
            outcome: Outcome::Done,
        };
        put_last(&mut crew.desks, desk);
    }
}

/// Takes all desks apart, in order, so that all is back in its place.
pub(crate) fn collect<D: Disk>(
    crew: &mut GatherCrew<D>,
    meters: &mut Vec<D::M>,
    replicas: &mut Vec<Replicas>,
    spills: &mut Vec<D>,
) -> EpochEnd
    requires empty { (vec_len crew.old.seats ≡ 0) × (vec_len meters.old ≡ 0) × (vec_len replicas.old ≡ 0) × (vec_len spills.old ≡ 0) × (vec_len crew.old.rooms ≡ 0) }
    requires room { (vec_len crew.old.desks ≤ vec_capacity crew.old.seats) × (vec_len crew.old.desks ≤ vec_capacity meters.old) × (vec_len crew.old.desks ≤ vec_capacity replicas.old) × (vec_len crew.old.desks ≤ vec_capacity spills.old) × (vec_len crew.old.desks ≤ vec_capacity crew.old.rooms) }
    ensures dealt { AreDealt crew.old.desks.items crew.new.seats.items meters.new.items replicas.new.items spills.new.items crew.new.rooms.items }
    ensures outcome { result.outcome ≡ lowest_outcome (map outcome_at crew.old.desks.items) }
    ensures claims { result.claims ≡ min (sum_by claims_at crew.old.desks.items) (2 ^ 64 - 1) }
    ensures admitted { result.admitted ≡ min (sum_by admitted_at crew.old.desks.items) (2 ^ 64 - 1) }
    ensures many { (vec_len crew.new.seats ≡ vec_len crew.old.desks) × (vec_len meters.new ≡ vec_len crew.old.desks) × (vec_len replicas.new ≡ vec_len crew.old.desks) × (vec_len spills.new ≡ vec_len crew.old.desks) × (vec_len crew.new.rooms ≡ vec_len crew.old.desks) }
    ensures empty { vec_len crew.new.desks ≡ 0 }
    ensures room { (vec_capacity crew.new.desks ≡ vec_capacity crew.old.desks) × (vec_capacity crew.old.seats ≤ vec_capacity crew.new.seats) × (vec_capacity meters.old ≤ vec_capacity meters.new) × (vec_capacity replicas.old ≤ vec_capacity replicas.new) × (vec_capacity spills.old ≤ vec_capacity spills.new) }
{
    let mut all = EpochEnd {
        outcome: Outcome::Done,
        claims: 0,
        admitted: 0,
    };
    for _ in 0..crew.desks.len() {
        let desk = take_first(&mut crew.desks);
        put_last(&mut crew.seats, desk.seat);
        put_last(meters, desk.meter);
        put_last(replicas, desk.replicas);
        put_last(spills, desk.spill);
        put_last(&mut crew.rooms, desk.room);
        all.outcome = lower_outcome(all.outcome, desk.outcome);
        all.claims = all.claims.saturating_add(desk.claims);
        all.admitted = all.admitted.saturating_add(desk.admitted);
    }
    all
}
