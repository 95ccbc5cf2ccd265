//! A run in its course: the first round, one round more, and when to end.
ghost use Rattle.std.specs.Prelude.{◌≡◌, ◌+◌, ◌-◌, ◌^◌, ◌<◌, ◌≤◌, true, false, nat_lt, ◌≢◌, None, Err, MatchResult, vec_len, vec_capacity};
ghost use Rattle.graph_model.specs.Programs.{Rules};
ghost use Rattle.epoch_seats.specs.Between.{IsBetweenEpochs};
ghost use Rattle.round_steps.specs.Crews.{AreCrews};
ghost use Rattle.round_steps.specs.Going.{IsStore};
ghost use Rattle.round_loop.specs.Starts.{first_sent};
ghost use Rattle.round_loop.specs.Keeping.{Moment, moment};
ghost use Rattle.round_loop.specs.Conditions.{IsRun, MOST_ROUNDS};
ghost use Rattle.round_loop.specs.Coming.{GoesOn, EndsAt, IsAt};
ghost use Rattle.round_loop.specs.Run.{HasRun};

use crate::fault::{RoundFault, check};
use crate::run::Start;
use chunk_cursor::CursorSeat;
use gather_laws::VertexProgram;
use ports::{Beat, Disk, Gate};
use round_steps::{Crews, Run, make_first, make_round};
use std::thread::Threads;
use store_reader::Store;

/// How far a run has come.
#[derive(Clone, Copy, Debug, PartialEq, Eq)]
pub(crate) struct Progress {
    /// The last round that was made or found, and how many vertices changed in it.
    pub(crate) round: u64,
    pub(crate) changed: u64,
    /// How many epochs there were, and how many replies in them took a chunk, or admitted help.
    pub(crate) epochs: u64,
    pub(crate) claims: u64,
    pub(crate) admitted: u64,
}

/// Makes round 0.
pub(crate) fn begin<R: Threads + Sync, P: VertexProgram, D: Disk, G: Gate + Sync>(
    run: &Run<R, P, G>,
    crews: &mut Crews<D>,
    store: &mut Store<D>,
    meters: &mut Vec<D::M>,
    seat: &mut CursorSeat,
    beat: &mut Beat,
) -> Result<Progress, RoundFault>
    requires run { IsRun P.rules run.now }
    requires crews { AreCrews run.now.job.now run.now.split.now crews.old }
    requires store { IsStore D.state run.now.split.now beat.old store.old }
    requires meters { vec_len meters.old ≡ run.now.job.now.engines }
    requires table { seat.old.table ≡ run.now.table.now }
    requires between { IsBetweenEpochs seat.old.view }
    requires beat { beat.old < 2 ^ 64 - 1 }
    ensures crews { AreCrews run.now.job.now run.now.split.now crews.new }
    ensures table { seat.new.table ≡ seat.old.table }
    ensures room { vec_capacity meters.old ≤ vec_capacity meters.new }
    ensures limit { result ≢ Err RoundFault.RoundLimit }
    ensures course { MatchResult result
        (λ so_far. (so_far.round ≡ 0) × IsAt D.state D.M.faults (P.rules run.now.program.now) run.now.job.now Start.Fresh run.now.index.now so_far (moment store.old meters.old.items seat.old.view beat.old) (moment store.new meters.new.items seat.new.view beat.new))
        (λ fault. HasRun D.state D.M.faults (P.rules run.now.program.now) run.now.job.now Start.Fresh run.now.index.now (moment store.old meters.old.items seat.old.view beat.old) (moment store.new meters.new.items seat.new.view beat.new) (Err fault)) }
{
    let counts = run.program.counts();
    let end = make_first(run, crews, store, meters, seat, beat);
    match check(end.outcome) {
        Ok(()) => Ok(Progress {
            round: 0,
            changed: end.changed,
            epochs: if counts { 1 } else { 0 },
            claims: end.claims,
            admitted: end.admitted,
        }),
        Err(fault) => Err(fault),
    }
}

/// Makes one round more.
pub(crate) fn go_on<R: Threads + Sync, P: VertexProgram, D: Disk, G: Gate + Sync>(
    run: &Run<R, P, G>,
    crews: &mut Crews<D>,
    start: Start,
    so_far: Progress,
    store: &mut Store<D>,
    meters: &mut Vec<D::M>,
    seat: &mut CursorSeat,
    beat: &mut Beat,
) -> Result<Progress, RoundFault>
    requires run { IsRun P.rules run.now }
    requires crews { AreCrews run.now.job.now run.now.split.now crews.old }
    requires store { IsStore D.state run.now.split.now beat.old store.old }
    requires meters { vec_len meters.old ≡ run.now.job.now.engines }
    requires table { seat.old.table ≡ run.now.table.now }
    requires between { IsBetweenEpochs seat.old.view }
    requires beat { beat.old < 2 ^ 64 - 1 }
    requires goes_on { GoesOn (P.rules run.now.program.now) run.now.job.now.limit so_far.round so_far.changed }
    requires few { (so_far.round < MOST_ROUNDS) × (so_far.epochs < 2 ^ 32) × (so_far.claims ≤ 2 ^ 62) × (so_far.admitted ≤ 2 ^ 62) }
    ensures crews { AreCrews run.now.job.now run.now.split.now crews.new }
    ensures table { seat.new.table ≡ seat.old.table }
    ensures room { vec_capacity meters.old ≤ vec_capacity meters.new }
    ensures limit { result ≢ Err RoundFault.RoundLimit }
    ensures course { (from : Moment D D.M) → IsAt D.state D.M.faults (P.rules run.now.program.now) run.now.job.now start run.now.index.now so_far from (moment store.old meters.old.items seat.old.view beat.old) → MatchResult result
        (λ next. (next.round ≡ so_far.round + 1) × IsAt D.state D.M.faults (P.rules run.now.program.now) run.now.job.now start run.now.index.now next from (moment store.new meters.new.items seat.new.view beat.new))
        (λ fault. HasRun D.state D.M.faults (P.rules run.now.program.now) run.now.job.now start run.now.index.now from (moment store.new meters.new.items seat.new.view beat.new) (Err fault)) }
{
    let round = so_far.round + 1;
    let changed_only = has_sent(start, so_far.round) && run.program.absorbs();
    let end = make_round(
        run,
        crews,
        store,
        meters,
        seat,
        beat,
        round,
        changed_only,
        so_far.epochs,
    );
    match check(end.outcome) {
        Ok(()) => Ok(Progress {
            round,
            changed: end.changed,
            epochs: so_far.epochs + 2,
            claims: so_far.claims + end.claims,
            admitted: so_far.admitted + end.admitted,
        }),
        Err(fault) => Err(fault),
    }
}

/// Whether this run has sent for the round that it has come to, so that in the next one only vertices that changed since
/// need to send.
fn has_sent(start: Start, round: u64) -> bool
    ensures { result ≡ nat_lt (first_sent start) (round + 1) }
{
    match start {
        Start::Fresh => round >= 1,
        Start::At {
            round: found,
            changed: _,
        } => round > found,
    }
}

/// Whether the values of a round are those of the round before it. Of round 0 the number of changed values tells nothing.
fn is_settled(so_far: &Progress) -> bool
    ensures settled { result ≡ true → (1 ≤ so_far.now.round) × (so_far.now.changed ≡ 0) }
    ensures unsettled { result ≡ false → 1 ≤ so_far.now.round → so_far.now.changed ≢ 0 }
{
    so_far.round >= 1 && so_far.changed == 0
}

/// Whether a further round is to be made.
pub(crate) fn is_to_go_on(rounds: Option<u64>, limit: u32, so_far: &Progress) -> bool
    ensures goes_on { (rules : Rules) → rules.rounds ≡ rounds → result ≡ true → GoesOn rules limit so_far.now.round so_far.now.changed }
    ensures ends { (rules : Rules) → rules.rounds ≡ rounds → result ≡ false → EndsAt rules limit so_far.now.round so_far.now.changed }
{
    match rounds {
        Some(last) => so_far.round < last,
        None => so_far.round < limit as u64 && !is_settled(so_far),
    }
}

/// Whether a round after which none is to be made is the last one, and not the limit's alone.
pub(crate) fn is_last(rounds: Option<u64>, so_far: &Progress) -> bool
    ensures last { result ≡ true → rounds ≡ None → (1 ≤ so_far.now.round) × (so_far.now.changed ≡ 0) }
    ensures limit { result ≡ false → (rounds ≡ None) × (1 ≤ so_far.now.round → so_far.now.changed ≢ 0) }
{
    match rounds {
        Some(_) => true,
        None => is_settled(so_far),
    }
}
