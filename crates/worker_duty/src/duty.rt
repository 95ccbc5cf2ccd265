//! The duty of a worker.
ghost use Rattle.std.specs.Prelude.{◌≡◌, ◌≢◌, ℕ, ◌+◌, ◌%◌, ◌<◌, ◌≤◌, true, false};
ghost use Rattle.chunk_object.specs.Epochs.{cursor_of};
ghost use Rattle.worker_duty.specs.Shares.{DrainsCursor, DrainsTo, HelpsAt, OwnTo, OthersTo};
ghost use Rattle.worker_duty.specs.Views.{taken_by_seat, NoneOf, AreFew, IsReady, MayWorkAt, MayWork, HasWorked};
ghost use Rattle.worker_duty.specs.Working.{IsPiece};
ghost use Rattle.worker_duty.specs.Acting.{MayServe, HasServed, MayPropose, HasProposed, MayLeave, HasLeft, AreActs};

use crate::acts::{Acts, Phase, Share, Step, Worked};
use steal_policy::Proposal;

/// Does the whole duty of a worker at its desk by the acts of the phase: its own partitions first, then one proposal to
/// each other one, with claims to the end where it is admitted.
pub fn work<
    C,
    W,
    P: Phase<C, W>,
    S: Fn(&mut W, u32, u32) -> Step,
    A: Fn(&mut W, u32) -> Proposal,
    L: Fn(&mut W, u32) -> bool,
>(context: &C, desk: &mut W, acts: &Acts<S, A, L>, share: Share) -> Worked
    requires table { (P.hold desk.old).table ≡ P.table context.now }
    requires acts { AreActs P.hold (P.table context.now) (P.terms context.now) (P.lens context.now) (P.follows context.now) (P.rests context.now) (P.meets context.now) (P.stops context.now) S.Fn A.Fn L.Fn acts.now.serve acts.now.propose acts.now.leave }
    requires few { AreFew (P.terms context.now) (P.lens context.now) }
    requires numbers { (share.worker ≡ (P.hold desk.old).view.worker) × (share.engines ≡ (P.terms context.now).engines) × (share.partitions ≡ (P.terms context.now).partitions) }
    requires may { MayWork (P.terms context.now) (P.lens context.now) (P.hold desk.old).view }
    requires rests { P.rests context.now desk.old (taken_by_seat (P.hold desk.old).view) }
    ensures follows { P.follows context.now desk.old desk.new }
    ensures table { (P.hold desk.new).table ≡ (P.hold desk.old).table }
    ensures worked { HasWorked (P.terms context.now) share.worker (result.is_through ≡ true) (P.hold desk.old).view (P.hold desk.new).view result.claims result.admitted }
    ensures few { (result.claims ≤ 2199023255552) × (result.admitted ≤ 64) }
    ensures rests { result.is_through ≡ true → P.rests context.now desk.new (taken_by_seat (P.hold desk.new).view) }
    ensures stops { result.is_through ≡ false → P.stops context.now desk.new (taken_by_seat (P.hold desk.new).view) }
{
    let own = own_partitions::<C, W, P, S, A, L>(context, desk, acts, share);
    if !own.is_through {
        return own;
    }
    let others = other_partitions::<C, W, P, S, A, L>(context, desk, acts, share);
    Worked {
        is_through: others.is_through,
        claims: own.claims + others.claims,
        admitted: others.admitted,
    }
}

/// Claims at each of the worker's own partitions to the end.
fn own_partitions<
    C,
    W,
    P: Phase<C, W>,
    S: Fn(&mut W, u32, u32) -> Step,
    A: Fn(&mut W, u32) -> Proposal,
    L: Fn(&mut W, u32) -> bool,
>(context: &C, desk: &mut W, acts: &Acts<S, A, L>, share: Share) -> Worked
    requires table { (P.hold desk.old).table ≡ P.table context.now }
    requires acts { AreActs P.hold (P.table context.now) (P.terms context.now) (P.lens context.now) (P.follows context.now) (P.rests context.now) (P.meets context.now) (P.stops context.now) S.Fn A.Fn L.Fn acts.now.serve acts.now.propose acts.now.leave }
    requires few { AreFew (P.terms context.now) (P.lens context.now) }
    requires numbers { (share.worker ≡ (P.hold desk.old).view.worker) × (share.engines ≡ (P.terms context.now).engines) × (share.partitions ≡ (P.terms context.now).partitions) }
    requires may { MayWork (P.terms context.now) (P.lens context.now) (P.hold desk.old).view }
    requires rests { P.rests context.now desk.old (taken_by_seat (P.hold desk.old).view) }
    ensures follows { P.follows context.now desk.old desk.new }
    ensures table { ((P.hold desk.new).table ≡ (P.hold desk.old).table) × ((P.hold desk.new).view.worker ≡ (P.hold desk.old).view.worker) }
    ensures piece { IsPiece (OwnTo (P.terms context.now) share.worker share.partitions) (P.hold desk.old).view (P.hold desk.new).view result }
    ensures few { (result.claims ≤ 1099511627776) × (result.admitted ≡ 0) }
    ensures others { result.is_through ≡ true → (p : ℕ) → p < share.partitions → p % share.engines ≢ share.worker → MayWorkAt (P.terms context.now) (P.lens context.now) (P.hold desk.new).view p }
    ensures rests { result.is_through ≡ true → P.rests context.now desk.new (taken_by_seat (P.hold desk.new).view) }
    ensures stops { result.is_through ≡ false → P.stops context.now desk.new (taken_by_seat (P.hold desk.new).view) }
{
    let mut claims = 0;
    'own: for partition in 0..share.partitions {
        if partition % share.engines != share.worker {
            continue;
        }
        let worked = drain_partition::<C, W, P, S, A, L>(
            context,
            desk,
            acts,
            partition,
            share.engines,
        );
        claims += worked.claims;
        if !worked.is_through {
            return Worked {
                is_through: false,
                claims,
                admitted: 0,
            };
        }
    }
    Worked {
        is_through: true,
        claims,
        admitted: 0,
    }
}

/// Proposes help to each partition that is not the worker's own.
fn other_partitions<
    C,
    W,
    P: Phase<C, W>,
    S: Fn(&mut W, u32, u32) -> Step,
    A: Fn(&mut W, u32) -> Proposal,
    L: Fn(&mut W, u32) -> bool,
>(context: &C, desk: &mut W, acts: &Acts<S, A, L>, share: Share) -> Worked
    requires table { (P.hold desk.old).table ≡ P.table context.now }
    requires acts { AreActs P.hold (P.table context.now) (P.terms context.now) (P.lens context.now) (P.follows context.now) (P.rests context.now) (P.meets context.now) (P.stops context.now) S.Fn A.Fn L.Fn acts.now.serve acts.now.propose acts.now.leave }
    requires few { AreFew (P.terms context.now) (P.lens context.now) }
    requires numbers { (share.worker ≡ (P.hold desk.old).view.worker) × (share.engines ≡ (P.terms context.now).engines) × (share.partitions ≡ (P.terms context.now).partitions) }
    requires may { (p : ℕ) → p < share.partitions → p % share.engines ≢ share.worker → MayWorkAt (P.terms context.now) (P.lens context.now) (P.hold desk.old).view p }
    requires rests { P.rests context.now desk.old (taken_by_seat (P.hold desk.old).view) }
    ensures follows { P.follows context.now desk.old desk.new }
    ensures table { (P.hold desk.new).table ≡ (P.hold desk.old).table }
    ensures piece { IsPiece (OthersTo (P.terms context.now) share.worker share.partitions) (P.hold desk.old).view (P.hold desk.new).view result }
    ensures few { (result.claims ≤ 1099511627776) × (result.admitted ≤ 64) }
    ensures rests { result.is_through ≡ true → P.rests context.now desk.new (taken_by_seat (P.hold desk.new).view) }
    ensures stops { result.is_through ≡ false → P.stops context.now desk.new (taken_by_seat (P.hold desk.new).view) }
{
    let mut claims = 0;
    let mut admitted = 0;
    'others: for partition in 0..share.partitions {
        if partition % share.engines == share.worker {
            continue;
        }
        let worked = help::<C, W, P, S, A, L>(context, desk, acts, partition, share.engines);
        claims += worked.claims;
        admitted += worked.admitted;
        if !worked.is_through {
            return Worked {
                is_through: false,
                claims,
                admitted,
            };
        }
    }
    Worked {
        is_through: true,
        claims,
        admitted,
    }
}

/// Proposes help to a partition, and where that is admitted, claims there to the end.
fn help<
    C,
    W,
    P: Phase<C, W>,
    S: Fn(&mut W, u32, u32) -> Step,
    A: Fn(&mut W, u32) -> Proposal,
    L: Fn(&mut W, u32) -> bool,
>(context: &C, desk: &mut W, acts: &Acts<S, A, L>, partition: u32, engines: u32) -> Worked
    requires table { (P.hold desk.old).table ≡ P.table context.now }
    requires acts { AreActs P.hold (P.table context.now) (P.terms context.now) (P.lens context.now) (P.follows context.now) (P.rests context.now) (P.meets context.now) (P.stops context.now) S.Fn A.Fn L.Fn acts.now.serve acts.now.propose acts.now.leave }
    requires few { AreFew (P.terms context.now) (P.lens context.now) }
    requires numbers { (partition < (P.terms context.now).partitions) × (engines ≡ (P.terms context.now).engines) }
    requires other { partition % engines ≢ (P.hold desk.old).view.worker }
    requires may { MayWorkAt (P.terms context.now) (P.lens context.now) (P.hold desk.old).view partition }
    requires rests { P.rests context.now desk.old (taken_by_seat (P.hold desk.old).view) }
    ensures follows { P.follows context.now desk.old desk.new }
    ensures table { (P.hold desk.new).table ≡ (P.hold desk.old).table }
    ensures piece { IsPiece (HelpsAt (P.terms context.now) partition) (P.hold desk.old).view (P.hold desk.new).view result }
    ensures few { (result.claims ≤ 17179869184) × (result.admitted ≤ 1) }
    ensures rests { result.is_through ≡ true → P.rests context.now desk.new (taken_by_seat (P.hold desk.new).view) }
    ensures stops { result.is_through ≡ false → P.stops context.now desk.new (taken_by_seat (P.hold desk.new).view) }
{
    match propose_help::<C, W, P, S, A, L>(context, desk, acts, partition) {
        Proposal::Admitted => {
            let worked = drain_partition::<C, W, P, S, A, L>(
                context, desk, acts, partition, engines,
            );
            Worked {
                is_through: worked.is_through,
                claims: worked.claims,
                admitted: 1,
            }
        }
        Proposal::Refused { .. } => Worked {
            is_through: true,
            claims: 0,
            admitted: 0,
        },
        Proposal::Contended { .. } => Worked {
            is_through: true,
            claims: 0,
            admitted: 0,
        },
    }
}

/// Claims at a partition on each engine until no chunk is left, and leaves it.
fn drain_partition<
    C,
    W,
    P: Phase<C, W>,
    S: Fn(&mut W, u32, u32) -> Step,
    A: Fn(&mut W, u32) -> Proposal,
    L: Fn(&mut W, u32) -> bool,
>(context: &C, desk: &mut W, acts: &Acts<S, A, L>, partition: u32, engines: u32) -> Worked
    requires table { (P.hold desk.old).table ≡ P.table context.now }
    requires acts { AreActs P.hold (P.table context.now) (P.terms context.now) (P.lens context.now) (P.follows context.now) (P.rests context.now) (P.meets context.now) (P.stops context.now) S.Fn A.Fn L.Fn acts.now.serve acts.now.propose acts.now.leave }
    requires few { AreFew (P.terms context.now) (P.lens context.now) }
    requires numbers { (partition < (P.terms context.now).partitions) × (engines ≡ (P.terms context.now).engines) }
    requires ready { (e : ℕ) → e < engines → IsReady (P.hold desk.old).view (cursor_of e partition) (P.lens context.now (cursor_of e partition)) }
    requires fresh { NoneOf partition (taken_by_seat (P.hold desk.old).view) }
    requires rests { P.rests context.now desk.old (taken_by_seat (P.hold desk.old).view) }
    ensures follows { P.follows context.now desk.old desk.new }
    ensures table { (P.hold desk.new).table ≡ (P.hold desk.old).table }
    ensures piece { IsPiece (DrainsTo partition engines) (P.hold desk.old).view (P.hold desk.new).view result }
    ensures few { (result.claims ≤ 17179869184) × (result.admitted ≡ 0) }
    ensures rests { result.is_through ≡ true → P.rests context.now desk.new (taken_by_seat (P.hold desk.new).view) }
    ensures stops { result.is_through ≡ false → P.stops context.now desk.new (taken_by_seat (P.hold desk.new).view) }
{
    let worked = drain_engines::<C, W, P, S, A, L>(context, desk, acts, partition, engines);
    if !worked.is_through {
        return worked;
    }
    let is_through = leave_partition::<C, W, P, S, A, L>(context, desk, acts, partition);
    Worked {
        is_through,
        claims: worked.claims,
        admitted: 0,
    }
}

/// Claims at a partition on each engine until no chunk is left.
fn drain_engines<
    C,
    W,
    P: Phase<C, W>,
    S: Fn(&mut W, u32, u32) -> Step,
    A: Fn(&mut W, u32) -> Proposal,
    L: Fn(&mut W, u32) -> bool,
>(context: &C, desk: &mut W, acts: &Acts<S, A, L>, partition: u32, engines: u32) -> Worked
    requires table { (P.hold desk.old).table ≡ P.table context.now }
    requires acts { AreActs P.hold (P.table context.now) (P.terms context.now) (P.lens context.now) (P.follows context.now) (P.rests context.now) (P.meets context.now) (P.stops context.now) S.Fn A.Fn L.Fn acts.now.serve acts.now.propose acts.now.leave }
    requires few { AreFew (P.terms context.now) (P.lens context.now) }
    requires numbers { (partition < (P.terms context.now).partitions) × (engines ≡ (P.terms context.now).engines) }
    requires ready { (e : ℕ) → e < engines → IsReady (P.hold desk.old).view (cursor_of e partition) (P.lens context.now (cursor_of e partition)) }
    requires meets { P.meets context.now desk.old partition (taken_by_seat (P.hold desk.old).view) }
    ensures follows { P.follows context.now desk.old desk.new }
    ensures table { (P.hold desk.new).table ≡ (P.hold desk.old).table }
    ensures piece { IsPiece (DrainsTo partition engines) (P.hold desk.old).view (P.hold desk.new).view result }
    ensures few { (result.claims ≤ 17179869184) × (result.admitted ≡ 0) }
    ensures meets { result.is_through ≡ true → P.meets context.now desk.new partition (taken_by_seat (P.hold desk.new).view) }
    ensures stops { result.is_through ≡ false → P.stops context.now desk.new (taken_by_seat (P.hold desk.new).view) }
{
    let mut claims = 0;
    'engines: for engine in 0..engines {
        let worked = drain_cursor::<C, W, P, S, A, L>(context, desk, acts, engine, partition);
        claims += worked.claims;
        if !worked.is_through {
            return Worked {
                is_through: false,
                claims,
                admitted: 0,
            };
        }
    }
    Worked {
        is_through: true,
        claims,
        admitted: 0,
    }
}

/// Claims at a partition on one engine until no chunk is left.
fn drain_cursor<
    C,
    W,
    P: Phase<C, W>,
    S: Fn(&mut W, u32, u32) -> Step,
    A: Fn(&mut W, u32) -> Proposal,
    L: Fn(&mut W, u32) -> bool,
>(context: &C, desk: &mut W, acts: &Acts<S, A, L>, engine: u32, partition: u32) -> Worked
    requires table { (P.hold desk.old).table ≡ P.table context.now }
    requires acts { AreActs P.hold (P.table context.now) (P.terms context.now) (P.lens context.now) (P.follows context.now) (P.rests context.now) (P.meets context.now) (P.stops context.now) S.Fn A.Fn L.Fn acts.now.serve acts.now.propose acts.now.leave }
    requires few { AreFew (P.terms context.now) (P.lens context.now) }
    requires ranges { (engine < (P.terms context.now).engines) × (partition < (P.terms context.now).partitions) }
    requires ready { IsReady (P.hold desk.old).view (cursor_of engine partition) (P.lens context.now (cursor_of engine partition)) }
    requires meets { P.meets context.now desk.old partition (taken_by_seat (P.hold desk.old).view) }
    ensures follows { P.follows context.now desk.old desk.new }
    ensures table { (P.hold desk.new).table ≡ (P.hold desk.old).table }
    ensures piece { IsPiece (DrainsCursor (cursor_of engine partition)) (P.hold desk.old).view (P.hold desk.new).view result }
    ensures few { (result.claims ≤ 2147483648) × (result.admitted ≡ 0) }
    ensures meets { result.is_through ≡ true → P.meets context.now desk.new partition (taken_by_seat (P.hold desk.new).view) }
    ensures stops { result.is_through ≡ false → P.stops context.now desk.new (taken_by_seat (P.hold desk.new).view) }
{
    let mut claims = 0;
    'chunks: loop {
        match serve_chunk::<C, W, P, S, A, L>(context, desk, acts, engine, partition) {
            Step::Took => claims += 1,
            Step::Exhausted => {
                return Worked {
                    is_through: true,
                    claims,
                    admitted: 0,
                };
            }
            Step::Stopped => {
                return Worked {
                    is_through: false,
                    claims: claims + 1,
                    admitted: 0,
                };
            }
        }
    }
}

/// Claims one chunk, and works on it.
fn serve_chunk<
    C,
    W,
    P: Phase<C, W>,
    S: Fn(&mut W, u32, u32) -> Step,
    A: Fn(&mut W, u32) -> Proposal,
    L: Fn(&mut W, u32) -> bool,
>(context: &C, desk: &mut W, acts: &Acts<S, A, L>, engine: u32, partition: u32) -> Step
    requires acts { AreActs P.hold (P.table context.now) (P.terms context.now) (P.lens context.now) (P.follows context.now) (P.rests context.now) (P.meets context.now) (P.stops context.now) S.Fn A.Fn L.Fn acts.now.serve acts.now.propose acts.now.leave }
    requires may { MayServe P.hold (P.table context.now) (P.terms context.now) (P.lens context.now) (P.follows context.now) (P.rests context.now) (P.meets context.now) (P.stops context.now) desk.old engine partition }
    ensures { HasServed P.hold (P.table context.now) (P.terms context.now) (P.lens context.now) (P.follows context.now) (P.rests context.now) (P.meets context.now) (P.stops context.now) desk.old desk.new engine partition result }
{
    let _context = context;
    (acts.serve)(desk, engine, partition)
}

/// Proposes help to a partition.
fn propose_help<
    C,
    W,
    P: Phase<C, W>,
    S: Fn(&mut W, u32, u32) -> Step,
    A: Fn(&mut W, u32) -> Proposal,
    L: Fn(&mut W, u32) -> bool,
>(context: &C, desk: &mut W, acts: &Acts<S, A, L>, partition: u32) -> Proposal
    requires acts { AreActs P.hold (P.table context.now) (P.terms context.now) (P.lens context.now) (P.follows context.now) (P.rests context.now) (P.meets context.now) (P.stops context.now) S.Fn A.Fn L.Fn acts.now.serve acts.now.propose acts.now.leave }
    requires may { MayPropose P.hold (P.table context.now) (P.terms context.now) (P.lens context.now) (P.follows context.now) (P.rests context.now) (P.meets context.now) (P.stops context.now) desk.old partition }
    ensures { HasProposed P.hold (P.table context.now) (P.terms context.now) (P.lens context.now) (P.follows context.now) (P.rests context.now) (P.meets context.now) (P.stops context.now) desk.old desk.new partition result }
{
    let _context = context;
    (acts.propose)(desk, partition)
}

/// Leaves a partition.
fn leave_partition<
    C,
    W,
    P: Phase<C, W>,
    S: Fn(&mut W, u32, u32) -> Step,
    A: Fn(&mut W, u32) -> Proposal,
    L: Fn(&mut W, u32) -> bool,
>(context: &C, desk: &mut W, acts: &Acts<S, A, L>, partition: u32) -> bool
    requires acts { AreActs P.hold (P.table context.now) (P.terms context.now) (P.lens context.now) (P.follows context.now) (P.rests context.now) (P.meets context.now) (P.stops context.now) S.Fn A.Fn L.Fn acts.now.serve acts.now.propose acts.now.leave }
    requires may { MayLeave P.hold (P.table context.now) (P.terms context.now) (P.lens context.now) (P.follows context.now) (P.rests context.now) (P.meets context.now) (P.stops context.now) desk.old partition }
    ensures { HasLeft P.hold (P.table context.now) (P.terms context.now) (P.lens context.now) (P.follows context.now) (P.rests context.now) (P.meets context.now) (P.stops context.now) desk.old desk.new partition result }
{
    let _context = context;
    (acts.leave)(desk, partition)
}
