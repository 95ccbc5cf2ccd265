//! The work of one worker in a gather phase.
ghost use Rattle.std.specs.Prelude.{◌≡◌, ◌≢◌, ℕ, ◌≤◌, Some, [], List};
ghost use Rattle.phase_model.specs.JobTerms.{terms_of};
ghost use Rattle.worker_duty.specs.Views.{taken_by_seat, MayWork, HasWorked};
ghost use Rattle.replica_merge.specs.Accumulators.{split_of};
ghost use Rattle.gather_phase.specs.Rooms.{IsRoom};
ghost use Rattle.gather_phase.specs.Phases.{adding_of, DeskRests, MayStopBy};
ghost use Rattle.store_reader.specs.Indexed.{IsServing, lens_of};
ghost use Rattle.gather_phase.specs.Gathered.{HasGathered, HasFaultCause};
ghost use Rattle.gather_phase.specs.Acting.{MayServeAt, HasServedAt, MayProposeAt, HasProposedAt, MayLeaveAt, HasLeftAt};

use crate::acts::{leave_partition, propose_help, serve_chunk};
use crate::desk::{GatherContext, GatherDesk};
use gather_laws::VertexProgram;
use ports::{Disk, Gate};
use steal_policy::Proposal;
use store_reader::Outcome;
use worker_duty::{Acts, Phase, Share, Step, work};

/// What the duty of a worker knows of a gather phase.
struct Gathering;

impl<'a, P: VertexProgram, D: Disk, G: Gate> Phase<GatherContext<'a, P, D, G>, GatherDesk<D>>
    for Gathering {
    ghost use Rattle.phase_model.specs.JobTerms.{terms_of};
    ghost use Rattle.gather_phase.specs.Phases.{GoesOn, DeskRests, DeskMeets, DeskStops};
    ghost use Rattle.store_reader.specs.Indexed.{lens_of};
    ghost use Rattle.gather_phase.specs.Acting.{hold_of};

    ghost hold = { hold_of };

    ghost table = { λ c. c.serving.table.now };

    ghost terms = { λ c. terms_of c.serving.job.now };

    ghost lens = { λ c. lens_of c.serving.index.now };

    ghost follows = { λ c. GoesOn D.state D.M.faults };

    ghost rests = { DeskRests P.rules D.state };

    ghost meets = { DeskMeets P.rules D.state };

    ghost stops = { DeskStops P.rules D.state };
}

/// Does the whole duty of a worker over chunks of updates, or of edges where they are counted, and leaves in the desk's
/// replicas, with its spill device, what it took. It takes no memory.
///
/// `outcome` is then `Done`, or `DiskFault`, or `Damaged` where a chunk of the index is none.
pub fn gather_work<P: VertexProgram, D: Disk, G: Gate + Sync>(
    context: &GatherContext<P, D, G>,
    desk: &mut GatherDesk<D>,
)
    requires serving { IsServing context.now.serving }
    requires table { desk.old.seat.table ≡ context.now.serving.table.now }
    requires worker { desk.old.worker ≡ desk.old.seat.view.worker }
    requires story { desk.old.seat.view.story ≡ [] }
    requires may { MayWork (terms_of context.now.serving.job.now) (lens_of context.now.serving.index.now) desk.old.seat.view }
    requires replicas { split_of desk.old.replicas ≡ context.now.serving.split.now }
    requires room { IsRoom context.now.serving.job.now desk.old.room }
    requires spill { ((D.state desk.old.spill).size ≡ 0) × ((D.state desk.old.spill).beat ≤ context.now.beat.now) }
    // On every answer.
    ensures table { desk.new.seat.table ≡ desk.old.seat.table }
    ensures worker { desk.new.worker ≡ desk.old.worker }
    ensures duty { HasWorked (terms_of context.now.serving.job.now) desk.old.worker (desk.new.outcome ≡ Outcome.Done) desk.old.seat.view desk.new.seat.view desk.new.claims desk.new.admitted }
    ensures few { (desk.new.claims ≤ 2199023255552) × (desk.new.admitted ≤ 64) }
    ensures replicas { split_of desk.new.replicas ≡ context.now.serving.split.now }
    ensures room { IsRoom context.now.serving.job.now desk.new.room }
    ensures beat { (D.state desk.new.spill).beat ≤ context.now.beat.now }
    ensures told { (bytes : List ℕ) → (D.state desk.old.spill).bytes ≡ Some bytes → (now : List ℕ) × ((D.state desk.new.spill).bytes ≡ Some now) }
    ensures cause { HasFaultCause D.state D.M.faults desk.old desk.new }
    ensures stopped { desk.new.outcome ≢ Outcome.Done → MayStopBy P.rules D.state context.now desk.new.outcome }
    // Where the worker is through.
    ensures gathered { desk.new.outcome ≡ Outcome.Done → HasGathered P.rules D.state context.now desk.new }
{
    context.gate.pass(desk.worker, context.epoch);
    begin(context, desk);
    let serve = |desk: &mut GatherDesk<D>, engine: u32, partition: u32| -> Step
        requires serving { IsServing context.now.serving }
        requires may { MayServeAt P.rules D.state D.M.faults context.now desk.old engine partition }
        ensures { HasServedAt P.rules D.state D.M.faults context.entry.now desk.old desk.new engine partition result }
    { serve_chunk(context, desk, engine, partition) };
    let propose = |desk: &mut GatherDesk<D>, partition: u32| -> Proposal
        requires serving { IsServing context.now.serving }
        requires may { MayProposeAt P.rules D.state D.M.faults context.now desk.old partition }
        ensures { HasProposedAt P.rules D.state D.M.faults context.entry.now desk.old desk.new partition result }
    { propose_help(context, desk, partition) };
    let leave = |desk: &mut GatherDesk<D>, partition: u32| -> bool
        requires serving { IsServing context.now.serving }
        requires may { MayLeaveAt P.rules D.state D.M.faults context.now desk.old partition }
        ensures { HasLeftAt P.rules D.state D.M.faults context.entry.now desk.old desk.new partition result }
    { leave_partition(context, desk, partition) };
    let acts = Acts {
        serve,
        propose,
        leave,
    };
    let split = context.serving.split;
    let share = Share {
        worker: desk.worker,
        engines: split.engines,
        partitions: split.parts,
    };
    let worked = work::<GatherContext<P, D, G>, GatherDesk<D>, Gathering, _, _, _>(
        context, desk, &acts, share,
    );
    desk.claims = worked.claims;
    desk.admitted = worked.admitted;
}

/// Makes a desk ready: nothing is gathered yet.
fn begin<P: VertexProgram, D: Disk, G: Gate>(
    context: &GatherContext<P, D, G>,
    desk: &mut GatherDesk<D>,
)
    requires story { desk.old.seat.view.story ≡ [] }
    requires replicas { split_of desk.old.replicas ≡ context.now.serving.split.now }
    requires room { IsRoom context.now.serving.job.now desk.old.room }
    requires spill { ((D.state desk.old.spill).size ≡ 0) × ((D.state desk.old.spill).beat ≤ context.now.beat.now) }
    ensures seat { (desk.new.seat ≡ desk.old.seat) × (desk.new.worker ≡ desk.old.worker) }
    ensures same { (desk.new.meter ≡ desk.old.meter) × (desk.new.spill ≡ desk.old.spill) }
    ensures rests { DeskRests P.rules D.state context.now desk.new (taken_by_seat desk.new.seat.view) }
{
    desk.replicas.reset(first_sum(context));
    desk.room.begun = None;
    desk.outcome = Outcome::Done;
}

/// The sum of nothing.
fn first_sum<P: VertexProgram, D: Disk, G: Gate>(context: &GatherContext<P, D, G>) -> u64
    ensures { result ≡ (adding_of P.rules D.state context.now).unit }
{
    if context.counting {
        0
    } else {
        context.program.unit()
    }
}
