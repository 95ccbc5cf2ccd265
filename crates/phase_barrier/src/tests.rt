ghost use Rattle.std.specs.Prelude.{◌≡◌, ℕ, ◌<◌, length, slice_index_or};

use super::*;
use engine_gate::{MeetGate, OpenGate};
use ports::Gate;
use std::alloc::{AllocError, Global};
use std::test::*;

#[derive(Drop)]
struct Desk {
    worker: u32,
    calls: u32,
}

#[derive(Drop)]
struct Context<'a, G: Gate> {
    gate: &'a G,
    step: u32,
}

/// One call at a desk.
fn call_once<G: Gate>(context: &Context<G>, desk: &mut Desk)
    ensures worker { desk.new.worker ≡ desk.old.worker }
{
    context.gate.pass(desk.worker, 0);
    desk.calls = desk.calls.wrapping_add(context.step);
}

/// The work on desks under a context that has references in it.
fn call_all<R: Threads + Sync, G: Gate + Sync>(rt: &R, context: &Context<G>, desks: &mut [Desk])
    ensures workers { (w : ℕ) (d : Desk) → w < length desks.old → (slice_index_or desks.new w d).worker ≡ (slice_index_or desks.old w d).worker }
{
    let work = |_: &(), desk: &mut Desk|
        ensures { desk.exit.now.worker ≡ desk.entry.now.worker }
    { call_once(context, desk) };
    fork_all(rt, &(), desks, &work);
}

fn desks(alloc: Global, count: u32) -> Result<Vec<Desk>, AllocError> {
    let mut desks = Vec::new(alloc);
    for worker in 0..count {
        desks.push(Desk { worker, calls: 0 })?;
    }
    Ok(desks)
}

#[test]
fn each_of_eight_desks_is_worked_on_once(rt: HostRuntime) -> Result<(), Fail> {
    let mut desks = desks(rt.alloc(), 8)?;
    let gate = OpenGate;
    let context = Context {
        gate: &gate,
        step: 1,
    };
    call_all(&rt, &context, desks.as_mut_slice());
    for (worker, desk) in desks.iter().enumerate() {
        assert!(&rt;
            desk.calls == 1 && desk.worker as usize == worker,
            "desk {worker}"
        );
    }
    Ok(())
}

#[test]
fn two_desks_meet(rt: HostRuntime) -> Result<(), Fail> {
    let mut desks = desks(rt.alloc(), 2)?;
    let gate = MeetGate::new(2, 10_000_000);
    let context = Context {
        gate: &gate,
        step: 3,
    };
    call_all(&rt, &context, desks.as_mut_slice());
    assert!(&rt; !gate.missed() && desks.iter().all(|desk| desk.calls == 3));
    Ok(())
}

#[test]
fn a_context_without_references_is_passed_as_it_is(rt: HostRuntime) -> Result<(), Fail> {
    let mut desks = desks(rt.alloc(), 1)?;
    fork_all(
        &rt,
        &5,
        desks.as_mut_slice(),
        &|step: &u32, desk: &mut Desk| desk.calls = *step,
    );
    fork_all(
        &rt,
        &7,
        &mut [],
        &|step: &u32, desk: &mut Desk| desk.calls = *step,
    );
    assert!(&rt; desks.iter().all(|desk| desk.calls == 5));
    Ok(())
}
