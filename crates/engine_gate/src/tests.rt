use super::*;
use ports::Gate;
use std::test::*;
use std::thread::join;

const TURNS: u64 = 50;

/// Comes to each of the turns, one after the other.
fn pass_each(gate: &impl Gate, worker: u32) {
    for turn in 0..TURNS {
        gate.pass(worker, turn);
    }
}

#[test]
fn one_worker_alone_goes_on_at_its_limit(rt: HostRuntime) -> Result<(), Fail> {
    let gate = MeetGate::new(2, 1000);
    gate.pass(0, 0);
    assert!(&rt; gate.missed());
    Ok(())
}

#[test]
fn two_workers_meet_at_each_turn(rt: HostRuntime) -> Result<(), Fail> {
    let gate = MeetGate::new(2, 10_000_000);
    join(&rt, || pass_each(&gate, 0), || pass_each(&gate, 1));
    assert!(&rt; !gate.missed());
    Ok(())
}

#[test]
fn gates_for_one_worker_hold_nobody(rt: HostRuntime) -> Result<(), Fail> {
    let gate = MeetGate::new(1, 1);
    gate.pass(0, 3);
    OpenGate.pass(0, 3);
    assert!(&rt; !gate.missed());
    Ok(())
}
