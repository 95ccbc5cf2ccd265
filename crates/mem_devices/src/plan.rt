// Which calls of an object fail.
ghost use Rattle.std.specs.Prelude.{◌≡◌, IfOk, is_ok, not, if◌then◌else◌};
ghost use Rattle.ports.specs.Faults.{HasCause};
ghost use Rattle.mem_devices.specs.Plan.{Plan, new_plan, with_call, with_fault, after_answer, next_call_fails};

use ports::{Failed, Memory};
use std::alloc::Global;
use std::marker::Model;

/// The numbers of the calls that fail, how many calls were made, and how often one has failed.
#[derive(Drop)]
pub struct FaultPlan {
    fails: Vec<u64>,
    calls: u64,
    faults: u64,
}

impl Model for FaultPlan {
    ghost Value = { Plan };

    ghost view = { λ p. record { fails = p.fails.items; calls = p.calls; faults = p.faults } };
}

impl FaultPlan {
    pub fn new(alloc: Global, fails: &[u64]) -> Result<Self, Memory>
        ensures { IfOk result (λ plan. plan ≡ new_plan fails.now) }
    {
        Ok(FaultPlan {
            fails: Vec::from_slice(alloc, fails)?,
            calls: 0,
            faults: 0,
        })
    }

    /// Counts a call, and says whether it is to fail.
    pub fn next_fails(&mut self) -> bool
        ensures fails { result ≡ next_call_fails self.old }
        ensures after { self.new ≡ with_call self.old }
    {
        self.calls = self.calls.saturating_add(1);
        self.fails.contains(&self.calls)
    }

    /// Ends the call, and counts a fault where it did not succeed.
    pub fn answer(&mut self, succeeded: bool) -> Result<(), Failed>
        ensures same { is_ok result ≡ succeeded }
        ensures after { self.new ≡ (if succeeded then self.old else with_fault self.old) }
        ensures cause { HasCause self.old.faults self.new.faults result }
    {
        if succeeded {
            return Ok(());
        }
        self.faults = self.faults.saturating_add(1);
        Err(Failed)
    }

    /// A call that fails only where its number is among those that fail.
    pub fn call(&mut self) -> Result<(), Failed>
        ensures fails { is_ok result ≡ not (next_call_fails self.old) }
        ensures after { self.new ≡ after_answer (is_ok result) self.old }
        ensures cause { HasCause self.old.faults self.new.faults result }
    {
        let fails = self.next_fails();
        self.answer(!fails)
    }
}
