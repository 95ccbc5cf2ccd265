// Sources in memory.
ghost use Rattle.std.specs.Prelude.{◌≡◌, ℕ, ◌<◌, ◌≤◌, List, Some, length, drop, min, IfOk, IsOk, OnErr, IsErr, is_ok, IsTrue, ◌↔◌};
ghost use Rattle.ports.specs.Faults.{HasCause};
ghost use Rattle.ports.specs.Source.{Moved};
ghost use Rattle.mem_devices.specs.Plan.{after_answer, new_plan, next_call_fails};
ghost use Rattle.mem_devices.specs.Source.{SourceState};

use crate::plan::FaultPlan;
use ports::{Failed, Memory, Source};
use std::alloc::Global;
use std::marker::Model;

/// A source of some bytes, which gives at most so many bytes a call and of which some calls fail.
#[derive(Drop)]
pub struct MemSource {
    bytes: SureSource,
    most: usize,
    plan: FaultPlan,
}

impl Model for MemSource {
    ghost Value = { SourceState };

    ghost view = { λ s. record { left = s.bytes; most = s.most; plan = s.plan } };

    ghost invariant = { λ s. 0 < s.most };
}

impl MemSource {
    /// A source of these bytes. A call gives at most `most` bytes, and the calls whose numbers, from 1, are in `fails`
    /// fail.
    pub fn new(alloc: Global, bytes: &[u8], most: usize, fails: &[u64]) -> Result<Self, Memory>
        requires { 0 < most }
        ensures { IfOk result (λ source. source ≡ record { left = bytes.now; most = most; plan = new_plan fails.now }) }
    {
        Ok(MemSource {
            bytes: SureSource::new(alloc, bytes)?,
            most,
            plan: FaultPlan::new(alloc, fails)?,
        })
    }
}

impl Source for MemSource {
    ghost left = { λ s. Some s.left };

    ghost faults = { λ s. s.plan.faults };

    fn read(&mut self, into: &mut [u8]) -> Result<usize, Failed>
        ensures within { IfOk result (λ count. count ≤ length into.new) }
        ensures moved { IfOk result (λ count. Moved count into.new self.old.left self.new.left) }
        ensures kept { OnErr result (self.new.left ≡ self.old.left) }
        ensures cause { HasCause self.old.plan.faults self.new.plan.faults result }

        // Which calls fail, and how many bytes the others give.
        ensures fails { IsErr result ↔ IsTrue (next_call_fails self.old.plan) }
        ensures count { IfOk result (λ count. count ≡ min (min (length into.new) self.old.most) (length self.old.left)) }
        ensures plan { self.new.plan ≡ after_answer (is_ok result) self.old.plan }
        ensures most { self.new.most ≡ self.old.most }
    {
        self.plan.call()?;
        let room = into.len().min(self.most);
        Ok(self.bytes.give(&mut into[..room]))
    }
}

/// A source of some bytes that never fails.
#[derive(Drop)]
pub struct SureSource {
    bytes: Vec<u8>,
    at: usize,
}

impl Model for SureSource {
    ghost Value = { List ℕ };

    ghost view = { λ s. drop s.at s.bytes.items };

    ghost invariant = { λ s. s.at ≤ length s.bytes.items };
}

impl SureSource {
    /// A source of these bytes.
    pub fn new(alloc: Global, bytes: &[u8]) -> Result<Self, Memory>
        ensures { IfOk result (λ source. source ≡ bytes.now) }
    {
        Ok(SureSource {
            bytes: Vec::from_slice(alloc, bytes)?,
            at: 0,
        })
    }

    // Moves as many bytes as there is room for and are left.
    fn give(&mut self, into: &mut [u8]) -> usize
        ensures count { result ≡ min (length into.new) (length self.old) }
        ensures moved { Moved result into.new self.old self.new }
    {
        let count = into.len().min(self.bytes.len() - self.at);
        into[..count].copy_from_slice(&self.bytes[self.at..self.at + count]);
        self.at += count;
        count
    }
}

impl Source for SureSource {
    ghost left = { λ s. Some s };

    ghost faults = { λ _. 0 };

    fn read(&mut self, into: &mut [u8]) -> Result<usize, Failed>
        ensures within { IfOk result (λ count. count ≤ length into.new) }
        ensures moved { IfOk result (λ count. Moved count into.new self.old self.new) }
        ensures kept { OnErr result (self.new ≡ self.old) }
        ensures cause { HasCause 0 0 result }

        // It never fails, and gives all that there is room for.
        ensures sure { IsOk result }
        ensures count { IfOk result (λ count. count ≡ min (length into.new) (length self.old)) }
    {
        Ok(self.give(into))
    }
}
