// A sink in memory.
ghost use Rattle.std.specs.Prelude.{◌≡◌, ◌<◌, ◌≤◌, [], Some, length, take, min, IfOk, IsOk, OnErr, IsTrue, IsErr, is_ok};
ghost use Rattle.ports.specs.Faults.{HasCause};
ghost use Rattle.ports.specs.Sink.{Appends};
ghost use Rattle.mem_devices.specs.Plan.{new_plan, next_call_fails, after_answer};
ghost use Rattle.mem_devices.specs.Sink.{SinkState};

use crate::plan::FaultPlan;
use ports::{Failed, Memory, Sink};
use std::alloc::Global;
use std::marker::Model;

/// A sink that keeps what is written, takes at most so many bytes a call, and of which some calls fail.
#[derive(Drop)]
pub struct MemSink {
    bytes: Vec<u8>,
    most: usize,
    plan: FaultPlan,
}

impl Model for MemSink {
    ghost Value = { SinkState };

    ghost view = { λ s. record { written = s.bytes.items; most = s.most; plan = s.plan } };

    ghost invariant = { λ s. 0 < s.most };
}

impl MemSink {
    /// An empty sink. A call takes at most `most` bytes, and the calls whose numbers, from 1, are in `fails` fail. A
    /// write that finds no memory fails too.
    pub fn new(alloc: Global, most: usize, fails: &[u64]) -> Result<Self, Memory>
        requires { 0 < most }
        ensures { IfOk result (λ sink. sink ≡ record { written = []; most = most; plan = new_plan fails.now }) }
    {
        Ok(MemSink {
            bytes: Vec::new(alloc),
            most,
            plan: FaultPlan::new(alloc, fails)?,
        })
    }

    /// The bytes written.
    pub fn written(&self) -> &[u8]
        ensures { result.now ≡ self.now.written }
    {
        &self.bytes
    }
}

impl Sink for MemSink {
    ghost written = { λ s. Some s.written };

    ghost faults = { λ s. s.plan.faults };

    fn write(&mut self, piece: &[u8]) -> Result<usize, Failed>
        ensures within { IfOk result (λ count. count ≤ length piece.now) }
        ensures some { 0 < length piece.now → IfOk result (λ count. 0 < count) }
        ensures empty { length piece.now ≡ 0 → IsOk result }
        ensures appended { IfOk result (λ count. Appends (take count piece.now) self.old.written self.new.written) }
        ensures kept { OnErr result (self.new.written ≡ self.old.written) }
        ensures cause { HasCause self.old.plan.faults self.new.plan.faults result }

        // A call that is to fail does, and one that finds no memory. A write of nothing is not counted as a call.
        ensures fails { 0 < length piece.now → IsTrue (next_call_fails self.old.plan) → IsErr result }
        ensures count { IfOk result (λ count. count ≡ min (length piece.now) self.old.most) }
        ensures plan { 0 < length piece.now → self.new.plan ≡ after_answer (is_ok result) self.old.plan }
        ensures uncounted { length piece.now ≡ 0 → self.new ≡ self.old }
        ensures most { self.new.most ≡ self.old.most }
    {
        if piece.is_empty() {
            return Ok(0);
        }
        let count = piece.len().min(self.most);
        let fails = self.plan.next_fails();
        let written = !fails && self.bytes.extend_from_slice(&piece[..count]).is_ok();
        self.plan.answer(written)?;
        Ok(count)
    }
}
