// The record of a disk in memory: the bytes at first, every call since, and what a read gives.
ghost use Rattle.std.specs.Prelude.{◌≡◌, ◌≤◌, ◌++◌, [], ◌∷◌, All, IfOk, OnOk, OnErr};
ghost use Rattle.std.specs.List.Sorted.{IsNonDecreasing};
ghost use Rattle.mem_devices.specs.Call.{after_call};
ghost use Rattle.mem_devices.specs.History.{after_calls, beats};

use crate::call::Call;
use std::alloc::{AllocError, Global};

#[derive(Drop)]
pub struct History {
    pub first: Vec<u8>,
    pub bytes: Vec<u8>,
    pub calls: Vec<Call>,
    ghost replayed: { bytes.items ≡ after_calls calls.items first.items },
    ghost rising: { IsNonDecreasing (beats calls.items) },
}

impl History {
    pub fn new(alloc: Global, bytes: &[u8]) -> Result<Self, AllocError>
        ensures first { IfOk result (λ history. history.first.items ≡ bytes.now) }
        ensures calls { IfOk result (λ history. history.calls.items ≡ []) }
    {
        Ok(History {
            first: Vec::from_slice(alloc, bytes)?,
            bytes: Vec::from_slice(alloc, bytes)?,
            calls: Vec::new(alloc),
        })
    }

    /// Makes a call and keeps it in the record. Where there is no memory, neither is done.
    pub fn add(&mut self, call: Call) -> Result<(), AllocError>
        requires { All (λ number. number ≤ call.beat) (beats self.old.calls.items) }
        ensures first { self.new.first.items ≡ self.old.first.items }
        ensures calls { OnOk result (self.new.calls.items ≡ self.old.calls.items ++ call ∷ []) }
        ensures bytes { OnOk result (self.new.bytes.items ≡ after_call call self.old.bytes.items) }
        ensures calls_stay { OnErr result (self.new.calls.items ≡ self.old.calls.items) }
        ensures bytes_stay { OnErr result (self.new.bytes.items ≡ self.old.bytes.items) }
    {
        keep(&mut self.calls, &mut self.bytes, call)
    }
}

// Makes a call and keeps it, or does neither.
fn keep(calls: &mut Vec<Call>, bytes: &mut Vec<u8>, call: Call) -> Result<(), AllocError>
    ensures calls { OnOk result (calls.new.items ≡ calls.old.items ++ call ∷ []) }
    ensures bytes { OnOk result (bytes.new.items ≡ after_call call bytes.old.items) }
    ensures calls_stay { OnErr result (calls.new.items ≡ calls.old.items) }
    ensures bytes_stay { OnErr result (bytes.new.items ≡ bytes.old.items) }
{
    calls.reserve(1)?;
    call.apply(bytes)?;
    Ok(calls.push(call)?)
}
