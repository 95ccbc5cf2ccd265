// Meters in memory.
ghost use Rattle.std.specs.Prelude.{◌≡◌, IfOk};
ghost use Rattle.mem_devices.specs.Plan.{Plan, new_plan};

use crate::plan::FaultPlan;
use ports::{Memory, Meter};
use std::alloc::Global;
use std::marker::Model;

/// A meter of which some reads fail.
#[derive(Drop)]
pub struct MemMeter {
    pub(crate) plan: FaultPlan,
}

impl Model for MemMeter {
    ghost Value = { Plan };

    ghost view = { λ meter. meter.plan };
}

impl MemMeter {
    /// A meter of which the reads with these numbers, from 1, fail.
    pub fn new(alloc: Global, fails: &[u64]) -> Result<Self, Memory>
        ensures { IfOk result (λ meter. meter ≡ new_plan fails.now) }
    {
        Ok(MemMeter {
            plan: FaultPlan::new(alloc, fails)?,
        })
    }
}

impl Meter for MemMeter {
    ghost faults = { λ meter. meter.faults };
}

/// A meter of which no read fails.
#[derive(Drop)]
pub struct SureMeter;

impl SureMeter {
    pub fn new() -> Self {
        SureMeter
    }
}

impl Meter for SureMeter {
    ghost faults = { λ _. 0 };
}
