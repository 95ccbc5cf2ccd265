//! Calls that fail.
ghost use Rattle.std.specs.Prelude.{◌≡◌};
ghost use Rattle.mem_devices.specs.MemDisk.{disk_state};

use mem_devices::{MemDisk, MemMeter};
use std::alloc::Global;
use std::process::Abort;

/// What is called: a device by its write, cut or sync, or a meter by a read through it.
#[derive(Clone, Copy, PartialEq, Eq, Debug)]
pub(crate) enum Called {
    /// The meter of a worker.
    Meter,
    /// The values device of an engine.
    Values,
    /// The lane of a worker, on an engine.
    Lane,
    /// The device on which a worker's sums are spilled.
    Spill,
}

/// The call with this number, from 1, fails. `worker` is 0 of all but lanes and meters, and `engine` is 0 of meters; a
/// spill is numbered by its engine, which is that of its worker.
#[derive(Clone, Copy, PartialEq, Eq, Debug)]
pub(crate) struct Fault {
    pub called: Called,
    pub worker: u32,
    pub engine: u32,
    pub number: u64,
}

impl Fault {
    /// No call has number 0.
    pub(crate) const NONE: Fault = Fault {
        called: Called::Meter,
        worker: 0,
        engine: 0,
        number: 0,
    };

    /// The number of the call that fails of this device or meter; 0 where none does.
    fn number_at(&self, called: Called, worker: u32, engine: u32) -> u64 {
        let is_here = self.called == called && self.worker == worker && self.engine == engine;
        if is_here { self.number } else { 0 }
    }

    /// An empty device.
    pub(crate) fn disk(
        &self,
        rt: &impl Abort,
        alloc: Global,
        called: Called,
        worker: u32,
        engine: u32,
    ) -> MemDisk
        ensures { (disk_state result).beat ≡ 0 }
    {
        let fails = [self.number_at(called, worker, engine)];
        MemDisk::new(alloc, &[], &fails).expect(rt, "a device")
    }

    /// The meter of a worker.
    pub(crate) fn meter(&self, rt: &impl Abort, alloc: Global, worker: u32) -> MemMeter {
        let fails = [self.number_at(Called::Meter, worker, 0)];
        MemMeter::new(alloc, &fails).expect(rt, "a meter")
    }
}
