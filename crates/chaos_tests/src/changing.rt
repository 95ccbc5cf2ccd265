//! Devices that tell nothing of what they hold, one of which gives workers another byte from a turn on.
use mem_devices::{MemDisk, MemMeter};
use ports::{Beat, Disk, Failed, Gate, Meter};
use std::sync::atomic::{AtomicU64, Ordering};

/// From this turn on workers read another byte.
const LATER: u64 = 2;

/// What they read as the last byte.
const OTHER: u8 = 3;

/// A gate that shows the turn at which a worker came last.
#[derive(Drop)]
pub(crate) struct TurnGate<'a> {
    pub turn: &'a AtomicU64,
}

impl Gate for TurnGate<'_> {
    fn pass(&self, _worker: u32, turn: u64) {
        self.turn.store(turn, Ordering::SeqCst);
    }
}

/// A meter of which no read fails, and whether it is a worker's.
#[derive(Drop)]
pub(crate) struct KnownMeter {
    pub is_worker: bool,
    pub meter: MemMeter,
}

impl Meter for KnownMeter {
    ghost faults = { λ known. known.meter.faults };
}

/// A disk that tells nothing of what it holds, as one over a file.
#[derive(Drop)]
pub(crate) struct ChangingDisk<'a> {
    pub disk: MemDisk,
    pub changes: bool,
    pub turn: &'a AtomicU64,
}

impl ChangingDisk<'_> {
    /// Whether what stands is not what is read through this meter.
    fn is_changed(&self, meter: &KnownMeter) -> bool {
        self.changes && meter.is_worker && LATER <= self.turn.load(Ordering::SeqCst)
    }
}

impl Disk for ChangingDisk<'_> {
    ghost use Rattle.ports.specs.Untold.{untold_state};
    ghost use Rattle.ports.proofs.Untold.{untold_is_disk};
    ghost use Rattle.mem_devices.specs.MemDisk.{disk_state};

    type M = KnownMeter;

    ghost state = { λ d. untold_state (disk_state d.disk).size (disk_state d.disk).beat (disk_state d.disk).faults };

    fn size(&self) -> u64 {
        self.disk.size()
    }

    fn read_at(&self, meter: &mut KnownMeter, at: u64, into: &mut [u8]) -> Result<(), Failed> {
        self.disk.read_at(&mut meter.meter, at, into)?;
        if self.is_changed(meter) && at + into.len() as u64 == self.disk.size() {
            set_last(into);
        }
        Ok(())
    }

    fn write_at(&mut self, beat: &Beat, at: u64, piece: &[u8]) -> Result<(), Failed> {
        self.disk.write_at(beat, at, piece)
    }

    fn cut(&mut self, beat: &Beat, size: u64) -> Result<(), Failed> {
        self.disk.cut(beat, size)
    }

    fn sync(&mut self, beat: &Beat) -> Result<(), Failed> {
        self.disk.sync(beat)
    }

    ghost lawful = { λ d. untold_is_disk (disk_state d.disk).size (disk_state d.disk).beat (disk_state d.disk).faults };
}

fn set_last(bytes: &mut [u8]) {
    if let Some(last) = bytes.last_mut() {
        *last = OTHER;
    }
}
