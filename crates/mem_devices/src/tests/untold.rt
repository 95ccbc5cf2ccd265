// A disk that tells nothing of what it holds, as one over a real file.
use crate::{MemDisk, MemMeter};
use ports::{Beat, Disk, Failed};

#[derive(Drop)]
pub struct UntoldDisk {
    pub disk: MemDisk,
}

impl Disk for UntoldDisk {
    ghost use Rattle.ports.specs.Untold.{untold_state};
    ghost use Rattle.ports.proofs.Untold.{untold_is_disk};
    ghost use Rattle.mem_devices.specs.MemDisk.{disk_state};

    type M = MemMeter;

    ghost state = { λ d. untold_state (disk_state d.disk).size (disk_state d.disk).beat (disk_state d.disk).faults };

    fn size(&self) -> u64 {
        self.disk.size()
    }

    fn read_at(&self, meter: &mut MemMeter, at: u64, into: &mut [u8]) -> Result<(), Failed> {
        self.disk.read_at(meter, at, into)
    }

    fn write_at(&mut self, beat: &Beat, at: u64, piece: &[u8]) -> Result<(), Failed> {
        self.disk.write_at(beat, at, piece)
    }

    fn cut(&mut self, beat: &Beat, size: u64) -> Result<(), Failed> {
        self.disk.cut(beat, size)
    }

    fn sync(&mut self, beat: &Beat) -> Result<(), Failed> {
        self.disk.sync(beat)
    }

    ghost lawful = { λ d. untold_is_disk (disk_state d.disk).size (disk_state d.disk).beat (disk_state d.disk).faults };
}
