// A disk in memory whose reads never fail.
ghost use Rattle.std.specs.Prelude.{◌≡◌, ◌+◌, ◌^◌, ◌<◌, ◌≤◌, length, IfSome, IsOk, OnOk};
ghost use Rattle.ports.specs.Bytes.{bytes_at};
ghost use Rattle.ports.specs.Disk.{Writes, Cuts, Syncs};
ghost use Rattle.ports.specs.Faults.{HasCause};

use crate::disk::MemDisk;
use crate::meter::SureMeter;
use ports::{Beat, Disk, Failed};

/// A disk in memory of which no read fails.
#[derive(Drop)]
pub struct SureReadDisk {
    disk: MemDisk,
}

impl SureReadDisk {
    ghost use Rattle.mem_devices.specs.SureReadDisk.{inner_disk};

    pub fn of(disk: MemDisk) -> Self
        ensures { inner_disk result ≡ disk }
    {
        SureReadDisk { disk }
    }
}

impl Disk for SureReadDisk {
    ghost use Rattle.mem_devices.specs.MemDisk.{MakesCall};
    ghost use Rattle.mem_devices.specs.Lawful.{recorded_is_disk};
    ghost use Rattle.mem_devices.specs.SureReadDisk.{inner_disk, sure_state};

    type M = SureMeter;

    ghost state = { sure_state };

    fn size(&self) -> u64 {
        self.disk.size()
    }

    fn read_at(&self, _meter: &mut SureMeter, at: u64, into: &mut [u8]) -> Result<(), Failed>
        requires { at + length into.old ≤ (sure_state self.now).size }
        ensures filled { OnOk result (IfSome (sure_state self.now).bytes (λ bytes. into.new ≡ bytes_at at (length into.old) bytes)) }
        ensures cause { HasCause 0 0 result }
        ensures sure { IsOk result }
    {
        self.disk.copy_at(at, into);
        Ok(())
    }

    fn write_at(&mut self, beat: &Beat, at: u64, piece: &[u8]) -> Result<(), Failed>
        requires place { at ≤ (sure_state self.old).size }
        requires end { at + length piece.now < 2 ^ 63 }
        requires beat { (sure_state self.old).beat ≤ beat.now }
        ensures writes { Writes beat.now at piece.now (sure_state self.old) (sure_state self.new) result }
        ensures makes { MakesCall beat.now (inner_disk self.old) (inner_disk self.new) result }
    {
        self.disk.write_at(beat, at, piece)
    }

    fn cut(&mut self, beat: &Beat, size: u64) -> Result<(), Failed>
        requires size { size ≤ (sure_state self.old).size }
        requires beat { (sure_state self.old).beat ≤ beat.now }
        ensures cuts { Cuts beat.now size (sure_state self.old) (sure_state self.new) result }
        ensures makes { MakesCall beat.now (inner_disk self.old) (inner_disk self.new) result }
    {
        self.disk.cut(beat, size)
    }

    fn sync(&mut self, beat: &Beat) -> Result<(), Failed>
        requires { (sure_state self.old).beat ≤ beat.now }
        ensures syncs { Syncs beat.now (sure_state self.old) (sure_state self.new) result }
        ensures makes { MakesCall beat.now (inner_disk self.old) (inner_disk self.new) result }
    {
        self.disk.sync(beat)
    }

    ghost lawful = { λ d. recorded_is_disk d.disk.history.first.items d.disk.history.bytes.items d.disk.history.calls.items d.disk.beat d.disk.plan.faults d.disk.history.replayed d.disk.in_order };
}
