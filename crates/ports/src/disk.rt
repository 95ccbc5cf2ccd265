// Disks, and the meters that count the faults of their reads.
ghost use Rattle.std.specs.Prelude.{◌≡◌, ℕ, ◌+◌, ◌^◌, ◌<◌, ◌≤◌, length, OnOk, IfSome};
ghost use Rattle.ports.specs.Bytes.{bytes_at};
ghost use Rattle.ports.specs.Disk.{DiskState, IsDisk, Writes, Cuts, Syncs};
ghost use Rattle.ports.specs.Faults.{HasCause};

use crate::{Beat, Failed};

/// What counts the faults of reads. Only a read that fails raises it.
pub trait Meter: Send + Drop {
    /// How often a read through this meter has failed.
    ghost faults: { Self → ℕ };
}

/// A device of bytes. What a write, cut or sync has done may be lost or torn by a stop, until a later sync succeeds.
pub trait Disk: Send + Sync + Drop {
    type M: Meter;

    ghost state: { Self → DiskState };

    /// The number of bytes.
    fn size(&self) -> u64
        ensures { result ≡ (state self.now).size };

    /// Fills `into` with the bytes from `at` on.
    fn read_at(&self, meter: &mut Self::M, at: u64, into: &mut [u8]) -> Result<(), Failed>
        requires { at + length into.old ≤ (state self.now).size }
        ensures filled { OnOk result (IfSome (state self.now).bytes (λ bytes. into.new ≡ bytes_at at (length into.old) bytes)) }
        ensures cause { HasCause (Self.M.faults meter.old) (Self.M.faults meter.new) result };

    /// Writes `piece` over the bytes from `at` on, and past the end. After `Failed` it may have been done in part, and
    /// may yet be done by a stop.
    fn write_at(&mut self, beat: &Beat, at: u64, piece: &[u8]) -> Result<(), Failed>
        requires place { at ≤ (state self.old).size }
        requires end { at + length piece.now < 2 ^ 63 }
        requires beat { (state self.old).beat ≤ beat.now }
        ensures { Writes beat.now at piece.now (state self.old) (state self.new) result };

    /// Drops the bytes from `size` on. After `Failed` it may have been done in part, and may yet be done by a stop.
    fn cut(&mut self, beat: &Beat, size: u64) -> Result<(), Failed>
        requires size { size ≤ (state self.old).size }
        requires beat { (state self.old).beat ≤ beat.now }
        ensures { Cuts beat.now size (state self.old) (state self.new) result };

    /// Covers all calls so far: a stop from then on, until the next write or cut begins, leaves what a read gives.
    /// After `Failed` nothing is covered.
    fn sync(&mut self, beat: &Beat) -> Result<(), Failed>
        requires { (state self.old).beat ≤ beat.now }
        ensures { Syncs beat.now (state self.old) (state self.new) result };

    ghost lawful: { (disk : Self) → IsDisk (state disk) };
}
