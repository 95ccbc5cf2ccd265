// Calls of disks in a row, with what a stop at any moment of them leaves.
ghost use Rattle.std.specs.Prelude.{◌≡◌, ◌+◌, ◌^◌, ◌<◌, ◌≤◌, max, length, take, OnOk};
ghost use Rattle.ports.specs.Bytes.{after_write, Torn, CutShort};
ghost use Rattle.ports.specs.Disk.{IsSettled, After};
ghost use Rattle.ports.specs.Faults.{HasCause};
ghost use Rattle.ports.specs.Stops.{Leaves};
ghost use Rattle.ports.specs.Told.{AsTold};

use crate::{Beat, Disk, Failed};

/// Writes a piece and syncs. A stop at any moment of it leaves an image from before the call, with some part of the
/// write done.
pub fn write_synced<D: Disk>(disk: &mut D, beat: &Beat, at: u64, piece: &[u8]) -> Result<(), Failed>
    requires place { at ≤ (D.state disk.old).size }
    requires end { at + length piece.now < 2 ^ 63 }
    requires beat { (D.state disk.old).beat ≤ beat.now }
    ensures any_moment { Leaves beat.now (D.state disk.old) (D.state disk.new) (After (Torn at (length piece.now)) (D.state disk.old)) }
    ensures bytes { AsTold (Torn at (length piece.now)) (D.state disk.old).bytes (D.state disk.new).bytes }

    ensures settled { OnOk result (IsSettled (D.state disk.new)) }
    ensures written { OnOk result (AsTold (λ old new. new ≡ after_write at piece.now old) (D.state disk.old).bytes (D.state disk.new).bytes) }
    ensures grown { OnOk result ((D.state disk.new).size ≡ max (D.state disk.old).size (at + length piece.now)) }

    ensures no_shorter { (D.state disk.old).size ≤ (D.state disk.new).size }
    ensures no_longer { (D.state disk.new).size ≤ max (D.state disk.old).size (at + length piece.now) }
    ensures beat { (D.state disk.new).beat ≡ beat.now }
    ensures cause { HasCause (D.state disk.old).faults (D.state disk.new).faults result }
{
    disk.write_at(beat, at, piece)?;
    disk.sync(beat)
}

/// Cuts to a size and syncs. A stop at any moment of it leaves an image from before the call, cut to that size or to
/// some length between.
pub fn cut_synced<D: Disk>(disk: &mut D, beat: &Beat, size: u64) -> Result<(), Failed>
    requires size { size ≤ (D.state disk.old).size }
    requires beat { (D.state disk.old).beat ≤ beat.now }
    ensures any_moment { Leaves beat.now (D.state disk.old) (D.state disk.new) (After (CutShort size) (D.state disk.old)) }
    ensures bytes { AsTold (CutShort size) (D.state disk.old).bytes (D.state disk.new).bytes }

    ensures settled { OnOk result (IsSettled (D.state disk.new)) }
    ensures done { OnOk result (AsTold (λ old new. new ≡ take size old) (D.state disk.old).bytes (D.state disk.new).bytes) }
    ensures cut { OnOk result ((D.state disk.new).size ≡ size) }

    ensures no_shorter { size ≤ (D.state disk.new).size }
    ensures no_longer { (D.state disk.new).size ≤ (D.state disk.old).size }
    ensures beat { (D.state disk.new).beat ≡ beat.now }
    ensures cause { HasCause (D.state disk.old).faults (D.state disk.new).faults result }
{
    disk.cut(beat, size)?;
    disk.sync(beat)
}
