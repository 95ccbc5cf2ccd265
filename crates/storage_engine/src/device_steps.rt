//! The steps in which one device of a store is made. A stop at any moment of each leaves what it says.
ghost use Rattle.std.specs.Prelude.{◌≡◌, ◌+◌, ◌<◌, ◌≤◌, ◌^◌, [], ◌∷◌, length, replicate, OnOk};
ghost use Rattle.ports.specs.Disk.{InEveryImage, IsSettled};
ghost use Rattle.ports.specs.Faults.{HasCause};
ghost use Rattle.store_model.specs.Gates;
ghost use Rattle.store_model.specs.Heads;
ghost use Rattle.store_model.specs.Heads.{IsShutGraph};
ghost use Rattle.storage_engine.specs.Steps.{Anything, Step, IsClosedFront, HoldsExactly, Appended, Synced, Opens, Opened};

use ports::{Beat, Disk, Failed, cut_synced, write_synced};

/// The gate of what is open.
const OPEN: u8 = 0xA5;

/// The last byte of a head.
const MARK: u8 = 0x47;

/// Empties a device. A graph device that was not open stays so.
pub(crate) fn clear<D: Disk>(disk: &mut D, beat: &Beat) -> Result<(), Failed>
    requires beat { (D.state disk.old).beat ≤ beat.now }
    ensures step { Step IsShutGraph beat.now (D.state disk.old) (D.state disk.new) }
    ensures emptied { OnOk result (HoldsExactly [] (D.state disk.new)) }
    ensures cause { HasCause (D.state disk.old).faults (D.state disk.new).faults result }
{
    cut_synced(disk, beat, 0)
}

/// Writes all but the mark of a head to an empty graph device, which is then too short to be open.
pub(crate) fn write_front<D: Disk>(disk: &mut D, front: &[u8], beat: &Beat) -> Result<(), Failed>
    requires beat { (D.state disk.old).beat ≤ beat.now }
    requires emptied { HoldsExactly [] (D.state disk.old) }
    requires front { length front.now ≡ 64 }
    ensures step { Step IsShutGraph beat.now (D.state disk.old) (D.state disk.new) }
    ensures written { OnOk result (HoldsExactly front.now (D.state disk.new)) }
    ensures cause { HasCause (D.state disk.old).faults (D.state disk.new).faults result }
{
    write_synced(disk, beat, 0, front)
}

/// Writes the mark behind the front of a head whose gate is closed.
pub(crate) fn write_mark<D: Disk>(disk: &mut D, beat: &Beat) -> Result<(), Failed>
    requires beat { (D.state disk.old).beat ≤ beat.now }
    requires size { (D.state disk.old).size ≡ 64 }
    ensures step { Step IsClosedFront beat.now (D.state disk.old) (D.state disk.new) }
    ensures appended { OnOk result (Appended (Heads.MARK ∷ []) (D.state disk.old) (D.state disk.new)) }
    ensures cause { HasCause (D.state disk.old).faults (D.state disk.new).faults result }
{
    disk.write_at(beat, 64, &[MARK])
}

/// Syncs a graph device whose gate is closed.
pub(crate) fn sync_closed<D: Disk>(disk: &mut D, beat: &Beat) -> Result<(), Failed>
    requires beat { (D.state disk.old).beat ≤ beat.now }
    ensures step { Step IsClosedFront beat.now (D.state disk.old) (D.state disk.new) }
    ensures synced { OnOk result (Synced (D.state disk.old) (D.state disk.new)) }
    ensures cause { HasCause (D.state disk.old).faults (D.state disk.new).faults result }
{
    disk.sync(beat)
}

/// Opens the gate of a settled graph device.
pub(crate) fn open_gate<D: Disk>(disk: &mut D, beat: &Beat) -> Result<(), Failed>
    requires beat { (D.state disk.old).beat ≤ beat.now }
    requires size { 0 < (D.state disk.old).size }
    requires settled { IsSettled (D.state disk.old) }
    requires closed { InEveryImage (D.state disk.old) IsClosedFront }
    ensures opens { Opens beat.now (D.state disk.old) (D.state disk.new) }
    ensures opened { OnOk result (Opened (D.state disk.old) (D.state disk.new)) }
    ensures cause { HasCause (D.state disk.old).faults (D.state disk.new).faults result }
{
    write_synced(disk, beat, 0, &[OPEN])
}

/// Writes so many zero bytes to an empty device, piece by piece, and syncs.
pub(crate) fn write_zeros<D: Disk>(
    disk: &mut D,
    size: u64,
    zeros: &[u8],
    beat: &Beat,
) -> Result<(), Failed>
    requires beat { (D.state disk.old).beat ≤ beat.now }
    requires emptied { HoldsExactly [] (D.state disk.old) }
    requires size { size < 2 ^ 62 }
    requires some { 0 < length zeros.now }
    requires zeros { zeros.now ≡ replicate (length zeros.now) 0 }
    ensures step { Step Anything beat.now (D.state disk.old) (D.state disk.new) }
    ensures zeros { OnOk result (HoldsExactly (replicate size 0) (D.state disk.new)) }
    ensures cause { HasCause (D.state disk.old).faults (D.state disk.new).faults result }
{
    let mut done = 0;
    'pieces: while done < size {
        let count = (size - done).min(zeros.len() as u64);
        disk.write_at(beat, done, &zeros[..count as usize])?;
        done += count;
    }
    disk.sync(beat)
}
