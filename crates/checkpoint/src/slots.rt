// Closing, writing and opening a slot of a values device.
ghost use Rattle.std.specs.Prelude.{◌≡◌, ◌+◌, ◌*◌, ◌^◌, ◌<◌, ◌≤◌, [], ◌∷◌, length, OnOk};
ghost use Rattle.partitioner.specs.Splits.{IsSplit};
ghost use Rattle.ports.specs.Bytes.{Torn, after_write};
ghost use Rattle.ports.specs.Disk.{InEveryImage, IsSettled};
ghost use Rattle.ports.specs.Faults.{HasCause, HasCauseOfTwo};
ghost use Rattle.ports.specs.Stops.{Leaves};
ghost use Rattle.ports.specs.Told.{AsTold};
ghost use Rattle.store_reader.specs.Reading.{own_in, master_in, len_in, before_in};
ghost use Rattle.store_model.specs.Slots;
ghost use Rattle.store_model.specs.Slots.{device_size, number_bytes, values_bytes, IsOpen, IsClosed};
ghost use Rattle.checkpoint.specs.Synced.{WritesSynced};
ghost use Rattle.checkpoint.specs.SlotStates.{HasExactSize, SameOther, WhileClosing, WhileWriting, WhileOpening};

use crate::bytes::{put_slot_numbers, put_values};
use graph_model::Value;
use partitioner::Split;
use ports::{Beat, Disk, Failed, write_synced};
use store_reader::slot_head;

/// The gate of what is open, and one of what is closed.
const OPEN: u8 = 0xA5;

const CLOSED: u8 = 0;

/// Closes a slot of an engine's values device, which has its exact size, so that it is closed in every image. A closed
/// gate is never written over, since a write that no sync has covered may leave an open one.
pub fn close_slot<D: Disk>(
    disk: &mut D,
    meter: &mut D::M,
    split: &Split,
    engine: u32,
    slot: u32,
    beat: &Beat,
) -> Result<(), Failed>
    requires split { IsSplit split.now }
    requires engine { engine < split.now.engines }
    requires size { (D.state disk.old).size ≡ device_size (own_in split.now engine) }
    requires slot { slot < 2 }
    requires beat { (D.state disk.old).beat ≤ beat.now }
    ensures any_moment { Leaves beat.now (D.state disk.old) (D.state disk.new) (WhileClosing (own_in split.now engine) slot (D.state disk.old)) }
    ensures closed { OnOk result (InEveryImage (D.state disk.new) (IsClosed (own_in split.now engine) slot)) }
    ensures exact { OnOk result (HasExactSize (own_in split.now engine) (D.state disk.new)) }
    ensures settled { OnOk result (IsSettled (D.state disk.new)) }
    ensures bytes { AsTold (SameOther (own_in split.now engine) slot) (D.state disk.old).bytes (D.state disk.new).bytes }
    ensures size { (D.state disk.new).size ≡ (D.state disk.old).size }
    ensures beat { (D.state disk.new).beat ≡ beat.now }
    ensures cause { HasCauseOfTwo (D.state disk.old).faults (D.state disk.new).faults (D.M.faults meter.old) (D.M.faults meter.new) result }
{
    disk.sync(beat)?;
    let head = slot_head(disk, meter, split, engine, slot)?;
    if !head.is_open {
        return Ok(());
    }
    write_gate(disk, slot_start(split.own(engine), slot), CLOSED, beat)
}

/// Writes the values of a partition into a closed slot of its master's values device. `values` has one value and `bytes`
/// 16 bytes for each of its vertices. One call of the device, and no sync.
pub fn write_set<D: Disk>(
    disk: &mut D,
    split: &Split,
    partition: u32,
    slot: u32,
    values: &[Value],
    bytes: &mut [u8],
    beat: &Beat,
) -> Result<(), Failed>
    requires split { IsSplit split.now }
    requires partition { partition < split.now.parts }
    requires exact { HasExactSize (own_in split.now (master_in split.now partition)) (D.state disk.old) }
    requires slot { slot < 2 }
    requires closed { InEveryImage (D.state disk.old) (IsClosed (own_in split.now (master_in split.now partition)) slot) }
    requires values { length values.now ≡ len_in split.now partition }
    requires bytes { length bytes.old ≡ 16 * len_in split.now partition }
    requires beat { (D.state disk.old).beat ≤ beat.now }
    ensures any_moment { Leaves beat.now (D.state disk.old) (D.state disk.new) (WhileWriting (own_in split.now (master_in split.now partition)) slot (D.state disk.old)) }
    ensures closed { InEveryImage (D.state disk.new) (IsClosed (own_in split.now (master_in split.now partition)) slot) }
    ensures exact { HasExactSize (own_in split.now (master_in split.now partition)) (D.state disk.new) }
    ensures bytes { AsTold (Torn (Slots.set_start (own_in split.now (master_in split.now partition)) slot (before_in split.now partition)) (16 * len_in split.now partition)) (D.state disk.old).bytes (D.state disk.new).bytes }
    ensures written { OnOk result (AsTold (λ before now. now ≡ after_write (Slots.set_start (own_in split.now (master_in split.now partition)) slot (before_in split.now partition)) (values_bytes values.now) before) (D.state disk.old).bytes (D.state disk.new).bytes) }
    ensures beat { (D.state disk.new).beat ≡ beat.now }
    ensures cause { HasCause (D.state disk.old).faults (D.state disk.new).faults result }
{
    put_values(values, bytes);
    let own = split.own(split.master_of(partition));
    let at = set_start(own, slot, split.before(partition));
    disk.write_at(beat, at, bytes)
}

/// Opens a closed slot of an engine's values device with the numbers of a round. The gate is opened only when all before
/// it was synced.
pub fn open_slot<D: Disk>(
    disk: &mut D,
    split: &Split,
    engine: u32,
    slot: u32,
    round: u64,
    changed: u64,
    beat: &Beat,
) -> Result<(), Failed>
    requires split { IsSplit split.now }
    requires engine { engine < split.now.engines }
    requires exact { HasExactSize (own_in split.now engine) (D.state disk.old) }
    requires slot { slot < 2 }
    requires closed { InEveryImage (D.state disk.old) (IsClosed (own_in split.now engine) slot) }
    requires beat { (D.state disk.old).beat ≤ beat.now }
    ensures any_moment { Leaves beat.now (D.state disk.old) (D.state disk.new) (WhileOpening (own_in split.now engine) slot round changed (D.state disk.old)) }
    ensures opened { OnOk result (InEveryImage (D.state disk.new) (IsOpen (own_in split.now engine) slot)) }
    ensures exact { OnOk result (HasExactSize (own_in split.now engine) (D.state disk.new)) }
    ensures settled { OnOk result (IsSettled (D.state disk.new)) }
    ensures bytes { AsTold (SameOther (own_in split.now engine) slot) (D.state disk.old).bytes (D.state disk.new).bytes }
    ensures size { (D.state disk.new).size ≡ (D.state disk.old).size }
    ensures beat { (D.state disk.new).beat ≡ beat.now }
    ensures cause { HasCause (D.state disk.old).faults (D.state disk.new).faults result }
{
    let at = slot_start(split.own(engine), slot);
    write_numbers(disk, at, round, changed, beat)?;
    write_gate(disk, at, OPEN, beat)
}

/// Writes a gate, and syncs.
fn write_gate<D: Disk>(disk: &mut D, at: u64, gate: u8, beat: &Beat) -> Result<(), Failed>
    requires place { at < (D.state disk.old).size }
    requires end { at + 1 < 2 ^ 63 }
    requires beat { (D.state disk.old).beat ≤ beat.now }
    ensures { WritesSynced beat.now at (gate ∷ []) (D.state disk.old) (D.state disk.new) result }
{
    write_synced(disk, beat, at, &[gate])
}

/// Writes the numbers of a slot that begins at a place, and syncs.
fn write_numbers<D: Disk>(
    disk: &mut D,
    at: u64,
    round: u64,
    changed: u64,
    beat: &Beat,
) -> Result<(), Failed>
    requires place { at + 24 ≤ (D.state disk.old).size }
    requires end { at + 24 < 2 ^ 63 }
    requires beat { (D.state disk.old).beat ≤ beat.now }
    ensures { WritesSynced beat.now (at + 8) (number_bytes round changed) (D.state disk.old) (D.state disk.new) result }
{
    let mut bytes = [0; 16];
    put_slot_numbers(round, changed, &mut bytes);
    write_synced(disk, beat, at + 8, &bytes)
}

/// Where a slot begins on the values device of an engine with so many vertices.
fn slot_start(own: u32, slot: u32) -> u64
    requires { slot < 2 }
    ensures { result ≡ Slots.slot_start own slot }
{
    u64::from(slot) * (24 + 16 * u64::from(own))
}

/// Where the values of a partition begin in a slot, behind those of so many vertices.
fn set_start(own: u32, slot: u32, before: u32) -> u64
    requires { slot < 2 }
    ensures { result ≡ Slots.set_start own slot before }
{
    slot_start(own, slot) + 24 + 16 * u64::from(before)
}
