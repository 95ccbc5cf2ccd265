//! What stands on the graph devices and values devices of a store.
ghost use Rattle.std.specs.Prelude.{◌≡◌, ◌+◌, ◌*◌, ◌^◌, ◌<◌, ◌≤◌, IfOk, OnOk, IfSome, IsTrue, IsFalse, length, take};
ghost use Rattle.std.specs.Int.{to_be_bytes, w64};
ghost use Rattle.std.specs.List.{All};
ghost use Rattle.ports.specs.Bytes.{bytes_at};
ghost use Rattle.ports.specs.Faults.{HasCause};
ghost use Rattle.partitioner.specs.Splits.{IsSplit};
ghost use Rattle.store_model.specs.Slots;
ghost use Rattle.store_model.specs.Slots.{device_size, set_bytes, values_bytes};
ghost use Rattle.store_reader.specs.Devices.{IsOpenDevice, IsShutDevice, SomeShut};
ghost use Rattle.store_reader.specs.Reading.{own_in, master_in, len_in, before_in, TellsHead};
ghost use Rattle.store_reader.specs.Values.{AreValueDevices, IsSet};

use crate::store::{SlotHead, Store};
use graph_model::Value;
use partitioner::Split;
use ports::{Disk, Failed};

/// The gate of what is open.
pub(crate) const OPEN: u8 = 0xA5;

/// The bytes of a graph device's head.
pub(crate) const HEAD_SIZE: u64 = 65;

/// Whether every graph device has a whole head with an open gate.
pub fn all_open<D: Disk>(store: &Store<D>, meter: &mut D::M) -> Result<bool, Failed>
    ensures open { IfOk result (λ is_open. IsTrue is_open → All (λ disk. IsOpenDevice (D.state disk)) store.now.graphs.items) }
    ensures shut { IfOk result (λ is_open. IsFalse is_open → SomeShut D.state store.now.graphs.items) }
    ensures cause { HasCause (D.M.faults meter.old) (D.M.faults meter.new) result }
{
    for disk in &store.graphs {
        if !is_open(disk, meter)? {
            return Ok(false);
        }
    }
    Ok(true)
}

/// Whether a graph device has a whole head with an open gate.
fn is_open<D: Disk>(disk: &D, meter: &mut D::M) -> Result<bool, Failed>
    ensures open { IfOk result (λ is_open. IsTrue is_open → IsOpenDevice (D.state disk.now)) }
    ensures shut { IfOk result (λ is_open. IsFalse is_open → IsShutDevice (D.state disk.now)) }
    ensures cause { HasCause (D.M.faults meter.old) (D.M.faults meter.new) result }
{
    if disk.size() < HEAD_SIZE {
        return Ok(false);
    }
    let mut gate = [0];
    disk.read_at(meter, 0, &mut gate)?;
    Ok(gate[0] == OPEN)
}

/// The bytes of a slot's head.
const SLOT_HEAD_SIZE: usize = 24;

/// The head of a slot of an engine's values device, which has its exact size. One call of the device.
pub fn slot_head<D: Disk>(
    disk: &D,
    meter: &mut D::M,
    split: &Split,
    engine: u32,
    slot: u32,
) -> Result<SlotHead, Failed>
    requires split { IsSplit split.now }
    requires engine { engine < split.now.engines }
    requires exact { (D.state disk.now).size ≡ device_size (own_in split.now engine) }
    requires slot { slot < 2 }
    ensures head { IfOk result (λ head. IfSome (D.state disk.now).bytes (TellsHead (own_in split.now engine) slot head)) }
    ensures cause { HasCause (D.M.faults meter.old) (D.M.faults meter.new) result }
{
    let mut head = [0; SLOT_HEAD_SIZE];
    disk.read_at(meter, slot_start(split.own(engine), slot), &mut head)?;
    Ok(SlotHead {
        is_open: head[0] == OPEN,
        round: number_at(&head, 8),
        changed: number_at(&head, 16),
    })
}

/// The values of a partition in a slot, from the values device of its master, which has its exact size. `bytes` has 16
/// bytes and `into` one value for each of its vertices. One call of the device.
pub fn read_set<D: Disk>(
    disk: &D,
    meter: &mut D::M,
    split: &Split,
    partition: u32,
    slot: u32,
    bytes: &mut [u8],
    into: &mut [Value],
) -> Result<(), Failed>
    requires split { IsSplit split.now }
    requires partition { partition < split.now.parts }
    requires exact { (D.state disk.now).size ≡ device_size (own_in split.now (master_in split.now partition)) }
    requires slot { slot < 2 }
    requires bytes { length bytes.old ≡ 16 * len_in split.now partition }
    requires into { length into.old ≡ len_in split.now partition }
    ensures values { OnOk result (IfSome (D.state disk.now).bytes (λ told. values_bytes into.new
        ≡ set_bytes (own_in split.now (master_in split.now partition)) slot (before_in split.now partition) (len_in split.now partition) told)) }
    ensures held { OnOk result (All (λ v. (v.main < 2 ^ 64) × (v.side < 2 ^ 64)) into.new) }
    ensures cause { HasCause (D.M.faults meter.old) (D.M.faults meter.new) result }
{
    let own = split.own(split.master_of(partition));
    let at = slot_start(own, slot) + 24 + 16 * u64::from(split.before(partition));
    disk.read_at(meter, at, bytes)?;
    decode_values(bytes, into);
    Ok(())
}

/// The values of a partition in a slot, to the front of `into`, from the values device of its master, of one device for
/// each engine. One call of the device.
pub fn read_values<D: Disk>(
    devices: &[D],
    meter: &mut D::M,
    split: &Split,
    partition: u32,
    slot: u32,
    bytes: &mut [u8],
    into: &mut [Value],
) -> Result<(), Failed>
    requires split { IsSplit split.now }
    requires devices { AreValueDevices D.state split.now devices.now }
    requires partition { partition < split.now.parts }
    requires slot { slot < 2 }
    requires bytes { 16 * len_in split.now partition ≤ length bytes.old }
    requires into { len_in split.now partition ≤ length into.old }
    ensures rooms { (length bytes.new ≡ length bytes.old) × (length into.new ≡ length into.old) }
    ensures values { OnOk result (IsSet D.state split.now devices.now slot partition (take (len_in split.now partition) into.new)) }
    ensures cause { HasCause (D.M.faults meter.old) (D.M.faults meter.new) result }
{
    let (first, end) = split.range(partition);
    let len = (end - first) as usize;
    read_set(
        &devices[split.master_of(partition) as usize],
        meter,
        split,
        partition,
        slot,
        &mut bytes[..16 * len],
        &mut into[..len],
    )
}

/// Where a slot begins on the values device of an engine with so many vertices.
fn slot_start(own: u32, slot: u32) -> u64
    requires { slot < 2 }
    ensures { result ≡ Slots.slot_start own slot }
{
    u64::from(slot) * (24 + 16 * u64::from(own))
}

/// Reads values from 16 bytes each.
fn decode_values(bytes: &[u8], into: &mut [Value])
    requires { length bytes.now ≡ 16 * length into.old }
    ensures read { values_bytes into.new ≡ bytes.now }
    ensures held { All (λ v. (v.main < 2 ^ 64) × (v.side < 2 ^ 64)) into.new }
{
    for k in 0..into.len() {
        into[k] = Value {
            main: number_at(bytes, 16 * k),
            side: number_at(bytes, 16 * k + 8),
        };
    }
}

/// The number in the eight bytes from a place on, high byte first.
fn number_at(bytes: &[u8], at: usize) -> u64
    requires { at + 8 ≤ length bytes.now }
    ensures { to_be_bytes w64 result ≡ bytes_at at 8 bytes.now }
{
    let mut eight = [0; 8];
    eight.copy_from_slice(&bytes[at..at + 8]);
    u64::from_be_bytes(eight)
}
