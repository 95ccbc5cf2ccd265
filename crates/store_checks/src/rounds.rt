//! What stands on the values devices.
ghost use Rattle.std.specs.Prelude.{◌≡◌, ◌≢◌, ℕ, ◌<◌, ◌≤◌, ◌==◌, ◌&&◌, nat_le, List, length, slice_index_or, Some, None, IfOk, IfErr, OnOk, true, Err};
ghost use Rattle.ports.specs.Faults.{Rose};
ghost use Rattle.partitioner.specs.Splits.{IsSplit};
ghost use Rattle.store_model.specs.Slots;
ghost use Rattle.store_model.specs.Slots.{device_size};
ghost use Rattle.store_model.specs.Kept.{device};
ghost use Rattle.store_model.specs.Damage.{first_over, device_fault, slot_fault, is_good_slot};
ghost use Rattle.store_reader.specs.Reading.{own_in};
ghost use Rattle.store_reader.specs.declared.store.Part.TheVariants.{Values};
ghost use Rattle.store_checks.specs.Causes.{Tell, HasRecoverCause};
ghost use Rattle.store_checks.specs.Rounds.{TellsSlot, IsWithin};

use crate::RecoverFault;
use crate::kept::Standing;
use partitioner::Split;
use ports::Disk;
use store_reader::{Part, slot_head};

/// What stands in a slot of an engine's values device, which has its exact size. None where the slot is closed.
pub(crate) fn read_slot<D: Disk>(
    disk: &D,
    meter: &mut D::M,
    split: &Split,
    engine: u32,
    slot: u32,
) -> Result<Option<Standing>, RecoverFault>
    requires split { IsSplit split.now }
    requires engine { engine < split.now.engines }
    requires exact { (D.state disk.now).size ≡ device_size (own_in split.now engine) }
    requires slot { slot < 2 }
    ensures within { IfOk result (IsWithin (own_in split.now engine) slot) }
    ensures read { (told : List ℕ) → (D.state disk.now).bytes ≡ Some told → IfOk result (TellsSlot (own_in split.now engine) slot told) }
    ensures sound { (told : List ℕ) → (D.state disk.now).bytes ≡ Some told → OnOk result (is_good_slot (own_in split.now engine) slot told ≡ true) }
    ensures later { D.M.faults meter.old ≤ D.M.faults meter.new }
    ensures calm { result ≢ Err RecoverFault.DiskFault → D.M.faults meter.new ≡ D.M.faults meter.old }
    ensures cause { IfErr result (HasRecoverCause (Rose (D.M.faults meter.old) (D.M.faults meter.new))
        (λ fault. (told : List ℕ) → (D.state disk.now).bytes ≡ Some told → slot_fault (own_in split.now engine) engine slot told ≡ Some fault)) }
{
    let head = match slot_head(disk, meter, split, engine, slot) {
        Ok(head) => head,
        Err(_) => return Err(RecoverFault::DiskFault),
    };
    if !head.is_open {
        return Ok(None);
    }
    let own = split.own(engine);
    if !is_round_of(head.round, head.changed, slot, own) {
        return Err(damaged_slot(engine, slot, own));
    }
    Ok(Some(Standing {
        round: head.round,
        changed: head.changed,
    }))
}

/// Whether these may be the numbers of an open slot.
fn is_round_of(round: u64, changed: u64, slot: u32, own: u32) -> bool
    ensures { result ≡ ((Slots.slot_of round == slot) && nat_le round 1000000 && nat_le changed own) }
{
    round % 2 == u64::from(slot) && round <= MOST_ROUNDS && changed <= u64::from(own)
}

/// No round of a job is above.
const MOST_ROUNDS: u64 = 1_000_000;

fn damaged_slot(engine: u32, slot: u32, own: u32) -> RecoverFault
    requires { slot < 2 }
    ensures { result ≡ RecoverFault.Damaged Values engine (Slots.slot_start own slot) }
{
    RecoverFault::Damaged {
        part: Part::Values,
        engine,
        place: u64::from(slot) * (24 + 16 * u64::from(own)),
    }
}

/// Checks the values devices of all engines.
pub fn check_values<D: Disk>(
    values: &[D],
    meter: &mut D::M,
    split: &Split,
) -> Result<(), RecoverFault>
    requires split { IsSplit split.now }
    requires many { length values.now ≡ split.now.engines }
    ensures exact { OnOk result ((e : ℕ) (d : _) → e < length values.now → (D.state (slice_index_or values.now e d)).size ≡ device_size (own_in split.now e)) }
    ensures sound { (told : List (List ℕ)) → Tell D.state values.now told → OnOk result (first_over (λ e. device_fault (own_in split.now e) e (device told e)) (length told) ≡ None) }
    ensures later { D.M.faults meter.old ≤ D.M.faults meter.new }
    ensures calm { result ≢ Err RecoverFault.DiskFault → D.M.faults meter.new ≡ D.M.faults meter.old }
    ensures cause { IfErr result (HasRecoverCause (Rose (D.M.faults meter.old) (D.M.faults meter.new))
        (λ fault. (told : List (List ℕ)) → Tell D.state values.now told → first_over (λ e. device_fault (own_in split.now e) e (device told e)) (length told) ≡ Some fault)) }
{
    for e in 0..values.len() {
        if let Err(fault) = check_device(&values[e], meter, split, e as u32) {
            return Err(fault);
        }
    }
    Ok(())
}

/// Checks the values device of an engine: its size, and then its slots.
fn check_device<D: Disk>(
    disk: &D,
    meter: &mut D::M,
    split: &Split,
    engine: u32,
) -> Result<(), RecoverFault>
    requires split { IsSplit split.now }
    requires engine { engine < split.now.engines }
    ensures exact { OnOk result ((D.state disk.now).size ≡ device_size (own_in split.now engine)) }
    ensures sound { (told : List ℕ) → (D.state disk.now).bytes ≡ Some told → OnOk result (device_fault (own_in split.now engine) engine told ≡ None) }
    ensures later { D.M.faults meter.old ≤ D.M.faults meter.new }
    ensures calm { result ≢ Err RecoverFault.DiskFault → D.M.faults meter.new ≡ D.M.faults meter.old }
    ensures cause { IfErr result (HasRecoverCause (Rose (D.M.faults meter.old) (D.M.faults meter.new))
        (λ fault. (told : List ℕ) → (D.state disk.now).bytes ≡ Some told → device_fault (own_in split.now engine) engine told ≡ Some fault)) }
{
    if disk.size() != size_of(split.own(engine)) {
        return Err(damaged_device(engine));
    }
    if let Err(fault) = read_slot(disk, meter, split, engine, 0) {
        return Err(fault);
    }
    if let Err(fault) = read_slot(disk, meter, split, engine, 1) {
        return Err(fault);
    }
    Ok(())
}

/// The size of the values device of an engine with so many vertices.
fn size_of(own: u32) -> u64
    ensures { result ≡ device_size own }
{
    2 * (24 + 16 * u64::from(own))
}

fn damaged_device(engine: u32) -> RecoverFault
    ensures { result ≡ RecoverFault.Damaged Values engine 0 }
{
    RecoverFault::Damaged {
        part: Part::Values,
        engine,
        place: 0,
    }
}
