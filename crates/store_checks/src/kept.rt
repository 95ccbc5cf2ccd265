//! The round that is kept in a store.
ghost use Rattle.std.specs.Prelude.{◌≡◌, ◌≢◌, ℕ, ◌+◌, ◌^◌, ◌<◌, ◌≤◌, List, length, slice_index_or, Some, None, IfOk, IfErr, IfSome, Err};
ghost use Rattle.ports.specs.Faults.{Rose};
ghost use Rattle.partitioner.specs.Splits.{IsSplit};
ghost use Rattle.store_model.specs.Slots.{device_size, slot_of};
ghost use Rattle.store_model.specs.Kept.{device};
ghost use Rattle.store_model.specs.Damage.{first_over, device_fault};
ghost use Rattle.store_reader.specs.Reading.{own_in};
ghost use Rattle.store_checks.specs.Causes.{Tell, HasRecoverCause};
ghost use Rattle.store_checks.specs.Rounds.{FindsRound, FindsKept, TellsSlot};

use crate::RecoverFault;
use crate::rounds::read_slot;
use partitioner::Split;
use ports::Disk;

/// A round that stands in an open slot, of one engine or of several, and how many values changed in it.
#[derive(Clone, Copy, PartialEq, Eq, Debug)]
pub struct Standing {
    pub round: u64,
    pub changed: u64,
}

/// The greatest round that stands in an open slot of every engine. None where there is no such round. The values devices
/// have passed their checks, so that damage is found only where a device gives other bytes than before.
pub fn kept_round<D: Disk>(
    values: &[D],
    meter: &mut D::M,
    split: &Split,
) -> Result<Option<Standing>, RecoverFault>
    requires split { IsSplit split.now }
    requires many { length values.now ≡ split.now.engines }
    requires exact { (e : ℕ) (d : _) → e < length values.now → (D.state (slice_index_or values.now e d)).size ≡ device_size (own_in split.now e) }
    requires sound { (told : List (List ℕ)) → Tell D.state values.now told → first_over (λ e. device_fault (own_in split.now e) e (device told e)) (length told) ≡ None }
    ensures within { IfOk result (λ kept. IfSome kept (λ standing. standing.round ≤ 1000000)) }
    ensures kept { (told : List (List ℕ)) → Tell D.state values.now told → IfOk result (FindsKept (own_in split.now) told) }
    ensures later { D.M.faults meter.old ≤ D.M.faults meter.new }
    ensures calm { result ≢ Err RecoverFault.DiskFault → D.M.faults meter.new ≡ D.M.faults meter.old }
    ensures cause { IfErr result (HasRecoverCause (Rose (D.M.faults meter.old) (D.M.faults meter.new))
        (λ fault. (told : List (List ℕ)) → Tell D.state values.now told → ⊥)) }
{
    let even = match round_in_slot(values, meter, split, 0) {
        Ok(even) => even,
        Err(fault) => return Err(fault),
    };
    let odd = match round_in_slot(values, meter, split, 1) {
        Ok(odd) => odd,
        Err(fault) => return Err(fault),
    };
    Ok(greater(even, odd))
}

/// Of the rounds in the two slots the greater one.
fn greater(even: Option<Standing>, odd: Option<Standing>) -> Option<Standing>
    requires even { IfSome even (λ standing. (slot_of standing.round ≡ 0) × (standing.round ≤ 1000000)) }
    requires odd { IfSome odd (λ standing. (slot_of standing.round ≡ 1) × (standing.round ≤ 1000000)) }
    ensures within { IfSome result (λ standing. standing.round ≤ 1000000) }
    ensures kept { (own : ℕ → ℕ) (told : List (List ℕ)) → 0 < length told → FindsRound own told 0 (length told) even
        → FindsRound own told 1 (length told) odd → FindsKept own told result }
{
    match (even, odd) {
        (Some(first), Some(second)) => {
            if first.round < second.round {
                Some(second)
            } else {
                Some(first)
            }
        }
        (Some(first), None) => Some(first),
        (None, Some(second)) => Some(second),
        (None, None) => None,
    }
}

/// The round that stands in this slot of every engine, where the slot is open. None where there is none.
fn round_in_slot<D: Disk>(
    values: &[D],
    meter: &mut D::M,
    split: &Split,
    slot: u32,
) -> Result<Option<Standing>, RecoverFault>
    requires split { IsSplit split.now }
    requires many { length values.now ≡ split.now.engines }
    requires exact { (e : ℕ) (d : _) → e < length values.now → (D.state (slice_index_or values.now e d)).size ≡ device_size (own_in split.now e) }
    requires sound { (told : List (List ℕ)) → Tell D.state values.now told → first_over (λ e. device_fault (own_in split.now e) e (device told e)) (length told) ≡ None }
    requires slot { slot < 2 }
    ensures within { IfOk result (λ found. IfSome found (λ standing. (slot_of standing.round ≡ slot) × (standing.round ≤ 1000000))) }
    ensures finds { (told : List (List ℕ)) → Tell D.state values.now told → IfOk result (FindsRound (own_in split.now) told slot (length told)) }
    ensures later { D.M.faults meter.old ≤ D.M.faults meter.new }
    ensures calm { result ≢ Err RecoverFault.DiskFault → D.M.faults meter.new ≡ D.M.faults meter.old }
    ensures cause { IfErr result (HasRecoverCause (Rose (D.M.faults meter.old) (D.M.faults meter.new))
        (λ fault. (told : List (List ℕ)) → Tell D.state values.now told → ⊥)) }
{
    let mut so_far = match read_slot(&values[0], meter, split, 0, slot) {
        Ok(Some(first)) => first,
        Ok(None) => return Ok(None),
        Err(fault) => return Err(fault),
    };
    for e in 1..values.len() {
        let next = match read_slot(&values[e], meter, split, e as u32, slot) {
            Ok(next) => next,
            Err(fault) => return Err(fault),
        };
        so_far = match joined(so_far, next) {
            Some(more) => more,
            None => return Ok(None),
        };
    }
    Ok(Some(so_far))
}

/// What stands in a slot of several engines and of one more: the same round, if it is.
fn joined(so_far: Standing, next: Option<Standing>) -> Option<Standing>
    requires room { so_far.changed < 2 ^ 48 }
    requires next { IfSome next (λ standing. standing.changed < 2 ^ 32) }
    ensures round { IfSome result (λ more. more.round ≡ so_far.round) }
    ensures small { IfSome result (λ more. more.changed < so_far.changed + 2 ^ 32) }
    ensures joins { (own : ℕ → ℕ) (told : List (List ℕ)) (slot e : ℕ) → 0 < e → FindsRound own told slot e (Some so_far)
        → TellsSlot (own e) slot (device told e) next → FindsRound own told slot (e + 1) result }
{
    let next = next?;
    if next.round != so_far.round {
        return None;
    }
    Some(Standing {
        round: so_far.round,
        changed: so_far.changed + next.changed,
    })
}
