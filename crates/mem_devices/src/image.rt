// What a stop leaves of a disk in memory, by a few picks.
ghost use Rattle.std.specs.Prelude.{◌≡◌, ◌≤◌, length, IfOk, OnOk};
ghost use Rattle.mem_devices.specs.History.{after_calls, covered_calls, uncovered_calls};
ghost use Rattle.mem_devices.specs.Images.{pick_of, taken, filled, taken_each, picked_image};

use crate::call::{Call, Work, overlay};
use crate::history::History;
use std::alloc::{AllocError, Global};

/// How an image takes the calls that no sync has covered.
#[derive(Clone, Copy)]
pub enum Pick {
    /// None of them.
    Nothing,
    /// All of them.
    Written,
    /// All of them, with this byte all over the written ranges.
    Filled(u8),
}

impl Pick {
    pub fn of(number: u32) -> Self
        ensures { result ≡ pick_of number }
    {
        match number {
            0 => Pick::Nothing,
            1 => Pick::Written,
            2 => Pick::Filled(0),
            _ => Pick::Filled(0xA5),
        }
    }
}

impl Work {
    fn take(&self, alloc: Global, pick: Pick, bytes: &mut Vec<u8>) -> Result<(), AllocError>
        ensures { OnOk result (bytes.new.items ≡ taken pick self.now bytes.old.items) }
    {
        match pick {
            Pick::Nothing => Ok(()),
            Pick::Written => self.apply(bytes),
            Pick::Filled(byte) => self.fill(alloc, byte, bytes),
        }
    }

    fn fill(&self, alloc: Global, byte: u8, bytes: &mut Vec<u8>) -> Result<(), AllocError>
        ensures { OnOk result (bytes.new.items ≡ filled byte self.now bytes.old.items) }
    {
        match self {
            Work::Write(patch) => {
                let piece = vec![in alloc; byte; patch.piece.len()]?;
                overlay(bytes, patch.at as usize, &piece)
            }
            Work::Cut(_) | Work::Sync => self.apply(bytes),
        }
    }
}

impl History {
    /// What a stop leaves, during the call behind the first so many or before it begins: the calls up to the last sync
    /// that succeeded are done, and the others are taken by the pick.
    pub fn image(&self, alloc: Global, before: usize, pick: Pick) -> Result<Vec<u8>, AllocError>
        requires { before ≤ length self.now.calls.items }
        ensures { IfOk result (λ image. image.items ≡ picked_image pick self.now.first.items self.now.calls.items before) }
    {
        let (earlier, rest) = self.calls.split_at(before);
        let in_flight = &rest[..rest.len().min(1)];
        let (covered, uncovered) = split_covered(earlier);
        let mut bytes = Vec::from_slice(alloc, &self.first)?;
        replay(covered, &mut bytes)?;
        take_each(alloc, uncovered, pick, &mut bytes)?;
        take_each(alloc, in_flight, pick, &mut bytes)?;
        Ok(bytes)
    }
}

// The calls up to the last sync that succeeded, and those behind it.
fn split_covered(calls: &[Call]) -> (&[Call], &[Call])
    ensures covered { result.0.now ≡ covered_calls calls.now }
    ensures uncovered { result.1.now ≡ uncovered_calls calls.now }
{
    calls.split_at(covered_count(calls))
}

// How many calls the last sync that succeeded has covered.
fn covered_count(calls: &[Call]) -> usize
    ensures count { result ≡ length (covered_calls calls.now) }
    ensures within { result ≤ length calls.now }
{
    let mut count = 0;
    for (index, call) in calls.iter().enumerate() {
        if call.covers() {
            count = index + 1;
        }
    }
    count
}

// Makes all the calls but those that failed.
fn replay(calls: &[Call], bytes: &mut Vec<u8>) -> Result<(), AllocError>
    ensures { OnOk result (bytes.new.items ≡ after_calls calls.now bytes.old.items) }
{
    for call in calls {
        call.apply(bytes)?;
    }
    Ok(())
}

// Takes all the calls by the pick, also those that failed.
fn take_each(
    alloc: Global,
    calls: &[Call],
    pick: Pick,
    bytes: &mut Vec<u8>,
) -> Result<(), AllocError>
    ensures { OnOk result (bytes.new.items ≡ taken_each pick calls.now bytes.old.items) }
{
    for call in calls {
        call.work.take(alloc, pick, bytes)?;
    }
    Ok(())
}
