// Disks in memory.
ghost use Rattle.std.specs.Prelude.{◌≡◌, ◌+◌, ◌-◌, ◌^◌, ◌<◌, ◌≤◌, [], length, slice_index, All, Some, IfOk, IfSome, IsTrue, IsErr, OnOk, is_ok, not, false};
ghost use Rattle.ports.specs.Bytes.{bytes_at};
ghost use Rattle.ports.specs.Disk.{Writes, Cuts, Syncs};
ghost use Rattle.ports.specs.Faults.{HasCause};
ghost use Rattle.mem_devices.specs.History.{beats, Enters};
ghost use Rattle.mem_devices.specs.Plan.{next_call_fails, with_call, after_answer};

use crate::call::{Call, Patch, Work};
use crate::history::History;
use crate::image::Pick;
use crate::meter::MemMeter;
use crate::plan::FaultPlan;
use ports::{Beat, Disk, Failed, Memory};
use std::alloc::Global;

/// A disk in memory. It keeps a record of all its writes, cuts and syncs, so that what a stop at any moment may have
/// left can be made of it.
#[derive(Drop)]
pub struct MemDisk {
    alloc: Global,
    plan: FaultPlan,
    beat: u64,
    history: History,
    ghost in_order: { All (λ number. number ≤ beat) (beats history.calls.items) },
}

impl MemDisk {
    ghost use Rattle.mem_devices.specs.MemDisk.{disk_state, recorded_beats, picked_bytes, IsNewDisk};

    /// A disk with these bytes. Of its writes, cuts and syncs together, those whose numbers, from 1, are in `fails` fail.
    pub fn new(alloc: Global, bytes: &[u8], fails: &[u64]) -> Result<Self, Memory>
        ensures { IfOk result (IsNewDisk bytes.now fails.now) }
    {
        Ok(MemDisk {
            alloc,
            plan: FaultPlan::new(alloc, fails)?,
            beat: 0,
            history: History::new(alloc, bytes)?,
        })
    }

    /// The number of calls in the record: all that were made, but for those that found no memory.
    pub fn moments(&self) -> u64
        ensures moment { result ≡ (disk_state self.now).moment }
        ensures calls { result ≡ length (recorded_beats self.now) }
        ensures bound { result < 2 ^ 63 }
    {
        self.history.calls.len() as u64
    }

    /// The beat's number of a call in the record, counted from 1.
    pub fn beat_of(&self, moment: u64) -> u64
        requires first { 1 ≤ moment }
        requires last { moment ≤ (disk_state self.now).moment }
        ensures { result ≡ slice_index (recorded_beats self.now) (moment - 1) }
    {
        self.history.calls[moment as usize - 1].beat
    }

    /// What a stop leaves during call `moment`, or where there is none, after the last one. The calls up to the last
    /// sync before it that succeeded are done. Of those behind it, the call `moment` with them, pick 0 takes none, pick 1
    /// all, pick 2 all with zero bytes in the written ranges, and pick 3 all with bytes 0xA5 there.
    pub fn image(&self, alloc: Global, moment: u64, pick: u32) -> Result<MemDisk, Memory>
        requires first { 1 ≤ moment }
        requires last { moment ≤ (disk_state self.now).moment + 1 }
        requires pick { pick ≤ 3 }
        ensures picked { IfOk result (IsNewDisk (picked_bytes pick moment self.now) []) }

        // It is one of those that a stop of the call's beat may leave since the call before, or that a stop now may.
        ensures during { moment ≤ (disk_state self.now).moment → (disk_state self.now).stops (slice_index (recorded_beats self.now) (moment - 1)) (moment - 1) (picked_bytes pick moment self.now) }
        ensures after { moment ≡ (disk_state self.now).moment + 1 → (disk_state self.now).images (picked_bytes pick moment self.now) }
    {
        let bytes = self
            .history
            .image(alloc, moment as usize - 1, Pick::of(pick))?;
        MemDisk::new(alloc, &bytes, &[])
    }

    /// All that stands on the disk.
    pub fn all_bytes(&self, alloc: Global) -> Result<Vec<u8>, Memory>
        ensures { IfOk result (λ bytes. (disk_state self.now).bytes ≡ Some bytes.items) }
    {
        Ok(Vec::from_slice(alloc, &self.history.bytes)?)
    }

    /// Fills `into` with the bytes from `at` on.
    pub(crate) fn copy_at(&self, at: u64, into: &mut [u8])
        requires { at + length into.old ≤ (disk_state self.now).size }
        ensures { IfSome (disk_state self.now).bytes (λ bytes. into.new ≡ bytes_at at (length into.old) bytes) }
    {
        let from = at as usize;
        into.copy_from_slice(&self.history.bytes[from..from + into.len()]);
    }

    // Begins a call, and says whether it is to fail.
    fn begin(&mut self, beat: &Beat) -> bool
        requires { (disk_state self.old).beat ≤ beat.now }
        ensures fails { result ≡ next_call_fails self.old.plan }
        ensures plan { self.new.plan ≡ with_call self.old.plan }
        ensures beat { self.new.beat ≡ beat.now }
        ensures history { self.new.history ≡ self.old.history }
    {
        self.beat = beat.number();
        self.plan.next_fails()
    }

    // Makes a call, which fails where it is to fail or where there is no memory for the record.
    fn call(&mut self, beat: &Beat, work: Work) -> Result<(), Failed>
        requires { (disk_state self.old).beat ≤ beat.now }
        ensures first { self.new.history.first.items ≡ self.old.history.first.items }
        ensures enters { Enters beat.now work self.old.history.bytes.items self.new.history.bytes.items self.old.history.calls.items self.new.history.calls.items result }
        ensures beat { self.new.beat ≡ beat.now }
        ensures fails { IsTrue (next_call_fails self.old.plan) → IsErr result }
        ensures plan { self.new.plan ≡ after_answer (is_ok result) self.old.plan }
        ensures cause { HasCause self.old.plan.faults self.new.plan.faults result }
    {
        let failed = self.begin(beat);
        let call = Call {
            beat: self.beat,
            failed,
            work,
        };
        let kept = self.history.add(call).is_ok();
        self.plan.answer(kept && !failed)
    }

    // A call that finds no memory for its bytes.
    fn give_up(&mut self, beat: &Beat) -> Result<(), Failed>
        requires { (disk_state self.old).beat ≤ beat.now }
        ensures first { self.new.history ≡ self.old.history }
        ensures beat { self.new.beat ≡ beat.now }
        ensures fails { IsErr result }
        ensures plan { self.new.plan ≡ after_answer false self.old.plan }
        ensures cause { HasCause self.old.plan.faults self.new.plan.faults result }
    {
        self.begin(beat);
        self.plan.answer(false)
    }
}

impl Disk for MemDisk {
    ghost use Rattle.mem_devices.specs.MemDisk.{disk_state, MakesCall};
    ghost use Rattle.mem_devices.specs.Lawful.{recorded_is_disk};

    type M = MemMeter;

    ghost state = { disk_state };

    fn size(&self) -> u64 {
        self.history.bytes.len() as u64
    }

    fn read_at(&self, meter: &mut MemMeter, at: u64, into: &mut [u8]) -> Result<(), Failed>
        requires { at + length into.old ≤ (disk_state self.now).size }
        ensures filled { OnOk result (IfSome (disk_state self.now).bytes (λ bytes. into.new ≡ bytes_at at (length into.old) bytes)) }
        ensures cause { HasCause meter.old.faults meter.new.faults result }

        // Which reads fail.
        ensures fails { is_ok result ≡ not (next_call_fails meter.old) }
        ensures plan { meter.new ≡ after_answer (is_ok result) meter.old }
    {
        meter.plan.call()?;
        self.copy_at(at, into);
        Ok(())
    }

    fn write_at(&mut self, beat: &Beat, at: u64, piece: &[u8]) -> Result<(), Failed>
        requires place { at ≤ (disk_state self.old).size }
        requires end { at + length piece.now < 2 ^ 63 }
        requires beat { (disk_state self.old).beat ≤ beat.now }
        ensures writes { Writes beat.now at piece.now (disk_state self.old) (disk_state self.new) result }
        ensures makes { MakesCall beat.now self.old self.new result }
    {
        match Vec::from_slice(self.alloc, piece) {
            Ok(piece) => self.call(beat, Work::Write(Patch { at, piece })),
            Err(_) => self.give_up(beat),
        }
    }

    fn cut(&mut self, beat: &Beat, size: u64) -> Result<(), Failed>
        requires size { size ≤ (disk_state self.old).size }
        requires beat { (disk_state self.old).beat ≤ beat.now }
        ensures cuts { Cuts beat.now size (disk_state self.old) (disk_state self.new) result }
        ensures makes { MakesCall beat.now self.old self.new result }
    {
        self.call(beat, Work::Cut(size))
    }

    fn sync(&mut self, beat: &Beat) -> Result<(), Failed>
        requires { (disk_state self.old).beat ≤ beat.now }
        ensures syncs { Syncs beat.now (disk_state self.old) (disk_state self.new) result }
        ensures makes { MakesCall beat.now self.old self.new result }
    {
        self.call(beat, Work::Sync)
    }

    ghost lawful = { λ disk. recorded_is_disk disk.history.first.items disk.history.bytes.items disk.history.calls.items disk.beat disk.plan.faults disk.history.replayed disk.in_order };
}
