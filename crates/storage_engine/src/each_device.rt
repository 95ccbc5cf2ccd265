//! The steps in which a store is made, engine by engine.
ghost use Rattle.std.specs.Prelude.{◌≡◌, ◌+◌, ◌*◌, ◌<◌, ◌≤◌, [], ◌∷◌, length, replicate, OnOk, OnErr};
ghost use Rattle.std.specs.List.{All};
ghost use Rattle.ports.specs.Disk.{InEveryImage, IsSettled};
ghost use Rattle.ports.specs.Devices.{Each, OneRose, NoneRose};
ghost use Rattle.graph_model.specs.Jobs.{IsWellFormedJob};
ghost use Rattle.partitioner.specs.Splits.{IsSplit};
ghost use Rattle.store_model.specs.Heads;
ghost use Rattle.store_model.specs.Heads.{IsShutGraph, front};
ghost use Rattle.store_model.specs.Slots;
ghost use Rattle.store_reader.specs.Reading.{own_in};
ghost use Rattle.storage_engine.specs.Steps.{Anything, Step, EachOne, IsClosedFront, HoldsExactly, Appended, Synced, Opens, Opened};

use crate::device_steps::{clear, open_gate, sync_closed, write_front, write_mark, write_zeros};
use crate::head::front_of;
use graph_model::Job;
use partitioner::Split;
use ports::{Beat, Disk, Failed};

/// Empties each device.
pub(crate) fn clear_all<D: Disk>(disks: &mut [D], beat: &Beat) -> Result<(), Failed>
    requires beats { All (λ disk. (D.state disk).beat ≤ beat.now) disks.old }
    ensures steps { Each D.state (Step IsShutGraph beat.now) disks.old disks.new }
    ensures done { OnOk result (EachOne D.state (λ e old new. HoldsExactly [] new) disks.old disks.new) }
    ensures rose { OnErr result (OneRose D.state disks.old disks.new) }
    ensures calm { OnOk result (NoneRose D.state disks.old disks.new) }
{
    for e in 0..disks.len() {
        clear(&mut disks[e], beat)?;
    }
    Ok(())
}

/// Writes all but the mark of a head, its gate closed, to each of the empty graph devices of a job.
pub(crate) fn write_fronts<D: Disk>(job: &Job, disks: &mut [D], beat: &Beat) -> Result<(), Failed>
    requires beats { All (λ disk. (D.state disk).beat ≤ beat.now) disks.old }
    requires job { IsWellFormedJob job.now }
    requires few { length disks.old ≤ 8 }
    requires emptied { All (λ disk. HoldsExactly [] (D.state disk)) disks.old }
    ensures steps { Each D.state (Step IsShutGraph beat.now) disks.old disks.new }
    ensures done { OnOk result (EachOne D.state (λ e old new. HoldsExactly (front 0 job.now e) new) disks.old disks.new) }
    ensures rose { OnErr result (OneRose D.state disks.old disks.new) }
    ensures calm { OnOk result (NoneRose D.state disks.old disks.new) }
{
    for e in 0..disks.len() {
        write_front(&mut disks[e], &front_of(job, e as u32), beat)?;
    }
    Ok(())
}

/// Writes the mark behind the front of each head.
pub(crate) fn write_marks<D: Disk>(disks: &mut [D], beat: &Beat) -> Result<(), Failed>
    requires beats { All (λ disk. (D.state disk).beat ≤ beat.now) disks.old }
    requires size { All (λ disk. (D.state disk).size ≡ 64) disks.old }
    ensures steps { Each D.state (Step IsClosedFront beat.now) disks.old disks.new }
    ensures done { OnOk result (EachOne D.state (λ e old new. Appended (Heads.MARK ∷ []) old new) disks.old disks.new) }
    ensures rose { OnErr result (OneRose D.state disks.old disks.new) }
    ensures calm { OnOk result (NoneRose D.state disks.old disks.new) }
{
    for e in 0..disks.len() {
        write_mark(&mut disks[e], beat)?;
    }
    Ok(())
}

/// Syncs each graph device.
pub(crate) fn sync_all<D: Disk>(disks: &mut [D], beat: &Beat) -> Result<(), Failed>
    requires beats { All (λ disk. (D.state disk).beat ≤ beat.now) disks.old }
    ensures steps { Each D.state (Step IsClosedFront beat.now) disks.old disks.new }
    ensures done { OnOk result (EachOne D.state (λ e old new. Synced old new) disks.old disks.new) }
    ensures rose { OnErr result (OneRose D.state disks.old disks.new) }
    ensures calm { OnOk result (NoneRose D.state disks.old disks.new) }
{
    for e in 0..disks.len() {
        sync_closed(&mut disks[e], beat)?;
    }
    Ok(())
}

/// Writes the whole size of each of the empty values devices in zero bytes.
pub(crate) fn write_all_zeros<D: Disk>(
    split: &Split,
    zeros: &[u8],
    disks: &mut [D],
    beat: &Beat,
) -> Result<(), Failed>
    requires beats { All (λ disk. (D.state disk).beat ≤ beat.now) disks.old }
    requires split { IsSplit split.now }
    requires many { length disks.old ≤ split.now.engines }
    requires emptied { All (λ disk. HoldsExactly [] (D.state disk)) disks.old }
    requires some { 0 < length zeros.now }
    requires zeros { zeros.now ≡ replicate (length zeros.now) 0 }
    ensures steps { Each D.state (Step Anything beat.now) disks.old disks.new }
    ensures done { OnOk result (EachOne D.state (λ e old new. HoldsExactly (replicate (Slots.device_size (own_in split.now e)) 0) new) disks.old disks.new) }
    ensures rose { OnErr result (OneRose D.state disks.old disks.new) }
    ensures calm { OnOk result (NoneRose D.state disks.old disks.new) }
{
    for e in 0..disks.len() {
        let size = device_size(split.own(e as u32));
        write_zeros(&mut disks[e], size, zeros, beat)?;
    }
    Ok(())
}

/// Opens the gate of each graph device.
pub(crate) fn open_all<D: Disk>(disks: &mut [D], beat: &Beat) -> Result<(), Failed>
    requires beats { All (λ disk. (D.state disk).beat ≤ beat.now) disks.old }
    requires size { All (λ disk. 0 < (D.state disk).size) disks.old }
    requires settled { All (λ disk. IsSettled (D.state disk)) disks.old }
    requires closed { All (λ disk. InEveryImage (D.state disk) IsClosedFront) disks.old }
    ensures opens { Each D.state (Opens beat.now) disks.old disks.new }
    ensures done { OnOk result (EachOne D.state (λ e old new. Opened old new) disks.old disks.new) }
    ensures rose { OnErr result (OneRose D.state disks.old disks.new) }
    ensures calm { OnOk result (NoneRose D.state disks.old disks.new) }
{
    for e in 0..disks.len() {
        open_gate(&mut disks[e], beat)?;
    }
    Ok(())
}

/// The size of the values device of an engine with so many vertices.
fn device_size(own: u32) -> u64
    ensures { result ≡ Slots.device_size own }
{
    2 * (24 + 16 * u64::from(own))
}
