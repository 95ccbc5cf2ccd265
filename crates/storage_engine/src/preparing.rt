//! A store, made of a text.
ghost use Rattle.std.specs.Prelude.{◌≡◌, ◌≢◌, ◌⊎◌, ◌+◌, ◌≤◌, ◌^◌, List, length, Err, IfOk, OnOk, IfErr};
ghost use Rattle.std.specs.List.{All};
ghost use Rattle.graph_model.specs.declared.edge.Edge.{Edge};
ghost use Rattle.graph_model.specs.Jobs.{IsWellFormedJob};
ghost use Rattle.ports.specs.Disk.{InEveryImage};
ghost use Rattle.ports.specs.Faults.{Rose};
ghost use Rattle.ports.specs.Devices.{Each, OneRose, NoneRose};
ghost use Rattle.store_model.specs.Heads.{IsShutGraph};
ghost use Rattle.storage_engine.specs.Making.{IsFlushed, IsBlankDevice};
ghost use Rattle.storage_engine.specs.Preparing.{HasReadAll, HasPrepareCause, IsOfText, Prepares};
ghost use Rattle.storage_engine.specs.Steps.{Anything, Step, EachOne};

use crate::begin::begin_devices;
use crate::each_device::open_all;
use crate::fault::PrepareFault;
use crate::maker::{Maker, zero_bytes};
use crate::text::{make_chunks, stopped};
use chunk_file::Index;
use graph_model::Job;
use partitioner::Split;
use ports::{Beat, Disk, Source};
use std::alloc::Global;
use store_reader::Store;

/// The bytes that are asked of the source at once.
const PIECE: usize = 65_536;

/// Makes the store of a job of format 2 out of the text that is left in the source, which is read to its end: each graph
/// device is then the head and the chunks that are placed there, and both slots of each values device are closed. The
/// gates of the heads are opened last, in a beat of their own, when all else is synced. Lanes and spills stay as they are.
///
/// # Errors
///
/// `BadLine` and `TooLong` where the text is refused, `ReadFault` where the count of the source rose, `DiskFault` where
/// that of a device did, and `Memory`. The count of the source rises in no other answer than `ReadFault`, and those of
/// the devices in no other than `DiskFault`. After an error a graph device that was not open is not open, or the fault
/// was in the opening of the gates.
pub fn prepare<S: Source, D: Disk>(
    alloc: Global,
    job: &Job,
    source: &mut S,
    store: &mut Store<D>,
    meter: &mut D::M,
    beat: &mut Beat,
) -> Result<Index, PrepareFault>
    requires job { IsWellFormedJob job.now }
    requires format { job.now.format ≡ 2 }
    requires graphs { length store.old.graphs.items ≡ job.now.engines }
    requires values { length store.old.values.items ≡ job.now.engines }
    requires graph_beats { All (λ disk. (D.state disk).beat ≤ beat.old) store.old.graphs.items }
    requires value_beats { All (λ disk. (D.state disk).beat ≤ beat.old) store.old.values.items }
    requires room { beat.old ≤ 2 ^ 63 + 10 }
    ensures rest { (store.new.lanes ≡ store.old.lanes) × (store.new.spills ≡ store.old.spills) × (meter.new ≡ meter.old) }
    ensures source { S.faults source.old ≤ S.faults source.new }
    ensures calm { result ≢ Err PrepareFault.ReadFault → S.faults source.new ≡ S.faults source.old }
    ensures prepares { Prepares D.state job.now (S.left source.old) (S.left source.new) beat.old beat.new (Rose (S.faults source.old) (S.faults source.new))
        store.old.graphs.items store.new.graphs.items store.old.values.items store.new.values.items result }
{
    let _meter = meter;
    prepare_devices(
        alloc,
        job,
        source,
        &mut store.graphs,
        &mut store.values,
        beat,
    )
}

/// The same, of the devices in two slices.
fn prepare_devices<S: Source, D: Disk>(
    alloc: Global,
    job: &Job,
    source: &mut S,
    graphs: &mut [D],
    values: &mut [D],
    beat: &mut Beat,
) -> Result<Index, PrepareFault>
    requires job { IsWellFormedJob job.now }
    requires format { job.now.format ≡ 2 }
    requires graphs { length graphs.old ≡ job.now.engines }
    requires values { length values.old ≡ job.now.engines }
    requires graph_beats { All (λ disk. (D.state disk).beat ≤ beat.old) graphs.old }
    requires value_beats { All (λ disk. (D.state disk).beat ≤ beat.old) values.old }
    requires room { beat.old ≤ 2 ^ 63 + 10 }
    ensures source { S.faults source.old ≤ S.faults source.new }
    ensures calm { result ≢ Err PrepareFault.ReadFault → S.faults source.new ≡ S.faults source.old }
    ensures prepares { Prepares D.state job.now (S.left source.old) (S.left source.new) beat.old beat.new (Rose (S.faults source.old) (S.faults source.new)) graphs.old graphs.new values.old values.new result }
{
    let index = match make_closed(alloc, job, source, graphs, values, beat) {
        Ok(index) => index,
        Err(fault) => return Err(fault),
    };
    beat.next();
    match open_all(graphs, beat) {
        Ok(()) => Ok(index),
        Err(_) => Err(PrepareFault::DiskFault),
    }
}

/// Makes all of a store but its open gates.
fn make_closed<S: Source, D: Disk>(
    alloc: Global,
    job: &Job,
    source: &mut S,
    graphs: &mut [D],
    values: &mut [D],
    beat: &Beat,
) -> Result<Index, PrepareFault>
    requires job { IsWellFormedJob job.now }
    requires format { job.now.format ≡ 2 }
    requires graphs { length graphs.old ≡ job.now.engines }
    requires values { length values.old ≡ job.now.engines }
    requires graph_beats { All (λ disk. (D.state disk).beat ≤ beat.now) graphs.old }
    requires value_beats { All (λ disk. (D.state disk).beat ≤ beat.now) values.old }
    ensures graphs { Each D.state (Step IsShutGraph beat.now) graphs.old graphs.new }
    ensures values { Each D.state (Step Anything beat.now) values.old values.new }
    ensures made { IfOk result (λ index. (graph : List Edge) × HasReadAll job.now (S.left source.old) (S.left source.new) graph × IsFlushed D.state job.now graph index graphs.new) }
    ensures blank { OnOk result (EachOne D.state (λ e old new. IsBlankDevice job.now e new) values.old values.new) }
    ensures source { S.faults source.old ≤ S.faults source.new }
    ensures shut { IfErr result (λ fault. IsOfText fault → All (λ disk. InEveryImage (D.state disk) IsShutGraph) graphs.new) }
    ensures cause { IfErr result (HasPrepareCause job.now (S.left source.old) (OneRose D.state graphs.old graphs.new ⊎ OneRose D.state values.old values.new) (Rose (S.faults source.old) (S.faults source.new))) }
    ensures calm { result ≢ Err PrepareFault.ReadFault → S.faults source.new ≡ S.faults source.old }
    ensures calm_devices { result ≢ Err PrepareFault.DiskFault → NoneRose D.state graphs.old graphs.new × NoneRose D.state values.old values.new }
{
    let split = Split::of_job(job);
    let Ok(mut piece) = zero_bytes(alloc, PIECE) else {
        return Err(PrepareFault::Memory);
    };
    if let Err(_) = begin_devices(job, &split, graphs, values, &piece, beat) {
        return Err(PrepareFault::DiskFault);
    }
    let Ok(mut maker) = Maker::new(alloc, job, split.parts, split.span, graphs) else {
        return Err(PrepareFault::Memory);
    };
    if let Err(fault) = make_chunks(alloc, source, &mut maker, graphs, &mut piece, beat) {
        return Err(fault);
    }
    match maker.flush(graphs, beat) {
        Ok(index) => Ok(index),
        Err(fault) => Err(stopped(fault)),
    }
}
