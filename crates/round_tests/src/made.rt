//! Stores that are made of a text, and may have some calls that fail.
ghost use Rattle.std.specs.Prelude.{◌≡◌, ℕ, ◌≤◌, IfSome, length, vec_len};
ghost use Rattle.std.specs.List.{All};
ghost use Rattle.graph_model.specs.Jobs.{IsWellFormedJob};
ghost use Rattle.mem_devices.specs.MemDisk.{disk_state};
ghost use Rattle.chunk_object.specs.History.{most_chunks};
ghost use Rattle.store_reader.specs.Indexed.{lens_of};
ghost use Rattle.round_steps.specs.Going.{IsStore};
ghost use Rattle.partitioner.specs.Splits.{split_for};

use crate::faults::{Called, Fault};
use chunk_file::Index;
use graph_model::Job;
use mem_devices::{MemDisk, MemMeter, SureSource};
use ports::Beat;
use std::alloc::Global;
use std::process::Abort;
use storage_engine::{PrepareFault, prepare};
use store_reader::Store;

/// A device for each engine.
fn devices(
    rt: &impl Abort,
    alloc: Global,
    engines: u32,
    called: Called,
    worker: u32,
    fault: &Fault,
) -> Vec<MemDisk>
    ensures many { vec_len result ≡ engines }
    ensures beats { All (λ disk. (disk_state disk).beat ≤ 0) result.items }
{
    let mut devices = Vec::new(alloc);
    for engine in 0..engines {
        let disk = fault.disk(rt, alloc, called, worker, engine);
        devices.push(disk).expect(rt, "room");
    }
    devices
}

/// A row of lanes for each worker.
pub(crate) fn rows(rt: &impl Abort, alloc: Global, engines: u32, fault: &Fault) -> Vec<Vec<MemDisk>>
    ensures many { vec_len result ≡ engines }
    ensures rows { All (λ row. (length row.items ≡ engines) × All (λ disk. (disk_state disk).beat ≤ 0) row.items) result.items }
{
    let mut rows = Vec::new(alloc);
    for worker in 0..engines {
        let row = devices(rt, alloc, engines, Called::Lane, worker, fault);
        rows.push(row).expect(rt, "room");
    }
    rows
}

/// So many meters.
pub(crate) fn meters(rt: &impl Abort, alloc: Global, many: u32, fault: &Fault) -> Vec<MemMeter>
    ensures { vec_len result ≡ many }
{
    let mut meters = Vec::new(alloc);
    for worker in 0..many {
        let meter = fault.meter(rt, alloc, worker);
        meters.push(meter).expect(rt, "room");
    }
    meters
}

/// A store with the places of its chunks.
#[derive(Drop)]
pub(crate) struct Made {
    pub store: Store<MemDisk>,
    pub index: Index,
    pub beat: Beat,
}

/// The store of a text, if no call failed.
pub(crate) fn make(
    rt: &impl Abort,
    alloc: Global,
    job: &Job,
    text: &str,
    fault: &Fault,
) -> Option<Made>
    requires job { IsWellFormedJob job.now }
    requires format { job.now.format ≡ 2 }
    ensures store { IfSome result (λ made. IsStore disk_state (split_for job.now) made.beat made.store) }
    ensures few { IfSome result (λ made. (cursor : ℕ) → lens_of made.index cursor ≤ most_chunks) }
{
    let mut source = SureSource::new(alloc, text.as_bytes()).expect(rt, "a source");
    let mut meter = Fault::NONE.meter(rt, alloc, 0);
    let mut beat = Beat::new();
    let mut store = Store {
        graphs: devices(rt, alloc, job.engines, Called::Values, 0, &Fault::NONE),
        values: devices(rt, alloc, job.engines, Called::Values, 0, fault),
        lanes: rows(rt, alloc, job.engines, fault),
        spills: devices(rt, alloc, job.engines, Called::Spill, 0, fault),
    };
    match prepare(alloc, job, &mut source, &mut store, &mut meter, &mut beat) {
        Ok(index) => {
            assert!(rt; index.total() < 10_000);
            Some(Made { store, index, beat })
        }
        Err(refused) => {
            assert!(rt; refused == PrepareFault::DiskFault);
            None
        }
    }
}
