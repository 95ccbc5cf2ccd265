//! The files of a store.
ghost use Rattle.std.specs.Prelude.{◌≡◌, ◌+◌, ◌≤◌, [], ◌∷◌, ◌++◌, length, IfOk, OnOk};
ghost use Rattle.real_devices.specs.FileState.{untold};
ghost use Rattle.ports.specs.Devices.{AreDevices, AreRows};
ghost use Rattle.chaos_cli.specs.Files.{AreFiles, AreNumbered, AreNumberedRows};

use itoa::Buffer;
use real_devices::{CountMeter, FileDisk, OpenFault, make_folder, sync_folder};
use std::alloc::{AllocError, Global};
use std::fs::File;
use std::rt::Files;
use store_reader::Store;

/// The folder of the files, in the current one.
const FOLDER: &str = "chaos_store";

/// Numbers of files begin so far apart for each kind: no more than 8 graph files, 8 values files and 64 lanes.
const VALUES: u32 = 8;

const LANES: u32 = 16;

const SPILLS: u32 = 80;

/// Opens the files of a store of so many engines, or makes those that are missing. No folder is made for none.
pub fn open_store<R: Files<File = File> + Clone + Drop + Send + Sync>(
    rt: &R,
    alloc: Global,
    engines: u32,
) -> Result<Store<FileDisk<R>>, OpenFault>
    requires { engines ≤ 8 }
    ensures { IfOk result (AreFiles engines) }
{
    if engines > 0 {
        make_folder(rt, FOLDER)?;
    }
    let graphs = open_files(rt, alloc, "graph", 0, engines)?;
    let values = open_files(rt, alloc, "values", VALUES, engines)?;
    let lanes = open_lanes(rt, alloc, engines)?;
    let spills = open_files(rt, alloc, "spill", SPILLS, engines)?;
    if engines > 0 {
        sync_folder(rt, FOLDER)?;
    }
    Ok(Store {
        graphs,
        values,
        lanes,
        spills,
    })
}

/// One meter for each engine, and one for the main thread.
pub fn make_meters<R: Files<File = File> + Clone + Drop + Send + Sync>(
    rt: &R,
    alloc: Global,
    engines: u32,
) -> Result<Vec<CountMeter<R>>, OpenFault>
    requires { engines ≤ 8 }
    ensures { IfOk result (λ meters. length meters.items ≡ engines + 1) }
{
    let mut meters = Vec::new(alloc);
    'meters: for _ in 0..engines + 1 {
        match CountMeter::new(rt) {
            Ok(meter) => put(&mut meters, meter)?,
            Err(_) => return Err(OpenFault::Memory),
        }
    }
    Ok(meters)
}

/// The lanes of each worker.
#[tactic(auto, using(crate::proofs::Numbers::numbered_rows_more))]
fn open_lanes<R: Files<File = File> + Clone + Drop + Send + Sync>(
    rt: &R,
    alloc: Global,
    engines: u32,
) -> Result<Vec<Vec<FileDisk<R>>>, OpenFault>
    requires { engines ≤ 8 }
    ensures rows { IfOk result (λ lanes. AreRows untold engines 0 lanes.items) }
    ensures numbers { IfOk result (λ lanes. AreNumberedRows 16 lanes.items) }
{
    let mut lanes = Vec::new(alloc);
    'workers: for worker in 0..engines {
        let name = numbered(alloc, "lane", worker)?;
        let row = open_files(rt, alloc, &name, LANES + 8 * worker, engines)?;
        put(&mut lanes, row)?;
    }
    Ok(lanes)
}

/// The files of this name, one for each engine; their numbers begin with the first.
fn open_files<R: Files<File = File> + Clone + Drop + Send + Sync>(
    rt: &R,
    alloc: Global,
    name: &str,
    first: u32,
    engines: u32,
) -> Result<Vec<FileDisk<R>>, OpenFault>
    requires { first + engines ≤ 100 }
    ensures devices { IfOk result (λ disks. AreDevices untold engines 0 disks.items) }
    ensures numbers { IfOk result (λ disks. AreNumbered first disks.items) }
{
    let mut disks = Vec::new(alloc);
    'engines: for engine in 0..engines {
        let path = path_of(alloc, name, engine)?;
        let disk = FileDisk::open(rt, alloc, first + engine, &path)?;
        put(&mut disks, disk)?;
    }
    Ok(disks)
}

/// Puts an item behind the others.
fn put<T: Drop>(items: &mut Vec<T>, item: T) -> Result<(), OpenFault>
    ensures { OnOk result (items.new.items ≡ items.old.items ++ item ∷ []) }
{
    match items.push(item) {
        Ok(()) => Ok(()),
        Err(_) => Err(OpenFault::Memory),
    }
}

/// The path of a file of an engine.
fn path_of(alloc: Global, name: &str, engine: u32) -> Result<String, AllocError> {
    let mut path = String::from_str(alloc, FOLDER)?;
    path.push_str("/")?;
    path.push_str(&numbered(alloc, name, engine)?)?;
    Ok(path)
}

/// A name with a number behind it.
fn numbered(alloc: Global, name: &str, number: u32) -> Result<String, AllocError> {
    let mut text = String::from_str(alloc, name)?;
    text.push_str("_")?;
    text.push_str(Buffer::new().format(number))?;
    Ok(text)
}
