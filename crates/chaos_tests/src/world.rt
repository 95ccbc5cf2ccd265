//! All that a call of the program is handed but its words and streams.
ghost use Rattle.std.specs.Prelude.{◌≡◌, ◌+◌, ◌≤◌, length};
ghost use Rattle.mem_devices.specs.MemDisk.{disk_state};
ghost use Rattle.round_loop.specs.Keeping.{moment};
ghost use Rattle.ports.specs.Devices.{AreDevices, AreRows};
ghost use Rattle.run_model.specs.Calls.{IsReady};

use crate::contents::Contents;
use crate::faults::{Fault, Kind, Object};
use chunk_cursor::{CursorSeat, CursorTable};
use epoch_seats::new_seat_is_between_epochs;
use mem_devices::{MemDisk, MemMeter};
use ports::{Beat, Disk};
use std::alloc::Global;
use std::process::Abort;
use store_reader::Store;

/// A store of so many engines, with meters, a table, a seat and a beat of its own.
#[derive(Drop)]
pub(crate) struct World<D: Disk> {
    pub engines: u32,
    pub store: Store<D>,
    pub meters: Vec<D::M>,
    pub table: CursorTable,
    pub seat: CursorSeat,
    pub beat: Beat,
}

/// A world of devices that have had no call.
pub(crate) fn world_with<D: Disk>(
    rt: &impl Abort,
    alloc: Global,
    engines: u32,
    store: Store<D>,
    meters: Vec<D::M>,
) -> World<D>
    requires graphs { AreDevices D.state engines 0 store.graphs.items }
    requires values { AreDevices D.state engines 0 store.values.items }
    requires lanes { AreRows D.state engines 0 store.lanes.items }
    requires spills { AreDevices D.state engines 0 store.spills.items }
    requires meters { length meters.items ≡ engines + 1 }
    ensures ready { IsReady D.state engines (moment result.store result.meters.items result.seat.view result.beat) }
    ensures engines { result.engines ≡ engines }
    ensures table { result.seat.table ≡ result.table }
{
    let (table, seat) = CursorTable::new(alloc).expect(rt, "a table");
    new_seat_is_between_epochs();
    World {
        engines,
        store,
        meters,
        table,
        seat,
        beat: Beat::new(),
    }
}

/// A world on which this stands, and where this call fails.
pub(crate) fn world_on(
    rt: &impl Abort,
    alloc: Global,
    engines: u32,
    held: &Contents,
    fault: &Fault,
) -> World<MemDisk>
    requires { engines ≤ 8 }
    ensures ready { IsReady disk_state engines (moment result.store result.meters.items result.seat.view result.beat) }
    ensures engines { result.engines ≡ engines }
    ensures table { result.seat.table ≡ result.table }
{
    let store = Store {
        graphs: devices(rt, alloc, engines, Kind::Graph, 0, &held.graphs, fault),
        values: devices(rt, alloc, engines, Kind::Values, 0, &held.values, fault),
        lanes: rows(rt, alloc, engines, &held.lanes, fault),
        spills: devices(rt, alloc, engines, Kind::Spill, 0, &held.lanes, fault),
    };
    let meters = meters(rt, alloc, engines, fault);
    world_with(rt, alloc, engines, store, meters)
}

/// A world on which nothing stands, and where this call fails.
pub(crate) fn world_of(
    rt: &impl Abort,
    alloc: Global,
    engines: u32,
    fault: &Fault,
) -> World<MemDisk>
    requires { engines ≤ 8 }
    ensures ready { IsReady disk_state engines (moment result.store result.meters.items result.seat.view result.beat) }
    ensures engines { result.engines ≡ engines }
    ensures table { result.seat.table ≡ result.table }
{
    world_on(rt, alloc, engines, &Contents::empty(alloc), fault)
}

/// A world on which nothing stands, and where no call fails.
pub(crate) fn new_world(rt: &impl Abort, alloc: Global, engines: u32) -> World<MemDisk>
    requires { engines ≤ 8 }
    ensures ready { IsReady disk_state engines (moment result.store result.meters.items result.seat.view result.beat) }
    ensures engines { result.engines ≡ engines }
    ensures table { result.seat.table ≡ result.table }
{
    world_of(rt, alloc, engines, &Fault::NONE)
}

/// What a device holds; nothing where it has no bytes.
fn held_by(held: &[Vec<u8>], engine: u32) -> &[u8] {
    match held.get(engine as usize) {
        Some(bytes) => bytes.as_slice(),
        None => &[],
    }
}

/// A device for each engine.
fn devices(
    rt: &impl Abort,
    alloc: Global,
    engines: u32,
    kind: Kind,
    worker: u32,
    held: &[Vec<u8>],
    fault: &Fault,
) -> Vec<MemDisk>
    ensures { AreDevices disk_state engines 0 result.items }
{
    let mut devices = Vec::new(alloc);
    for engine in 0..engines {
        let object = Object::new(kind, worker, engine);
        let fails = [fault.at(object)];
        let disk = MemDisk::new(alloc, held_by(held, engine), &fails).expect(rt, "a device");
        devices.push(disk).expect(rt, "room");
    }
    devices
}

/// A row of lanes for each worker.
fn rows(
    rt: &impl Abort,
    alloc: Global,
    engines: u32,
    held: &[Vec<u8>],
    fault: &Fault,
) -> Vec<Vec<MemDisk>>
    ensures { AreRows disk_state engines 0 result.items }
{
    let mut rows = Vec::new(alloc);
    for worker in 0..engines {
        let row = devices(rt, alloc, engines, Kind::Lane, worker, held, fault);
        rows.push(row).expect(rt, "room");
    }
    rows
}

/// A meter for each worker, and one for the calling thread.
fn meters(rt: &impl Abort, alloc: Global, engines: u32, fault: &Fault) -> Vec<MemMeter>
    requires { engines ≤ 8 }
    ensures { length result.items ≡ engines + 1 }
{
    let mut meters = Vec::new(alloc);
    for engine in 0..engines + 1 {
        let fails = [fault.at(Object::new(Kind::Meter, 0, engine))];
        let meter = MemMeter::new(alloc, &fails).expect(rt, "a meter");
        meters.push(meter).expect(rt, "room");
    }
    meters
}

/// The number of calls of devices, and of bytes on them, modulo 2^64.
#[derive(Clone, Copy, PartialEq, Eq, Debug)]
pub(crate) struct Sums {
    pub calls: u64,
    pub bytes: u64,
}

fn add(sums: &mut Sums, disks: &[MemDisk]) {
    for disk in disks {
        sums.calls = sums.calls.wrapping_add(disk.moments());
        sums.bytes = sums.bytes.wrapping_add(disk.size());
    }
}

/// Those of all devices of a store.
pub(crate) fn sums_of(store: &Store<MemDisk>) -> Sums {
    let mut sums = Sums { calls: 0, bytes: 0 };
    add(&mut sums, &store.graphs);
    add(&mut sums, &store.values);
    add(&mut sums, &store.spills);
    for row in &store.lanes {
        add(&mut sums, row);
    }
    sums
}

/// The number of calls of a device; 0 of other objects.
pub(crate) fn calls_at(store: &Store<MemDisk>, object: Object) -> u64 {
    let disk = match object.kind {
        Kind::Graph => store.graphs.get(object.engine as usize),
        Kind::Values => store.values.get(object.engine as usize),
        Kind::Spill => store.spills.get(object.engine as usize),
        Kind::Lane => lane_at(&store.lanes, object),
        Kind::Meter | Kind::Source | Kind::Out | Kind::Err => None,
    };
    match disk {
        Some(disk) => disk.moments(),
        None => 0,
    }
}

fn lane_at(lanes: &[Vec<MemDisk>], object: Object) -> Option<&MemDisk> {
    lanes
        .get(object.worker as usize)?
        .get(object.engine as usize)
}
