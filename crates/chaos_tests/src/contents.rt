//! What stands on the devices of a store, and what a stop may leave of it.

use crate::call::call;
use crate::jobs::Small;
use crate::world::{World, new_world};
use mem_devices::MemDisk;
use std::alloc::Global;
use std::process::Abort;
use std::thread::Threads;

/// The bytes of devices, in order of engines. A device that has none here is empty.
#[derive(Drop)]
pub(crate) struct Contents {
    pub graphs: Vec<Vec<u8>>,
    pub values: Vec<Vec<u8>>,
    /// Each worker has these on its lanes, and the engines have them on their spills.
    pub lanes: Vec<Vec<u8>>,
}

impl Contents {
    pub(crate) fn empty(alloc: Global) -> Contents {
        Contents {
            graphs: Vec::new(alloc),
            values: Vec::new(alloc),
            lanes: Vec::new(alloc),
        }
    }
}

fn bytes_of_each(rt: &impl Abort, alloc: Global, disks: &[MemDisk]) -> Vec<Vec<u8>> {
    let mut all = Vec::new(alloc);
    for disk in disks {
        all.push(disk.all_bytes(alloc).expect(rt, "room"))
            .expect(rt, "room");
    }
    all
}

/// What stands on the devices that outlive a run.
pub(crate) fn contents_of(rt: &impl Abort, alloc: Global, world: &World<MemDisk>) -> Contents {
    Contents {
        graphs: bytes_of_each(rt, alloc, &world.store.graphs),
        values: bytes_of_each(rt, alloc, &world.store.values),
        lanes: Vec::new(alloc),
    }
}

/// The bytes with another one at a place.
pub(crate) fn set_byte(
    rt: &impl Abort,
    devices: &mut [Vec<u8>],
    engine: usize,
    at: usize,
    byte: u8,
) {
    assert!(rt; engine < devices.len());
    let bytes = &mut devices[engine];
    assert!(rt; at < bytes.len());
    bytes[at] = byte;
}

/// What stands after a run of a job on two engines.
pub(crate) fn after_run<R: Threads + Sync + Abort>(rt: &R, alloc: Global, job: &Small) -> Contents {
    let mut world = new_world(rt, alloc, 2);
    let told = call(rt, alloc, &mut world, job.run, job.text);
    assert!(rt; told.is(0, job.answer, b""));
    contents_of(rt, alloc, &world)
}

/// The same of three vertices, but the last round is not kept, on neither engine. It was an odd one.
pub(crate) fn before_last_round<R: Threads + Sync + Abort>(
    rt: &R,
    alloc: Global,
    job: &Small,
) -> Contents {
    let mut held = after_run(rt, alloc, job);
    // the first engine has two vertices, and the second has one
    set_byte(rt, &mut held.values, 0, 24 + 2 * 16, 0);
    set_byte(rt, &mut held.values, 1, 24 + 16, 0);
    held
}
