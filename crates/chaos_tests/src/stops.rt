//! What a stop may leave of two engines, and what a resume finds there.
use crate::call::{call, call_at};
use crate::contents::{Contents, contents_of};
use crate::faults::{Fault, Kind, Object};
use crate::jobs::{RESUME, Small};
use crate::world::{World, world_on};
use engine_gate::OpenGate;
use mem_devices::MemDisk;
use std::alloc::Global;
use std::process::Abort;
use std::thread::Threads;

/// Adds the first of the images of a device that a stop during a call may leave, each once.
fn add_images(
    rt: &impl Abort,
    alloc: Global,
    disk: &MemDisk,
    moment: u64,
    picks: u32,
    images: &mut Vec<Vec<u8>>,
) {
    for pick in 0..picks {
        assert!(rt; 1 <= moment && moment <= disk.moments() + 1 && pick <= 3);
        let image = disk.image(alloc, moment, pick).expect(rt, "an image");
        let bytes = image.all_bytes(alloc).expect(rt, "room");
        if !images.contains(&bytes) {
            images.push(bytes).expect(rt, "room");
        }
    }
}

/// What a stop in a beat may leave of a device: images of its calls in the beat, and of when these were done.
fn images_in(rt: &impl Abort, alloc: Global, disk: &MemDisk, beat: u64) -> Vec<Vec<u8>> {
    let mut images = Vec::new(alloc);
    let last = disk.moments();
    for moment in 1..=last {
        let number = disk.beat_of(moment);
        if number > beat {
            add_images(rt, alloc, disk, moment, 1, &mut images);
            return images;
        }
        if number == beat {
            add_images(rt, alloc, disk, moment, 4, &mut images);
        }
    }
    add_images(rt, alloc, disk, last + 1, 4, &mut images);
    images
}

fn copy_of(rt: &impl Abort, alloc: Global, bytes: &[u8]) -> Vec<u8> {
    Vec::from_slice(alloc, bytes).expect(rt, "room")
}

pub(crate) fn copies_of(rt: &impl Abort, alloc: Global, devices: &[Vec<u8>]) -> Vec<Vec<u8>> {
    let mut copies = Vec::new(alloc);
    for bytes in devices {
        copies.push(copy_of(rt, alloc, bytes)).expect(rt, "room");
    }
    copies
}

fn add_pairs(
    rt: &impl Abort,
    alloc: Global,
    first: &[u8],
    seconds: &[Vec<u8>],
    pairs: &mut Vec<Vec<Vec<u8>>>,
) {
    for second in seconds {
        let mut pair = Vec::new(alloc);
        pair.push(copy_of(rt, alloc, first)).expect(rt, "room");
        pair.push(copy_of(rt, alloc, second)).expect(rt, "room");
        pairs.push(pair).expect(rt, "room");
    }
}

/// What a stop in a beat may leave of two devices.
pub(crate) fn pairs_in(
    rt: &impl Abort,
    alloc: Global,
    disks: &[MemDisk],
    beat: u64,
) -> Vec<Vec<Vec<u8>>> {
    let [first, second] = disks else {
        panic!(rt; "there are two engines");
    };
    let seconds = images_in(rt, alloc, second, beat);
    let mut pairs = Vec::new(alloc);
    for first in &images_in(rt, alloc, first, beat) {
        add_pairs(rt, alloc, first, &seconds, &mut pairs);
    }
    pairs
}

/// What stands where a call fails once, at one of a device: images of this one, and the others as they are. Nothing where
/// it makes fewer calls.
pub(crate) fn stopped<R: Threads + Sync + Abort>(
    rt: &R,
    alloc: Global,
    held: &Contents,
    job: &Small,
    words: &str,
    fault: &Fault,
) -> Vec<Contents> {
    let mut world = world_on(rt, alloc, 2, held, fault);
    let told = call_at(rt, alloc, &mut world, words, job.text, &OpenGate, fault);
    let mut stops = Vec::new(alloc);
    if told.status == 0 {
        return stops;
    }
    assert!(rt; told.is(3, told.out.written(), b"disk fault\n"));
    assert!(rt; job.answer.starts_with(told.out.written()));
    for image in last_images(rt, alloc, &world, fault.object) {
        let stop = with_image(rt, alloc, &world, fault.object, image);
        stops.push(stop).expect(rt, "room");
    }
    stops
}

/// The images of a graph device or a values device at its last call.
fn last_images(
    rt: &impl Abort,
    alloc: Global,
    world: &World<MemDisk>,
    object: Object,
) -> Vec<Vec<u8>> {
    let devices = match object.kind {
        Kind::Graph => &world.store.graphs,
        _ => &world.store.values,
    };
    let mut images = Vec::new(alloc);
    let disk = devices.get(object.engine as usize).expect(rt, "a device");
    add_images(rt, alloc, disk, disk.moments(), 4, &mut images);
    images
}

/// What stands, with these bytes on one device.
fn with_image(
    rt: &impl Abort,
    alloc: Global,
    world: &World<MemDisk>,
    object: Object,
    image: Vec<u8>,
) -> Contents {
    let mut held = contents_of(rt, alloc, world);
    let devices = match object.kind {
        Kind::Graph => &mut held.graphs,
        _ => &mut held.values,
    };
    let engine = object.engine as usize;
    assert!(rt; engine < devices.len());
    devices[engine] = image;
    held
}

/// A resume prints the answer, or there is nothing to go on with. Whether it printed it.
pub(crate) fn is_resumed<R: Threads + Sync + Abort>(
    rt: &R,
    alloc: Global,
    held: &Contents,
    job: &Small,
) -> bool {
    let mut world = world_on(rt, alloc, 2, held, &Fault::NONE);
    let told = call(rt, alloc, &mut world, RESUME, b"");
    if told.status == 0 {
        assert!(rt; told.is(0, job.answer, b""));
        return true;
    }
    assert!(rt; told.is(8, b"", b"store is not prepared\n"));
    false
}
