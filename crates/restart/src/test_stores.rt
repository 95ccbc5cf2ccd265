// Stores whose bytes were written by hand, and what is recovered of them.
ghost use Rattle.std.specs.Prelude.{◌≡◌, ◌≤◌, length};
ghost use Rattle.std.specs.List.{All};
ghost use Rattle.mem_devices.specs.MemDisk.{disk_state};

use crate::{RecoverFault, Recovered, recover};
use mem_devices::{MemDisk, MemMeter};
use std::alloc::Global;
use std::process::Abort;
use std::test::*;
use store_reader::{Part, Store};

/// Shortest distances from vertex 0 of three, on one engine, in format 1, with one chunk of three edges.
pub(crate) const GRAPH_1: [u8; 109] = [
    0xA5, 1, 1, 0, 2, 0, 0, 0, // gate, format, engines, engine, program, zero
    0, 0, 0, 0, 0, 0, 0, 0, // argument
    0, 0, 0, 0, 0, 0, 0, 3, // vertices
    0, 0, 0, 0, 0, 0x20, 0, 0, // most
    0, 0, 0, 0, 0, 0, 0x10, 0, // chunk
    0, 0, 0, 0, 0, 0, 0, 1, // seed
    0, 0, 0, 0, 0, 0, 0, 100, // alpha
    0, 0, 0, 0, 0, 1, 0x86, 0xA0, // limit
    0x47, // mark
    0, 0, 0, 0, 0, 0, 0, 3, // partition and count
    0, 0, 0, 0, 0, 0, 0, 1, 0, 0, 0, 5, //
    0, 0, 0, 0, 0, 0, 0, 2, 0, 0, 0, 1, //
    0, 0, 0, 2, 0, 0, 0, 1, 0, 0, 0, 1,
];

/// The same in format 2.
pub(crate) const GRAPH_2: [u8; 121] = [
    0xA5, 2, 1, 0, 2, 0, 0, 1, //
    0, 0, 0, 0, 0, 0, 0, 0, //
    0, 0, 0, 0, 0, 0, 0, 3, //
    0, 0, 0, 0, 0, 0x20, 0, 0, //
    0, 0, 0, 0, 0, 0, 0x10, 0, //
    0, 0, 0, 0, 0, 0, 0, 1, //
    0, 0, 0, 0, 0, 0, 0, 100, //
    0, 0, 0, 0, 0, 1, 0x86, 0xA0, //
    0x47, //
    0, 0, 0, 0, 0, 0, 0, 3, //
    0, 0, 0, 0, 0, 0, 0, 1, 0, 0, 0, 0, 0, 0, 0, 5, //
    0, 0, 0, 0, 0, 0, 0, 2, 0, 0, 0, 0, 0, 0, 0, 1, //
    0, 0, 0, 2, 0, 0, 0, 1, 0, 0, 0, 0, 0, 0, 0, 1,
];

/// Its values: round 2 in slot 0, with one change, and round 3 in slot 1, with none.
pub(crate) const VALUES: [u8; 144] = [
    0xA5, 0, 0, 0, 0, 0, 0, 0, 0, 0, 0, 0, 0, 0, 0, 2, 0, 0, 0, 0, 0, 0, 0, 1, //
    0, 0, 0, 0, 0, 0, 0, 0, 0, 0, 0, 0, 0, 0, 0, 0, //
    0, 0, 0, 0, 0, 0, 0, 2, 0, 0, 0, 0, 0, 0, 0, 0, //
    0, 0, 0, 0, 0, 0, 0, 1, 0, 0, 0, 0, 0, 0, 0, 0, //
    0xA5, 0, 0, 0, 0, 0, 0, 0, 0, 0, 0, 0, 0, 0, 0, 3, 0, 0, 0, 0, 0, 0, 0, 0, //
    0, 0, 0, 0, 0, 0, 0, 0, 0, 0, 0, 0, 0, 0, 0, 0, //
    0, 0, 0, 0, 0, 0, 0, 2, 0, 0, 0, 0, 0, 0, 0, 0, //
    0, 0, 0, 0, 0, 0, 0, 1, 0, 0, 0, 0, 0, 0, 0, 0,
];

/// What is recovered, but for the job and the index.
#[derive(Clone, Copy, PartialEq, Eq, Debug)]
pub(crate) enum Answer {
    Found { round: u64, changed: u64 },
    Fresh,
    Fault(RecoverFault),
}

/// One device with these bytes, of which the call of this number fails; no call has number 0.
fn one_device(rt: &impl Abort, alloc: Global, bytes: &[u8], fails: u64) -> Vec<MemDisk>
    ensures one { length result.items ≡ 1 }
    ensures beats { All (λ disk. (disk_state disk).beat ≤ 0) result.items }
{
    let disk = MemDisk::new(alloc, bytes, &[fails]).expect(rt, "a disk");
    let mut devices = Vec::new(alloc);
    devices.push(disk).expect(rt, "room");
    devices
}

/// A store of one engine with these bytes, of which these calls fail.
pub(crate) fn store_with(
    rt: &impl Abort,
    alloc: Global,
    graph: &[u8],
    values: &[u8],
    graph_fails: u64,
    values_fails: u64,
) -> Store<MemDisk>
    ensures graphs { length result.graphs.items ≡ 1 }
    ensures values { length result.values.items ≡ 1 }
    ensures graph_beats { All (λ disk. (disk_state disk).beat ≤ 0) result.graphs.items }
    ensures value_beats { All (λ disk. (disk_state disk).beat ≤ 0) result.values.items }
    ensures no_lanes { length result.lanes.items ≡ 0 }
    ensures no_spills { length result.spills.items ≡ 0 }
{
    Store {
        graphs: one_device(rt, alloc, graph, graph_fails),
        values: one_device(rt, alloc, values, values_fails),
        lanes: Vec::new(alloc),
        spills: Vec::new(alloc),
    }
}

/// A store of one engine with these bytes.
pub(crate) fn store_of(
    rt: &impl Abort,
    alloc: Global,
    graph: &[u8],
    values: &[u8],
) -> Store<MemDisk>
    ensures graphs { length result.graphs.items ≡ 1 }
    ensures values { length result.values.items ≡ 1 }
{
    store_with(rt, alloc, graph, values, 0, 0)
}

/// What is recovered of a store of one engine.
pub(crate) fn answer_of(rt: &impl Abort, alloc: Global, graph: &[u8], values: &[u8]) -> Answer {
    let store = store_of(rt, alloc, graph, values);
    let mut meter = MemMeter::new(alloc, &[]).expect(rt, "a meter");
    match recover(alloc, &store, &mut meter) {
        Ok(Recovered::Found { round, changed, .. }) => Answer::Found { round, changed },
        Ok(Recovered::Fresh { .. }) => Answer::Fresh,
        Err(fault) => Answer::Fault(fault),
    }
}

/// The bytes with another one at a place.
pub(crate) fn changed(
    rt: &impl Abort,
    alloc: Global,
    bytes: &[u8],
    at: usize,
    byte: u8,
) -> Vec<u8> {
    let mut copy = Vec::new(alloc);
    for old in bytes {
        copy.push(*old).expect(rt, "room");
    }
    assert!(rt; at < copy.len());
    copy[at] = byte;
    copy
}

pub(crate) fn graph_is_damaged(place: u64) -> Answer {
    Answer::Fault(RecoverFault::Damaged {
        part: Part::Graph,
        engine: 0,
        place,
    })
}

pub(crate) fn values_are_damaged(place: u64) -> Answer {
    Answer::Fault(RecoverFault::Damaged {
        part: Part::Values,
        engine: 0,
        place,
    })
}
