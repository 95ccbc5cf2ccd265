//! A store whose bytes were written by hand.
use crate::contents::Contents;
use std::alloc::Global;
use std::process::Abort;

/// Shortest distances from vertex 0 of three, on one engine, in format 1, with one chunk of three edges.
const GRAPH: [u8; 109] = [
    0xA5, 1, 1, 0, 2, 0, 0, 0, // gate, format, engines, engine, program, zero
    0, 0, 0, 0, 0, 0, 0, 0, // root
    0, 0, 0, 0, 0, 0, 0, 3, // vertices
    0, 0, 0, 0, 0, 0x20, 0, 0, // most vertices of a partition
    0, 0, 0, 0, 0, 0, 0x10, 0, // records of a chunk
    0, 0, 0, 0, 0, 0, 0, 1, // seed
    0, 0, 0, 0, 0, 0, 0, 100, // alpha
    0, 0, 0, 0, 0, 1, 0x86, 0xA0, // limit
    0x47, // mark
    0, 0, 0, 0, 0, 0, 0, 3, // partition and count
    0, 0, 0, 0, 0, 0, 0, 1, 0, 0, 0, 5, // edges
    0, 0, 0, 0, 0, 0, 0, 2, 0, 0, 0, 1, //
    0, 0, 0, 2, 0, 0, 0, 1, 0, 0, 0, 1,
];

/// Its values: round 2 in slot 0, with one change, and round 3 in slot 1, with none.
const VALUES: [u8; 144] = [
    0xA5, 0, 0, 0, 0, 0, 0, 0, 0, 0, 0, 0, 0, 0, 0, 2, 0, 0, 0, 0, 0, 0, 0, 1, //
    0, 0, 0, 0, 0, 0, 0, 0, 0, 0, 0, 0, 0, 0, 0, 0, //
    0, 0, 0, 0, 0, 0, 0, 2, 0, 0, 0, 0, 0, 0, 0, 0, //
    0, 0, 0, 0, 0, 0, 0, 1, 0, 0, 0, 0, 0, 0, 0, 0, //
    0xA5, 0, 0, 0, 0, 0, 0, 0, 0, 0, 0, 0, 0, 0, 0, 3, 0, 0, 0, 0, 0, 0, 0, 0, //
    0, 0, 0, 0, 0, 0, 0, 0, 0, 0, 0, 0, 0, 0, 0, 0, //
    0, 0, 0, 0, 0, 0, 0, 2, 0, 0, 0, 0, 0, 0, 0, 0, //
    0, 0, 0, 0, 0, 0, 0, 1, 0, 0, 0, 0, 0, 0, 0, 0,
];

fn one(rt: &impl Abort, alloc: Global, bytes: &[u8]) -> Vec<Vec<u8>> {
    let bytes = Vec::from_slice(alloc, bytes).expect(rt, "room");
    let mut devices = Vec::new(alloc);
    devices.push(bytes).expect(rt, "room");
    devices
}

/// The finished store of these bytes.
pub(crate) fn whole_store(rt: &impl Abort, alloc: Global) -> Contents {
    Contents {
        graphs: one(rt, alloc, &GRAPH),
        values: one(rt, alloc, &VALUES),
        lanes: Vec::new(alloc),
    }
}
