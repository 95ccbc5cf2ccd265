// A store of one engine in memory.
ghost use Rattle.mem_devices.specs.MemDisk.{IsNewDisk};

use super::*;
use mem_devices::{MemDisk, MemMeter};
use ports::{Beat, Disk, Failed};
use std::alloc::{AllocError, Global};
use std::process::Abort;
use std::test::*;
use store_reader::Store;

/// A disk with so many bytes 0xA5, whose call with this number fails.
fn disk_of(rt: &impl Abort, alloc: Global, bytes: &[u8], fails: &[u64]) -> MemDisk
    ensures { IsNewDisk bytes.now fails.now result }
{
    MemDisk::new(alloc, bytes, fails).expect(rt, "memory")
}

#[test]
fn a_store_is_emptied(rt: HostRuntime) -> Result<(), Fail> {
    let alloc = rt.alloc();
    let open = [0xA5; 65];
    let mut store = Store {
        graphs: Vec::from_array(alloc, [disk_of(&rt, alloc, &open, &[])])?,
        values: Vec::from_array(alloc, [disk_of(&rt, alloc, &[1, 2], &[])])?,
        lanes: Vec::from_array(
            alloc,
            [Vec::from_array(alloc, [disk_of(&rt, alloc, &[3], &[])])?],
        )?,
        spills: Vec::from_array(alloc, [disk_of(&rt, alloc, &[4], &[])])?,
    };
    let mut meter = MemMeter::new(alloc, &[]).expect(&rt, "memory");
    let mut beat = Beat::new();
    assert_eq!(&rt; drop_store(&mut store, &mut meter, &mut beat), Ok(()));
    assert_eq!(&rt; beat.number(), 1);
    assert_eq!(&rt; store.graphs.len(), 1);
    assert_eq!(&rt; store.graphs[0].size(), 0);
    Ok(())
}

#[test]
fn a_gate_that_cannot_be_closed_leaves_the_values(rt: HostRuntime) -> Result<(), Fail> {
    let alloc = rt.alloc();
    let open = [0xA5; 65];
    let mut store = Store {
        graphs: Vec::from_array(alloc, [disk_of(&rt, alloc, &open, &[2])])?,
        values: Vec::from_array(alloc, [disk_of(&rt, alloc, &[1, 2], &[])])?,
        lanes: Vec::new(alloc),
        spills: Vec::new(alloc),
    };
    let mut meter = MemMeter::new(alloc, &[]).expect(&rt, "memory");
    let mut beat = Beat::new();
    assert_eq!(&rt; drop_store(&mut store, &mut meter, &mut beat), Err(Failed));
    assert_eq!(&rt; beat.number(), 0);
    assert_eq!(&rt; store.values.len(), 1);
    assert_eq!(&rt; store.values[0].size(), 2);
    Ok(())
}
