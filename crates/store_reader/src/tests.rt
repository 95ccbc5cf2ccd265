ghost use Rattle.std.specs.Prelude.{◌<◌};
ghost use Rattle.partitioner.specs.Splits.{IsSplit};

use super::*;
use graph_model::Value;
use mem_devices::{MemDisk, MemMeter};
use partitioner::Split;
use ports::{Disk, Failed};
use std::alloc::Global;
use std::process::Abort;
use std::test::*;

fn disk_of(rt: &impl Abort, alloc: Global, bytes: &[u8]) -> MemDisk {
    MemDisk::new(alloc, bytes, &[]).expect(rt, "a disk")
}

/// The head of a graph device of the job of one engine and three vertices, with this gate.
fn head(gate: u8) -> [u8; 65] {
    let mut bytes = [0; 65];
    bytes[0] = gate;
    bytes[1] = 1;
    bytes[64] = 0x47;
    bytes
}

#[test]
fn a_store_is_open_where_each_head_is_whole_and_open(rt: HostRuntime) -> Result<(), Fail> {
    let alloc = rt.alloc();
    let mut meter = MemMeter::new(alloc, &[])?;
    let mut store = Store {
        graphs: Vec::new(alloc),
        values: Vec::new(alloc),
        lanes: Vec::new(alloc),
        spills: Vec::new(alloc),
    };
    store.graphs.push(disk_of(&rt, alloc, &head(0xA5)))?;
    let one = all_open(&store, &mut meter);
    store.graphs.push(disk_of(&rt, alloc, &[0xA5; 64]))?;
    let short = all_open(&store, &mut meter);
    store.graphs[1] = disk_of(&rt, alloc, &head(0));
    let closed = all_open(&store, &mut meter);
    store.graphs[1] = disk_of(&rt, alloc, &head(0xA5));
    let both = all_open(&store, &mut meter);
    assert_eq!(&rt; one, Ok(true));
    assert_eq!(&rt; short, Ok(false));
    assert_eq!(&rt; closed, Ok(false));
    assert_eq!(&rt; both, Ok(true));
    Ok(())
}

/// A values device of three vertices, with round 2 in slot 0 and round 3 in slot 1.
fn values_device() -> [u8; 144] {
    let mut bytes = [0; 144];
    bytes[0] = 0xA5;
    bytes[15] = 2;
    bytes[23] = 1;
    bytes[47] = 2;
    bytes[63] = 1;
    bytes[72] = 0xA5;
    bytes[87] = 3;
    bytes[119] = 2;
    bytes[135] = 1;
    bytes
}

/// The head of a slot of engine 0.
fn head_of(
    rt: &impl Abort,
    disk: &MemDisk,
    meter: &mut MemMeter,
    split: &Split,
    slot: u32,
) -> Result<SlotHead, Failed>
    requires split { IsSplit split.now }
    requires slot { slot < 2 }
{
    let own = split.own(0);
    assert!(rt; disk.size() == 2 * (24 + 16 * u64::from(own)));
    slot_head(disk, meter, split, 0, slot)
}

/// The values of partition 0, which has three vertices.
fn set_of(
    rt: &impl Abort,
    disk: &MemDisk,
    meter: &mut MemMeter,
    split: &Split,
    slot: u32,
) -> Result<[Value; 3], Failed>
    requires split { IsSplit split.now }
    requires slot { slot < 2 }
{
    let own = split.own(split.master_of(0));
    let (first, end) = split.range(0);
    assert!(rt; disk.size() == 2 * (24 + 16 * u64::from(own)));
    assert!(rt; u64::from(end) == u64::from(first) + 3);
    let mut bytes = [0; 48];
    let mut values = [Value { main: 9, side: 9 }; 3];
    read_set(disk, meter, split, 0, slot, &mut bytes, &mut values)?;
    Ok(values)
}

#[test]
fn slots_of_a_whole_store_are_read(rt: HostRuntime) -> Result<(), Fail> {
    let alloc = rt.alloc();
    let disk = disk_of(&rt, alloc, &values_device());
    let mut meter = MemMeter::new(alloc, &[4])?;
    let split = Split::of(3, 1, 10).expect(&rt, "a split");
    let first = head_of(&rt, &disk, &mut meter, &split, 0);
    let second = head_of(&rt, &disk, &mut meter, &split, 1);
    let values = set_of(&rt, &disk, &mut meter, &split, 1);
    let failed = head_of(&rt, &disk, &mut meter, &split, 1);
    let head = |round: u64, changed: u64| SlotHead {
        is_open: true,
        round,
        changed,
    };
    let value = |main: u64| Value { main, side: 0 };
    assert_eq!(&rt; first, Ok(head(2, 1)));
    assert_eq!(&rt; second, Ok(head(3, 0)));
    assert_eq!(&rt; values, Ok([value(0), value(2), value(1)]));
    assert_eq!(&rt; failed, Err(Failed));
    Ok(())
}
