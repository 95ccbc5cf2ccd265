//! What stands on the values devices of a store.
ghost use Rattle.std.specs.Prelude.{◌<◌};
ghost use Rattle.partitioner.specs.Splits.{IsSplit};

use gather_laws::Value;
use graph_model::Job;
use mem_devices::{MemDisk, MemMeter};
use partitioner::Split;
use ports::Disk;
use round_loop::Start;
use std::alloc::Global;
use std::process::Abort;
use store_reader::{SlotHead, read_set, slot_head};

/// Adds the values of a partition in a slot to those of the lower ones.
fn read_partition(
    rt: &impl Abort,
    alloc: Global,
    split: &Split,
    devices: &[MemDisk],
    partition: u32,
    slot: u32,
    values: &mut Vec<Value>,
)
    requires split { IsSplit split.now }
    requires partition { partition < split.now.parts }
    requires slot { slot < 2 }
{
    let master = split.master_of(partition);
    let (first, end) = split.range(partition);
    assert!(rt; first <= end && (master as usize) < devices.len());
    let disk = &devices[master as usize];
    assert!(rt; disk.size() == 2 * (24 + 16 * u64::from(split.own(master))));
    let count = (end - first) as usize;
    let mut bytes = vec![in alloc; 0; 16 * count].expect(rt, "room");
    let mut into = vec![in alloc; Value { main: 0, side: 0 }; count].expect(rt, "room");
    let mut meter = MemMeter::new(alloc, &[]).expect(rt, "a meter");
    let read = read_set(
        disk,
        &mut meter,
        split,
        partition,
        slot,
        bytes.as_mut_slice(),
        into.as_mut_slice(),
    );
    assert!(rt; read.is_ok());
    values.extend_from_slice(&into).expect(rt, "room");
}

/// The values of all vertices in a slot.
pub(crate) fn read_values(
    rt: &impl Abort,
    alloc: Global,
    split: &Split,
    devices: &[MemDisk],
    slot: u32,
) -> Vec<Value>
    requires split { IsSplit split.now }
    requires slot { slot < 2 }
{
    let mut values = Vec::new(alloc);
    for partition in 0..split.parts {
        read_partition(rt, alloc, split, devices, partition, slot, &mut values);
    }
    values
}

/// The head of a slot of an engine.
fn head_of(
    rt: &impl Abort,
    alloc: Global,
    split: &Split,
    devices: &[MemDisk],
    engine: u32,
    slot: u32,
) -> SlotHead
    requires split { IsSplit split.now }
    requires engine { engine < split.now.engines }
    requires slot { slot < 2 }
{
    assert!(rt; (engine as usize) < devices.len());
    let disk = &devices[engine as usize];
    assert!(rt; disk.size() == 2 * (24 + 16 * u64::from(split.own(engine))));
    let mut meter = MemMeter::new(alloc, &[]).expect(rt, "a meter");
    slot_head(disk, &mut meter, split, engine, slot).expect(rt, "a head")
}

/// How many values changed in a round, if it stands on every engine.
pub(crate) fn changed_in(
    rt: &impl Abort,
    alloc: Global,
    split: &Split,
    devices: &[MemDisk],
    round: u64,
) -> Option<u64>
    requires { IsSplit split.now }
{
    let mut changed = 0u64;
    for engine in 0..split.engines {
        let head = head_of(rt, alloc, split, devices, engine, (round % 2) as u32);
        if !head.is_open || head.round != round {
            return None;
        }
        changed = changed.saturating_add(head.changed);
    }
    Some(changed)
}

/// Where a run may go on: at the greatest round up to the limit that stands on every engine.
pub(crate) fn kept(
    rt: &impl Abort,
    alloc: Global,
    split: &Split,
    devices: &[MemDisk],
    limit: u32,
) -> Start
    requires { IsSplit split.now }
{
    for back in 0..=limit {
        let round = u64::from(limit - back);
        if let Some(changed) = changed_in(rt, alloc, split, devices, round) {
            return Start::At { round, changed };
        }
    }
    Start::Fresh
}
