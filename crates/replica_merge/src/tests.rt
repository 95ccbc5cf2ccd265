ghost use Rattle.std.specs.Prelude.{◌≡◌, ◌<◌};
ghost use Rattle.mem_devices.specs.MemDisk.{disk_state};
ghost use Rattle.partitioner.specs.Splits.{IsSplit};
ghost use Rattle.replica_merge.specs.Accumulators.{split_of, begun_of, IsUnspilled, LiesWithin};

use super::*;
use mem_devices::{MemDisk, MemMeter};
use partitioner::Split;
use ports::{Beat, Disk, Failed};
use std::alloc::Global;
use std::process::Abort;
use std::test::*;
use vertex_programs::Degrees;

/// Two partitions of two vertices.
fn split(rt: &impl Abort) -> Split
    ensures { IsSplit result }
{
    match Split::of(4, 1, 2) {
        Some(split) => split,
        None => panic!(rt; "four vertices have a split"),
    }
}

/// Replicas of which partition 1 has these sums in memory.
fn begun(rt: &impl Abort, alloc: Global, split: &Split, sums: [u64; 2]) -> Replicas
    requires { IsSplit split.now }
    ensures split { split_of result ≡ split.now }
    ensures begun { begun_of result ≡ 1 }
    ensures unspilled { IsUnspilled result }
{
    let mut replicas = Replicas::new(alloc, split, 0).expect(rt, "memory");
    assert!(rt; 1 < split.parts);
    replicas.begin(1);
    let acc = replicas.acc();
    assert_eq!(rt; acc.len(), 2);
    acc.copy_from_slice(&sums);
    replicas
}

/// A disk of which some calls fail.
fn disk(rt: &impl Abort, alloc: Global, fails: &[u64]) -> MemDisk
    ensures { (disk_state result).beat ≡ 0 }
{
    MemDisk::new(alloc, &[], fails).expect(rt, "memory")
}

#[test]
fn accumulators_are_written_high_byte_first(rt: HostRuntime) -> Result<(), Fail> {
    let alloc = rt.alloc();
    let mut replicas = begun(&rt, alloc, &split(&rt), [u64::MAX, 261]);
    let mut disk = disk(&rt, alloc, &[]);
    assert!(&rt; disk.size() == 0);
    let written = replicas.spill(1, &mut disk, &mut [0; 15], &Beat::new());
    assert!(&rt; written.is_ok());
    let mut meter = MemMeter::new(alloc, &[])?;
    let mut bytes = [0; 16];
    assert!(&rt; disk.size() == 16 && disk.read_at(&mut meter, 0, &mut bytes).is_ok());
    assert_eq!(&rt;
        bytes,
        [
            255, 255, 255, 255, 255, 255, 255, 255, 0, 0, 0, 0, 0, 0, 1, 5
        ]
    );
    Ok(())
}

/// Replicas that spilled these sums for partition 1, with their device.
fn spilled(rt: &impl Abort, alloc: Global, split: &Split, sums: [u64; 2]) -> (Replicas, MemDisk)
    requires { IsSplit split.now }
    ensures split { split_of result.0 ≡ split.now }
    ensures within { LiesWithin result.0 (disk_state result.1).size }
{
    let mut replicas = begun(rt, alloc, split, sums);
    let mut disk = disk(rt, alloc, &[]);
    assert!(rt; disk.size() == 0);
    let written = replicas.spill(1, &mut disk, &mut [0; 15], &Beat::new());
    assert!(rt; written.is_ok());
    (replicas, disk)
}

/// The merge over two workers in partition 1, through a buffer of one number, where some reads fail.
fn merged(
    rt: &impl Abort,
    alloc: Global,
    split: &Split,
    one: (Replicas, MemDisk),
    two: (Replicas, MemDisk),
    fails: &[u64],
) -> Result<[u64; 2], Failed>
    requires split { IsSplit split.now }
    requires splits { (split_of one.0 ≡ split.now) × (split_of two.0 ≡ split.now) }
    requires within { LiesWithin one.0 (disk_state one.1).size × LiesWithin two.0 (disk_state two.1).size }
{
    let (first, first_disk) = one;
    let (second, second_disk) = two;
    let replicas = [first, second];
    let disks = [first_disk, second_disk];
    let mut meter = MemMeter::new(alloc, fails).expect(rt, "memory");
    assert!(rt; 1 < split.parts);
    let (start, end) = split.range(1);
    assert!(rt; end == start + 2);
    let mut sums = [0; 2];
    merge_replicas(
        &Degrees,
        split,
        &replicas,
        &disks,
        &mut meter,
        1,
        &mut [0; 8],
        &mut sums,
    )?;
    Ok(sums)
}

#[test]
fn each_worker_is_merged_once(rt: HostRuntime) -> Result<(), Fail> {
    let alloc = rt.alloc();
    let split = split(&rt);
    let one = spilled(&rt, alloc, &split, [1, 300]);
    let two = spilled(&rt, alloc, &split, [20, 4000]);
    let sums = merged(&rt, alloc, &split, one, two, &[]);
    assert_eq!(&rt; sums, Ok([21, 4300]));
    Ok(())
}

#[test]
fn what_was_not_spilled_costs_no_read(rt: HostRuntime) -> Result<(), Fail> {
    let alloc = rt.alloc();
    let split = split(&rt);
    let one = spilled(&rt, alloc, &split, [1, 300]);
    let (mut replicas, device) = spilled(&rt, alloc, &split, [20, 4000]);
    replicas.reset(5);
    let sums = merged(&rt, alloc, &split, one, (replicas, device), &[3]);
    assert_eq!(&rt; sums, Ok([6, 305]));
    Ok(())
}

#[test]
fn faults_are_told(rt: HostRuntime) -> Result<(), Fail> {
    let alloc = rt.alloc();
    let split = split(&rt);
    let one = spilled(&rt, alloc, &split, [1, 300]);
    let mut replicas = begun(&rt, alloc, &split, [20, 4000]);
    let mut device = disk(&rt, alloc, &[1]);
    assert!(&rt; device.size() == 0);
    let written = replicas.spill(1, &mut device, &mut [0; 16], &Beat::new());
    let sums = merged(&rt, alloc, &split, one, (replicas, device), &[2]);
    assert!(&rt; written == Err(Failed) && sums == Err(Failed));
    Ok(())
}
