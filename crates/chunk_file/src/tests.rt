// Bytes that were worked out by hand, and each change and cut of a small device.
ghost use Rattle.std.specs.Prelude.{◌≡◌, ◌+◌, ◌<◌, ◌≤◌, length, IfOk};
ghost use Rattle.mem_devices.specs.MemDisk.{disk_state};
ghost use Rattle.partitioner.specs.Splits.{IsSplit};
ghost use Rattle.chunk_file.specs.Places.{total_of};

use crate::whole::{room_for_bytes, room_for_edges};
use crate::{ChunkFault, Index, Place, append_chunk, read_chunk, scan};
use graph_model::{Edge, Update};
use mem_devices::{MemDisk, MemMeter};
use partitioner::Split;
use ports::{Beat, Disk, Failed};
use std::alloc::Global;
use std::process::Abort;
use std::test::*;

fn edge(src: u32, dst: u32, weight: u64) -> Edge
    ensures { result ≡ record { src = src; dst = dst; weight = weight } }
{
    Edge { src, dst, weight }
}

fn update(dst: u32, value: u64) -> Update
    ensures { result ≡ record { dst = dst; value = value } }
{
    Update { dst, value }
}

// The chunk of the edges 0 to 1 of weight 5, 0 to 2 of weight 1, and 2 to 1 of weight 1, in partition 0.
const IN_FORMAT_1: [u8; 44] = [
    0, 0, 0, 0, 0, 0, 0, 3, // partition and count
    0, 0, 0, 0, 0, 0, 0, 1, 0, 0, 0, 5, // edges
    0, 0, 0, 0, 0, 0, 0, 2, 0, 0, 0, 1, //
    0, 0, 0, 2, 0, 0, 0, 1, 0, 0, 0, 1, //
];

const IN_FORMAT_2: [u8; 56] = [
    0, 0, 0, 0, 0, 0, 0, 3, //
    0, 0, 0, 0, 0, 0, 0, 1, 0, 0, 0, 0, 0, 0, 0, 5, //
    0, 0, 0, 0, 0, 0, 0, 2, 0, 0, 0, 0, 0, 0, 0, 1, //
    0, 0, 0, 2, 0, 0, 0, 1, 0, 0, 0, 0, 0, 0, 0, 1, //
];

fn split_of(rt: &impl Abort, vertices: u32, most: u32) -> Split
    requires { 1 ≤ most }
    ensures { IsSplit result }
{
    Split::of(vertices, 1, most).expect(rt, "a split")
}

// An index without places.
fn new_index(alloc: Global) -> Result<Index, ChunkFault>
    ensures { IfOk result (λ index. total_of index ≡ 0) }
{
    Ok(Index::new(alloc)?)
}

// Whether the device has these bytes from byte 65 to its end.
fn ends_with(alloc: Global, disk: &MemDisk, bytes: &[u8]) -> Result<bool, ChunkFault>
    requires { length bytes.now ≤ 100 }
{
    let mut found = room_for_bytes(alloc, bytes.len())?;
    let mut meter = MemMeter::new(alloc, &[])?;
    if disk.size() != 65 + bytes.len() as u64 {
        return Ok(false);
    }
    disk.read_at(&mut meter, 65, &mut found)?;
    Ok(found.as_slice() == bytes)
}

// Appends the three edges to a device of 65 bytes.
fn append_three(
    rt: &impl Abort,
    disk: &mut MemDisk,
    beat: &Beat,
    bytes: &mut [u8],
    format: u32,
) -> Result<u64, Failed>
    requires { (disk_state disk.old).beat ≤ beat.now }
{
    let edges = [edge(0, 1, 5), edge(0, 2, 1), edge(2, 1, 1)];
    assert!(rt; disk.size() == 65 && bytes.len() >= 56);
    append_chunk(disk, 0, &edges, bytes, beat, format)
}

// Appends, scans and reads the three edges.
fn three_edges(
    rt: &impl Abort,
    alloc: Global,
    format: u32,
    written: &[u8],
) -> Result<(), ChunkFault>
    requires { length written.now ≤ 100 }
{
    let split = split_of(rt, 3, 2_097_152);
    let mut bytes = room_for_bytes(alloc, 65_544)?;
    let mut disk = MemDisk::new(alloc, &room_for_bytes(alloc, 65)?, &[])?;
    assert_eq!(rt;
        append_three(rt, &mut disk, &Beat::new(), &mut bytes, format)?,
        65
    );
    assert!(rt; ends_with(alloc, &disk, written)?);

    let mut meter = MemMeter::new(alloc, &[])?;
    let mut index = new_index(alloc)?;
    scan(
        alloc, &disk, &mut meter, 0, &split, 4096, &mut index, format,
    )?;
    assert_eq!(rt; index.total(), 1);
    assert_eq!(rt; index.len(0, 0), 1);

    let mut edges = room_for_edges(alloc, 4096)?;
    let count = read_chunk(
        &disk, &mut meter, 65, 0, &split, &mut bytes, &mut edges, format,
    )?;
    assert_eq!(rt; count, 3);
    assert_eq!(rt; edges[0], edge(0, 1, 5));
    assert_eq!(rt; edges[2], edge(2, 1, 1));

    let answer = read_chunk(
        &disk,
        &mut meter,
        65,
        0,
        &split,
        &mut bytes,
        &mut edges[..2],
        format,
    );
    assert_eq!(rt; answer, Err(ChunkFault::Damaged(65)));
    Ok(())
}

#[test]
fn three_edges_stand_behind_a_head(rt: HostRuntime) {
    three_edges(&rt, rt.alloc(), 1, &IN_FORMAT_1).expect(&rt, "format 1");
    three_edges(&rt, rt.alloc(), 2, &IN_FORMAT_2).expect(&rt, "format 2");
}

// A graph device of four vertices in two partitions: the edges 2 to 0 and 3 to 1, in partition 1 and format 1.
const SMALL: [u8; 32] = [
    0, 0, 0, 1, 0, 0, 0, 2, //
    0, 0, 0, 2, 0, 0, 0, 0, 0, 0, 0, 9, //
    0, 0, 0, 3, 0, 0, 0, 1, 1, 2, 3, 4, //
];

// What a scan answers where the byte with this number of the chunk is another one.
fn answer_to(number: usize, byte: u8) -> Result<(), ChunkFault> {
    let field = if number < 8 {
        number
    } else {
        8 + (number - 8) % 12
    };
    let good = match field {
        3 => byte == 1,
        7 => byte == 2,
        11 => byte == 2 || byte == 3,
        15 => byte < 4,
        16..=19 => true,
        _ => byte == 0,
    };
    if good {
        Ok(())
    } else if field == 7 && byte == 1 {
        Err(ChunkFault::Damaged(85))
    } else {
        Err(ChunkFault::Damaged(65))
    }
}

fn scan_of(alloc: Global, split: &Split, device: &[u8]) -> Result<(), ChunkFault>
    requires { IsSplit split.now }
{
    let disk = MemDisk::new(alloc, device, &[])?;
    let mut meter = MemMeter::new(alloc, &[])?;
    let mut index = new_index(alloc)?;
    scan(alloc, &disk, &mut meter, 0, split, 2, &mut index, 1)
}

fn small_device(alloc: Global) -> Result<Vec<u8>, ChunkFault>
    ensures { IfOk result (λ device. length device.items ≡ 97) }
{
    let mut device = room_for_bytes(alloc, 97)?;
    device[65..].copy_from_slice(&SMALL);
    Ok(device)
}

fn each_change(rt: &impl Abort, alloc: Global) -> Result<(), ChunkFault> {
    let split = split_of(rt, 4, 2);
    let mut device = small_device(alloc)?;
    for number in 0..32 {
        let kept = device[65 + number];
        for byte in 0..=255u8 {
            device[65 + number] = byte;
            assert_eq!(rt; scan_of(alloc, &split, &device), answer_to(number, byte));
        }
        device[65 + number] = kept;
    }
    for size in 0..97 {
        let cut = scan_of(alloc, &split, &device[..size]);
        let answer = if size <= 65 {
            Ok(())
        } else {
            Err(ChunkFault::Damaged(65))
        };
        assert_eq!(rt; cut, answer);
    }
    Ok(())
}

#[test]
fn each_change_and_each_cut_is_answered(rt: HostRuntime) {
    each_change(&rt, rt.alloc()).expect(&rt, "memory");
}

// Appends two updates of partition 1.
fn append_two(
    rt: &impl Abort,
    disk: &mut MemDisk,
    beat: &Beat,
    bytes: &mut [u8],
) -> Result<u64, Failed>
    requires { (disk_state disk.old).beat ≤ beat.now }
    ensures { (disk_state disk.new).beat ≤ beat.now }
{
    let updates = [update(2, 7), update(3, u64::MAX)];
    assert!(rt; disk.size() <= 32 && bytes.len() >= 32);
    append_chunk(disk, 1, &updates, bytes, beat, 2)
}

// Reads a chunk of partition 1.
fn read_two(
    rt: &impl Abort,
    disk: &MemDisk,
    meter: &mut MemMeter,
    at: u64,
    bytes: &mut [u8],
    into: &mut [Update],
) -> Result<u32, ChunkFault> {
    let split = split_of(rt, 4, 2);
    assert!(rt; split.parts == 2 && into.len() == 2 && bytes.len() >= 32);
    read_chunk(disk, meter, at, 1, &split, bytes, into, 2)
}

// The first write fails and the second one is done, and so with reads.
fn updates_and_faults(rt: &impl Abort, alloc: Global) -> Result<(), ChunkFault> {
    let beat = Beat::new();
    let mut bytes = room_for_bytes(alloc, 32)?;
    let mut disk = MemDisk::new(alloc, &[], &[1])?;
    assert_eq!(rt; append_two(rt, &mut disk, &beat, &mut bytes), Err(Failed));
    let at = append_two(rt, &mut disk, &beat, &mut bytes)?;

    let mut meter = MemMeter::new(alloc, &[1])?;
    let mut found = [update(0, 0), update(0, 0)];
    let answer = read_two(rt, &disk, &mut meter, at, &mut bytes, &mut found);
    assert_eq!(rt; answer, Err(ChunkFault::DiskFault));
    let answer = read_two(rt, &disk, &mut meter, at, &mut bytes, &mut found);
    assert_eq!(rt; answer, Ok(2));
    assert_eq!(rt; found, [update(2, 7), update(3, u64::MAX)]);
    Ok(())
}

#[test]
fn updates_are_read_and_faults_are_told(rt: HostRuntime) {
    updates_and_faults(&rt, rt.alloc()).expect(&rt, "memory");
}

fn index_of_one(rt: &impl Abort, alloc: Global) -> Result<(), ChunkFault> {
    let place = Place { lane: 3, at: 65 };
    let mut index = new_index(alloc)?;
    index.add(7, 63, place)?;
    assert_eq!(rt; index.total(), 1);
    assert_eq!(rt; index.len(7, 63), 1);
    assert_eq!(rt; index.place(7, 63, 0), place);
    Ok(())
}

#[test]
fn an_index_keeps_a_place(rt: HostRuntime) {
    index_of_one(&rt, rt.alloc()).expect(&rt, "memory");
}
