// The slots of a values device, byte by byte, and what each call of apply may leave where a stop comes.
ghost use Rattle.std.specs.Prelude.{◌≡◌, ◌<◌};
ghost use Rattle.mem_devices.specs.MemDisk.{disk_state};
ghost use Rattle.partitioner.specs.Splits.{IsSplit};

use crate::crew::{Applied, Sending, apply_on, crew_of};
use crate::fixtures::{disk_of, job_of_three, meter_of};
use checkpoint::{close_slot, open_slot, write_set};
use gather_laws::{NONE, Value};
use graph_model::Edge;
use mem_devices::MemDisk;
use partitioner::Split;
use ports::{Beat, Disk};
use std::alloc::Global;
use std::process::Abort;
use std::test::*;
use store_reader::{Outcome, SlotHead, read_set, slot_head};
use vertex_programs::Sssp;

/// An open gate with the seven bytes that are not read.
const OPEN: u64 = 0xA500_0000_0000_0000;

/// The values device of three vertices, with round 2 in slot 0 and round 3 in slot 1.
const STORED: [u64; 18] = [
    OPEN, 2, 1, 0, 0, 2, 0, 1, 0, // slot 0
    OPEN, 3, 0, 0, 0, 2, 0, 1, 0, // slot 1
];

/// The same before round 3 is made: round 1 is in slot 1.
const ROUND_ONE: [u64; 18] = [
    OPEN, 2, 1, 0, 0, 2, 0, 1, 0, // slot 0
    OPEN, 1, 2, 0, 0, 5, 0, 1, 0, // slot 1
];

/// The same where slot 1 was closed, and has a part of something else.
const CLOSED: [u64; 18] = [
    OPEN, 2, 1, 0, 0, 2, 0, 1, 0, // slot 0
    0, NONE, 2, 0, 7, 5, NONE, 1, 0, // slot 1
];

/// The bytes of a slot.
const SLOT: usize = 72;

/// Numbers of eight bytes each, high byte first.
fn device_of(rt: &impl Abort, alloc: Global, numbers: &[u64]) -> Vec<u8> {
    let mut bytes = Vec::new(alloc);
    for number in numbers {
        bytes
            .extend_from_slice(&number.to_be_bytes())
            .expect(rt, "room");
    }
    bytes
}

/// Stores the values 0, 2 and 1 as those of a round.
fn store_round(
    rt: &impl Abort,
    alloc: Global,
    split: &Split,
    disk: &mut MemDisk,
    round: u64,
    changed: u64,
)
    requires split { IsSplit split.now }
    requires beat { (disk_state disk.old).beat ≡ 0 }
    ensures beat { (disk_state disk.new).beat ≡ 0 }
{
    let beat = Beat::new();
    let slot = (round % 2) as u32;
    let mut meter = meter_of(rt, alloc, &[]);
    let values = [0, 2, 1].map(|main: u64| Value { main, side: 0 });
    assert!(rt; split.engines == 1 && split.parts == 1);
    let (first, end) = split.range(0);
    assert!(rt; end == first + 3);
    assert!(rt; disk.size() == 2 * (24 + 16 * u64::from(split.own(0))));
    assert!(rt; close_slot(disk, &mut meter, split, 0, slot, &beat).is_ok());
    let written = write_set(disk, split, 0, slot, &values, &mut [0; 48], &beat);
    assert!(rt; written.is_ok());
    assert!(rt; open_slot(disk, split, 0, slot, round, changed, &beat).is_ok());
}

/// Closes a slot.
fn close(rt: &impl Abort, alloc: Global, split: &Split, disk: &mut MemDisk, slot: u32)
    requires split { IsSplit split.now }
    requires slot { slot < 2 }
    requires beat { (disk_state disk.old).beat ≡ 0 }
    ensures beat { (disk_state disk.new).beat ≡ 0 }
{
    assert!(rt; split.engines == 1);
    assert!(rt; disk.size() == 2 * (24 + 16 * u64::from(split.own(0))));
    let mut meter = meter_of(rt, alloc, &[]);
    assert!(rt; close_slot(disk, &mut meter, split, 0, slot, &Beat::new()).is_ok());
}

/// The head of a slot, and the main numbers of its three values.
fn read_slot(
    rt: &impl Abort,
    alloc: Global,
    split: &Split,
    disk: &MemDisk,
    slot: u32,
) -> (SlotHead, [u64; 3])
    requires split { IsSplit split.now }
    requires slot { slot < 2 }
{
    assert!(rt; split.engines == 1 && split.parts == 1);
    let (first, end) = split.range(0);
    assert!(rt; end == first + 3);
    assert!(rt; disk.size() == 2 * (24 + 16 * u64::from(split.own(0))));
    let mut meter = meter_of(rt, alloc, &[]);
    let mut values = [Value { main: 9, side: 9 }; 3];
    let head = slot_head(disk, &mut meter, split, 0, slot).expect(rt, "a head");
    let read = read_set(disk, &mut meter, split, 0, slot, &mut [0; 48], &mut values);
    assert!(rt; read.is_ok());
    (head, values.map(|value| value.main))
}

#[test]
fn rounds_are_stored_byte_by_byte(rt: HostRuntime) {
    let alloc = rt.alloc();
    let split = Split::of_job(&job_of_three(1));
    let mut disk = disk_of(&rt, alloc, &[0; 144], &[]);
    store_round(&rt, alloc, &split, &mut disk, 2, 1);
    store_round(&rt, alloc, &split, &mut disk, 3, 0);
    let stored = disk.all_bytes(alloc).expect(&rt, "room");
    let wanted = device_of(&rt, alloc, &STORED);
    assert_eq!(&rt; stored.as_slice(), wanted.as_slice());
    for (slot, round, changed) in [(0, 2, 1), (1, 3, 0)] {
        let (head, values) = read_slot(&rt, alloc, &split, &disk, slot);
        let wanted = SlotHead {
            is_open: true,
            round,
            changed,
        };
        assert_eq!(&rt; head, wanted);
        assert_eq!(&rt; values, [0, 2, 1]);
    }
}

#[test]
fn a_slot_is_closed_by_its_gate_alone(rt: HostRuntime) {
    let alloc = rt.alloc();
    let split = Split::of_job(&job_of_three(1));
    let mut disk = disk_of(&rt, alloc, &device_of(&rt, alloc, &STORED), &[]);
    close(&rt, alloc, &split, &mut disk, 1);
    let calls = disk.moments();
    close(&rt, alloc, &split, &mut disk, 1);
    let mut wanted = device_of(&rt, alloc, &STORED);
    assert!(&rt; wanted.len() == 144);
    wanted[SLOT] = 0;
    let closed = disk.all_bytes(alloc).expect(&rt, "room");
    assert_eq!(&rt; closed.as_slice(), wanted.as_slice());
    // a sync, the gate and a sync, and then a sync alone
    assert_eq!(&rt; (calls, disk.moments()), (3, 4));
}

/// Makes round 3 of three vertices on a device, where these calls and these reads fail.
fn make_round_three(
    rt: &impl Abort,
    alloc: Global,
    before: &[u64],
    fails: &[u64],
    read_fails: &[u64],
) -> Applied {
    let split = Split::of_job(&job_of_three(1));
    let edges = [(0, 1, 5), (0, 2, 1), (2, 1, 1)].map(|(src, dst, weight)| Edge {
        src,
        dst,
        weight,
    });
    let values = [0, 2, 1].map(|main: u64| Value { main, side: 0 });
    let sending = Sending {
        edges: &edges,
        values: &values,
        round: 3,
    };
    let program = Sssp { root: 0 };
    let crew = crew_of(rt, alloc, &program, &split, &sending);
    let disk = disk_of(rt, alloc, &device_of(rt, alloc, before), fails);
    assert!(rt; split.engines == 1);
    apply_on(rt, alloc, &program, &split, 3, &crew, 0, disk, read_fails)
}

/// Slot 0 is as before, and slot 1 is as before, closed or whole.
fn expect_safe(rt: &impl Abort, alloc: Global, image: &MemDisk, before: &[u64]) {
    let bytes = image.all_bytes(alloc).expect(rt, "room");
    let before = device_of(rt, alloc, before);
    let whole = device_of(rt, alloc, &STORED);
    assert!(rt; bytes.len() == 144 && before.len() == 144 && whole.len() == 144);
    let (first, second) = bytes.split_at(SLOT);
    let (first_before, second_before) = before.split_at(SLOT);
    let (_, second_whole) = whole.split_at(SLOT);
    assert_eq!(rt; first, first_before);
    assert!(rt; bytes[SLOT] != 0xA5 || second == second_before || second == second_whole);
}

/// The same of what a stop at each moment may leave.
fn expect_images_safe(rt: &impl Abort, alloc: Global, disk: &MemDisk, before: &[u64]) {
    for moment in 0..=disk.moments() {
        for pick in 0..4 {
            let image = disk.image(alloc, moment + 1, pick).expect(rt, "an image");
            expect_safe(rt, alloc, &image, before);
        }
    }
}

/// Fails each call of the device once, or each read, and answers the number of the first that is never made.
fn count_faults(rt: &impl Abort, alloc: Global, before: &[u64], reads: bool) -> u64 {
    for number in 1..100 {
        // no call has number 0
        let (call, read) = if reads { (0, number) } else { (number, 0) };
        let applied = make_round_three(rt, alloc, before, &[call], &[read]);
        expect_images_safe(rt, alloc, &applied.disk, before);
        if applied.outcome == Outcome::Done {
            let stored = applied.disk.all_bytes(alloc).expect(rt, "room");
            let wanted = device_of(rt, alloc, &STORED);
            assert_eq!(rt; stored.as_slice(), wanted.as_slice());
            return number;
        }
        assert_eq!(rt; applied.outcome, Outcome::DiskFault);
    }
    0
}

#[test]
fn each_call_of_apply_fails_once(rt: HostRuntime) {
    let alloc = rt.alloc();
    // a sync, the gate and a sync, the values, the numbers and a sync, the gate and a sync
    assert_eq!(&rt; count_faults(&rt, alloc, &ROUND_ONE, false), 9);
    // the same without the gate that is closed, and its sync
    assert_eq!(&rt; count_faults(&rt, alloc, &CLOSED, false), 7);
}

#[test]
fn each_read_of_apply_fails_once(rt: HostRuntime) {
    // the slot's head, the sums of three workers, and the values of the round before
    assert_eq!(&rt; count_faults(&rt, rt.alloc(), &ROUND_ONE, true), 6);
}
