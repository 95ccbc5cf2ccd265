// Disks: every image of every moment against a plain replay, and each kind of disk through its trait.
ghost use Rattle.std.specs.Prelude.{◌+◌, ◌<◌, ◌≤◌};
ghost use Rattle.mem_devices.specs.MemDisk.{disk_state};

use super::untold::UntoldDisk;
use crate::{MemDisk, MemMeter, SureMeter, SureReadDisk};
use ports::{Beat, Disk, Failed, Memory, cut_synced, write_synced};
use std::alloc::{AllocError, Global};
use std::process::Abort;

enum Step {
    Write(u8, [u8; 3]),
    Cut(u8),
    Sync,
}

const FIRST: [u8; 6] = *b"abcdef";

// The calls with these numbers fail.
const FAILS: [u64; 4] = [2, 5, 7, 9];

const FIRST_BEAT: [Step; 7] = [
    Step::Write(4, *b"XYZ"),
    Step::Write(0, *b"123"),
    Step::Sync,
    Step::Cut(3),
    Step::Write(3, *b"456"),
    Step::Write(1, *b"789"),
    Step::Sync,
];

const SECOND_BEAT: [Step; 5] = [
    Step::Write(4, *b"uvw"),
    Step::Cut(0),
    Step::Write(6, *b"pqr"),
    Step::Sync,
    Step::Write(0, *b"end"),
];

// Makes the calls, which fail as they should.
fn play(rt: &impl Abort, disk: &mut MemDisk, beat: &Beat, steps: &[Step])
    requires { (disk_state disk.old).beat ≤ beat.now }
    ensures { (disk_state disk.new).beat ≤ beat.now }
{
    for step in steps {
        let failed = FAILS.contains(&(disk.moments() + 1));
        let answer = match step {
            Step::Write(at, piece) => {
                let at = u64::from(*at);
                assert!(rt; at <= disk.size());
                disk.write_at(beat, at, piece)
            }
            Step::Cut(size) => {
                let size = u64::from(*size);
                assert!(rt; size <= disk.size());
                disk.cut(beat, size)
            }
            Step::Sync => disk.sync(beat),
        };
        assert_eq!(rt; answer.is_err(), failed);
    }
}

// What a pick makes of a call that no sync has covered.
fn take(bytes: &mut Vec<u8>, step: &Step, pick: u32) -> Result<(), AllocError> {
    match step {
        Step::Write(at, piece) if pick != 0 => {
            for (index, byte) in piece.iter().enumerate() {
                let byte = match pick {
                    1 => *byte,
                    2 => 0,
                    _ => 0xA5,
                };
                put(bytes, usize::from(*at) + index, byte)?;
            }
        }
        Step::Cut(size) if pick != 0 => bytes.truncate(usize::from(*size)),
        _ => {}
    }
    Ok(())
}

fn put(bytes: &mut Vec<u8>, at: usize, byte: u8) -> Result<(), AllocError>
    requires { at < 1000 }
{
    if bytes.len() <= at {
        bytes.resize(at + 1, 0)?;
    }
    bytes[at] = byte;
    Ok(())
}

// The image, by going along with what a read gives and what a stop leaves.
fn expected(alloc: Global, moment: u64, pick: u32) -> Result<Vec<u8>, AllocError> {
    let mut read = FIRST.to_vec(alloc)?;
    let mut image = FIRST.to_vec(alloc)?;
    for (number, step) in (1..).zip(FIRST_BEAT.iter().chain(SECOND_BEAT.iter())) {
        if number > moment {
            break;
        }
        let failed = FAILS.contains(&number);
        if number < moment && !failed && matches!(step, Step::Sync) {
            image = read.to_vec(alloc)?;
        } else {
            take(&mut image, step, pick)?;
        }
        if !failed {
            take(&mut read, step, 1)?;
        }
    }
    Ok(image)
}

// All bytes of a disk.
fn bytes_of<D: Disk>(
    rt: &impl Abort,
    alloc: Global,
    disk: &D,
    meter: &mut D::M,
) -> Result<Vec<u8>, Memory> {
    let mut bytes = vec![in alloc; 0; disk.size() as usize]?;
    assert_eq!(rt; disk.read_at(meter, 0, &mut bytes), Ok(()));
    Ok(bytes)
}

#[test]
fn each_image_is_that_of_a_plain_replay(rt: HostRuntime) -> Result<(), Memory> {
    let alloc = rt.alloc();
    let mut disk = MemDisk::new(alloc, &FIRST, &FAILS)?;
    let mut beat = Beat::new();
    play(&rt, &mut disk, &beat, &FIRST_BEAT);
    beat.next();
    play(&rt, &mut disk, &beat, &SECOND_BEAT);

    assert_eq!(rt; disk.moments(), 12);
    let mut meter = MemMeter::new(alloc, &[])?;
    for moment in 1..disk.moments() + 2 {
        if moment <= disk.moments() {
            assert_eq!(rt; disk.beat_of(moment), u64::from(moment > 7));
        }
        for pick in 0..4 {
            let image = disk.image(alloc, moment, pick)?;
            assert_eq!(rt;
                bytes_of(&rt, alloc, &image, &mut meter)?,
                expected(alloc, moment, pick)?,
                "moment {moment}, pick {pick}"
            );
        }
    }
    Ok(())
}

// Some calls through the trait, on a disk of "abcd".
fn try_calls<D: Disk>(
    rt: &impl Abort,
    alloc: Global,
    disk: &mut D,
    meter: &mut D::M,
    beat: &Beat,
) -> Result<(), Memory>
    requires { (D.state disk.old).beat ≤ beat.now }
{
    assert!(rt; disk.size() == 4);
    assert_eq!(rt; write_synced(disk, beat, 3, b"XYZ"), Ok(()));
    assert!(rt; disk.size() == 6);
    assert_eq!(rt; cut_synced(disk, beat, 5), Ok(()));
    assert_eq!(rt;
        bytes_of(rt, alloc, disk, meter)?.as_slice(),
        b"abcXY".as_slice()
    );
    Ok(())
}

#[test]
fn each_kind_of_disk_is_used_alike(rt: HostRuntime) -> Result<(), Memory> {
    let alloc = rt.alloc();
    let beat = Beat::new();

    let mut disk = MemDisk::new(alloc, b"abcd", &[])?;
    let mut meter = MemMeter::new(alloc, &[2])?;
    try_calls(&rt, alloc, &mut disk, &mut meter, &beat)?;
    assert!(rt; disk.size() == 5);
    let mut into = [7];
    assert_eq!(rt; disk.read_at(&mut meter, 0, &mut into), Err(Failed));
    assert_eq!(rt; into, [7]);

    let mut sure = SureReadDisk::of(MemDisk::new(alloc, b"abcd", &[])?);
    try_calls(&rt, alloc, &mut sure, &mut SureMeter::new(), &beat)?;

    let mut untold = UntoldDisk {
        disk: MemDisk::new(alloc, b"abcd", &[])?,
    };
    try_calls(
        &rt,
        alloc,
        &mut untold,
        &mut MemMeter::new(alloc, &[])?,
        &beat,
    )
}
