//! Rows of calls.
//!
//! A row has the words, the text, the status, what is printed and what is said, between semicolons. In texts `/` stands
//! for a line feed, `~` for a tab and `^` for a carriage return.
ghost use Rattle.std.specs.Prelude.{◌≡◌, ◌≤◌};
ghost use Rattle.mem_devices.specs.MemDisk.{disk_state};
ghost use Rattle.round_loop.specs.Keeping.{moment};
ghost use Rattle.run_model.specs.Calls.{IsReady};

use crate::call::{call, words_of};
use crate::contents::{Contents, contents_of};
use crate::faults::Fault;
use crate::world::{Sums, World, new_world, sums_of, world_on};
use job_words::wanted;
use mem_devices::MemDisk;
use std::alloc::Global;
use std::process::Abort;
use std::thread::Threads;

fn bytes_of(rt: &impl Abort, alloc: Global, shown: &str) -> Vec<u8> {
    let mut bytes = Vec::new(alloc);
    for byte in shown.as_bytes() {
        let byte = match byte {
            b'/' => b'\n',
            b'~' => b'\t',
            b'^' => b'\r',
            other => *other,
        };
        bytes.push(byte).expect(rt, "room");
    }
    bytes
}

/// The number of engines that the words of a row want.
fn engines_of(rt: &impl Abort, alloc: Global, row: &str) -> u32
    ensures { result ≤ 8 }
{
    let words = row.split(';').next().expect(rt, "words");
    wanted(alloc, &words_of(rt, alloc, words)).expect(rt, "room")
}

/// A call that is refused, or that finds damage, touches no device. One that gives a store up leaves nothing on any.
fn expect_sums(rt: &impl Abort, row: &str, status: u8, before: Sums, after: Sums) {
    if matches!(status, 1 | 8 | 9 | 10 | 12) {
        assert!(rt; after == before, "{row}");
    }
    if status == 0 && row.starts_with("drop") {
        assert!(rt; after.bytes == 0, "{row}");
    }
}

/// The call of a row.
pub(crate) fn expect_call<R: Threads + Sync + Abort>(
    rt: &R,
    alloc: Global,
    world: &mut World<MemDisk>,
    row: &str,
)
    requires ready { IsReady disk_state world.old.engines (moment world.old.store world.old.meters.items world.old.seat.view world.old.beat) }
    requires table { world.old.seat.table ≡ world.old.table }
    ensures ready { IsReady disk_state world.old.engines (moment world.new.store world.new.meters.items world.new.seat.view world.new.beat) }
    ensures engines { world.new.engines ≡ world.old.engines }
    ensures table { world.new.seat.table ≡ world.new.table }
{
    let columns: Vec<&str> = row.split(';').collect(alloc).expect(rt, "room");
    let [words, text, status, printed, message] = columns.as_slice() else {
        panic!(rt; "a row has five columns");
    };
    let text = bytes_of(rt, alloc, text);
    let printed = bytes_of(rt, alloc, printed);
    let message = bytes_of(rt, alloc, message);
    let before = sums_of(&world.store);
    let told = call(rt, alloc, world, words, &text);
    assert!(rt; status.parse() == Ok(told.status), "{row}");
    assert!(rt; told.is(told.status, &printed, &message), "{row}");
    expect_sums(rt, row, told.status, before, sums_of(&world.store));
}

/// The call of a row, on empty devices of so many engines as its words want.
pub(crate) fn expect_row<R: Threads + Sync + Abort>(rt: &R, alloc: Global, row: &str) {
    let mut world = new_world(rt, alloc, engines_of(rt, alloc, row));
    expect_call(rt, alloc, &mut world, row);
}

/// The world, or where another number of engines is wanted, one of so many, on the same devices: the last ones are gone, or
/// empty ones came.
fn of_engines(rt: &impl Abort, alloc: Global, world: World<MemDisk>, engines: u32) -> World<MemDisk>
    requires engines { engines ≤ 8 }
    requires ready { IsReady disk_state world.engines (moment world.store world.meters.items world.seat.view world.beat) }
    requires table { world.seat.table ≡ world.table }
    ensures ready { IsReady disk_state result.engines (moment result.store result.meters.items result.seat.view result.beat) }
    ensures table { result.seat.table ≡ result.table }
{
    if engines == world.engines {
        world
    } else {
        let held = contents_of(rt, alloc, &world);
        world_on(rt, alloc, engines, &held, &Fault::NONE)
    }
}

/// The calls of rows in turn, on devices that hold this first.
pub(crate) fn expect_turns<R: Threads + Sync + Abort>(
    rt: &R,
    alloc: Global,
    held: &Contents,
    rows: &str,
) {
    let mut world = world_on(rt, alloc, engines_of(rt, alloc, rows), held, &Fault::NONE);
    for row in rows.lines() {
        world = of_engines(rt, alloc, world, engines_of(rt, alloc, row));
        expect_call(rt, alloc, &mut world, row);
    }
}
