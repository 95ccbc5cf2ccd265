// Each round reads the edges from the graph devices, and keeps none of them from the text or from an earlier round.
ghost use Rattle.std.specs.Prelude.{◌≡◌, ◌≤◌, length};
ghost use Rattle.std.specs.List.{All};
ghost use Rattle.mem_devices.specs.MemDisk.{disk_state};

use crate::call::call_at;
use crate::changing::{ChangingDisk, KnownMeter, TurnGate};
use crate::faults::Fault;
use crate::jobs::ON_ONE;
use crate::world::world_with;
use mem_devices::{MemDisk, MemMeter};
use std::alloc::Global;
use std::process::Abort;
use std::sync::atomic::AtomicU64;
use std::test::*;
use store_reader::Store;

/// One empty device.
fn one<'a>(
    rt: &impl Abort,
    alloc: Global,
    changes: bool,
    turn: &'a AtomicU64,
) -> Vec<ChangingDisk<'a>>
    ensures many { length result.items ≡ 1 }
    ensures beats { All (λ changing. (disk_state changing.disk).beat ≤ 0) result.items }
{
    let mut devices = Vec::new(alloc);
    let disk = MemDisk::new(alloc, &[], &[]).expect(rt, "a device");
    devices
        .push(ChangingDisk {
            disk,
            changes,
            turn,
        })
        .expect(rt, "room");
    devices
}

fn meter_of(rt: &impl Abort, alloc: Global, is_worker: bool) -> KnownMeter {
    let meter = MemMeter::new(alloc, &[]).expect(rt, "a meter");
    KnownMeter { is_worker, meter }
}

/// A worker's meter, and that of the calling thread.
fn two_meters(rt: &impl Abort, alloc: Global) -> Vec<KnownMeter>
    ensures { length result.items ≡ 2 }
{
    let mut meters = Vec::new(alloc);
    meters.push(meter_of(rt, alloc, true)).expect(rt, "room");
    meters.push(meter_of(rt, alloc, false)).expect(rt, "room");
    meters
}

#[test]
fn each_round_reads_the_edges_from_the_devices(rt: HostRuntime) {
    let alloc = rt.alloc();
    let turn = AtomicU64::new(0);
    let mut lanes = Vec::new(alloc);
    lanes
        .push(one(&rt, alloc, false, &turn))
        .expect(&rt, "room");
    let store = Store {
        graphs: one(&rt, alloc, true, &turn),
        values: one(&rt, alloc, false, &turn),
        lanes,
        spills: one(&rt, alloc, false, &turn),
    };
    let meters = two_meters(&rt, alloc);
    let mut world = world_with(&rt, alloc, 1, store, meters);
    let gate = TurnGate { turn: &turn };
    let told = call_at(
        &rt,
        alloc,
        &mut world,
        ON_ONE.run,
        ON_ONE.text,
        &gate,
        &Fault::NONE,
    );
    // the last byte of the graph device is the weight of the edge from 2 to 1, which is 1 in round 1 and 3 from round 2 on
    assert!(&rt; told.is(0, b"0 0\n1 4\n2 1\n", b""));
}
