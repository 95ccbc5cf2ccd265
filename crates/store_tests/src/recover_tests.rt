// A store that was made is recovered: its job, the places of its chunks, and no round.
ghost use Rattle.std.specs.Prelude.{◌≡◌, ◌≤◌, length};
ghost use Rattle.std.specs.List.{All};
ghost use Rattle.graph_model.specs.Jobs.{IsWellFormedJob};
ghost use Rattle.mem_devices.specs.MemDisk.{disk_state};

use chunk_file::Index;
use graph_model::{Job, Program};
use mem_devices::{MemDisk, MemMeter, SureSource};
use ports::Beat;
use restart::{Recovered, recover};
use std::alloc::Global;
use std::process::Abort;
use std::test::*;
use storage_engine::prepare;
use store_reader::Store;

/// The numbers of edges of five vertices, on two engines, with small chunks.
fn job_of_five() -> Job
    ensures job { IsWellFormedJob result }
    ensures format { result.format ≡ 2 }
    ensures engines { result.engines ≡ 2 }
{
    Job {
        program: Program::Degrees,
        vertices: 5,
        engines: 2,
        most: 2,
        chunk: 2,
        seed: 7,
        alpha: 100,
        limit: 10,
        format: 2,
        keep: 1,
    }
}

/// Two empty devices.
fn two_devices(rt: &impl Abort, alloc: Global) -> Vec<MemDisk>
    ensures two { length result.items ≡ 2 }
    ensures beats { All (λ disk. (disk_state disk).beat ≤ 0) result.items }
{
    let first = MemDisk::new(alloc, &[], &[]).expect(rt, "a disk");
    let second = MemDisk::new(alloc, &[], &[]).expect(rt, "a disk");
    let mut devices = Vec::new(alloc);
    devices.push(first).expect(rt, "room");
    devices.push(second).expect(rt, "room");
    devices
}

/// Both have the same places, in the same order.
fn expect_same(rt: &impl Abort, made: &Index, found: &Index) {
    assert_eq!(rt; made.total(), found.total());
    for engine in 0..8 {
        for partition in 0..64 {
            assert!(rt; made.len(engine, partition) == found.len(engine, partition));
            for t in 0..made.len(engine, partition) {
                assert_eq!(rt;
                    made.place(engine, partition, t),
                    found.place(engine, partition, t)
                );
            }
        }
    }
}

#[test]
fn a_store_that_was_made_is_recovered(rt: HostRuntime) {
    let alloc = rt.alloc();
    let mut store = Store {
        graphs: two_devices(&rt, alloc),
        values: two_devices(&rt, alloc),
        lanes: Vec::new(alloc),
        spills: Vec::new(alloc),
    };
    let text = b"0 1\n1 2\n2 3\n3 4\n4 0\n0 2\n1 3\n2 4\n0 3\n0 4\n";
    let mut source = SureSource::new(alloc, text).expect(&rt, "a source");
    let mut meter = MemMeter::new(alloc, &[]).expect(&rt, "a meter");
    let mut beat = Beat::new();
    let job = job_of_five();
    let prepared = prepare(alloc, &job, &mut source, &mut store, &mut meter, &mut beat);
    let made = prepared.expect(&rt, "a store");
    assert!(&rt; store.graphs.len() == 2 && store.values.len() == 2);
    match recover(alloc, &store, &mut meter) {
        Ok(Recovered::Fresh { job: read, index }) => {
            assert_eq!(&rt; read, job);
            assert_eq!(&rt; index.total(), 6);
            expect_same(&rt, &made, &index);
        }
        Ok(Recovered::Found { .. }) => assert!(&rt; false),
        Err(_) => assert!(&rt; false),
    }
}
