//! Calls of the program on a world.
ghost use Rattle.std.specs.Prelude.{◌≡◌};
ghost use Rattle.round_loop.specs.Keeping.{moment};
ghost use Rattle.run_model.specs.Calls.{IsReady};

use crate::faults::{Fault, Object};
use crate::world::World;
use chaos_top::chaos;
use engine_gate::OpenGate;
use job_words::wanted;
use mem_devices::{MemSink, MemSource};
use ports::{Disk, Gate};
use std::alloc::Global;
use std::process::Abort;
use std::thread::Threads;

/// What a call answered, printed and said.
#[derive(Drop)]
pub(crate) struct Told {
    pub status: u8,
    pub out: MemSink,
    pub err: MemSink,
}

impl Told {
    pub(crate) fn is(&self, status: u8, out: &[u8], err: &[u8]) -> bool {
        self.status == status && self.out.written() == out && self.err.written() == err
    }
}

/// The words between spaces.
pub(crate) fn words_of(rt: &impl Abort, alloc: Global, words: &str) -> Vec<String> {
    let mut all = Vec::new(alloc);
    for word in words.split(' ') {
        let word = String::from_str(alloc, word).expect(rt, "a word");
        all.push(word).expect(rt, "room");
    }
    all
}

/// A call of the program with these words, in which this call of a stream fails. The source gives three bytes at once, and
/// the sinks take five. All that it was handed is in its place again.
pub(crate) fn call_at<R: Threads + Sync + Abort, D: Disk, G: Gate + Sync>(
    rt: &R,
    alloc: Global,
    world: &mut World<D>,
    words: &str,
    text: &[u8],
    gate: &G,
    fault: &Fault,
) -> Told
    requires ready { IsReady D.state world.old.engines (moment world.old.store world.old.meters.items world.old.seat.view world.old.beat) }
    requires table { world.old.seat.table ≡ world.old.table }
    ensures ready { IsReady D.state world.old.engines (moment world.new.store world.new.meters.items world.new.seat.view world.new.beat) }
    ensures engines { world.new.engines ≡ world.old.engines }
    ensures table { world.new.seat.table ≡ world.new.table }
{
    let words = words_of(rt, alloc, words);
    let engines = wanted(alloc, &words).expect(rt, "room");
    assert!(rt; engines == world.engines);
    assert!(rt; world.beat.number() < 1_000_000_000);
    let source_fails = [fault.at(Object::SOURCE)];
    let out_fails = [fault.at(Object::OUT)];
    let err_fails = [fault.at(Object::ERR)];
    let mut source = MemSource::new(alloc, text, 3, &source_fails).expect(rt, "a source");
    let mut out = MemSink::new(alloc, 5, &out_fails).expect(rt, "a sink");
    let mut err = MemSink::new(alloc, 5, &err_fails).expect(rt, "a sink");
    let status = chaos(
        rt,
        alloc,
        &words,
        &mut source,
        &mut out,
        &mut err,
        &mut world.store,
        &mut world.meters,
        &world.table,
        &mut world.seat,
        gate,
        &mut world.beat,
    );
    Told { status, out, err }
}

/// A call of the program with these words, in which no stream fails.
pub(crate) fn call<R: Threads + Sync + Abort, D: Disk>(
    rt: &R,
    alloc: Global,
    world: &mut World<D>,
    words: &str,
    text: &[u8],
) -> Told
    requires ready { IsReady D.state world.old.engines (moment world.old.store world.old.meters.items world.old.seat.view world.old.beat) }
    requires table { world.old.seat.table ≡ world.old.table }
    ensures ready { IsReady D.state world.old.engines (moment world.new.store world.new.meters.items world.new.seat.view world.new.beat) }
    ensures engines { world.new.engines ≡ world.old.engines }
    ensures table { world.new.seat.table ≡ world.new.table }
{
    call_at(rt, alloc, world, words, text, &OpenGate, &Fault::NONE)
}
