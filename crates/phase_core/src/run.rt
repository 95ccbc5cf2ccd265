//! Events, and what comes of them.
ghost use Rattle.std.specs.Prelude.{◌≡◌, ◌<◌, ◌*◌, ◌+◌, ◌&&◌, not, true, IfOk, OnOk, OnErr, length};
ghost use Rattle.graph_model.specs.Programs.{Rules};
ghost use Rattle.graph_model.specs.Partitions.{first_vertex, part_len};
ghost use Rattle.phase_model.specs.Sums.{sums_over};
ghost use Rattle.phase_core.specs.declared.event.Event.TheVariants.{Claim, Look, Heads, Admit, Finish};
ghost use Rattle.phase_core.specs.Machine.{is_active, is_cursor, is_timely, reply, stepped, taken_from, works_at};
ghost use Rattle.phase_core.specs.Runs.{ran, replies};
ghost use Rattle.phase_core.specs.Sums.{merged_at};
ghost use Rattle.phase_core.specs.View.{IsNextOf, machine_of};

use crate::chunks::{count_at, cursor_of, index_of};
use crate::event::{Event, Reply};
use crate::gather::fold_updates;
use crate::state::Core;
use gather_laws::VertexProgram;
use ports::Memory;
use std::alloc::Global;

/// Performs one event and answers it. A chunk that is taken is folded into the worker's sums. `NotNow` comes exactly
/// where a number is out of range, the worker is through, a claim is by a worker that is neither the partition's master
/// nor admitted there, or was told `Exhausted` there, or an admit is by the master, by a worker that was admitted there
/// before, or with `seen` not 1 to 7; it changes nothing.
pub fn step<P: VertexProgram>(core: &mut Core, program: &P, event: &Event) -> Reply
    ensures reply { result ≡ reply (machine_of core.old) event.now }
    ensures after { machine_of core.new ≡ stepped (P.rules program.now) (machine_of core.old) event.now }
{
    match *event {
        Event::Claim {
            worker,
            engine,
            partition,
        } => claim(core, program, worker, engine, partition),
        Event::Look {
            worker,
            engine,
            partition,
        } => look(core, worker, engine, partition),
        Event::Heads { worker, partition } => heads(core, worker, partition),
        Event::Admit {
            worker,
            partition,
            seen,
        } => admit(core, worker, partition, seen),
        Event::Finish { worker } => finish(core, worker),
    }
}

/// Performs events one after another and answers each. Its memory is taken first: after `Memory` the machine is as
/// before.
pub fn run_events<P: VertexProgram>(
    alloc: Global,
    core: &mut Core,
    program: &P,
    events: &[Event],
) -> Result<Vec<Reply>, Memory>
    ensures replies { IfOk result (λ found. found.items ≡ replies (P.rules program.now) (machine_of core.old) events.now) }
    ensures after { OnOk result (machine_of core.new ≡ ran (P.rules program.now) (machine_of core.old) events.now) }
    ensures err { OnErr result (machine_of core.new ≡ machine_of core.old) }
{
    let mut replies = vec![in alloc; Reply::NotNow; events.len()]?;
    for (index, event) in events.iter().enumerate() {
        replies[index] = step(core, program, event);
    }
    Ok(replies)
}

/// Writes the merge of all workers' sums for each vertex of the partition, in order.
pub fn merged<P: VertexProgram>(core: &Core, program: &P, partition: u32, into: &mut [u64])
    requires partition { partition < (machine_of core.now).split.parts }
    requires long { length into.old ≡ part_len (machine_of core.now).split.vertices (machine_of core.now).split.parts partition }
    ensures { into.new ≡ sums_over (merged_at (P.rules program.now) (machine_of core.now))
        (first_vertex (machine_of core.now).split.vertices (machine_of core.now).split.parts partition) (length into.old) }
{
    let (first, _) = core.split.range(partition);
    for (place, sum) in into.iter_mut().enumerate() {
        *sum = merged_at(core, program, first as usize + place);
    }
}

fn merged_at<P: VertexProgram>(core: &Core, program: &P, vertex: usize) -> u64
    requires { vertex < (machine_of core.now).split.vertices }
    ensures { result ≡ merged_at (P.rules program.now) (machine_of core.now) vertex }
{
    let vertices = core.split.vertices as usize;
    let mut merged = program.unit();
    for worker in 0..core.split.engines as usize {
        merged = program.merge(merged, core.sums[vertices * worker + vertex]);
    }
    merged
}

fn is_active(core: &Core, worker: u32) -> bool
    ensures { result ≡ is_active (machine_of core.now) worker }
{
    worker < core.split.engines && !core.finished[worker as usize]
}

fn is_cursor(core: &Core, engine: u32, partition: u32) -> bool
    ensures { result ≡ is_cursor (machine_of core.now) engine partition }
{
    engine < core.split.engines && partition < core.split.parts
}

fn works_at(core: &Core, worker: u32, partition: u32) -> bool
    requires worker { worker < (machine_of core.now).split.engines }
    requires partition { partition < (machine_of core.now).split.parts }
    ensures { result ≡ works_at (machine_of core.now) worker partition }
{
    core.split.master_of(partition) == worker
        || core.admitted[64 * worker as usize + partition as usize]
}

fn may_claim(core: &Core, worker: u32, engine: u32, partition: u32) -> bool
    ensures { result ≡ is_timely (machine_of core.now) (Claim worker engine partition) }
{
    is_active(core, worker)
        && is_cursor(core, engine, partition)
        && works_at(core, worker, partition)
        && !core.refused[refusal_place(worker, engine, partition)]
}

fn may_admit(core: &Core, worker: u32, partition: u32, seen: u64) -> bool
    ensures { result ≡ is_timely (machine_of core.now) (Admit worker partition seen) }
{
    is_active(core, worker)
        && partition < core.split.parts
        && !works_at(core, worker, partition)
        && 1 <= seen
        && seen <= 7
}

fn refusal_place(worker: u32, engine: u32, partition: u32) -> usize
    ensures { result ≡ 512 * worker + (64 * engine + partition) }
{
    (512 * u64::from(worker) + cursor_of(engine, partition)) as usize
}

fn claim<P: VertexProgram>(
    core: &mut Core,
    program: &P,
    worker: u32,
    engine: u32,
    partition: u32,
) -> Reply
    ensures reply { result ≡ reply (machine_of core.old) (Claim worker engine partition) }
    ensures after { machine_of core.new ≡ stepped (P.rules program.now) (machine_of core.old) (Claim worker engine partition) }
{
    if !may_claim(core, worker, engine, partition) {
        return Reply::NotNow;
    }
    let cursor = cursor_of(engine, partition);
    let next = core.nexts[cursor as usize];
    match index_of(&core.chunks, cursor, next) {
        Some(index) => {
            take(core, program, worker, cursor, index);
            Reply::Took(next)
        }
        None => {
            core.refused[refusal_place(worker, engine, partition)] = true;
            Reply::Exhausted
        }
    }
}

// The worker takes the cursor's next chunk, which stands at this index among all.
fn take<P: VertexProgram>(core: &mut Core, program: &P, worker: u32, cursor: u64, index: usize)
    requires worker { worker < (machine_of core.old).split.engines }
    requires cursor { cursor < 64 * (machine_of core.old).split.engines }
    requires index { IsNextOf core.old cursor index }
    ensures { machine_of core.new ≡ taken_from (P.rules program.now) (machine_of core.old) worker cursor }
{
    core.nexts[cursor as usize] += 1;
    let first = core.split.vertices as usize * worker as usize;
    fold_updates(program, &core.chunks[index].updates, first, &mut core.sums);
}

fn look(core: &Core, worker: u32, engine: u32, partition: u32) -> Reply
    ensures { result ≡ reply (machine_of core.now) (Look worker engine partition) }
{
    if !is_active(core, worker) || !is_cursor(core, engine, partition) {
        return Reply::NotNow;
    }
    let cursor = cursor_of(engine, partition);
    let left = count_at(&core.chunks, cursor).saturating_sub(core.nexts[cursor as usize]);
    Reply::Number(left)
}

fn heads(core: &Core, worker: u32, partition: u32) -> Reply
    ensures { result ≡ reply (machine_of core.now) (Heads worker partition) }
{
    if !is_active(core, worker) || partition >= core.split.parts {
        return Reply::NotNow;
    }
    Reply::Number(core.heads[partition as usize])
}

fn admit(core: &mut Core, worker: u32, partition: u32, seen: u64) -> Reply
    ensures reply { result ≡ reply (machine_of core.old) (Admit worker partition seen) }
    ensures after { (rules : Rules) → machine_of core.new ≡ stepped rules (machine_of core.old) (Admit worker partition seen) }
{
    if !may_admit(core, worker, partition, seen) {
        return Reply::NotNow;
    }
    let heads = core.heads[partition as usize];
    if heads != seen {
        return Reply::Contended(heads);
    }
    core.heads[partition as usize] = heads + 1;
    core.admitted[64 * worker as usize + partition as usize] = true;
    Reply::Admitted
}

fn finish(core: &mut Core, worker: u32) -> Reply
    ensures reply { result ≡ reply (machine_of core.old) (Finish worker) }
    ensures after { (rules : Rules) → machine_of core.new ≡ stepped rules (machine_of core.old) (Finish worker) }
{
    if !is_active(core, worker) {
        return Reply::NotNow;
    }
    core.finished[worker as usize] = true;
    Reply::Finished
}
