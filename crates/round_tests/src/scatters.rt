//! Scatter epochs of all workers, and what stands on their lanes then.
ghost use Rattle.std.specs.Prelude.{◌≡◌, ℕ, ◌<◌, ◌≤◌, length, vec_len};
ghost use Rattle.std.specs.List.{All};
ghost use Rattle.graph_model.specs.Jobs.{IsWellFormedJob};
ghost use Rattle.partitioner.specs.Splits.{IsSplit, split_for};
ghost use Rattle.mem_devices.specs.MemDisk.{disk_state};
ghost use Rattle.chunk_object.specs.History.{most_chunks};
ghost use Rattle.scatter_phase.specs.Rooms.{AreSlots};
ghost use Rattle.store_reader.specs.Indexed.{lens_of};
ghost use Rattle.round_steps.specs.Going.{IsStore};

use crate::faults::Fault;
use crate::made::{Made, meters};
use chunk_cursor::CursorTable;
use chunk_file::{Index, Place, read_chunk};
use epoch_seats::new_seat_is_between_epochs;
use gather_laws::{Value, VertexProgram};
use graph_model::{Edge, Job, Update};
use mem_devices::{MemDisk, MemMeter};
use partitioner::Split;
use ports::Gate;
use scatter_epoch::{ScatterCrew, scatter_all};
use scatter_phase::ScatterContext;
use std::alloc::Global;
use std::process::Abort;
use std::thread::Threads;
use store_reader::{Outcome, Serving, Shelf};

/// One scatter epoch from the values in a slot; where there is one before, from those alone that differ there. All lanes
/// and meters are in their places afterwards.
pub(crate) fn scatter<'a, R: Threads + Abort + Sync, P: VertexProgram, G: Gate + Sync>(
    rt: &R,
    alloc: Global,
    program: &'a P,
    job: &'a Job,
    made: &'a Made,
    slot: u32,
    before: Option<u32>,
    gate: &'a G,
    lanes: &mut Vec<Vec<MemDisk>>,
    updates: &mut Index,
) -> Outcome
    requires job { IsWellFormedJob job.now }
    requires store { IsStore disk_state (split_for job.now) made.now.beat made.now.store }
    requires few { (cursor : ℕ) → lens_of made.now.index cursor ≤ most_chunks }
    requires slots { AreSlots slot before }
    requires many { vec_len lanes.old ≡ job.now.engines }
    requires rows { All (λ row. (length row.items ≡ job.now.engines) × All (λ disk. (disk_state disk).beat ≤ 0) row.items) lanes.old.items }
{
    let split = Split::of_job(job);
    let (table, mut seat) = CursorTable::new(alloc).expect(rt, "a table");
    new_seat_is_between_epochs();
    let mut crew = ScatterCrew::new(alloc, job, &split).expect(rt, "a crew");
    let mut meters = meters(rt, alloc, job.engines, &Fault::NONE);
    let context = ScatterContext {
        program,
        serving: Serving {
            shelf: Shelf::Graphs(made.store.graphs.as_slice()),
            index: &made.index,
            job,
            split: &split,
            table: &table,
        },
        values: made.store.values.as_slice(),
        round: 1,
        slot,
        before,
        epoch: 0,
        gate,
        beat: &made.beat,
    };
    let scattered = scatter_all(
        rt,
        &context,
        &mut seat,
        &mut crew,
        &mut meters,
        lanes,
        updates,
    );
    let engines = job.engines as usize;
    assert_eq!(rt; meters.len(), engines);
    assert_eq!(rt; lanes.len(), engines);
    assert!(rt; lanes.iter().all(|row| row.len() == engines));
    scattered.outcome
}

/// What edges send, sorted: from all vertices, or from those alone whose value is another than before.
pub(crate) fn sent_by<P: VertexProgram>(
    rt: &impl Abort,
    alloc: Global,
    program: &P,
    edges: &[Edge],
    now: &[Value],
    before: &[Value],
) -> Vec<(u32, u64)> {
    let mut sent = Vec::new(alloc);
    for edge in edges {
        let src = edge.src as usize;
        let value = *now.get(src).expect(rt, "a value");
        if before.get(src) == Some(&value) {
            continue;
        }
        if let Some(update) = program.send(value, edge.weight) {
            sent.push((edge.dst, update)).expect(rt, "room");
        }
    }
    sent.sort_unstable();
    sent
}

/// Adds the updates of the chunk at a place.
fn add_chunk(
    rt: &impl Abort,
    alloc: Global,
    job: &Job,
    split: &Split,
    lane: &MemDisk,
    place: Place,
    partition: u32,
    sent: &mut Vec<(u32, u64)>,
)
    requires job { IsWellFormedJob job.now }
    requires split { IsSplit split.now }
    requires partition { partition < split.now.parts }
{
    let mut meter = MemMeter::new(alloc, &[]).expect(rt, "a meter");
    let mut bytes = [0; 56];
    let mut into = [Update { dst: 0, value: 0 }; 3];
    let count = read_chunk(
        lane, &mut meter, place.at, partition, split, &mut bytes, &mut into, job.format,
    )
    .expect(rt, "a chunk");
    assert!(rt; count <= job.chunk);
    for update in into.iter().take(count as usize) {
        sent.push((update.dst, update.value)).expect(rt, "room");
    }
}

/// Adds the updates of all chunks of an engine and a partition.
fn add_chunks(
    rt: &impl Abort,
    alloc: Global,
    job: &Job,
    split: &Split,
    lanes: &[Vec<MemDisk>],
    updates: &Index,
    engine: u32,
    partition: u32,
    sent: &mut Vec<(u32, u64)>,
)
    requires job { IsWellFormedJob job.now }
    requires split { IsSplit split.now }
    requires engine { engine < 8 }
    requires partition { partition < split.now.parts }
{
    for t in 0..updates.len(engine, partition) {
        let place = updates.place(engine, partition, t);
        let row = lanes.get(place.lane as usize).expect(rt, "a row of lanes");
        let lane = row.get(engine as usize).expect(rt, "a lane");
        add_chunk(rt, alloc, job, split, lane, place, partition, sent);
    }
}

/// The updates on all lanes together, sorted.
pub(crate) fn sent_on(
    rt: &impl Abort,
    alloc: Global,
    job: &Job,
    lanes: &[Vec<MemDisk>],
    updates: &Index,
) -> Vec<(u32, u64)>
    requires { IsWellFormedJob job.now }
{
    let split = Split::of_job(job);
    let mut sent = Vec::new(alloc);
    for cursor in 0..8 * split.parts {
        let (engine, partition) = (cursor % 8, cursor / 8);
        add_chunks(
            rt, alloc, job, &split, lanes, updates, engine, partition, &mut sent,
        );
    }
    sent.sort_unstable();
    sent
}
