//! The updates of a worker on their way to its lanes: a buffer for each partition, whose chunk is written when it is full.
ghost use Rattle.std.specs.Prelude.{◌≡◌, ℕ, ◌+◌, ◌*◌, ◌<◌, List, ◌++◌, ◌∷◌, [], length, IfOk, IfErr, OnOk, OnErr, Vec as VecOf, vec_len, vec_capacity, slice_index_or};
ghost use Rattle.std.specs.Global.{Global as Heap};
ghost use Rattle.graph_model.specs.declared.job.Job.{Job as JobOf};
ghost use Rattle.graph_model.specs.Jobs.{IsWellFormedJob};
ghost use Rattle.graph_model.specs.declared.value.Update.{Update as UpdateOf};
ghost use Rattle.graph_model.specs.Partitions.{partition_of};
ghost use Rattle.partitioner.specs.Splits.{IsSplit, IsSplitOf};
ghost use Rattle.std.specs.List.{All};
ghost use Rattle.chunk_model.specs.Chunks.{Chunk};
ghost use Rattle.seeded_place.specs.Placing.{HasPlaced};
ghost use Rattle.phase_model.specs.Lanes.{update_shelf};
ghost use Rattle.ports.specs.Devices.{OneRose, NoneRose};
ghost use Rattle.update_lanes.specs.Lanes.{HasMade, HasNoted, HasFlushed, IsWithin, AreWritten, AreReady, GoOn};
ghost use Rattle.update_lanes.specs.Outgoing.{HasRoom, AreBuffers, NoneWaits, NoneFull, HasSent, IsSameRoom, Gains, Empties};

use crate::lanes::{LaneFault, write_chunk};
use graph_model::{Job, Update};
use partitioner::Split;
use phase_model::Placed;
use ports::{Beat, Disk, Memory};
use seeded_place::Placer;
use std::alloc::Global;

/// What a worker needs to send updates.
#[derive(Drop)]
pub struct Outgoing {
    /// For each partition the updates that no chunk has yet.
    pub(crate) buffers: Vec<Vec<Update>>,
    /// Where the next chunk goes.
    pub(crate) placer: Placer,
    /// Where the bytes of a chunk are made.
    pub(crate) bytes: Vec<u8>,
    pub(crate) split: Split,
    /// The records of a full chunk.
    pub(crate) size: usize,
    /// The format of the store.
    pub(crate) format: u32,
}

/// The bytes of a chunk's head, and of an update.
const HEAD_WIDTH: usize = 8;

const UPDATE_WIDTH: usize = 12;

impl Outgoing {
    /// A buffer for a chunk of updates for each partition of a job, and room for the bytes of a chunk.
    pub fn new(alloc: Global, job: &Job, split: &Split) -> Result<Outgoing, Memory>
        requires job { IsWellFormedJob job.now }
        requires split { IsSplit split.now }
        requires of_job { IsSplitOf job.now split.now }
        ensures room { IfOk result HasRoom }
        ensures of_job { IfOk result (λ out. IsSplitOf job.now out.split) }
        ensures size { IfOk result (λ out. out.size ≡ job.now.chunk) }
    {
        let size = job.chunk as usize;
        let mut buffers: Vec<Vec<Update>> = Vec::with_capacity(alloc, split.parts as usize)?;
        'buffers: for _ in 0..split.parts {
            buffers.push(Vec::with_capacity(alloc, size)?)?;
        }
        Ok(Outgoing {
            buffers,
            placer: Placer::new(job.seed, 0, split.engines),
            bytes: vec![in alloc; 0; HEAD_WIDTH + UPDATE_WIDTH * size]?,
            split: *split,
            size,
            format: job.format,
        })
    }
}

/// Sends one update more: puts it into the buffer of its destination's partition, and writes the buffer's chunk where it
/// is full then.
#[inline]
pub fn put<D: Disk>(
    out: &mut Outgoing,
    lanes: &mut [D],
    places: &mut Vec<Placed>,
    update: Update,
    beat: &Beat,
) -> Result<(), LaneFault>
    requires room { HasRoom out.old }
    requires open { NoneFull out.old.size out.old.buffers.items }
    requires dst { update.dst < out.old.split.vertices }
    requires lanes { AreReady D.state out.old.split.engines beat.now (length places.old.items) lanes.old }
    ensures same { IsSameRoom out.old out.new }
    ensures room { HasRoom out.new }
    ensures open { OnOk result (NoneFull out.new.size out.new.buffers.items) }
    ensures lanes { GoOn D.state beat.now lanes.old lanes.new }
    ensures ready { OnOk result (AreReady D.state out.new.split.engines beat.now (length places.new.items) lanes.new) }
    ensures sent { (job : JobOf) (epoch worker : ℕ) (updates : List UpdateOf) → IsSplitOf job out.old.split → out.old.size ≡ job.chunk
        → HasSent D.state job epoch worker updates out.old.buffers.items out.old.placer lanes.old places.old.items
        → OnOk result (HasSent D.state job epoch worker (updates ++ update ∷ []) out.new.buffers.items out.new.placer lanes.new places.new.items) }
    ensures within { All (IsWithin out.old.split.engines out.old.split.parts) places.old.items → All (IsWithin out.old.split.engines out.old.split.parts) places.new.items }
    ensures kept { OnErr result (places.new.items ≡ places.old.items) }
    ensures cause { IfErr result (λ fault. fault ≡ LaneFault.DiskFault → OneRose D.state lanes.old lanes.new) }
    ensures calm { OnOk result (NoneRose D.state lanes.old lanes.new) }
{
    let home = out.split.partition_of(update.dst);
    add(&mut out.buffers, home, update);
    if out.buffers[home as usize].len() < out.size {
        return Ok(());
    }
    write_chunk(
        lanes,
        &mut out.placer,
        places,
        home,
        &out.buffers[home as usize],
        &mut out.bytes,
        beat,
        out.format,
    )?;
    empty(&mut out.buffers, home);
    Ok(())
}

/// Puts an update into a buffer with room for it.
#[inline(always)]
fn add(buffers: &mut Vec<Vec<Update>>, partition: u32, update: Update)
    requires partition { partition < length buffers.old.items }
    requires room { (d : VecOf UpdateOf Heap) → vec_len (slice_index_or buffers.old.items partition d) < vec_capacity (slice_index_or buffers.old.items partition d) }
    ensures { Gains partition update buffers.old.items buffers.new.items }
{
    buffers[partition as usize].push_reserved(update);
}

/// Empties a buffer.
fn empty(buffers: &mut Vec<Vec<Update>>, partition: u32)
    requires { partition < length buffers.old.items }
    ensures { Empties partition buffers.old.items buffers.new.items }
{
    buffers[partition as usize].clear();
}

/// Writes what waits in the buffers, partition by partition, and empties them.
pub fn flush_rest<D: Disk>(
    out: &mut Outgoing,
    lanes: &mut [D],
    places: &mut Vec<Placed>,
    beat: &Beat,
) -> Result<(), LaneFault>
    requires room { HasRoom out.old }
    requires open { NoneFull out.old.size out.old.buffers.items }
    requires lanes { AreReady D.state out.old.split.engines beat.now (length places.old.items) lanes.old }
    ensures same { IsSameRoom out.old out.new }
    ensures room { HasRoom out.new }
    ensures lanes { GoOn D.state beat.now lanes.old lanes.new }
    ensures written { (job : JobOf) (epoch worker : ℕ) (updates : List UpdateOf) → IsSplitOf job out.old.split
        → HasSent D.state job epoch worker updates out.old.buffers.items out.old.placer lanes.old places.old.items
        → OnOk result (AreWritten D.state lanes.new places.new.items (update_shelf job epoch worker updates)) }
    ensures few { HasFlushed out.old.split.engines out.old.split.parts places.old.items places.new.items }
    ensures cause { IfErr result (λ fault. fault ≡ LaneFault.DiskFault → OneRose D.state lanes.old lanes.new) }
    ensures calm { OnOk result (NoneRose D.state lanes.old lanes.new) }
{
    'partitions: for partition in 0..out.split.parts {
        if out.buffers[partition as usize].is_empty() {
            continue;
        }
        flush_one(out, lanes, places, partition, beat)?;
    }
    Ok(())
}

/// Writes what waits in a buffer.
fn flush_one<D: Disk>(
    out: &mut Outgoing,
    lanes: &mut [D],
    places: &mut Vec<Placed>,
    partition: u32,
    beat: &Beat,
) -> Result<(), LaneFault>
    requires room { HasRoom out.old }
    requires open { NoneFull out.old.size out.old.buffers.items }
    requires partition { partition < out.old.split.parts }
    requires some { (d : VecOf UpdateOf Heap) → 0 < length (slice_index_or out.old.buffers.items partition d).items }
    requires lanes { AreReady D.state out.old.split.engines beat.now (length places.old.items) lanes.old }
    ensures same { IsSameRoom out.old out.new }
    ensures room { HasRoom out.new }
    ensures buffers { out.new.buffers ≡ out.old.buffers }
    ensures lanes { GoOn D.state beat.now lanes.old lanes.new }
    ensures ready { OnOk result (AreReady D.state out.new.split.engines beat.now (length places.new.items) lanes.new) }
    ensures made { (seed stream engines : ℕ) (made : List (Chunk UpdateOf)) (d : VecOf UpdateOf Heap) → HasMade D.state seed stream engines out.old.placer lanes.old places.old.items made
        → OnOk result (HasMade D.state seed stream engines out.new.placer lanes.new places.new.items (made ++ record { partition = partition; items = (slice_index_or out.old.buffers.items partition d).items } ∷ [])) }
    ensures noted { OnOk result (HasNoted out.old.split.engines partition places.old.items places.new.items) }
    ensures kept { OnErr result (places.new.items ≡ places.old.items) }
    ensures cause { IfErr result (λ fault. fault ≡ LaneFault.DiskFault → OneRose D.state lanes.old lanes.new) }
    ensures calm { OnOk result (NoneRose D.state lanes.old lanes.new) }
{
    write_chunk(
        lanes,
        &mut out.placer,
        places,
        partition,
        &out.buffers[partition as usize],
        &mut out.bytes,
        beat,
        out.format,
    )
}

/// Makes it ready for another stream of chunks: nothing waits.
pub fn reset(out: &mut Outgoing, seed: u64, stream: u64, format: u32)
    requires { HasRoom out.old }
    ensures room { HasRoom out.new }
    ensures same { (out.new.split ≡ out.old.split) × (out.new.size ≡ out.old.size) }
    ensures none { NoneWaits out.new.buffers.items }
    ensures placer { HasPlaced seed stream out.old.split.engines 0 out.new.placer }
{
    empty_all(&mut out.buffers, out.split.parts);
    out.placer = Placer::new(seed, stream, out.split.engines);
    out.format = format;
}

/// Empties all buffers.
fn empty_all(buffers: &mut Vec<Vec<Update>>, parts: u32)
    requires { length buffers.old.items ≡ parts }
    ensures many { length buffers.new.items ≡ parts }
    ensures rooms { (size : ℕ) → AreBuffers size buffers.old.items → AreBuffers size buffers.new.items }
    ensures none { NoneWaits buffers.new.items }
{
    'buffers: for partition in 0..parts {
        empty(buffers, partition);
    }
}

/// The same for a worker's own lanes.
pub fn flush_lanes<D: Disk>(
    out: &mut Outgoing,
    lanes: &mut Vec<D>,
    places: &mut Vec<Placed>,
    beat: &Beat,
) -> Result<(), LaneFault>
    requires room { HasRoom out.old }
    requires open { NoneFull out.old.size out.old.buffers.items }
    requires lanes { AreReady D.state out.old.split.engines beat.now (length places.old.items) lanes.old.items }
    ensures same { IsSameRoom out.old out.new }
    ensures room { HasRoom out.new }
    ensures lanes { GoOn D.state beat.now lanes.old.items lanes.new.items }
    ensures written { (job : JobOf) (epoch worker : ℕ) (updates : List UpdateOf) → IsSplitOf job out.old.split
        → HasSent D.state job epoch worker updates out.old.buffers.items out.old.placer lanes.old.items places.old.items
        → OnOk result (AreWritten D.state lanes.new.items places.new.items (update_shelf job epoch worker updates)) }
    ensures few { HasFlushed out.old.split.engines out.old.split.parts places.old.items places.new.items }
    ensures cause { IfErr result (λ fault. fault ≡ LaneFault.DiskFault → OneRose D.state lanes.old.items lanes.new.items) }
    ensures calm { OnOk result (NoneRose D.state lanes.old.items lanes.new.items) }
{
    flush_rest(out, lanes, places, beat)
}
