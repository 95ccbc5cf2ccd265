//! A chunk that is claimed, and its records.
ghost use Rattle.std.specs.Prelude.{◌≡◌, ◌+◌, ◌<◌, ◌≤◌, Some, length, slice_get};
ghost use Rattle.ports.specs.Faults.{Rose};
ghost use Rattle.chunk_object.specs.Epochs.{cursor_of};
ghost use Rattle.chunk_object.specs.History.{opened_len};
ghost use Rattle.chunk_cursor.specs.View.{knows, MayClaim};
ghost use Rattle.chunk_model.specs.ChunkBytes.{chunk_width};
ghost use Rattle.partitioner.specs.Splits.{IsSplit};
ghost use Rattle.chunk_file.specs.Places.{places_of};
ghost use Rattle.store_reader.specs.Serving.{told_at, has_device, HasLane, place_at, AddsClaim, HasServed, OnServed, HasDevices, ReadsAt, RefusesAt};

use chunk_cursor::{Claim, CursorSeat, CursorTable};
use chunk_file::{ChunkFault, Index, Record, read_chunk};
use graph_model::Job;
use partitioner::Split;
use ports::Disk;

/// The devices that chunks are read from.
#[derive(Drop)]
pub enum Shelf<'a, D: Disk> {
    /// The graph device of each engine.
    Graphs(&'a [D]),
    /// For each worker its lane on each engine.
    Lanes(&'a [Vec<D>]),
}

/// What chunks are served from.
#[derive(Drop)]
pub struct Serving<'a, D: Disk> {
    pub shelf: Shelf<'a, D>,
    /// Where the chunks stand.
    pub index: &'a Index,
    pub job: &'a Job,
    pub split: &'a Split,
    /// Which chunks are taken.
    pub table: &'a CursorTable,
}

/// What a claim came to.
#[derive(Clone, Copy, Debug, PartialEq, Eq)]
pub enum Served {
    /// A chunk was taken, and this number of its records was read.
    Chunk(u32),
    /// No chunk was left.
    Exhausted,
    /// A chunk was taken, and a read of its device failed.
    DiskFault,
    /// A chunk was taken, and no well-formed chunk stands at its place, at this byte.
    Damaged(u64),
}

impl<'a, D: Disk> Shelf<'a, D> {
    /// The device of an engine, and of a lane where there are lanes.
    fn device(&self, engine: u32, lane: u32) -> &'a D
        requires { has_device self.now engine lane }
        ensures { (D.state result.now).bytes ≡ told_at D.state self.now engine lane }
    {
        match self {
            Shelf::Graphs(disks) => disk_at(disks, engine),
            Shelf::Lanes(lanes) => disk_at(lane_at(lanes, lane), engine),
        }
    }
}

/// A disk of some.
fn disk_at<D: Disk>(disks: &[D], engine: u32) -> &D
    requires { engine < length disks.now }
    ensures { slice_get disks.now engine ≡ Some result.now }
{
    &disks[engine as usize]
}

/// The devices of a lane.
fn lane_at<D: Disk>(lanes: &[Vec<D>], lane: u32) -> &[D]
    requires { lane < length lanes.now }
    ensures { HasLane lanes.now lane result.now }
{
    &lanes[lane as usize]
}

/// Claims a chunk of a partition on an engine once, and reads the chunk that was taken into the front of `into`, by one
/// call of its device at most. `bytes` is where the chunk is read to. The seat has one claim more, whatever the answer.
pub fn serve<R: Record, D: Disk>(
    from: &Serving<D>,
    meter: &mut D::M,
    seat: &mut CursorSeat,
    engine: u32,
    partition: u32,
    bytes: &mut [u8],
    into: &mut [R],
) -> Served
    requires split { IsSplit from.now.split.now }
    requires engine { engine < 8 }
    requires partition { partition < from.now.split.now.parts }
    requires devices { HasDevices from.now.shelf engine (places_of from.now.index.now engine partition) }
    requires table { seat.old.table ≡ from.now.table.now }
    requires once { MayClaim seat.old.view (cursor_of engine partition) }
    requires len { opened_len (cursor_of engine partition) (knows seat.old.view) ≡ length (places_of from.now.index.now engine partition) }
    requires room { chunk_width (R.layout from.now.job.now.format).width (length into.old) ≤ length bytes.old }
    ensures table { seat.new.table ≡ seat.old.table }
    ensures later { D.M.faults meter.old ≤ D.M.faults meter.new }
    ensures calm { OnServed result (D.M.faults meter.new ≡ D.M.faults meter.old) }
    ensures served { HasServed
        (AddsClaim seat.old.view seat.new.view (cursor_of engine partition))
        (λ t count. ReadsAt (R.layout from.now.job.now.format) from.now.split.now partition (place_at from.now.index.now engine partition t)
        (told_at D.state from.now.shelf engine (place_at from.now.index.now engine partition t).lane) count into.new)
        (Rose (D.M.faults meter.old) (D.M.faults meter.new))
        (λ t at. RefusesAt (R.layout from.now.job.now.format) from.now.split.now partition (place_at from.now.index.now engine partition t)
        (told_at D.state from.now.shelf engine (place_at from.now.index.now engine partition t).lane) (length into.new) at)
        result }
{
    let t = match from.table.claim(seat, 64 * engine + partition) {
        Claim::Took(t) => t,
        Claim::Exhausted => return Served::Exhausted,
    };
    let place = from.index.place(engine, partition, t);
    let disk = from.shelf.device(engine, place.lane);
    match read_chunk(
        disk,
        meter,
        place.at,
        partition,
        from.split,
        bytes,
        into,
        from.job.format,
    ) {
        Ok(count) => Served::Chunk(count),
        Err(ChunkFault::Damaged(at)) => Served::Damaged(at),
        Err(ChunkFault::DiskFault) => Served::DiskFault,
        Err(ChunkFault::Memory) => Served::DiskFault,
    }
}

/// Claims a chunk once, and reads its records to the front of a buffer of at most 65,536.
pub fn read_records<R: Record, D: Disk>(
    serving: &Serving<D>,
    meter: &mut D::M,
    seat: &mut CursorSeat,
    engine: u32,
    partition: u32,
    bytes: &mut Vec<u8>,
    into: &mut Vec<R>,
) -> Served
    requires split { IsSplit serving.now.split.now }
    requires engine { engine < 8 }
    requires partition { partition < serving.now.split.now.parts }
    requires devices { HasDevices serving.now.shelf engine (places_of serving.now.index.now engine partition) }
    requires table { seat.old.table ≡ serving.now.table.now }
    requires once { MayClaim seat.old.view (cursor_of engine partition) }
    requires len { opened_len (cursor_of engine partition) (knows seat.old.view) ≡ length (places_of serving.now.index.now engine partition) }
    requires few { length into.old.items ≤ 65536 }
    requires room { chunk_width (R.layout serving.now.job.now.format).width (length into.old.items) ≤ length bytes.old.items }
    ensures rooms { (length bytes.new.items ≡ length bytes.old.items) × (length into.new.items ≡ length into.old.items) }
    ensures table { seat.new.table ≡ seat.old.table }
    ensures later { D.M.faults meter.old ≤ D.M.faults meter.new }
    ensures calm { OnServed result (D.M.faults meter.new ≡ D.M.faults meter.old) }
    ensures served { HasServed
        (AddsClaim seat.old.view seat.new.view (cursor_of engine partition))
        (λ t count. ReadsAt (R.layout serving.now.job.now.format) serving.now.split.now partition (place_at serving.now.index.now engine partition t)
        (told_at D.state serving.now.shelf engine (place_at serving.now.index.now engine partition t).lane) count into.new.items)
        (Rose (D.M.faults meter.old) (D.M.faults meter.new))
        (λ t at. RefusesAt (R.layout serving.now.job.now.format) serving.now.split.now partition (place_at serving.now.index.now engine partition t)
        (told_at D.state serving.now.shelf engine (place_at serving.now.index.now engine partition t).lane) (length into.old.items) at)
        result }
{
    serve(serving, meter, seat, engine, partition, bytes, into)
}
