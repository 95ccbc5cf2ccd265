//! The front of an epoch.
ghost use Rattle.std.specs.Prelude.{◌≡◌, ◌<◌, ◌≤◌, ℕ, map, vec_len, vec_capacity};
ghost use Rattle.std.specs.List.{range_with_len};
ghost use Rattle.graph_model.specs.Jobs.{IsWellFormedJob};
ghost use Rattle.partitioner.specs.Splits.{IsSplit, IsSplitOf};
ghost use Rattle.chunk_object.specs.History.{most_chunks};
ghost use Rattle.chunk_object.specs.declared.call.Call.TheVariants.{Greet};
ghost use Rattle.chunk_cursor.specs.View.{with_calls, IsAlone};
ghost use Rattle.phase_model.specs.JobTerms.{terms_of};
ghost use Rattle.store_reader.specs.Indexed.{lens_of};
ghost use Rattle.epoch_seats.specs.Between.{IsBetweenEpochs};
ghost use Rattle.epoch_seats.specs.Seats.{HasBegun, AreNewSeats};
ghost use Rattle.epoch_seats.specs.Opening.{opening, openings, HasSplit, split_seats_of};

use chunk_cursor::{CursorSeat, CursorTable};
use chunk_file::Index;
use graph_model::Job;
use list_moves::put_last;
use partitioner::Split;

/// Opens each cursor of a job with the number of its chunks in the index, engine by engine, greets each partition, and
/// splits off a seat for each worker, in order, to the list `seats`, which has room for them.
pub fn open_epoch(
    table: &CursorTable,
    seat: &mut CursorSeat,
    job: &Job,
    split: &Split,
    index: &Index,
    seats: &mut Vec<CursorSeat>,
)
    requires job { IsWellFormedJob job.now }
    requires split { IsSplit split.now × IsSplitOf job.now split.now }
    requires few { (cursor : ℕ) → lens_of index.now cursor ≤ most_chunks }
    requires table { seat.old.table ≡ table.now }
    requires between { IsBetweenEpochs seat.old.view }
    requires room { (vec_len seats.old ≡ 0) × (job.now.engines ≤ vec_capacity seats.old) }
    ensures table { seat.new.table ≡ seat.old.table }
    ensures begun { HasBegun (terms_of job.now) (lens_of index.now) seat.old.view seat.new.view }
    ensures seats { AreNewSeats (terms_of job.now) (lens_of index.now) seat.old.view.splits table.now seats.new.items }
    ensures room { vec_capacity seats.old ≤ vec_capacity seats.new }
{
    open_cursors(table, seat, split, index);
    greet_partitions(table, seat, split);
    split_seats(table, seat, job.engines, seats);
}

/// Opens each cursor, engine by engine.
fn open_cursors(table: &CursorTable, seat: &mut CursorSeat, split: &Split, index: &Index)
    requires split { (split.now.engines ≤ 8) × (split.now.parts ≤ 64) }
    requires few { (cursor : ℕ) → lens_of index.now cursor ≤ most_chunks }
    requires table { seat.old.table ≡ table.now }
    requires alone { IsAlone seat.old.view }
    ensures table { seat.new.table ≡ seat.old.table }
    ensures calls { seat.new.view ≡ with_calls seat.old.view (openings split.now.parts (lens_of index.now) split.now.engines) }
{
    for engine in 0..split.engines {
        open_engine(table, seat, split.parts, index, engine);
    }
}

/// Opens the cursors of an engine.
fn open_engine(
    table: &CursorTable,
    seat: &mut CursorSeat,
    partitions: u32,
    index: &Index,
    engine: u32,
)
    requires engine { (engine < 8) × (partitions ≤ 64) }
    requires few { (cursor : ℕ) → lens_of index.now cursor ≤ most_chunks }
    requires table { seat.old.table ≡ table.now }
    requires alone { IsAlone seat.old.view }
    ensures table { seat.new.table ≡ seat.old.table }
    ensures calls { seat.new.view ≡ with_calls seat.old.view (map (opening (lens_of index.now) engine) (range_with_len 0 partitions)) }
{
    for partition in 0..partitions {
        let len = index.len(engine, partition);
        table.open(seat, 64 * engine + partition, len);
    }
}

/// Greets each partition.
fn greet_partitions(table: &CursorTable, seat: &mut CursorSeat, split: &Split)
    requires split { split.now.parts ≤ 64 }
    requires table { seat.old.table ≡ table.now }
    requires alone { IsAlone seat.old.view }
    ensures table { seat.new.table ≡ seat.old.table }
    ensures calls { seat.new.view ≡ with_calls seat.old.view (map Greet (range_with_len 0 split.now.parts)) }
{
    for partition in 0..split.parts {
        table.greet(seat, partition);
    }
}

/// Splits off a seat for each worker, in order.
fn split_seats(
    table: &CursorTable,
    seat: &mut CursorSeat,
    workers: u32,
    seats: &mut Vec<CursorSeat>,
)
    requires workers { workers ≤ 8 }
    requires table { seat.old.table ≡ table.now }
    requires alone { IsAlone seat.old.view }
    requires room { (vec_len seats.old ≡ 0) × (workers ≤ vec_capacity seats.old) }
    ensures table { seat.new.table ≡ seat.old.table }
    ensures split { HasSplit workers seat.old.view seat.new.view }
    ensures seats { seats.new.items ≡ split_seats_of workers seat.old }
    ensures room { vec_capacity seats.old ≤ vec_capacity seats.new }
{
    for worker in 0..workers {
        let other = table.split(seat, worker);
        put_last(seats, other);
    }
}
