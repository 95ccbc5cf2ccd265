//! Two workers at the cursors of two epochs.
ghost use Rattle.std.specs.Prelude.{◌≡◌, ℕ, ◌≤◌, vec_len, vec_capacity};
ghost use Rattle.graph_model.specs.Jobs.{IsWellFormedJob};
ghost use Rattle.store_reader.specs.Indexed.{lens_of};
ghost use Rattle.epoch_seats.specs.Between.{IsBetweenEpochs};

use super::*;
use chunk_cursor::{CursorSeat, CursorTable};
use chunk_file::{Index, Place};
use graph_model::{Job, Program};
use partitioner::Split;
use std::alloc::Global;
use std::process::Abort;
use std::test::*;

/// Four vertices on two engines, in two partitions.
fn job() -> Job
    ensures job { IsWellFormedJob result }
    ensures engines { result.engines ≡ 2 }
{
    Job {
        program: Program::Sssp(0),
        vertices: 4,
        engines: 2,
        most: 2,
        chunk: 16,
        seed: 1,
        alpha: 100,
        limit: 10,
        format: 1,
        keep: 1,
    }
}

/// One chunk, of the first partition on the second engine.
fn index_of_one(rt: &impl Abort, alloc: Global) -> Index
    ensures { (cursor : ℕ) → lens_of result cursor ≤ 1 }
{
    let mut index = Index::new(alloc).expect(rt, "an index");
    index
        .add(1, 0, Place { lane: 0, at: 0 })
        .expect(rt, "a place");
    index
}

/// An epoch in which nobody makes a call.
fn idle(
    rt: &impl Abort,
    table: &CursorTable,
    seat: &mut CursorSeat,
    index: &Index,
    seats: &mut Vec<CursorSeat>,
)
    requires table { seat.old.table ≡ table.now }
    requires between { IsBetweenEpochs seat.old.view }
    requires few { (cursor : ℕ) → lens_of index.now cursor ≤ 1 }
    requires room { (vec_len seats.old ≡ 0) × (2 ≤ vec_capacity seats.old) }
    ensures table { seat.new.table ≡ table.now }
    ensures between { IsBetweenEpochs seat.new.view }
    ensures room { (vec_len seats.new ≡ 0) × (2 ≤ vec_capacity seats.new) }
{
    let job = job();
    let split = Split::of_job(&job);
    open_epoch(table, seat, &job, &split, index, seats);
    close_epoch(table, seat, seats);
}

/// An epoch in which the second worker looks at the cursors, and the first counts a partition's workers.
fn look_around(
    rt: &impl Abort,
    table: &CursorTable,
    seat: &mut CursorSeat,
    index: &Index,
    seats: &mut Vec<CursorSeat>,
)
    requires table { seat.old.table ≡ table.now }
    requires between { IsBetweenEpochs seat.old.view }
    requires few { (cursor : ℕ) → lens_of index.now cursor ≤ 1 }
    requires room { (vec_len seats.old ≡ 0) × (2 ≤ vec_capacity seats.old) }
    ensures room { vec_len seats.new ≡ 0 }
{
    let job = job();
    let split = Split::of_job(&job);
    open_epoch(table, seat, &job, &split, index, seats);
    assert_eq!(rt; table.look(&mut seats[1], 64), 1);
    assert_eq!(rt; table.look(&mut seats[1], 0), 0);
    assert_eq!(rt; table.heads(&mut seats[0], 1), 1);
    close_epoch(table, seat, seats);
}

#[test]
fn two_epochs_are_opened_and_closed_with_the_same_seats(rt: HostRuntime) {
    let alloc = rt.alloc();
    let index = index_of_one(&rt, alloc);
    let (table, mut seat) = CursorTable::new(alloc).expect(&rt, "a table");
    let mut seats = Vec::with_capacity(alloc, 2).expect(&rt, "room");
    idle(&rt, &table, &mut seat, &index, &mut seats);
    look_around(&rt, &table, &mut seat, &index, &mut seats);
    assert!(&rt; seats.is_empty());
}
