//! Seats of workers at a table whose cursors were opened for a phase.
ghost use Rattle.std.specs.Prelude.{◌≡◌, ℕ, [], ◌≤◌};
ghost use Rattle.graph_model.specs.Jobs.{parts_of};
ghost use Rattle.chunk_object.specs.History.{most_chunks};
ghost use Rattle.chunk_cursor.specs.View.{newcomer, IsFirst};
ghost use Rattle.store_reader.specs.Indexed.{lens_of};
ghost use Rattle.phase_model.specs.JobTerms.{terms_of};
ghost use Rattle.worker_duty.specs.Views.{MayWork};

use chunk_cursor::{CursorSeat, CursorTable};
use chunk_file::Index;
use graph_model::Job;
use worker_duty::seats_may_work;

/// The seat of the only worker of a phase over these chunks of the only partition of a job.
pub(crate) fn seat_of_one(
    table: &CursorTable,
    first: &mut CursorSeat,
    job: &Job,
    index: &Index,
) -> CursorSeat
    requires table { first.old.table ≡ table.now }
    requires new { first.old.view ≡ newcomer }
    requires one { (job.now.engines ≡ 1) × (parts_of job.now ≡ 1) }
    requires few { (cursor : ℕ) → lens_of index.now cursor ≤ most_chunks }
    ensures table { (first.new.table ≡ table.now) × (result.table ≡ table.now) }
    ensures first { IsFirst first.new.view }
    ensures worker { result.view.worker ≡ 0 }
    ensures story { result.view.story ≡ [] }
    ensures may { MayWork (terms_of job.now) (lens_of index.now) result.view }
{
    seats_may_work();
    table.open(first, 0, index.len(0, 0));
    table.greet(first, 0);
    table.split(first, 0)
}

/// The seats of the two workers of a phase over these chunks of the two partitions of a job.
pub(crate) fn seats_of_two(
    table: &CursorTable,
    first: &mut CursorSeat,
    job: &Job,
    index: &Index,
) -> (CursorSeat, CursorSeat)
    requires table { first.old.table ≡ table.now }
    requires new { first.old.view ≡ newcomer }
    requires two { (job.now.engines ≡ 2) × (parts_of job.now ≡ 2) }
    requires few { (cursor : ℕ) → lens_of index.now cursor ≤ most_chunks }
    ensures table { (first.new.table ≡ table.now) × (result.0.table ≡ table.now) × (result.1.table ≡ table.now) }
    ensures first { IsFirst first.new.view }
    ensures worker { (result.0.view.worker ≡ 0) × (result.1.view.worker ≡ 1) }
    ensures story { (result.0.view.story ≡ []) × (result.1.view.story ≡ []) }
    ensures may { MayWork (terms_of job.now) (lens_of index.now) result.0.view × MayWork (terms_of job.now) (lens_of index.now) result.1.view }
{
    seats_may_work();
    table.open(first, 0, index.len(0, 0));
    table.open(first, 1, index.len(0, 1));
    table.open(first, 64, index.len(1, 0));
    table.open(first, 65, index.len(1, 1));
    table.greet(first, 0);
    table.greet(first, 1);
    let one = table.split(first, 0);
    let two = table.split(first, 1);
    (one, two)
}
