//! What the workers of scatter epochs have at hand from epoch to epoch.
ghost use Rattle.std.specs.Prelude.{◌≡◌, IfOk, All, vec_len};
ghost use Rattle.graph_model.specs.Jobs.{IsWellFormedJob};
ghost use Rattle.partitioner.specs.Splits.{IsSplit, IsSplitOf};
ghost use Rattle.scatter_phase.specs.Rooms.{IsRoom};

use chunk_cursor::CursorSeat;
use graph_model::Job;
use list_moves::put_last;
use partitioner::Split;
use ports::{Disk, Memory};
use scatter_phase::{Placed, ScatterDesk, ScatterRoom};
use std::alloc::Global;

/// The buffers of all workers, lists for the places of their chunks, and room for their desks and seats. It is made
/// once, so that an epoch takes no memory but for more places than ever before.
#[derive(Drop)]
pub struct ScatterCrew<D: Disk> {
    pub(crate) rooms: Vec<ScatterRoom>,
    pub(crate) places: Vec<Vec<Placed>>,
    pub(crate) desks: Vec<ScatterDesk<D>>,
    pub(crate) seats: Vec<CursorSeat>,
}

impl<D: Disk> ScatterCrew<D> {
    ghost use Rattle.scatter_epoch.specs.Crews.{IsCrew};

    /// What the workers of a job need.
    pub fn new(alloc: Global, job: &Job, split: &Split) -> Result<ScatterCrew<D>, Memory>
        requires job { IsWellFormedJob job.now }
        requires split { IsSplit split.now × IsSplitOf job.now split.now }
        ensures { IfOk result (IsCrew job.now) }
    {
        let workers = job.engines as usize;
        let desks = Vec::with_capacity(alloc, workers)?;
        let seats = Vec::with_capacity(alloc, workers)?;
        let places = new_places(alloc, job)?;
        let rooms = new_rooms(alloc, job, split)?;
        Ok(ScatterCrew {
            rooms,
            places,
            desks,
            seats,
        })
    }
}

/// Buffers for each worker of a job.
fn new_rooms(alloc: Global, job: &Job, split: &Split) -> Result<Vec<ScatterRoom>, Memory>
    requires job { IsWellFormedJob job.now }
    requires split { IsSplit split.now × IsSplitOf job.now split.now }
    ensures many { IfOk result (λ rooms. vec_len rooms ≡ job.now.engines) }
    ensures rooms { IfOk result (λ rooms. All (IsRoom job.now) rooms.items) }
{
    let mut rooms = Vec::with_capacity(alloc, job.engines as usize)?;
    for _ in 0..job.engines {
        let room = ScatterRoom::new(alloc, job, split)?;
        put_last(&mut rooms, room);
    }
    Ok(rooms)
}

/// A list of places for each worker of a job.
fn new_places(alloc: Global, job: &Job) -> Result<Vec<Vec<Placed>>, Memory>
    ensures { IfOk result (λ lists. vec_len lists ≡ job.now.engines) }
{
    let mut lists = Vec::with_capacity(alloc, job.engines as usize)?;
    for _ in 0..job.engines {
        put_last(&mut lists, Vec::new(alloc));
    }
    Ok(lists)
}
