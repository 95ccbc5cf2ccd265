//! What the workers of gather epochs have at hand from epoch to epoch.
ghost use Rattle.std.specs.Prelude.{◌≡◌, IfOk, All, vec_len};
ghost use Rattle.graph_model.specs.Jobs.{IsWellFormedJob};
ghost use Rattle.gather_phase.specs.Rooms.{IsRoom};

use chunk_cursor::CursorSeat;
use gather_phase::{GatherDesk, GatherRoom};
use graph_model::Job;
use list_moves::put_last;
use ports::{Disk, Memory};
use std::alloc::Global;

/// The buffers of all workers, and room for their desks and seats. It is made once, so that an epoch takes no memory.
#[derive(Drop)]
pub struct GatherCrew<D: Disk> {
    pub(crate) rooms: Vec<GatherRoom>,
    pub(crate) desks: Vec<GatherDesk<D>>,
    pub(crate) seats: Vec<CursorSeat>,
}

impl<D: Disk> GatherCrew<D> {
    ghost use Rattle.gather_epoch.specs.Crews.{IsCrew};

    /// What the workers of a job need.
    pub fn new(alloc: Global, job: &Job) -> Result<GatherCrew<D>, Memory>
        requires { IsWellFormedJob job.now }
        ensures { IfOk result (IsCrew job.now) }
    {
        let workers = job.engines as usize;
        let desks = Vec::with_capacity(alloc, workers)?;
        let seats = Vec::with_capacity(alloc, workers)?;
        let rooms = new_rooms(alloc, job)?;
        Ok(GatherCrew {
            rooms,
            desks,
            seats,
        })
    }
}

/// Buffers for each worker of a job.
fn new_rooms(alloc: Global, job: &Job) -> Result<Vec<GatherRoom>, Memory>
    requires { IsWellFormedJob job.now }
    ensures many { IfOk result (λ rooms. vec_len rooms ≡ job.now.engines) }
    ensures rooms { IfOk result (λ rooms. All (IsRoom job.now) rooms.items) }
{
    let mut rooms = Vec::with_capacity(alloc, job.engines as usize)?;
    for _ in 0..job.engines {
        let room = GatherRoom::new(alloc, job)?;
        put_last(&mut rooms, room);
    }
    Ok(rooms)
}
