// What the engines of apply work with, and how it is dealt to desks and collected.
ghost use Rattle.std.specs.Prelude.{◌≡◌, ◌≤◌, IfOk, All, vec_len, vec_capacity};
ghost use Rattle.partitioner.specs.Splits.{IsSplit};
ghost use Rattle.checkpoint.specs.Room.{IsRoomOf};
ghost use Rattle.apply_round.specs.Crew.{AreDealt};

use checkpoint::{ApplyDesk, ApplyRoom};
use list_moves::{put_last, take_first};
use partitioner::Split;
use ports::{Disk, Memory};
use std::alloc::Global;
use store_reader::Outcome;

/// The buffers of all engines in apply, and room for their desks.
#[derive(Drop)]
pub struct ApplyCrew<D: Disk> {
    pub(crate) rooms: Vec<ApplyRoom>,
    /// Empty but in a round.
    pub(crate) desks: Vec<ApplyDesk<D>>,
}

impl<D: Disk> ApplyCrew<D> {
    ghost use Rattle.apply_round.specs.Crew.{IsCrewOf};

    /// The crew for the engines of a split.
    pub fn new(alloc: Global, split: &Split) -> Result<ApplyCrew<D>, Memory>
        requires { IsSplit split.now }
        ensures { IfOk result (IsCrewOf split.now) }
    {
        let engines = split.engines as usize;
        let rooms = make_rooms(alloc, split)?;
        let desks = Vec::with_capacity(alloc, engines)?;
        Ok(ApplyCrew { rooms, desks })
    }
}

/// The buffers for each engine.
fn make_rooms(alloc: Global, split: &Split) -> Result<Vec<ApplyRoom>, Memory>
    requires { IsSplit split.now }
    ensures many { IfOk result (λ rooms. vec_len rooms ≡ split.now.engines) }
    ensures rooms { IfOk result (λ rooms. All (IsRoomOf split.now) rooms.items) }
{
    let mut rooms = Vec::with_capacity(alloc, split.engines as usize)?;
    for _ in 0..split.engines {
        let room = ApplyRoom::new(alloc, split)?;
        put_last(&mut rooms, room);
    }
    Ok(rooms)
}

/// Moves each engine's device, meter and buffers to a desk.
pub(crate) fn deal<D: Disk>(
    split: &Split,
    rooms: &mut Vec<ApplyRoom>,
    values: &mut Vec<D>,
    meters: &mut Vec<D::M>,
    desks: &mut Vec<ApplyDesk<D>>,
)
    requires split { IsSplit split.now }
    requires many { (vec_len rooms.old ≡ split.now.engines) × (vec_len values.old ≡ split.now.engines) × (vec_len meters.old ≡ split.now.engines) }
    requires rooms { All (IsRoomOf split.now) rooms.old.items }
    requires empty { vec_len desks.old ≡ 0 }
    requires room { split.now.engines ≤ vec_capacity desks.old }
    ensures dealt { AreDealt split.now values.old.items meters.old.items desks.new.items }
    ensures many { vec_len desks.new ≡ split.now.engines }
    ensures empty { (vec_len rooms.new ≡ 0) × (vec_len values.new ≡ 0) × (vec_len meters.new ≡ 0) }
    ensures room { (vec_capacity rooms.new ≡ vec_capacity rooms.old) × (vec_capacity values.new ≡ vec_capacity values.old) × (vec_capacity meters.new ≡ vec_capacity meters.old) }
{
    for engine in 0..split.engines {
        let meter = take_first(meters);
        let disk = take_first(values);
        let room = take_first(rooms);
        let desk = ApplyDesk {
            engine,
            meter,
            disk,
            room,
            changed: 0,
            outcome: Outcome::Done,
        };
        put_last(desks, desk);
    }
}
