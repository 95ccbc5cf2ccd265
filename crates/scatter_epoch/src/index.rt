//! The index of the chunks on all lanes.
ghost use Rattle.std.specs.Prelude.{◌≡◌, ℕ, ◌<◌, ◌≤◌, ◌++◌, [], ◌∷◌, All, OnOk, length, map, Vec as VecOf};
ghost use Rattle.std.specs.Global.{Global as Heap};
ghost use Rattle.phase_model.specs.declared.placed.Placed.{Placed as PlacedOf};
ghost use Rattle.chunk_file.specs.Places.{places_of};
ghost use Rattle.update_lanes.specs.Lanes.{IsWithin};
ghost use Rattle.scatter_epoch.specs.Joining.{places_at, HasNoLong, IsIndexOf};

use chunk_file::{Index, Place};
use ports::Memory;
use scatter_phase::Placed;

/// The most chunks that a cursor is opened with.
const MOST_CHUNKS: u64 = 2_147_483_648;

/// Makes the index of the places of all workers, worker by worker, each in order.
pub(crate) fn index_places(places: &Vec<Vec<Placed>>, updates: &mut Index) -> Result<(), Memory>
    requires few { length places.now.items ≤ 8 }
    requires within { All (λ own. All (IsWithin 8 64) own.items) places.now.items }
    ensures { OnOk result (IsIndexOf (map (λ (own : VecOf PlacedOf Heap). own.items) places.now.items) updates.new) }
{
    updates.clear();
    for worker in 0..places.len() {
        add_worker(worker as u32, places[worker].as_slice(), updates)?;
    }
    Ok(())
}

/// Adds the places of a worker.
fn add_worker(worker: u32, places: &[Placed], updates: &mut Index) -> Result<(), Memory>
    requires within { All (IsWithin 8 64) places.now }
    requires lists { length updates.old ≡ 512 }
    ensures lists { length updates.new ≡ 512 }
    ensures few { HasNoLong updates.old → HasNoLong updates.new }
    ensures places { OnOk result ((engine partition : ℕ) → engine < 8 → partition < 64 → places_of updates.new engine partition ≡ places_of updates.old engine partition ++ places_at worker engine partition places.now) }
{
    for place in places {
        add_place(worker, *place, updates)?;
    }
    Ok(())
}

/// Adds a place. No cursor has more chunks than it can be opened with.
fn add_place(worker: u32, place: Placed, updates: &mut Index) -> Result<(), Memory>
    requires within { IsWithin 8 64 place }
    requires lists { length updates.old ≡ 512 }
    ensures lists { length updates.new ≡ 512 }
    ensures few { HasNoLong updates.old → HasNoLong updates.new }
    ensures places { OnOk result ((engine partition : ℕ) → engine < 8 → partition < 64 → places_of updates.new engine partition ≡ places_of updates.old engine partition ++ places_at worker engine partition (place ∷ [])) }
{
    if updates.len(place.engine, place.partition) >= MOST_CHUNKS {
        return Err(Memory);
    }
    let at = Place {
        lane: worker,
        at: place.at,
    };
    updates.add(place.engine, place.partition, at)
}
