//! The chunks of updates that a worker writes to its lanes.
ghost use Rattle.std.specs.Prelude.{◌≡◌, ℕ, ◌+◌, ◌*◌, ◌^◌, ◌<◌, ◌≤◌, true, List, ◌++◌, ◌∷◌, [], length, IfErr, OnOk, OnErr};
ghost use Rattle.std.specs.List.{All};
ghost use Rattle.graph_model.specs.declared.value.Update.{Update as UpdateOf};
ghost use Rattle.chunk_model.specs.Chunks.{Chunk};
ghost use Rattle.chunk_model.specs.Layout.{holds_update};
ghost use Rattle.ports.specs.Devices.{OneRose, NoneRose};
ghost use Rattle.update_lanes.specs.Lanes.{HasMade, HasNoted, AreReady, GoOn};

use chunk_file::append_chunk;
use graph_model::Update;
use phase_model::Placed;
use ports::{Beat, Disk, Failed};
use seeded_place::Placer;
use std::alloc::AllocError;

/// Why a chunk was not written.
#[derive(Clone, Copy, Debug, PartialEq, Eq)]
pub enum LaneFault {
    /// A call of a lane failed.
    DiskFault,
    /// No memory was left for the chunk's place.
    Memory,
}

impl From<AllocError> for LaneFault {
    ghost use Rattle.update_lanes.specs.declared.lanes.LaneFault.TheVariants.{Memory};

    ghost from_gives = { λ _ fault. fault ≡ Memory };

    fn from(_: AllocError) -> Self {
        LaneFault::Memory
    }
}

impl From<Failed> for LaneFault {
    ghost use Rattle.update_lanes.specs.declared.lanes.LaneFault.TheVariants.{DiskFault};

    ghost from_gives = { λ _ fault. fault ≡ DiskFault };

    fn from(_: Failed) -> Self {
        LaneFault::DiskFault
    }
}

/// As many places as are noted at most: so no lane has 2^63 bytes, and the places would take 2^47.
const MOST_PLACES: usize = 1 << 43;

/// Writes a chunk to the lane that is next, and notes its place, for which there is room before anything is written.
pub fn write_chunk<D: Disk>(
    lanes: &mut [D],
    placer: &mut Placer,
    places: &mut Vec<Placed>,
    partition: u32,
    records: &[Update],
    bytes: &mut [u8],
    beat: &Beat,
    format: u32,
) -> Result<(), LaneFault>
    requires some { 0 < length records.now }
    requires few { length records.now ≤ 65536 }
    requires held { All (λ (u : UpdateOf). holds_update u ≡ true) records.now }
    requires room { 8 + 12 * length records.now ≤ length bytes.old }
    requires lanes { AreReady D.state placer.old.engines beat.now (length places.old.items) lanes.old }
    ensures lanes { GoOn D.state beat.now lanes.old lanes.new }
    ensures engines { placer.new.engines ≡ placer.old.engines }
    ensures ready { OnOk result (AreReady D.state placer.new.engines beat.now (length places.new.items) lanes.new) }
    ensures made { (seed stream engines : ℕ) (made : List (Chunk UpdateOf)) → HasMade D.state seed stream engines placer.old lanes.old places.old.items made
        → OnOk result (HasMade D.state seed stream engines placer.new lanes.new places.new.items (made ++ record { partition = partition; items = records.now } ∷ [])) }
    ensures noted { OnOk result (HasNoted placer.old.engines partition places.old.items places.new.items) }
    ensures kept { OnErr result (places.new.items ≡ places.old.items) }
    ensures cause { IfErr result (λ fault. fault ≡ LaneFault.DiskFault → OneRose D.state lanes.old lanes.new) }
    ensures calm { OnOk result (NoneRose D.state lanes.old lanes.new) }
{
    if places.len() >= MOST_PLACES {
        return Err(LaneFault::Memory);
    }
    places.reserve(1)?;
    let engine = placer.next();
    let at = append_chunk(
        &mut lanes[engine as usize],
        partition,
        records,
        bytes,
        beat,
        format,
    )?;
    places.push_reserved(Placed {
        engine,
        partition,
        at,
    });
    Ok(())
}
