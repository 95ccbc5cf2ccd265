//! Lanes that are emptied.
ghost use Rattle.std.specs.Prelude.{ℕ, ◌<◌, [], length, slice_index_or, OnOk, OnErr};
ghost use Rattle.update_lanes.specs.Lanes.{HasChunks, GoOn};
ghost use Rattle.ports.specs.Devices.{AreDevices, OneRose, NoneRose};

use ports::{Beat, Disk, Failed, cut_all};

/// Cuts each lane to nothing, so that it has no chunk.
pub(crate) fn empty_lanes<D: Disk>(lanes: &mut Vec<D>, beat: &Beat) -> Result<(), Failed>
    requires lanes { AreDevices D.state (length lanes.old.items) beat.now lanes.old.items }
    ensures go_on { GoOn D.state beat.now lanes.old.items lanes.new.items }
    ensures empty { OnOk result ((e : ℕ) (d : D) → e < length lanes.new.items → HasChunks [] (D.state (slice_index_or lanes.new.items e d))) }
    ensures cause { OnErr result (OneRose D.state lanes.old.items lanes.new.items) }
    ensures calm { OnOk result (NoneRose D.state lanes.old.items lanes.new.items) }
{
    cut_all(lanes, beat)
}
