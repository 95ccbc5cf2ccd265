// Giving up a store, and how that is told.
ghost use Rattle.std.specs.Prelude.{◌≡◌, ℕ, ◌+◌, ◌^◌, ◌≤◌, Option, List, length};
ghost use Rattle.chunk_cursor.specs.declared.view.View.{View};
ghost use Rattle.epoch_seats.specs.Between.{IsBetweenEpochs};
ghost use Rattle.ports.specs.Devices.{AreDevices, AreRows};
ghost use Rattle.round_loop.specs.Keeping.{moment};
ghost use Rattle.store_drop.specs.Drops.{IsDrop};

use endings::Ending;
use ports::{Beat, Disk};
use restart::drop_store;
use store_reader::Store;

/// Gives up the store of so many engines. There is one meter for each engine, and one for the calling thread, which comes
/// last. Nothing is read or printed, and the seat is not touched.
pub fn give_up<D: Disk>(
    engines: u32,
    store: &mut Store<D>,
    meters: &mut Vec<D::M>,
    beat: &mut Beat,
) -> Ending
    requires engines { (1 ≤ engines) × (engines ≤ 8) }
    requires graphs { AreDevices D.state engines beat.old store.old.graphs.items }
    requires values { AreDevices D.state engines beat.old store.old.values.items }
    requires lanes { AreRows D.state engines beat.old store.old.lanes.items }
    requires spills { AreDevices D.state engines beat.old store.old.spills.items }
    requires meters { length meters.old.items ≡ engines + 1 }
    requires beat { beat.old ≤ 2 ^ 63 + 9 }
    ensures drop { (text : Option (List ℕ)) (read_faults : ℕ) (out : Option (List ℕ)) (write_faults : ℕ) (seat : View) → IsBetweenEpochs seat → IsDrop D.state D.M.faults (record {
      text = text;
      text_after = text;
      read_faults = read_faults;
      read_faults_after = read_faults;
      out = out;
      out_after = out;
      write_faults = write_faults;
      write_faults_after = write_faults;
      before = moment store.old meters.old.items seat beat.old;
      after = moment store.new meters.new.items seat beat.new;
    }) engines result }
{
    match drop_store(store, &mut meters[engines as usize], beat) {
        Ok(()) => Ending::Dropped,
        Err(_) => Ending::DiskFault,
    }
}
