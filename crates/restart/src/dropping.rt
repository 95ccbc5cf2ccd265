//! Giving up a store.
ghost use Rattle.std.specs.Prelude.{◌≡◌, ◌⊎◌, ℕ, ◌+◌, ◌^◌, ◌<◌, ◌≤◌, List, length, map, OnOk, OnErr, IfOk, IsTrue, IsFalse};
ghost use Rattle.std.specs.List.{All};
ghost use Rattle.ports.specs.Disk.{InEveryImage};
ghost use Rattle.ports.specs.Faults.{HasCause, HasCauseOfTwo, Rose};
ghost use Rattle.ports.specs.Stops.{EachLeaves, IsStop, AreImages, Empties};
ghost use Rattle.ports.specs.Devices.{Each, OneRose, NoneRose, EachRow, OneRowRose, NoRowRose};
ghost use Rattle.store_model.specs.Heads.{IsShutGraph};
ghost use Rattle.store_model.specs.Kept.{IsUnprepared};
ghost use Rattle.store_reader.specs.Devices.{IsOpenDevice, IsShutDevice};
ghost use Rattle.restart.specs.Dropping.{Closes, HandsBack, IsEmpty, WhileDropped, WhileEmptied};

use ports::{Beat, Disk, Failed, cut_synced, write_synced};
use store_reader::Store;

/// The gate of what is open, and the one that is written over it.
const OPEN: u8 = 0xA5;

const CLOSED: u8 = 0;

/// The bytes of a graph device's head.
const HEAD_SIZE: u64 = 65;

/// Gives up a store: closes each graph gate that is open, in the beat as it is, and then, in the next beat, empties all
/// devices. A gate that is closed is never written. It takes no memory.
pub fn drop_store<D: Disk>(
    store: &mut Store<D>,
    meter: &mut D::M,
    beat: &mut Beat,
) -> Result<(), Failed>
    requires room { beat.old ≤ 2 ^ 63 + 10 }
    requires graph_beats { All (λ disk. (D.state disk).beat ≤ beat.old) store.old.graphs.items }
    requires value_beats { All (λ disk. (D.state disk).beat ≤ beat.old) store.old.values.items }
    requires lane_beats { All (λ row. All (λ disk. (D.state disk).beat ≤ beat.old) row.items) store.old.lanes.items }
    requires spill_beats { All (λ disk. (D.state disk).beat ≤ beat.old) store.old.spills.items }
    // What stops leave.
    ensures graphs { EachLeaves (λ e start b c. b ≤ beat.new → WhileDropped (beat.old + 1) start b c)
        (map D.state store.old.graphs.items) (map D.state store.new.graphs.items) }
    ensures values { EachLeaves (λ e start b c. b ≤ beat.new → WhileEmptied (beat.old + 1) start b c)
        (map D.state store.old.values.items) (map D.state store.new.values.items) }
    ensures stops { (b : ℕ) (graphs values : List (List ℕ)) → b ≤ beat.new → 0 < length store.old.graphs.items
        → IsStop b (map D.state store.old.graphs.items) (map D.state store.new.graphs.items) graphs
        → IsStop b (map D.state store.old.values.items) (map D.state store.new.values.items) values
        → (AreImages (map D.state store.old.graphs.items) graphs × AreImages (map D.state store.old.values.items) values) ⊎ IsUnprepared graphs }
    // What stands after it.
    ensures empty_graphs { OnOk result (All (λ disk. IsEmpty (D.state disk)) store.new.graphs.items) }
    ensures empty_values { OnOk result (All (λ disk. IsEmpty (D.state disk)) store.new.values.items) }
    ensures empty_lanes { OnOk result (All (λ row. All (λ disk. IsEmpty (D.state disk)) row.items) store.new.lanes.items) }
    ensures empty_spills { OnOk result (All (λ disk. IsEmpty (D.state disk)) store.new.spills.items) }
    ensures next_beat { OnOk result (beat.new ≡ beat.old + 1) }
    // Whatever the answer.
    ensures beat { (beat.new ≡ beat.old) ⊎ (beat.new ≡ beat.old + 1) }
    ensures back_graphs { Each D.state (HandsBack beat.new) store.old.graphs.items store.new.graphs.items }
    ensures back_values { Each D.state (HandsBack beat.new) store.old.values.items store.new.values.items }
    ensures back_lanes { EachRow D.state (HandsBack beat.new) store.old.lanes.items store.new.lanes.items }
    ensures back_spills { Each D.state (HandsBack beat.new) store.old.spills.items store.new.spills.items }
    ensures later { D.M.faults meter.old ≤ D.M.faults meter.new }
    ensures calm { OnOk result (D.M.faults meter.new ≡ D.M.faults meter.old) }
    ensures cause { OnErr result (Rose (D.M.faults meter.old) (D.M.faults meter.new)
        ⊎ OneRose D.state store.old.graphs.items store.new.graphs.items
        ⊎ OneRose D.state store.old.values.items store.new.values.items
        ⊎ OneRowRose D.state store.old.lanes.items store.new.lanes.items
        ⊎ OneRose D.state store.old.spills.items store.new.spills.items) }
    ensures calm_graphs { OnOk result (NoneRose D.state store.old.graphs.items store.new.graphs.items) }
    ensures calm_values { OnOk result (NoneRose D.state store.old.values.items store.new.values.items) }
    ensures calm_lanes { OnOk result (NoRowRose D.state store.old.lanes.items store.new.lanes.items) }
    ensures calm_spills { OnOk result (NoneRose D.state store.old.spills.items store.new.spills.items) }
{
    close_all(&mut store.graphs, meter, beat)?;
    beat.next();
    empty_store(store, beat)
}

/// Closes the gate of each graph device that is open.
fn close_all<D: Disk>(graphs: &mut [D], meter: &mut D::M, beat: &Beat) -> Result<(), Failed>
    requires beats { All (λ disk. (D.state disk).beat ≤ beat.now) graphs.old }
    ensures closes { Each D.state (Closes beat.now) graphs.old graphs.new }
    ensures shut { OnOk result (All (λ disk. InEveryImage (D.state disk) IsShutGraph) graphs.new) }
    ensures later { D.M.faults meter.old ≤ D.M.faults meter.new }
    ensures calm { OnOk result (D.M.faults meter.new ≡ D.M.faults meter.old) }
    ensures cause { OnErr result (Rose (D.M.faults meter.old) (D.M.faults meter.new) ⊎ OneRose D.state graphs.old graphs.new) }
    ensures calm_graphs { OnOk result (NoneRose D.state graphs.old graphs.new) }
{
    for disk in graphs.iter_mut() {
        close_gate(disk, meter, beat)?;
    }
    Ok(())
}

/// Syncs a graph device, and where its gate is open then, closes it and syncs again.
fn close_gate<D: Disk>(disk: &mut D, meter: &mut D::M, beat: &Beat) -> Result<(), Failed>
    requires beat { (D.state disk.old).beat ≤ beat.now }
    ensures closes { Closes beat.now (D.state disk.old) (D.state disk.new) }
    ensures shut { OnOk result (InEveryImage (D.state disk.new) IsShutGraph) }
    ensures cause { HasCauseOfTwo (D.M.faults meter.old) (D.M.faults meter.new) (D.state disk.old).faults (D.state disk.new).faults result }
{
    disk.sync(beat)?;
    if is_open(disk, meter)? {
        write_synced(disk, beat, 0, &[CLOSED])?;
    }
    Ok(())
}

/// Whether a graph device has a whole head with an open gate.
fn is_open<D: Disk>(disk: &D, meter: &mut D::M) -> Result<bool, Failed>
    ensures open { IfOk result (λ is_open. IsTrue is_open → IsOpenDevice (D.state disk.now)) }
    ensures shut { IfOk result (λ is_open. IsFalse is_open → IsShutDevice (D.state disk.now)) }
    ensures cause { HasCause (D.M.faults meter.old) (D.M.faults meter.new) result }
{
    if disk.size() < HEAD_SIZE {
        return Ok(false);
    }
    let mut gate = [0];
    disk.read_at(meter, 0, &mut gate)?;
    Ok(gate[0] == OPEN)
}

/// Empties all devices of a store.
fn empty_store<D: Disk>(store: &mut Store<D>, beat: &Beat) -> Result<(), Failed>
    requires graph_beats { All (λ disk. (D.state disk).beat ≤ beat.now) store.old.graphs.items }
    requires value_beats { All (λ disk. (D.state disk).beat ≤ beat.now) store.old.values.items }
    requires lane_beats { All (λ row. All (λ disk. (D.state disk).beat ≤ beat.now) row.items) store.old.lanes.items }
    requires spill_beats { All (λ disk. (D.state disk).beat ≤ beat.now) store.old.spills.items }
    ensures graphs { Each D.state (Empties beat.now) store.old.graphs.items store.new.graphs.items }
    ensures values { Each D.state (Empties beat.now) store.old.values.items store.new.values.items }
    ensures lanes { EachRow D.state (Empties beat.now) store.old.lanes.items store.new.lanes.items }
    ensures spills { Each D.state (Empties beat.now) store.old.spills.items store.new.spills.items }
    ensures empty_graphs { OnOk result (All (λ disk. IsEmpty (D.state disk)) store.new.graphs.items) }
    ensures empty_values { OnOk result (All (λ disk. IsEmpty (D.state disk)) store.new.values.items) }
    ensures empty_lanes { OnOk result (All (λ row. All (λ disk. IsEmpty (D.state disk)) row.items) store.new.lanes.items) }
    ensures empty_spills { OnOk result (All (λ disk. IsEmpty (D.state disk)) store.new.spills.items) }
    ensures cause { OnErr result (OneRose D.state store.old.graphs.items store.new.graphs.items
        ⊎ OneRose D.state store.old.values.items store.new.values.items
        ⊎ OneRowRose D.state store.old.lanes.items store.new.lanes.items
        ⊎ OneRose D.state store.old.spills.items store.new.spills.items) }
    ensures calm_graphs { OnOk result (NoneRose D.state store.old.graphs.items store.new.graphs.items) }
    ensures calm_values { OnOk result (NoneRose D.state store.old.values.items store.new.values.items) }
    ensures calm_lanes { OnOk result (NoRowRose D.state store.old.lanes.items store.new.lanes.items) }
    ensures calm_spills { OnOk result (NoneRose D.state store.old.spills.items store.new.spills.items) }
{
    empty_all(&mut store.graphs, beat)?;
    empty_all(&mut store.values, beat)?;
    empty_rows(&mut store.lanes, beat)?;
    empty_all(&mut store.spills, beat)
}

/// Empties each device of each row.
fn empty_rows<D: Disk>(rows: &mut [Vec<D>], beat: &Beat) -> Result<(), Failed>
    requires beats { All (λ row. All (λ disk. (D.state disk).beat ≤ beat.now) row.items) rows.old }
    ensures empties { EachRow D.state (Empties beat.now) rows.old rows.new }
    ensures empty { OnOk result (All (λ row. All (λ disk. IsEmpty (D.state disk)) row.items) rows.new) }
    ensures cause { OnErr result (OneRowRose D.state rows.old rows.new) }
    ensures calm { OnOk result (NoRowRose D.state rows.old rows.new) }
{
    for row in rows.iter_mut() {
        empty_all(row, beat)?;
    }
    Ok(())
}

/// Empties each device.
fn empty_all<D: Disk>(disks: &mut [D], beat: &Beat) -> Result<(), Failed>
    requires beats { All (λ disk. (D.state disk).beat ≤ beat.now) disks.old }
    ensures empties { Each D.state (Empties beat.now) disks.old disks.new }
    ensures empty { OnOk result (All (λ disk. IsEmpty (D.state disk)) disks.new) }
    ensures cause { OnErr result (OneRose D.state disks.old disks.new) }
    ensures calm { OnOk result (NoneRose D.state disks.old disks.new) }
{
    for disk in disks.iter_mut() {
        empty(disk, beat)?;
    }
    Ok(())
}

/// Empties a device.
fn empty<D: Disk>(disk: &mut D, beat: &Beat) -> Result<(), Failed>
    requires beat { (D.state disk.old).beat ≤ beat.now }
    ensures empties { Empties beat.now (D.state disk.old) (D.state disk.new) }
    ensures empty { OnOk result (IsEmpty (D.state disk.new)) }
    ensures cause { HasCause (D.state disk.old).faults (D.state disk.new).faults result }
{
    cut_synced(disk, beat, 0)
}
