// Making a round of the accumulators of all workers, and storing it.
ghost use Rattle.std.specs.Prelude.{◌≡◌, ℕ, ◌+◌, ◌-◌, ◌*◌, ◌%◌, ◌^◌, ◌<◌, ◌≤◌, List, All, Some, map, length, OnOk, IfOk, slice_index_or};
ghost use Rattle.graph_model.specs.Partitions.{parts_of_master};
ghost use Rattle.partitioner.specs.Splits.{IsSplit};
ghost use Rattle.ports.specs.Disk.{InEveryImage, IsSettled};
ghost use Rattle.ports.specs.Faults.{HasCause, HasCauseOfTwo};
ghost use Rattle.ports.specs.Stops.{Leaves};
ghost use Rattle.ports.specs.Told.{AsTold};
ghost use Rattle.replica_merge.specs.Accumulators.{split_of, LiesWithin};
ghost use Rattle.store_reader.specs.Reading.{own_in, master_in, len_in};
ghost use Rattle.store_model.specs.Slots.{device_size, slot_of, IsClosed, HoldsRound};
ghost use Rattle.checkpoint.specs.declared.room.ApplyRoom.{ApplyRoom};
ghost use Rattle.replica_merge.specs.declared.replicas.Replicas.{Replicas};
ghost use Rattle.checkpoint.specs.Applied.{sums_in, values_in, applied_on, changed_by};
ghost use Rattle.checkpoint.specs.Room.{IsRoomOf};
ghost use Rattle.checkpoint.specs.Storing.{KeepsOther, WhileStoring, EndsByCause, StandBefore, EngineStandsBefore, EngineBefore, StoresPartition, StoresFront};
ghost use Rattle.checkpoint.specs.SlotStates.{HasExactSize, SameOther, WhileClosing, WhileWriting, IsOpenWith};

use crate::bytes::WIDTH;
use crate::room::ApplyRoom;
use crate::slots::{close_slot, open_slot, write_set};
use crate::values::{next_values, start_values};
use gather_laws::VertexProgram;
use graph_model::Value;
use partitioner::Split;
use ports::{Beat, Disk, Failed};
use replica_merge::{Replicas, merge_replicas};
use store_reader::{Outcome, read_set};

/// What is lent to all engines in apply.
#[derive(Drop)]
pub struct ApplyContext<'a, P: VertexProgram, D: Disk> {
    pub program: &'a P,
    pub split: &'a Split,
    /// The accumulators of each worker, and for each its device.
    pub replicas: &'a [Replicas],
    pub spills: &'a [D],
    /// The round that is made, in slot `round` modulo 2.
    pub round: u64,
    pub beat: &'a Beat,
}

/// What an engine owns in apply: its values device, and the meter and buffers for it.
#[derive(Drop)]
pub struct ApplyDesk<D: Disk> {
    pub engine: u32,
    pub meter: D::M,
    pub disk: D,
    pub room: ApplyRoom,
    /// How many of the engine's vertices the round has changed.
    pub changed: u64,
    pub outcome: Outcome,
}

/// Makes the values of the context's round of an engine's vertices and stores them in the round's slot of its values
/// device, which has its exact size. The other slot, from which the values before are read, stays as it was.
pub fn apply_work<P: VertexProgram, D: Disk>(context: &ApplyContext<P, D>, desk: &mut ApplyDesk<D>)
    requires split { IsSplit context.now.split.now }
    requires engine { desk.old.engine < context.now.split.now.engines }
    requires size { (D.state desk.old.disk).size ≡ device_size (own_in context.now.split.now desk.old.engine) }
    requires beat { (D.state desk.old.disk).beat ≤ context.now.beat.now }
    requires room { IsRoomOf context.now.split.now desk.old.room }
    requires splits { All (λ r. split_of r ≡ context.now.split.now) context.now.replicas.now }
    requires disks { length context.now.spills.now ≡ length context.now.replicas.now }
    requires within { (w : ℕ) (r : Replicas) (d : D) → w < length context.now.replicas.now → LiesWithin (slice_index_or context.now.replicas.now w r) (D.state (slice_index_or context.now.spills.now w d)).size }
    ensures engine { desk.new.engine ≡ desk.old.engine }
    ensures room { IsRoomOf context.now.split.now desk.new.room }
    ensures outcome { EndsByCause desk.new.outcome (D.state desk.old.disk).faults (D.state desk.new.disk).faults (D.M.faults desk.old.meter) (D.M.faults desk.new.meter) }
    ensures other { Leaves context.now.beat.now (D.state desk.old.disk) (D.state desk.new.disk) (KeepsOther (own_in context.now.split.now desk.old.engine) (slot_of context.now.round) (D.state desk.old.disk)) }
    ensures any_moment { (devices : List (List ℕ)) (read : List ℕ) (before : List Value) → map (λ d. (D.state d).bytes) context.now.spills.now ≡ map (λ device. Some device) devices
        → (D.state desk.old.disk).bytes ≡ Some read → (1 ≤ context.now.round → EngineStandsBefore context.now.split.now desk.old.engine (1 - slot_of context.now.round) before read)
        → Leaves context.now.beat.now (D.state desk.old.disk) (D.state desk.new.disk) (WhileStoring (own_in context.now.split.now desk.old.engine) (slot_of context.now.round) context.now.round
        (changed_by context.now.round before (applied_on (P.rules context.now.program.now) context.now.split.now desk.old.engine context.now.round context.now.replicas.now devices before))
        (applied_on (P.rules context.now.program.now) context.now.split.now desk.old.engine context.now.round context.now.replicas.now devices before) (D.state desk.old.disk)) }
    ensures stored { desk.new.outcome ≡ Outcome.Done → (devices : List (List ℕ)) (read : List ℕ) (before : List Value) → map (λ d. (D.state d).bytes) context.now.spills.now ≡ map (λ device. Some device) devices
        → (D.state desk.old.disk).bytes ≡ Some read → (1 ≤ context.now.round → EngineStandsBefore context.now.split.now desk.old.engine (1 - slot_of context.now.round) before read)
        → InEveryImage (D.state desk.new.disk) (HoldsRound (own_in context.now.split.now desk.old.engine) (slot_of context.now.round) context.now.round desk.new.changed
        (applied_on (P.rules context.now.program.now) context.now.split.now desk.old.engine context.now.round context.now.replicas.now devices before))
        × (desk.new.changed ≡ changed_by context.now.round before (applied_on (P.rules context.now.program.now) context.now.split.now desk.old.engine context.now.round context.now.replicas.now devices before)) }
    ensures opened { desk.new.outcome ≡ Outcome.Done → InEveryImage (D.state desk.new.disk) (IsOpenWith (own_in context.now.split.now desk.old.engine) (slot_of context.now.round) context.now.round desk.new.changed) }
    ensures settled { desk.new.outcome ≡ Outcome.Done → IsSettled (D.state desk.new.disk) }
    ensures bytes { AsTold (SameOther (own_in context.now.split.now desk.old.engine) (slot_of context.now.round)) (D.state desk.old.disk).bytes (D.state desk.new.disk).bytes }
    ensures size { (D.state desk.new.disk).size ≡ (D.state desk.old.disk).size }
    ensures beat { (D.state desk.new.disk).beat ≤ context.now.beat.now }
{
    let answer = apply_round(
        context,
        desk.engine,
        &mut desk.disk,
        &mut desk.meter,
        desk.room.bytes.as_mut_slice(),
        desk.room.sums.as_mut_slice(),
        desk.room.values.as_mut_slice(),
    );
    match answer {
        Ok(changed) => {
            desk.changed = changed;
            desk.outcome = Outcome::Done;
        }
        Err(_) => {
            desk.changed = 0;
            desk.outcome = Outcome::DiskFault;
        }
    }
}

/// Closes the round's slot, writes the values and opens it. Answers how many changed.
fn apply_round<P: VertexProgram, D: Disk>(
    context: &ApplyContext<P, D>,
    engine: u32,
    disk: &mut D,
    meter: &mut D::M,
    bytes: &mut [u8],
    sums: &mut [u64],
    values: &mut [Value],
) -> Result<u64, Failed>
    requires split { IsSplit context.now.split.now }
    requires engine { engine < context.now.split.now.engines }
    requires size { (D.state disk.old).size ≡ device_size (own_in context.now.split.now engine) }
    requires beat { (D.state disk.old).beat ≤ context.now.beat.now }
    requires bytes { length bytes.old ≡ 16 * (context.now.split.now.span + 1) }
    requires sums { length sums.old ≡ context.now.split.now.span }
    requires values { length values.old ≡ context.now.split.now.span }
    requires splits { All (λ r. split_of r ≡ context.now.split.now) context.now.replicas.now }
    requires disks { length context.now.spills.now ≡ length context.now.replicas.now }
    requires within { (w : ℕ) (r : Replicas) (d : D) → w < length context.now.replicas.now → LiesWithin (slice_index_or context.now.replicas.now w r) (D.state (slice_index_or context.now.spills.now w d)).size }
    ensures other { Leaves context.now.beat.now (D.state disk.old) (D.state disk.new) (KeepsOther (own_in context.now.split.now engine) (slot_of context.now.round) (D.state disk.old)) }
    ensures any_moment { (devices : List (List ℕ)) (read : List ℕ) (before : List Value) → map (λ d. (D.state d).bytes) context.now.spills.now ≡ map (λ device. Some device) devices
        → (D.state disk.old).bytes ≡ Some read → (1 ≤ context.now.round → EngineStandsBefore context.now.split.now engine (1 - slot_of context.now.round) before read)
        → Leaves context.now.beat.now (D.state disk.old) (D.state disk.new) (WhileStoring (own_in context.now.split.now engine) (slot_of context.now.round) context.now.round
        (changed_by context.now.round before (applied_on (P.rules context.now.program.now) context.now.split.now engine context.now.round context.now.replicas.now devices before))
        (applied_on (P.rules context.now.program.now) context.now.split.now engine context.now.round context.now.replicas.now devices before) (D.state disk.old)) }
    ensures stored { IfOk result (λ changed. (devices : List (List ℕ)) (read : List ℕ) (before : List Value) → map (λ d. (D.state d).bytes) context.now.spills.now ≡ map (λ device. Some device) devices
        → (D.state disk.old).bytes ≡ Some read → (1 ≤ context.now.round → EngineStandsBefore context.now.split.now engine (1 - slot_of context.now.round) before read)
        → InEveryImage (D.state disk.new) (HoldsRound (own_in context.now.split.now engine) (slot_of context.now.round) context.now.round changed
        (applied_on (P.rules context.now.program.now) context.now.split.now engine context.now.round context.now.replicas.now devices before))
        × (changed ≡ changed_by context.now.round before (applied_on (P.rules context.now.program.now) context.now.split.now engine context.now.round context.now.replicas.now devices before))) }
    ensures opened { IfOk result (λ changed. InEveryImage (D.state disk.new) (IsOpenWith (own_in context.now.split.now engine) (slot_of context.now.round) context.now.round changed)) }
    ensures settled { OnOk result (IsSettled (D.state disk.new)) }
    ensures bytes { AsTold (SameOther (own_in context.now.split.now engine) (slot_of context.now.round)) (D.state disk.old).bytes (D.state disk.new).bytes }
    ensures size { (D.state disk.new).size ≡ (D.state disk.old).size }
    ensures beat { (D.state disk.new).beat ≤ context.now.beat.now }
    ensures cause { HasCauseOfTwo (D.state disk.old).faults (D.state disk.new).faults (D.M.faults meter.old) (D.M.faults meter.new) result }
{
    let slot = (context.round % 2) as u32;
    close_slot(disk, meter, context.split, engine, slot, context.beat)?;
    let changed = write_partitions(context, engine, slot, disk, meter, bytes, sums, values)?;
    open_slot(
        disk,
        context.split,
        engine,
        slot,
        context.round,
        changed,
        context.beat,
    )?;
    Ok(changed)
}

/// Makes the values of a partition, and answers how many changed. In a round after the first, the values before are read
/// from the other slot.
fn make_values<P: VertexProgram, D: Disk>(
    context: &ApplyContext<P, D>,
    partition: u32,
    other: u32,
    disk: &D,
    meter: &mut D::M,
    bytes: &mut [u8],
    sums: &[u64],
    values: &mut [Value],
) -> Result<u64, Failed>
    requires split { IsSplit context.now.split.now }
    requires partition { partition < context.now.split.now.parts }
    requires exact { (D.state disk.now).size ≡ device_size (own_in context.now.split.now (master_in context.now.split.now partition)) }
    requires other { other < 2 }
    requires bytes { length bytes.old ≡ 16 * len_in context.now.split.now partition }
    requires sums { length sums.now ≡ len_in context.now.split.now partition }
    requires values { length values.old ≡ len_in context.now.split.now partition }
    ensures made { IfOk result (λ changed. (read : List ℕ) (before : List Value) → (D.state disk.now).bytes ≡ Some read → StandBefore context.now.split.now partition other context.now.round before read
        → (values.new ≡ values_in (P.rules context.now.program.now) context.now.split.now context.now.round sums.now partition before) × (changed ≡ changed_by context.now.round before values.new)) }
    ensures few { IfOk result (λ changed. changed < 2 ^ 32) }
    ensures cause { HasCause (D.M.faults meter.old) (D.M.faults meter.new) result }
{
    let split = context.split;
    if context.round == 0 {
        let (first, _) = split.range(partition);
        start_values(context.program, first, sums, values);
        return Ok(values.len() as u64);
    }
    read_set(disk, meter, split, partition, other, bytes, values)?;
    Ok(next_values(context.program, sums, values))
}

/// Makes the values of a partition and writes them to the closed slot. Answers how many changed.
fn write_values<P: VertexProgram, D: Disk>(
    context: &ApplyContext<P, D>,
    partition: u32,
    slot: u32,
    disk: &mut D,
    meter: &mut D::M,
    bytes: &mut [u8],
    sums: &[u64],
    values: &mut [Value],
) -> Result<u64, Failed>
    requires split { IsSplit context.now.split.now }
    requires partition { partition < context.now.split.now.parts }
    requires exact { HasExactSize (own_in context.now.split.now (master_in context.now.split.now partition)) (D.state disk.old) }
    requires slot { slot < 2 }
    requires closed { InEveryImage (D.state disk.old) (IsClosed (own_in context.now.split.now (master_in context.now.split.now partition)) slot) }
    requires beat { (D.state disk.old).beat ≤ context.now.beat.now }
    requires bytes { length bytes.old ≡ 16 * len_in context.now.split.now partition }
    requires sums { length sums.now ≡ len_in context.now.split.now partition }
    requires values { length values.old ≡ len_in context.now.split.now partition }
    ensures any_moment { Leaves context.now.beat.now (D.state disk.old) (D.state disk.new) (WhileWriting (own_in context.now.split.now (master_in context.now.split.now partition)) slot (D.state disk.old)) }
    ensures closed { InEveryImage (D.state disk.new) (IsClosed (own_in context.now.split.now (master_in context.now.split.now partition)) slot) }
    ensures exact { HasExactSize (own_in context.now.split.now (master_in context.now.split.now partition)) (D.state disk.new) }
    ensures bytes { AsTold (SameOther (own_in context.now.split.now (master_in context.now.split.now partition)) slot) (D.state disk.old).bytes (D.state disk.new).bytes }
    ensures stored { IfOk result (λ changed. (read now : List ℕ) (before : List Value) → (D.state disk.old).bytes ≡ Some read → (D.state disk.new).bytes ≡ Some now → StandBefore context.now.split.now partition (1 - slot) context.now.round before read
        → StoresPartition (P.rules context.now.program.now) context.now.split.now context.now.round sums.now partition slot before changed read now) }
    ensures few { IfOk result (λ changed. changed < 2 ^ 32) }
    ensures beat { (D.state disk.new).beat ≤ context.now.beat.now }
    ensures cause { HasCauseOfTwo (D.state disk.old).faults (D.state disk.new).faults (D.M.faults meter.old) (D.M.faults meter.new) result }
{
    let changed = make_values(
        context,
        partition,
        1 - slot,
        disk,
        meter,
        bytes,
        sums,
        values,
    )?;
    write_set(
        disk,
        context.split,
        partition,
        slot,
        values,
        bytes,
        context.beat,
    )?;
    Ok(changed)
}

/// Merges the accumulators of a partition, makes its values and writes them to the closed slot. Answers how many changed.
fn write_partition<P: VertexProgram, D: Disk>(
    context: &ApplyContext<P, D>,
    partition: u32,
    slot: u32,
    disk: &mut D,
    meter: &mut D::M,
    bytes: &mut [u8],
    sums: &mut [u64],
    values: &mut [Value],
) -> Result<u64, Failed>
    requires split { IsSplit context.now.split.now }
    requires partition { partition < context.now.split.now.parts }
    requires exact { HasExactSize (own_in context.now.split.now (master_in context.now.split.now partition)) (D.state disk.old) }
    requires slot { slot < 2 }
    requires closed { InEveryImage (D.state disk.old) (IsClosed (own_in context.now.split.now (master_in context.now.split.now partition)) slot) }
    requires beat { (D.state disk.old).beat ≤ context.now.beat.now }
    requires bytes { 16 * (len_in context.now.split.now partition + 1) ≤ length bytes.old }
    requires sums { length sums.old ≡ len_in context.now.split.now partition }
    requires values { length values.old ≡ len_in context.now.split.now partition }
    requires splits { All (λ r. split_of r ≡ context.now.split.now) context.now.replicas.now }
    requires disks { length context.now.spills.now ≡ length context.now.replicas.now }
    requires within { (w : ℕ) (r : Replicas) (d : D) → w < length context.now.replicas.now → LiesWithin (slice_index_or context.now.replicas.now w r) (D.state (slice_index_or context.now.spills.now w d)).size }
    ensures any_moment { Leaves context.now.beat.now (D.state disk.old) (D.state disk.new) (WhileWriting (own_in context.now.split.now (master_in context.now.split.now partition)) slot (D.state disk.old)) }
    ensures closed { InEveryImage (D.state disk.new) (IsClosed (own_in context.now.split.now (master_in context.now.split.now partition)) slot) }
    ensures exact { HasExactSize (own_in context.now.split.now (master_in context.now.split.now partition)) (D.state disk.new) }
    ensures bytes { AsTold (SameOther (own_in context.now.split.now (master_in context.now.split.now partition)) slot) (D.state disk.old).bytes (D.state disk.new).bytes }
    ensures stored { IfOk result (λ changed. (devices : List (List ℕ)) (read now : List ℕ) (before : List Value) → map (λ d. (D.state d).bytes) context.now.spills.now ≡ map (λ device. Some device) devices
        → (D.state disk.old).bytes ≡ Some read → (D.state disk.new).bytes ≡ Some now → StandBefore context.now.split.now partition (1 - slot) context.now.round before read
        → StoresPartition (P.rules context.now.program.now) context.now.split.now context.now.round
        (sums_in (P.rules context.now.program.now) context.now.split.now context.now.replicas.now devices partition) partition slot before changed read now) }
    ensures few { IfOk result (λ changed. changed < 2 ^ 32) }
    ensures beat { (D.state disk.new).beat ≤ context.now.beat.now }
    ensures cause { HasCauseOfTwo (D.state disk.old).faults (D.state disk.new).faults (D.M.faults meter.old) (D.M.faults meter.new) result }
{
    merge_replicas(
        context.program,
        context.split,
        context.replicas,
        context.spills,
        meter,
        partition,
        bytes,
        sums,
    )?;
    write_values(
        context,
        partition,
        slot,
        disk,
        meter,
        &mut bytes[..WIDTH * sums.len()],
        sums,
        values,
    )
}

/// Writes the values of all of an engine's partitions to the closed slot. Answers how many changed.
fn write_partitions<P: VertexProgram, D: Disk>(
    context: &ApplyContext<P, D>,
    engine: u32,
    slot: u32,
    disk: &mut D,
    meter: &mut D::M,
    bytes: &mut [u8],
    sums: &mut [u64],
    values: &mut [Value],
) -> Result<u64, Failed>
    requires split { IsSplit context.now.split.now }
    requires engine { engine < context.now.split.now.engines }
    requires exact { HasExactSize (own_in context.now.split.now engine) (D.state disk.old) }
    requires slot { slot < 2 }
    requires closed { InEveryImage (D.state disk.old) (IsClosed (own_in context.now.split.now engine) slot) }
    requires beat { (D.state disk.old).beat ≤ context.now.beat.now }
    requires bytes { length bytes.old ≡ 16 * (context.now.split.now.span + 1) }
    requires sums { length sums.old ≡ context.now.split.now.span }
    requires values { length values.old ≡ context.now.split.now.span }
    requires splits { All (λ r. split_of r ≡ context.now.split.now) context.now.replicas.now }
    requires disks { length context.now.spills.now ≡ length context.now.replicas.now }
    requires within { (w : ℕ) (r : Replicas) (d : D) → w < length context.now.replicas.now → LiesWithin (slice_index_or context.now.replicas.now w r) (D.state (slice_index_or context.now.spills.now w d)).size }
    ensures any_moment { Leaves context.now.beat.now (D.state disk.old) (D.state disk.new) (WhileClosing (own_in context.now.split.now engine) slot (D.state disk.old)) }
    ensures closed { InEveryImage (D.state disk.new) (IsClosed (own_in context.now.split.now engine) slot) }
    ensures exact { HasExactSize (own_in context.now.split.now engine) (D.state disk.new) }
    ensures bytes { AsTold (SameOther (own_in context.now.split.now engine) slot) (D.state disk.old).bytes (D.state disk.new).bytes }
    ensures stored { IfOk result (λ changed. (devices : List (List ℕ)) (read now : List ℕ) (before : List Value) → map (λ d. (D.state d).bytes) context.now.spills.now ≡ map (λ device. Some device) devices
        → (D.state disk.old).bytes ≡ Some read → (D.state disk.new).bytes ≡ Some now → EngineBefore context.now.split.now engine (1 - slot) context.now.round before read
        → StoresFront (P.rules context.now.program.now) context.now.split.now engine context.now.round
        (sums_in (P.rules context.now.program.now) context.now.split.now context.now.replicas.now devices) slot
        (parts_of_master context.now.split.now.engines context.now.split.now.parts engine) (own_in context.now.split.now engine) before changed now) }
    ensures beat { (D.state disk.new).beat ≤ context.now.beat.now }
    ensures cause { HasCauseOfTwo (D.state disk.old).faults (D.state disk.new).faults (D.M.faults meter.old) (D.M.faults meter.new) result }
{
    let mut changed = 0;
    for partition in 0..context.split.parts {
        if context.split.master_of(partition) != engine {
            continue;
        }
        let len = part_len(context.split, partition);
        changed += write_partition(
            context,
            partition,
            slot,
            disk,
            meter,
            bytes,
            &mut sums[..len],
            &mut values[..len],
        )?;
    }
    Ok(changed)
}

/// The number of vertices of a partition.
fn part_len(split: &Split, partition: u32) -> usize
    requires split { IsSplit split.now }
    requires partition { partition < split.now.parts }
    ensures len { result ≡ len_in split.now partition }
    ensures within { result ≤ split.now.span }
{
    let (first, end) = split.range(partition);
    (end - first) as usize
}
