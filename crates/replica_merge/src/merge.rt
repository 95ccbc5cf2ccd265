// The merge over all workers.
ghost use Rattle.std.specs.Prelude.{◌≡◌, ℕ, ◌+◌, ◌*◌, ◌<◌, ◌≤◌, List, All, None, IsOk, map, length, replicate, OnOk, slice_index_or};
ghost use Rattle.ports.specs.Bytes.{bytes_at};
ghost use Rattle.ports.specs.Faults.{HasCause};
ghost use Rattle.replica_merge.specs.declared.replicas.Replicas.{Replicas};
ghost use Rattle.replica_merge.specs.Accumulators.{split_of, len_of, place_of, accumulators_of, LiesWithin};
ghost use Rattle.replica_merge.specs.Merging.{MergesAll, MergesOne, MergesFrom};
ghost use Rattle.replica_merge.specs.Numbers.{numbers_at};

use crate::Replicas;
use crate::numbers::{WIDTH, number_at};
use gather_laws::VertexProgram;
use partitioner::Split;
use ports::{Disk, Failed};

/// Makes `into` the merge of the accumulators of a partition over all replicas, each once. The device of replica w is
/// disk w. A partition that was spilled is read through `bytes`, as much as it holds at a time; one that was not costs
/// no read.
pub fn merge_replicas<P: VertexProgram, D: Disk>(
    program: &P,
    split: &Split,
    replicas: &[Replicas],
    disks: &[D],
    meter: &mut D::M,
    partition: u32,
    bytes: &mut [u8],
    into: &mut [u64],
) -> Result<(), Failed>
    requires partition { partition < split.now.parts }
    requires into { length into.old ≡ len_of split.now partition }
    requires bytes { 8 ≤ length bytes.old }
    requires splits { All (λ r. split_of r ≡ split.now) replicas.now }
    requires disks { length disks.now ≡ length replicas.now }
    requires within { (w : ℕ) (r : Replicas) (d : D) → w < length replicas.now → LiesWithin (slice_index_or replicas.now w r) (D.state (slice_index_or disks.now w d)).size }
    ensures merged { OnOk result ((devices : List (List ℕ)) → map (λ d. (D.state d).bytes) disks.now ≡ map (λ device. Some device) devices → MergesAll (P.rules program.now) replicas.now devices partition into.new) }
    ensures unread { All (λ r. place_of r partition ≡ None) replicas.now → (meter.new ≡ meter.old) × IsOk result }
    ensures cause { HasCause (D.M.faults meter.old) (D.M.faults meter.new) result }
{
    let _of = split;
    into.fill(program.unit());
    for worker in 0..replicas.len() {
        merge_worker(
            program,
            &replicas[worker],
            &disks[worker],
            meter,
            partition,
            bytes,
            into,
        )?;
    }
    Ok(())
}

/// Merges the accumulators of one worker into `into`.
fn merge_worker<P: VertexProgram, D: Disk>(
    program: &P,
    replicas: &Replicas,
    disk: &D,
    meter: &mut D::M,
    partition: u32,
    bytes: &mut [u8],
    into: &mut [u64],
) -> Result<(), Failed>
    requires partition { partition < (split_of replicas.now).parts }
    requires into { length into.old ≡ len_of (split_of replicas.now) partition }
    requires bytes { 8 ≤ length bytes.old }
    requires within { LiesWithin replicas.now (D.state disk.now).size }
    ensures merged { OnOk result ((device : List ℕ) → (D.state disk.now).bytes ≡ Some device → MergesOne (P.rules program.now) (accumulators_of replicas.now device partition) into.old into.new) }
    ensures unread { place_of replicas.now partition ≡ None → (meter.new ≡ meter.old) × IsOk result }
    ensures cause { HasCause (D.M.faults meter.old) (D.M.faults meter.new) result }
{
    match replicas.place(partition) {
        None => {
            merge_units(program, replicas.unit, into);
            Ok(())
        }
        Some(at) => merge_spilled(program, disk, meter, at, bytes, into),
    }
}

/// Merges a unit into each sum.
fn merge_units<P: VertexProgram>(program: &P, unit: u64, into: &mut [u64])
    ensures { MergesOne (P.rules program.now) (replicate (length into.old) unit) into.old into.new }
{
    for sum in into.iter_mut() {
        *sum = program.merge(*sum, unit);
    }
}

/// Merges the numbers that stand on a device from `at` on into the sums, as many at a time as `bytes` holds.
fn merge_spilled<P: VertexProgram, D: Disk>(
    program: &P,
    disk: &D,
    meter: &mut D::M,
    at: u64,
    bytes: &mut [u8],
    into: &mut [u64],
) -> Result<(), Failed>
    requires bytes { 8 ≤ length bytes.old }
    requires end { at + 8 * length into.old ≤ (D.state disk.now).size }
    ensures merged { OnOk result ((device : List ℕ) → (D.state disk.now).bytes ≡ Some device → MergesOne (P.rules program.now) (numbers_at at (length into.old) device) into.old into.new) }
    ensures cause { HasCause (D.M.faults meter.old) (D.M.faults meter.new) result }
{
    // no place within a device is past the numbers
    let _size = disk.size();
    let room = bytes.len() / WIDTH;
    let mut done = 0;
    while done < into.len() {
        let count = room.min(into.len() - done);
        let from = at + (WIDTH * done) as u64;
        merge_piece(
            program,
            disk,
            meter,
            from,
            &mut bytes[..WIDTH * count],
            into,
            done,
        )?;
        done += count;
    }
    Ok(())
}

/// Reads a piece that fills `bytes`, and merges its numbers into the sums from the place `done` on.
fn merge_piece<P: VertexProgram, D: Disk>(
    program: &P,
    disk: &D,
    meter: &mut D::M,
    from: u64,
    bytes: &mut [u8],
    into: &mut [u64],
    done: usize,
) -> Result<(), Failed>
    requires end { from + length bytes.old ≤ (D.state disk.now).size }
    requires sums { 8 * done + length bytes.old ≤ 8 * length into.old }
    ensures merged { OnOk result ((device : List ℕ) → (D.state disk.now).bytes ≡ Some device → MergesFrom (P.rules program.now) done (bytes_at from (length bytes.old) device) into.old into.new) }
    ensures cause { HasCause (D.M.faults meter.old) (D.M.faults meter.new) result }
{
    disk.read_at(meter, from, bytes)?;
    merge_numbers(program, bytes, into, done);
    Ok(())
}

/// Merges the numbers in `bytes` into the sums from the place `done` on.
fn merge_numbers<P: VertexProgram>(program: &P, bytes: &[u8], into: &mut [u64], done: usize)
    requires { 8 * done + length bytes.now ≤ 8 * length into.old }
    ensures { MergesFrom (P.rules program.now) done bytes.now into.old into.new }
{
    for index in 0..bytes.len() / WIDTH {
        let sum = into[done + index];
        into[done + index] = program.merge(sum, number_at(bytes, WIDTH * index));
    }
}
