// Accumulators that are written to a worker's device.
ghost use Rattle.std.specs.Prelude.{◌≡◌, ℕ, ◌+◌, ◌*◌, ◌/◌, ◌^◌, ◌<◌, ◌≤◌, length, OnOk, OnErr, slice_index};
ghost use Rattle.ports.specs.Told.{AsTold};
ghost use Rattle.replica_merge.specs.Accumulators.{split_of, len_of, unit_of, begun_of, sums_of, accumulators_of, LiesWithin, KeepsOthers};
ghost use Rattle.replica_merge.specs.Appending.{HasAppended};
ghost use Rattle.replica_merge.specs.Numbers.{bytes_of_numbers};

use crate::Replicas;
use crate::numbers::{WIDTH, put_numbers};
use ports::{Beat, Disk, Failed};

impl Replicas {
    /// Appends the accumulators of the partition that was begun last to the device, and notes the place. Each write is
    /// of as many as `bytes` holds. After `Failed` the replicas are as before, and the device may have some of the bytes
    /// behind its end.
    pub fn spill<D: Disk>(
        &mut self,
        partition: u32,
        disk: &mut D,
        bytes: &mut [u8],
        beat: &Beat,
    ) -> Result<(), Failed>
        requires partition { partition ≡ begun_of self.old }
        requires bytes { 8 ≤ length bytes.old }
        requires end { (D.state disk.old).size + 8 * len_of (split_of self.old) partition < 2 ^ 63 }
        requires beat { (D.state disk.old).beat ≤ beat.now }
        ensures device { HasAppended beat.now (bytes_of_numbers (sums_of self.old)) (D.state disk.old) (D.state disk.new) result }
        ensures within { LiesWithin self.old (D.state disk.old).size → LiesWithin self.new (D.state disk.new).size }
        ensures split { split_of self.new ≡ split_of self.old }
        ensures unit { unit_of self.new ≡ unit_of self.old }
        ensures begun { (begun_of self.new ≡ begun_of self.old) × (sums_of self.new ≡ sums_of self.old) }
        ensures spilled { OnOk result (AsTold (λ before now. accumulators_of self.new now partition ≡ sums_of self.old) (D.state disk.old).bytes (D.state disk.new).bytes) }
        ensures others { LiesWithin self.old (D.state disk.old).size → AsTold (KeepsOthers self.old self.new partition) (D.state disk.old).bytes (D.state disk.new).bytes }
        ensures kept { OnErr result (self.new.places ≡ self.old.places) }
    {
        let at = disk.size();
        write_numbers(self.sums.as_slice(), disk, bytes, beat)?;
        self.places[partition as usize] = Some(at);
        Ok(())
    }
}

/// Appends numbers, as many in a write as `bytes` holds.
fn write_numbers<D: Disk>(
    numbers: &[u64],
    disk: &mut D,
    bytes: &mut [u8],
    beat: &Beat,
) -> Result<(), Failed>
    requires bytes { 8 ≤ length bytes.old }
    requires end { (D.state disk.old).size + 8 * length numbers.now < 2 ^ 63 }
    requires beat { (D.state disk.old).beat ≤ beat.now }
    ensures appended { HasAppended beat.now (bytes_of_numbers numbers.now) (D.state disk.old) (D.state disk.new) result }
    ensures fit { (k : ℕ) → slice_index numbers.now k < 2 ^ 64 }
{
    let room = bytes.len() / WIDTH;
    let mut done = 0;
    while done < numbers.len() {
        let count = room.min(numbers.len() - done);
        write_piece(
            &numbers[done..done + count],
            disk,
            &mut bytes[..WIDTH * count],
            beat,
        )?;
        done += count;
    }
    Ok(())
}

/// Appends numbers in one write through all of `bytes`.
fn write_piece<D: Disk>(
    numbers: &[u64],
    disk: &mut D,
    bytes: &mut [u8],
    beat: &Beat,
) -> Result<(), Failed>
    requires bytes { length bytes.old ≡ 8 * length numbers.now }
    requires end { (D.state disk.old).size + 8 * length numbers.now < 2 ^ 63 }
    requires beat { (D.state disk.old).beat ≤ beat.now }
    ensures { HasAppended beat.now (bytes_of_numbers numbers.now) (D.state disk.old) (D.state disk.new) result }
{
    put_numbers(numbers, bytes);
    let end = disk.size();
    disk.write_at(beat, end, bytes)
}
