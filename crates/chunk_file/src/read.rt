//! One chunk, from a device.
ghost use Rattle.std.specs.Prelude.{◌≡◌, ◌≢◌, ◌+◌, ◌-◌, ◌<◌, ◌≤◌, min, length, take, IfOk, IfErr, IfSome, Err};
ghost use Rattle.ports.specs.Bytes.{bytes_at};
ghost use Rattle.ports.specs.Faults.{HasCause, Rose};
ghost use Rattle.partitioner.specs.Splits.{IsSplit};
ghost use Rattle.chunk_model.specs.ChunkBytes.{chunk_width};
ghost use Rattle.chunk_file.specs.Chunks.{AreChunkIn, IsChunkIn, NoChunkIn};
ghost use Rattle.chunk_file.specs.Causes.{HasChunkCause};

use crate::chunk::{HEAD_SIZE, get_chunk};
use crate::{ChunkFault, Record};
use partitioner::Split;
use ports::{Disk, Failed};

/// Reads the chunk of a partition that stands at byte `at` into the front of `into`, by one call of the device at
/// most, and answers the number of its records, at least 1. `bytes` is where the chunk is read to. It never answers
/// `Memory`.
pub fn read_chunk<R: Record, D: Disk>(
    disk: &D,
    meter: &mut D::M,
    at: u64,
    partition: u32,
    split: &Split,
    bytes: &mut [u8],
    into: &mut [R],
    format: u32,
) -> Result<u32, ChunkFault>
    requires split { IsSplit split.now }
    requires partition { partition < split.now.parts }
    requires room { chunk_width (R.layout format).width (length into.old) ≤ length bytes.old }
    // Whether or not the device tells its bytes.
    ensures within { IfOk result (λ count. count ≤ length into.new) }
    ensures read { IfOk result (λ count. AreChunkIn (R.layout format) split.now (length into.new) partition (take count into.new)) }
    ensures fits { IfOk result (λ count. at + chunk_width (R.layout format).width count ≤ (D.state disk.now).size) }
    // Where it tells them.
    ensures found { IfOk result (λ count. IfSome (D.state disk.now).bytes (λ told.
        IsChunkIn (R.layout format) split.now (length into.new) partition at told (take count into.new))) }
    ensures later { D.M.faults meter.old ≤ D.M.faults meter.new }
    ensures calm { result ≢ Err ChunkFault.DiskFault → D.M.faults meter.new ≡ D.M.faults meter.old }
    ensures cause { IfErr result (HasChunkCause (Rose (D.M.faults meter.old) (D.M.faults meter.new))
        (λ place. (place ≡ at) × IfSome (D.state disk.now).bytes (NoChunkIn (R.layout format) split.now (length into.new) partition at)) ⊥) }
{
    let chunk = &mut bytes[..HEAD_SIZE + R::width(format) * into.len()];
    let room = read_bytes(disk, meter, at, chunk)?;
    match get_chunk(&chunk[..room], partition, split, into, format) {
        Some(count) => Ok(count),
        None => Err(ChunkFault::Damaged(at)),
    }
}

/// Reads bytes from `at` on, as many as the buffer has room for or the device has there, and answers how many.
pub(crate) fn read_bytes<D: Disk>(
    disk: &D,
    meter: &mut D::M,
    at: u64,
    bytes: &mut [u8],
) -> Result<usize, Failed>
    ensures room { IfOk result (λ room. room ≡ min (length bytes.new) ((D.state disk.now).size - at)) }
    ensures read { IfOk result (λ room. IfSome (D.state disk.now).bytes (λ told. take room bytes.new ≡ bytes_at at room told)) }
    ensures cause { HasCause (D.M.faults meter.old) (D.M.faults meter.new) result }
{
    let left = disk.size().saturating_sub(at);
    let room = left.min(bytes.len() as u64) as usize;
    if room > 0 {
        disk.read_at(meter, at, &mut bytes[..room])?;
    }
    Ok(room)
}
