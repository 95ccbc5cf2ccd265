//! One chunk more at the end of a device.
ghost use Rattle.std.specs.Prelude.{◌≡◌, ◌+◌, ◌^◌, ◌<◌, ◌≤◌, true, length, IfOk, OnOk};
ghost use Rattle.std.specs.List.{All};
ghost use Rattle.ports.specs.Disk.{Writes};
ghost use Rattle.ports.specs.Sink.{Appends};
ghost use Rattle.ports.specs.Told.{AsTold};
ghost use Rattle.chunk_model.specs.ChunkBytes.{chunk_bytes, chunk_width};

use crate::Record;
use crate::chunk::{HEAD_SIZE, put_chunk};
use ports::{Beat, Disk, Failed};

/// Writes a chunk of these records behind all that the device has, by one call of it, and answers its place. `bytes`
/// is where the chunk is made. After `Failed` a part of it may have been written, and may yet be by a stop.
pub fn append_chunk<R: Record, D: Disk>(
    disk: &mut D,
    partition: u32,
    records: &[R],
    bytes: &mut [u8],
    beat: &Beat,
    format: u32,
) -> Result<u64, Failed>
    requires some { 0 < length records.now }
    requires few { length records.now ≤ 65536 }
    requires held { All (λ r. (R.layout format).holds r ≡ true) records.now }
    requires room { chunk_width (R.layout format).width (length records.now) ≤ length bytes.old }
    requires end { (D.state disk.old).size + chunk_width (R.layout format).width (length records.now) < 2 ^ 63 }
    requires beat { (D.state disk.old).beat ≤ beat.now }
    ensures place { IfOk result (λ at. at ≡ (D.state disk.old).size) }
    ensures appended { OnOk result (AsTold (Appends (chunk_bytes (R.layout format) partition records.now)) (D.state disk.old).bytes (D.state disk.new).bytes) }
    ensures grown { OnOk result ((D.state disk.new).size ≡ (D.state disk.old).size + chunk_width (R.layout format).width (length records.now)) }
    // What stops leave, whatever the answer, and its cause.
    ensures writes { Writes beat.now (D.state disk.old).size (chunk_bytes (R.layout format) partition records.now) (D.state disk.old) (D.state disk.new) result }
{
    let chunk = &mut bytes[..HEAD_SIZE + R::width(format) * records.len()];
    put_chunk(partition, records, chunk, format);
    let at = disk.size();
    disk.write_at(beat, at, chunk)?;
    Ok(at)
}
