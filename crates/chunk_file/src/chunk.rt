//! The bytes of one chunk, written and read.
ghost use Rattle.std.specs.Prelude.{◌≡◌, ℕ, ◌+◌, ◌*◌, ◌^◌, ◌<◌, ◌≤◌, true, length, flat_map, IfSome, IfNone};
ghost use Rattle.std.specs.List.{All, list_all};
ghost use Rattle.partitioner.specs.Splits.{IsSplit};
ghost use Rattle.chunk_model.specs.ChunkBytes.{chunk_bytes, chunk_width};
ghost use Rattle.chunk_file.specs.Chunks.{is_in, ReadsChunk, NoChunkIn};

use crate::Record;
use crate::record::u32_at;
use partitioner::Split;

/// The bytes of a chunk's head: its partition and the number of its records.
pub(crate) const HEAD_SIZE: usize = 8;

/// Writes a chunk of these records.
#[tactic(auto, unfolding(chunk_model::specs::ChunkBytes::chunk_bytes, chunk_model::specs::ChunkBytes::chunk_head))]
pub(crate) fn put_chunk<R: Record>(partition: u32, records: &[R], into: &mut [u8], format: u32)
    requires size { length into.old ≡ chunk_width (R.layout format).width (length records.now) }
    requires few { length records.now ≤ 65536 }
    requires room { All (λ r. (R.layout format).holds r ≡ true) records.now }
    ensures { into.new ≡ chunk_bytes (R.layout format) partition records.now }
{
    into[..4].copy_from_slice(&partition.to_be_bytes());
    into[4..HEAD_SIZE].copy_from_slice(&(records.len() as u32).to_be_bytes());
    put_records(records, &mut into[HEAD_SIZE..], format);
}

/// Writes records one behind another.
fn put_records<R: Record>(records: &[R], into: &mut [u8], format: u32)
    requires size { length into.old ≡ (R.layout format).width * length records.now }
    requires few { length records.now ≤ 65536 }
    requires room { All (λ r. (R.layout format).holds r ≡ true) records.now }
    ensures { into.new ≡ flat_map (R.layout format).bytes records.now }
{
    let width = R::width(format);
    let mut start = 0;
    'records: for item in records {
        item.put(format, &mut into[start..start + width]);
        start += width;
    }
}

/// Reads records one behind another, and answers whether each fits so many vertices and has its home from vertex
/// `first` up to `end`.
fn get_records<R: Record>(
    bytes: &[u8],
    vertices: u32,
    first: u32,
    end: u32,
    into: &mut [R],
    format: u32,
) -> bool
    requires size { length bytes.now ≡ (R.layout format).width * length into.old }
    requires few { length into.old < 2 ^ 32 }
    ensures written { flat_map (R.layout format).bytes into.new ≡ bytes.now }
    ensures room { All (λ r. (R.layout format).holds r ≡ true) into.new }
    ensures belong { result ≡ list_all (is_in (R.layout format) vertices first end) into.new }
{
    let width = R::width(format);
    let mut start = 0;
    let mut belong = true;
    'records: for place in into.iter_mut() {
        let item = R::get(format, &bytes[start..start + width]);
        let here = belongs(&item, vertices, first, end);
        belong = belong && here;
        *place = item;
        start += width;
    }
    belong
}

/// Whether a record fits so many vertices, and has its home from vertex `first` up to `end`.
#[inline(always)]
fn belongs<R: Record>(item: &R, vertices: u32, first: u32, end: u32) -> bool
    ensures { (format : ℕ) → result ≡ is_in (R.layout format) vertices first end item.now }
{
    item.fits(vertices) && first <= item.home() && item.home() < end
}

/// Reads the chunk of a partition that stands at the front of the bytes into the front of `into`, and answers the
/// number of its records. None where no well-formed one stands there.
pub(crate) fn get_chunk<R: Record>(
    bytes: &[u8],
    partition: u32,
    split: &Split,
    into: &mut [R],
    format: u32,
) -> Option<u32>
    requires split { IsSplit split.now }
    requires partition { partition < split.now.parts }
    ensures found { IfSome result (λ count. ReadsChunk (R.layout format) split.now partition bytes.now count into.new) }
    ensures none { IfNone result (NoChunkIn (R.layout format) split.now (length into.old) partition 0 bytes.now) }
{
    let width = R::width(format);
    if bytes.len() < HEAD_SIZE || u32_at(bytes, 0) != partition {
        return None;
    }
    let count = u32_at(bytes, 4) as usize;
    if count == 0 || count > into.len() || bytes.len() < HEAD_SIZE + width * count {
        return None;
    }
    let (first, end) = split.range(partition);
    let body = &bytes[HEAD_SIZE..HEAD_SIZE + width * count];
    if !get_records(body, split.vertices, first, end, &mut into[..count], format) {
        return None;
    }
    Some(count as u32)
}
