//! The chunks of a cursor among all chunks.
ghost use Rattle.std.specs.Prelude.{◌≡◌, ◌≤◌, IfSome, IfNone};
ghost use Rattle.chunk_object.specs.Epochs.{cursor_of as cursor_at};
ghost use Rattle.phase_model.specs.Shelves.{lens_of};
ghost use Rattle.phase_core.specs.View.{IsNumbered, shelf_of};

use crate::chunk::PutChunk;

/// The cursor of a partition on an engine.
pub(crate) fn cursor_of(engine: u32, partition: u32) -> u64
    ensures { result ≡ cursor_at engine partition }
{
    64 * u64::from(engine) + u64::from(partition)
}

/// How many chunks the cursor has.
pub(crate) fn count_at(chunks: &[PutChunk], cursor: u64) -> u64
    ensures { result ≡ lens_of (shelf_of chunks.now) cursor }
{
    let mut count = 0;
    for chunk in chunks {
        if cursor_of(chunk.engine, chunk.partition) == cursor {
            count += 1;
        }
    }
    count
}

/// Where the cursor's chunk of this number stands among all chunks.
pub(crate) fn index_of(chunks: &[PutChunk], cursor: u64, number: u64) -> Option<usize>
    ensures found { IfSome result (IsNumbered chunks.now cursor number) }
    ensures none { IfNone result (lens_of (shelf_of chunks.now) cursor ≤ number) }
{
    let mut left = number;
    for (index, chunk) in chunks.iter().enumerate() {
        if cursor_of(chunk.engine, chunk.partition) == cursor {
            if left == 0 {
                return Some(index);
            }
            left -= 1;
        }
    }
    None
}
