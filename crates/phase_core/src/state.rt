//! The machine's state.
ghost use Rattle.std.specs.Prelude.{◌≡◌, ◌*◌, ◌<◌, length, All};
ghost use Rattle.graph_model.specs.declared.value.Update.{Update};
ghost use Rattle.phase_core.specs.declared.chunk.PutChunk.{PutChunk};
ghost use Rattle.partitioner.specs.Splits.{IsSplit};

use crate::chunk::PutChunk;
use partitioner::Split;

/// The machine of a phase. Contracts see it as `machine_of core`.
#[derive(Drop)]
pub struct Core {
    pub(crate) split: Split,
    pub(crate) unit: u64,
    /// All chunks, in the order in which they were put.
    pub(crate) chunks: Vec<PutChunk>,
    /// The next chunk of each cursor.
    pub(crate) nexts: Vec<u64>,
    /// The helper count of each partition.
    pub(crate) heads: Vec<u64>,
    /// Whether a worker was admitted, 64 partitions for each worker.
    pub(crate) admitted: Vec<bool>,
    /// Whether a worker was told that a cursor has no chunk left, 512 cursors for each worker.
    pub(crate) refused: Vec<bool>,
    /// Whether a worker is through.
    pub(crate) finished: Vec<bool>,
    /// The sum of each vertex, all vertices for each worker.
    pub(crate) sums: Vec<u64>,
    ghost split_is: { IsSplit split },
    ghost nexts_long: { length nexts.items ≡ 64 * split.engines },
    ghost heads_long: { length heads.items ≡ split.parts },
    ghost admitted_long: { length admitted.items ≡ 64 * split.engines },
    ghost refused_long: { length refused.items ≡ 512 * split.engines },
    ghost finished_long: { length finished.items ≡ split.engines },
    ghost sums_long: { length sums.items ≡ split.vertices * split.engines },
    ghost within: { All (λ (c : PutChunk). All (λ (u : Update). u.dst < split.vertices) c.updates.items) chunks.items },
}
