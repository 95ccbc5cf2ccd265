//! What a chunk adds to the sums of its partition.
ghost use Rattle.std.specs.Prelude.{◌<◌, length};
ghost use Rattle.graph_model.specs.Programs.{plus as capped_sum};
ghost use Rattle.phase_model.specs.Sums.{counts_of};
ghost use Rattle.gather_phase.specs.Summing.{AreWithin, ComeFrom, HasSummed};

use gather_laws::{VertexProgram, plus};
use graph_model::{Edge, Update};

/// Takes each update into the sum of its destination. The first sum is that of the vertex `first`.
pub(crate) fn fold_updates<P: VertexProgram>(
    program: &P,
    sums: &mut [u64],
    first: u32,
    updates: &[Update],
)
    requires within { AreWithin first (length sums.old) updates.now }
    ensures summed { HasSummed (P.rules program.now).fold first updates.now sums.old sums.new }
{
    for update in updates {
        let at = (update.dst - first) as usize;
        sums[at] = program.fold(sums[at], update.value);
    }
}

/// Counts each edge at its source. The first count is that of the vertex `first`.
pub(crate) fn count_edges(counts: &mut [u64], first: u32, edges: &[Edge])
    requires within { ComeFrom first (length counts.old) edges.now }
    ensures summed { HasSummed capped_sum first (counts_of edges.now) counts.old counts.new }
{
    for edge in edges {
        let at = (edge.src - first) as usize;
        counts[at] = plus(counts[at], 1);
    }
}
