//! Round 0.
ghost use Rattle.std.specs.Prelude.{◌≡◌, ◌≤◌, ◌^◌, IfOk, length, replicate, slice_index};
ghost use Rattle.graph_model.specs.Rounds.{IsWithinGraph, first_values as values_of_round_0, of_vertices, out_degree};

use gather_laws::{Value, VertexProgram, plus};
use graph_model::Edge;
use std::alloc::{AllocError, Global};

/// The values of round 0. The counts are used up.
pub(crate) fn first_values<P: VertexProgram>(
    alloc: Global,
    program: &P,
    edges: &[Edge],
    counts: &mut [u64],
) -> Result<Vec<Value>, AllocError>
    requires few { length counts.old ≤ 2 ^ 32 }
    requires within { IsWithinGraph (length counts.old) edges.now }
    requires zero { counts.old ≡ replicate (length counts.old) 0 }
    ensures { IfOk result (λ values.
        values.items ≡ values_of_round_0 (P.rules program.now) (length counts.old) edges.now) }
{
    if program.counts() {
        count_out(edges, counts);
    }
    start_all(alloc, program, counts)
}

// Counts each edge at its source.
fn count_out(edges: &[Edge], counts: &mut [u64])
    requires within { IsWithinGraph (length counts.old) edges.now }
    requires zero { counts.old ≡ replicate (length counts.old) 0 }
    ensures { counts.new ≡ of_vertices (length counts.old) (λ v. out_degree edges.now v) }
{
    for edge in edges {
        let count = &mut counts[edge.src as usize];
        *count = plus(*count, 1);
    }
}

// The value of each vertex that has so many edges out of it.
fn start_all<P: VertexProgram>(
    alloc: Global,
    program: &P,
    counts: &[u64],
) -> Result<Vec<Value>, AllocError>
    requires { length counts.now ≤ 2 ^ 32 }
    ensures { IfOk result (λ values.
        values.items ≡ of_vertices (length counts.now)
        (λ v. (P.rules program.now).start v (slice_index counts.now v))) }
{
    let mut values = Vec::with_capacity(alloc, counts.len())?;
    for (vertex, &out) in counts.iter().enumerate() {
        values.push(program.start(vertex as u32, out))?;
    }
    Ok(values)
}
