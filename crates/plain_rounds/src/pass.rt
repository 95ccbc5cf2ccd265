//! One round: a pass over the edges and a pass over the vertices.
ghost use Rattle.std.specs.Prelude.{◌≡◌, ◌≢◌, length, replicate, slice_index, MatchBool};
ghost use Rattle.graph_model.specs.Rounds.{IsWithinGraph, merged, next_values, of_vertices, sent_to, value_at};

use gather_laws::{Value, VertexProgram};
use graph_model::Edge;

/// The values of the next round, and whether one of them is another than before.
///
/// `sums` has the unit for each vertex, before and after.
pub(crate) fn next_round<P: VertexProgram>(
    program: &P,
    edges: &[Edge],
    values: &mut [Value],
    sums: &mut [u64],
) -> bool
    requires within { IsWithinGraph (length values.old) edges.now }
    requires units { sums.old ≡ replicate (length values.old) (P.rules program.now).unit }
    ensures after { values.new ≡ next_values (P.rules program.now) (length values.old) edges.now values.old }
    ensures units { sums.new ≡ replicate (length values.old) (P.rules program.now).unit }
    ensures changed { MatchBool result (values.new ≢ values.old) (values.new ≡ values.old) }
{
    gather(program, edges, values, sums);
    apply(program, values, sums)
}

// Merges what each edge sends into the sum of its destination.
fn gather<P: VertexProgram>(program: &P, edges: &[Edge], values: &[Value], sums: &mut [u64])
    requires within { IsWithinGraph (length values.now) edges.now }
    requires units { sums.old ≡ replicate (length values.now) (P.rules program.now).unit }
    ensures { sums.new ≡ of_vertices (length values.now)
        (λ v. merged (P.rules program.now) (sent_to (P.rules program.now) edges.now values.now v)) }
{
    for edge in edges {
        let value = values[edge.src as usize];
        if let Some(update) = program.send(value, edge.weight) {
            let sum = &mut sums[edge.dst as usize];
            *sum = program.merge(*sum, update);
        }
    }
}

// Makes the next value of each vertex from its sum, and puts the unit in the sum's place.
fn apply<P: VertexProgram>(program: &P, values: &mut [Value], sums: &mut [u64]) -> bool
    requires { length sums.old ≡ length values.old }
    ensures after { values.new ≡ of_vertices (length values.old)
        (λ v. (P.rules program.now).next (value_at values.old v) (slice_index sums.old v)) }
    ensures units { sums.new ≡ replicate (length values.old) (P.rules program.now).unit }
    ensures changed { MatchBool result (values.new ≢ values.old) (values.new ≡ values.old) }
{
    let mut changed = false;
    for (vertex, value) in values.iter_mut().enumerate() {
        let sum = &mut sums[vertex];
        let next = program.next(*value, *sum);
        changed |= next != *value;
        *value = next;
        *sum = program.unit();
    }
    changed
}
