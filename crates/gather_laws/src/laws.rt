ghost use Rattle.std.specs.Prelude.{◌≡◌, ℕ, ◌≤◌, ◌-◌, ◌^◌, List, true, length, map, flat_map, All};
ghost use Rattle.std.specs.List.Sorted.{IsPermutation};
ghost use Rattle.graph_model.specs.declared.edge.Edge.{Edge};
ghost use Rattle.graph_model.specs.Rounds.{IsWithinGraph, merged, next_by_changed, values};
ghost use Rattle.gather_laws.specs.Laws.{HaveRoom, SplitsPlaces, items_at, merged_pieces};

use crate::VertexProgram;

/// The merge over a list of sums is the merge over its pieces.
///
/// By places: where the pieces together hold each place of the list once. By takes: where the list is itself cut into
/// chunks, and each chunk is taken once by some worker, in any order, and each worker merges what it took.
pub fn sums_of_pieces<P: VertexProgram>(program: &P)
    ensures by_places { (sums : List ℕ) (places : List (List ℕ)) →
        All (P.is_sum program.now) sums → SplitsPlaces (length sums) places →
        merged_pieces (P.rules program.now) (map (items_at sums) places) ≡ merged (P.rules program.now) sums }
    ensures by_takes { (chunks : List (List ℕ)) (taken : List (List (List ℕ))) →
        All (All (P.is_sum program.now)) chunks → IsPermutation chunks (flat_map (λ own. own) taken) →
        merged_pieces (P.rules program.now) (map (λ own. flat_map (λ chunk. chunk) own) taken)
        ≡ merged (P.rules program.now) (flat_map (λ chunk. chunk) chunks) }
{}

/// Where a program absorbs, the values of each round from 2 on are those that the vertices alone give whose value
/// changed in the round before: none of the others needs to send.
pub fn rounds_by_changed<P: VertexProgram>(program: &P)
    ensures { (vertices round : ℕ) (edges : List Edge) →
        (P.rules program.now).absorbs ≡ true → vertices ≤ 2 ^ 32 → IsWithinGraph vertices edges → 2 ≤ round →
        values (P.rules program.now) vertices edges round
        ≡ next_by_changed (P.rules program.now) vertices edges
        (values (P.rules program.now) vertices edges (round - 2))
        (values (P.rules program.now) vertices edges (round - 1)) }
{}

/// Both numbers of each value of each round have room in 64 bits.
pub fn values_have_room<P: VertexProgram>(program: &P)
    ensures { (vertices round : ℕ) (edges : List Edge) → vertices ≤ 2 ^ 32 → IsWithinGraph vertices edges → HaveRoom (values (P.rules program.now) vertices edges round) }
{}
