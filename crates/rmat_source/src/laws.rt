//! Laws of the made text. They stand on the contracts of functions that do nothing.
ghost use Rattle.std.specs.Prelude.{◌≡◌, ℕ, ◌^◌, ◌≤◌, Bool, Some};
ghost use Rattle.std.specs.List.{flat_map};
ghost use Rattle.graph_model.specs.declared.edge.TextFault.TheVariants.{BadLine};
ghost use Rattle.graph_model.specs.EdgeText.{directions, edges_of_text, refusal};
ghost use Rattle.rmat_source.specs.Edges.{rmat_edges};
ghost use Rattle.rmat_source.specs.Rmat.{rmat_text};

/// No line of a made text is malformed in a graph that has room for its vertices, wherever a limit cuts the text.
pub fn made_text_is_well_formed()
    ensures { (vertices limit scale edges rng line : ℕ) → 2 ^ scale ≤ vertices → ¬ (refusal vertices limit (rmat_text scale edges rng) ≡ Some (BadLine line)) }
{}

/// The edges of a made text are those drawn, in order, each in both directions where that is asked for.
pub fn made_text_has_the_edges_drawn()
    ensures { (vertices scale edges rng : ℕ) (both : Bool) → 2 ^ scale ≤ vertices → vertices ≤ 2 ^ 64 → edges_of_text vertices both (rmat_text scale edges rng) ≡ flat_map (directions both) (rmat_edges scale edges rng) }
{}
