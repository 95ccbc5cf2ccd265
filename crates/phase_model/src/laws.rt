//! Laws on what is sent and counted. Each stands on the contract of a function that does nothing.
ghost use Rattle.std.specs.Prelude.{◌≡◌, ℕ, List, Some, None};
ghost use Rattle.graph_model.specs.declared.edge.Edge.{Edge};
ghost use Rattle.graph_model.specs.declared.value.Value.{Value};
ghost use Rattle.graph_model.specs.Programs.{Rules, plus};
ghost use Rattle.graph_model.specs.Rounds.{sent_to, sent_by_changed, out_degree};
ghost use Rattle.phase_model.specs.Sends.{sent_by, sending_of};
ghost use Rattle.phase_model.specs.Sums.{values_to, sum_at, counts_of};

/// What edges send to a vertex is what the rounds say: of all edges, or of those alone whose source has changed.
pub fn sends_are_those_of_rounds()
    ensures all { (p : Rules) (now : List Value) (edges : List Edge) (vertex : ℕ) → values_to vertex (sent_by (sending_of p None now) edges) ≡ sent_to p edges now vertex }
    ensures changed { (p : Rules) (before now : List Value) (edges : List Edge) (vertex : ℕ) → values_to vertex (sent_by (sending_of p (Some before) now) edges) ≡ sent_by_changed p edges before now vertex }
{}

/// The capped sum of 1 for each edge at its source is the number of edges out of a vertex, as rounds count it.
pub fn counts_are_degrees()
    ensures { (edges : List Edge) (vertex : ℕ) → sum_at plus 0 (counts_of edges) vertex ≡ out_degree edges vertex }
{}
