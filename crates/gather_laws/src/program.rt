ghost use Rattle.std.specs.Prelude.{◌≡◌, ℕ};
ghost use Rattle.graph_model.specs.Programs.{Rules};
ghost use Rattle.gather_laws.specs.Laws.{GatherLaws};

use crate::Value;

/// What is computed: the value of each vertex in round 0, what an edge sends, and the value of the next round.
///
/// Every call is total, takes no memory and saturates.
pub trait VertexProgram: Sync {
    // the rules that the calls follow
    ghost rules: { Self → Rules };

    // which numbers are sums: the laws speak of these
    ghost is_sum: { Self → ℕ → Type 0 };

    /// The value of a vertex with `out` edges out of it, in round 0.
    fn start(&self, vertex: u32, out: u64) -> Value
        ensures { result ≡ (rules self.now).start vertex out };

    /// What an edge of this weight sends from a vertex of this value, if it sends.
    fn send(&self, value: Value, weight: u64) -> Option<u64>
        ensures { result ≡ (rules self.now).send value weight };

    /// The sum of no updates.
    fn unit(&self) -> u64
        ensures { result ≡ (rules self.now).unit };

    /// Two sums as one.
    fn merge(&self, a: u64, b: u64) -> u64
        ensures { result ≡ (rules self.now).merge a b };

    /// A sum and one update more.
    fn fold(&self, sum: u64, update: u64) -> u64
        ensures { result ≡ (rules self.now).fold sum update };

    /// The value of the next round.
    fn next(&self, value: Value, sum: u64) -> Value
        ensures { result ≡ (rules self.now).next value sum };

    /// Whether `start` uses the number of edges.
    fn counts(&self) -> bool
        ensures { result ≡ (rules self.now).counts };

    /// The fixed number of rounds, if there is one.
    fn rounds(&self) -> Option<u64>
        ensures { result ≡ (rules self.now).rounds };

    /// Whether an update that was merged in the last round has no effect when it comes again.
    fn absorbs(&self) -> bool
        ensures { result ≡ (rules self.now).absorbs };

    ghost laws: { (program : Self) → GatherLaws (rules program) (is_sum program) };
}
