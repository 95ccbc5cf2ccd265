// The values of a round, vertex by vertex.
ghost use Rattle.std.specs.Prelude.{◌≡◌, ◌+◌, ◌^◌, ◌<◌, ◌≤◌, if◌then◌else◌, length};
ghost use Rattle.std.specs.List.{range_with_len};
ghost use Rattle.gather_laws.specs.Laws.{HaveRoom};
ghost use Rattle.graph_model.specs.Rounds.{differs};
ghost use Rattle.checkpoint.specs.Applied.{start_each, next_each, changes};

use gather_laws::VertexProgram;
use graph_model::Value;

/// Makes the values of round 0 of the vertices from `first` on, with their counts of edges.
pub(crate) fn start_values<P: VertexProgram>(
    program: &P,
    first: u32,
    counts: &[u64],
    into: &mut [Value],
)
    requires same { length into.old ≡ length counts.now }
    requires few { first + length counts.now < 2 ^ 32 }
    ensures { into.new ≡ start_each (P.rules program.now) (range_with_len first (length counts.now)) counts.now }
{
    let counting = program.counts();
    for index in 0..counts.len() {
        into[index] = program.start(first + index as u32, counted(counting, counts[index]));
    }
}

/// A count, where the program uses it.
#[inline]
fn counted(counting: bool, count: u64) -> u64
    ensures { result ≡ (if counting then count else 0) }
{
    if counting { count } else { 0 }
}

/// Makes the next values, and answers how many differ from those before.
pub(crate) fn next_values<P: VertexProgram>(program: &P, sums: &[u64], values: &mut [Value]) -> u64
    requires { length values.old ≡ length sums.now }
    ensures values { values.new ≡ next_each (P.rules program.now) values.old sums.now }
    ensures changed { result ≡ changes values.old values.new }
    ensures few { result ≤ length sums.now }
    ensures fit { HaveRoom values.old }
{
    let mut changed = 0;
    for index in 0..sums.len() {
        let before = values[index];
        let next = program.next(before, sums[index]);
        values[index] = next;
        changed += u64::from(differs(before, next));
    }
    changed
}

/// Whether two values are not the same.
#[inline]
fn differs(a: Value, b: Value) -> bool
    ensures answer { result ≡ differs a b }
    ensures fits { (a.main < 2 ^ 64) × (a.side < 2 ^ 64) }
{
    !(a.main == b.main && a.side == b.side)
}
