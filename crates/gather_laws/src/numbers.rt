ghost use Rattle.std.specs.Prelude.{◌≡◌};
ghost use Rattle.graph_model.specs.Programs.{plus as capped_sum};

/// A number that was not reached.
pub const NONE: u64 = u64::MAX;

/// No sum is greater, but `NONE` where a program keeps the least number.
pub const CAP: u64 = 1 << 60;

/// The sum of two numbers, but no more than `CAP`.
#[inline]
pub fn plus(a: u64, b: u64) -> u64
    ensures { result ≡ capped_sum a b }
{
    a.saturating_add(b).min(CAP)
}
