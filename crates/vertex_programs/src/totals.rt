//! The programs that add what reached a vertex.
ghost use Rattle.std.specs.Prelude.{◌≡◌, ◌+◌, ◌*◌, ◌/◌};
ghost use Rattle.graph_model.specs.Programs.{degrees, pagerank};
ghost use Rattle.gather_laws.specs.Laws.{IsCapped};
ghost use Rattle.vertex_programs.specs.TotalLaws.{degrees_laws, pagerank_laws};

use gather_laws::{Value, VertexProgram, plus};

/// The numbers of edges into and out of a vertex, as main and side.
#[derive(Clone, Copy, PartialEq, Eq, Debug)]
pub struct Degrees;

/// PageRank in whole numbers, in millionths, with so many rounds and a damping of 85 in 100.
#[derive(Clone, Copy, PartialEq, Eq, Debug)]
pub struct PageRank {
    pub rounds: u32,
}

impl VertexProgram for Degrees {
    ghost rules = { λ program. degrees };

    ghost is_sum = { λ program. IsCapped };

    ghost laws = { λ program. degrees_laws };

    #[inline]
    fn start(&self, _vertex: u32, out: u64) -> Value {
        Value { main: 0, side: out }
    }

    #[inline]
    fn send(&self, _value: Value, _weight: u64) -> Option<u64> {
        Some(1)
    }

    #[inline]
    fn unit(&self) -> u64 {
        0
    }

    #[inline]
    fn merge(&self, a: u64, b: u64) -> u64 {
        plus(a, b)
    }

    #[inline]
    fn fold(&self, sum: u64, update: u64) -> u64 {
        plus(sum, update)
    }

    #[inline]
    fn next(&self, value: Value, sum: u64) -> Value {
        Value { main: sum, ..value }
    }

    #[inline]
    fn counts(&self) -> bool {
        true
    }

    #[inline]
    fn rounds(&self) -> Option<u64> {
        Some(1)
    }

    #[inline]
    fn absorbs(&self) -> bool {
        false
    }
}

impl VertexProgram for PageRank {
    ghost rules = { λ program. pagerank program.rounds };

    ghost is_sum = { λ program. IsCapped };

    ghost laws = { λ program. pagerank_laws program.rounds };

    #[inline]
    fn start(&self, _vertex: u32, out: u64) -> Value {
        Value {
            main: 1_000_000,
            side: out,
        }
    }

    #[inline]
    fn send(&self, value: Value, _weight: u64) -> Option<u64> {
        if value.side == 0 {
            None
        } else {
            Some(value.main / value.side)
        }
    }

    #[inline]
    fn unit(&self) -> u64 {
        0
    }

    #[inline]
    fn merge(&self, a: u64, b: u64) -> u64 {
        plus(a, b)
    }

    #[inline]
    fn fold(&self, sum: u64, update: u64) -> u64 {
        plus(sum, update)
    }

    #[inline]
    fn next(&self, value: Value, sum: u64) -> Value {
        Value {
            main: 150_000 + damped(sum),
            ..value
        }
    }

    #[inline]
    fn counts(&self) -> bool {
        true
    }

    #[inline]
    fn rounds(&self) -> Option<u64> {
        Some(u64::from(self.rounds))
    }

    #[inline]
    fn absorbs(&self) -> bool {
        false
    }
}

// 85 in 100, without the product of all of `sum`, which need not fit.
#[inline]
fn damped(sum: u64) -> u64
    ensures { result ≡ 85 * sum / 100 }
{
    sum / 20 * 17 + sum % 20 * 17 / 20
}
