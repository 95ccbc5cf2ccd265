//! The programs that keep the least number which reached a vertex.
ghost use Rattle.std.specs.Prelude.{◌≡◌};
ghost use Rattle.graph_model.specs.Programs.{bfs, from_root as value_from_root, keep_least as kept_least, labels, send_further as sent_further, sssp};
ghost use Rattle.gather_laws.specs.Laws.{IsCappedOrNone};
ghost use Rattle.vertex_programs.specs.LeastLaws.{bfs_laws, labels_laws, sssp_laws};

use gather_laws::{NONE, Value, VertexProgram, plus};

/// Breadth-first levels: the least number of edges on a way from the root.
#[derive(Clone, Copy, PartialEq, Eq, Debug)]
pub struct Bfs {
    pub root: u32,
}

/// The least id among the vertices that are connected with a vertex, where each edge is given in both directions.
#[derive(Clone, Copy, PartialEq, Eq, Debug)]
pub struct Labels;

/// Shortest distances: the least total weight of a way from the root.
#[derive(Clone, Copy, PartialEq, Eq, Debug)]
pub struct Sssp {
    pub root: u32,
}

impl VertexProgram for Bfs {
    ghost rules = { λ program. bfs program.root };

    ghost is_sum = { λ program. IsCappedOrNone };

    ghost laws = { λ program. bfs_laws program.root };

    #[inline]
    fn start(&self, vertex: u32, _out: u64) -> Value {
        from_root(self.root, vertex)
    }

    #[inline]
    fn send(&self, value: Value, _weight: u64) -> Option<u64> {
        send_further(value, 1)
    }

    #[inline]
    fn unit(&self) -> u64 {
        NONE
    }

    #[inline]
    fn merge(&self, a: u64, b: u64) -> u64 {
        a.min(b)
    }

    #[inline]
    fn fold(&self, sum: u64, update: u64) -> u64 {
        sum.min(update)
    }

    #[inline]
    fn next(&self, value: Value, sum: u64) -> Value {
        keep_least(value, sum)
    }

    #[inline]
    fn counts(&self) -> bool {
        false
    }

    #[inline]
    fn rounds(&self) -> Option<u64> {
        None
    }

    #[inline]
    fn absorbs(&self) -> bool {
        true
    }
}

impl VertexProgram for Labels {
    ghost rules = { λ program. labels };

    ghost is_sum = { λ program. IsCappedOrNone };

    ghost laws = { λ program. labels_laws };

    #[inline]
    fn start(&self, vertex: u32, _out: u64) -> Value {
        Value {
            main: u64::from(vertex),
            side: 0,
        }
    }

    #[inline]
    fn send(&self, value: Value, _weight: u64) -> Option<u64> {
        Some(value.main)
    }

    #[inline]
    fn unit(&self) -> u64 {
        NONE
    }

    #[inline]
    fn merge(&self, a: u64, b: u64) -> u64 {
        a.min(b)
    }

    #[inline]
    fn fold(&self, sum: u64, update: u64) -> u64 {
        sum.min(update)
    }

    #[inline]
    fn next(&self, value: Value, sum: u64) -> Value {
        keep_least(value, sum)
    }

    #[inline]
    fn counts(&self) -> bool {
        false
    }

    #[inline]
    fn rounds(&self) -> Option<u64> {
        None
    }

    #[inline]
    fn absorbs(&self) -> bool {
        true
    }
}

impl VertexProgram for Sssp {
    ghost rules = { λ program. sssp program.root };

    ghost is_sum = { λ program. IsCappedOrNone };

    ghost laws = { λ program. sssp_laws program.root };

    #[inline]
    fn start(&self, vertex: u32, _out: u64) -> Value {
        from_root(self.root, vertex)
    }

    #[inline]
    fn send(&self, value: Value, weight: u64) -> Option<u64> {
        send_further(value, weight)
    }

    #[inline]
    fn unit(&self) -> u64 {
        NONE
    }

    #[inline]
    fn merge(&self, a: u64, b: u64) -> u64 {
        a.min(b)
    }

    #[inline]
    fn fold(&self, sum: u64, update: u64) -> u64 {
        sum.min(update)
    }

    #[inline]
    fn next(&self, value: Value, sum: u64) -> Value {
        keep_least(value, sum)
    }

    #[inline]
    fn counts(&self) -> bool {
        false
    }

    #[inline]
    fn rounds(&self) -> Option<u64> {
        None
    }

    #[inline]
    fn absorbs(&self) -> bool {
        true
    }
}

// Nothing is reached in round 0 but the root.
#[inline]
fn from_root(root: u32, vertex: u32) -> Value
    ensures { result ≡ value_from_root root vertex 0 }
{
    Value {
        main: if vertex == root { 0 } else { NONE },
        side: 0,
    }
}

// What was reached sends its number and a step.
#[inline]
fn send_further(value: Value, step: u64) -> Option<u64>
    ensures { result ≡ sent_further value step }
{
    if value.main == NONE {
        None
    } else {
        Some(plus(value.main, step))
    }
}

#[inline]
fn keep_least(value: Value, sum: u64) -> Value
    ensures { result ≡ kept_least value sum }
{
    Value {
        main: value.main.min(sum),
        ..value
    }
}
