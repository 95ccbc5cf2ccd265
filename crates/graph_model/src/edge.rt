use thiserror::Error;

/// The greatest weight of an edge.
pub const MAX_WEIGHT: u64 = 1_099_511_627_775;

/// A directed edge. Vertices are numbered from 0; a weight is 0 to `MAX_WEIGHT`.
#[derive(Clone, Copy, PartialEq, Eq, Debug)]
pub struct Edge {
    pub src: u32,
    pub dst: u32,
    pub weight: u64,
}

/// What one whole line of an edge text says.
#[derive(Clone, Copy, PartialEq, Eq, Debug)]
pub enum Meaning {
    /// A blank line or a comment.
    Nothing,
    One(Edge),
    Malformed,
}

/// Why an edge text was refused.
#[derive(Clone, Copy, PartialEq, Eq, Debug, Error)]
pub enum TextFault {
    /// The line of this number, from 1, is the first malformed one.
    #[error("line {0} is malformed")]
    BadLine(u64),
    /// The text goes on past its limit.
    #[error("the text is longer than its limit")]
    TooLong,
    /// No memory was left for the edges.
    #[error("out of memory")]
    Memory,
}
