/// The value of a vertex in a round. What the two numbers mean is the program's.
#[derive(Clone, Copy, PartialEq, Eq, Debug)]
pub struct Value {
    pub main: u64,
    pub side: u64,
}

/// A value that an edge sends to its destination.
#[derive(Clone, Copy, PartialEq, Eq, Debug)]
pub struct Update {
    pub dst: u32,
    pub value: u64,
}
