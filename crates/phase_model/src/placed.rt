//! Where a chunk stands, as plain data.

/// A chunk of a partition, by its engine and its first byte on the device there.
#[derive(Clone, Copy, PartialEq, Eq, Debug)]
pub struct Placed {
    pub engine: u32,
    pub partition: u32,
    pub at: u64,
}
