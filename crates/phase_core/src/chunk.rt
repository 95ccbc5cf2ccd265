//! A chunk that was put.

use graph_model::Update;

/// A chunk of updates and the cursor at which it was put.
#[derive(Drop)]
pub struct PutChunk {
    pub(crate) engine: u32,
    pub(crate) partition: u32,
    pub(crate) updates: Vec<Update>,
}
