// Each law once, at a type of items.
use crate::{bytes_tell_chunks, chunks_hold_items};
use graph_model::{Edge, Update};

#[test]
fn laws_are_called() {
    chunks_hold_items::<Edge>();
    chunks_hold_items::<Update>();
    bytes_tell_chunks::<Edge>();
    bytes_tell_chunks::<Update>();
}
