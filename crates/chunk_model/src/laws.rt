//! Laws on chunks. Each stands on the contract of a function that does nothing.
ghost use Rattle.std.specs.Prelude.{◌≡◌, ℕ, ◌+◌, ◌*◌, ◌^◌, ◌<◌, ◌≤◌, List, ◌++◌, length};
ghost use Rattle.std.specs.List.{All};
ghost use Rattle.chunk_model.specs.Chunks.{Chunk, items_of, chunks, chunks_of_partition, items_in, IsChunkOf};
ghost use Rattle.chunk_model.specs.Layout.{Layout, IsLayout, edge_layout, update_layout};
ghost use Rattle.chunk_model.specs.ChunkBytes.{AreChunk, IsChunkAt, IsWritable, bytes_of_chunks, chunk_bytes, chunk_width};

/// The chunks of a list are each of one partition, with 1 to `size` items; those of a partition hold its items, in
/// order, and no other; and there are few: each full one uses up `size` items, and each partition has one more at most.
pub fn chunks_hold_items<X>()
    ensures each { (size : ℕ) (home : X → ℕ) (parts : ℕ) (items : List X) → 1 ≤ size → All (λ item. home item < parts) items
        → All (λ c. IsChunkOf size home c × (c.partition < parts)) (chunks size home parts items) }
    ensures held { (size : ℕ) (home : X → ℕ) (parts : ℕ) (items : List X) (p : ℕ) → 1 ≤ size → p < parts
        → items_in (chunks_of_partition p (chunks size home parts items)) ≡ items_of home p items }
    ensures few { (size : ℕ) (home : X → ℕ) (parts : ℕ) (items : List X) → 1 ≤ size → All (λ item. home item < parts) items
        → length (chunks size home parts items) * size ≤ length items + parts * size }
{}

/// What bytes say: edges and updates have layouts by the laws; a chunk that is written stands where the bytes ended,
/// whatever follows; at a place there is one well-formed chunk at most; and chunks one behind another are told by their
/// bytes.
pub fn bytes_tell_chunks<X>()
    ensures edges { (format : ℕ) → IsLayout (edge_layout format) }
    ensures updates { IsLayout update_layout }
    ensures written { (layout : Layout X) → IsLayout layout → (vertices span most partition : ℕ) (records : List X)
        → AreChunk layout vertices span most partition records → (bytes rest : List ℕ)
        → IsChunkAt layout vertices span most partition (length bytes) ((bytes ++ chunk_bytes layout partition records) ++ rest) records }
    ensures width { (layout : Layout X) → IsLayout layout → (partition : ℕ) (records : List X)
        → length (chunk_bytes layout partition records) ≡ chunk_width layout.width (length records) }
    ensures one { (layout : Layout X) → IsLayout layout → (vertices span most p q at : ℕ) → p < 2 ^ 32 → q < 2 ^ 32
        → (bytes : List ℕ) (records others : List X) → IsChunkAt layout vertices span most p at bytes records
        → IsChunkAt layout vertices span most q at bytes others → (p ≡ q) × (records ≡ others) }
    ensures all { (layout : Layout X) → IsLayout layout → (made others : List (Chunk X)) → All (IsWritable layout) made
        → All (IsWritable layout) others → bytes_of_chunks layout made ≡ bytes_of_chunks layout others → made ≡ others }
{}
