//! Records, as they stand on a device.
ghost use Rattle.std.specs.Prelude.{◌≡◌, ℕ, ◌+◌, ◌≤◌, true, length};
ghost use Rattle.std.specs.Int.{from_be_bytes, w32, w64};
ghost use Rattle.ports.specs.Bytes.{bytes_at};
ghost use Rattle.chunk_model.specs.Layout.{Layout, IsLayout, edge_layout, update_layout};
ghost use Rattle.chunk_model.proofs.LayoutLaws.{edge_layout_is, update_layout_is};

use graph_model::{Edge, MAX_WEIGHT, Update};

/// A record that chunks are made of. Format is 1 or 2; any other number counts as 2.
pub trait Record: Copy {
    /// How records are written in a format.
    ghost layout: { ℕ → Layout Self };

    /// The bytes of a record.
    fn width(format: u32) -> usize
        ensures { result ≡ (layout format).width };

    /// Writes the record. Its numbers have room in the format: in format 1 an edge's weight is below 2^32.
    fn put(&self, format: u32, into: &mut [u8])
        requires width { length into.old ≡ (layout format).width }
        requires room { (layout format).holds self.now ≡ true }
        ensures { into.new ≡ (layout format).bytes self.now };

    /// The record that these bytes say.
    fn get(format: u32, from: &[u8]) -> Self
        requires { length from.now ≡ (layout format).width }
        ensures { result ≡ (layout format).read from.now };

    /// The vertex whose partition the record is in.
    fn home(&self) -> u32
        ensures { (format : ℕ) → result ≡ (layout format).home self.now };

    /// Whether its vertices are below `vertices` and its other numbers in their ranges.
    fn fits(&self, vertices: u32) -> bool
        ensures { (format : ℕ) → result ≡ (layout format).fits vertices self.now };

    ghost lawful: { (format : ℕ) → IsLayout (layout format) };
}

impl Record for Edge {
    ghost layout = { edge_layout };

    ghost lawful = { edge_layout_is };

    fn width(format: u32) -> usize {
        if format == 1 { 12 } else { 16 }
    }

    #[tactic(auto, unfolding(chunk_model::specs::Layout::edge_bytes))]
    fn put(&self, format: u32, into: &mut [u8]) {
        into[..4].copy_from_slice(&self.src.to_be_bytes());
        into[4..8].copy_from_slice(&self.dst.to_be_bytes());
        if format == 1 {
            into[8..].copy_from_slice(&(self.weight as u32).to_be_bytes());
        } else {
            into[8..].copy_from_slice(&self.weight.to_be_bytes());
        }
    }

    #[tactic(auto, unfolding(chunk_model::specs::Layout::edge_of))]
    fn get(format: u32, from: &[u8]) -> Edge {
        Edge {
            src: u32_at(from, 0),
            dst: u32_at(from, 4),
            weight: if format == 1 {
                u64::from(u32_at(from, 8))
            } else {
                u64_at(from, 8)
            },
        }
    }

    fn home(&self) -> u32 {
        self.src
    }

    fn fits(&self, vertices: u32) -> bool {
        self.src < vertices && self.dst < vertices && self.weight <= MAX_WEIGHT
    }
}

impl Record for Update {
    ghost layout = { λ format. update_layout };

    ghost lawful = { λ format. update_layout_is };

    fn width(_: u32) -> usize {
        12
    }

    #[tactic(auto, unfolding(chunk_model::specs::Layout::update_bytes))]
    fn put(&self, _: u32, into: &mut [u8]) {
        into[..4].copy_from_slice(&self.dst.to_be_bytes());
        into[4..].copy_from_slice(&self.value.to_be_bytes());
    }

    #[tactic(auto, unfolding(chunk_model::specs::Layout::update_of))]
    fn get(_: u32, from: &[u8]) -> Update {
        Update {
            dst: u32_at(from, 0),
            value: u64_at(from, 4),
        }
    }

    fn home(&self) -> u32 {
        self.dst
    }

    fn fits(&self, vertices: u32) -> bool {
        self.dst < vertices
    }
}

/// The number in the four bytes from `at` on.
pub(crate) fn u32_at(bytes: &[u8], at: usize) -> u32
    requires { at + 4 ≤ length bytes.now }
    ensures { result ≡ from_be_bytes w32 (bytes_at at 4 bytes.now) }
{
    u32::from_be_bytes([bytes[at], bytes[at + 1], bytes[at + 2], bytes[at + 3]])
}

/// The number in the eight bytes from `at` on.
fn u64_at(bytes: &[u8], at: usize) -> u64
    requires { at + 8 ≤ length bytes.now }
    ensures { result ≡ from_be_bytes w64 (bytes_at at 8 bytes.now) }
{
    u64::from_be_bytes([
        bytes[at],
        bytes[at + 1],
        bytes[at + 2],
        bytes[at + 3],
        bytes[at + 4],
        bytes[at + 5],
        bytes[at + 6],
        bytes[at + 7],
    ])
}
