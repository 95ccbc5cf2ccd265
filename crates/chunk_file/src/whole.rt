//! All chunks of a graph device.
ghost use Rattle.std.specs.Prelude.{◌≡◌, ◌≢◌, ℕ, ◌+◌, ◌<◌, ◌≤◌, [], List, length, IfOk, IfErr, IfSome, OnOk, Err, ⊤};
ghost use Rattle.std.specs.Int.{IsInRange};
ghost use Rattle.ports.specs.Faults.{Rose};
ghost use Rattle.partitioner.specs.Splits.{IsSplit};
ghost use Rattle.chunk_model.specs.Layout.{edge_layout};
ghost use Rattle.chunk_model.specs.ChunkBytes.{chunk_width};
ghost use Rattle.chunk_file.specs.Places.{total_of};
ghost use Rattle.chunk_file.specs.Causes.{HasChunkCause};
ghost use Rattle.chunk_file.specs.Scans.{Scanned, StopsAt, IsNext, NoEdgeChunk};

use crate::chunk::{HEAD_SIZE, get_chunk};
use crate::read::read_bytes;
use crate::record::u32_at;
use crate::{ChunkFault, Index, MOST_PLACES, Place, Record};
use graph_model::Edge;
use partitioner::Split;
use ports::{Disk, Memory};
use std::alloc::Global;

/// Where the chunks of a graph device begin, behind its head.
pub const FIRST_CHUNK: u64 = 65;

/// Adds to `into` the place of each chunk of an engine's graph device, in order of bytes, from byte `FIRST_CHUNK` to
/// the device's end. A chunk has 1 to `chunk` edges. `Damaged` names the first byte of the first chunk that is none, or
/// that is met when the index has all places that it may have. The chunks before a fault have their places.
pub fn scan<D: Disk>(
    alloc: Global,
    disk: &D,
    meter: &mut D::M,
    engine: u32,
    split: &Split,
    chunk: u32,
    into: &mut Index,
    format: u32,
) -> Result<(), ChunkFault>
    requires engine { engine < 8 }
    requires split { IsSplit split.now }
    requires chunk { IsInRange 1 65536 chunk }
    requires few { total_of into.old ≤ MOST_PLACES }
    // Whether or not the device tells its bytes.
    ensures few { total_of into.new ≤ MOST_PLACES }
    // Where it tells them.
    ensures all { OnOk result (IfSome (D.state disk.now).bytes (λ told. Scanned format split.now chunk engine told into.old into.new [])) }
    ensures front { IfSome (D.state disk.now).bytes (λ told. (rest : List ℕ) × Scanned format split.now chunk engine told into.old into.new rest) }
    ensures later { D.M.faults meter.old ≤ D.M.faults meter.new }
    ensures calm { result ≢ Err ChunkFault.DiskFault → D.M.faults meter.new ≡ D.M.faults meter.old }
    ensures cause { IfErr result (HasChunkCause (Rose (D.M.faults meter.old) (D.M.faults meter.new))
        (λ at. IfSome (D.state disk.now).bytes (StopsAt format split.now chunk engine into.old into.new at)) ⊤) }
{
    let mut bytes = room_for_bytes(alloc, HEAD_SIZE + Edge::width(format) * chunk as usize)?;
    let mut edges = room_for_edges(alloc, chunk)?;
    scan_chunks(
        disk, meter, engine, split, &mut bytes, &mut edges, into, format,
    )
}

/// A buffer of bytes.
pub(crate) fn room_for_bytes(alloc: Global, count: usize) -> Result<Vec<u8>, Memory>
    ensures { IfOk result (λ bytes. length bytes.items ≡ count) }
{
    Ok(vec![in alloc; 0; count]?)
}

/// A buffer of edges.
pub(crate) fn room_for_edges(alloc: Global, count: u32) -> Result<Vec<Edge>, Memory>
    ensures { IfOk result (λ edges. length edges.items ≡ count) }
{
    let edge = Edge {
        src: 0,
        dst: 0,
        weight: 0,
    };
    Ok(vec![in alloc; edge; count as usize]?)
}

/// `scan` with its buffers: `edges` has room for the edges of a chunk, and `bytes` for its bytes.
fn scan_chunks<D: Disk>(
    disk: &D,
    meter: &mut D::M,
    engine: u32,
    split: &Split,
    bytes: &mut [u8],
    edges: &mut [Edge],
    into: &mut Index,
    format: u32,
) -> Result<(), ChunkFault>
    requires engine { engine < 8 }
    requires split { IsSplit split.now }
    requires chunk { IsInRange 1 65536 (length edges.old) }
    requires room { chunk_width (edge_layout format).width (length edges.old) ≤ length bytes.old }
    requires few { total_of into.old ≤ MOST_PLACES }
    ensures few { total_of into.new ≤ MOST_PLACES }
    ensures all { OnOk result (IfSome (D.state disk.now).bytes (λ told. Scanned format split.now (length edges.old) engine told into.old into.new [])) }
    ensures front { IfSome (D.state disk.now).bytes (λ told. (rest : List ℕ) × Scanned format split.now (length edges.old) engine told into.old into.new rest) }
    ensures later { D.M.faults meter.old ≤ D.M.faults meter.new }
    ensures calm { result ≢ Err ChunkFault.DiskFault → D.M.faults meter.new ≡ D.M.faults meter.old }
    ensures cause { IfErr result (HasChunkCause (Rose (D.M.faults meter.old) (D.M.faults meter.new))
        (λ at. IfSome (D.state disk.now).bytes (StopsAt format split.now (length edges.old) engine into.old into.new at)) ⊤) }
{
    let size = disk.size();
    let mut at = FIRST_CHUNK;
    'chunks: while at < size {
        let found = match next_chunk(disk, meter, at, split, bytes, edges, format) {
            Ok(found) => found,
            Err(fault) => return Err(fault),
        };
        if into.total() >= MOST_PLACES {
            return Err(ChunkFault::Damaged(at));
        }
        into.add(engine, found.partition, Place { lane: 0, at })?;
        at += found.size;
    }
    Ok(())
}

/// A chunk that was found: its partition and the number of its bytes.
#[derive(Clone, Copy)]
struct Found {
    partition: u32,
    size: u64,
}

/// The chunk that stands at byte `at`, read by one call of the device.
fn next_chunk<D: Disk>(
    disk: &D,
    meter: &mut D::M,
    at: u64,
    split: &Split,
    bytes: &mut [u8],
    edges: &mut [Edge],
    format: u32,
) -> Result<Found, ChunkFault>
    requires split { IsSplit split.now }
    requires chunk { IsInRange 1 65536 (length edges.old) }
    requires room { chunk_width (edge_layout format).width (length edges.old) ≤ length bytes.old }
    ensures partition { IfOk result (λ found. found.partition < split.now.parts) }
    ensures some { IfOk result (λ found. 0 < found.size) }
    ensures fits { IfOk result (λ found. at + found.size ≤ (D.state disk.now).size) }
    ensures found { IfOk result (λ found. IfSome (D.state disk.now).bytes (λ told.
        IsNext format split.now (length edges.old) at told found.partition found.size)) }
    ensures later { D.M.faults meter.old ≤ D.M.faults meter.new }
    ensures calm { result ≢ Err ChunkFault.DiskFault → D.M.faults meter.new ≡ D.M.faults meter.old }
    ensures cause { IfErr result (HasChunkCause (Rose (D.M.faults meter.old) (D.M.faults meter.new))
        (λ place. (place ≡ at) × IfSome (D.state disk.now).bytes (NoEdgeChunk format split.now (length edges.old) at)) ⊥) }
{
    let room = read_bytes(disk, meter, at, bytes)?;
    let front = &bytes[..room];
    if room < HEAD_SIZE {
        return Err(ChunkFault::Damaged(at));
    }
    let partition = u32_at(front, 0);
    if partition >= split.parts {
        return Err(ChunkFault::Damaged(at));
    }
    match get_chunk(front, partition, split, edges, format) {
        Some(count) => Ok(Found {
            partition,
            size: (HEAD_SIZE + Edge::width(format) * count as usize) as u64,
        }),
        None => Err(ChunkFault::Damaged(at)),
    }
}
