//! One chunk of edges, on the device where it is placed.
ghost use Rattle.std.specs.Prelude.{◌≡◌, ◌≢◌, ◌<◌, ◌≤◌, ◌∷◌, [], ◌++◌, List, length, true, Err, OnOk, IfErr};
ghost use Rattle.std.specs.List.{All};
ghost use Rattle.graph_model.specs.declared.edge.Edge.{Edge};
ghost use Rattle.graph_model.specs.Jobs.{IsWellFormedJob};
ghost use Rattle.chunk_model.specs.Chunks.{Chunk};
ghost use Rattle.chunk_model.specs.Layout.{edge_width, holds_edge};
ghost use Rattle.chunk_model.specs.ChunkBytes.{chunk_width};
ghost use Rattle.chunk_file.specs.declared.index.TheConstants.{MOST_PLACES};
ghost use Rattle.chunk_file.specs.Places.{total_of};
ghost use Rattle.ports.specs.Devices.{Each, OneRose, NoneRose};
ghost use Rattle.storage_engine.specs.Making.{HasMade, HasMakeCause, chunk_with};
ghost use Rattle.storage_engine.specs.Steps.{Step, IsClosedFront};

use crate::fault::MakeFault;
use chunk_file::{Index, Place, append_chunk};
use graph_model::{Edge, Job};
use ports::{Beat, Disk};
use seeded_place::Placer;

/// Writes the next chunk of a job to the graph device where it is placed, and its place to the index. `bytes` is where
/// the chunk is made.
pub(crate) fn write_chunk<D: Disk>(
    job: &Job,
    graphs: &mut [D],
    placer: &mut Placer,
    index: &mut Index,
    partition: u32,
    edges: &[Edge],
    bytes: &mut [u8],
    beat: &Beat,
) -> Result<(), MakeFault>
    requires job { IsWellFormedJob job.now }
    requires made { (made : List (Chunk Edge)) × HasMade D.state job.now made placer.old index.old graphs.old }
    requires room_for_one { total_of index.old < MOST_PLACES }
    requires partition { partition < 64 }
    requires some { 0 < length edges.now }
    requires few { length edges.now ≤ job.now.chunk }
    requires held { All (λ edge. holds_edge job.now.format edge ≡ true) edges.now }
    requires room { chunk_width (edge_width job.now.format) (length edges.now) ≤ length bytes.old }
    requires beats { All (λ disk. (D.state disk).beat ≤ beat.now) graphs.old }
    ensures steps { Each D.state (Step IsClosedFront beat.now) graphs.old graphs.new }
    ensures made { (made : List (Chunk Edge)) → HasMade D.state job.now made placer.old index.old graphs.old
        → OnOk result (HasMade D.state job.now (made ++ chunk_with partition edges.now ∷ []) placer.new index.new graphs.new) }
    ensures room { length bytes.new ≡ length bytes.old }
    ensures cause { IfErr result (HasMakeCause (OneRose D.state graphs.old graphs.new)) }
    ensures calm { result ≢ Err MakeFault.DiskFault → NoneRose D.state graphs.old graphs.new }
{
    let engine = placer.next();
    let at = append_chunk(
        &mut graphs[engine as usize],
        partition,
        edges,
        bytes,
        beat,
        job.format,
    )?;
    index.add(engine, partition, Place { lane: 0, at })?;
    Ok(())
}
