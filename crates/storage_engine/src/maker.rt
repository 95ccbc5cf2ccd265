//! A store, while its edges are given to it one by one.
ghost use Rattle.std.specs.Prelude.{◌≡◌, ◌≢◌, ℕ, ◌+◌, ◌*◌, ◌<◌, ◌≤◌, ◌∷◌, [], ◌++◌, List, length, true, replicate, slice_index_or, slice_set, Err, IfOk, OnOk, IfErr};
ghost use Rattle.std.specs.List.{All};
ghost use Rattle.graph_model.specs.declared.edge.Edge.{Edge};
ghost use Rattle.graph_model.specs.Jobs.{IsWellFormedJob, span_of, parts_of};
ghost use Rattle.chunk_model.specs.Chunks.{Chunk};
ghost use Rattle.chunk_model.specs.Layout.{holds_edge};
ghost use Rattle.chunk_file.specs.declared.index.TheConstants.{MOST_PLACES};
ghost use Rattle.chunk_file.specs.Places.{total_of};
ghost use Rattle.store_model.specs.Graphs.{edge_chunks};
ghost use Rattle.ports.specs.Devices.{Each, OneRose, NoneRose};
ghost use Rattle.storage_engine.specs.Making.{HasHead, HasMade, HasMakeCause, IsFlushed, IsMaking, HasRoomFor, chunk_with};
ghost use Rattle.storage_engine.specs.Steps.{Step, IsClosedFront};
ghost use Rattle.storage_engine.specs.Waiting.{waiting, no_edges};

use crate::each_device::sync_all;
use crate::fault::MakeFault;
use crate::waiting::Buffers;
use crate::writing::write_chunk;
use chunk_file::Index;
use graph_model::{Edge, Job};
use ports::{Beat, Disk, Memory};
use seeded_place::Placer;
use std::alloc::Global;

/// Takes the edges of a job, and writes each chunk that they fill. Its graph devices are handed to each call.
#[derive(Drop)]
pub(crate) struct Maker {
    pub(crate) job: Job,
    /// Vertices of each partition but the last ones.
    span: u32,
    buffers: Buffers,
    /// Where a chunk is made.
    bytes: Vec<u8>,
    placer: Placer,
    index: Index,
    ghost span_is: { span ≡ span_of job },
    ghost room: { 8 + 16 * job.chunk ≤ length bytes.items },
}

impl Maker {
    /// A maker for a job whose graph devices have their heads and no chunk. It has so many partitions, of `span` vertices.
    pub(crate) fn new<D: Disk>(
        alloc: Global,
        job: &Job,
        parts: u32,
        span: u32,
        graphs: &[D],
    ) -> Result<Self, Memory>
        requires job { IsWellFormedJob job.now }
        requires split { (parts ≡ parts_of job.now) × (span ≡ span_of job.now) }
        requires graphs { length graphs.now ≡ job.now.engines }
        requires heads { (e : ℕ) (d : _) → e < length graphs.now → HasHead job.now e (D.state (slice_index_or graphs.now e d)) }
        ensures job { IfOk result (λ maker. maker.job ≡ job.now) }
        ensures making { IfOk result (λ maker. IsMaking D.state job.now [] maker.buffers maker.placer maker.index graphs.now) }
    {
        let _graphs = graphs;
        Ok(Maker {
            job: *job,
            span,
            buffers: Buffers::new(alloc, parts)?,
            bytes: zero_bytes(alloc, 8 + 16 * job.chunk as usize)?,
            placer: Placer::new(job.seed, 0, job.engines),
            index: Index::new(alloc)?,
        })
    }

    /// All of these edges, in order.
    pub(crate) fn add_all<D: Disk>(
        &mut self,
        graphs: &mut [D],
        edges: &[Edge],
        beat: &Beat,
    ) -> Result<(), MakeFault>
        requires job { IsWellFormedJob self.old.job }
        requires format { self.old.job.format ≡ 2 }
        requires making { HasRoomFor D.state self.old.job self.old.buffers self.old.placer self.old.index graphs.old edges.now }
        requires sources { All (λ edge. edge.src < self.old.job.vertices) edges.now }
        requires beats { All (λ disk. (D.state disk).beat ≤ beat.now) graphs.old }
        ensures job { self.new.job ≡ self.old.job }
        ensures steps { Each D.state (Step IsClosedFront beat.now) graphs.old graphs.new }
        ensures making { (before : List Edge) → IsMaking D.state self.old.job before self.old.buffers self.old.placer self.old.index graphs.old
            → OnOk result (IsMaking D.state self.old.job (before ++ edges.now) self.new.buffers self.new.placer self.new.index graphs.new) }
        ensures rose { IfErr result (λ fault. fault ≡ MakeFault.DiskFault → OneRose D.state graphs.old graphs.new) }
        ensures calm { result ≢ Err MakeFault.DiskFault → NoneRose D.state graphs.old graphs.new }
    {
        for k in 0..edges.len() {
            let edge = edges[k];
            has_room(edge);
            if let Err(fault) = self.add(graphs, edge, beat) {
                return Err(fault);
            }
        }
        Ok(())
    }

    /// One edge more, behind those that were given before.
    pub(crate) fn add<D: Disk>(
        &mut self,
        graphs: &mut [D],
        edge: Edge,
        beat: &Beat,
    ) -> Result<(), MakeFault>
        requires job { IsWellFormedJob self.old.job }
        requires making { HasRoomFor D.state self.old.job self.old.buffers self.old.placer self.old.index graphs.old (edge ∷ []) }
        requires source { edge.src < self.old.job.vertices }
        requires held { holds_edge self.old.job.format edge ≡ true }
        requires beats { All (λ disk. (D.state disk).beat ≤ beat.now) graphs.old }
        ensures job { self.new.job ≡ self.old.job }
        ensures steps { Each D.state (Step IsClosedFront beat.now) graphs.old graphs.new }
        ensures making { (edges : List Edge) → IsMaking D.state self.old.job edges self.old.buffers self.old.placer self.old.index graphs.old
            → OnOk result (IsMaking D.state self.old.job (edges ++ edge ∷ []) self.new.buffers self.new.placer self.new.index graphs.new) }
        ensures cause { IfErr result (HasMakeCause (OneRose D.state graphs.old graphs.new)) }
        ensures calm { result ≢ Err MakeFault.DiskFault → NoneRose D.state graphs.old graphs.new }
    {
        let partition = edge.src / self.span;
        self.buffers.add(partition as usize, edge)?;
        if self.buffers.edges(partition as usize).len() < self.job.chunk as usize {
            return Ok(());
        }
        self.write(graphs, partition, beat)
    }

    /// Writes what waits of a partition as the next chunk.
    fn write<D: Disk>(
        &mut self,
        graphs: &mut [D],
        partition: u32,
        beat: &Beat,
    ) -> Result<(), MakeFault>
        requires job { IsWellFormedJob self.old.job }
        requires made { (made : List (Chunk Edge)) × HasMade D.state self.old.job made self.old.placer self.old.index graphs.old }
        requires room_for_one { total_of self.old.index < MOST_PLACES }
        requires partition { (partition < 64) × (partition < length self.old.buffers) }
        requires some { 0 < length (waiting self.old.buffers partition) }
        requires few { length (waiting self.old.buffers partition) ≤ self.old.job.chunk }
        requires held { All (λ edge. holds_edge self.old.job.format edge ≡ true) (waiting self.old.buffers partition) }
        requires beats { All (λ disk. (D.state disk).beat ≤ beat.now) graphs.old }
        ensures job { self.new.job ≡ self.old.job }
        ensures steps { Each D.state (Step IsClosedFront beat.now) graphs.old graphs.new }
        ensures made { (made : List (Chunk Edge)) → HasMade D.state self.old.job made self.old.placer self.old.index graphs.old
            → OnOk result (HasMade D.state self.old.job (made ++ chunk_with partition (waiting self.old.buffers partition) ∷ []) self.new.placer self.new.index graphs.new) }
        ensures emptied { OnOk result (self.new.buffers ≡ slice_set self.old.buffers partition no_edges) }
        ensures cause { IfErr result (HasMakeCause (OneRose D.state graphs.old graphs.new)) }
        ensures calm { result ≢ Err MakeFault.DiskFault → NoneRose D.state graphs.old graphs.new }
    {
        let edges = self.buffers.edges(partition as usize);
        write_chunk(
            &self.job,
            graphs,
            &mut self.placer,
            &mut self.index,
            partition,
            edges,
            &mut self.bytes,
            beat,
        )?;
        self.buffers.empty(partition as usize);
        Ok(())
    }

    /// Writes what waits, and syncs: then every edge is in a chunk, and no stop loses one.
    pub(crate) fn flush<D: Disk>(
        mut self,
        graphs: &mut [D],
        beat: &Beat,
    ) -> Result<Index, MakeFault>
        requires job { IsWellFormedJob self.job }
        requires making { HasRoomFor D.state self.job self.buffers self.placer self.index graphs.old [] }
        requires beats { All (λ disk. (D.state disk).beat ≤ beat.now) graphs.old }
        ensures steps { Each D.state (Step IsClosedFront beat.now) graphs.old graphs.new }
        ensures made { (edges : List Edge) → IsMaking D.state self.job edges self.buffers self.placer self.index graphs.old
            → IfOk result (λ index. IsFlushed D.state self.job edges index graphs.new) }
        ensures rose { IfErr result (λ fault. fault ≡ MakeFault.DiskFault → OneRose D.state graphs.old graphs.new) }
        ensures calm { result ≢ Err MakeFault.DiskFault → NoneRose D.state graphs.old graphs.new }
    {
        self.write_rest(graphs, beat)?;
        sync_all(graphs, beat)?;
        Ok(self.index)
    }

    /// Writes what waits, partition by partition.
    fn write_rest<D: Disk>(&mut self, graphs: &mut [D], beat: &Beat) -> Result<(), MakeFault>
        requires job { IsWellFormedJob self.old.job }
        requires making { HasRoomFor D.state self.old.job self.old.buffers self.old.placer self.old.index graphs.old [] }
        requires beats { All (λ disk. (D.state disk).beat ≤ beat.now) graphs.old }
        ensures steps { Each D.state (Step IsClosedFront beat.now) graphs.old graphs.new }
        ensures made { (edges : List Edge) → IsMaking D.state self.old.job edges self.old.buffers self.old.placer self.old.index graphs.old
            → OnOk result (HasMade D.state self.old.job (edge_chunks self.old.job edges) self.new.placer self.new.index graphs.new) }
        ensures rose { IfErr result (λ fault. fault ≡ MakeFault.DiskFault → OneRose D.state graphs.old graphs.new) }
        ensures calm { result ≢ Err MakeFault.DiskFault → NoneRose D.state graphs.old graphs.new }
    {
        let parts = self.buffers.len();
        'parts: for partition in 0..parts {
            if self.buffers.edges(partition).is_empty() {
                continue;
            }
            if let Err(fault) = self.write(graphs, partition as u32, beat) {
                return Err(fault);
            }
        }
        Ok(())
    }
}

/// The numbers of an edge have room in format 2.
fn has_room(edge: Edge)
    ensures { (format : ℕ) → format ≡ 2 → holds_edge format edge ≡ true }
{
    let _numbers = (edge.src, edge.dst, edge.weight);
}

/// So many zero bytes.
pub(crate) fn zero_bytes(alloc: Global, count: usize) -> Result<Vec<u8>, Memory>
    ensures { IfOk result (λ bytes. bytes.items ≡ replicate count 0) }
{
    Ok(vec![in alloc; 0; count]?)
}
