//! Buffers of edges, one for each partition.
ghost use Rattle.std.specs.Prelude.{◌≡◌, ◌<◌, length, replicate, slice_set, IfOk, OnOk, OnErr};
ghost use Rattle.storage_engine.specs.Waiting.{no_edges, waiting, with_edge};

use graph_model::Edge;
use ports::Memory;
use std::alloc::Global;
use std::marker::Model;

/// The edges of each partition that wait for a full chunk.
#[derive(Drop)]
pub(crate) struct Buffers {
    lists: Vec<Vec<Edge>>,
}

impl Model for Buffers {
    ghost use Rattle.std.specs.Prelude.{List};
    ghost use Rattle.graph_model.specs.declared.edge.Edge.{Edge};

    ghost Value = { List (List Edge) };

    ghost use Rattle.storage_engine.specs.Inside.{lists_in};

    ghost view = { lists_in };
}

impl Buffers {
    /// An empty buffer for each of so many partitions.
    pub(crate) fn new(alloc: Global, parts: u32) -> Result<Self, Memory>
        ensures { IfOk result (λ buffers. buffers ≡ replicate parts no_edges) }
    {
        let mut lists = Vec::new(alloc);
        'lists: for _ in 0..parts {
            lists.push(Vec::new(alloc))?;
        }
        Ok(Buffers { lists })
    }

    /// The number of partitions.
    pub(crate) fn len(&self) -> usize
        ensures { result ≡ length self.now }
    {
        self.lists.len()
    }

    /// The edges that wait.
    pub(crate) fn edges(&self, partition: usize) -> &[Edge]
        requires { partition < length self.now }
        ensures { result.now ≡ waiting self.now partition }
    {
        &self.lists[partition]
    }

    /// One edge more. Where there is no memory nothing changes.
    pub(crate) fn add(&mut self, partition: usize, edge: Edge) -> Result<(), Memory>
        requires { partition < length self.old }
        ensures ok { OnOk result (self.new ≡ with_edge self.old partition edge) }
        ensures err { OnErr result (self.new ≡ self.old) }
    {
        self.lists[partition].push(edge)?;
        Ok(())
    }

    /// No edge of this partition waits any more.
    pub(crate) fn empty(&mut self, partition: usize)
        requires { partition < length self.old }
        ensures { self.new ≡ slice_set self.old partition no_edges }
    {
        self.lists[partition].clear();
    }
}
