//! The split of the vertices into partitions.
ghost use Rattle.std.specs.Prelude.{◌≡◌, ◌+◌, ◌<◌, ◌≤◌, IfSome, IfNone};
ghost use Rattle.std.specs.Int.{IsInRange};
ghost use Rattle.graph_model.specs.Jobs.{IsWellFormedJob};
ghost use Rattle.graph_model.specs.Partitions.{first_vertex, master_of, own_before, own_count, partition_of};
ghost use Rattle.partitioner.specs.Splits.{IsSplit, IsSplitBy, IsSplitOf, NeedsTooMany, own_below, split_for};

use graph_model::Job;

/// How the vertices of a job are split into partitions.
#[derive(Clone, Copy, PartialEq, Eq, Debug)]
pub struct Split {
    /// Vertices of all partitions together.
    pub vertices: u32,
    /// Engines, 1 to 8. Partition p has engine p modulo their number as its master.
    pub engines: u32,
    /// Partitions, 1 to 64, a multiple of the engines.
    pub parts: u32,
    /// Vertices of each partition but the last ones, which have fewer or none.
    pub span: u32,
}

impl Split {
    /// The most partitions that a split has.
    const MOST_PARTS: u64 = 64;

    /// Splits the vertices into the fewest partitions that have at most `most` vertices each and whose number is a
    /// multiple of the engines. None where that number is above 64. Without vertices each engine has one empty
    /// partition.
    pub fn of(vertices: u32, engines: u32, most: u32) -> Option<Split>
        requires engines { IsInRange 1 8 engines }
        requires most { 1 ≤ most }
        ensures by { IfSome result (IsSplitBy vertices engines most) }
        ensures split { IfSome result IsSplit }
        ensures none { IfNone result (NeedsTooMany vertices engines most) }
    {
        let engines_and_most = u64::from(engines) * u64::from(most);
        let turns = u64::from(vertices).div_ceil(engines_and_most).max(1);
        let parts = u64::from(engines) * turns;
        if parts > Split::MOST_PARTS {
            return None;
        }
        let parts = parts as u32;
        Some(Split {
            vertices,
            engines,
            parts,
            span: vertices.div_ceil(parts),
        })
    }

    /// The split of a job.
    pub fn of_job(job: &Job) -> Split
        requires { IsWellFormedJob job.now }
        ensures split { IsSplit result }
        ensures of_job { IsSplitOf job.now result }
        ensures same { result ≡ split_for job.now }
    {
        match Split::of(job.vertices, job.engines, job.most) {
            Some(split) => split,
            None => unreachable!(),
        }
    }

    /// The partition of a vertex.
    pub fn partition_of(&self, vertex: u32) -> u32
        requires split { IsSplit self.now }
        requires vertex { vertex < self.now.vertices }
        ensures { result ≡ partition_of self.now.vertices self.now.parts vertex }
    {
        vertex / self.span
    }

    /// The first vertex of a partition and the one past its last.
    pub fn range(&self, partition: u32) -> (u32, u32)
        requires split { IsSplit self.now }
        requires partition { partition < self.now.parts }
        ensures first { result.0 ≡ first_vertex self.now.vertices self.now.parts partition }
        ensures end { result.1 ≡ first_vertex self.now.vertices self.now.parts (partition + 1) }
    {
        (self.first_of(partition), self.first_of(partition + 1))
    }

    /// The engine that is the master of a partition.
    pub fn master_of(&self, partition: u32) -> u32
        requires split { IsSplit self.now }
        requires partition { partition < self.now.parts }
        ensures { result ≡ master_of self.now.engines partition }
    {
        partition % self.engines
    }

    /// The number of vertices of an engine's partitions.
    pub fn own(&self, engine: u32) -> u32
        requires split { IsSplit self.now }
        requires engine { engine < self.now.engines }
        ensures { result ≡ own_count self.now.vertices self.now.engines self.now.parts engine }
    {
        self.own_below(self.parts, engine)
    }

    /// The number of vertices of the lower partitions of the same master.
    pub fn before(&self, partition: u32) -> u32
        requires split { IsSplit self.now }
        requires partition { partition < self.now.parts }
        ensures { result ≡ own_before self.now.vertices self.now.engines self.now.parts partition }
    {
        self.own_below(partition, self.master_of(partition))
    }

    /// Where a partition begins; where there is none of that number, the vertices' end.
    fn first_of(&self, partition: u32) -> u32
        requires split { IsSplit self.now }
        requires partition { partition ≤ self.now.parts }
        ensures { result ≡ first_vertex self.now.vertices self.now.parts partition }
    {
        let first = u64::from(partition) * u64::from(self.span);
        first.min(u64::from(self.vertices)) as u32
    }

    /// The number of vertices of the engine's partitions below this one.
    fn own_below(&self, partition: u32, engine: u32) -> u32
        requires split { IsSplit self.now }
        requires partition { partition ≤ self.now.parts }
        ensures { result ≡ own_below self.now.vertices self.now.engines self.now.parts partition engine }
    {
        let mut count = 0;
        for lower in 0..partition {
            if self.master_of(lower) == engine {
                let (first, end) = self.range(lower);
                count += end - first;
            }
        }
        count
    }
}
