/// What is computed, with its argument.
#[derive(Clone, Copy, PartialEq, Eq, Debug)]
pub enum Program {
    /// Breadth-first levels from this root.
    Bfs(u32),
    /// The least id of the vertices that are connected with a vertex.
    Labels,
    /// Shortest distances from this root.
    Sssp(u32),
    /// The numbers of edges into and out of a vertex.
    Degrees,
    /// PageRank in whole numbers, with so many rounds.
    PageRank(u32),
}

/// A job: a program over a graph of so many vertices, and how it is to be run.
#[derive(Clone, Copy, PartialEq, Eq, Debug)]
pub struct Job {
    pub program: Program,
    /// Vertices, 0 to 67,108,864.
    pub vertices: u32,
    /// Engines, 1 to 8.
    pub engines: u32,
    /// The most vertices of a partition, 1 to 67,108,864.
    pub most: u32,
    /// Records of a full chunk, 1 to 65,536.
    pub chunk: u32,
    /// The seed from which chunks are placed.
    pub seed: u64,
    /// How readily help is taken, in percent, 0 to 10,000.
    pub alpha: u32,
    /// The round by which values that repeat must have done so, 1 to 1,000,000.
    pub limit: u32,
    /// The format of the store, 1 or 2.
    pub format: u32,
    /// Every so many rounds a checkpoint is durable, 1 to 1,000.
    pub keep: u32,
}
