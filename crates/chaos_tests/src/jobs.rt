//! Jobs of a few edges, with the answers that were worked out by hand.

/// A job: the words of its run, its text and its answer.
#[derive(Clone, Copy)]
pub(crate) struct Small {
    pub run: &'static str,
    pub text: &'static [u8],
    pub answer: &'static [u8],
}

const WEIGHTED: &[u8] = b"0 1 5\n0 2 1\n2 1 1\n";

const DISTANCES: &[u8] = b"0 0\n1 2\n2 1\n";

/// Shortest distances on one engine.
pub(crate) const ON_ONE: Small = Small {
    run: "run sssp 0 --vertices 3",
    text: WEIGHTED,
    answer: DISTANCES,
};

/// The same on two engines, in chunks of one record.
pub(crate) const ON_TWO: Small = Small {
    run: "run sssp 0 --vertices 3 --engines 2 --chunk 1",
    text: WEIGHTED,
    answer: DISTANCES,
};

/// Ranks on two engines, in chunks of one record.
pub(crate) const RANKS: Small = Small {
    run: "run pagerank 1 --vertices 3 --engines 2 --chunk 1",
    text: b"0 1\n0 2\n1 2\n",
    answer: b"0 150000\n1 575000\n2 1425000\n",
};

/// The same in three rounds.
pub(crate) const LATE_RANKS: Small = Small {
    run: "run pagerank 3 --vertices 3 --engines 2 --chunk 1",
    text: b"0 1\n0 2\n1 2\n",
    answer: b"0 150000\n1 213750\n2 395437\n",
};

/// Gives up a store of two engines.
pub(crate) const DROP: &str = "drop --engines 2";

/// Goes on with one.
pub(crate) const RESUME: &str = "resume --engines 2";
