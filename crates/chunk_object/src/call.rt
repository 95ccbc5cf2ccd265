//! Calls and callers, as plain data.

/// A call on the chunk object together with its reply, or a split or a join of a caller. A cursor is the number
/// `64 * engine + partition`.
#[derive(Clone, Copy)]
pub enum Call {
    /// The cursor was opened with `len` chunks, none of them given yet.
    Open {
        cursor: u64,
        len: u64,
    },
    /// The partition's helper count was set to 1.
    Greet {
        partition: u64,
    },
    /// A claim was given this chunk of the cursor, counted from 0.
    Took {
        cursor: u64,
        chunk: u64,
    },
    /// A claim was told that the cursor has no chunk left.
    Exhausted {
        cursor: u64,
    },
    /// A look found so many chunks left.
    Look {
        cursor: u64,
        left: u64,
    },
    /// The partition's helper count was read.
    Heads {
        partition: u64,
        heads: u64,
    },
    /// The partition's helper count was `heads`, and was raised by 1.
    Admitted {
        partition: u64,
        heads: u64,
    },
    /// The partition's helper count was to be raised from `heads`, but was `found`.
    Contended {
        partition: u64,
        heads: u64,
        found: u64,
    },
    /// A caller of this serial number was split off for a worker.
    Split {
        serial: u64,
        worker: u64,
    },
    /// The caller of this serial number gave its list back.
    Join {
        serial: u64,
        worker: u64,
    },
}

/// A call with its caller: the caller's serial number, which is 0 for the first, and the worker that it calls for,
/// which is 8 for the first.
#[derive(Clone, Copy)]
pub struct Entry {
    pub serial: u64,
    pub worker: u64,
    pub call: Call,
}
