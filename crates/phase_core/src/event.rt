//! Events and their replies, as plain data.

/// What a worker does in a phase. Any numbers may stand in it.
#[derive(Clone, Copy, PartialEq, Eq, Debug)]
pub enum Event {
    /// Takes the next chunk of the partition's cursor on the engine.
    Claim {
        worker: u32,
        engine: u32,
        partition: u32,
    },
    /// Looks how many chunks are left there.
    Look {
        worker: u32,
        engine: u32,
        partition: u32,
    },
    /// Reads the partition's helper count.
    Heads {
        worker: u32,
        partition: u32,
    },
    /// Raises the partition's helper count by 1 where it is still `seen`, and from then on may claim there.
    Admit {
        worker: u32,
        partition: u32,
        seen: u64,
    },
    /// Ends the worker's part.
    Finish {
        worker: u32,
    },
}

/// The reply to an event.
#[derive(Clone, Copy, PartialEq, Eq, Debug)]
pub enum Reply {
    /// The chunk of the cursor that was taken, counted from 0.
    Took(u64),
    /// The cursor has no chunk left.
    Exhausted,
    /// The number that was looked at.
    Number(u64),
    /// The worker is counted as a helper.
    Admitted,
    /// The helper count is this one, and was left so.
    Contended(u64),
    /// The worker is through.
    Finished,
    /// The event may not come now, and has changed nothing.
    NotNow,
}
