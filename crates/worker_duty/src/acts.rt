//! What a phase does with the chunks that a worker claims.
ghost use Rattle.std.specs.Prelude.{ℕ, List};
ghost use Rattle.chunk_object.specs.Epochs.{Terms};
ghost use Rattle.chunk_cursor.specs.Hold.{Hold, TableId};

/// What a claim came to.
#[derive(Clone, Copy, Debug, PartialEq, Eq)]
pub enum Step {
    /// A chunk was taken and worked on.
    Took,
    /// No chunk was left.
    Exhausted,
    /// A chunk was taken, and the work was stopped at it.
    Stopped,
}

/// What a worker has done, or a part of its work.
#[derive(Clone, Copy)]
pub struct Worked {
    /// Nothing stopped it.
    pub is_through: bool,
    /// How many chunks were taken.
    pub claims: u64,
    /// How often help was admitted.
    pub admitted: u64,
}

/// Who works, and how much there is.
#[derive(Clone, Copy)]
pub struct Share {
    /// The number of the worker, which is that of its engine.
    pub worker: u32,
    /// How many engines there are, at most 8.
    pub engines: u32,
    /// How many partitions there are, at most 64.
    pub partitions: u32,
}

/// The acts of a phase at a desk. They are closures: a method of a trait that is written for every kind of disk could
/// call nothing that reads a disk.
#[derive(Drop)]
pub struct Acts<S, A, L> {
    /// Claims one chunk of a partition on an engine, and works on it: takes the desk, the engine and the partition.
    pub serve: S,
    /// Proposes to help with a partition.
    pub propose: A,
    /// Leaves a partition that was claimed to the end. False where the work was stopped at this.
    pub leave: L,
}

/// What a phase with a context of this type says of the desks of its workers. It has no calls.
pub trait Phase<C, W> {
    // the seat at the desk
    ghost hold: { W → Hold };

    // the table of the cursors
    ghost table: { C → TableId };

    // what the duty depends on
    ghost terms: { C → Terms };

    // with how many chunks each cursor was opened
    ghost lens: { C → ℕ → ℕ };

    // how a desk goes on from one state to another, whatever comes to it: what never falls, and what stays
    ghost follows: { C → W → W → Type 0 };

    // the desk between partitions, where these chunks were taken and worked on
    ghost rests: { C → W → List (ℕ × ℕ) → Type 0 };

    // the desk while its worker is at this partition
    ghost meets: { C → W → ℕ → List (ℕ × ℕ) → Type 0 };

    // the desk where its work was stopped
    ghost stops: { C → W → List (ℕ × ℕ) → Type 0 };
}
