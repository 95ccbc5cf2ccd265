//! What a seat knows, as plain data for the proofs alone.

use chunk_object::Entry;
use std::collections::LinkedList;

/// What a seat knows. Contracts speak of it, and no value of it is made.
pub struct View {
    /// The number of the caller: 0 for the first seat, and for others that of their split, counted from 1.
    pub serial: u64,
    /// The worker that the seat calls for; 8 for the first seat.
    pub worker: u64,
    /// What the first seat knew when this seat was split off, with that split.
    pub held: LinkedList<Entry>,
    /// The seat's own calls. In the first seat also its splits and joins, and the lists of the seats joined into it.
    pub story: LinkedList<Entry>,
    /// How many seats were split off from this one.
    pub splits: u64,
    /// For each worker the serial number of its seat that was split off and not joined, or 0.
    pub out: LinkedList<u64>,
    /// The seat was joined into another.
    pub spent: bool,
}
