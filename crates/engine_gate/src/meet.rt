use ports::Gate;
use std::sync::atomic::{AtomicBool, AtomicU64, Ordering};
use std::{hint, thread};

/// The most workers that can meet.
const WORKERS: usize = 8;

/// After so many looks each further look yields, so that the others get on where there are fewer processors than workers.
const SPINS: u64 = 64;

/// A gate at which the workers of a phase meet: each is held until all have come, or for `limit` looks. It needs no reset
/// between phases, whose turns may only grow.
#[derive(Drop)]
pub struct MeetGate {
    workers: u32,
    limit: u64,
    /// For each worker, one more than the last turn to which it came.
    came: [AtomicU64; WORKERS],
    missed: AtomicBool,
}

impl MeetGate {
    /// A gate for the workers of these numbers, `0..workers`, of which at most 8 can meet.
    pub fn new(workers: u32, limit: u64) -> Self {
        MeetGate {
            workers,
            limit,
            came: [
                AtomicU64::new(0),
                AtomicU64::new(0),
                AtomicU64::new(0),
                AtomicU64::new(0),
                AtomicU64::new(0),
                AtomicU64::new(0),
                AtomicU64::new(0),
                AtomicU64::new(0),
            ],
            missed: AtomicBool::new(false),
        }
    }

    /// Whether some worker went on at its limit.
    pub fn missed(&self) -> bool {
        self.missed.load(Ordering::SeqCst)
    }

    fn all_came(&self, next: u64) -> bool {
        self.came
            .iter()
            .take(self.workers as usize)
            .all(|word| next <= word.load(Ordering::SeqCst))
    }
}

impl Gate for MeetGate {
    fn pass(&self, worker: u32, turn: u64) {
        let next = turn.saturating_add(1);
        if let Some(word) = self.came.get(worker as usize) {
            word.store(next, Ordering::SeqCst);
        }
        for look in 0..self.limit {
            if self.all_came(next) {
                return;
            }
            if look < SPINS {
                hint::spin_loop();
            } else {
                thread::yield_now();
            }
        }
        self.missed.store(true, Ordering::SeqCst);
    }
}
