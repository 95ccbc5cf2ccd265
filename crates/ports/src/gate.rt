/// What a worker passes once in each phase, before it works.
pub trait Gate {
    /// May hold the worker for a bounded number of looks. Workers are numbered from 0; `turn` is the number of the
    /// phase. It changes nothing but what the gate itself holds or shares.
    fn pass(&self, worker: u32, turn: u64);
}
