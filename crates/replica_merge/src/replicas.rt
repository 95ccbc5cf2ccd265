// The accumulators of a worker.
ghost use Rattle.std.specs.Prelude.{◌≡◌, ◌<◌, ◌≤◌, length, vec_len, vec_capacity, replicate, IfOk};
ghost use Rattle.std.specs.Borrow.{sem};
ghost use Rattle.graph_model.specs.Partitions.{part_len};
ghost use Rattle.partitioner.specs.Splits.{IsSplit};

use partitioner::Split;
use ports::Memory;
use std::alloc::Global;

/// A worker's accumulators, one for each vertex: those of one partition in memory, and for the other partitions the
/// places on the worker's device to which they were spilled.
#[derive(Drop)]
pub struct Replicas {
    pub(crate) split: Split,
    /// What the accumulators of a partition are that was not spilled.
    pub(crate) unit: u64,
    /// The partition that was begun last.
    pub(crate) partition: u32,
    /// Its accumulators.
    pub(crate) sums: Vec<u64>,
    /// For each partition, the first byte of its accumulators on the device.
    pub(crate) places: Vec<Option<u64>>,
    ghost is_split: { IsSplit split },
    ghost begun: { partition < split.parts },
    ghost long: { vec_len sums ≡ part_len split.vertices split.parts partition },
    ghost roomy: { split.span ≤ vec_capacity sums },
    ghost noted: { vec_len places ≡ split.parts },
}

impl Replicas {
    ghost use Rattle.replica_merge.specs.Accumulators.{split_of, unit_of, begun_of, sums_of, len_of, place_of, IsUnspilled};
    ghost use Rattle.replica_merge.specs.Lending.{LendsSums};

    /// Replicas of this split, in which every accumulator is `unit`.
    pub fn new(alloc: Global, split: &Split, unit: u64) -> Result<Replicas, Memory>
        requires { IsSplit split.now }
        ensures split { IfOk result (λ replicas. split_of replicas ≡ split.now) }
        ensures unit { IfOk result (λ replicas. unit_of replicas ≡ unit) }
        ensures unspilled { IfOk result (λ replicas. IsUnspilled replicas) }
        ensures begun { IfOk result (λ replicas. (begun_of replicas ≡ 0) × (sums_of replicas ≡ replicate (len_of split.now 0) unit)) }
    {
        let mut sums = Vec::with_capacity(alloc, split.span as usize)?;
        let places = vec![in alloc; None; split.parts as usize]?;
        let (first, end) = split.range(0);
        fill(&mut sums, (end - first) as usize, unit);
        Ok(Replicas {
            split: *split,
            unit,
            partition: 0,
            sums,
            places,
        })
    }

    /// Takes every partition as not spilled, so that each accumulator is `unit`.
    pub fn reset(&mut self, unit: u64)
        ensures split { split_of self.new ≡ split_of self.old }
        ensures unit { unit_of self.new ≡ unit }
        ensures begun { (begun_of self.new ≡ begun_of self.old) × (sums_of self.new ≡ sums_of self.old) }
        ensures unspilled { IsUnspilled self.new }
    {
        self.unit = unit;
        self.places.as_mut_slice().fill(None);
    }

    /// Begins a partition: the accumulators in memory are now its own, and units.
    pub fn begin(&mut self, partition: u32)
        requires { partition < (split_of self.old).parts }
        ensures split { split_of self.new ≡ split_of self.old }
        ensures unit { unit_of self.new ≡ unit_of self.old }
        ensures begun { begun_of self.new ≡ partition }
        ensures units { sums_of self.new ≡ replicate (len_of (split_of self.old) partition) (unit_of self.old) }
        ensures places { self.new.places ≡ self.old.places }
    {
        let (first, end) = self.split.range(partition);
        fill(&mut self.sums, (end - first) as usize, self.unit);
        self.partition = partition;
    }

    /// The accumulators of the partition that was begun last, one for each of its vertices, in order.
    pub fn acc(&mut self) -> &mut [u64]
        ensures* writes_back { sem 𝓛 (LendsSums self.entry result) }
        ensures value { result.now ≡ sums_of self.old }
        ensures len { length result.now ≡ len_of (split_of self.old) (begun_of self.old) }
    {
        self.sums.as_mut_slice()
    }

    /// Where a partition was spilled to, if it was.
    pub(crate) fn place(&self, partition: u32) -> Option<u64>
        requires { partition < (split_of self.now).parts }
        ensures { result ≡ place_of self.now partition }
    {
        self.places[partition as usize]
    }
}

/// Makes so many units of what is in `sums`, within the room that is there.
fn fill(sums: &mut Vec<u64>, count: usize, unit: u64)
    requires { count ≤ vec_capacity sums.old }
    ensures items { sums.new.items ≡ replicate count unit }
    ensures len { vec_len sums.new ≡ count }
    ensures room { vec_capacity sums.old ≤ vec_capacity sums.new }
{
    sums.clear();
    if sums.resize(count, unit).is_err() {
        unreachable!();
    }
}
