//! What the workers of all rounds have at hand.
ghost use Rattle.std.specs.Prelude.{◌≡◌, IfOk, All, vec_len};
ghost use Rattle.graph_model.specs.Jobs.{IsWellFormedJob};
ghost use Rattle.partitioner.specs.Splits.{IsSplit, IsSplitOf};
ghost use Rattle.replica_merge.specs.Accumulators.{split_of};

use apply_round::ApplyCrew;
use chunk_file::Index;
use gather_epoch::GatherCrew;
use graph_model::Job;
use list_moves::put_last;
use partitioner::Split;
use ports::{Disk, Memory};
use replica_merge::Replicas;
use scatter_epoch::ScatterCrew;
use std::alloc::Global;

/// The buffers and accumulators of all workers. They are made once for all rounds.
#[derive(Drop)]
pub struct Crews<D: Disk> {
    pub(crate) scatter: ScatterCrew<D>,
    pub(crate) gather: GatherCrew<D>,
    pub(crate) apply: ApplyCrew<D>,
    pub(crate) replicas: Vec<Replicas>,
    /// Where the chunks of updates stand.
    pub(crate) updates: Index,
}

impl<D: Disk> Crews<D> {
    ghost use Rattle.round_steps.specs.Crews.{AreCrews};

    /// The crews for a job.
    pub fn new(alloc: Global, job: &Job, split: &Split) -> Result<Crews<D>, Memory>
        requires job { IsWellFormedJob job.now }
        requires split { IsSplit split.now × IsSplitOf job.now split.now }
        ensures { IfOk result (AreCrews job.now split.now) }
    {
        Ok(Crews {
            scatter: ScatterCrew::new(alloc, job, split)?,
            gather: GatherCrew::new(alloc, job)?,
            apply: ApplyCrew::new(alloc, split)?,
            replicas: new_replicas(alloc, split)?,
            updates: Index::new(alloc)?,
        })
    }
}

/// Accumulators for each worker.
fn new_replicas(alloc: Global, split: &Split) -> Result<Vec<Replicas>, Memory>
    requires { IsSplit split.now }
    ensures many { IfOk result (λ replicas. vec_len replicas ≡ split.now.engines) }
    ensures split { IfOk result (λ replicas. All (λ r. split_of r ≡ split.now) replicas.items) }
{
    let mut all = Vec::with_capacity(alloc, split.engines as usize)?;
    for _ in 0..split.engines {
        let replicas = Replicas::new(alloc, split, 0)?;
        put_last(&mut all, replicas);
    }
    Ok(all)
}
