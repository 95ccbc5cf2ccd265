//! What stands in a store that is opened again.
ghost use Rattle.std.specs.Prelude.{◌≡◌, ◌≢◌, ℕ, ◌<◌, ◌≤◌, List, length, slice_index_or, None, IfOk, IfErr, OnOk, Err};
ghost use Rattle.ports.specs.Faults.{Rose};
ghost use Rattle.graph_model.specs.declared.edge.Edge.{Edge};
ghost use Rattle.graph_model.specs.declared.job.Job.{Job};
ghost use Rattle.graph_model.specs.Jobs.{IsWellFormedJob};
ghost use Rattle.chunk_file.specs.declared.index.TheConstants.{MOST_PLACES};
ghost use Rattle.chunk_file.specs.Places.{total_of};
ghost use Rattle.store_model.specs.Slots.{device_size};
ghost use Rattle.store_model.specs.Kept.{own_of, IsPrepared, StoreOf};
ghost use Rattle.store_model.specs.Damage.{head_of, heads_fault, HasFault};
ghost use Rattle.store_checks.specs.Causes.{Tell, HasRecoverCause};
ghost use Rattle.store_checks.specs.Jobs.{SaysJob};
ghost use Rattle.restart.specs.Recovering.{job_in, index_in, IsWithinRounds, IsRecovered};
ghost use Rattle.restart.specs.Resuming.{Resumes, HasCauseOfJob};
ghost use Rattle.restart.specs.Storable.{IsStorable};

use chunk_file::{Index, MOST_PLACES};
use graph_model::Job;
use partitioner::Split;
use ports::{Disk, Failed};
use std::alloc::Global;
use store_checks::{RecoverFault, check_values, index_graphs, job_of_heads, kept_round};
use store_reader::{Store, all_open};

/// What a store holds, with where its chunks stand.
#[derive(Drop)]
pub enum Recovered {
    /// The values of this round, in which so many values changed.
    Found {
        job: Job,
        index: Index,
        round: u64,
        changed: u64,
    },
    /// No values.
    Fresh {
        job: Job,
        index: Index,
    },
}

/// Checks the graph devices and values devices of a store, of which there is one for each engine, and finds its job, the
/// places of its chunks, and the greatest round that stands in an open slot of every engine. It reads and writes nothing
/// else.
pub fn recover<D: Disk>(
    alloc: Global,
    store: &Store<D>,
    meter: &mut D::M,
) -> Result<Recovered, RecoverFault>
    requires some { 1 ≤ length store.now.graphs.items }
    requires many { length store.now.values.items ≡ length store.now.graphs.items }
    // Whether or not the devices tell their bytes.
    ensures formed { IfOk result (λ found. IsWellFormedJob (job_in found)) }
    ensures engines { IfOk result (λ found. (job_in found).engines ≡ length store.now.graphs.items) }
    ensures places { IfOk result (λ found. total_of (index_in found) ≤ MOST_PLACES) }
    ensures round { IfOk result IsWithinRounds }
    ensures exact { IfOk result (λ found. (e : ℕ) (d : _) → e < length store.now.values.items
        → (D.state (slice_index_or store.now.values.items e d)).size ≡ device_size (own_of (job_in found) e)) }
    // Where they tell them.
    ensures recovered { (graphs values : List (List ℕ)) → Tell D.state store.now.graphs.items graphs → Tell D.state store.now.values.items values
        → IfOk result (IsRecovered graphs values) }
    // Where they are the store of a job.
    ensures of_job { (job : Job) (edges : List Edge) (graphs values : List (List ℕ)) → IsStorable job edges → StoreOf job edges graphs values
        → Tell D.state store.now.graphs.items graphs → Tell D.state store.now.values.items values → IfOk result (Resumes job edges values) }
    ensures cause_of_job { (job : Job) (edges : List Edge) (graphs values : List (List ℕ)) → IsStorable job edges → StoreOf job edges graphs values
        → Tell D.state store.now.graphs.items graphs → Tell D.state store.now.values.items values → IfErr result (HasCauseOfJob graphs) }
    ensures later { D.M.faults meter.old ≤ D.M.faults meter.new }
    ensures calm { result ≢ Err RecoverFault.DiskFault → D.M.faults meter.new ≡ D.M.faults meter.old }
    ensures cause { IfErr result (HasRecoverCause (Rose (D.M.faults meter.old) (D.M.faults meter.new))
        (λ fault. (graphs values : List (List ℕ)) → Tell D.state store.now.graphs.items graphs → Tell D.state store.now.values.items values
        → HasFault graphs values fault)) }
{
    let job = match open_job(store, meter) {
        Ok(job) => job,
        Err(fault) => return Err(fault),
    };
    let split = Split::of_job(&job);
    let index = match index_graphs(alloc, &store.graphs, meter, &split, &job) {
        Ok(index) => index,
        Err(fault) => return Err(fault),
    };
    prove!(index.total() <= MOST_PLACES);
    if let Err(fault) = check_values(&store.values, meter, &split) {
        return Err(fault);
    }
    match kept_round(&store.values, meter, &split) {
        Ok(Some(kept)) => Ok(Recovered::Found {
            job,
            index,
            round: kept.round,
            changed: kept.changed,
        }),
        Ok(None) => Ok(Recovered::Fresh { job, index }),
        Err(fault) => Err(fault),
    }
}

/// The job of a store whose gates are all open.
fn open_job<D: Disk>(store: &Store<D>, meter: &mut D::M) -> Result<Job, RecoverFault>
    requires some { 1 ≤ length store.now.graphs.items }
    ensures formed { IfOk result IsWellFormedJob }
    ensures engines { IfOk result (λ job. job.engines ≡ length store.now.graphs.items) }
    ensures says { (graphs : List (List ℕ)) → Tell D.state store.now.graphs.items graphs → IfOk result (SaysJob (head_of graphs 0)) }
    ensures prepared { (graphs : List (List ℕ)) → Tell D.state store.now.graphs.items graphs → OnOk result (IsPrepared graphs) }
    ensures sound { (graphs : List (List ℕ)) → Tell D.state store.now.graphs.items graphs → OnOk result (heads_fault graphs ≡ None) }
    ensures later { D.M.faults meter.old ≤ D.M.faults meter.new }
    ensures calm { result ≢ Err RecoverFault.DiskFault → D.M.faults meter.new ≡ D.M.faults meter.old }
    ensures cause { IfErr result (HasRecoverCause (Rose (D.M.faults meter.old) (D.M.faults meter.new))
        (λ fault. (graphs values : List (List ℕ)) → Tell D.state store.now.graphs.items graphs → HasFault graphs values fault)) }
{
    match all_open(store, meter) {
        Ok(true) => job_of_heads(&store.graphs, meter),
        Ok(false) => Err(RecoverFault::NotPrepared),
        Err(Failed) => Err(RecoverFault::DiskFault),
    }
}
