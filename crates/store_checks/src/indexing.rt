//! Where the chunks of the graph devices stand.
ghost use Rattle.std.specs.Prelude.{◌≡◌, ◌≢◌, ℕ, ◌<◌, ◌≤◌, List, length, IfOk, IfErr, Err};
ghost use Rattle.ports.specs.Faults.{Rose};
ghost use Rattle.graph_model.specs.Jobs.{IsWellFormedJob};
ghost use Rattle.partitioner.specs.Splits.{IsSplit, IsSplitOf};
ghost use Rattle.chunk_file.specs.Places.{total_of};
ghost use Rattle.store_model.specs.Damage.{GraphDamaged};
ghost use Rattle.store_checks.specs.Causes.{Tell, HasRecoverCause, scan_fault};
ghost use Rattle.store_checks.specs.Indexing.{IsIndexed, StopsIn};

use crate::RecoverFault;
use chunk_file::{ChunkFault, Index, MOST_PLACES, scan};
use graph_model::Job;
use partitioner::Split;
use ports::Disk;
use std::alloc::Global;
use store_reader::Part;

/// The places of the chunks of all graph devices.
pub fn index_graphs<D: Disk>(
    alloc: Global,
    graphs: &[D],
    meter: &mut D::M,
    split: &Split,
    job: &Job,
) -> Result<Index, RecoverFault>
    requires few { length graphs.now ≤ 8 }
    requires job { IsWellFormedJob job.now }
    requires split { IsSplit split.now }
    requires of_job { IsSplitOf job.now split.now }
    ensures places { IfOk result (λ index. total_of index ≤ MOST_PLACES) }
    ensures all { (told : List (List ℕ)) → Tell D.state graphs.now told → IfOk result (IsIndexed job.now split.now told) }
    ensures later { D.M.faults meter.old ≤ D.M.faults meter.new }
    ensures calm { result ≢ Err RecoverFault.DiskFault → D.M.faults meter.new ≡ D.M.faults meter.old }
    ensures cause { IfErr result (HasRecoverCause (Rose (D.M.faults meter.old) (D.M.faults meter.new))
        (λ fault. (told : List (List ℕ)) → Tell D.state graphs.now told → (e : ℕ) × (at : ℕ) × (fault ≡ GraphDamaged e at) × StopsIn job.now split.now told e at)) }
{
    let mut index = match Index::new(alloc) {
        Ok(index) => index,
        Err(_) => return Err(RecoverFault::Memory),
    };
    for e in 0..graphs.len() {
        let engine = e as u32;
        let scanned = scan(
            alloc, &graphs[e], meter, engine, split, job.chunk, &mut index, job.format,
        );
        if let Err(fault) = scanned {
            return Err(of_chunks(engine, fault));
        }
    }
    Ok(index)
}

/// What a fault of a scan is to the store.
fn of_chunks(engine: u32, fault: ChunkFault) -> RecoverFault
    ensures { result ≡ scan_fault engine fault }
{
    match fault {
        ChunkFault::DiskFault => RecoverFault::DiskFault,
        ChunkFault::Damaged(place) => RecoverFault::Damaged {
            part: Part::Graph,
            engine,
            place,
        },
        ChunkFault::Memory => RecoverFault::Memory,
    }
}
