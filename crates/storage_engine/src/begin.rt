//! The steps before any chunk: both kinds of devices are emptied, heads are written but for their gates, and the values
//! devices get their size.
ghost use Rattle.std.specs.Prelude.{◌≡◌, ◌<◌, ◌≤◌, ◌⊎◌, length, replicate, OnOk, OnErr};
ghost use Rattle.std.specs.List.{All};
ghost use Rattle.partitioner.specs.Splits.{IsSplitOf, IsSplit};
ghost use Rattle.graph_model.specs.Jobs.{IsWellFormedJob};
ghost use Rattle.store_model.specs.Heads.{IsShutGraph};
ghost use Rattle.ports.specs.Devices.{Each, OneRose, NoneRose};
ghost use Rattle.storage_engine.specs.Making.{HasHead, IsBlankDevice};
ghost use Rattle.storage_engine.specs.Steps.{Anything, Step, EachOne};

use crate::each_device::{clear_all, write_all_zeros, write_fronts, write_marks};
use graph_model::Job;
use partitioner::Split;
use ports::{Beat, Disk, Failed};

/// Empties the devices of a job's store, writes the heads with closed gates to its graph devices, and zero bytes to its
/// values devices.
pub(crate) fn begin_devices<D: Disk>(
    job: &Job,
    split: &Split,
    graphs: &mut [D],
    values: &mut [D],
    zeros: &[u8],
    beat: &Beat,
) -> Result<(), Failed>
    requires job { IsWellFormedJob job.now }
    requires split { IsSplit split.now }
    requires of_job { IsSplitOf job.now split.now }
    requires graphs { length graphs.old ≡ job.now.engines }
    requires values { length values.old ≡ job.now.engines }
    requires graph_beats { All (λ disk. (D.state disk).beat ≤ beat.now) graphs.old }
    requires value_beats { All (λ disk. (D.state disk).beat ≤ beat.now) values.old }
    requires some { 0 < length zeros.now }
    requires zeros { zeros.now ≡ replicate (length zeros.now) 0 }
    ensures graphs { Each D.state (Step IsShutGraph beat.now) graphs.old graphs.new }
    ensures values { Each D.state (Step Anything beat.now) values.old values.new }
    ensures heads { OnOk result (EachOne D.state (λ e old new. HasHead job.now e new) graphs.old graphs.new) }
    ensures blank { OnOk result (EachOne D.state (λ e old new. IsBlankDevice job.now e new) values.old values.new) }
    ensures rose { OnErr result (OneRose D.state graphs.old graphs.new ⊎ OneRose D.state values.old values.new) }
    ensures calm { OnOk result (NoneRose D.state graphs.old graphs.new × NoneRose D.state values.old values.new) }
{
    clear_all(graphs, beat)?;
    clear_all(values, beat)?;
    write_fronts(job, graphs, beat)?;
    write_all_zeros(split, zeros, values, beat)?;
    write_marks(graphs, beat)
}
