// How a call that failed is counted.
ghost use Rattle.std.specs.Prelude.{◌-◌, ◌↔◌, IsOk};
ghost use Rattle.ports.specs.Faults.{HasCause};

use ports::Failed;
use std::io;

/// Counts a call that failed. The count stands still at `u64::MAX`.
pub(crate) fn counted(faults: &mut u64, answer: io::Result<()>) -> Result<(), Failed>
    ensures cause { HasCause faults.old faults.new result }
    ensures variant { IsOk result ↔ IsOk answer }
{
    if answer.is_err() {
        *faults = faults.saturating_add(1);
    }
    answer.map_err(|_| Failed)
}
