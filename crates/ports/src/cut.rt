// Several disks that are cut to nothing.
ghost use Rattle.std.specs.Prelude.{◌≡◌, ◌≤◌, All, OnOk, OnErr};
ghost use Rattle.ports.specs.Devices.{Each, OneRose, NoneRose};
ghost use Rattle.ports.specs.Stops.{Empties};

use crate::{Beat, Disk, Failed};

/// Cuts each disk to nothing, the lowest first, until a call fails. No sync covers it.
pub fn cut_all<D: Disk>(disks: &mut [D], beat: &Beat) -> Result<(), Failed>
    requires { All (λ disk. (D.state disk).beat ≤ beat.now) disks.old }
    ensures each { Each D.state (Empties beat.now) disks.old disks.new }
    ensures empty { OnOk result (All (λ disk. (D.state disk).size ≡ 0) disks.new) }
    ensures cause { OnErr result (OneRose D.state disks.old disks.new) }
    ensures calm { OnOk result (NoneRose D.state disks.old disks.new) }
{
    for disk in disks.iter_mut() {
        disk.cut(beat, 0)?;
    }
    Ok(())
}
