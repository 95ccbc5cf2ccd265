// The folder that files stand in.
ghost use Rattle.std.specs.Prelude.{◌≡◌, ◌↔◌};
ghost use Rattle.std.specs.IoError.{error_kind};
ghost use Rattle.std.specs.declared.io.ErrorKind.TheVariants.{OutOfMemory};
ghost use Rattle.real_devices.specs.declared.folder.OpenFault.TheVariants.{Memory};

use std::alloc::AllocError;
use std::fs::{self, File};
use std::io::{self, ErrorKind};
use std::rt::Files;

/// Why a file or its folder is not there to be used. There is no disk then, and no count of faults.
#[derive(Clone, Copy, Debug, PartialEq, Eq)]
pub enum OpenFault {
    /// The system refused.
    Failed,
    /// No memory was left.
    Memory,
}

impl From<AllocError> for OpenFault {
    ghost from_gives = { λ _ fault. fault ≡ Memory };

    fn from(_: AllocError) -> Self {
        OpenFault::Memory
    }
}

impl From<io::Error> for OpenFault {
    ghost from_gives = { λ error fault. (fault ≡ Memory) ↔ (error_kind error ≡ OutOfMemory) };

    fn from(error: io::Error) -> Self {
        if error.kind() == ErrorKind::OutOfMemory {
            OpenFault::Memory
        } else {
            OpenFault::Failed
        }
    }
}

/// Makes a folder, and those above it that are missing. One that is there already stays as it is.
pub fn make_folder<R: Files>(rt: &R, path: &str) -> Result<(), OpenFault> {
    fs::create_dir_all(rt, path)?;
    Ok(())
}

/// Makes sure that the names of the files in a folder have reached the device. A sync of a file is not enough for one
/// that was made just now.
pub fn sync_folder<R: Files<File = File>>(rt: &R, path: &str) -> Result<(), OpenFault> {
    File::open(rt, path)?.sync_all()?;
    Ok(())
}
