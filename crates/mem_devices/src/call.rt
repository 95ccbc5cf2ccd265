// A write, cut or sync of a disk in memory, as its record keeps it.
ghost use Rattle.std.specs.Prelude.{◌≡◌, ◌+◌, ◌-◌, ◌^◌, ◌<◌, ◌≤◌, ◌++◌, length, replicate, OnOk, OnErr};
ghost use Rattle.ports.specs.Bytes.{after_write};
ghost use Rattle.mem_devices.specs.Bytes.{overlay};

use std::alloc::AllocError;

/// Bytes to be written at a place.
#[derive(Drop)]
pub struct Patch {
    pub at: u64,
    pub piece: Vec<u8>,
    ghost fits: { at + length piece.items < 2 ^ 63 },
}

/// What a call does to the bytes.
#[derive(Drop)]
pub enum Work {
    Write(Patch),
    Cut(u64),
    Sync,
}

/// A call: the beat's number, whether it failed, and what it was to do.
#[derive(Drop)]
pub struct Call {
    pub beat: u64,
    pub failed: bool,
    pub work: Work,
}

impl Call {
    ghost use Rattle.mem_devices.specs.Call.{covers, after_call};

    /// Does it, where it did not fail. Where there is no memory, the bytes stay as they are.
    pub fn apply(&self, bytes: &mut Vec<u8>) -> Result<(), AllocError>
        ensures ok { OnOk result (bytes.new.items ≡ after_call self.now bytes.old.items) }
        ensures err { OnErr result (bytes.new.items ≡ bytes.old.items) }
    {
        if self.failed {
            return Ok(());
        }
        self.work.apply(bytes)
    }

    /// Whether it covers the calls before it: a sync that succeeded.
    pub fn covers(&self) -> bool
        ensures { result ≡ covers self.now }
    {
        !self.failed && matches!(self.work, Work::Sync)
    }
}

impl Work {
    ghost use Rattle.mem_devices.specs.Call.{after_work};

    /// Does it. Where there is no memory, the bytes stay as they are.
    pub fn apply(&self, bytes: &mut Vec<u8>) -> Result<(), AllocError>
        ensures ok { OnOk result (bytes.new.items ≡ after_work self.now bytes.old.items) }
        ensures err { OnErr result (bytes.new.items ≡ bytes.old.items) }
    {
        match self {
            Work::Write(patch) => overlay(bytes, patch.at as usize, &patch.piece),
            Work::Cut(size) => {
                bytes.truncate(*size as usize);
                Ok(())
            }
            Work::Sync => Ok(()),
        }
    }
}

/// Puts a piece over the bytes at a place, behind zero bytes where they end before it.
pub fn overlay(bytes: &mut Vec<u8>, at: usize, piece: &[u8]) -> Result<(), AllocError>
    requires { at + length piece.now < 2 ^ 63 }
    ensures ok { OnOk result (bytes.new.items ≡ overlay at piece.now bytes.old.items) }
    ensures err { OnErr result (bytes.new.items ≡ bytes.old.items) }
{
    grow(bytes, at + piece.len())?;
    put(bytes, at, piece);
    Ok(())
}

// Appends zero bytes up to this length.
fn grow(bytes: &mut Vec<u8>, end: usize) -> Result<(), AllocError>
    ensures ok { OnOk result (bytes.new.items ≡ bytes.old.items ++ replicate (end - length bytes.old.items) 0) }
    ensures err { OnErr result (bytes.new.items ≡ bytes.old.items) }
{
    if bytes.len() < end {
        bytes.resize(end, 0)?;
    }
    Ok(())
}

fn put(bytes: &mut [u8], at: usize, piece: &[u8])
    requires { at + length piece.now ≤ length bytes.old }
    ensures { bytes.new ≡ after_write at piece.now bytes.old }
{
    bytes[at..at + piece.len()].copy_from_slice(piece);
}
