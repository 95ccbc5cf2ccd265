// The meter of reads of files.
ghost use Rattle.std.specs.Prelude.{◌≡◌, None, Some, IfSome, IfOk, OnOk};
ghost use Rattle.ports.specs.Faults.{HasCause};

use crate::faults::counted;
use ports::{Failed, Memory, Meter};
use std::fs::File;
use std::io;
use std::marker::Model;
use std::os::unix::fs::FileExt;
use std::rt::Files;

/// What counts the faults of reads of files. It holds at most one file open, that of the disk read last.
#[derive(Drop)]
pub struct CountMeter<R: Files<File = File> + Clone + Drop> {
    rt: R,
    count: u64,
    handle: Option<ReadHandle>,
}

/// A file that is open for reads, and the number of its disk.
#[derive(Drop)]
struct ReadHandle {
    number: u32,
    file: File,
}

impl<R: Files<File = File> + Clone + Drop> Model for CountMeter<R> {
    ghost use Rattle.real_devices.specs.Reads.{Reads, held_number};

    ghost Value = { Reads };

    ghost view = { λ meter. record { faults = meter.count; held = held_number meter.handle } };
}

impl<R: Files<File = File> + Clone + Drop> CountMeter<R> {
    /// A meter that has counted nothing and holds no file.
    pub fn new(rt: &R) -> Result<CountMeter<R>, Memory>
        ensures { IfOk result (λ meter. meter ≡ record { faults = 0; held = None }) }
    {
        Ok(CountMeter {
            rt: rt.clone()?,
            count: 0,
            handle: None,
        })
    }

    /// Fills `into` with the bytes of a file from `at` on. A file that has fewer is a fault, and so is want of memory.
    pub(crate) fn read(
        &mut self,
        number: u32,
        path: &str,
        at: u64,
        into: &mut [u8],
    ) -> Result<(), Failed>
        ensures cause { HasCause self.old.faults self.new.faults result }
        ensures held { OnOk result (self.new.held ≡ Some number) }
        ensures no_other { IfSome self.new.held (λ held. held ≡ number) }
    {
        let answer = self.read_held(number, path, at, into);
        counted(&mut self.count, answer)
    }

    fn read_held(&mut self, number: u32, path: &str, at: u64, into: &mut [u8]) -> io::Result<()>
        ensures faults { self.new.faults ≡ self.old.faults }
        ensures held { OnOk result (self.new.held ≡ Some number) }
        ensures no_other { IfSome self.new.held (λ held. held ≡ number) }
    {
        if let Some(handle) = &self.handle
            && handle.number == number
        {
            return handle.file.read_exact_at(into, at);
        }
        // The old file is closed before the new one is opened.
        self.handle = None;
        let file = File::open(&self.rt, path)?;
        let answer = file.read_exact_at(into, at);
        self.handle = Some(ReadHandle { number, file });
        answer
    }
}

impl<R: Files<File = File> + Clone + Drop + Send> Meter for CountMeter<R> {
    ghost faults = { λ meter. meter.faults };
}
