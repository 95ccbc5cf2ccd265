// Files as disks.
ghost use Rattle.std.specs.Prelude.{◌≡◌, ◌+◌, ◌<◌, ◌≤◌, Some, IfSome, IfOk, OnOk, length};
ghost use Rattle.ports.specs.Faults.{HasCause};

use crate::faults::counted;
use crate::{CountMeter, OpenFault};
use ports::{Beat, Disk, Failed};
use std::alloc::Global;
use std::fs::{File, OpenOptions};
use std::marker::{Model, PhantomData};
use std::os::unix::fs::FileExt;
use std::rt::Files;

/// A file as a disk. It is read through a meter, which opens it by its path, and every call is one call of the system.
#[derive(Drop)]
pub struct FileDisk<R: Files<File = File> + Clone + Drop> {
    file: File,
    number: u32,
    path: String,
    length: u64,
    last_beat: u64,
    count: u64,
    runtime: PhantomData<R>,
}

impl<R: Files<File = File> + Clone + Drop> Model for FileDisk<R> {
    ghost use Rattle.real_devices.specs.FileState.{FileState};

    ghost Value = { FileState };

    ghost view = { λ disk. record {
      number = disk.number;
      size = disk.length;
      beat = disk.last_beat;
      faults = disk.count;
    } };
}

impl<R: Files<File = File> + Clone + Drop> FileDisk<R> {
    /// Opens the file of this path, or makes it. Disks that are read through one meter need different numbers.
    pub fn open(rt: &R, alloc: Global, number: u32, path: &str) -> Result<FileDisk<R>, OpenFault>
        ensures { IfOk result (λ disk. disk ≡ record { number = number; size = disk.size; beat = 0; faults = 0 }) }
    {
        let path = String::from_str(alloc, path)?;
        let file = OpenOptions::new().write(true).create(true).open(rt, &path)?;
        let length = file.metadata()?.len();
        Ok(FileDisk {
            file,
            number,
            path,
            length,
            last_beat: 0,
            count: 0,
            runtime: PhantomData,
        })
    }
}

impl<R: Files<File = File> + Clone + Drop + Send + Sync> Disk for FileDisk<R> {
    ghost use Rattle.ports.proofs.Untold.{untold_is_disk};
    ghost use Rattle.real_devices.specs.FileState.{untold};

    type M = CountMeter<R>;

    ghost state = { untold };

    fn size(&self) -> u64 {
        self.length
    }

    fn read_at(&self, meter: &mut CountMeter<R>, at: u64, into: &mut [u8]) -> Result<(), Failed>
        requires { at + length into.old ≤ self.now.size }
        ensures cause { HasCause meter.old.faults meter.new.faults result }
        ensures held { OnOk result (meter.new.held ≡ Some self.now.number) }
        ensures no_other { IfSome meter.new.held (λ held. held ≡ self.now.number) }
    {
        meter.read(self.number, &self.path, at, into)
    }

    fn write_at(&mut self, beat: &Beat, at: u64, piece: &[u8]) -> Result<(), Failed> {
        self.last_beat = beat.number();
        let answer = self.file.write_all_at(piece, at);
        if answer.is_ok() {
            self.length = self.length.max(at + piece.len() as u64);
        }
        counted(&mut self.count, answer)
    }

    fn cut(&mut self, beat: &Beat, size: u64) -> Result<(), Failed> {
        self.last_beat = beat.number();
        let answer = self.file.set_len(size);
        if answer.is_ok() {
            self.length = size;
        }
        counted(&mut self.count, answer)
    }

    fn sync(&mut self, beat: &Beat) -> Result<(), Failed> {
        self.last_beat = beat.number();
        let answer = self.file.sync_data();
        counted(&mut self.count, answer)
    }

    ghost lawful = { λ disk. untold_is_disk disk.size disk.beat disk.faults };
}
