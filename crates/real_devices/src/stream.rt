// A source and a sink over any reader and any writer.
ghost use Rattle.std.specs.Prelude.{◌≡◌, None, ◌+◌, ◌-◌};

use ports::{Failed, Sink, Source};
use std::io::{Read, Write};

/// A reader as a source. Its count of faults is the number of reads that failed, and stands still at `u64::MAX`.
#[derive(Drop)]
pub struct StreamSource<T: Read + Drop> {
    reader: T,
    faults: u64,
}

impl<T: Read + Drop> StreamSource<T> {
    pub fn new(reader: T) -> StreamSource<T>
        ensures { ⟦<StreamSource<T> as Source>⟧.faults result ≡ 0 }
    {
        StreamSource { reader, faults: 0 }
    }
}

impl<T: Read + Drop> Source for StreamSource<T> {
    ghost left = { λ _. None };

    ghost faults = { λ source. source.faults };

    fn read(&mut self, into: &mut [u8]) -> Result<usize, Failed> {
        let answer = self.reader.read(into);
        if answer.is_err() {
            self.faults = self.faults.saturating_add(1);
        }
        answer.map_err(|_| Failed)
    }
}

/// A writer as a sink, which flushes in each write. Its count of faults is the number of writes that failed or that
/// took nothing, and stands still at `u64::MAX`.
#[derive(Drop)]
pub struct StreamSink<W: Write + Drop> {
    writer: W,
    faults: u64,
}

impl<W: Write + Drop> StreamSink<W> {
    pub fn new(writer: W) -> StreamSink<W>
        ensures { ⟦<StreamSink<W> as Sink>⟧.faults result ≡ 0 }
    {
        StreamSink { writer, faults: 0 }
    }
}

impl<W: Write + Drop> Sink for StreamSink<W> {
    ghost written = { λ _. None };

    ghost faults = { λ sink. sink.faults };

    fn write(&mut self, piece: &[u8]) -> Result<usize, Failed> {
        if piece.is_empty() {
            return Ok(0);
        }
        let count = self.writer.write(piece).unwrap_or(0);
        if count == 0 || self.writer.flush().is_err() {
            self.faults = self.faults.saturating_add(1);
            return Err(Failed);
        }
        Ok(count)
    }
}
