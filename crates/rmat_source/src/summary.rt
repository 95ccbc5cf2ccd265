//! A summary of what is written.
ghost use Rattle.std.specs.Prelude.{◌≡◌, ◌<◌, ◌≤◌, ◌++◌, [], length, IsOk, IfOk, Ok, Some};
ghost use Rattle.rmat_source.specs.Marks.{line_feeds, mark_of, mark_more, capped};

use crate::written::Written;
use ports::{Failed, Sink};
use std::marker::Model;

/// A sink that never fails and keeps three numbers of what is written to it. A contract sees the bytes.
#[derive(Drop)]
pub struct Summary {
    lines: u64,
    bytes: u64,
    mark: u32,
    written: Written,
}

impl Model for Summary {
    ghost use Rattle.std.specs.Prelude.{◌≡◌, List, ℕ, length};
    ghost use Rattle.rmat_source.specs.Marks.{line_feeds, mark_of, capped};

    ghost Value = { List ℕ };

    ghost view = { λ summary. summary.written.bytes };

    ghost invariant = { λ summary. (summary.lines ≡ capped (line_feeds summary.written.bytes))
        × (summary.bytes ≡ capped (length summary.written.bytes))
        × (summary.mark ≡ mark_of summary.written.bytes) };
}

impl Summary {
    /// A summary to which nothing was written.
    pub fn new() -> Summary
        ensures { result ≡ [] }
    {
        Summary {
            lines: 0,
            bytes: 0,
            mark: 0,
            written: Written::new(),
        }
    }

    /// The number of line feeds. It stands still at `u64::MAX`, and so does the number of bytes.
    pub fn lines(&self) -> u64
        ensures { result ≡ capped (line_feeds self.now) }
    {
        self.lines
    }

    /// The number of bytes.
    pub fn bytes(&self) -> u64
        ensures { result ≡ capped (length self.now) }
    {
        self.bytes
    }

    /// The mark: from 0 on, each byte joins 31 times the mark so far, modulo 2^32.
    pub fn mark(&self) -> u32
        ensures { result ≡ mark_of self.now }
    {
        self.mark
    }
}

impl Sink for Summary {
    ghost written = { λ summary. Some summary };

    ghost faults = { λ _. 0 };

    fn write(&mut self, piece: &[u8]) -> Result<usize, Failed>
        ensures within { IfOk result (λ count. count ≤ length piece.now) }
        ensures some { 0 < length piece.now → IfOk result (λ count. 0 < count) }
        ensures empty { length piece.now ≡ 0 → IsOk result }
        ensures whole { result ≡ Ok (length piece.now) }
        ensures appended { self.new ≡ self.old ++ piece.now }
    {
        self.lines = self.lines.saturating_add(line_feeds(piece) as u64);
        self.bytes = self.bytes.saturating_add(piece.len() as u64);
        self.mark = mark_more(self.mark, piece);
        self.written.add(piece);
        Ok(piece.len())
    }
}

fn line_feeds(piece: &[u8]) -> usize
    ensures { result ≡ line_feeds piece.now }
{
    piece.iter().filter(|byte| **byte == b'\n').count()
}

/// A mark behind which a piece comes.
fn mark_more(mut mark: u32, piece: &[u8]) -> u32
    ensures { result ≡ mark_more mark piece.now }
{
    for byte in piece {
        mark = ((31 * u64::from(mark) + u64::from(*byte)) % (1 << 32)) as u32;
    }
    mark
}
