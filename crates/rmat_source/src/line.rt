//! The lines of a text.
ghost use Rattle.std.specs.Prelude.{◌≡◌, ◌↔◌, ◌+◌, ◌^◌, ◌<◌, ◌≤◌, [], ◌∷◌, ◌++◌, length, take, drop, min, decimal, IsTrue};
ghost use Rattle.arrayvec.specs.ArrayVec.{array_vec_len};
ghost use Rattle.rmat_source.specs.Words.{word_of};
ghost use Rattle.rmat_source.specs.Rmat.{source_bit, destination_bit, end_of, edge_line};

use crate::words::Words;
use arrayvec::ArrayVec;
use itoa::Buffer;
use std::marker::Model;

/// Three numbers of 32 bits, with a byte behind each.
const LONGEST: usize = 33;

/// A line, the front of which may have been given away.
#[derive(Drop)]
pub(crate) struct Line {
    bytes: ArrayVec<u8, LONGEST>,
    given: usize,
}

impl Model for Line {
    ghost use Rattle.std.specs.Prelude.{List, ℕ, ◌≤◌, length, drop};

    ghost Value = { List ℕ };

    ghost view = { λ line. drop line.given line.bytes.items };

    ghost invariant = { λ line. line.given ≤ length line.bytes.items };
}

impl Line {
    /// A line of which nothing is left.
    pub(crate) fn new() -> Self
        ensures { result ≡ [] }
    {
        Line {
            bytes: ArrayVec::new(),
            given: 0,
        }
    }

    pub(crate) fn is_empty(&self) -> bool
        ensures { IsTrue result ↔ (length self.now ≡ 0) }
    {
        self.given == self.bytes.len()
    }

    /// Moves as many bytes as there is room for.
    pub(crate) fn give(&mut self, into: &mut [u8]) -> usize
        ensures count { result ≡ min (length into.old) (length self.old) }
        ensures front { into.new ≡ take result self.old ++ drop result into.old }
        ensures rest { self.new ≡ drop result self.old }
    {
        let rest = &self.bytes[self.given..];
        let count = rest.len().min(into.len());
        into[..count].copy_from_slice(&rest[..count]);
        self.given += count;
        count
    }

    /// Becomes the line of the next edge.
    pub(crate) fn draw(&mut self, words: &mut Words, scale: u32)
        requires scale { scale ≤ 22 }
        requires room { words.old.place + scale + 1 < 2 ^ 68 }
        ensures line { self.new ≡ edge_line (word_of words.old.key) scale words.old.place }
        ensures words { words.new ≡ record words.old { place = words.old.place + (scale + 1) } }
    {
        let (src, dst) = draw_ends(words, scale);
        let weight = 1 + words.next() % 4;
        self.bytes.clear();
        self.given = 0;
        put_field(&mut self.bytes, src, b' ');
        put_field(&mut self.bytes, dst, b' ');
        put_field(&mut self.bytes, weight, b'\n');
    }
}

/// The source and the destination of the next edge, each bit of both from one word.
fn draw_ends(words: &mut Words, scale: u32) -> (u32, u32)
    requires scale { scale ≤ 22 }
    requires room { words.old.place + scale < 2 ^ 68 }
    ensures source { result.0 ≡ end_of (word_of words.old.key) source_bit words.old.place scale }
    ensures destination { result.1 ≡ end_of (word_of words.old.key) destination_bit words.old.place scale }
    ensures words { words.new ≡ record words.old { place = words.old.place + scale } }
{
    let (mut src, mut dst) = (0, 0);
    'bits: for _ in 0..scale {
        let y = words.next() % 100;
        src = 2 * src + source_bit(y);
        dst = 2 * dst + destination_bit(y);
    }
    (src, dst)
}

fn source_bit(y: u32) -> u32
    ensures value { result ≡ source_bit y }
    ensures bit { result ≤ 1 }
{
    u32::from(y >= 76)
}

fn destination_bit(y: u32) -> u32
    ensures value { result ≡ destination_bit y }
    ensures bit { result ≤ 1 }
{
    u32::from((y >= 57 && y < 76) || y >= 95)
}

/// Appends a number and a byte.
fn put_field(line: &mut ArrayVec<u8, LONGEST>, number: u32, end: u8)
    requires { array_vec_len line.old ≤ 22 }
    ensures items { line.new.items ≡ line.old.items ++ decimal number ++ end ∷ [] }
    ensures len { array_vec_len line.new ≤ array_vec_len line.old + 11 }
{
    let mut buffer = Buffer::new();
    let digits = buffer.format(number).as_bytes();
    line.try_extend_from_slice(digits).unwrap();
    line.push(end);
}
