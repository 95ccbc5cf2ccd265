//! The text as a source.
ghost use Rattle.std.specs.Prelude.{◌≡◌, ◌<◌, ◌≤◌, ◌++◌, length, take, min, IfOk, Some, Ok};
ghost use Rattle.ports.specs.Source.{Moved};
ghost use Rattle.rmat_source.specs.Rmat.{rmat_text};

use crate::line::Line;
use crate::words::Words;
use ports::{Failed, Source};
use std::marker::Model;

/// The edge text of a large graph that a number stands for. A contract sees what is left of it.
#[derive(Drop)]
pub struct RmatText {
    words: Words,
    scale: u32,
    lines_left: u64,
    line: Line,
}

impl Model for RmatText {
    ghost use Rattle.std.specs.Prelude.{List, ℕ, ◌++◌, ◌+◌, ◌*◌, ◌^◌, ◌<◌, ◌≤◌};
    ghost use Rattle.rmat_source.specs.Words.{word_of};
    ghost use Rattle.rmat_source.specs.Rmat.{lines_from};

    ghost Value = { List ℕ };

    ghost view = { λ text. text.line ++ lines_from (word_of text.words.key) text.scale text.words.place text.lines_left };

    ghost invariant = { λ text. (text.scale ≤ 22) × (text.words.place + text.lines_left * (text.scale + 1) < 2 ^ 68) };
}

impl RmatText {
    /// The text of so many edges, at most 2^28, among 2^scale vertices, scale at most 22, drawn with the words of `rng`.
    pub fn new(scale: u32, edges: u64, rng: u64) -> RmatText
        requires scale { scale ≤ 22 }
        requires edges { edges ≤ 268435456 }
        ensures { result ≡ rmat_text scale edges rng }
    {
        RmatText {
            words: Words::new(rng),
            scale,
            lines_left: edges,
            line: Line::new(),
        }
    }

    /// Moves bytes that are left, at least one where there are any and there is room for one.
    fn give(&mut self, into: &mut [u8]) -> usize
        ensures within { result ≤ length into.old }
        ensures front { take result into.new ++ self.new ≡ self.old }
        ensures some { 0 < length into.old → 0 < length self.old → 0 < result }
    {
        if self.line.is_empty() && self.lines_left > 0 {
            self.line.draw(&mut self.words, self.scale);
            self.lines_left -= 1;
        }
        self.line.give(into)
    }
}

impl Source for RmatText {
    ghost left = { λ text. Some text };

    ghost faults = { λ _. 0 };

    /// Fills `into` as far as the text goes, and never fails.
    fn read(&mut self, into: &mut [u8]) -> Result<usize, Failed>
        ensures within { IfOk result (λ count. count ≤ length into.new) }
        ensures moved { IfOk result (λ count. Moved count into.new self.old self.new) }
        ensures full { result ≡ Ok (min (length into.old) (length self.old)) }
    {
        let mut count = 0;
        'lines: while count < into.len() {
            let given = self.give(&mut into[count..]);
            if given == 0 {
                break;
            }
            count += given;
        }
        Ok(count)
    }
}
