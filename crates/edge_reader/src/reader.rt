ghost use Rattle.std.specs.Prelude.{◌≡◌, ℕ, ◌+◌, ◌-◌, ◌++◌, List, [], Bool, false, min, Err, OnOk, IfErr};
ghost use Rattle.std.specs.Result.{result_err};
ghost use Rattle.graph_model.specs.EdgeText.{directions, edges_said, is_malformed};
ghost use Rattle.edge_reader.specs.Line.{line_end};
ghost use Rattle.edge_reader.specs.Reading.{most_lines, HasRead, IsRefused, Feeds, Finishes, IsLineFault, ReadsOn, StopsIn};

use crate::line::Line;
use graph_model::{Edge, Meaning, TextFault};

/// Reads an edge text that is fed to it in pieces.
#[derive(Drop)]
pub struct EdgeReader {
    vertices: u32,
    both: bool,
    /// Bytes that may still be taken.
    left: u64,
    /// Lines that have ended.
    ended: u64,
    /// The line that has not.
    line: Line,
    refused: Option<TextFault>,
}

impl EdgeReader {
    /// A reader of a text of at most `limit` bytes, whose edges join vertices below `vertices`. With `both` each line
    /// gives its edge in both directions.
    pub fn new(vertices: u32, both: bool, limit: u64) -> EdgeReader
        ensures { HasRead vertices both limit result [] }
    {
        EdgeReader {
            vertices,
            both,
            left: limit,
            ended: 0,
            line: Line::new(),
            refused: None,
        }
    }

    /// Appends the edges of the lines that end in the piece.
    ///
    /// # Errors
    ///
    /// `BadLine` with the number of the first malformed line, where its line feed stands within the limit; else
    /// `TooLong` where the text has more bytes than the limit; `Memory` where `into` cannot grow. Then a front of the
    /// edges was appended, and every later call answers the same and appends nothing.
    pub fn feed(&mut self, piece: &[u8], into: &mut Vec<Edge>) -> Result<(), TextFault>
        ensures read { (vertices : ℕ) (both : Bool) (limit : ℕ) (text : List ℕ) → HasRead vertices both limit self.old text
            → Feeds vertices both limit text piece.now into.old.items into.new.items self.new result }
        ensures again { (fault : TextFault) → IsRefused self.old fault
            → (result ≡ Err fault) × (self.new ≡ self.old) × (into.new.items ≡ into.old.items) }
    {
        if let Some(fault) = self.refused {
            return Err(fault);
        }
        let outcome = self.take(piece, into);
        self.refused = outcome.err();
        outcome
    }

    /// Appends the edges of a last line that no line feed ends.
    ///
    /// # Errors
    ///
    /// `BadLine` where that line is malformed, `Memory` where `into` cannot grow, or what was answered before.
    pub fn finish(mut self, into: &mut Vec<Edge>) -> Result<(), TextFault>
        ensures read { (vertices : ℕ) (both : Bool) (limit : ℕ) (text : List ℕ) → HasRead vertices both limit self text
            → Finishes vertices both limit text into.old.items into.new.items result }
        ensures again { (fault : TextFault) → IsRefused self fault
            → (result ≡ Err fault) × (into.new.items ≡ into.old.items) }
    {
        if let Some(fault) = self.refused {
            return Err(fault);
        }
        let line = self.line;
        self.end_line(line, into)
    }

    /// Takes as much of the piece as the limit allows, so that the loop over its bytes need not look at the limit.
    fn take(&mut self, piece: &[u8], into: &mut Vec<Edge>) -> Result<(), TextFault>
        ensures { (vertices : ℕ) (both : Bool) (limit : ℕ) (text : List ℕ) → HasRead vertices both limit self.old text
            → Feeds vertices both limit text piece.now into.old.items into.new.items (record self.new { refused = result_err result }) result }
    {
        let room = self.left.min(piece.len() as u64) as usize;
        self.left -= room as u64;
        self.read(&piece[..room], into)?;
        if room < piece.len() {
            return Err(TextFault::TooLong);
        }
        Ok(())
    }

    fn read(&mut self, bytes: &[u8], into: &mut Vec<Edge>) -> Result<(), TextFault>
        ensures ok { OnOk result (ReadsOn self.old self.new bytes.now into.old.items into.new.items) }
        ensures err { IfErr result (StopsIn self.old bytes.now into.old.items into.new.items) }
    {
        let mut line = self.line;
        for &byte in bytes {
            if byte == b'\n' {
                self.end_line(line, into)?;
                line = Line::new();
            } else {
                line.push(self.vertices, byte);
            }
        }
        self.line = line;
        Ok(())
    }

    /// Counts the line, which ends here, and appends its edges.
    fn end_line(&mut self, line: Line, into: &mut Vec<Edge>) -> Result<(), TextFault>
        ensures counts { self.new ≡ record self.old { ended = min (self.old.ended + 1) most_lines } }
        ensures ok { let said = line_end self.old.vertices line in
            OnOk result ((is_malformed said ≡ false) × (into.new.items ≡ into.old.items ++ edges_said self.old.both said)) }
        ensures err { let said = line_end self.old.vertices line in
            IfErr result (IsLineFault (min (self.old.ended + 1) most_lines) said self.old.both into.old.items into.new.items) }
    {
        self.ended = self.ended.saturating_add(1);
        match line.meaning(self.vertices) {
            Meaning::Nothing => Ok(()),
            Meaning::One(edge) => append(edge, self.both, into),
            Meaning::Malformed => Err(TextFault::BadLine(self.ended)),
        }
    }
}

/// Appends the edge, with `both` in both directions.
fn append(edge: Edge, both: bool, into: &mut Vec<Edge>) -> Result<(), TextFault>
    ensures ok { OnOk result (into.new.items ≡ into.old.items ++ directions both edge) }
    ensures err { IfErr result (λ fault. fault ≡ TextFault.Memory) }
    ensures front { (added : List Edge) × (rest : List Edge) × (into.new.items ≡ into.old.items ++ added) × (directions both edge ≡ added ++ rest) }
{
    into.push(edge).map_err(|_| TextFault::Memory)?;
    if both {
        let back = Edge {
            src: edge.dst,
            dst: edge.src,
            weight: edge.weight,
        };
        into.push(back).map_err(|_| TextFault::Memory)?;
    }
    Ok(())
}
