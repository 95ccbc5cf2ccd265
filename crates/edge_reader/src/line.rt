ghost use Rattle.std.specs.Prelude.{◌≡◌, ◌<◌};
ghost use Rattle.edge_reader.specs.Line.{empty_line, line_after, line_end, grown, with_digit, with_field_ended, with_separator, with_return, with_other};

use graph_model::{Edge, MAX_WEIGHT, Meaning};

/// Numbers from here on are kept as they are: they are out of every range, whatever digits follow.
const OUT_OF_RANGE: u64 = 1 << 60;

/// How far a line has come.
#[derive(Clone, Copy)]
pub enum Stage {
    /// Nothing but separators.
    Blank,
    Comment,
    /// Within the source's digits.
    Source,
    AfterSource,
    /// Within the destination's digits.
    Target,
    AfterTarget,
    /// Within the weight's digits.
    Weight,
    AfterWeight,
    /// Nothing but separators and a carriage return.
    BlankReturn,
    /// An edge and a carriage return.
    EdgeReturn,
    /// Whatever follows, the line is malformed.
    Invalid,
}

/// A line that has not ended.
#[derive(Clone, Copy)]
pub struct Line {
    stage: Stage,
    source: u32,
    target: u32,
    /// The number that is being read, and behind the destination the weight.
    number: u64,
}

impl Line {
    /// A line of which no byte has come.
    pub fn new() -> Line
        ensures { result ≡ empty_line }
    {
        Line {
            stage: Stage::Blank,
            source: 0,
            target: 0,
            number: 0,
        }
    }

    /// Takes one more byte, which is no line feed, in a graph of so many vertices.
    pub fn push(&mut self, vertices: u32, byte: u8)
        ensures { self.new ≡ line_after vertices self.old byte }
    {
        match byte {
            b'0'..=b'9' => self.push_digit(u64::from(byte - b'0')),
            b' ' | b'\t' => self.push_separator(vertices),
            b'\r' => self.push_return(vertices),
            _ => self.push_other(byte),
        }
    }

    /// What the line says if it ends here.
    pub fn meaning(mut self, vertices: u32) -> Meaning
        ensures { result ≡ line_end vertices self }
    {
        self.end_field(vertices);
        match self.stage {
            Stage::Blank | Stage::BlankReturn | Stage::Comment => Meaning::Nothing,
            Stage::AfterTarget | Stage::AfterWeight | Stage::EdgeReturn => Meaning::One(Edge {
                src: self.source,
                dst: self.target,
                weight: self.number,
            }),
            _ => Meaning::Malformed,
        }
    }

    fn push_digit(&mut self, digit: u64)
        requires { digit < 10 }
        ensures { self.new ≡ with_digit self.old digit }
    {
        match self.stage {
            Stage::Source | Stage::Target | Stage::Weight => self.number = grow(self.number, digit),
            Stage::Blank => self.begin(Stage::Source, digit),
            Stage::AfterSource => self.begin(Stage::Target, digit),
            Stage::AfterTarget => self.begin(Stage::Weight, digit),
            Stage::Comment => {}
            _ => self.stage = Stage::Invalid,
        }
    }

    /// Begins a field with this digit.
    fn begin(&mut self, stage: Stage, digit: u64)
        ensures { self.new ≡ record self.old { stage = stage; number = digit } }
    {
        self.stage = stage;
        self.number = digit;
    }

    fn push_separator(&mut self, vertices: u32)
        ensures { self.new ≡ with_separator vertices self.old }
    {
        self.end_field(vertices);
        match self.stage {
            Stage::BlankReturn | Stage::EdgeReturn => self.stage = Stage::Invalid,
            _ => {}
        }
    }

    fn push_return(&mut self, vertices: u32)
        ensures { self.new ≡ with_return vertices self.old }
    {
        self.end_field(vertices);
        match self.stage {
            Stage::Blank => self.stage = Stage::BlankReturn,
            Stage::AfterTarget | Stage::AfterWeight => self.stage = Stage::EdgeReturn,
            Stage::Comment => {}
            _ => self.stage = Stage::Invalid,
        }
    }

    fn push_other(&mut self, byte: u8)
        ensures { self.new ≡ with_other self.old byte }
    {
        match self.stage {
            Stage::Comment => {}
            Stage::Blank if byte == b'#' => self.stage = Stage::Comment,
            _ => self.stage = Stage::Invalid,
        }
    }

    /// Ends the field that is being read, if one is.
    fn end_field(&mut self, vertices: u32)
        ensures { self.new ≡ with_field_ended vertices self.old }
    {
        let is_vertex = self.number < u64::from(vertices);
        match self.stage {
            Stage::Source if is_vertex => {
                self.stage = Stage::AfterSource;
                self.source = self.number as u32;
            }
            Stage::Target if is_vertex => {
                self.stage = Stage::AfterTarget;
                self.target = self.number as u32;
                self.number = 1;
            }
            Stage::Weight if self.number <= MAX_WEIGHT => self.stage = Stage::AfterWeight,
            Stage::Source | Stage::Target | Stage::Weight => self.stage = Stage::Invalid,
            _ => {}
        }
    }
}

/// The number with one more digit behind it.
fn grow(number: u64, digit: u64) -> u64
    requires { digit < 10 }
    ensures { result ≡ grown number digit }
{
    if number < OUT_OF_RANGE {
        number * 10 + digit
    } else {
        number
    }
}
