//! The lines that tell of an ending.
ghost use Rattle.std.specs.Prelude.{◌≡◌, ◌+◌, ◌*◌, ◌≤◌, ◌++◌, length, codes};
ghost use Rattle.arrayvec.specs.ArrayVec.{array_vec_len};
ghost use Rattle.endings.specs.Telling.{Says};
ghost use Rattle.endings.specs.Endings.{engine_lines, message, name_of, report_lines, with_number, with_numbers};

use crate::ending::{Ending, Report};
use arrayvec::ArrayVec;
use itoa::Buffer;
use ports::{Sink, write_all};
use store_reader::Part;

/// A message with its line feeds. The longest is the report of eight engines: with 20 digits for each number its lines have
/// 28 + 8 * 56 + 28 + 30 bytes.
pub type MessageLine = ArrayVec<u8, 534>;

const USAGE: &[u8] =
    b"usage: chaos_cli run|bench|resume|drop [bfs ROOT|labels|sssp ROOT|degrees|pagerank ROUNDS] [options]\n";

/// Writes the message of an ending, or nothing where there is none: the lines of a report only if `reports`. A sink that
/// fails is let be: it changes no status.
pub fn tell<E: Sink>(ending: &Ending, reports: bool, err: &mut E)
    ensures { Says reports ending.now (E.written err.old) (E.written err.new) (E.faults err.old) (E.faults err.new) }
{
    let _ = write_all(err, &message_line(ending, reports));
}

/// The message of an ending.
#[tactic(auto, unfolding(crate::specs::Endings::message))]
fn message_line(ending: &Ending, reports: bool) -> MessageLine
    ensures { result.items ≡ message reports ending.now }
{
    match *ending {
        Ending::Answered(report) if reports => reported(&report),
        Ending::Answered(_) | Ending::Dropped => plain_line(b""),
        Ending::Usage => plain_line(USAGE),
        Ending::BadLine(line) => numbered_line(b"line ", line, b" is malformed\n"),
        Ending::DiskFault => plain_line(b"disk fault\n"),
        Ending::RoundLimit(limit) => numbered_line(
            b"no fixpoint within ",
            u64::from(limit),
            b" rounds\n",
        ),
        Ending::Memory => plain_line(b"out of memory\n"),
        Ending::ReadFault => plain_line(b"read fault\n"),
        Ending::WriteFault => plain_line(b"write fault\n"),
        Ending::NotPrepared => plain_line(b"store is not prepared\n"),
        Ending::EnginesDiffer { held, asked } => line_of_two(
            b"held ",
            u64::from(held),
            b", asked ",
            u64::from(asked),
            b"\n",
        ),
        Ending::Damaged {
            part,
            engine,
            place,
        } => damage_line(part, engine, place),
        Ending::TooLong(limit) => numbered_line(b"text is longer than ", limit, b" bytes\n"),
        Ending::StoreHolds => plain_line(b"store holds a job\n"),
    }
}

/// The lines of a report.
#[tactic(auto, unfolding(crate::specs::Endings::report_lines))]
fn reported(report: &Report) -> MessageLine
    ensures { result.items ≡ report_lines report.now }
{
    let mut line = MessageLine::new();
    append_number(&mut line, b"rounds ", report.rounds, b"\n");
    append_engines(&mut line, &report.chunks[..report.engines.min(8) as usize]);
    append_number(&mut line, b"claims ", report.claims, b"\n");
    append_number(&mut line, b"admitted ", report.admitted, b"\n");
    line
}

/// Appends a line for each engine.
fn append_engines(line: &mut MessageLine, chunks: &[u64])
    requires few { length chunks.now ≤ 8 }
    requires room { array_vec_len line.old ≤ 28 }
    ensures items { line.new.items ≡ line.old.items ++ engine_lines 0 chunks.now }
    ensures len { array_vec_len line.new ≤ array_vec_len line.old + 56 * length chunks.now }
{
    for (engine, &count) in chunks.iter().enumerate() {
        append_number(line, b"engine ", engine as u64, b"");
        append_number(line, b" chunks ", count, b"\n");
    }
}

fn plain_line(text: &[u8]) -> MessageLine
    requires { length text.now ≤ 120 }
    ensures { result.items ≡ text.now }
{
    let mut line = MessageLine::new();
    append(&mut line, text);
    line
}

fn numbered_line(before: &[u8], number: u64, after: &[u8]) -> MessageLine
    requires before_fits { length before.now ≤ 40 }
    requires after_fits { length after.now ≤ 40 }
    ensures { result.items ≡ with_number before.now number after.now }
{
    let mut line = MessageLine::new();
    append_number(&mut line, before, number, after);
    line
}

/// The message of damage: the kind of device, its engine and the byte.
fn damage_line(part: Part, engine: u32, place: u64) -> MessageLine
    ensures { result.items ≡ with_numbers (name_of part) engine (codes " is damaged at byte ") place (codes "\n") }
{
    let (engine, between) = (u64::from(engine), b" is damaged at byte ");
    match part {
        Part::Graph => line_of_two(b"graph ", engine, between, place, b"\n"),
        Part::Values => line_of_two(b"values ", engine, between, place, b"\n"),
        Part::Lane => line_of_two(b"lane ", engine, between, place, b"\n"),
    }
}

fn line_of_two(before: &[u8], first: u64, between: &[u8], second: u64, after: &[u8]) -> MessageLine
    requires before_fits { length before.now ≤ 20 }
    requires between_fits { length between.now ≤ 20 }
    requires after_fits { length after.now ≤ 20 }
    ensures { result.items ≡ with_numbers before.now first between.now second after.now }
{
    let mut line = MessageLine::new();
    append_number(&mut line, before, first, b"");
    append_number(&mut line, between, second, after);
    line
}

/// Appends a number in decimal to a line, with what stands before and after it.
pub fn append_number(line: &mut MessageLine, before: &[u8], number: u64, after: &[u8])
    requires { array_vec_len line.old + length before.now + 20 + length after.now ≤ 534 }
    ensures items { line.new.items ≡ line.old.items ++ with_number before.now number after.now }
    ensures len { array_vec_len line.new ≤ array_vec_len line.old + length before.now + 20 + length after.now }
{
    let mut buffer = Buffer::new();
    append(line, before);
    append(line, buffer.format(number).as_bytes());
    append(line, after);
}

fn append(line: &mut MessageLine, text: &[u8])
    requires { array_vec_len line.old + length text.now ≤ 534 }
    ensures items { line.new.items ≡ line.old.items ++ text.now }
    ensures len { array_vec_len line.new ≡ array_vec_len line.old + length text.now }
{
    let _ = line.try_extend_from_slice(text);
}
