ghost use Rattle.std.specs.Prelude.{◌<◌};

use crate::{Edge, EdgeReader, TextFault};
use std::alloc::Global;
use std::process::Abort;

/// A text and the graph that it is read for.
#[derive(Clone, Copy)]
struct Sample<'a> {
    text: &'a [u8],
    vertices: u32,
    both: bool,
    limit: u64,
}

fn edge(src: u32, dst: u32, weight: u64) -> Edge {
    Edge { src, dst, weight }
}

/// Reads the text in pieces of so many bytes.
fn read(sample: Sample, size: usize, into: &mut Vec<Edge>) -> Result<(), TextFault>
    requires { 0 < size }
{
    let mut reader = EdgeReader::new(sample.vertices, sample.both, sample.limit);
    for piece in sample.text.chunks(size) {
        reader.feed(piece, into)?;
    }
    reader.finish(into)
}

/// Reads the text at every cut into pieces of one size.
fn gives(
    rt: &impl Abort,
    alloc: Global,
    sample: Sample,
    edges: &[Edge],
    outcome: Result<(), TextFault>,
) {
    for size in 1..=sample.text.len() {
        let mut found = Vec::new(alloc);
        let answer = read(sample, size, &mut found);
        assert_eq!(rt; answer, outcome, "in pieces of {size} bytes");
        assert_eq!(rt; found.as_slice(), edges, "in pieces of {size} bytes");
    }
}

fn directed(text: &[u8]) -> Sample<'_> {
    Sample {
        text,
        vertices: 3,
        both: false,
        limit: 1 << 40,
    }
}

#[test]
fn reads_comments_and_carriage_returns(rt: HostRuntime) {
    let sample = directed(b"# Nodes: 3\r\n0\t1\r\n\r\n \t# x\n 1  2 7\t");
    gives(
        &rt,
        rt.alloc(),
        sample,
        &[edge(0, 1, 1), edge(1, 2, 7)],
        Ok(()),
    );
}

#[test]
fn gives_both_directions(rt: HostRuntime) {
    let sample = Sample {
        both: true,
        ..directed(b"2 1 5\n0 0")
    };
    let edges = [edge(2, 1, 5), edge(1, 2, 5), edge(0, 0, 1), edge(0, 0, 1)];
    gives(&rt, rt.alloc(), sample, &edges, Ok(()));
}

#[test]
fn names_the_first_malformed_line(rt: HostRuntime) {
    let second = Err(TextFault::BadLine(2));
    gives(
        &rt,
        rt.alloc(),
        directed(b"0 1\n0 x\n1 2\ny\n"),
        &[edge(0, 1, 1)],
        second,
    );
    gives(
        &rt,
        rt.alloc(),
        directed(b"0 1\n0 3"),
        &[edge(0, 1, 1)],
        second,
    );
    gives(&rt, rt.alloc(), directed(b"\n0 1\r\r\n"), &[], second);
    gives(&rt, rt.alloc(), directed(b"#\n1 2 1 1\n"), &[], second);
}

#[test]
fn takes_numbers_up_to_their_ranges(rt: HostRuntime) {
    let greatest = directed(b"0002 0 1099511627775\n1 1 0");
    gives(
        &rt,
        rt.alloc(),
        greatest,
        &[edge(2, 0, 1_099_511_627_775), edge(1, 1, 0)],
        Ok(()),
    );
    let first = Err(TextFault::BadLine(1));
    gives(&rt, rt.alloc(), directed(b"2 0 1099511627776"), &[], first);
    gives(
        &rt,
        rt.alloc(),
        directed(b"18446744073709551616 0"),
        &[],
        first,
    );
}

#[test]
fn stops_at_the_limit(rt: HostRuntime) {
    let sample = Sample {
        limit: 4,
        ..directed(b"0 1\n0 1\n")
    };
    gives(
        &rt,
        rt.alloc(),
        sample,
        &[edge(0, 1, 1)],
        Err(TextFault::TooLong),
    );
    let all = Sample { limit: 8, ..sample };
    gives(
        &rt,
        rt.alloc(),
        all,
        &[edge(0, 1, 1), edge(0, 1, 1)],
        Ok(()),
    );
}

#[test]
fn answers_a_refusal_again(rt: HostRuntime) {
    let mut edges = Vec::new(rt.alloc());
    let mut reader = EdgeReader::new(2, false, 100);
    let refused = Err(TextFault::BadLine(2));
    assert_eq!(rt; reader.feed(b"0 1\n2 0\n", &mut edges), refused);
    assert_eq!(rt; reader.feed(b"1 0\n", &mut edges), refused);
    assert_eq!(rt; reader.finish(&mut edges), refused);
    assert_eq!(rt; edges.as_slice(), [edge(0, 1, 1)].as_slice());
}
