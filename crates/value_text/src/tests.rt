use crate::{Shown, put_line};
use arrayvec::ArrayVec;
use gather_laws::{NONE, Value};
use std::process::Abort;

// One buffer serves all lines.
fn expect_line(
    rt: &impl Abort,
    line: &mut ArrayVec<u8, 64>,
    vertex: u32,
    numbers: (u64, u64),
    shown: Shown,
    wanted: &[u8],
) {
    let (main, side) = numbers;
    put_line(line, vertex, Value { main, side }, shown);
    assert_eq!(rt; line.as_slice(), wanted);
}

#[test]
fn lines_of_values(rt: HostRuntime) {
    let mut line = ArrayVec::new();
    expect_line(&rt, &mut line, 0, (0, 7), Shown::Single, b"0 0\n");
    expect_line(&rt, &mut line, 3, (NONE, 0), Shown::Single, b"3 -\n");
    expect_line(&rt, &mut line, 1, (2, 0), Shown::Pair, b"1 2 0\n");
    expect_line(&rt, &mut line, 10, (NONE, NONE), Shown::Pair, b"10 - -\n");
    let longest = b"4294967295 18446744073709551614 18446744073709551614\n";
    expect_line(
        &rt,
        &mut line,
        u32::MAX,
        (NONE - 1, NONE - 1),
        Shown::Pair,
        longest,
    );
    expect_line(&rt, &mut line, 0, (1, 1), Shown::Single, b"0 1\n");
}
