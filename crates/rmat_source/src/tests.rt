// The texts of some numbers, from another ChaCha8.
use crate::{RmatText, Summary};
use ports::{Sink, Source, write_all};
use std::process::Abort;

fn expect_text(rt: &impl Abort, text: &mut RmatText, wanted: &[u8]) {
    let mut into = [0u8; 64];
    assert_eq!(rt; text.read(&mut into[..5]), Ok(5));
    assert_eq!(rt;
        text.read(&mut into[5..]),
        Ok(wanted.len().saturating_sub(5))
    );
    assert!(rt; into.starts_with(wanted));
    assert_eq!(rt; text.read(&mut into), Ok(0));
}

#[test]
fn texts_of_numbers(rt: HostRuntime) {
    expect_text(&rt, &mut RmatText::new(0, 3, 1), b"0 0 2\n0 0 4\n0 0 1\n");
    let small = b"0 0 3\n1 4 4\n0 0 3\n2 0 2\n0 0 2\n3 1 4\n";
    expect_text(&rt, &mut RmatText::new(3, 6, 1), small);
    let large = b"626752 405634 1\n9794 1119768 2\n2097544 442403 2\n";
    expect_text(&rt, &mut RmatText::new(22, 3, 7), large);
    let last = b"99 2 4\n256 537 4\n135 50 2\n209 46 4\n";
    expect_text(&rt, &mut RmatText::new(10, 4, u64::MAX), last);
}

fn poured(text: &mut RmatText) -> Summary {
    let mut summary = Summary::new();
    let mut piece = [0u8; 100];
    for _ in 0..10 {
        let count = text.read(&mut piece).unwrap_or(0);
        let _ = write_all(&mut summary, &piece[..count]);
    }
    summary
}

#[test]
fn a_summary_of_a_text(rt: HostRuntime) {
    let summary = poured(&mut RmatText::new(10, 100, 1));
    assert_eq!(rt;
        (summary.lines(), summary.bytes(), summary.mark()),
        (100, 881, 306768873)
    );
}

#[test]
fn a_summary_of_an_answer(rt: HostRuntime) {
    let mut summary = Summary::new();
    assert_eq!(rt; summary.write(b"0 3"), Ok(3));
    assert_eq!(rt; summary.write(b""), Ok(0));
    assert_eq!(rt; summary.write(b" 3\n"), Ok(3));
    assert_eq!(rt;
        (summary.lines(), summary.bytes(), summary.mark()),
        (1, 6, 1405303604)
    );
}
