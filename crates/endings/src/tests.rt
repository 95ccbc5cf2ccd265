// The messages, each over a sink in memory.
use crate::{Ending, Report, tell};
use mem_devices::MemSink;
use std::alloc::Global;
use std::process::Abort;
use std::test::Fail;
use store_reader::Part;

const SMALL: Report = Report {
    rounds: 3,
    engines: 1,
    chunks: [1, 0, 0, 0, 0, 0, 0, 0],
    claims: 5,
    admitted: 0,
};

const LARGE: &[u8] =
    b"rounds 18446744073709551615\nengine 0 chunks 18446744073709551615\nengine 1 chunks 18446744073709551615\nengine 2 chunks 18446744073709551615\nengine 3 chunks 18446744073709551615\nengine 4 chunks 18446744073709551615\nengine 5 chunks 18446744073709551615\nengine 6 chunks 18446744073709551615\nengine 7 chunks 18446744073709551615\nclaims 18446744073709551615\nadmitted 18446744073709551615\n";

fn said(
    rt: &impl Abort,
    alloc: Global,
    ending: Ending,
    status: u8,
    message: &[u8],
) -> Result<(), Fail> {
    told(rt, alloc, ending, false, message)?;
    assert_eq!(rt; ending.status(), status);
    Ok(())
}

fn told(
    rt: &impl Abort,
    alloc: Global,
    ending: Ending,
    reports: bool,
    message: &[u8],
) -> Result<(), Fail> {
    let mut err = MemSink::new(alloc, 7, &[])?;
    tell(&ending, reports, &mut err);
    assert!(rt; err.written() == message, "{ending:?}");
    Ok(())
}

fn damaged(part: Part) -> Ending {
    Ending::Damaged {
        part,
        engine: 3,
        place: 18446744073709551615,
    }
}

#[test]
fn each_ending_has_its_line(rt: HostRuntime) -> Result<(), Fail> {
    let alloc = rt.alloc();
    said(&rt, alloc, Ending::Answered(SMALL), 0, b"")?;
    said(&rt, alloc, Ending::Dropped, 0, b"")?;
    said(
        &rt,
        alloc,
        Ending::Usage,
        1,
        b"usage: chaos_cli run|bench|resume|drop [bfs ROOT|labels|sssp ROOT|degrees|pagerank ROUNDS] [options]\n",
    )?;
    said(&rt, alloc, Ending::BadLine(2), 2, b"line 2 is malformed\n")?;
    said(&rt, alloc, Ending::DiskFault, 3, b"disk fault\n")?;
    said(
        &rt,
        alloc,
        Ending::RoundLimit(2),
        4,
        b"no fixpoint within 2 rounds\n",
    )?;
    said(&rt, alloc, Ending::Memory, 5, b"out of memory\n")?;
    said(&rt, alloc, Ending::ReadFault, 6, b"read fault\n")?;
    said(&rt, alloc, Ending::WriteFault, 7, b"write fault\n")
}

#[test]
fn each_ending_of_a_store_has_its_line(rt: HostRuntime) -> Result<(), Fail> {
    let alloc = rt.alloc();
    let differ = Ending::EnginesDiffer { held: 3, asked: 2 };
    said(
        &rt,
        alloc,
        Ending::NotPrepared,
        8,
        b"store is not prepared\n",
    )?;
    said(&rt, alloc, differ, 9, b"held 3, asked 2\n")?;
    said(
        &rt,
        alloc,
        damaged(Part::Graph),
        10,
        b"graph 3 is damaged at byte 18446744073709551615\n",
    )?;
    said(
        &rt,
        alloc,
        damaged(Part::Values),
        10,
        b"values 3 is damaged at byte 18446744073709551615\n",
    )?;
    said(
        &rt,
        alloc,
        damaged(Part::Lane),
        10,
        b"lane 3 is damaged at byte 18446744073709551615\n",
    )?;
    said(
        &rt,
        alloc,
        Ending::TooLong(8),
        11,
        b"text is longer than 8 bytes\n",
    )?;
    said(&rt, alloc, Ending::StoreHolds, 12, b"store holds a job\n")
}

#[test]
fn a_report_has_its_lines(rt: HostRuntime) -> Result<(), Fail> {
    let alloc = rt.alloc();
    let small = b"rounds 3\nengine 0 chunks 1\nclaims 5\nadmitted 0\n";
    told(&rt, alloc, Ending::Answered(SMALL), true, small)?;
    told(&rt, alloc, Ending::Dropped, true, b"")?;
    told(
        &rt,
        alloc,
        Ending::BadLine(2),
        true,
        b"line 2 is malformed\n",
    )?;
    let large = Report {
        rounds: u64::MAX,
        engines: 8,
        chunks: [u64::MAX; 8],
        claims: u64::MAX,
        admitted: u64::MAX,
    };
    told(&rt, alloc, Ending::Answered(large), true, LARGE)
}
