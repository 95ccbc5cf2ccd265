// Command lines near the borders, some of them whole. The words of a line stand between single spaces, so that two spaces,
// or one at an end, enclose an empty word.
use crate::call::words_of;
use graph_model::{Job, Program};
use job_words::{Command, WordFault, job_of, wanted};
use std::alloc::Global;
use std::process::Abort;
use std::test::*;

fn expect_command(rt: &impl Abort, alloc: Global, line: &str, wanted: Command) {
    let words = words_of(rt, alloc, line);
    assert_eq!(rt; job_of(alloc, words.as_slice()), Ok(wanted), "{line}");
}

fn expect_each(rt: &impl Abort, alloc: Global, lines: &str, refused: bool) {
    for line in lines.lines() {
        let words = words_of(rt, alloc, line);
        let command = job_of(alloc, words.as_slice());
        assert_eq!(rt; command == Err(WordFault::Usage), refused, "{line}");
    }
}

/// A job with the defaults.
fn plain_job(program: Program, vertices: u32) -> Job {
    Job {
        program,
        vertices,
        engines: 1,
        most: 2_097_152,
        chunk: 4_096,
        seed: 1,
        alpha: 100,
        limit: 100_000,
        format: 2,
        keep: 1,
    }
}

#[test]
fn whole_commands(rt: HostRuntime) {
    let alloc = rt.alloc();
    let run =
        "--vertices 640 run --seed 18446744073709551615 sssp --alpha=0 --report 00 --most=10 --engines 8 --chunk 1 --limit 7";
    let job = Job {
        engines: 8,
        most: 10,
        chunk: 1,
        seed: u64::MAX,
        alpha: 0,
        limit: 7,
        ..plain_job(Program::Sssp(0), 640)
    };
    expect_command(&rt, alloc, run, Command::Run { job, report: true });
    let bench = Command::Bench {
        job: plain_job(Program::PageRank(5), 4_194_304),
        scale: 22,
        edges: 268_435_456,
        rng: 0,
    };
    let line = "bench pagerank 5 --scale 22 --edges 268435456 --rng 0";
    expect_command(&rt, alloc, line, bench);
    let resume = Command::Resume {
        engines: 2,
        report: true,
    };
    expect_command(&rt, alloc, "resume --report --engines=2", resume);
    expect_command(&rt, alloc, "drop", Command::Discard { engines: 1 });
}

static TAKEN: &str = "run bfs 3 --vertices 4
run bfs 0000000000000000000000000003 --vertices 04
run labels --vertices 67108864
run degrees --vertices 0
run pagerank 100000 --vertices 4 --limit 1000000
run labels --vertices 64 --most 1 --engines 8
run labels --vertices 3 --alpha 10000 --chunk 65536
bench sssp 0 --scale 0 --edges 0";

static REFUSED: &str = "
run bfs --vertices 4
run bfs 4 --vertices 4
run bfs 0 --vertices 0
run bfs 0 0 --vertices 4
run labels 0 --vertices 3
run degrees  --vertices 2
run labels --vertices 67108865
run labels --vertices 65 --most 1
run labels --vertices 641 --most 10 --engines 8
run pagerank 100001 --vertices 4
run bfs 0 --vertices 4 --seed 18446744073709551616
run bfs 0 --vertices 4 --seed 1 --seed=1
run bfs 0 --vertices 4 --report --report
run bfs 0 --vertices 4 --report=text
run bfs 0 --vertices 4 --seed --limit 3
run bfs 0 --vertices 4 --seed -1
run bfs 0 --vertices 4 --seed=
run bfs 0 --vertices 4 --seed ３
run bfs 0 --vertices 4 --see 1
run -- bfs 0 --vertices 4
run bfs 0 --vertices 4 -x
run --help
resume --vertices 2
drop --report
drop --engines 9
bench degrees --scale 23 --edges 3
bench degrees --scale 3 --edges 5 --vertices 8";

#[test]
fn lines_at_the_borders(rt: HostRuntime) {
    expect_each(&rt, rt.alloc(), TAKEN, false);
    expect_each(&rt, rt.alloc(), REFUSED, true);
}

#[test]
fn engines_wanted(rt: HostRuntime) {
    let alloc = rt.alloc();
    let words = words_of(&rt, alloc, "resume --engines 2");
    assert_eq!(&rt; wanted(alloc, words.as_slice()), Ok(2));
    let words = words_of(&rt, alloc, "drop --engines 9");
    assert_eq!(&rt; wanted(alloc, words.as_slice()), Ok(0));
}
