// The lines of a summary.
ghost use Rattle.std.specs.Prelude.{◌≡◌};
ghost use Rattle.bench_run.specs.Summaries.{summary_text};

use endings::{MessageLine, append_number};
use rmat_source::Summary;

/// The summary of an answer that was written to a sink which sums it up.
pub(crate) fn summary_lines(vertices: u32, edges: u64, rounds: u64, answer: &Summary) -> MessageLine
    ensures { result.items ≡ summary_text vertices edges rounds answer.now }
{
    let mut lines = MessageLine::new();
    append_number(&mut lines, b"vertices ", u64::from(vertices), b"\n");
    append_number(&mut lines, b"edges ", edges, b"\n");
    append_number(&mut lines, b"rounds ", rounds, b"\n");
    append_number(&mut lines, b"lines ", answer.lines(), b"\n");
    append_number(&mut lines, b"bytes ", answer.bytes(), b"\n");
    append_number(&mut lines, b"mark ", u64::from(answer.mark()), b"\n");
    lines
}
