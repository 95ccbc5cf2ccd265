//! Jobs of nine vertices, by rows of a table.
ghost use Rattle.std.specs.Prelude.{◌≡◌, ◌+◌, ◌%◌};
ghost use Rattle.graph_model.specs.Jobs.{IsWellFormedJob, IsWellFormedProgram};

use crate::graphs::VERTICES;
use graph_model::{Job, Program};

/// The rows: each has 1 to 8 engines, one of three alphas, chunks of 1 to 3 records, and one of two limits.
pub(crate) const ROWS: u32 = 8 * 3 * 3 * 2;

/// By so much a row comes later that has the lower limit, and all else as this one.
pub(crate) const LOWER_LIMIT: u32 = 8 * 3 * 3;

/// The job of a row. Its partitions have at most two vertices, and with many engines some have none.
pub(crate) fn job_of(program: Program, row: u32) -> Job
    requires { IsWellFormedProgram 9 program }
    ensures job { IsWellFormedJob result }
    ensures format { result.format ≡ 2 }
    ensures engines { result.engines ≡ 1 + row % 8 }
{
    let alpha = match row / 8 % 3 {
        0 => 0,
        1 => 100,
        _ => 10_000,
    };
    let limit = match row / LOWER_LIMIT % 2 {
        0 => 30,
        _ => 2,
    };
    Job {
        program,
        vertices: VERTICES,
        engines: 1 + row % 8,
        most: 2,
        chunk: 1 + row / 24 % 3,
        seed: u64::from(row),
        alpha,
        limit,
        format: 2,
        keep: 1,
    }
}

/// Rows of two engines, one for each alpha.
pub(crate) const ON_TWO: [u32; 3] = [1, 9, 17];
