ghost use Rattle.std.specs.Prelude.{◌≡◌, None, IfOk, IsErr, IsErrOf, MatchBool, length, replicate};
ghost use Rattle.graph_model.specs.Rounds.{IsFinalValues, IsUnsettled, IsWithinGraph, first_values as values_of_round_0, values as values_of_round};
ghost use Rattle.plain_rounds.specs.declared.run.PlainFault.TheVariants.{Memory};

use crate::pass::next_round;
use crate::start::first_values;
use gather_laws::{Value, VertexProgram};
use graph_model::Edge;
use std::alloc::{AllocError, Global};

/// Why there are no final values.
#[derive(Clone, Copy, PartialEq, Eq, Debug)]
pub enum PlainFault {
    /// No round up to the limit repeats the values of the round before it.
    RoundLimit,
    /// No memory was left for the values.
    Memory,
}

impl From<AllocError> for PlainFault {
    ghost from_gives = { λ _ fault. fault ≡ Memory };

    fn from(_error: AllocError) -> PlainFault {
        PlainFault::Memory
    }
}

/// The values of the last round: of the program's fixed number of rounds, or else of the first round, from 1, that
/// repeats the values of the round before it.
///
/// Both ends of each edge are below `vertices`. The limit does not bear on a fixed number of rounds.
///
/// # Errors
///
/// `RoundLimit` where no round up to `limit` repeats, and `Memory`.
pub fn plain_run<P: VertexProgram>(
    alloc: Global,
    program: &P,
    vertices: u32,
    edges: &[Edge],
    limit: u32,
) -> Result<Vec<Value>, PlainFault>
    requires { IsWithinGraph vertices edges.now }
    ensures last { IfOk result (λ values.
        IsFinalValues (P.rules program.now) vertices edges.now limit values.items) }
    ensures unsettled { IsErrOf result PlainFault.RoundLimit → IsUnsettled (P.rules program.now) vertices edges.now limit }
    ensures settled { IsUnsettled (P.rules program.now) vertices edges.now limit → IsErr result }
{
    let mut sums = vec![in alloc; 0u64; vertices as usize]?;
    let mut values = first_values(alloc, program, edges, &mut sums)?;
    sums.fill(program.unit());
    if run_rounds(program, edges, limit, &mut values, &mut sums) {
        Ok(values)
    } else {
        Err(PlainFault::RoundLimit)
    }
}

// Runs to the last round, from the values of round 0, and tells whether there is one within the limit.
fn run_rounds<P: VertexProgram>(
    program: &P,
    edges: &[Edge],
    limit: u32,
    values: &mut [Value],
    sums: &mut [u64],
) -> bool
    requires within { IsWithinGraph (length values.old) edges.now }
    requires first { values.old ≡ values_of_round_0 (P.rules program.now) (length values.old) edges.now }
    requires units { sums.old ≡ replicate (length values.old) (P.rules program.now).unit }
    ensures { MatchBool result
        (IsFinalValues (P.rules program.now) (length values.old) edges.now limit values.new)
        (IsUnsettled (P.rules program.now) (length values.old) edges.now limit) }
{
    match program.rounds() {
        Some(rounds) => {
            run_fixed(program, edges, rounds, values, sums);
            true
        }
        None => run_to_repeat(program, edges, limit, values, sums),
    }
}

// Runs so many rounds, from the values of round 0.
fn run_fixed<P: VertexProgram>(
    program: &P,
    edges: &[Edge],
    rounds: u64,
    values: &mut [Value],
    sums: &mut [u64],
)
    requires within { IsWithinGraph (length values.old) edges.now }
    requires first { values.old ≡ values_of_round_0 (P.rules program.now) (length values.old) edges.now }
    requires units { sums.old ≡ replicate (length values.old) (P.rules program.now).unit }
    ensures { values.new ≡ values_of_round (P.rules program.now) (length values.old) edges.now rounds }
{
    for _round in 0..rounds {
        next_round(program, edges, values, sums);
    }
}

// Runs rounds until one repeats, from the values of round 0, and tells whether one did within the limit.
fn run_to_repeat<P: VertexProgram>(
    program: &P,
    edges: &[Edge],
    limit: u32,
    values: &mut [Value],
    sums: &mut [u64],
) -> bool
    requires open_ended { (P.rules program.now).rounds ≡ None }
    requires within { IsWithinGraph (length values.old) edges.now }
    requires first { values.old ≡ values_of_round_0 (P.rules program.now) (length values.old) edges.now }
    requires units { sums.old ≡ replicate (length values.old) (P.rules program.now).unit }
    ensures { MatchBool result
        (IsFinalValues (P.rules program.now) (length values.old) edges.now limit values.new)
        (IsUnsettled (P.rules program.now) (length values.old) edges.now limit) }
{
    for _round in 0..limit {
        if !next_round(program, edges, values, sums) {
            return true;
        }
    }
    false
}
