// The words of a command line.
ghost use Rattle.std.specs.Prelude.{◌≡◌, ◌≤◌, IfOk, Some, None, Err, map, string_bytes};
ghost use Rattle.job_words.specs.Commands.{IsInRanges, command_of, engines_of};

use crate::command::{Command, WordFault};
use crate::meaning::command_by;
use crate::reader::read_words;
use ports::Memory;
use std::alloc::Global;

/// The command that the words mean, which are those behind the program's name. `Usage` comes exactly where they are refused,
/// and `Memory` where no memory was left.
#[tactic(auto, using(crate::proofs::GivenLemmas::command_read, crate::proofs::GivenLemmas::command_unread))]
pub fn job_of(alloc: Global, words: &[String]) -> Result<Command, WordFault>
    ensures command { IfOk result (λ command. command_of (map string_bytes words.now) ≡ Some command) }
    ensures in_ranges { IfOk result IsInRanges }
    ensures refused { result ≡ Err WordFault.Usage → command_of (map string_bytes words.now) ≡ None }
{
    let matches = read_words(alloc, words)?;
    command_by(&matches).ok_or(WordFault::Usage)
}

/// The engines of the command that the words mean, 1 to 8, and 0 where they are refused.
#[tactic(auto, using(crate::proofs::RangeLemmas::few_engines))]
pub fn wanted(alloc: Global, words: &[String]) -> Result<u32, Memory>
    ensures engines { IfOk result (λ engines. engines ≡ engines_of (command_of (map string_bytes words.now))) }
    ensures at_most { IfOk result (λ engines. engines ≤ 8) }
{
    match job_of(alloc, words) {
        Ok(command) => Ok(command.engines()),
        Err(WordFault::Usage) => Ok(0),
        Err(WordFault::Memory) => Err(Memory),
    }
}
