// The command of clap that reads the words.
ghost use Rattle.std.specs.Prelude.{◌≡◌, ◌↔◌, map, IfOk, string_bytes};
ghost use Rattle.std.specs.List.{list_any};
ghost use Rattle.clap.specs.Words.{app_of, with_rule};
ghost use Rattle.job_words.specs.Reader.{IsReadAs, bare_reader, is_lone, reader, with_rules, position_rule, option_rule, flag_rule};
ghost use Rattle.job_words.specs.Reading.{given_of};

use crate::command::WordFault;
use crate::tables::{FLAGS, FlagEntry, OPTIONS, OptionEntry, POSITIONS, PositionEntry};
use clap::error::ErrorKind;
use clap::{Arg, ArgAction, ArgMatches, Command};
use std::alloc::{AllocError, Global};

fn bare_reader<'a>(alloc: Global) -> Command<'a>
    ensures { app_of result ≡ bare_reader }
{
    Command::new(alloc, "chaos_cli")
        .no_binary_name(true)
        .disable_help_flag(true)
        .disable_version_flag(true)
}

fn with_position<'a>(
    alloc: Global,
    command: Command<'a>,
    name: &'a str,
) -> Result<Command<'a>, AllocError>
    ensures { IfOk result (λ c. app_of c ≡ with_rule (app_of command.entry) (position_rule name.entry.now)) }
{
    let position = Arg::new(alloc, name);
    command.arg(position)
}

fn with_positions<'a>(
    alloc: Global,
    mut command: Command<'a>,
    entries: &[PositionEntry],
) -> Result<Command<'a>, AllocError>
    ensures { IfOk result (λ c. app_of c
        ≡ with_rules (app_of command.entry) (map (λ entry. position_rule entry.name.now) entries.now)) }
{
    for entry in entries {
        command = with_position(alloc, command, entry.name)?;
    }
    Ok(command)
}

/// Appended, so that each time the option is given is seen.
fn with_option<'a>(
    alloc: Global,
    command: Command<'a>,
    name: &'a str,
) -> Result<Command<'a>, AllocError>
    ensures { IfOk result (λ c. app_of c ≡ with_rule (app_of command.entry) (option_rule name.entry.now)) }
{
    let option = Arg::new(alloc, name).long(name).action(ArgAction::Append);
    command.arg(option)
}

fn with_options<'a>(
    alloc: Global,
    mut command: Command<'a>,
    entries: &[OptionEntry],
) -> Result<Command<'a>, AllocError>
    ensures { IfOk result (λ c. app_of c
        ≡ with_rules (app_of command.entry) (map (λ entry. option_rule entry.name.now) entries.now)) }
{
    for entry in entries {
        command = with_option(alloc, command, entry.name)?;
    }
    Ok(command)
}

/// An option without a text, each use of which counts as an empty one.
fn with_flag<'a>(
    alloc: Global,
    command: Command<'a>,
    name: &'a str,
) -> Result<Command<'a>, AllocError>
    ensures { IfOk result (λ c. app_of c ≡ with_rule (app_of command.entry) (flag_rule name.entry.now)) }
{
    let flag = Arg::new(alloc, name)
        .long(name)
        .action(ArgAction::Append)
        .num_args(0)
        .default_missing_value("");
    command.arg(flag)
}

fn with_flags<'a>(
    alloc: Global,
    mut command: Command<'a>,
    entries: &[FlagEntry],
) -> Result<Command<'a>, AllocError>
    ensures { IfOk result (λ c. app_of c
        ≡ with_rules (app_of command.entry) (map (λ entry. flag_rule entry.name.now) entries.now)) }
{
    for entry in entries {
        command = with_flag(alloc, command, entry.name)?;
    }
    Ok(command)
}

/// A simple command with the positional words, options and flags of the tables.
fn reader<'a>(alloc: Global) -> Result<Command<'a>, AllocError>
    ensures { IfOk result (λ c. app_of c ≡ reader) }
{
    let command = bare_reader(alloc);
    let command = with_positions(alloc, command, &POSITIONS)?;
    let command = with_options(alloc, command, &OPTIONS)?;
    with_flags(alloc, command, &FLAGS)
}

/// Whether the word is `-` or `--`, which clap would take.
fn is_lone(word: &str) -> bool
    ensures { result ≡ is_lone word.now }
{
    word == "-" || word == "--"
}

fn has_lone(words: &[String]) -> bool
    ensures { result ≡ list_any (λ word. is_lone (string_bytes word)) words.now }
{
    words.iter().any(|word| is_lone(word.as_str()))
}

fn fault_of(kind: ErrorKind) -> WordFault
    ensures { (result ≡ WordFault.Memory) ↔ (kind ≡ ErrorKind.OutOfMemory) }
{
    match kind {
        ErrorKind::OutOfMemory => WordFault::Memory,
        _ => WordFault::Usage,
    }
}

/// The words as clap reads them. `Usage` comes where a word is refused.
pub(crate) fn read_words<'a>(
    alloc: Global,
    words: &'a [String],
) -> Result<ArgMatches<'a>, WordFault>
    ensures read { IfOk result (IsReadAs (map string_bytes words.entry.now)) }
    ensures refused { result ≡ Err WordFault.Usage → given_of (map string_bytes words.entry.now) ≡ None }
{
    if has_lone(words) {
        return Err(WordFault::Usage);
    }
    let command = reader(alloc)?;
    match command.try_get_matches_from(words) {
        Ok(matches) => Ok(matches),
        Err(error) => Err(fault_of(error.kind())),
    }
}
