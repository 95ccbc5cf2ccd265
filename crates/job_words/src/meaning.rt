// The command of what was read. Each function is the definition of its name over the texts of the matches.
ghost use Rattle.std.specs.Prelude.{◌≡◌, ◌≤◌, IfSome, is_none, map, option_map};
ghost use Rattle.job_words.specs.Tables.{absent, between, vertex};
ghost use Rattle.job_words.specs.Commands.{command_by, argument_given, bench_in, discard_in, command_in, few_parts, flag_in, gives_once, gives_only, has_or_lacks, is_once, job_in, option_in, program_in, program_of, resume_in, run_in};
ghost use Rattle.job_words.specs.Reader.{text_in, texts_in};
ghost use Rattle.graph_model.specs.Partitions.{IsPartCount, part_count};
ghost use Rattle.job_words.specs.Names.{name_of};
ghost use Rattle.job_words.specs.Rows.{flag_of, option_of};
ghost use Rattle.std.specs.List.{list_all};

use crate::command::Command;
use crate::decimal::{number_below, number_between};
use crate::tables::{
    ALPHA, ARGUMENT, CHUNK, COMMAND, CommandName, EDGES, ENGINES, FLAGS, FlagEntry, LIMIT,
    MAX_PARTS, MOST, OPTIONS, OptionEntry, POSITIONS, PROGRAM, PositionEntry, REPORT, RNG, SCALE,
    SEED, VERTICES,
};
use clap::ArgMatches;
use graph_model::{Job, Program};

/// The number of an option, or its default. None where it must be given, or its text is no number of its range.
fn option_in(matches: &ArgMatches<'_>, entry: &OptionEntry) -> Option<u64>
    ensures value { result ≡ option_in (option_of entry.now) (text_in matches.now) }
    ensures within { IfSome result (λ number. (entry.now.least ≤ number) × (number ≤ entry.now.greatest)) }
{
    match matches.get_str(entry.name) {
        None => entry.default,
        Some(text) => number_between(text, entry.least, entry.greatest),
    }
}

fn flag_in(matches: &ArgMatches<'_>, entry: &FlagEntry) -> bool
    ensures { result ≡ flag_in (flag_of entry.now) (text_in matches.now) }
{
    matches.get_str(entry.name).is_some()
}

fn no_argument(argument: Option<&str>, program: Program) -> Option<Program>
    ensures { result ≡ option_map (λ _. program) (argument_given absent 0 (option_map (λ text. text.now) argument.entry)) }
{
    match argument {
        None => Some(program),
        Some(_) => None,
    }
}

fn vertex(argument: Option<&str>, vertices: u32) -> Option<u32>
    ensures { result ≡ argument_given vertex vertices (option_map (λ text. text.now) argument.entry) }
{
    let number = number_below(argument?, u64::from(vertices))?;
    Some(number as u32)
}

fn argument_between(argument: Option<&str>, least: u32, greatest: u32) -> Option<u32>
    ensures { result ≡ argument_given (between least greatest) 0 (option_map (λ text. text.now) argument.entry) }
{
    let number = number_between(argument?, u64::from(least), u64::from(greatest))?;
    Some(number as u32)
}

/// The program of a name and an argument, for a graph of so many vertices. One more program is one more row.
fn program_of(name: &str, vertices: u32, argument: Option<&str>) -> Option<Program>
    ensures { result ≡ program_of name.now vertices (option_map (λ text. text.now) argument.entry) }
{
    match name {
        "bfs" => Some(Program::Bfs(vertex(argument, vertices)?)),
        "labels" => no_argument(argument, Program::Labels),
        "sssp" => Some(Program::Sssp(vertex(argument, vertices)?)),
        "degrees" => no_argument(argument, Program::Degrees),
        "pagerank" => Some(Program::PageRank(argument_between(argument, 1, 100_000)?)),
        _ => None,
    }
}

fn program_in(matches: &ArgMatches<'_>, vertices: u32) -> Option<Program>
    ensures { result ≡ program_in vertices (text_in matches.now) }
{
    let name = matches.get_str(PROGRAM.name)?;
    program_of(name, vertices, matches.get_str(ARGUMENT.name))
}

/// The least multiple of the engines that leaves no partition more vertices than `most`.
fn part_count(vertices: u32, engines: u32, most: u32) -> u64
    requires engines { (1 ≤ engines) × (engines ≤ 8) }
    requires most { 1 ≤ most }
    ensures value { result ≡ part_count vertices engines most }
    ensures least { IsPartCount vertices engines most result }
{
    let each_turn = u64::from(engines) * u64::from(most);
    let turns = u64::from(vertices).div_ceil(each_turn).max(1);
    u64::from(engines) * turns
}

/// The job, where it has few enough partitions.
fn few_parts(job: Job) -> Option<Job>
    requires engines { (1 ≤ job.engines) × (job.engines ≤ 8) }
    requires most { 1 ≤ job.most }
    ensures { result ≡ few_parts job }
{
    if part_count(job.vertices, job.engines, job.most) <= MAX_PARTS {
        Some(job)
    } else {
        None
    }
}

/// The job on a graph of so many vertices.
fn job_in(matches: &ArgMatches<'_>, vertices: u32) -> Option<Job>
    ensures { result ≡ job_in vertices (text_in matches.now) }
{
    let program = program_in(matches, vertices)?;
    let engines = option_in(matches, &ENGINES)? as u32;
    let most = option_in(matches, &MOST)? as u32;
    let chunk = option_in(matches, &CHUNK)? as u32;
    let seed = option_in(matches, &SEED)?;
    let alpha = option_in(matches, &ALPHA)? as u32;
    let limit = option_in(matches, &LIMIT)? as u32;
    few_parts(Job {
        program,
        vertices,
        engines,
        most,
        chunk,
        seed,
        alpha,
        limit,
        format: 2,
        keep: 1,
    })
}

fn lacks(matches: &ArgMatches<'_>, name: &str) -> bool
    ensures { result ≡ is_none (text_in matches.now name.now) }
{
    matches.get_str(name).is_none()
}

/// Whether the command has the thing of this name, or it was not given.
fn has_or_lacks(
    matches: &ArgMatches<'_>,
    command: CommandName,
    commands: &[CommandName],
    name: &str,
) -> bool
    ensures { result ≡ has_or_lacks (name_of command) (text_in matches.now) (map name_of commands.now) name.now }
{
    command.is_among(commands) || lacks(matches, name)
}

fn fit_positions(matches: &ArgMatches<'_>, command: CommandName, entries: &[PositionEntry]) -> bool
    ensures { result ≡ list_all (λ entry. has_or_lacks (name_of command) (text_in matches.now)
        (map name_of entry.commands.now) entry.name.now) entries.now }
{
    entries.iter().all(|entry| has_or_lacks(matches, command, entry.commands, entry.name))
}

fn fit_options(matches: &ArgMatches<'_>, command: CommandName, entries: &[OptionEntry]) -> bool
    ensures { result ≡ list_all (λ entry. has_or_lacks (name_of command) (text_in matches.now)
        (map name_of entry.commands.now) entry.name.now) entries.now }
{
    entries.iter().all(|entry| has_or_lacks(matches, command, entry.commands, entry.name))
}

fn fit_flags(matches: &ArgMatches<'_>, command: CommandName, entries: &[FlagEntry]) -> bool
    ensures { result ≡ list_all (λ entry. has_or_lacks (name_of command) (text_in matches.now)
        (map name_of entry.commands.now) entry.name.now) entries.now }
{
    entries.iter().all(|entry| has_or_lacks(matches, command, entry.commands, entry.name))
}

/// Whether nothing was given that the command has not.
fn gives_only(matches: &ArgMatches<'_>, command: CommandName) -> bool
    ensures { result ≡ gives_only (name_of command) (text_in matches.now) }
{
    fit_positions(matches, command, &POSITIONS)
        && fit_options(matches, command, &OPTIONS)
        && fit_flags(matches, command, &FLAGS)
}

fn run_in(matches: &ArgMatches<'_>) -> Option<Command>
    ensures { result ≡ run_in (text_in matches.now) }
{
    let vertices = option_in(matches, &VERTICES)? as u32;
    let job = job_in(matches, vertices)?;
    let report = flag_in(matches, &REPORT);
    Some(Command::Run { job, report })
}

fn bench_in(matches: &ArgMatches<'_>) -> Option<Command>
    ensures { result ≡ bench_in (text_in matches.now) }
{
    let scale = option_in(matches, &SCALE)? as u32;
    let edges = option_in(matches, &EDGES)?;
    let rng = option_in(matches, &RNG)?;
    let job = job_in(matches, 1 << scale)?;
    Some(Command::Bench {
        job,
        scale,
        edges,
        rng,
    })
}

fn resume_in(matches: &ArgMatches<'_>) -> Option<Command>
    ensures { result ≡ resume_in (text_in matches.now) }
{
    let engines = option_in(matches, &ENGINES)? as u32;
    let report = flag_in(matches, &REPORT);
    Some(Command::Resume { engines, report })
}

fn discard_in(matches: &ArgMatches<'_>) -> Option<Command>
    ensures { result ≡ discard_in (text_in matches.now) }
{
    let engines = option_in(matches, &ENGINES)? as u32;
    Some(Command::Discard { engines })
}

/// The command of the matches, in which nothing was given twice.
fn command_in(matches: &ArgMatches<'_>) -> Option<Command>
    ensures { result ≡ command_in (text_in matches.now) }
{
    let command = CommandName::named(matches.get_str(COMMAND.name)?)?;
    if !gives_only(matches, command) {
        return None;
    }
    match command {
        CommandName::Run => run_in(matches),
        CommandName::Bench => bench_in(matches),
        CommandName::Resume => resume_in(matches),
        CommandName::Discard => discard_in(matches),
    }
}

fn is_once(matches: &ArgMatches<'_>, name: &str) -> bool
    ensures { result ≡ is_once (texts_in matches.now name.now) }
{
    match matches.get_raw(name) {
        None => true,
        Some(texts) => texts.len() <= 1,
    }
}

fn options_once(matches: &ArgMatches<'_>, entries: &[OptionEntry]) -> bool
    ensures { result ≡ list_all (λ entry. is_once (texts_in matches.now entry.name.now)) entries.now }
{
    entries.iter().all(|entry| is_once(matches, entry.name))
}

fn flags_once(matches: &ArgMatches<'_>, entries: &[FlagEntry]) -> bool
    ensures { result ≡ list_all (λ entry. is_once (texts_in matches.now entry.name.now)) entries.now }
{
    entries.iter().all(|entry| is_once(matches, entry.name))
}

fn gives_once(matches: &ArgMatches<'_>) -> bool
    ensures { result ≡ gives_once (texts_in matches.now) }
{
    options_once(matches, &OPTIONS) && flags_once(matches, &FLAGS)
}

/// The command of the matches.
#[tactic(auto, using(crate::proofs::GivenLemmas::given_once))]
pub(crate) fn command_by(matches: &ArgMatches<'_>) -> Option<Command>
    ensures { result ≡ command_by (texts_in matches.now) }
{
    if !gives_once(matches) {
        return None;
    }
    command_in(matches)
}
