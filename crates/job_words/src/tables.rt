// The tables of the command line: what may be given to which command. One more positional word, option or flag is one
// more row.
ghost use Rattle.std.specs.Prelude.{◌≡◌, ◌≤◌, option_map};
ghost use Rattle.std.specs.List.{list_any};
ghost use Rattle.std.specs.Option.{ForSome};
ghost use Rattle.std.specs.Str.{bytes_eq};
ghost use Rattle.job_words.specs.Commands.{command_named};
ghost use Rattle.job_words.specs.Names.{name_of};

/// No job has more partitions.
pub(crate) const MAX_PARTS: u64 = 64;

/// The name of a command.
#[derive(Clone, Copy)]
pub(crate) enum CommandName {
    Run,
    Bench,
    Resume,
    Discard,
}

impl CommandName {
    fn name(self) -> &'static str
        ensures { result.now ≡ name_of self }
    {
        match self {
            CommandName::Run => "run",
            CommandName::Bench => "bench",
            CommandName::Resume => "resume",
            CommandName::Discard => "drop",
        }
    }

    pub(crate) fn named(name: &str) -> Option<CommandName>
        ensures { option_map name_of result ≡ option_map (λ row. row.name) (command_named name.now) }
    {
        match name {
            "run" => Some(CommandName::Run),
            "bench" => Some(CommandName::Bench),
            "resume" => Some(CommandName::Resume),
            "drop" => Some(CommandName::Discard),
            _ => None,
        }
    }

    fn is_named(self, name: &str) -> bool
        ensures { result ≡ bytes_eq (name_of self) name.now }
    {
        self.name() == name
    }

    pub(crate) fn is_among(self, commands: &[CommandName]) -> bool
        ensures { result ≡ list_any (λ other. bytes_eq (name_of other) (name_of self)) commands.now }
    {
        commands.iter().any(|other| other.is_named(self.name()))
    }
}

/// A positional word.
#[derive(Clone, Copy)]
pub(crate) struct PositionEntry {
    pub name: &'static str,
    pub commands: &'static [CommandName],
}

/// An option with a number in a range, and what it is where it is not given.
#[derive(Clone, Copy)]
pub(crate) struct OptionEntry {
    pub name: &'static str,
    pub least: u64,
    pub greatest: u64,
    /// None where the option must be given.
    pub default: Option<u64>,
    pub commands: &'static [CommandName],
    ghost default_in_range: { ForSome default (λ number. (least ≤ number) × (number ≤ greatest)) },
}

/// A flag.
#[derive(Clone, Copy)]
pub(crate) struct FlagEntry {
    pub name: &'static str,
    pub commands: &'static [CommandName],
}

const ALL: &[CommandName] = &[
    CommandName::Run,
    CommandName::Bench,
    CommandName::Resume,
    CommandName::Discard,
];

const JOBS: &[CommandName] = &[CommandName::Run, CommandName::Bench];

pub(crate) const COMMAND: PositionEntry = PositionEntry {
    name: "command",
    commands: ALL,
};

pub(crate) const PROGRAM: PositionEntry = PositionEntry {
    name: "program",
    commands: JOBS,
};

pub(crate) const ARGUMENT: PositionEntry = PositionEntry {
    name: "argument",
    commands: JOBS,
};

/// The positional words, in order.
pub(crate) const POSITIONS: [PositionEntry; 3] = [COMMAND, PROGRAM, ARGUMENT];

pub(crate) const VERTICES: OptionEntry = OptionEntry {
    name: "vertices",
    least: 0,
    greatest: 67_108_864,
    default: None,
    commands: &[CommandName::Run],
};

pub(crate) const ENGINES: OptionEntry = OptionEntry {
    name: "engines",
    least: 1,
    greatest: 8,
    default: Some(1),
    commands: ALL,
};

pub(crate) const MOST: OptionEntry = OptionEntry {
    name: "most",
    least: 1,
    greatest: 67_108_864,
    default: Some(2_097_152),
    commands: JOBS,
};

pub(crate) const CHUNK: OptionEntry = OptionEntry {
    name: "chunk",
    least: 1,
    greatest: 65_536,
    default: Some(4_096),
    commands: JOBS,
};

pub(crate) const SEED: OptionEntry = OptionEntry {
    name: "seed",
    least: 0,
    greatest: u64::MAX,
    default: Some(1),
    commands: JOBS,
};

pub(crate) const ALPHA: OptionEntry = OptionEntry {
    name: "alpha",
    least: 0,
    greatest: 10_000,
    default: Some(100),
    commands: JOBS,
};

pub(crate) const LIMIT: OptionEntry = OptionEntry {
    name: "limit",
    least: 1,
    greatest: 1_000_000,
    default: Some(100_000),
    commands: JOBS,
};

pub(crate) const SCALE: OptionEntry = OptionEntry {
    name: "scale",
    least: 0,
    greatest: 22,
    default: None,
    commands: &[CommandName::Bench],
};

pub(crate) const EDGES: OptionEntry = OptionEntry {
    name: "edges",
    least: 0,
    greatest: 268_435_456,
    default: None,
    commands: &[CommandName::Bench],
};

pub(crate) const RNG: OptionEntry = OptionEntry {
    name: "rng",
    least: 0,
    greatest: u64::MAX,
    default: Some(1),
    commands: &[CommandName::Bench],
};

/// The options.
pub(crate) const OPTIONS: [OptionEntry; 10] = [
    VERTICES, ENGINES, MOST, CHUNK, SEED, ALPHA, LIMIT, SCALE, EDGES, RNG,
];

pub(crate) const REPORT: FlagEntry = FlagEntry {
    name: "report",
    commands: &[CommandName::Run, CommandName::Resume],
};

/// The flags.
pub(crate) const FLAGS: [FlagEntry; 1] = [REPORT];
