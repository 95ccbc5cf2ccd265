// What a command line asks for.
ghost use Rattle.std.specs.Prelude.{◌≡◌, Some};
ghost use Rattle.job_words.specs.declared.command.WordFault.TheVariants as fault;

use graph_model::Job;
use std::alloc::AllocError;

/// What a command line asks for.
#[derive(Clone, Copy, PartialEq, Eq, Debug)]
pub enum Command {
    /// Runs a job over the text of the input; with `report`, tells afterwards how it went.
    Run {
        job: Job,
        report: bool,
    },
    /// Goes on with the job of a store of so many engines, 1 to 8.
    Resume {
        engines: u32,
        report: bool,
    },
    /// Gives up the job of a store of so many engines, 1 to 8.
    Discard {
        engines: u32,
    },
    /// Runs a job over a made text: 2^`scale` vertices, `scale` being 0 to 22, and 0 to 268,435,456 `edges`, drawn from
    /// the number `rng`.
    Bench {
        job: Job,
        scale: u32,
        edges: u64,
        rng: u64,
    },
}

impl Command {
    ghost use Rattle.job_words.specs.Commands.{engines_of};

    /// The engines that the command asks for, 1 to 8.
    pub fn engines(&self) -> u32
        ensures { result ≡ engines_of (Some self.now) }
    {
        match self {
            Command::Run { job, .. } | Command::Bench { job, .. } => job.engines,
            Command::Resume { engines, .. } | Command::Discard { engines } => *engines,
        }
    }
}

/// Why the words of a command line gave no command.
#[derive(Clone, Copy, PartialEq, Eq, Debug)]
pub enum WordFault {
    /// The words are refused.
    Usage,
    /// No memory was left to read them.
    Memory,
}

impl From<AllocError> for WordFault {
    ghost from_gives = { λ _ made. made ≡ fault.Memory };

    fn from(_: AllocError) -> WordFault {
        WordFault::Memory
    }
}
