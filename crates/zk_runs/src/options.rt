//! `Settings`, `Command`, `UsageFault`: what a command line asks for.

ghost use Rattle.std.specs.Prelude.{◌≡◌};
ghost use Rattle.clap.specs.Values.{kind_of};
ghost use Rattle.zk_runs.specs.Exits.{usage_fault};

use clap::error::ErrorKind;
use std::alloc::AllocError;
use thiserror::Error;
use zk_talk::Limits;

/// What the program is asked to do.
#[derive(Clone, Copy, Debug, PartialEq, Eq)]
pub enum Command {
    /// Write the listing of a recording.
    Show,
    /// Write the last line of that listing.
    Check,
    /// Write the recording that a listing shows.
    Build,
    /// Write a recording in the second format.
    Migrate,
}

/// A command line that could be read.
#[derive(Clone, Copy, Debug, PartialEq, Eq)]
pub struct Settings {
    /// What to do.
    pub command: Command,
    /// The limits of a recording that has none, and of what is built.
    pub limits: Limits,
    /// Whether `check` writes the line of the first impossible byte too. The other commands ignore it.
    pub earliest: bool,
}

/// Why the words of a command line give no settings.
#[derive(Clone, Copy, Debug, PartialEq, Eq, Error)]
pub enum UsageFault {
    /// They are no command line of this program, or ask for help.
    #[error("usage: zkdump show|check|build|migrate [--limit N] [--waiting N] [--profile 3.4|3.5|3.7] [--earliest]")]
    Words,
    /// The system refused memory.
    #[error("zkdump: out of memory")]
    Memory,
}

impl From<AllocError> for UsageFault {
    ghost use Rattle.zk_runs.specs.declared.options.UsageFault.TheVariants.{Memory};

    ghost from_gives = { λ _ fault. fault ≡ Memory };

    fn from(_error: AllocError) -> UsageFault {
        UsageFault::Memory
    }
}

impl From<clap::Error> for UsageFault {
    ghost from_gives = { λ error fault. fault ≡ usage_fault (kind_of error) };

    fn from(error: clap::Error) -> UsageFault {
        match error.kind() {
            ErrorKind::OutOfMemory => UsageFault::Memory,
            _ => UsageFault::Words,
        }
    }
}
