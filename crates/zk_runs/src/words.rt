//! `settings`: the words of a command line, read as settings.
ghost use Rattle.std.specs.Prelude.{◌≡◌, ◌≢◌, IfOk, MatchOption};
ghost use Rattle.zk_records.specs.declared.profile.Profile.{Profile};
ghost use Rattle.zk_runs.specs.{declared.options.Command.Command as command, Commands.IsInRange, Names.command_name, Names.profile_name};

use crate::options::{Command, Settings, UsageFault};
use clap::{Arg, ArgAction, value_parser};
use std::alloc::{AllocError, Global};
use zk_records::Profile;
use zk_talk::Limits;

/// The longest payload of each side in bytes, unless an option says otherwise.
const USUAL_LIMIT: u32 = 4_194_304;

/// The greatest weight of the requests that wait, unless an option says otherwise.
const USUAL_WAITING: u32 = 65_536;

/// The profile, unless an option says otherwise.
const USUAL_PROFILE: &str = "3.4";

/// An option whose value is a number.
fn number<'a>(alloc: Global, name: &'static str) -> Arg<'a> {
    Arg::new(alloc, name)
        .long(name)
        .value_parser(value_parser!(u32))
}

/// A subcommand with its options.
fn subcommand<'a>(alloc: Global, name: &'static str) -> Result<clap::Command<'a>, AllocError> {
    clap::Command::new(alloc, name)
        .arg(number(alloc, "limit"))?
        .arg(number(alloc, "waiting"))?
        .arg(Arg::new(alloc, "profile").long("profile"))
}

/// The subcommand `check`, which has one option of its own.
fn check<'a>(alloc: Global) -> Result<clap::Command<'a>, AllocError> {
    let earliest = Arg::new(alloc, "earliest")
        .long("earliest")
        .action(ArgAction::SetTrue);
    subcommand(alloc, "check")?.arg(earliest)
}

fn command_line<'a>(alloc: Global) -> Result<clap::Command<'a>, AllocError> {
    clap::Command::new(alloc, "zkdump")
        .subcommand_required(true)
        .subcommand(subcommand(alloc, "show")?)?
        .subcommand(check(alloc)?)?
        .subcommand(subcommand(alloc, "build")?)?
        .subcommand(subcommand(alloc, "migrate")?)
}

/// The command whose name is `name`; `None` if there is none.
fn command_of(name: &str) -> Option<Command>
    ensures { MatchOption result ((c : command) → name.now ≢ command_name c) (λ c. name.now ≡ command_name c) }
{
    match name {
        "show" => Some(Command::Show),
        "check" => Some(Command::Check),
        "build" => Some(Command::Build),
        "migrate" => Some(Command::Migrate),
        _ => None,
    }
}

/// The profile whose name is `name`; `None` if there is none.
fn profile_of(name: &str) -> Option<Profile>
    ensures { MatchOption result ((p : Profile) → name.now ≢ profile_name p) (λ p. name.now ≡ profile_name p) }
{
    if name == "3.4" {
        Some(Profile::V34)
    } else if name == "3.5" {
        Some(Profile::V35)
    } else if name == "3.7" {
        Some(Profile::V37)
    } else {
        None
    }
}

/// Reads a command line, whose first word is the program's name: a subcommand, and after it its options.
///
/// # Errors
///
/// `Memory` if memory is refused, else `Words`; asking for help is a fault of the words.
pub fn settings(alloc: Global, words: Vec<String>) -> Result<Settings, UsageFault>
    ensures { IfOk result IsInRange }
{
    let matches = command_line(alloc)?.try_get_matches_from(words.as_slice())?;
    let (name, options) = matches.subcommand().ok_or(UsageFault::Words)?;
    let earliest = options.get_flag("earliest");
    let command = command_of(name).ok_or(UsageFault::Words)?;
    let limit = options.get_one::<u32>("limit").unwrap_or(USUAL_LIMIT);
    let waiting = options.get_one::<u32>("waiting").unwrap_or(USUAL_WAITING);
    let profile = options.get_str("profile").unwrap_or(USUAL_PROFILE);
    let profile = profile_of(profile).ok_or(UsageFault::Words)?;
    let limits = Limits::new(limit, limit, waiting).ok_or(UsageFault::Words)?;
    let limits = limits.with_profile(profile);
    Ok(Settings {
        command,
        limits,
        earliest,
    })
}
