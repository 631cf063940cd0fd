//! `run_words`: the whole program, over a reader and two writers.
ghost use Rattle.std.specs.Prelude.{◌≡◌, ◌+◌, ◌^◌, ◌<◌, ◌≤◌, false, IfOk, IfErr, OnErr};
ghost use Rattle.zk_listings.specs.Running.{AreReady};
ghost use Rattle.zk_runs.specs.Commands.{IsDone, IsFailed, Answers, Stops, IsDoneBySome, HasStoppedBySome};
ghost use Rattle.zk_runs.specs.Exits.{exit_of, exit_of_built, exit_of_migrated, refusal_of, IsStatus};

use crate::build_lines::build_run;
use crate::build_result::Built;
use crate::migrate::{Migrated, migrate_run};
use crate::options::{Command, Settings, UsageFault};
use crate::words::settings;
use std::alloc::Global;
use std::fmt;
use std::fmt::{Display, Write};
use zk_listings::{
    RunFault, Sink, Source, Status, check_earliest_run, check_run, show_run, write_whole,
};

/// A formatter's output that goes to a sink.
#[derive(Drop)]
struct Message<'a, F> {
    sink: &'a mut F,
}

impl<F: Sink> fmt::Write for Message<'_, F> {
    fn write_str(&mut self, text: &str) -> fmt::Result {
        if self.sink.failed() {
            return Err(fmt::Error);
        }
        match write_whole(self.sink, text.as_bytes()) {
            Ok(()) => Ok(()),
            Err(_failed) => Err(fmt::Error),
        }
    }
}

/// Writes `fault` as a line, as far as the sink takes it.
fn tell<F: Sink>(faults: &mut F, fault: &(impl Display)) {
    let mut message = Message { sink: faults };
    let _ = writeln!(message, "{fault}");
}

/// Reports why a command line is refused, and returns the exit status for it.
pub fn refuse<F: Sink>(fault: UsageFault, faults: &mut F) -> u8
    ensures { result ≡ refusal_of fault }
{
    tell(faults, &fault);
    match fault {
        UsageFault::Words => 2,
        UsageFault::Memory => 3,
    }
}

fn exit_code(status: Status) -> u8
    ensures exit { result ≡ exit_of status }
    ensures small { result < 2 }
{
    match status {
        Status::Good => 0,
        Status::Bad => 1,
    }
}

/// Reports which line is refused, if one is, and returns the exit status for it.
fn report<F: Sink>(built: Built, faults: &mut F) -> u8
    ensures exit { result ≡ exit_of_built built }
    ensures small { result < 2 }
{
    match built {
        Built::Whole => 0,
        Built::LineRefused { .. } | Built::SayRefused { .. } => {
            tell(faults, &built);
            1
        }
    }
}

/// Reports the damage, if there is one, and returns the exit status for it.
fn report_damage<F: Sink>(migrated: Migrated, faults: &mut F) -> u8
    ensures exit { result ≡ exit_of_migrated migrated }
    ensures small { result < 2 }
{
    match migrated {
        Migrated::Whole => 0,
        Migrated::Damaged { .. } => {
            tell(faults, &migrated);
            1
        }
    }
}

/// Runs the engine that the settings ask for, and returns the exit status for its result.
fn obey<R: Source, W: Sink, F: Sink>(
    alloc: Global,
    chosen: Settings,
    reader: &mut R,
    writer: &mut W,
    faults: &mut F,
) -> Result<u8, RunFault>
    requires { AreReady (R.read_count reader.old) (R.has_failed reader.old) (W.has_failed writer.old) }
    ensures ok { IfOk result (IsDone chosen (R.remaining reader.old) (R.remaining reader.new) (W.contents writer.old) (W.contents writer.new)) }
    ensures small { IfOk result (λ exit. exit < 2) }
    ensures err { OnErr result (IsFailed chosen (R.remaining reader.old) (R.remaining reader.new) (W.contents writer.old) (W.contents writer.new)) }
    ensures alive { IfOk result (λ _. R.has_failed reader.new ≡ false) }
    ensures open { IfOk result (λ _. W.has_failed writer.new ≡ false) }
    ensures bound { R.read_count reader.new ≤ R.read_count reader.old + 4294967296 }
{
    match chosen.command {
        Command::Show => Ok(exit_code(show_run(alloc, chosen.limits, reader, writer)?)),
        Command::Check if chosen.earliest => {
            let status = check_earliest_run(alloc, chosen.limits, reader, writer)?;
            Ok(exit_code(status))
        }
        Command::Check => Ok(exit_code(check_run(alloc, chosen.limits, reader, writer)?)),
        Command::Build => Ok(report(build_run(alloc, chosen.limits, reader, writer)?, faults)),
        Command::Migrate => {
            let migrated = migrate_run(alloc, chosen.limits, reader, writer)?;
            Ok(report_damage(migrated, faults))
        }
    }
}

/// Does what the settings ask for, or reports why there are none, and returns the exit status (docs/FORMATS.md, section
/// 13).
pub fn run_settings<R: Source, W: Sink, F: Sink>(
    alloc: Global,
    chosen: Result<Settings, UsageFault>,
    reader: &mut R,
    writer: &mut W,
    faults: &mut F,
) -> u8
    requires { AreReady (R.read_count reader.old) (R.has_failed reader.old) (W.has_failed writer.old) }

    // The command that was chosen is done, under its limits: what was read is listed, or made a recording.
    ensures done { IfOk chosen (λ s. Answers s (R.remaining reader.old) (R.remaining reader.new) (W.contents writer.old) (W.contents writer.new) result) }

    // If the words are refused, nothing is read and nothing written.
    ensures refused { IfErr chosen (λ fault. (result ≡ refusal_of fault) × (reader.new ≡ reader.old) × (writer.new ≡ writer.old)) }

    // A failure comes after a front of what the command writes.
    ensures stopped { IfOk chosen (λ s. Stops s (R.remaining reader.old) (R.remaining reader.new) (W.contents writer.old) (W.contents writer.new) result) }

    ensures status { IsStatus result (R.read_count reader.old) (R.read_count reader.new) (R.has_failed reader.new) (W.has_failed writer.new) }
{
    let chosen = match chosen {
        Ok(chosen) => chosen,
        Err(fault) => return refuse(fault, faults),
    };
    match obey(alloc, chosen, reader, writer, faults) {
        Ok(exit) => exit,
        Err(fault) => {
            tell(faults, &fault);
            3
        }
    }
}

/// The whole program: reads the words of a command line, the first of which is the program's name, does what they say, and
/// returns the exit status. What it reports to `faults` is lost if that writer fails, and nothing else changes.
pub fn run_words<R: Source, W: Sink, F: Sink>(
    alloc: Global,
    words: Vec<String>,
    reader: &mut R,
    writer: &mut W,
    faults: &mut F,
) -> u8
    requires { AreReady (R.read_count reader.old) (R.has_failed reader.old) (W.has_failed writer.old) }

    // Below 2, the words are a command line, and its command is done: what was read is listed, or made a recording.
    ensures done { result < 2 → IsDoneBySome (R.remaining reader.old) (R.remaining reader.new) (W.contents writer.old) (W.contents writer.new) result }

    // If the words are refused, nothing is read and nothing written.
    ensures refused { result ≡ 2 → (reader.new ≡ reader.old) × (writer.new ≡ writer.old) }

    // Nor if memory for the words is refused; every other failure comes after a front of what the command writes.
    ensures stopped { result ≡ 3 → HasStoppedBySome R.remaining reader.old reader.new W.contents writer.old writer.new }

    ensures status { IsStatus result (R.read_count reader.old) (R.read_count reader.new) (R.has_failed reader.new) (W.has_failed writer.new) }
{
    run_settings(alloc, settings(alloc, words), reader, writer, faults)
}
