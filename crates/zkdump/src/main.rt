//! The program: the commands of `zk_runs` over standard input, standard output and standard error.
//!
//! `zkdump show` reads a recorded conversation from standard input, and writes a line for each message and one for how
//! the recording ends; `zkdump check` writes the last of these lines alone. `zkdump build` reads such lines, and writes
//! the recording of their messages, one piece a message, up to the first line that is refused. `zkdump migrate` reads a
//! recording, and writes it in the second format.
#![tactic(auto)]

use std::process::ExitCode;
use std::rt::Env;
use std::{env, io};
use zk_runs::{FromRead, FromWrite, UsageFault, refuse, run_words};

/// The words of the command line.
fn arguments(rt: &(impl Env + AllocGlobal)) -> Result<Vec<String>, UsageFault> {
    match env::args(rt) {
        Ok(words) => Ok(words.collect(rt.alloc())?),
        Err(error) => match error.kind() {
            io::ErrorKind::OutOfMemory => Err(UsageFault::Memory),
            _ => Err(UsageFault::Words),
        },
    }
}

fn main(rt: HostRuntime) -> ExitCode {
    let mut reader = FromRead::new(rt.stdin());
    let mut writer = FromWrite::new(rt.stdout());
    let mut faults = FromWrite::new(rt.stderr());
    let status = match arguments(&rt) {
        Ok(words) => run_words(rt.alloc(), words, &mut reader, &mut writer, &mut faults),
        Err(fault) => refuse(fault, &mut faults),
    };
    ExitCode::from(status)
}
