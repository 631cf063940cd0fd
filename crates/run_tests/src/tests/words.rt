//! Tests of the words of command lines: which settings they give, and which are refused.
use super::samples::{same, words};
use std::alloc::Global;
use std::process::Abort;
use std::test::Fail;
use zk_runs::{Settings, UsageFault, settings};

fn of(alloc: Global, line: &str) -> Result<Result<Settings, UsageFault>, Fail> {
    let words = words(alloc, line)?;
    Ok(settings(alloc, words))
}

/// Command lines, and the command, the longest payloads, the greatest weight of what waits, the profile, and whether the
/// first impossible byte is asked for.
const READ: &str = "\
check = Check 4194304 4194304 65536 V34
show = Show 4194304 4194304 65536 V34
build = Build 4194304 4194304 65536 V34
build --limit 64 --waiting 2 = Build 64 64 2 V34
migrate = Migrate 4194304 4194304 65536 V34
migrate --waiting=3 = Migrate 4194304 4194304 3 V34
check --earliest = Check 4194304 4194304 65536 V34 earliest
check --limit 64 --earliest = Check 64 64 65536 V34 earliest
check --limit 64 = Check 64 64 65536 V34
check --limit=100 = Check 100 100 65536 V34
show --waiting 1 --limit 16777216 = Show 16777216 16777216 1 V34
check --waiting 1048576 = Check 4194304 4194304 1048576 V34
check --profile 3.4 = Check 4194304 4194304 65536 V34
show --profile 3.5 = Show 4194304 4194304 65536 V35
build --limit 64 --profile=3.5 = Build 64 64 65536 V35
migrate --profile 3.5 = Migrate 4194304 4194304 65536 V35
check --profile 3.7 = Check 4194304 4194304 65536 V37
build --profile=3.7 = Build 4194304 4194304 65536 V37";

/// The settings in words.
fn told(alloc: Global, chosen: &Settings) -> Result<String, Fail> {
    let limits = chosen.limits;
    let (client, server, waiting) = (limits.client(), limits.server(), limits.waiting());
    let (command, profile) = (chosen.command, limits.profile());
    let earliest = if chosen.earliest { " earliest" } else { "" };
    Ok(format!(in alloc; "{command:?} {client} {server} {waiting} {profile:?}{earliest}")?)
}

#[test]
fn reads_the_words(rt: HostRuntime) -> Result<(), Fail> {
    for row in READ.lines() {
        let (line, want) = row.split_once(" = ").ok_or("no row")?;
        let chosen = of(rt.alloc(), line)?.ok().ok_or("refused")?;
        let told = told(rt.alloc(), &chosen)?;
        same(&rt, &told.as_str(), &want, &line);
    }
    Ok(())
}

/// Command lines that are refused.
const REFUSED: &str = "\
other
check extra
check --limit 63
build --waiting 0
check --limit 16777217
check --limit -1
check --limit
check --limit 64 --limit 64
--limit 64 check
check --waiting 0
check --waiting 1048577
check --profile 3.6
check --profile 3.8
check --profile 3.9
check --profile 3.50
check --profile 35
check --profile 37
show --profile
--profile 3.5 show
show --earliest
build --earliest
migrate --earliest
check --earliest --earliest
check --earliest=1
check --help
--help
help";

#[test]
fn refuses_other_words(rt: HostRuntime) -> Result<(), Fail> {
    for line in REFUSED.lines() {
        let fault = of(rt.alloc(), line)?.err();
        same(&rt, &fault, &Some(UsageFault::Words), &line);
    }
    Ok(())
}
