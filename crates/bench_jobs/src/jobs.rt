//! The jobs: each makes its input from a seed, in a number of turns, and returns a sum of all that it makes of it.
ghost use Rattle.std.specs.Prelude.{◌≡◌, IfOk};

use crate::digest::Digest;
use crate::feed::{Feed, Given, Lines};
use crate::life::{dissect, relay};
use crate::script::{Mix, Script};
use crate::streams::{Cut, Streams, limits};
use anyhow::Result;
use std::alloc::Global;
use zk_lines::put_line;
use zk_runs::{Built, Migrated, Source, Status, build_run, check_run, migrate_run, show_run};
use zk_talk::{Ending, Side, read_all};

/// The rounds of a conversation's turn.
const ROUNDS: u32 = 100;

/// The rounds of a short conversation, and how many there are before the first comes again with other numbers.
const SHORT: u32 = 1;

const CLIENTS: u64 = 64;

/// Room for the bytes that are said in a short conversation.
const SAID: usize = 65_536;

fn add_status(digest: &mut Digest, status: Status) {
    digest.add_number(u64::from(matches!(status, Status::Good)));
}

/// The recording of a conversation of `turns` turns.
fn recording(alloc: Global, mix: Mix, cut: Cut, seed: u64, turns: u64) -> Result<Given<Feed>>
    ensures { IfOk result (λ f. ⟦<Given<Feed> as Source>⟧.read_count f ≡ 0) }
{
    let script = Script::new(alloc, mix, seed, ROUNDS)?;
    let streams = Streams::new(alloc, &script, cut)?;
    Ok(Given::new(Feed::new(alloc, streams, cut, seed, turns)?))
}

/// A check of a night's recording, or its listing.
pub(crate) fn night(alloc: Global, lists: bool, seed: u64, turns: u64) -> Result<u64> {
    let mut digest = Digest::new();
    let mut feed = recording(alloc, Mix::Night, Cut::Bursts, seed, turns)?;
    let status = if lists {
        show_run(alloc, limits()?, &mut feed, &mut digest)?
    } else {
        check_run(alloc, limits()?, &mut feed, &mut digest)?
    };
    add_status(&mut digest, status);
    Ok(digest.sum())
}

/// A check of a recording of one message a piece, with paths outside of ASCII; and a listing of another one, of a fourth
/// of its size.
pub(crate) fn single(alloc: Global, seed: u64, turns: u64) -> Result<u64> {
    let mut digest = Digest::new();
    let mut feed = recording(alloc, Mix::Foreign, Cut::Frames, seed, turns)?;
    let status = check_run(alloc, limits()?, &mut feed, &mut digest)?;
    add_status(&mut digest, status);
    let other = seed.wrapping_add(1);
    let mut feed = recording(alloc, Mix::Foreign, Cut::Frames, other, turns / 4)?;
    let status = show_run(alloc, limits()?, &mut feed, &mut digest)?;
    add_status(&mut digest, status);
    Ok(digest.sum())
}

/// A recording made of a listing.
pub(crate) fn build(alloc: Global, seed: u64, turns: u64) -> Result<u64> {
    let mut digest = Digest::new();
    let script = Script::new(alloc, Mix::Night, seed, ROUNDS)?;
    let mut lines = Given::new(Lines::new(alloc, script, turns)?);
    let built = build_run(alloc, limits()?, &mut lines, &mut digest)?;
    digest.add_number(u64::from(matches!(built, Built::Whole)));
    Ok(digest.sum())
}

/// Short conversations: half of them are dissected, half are taken and said anew.
pub(crate) fn clients(alloc: Global, seed: u64, turns: u64) -> Result<u64> {
    let mut digest = Digest::new();
    let mut all = Vec::new(alloc);
    for client in 0..CLIENTS {
        let script = Script::new(alloc, Mix::Small, seed.wrapping_add(client), SHORT)?;
        all.push(Streams::new(alloc, &script, Cut::Frames)?)?;
    }
    let limits = limits()?;
    // Asked for before the first talk, so that it lies below what each conversation asks for.
    let mut said = Vec::with_capacity(alloc, SAID)?;
    for turn in 0..turns {
        let Some(streams) = all.get_mut((turn % CLIENTS) as usize) else {
            continue;
        };
        streams.number(turn);
        if turn / CLIENTS % 2 == 0 {
            dissect(alloc, limits, streams, &mut digest)?;
        } else {
            said.clear();
            relay(alloc, limits, streams, &mut said)?;
            digest.add(&said);
        }
    }
    Ok(digest.sum())
}

/// Recordings that are migrated, in bursts and of one message a piece; and conversations that are kept whole, and then
/// listed.
pub(crate) fn archive(alloc: Global, seed: u64, turns: u64) -> Result<u64> {
    let mut digest = Digest::new();
    let mut feed = recording(alloc, Mix::Night, Cut::Bursts, seed, turns)?;
    let migrated = migrate_run(alloc, limits()?, &mut feed, &mut digest)?;
    digest.add_number(u64::from(matches!(migrated, Migrated::Whole)));
    let other = seed.wrapping_add(1);
    let mut feed = recording(alloc, Mix::Small, Cut::Frames, other, turns)?;
    let migrated = migrate_run(alloc, limits()?, &mut feed, &mut digest)?;
    digest.add_number(u64::from(matches!(migrated, Migrated::Whole)));
    let script = Script::new(alloc, Mix::Night, seed.wrapping_add(2), ROUNDS)?;
    let mut streams = Streams::new(alloc, &script, Cut::Bursts)?;
    for turn in 0..turns / 16 {
        streams.number(turn);
        keep(alloc, &streams, &mut digest)?;
    }
    Ok(digest.sum())
}

/// Reads a conversation whole, and then sums its lines.
fn keep(alloc: Global, streams: &Streams, digest: &mut Digest) -> Result<()> {
    let mut pieces = Vec::new(alloc);
    pieces.push((Side::Client, streams.greeting.as_slice()))?;
    pieces.push((Side::Server, streams.welcome.as_slice()))?;
    for stretch in &streams.stretches {
        pieces.push((stretch.side, streams.part(stretch)))?;
    }
    let ended = read_all(alloc, limits()?, &pieces)?;
    let is_whole = matches!(ended.ending, Ending::Whole { unanswered: 0 });
    digest.add_number(u64::from(is_whole));
    let mut line = Vec::new(alloc);
    for message in &ended.messages {
        line.clear();
        put_line(&mut line, message)?;
        digest.add(&line);
    }
    Ok(())
}
