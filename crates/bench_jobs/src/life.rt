//! Short conversations of many clients: a talk is made, fed frame by frame, looked at, and dropped.

use crate::digest::Digest;
use crate::streams::Streams;
use anyhow::{Result, ensure};
use std::alloc::Global;
use zk_fields::{Field, client_fields, server_fields};
use zk_talk::{Limits, MessageOf, Side, Speaker, Taken, Talk};

/// The fields that a message is read into, as many as fit.
const ROOM: usize = 64;

const NO_FIELD: Field = Field {
    place: 0,
    length: 0,
    number: 0,
    name: 0,
    kind: 0,
    null: 0,
};

/// Steps over a frame, and sums its message's fields.
fn look(talk: &mut Talk, side: Side, frame: &[u8], digest: &mut Digest) -> Result<()> {
    let stepped = talk.step(side, frame)?;
    ensure!(stepped.whole, "a frame isn't whole");
    let mut room = [NO_FIELD; ROOM];
    let count = match talk.view(side) {
        Some(MessageOf::Client(frame)) => client_fields(&frame, &mut room),
        Some(MessageOf::Server(frame)) => server_fields(&frame, &mut room),
        None => 0,
    };
    for field in room.iter().take(count as usize) {
        digest.add_number(u64::from(field.place) << 32 | u64::from(field.length));
        digest.add_number(u64::from_ne_bytes(field.number.to_ne_bytes()));
        let [name, kind, null] = [
            u64::from(field.name),
            u64::from(field.kind),
            u64::from(field.null),
        ];
        digest.add_number(name << 16 | kind << 8 | null);
    }
    digest.add_number(u64::from(count));
    digest.add_number(stepped.used as u64);
    Ok(())
}

/// Steps over all frames of a conversation.
fn look_at_all(talk: &mut Talk, streams: &Streams, digest: &mut Digest) -> Result<()> {
    look(talk, Side::Client, &streams.greeting, digest)?;
    look(talk, Side::Server, &streams.welcome, digest)?;
    for stretch in &streams.stretches {
        look(talk, stretch.side, streams.part(stretch), digest)?;
    }
    digest.add_number(u64::from(talk.waiting()));
    Ok(())
}

/// A dissector: steps over all frames and reads their fields.
pub(crate) fn dissect(
    alloc: Global,
    limits: Limits,
    streams: &Streams,
    digest: &mut Digest,
) -> Result<()> {
    let mut talk = Talk::new(alloc, limits)?;
    look_at_all(&mut talk, streams, digest)
}

/// Says the message that was taken.
fn say_taken(speaker: &mut Speaker, taken: &Taken, said: &mut Vec<u8>) -> Result<()> {
    match &taken.message {
        Some(message) => speaker.say(message, said)?,
        None => anyhow::bail!("a frame isn't whole"),
    }
    Ok(())
}

/// Takes a frame's message, and says it anew.
fn pass_on(
    talk: &mut Talk,
    speaker: &mut Speaker,
    side: Side,
    frame: &[u8],
    said: &mut Vec<u8>,
) -> Result<()> {
    let taken = talk.take(side, frame)?;
    say_taken(speaker, &taken, said)
}

/// Takes all messages of a conversation, and says them anew.
fn pass_all_on(
    talk: &mut Talk,
    speaker: &mut Speaker,
    streams: &Streams,
    said: &mut Vec<u8>,
) -> Result<()> {
    pass_on(talk, speaker, Side::Client, &streams.greeting, said)?;
    pass_on(talk, speaker, Side::Server, &streams.welcome, said)?;
    for stretch in &streams.stretches {
        pass_on(talk, speaker, stretch.side, streams.part(stretch), said)?;
    }
    Ok(())
}

/// A proxy: takes each message, and says it to the other side.
pub(crate) fn relay(
    alloc: Global,
    limits: Limits,
    streams: &Streams,
    said: &mut Vec<u8>,
) -> Result<()> {
    let mut talk = Talk::new(alloc, limits)?;
    let mut speaker = Speaker::new(alloc, limits)?;
    pass_all_on(&mut talk, &mut speaker, streams, said)
}
