//! Tests of the library's usage as its page shows it: a conversation that is read, and one that is said.
use super::frames::{CONNECT, CONNECTED, EXISTS, same, usual};
use std::process::Abort;
use std::test::Fail;
use zk_asks::{Ask, ClientFrame};
use zk_jute::Blob;
use zk_lines::put_line_ref;
use zk_records::ConnectRequest;
use zk_talk::{Ending, Message, Side, Speaker, Talk};

/// The lines of the three messages, as docs/EXAMPLES.md has them.
const LINES: &[u8] =
    b"C connect version=0 zxid=0 timeout=30000 session=0 passwd=#00000000000000000000000000000000 ro=0\nS connect version=0 timeout=30000 session=72057594037927937 passwd=#000102030405060708090a0b0c0d0e0f ro=0\nC 1 exists path=\"/a\" watch=1\n";

/// The pieces of the conversation, a frame each.
const PIECES: [(Side, &[u8]); 3] = [
    (Side::Client, CONNECT),
    (Side::Server, CONNECTED),
    (Side::Client, EXISTS),
];

/// Takes all of a piece, and appends its message.
fn read(
    rt: &impl Abort,
    talk: &mut Talk,
    (side, piece): (Side, &[u8]),
    messages: &mut Vec<Message>,
) -> Result<(), Fail> {
    let taken = talk.take(side, piece)?;
    same(rt, &taken.used, &piece.len());
    if let Some(message) = taken.message {
        messages.push(message)?;
    }
    Ok(())
}

/// Takes all pieces, and appends their messages.
fn read_all(rt: &impl Abort, talk: &mut Talk, messages: &mut Vec<Message>) -> Result<(), Fail> {
    for piece in PIECES {
        read(rt, talk, piece, messages)?;
    }
    same(rt, &messages.len(), &3);
    same(rt, &talk.finish(), &Ending::Whole { unanswered: 1 });
    Ok(())
}

#[test]
fn a_conversation_is_read(rt: HostRuntime) -> Result<(), Fail> {
    let mut talk = Talk::new(rt.alloc(), usual()?)?;
    read_all(&rt, &mut talk, &mut Vec::new(rt.alloc()))
}

/// Steps over a piece, and appends the line of its message.
fn put_line_seen(
    talk: &mut Talk,
    (side, piece): (Side, &[u8]),
    lines: &mut Vec<u8>,
) -> Result<(), Fail> {
    talk.step(side, piece)?;
    if let Some(message) = talk.view(side) {
        put_line_ref(lines, &message)?;
        lines.push(b'\n')?;
    }
    Ok(())
}

/// Steps over all pieces, and appends the lines of their messages.
fn put_lines_seen(talk: &mut Talk, lines: &mut Vec<u8>) -> Result<(), Fail> {
    for piece in PIECES {
        put_line_seen(talk, piece, lines)?;
    }
    Ok(())
}

#[test]
fn messages_are_seen_where_they_lie(rt: HostRuntime) -> Result<(), Fail> {
    let mut lines = Vec::new(rt.alloc());
    put_lines_seen(&mut Talk::new(rt.alloc(), usual()?)?, &mut lines)?;
    same(&rt, &lines.as_slice(), &LINES);
    Ok(())
}

fn connect() -> Message {
    Message::Client(ClientFrame::Connect {
        hello: ConnectRequest {
            protocol_version: 0,
            last_zxid_seen: 0,
            time_out: 30000,
            session_id: 0,
            passwd: Blob::Null,
        },
        read_only: None,
    })
}

fn ping(xid: i32) -> Message {
    Message::Client(ClientFrame::Ask {
        xid,
        ask: Ask::Ping,
    })
}

/// The message is said.
fn is_said(rt: &impl Abort, speaker: &mut Speaker, message: &Message, bytes: &mut Vec<u8>) {
    same(rt, &speaker.say(message, bytes), &Ok(()));
}

/// The connect request is said, and a ping.
fn are_said(rt: &impl Abort, speaker: &mut Speaker, bytes: &mut Vec<u8>) {
    is_said(rt, speaker, &connect(), bytes);
    is_said(rt, speaker, &ping(-2), bytes);
    same(rt, &(bytes.len(), speaker.unanswered()), &(44, 2));
}

#[test]
fn a_conversation_is_said(rt: HostRuntime) -> Result<(), Fail> {
    let mut speaker = Speaker::new(rt.alloc(), usual()?)?;
    are_said(&rt, &mut speaker, &mut Vec::new(rt.alloc()));
    Ok(())
}
