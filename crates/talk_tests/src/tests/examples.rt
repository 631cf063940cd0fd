//! The examples of the crates' own pages, each in the same lines (`dev/architecture.py` compares them).
use super::frames::{CONNECT, usual};
use std::process::Abort;
use std::test::Fail;
use zk_answers::Layout;
use zk_asks::borrow_ask;
use zk_earliest::earliest;
use zk_fields::{Field, client_fields};
use zk_items::Reader;
use zk_lines::{line_of, read_line};
use zk_records::{Op, Profile};
use zk_talk::{Ending, Side, Talk};
use zk_through::{StepOutcome, Through};

/// `zk_earliest`: how many bytes at the front of a body are possible.
fn possible(layout: Layout, body: &[u8]) -> Option<usize> {
    if layout == Layout::Answered(Op::Multi) || body.len() > 1_000_000 {
        return None; // the results of a multi have no layout of their own
    }
    earliest(layout, body) // Some(3) of an exists request's b"\0\0\0\x05/a\x01": with 7 bytes in all its path has 2
}

/// The last byte of the path's length is impossible.
#[test]
fn length_is_impossible(rt: HostRuntime) {
    let front = possible(Layout::Asked(Op::Exists), b"\0\0\0\x05/a\x01");
    assert!(rt; front == Some(3));
}

/// No field.
const NONE: Field = Field {
    place: 0,
    length: 0,
    number: 0,
    name: 0,
    kind: 0,
    null: 0,
};

/// `zk_fields`: the fields of a request.
#[test]
fn fields_are_written(rt: HostRuntime) -> Result<(), Fail> {
    let mut room = [NONE; 8];
    let frame = borrow_ask(Profile::V34, b"\0\0\0\x01\0\0\0\x03\0\0\0\x02/a\x01")?;
    assert!(rt; client_fields(&frame, &mut room) == 2); // the path "/a", and whether to watch it
    Ok(())
}

/// `zk_items`: the items of a line, from left to right.
#[test]
fn items_are_read(rt: HostRuntime) -> Result<(), Fail> {
    let mut text = Vec::new(rt.alloc());
    let mut line = Reader::new(b"7 \"/a\"");
    assert!(rt; line.int()? == 7);
    line.literal(b" ")?;
    line.encode_text(&mut text)?;
    assert!(rt; text.as_slice() == b"\0\0\0\x02/a".as_slice()); // as it is in a payload
    Ok(())
}

/// `zk_lines`: a line is read as its message, which is written as the same line.
#[test]
fn line_is_read_and_written(rt: HostRuntime) -> Result<(), Fail> {
    let message = read_line(rt.alloc(), b"C 1 sync path=\"/a\"")?;
    let line = line_of(rt.alloc(), &message);
    drop(message);
    let line = line?;
    assert!(rt; line.as_slice() == b"C 1 sync path=\"/a\"".as_slice());
    Ok(())
}

/// `zk_talk`: a frame of the client is judged and shown.
#[test]
fn message_is_shown(rt: HostRuntime) -> Result<(), Fail> {
    let limits = usual()?;
    let mut talk = Talk::new(rt.alloc(), limits)?;
    let stepped = talk.step(Side::Client, CONNECT)?; // the bytes of a frame: a connect request
    assert!(rt; stepped.whole && talk.view(Side::Client).is_some());
    assert!(rt; talk.finish() == Ending::Whole { unanswered: 1 });
    Ok(())
}

/// An addWatch of `/a` under xid 1, which is of 3.6.
const ADD_WATCH: &[u8] = b"\0\0\0\x12\0\0\0\x01\0\0\0\x6a\0\0\0\x02/a\0\0\0\0";

/// `zk_through`: a request of a later release is left out.
#[test]
fn later_request_is_left_out(rt: HostRuntime) -> Result<(), Fail> {
    let limits = usual()?;
    let mut through = Through::new(rt.alloc(), limits)?;
    assert!(rt; through.step(Side::Client, CONNECT).is_ok());
    let passed = through.step(Side::Client, ADD_WATCH)?; // an operation that no profile has
    let is_asked = matches!(passed.outcome, StepOutcome::Asked(_));
    assert!(rt; is_asked && through.left_out(Side::Client).is_some());
    Ok(())
}
