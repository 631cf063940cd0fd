//! The examples of the crates' own pages, each in the same lines (`dev/architecture.py` compares them).
use std::alloc::Global;
use std::process::Abort;
use std::test::Fail;
use zk_answers::{ServerFrame, read_event, read_reply, reply_head};
use zk_asks::{Alone, Asked, judge_ask};
use zk_frames::Frames;
use zk_jute::{ItemFault, TextList, read_ref};
use zk_records::{Op, Profile, code_name, op_of};
use zk_waiting::{Lane, Waiting};

/// `zk_jute`: a value is borrowed from a payload.
#[test]
fn list_is_borrowed(rt: HostRuntime) -> Result<(), Fail> {
    let payload = b"\0\0\0\x02\0\0\0\x02/a\xff\xff\xff\xff"; // the text "/a", and null
    let (list, end) = read_ref::<TextList>(payload, 0)?;
    assert!(rt; list.count() == 2 && end == 14);
    Ok(())
}

/// `zk_records`: numbers and names.
#[test]
fn numbers_and_names(rt: HostRuntime) {
    assert!(rt; op_of(Profile::V34, 15) == None); // create2 is of 3.5
    assert!(rt; op_of(Profile::V35, 15) == Some(Op::Create2));
    assert!(rt; code_name(-101) == Some("NONODE"));
}

/// `zk_asks`: a request is judged, and kept as its outline.
#[test]
fn request_is_judged(rt: HostRuntime) -> Result<(), Fail> {
    let payload = b"\0\0\0\x01\0\0\0\x03\0\0\0\x02/a\x01"; // exists "/a", with a watch
    let outline = judge_ask::<ItemFault>(Profile::V34, payload)?;
    assert!(rt; outline.xid == 1 && outline.op == Op::Exists);
    Ok(())
}

/// `zk_answers`: an event, or the reply to `form`.
fn frame_of(alloc: Global, form: &Alone, payload: &[u8]) -> Result<ServerFrame, ItemFault> {
    let head = reply_head(payload)?;
    if head.xid == -1 {
        return read_event(alloc, payload);
    }
    read_reply(alloc, form, payload)
}

/// The reply to an exists: there is no such node.
#[test]
fn reply_is_read(rt: HostRuntime) {
    let payload = b"\0\0\0\x01\0\0\0\0\0\0\0\x05\xff\xff\xff\x9b";
    let frame = frame_of(rt.alloc(), &Alone { op: Op::Exists }, payload);
    assert!(rt; frame.is_ok());
}

/// `zk_frames`: a piece is cut where its first frame ends.
#[test]
fn frame_is_cut(rt: HostRuntime) -> Result<(), Fail> {
    let mut frames = Frames::new(rt.alloc(), 64)?;
    let took = frames.take(b"\0\0\0\x01a\0\0\0")?;
    assert!(rt; took.whole && took.used == 5 && frames.held() == 5);
    Ok(())
}

/// `zk_waiting`: a request is put, and is the oldest.
#[test]
fn request_waits(rt: HostRuntime) -> Result<(), Fail> {
    let mut waiting = Waiting::new(rt.alloc(), 10)?;
    waiting.put(7, &Alone { op: Op::Exists })?;
    let oldest = waiting.oldest(Lane::Plain).ok_or("none waits")?;
    assert!(rt; oldest.xid() == 7 && oldest.op() == Op::Exists);
    Ok(())
}
