//! Tests of `Through::offer`: what is taken, and that what isn't changes nothing.
use super::frames::{Has, keeps, piece, usual};
use std::alloc::Global;
use std::process::Abort;
use std::test::Fail;
use zk_talk::{Fault, Limits, Side};
use zk_through::{Passed, Through};

/// What the call of this name returns.
fn called(
    through: &mut Through,
    call: &str,
    side: Side,
    bytes: &[u8],
) -> Result<Option<Passed>, Fault> {
    if call == "offer" {
        return through.offer(side, bytes);
    }
    let passed = through.step(side, bytes)?;
    Ok(Some(passed))
}

/// Whether the client's frame is left out, and the server's.
fn left_out(through: &Through) -> (bool, bool) {
    let client = through.left_out(Side::Client).is_some();
    (client, through.left_out(Side::Server).is_some())
}

/// Whether a message of the client is shown, and one of the server.
fn shown(through: &Through) -> (bool, bool) {
    let client = through.view(Side::Client).is_some();
    (client, through.view(Side::Server).is_some())
}

/// How much is held of the client, and of the server, and how many frames of each were whole.
fn counts(through: &Through) -> ((u32, u32), (u64, u64)) {
    let held = (through.held(Side::Client), through.held(Side::Server));
    let frames = through.frames(Side::Client);
    (held, (frames, through.frames(Side::Server)))
}

/// What the call of a row returns, and what the passage then is.
fn told(alloc: Global, through: &mut Through, asked: &str) -> Result<String, Fail> {
    let (call, row) = asked.split_once(' ').ok_or("no call")?;
    let (side, bytes) = piece(alloc, row)?;
    let answer = called(through, call, side, &bytes);
    let (held, frames) = counts(through);
    let (waiting, out, shown) = (through.waiting(), left_out(through), shown(through));
    let answers = through.answered();
    Ok(format!(in alloc;
        "{answer:?} waiting {waiting} out {out:?} shown {shown:?} held {held:?} frames {frames:?} answers {answers:?}"
    )?)
}

/// Each call returns what its row says.
fn goes(rt: &impl Abort, alloc: Global, through: &mut Through, rows: &str) -> Result<(), Fail> {
    keeps(rt, alloc, through, rows, Has::Beginning, told)
}

/// The connect request, and the reply to it.
const CONNECTED: &str = "\
offer C 0000002d000000000000000000000000000075300000000000000000000000100000000000000000000000000000000000 = Ok(Some(Passed { used: 49, outcome: Message })) waiting 0 out (false, false) shown (true, false) held (0, 0) frames (1, 0) answers None
offer S 000000250000000000007530010000000000000100000010000102030405060708090a0b0c0d0e0f00 = Ok(Some(Passed { used: 41, outcome: Message })) waiting 0 out (false, false) shown (true, true) held (0, 0) frames (1, 1) answers Some(0)";

/// What is refused changes nothing: an exists request whose last byte is no boolean, a length out of range, a reply out of its
/// turn, and one to nothing. A request that no profile has (9999) and its reply are taken, and left out. Less or more than
/// one frame isn't taken, nor one within another; and after a fault nothing is.
const OFFERED: &str = "\
offer C 0000000f0000000100000003000000022f6102 = Err(Fault { side: Client, frame: 1, offset: 68, place: 14, reason: BadBool }) waiting 0 out (false, false) shown (true, true) held (0, 0) frames (1, 1) answers Some(0)
offer C 00400001 = Err(Fault { side: Client, frame: 1, offset: 53, place: 0, reason: LengthRange }) waiting 0 out (false, false) shown (true, true) held (0, 0) frames (1, 1) answers Some(0)
offer C 0000000e000000010000270f000000022f = Ok(None) waiting 0 out (false, false) shown (true, true) held (0, 0) frames (1, 1) answers Some(0)
offer C 0000000e000000010000270f000000022f6100 = Ok(None) waiting 0 out (false, false) shown (true, true) held (0, 0) frames (1, 1) answers Some(0)
offer C 0000000e000000010000270f000000022f61 = Ok(Some(Passed { used: 18, outcome: Asked(Turn { xid: 1, number: 9999, frame: 1, out: true }) })) waiting 1 out (true, false) shown (true, true) held (0, 0) frames (2, 1) answers Some(0)
offer S 00000010000000070000000000000005ffffff9b = Err(Fault { side: Server, frame: 1, offset: 61, place: 0, reason: XidOrder { expected: 1, got: 7 } }) waiting 1 out (true, false) shown (true, true) held (0, 0) frames (2, 1) answers Some(0)
offer S 000000140000000100000000000000050000000000000000 = Ok(Some(Passed { used: 24, outcome: Answered(Turn { xid: 1, number: 9999, frame: 1, out: true }) })) waiting 0 out (true, true) shown (true, true) held (0, 0) frames (2, 2) answers Some(1)
offer S 00000010000000010000000000000005ffffff9b = Err(Fault { side: Server, frame: 2, offset: 85, place: 0, reason: Unasked }) waiting 0 out (true, true) shown (true, true) held (0, 0) frames (2, 2) answers Some(1)
offer C 0000000f0000000200000003000000022f6101 = Ok(Some(Passed { used: 19, outcome: Message })) waiting 1 out (false, true) shown (true, true) held (0, 0) frames (3, 2) answers Some(1)
offer S 0000001100000002000000000000000500000000ff = Err(Fault { side: Server, frame: 2, offset: 86, place: 16, reason: Short }) waiting 1 out (false, true) shown (true, true) held (0, 0) frames (3, 2) answers Some(1)
offer S 00000010000000020000000000000005ffffff9b = Ok(Some(Passed { used: 20, outcome: Message })) waiting 0 out (false, false) shown (true, true) held (0, 0) frames (3, 3) answers Some(2)
step C 00 = Ok(Some(Passed { used: 1, outcome: Within })) waiting 0 out (false, false) shown (true, true) held (1, 0) frames (3, 3) answers Some(2)
offer C 00000008fffffffe0000000b = Ok(None) waiting 0 out (false, false) shown (true, true) held (1, 0) frames (3, 3) answers Some(2)
step S ffffffff = Err(Fault { side: Server, frame: 3, offset: 89, place: 0, reason: LengthRange }) waiting 0 out (false, false) shown (true, false) held (1, 4) frames (3, 3) answers Some(2)
offer C 00 = Err(Fault { side: Server, frame: 3, offset: 89, place: 0, reason: LengthRange }) waiting 0 out (false, false) shown (true, false) held (1, 4) frames (3, 3) answers Some(2)";

#[test]
fn refused_offer_changes_nothing(rt: HostRuntime) -> Result<(), Fail> {
    let mut through = Through::new(rt.alloc(), usual()?)?;
    goes(&rt, rt.alloc(), &mut through, CONNECTED)?;
    goes(&rt, rt.alloc(), &mut through, OFFERED)
}

/// Where one request may wait, one that is left out too, a second isn't taken until the first has its reply.
const OFFERED_TWICE: &str = "\
offer C 0000000e000000010000270f000000022f61 = Ok(Some(Passed { used: 18, outcome: Asked(Turn { xid: 1, number: 9999, frame: 1, out: true }) })) waiting 1 out (true, false) shown (true, true) held (0, 0) frames (2, 1)
offer C 0000000f0000000200000003000000022f6101 = Ok(Some(Passed { used: 0, outcome: Full })) waiting 1 out (true, false) shown (true, true) held (0, 0) frames (2, 1)
offer C 0000000e000000020000270f000000022f61 = Ok(Some(Passed { used: 0, outcome: Full })) waiting 1 out (true, false) shown (true, true) held (0, 0) frames (2, 1)
offer S 000000140000000100000000000000050000000000000000 = Ok(Some(Passed { used: 24, outcome: Answered(Turn { xid: 1, number: 9999, frame: 1, out: true }) })) waiting 0 out (true, true) shown (true, true) held (0, 0) frames (2, 2)
offer C 0000000f0000000200000003000000022f6101 = Ok(Some(Passed { used: 19, outcome: Message })) waiting 1 out (false, true) shown (true, true) held (0, 0) frames (3, 2)";

#[test]
fn offer_waits_for_room(rt: HostRuntime) -> Result<(), Fail> {
    let limits = Limits::new(64, 64, 1).ok_or("no limits")?;
    let mut through = Through::new(rt.alloc(), limits)?;
    goes(&rt, rt.alloc(), &mut through, CONNECTED)?;
    goes(&rt, rt.alloc(), &mut through, OFFERED_TWICE)
}

/// Of a connection that is seen late, replies to what wasn't seen are passed over until one is to what was. A refused reply,
/// here that to the second request, is none of these.
const LATE: &str = "\
offer S 00000010000000050000000000000007ffffff9b = Ok(Some(Passed { used: 20, outcome: Unseen { xid: 5, zxid: 7, err: -101 } })) waiting 0 out (false, true) shown (false, false) held (0, 0) frames (1, 2) answers Some(0)
offer C 0000000f0000000100000003000000022f6101 = Ok(Some(Passed { used: 19, outcome: Message })) waiting 1 out (false, true) shown (true, false) held (0, 0) frames (2, 2) answers Some(0)
offer C 0000000f0000000200000003000000022f6101 = Ok(Some(Passed { used: 19, outcome: Message })) waiting 2 out (false, true) shown (true, false) held (0, 0) frames (3, 2) answers Some(0)
offer S 00000010000000020000000000000008ffffff9b = Err(Fault { side: Server, frame: 2, offset: 64, place: 0, reason: XidOrder { expected: 1, got: 2 } }) waiting 2 out (false, true) shown (true, false) held (0, 0) frames (3, 2) answers Some(0)
offer S 00000010000000090000000000000008ffffff9b = Ok(Some(Passed { used: 20, outcome: Unseen { xid: 9, zxid: 8, err: -101 } })) waiting 2 out (false, true) shown (true, false) held (0, 0) frames (3, 3) answers Some(0)
offer S 00000010000000010000000000000009ffffff9b = Ok(Some(Passed { used: 20, outcome: Message })) waiting 1 out (false, false) shown (true, true) held (0, 0) frames (3, 4) answers Some(1)
offer S 00000010000000090000000000000009ffffff9b = Err(Fault { side: Server, frame: 4, offset: 104, place: 0, reason: XidOrder { expected: 2, got: 9 } }) waiting 1 out (false, false) shown (true, true) held (0, 0) frames (3, 4) answers Some(1)
offer S 00000010000000020000000000000009ffffff9b = Ok(Some(Passed { used: 20, outcome: Message })) waiting 0 out (false, false) shown (true, true) held (0, 0) frames (3, 5) answers Some(2)";

#[test]
fn offers_to_a_late_passage(rt: HostRuntime) -> Result<(), Fail> {
    goes(
        &rt,
        rt.alloc(),
        &mut Through::join(rt.alloc(), usual()?)?,
        LATE,
    )
}
