//! Tests of `Talk`, call by call: what each returns, and what the sides then hold.
use super::frames::{CONNECT, Has, keeps, piece, same, usual};
use std::alloc::Global;
use std::process::Abort;
use std::test::Fail;
use zk_records::Profile;
use zk_talk::{Ending, Fault, Limits, Side, Talk, read_all};

/// How much of the piece is used, and whether a message came, by `take`.
fn took(talk: &mut Talk, side: Side, piece: &[u8]) -> Result<(usize, bool), Fault> {
    let taken = talk.take(side, piece)?;
    let told = (taken.used, taken.message.is_some());
    drop(taken);
    Ok(told)
}

/// How much of the frame is used, and whether it is taken, by `offer`.
fn offered(talk: &mut Talk, side: Side, frame: &[u8]) -> Result<(usize, bool), Fault> {
    let is_taken = talk.offer(side, frame)?;
    Ok((if is_taken { frame.len() } else { 0 }, is_taken))
}

/// How much of the piece is used, and whether a message came, by the call of this name.
fn called(talk: &mut Talk, call: &str, side: Side, piece: &[u8]) -> Result<(usize, bool), Fault> {
    if call == "take" {
        return took(talk, side, piece);
    }
    if call == "offer" {
        return offered(talk, side, piece);
    }
    let stepped = talk.step(side, piece)?;
    Ok((stepped.used, stepped.whole))
}

/// How much is held of the client, and of the server.
fn held(talk: &Talk) -> (u32, u32) {
    (talk.held(Side::Client), talk.held(Side::Server))
}

/// Whether a message of the side is shown.
fn is_shown(talk: &Talk, side: Side) -> bool {
    talk.view(side).is_some()
}

/// Whether a message of the client is shown, and one of the server.
fn shown(talk: &Talk) -> (bool, bool) {
    (is_shown(talk, Side::Client), is_shown(talk, Side::Server))
}

/// What the call of a row returns, how much is then held of the client and of the server, what waits, and whether a
/// message of either is shown.
pub(crate) fn told(alloc: Global, talk: &mut Talk, asked: &str) -> Result<String, Fail> {
    let (call, row) = asked.split_once(' ').ok_or("no call")?;
    let (side, bytes) = piece(alloc, row)?;
    let answer = called(talk, call, side, &bytes);
    let (held, waiting, shown) = (held(talk), talk.waiting(), shown(talk));
    Ok(format!(in alloc; "{answer:?} held {held:?} waiting {waiting} shown {shown:?}")?)
}

/// Each call of a new conversation within these limits returns what its row says.
fn goes_within(rt: &impl Abort, alloc: Global, limits: Limits, rows: &str) -> Result<(), Fail> {
    let mut talk = Talk::new(alloc, limits)?;
    keeps(rt, alloc, &mut talk, rows, Has::Beginning, told)
}

/// The same within the usual limits.
fn goes(rt: &impl Abort, alloc: Global, rows: &str) -> Result<(), Fail> {
    goes_within(rt, alloc, usual()?, rows)
}

/// Within a request and after it, by `take`, which keeps no frame.
const TAKEN: &str = "\
take C 0000002d000000000000000000000000000075300000000000000000000000100000000000000000000000000000000000 = Ok((49, true)) held (0, 0) waiting 0 shown (false, false)
take C 0000000f0000000100000003000000022f61 = Ok((18, false)) held (18, 0) waiting 0 shown (false, false)
take C 01 = Ok((1, true)) held (0, 0) waiting 1 shown (false, false)";

#[test]
fn held_and_waiting(rt: HostRuntime) -> Result<(), Fail> {
    goes(&rt, rt.alloc(), TAKEN)
}

/// A frame that a step made whole is held, and shown, until the side's next call.
const STEPPED: &str = "\
take C 0000002d000000000000000000000000000075300000000000000000000000100000000000000000000000000000000000 = Ok((49, true)) held (0, 0) waiting 0 shown (false, false)
take S 000000250000000000007530010000000000000100000010000102030405060708090a0b0c0d0e0f00 = Ok((41, true)) held (0, 0) waiting 0 shown (false, false)
step C 0000000f0000000100000003000000022f6101 = Ok((19, true)) held (19, 0) waiting 1 shown (true, false)
step C  = Ok((0, false)) held (0, 0) waiting 1 shown (false, false)
step S 00000010000000010000000000000005ffffff9b = Ok((20, true)) held (0, 20) waiting 0 shown (false, true)
step C 0000000f0000000100000003000000022f61 = Ok((18, false)) held (18, 20) waiting 0 shown (false, true)
take S  = Ok((0, false)) held (18, 0) waiting 0 shown (false, false)";

#[test]
fn frame_is_kept(rt: HostRuntime) -> Result<(), Fail> {
    goes(&rt, rt.alloc(), STEPPED)
}

/// What is refused changes nothing, and another frame may be offered: an exists request without its boolean, one with it, a
/// reply with another xid, and its own. Less or more than one frame isn't taken, nor one within another.
const OFFERED: &str = "\
offer C 0000002d000000000000000000000000000075300000000000000000000000100000000000000000000000000000000000 = Ok((49, true)) held (49, 0) waiting 0 shown (true, false)
offer S 000000250000000000007530010000000000000100000010000102030405060708090a0b0c0d0e0f00 = Ok((41, true)) held (49, 41) waiting 0 shown (true, true)
offer C 0000000e0000000100000003000000022f61 = Err(Fault { side: Client, frame: 1, offset: 67, place: 14, reason: Short }) held (49, 41) waiting 0 shown (true, true)
offer C 00400001 = Err(Fault { side: Client, frame: 1, offset: 53, place: 0, reason: LengthRange }) held (49, 41) waiting 0 shown (true, true)
offer C 0000000f0000000100000003000000022f61 = Ok((0, false)) held (49, 41) waiting 0 shown (true, true)
offer C 0000000f0000000100000003000000022f610100 = Ok((0, false)) held (49, 41) waiting 0 shown (true, true)
offer C  = Ok((0, false)) held (49, 41) waiting 0 shown (true, true)
offer C 0000000f0000000100000003000000022f6101 = Ok((19, true)) held (19, 41) waiting 1 shown (true, true)
offer S 00000010000000020000000000000005ffffff9b = Err(Fault { side: Server, frame: 1, offset: 61, place: 0, reason: XidOrder { expected: 1, got: 2 } }) held (19, 41) waiting 1 shown (true, true)
step S 00 = Ok((1, false)) held (19, 1) waiting 1 shown (true, false)
offer S 00000010000000010000000000000005ffffff9b = Ok((0, false)) held (19, 1) waiting 1 shown (true, false)
step S 000010000000010000000000000005ffffff9b = Ok((19, true)) held (19, 20) waiting 0 shown (true, true)
step S ffffffff = Err(Fault { side: Server, frame: 2, offset: 65, place: 0, reason: LengthRange }) held (19, 4) waiting 0 shown (true, false)
offer C 00000008fffffffe0000000b = Err(Fault { side: Server, frame: 2, offset: 65, place: 0, reason: LengthRange }) held (19, 4) waiting 0 shown (true, false)
offer C 00 = Err(Fault { side: Server, frame: 2, offset: 65, place: 0, reason: LengthRange }) held (19, 4) waiting 0 shown (true, false)";

#[test]
fn refused_offer_changes_nothing(rt: HostRuntime) -> Result<(), Fail> {
    goes(&rt, rt.alloc(), OFFERED)
}

/// Where one request may wait, a second is refused until the first has its reply.
const OFFERED_TWICE: &str = "\
offer C 0000002d000000000000000000000000000075300000000000000000000000100000000000000000000000000000000000 = Ok((49, true)) held (49, 0) waiting 0 shown (true, false)
offer S 000000250000000000007530010000000000000100000010000102030405060708090a0b0c0d0e0f00 = Ok((41, true)) held (49, 41) waiting 0 shown (true, true)
offer C 0000000f0000000100000003000000022f6101 = Ok((19, true)) held (19, 41) waiting 1 shown (true, true)
offer C 0000000f0000000200000003000000022f6101 = Err(Fault { side: Client, frame: 2, offset: 87, place: 0, reason: QueueFull }) held (19, 41) waiting 1 shown (true, true)
offer S 00000010000000010000000000000005ffffff9b = Ok((20, true)) held (19, 20) waiting 0 shown (true, true)
offer C 0000000f0000000200000003000000022f6101 = Ok((19, true)) held (19, 20) waiting 1 shown (true, true)";

#[test]
fn offer_waits_for_room(rt: HostRuntime) -> Result<(), Fail> {
    let limits = Limits::new(64, 64, 1).ok_or("no limits")?;
    goes_within(&rt, rt.alloc(), limits, OFFERED_TWICE)
}

/// A fault is returned for good, on both sides, and no byte is used.
const REFUSED: &str = "\
take C 0000002d000000000000000000000000000075300000000000000000000000100000000000000000000000000000000000 = Ok((49, true))
take S 000000250000000000007530010000000000000100000010000102030405060708090a0b0c0d0e0f00 = Ok((41, true))
take C 0000000f0000000100000003000000022f6101 = Ok((19, true))
take S 00000010000000020000000000000005ffffff9b = Err(Fault { side: Server, frame: 1, offset: 61, place: 0, reason: XidOrder { expected: 1, got: 2 } })
take C  = Err(Fault { side: Server, frame: 1, offset: 61, place: 0, reason: XidOrder { expected: 1, got: 2 } })
take S  = Err(Fault { side: Server, frame: 1, offset: 61, place: 0, reason: XidOrder { expected: 1, got: 2 } })
step C 00 = Err(Fault { side: Server, frame: 1, offset: 61, place: 0, reason: XidOrder { expected: 1, got: 2 } })
step S 00 = Err(Fault { side: Server, frame: 1, offset: 61, place: 0, reason: XidOrder { expected: 1, got: 2 } })";

#[test]
fn fault_is_kept(rt: HostRuntime) -> Result<(), Fail> {
    goes(&rt, rt.alloc(), REFUSED)
}

/// A ping.
const PING: &[u8] = b"\0\0\0\x08\xff\xff\xff\xfe\0\0\0\x0b";

/// A conversation of a thousand thousand pieces of a byte each.
#[test]
fn pieces_of_a_byte(rt: HostRuntime) -> Result<(), Fail> {
    let mut bytes = Vec::new(rt.alloc());
    bytes.extend_from_slice(CONNECT)?;
    for _ in 0..83_330 {
        bytes.extend_from_slice(PING)?;
    }
    let mut pieces = Vec::new(rt.alloc());
    for byte in bytes.chunks(1) {
        pieces.push((Side::Client, byte))?;
    }
    let limits = Limits::new(64, 64, 1_048_576).ok_or("no limits")?;
    let ended = read_all(rt.alloc(), limits, &pieces)?;
    same(&rt, &pieces.len(), &1_000_009);
    same(&rt, &ended.messages.len(), &83_331);
    same(&rt, &ended.ending, &Ending::Whole { unanswered: 83_331 });
    Ok(())
}

#[test]
fn limits_with_a_profile(rt: HostRuntime) -> Result<(), Fail> {
    let limits = Limits::new(64, 65, 66).ok_or("no limits")?;
    same(&rt, &limits.profile(), &Profile::V34);
    let newer = limits.with_profile(Profile::V35);
    let numbers = (newer.client(), newer.server(), newer.waiting());
    same(&rt, &numbers, &(64, 65, 66));
    same(&rt, &newer.profile(), &Profile::V35);
    Ok(())
}
