//! Tests of `Through::resume`: what a passage reads after a refused frame.
use super::frames::{Has, keeps, piece, usual};
use std::alloc::Global;
use std::process::Abort;
use std::test::Fail;
use zk_talk::Side;
use zk_through::Through;

/// How many frames of each side were whole, how many bytes of the next one are held, how many requests wait and what they
/// weigh, and whether a side shows a message.
fn stands(through: &Through) -> ((u64, u64), (u32, u32), (u32, u32), bool) {
    let frames = (through.frames(Side::Client), through.frames(Side::Server));
    let held = (through.held(Side::Client), through.held(Side::Server));
    let waits = (through.requests(), through.waiting());
    let shown = through.view(Side::Client).is_some() || through.view(Side::Server).is_some();
    (frames, held, waits, shown)
}

/// What the step of a row returns, or `resume` of the row `R`, and what the passage has then.
fn told(alloc: Global, through: &mut Through, asked: &str) -> Result<String, Fail> {
    if asked == "R" {
        let resumed = through.resume();
        let (frames, held, waits, shown) = stands(through);
        return Ok(format!(in alloc;
            "{resumed:?} frames {frames:?} held {held:?} waits {waits:?} shown {shown}"
        )?);
    }
    let (side, bytes) = piece(alloc, asked)?;
    let answer = through.step(side, &bytes);
    let (frames, held, waits, _shown) = stands(through);
    Ok(format!(in alloc; "{answer:?} frames {frames:?} held {held:?} waits {waits:?}")?)
}

/// The connect request, and the reply to it.
const CONNECTED: &str = "\
C 0000002d000000000000000000000000000075300000000000000000000000100000000000000000000000000000000000 = Ok(Passed { used: 49, outcome: Message })
S 000000250000000000007530010000000000000100000010000102030405060708090a0b0c0d0e0f00 = Ok(Passed { used: 41, outcome: Message })";

/// The reply to an exists request before that to the one before it, which is left out, in two pieces, while the client has
/// begun a ping. The ping is given again; the other reply is to what wasn't seen.
const BY_A_TURN: &str = "\
C 0000000e000000010000270f000000022f61 = Ok(Passed { used: 18, outcome: Asked(Turn { xid: 1, number: 9999, frame: 1, out: true }) })
C 0000000f0000000200000003000000022f6101 = Ok(Passed { used: 19, outcome: Message }) frames (3, 1) held (0, 0) waits (2, 2)
C 00000008fffffffe = Ok(Passed { used: 8, outcome: Within }) frames (3, 1) held (8, 0) waits (2, 2)
S 0000001000000002 = Ok(Passed { used: 8, outcome: Within })
S 0000000000000005ffffff9b0000001000000001000000000000 = Err(Fault { side: Server, frame: 1, offset: 61, place: 0, reason: XidOrder { expected: 1, got: 2 } }) frames (3, 1) held (8, 20) waits (2, 2)
R = Ok(12) frames (1, 1) held (0, 0) waits (0, 0) shown false
S 0000001000000001000000000000 = Ok(Passed { used: 14, outcome: Within })
C 00000008fffffffe0000000b = Ok(Passed { used: 12, outcome: Message }) frames (2, 1) held (0, 14) waits (1, 1)
S 0005ffffff9b = Ok(Passed { used: 6, outcome: Unseen { xid: 1, zxid: 5, err: -101 } }) frames (2, 2)
S 00000010fffffffe000000000000000500000000 = Ok(Passed { used: 20, outcome: Message }) frames (2, 3) held (0, 0) waits (0, 0)
C 0000000f0000000300000003000000022f6101 = Ok(Passed { used: 19, outcome: Message }) frames (3, 3) held (0, 0) waits (1, 1)
S 00000010000000030000000000000006ffffff9b = Ok(Passed { used: 20, outcome: Message }) frames (3, 4) held (0, 0) waits (0, 0)";

/// A request whose path isn't UTF-8, and the first bytes of one that is good.
const BY_A_TEXT: &str = "\
C 0000000f0000000100000003000000022fc3010000000f00 = Err(Fault { side: Client, frame: 1, offset: 68, place: 13, reason: BadText }) frames (1, 1) held (19, 0) waits (0, 0)
R = Ok(19) frames (1, 1) held (0, 0) waits (0, 0) shown false
C 0000000f0000000200000003000000022f6101 = Ok(Passed { used: 19, outcome: Message }) frames (2, 1) held (0, 0) waits (1, 1)
S 00000010000000010000000000000005ffffff9b = Ok(Passed { used: 20, outcome: Unseen { xid: 1, zxid: 5, err: -101 } }) frames (2, 2)
S 00000010000000020000000000000005ffffff9b = Ok(Passed { used: 20, outcome: Message }) frames (2, 3) held (0, 0) waits (0, 0)";

/// The body of a reply that is too short, which the talk refuses.
const BY_THE_TALK: &str = "\
C 0000000f0000000100000003000000022f6101 = Ok(Passed { used: 19, outcome: Message })
S 0000001100000001000000000000000500000000ff = Err(Fault { side: Server, frame: 1, offset: 62, place: 16, reason: Short }) frames (2, 1) held (0, 21) waits (1, 1)
C 00 = Err(Fault { side: Server, frame: 1, offset: 62, place: 16, reason: Short })
R = Ok(21) frames (1, 1) held (0, 0) waits (0, 0) shown false
R = Ok(0) frames (1, 1) held (0, 0) waits (0, 0) shown false
C 0000000f0000000200000003000000022f6101 = Ok(Passed { used: 19, outcome: Message }) frames (2, 1) held (0, 0) waits (1, 1)
S 0000001100000002000000000000000500000000ff = Err(Fault { side: Server, frame: 1, offset: 45, place: 16, reason: Short })
R = Ok(21) frames (1, 1) held (0, 0) waits (0, 0) shown false";

/// A length out of range has no end: the refusal stays.
const BY_A_LENGTH: &str = "\
S ffffffff = Err(Fault { side: Server, frame: 1, offset: 45, place: 0, reason: LengthRange }) frames (1, 1) held (0, 4) waits (0, 0)
R = Err(Fault { side: Server, frame: 1, offset: 45, place: 0, reason: LengthRange }) frames (1, 1) held (0, 4) waits (0, 0) shown true
C 00 = Err(Fault { side: Server, frame: 1, offset: 45, place: 0, reason: LengthRange })";

/// Nothing is refused: the message stays shown, and the begun frame held.
const BY_NOTHING: &str = "\
C 00000008 = Ok(Passed { used: 4, outcome: Within }) frames (1, 1) held (4, 0)
R = Ok(0) frames (1, 1) held (4, 0) waits (0, 0) shown true
C fffffffe0000000b = Ok(Passed { used: 8, outcome: Message }) frames (2, 1) held (0, 0) waits (1, 1)";

/// Each step of a new passage returns what its row says; and so it does again, after `renew`.
fn goes(rt: &impl Abort, alloc: Global, through: &mut Through, rows: &str) -> Result<(), Fail> {
    for _ in 0..2 {
        keeps(rt, alloc, through, CONNECTED, Has::Beginning, told)?;
        keeps(rt, alloc, through, rows, Has::Beginning, told)?;
        through.renew();
    }
    Ok(())
}

#[test]
fn goes_on_after_a_refused_frame(rt: HostRuntime) -> Result<(), Fail> {
    let alloc = rt.alloc();
    let mut through = Through::new(alloc, usual()?)?;
    for rows in [BY_A_TURN, BY_A_TEXT, BY_THE_TALK, BY_A_LENGTH, BY_NOTHING] {
        goes(&rt, alloc, &mut through, rows)?;
    }
    Ok(())
}
