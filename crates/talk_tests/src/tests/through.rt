//! Tests of `Through`, call by call: what each step returns, what then waits and is left out, and how it ends.
use super::frames::{Has, keeps, piece, usual};
use std::alloc::Global;
use std::process::Abort;
use std::test::Fail;
use zk_talk::{Limits, Side};
use zk_through::Through;

/// Whether the client's frame is left out, and the server's.
fn left_out(through: &Through) -> (bool, bool) {
    (
        through.left_out(Side::Client).is_some(),
        through.left_out(Side::Server).is_some(),
    )
}

/// How many frames of each side were whole, which the server's newest answers, and whether each side shows a message.
fn seen(through: &Through) -> ((u64, u64), Option<u64>, (bool, bool)) {
    let frames = (through.frames(Side::Client), through.frames(Side::Server));
    let client = through.view(Side::Client).is_some();
    (
        frames,
        through.answered(),
        (client, through.view(Side::Server).is_some()),
    )
}

/// What the step of a row returns, what then waits, whether each side's frame is left out, how the bytes so far end, and
/// what was seen.
fn told(alloc: Global, through: &mut Through, asked: &str) -> Result<String, Fail> {
    let (side, bytes) = piece(alloc, asked)?;
    let answer = through.step(side, &bytes);
    let (waiting, out, ending) = (through.waiting(), left_out(through), through.finish());
    let (frames, answered, shown) = seen(through);
    Ok(format!(in alloc;
        "{answer:?} waiting {waiting} out {out:?} ends {ending:?} frames {frames:?} answers {answered:?} shown {shown:?}"
    )?)
}

/// The connect request, and the reply to it.
const CONNECTED: &str = "\
C 0000002d000000000000000000000000000075300000000000000000000000100000000000000000000000000000000000 = Ok(Passed { used: 49, outcome: Message }) waiting 0 out (false, false) ends Whole { unanswered: 1 }
S 000000250000000000007530010000000000000100000010000102030405060708090a0b0c0d0e0f00 = Ok(Passed { used: 41, outcome: Message }) waiting 0 out (false, false) ends Whole { unanswered: 0 }";

/// Each step of the rows returns what its row says.
fn goes_on(rt: &impl Abort, alloc: Global, through: &mut Through, rows: &str) -> Result<(), Fail> {
    keeps(rt, alloc, through, rows, Has::Beginning, told)
}

/// No message of either side is shown.
fn shows_none(rt: &impl Abort, through: &Through) {
    assert!(rt; through.view(Side::Client).is_none() && through.view(Side::Server).is_none());
}

/// Each step of the rows returns what its row says, after a connect pair; and so it does again, after `renew`.
fn twice(rt: &impl Abort, alloc: Global, through: &mut Through, rows: &str) -> Result<(), Fail> {
    for _ in 0..2 {
        goes_on(rt, alloc, through, CONNECTED)?;
        goes_on(rt, alloc, through, rows)?;
        through.renew();
        shows_none(rt, through);
    }
    Ok(())
}

/// Each step of a new passage with room for `waiting` requests returns what its row says.
fn goes(rt: &impl Abort, alloc: Global, waiting: u32, rows: &str) -> Result<(), Fail> {
    let limits = Limits::new(4_194_304, 4_194_304, waiting).ok_or("no limits")?;
    twice(rt, alloc, &mut Through::new(alloc, limits)?, rows)
}

/// A request that no profile has (9999), of `/a` under xid 1, its reply, and an exists request between them.
const LEFT_OUT: &str = "\
C 0000000e00000001 = Ok(Passed { used: 8, outcome: Within }) waiting 0 out (false, false)
C 0000270f000000022f61ff = Ok(Passed { used: 10, outcome: Asked(Turn { xid: 1, number: 9999, frame: 1, out: true }) }) waiting 1 out (true, false)
C 0000000f0000000200000003000000022f6101 = Ok(Passed { used: 19, outcome: Message }) waiting 2 out (false, false)
S 000000140000000100000000000000050000000000000000 = Ok(Passed { used: 24, outcome: Answered(Turn { xid: 1, number: 9999, frame: 1, out: true }) }) waiting 1 out (false, true)
S 00000010000000020000000000000005ffffff9b = Ok(Passed { used: 20, outcome: Message }) waiting 0 out (false, false)";

#[test]
fn pair_is_left_out(rt: HostRuntime) -> Result<(), Fail> {
    goes(&rt, rt.alloc(), 65_536, LEFT_OUT)
}

/// Multis with a part of a later profile: createTTL; create2 and createContainer after a check, with whatever follows.
/// They and their replies are left out, and the multi after them isn't.
const NEWER_PARTS: &str = "\
C 00000034000000010000000e0000001500ffffffff000000022f61ffffffffffffffff0000000500000000000003e8ffffffff01ffffffff = Ok(Passed { used: 56, outcome: Asked(Turn { xid: 1, number: 14, frame: 1, out: true }) }) waiting 1 out (true, false)
C 00000024000000020000000e0000000d00ffffffff000000022f61000000030000000f00ffffffff = Ok(Passed { used: 40, outcome: Asked(Turn { xid: 2, number: 14, frame: 2, out: true }) }) waiting 2 out (true, false)
C 00000025000000030000000e0000000d00ffffffff000000022f61000000030000001300ffffffffff = Ok(Passed { used: 41, outcome: Asked(Turn { xid: 3, number: 14, frame: 3, out: true }) }) waiting 3 out (true, false)
C 00000024000000040000000e0000000d00ffffffff000000022f6100000003ffffffff01ffffffff = Ok(Passed { used: 40, outcome: Message }) waiting 5 out (false, false)
S 0000001100000001000000000000000500000000ff = Ok(Passed { used: 21, outcome: Answered(Turn { xid: 1, number: 14, frame: 1, out: true }) }) waiting 4 out (false, true)
S 0000001200000002000000000000000500000000ffff = Ok(Passed { used: 22, outcome: Answered(Turn { xid: 2, number: 14, frame: 2, out: true }) }) waiting 3 out (false, true)
S 0000001300000003000000000000000500000000ffffff = Ok(Passed { used: 23, outcome: Answered(Turn { xid: 3, number: 14, frame: 3, out: true }) }) waiting 2 out (false, true)
S 00000010000000040000000000000005ffffff9b = Ok(Passed { used: 20, outcome: Message }) waiting 0 out (false, false) ends Whole { unanswered: 0 } frames (5, 5) answers Some(4)";

/// Multis that are damaged: by a part that no profile has, by a later part's header with an error or at the end, before a
/// later part, within its header, and after the end.
const DAMAGED_MULTIS: [&str; 6] = [
    "C 0000001a000000010000000e0000006300ffffffffffffffff01ffffffff = Err(Fault { side: Client, frame: 1, offset: 79, place: 8, reason: BadPart })",
    "C 0000001a000000010000000e000000150000000000ffffffff01ffffffff = Err(Fault { side: Client, frame: 1, offset: 79, place: 8, reason: BadPart })",
    "C 0000001a000000010000000e0000001501ffffffffffffffff01ffffffff = Err(Fault { side: Client, frame: 1, offset: 79, place: 8, reason: BadPart })",
    "C 00000047000000010000000e0000000d00ffffffff000000022fc3000000030000001500ffffffff000000022f61ffffffffffffffff0000000500000000000003e8ffffffff01ffffffff = Err(Fault { side: Client, frame: 1, offset: 124, place: 22, reason: BadText })",
    "C 00000010000000010000000e0000001500ffffff = Err(Fault { side: Client, frame: 1, offset: 69, place: 13, reason: Short })",
    "C 00000047000000010000000e0000000d00ffffffff000000022f6100000003ffffffff01ffffffff0000001500ffffffff000000022f61ffffffffffffffff0000000500000000000003e8 = Err(Fault { side: Client, frame: 1, offset: 124, place: 36, reason: Trailing })",
];

#[test]
fn multi_with_a_newer_part_is_left_out(rt: HostRuntime) -> Result<(), Fail> {
    goes(&rt, rt.alloc(), 65_536, NEWER_PARTS)?;
    for row in DAMAGED_MULTIS {
        goes(&rt, rt.alloc(), 65_536, row)?;
    }
    Ok(())
}

/// The reply to the exists request before that to the one that is left out, which was asked first.
const BEFORE_ITS_TURN: &str = "\
C 0000000e000000010000270f000000022f61 = Ok(Passed { used: 18, outcome: Asked(Turn { xid: 1, number: 9999, frame: 1, out: true }) })
C 0000000f0000000200000003000000022f6101 = Ok(Passed { used: 19, outcome: Message })
S 00000010000000020000000000000005ffffff9b = Err(Fault { side: Server, frame: 1, offset: 61, place: 0, reason: XidOrder { expected: 1, got: 2 } })
C 00 = Err(Fault { side: Server, frame: 1, offset: 61, place: 0, reason: XidOrder { expected: 1, got: 2 } })";

/// The reply to the one that is left out before that to the exists request, which was asked first.
const BEFORE_ANOTHERS: &str = "\
C 0000000f0000000100000003000000022f6101 = Ok(Passed { used: 19, outcome: Message })
C 0000000e000000020000270f000000022f61 = Ok(Passed { used: 18, outcome: Asked(Turn { xid: 2, number: 9999, frame: 2, out: true }) })
S 000000140000000200000000000000050000000000000000 = Err(Fault { side: Server, frame: 1, offset: 65, place: 0, reason: XidOrder { expected: 1, got: 2 } })";

/// A side that is refused, by a length and by a turn, shows no message and has left none out; its frame isn't counted, and
/// answers none. The other side is then refused, too.
const BY_A_LENGTH: &str = "\
C 0000000e000000010000270f000000022f61 = Ok(Passed { used: 18, outcome: Asked(Turn { xid: 1, number: 9999, frame: 1, out: true }) }) waiting 1 out (true, false) ends Whole { unanswered: 1 } frames (2, 1) answers Some(0) shown (true, true)
S 00000010000000010000000000000005ffffff9b = Ok(Passed { used: 20, outcome: Answered(Turn { xid: 1, number: 9999, frame: 1, out: true }) }) waiting 0 out (true, true) ends Whole { unanswered: 0 } frames (2, 2) answers Some(1) shown (true, true)
S ffffffff = Err(Fault { side: Server, frame: 2, offset: 65, place: 0, reason: LengthRange }) waiting 0 out (true, false) ends Refused(Fault { side: Server, frame: 2, offset: 65, place: 0, reason: LengthRange }) frames (2, 2) answers Some(1) shown (true, false)
C 00 = Err(Fault { side: Server, frame: 2, offset: 65, place: 0, reason: LengthRange }) waiting 0 out (false, false) ends Refused(Fault { side: Server, frame: 2, offset: 65, place: 0, reason: LengthRange }) frames (2, 2) answers Some(1) shown (false, false)";

const BY_A_TURN: &str = "\
C 0000000e000000010000270f000000022f61 = Ok(Passed { used: 18, outcome: Asked(Turn { xid: 1, number: 9999, frame: 1, out: true }) })
S 00000010000000020000000000000005ffffff9b = Err(Fault { side: Server, frame: 1, offset: 61, place: 0, reason: XidOrder { expected: 1, got: 2 } }) waiting 1 out (true, false) ends Refused(Fault { side: Server, frame: 1, offset: 61, place: 0, reason: XidOrder { expected: 1, got: 2 } }) frames (2, 1) answers Some(0) shown (true, false)";

const BY_THE_TALK: &str = "\
C 0000000f0000000100000003000000022f6101 = Ok(Passed { used: 19, outcome: Message })
S 0000001100000001000000000000000500000000ff = Err(Fault { side: Server, frame: 1, offset: 62, place: 16, reason: Short }) waiting 1 out (false, false) ends Refused(Fault { side: Server, frame: 1, offset: 62, place: 16, reason: Short }) frames (2, 1) answers Some(0) shown (true, false)";

#[test]
fn refused_side_keeps_nothing(rt: HostRuntime) -> Result<(), Fail> {
    for rows in [BY_A_LENGTH, BY_A_TURN, BY_THE_TALK] {
        goes(&rt, rt.alloc(), 65_536, rows)?;
    }
    Ok(())
}

/// No request waits.
const UNASKED: &str = "\
S 00000010000000020000000000000005ffffff9b = Err(Fault { side: Server, frame: 1, offset: 61, place: 0, reason: Unasked })";

#[test]
fn replies_keep_their_turns(rt: HostRuntime) -> Result<(), Fail> {
    for rows in [BEFORE_ITS_TURN, BEFORE_ANOTHERS, UNASKED] {
        goes(&rt, rt.alloc(), 65_536, rows)?;
    }
    Ok(())
}

/// An exists request without its boolean, after a request that is left out: its frame and offset are the stream's.
const SHORT: &str = "\
C 0000000e000000010000270f000000022f61 = Ok(Passed { used: 18, outcome: Asked(Turn { xid: 1, number: 9999, frame: 1, out: true }) })
C 0000000e0000000200000003000000022f61 = Err(Fault { side: Client, frame: 2, offset: 85, place: 14, reason: Short })";

#[test]
fn fault_is_at_the_streams_frame(rt: HostRuntime) -> Result<(), Fail> {
    goes(&rt, rt.alloc(), 65_536, SHORT)
}

/// A request that is left out takes the room of one.
const FULL: &str = "\
C 0000000e000000010000270f000000022f61 = Ok(Passed { used: 18, outcome: Asked(Turn { xid: 1, number: 9999, frame: 1, out: true }) }) waiting 1
C 0000000f0000000200000003000000022f6101 = Ok(Passed { used: 0, outcome: Full }) waiting 1 out (false, false)
S 000000140000000100000000000000050000000000000000 = Ok(Passed { used: 24, outcome: Answered(Turn { xid: 1, number: 9999, frame: 1, out: true }) }) waiting 0
C 0000000f0000000200000003000000022f6101 = Ok(Passed { used: 19, outcome: Message }) waiting 1";

#[test]
fn full_is_no_fault(rt: HostRuntime) -> Result<(), Fail> {
    goes(&rt, rt.alloc(), 1, FULL)
}

/// As much as there is of a client's frame comes before what there is of the server's; requests that are left out are
/// unanswered too.
const ENDS: &str = "\
C 0000000e00000001 = Ok(Passed { used: 8, outcome: Within }) waiting 0 out (false, false) ends Cut { side: Client, frame: 1, got: 8 }
C 0000270f000000022f61 = Ok(Passed { used: 10, outcome: Asked(Turn { xid: 1, number: 9999, frame: 1, out: true }) }) waiting 1 out (true, false) ends Whole { unanswered: 1 }
C 0000000f0000000200000003000000022f6101 = Ok(Passed { used: 19, outcome: Message }) waiting 2 out (false, false) ends Whole { unanswered: 2 }
S 00000014 = Ok(Passed { used: 4, outcome: Within }) waiting 2 out (false, false) ends Cut { side: Server, frame: 1, got: 4 }
C 00 = Ok(Passed { used: 1, outcome: Within }) waiting 2 out (false, false) ends Cut { side: Client, frame: 3, got: 1 }
C 000008fffffffe0000000b = Ok(Passed { used: 11, outcome: Message }) waiting 3 out (false, false) ends Cut { side: Server, frame: 1, got: 4 }
S 0000000100000000000000050000000000000000 = Ok(Passed { used: 20, outcome: Answered(Turn { xid: 1, number: 9999, frame: 1, out: true }) }) waiting 2 out (false, true) ends Whole { unanswered: 2 }
S 00000010000000070000000000000005ffffff9b = Err(Fault { side: Server, frame: 2, offset: 85, place: 0, reason: XidOrder { expected: 2, got: 7 } }) waiting 2 out (false, false) ends Refused(Fault { side: Server, frame: 2, offset: 85, place: 0, reason: XidOrder { expected: 2, got: 7 } })";

#[test]
fn ending_counts_what_is_left_out(rt: HostRuntime) -> Result<(), Fail> {
    goes(&rt, rt.alloc(), 65_536, ENDS)
}

/// A request that no profile has (9998) under -8, twice, with a setWatches between them, and an exists request: each lane
/// has its own order.
const WATCHES: &str = "\
C 00000024fffffff80000270e00000000000000050000000000000000000000000000000000000000 = Ok(Passed { used: 40, outcome: Asked(Turn { xid: -8, number: 9998, frame: 1, out: true }) }) waiting 1 out (true, false)
C 0000000f0000000100000003000000022f6101 = Ok(Passed { used: 19, outcome: Message }) waiting 2 out (false, false)
C 0000001cfffffff8000000650000000000000005000000000000000000000000 = Ok(Passed { used: 32, outcome: Message }) waiting 3 out (false, false)
C 00000024fffffff80000270e00000000000000050000000000000000000000000000000000000000 = Ok(Passed { used: 40, outcome: Asked(Turn { xid: -8, number: 9998, frame: 4, out: true }) }) waiting 4 out (true, false)
S 00000010000000010000000000000005ffffff9b = Ok(Passed { used: 20, outcome: Message }) waiting 3 out (true, false)
S 00000010fffffff8000000000000000500000000 = Ok(Passed { used: 20, outcome: Answered(Turn { xid: -8, number: 9998, frame: 1, out: true }) }) waiting 2 out (true, true)
S 00000010fffffff8000000000000000500000000 = Ok(Passed { used: 20, outcome: Message }) waiting 1 out (true, false)
S 00000010fffffff8000000000000000500000000 = Ok(Passed { used: 20, outcome: Answered(Turn { xid: -8, number: 9998, frame: 4, out: true }) }) waiting 0 out (true, true) ends Whole { unanswered: 0 }
S 00000010fffffff8000000000000000500000000 = Err(Fault { side: Server, frame: 5, offset: 141, place: 0, reason: Unasked })";

/// An operation that the profile lacks, under a ping's xid.
const LACKING_PING: &str = "\
C 00000008fffffffe0000270e = Err(Fault { side: Client, frame: 1, offset: 61, place: 4, reason: UnknownOp })";

#[test]
fn lanes_keep_their_own_turns(rt: HostRuntime) -> Result<(), Fail> {
    for rows in [WATCHES, LACKING_PING] {
        goes(&rt, rt.alloc(), 65_536, rows)?;
    }
    Ok(())
}

/// Room for a weight of 3: a multi of two checks weighs 3, all else 1. A frame that is malformed is refused for its own
/// reason.
const WEIGHED: &str = "\
C 0000000e000000010000270f000000022f61 = Ok(Passed { used: 18, outcome: Asked(Turn { xid: 1, number: 9999, frame: 1, out: true }) }) waiting 1
C 00000037000000020000000e0000000d00ffffffff000000022f61000000000000000d00ffffffff000000022f6100000000ffffffff01ffffffff = Ok(Passed { used: 0, outcome: Full }) waiting 1 out (false, false)
S 000000140000000100000000000000050000000000000000 = Ok(Passed { used: 24, outcome: Answered(Turn { xid: 1, number: 9999, frame: 1, out: true }) }) waiting 0
C 00000037000000020000000e0000000d00ffffffff000000022f61000000000000000d00ffffffff000000022f6100000000ffffffff01ffffffff = Ok(Passed { used: 59, outcome: Message }) waiting 3
C 00000008fffffffe0000000b = Ok(Passed { used: 0, outcome: Full }) waiting 3
C 0000001cfffffff8000000650000000000000005000000000000000000000000 = Ok(Passed { used: 0, outcome: Full }) waiting 3
C 00000015fffffffc0000006400000000000000016100000000 = Ok(Passed { used: 0, outcome: Full }) waiting 3
C 00000024fffffff80000270e00000000000000050000000000000000000000000000000000000000 = Ok(Passed { used: 0, outcome: Full }) waiting 3
C 0000000e0000000300000003000000022f61 = Err(Fault { side: Client, frame: 3, offset: 144, place: 14, reason: Short })";

/// A multi that alone weighs more than may wait is never taken.
const TOO_HEAVY: &str = "\
C 00000037000000020000000e0000000d00ffffffff000000022f61000000000000000d00ffffffff000000022f6100000000ffffffff01ffffffff = Ok(Passed { used: 0, outcome: Full }) waiting 0 out (false, false) ends Whole { unanswered: 0 }
C 0000000f0000000200000003000000022f6101 = Ok(Passed { used: 19, outcome: Message }) waiting 1";

#[test]
fn full_is_weighed_as_the_talk_weighs(rt: HostRuntime) -> Result<(), Fail> {
    goes(&rt, rt.alloc(), 3, WEIGHED)?;
    goes(&rt, rt.alloc(), 2, TOO_HEAVY)
}

/// The number of the client's frame that the server's newest frame answers, after each of these frames. The client's are
/// 9999 (1), exists (2), a ping (3), 9998 under -8 (4), setWatches (5), an auth (6), and exists again (7, 8).
const ANSWERS: &str = "\
C 0000000e000000010000270f000000022f61 = Some(0)
C 0000000f0000000200000003000000022f6101 = Some(0)
C 00000008fffffffe0000000b = Some(0)
C 00000024fffffff80000270e00000000000000050000000000000000000000000000000000000000 = Some(0)
C 0000001cfffffff8000000650000000000000005000000000000000000000000 = Some(0)
C 0000001dfffffffc000000640000000000000006646967657374 = Some(0)
C 00000003613a62 = Some(0)
S 00000010fffffffe000000000000000500000000 = Some(3)
S 00000010fffffff8000000000000000500000000 = Some(4)
S 0000001effffffffffffffffffffffff000000000000000300000003000000022f61 = None
S 000000140000000100000000000000050000000000000000 = Some(1)
C 0000000f0000000300000003000000022f6101 = Some(1)
S 00000010fffffff8000000000000000500000000 = Some(5)
S 00000010fffffffc000000000000000000000000 = Some(6)
S 000000100000000200000000 = Some(6)
S 00000005ffffff9b = Some(2)
C 0000000f0000000400000003000000022f6101 = Some(2)
S 00000010000000030000000000000005ffffff9b = Some(7)
S 00000010000000040000000000000005ffffff9b = Some(8)";

/// The number of the frame that a row's reply answers.
fn answered(alloc: Global, through: &mut Through, asked: &str) -> Result<String, Fail> {
    told(alloc, through, asked)?;
    Ok(format!(in alloc; "{:?}", through.answered())?)
}

/// A new passage has no number, and then those of `ANSWERS`; and so has the next one, after `renew`.
fn answers_anew(rt: &impl Abort, alloc: Global, through: &mut Through) -> Result<(), Fail> {
    for _ in 0..2 {
        assert!(rt; through.answered().is_none());
        goes_on(rt, alloc, through, CONNECTED)?;
        keeps(rt, alloc, through, ANSWERS, Has::All, answered)?;
        through.renew();
    }
    Ok(())
}

#[test]
fn replies_answer_frames(rt: HostRuntime) -> Result<(), Fail> {
    answers_anew(&rt, rt.alloc(), &mut Through::new(rt.alloc(), usual()?)?)
}

/// Seen late are exists under xid 7, 9999 under 8 and a ping. What was asked before are 5, 6 and pings; an
/// event answers nothing. The first reply to what is seen is the last by whose xid another can be told.
const LATE: &str = "\
C 0000000f0000000700000003000000022f6101 = Ok(Passed { used: 19, outcome: Message }) waiting 1 out (false, false)
C 0000000e000000080000270f000000022f61 = Ok(Passed { used: 18, outcome: Asked(Turn { xid: 8, number: 9999, frame: 2, out: true }) }) waiting 2 out (true, false)
S 00000010000000050000000000000005ffffff9b = Ok(Passed { used: 20, outcome: Unseen { xid: 5, zxid: 5, err: -101 } }) waiting 2 out (true, true) ends Whole { unanswered: 2 }
S 0000001effffffffffffffffffffffff000000000000000300000003000000022f61 = Ok(Passed { used: 34, outcome: Message }) waiting 2 out (true, false)
S 00000010fffffffe000000000000000500000000 = Ok(Passed { used: 20, outcome: Unseen { xid: -2, zxid: 5, err: 0 } }) waiting 2 out (true, true)
C 00000008fffffffe0000000b = Ok(Passed { used: 12, outcome: Message }) waiting 3 out (false, true)
S 00000010fffffffe000000000000000500000000 = Ok(Passed { used: 20, outcome: Message }) waiting 2 out (false, false)
S 00000010fffffffe000000000000000500000000 = Ok(Passed { used: 20, outcome: Unseen { xid: -2, zxid: 5, err: 0 } }) waiting 2 out (false, true)
S 000000140000000600000001000000060000000000000000 = Ok(Passed { used: 24, outcome: Unseen { xid: 6, zxid: 4294967302, err: 0 } }) waiting 2 out (false, true)
S 00000010000000070000000000000005ffffff9b = Ok(Passed { used: 20, outcome: Message }) waiting 1 out (false, false)
S 000000140000000800000000000000070000000000000000 = Ok(Passed { used: 24, outcome: Answered(Turn { xid: 8, number: 9999, frame: 2, out: true }) }) waiting 0 out (false, true)
S 00000010000000060000000000000005ffffff9b = Err(Fault { side: Server, frame: 9, offset: 226, place: 0, reason: Unasked }) waiting 0";

/// A reply to what is seen, before its turn; also to one that is left out.
const LATE_BEFORE_ITS_TURN: &str = "\
C 0000000f0000000700000003000000022f6101 = Ok(Passed { used: 19, outcome: Message })
C 0000000f0000000800000003000000022f6101 = Ok(Passed { used: 19, outcome: Message })
S 00000010000000080000000000000005ffffff9b = Err(Fault { side: Server, frame: 1, offset: 44, place: 0, reason: XidOrder { expected: 7, got: 8 } }) waiting 2";

const LATE_BEFORE_ANOTHERS: &str = "\
C 0000000e000000070000270f000000022f61 = Ok(Passed { used: 18, outcome: Asked(Turn { xid: 7, number: 9999, frame: 1, out: true }) })
C 0000000f0000000800000003000000022f6101 = Ok(Passed { used: 19, outcome: Message })
S 00000010000000080000000000000005ffffff9b = Err(Fault { side: Server, frame: 1, offset: 44, place: 0, reason: XidOrder { expected: 7, got: 8 } }) waiting 2";

/// Another xid, after a reply to what is seen.
const LATE_AFTER_ONE: &str = "\
C 0000000f0000000700000003000000022f6101 = Ok(Passed { used: 19, outcome: Message })
S 00000010000000070000000000000005ffffff9b = Ok(Passed { used: 20, outcome: Message })
C 0000000f0000000800000003000000022f6101 = Ok(Passed { used: 19, outcome: Message })
S 00000010000000060000000000000005ffffff9b = Err(Fault { side: Server, frame: 2, offset: 64, place: 0, reason: XidOrder { expected: 8, got: 6 } }) waiting 1";

/// Each step of a passage that is seen late returns what its row says; begun anew, its first message is the connect request.
fn late(rt: &impl Abort, alloc: Global, through: &mut Through, rows: &str) -> Result<(), Fail> {
    assert!(rt; through.frames(Side::Client) == 1 && through.frames(Side::Server) == 1);
    goes_on(rt, alloc, through, rows)?;
    through.renew();
    goes_on(rt, alloc, through, CONNECTED)?;
    goes_on(rt, alloc, through, UNASKED)
}

/// Each step of a new passage that is seen late, with the usual limits, returns what its row says.
fn joins(rt: &impl Abort, alloc: Global, rows: &str) -> Result<(), Fail> {
    late(rt, alloc, &mut Through::join(alloc, usual()?)?, rows)
}

#[test]
fn replies_to_what_was_not_seen(rt: HostRuntime) -> Result<(), Fail> {
    for rows in [
        LATE,
        LATE_BEFORE_ITS_TURN,
        LATE_BEFORE_ANOTHERS,
        LATE_AFTER_ONE,
    ] {
        joins(&rt, rt.alloc(), rows)?;
    }
    Ok(())
}
