//! Tests of which of the client's frames a reply answers, by `Talk::answered`.
use super::calls::told;
use super::frames::{Has, keeps, usual};
use std::alloc::Global;
use std::process::Abort;
use std::test::Fail;
use zk_talk::Talk;

/// The number after each of these steps, or takes. The client's frames are the connect request (0), exists
/// (1, 3, 7, 9) under the xids 1 to 4, pings (2, 4, 8), setWatches (5), and an auth (6), which comes in two pieces, as the
/// reply to the exists request of frame 3 does.
const ANSWERED: &str = "\
step C 0000002d000000000000000000000000000075300000000000000000000000100000000000000000000000000000000000 = None
step C 0000000f0000000100000003000000022f6101 = None
step S 000000250000000000007530010000000000000100000010000102030405060708090a0b0c0d0e0f00 = Some(0)
step C 00000008fffffffe0000000b = Some(0)
step C 0000000f0000000200000003000000022f6101 = Some(0)
step S 00000010fffffffe000000000000000500000000 = Some(2)
step C 00000008fffffffe0000000b = Some(2)
step C 0000001cfffffff8000000650000000000000005000000000000000000000000 = Some(2)
step C 0000001dfffffffc000000640000000000000006646967657374 = Some(2)
step C 00000003613a62 = Some(2)
step S 0000001effffffffffffffffffffffff000000000000000300000003000000022f61 = None
step S 00000010000000010000000000000005ffffff9b = Some(1)
step S 00000010fffffffc000000000000000000000000 = Some(6)
step C 0000000f0000000300000003000000022f6101 = Some(6)
step S 00000010000000020000000000000005 = None
step S ffffff9b = Some(3)
step S 00000010fffffff8000000000000000500000000 = Some(5)
step C 00000008fffffffe0000000b = Some(5)
step S 00000010fffffffe000000000000000500000000 = Some(4)
take C 0000000f0000000400000003000000022f6101 = Some(4)
take S 00000010fffffffe000000000000000500000000 = None
step S 00000010000000030000000000000005ffffff9b = Some(7)
step S 00000010000000040000000000000005ffffff9b = Some(9)";

/// A fault of the client leaves the server's frame, one of the server's own drops it.
const REFUSED: &str = "\
step C 000000080000000500000000 = Some(9)
step S 00000010fffffffe000000000000000500000000 = None";

/// The number after the call of a row.
fn answered(alloc: Global, talk: &mut Talk, asked: &str) -> Result<String, Fail> {
    told(alloc, talk, asked)?;
    Ok(format!(in alloc; "{:?}", talk.answered())?)
}

/// A new conversation has no number, and then those of the rows; and so has the next one, after `renew`.
fn answers_anew(rt: &impl Abort, alloc: Global, talk: &mut Talk) -> Result<(), Fail> {
    for _ in 0..2 {
        assert!(rt; talk.answered().is_none());
        keeps(rt, alloc, talk, ANSWERED, Has::All, answered)?;
        keeps(rt, alloc, talk, REFUSED, Has::All, answered)?;
        talk.renew();
    }
    Ok(())
}

#[test]
fn replies_answer_frames(rt: HostRuntime) -> Result<(), Fail> {
    answers_anew(&rt, rt.alloc(), &mut Talk::new(rt.alloc(), usual()?)?)
}
