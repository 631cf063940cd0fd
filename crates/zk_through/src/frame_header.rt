//! What is known of a frame by its header alone.
ghost use Rattle.std.specs.Prelude.{◌≡◌, ◌≤◌, length, true, false, IfSome, IfNone};
ghost use Rattle.zk_through.specs.{declared.turn.Turn.Turn, Turns.turn_of, Fates.TellsRequest, Fates.TellsLacking, Fates.TellsReply, Fates.IsWeighed};
ghost use Rattle.zk_through.specs.LeftOut.{is_turn_xid, has_turn, xid_of, number_of, zxid_of, err_of};

use crate::turn::{Turn, is_foreign};
use zk_asks::{Asked, ClientFrameOf, RequestRef, borrow_ask};
use zk_jute::{int_at, long_at};
use zk_records::Profile;

/// Whether requests and replies may have the xid: it isn't an event's.
#[tactic(auto, unfolding(crate::specs::LeftOut::is_turn_xid))]
fn is_turn_xid(xid: i32) -> bool
    ensures { result ≡ is_turn_xid xid }
{
    xid != -1
}

/// The request of a client's later frame of this number, if its header is whole and has such an xid.
#[tactic(auto, unfolding(crate::specs::LeftOut::has_turn))]
fn request_ahead(frame: u64, payload: &[u8]) -> Option<Turn>
    ensures some { IfSome result (λ turn. (has_turn 8 payload.now ≡ true) × (turn ≡ turn_of false (frame, payload.now))) }
    ensures none { IfNone result (has_turn 8 payload.now ≡ false) }
{
    if payload.len() < 8 {
        return None;
    }
    let (Ok((xid, _)), Ok((number, _))) = (int_at(payload, 0), int_at(payload, 4)) else {
        return None;
    };
    if is_turn_xid(xid) {
        let out = false;
        Some(Turn {
            xid,
            number,
            frame,
            out,
        })
    } else {
        None
    }
}

/// The xid of a server's later frame, if its header is whole and has such an xid.
#[tactic(auto, unfolding(crate::specs::LeftOut::has_turn))]
fn reply_ahead(payload: &[u8]) -> Option<i32>
    ensures some { IfSome result (λ xid. (has_turn 16 payload.now ≡ true) × (xid ≡ xid_of payload.now)) }
    ensures none { IfNone result (has_turn 16 payload.now ≡ false) }
{
    if payload.len() < 16 {
        return None;
    }
    let Ok((xid, _)) = int_at(payload, 0) else {
        return None;
    };
    if is_turn_xid(xid) { Some(xid) } else { None }
}

/// The xid, the zxid and the err of a server's later frame, if its header is whole.
#[tactic(auto, unfolding(crate::specs::LeftOut::has_turn))]
pub fn header(payload: &[u8]) -> Option<(i32, i64, i32)>
    ensures some { IfSome result (λ head. head ≡ (xid_of payload.now, zxid_of payload.now, err_of payload.now)) }
    ensures none { IfNone result (has_turn 16 payload.now ≡ false) }
{
    if payload.len() < 16 {
        return None;
    }
    let (Ok((xid, _)), Ok((zxid, _)), Ok((err, _))) = (
        int_at(payload, 0),
        long_at(payload, 4),
        int_at(payload, 12),
    ) else {
        return None;
    };
    Some((xid, zxid, err))
}

/// The request of the client's frame of this number and payload, if that is a later one, its header is whole and has such
/// an xid.
pub fn asked(number: u64, payload: &[u8]) -> Option<Turn>
    ensures { TellsRequest number payload.now result }
{
    if number == 0 {
        return None;
    }
    request_ahead(number, payload)
}

/// The xid of the server's frame of this number and payload, if that is a later one, its header is whole and has such an
/// xid.
pub fn replied(number: u64, payload: &[u8]) -> Option<i32>
    ensures { TellsReply number payload.now result }
{
    if number == 0 {
        return None;
    }
    reply_ahead(payload)
}

/// The request with this payload, if that is left out.
#[inline(always)]
pub fn lacking(profile: Profile, turn: Option<Turn>, payload: &[u8]) -> Option<Turn>
    requires small { length payload.now ≤ 16777216 }
    requires header { IfSome turn (λ t. (t.number ≡ number_of payload.now) × (t.xid ≡ xid_of payload.now)) }
    ensures { TellsLacking profile payload.now turn result }
{
    let Some(mut turn) = turn else {
        return None;
    };
    turn.out = true;
    if is_foreign(profile, turn, payload) {
        Some(turn)
    } else {
        None
    }
}

/// The weight of the client's frame of this number and payload as a request that waits: 1 if it is `out`, which is left
/// out; else what it weighs in the talk. 0 if it is the first frame, or malformed. It may be more, if no more than `room`.
pub fn weight(profile: Profile, out: Option<Turn>, number: u64, payload: &[u8], room: u64) -> u64
    requires small { length payload.now ≤ 16777216 }
    ensures out { IfSome out (λ turn. result ≡ 1) }
    ensures ask { IfNone out (IsWeighed profile number payload.now room result) }
{
    if out.is_some() {
        return 1;
    }
    if number == 0 {
        return 0;
    }
    // A multi's parts are no more than its bytes, so most frames needn't be read for them.
    let most = 1 + payload.len() as u64;
    if most <= room {
        return most;
    }
    match borrow_ask(profile, payload) {
        Ok(ClientFrameOf::Ask { ask, .. }) => 1 + u64::from(RequestRef::of(&ask).parts()),
        Ok(ClientFrameOf::Connect { .. }) => 0,
        Err(_) => 0,
    }
}
