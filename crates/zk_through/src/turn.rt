//! `Turn`: a request, by its header.
ghost use Rattle.std.specs.Prelude.{◌≡◌, ◌<◌, ◌^◌, ◌↔◌, length, IsTrue, MatchBool};
ghost use Rattle.zk_jute.specs.declared.fault.Reason.TheVariants.{BadPart};
ghost use Rattle.zk_through.specs.LeftOut.{may_be_out, xid_of, number_of, is_newer_part, is_newer_at, IsLackedUnder, HasNewerPart, IsForeign};

use zk_asks::judge_ask;
use zk_jute::{ItemFault, Reason, int_at};
use zk_records::{Profile, op_of};
use zk_waiting::{Lane, lane_of};

/// A request, by its header.
#[derive(Clone, Copy, Debug, PartialEq, Eq)]
pub struct Turn {
    /// The request's xid.
    pub xid: i32,
    /// The number of its operation in `ZooDefs.OpCode`, of whatever release.
    pub number: i32,
    /// The number of its frame among the client's, from 0, those left out counted.
    pub frame: u64,
    /// Whether it is left out.
    pub out: bool,
}

/// Whether requests of the lane may be left out: pings and auths may not.
fn may_be_out(lane: Lane) -> bool
    ensures { result ≡ may_be_out lane }
{
    match lane {
        Lane::Ping | Lane::Auth => false,
        Lane::Watches | Lane::Plain => true,
    }
}

/// Whether no operation of `profile` has the request's number, and requests of its lane may be left out.
fn is_lacked(profile: Profile, xid: i32, number: i32) -> bool
    ensures { MatchBool result (IsLackedUnder profile xid number) (IsLackedUnder profile xid number → ⊥) }
{
    match op_of(profile, number) {
        Some(_) => false,
        None => may_be_out(lane_of(xid)),
    }
}

/// Whether a part of a later profile has this number: create2, createContainer and createTTL.
#[tactic(auto, unfolding(crate::specs::LeftOut::is_newer_part))]
fn is_newer_part(number: i32) -> bool
    ensures { result ≡ is_newer_part number }
{
    if number == 15 || number == 19 {
        return true;
    }
    number == 21
}

/// Whether the header of such a part is at `place`: its number, the boolean 0, and the error -1.
#[tactic(auto, unfolding(crate::specs::LeftOut::is_newer_at))]
fn is_newer_at(payload: &[u8], place: usize) -> bool
    requires { place < 2 ^ 32 }
    ensures { result ≡ is_newer_at payload.now place }
{
    if payload.len() < place + 9 {
        return false;
    }
    let (Ok((number, _)), Ok((open, _)), Ok((err, _))) = (
        int_at(payload, place),
        int_at(payload, place + 4),
        int_at(payload, place + 5),
    ) else {
        return false;
    };
    is_newer_part(number) && open == 0x00ff_ffff && err == -1
}

/// Whether the fault is that a header can't be there.
fn is_bad_part(fault: ItemFault) -> bool
    ensures { IsTrue result ↔ (fault.reason ≡ BadPart) }
{
    match fault.reason {
        Reason::BadPart => true,
        _ => false,
    }
}

/// Whether the payload's first fault as a request of `profile` is at the header of a part of a later profile.
#[cold]
#[inline(never)]
fn has_newer_part(profile: Profile, payload: &[u8]) -> bool
    requires { length payload.now < 2 ^ 32 }
    ensures { MatchBool result (HasNewerPart profile payload.now) (HasNewerPart profile payload.now → ⊥) }
{
    let fault = match judge_ask::<ItemFault>(profile, payload) {
        Ok(_outline) => return false,
        Err(fault) => fault,
    };
    if !is_bad_part(fault) {
        return false;
    }
    is_newer_at(payload, fault.place as usize)
}

/// Whether the request with this header and payload is left out: its operation is none of `profile`, and requests of its
/// lane may be left out; or it is a multi with a part of a later profile.
pub fn is_foreign(profile: Profile, turn: Turn, payload: &[u8]) -> bool
    requires number { turn.number ≡ number_of payload.now }
    requires xid { turn.xid ≡ xid_of payload.now }
    requires small { length payload.now < 2 ^ 32 }
    ensures { MatchBool result (IsForeign profile payload.now) (IsForeign profile payload.now → ⊥) }
{
    if is_lacked(profile, turn.xid, turn.number) {
        return true;
    }
    if turn.number != 14 {
        return false;
    }
    has_newer_part(profile, payload)
}
