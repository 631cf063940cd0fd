//! The fields of single payloads, with no handle.
#![tactic(auto, using(crate::proofs::Reading::read_ok, crate::proofs::Reading::read_err))]

ghost use Rattle.std.specs.Prelude.{◌≡◌, ◌≤◌, ◌^◌, length};
ghost use Rattle.zk_records.specs.declared.profile.Profile.{Profile};
ghost use Rattle.zk_records.specs.Codes.{profile_number, IsNoOp};
ghost use Rattle.zk_answers.specs.Held.{ServerFrame};
ghost use Rattle.zk_talk.specs.declared.message.MessageOf.TheVariants.{Server as FromServer};
ghost use Rattle.zk_c.specs.Asked.{AreNoneAsked, WhereAsked};
ghost use Rattle.zk_c.specs.Judged.{IsNotice, HasHead, HasNoHead, IsOfEvent, IsOfReply};
ghost use Rattle.zk_c.specs.Read.{HasPlaces, IsOp, no_read, IsUnknown, TellsNone, TellsUnknown, TellsMessage, IsAskOf, ReadsConnect, ReadsRequest, ReadsWelcome, ReadsReply, WhereReply, NoticeOrFault};

use crate::asked::Numbered;
use crate::number::{MISFIT, RANGE};
use crate::payload::{is_of_event, is_of_reply};
use crate::read_answer::{ReadAnswer, int_there, read_client, read_fault, read_server};
use zk_answers::{borrow_connected, borrow_event, borrow_reply};
use zk_asks::{borrow_ask, borrow_first};
use zk_fields::{Field, Opened};
use zk_records::{NEWEST, Profile, op_of};

/// Writes the fields of the message that `$read` finds in the payload, by `$tell`; or, of a payload that is read as `$opened`,
/// those before its fault. The call returns `RANGE` for a length of 4 GiB or more, and `MISFIT` if `$other` says so.
macro_rules! read_payload {
    ($payload:ident, $room:ident, $read:expr => $tell:ident, $opened:expr $(, unless $other:ident)?) => {{
        if $payload.len() > u32::MAX as usize {
            return ReadAnswer::none(RANGE);
        }
        $(if $other($payload) {
            return ReadAnswer::none(MISFIT);
        })?
        match $read {
            Ok(frame) => $tell(&frame, $room),
            Err(fault) => read_fault($opened, $payload, fault, $room),
        }
    }};
}

/// Writes the fields of a connect request, as far as there is room.
#[unsafe(no_mangle)]
pub extern "C" fn zk_read_first(payload: &[u8], room: &mut [Field]) -> ReadAnswer
    // A length of 4 GiB or more is refused.
    ensures range { 2 ^ 32 ≤ length payload.now → TellsNone 67 room.old room.new result }
    // If it is a connect request's, its fields are written; it is one's, or the first case that applies is returned.
    ensures reads { HasPlaces payload.now → ReadsConnect payload.now room.old room.new result }
{
    read_payload!(payload, room, borrow_first(payload) => read_client, Some(Opened::First))
}

/// A request of the operation whose number is in the payload's header; `None` if the profile has none of that number.
fn ask_of(profile: Profile, payload: &[u8]) -> Option<Opened>
    ensures { IsAskOf profile payload.now result }
{
    let number = int_there(payload, 4);
    match op_of(profile, number) {
        Some(op) => Some(Opened::Ask(op)),
        None => None,
    }
}

/// Writes the fields of a request of a profile, 34 or 35, as far as there is room.
#[unsafe(no_mangle)]
pub extern "C" fn zk_read_request(profile: u32, payload: &[u8], room: &mut [Field]) -> ReadAnswer
    // A number that is no profile's is refused, and a length of 4 GiB or more.
    ensures range { ((p : Profile) → profile ≡ profile_number p → 2 ^ 32 ≤ length payload.now) → TellsNone 67 room.old room.new result }
    // If it is a request's, its fields are written; it is one's, or the first case that applies is returned.
    ensures reads { (p : Profile) → profile ≡ profile_number p → HasPlaces payload.now → ReadsRequest p payload.now room.old room.new result }
{
    let Some(profile) = Profile::of_number(profile) else {
        return ReadAnswer::none(RANGE);
    };
    read_payload!(payload, room, borrow_ask(profile, payload) => read_client, ask_of(profile, payload))
}

/// Writes the fields of the answer to a connect request, as far as there is room.
#[unsafe(no_mangle)]
pub extern "C" fn zk_read_connected(payload: &[u8], room: &mut [Field]) -> ReadAnswer
    // A length of 4 GiB or more is refused.
    ensures range { 2 ^ 32 ≤ length payload.now → TellsNone 67 room.old room.new result }
    // If it is such an answer's, its fields are written; it is one's, or the first case that applies is returned.
    ensures reads { HasPlaces payload.now → ReadsWelcome payload.now room.old room.new result }
{
    read_payload!(payload, room, borrow_connected(payload) => read_server, Some(Opened::Connected))
}

/// What is read of a reply to a request that is none: of an operation with other parts, or of no operation.
fn unasked(operation: i32, payload: &[u8]) -> ReadAnswer
    ensures range { IsOp operation → result ≡ no_read 67 }
    ensures long { 2 ^ 32 ≤ length payload.now → result ≡ no_read 67 }
    ensures event { IsNoOp NEWEST operation → HasPlaces payload.now → HasHead IsOfEvent payload.now → result ≡ no_read 82 }
    ensures unknown { IsNoOp NEWEST operation → HasPlaces payload.now → HasNoHead IsOfEvent payload.now → IsUnknown payload.now result }
{
    if let Some(_op) = op_of(NEWEST, operation) {
        return ReadAnswer::none(RANGE);
    }
    if payload.len() > u32::MAX as usize {
        return ReadAnswer::none(RANGE);
    }
    if is_of_event(payload) {
        return ReadAnswer::none(MISFIT);
    }
    ReadAnswer::unknown(payload)
}

/// Writes the fields of a reply to a request of this operation with parts of these, as far as there is room.
#[unsafe(no_mangle)]
pub extern "C" fn zk_read_reply(
    operation: i32,
    parts: &[i32],
    payload: &[u8],
    room: &mut [Field],
) -> ReadAnswer
    // Parts that are none's, or of another operation than multi, are refused, and a length of 4 GiB or more.
    ensures range { AreNoneAsked operation parts.now → IsOp operation → TellsNone 67 room.old room.new result }
    ensures long { 2 ^ 32 ≤ length payload.now → TellsNone 67 room.old room.new result }
    // A header with the xid of events is another message's.
    ensures event { WhereAsked operation parts.now (λ op ops. HasPlaces payload.now → HasHead IsOfEvent payload.now → TellsNone 82 room.old room.new result) }
    ensures other { IsNoOp NEWEST operation → HasPlaces payload.now → HasHead IsOfEvent payload.now → TellsNone 82 room.old room.new result }
    // Where no operation has the number, the header is read, and the place of the body is that of UnknownOp.
    ensures unknown { IsNoOp NEWEST operation → HasPlaces payload.now → HasNoHead IsOfEvent payload.now → TellsUnknown payload.now room.old room.new result }
    // If it is a reply to what was asked, its fields are written; it is one, or the first case that applies is returned.
    ensures reads { WhereReply operation parts.now payload.now (λ op ops. ReadsReply op ops payload.now room.old room.new result) }
{
    let Some(asked) = Numbered::of(operation, parts) else {
        return unasked(operation, payload);
    };
    let opened = Some(Opened::Reply(asked.op));
    read_payload!(payload, room, borrow_reply(&asked, payload) => read_server, opened, unless is_of_event)
}

/// Writes the fields of an event, as far as there is room.
#[unsafe(no_mangle)]
pub extern "C" fn zk_read_event(payload: &[u8], room: &mut [Field]) -> ReadAnswer
    // A length of 4 GiB or more is refused.
    ensures range { 2 ^ 32 ≤ length payload.now → TellsNone 67 room.old room.new result }
    // A header with another xid than that of events is another message's.
    ensures reply { HasPlaces payload.now → HasHead IsOfReply payload.now → TellsNone 82 room.old room.new result }
    // If it is an event's, its fields are written.
    ensures only { (s : ServerFrame) → HasPlaces payload.now → IsNotice payload.now s → TellsMessage (FromServer s) room.old room.new result }
    // It is one's, or the first case that applies is returned.
    ensures found { HasPlaces payload.now → HasNoHead IsOfReply payload.now → NoticeOrFault payload.now room.old room.new result }
{
    let opened = Some(Opened::Event);
    read_payload!(payload, room, borrow_event(payload) => read_server, opened, unless is_of_reply)
}
