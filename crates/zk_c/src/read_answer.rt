//! `ReadAnswer`: the message whose fields were written, in numbers.
#![tactic(auto, using(crate::proofs::Reading::tells_message, crate::proofs::Reading::tells_refused))]

ghost use Rattle.std.specs.Prelude.{◌≡◌, ◌<◌, ◌^◌, pos, length, Some, None};
ghost use Rattle.zk_talk.specs.Held.{Message};
ghost use Rattle.zk_talk.specs.declared.message.MessageOf.TheVariants.{Client as FromClient, Server as FromServer};
ghost use Rattle.zk_fields.specs.Frames.{AreWritten};
ghost use Rattle.zk_c.specs.Read.{no_read, refused_read, IsUnknown, room_status, head_read, ask_head, answer_head, int_there, long_there, fields_before, head_of, TellsRefused, TellsNone, HasFields, TellsMessage};

use crate::head::Head;
use crate::number::{NO_MESSAGE, ROOM, WELL, reason_number};
use zk_answers::{ServerRef, reply_head};
use zk_asks::ClientRef;
use zk_fields::{Field, Opened, client_fields, opened_fields, server_fields};
use zk_jute::{ItemFault, Reason, int_at, long_at};
use zk_talk::{MessageOf, MessageRef};

/// What message a payload is, and how many fields it has.
#[repr(C)]
#[derive(Clone, Copy)]
pub struct ReadAnswer {
    /// 0; 68 if there are more fields than room; or the reason why the payload is no message's.
    pub status: u32,
    /// The fault's place in the payload, in bytes; 0 if it has none.
    pub place: u32,
    /// The number of the message's fields, those for which there is no room too.
    pub count: u32,
    /// 1: a connect request. 2: a request. 3: the answer to a connect request. 4: a reply. 5: an event.
    pub kind: u32,
    /// The xid of a request, a reply or an event.
    pub xid: i32,
    /// The number of a request's operation, or of that which a reply answers.
    pub operation: i32,
    /// That of a reply.
    pub err: i32,
    /// That of a reply or an event.
    pub zxid: i64,
}

/// The number that `$read` reads of `$payload` at `$place`; 0 if none is whole there.
macro_rules! number_there {
    ($read:ident, $payload:ident, $place:ident) => {{
        if $place > $payload.len() {
            return 0;
        }
        match $read($payload, $place) {
            Ok((number, _)) => number,
            Err(_) => 0,
        }
    }};
}

/// The int at `place`; 0 if none is whole there.
#[tactic(auto, using(crate::proofs::Reading::there, crate::proofs::Reading::not_there, crate::proofs::Reading::no_int))]
pub fn int_there(payload: &[u8], place: usize) -> i32
    ensures { result ≡ int_there payload.now place }
{
    number_there!(int_at, payload, place)
}

/// The long at `place`; 0 if none is whole there.
#[tactic(auto, using(crate::proofs::Reading::there, crate::proofs::Reading::not_there, crate::proofs::Reading::no_long))]
fn long_there(payload: &[u8], place: usize) -> i64
    ensures { result ≡ long_there payload.now place }
{
    number_there!(long_at, payload, place)
}

fn room_status(room: usize, count: u32) -> u32
    ensures { result ≡ room_status room count }
{
    if count as usize <= room { WELL } else { ROOM }
}

impl ReadAnswer {
    /// There are no fields.
    pub fn none(status: u32) -> ReadAnswer
        ensures { result ≡ no_read status }
    {
        ReadAnswer {
            status,
            place: 0,
            count: 0,
            kind: 0,
            xid: 0,
            operation: 0,
            err: 0,
            zxid: 0,
        }
    }

    /// The numbers that a request's header has.
    fn ask_head(payload: &[u8]) -> ReadAnswer
        ensures { result ≡ ask_head payload.now }
    {
        ReadAnswer {
            xid: int_there(payload, 0),
            operation: int_there(payload, 4),
            ..ReadAnswer::none(WELL)
        }
    }

    /// The numbers that the header of a reply or an event has.
    fn answer_head(payload: &[u8]) -> ReadAnswer
        ensures { result ≡ answer_head payload.now }
    {
        ReadAnswer {
            xid: int_there(payload, 0),
            zxid: long_there(payload, 4),
            err: int_there(payload, 12),
            ..ReadAnswer::none(WELL)
        }
    }

    /// The payload is no message's, and has this header; `count` fields come before the fault.
    fn refused(self, fault: ItemFault, count: u32) -> ReadAnswer
        ensures { result ≡ refused_read self fault count }
    {
        ReadAnswer {
            status: reason_number(fault.reason),
            place: fault.place,
            count,
            ..self
        }
    }

    /// The header of a reply to an operation that has no number here; its body isn't read.
    pub fn unknown(payload: &[u8]) -> ReadAnswer
        ensures { IsUnknown payload.now result }
    {
        let head = ReadAnswer::answer_head(payload);
        match reply_head(payload) {
            Ok(_whole) => head.refused(ItemFault::at(16, Reason::UnknownOp), 0),
            Err(fault) => head.refused(fault, 0),
        }
    }

    /// The answer of a message with this head and `count` fields, where the room has `room` places.
    fn of(room: usize, count: u32, head: Head) -> ReadAnswer
        ensures { result ≡ head_read room count head }
    {
        ReadAnswer {
            status: room_status(room, count),
            place: 0,
            count,
            kind: head.kind,
            xid: head.xid,
            operation: head.operation,
            err: head.err,
            zxid: head.zxid,
        }
    }
}

/// The fields of a client's frame, as far as there is room.
pub fn read_client(frame: &ClientRef<'_>, room: &mut [Field]) -> ReadAnswer
    ensures { HasFields (FromClient frame.now) → TellsMessage (FromClient frame.now) room.old room.new result }
{
    let places = room.len();
    let count = client_fields(frame, room);
    ReadAnswer::of(places, count, Head::of_client(frame))
}

/// The fields of a server's frame, as far as there is room.
pub fn read_server(frame: &ServerRef<'_>, room: &mut [Field]) -> ReadAnswer
    ensures { HasFields (FromServer frame.now) → TellsMessage (FromServer frame.now) room.old room.new result }
{
    let places = room.len();
    let count = server_fields(frame, room);
    ReadAnswer::of(places, count, Head::of_server(frame))
}

/// The fields of the message that is shown, if one is, as far as there is room.
#[inline(always)]
pub fn read_shown(shown: Option<MessageRef<'_>>, room: &mut [Field]) -> ReadAnswer
    ensures none { shown.entry ≡ None → TellsNone 69 room.old room.new result }
    ensures some { (m : Message) → shown.entry ≡ Some m → HasFields m → TellsMessage m room.old room.new result }
{
    match shown {
        Some(MessageOf::Client(frame)) => read_client(&frame, room),
        Some(MessageOf::Server(frame)) => read_server(&frame, room),
        None => ReadAnswer::none(NO_MESSAGE),
    }
}

/// Writes the fields before `place` of a payload read as `opened`, as many as `room` has places for.
#[tactic(auto, using(zk_fields::proofs::Wholes::none_written))]
fn write_before(opened: Option<Opened>, payload: &[u8], place: u32, room: &mut [Field]) -> u32
    ensures { length payload.now < 2 ^ 32 → AreWritten (fields_before opened payload.now place) room.old room.new result }
{
    match opened {
        Some(opened) => opened_fields(opened, payload, place, room),
        None => 0,
    }
}

/// The numbers of the header of a payload read as `opened`.
fn head_of(opened: Option<Opened>, payload: &[u8]) -> ReadAnswer
    ensures { result ≡ head_of opened payload.now }
{
    match opened {
        None => ReadAnswer::ask_head(payload),
        Some(Opened::Ask(_)) => ReadAnswer::ask_head(payload),
        Some(Opened::First) => ReadAnswer::none(WELL),
        Some(Opened::Connected) => ReadAnswer::none(WELL),
        Some(Opened::Reply(_)) => ReadAnswer::answer_head(payload),
        Some(Opened::Event) => ReadAnswer::answer_head(payload),
    }
}

/// Writes the fields before the fault of a payload read as `opened`, as many as `room` has places for.
pub fn read_fault(
    opened: Option<Opened>,
    payload: &[u8],
    fault: ItemFault,
    room: &mut [Field],
) -> ReadAnswer
    ensures { length payload.now < 2 ^ 32 → TellsRefused opened payload.now fault room.old room.new result }
{
    let count = write_before(opened, payload, fault.place, room);
    head_of(opened, payload).refused(fault, count)
}
