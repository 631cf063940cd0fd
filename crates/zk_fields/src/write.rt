//! Frames, written from their fields: `write_request`, `write_first`, `write_reply`, `write_event`, `write_connected`.
ghost use Rattle.std.specs.Prelude.{◌≡◌, ◌+◌, ◌≤◌, ◌<◌, ◌^◌, pos, negsuc, Bool, Option, Some, List, [], length};
ghost use Rattle.zk_jute.specs.Item.{Item, bytes_of, int_bytes};
ghost use Rattle.zk_records.specs.{Held.ConnectRequest, Held.ConnectResponse, Held.WatcherEvent, Codes.op_number};
ghost use Rattle.zk_asks.specs.declared.frame.ClientFrameOf.TheVariants as client;
ghost use Rattle.zk_asks.specs.{Held.Ask, Rows.op_of_ask, Forms.header_items};
ghost use Rattle.zk_answers.specs.Held.{Reply};
ghost use Rattle.zk_answers.specs.declared.frame.ServerFrameOf.TheVariants as server;
ghost use Rattle.zk_fields.specs.declared.value.Heads.TheVariants as head;
ghost use Rattle.zk_fields.specs.Values.{Measures, Fills};
ghost use Rattle.zk_fields.specs.Written.{Pair, pairs, said_at, all_said, behind_of, done_behind, answer_front, IsHeaded, Writes, WritesAgain, AnswersAgain};

use crate::field::Field;
use crate::value::{Heads, fill, fill_int, value_at};

/// Why fields are not written.
#[derive(Clone, Copy)]
pub enum Unwritten {
    /// The field of this index says nothing: its kind is none, its content isn't there, its number doesn't fit or is said
    /// to be null, or it is an error's header with no int after it.
    Wrong(usize),
    /// With the field of this index the payload has more than 2,147,483,647 bytes.
    Long(usize),
    /// The frame has this many bytes, more than the room.
    Room(usize),
}

/// The number of a payload's bytes: `start`, and those of what the fields say.
fn measure(heads: Heads, fields: &[Field], content: &[u8], start: u64) -> Result<u64, Unwritten>
    requires { start < 2 ^ 31 }
    ensures { Measures heads content.now (pairs fields.now) start result }
{
    let mut size = start;
    for index in 0..fields.len() {
        let Some(value) = value_at(heads, fields, index, content) else {
            return Err(Unwritten::Wrong(index));
        };
        let more = size.saturating_add(value.size());
        if more > i32::MAX as u64 {
            return Err(Unwritten::Long(index));
        }
        size = more;
    }
    Ok(size)
}

/// Writes what the field of this index says, if `room` has place for it there, and returns the place after it.
fn fill_one(
    heads: Heads,
    fields: &[Field],
    index: usize,
    content: &[u8],
    room: &mut [u8],
    at: usize,
) -> usize
    requires { index < length fields.now }
    ensures { (d : Pair) (items : List Item) → said_at heads content.now fields.now index d ≡ Some items → Fills (bytes_of items) at room.old result room.new }
{
    match value_at(heads, fields, index, content) {
        Some(value) => value.fill(room, at),
        None => at,
    }
}

/// Writes what the fields say, if `room` has place for it there, and returns the place after it.
fn fill_all(heads: Heads, fields: &[Field], content: &[u8], room: &mut [u8], at: usize) -> usize
    ensures { (items : List Item) → all_said heads content.now (pairs fields.now) ≡ Some items → Fills (bytes_of items) at room.old result room.new }
{
    let mut at = at;
    for index in 0..fields.len() {
        at = fill_one(heads, fields, index, content, room, at);
    }
    at
}

/// Writes the length of a payload.
fn fill_length(size: u64, room: &mut [u8]) -> usize
    requires { size < 2 ^ 31 }
    ensures { Fills (int_bytes (pos size)) 0 room.old result room.new }
{
    fill_int(size as i32, room, 0)
}

/// Writes the frame of the bytes `front`, of what the fields say, and of the bytes `behind`.
fn write_frame(
    heads: Heads,
    front: &[u8],
    behind: &[u8],
    fields: &[Field],
    content: &[u8],
    room: &mut [u8],
) -> Result<usize, Unwritten>
    requires { length front.now + length behind.now ≤ 64 }
    ensures { (a b : List Item) → front.now ≡ bytes_of a → behind.now ≡ bytes_of b → Writes heads a b content.now fields.now room.old result room.new }
{
    let start = (front.len() + behind.len()) as u64;
    let payload = match measure(heads, fields, content, start) {
        Ok(payload) => payload,
        Err(why) => return Err(why),
    };
    let size = payload as usize + 4;
    if size > room.len() {
        return Err(Unwritten::Room(size));
    }
    let at = fill_length(payload, room);
    let at = fill(front, room, at);
    let at = fill_all(heads, fields, content, room, at);
    fill(behind, room, at);
    Ok(size)
}

/// The bytes of a request's header.
fn request_header(xid: i32, operation: i32) -> [u8; 8]
    ensures { result ≡ bytes_of (header_items xid operation) }
{
    let x = xid.to_be_bytes();
    let o = operation.to_be_bytes();
    [x[0], x[1], x[2], x[3], o[0], o[1], o[2], o[3]]
}

/// The bytes of the header of a reply or an event.
fn reply_header(xid: i32, zxid: i64, err: i32) -> [u8; 16]
    ensures { result ≡ bytes_of (answer_front xid zxid err) }
{
    let x = xid.to_be_bytes();
    let z = zxid.to_be_bytes();
    let e = err.to_be_bytes();
    [
        x[0], x[1], x[2], x[3], z[0], z[1], z[2], z[3], z[4], z[5], z[6], z[7], e[0], e[1], e[2],
        e[3],
    ]
}

/// The bytes of a multi's end marker.
const END: [u8; 9] = [255, 255, 255, 255, 1, 255, 255, 255, 255];

/// The bytes after the fields of a request of this operation, and of a reply to it that is done.
fn end_of(operation: i32) -> &'static [u8]
    ensures exact { result.now ≡ bytes_of (behind_of operation) }
    ensures short { length result.now ≤ 9 }
{
    match operation {
        14 => &END,
        _ => &[],
    }
}

/// The bytes after the fields of a reply with this `err` to a request of this operation.
fn reply_end(err: i32, operation: i32) -> &'static [u8]
    ensures exact { result.now ≡ bytes_of (done_behind err operation) }
    ensures short { length result.now ≤ 9 }
{
    match err {
        0 => end_of(operation),
        _ => &[],
    }
}

/// Writes the frame of a request of this `operation`, whose content is in `content`, and returns its length.
///
/// # Errors
///
/// `Unwritten` if a field says nothing, the payload is too long, or `room` is too small; then `room` is unchanged.
pub fn write_request(
    xid: i32,
    operation: i32,
    fields: &[Field],
    content: &[u8],
    room: &mut [u8],
) -> Result<usize, Unwritten>
    // The frame has the header, what the fields say, and a multi's end marker.
    ensures frame { Writes head.Parts (header_items xid operation) (behind_of operation) content.now fields.now room.old result room.new }
    // Of the fields that were read of a request, and its payload, its own frame is written again.
    ensures again { (a : Ask) → operation ≡ op_number (op_of_ask a) → WritesAgain (client.Ask xid a) content.now fields.now room.old result room.new }
{
    let front = request_header(xid, operation);
    let behind = end_of(operation);
    write_frame(Heads::Parts, &front, behind, fields, content, room)
}

/// Writes the frame of a connect request, whose content is in `content`, and returns its length.
///
/// # Errors
///
/// As `write_request`.
pub fn write_first(fields: &[Field], content: &[u8], room: &mut [u8]) -> Result<usize, Unwritten>
    // The frame has what the fields say, and nothing else.
    ensures frame { Writes head.Parts [] [] content.now fields.now room.old result room.new }
    // Of the fields that were read of a connect request, and its payload, its own frame is written again.
    ensures again { (hello : ConnectRequest) (flag : Option Bool) → WritesAgain (client.Connect hello flag) content.now fields.now room.old result room.new }
{
    write_frame(Heads::Parts, &[], &[], fields, content, room)
}

/// Writes the frame of a reply to a request of this `operation`, whose content is in `content`, and returns its length.
/// An error's header in a multi has the number -1, and the field after it says the error.
///
/// # Errors
///
/// As `write_request`.
pub fn write_reply(
    xid: i32,
    zxid: i64,
    err: i32,
    operation: i32,
    fields: &[Field],
    content: &[u8],
    room: &mut [u8],
) -> Result<usize, Unwritten>
    // The frame has the header, what the fields say, and the end marker of a multi that is done.
    ensures frame { Writes head.Results (answer_front xid zxid err) (done_behind err operation) content.now fields.now room.old result room.new }
    // Of the fields that were read of a reply, and its payload, its own frame is written again.
    ensures again { (r : Reply) → IsHeaded xid zxid err operation r → AnswersAgain (server.Answered r) content.now fields.now room.old result room.new }
{
    let front = reply_header(xid, zxid, err);
    let behind = reply_end(err, operation);
    write_frame(Heads::Results, &front, behind, fields, content, room)
}

/// Writes the frame of an event, whose content is in `content`, and returns its length.
///
/// # Errors
///
/// As `write_request`.
pub fn write_event(
    zxid: i64,
    fields: &[Field],
    content: &[u8],
    room: &mut [u8],
) -> Result<usize, Unwritten>
    // The frame has the header of an event, and what the fields say.
    ensures frame { Writes head.Results (answer_front (negsuc 0) zxid (pos 0)) [] content.now fields.now room.old result room.new }
    // Of the fields that were read of an event, and its payload, its own frame is written again.
    ensures again { (event : WatcherEvent) → AnswersAgain (server.Event zxid event) content.now fields.now room.old result room.new }
{
    let front = reply_header(-1, zxid, 0);
    write_frame(Heads::Results, &front, &[], fields, content, room)
}

/// Writes the frame of the answer to a connect request, whose content is in `content`, and returns its length.
///
/// # Errors
///
/// As `write_request`.
pub fn write_connected(
    fields: &[Field],
    content: &[u8],
    room: &mut [u8],
) -> Result<usize, Unwritten>
    // The frame has what the fields say, and nothing else.
    ensures frame { Writes head.Results [] [] content.now fields.now room.old result room.new }
    // Of the fields that were read of an answer to a connect request, and its payload, its own frame is written again.
    ensures again { (hello : ConnectResponse) (flag : Option Bool) → AnswersAgain (server.Connected hello flag) content.now fields.now room.old result room.new }
{
    write_frame(Heads::Results, &[], &[], fields, content, room)
}
