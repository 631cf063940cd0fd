//! Frames, written from fields with no handle: `zk_write_request`, `zk_write_first`, `zk_write_reply`, `zk_write_event`,
//! `zk_write_connected`.
#![tactic(auto, using(crate::proofs::Handles::answers))]

ghost use Rattle.std.specs.Prelude.{◌≡◌, pos, negsuc, Bool, Option, []};
ghost use Rattle.zk_records.specs.{Held.ConnectRequest, Held.ConnectResponse, Held.WatcherEvent, Codes.op_number};
ghost use Rattle.zk_asks.specs.declared.frame.ClientFrameOf.TheVariants as client;
ghost use Rattle.zk_asks.specs.{Held.Ask, Rows.op_of_ask, Forms.header_items};
ghost use Rattle.zk_answers.specs.Held.{Reply};
ghost use Rattle.zk_answers.specs.declared.frame.ServerFrameOf.TheVariants as server;
ghost use Rattle.zk_fields.specs.declared.value.Heads.TheVariants as head;
ghost use Rattle.zk_fields.specs.Written.{behind_of, done_behind, answer_front, IsHeaded};
ghost use Rattle.zk_c.specs.Write.{written, TellsWritten, TellsAgain, TellsAnswer};

use crate::number::{RANGE, ROOM, TOO_LONG, WELL};
use zk_fields::{
    Field, Unwritten, write_connected, write_event, write_first, write_reply, write_request,
};

/// Whether a frame was written.
#[repr(C)]
#[derive(Clone, Copy)]
pub struct WriteAnswer {
    /// 0; 67 if a field says nothing; 83 if the payload is too long; 68 if the frame is longer than the room.
    pub status: u32,
    /// The length of the frame, for 0 and 68.
    pub length: usize,
    /// The index of the first field that says nothing, or with which the payload is too long.
    pub index: usize,
}

impl WriteAnswer {
    fn of(made: Result<usize, Unwritten>) -> WriteAnswer
        ensures { result ≡ written made }
    {
        let (status, length, index) = match made {
            Ok(length) => (WELL, length, 0),
            Err(Unwritten::Wrong(index)) => (RANGE, 0, index),
            Err(Unwritten::Long(index)) => (TOO_LONG, 0, index),
            Err(Unwritten::Room(length)) => (ROOM, length, 0),
        };
        WriteAnswer {
            status,
            length,
            index,
        }
    }
}

/// Writes the frame of a request of this operation, whose texts and blobs are in `content`, if there is room for it.
#[unsafe(no_mangle)]
pub extern "C" fn zk_write_request(
    xid: i32,
    operation: i32,
    fields: &[Field],
    content: &[u8],
    out: &mut [u8],
) -> WriteAnswer
    // The frame has the header, what the fields say, and a multi's end marker.
    ensures frame { TellsWritten head.Parts (header_items xid operation) (behind_of operation) content.now fields.now out.old out.new result }
    // Of the fields that were read of a request, and its payload, its own frame is written again.
    ensures again { (a : Ask) → operation ≡ op_number (op_of_ask a) → TellsAgain (client.Ask xid a) content.now fields.now out.old out.new result }
{
    WriteAnswer::of(write_request(xid, operation, fields, content, out))
}

/// Writes the frame of a connect request, whose password is in `content`, if there is room for it.
#[unsafe(no_mangle)]
pub extern "C" fn zk_write_first(fields: &[Field], content: &[u8], out: &mut [u8]) -> WriteAnswer
    // The frame has what the fields say.
    ensures frame { TellsWritten head.Parts [] [] content.now fields.now out.old out.new result }
    // Of the fields that were read of a connect request, and its payload, its own frame is written again.
    ensures again { (hello : ConnectRequest) (flag : Option Bool) → TellsAgain (client.Connect hello flag) content.now fields.now out.old out.new result }
{
    WriteAnswer::of(write_first(fields, content, out))
}

/// Writes the frame of a reply to a request of this operation, whose texts and blobs are in `content`, if there is room.
#[unsafe(no_mangle)]
pub extern "C" fn zk_write_reply(
    xid: i32,
    zxid: i64,
    err: i32,
    operation: i32,
    fields: &[Field],
    content: &[u8],
    out: &mut [u8],
) -> WriteAnswer
    // The frame has the header, what the fields say, and the end marker of a multi that is done.
    ensures frame { TellsWritten head.Results (answer_front xid zxid err) (done_behind err operation) content.now fields.now out.old out.new result }
    // Of the fields that were read of a reply, and its payload, its own frame is written again.
    ensures again { (r : Reply) → IsHeaded xid zxid err operation r → TellsAnswer (server.Answered r) content.now fields.now out.old out.new result }
{
    WriteAnswer::of(write_reply(xid, zxid, err, operation, fields, content, out))
}

/// Writes the frame of an event, whose path is in `content`, if there is room for it.
#[unsafe(no_mangle)]
pub extern "C" fn zk_write_event(
    zxid: i64,
    fields: &[Field],
    content: &[u8],
    out: &mut [u8],
) -> WriteAnswer
    // The frame has the header of an event, and what the fields say.
    ensures frame { TellsWritten head.Results (answer_front (negsuc 0) zxid (pos 0)) [] content.now fields.now out.old out.new result }
    // Of the fields that were read of an event, and its payload, its own frame is written again.
    ensures again { (event : WatcherEvent) → TellsAnswer (server.Event zxid event) content.now fields.now out.old out.new result }
{
    WriteAnswer::of(write_event(zxid, fields, content, out))
}

/// Writes the frame of the answer to a connect request, whose password is in `content`, if there is room for it.
#[unsafe(no_mangle)]
pub extern "C" fn zk_write_connected(
    fields: &[Field],
    content: &[u8],
    out: &mut [u8],
) -> WriteAnswer
    // The frame has what the fields say.
    ensures frame { TellsWritten head.Results [] [] content.now fields.now out.old out.new result }
    // Of the fields that were read of an answer to a connect request, and its payload, its own frame is written again.
    ensures again { (hello : ConnectResponse) (flag : Option Bool) → TellsAnswer (server.Connected hello flag) content.now fields.now out.old out.new result }
{
    WriteAnswer::of(write_connected(fields, content, out))
}
