//! `write_server`, `size_within`: how server payloads are written.
ghost use Rattle.std.specs.Prelude.{◌≡◌, ◌++◌, OnOk, OnErr, pos, negsuc};
ghost use Rattle.zk_jute.specs.Item.{Fit, IsSizeWithin};
ghost use Rattle.zk_asks.specs.Parts as parts;
ghost use Rattle.zk_answers.specs.Results as results;
ghost use Rattle.zk_answers.specs.Rows as rows;
ghost use Rattle.zk_answers.specs.Frames as frames;

use crate::body_rows;
use crate::frame::{Body, Outcome, PartDone, Reply, ServerFrame};
use std::alloc::AllocError;
use zk_jute::{Output, Spell};
use zk_records::{MultiHeader, PartOp, ReplyHeader, part_number};

/// The header before the record of a part of the operation `op`.
fn result_header(op: PartOp) -> MultiHeader
    ensures { result ≡ results.result_header op }
{
    MultiHeader {
        kind: part_number(op),
        done: false,
        err: 0,
    }
}

/// The header before the error `err` of a part.
fn error_header(err: i32) -> MultiHeader
    ensures { result ≡ results.error_header err }
{
    MultiHeader {
        kind: -1,
        done: false,
        err,
    }
}

/// The header after the last result.
fn end_header() -> MultiHeader
    ensures { result ≡ parts.end_header }
{
    MultiHeader {
        kind: -1,
        done: true,
        err: -1,
    }
}

impl Spell for PartDone {
    ghost items = { results.done_items };

    fn put<O: Output>(&self, out: &mut O) -> Result<(), O::Error> {
        match self {
            PartDone::Created(path) => (&result_header(PartOp::Create), path).put(out),
            PartDone::Deleted => result_header(PartOp::Delete).put(out),
            PartDone::DataSet(stat) => (&result_header(PartOp::SetData), stat).put(out),
            PartDone::Checked => result_header(PartOp::Check).put(out),
            PartDone::PartFailed(err) => (&error_header(*err), err).put(out),
        }
    }
}

impl Spell for Body {
    ghost items = { rows.body_items };

    fn put<O: Output>(&self, out: &mut O) -> Result<(), O::Error> {
        macro_rules! row {
            ($body:ident: $($($one:ident)|+: $only:ident $name:ident $kind:ident),+;
             $($both:ident: $first:ident $first_name:ident $first_kind:ident $borrowed:ident),+; $($bare:ident)|+) => {
                match $body {
                    $($(Body::$one { $only } => $only.put(out),)+)+
                    $(Body::$both { $first, stat } => ($first, stat).put(out),)+
                    $(Body::$bare)|+ => Ok(()),
                    Body::Multi(dones) => (dones, &end_header()).put(out),
                }
            };
        }
        body_rows!(row, self)
    }
}

impl Spell for Outcome {
    ghost items = { frames.rest_items };

    fn put<O: Output>(&self, out: &mut O) -> Result<(), O::Error> {
        match self {
            Outcome::Done(body) => body.put(out),
            Outcome::Failed(_, _) => Ok(()),
        }
    }
}

fn reply_header(reply: &Reply) -> ReplyHeader
    ensures { result ≡ frames.header_of reply.now }
{
    ReplyHeader {
        xid: reply.xid,
        zxid: reply.zxid,
        err: match &reply.outcome {
            Outcome::Done(_) => 0,
            Outcome::Failed(_, failure) => failure.number(),
        },
    }
}

fn event_header(zxid: i64) -> ReplyHeader
    ensures { result ≡ frames.event_header zxid }
{
    ReplyHeader {
        xid: -1,
        zxid,
        err: 0,
    }
}

impl ServerFrame {
    /// The length of the frame's payload in bytes; `None` if it has none, or more than `limit`.
    pub fn size_within(&self, limit: u32) -> Option<u32>
        ensures { IsSizeWithin limit (frames.frame_items self.now) result }
    {
        match self {
            ServerFrame::Connected { hello, read_only } => (hello, read_only).size_within(limit),
            ServerFrame::Answered(reply) => {
                (&reply_header(reply), &reply.outcome).size_within(limit)
            }
            ServerFrame::Event { zxid, event } => (&event_header(*zxid), event).size_within(limit),
        }
    }
}

/// Appends the payload of `frame` to `out`, as `NIOServerCnxn.sendResponse` writes it after the length, and
/// `ZooKeeperServer.finishSessionInit` the reply to a connect request. No reply has the xid -1.
///
/// # Errors
///
/// `AllocError` if memory is refused; then `out` is unchanged.
pub fn write_server(frame: &ServerFrame, out: &mut Vec<u8>) -> Result<(), AllocError>
    requires xid { frames.HasItsXid frame.now }
    requires size { Fit 2147483647 (frames.frame_items frame.now) }
    ensures ok { OnOk result (out.new.items ≡ out.old.items ++ frames.payload frame.now) }
    ensures err { OnErr result (out.new.items ≡ out.old.items) }
{
    match frame {
        ServerFrame::Connected { hello, read_only } => (hello, read_only).write(out),
        ServerFrame::Answered(reply) => (&reply_header(reply), &reply.outcome).write(out),
        ServerFrame::Event { zxid, event } => (&event_header(*zxid), event).write(out),
    }
}
