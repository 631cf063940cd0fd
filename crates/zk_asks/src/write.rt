//! `write_client`, `size_within`: how client payloads are written.
ghost use Rattle.std.specs.Prelude.{◌≡◌, ◌++◌, OnOk, OnErr};
ghost use Rattle.zk_jute.specs.Item.{Fit, IsSizeWithin};
ghost use Rattle.zk_records.specs.Codes as codes;
ghost use Rattle.zk_asks.specs.Parts as parted;
ghost use Rattle.zk_asks.specs.{Parts.part_items, Rows.body_items, Frames.frame_items, Frames.MaySend, Frames.payload};

use crate::frame::{Ask, ClientFrame, Part};
use crate::{ask_rows, part_rows};
use std::alloc::AllocError;
use zk_jute::{Output, Spell};
use zk_records::{MultiHeader, Op, PartOp, RequestHeader, op_number, part_number};

/// The header before a part of the operation `op` (`MultiTransactionRecord.serialize`).
fn part_header(op: PartOp) -> MultiHeader
    ensures { result ≡ parted.part_header op }
{
    MultiHeader {
        kind: part_number(op),
        done: false,
        err: -1,
    }
}

/// The header after the last part.
fn end_header() -> MultiHeader
    ensures { result ≡ parted.end_header }
{
    MultiHeader {
        kind: -1,
        done: true,
        err: -1,
    }
}

fn request_header(xid: i32, op: Op) -> RequestHeader
    ensures { result ≡ record { xid = xid; kind = codes.op_number op } }
{
    RequestHeader {
        xid,
        kind: op_number(op),
    }
}

impl Spell for Part {
    ghost items = { part_items };

    fn put<O: Output>(&self, out: &mut O) -> Result<(), O::Error> {
        let header = part_header(self.op());
        macro_rules! row {
            ($part:ident: $($op:ident: $record:ident $borrowed:ident),+) => {
                match $part {
                    $(Part::$op(body) => (&header, body).put(out),)+
                }
            };
        }
        part_rows!(row, self)
    }
}

impl Spell for Ask {
    ghost items = { body_items };

    fn put<O: Output>(&self, out: &mut O) -> Result<(), O::Error> {
        macro_rules! row {
            ($ask:ident: $($($held:ident)|+: $record:ident $borrowed:ident),+; $($bare:ident)|+) => {
                match $ask {
                    $($(Ask::$held(body) => body.put(out),)+)+
                    $(Ask::$bare)|+ => Ok(()),
                    Ask::Multi(parts) => (parts, &end_header()).put(out),
                }
            };
        }
        ask_rows!(row, self)
    }
}

impl ClientFrame {
    /// The length of the frame's payload in bytes; `None` if it has none, or more than `limit`.
    pub fn size_within(&self, limit: u32) -> Option<u32>
        ensures { IsSizeWithin limit (frame_items self.now) result }
    {
        match self {
            ClientFrame::Connect { hello, read_only } => (hello, read_only).size_within(limit),
            ClientFrame::Ask { xid, ask } => {
                (&request_header(*xid, ask.op()), ask).size_within(limit)
            }
        }
    }
}

/// Appends the payload of `frame` to `out`: header and record, as `ClientCnxn.Packet.createBB` writes them after the
/// length.
///
/// # Errors
///
/// `AllocError` if memory is refused; then `out` is unchanged.
pub fn write_client(frame: &ClientFrame, out: &mut Vec<u8>) -> Result<(), AllocError>
    requires allowed { MaySend frame.now }
    requires size { Fit 2147483647 (frame_items frame.now) }
    ensures ok { OnOk result (out.new.items ≡ out.old.items ++ payload frame.now) }
    ensures err { OnErr result (out.new.items ≡ out.old.items) }
{
    match frame {
        ClientFrame::Connect { hello, read_only } => (hello, read_only).write(out),
        ClientFrame::Ask { xid, ask } => (&request_header(*xid, ask.op()), ask).write(out),
    }
}
