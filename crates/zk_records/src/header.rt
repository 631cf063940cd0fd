//! The headers of a request, of a reply, and of each part of a multi.
//!
//! They are `RequestHeader`, `ReplyHeader` and `MultiHeader` of zookeeper.jute.
ghost use Rattle.std.specs.Prelude.{◌≡◌, refl};
ghost use Rattle.zk_records.specs.Records.{request_header, reply_header, multi_header};

use crate::fields::{of, pairs};
use crate::fields_of;
use zk_jute::{Output, Record, Spell, Written};

/// The header of each request: `RequestHeader`, 8 bytes.
#[derive(Debug, Drop)]
pub struct RequestHeader {
    /// The client's number of the request.
    pub xid: i32,
    /// The operation: a number of `ZooDefs.OpCode`; `type` in jute.
    pub kind: i32,
}

impl Spell for RequestHeader {
    ghost items = { request_header.items };

    fn put<O: Output>(&self, out: &mut O) -> Result<(), O::Error> {
        fields_of!(RequestHeader, pairs, self).put(out)
    }
}

impl Record for RequestHeader {
    type Row = (i32, i32);

    ghost record = { request_header };

    fn of(row: Self::Row) -> Self {
        fields_of!(RequestHeader, of, row, RequestHeader)
    }

    ghost in_order = { refl };
}

impl Written for RequestHeader {
    ghost same = { refl };
}

/// The header of each reply and event: `ReplyHeader`, 16 bytes.
#[derive(Debug, Drop)]
pub struct ReplyHeader {
    /// The xid of the request; -1 for an event.
    pub xid: i32,
    /// The zxid of the last transaction that the server had processed.
    pub zxid: i64,
    /// The error, 0 for none: a number of `KeeperException.Code`.
    pub err: i32,
}

impl Spell for ReplyHeader {
    ghost items = { reply_header.items };

    fn put<O: Output>(&self, out: &mut O) -> Result<(), O::Error> {
        fields_of!(ReplyHeader, pairs, self).put(out)
    }
}

impl Record for ReplyHeader {
    type Row = (i32, (i64, i32));

    ghost record = { reply_header };

    fn of(row: Self::Row) -> Self {
        fields_of!(ReplyHeader, of, row, ReplyHeader)
    }

    ghost in_order = { refl };
}

impl Written for ReplyHeader {
    ghost same = { refl };
}

/// The header of each part of a multi, and after the last part: `MultiHeader`, 9 bytes.
#[derive(Debug, Drop)]
pub struct MultiHeader {
    /// The part's operation: a number of `ZooDefs.OpCode`; `type` in jute.
    pub kind: i32,
    /// Whether no part follows.
    pub done: bool,
    /// The part's error, in a reply: a number of `KeeperException.Code`.
    pub err: i32,
}

impl Spell for MultiHeader {
    ghost items = { multi_header.items };

    fn put<O: Output>(&self, out: &mut O) -> Result<(), O::Error> {
        fields_of!(MultiHeader, pairs, self).put(out)
    }
}

impl Record for MultiHeader {
    type Row = (i32, (bool, i32));

    ghost record = { multi_header };

    fn of(row: Self::Row) -> Self {
        fields_of!(MultiHeader, of, row, MultiHeader)
    }

    ghost in_order = { refl };
}

impl Written for MultiHeader {
    ghost same = { refl };
}
