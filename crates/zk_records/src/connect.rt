//! The bodies of each side's first payload: `ConnectRequest` and `ConnectResponse` of zookeeper.jute.
ghost use Rattle.std.specs.Prelude.{◌≡◌, refl};
ghost use Rattle.zk_records.specs.Records.{connect_request, connect_response, connect_request_of, connect_response_of};

use crate::fields::{of, pairs};
use crate::fields_of;
use zk_jute::{Blob, BlobRef, Ends, Output, Record, Spell, Written};

/// What a client asks a session with: `ConnectRequest` (`ClientCnxn.SendThread.primeConnection`).
#[derive(Debug, Drop)]
pub struct ConnectRequestOf<B> {
    /// 0 in every release.
    pub protocol_version: i32,
    /// The newest transaction that the client has seen.
    pub last_zxid_seen: i64,
    /// The session's timeout that the client asks for, in milliseconds.
    pub time_out: i32,
    /// The session that goes on; 0 for a new one.
    pub session_id: i64,
    /// The session's password, usually 16 bytes.
    pub passwd: B,
}

/// An owned `ConnectRequest`.
pub type ConnectRequest = ConnectRequestOf<Blob>;

/// A borrowed `ConnectRequest`.
pub type ConnectRequestRef<'a> = ConnectRequestOf<BlobRef<'a>>;

impl Spell for ConnectRequest {
    ghost items = { connect_request.items };

    fn put<O: Output>(&self, out: &mut O) -> Result<(), O::Error> {
        fields_of!(ConnectRequest, pairs, self).put(out)
    }
}

impl<B: Ends> Record for ConnectRequestOf<B> {
    type Row = (i32, (i64, (i32, (i64, B))));

    ghost record = { connect_request_of B.wired };

    fn of(row: Self::Row) -> Self {
        fields_of!(ConnectRequest, of, row, ConnectRequestOf)
    }

    ghost in_order = { refl };
}

impl Written for ConnectRequest {
    ghost same = { refl };
}

/// What a server grants a session with: `ConnectResponse` (`ZooKeeperServer.finishSessionInit`).
#[derive(Debug, Drop)]
pub struct ConnectResponseOf<B> {
    /// 0 in every release.
    pub protocol_version: i32,
    /// The session's timeout in milliseconds; 0 or below if the session has expired.
    pub time_out: i32,
    /// The session's number.
    pub session_id: i64,
    /// The session's password, usually 16 bytes.
    pub passwd: B,
}

/// An owned `ConnectResponse`.
pub type ConnectResponse = ConnectResponseOf<Blob>;

/// A borrowed `ConnectResponse`.
pub type ConnectResponseRef<'a> = ConnectResponseOf<BlobRef<'a>>;

impl Spell for ConnectResponse {
    ghost items = { connect_response.items };

    fn put<O: Output>(&self, out: &mut O) -> Result<(), O::Error> {
        fields_of!(ConnectResponse, pairs, self).put(out)
    }
}

impl<B: Ends> Record for ConnectResponseOf<B> {
    type Row = (i32, (i32, (i64, B)));

    ghost record = { connect_response_of B.wired };

    fn of(row: Self::Row) -> Self {
        fields_of!(ConnectResponse, of, row, ConnectResponseOf)
    }

    ghost in_order = { refl };
}

impl Written for ConnectResponse {
    ghost same = { refl };
}
