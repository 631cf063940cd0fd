//! `Layout`: which fields a payload's body has, for all payloads of both sides.
use zk_records::Op;

/// What follows a payload's header. The two payloads that open a connection have no header, and are meant as a whole.
/// The fields are those of `zookeeper.jute`.
#[derive(Clone, Copy, Debug, PartialEq, Eq)]
pub enum Layout {
    /// A `ConnectRequest` alone.
    Connect,
    /// A `ConnectRequest` and a boolean: whether a read-only server will do.
    ConnectRo,
    /// A `ConnectResponse` alone.
    Connected,
    /// A `ConnectResponse` and a boolean: whether the server is read-only.
    ConnectedRo,
    /// After a `RequestHeader` with this operation's number.
    Asked(Op),
    /// After a `ReplyHeader` with err 0, in a reply to this operation.
    Answered(Op),
    /// After an event's `ReplyHeader`.
    Event,
}
