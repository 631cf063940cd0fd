//! Numbers for C: the statuses of calls, sides, reasons.
ghost use Rattle.std.specs.Prelude.{◌≡◌};
ghost use Rattle.zk_records.specs.declared.profile.Profile.{Profile};
ghost use Rattle.zk_c.specs.Numbers.{side_number, side_of, reason_number};

use zk_jute::Reason;
use zk_records::Profile;
use zk_talk::Side;

/// The call did what it is for.
pub const WELL: u32 = 0;

/// The system refused memory.
pub const NO_MEMORY: u32 = 5;

/// The handle holds nothing.
pub const EMPTY: u32 = 65;

/// The handle holds something already.
pub const IN_USE: u32 = 66;

/// A number is out of its range, or names nothing.
pub const RANGE: u32 = 67;

/// There is less room than is needed.
pub const ROOM: u32 = 68;

/// No message is kept on this side.
pub const NO_MESSAGE: u32 = 69;

/// The xid is another kind's, or what is said doesn't fit.
pub const MISFIT: u32 = 82;

/// The payload is too long.
pub const TOO_LONG: u32 = 83;

/// The side of this number, 0 for the client and 1 for the server; `None` for others.
pub fn side_of(number: u32) -> Option<Side>
    ensures { result ≡ side_of number }
{
    match number {
        0 => Some(Side::Client),
        1 => Some(Side::Server),
        _ => None,
    }
}

/// The number of a side.
pub fn side_number(side: Side) -> u32
    ensures { result ≡ side_number side }
{
    match side {
        Side::Client => 0,
        Side::Server => 1,
    }
}

/// The number of a reason, from 1 on in the order of `Reason`.
pub fn reason_number(reason: Reason) -> u32
    ensures { result ≡ reason_number reason }
{
    match reason {
        Reason::Short => 1,
        Reason::BadBool => 2,
        Reason::BadLength => 3,
        Reason::BadText => 4,
        Reason::NoMemory => 5,
        Reason::Trailing => 6,
        Reason::UnknownOp => 7,
        Reason::XidOp => 8,
        Reason::BadPart => 9,
        Reason::EventErr => 10,
        Reason::LengthRange => 11,
        Reason::QueueFull => 12,
        Reason::Unasked => 13,
        Reason::XidOrder { .. } => 14,
        Reason::StreamEnd => 15,
    }
}
