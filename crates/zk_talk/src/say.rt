//! `say_client`, `say_server`, `SayFault`: whether one message more may be said, and its frame.
ghost use Rattle.std.specs.Prelude.{◌≡◌, ◌≤◌, ◌<◌, ◌+◌, ◌^◌, ◌++◌, ◌⊎◌, pos, length, true, OnOk, OnErr, IfErr, MatchBool, IsTrue, ◌↔◌};
ghost use Rattle.zk_jute.specs.Item.{Fit, int_bytes};
ghost use Rattle.zk_records.specs.Codes.{HasOp};
ghost use Rattle.zk_asks.specs.Frames as asks;
ghost use Rattle.zk_answers.specs.Frames as answers;
ghost use Rattle.zk_frames.specs.Framing.{frame};
ghost use Rattle.zk_talk.specs.{declared.limits.Limits.Limits, declared.say.SayFault.TheVariants.NoMemory, Payloads.client_payload, Payloads.server_payload, Judged.IsRemembered, Judged.HasRoomFor};
ghost use Rattle.zk_talk.specs.SayNames as names;
ghost use Rattle.zk_talk.specs.Said.{MayAsk, IsUnwritten, IsUnput, FitsNext, IsUnfit, MayAnswer, CannotAnswer, SaysClient, StandsClient, RefusesClient, SaysServer, StandsServer, RefusesServer};

use crate::judge::{forget, remember};
use crate::limits::Limits;
use std::alloc::{AllocError, Global};
use std::error::Error;
use std::fmt;
use std::fmt::Display;
use zk_answers::{Outcome, Reply, ServerFrame, fits, write_server};
use zk_asks::{ClientFrame, allowed, write_client};
use zk_jute::Reason;
use zk_records::{Op, Profile, op_number, op_of};
use zk_waiting::{Awaited, lane_of};

/// Why a message can't be said, in the order of the checks.
#[derive(Clone, Copy, Debug, PartialEq, Eq)]
pub enum SayFault {
    /// A connect message of a side that has spoken, or another of one that has not.
    NotFirst,
    /// No request of the lane waits, or there was no connect request.
    Unasked,
    /// The lane's oldest request has another xid.
    XidOrder { expected: i32, got: i32 },
    /// The xid isn't allowed for the operation, the operation isn't of the profile, or the reply doesn't fit its request.
    Misfit,
    /// The payload is longer than its side's limit.
    TooLong,
    /// The requests that wait would weigh more than the limit.
    QueueFull,
    /// The system refused memory.
    NoMemory,
}

/// The name of the fault, as lines and reports have it.
pub fn say_name(fault: &SayFault) -> &'static str
    ensures { result.now ≡ names.say_name fault.now }
{
    macro_rules! name_of {
        ($($name:ident)*) => {
            match fault {
                $(SayFault::$name { .. } => stringify!($name),)*
            }
        };
    }
    name_of!(NotFirst Unasked XidOrder Misfit TooLong QueueFull NoMemory)
}

/// The fault's name; after that of `XidOrder` its two xids.
impl Display for SayFault {
    fn fmt<W: fmt::Write>(&self, f: &mut fmt::Formatter<W>) -> fmt::Result {
        f.write_str(say_name(self))?;
        match self {
            SayFault::XidOrder { expected, got } => write!(f, " expected={expected} got={got}"),
            _ => Ok(()),
        }
    }
}

impl Error for SayFault {}

/// Appends `size` as the four bytes of length that come before a payload.
pub fn put_length(size: u32, out: &mut Vec<u8>) -> Result<(), AllocError>
    requires { size < 2 ^ 31 }
    ensures ok { OnOk result (out.new.items ≡ out.old.items ++ int_bytes (pos size)) }
    ensures err { OnErr result (out.new.items ≡ out.old.items) }
{
    out.extend_from_slice(&(size as i32).to_be_bytes())?;
    Ok(())
}

/// Appends the frame of a message whose payload has `$size` bytes, and is written by `$write`.
macro_rules! put {
    ($message:ident, $size:ident, $out:ident, $write:ident) => {{
        let start = $out.len();
        let Ok(()) = put_length($size, $out) else {
            return Err(SayFault::NoMemory);
        };
        let Ok(()) = $write($message, $out) else {
            $out.truncate(start);
            return Err(SayFault::NoMemory);
        };
        Ok(())
    }};
}

/// Appends the frame of a message of the client, whose payload has `size` bytes.
fn put_client(message: &ClientFrame, size: u32, out: &mut Vec<u8>) -> Result<(), SayFault>
    requires allowed { asks.MaySend message.now }
    requires fits { Fit 2147483647 (asks.frame_items message.now) }
    requires size { size ≡ length (asks.payload message.now) }
    ensures ok { OnOk result (out.new.items ≡ out.old.items ++ frame (client_payload message.now)) }
    ensures same { OnErr result (out.new.items ≡ out.old.items) }
    ensures err { IfErr result (λ e. e ≡ NoMemory) }
{
    put!(message, size, out, write_client)
}

/// Appends the frame of a message of the server, whose payload is at most `limit` bytes.
fn put_server(message: &ServerFrame, limit: u32, out: &mut Vec<u8>) -> Result<(), SayFault>
    requires xid { answers.HasItsXid message.now }
    requires limit { limit ≤ 16777216 }
    ensures fits { OnOk result (Fit limit (answers.frame_items message.now)) }
    ensures ok { OnOk result (out.new.items ≡ out.old.items ++ frame (server_payload message.now)) }
    ensures same { OnErr result (out.new.items ≡ out.old.items) }
    ensures err { IfErr result (IsUnwritten limit (answers.frame_items message.now)) }
    // Memory is needed for what fits alone.
    ensures lacks { IfErr result (λ e. e ≡ NoMemory → Fit limit (answers.frame_items message.now)) }
{
    let Some(size) = message.size_within(limit) else {
        return Err(SayFault::TooLong);
    };
    put!(message, size, out, write_server)
}

fn is_connect(message: &ClientFrame) -> bool
    ensures { MatchBool result (asks.IsFirst message.now) (asks.IsLater message.now) }
{
    matches!(message, ClientFrame::Connect { .. })
}

fn is_connected(message: &ServerFrame) -> bool
    ensures { MatchBool result (answers.IsConnected message.now) (answers.IsConnected message.now → ⊥) }
{
    matches!(message, ServerFrame::Connected { .. })
}

fn is_of(profile: Profile, op: Op) -> bool
    ensures { IsTrue result ↔ HasOp profile op }
{
    op_of(profile, op_number(op)).is_some()
}

/// Whether the xid is allowed for the operation, and the operation is of the profile.
fn may_ask(limits: Limits, message: &ClientFrame) -> bool
    ensures { IsTrue result ↔ MayAsk limits message.now }
{
    match message {
        ClientFrame::Connect { .. } => true,
        ClientFrame::Ask { xid, ask } => {
            allowed(*xid, ask.op()) && is_of(limits.profile(), ask.op())
        }
    }
}

/// Whether there is room for the message's request to wait for its reply.
fn has_room(waiting: &Awaited, message: &ClientFrame) -> bool
    ensures { IsTrue result ↔ HasRoomFor message.now waiting.now }
{
    match message {
        ClientFrame::Connect { .. } => true,
        ClientFrame::Ask { ask, .. } => waiting.has_room_for(ask.parts().len() as u64),
    }
}

/// Lets the request wait for its reply.
fn put_request(alloc: Global, waiting: &mut Awaited, message: &ClientFrame) -> Result<(), SayFault>
    requires may { asks.MaySend message.now }
    requires small { length (client_payload message.now) < 2 ^ 32 }
    ensures max { waiting.new.max ≡ waiting.old.max }
    ensures ok { OnOk result (IsRemembered message.now waiting.old waiting.new) }
    ensures same { OnErr result (waiting.new ≡ waiting.old) }
    ensures err { IfErr result (IsUnput message.now waiting.old) }
{
    match remember(alloc, waiting, message) {
        Ok(()) => Ok(()),
        Err(e) => match e.reason {
            Reason::QueueFull => Err(SayFault::QueueFull),
            _ => Err(SayFault::NoMemory),
        },
    }
}

/// Says a message of the client, whose request then waits for its reply.
pub fn say_client(
    alloc: Global,
    limits: Limits,
    asked: bool,
    waiting: &mut Awaited,
    message: &ClientFrame,
    out: &mut Vec<u8>,
) -> Result<(), SayFault>
    requires room { waiting.old.max ≡ limits.waiting }
    ensures max { waiting.new.max ≡ waiting.old.max }
    ensures bytes { OnOk result (out.new.items ≡ out.old.items ++ frame (client_payload message.now)) }
    ensures within { OnOk result (length (client_payload message.now) ≤ limits.client) }
    ensures said { OnOk result (SaysClient limits asked waiting.old message.now waiting.new) }
    ensures same { OnErr result ((waiting.new ≡ waiting.old) × (out.new.items ≡ out.old.items)) }
    ensures err { IfErr result (λ e. (e ≡ NoMemory) ⊎ RefusesClient limits asked waiting.old message.now e) }
    // Memory is needed only for what may be said.
    ensures lacks { IfErr result (λ e. e ≡ NoMemory → StandsClient limits asked waiting.old message.now) }
{
    if is_connect(message) == asked {
        return Err(SayFault::NotFirst);
    }
    if !may_ask(limits, message) {
        return Err(SayFault::Misfit);
    }
    let Some(size) = message.size_within(limits.client()) else {
        return Err(SayFault::TooLong);
    };
    if !has_room(waiting, message) {
        return Err(SayFault::QueueFull);
    }
    let start = out.len();
    match put_client(message, size, out) {
        Ok(()) => {}
        Err(e) => return Err(e),
    }
    match put_request(alloc, waiting, message) {
        Ok(()) => Ok(()),
        Err(e) => {
            out.truncate(start);
            Err(e)
        }
    }
}

/// The failure of an outcome is an error's number. The function does nothing.
fn failure_is_an_error(outcome: &Outcome)
    ensures { answers.IsOutcome outcome.now }
{
    if let Outcome::Failed(_, failure) = outcome {
        let _number = failure.number();
    }
}

/// Whether the reply fits the oldest request of its lane.
fn reply_fits(waiting: &Awaited, reply: &Reply) -> Result<(), SayFault>
    ensures ok { OnOk result (FitsNext waiting.now reply.now) }
    ensures err { IfErr result (IsUnfit waiting.now reply.now) }
{
    let got = reply.xid;
    if got == -1 {
        return Err(SayFault::Misfit);
    }
    let Some(slot) = waiting.oldest(lane_of(got)) else {
        return Err(SayFault::Unasked);
    };
    let expected = slot.xid();
    if expected != got {
        return Err(SayFault::XidOrder { expected, got });
    }
    if !fits(&slot, reply) {
        return Err(SayFault::Misfit);
    }
    failure_is_an_error(&reply.outcome);
    Ok(())
}

/// Whether the request that the message replies to is there.
fn may_answer(asked: bool, waiting: &Awaited, message: &ServerFrame) -> Result<(), SayFault>
    ensures ok { OnOk result (MayAnswer asked waiting.now message.now) }
    ensures err { IfErr result (CannotAnswer asked waiting.now message.now) }
{
    match message {
        ServerFrame::Connected { .. } => {
            if asked {
                Ok(())
            } else {
                Err(SayFault::Unasked)
            }
        }
        ServerFrame::Answered(reply) => reply_fits(waiting, reply),
        ServerFrame::Event { .. } => Ok(()),
    }
}

/// Says a message of the server, and drops the request that it replies to.
pub fn say_server(
    limits: Limits,
    asked: bool,
    welcomed: bool,
    waiting: &mut Awaited,
    message: &ServerFrame,
    out: &mut Vec<u8>,
) -> Result<(), SayFault>
    ensures max { waiting.new.max ≡ waiting.old.max }
    ensures bytes { OnOk result (out.new.items ≡ out.old.items ++ frame (server_payload message.now)) }
    ensures within { OnOk result (length (server_payload message.now) ≤ limits.server) }
    ensures said { OnOk result (SaysServer limits asked welcomed waiting.old message.now waiting.new) }
    ensures same { OnErr result ((waiting.new ≡ waiting.old) × (out.new.items ≡ out.old.items)) }
    ensures err { IfErr result (λ e. (e ≡ NoMemory) ⊎ RefusesServer limits asked welcomed waiting.old message.now e) }
    // Memory is needed only for what may be said.
    ensures lacks { IfErr result (λ e. e ≡ NoMemory → StandsServer limits asked welcomed waiting.old message.now) }
{
    if is_connected(message) == welcomed {
        return Err(SayFault::NotFirst);
    }
    match may_answer(asked, waiting, message) {
        Ok(()) => {}
        Err(e) => return Err(e),
    }
    match put_server(message, limits.server(), out) {
        Ok(()) => {}
        Err(e) => return Err(e),
    }
    forget(waiting, message);
    Ok(())
}
