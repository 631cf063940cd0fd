//! `reply_head`, `read_connected`, `read_reply`, `read_event`: a server's payload judged, and then copied.
ghost use Rattle.std.specs.Prelude.{◌≡◌, ◌≢◌, List, ℕ, negsuc, IfOk, IfErr};
ghost use Rattle.zk_jute.specs.{Reading.told_place, Told.IsTold, Flagged.IsReadAs};
ghost use Rattle.zk_records.specs.declared.header.ReplyHeader as records;
ghost use Rattle.zk_answers.specs.Held as held;
ghost use Rattle.zk_answers.specs.Frames.{IsConnected, IsEvent, IsReplyTo, IsSent};
ghost use Rattle.zk_answers.specs.Frames as sent;
ghost use Rattle.zk_answers.specs.Faults.{IsConnectedFault, IsHead, IsHeadFault, IsReplyFault, IsEventFault};

use crate::borrow::{borrow_connected, borrow_event, borrow_reply};
use crate::frame::ServerFrame;
use std::alloc::Global;
use zk_asks::Asked;
use zk_jute::{ItemFault, int_at, long_at};
use zk_records::{ReplyHeader, copied};

/// The header that `payload`, a reply or an event, begins with (`ReplyHeader`, 16 bytes). Nothing is allocated.
///
/// # Errors
///
/// `Short`, at the first of its three numbers that isn't whole.
pub fn reply_head(payload: &[u8]) -> Result<ReplyHeader, ItemFault>
    // The payload begins with it.
    ensures found { IfOk result (λ header. (rest : List ℕ) × IsHead payload.now header rest) }
    // Else the payload ends within one of its items.
    ensures fault { IfErr result (λ e. (place : ℕ) × IsHeadFault payload.now place e.reason × (e.place ≡ told_place place)) }
{
    let (xid, place) = int_at(payload, 0)?;
    let (zxid, place) = long_at(payload, place)?;
    let (err, _) = int_at(payload, place)?;
    Ok(ReplyHeader { xid, zxid, err })
}

/// The reply to the connect request: a `ConnectResponse`, and one boolean if more bytes follow it
/// (`ClientCnxnSocket.readConnectResult`).
///
/// # Errors
///
/// The first fault of the record, then of the boolean; `Trailing` after it; `NoMemory`, at place 0, if memory is refused.
#[tactic(auto, unfolding(zk_jute::specs::Told::IsTold))]
pub fn read_connected(alloc: Global, payload: &[u8]) -> Result<ServerFrame, ItemFault>
    // What is read has the form, and is the payload's one value.
    ensures found { IfOk result (λ s. IsConnected s × IsSent s × (payload.now ≡ sent.payload s)) }
    // What has the form is read, unless memory is refused.
    ensures only { (s : held.ServerFrame) → IsConnected s → IsSent s → payload.now ≡ sent.payload s → IsReadAs s result }
    // Else the first case that applies is reported, unless memory is refused.
    ensures fault { IfErr result (λ e. IsTold (IsConnectedFault payload.now) e) }
{
    copied(borrow_connected(payload), alloc)
}

/// A reply to the request `form`: a header, and after it nothing if it has an error, else the body that the request fixes
/// (`ClientCnxn.SendThread.readResponse`). The header, if it is whole, has another xid than -1.
///
/// # Errors
///
/// The first fault of the header, then of the body, in a multi also `BadPart` at a header or an error that can't come
/// next; `Trailing` after it; `NoMemory`, at place 0, if memory is refused.
#[tactic(auto, unfolding(zk_jute::specs::Told::IsTold))]
pub fn read_reply<F: Asked>(
    alloc: Global,
    form: &F,
    payload: &[u8],
) -> Result<ServerFrame, ItemFault>
    requires { (header : records.ReplyHeader) (rest : List ℕ) → IsHead payload.now header rest → header.xid ≢ negsuc 0 }
    // What is read has the form that the request fixes, and is the payload's one value.
    ensures found { IfOk result (λ s. IsReplyTo (F.operation form.now) (F.part_ops form.now) s × IsSent s × (payload.now ≡ sent.payload s)) }
    // What has the form is read, unless memory is refused.
    ensures only { (s : held.ServerFrame) → IsReplyTo (F.operation form.now) (F.part_ops form.now) s → IsSent s → payload.now ≡ sent.payload s → IsReadAs s result }
    // Else the first case that applies is reported, unless memory is refused.
    ensures fault { IfErr result (λ e. IsTold (IsReplyFault (F.operation form.now) (F.part_ops form.now) payload.now) e) }
{
    copied(borrow_reply(form, payload), alloc)
}

/// An event: a header with the xid -1 and the error 0, and a `WatcherEvent`, as `NIOServerCnxn.process` sends it. The
/// header, if it is whole, has the xid -1, by which `ClientCnxn.SendThread.readResponse` knows an event.
///
/// # Errors
///
/// The first fault of the header; `EventErr` at 12, an error other than 0; the first fault of the record; `Trailing`
/// after it; `NoMemory`, at place 0, if memory is refused.
#[tactic(auto, unfolding(zk_jute::specs::Told::IsTold))]
pub fn read_event(alloc: Global, payload: &[u8]) -> Result<ServerFrame, ItemFault>
    requires { (header : records.ReplyHeader) (rest : List ℕ) → IsHead payload.now header rest → header.xid ≡ negsuc 0 }
    // What is read has the form, and is the payload's one value.
    ensures found { IfOk result (λ s. IsEvent s × IsSent s × (payload.now ≡ sent.payload s)) }
    // What has the form is read, unless memory is refused.
    ensures only { (s : held.ServerFrame) → IsEvent s → IsSent s → payload.now ≡ sent.payload s → IsReadAs s result }
    // Else the first case that applies is reported, unless memory is refused.
    ensures fault { IfErr result (λ e. IsTold (IsEventFault payload.now) e) }
{
    copied(borrow_event(payload), alloc)
}
