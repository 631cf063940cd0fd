//! The body in which a fault is found: its layout, and its bytes.
ghost use Rattle.std.specs.Prelude.{◌≡◌, ◌≢◌, ◌≤◌, ◌↔◌, ℕ, length, IsTrue, IfSome, MatchOption};
ghost use Rattle.zk_records.specs.declared.op.Op.TheVariants as ops;
ghost use Rattle.zk_answers.specs.declared.layout.Layout.TheVariants as layouts;
ghost use Rattle.zk_frames.specs.Framing.{frame};
ghost use Rattle.zk_talk.specs.declared.message.Side.TheVariants.{Client, Server};
ghost use Rattle.zk_talk.specs.{Conversation.Conversation, Describes.Describes, Fault.of_items};
ghost use Rattle.zk_talk.specs.Refused.{IsBodyOf, IsInBody, AnswersNone, AnswersOp, header_size};

use crate::message::{Fault, Side};
use zk_answers::{Layout, reply_head};
use zk_asks::Asked;
use zk_jute::{Reason, int_at};
use zk_records::{NEWEST, Op, op_of};
use zk_waiting::{Awaited, lane_of};

/// Whether a body's items can give the reason.
fn is_of_items(reason: Reason) -> bool
    ensures { result ≡ of_items reason }
{
    match reason {
        Reason::Short => true,
        Reason::BadBool => true,
        Reason::BadLength => true,
        Reason::BadText => true,
        Reason::Trailing => true,
        Reason::BadPart => true,
        Reason::NoMemory => false,
        Reason::UnknownOp => false,
        Reason::XidOp => false,
        Reason::EventErr => false,
        Reason::LengthRange => false,
        Reason::QueueFull => false,
        Reason::Unasked => false,
        Reason::XidOrder { .. } => false,
        Reason::StreamEnd => false,
    }
}

/// The number of bytes of a header of the side, of a frame after its first.
fn header_size(side: Side) -> u32
    ensures { result ≡ header_size side }
{
    match side {
        Side::Client => 8,
        Side::Server => 16,
    }
}

/// Whether the fault is in a body.
pub fn is_in_body(fault: Fault) -> bool
    ensures { IsTrue result ↔ IsInBody fault }
{
    if fault.frame == 0 {
        return false;
    }
    if fault.place < header_size(fault.side) {
        return false;
    }
    is_of_items(fault.reason)
}

/// The layout and the bytes of the body after a request's header.
pub fn asked_body(payload: &[u8]) -> Option<(Layout, &[u8])>
    ensures found { (v : Conversation) → IsBodyOf v payload.now Client result }
    ensures small { IfSome result (λ b. length b.1.now ≤ length payload.now) }
    ensures known { IfSome result (λ b. b.0 ≢ layouts.Answered ops.Multi) }
{
    let Ok((_, place)) = int_at(payload, 0) else {
        return None;
    };
    let Ok((kind, place)) = int_at(payload, place) else {
        return None;
    };
    match op_of(NEWEST, kind) {
        None => None,
        Some(op) => Some((Layout::Asked(op), &payload[place..])),
    }
}

/// The operation of the request that a reply with the xid `xid` answers; `None` if it is a multi, or there is none.
fn answered_op(xid: i32, waiting: &Awaited) -> Option<Op>
    ensures found { (n m : ℕ) (v : Conversation) → Describes n m waiting.now v → MatchOption result (AnswersNone v xid) (AnswersOp v xid) }
    ensures known { IfSome result (λ op. op ≢ ops.Multi) }
{
    match waiting.oldest(lane_of(xid)) {
        None => None,
        Some(slot) => {
            if slot.xid() != xid {
                return None;
            }
            match slot.op() {
                Op::Multi => None,
                op => Some(op),
            }
        }
    }
}

/// The layout and the bytes of the body after the header of an event, or of a reply with err 0 to another operation than
/// multi.
pub fn answered_body<'a>(payload: &'a [u8], waiting: &Awaited) -> Option<(Layout, &'a [u8])>
    ensures found { (n m : ℕ) (v : Conversation) → Describes n m waiting.now v → IsBodyOf v payload.now Server result }
    ensures small { IfSome result (λ b. length b.1.now ≤ length payload.now) }
    ensures known { IfSome result (λ b. b.0 ≢ layouts.Answered ops.Multi) }
{
    let Ok(head) = reply_head(payload) else {
        return None;
    };
    if head.xid == -1 {
        return Some((Layout::Event, &payload[16..]));
    }
    if head.err != 0 {
        return None;
    }
    match answered_op(head.xid, waiting) {
        None => None,
        Some(op) => Some((Layout::Answered(op), &payload[16..])),
    }
}
