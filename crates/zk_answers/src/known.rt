//! Payloads that are known to be a server's frames, borrowed without a judgement.
ghost use Rattle.std.specs.Prelude.{◌≡◌, ◌≤◌, ℕ, length};
ghost use Rattle.zk_jute.specs.{Item.HaveBytes, Told.StandsAt};
ghost use Rattle.zk_answers.specs.{Held.Body, Held.ServerFrame, Rows.body_items, Rows.op_of_body, Frames.IsConnected, Frames.IsEvent, Frames.IsReplyOf, Frames.IsBorne, Frames.IsSent};
ghost use Rattle.zk_answers.specs.Frames as sent;
ghost use Rattle.zk_answers.specs.Known.{ABodyStands};

use crate::body_rows;
use crate::frame::{BodyOf, BodyRef, Failure, OutcomeOf, ReplyOf, ServerFrameOf, ServerRef};
use zk_asks::known_multi;
use zk_jute::{known_at, known_flagged, known_list};
use zk_records::{
    AclBodyRef, ChildrenBodyRef, CreateBodyRef, DataBodyRef, Op, ReplyHeader, borrowed,
};

/// The reply to the connect request that `payload` is known to be, borrowed. Nothing is allocated, and nothing is judged
/// again.
pub fn connected_ref(payload: &[u8]) -> ServerRef<'_>
    requires { (s : ServerFrame) × IsConnected s × IsSent s × (payload.now ≡ sent.payload s) }
    ensures { (s : ServerFrame) → IsConnected s → IsSent s → payload.now ≡ sent.payload s → result ≡ s }
{
    let (hello, read_only) = known_flagged(payload);
    ServerFrameOf::Connected { hello, read_only }
}

/// The event that `payload` is known to be, borrowed. Nothing is allocated, and nothing is judged again.
pub fn event_ref(payload: &[u8]) -> ServerRef<'_>
    requires { (s : ServerFrame) × IsEvent s × IsSent s × (payload.now ≡ sent.payload s) }
    ensures { (s : ServerFrame) → IsEvent s → IsSent s → payload.now ≡ sent.payload s → result ≡ s }
{
    let (header, place) = known_at::<ReplyHeader>(payload, 0);
    let (event, _) = known_at(payload, place);
    ServerFrameOf::Event {
        zxid: header.zxid,
        event,
    }
}

/// The callers of `known_body`: each has an instance of its own, which is inlined, since a call would cost a view.
const VIEWED: u8 = 0;

const WRITTEN: u8 = 1;

pub(crate) const JUDGED: u8 = 2;

/// The body that is known to be at `place`, of a reply to `op`. `FOR` is the caller.
fn known_body<'a, const FOR: u8>(payload: &'a [u8], place: usize, op: Op) -> BodyRef<'a>
    requires within { place ≤ length payload.now }
    requires stands { ABodyStands op payload.now place }
    ensures { (b : Body) (end : ℕ) → op_of_body b ≡ op → HaveBytes (body_items b) → StandsAt (body_items b) payload.now place end → result ≡ b }
{
    macro_rules! row {
        ($op:ident: $($($one:ident)|+: $only:ident $name:ident $kind:ident),+;
         $($both:ident: $first:ident $first_name:ident $first_kind:ident $borrowed:ident),+; $($bare:ident)|+) => {
            match $op {
                $($(Op::$one => BodyOf::$one { $only: known_at::<borrowed!($kind)>(payload, place).0 },)+)+
                $(Op::$both => {
                    let (body, _) = known_at::<$borrowed>(payload, place);
                    BodyOf::$both { $first: body.$first, stat: body.stat }
                })+
                $(Op::$bare => BodyOf::$bare,)+
                Op::Multi => BodyOf::Multi(known_multi(payload, place)),
            }
        };
    }
    // Nothing comes after the names, so they aren't walked to their end.
    if let Op::GetChildren = op {
        return BodyOf::GetChildren {
            names: known_list(payload, place),
        };
    }
    body_rows!(row, op)
}

/// As `reply_ref`. `FOR` is the caller.
#[inline(always)]
pub(crate) fn known_reply<const FOR: u8>(op: Op, payload: &[u8]) -> ServerRef<'_>
    requires { (s : ServerFrame) × IsReplyOf op s × IsBorne s × (payload.now ≡ sent.payload s) }
    ensures { (s : ServerFrame) → IsReplyOf op s → IsBorne s → payload.now ≡ sent.payload s → result ≡ s }
{
    let (header, place) = known_at::<ReplyHeader>(payload, 0);
    let outcome = match Failure::new(header.err) {
        Some(failure) => OutcomeOf::Failed(op, failure),
        None => OutcomeOf::Done(known_body::<FOR>(payload, place, op)),
    };
    ServerFrameOf::Answered(ReplyOf {
        xid: header.xid,
        zxid: header.zxid,
        outcome,
    })
}

/// The reply to `op` that `payload` is known to be, borrowed. Nothing is allocated, and nothing is judged again.
#[inline(always)]
pub fn reply_ref(op: Op, payload: &[u8]) -> ServerRef<'_>
    requires { (s : ServerFrame) × IsReplyOf op s × IsBorne s × (payload.now ≡ sent.payload s) }
    ensures { (s : ServerFrame) → IsReplyOf op s → IsBorne s → payload.now ≡ sent.payload s → result ≡ s }
{
    known_reply::<VIEWED>(op, payload)
}

/// As `reply_ref`, of a payload that was written just now.
pub fn written_reply_ref(op: Op, payload: &[u8]) -> ServerRef<'_>
    requires { (s : ServerFrame) × IsReplyOf op s × IsBorne s × (payload.now ≡ sent.payload s) }
    ensures { (s : ServerFrame) → IsReplyOf op s → IsBorne s → payload.now ≡ sent.payload s → result ≡ s }
{
    known_reply::<WRITTEN>(op, payload)
}
