//! `judge_reply`, `judge_event`: replies and events, judged by where their bodies end; no frame is made.
ghost use Rattle.std.specs.Prelude.{◌≡◌, ◌≢◌, ◌≤◌, ℕ, List, length, negsuc, IsOk, IfOk, IfErr};
ghost use Rattle.zk_jute.specs.{Told.IsSurelyTold, Told.IsSurelyToldAt, Verdict.Says};
ghost use Rattle.zk_answers.specs.Faults.{IsHead, Fields, IsShapeFault, body_shape, rest_shape, IsReplyFault, IsEventFault};
ghost use Rattle.zk_answers.specs.{Held.Body, Held.Outcome, Held.ServerFrame, Frames.IsEvent, Frames.IsSent};
ghost use Rattle.zk_answers.specs.Frames as sent;
ghost use Rattle.zk_answers.specs.{Scanned.IsBodyAt, Scanned.IsOutcomeAt, Fronts.IsReplyUnder};

use crate::body_rows;
use crate::done_list::results_end;
use crate::frame::Failure;
use zk_asks::Asked;
use zk_jute::{Ends, Reason, Verdict};
use zk_records::{
    AclBodyRef, ChildrenBodyRef, CreateBodyRef, DataBodyRef, Op, ReplyHeader, WatcherEventRef,
    borrowed,
};

/// The bytes of a reply's header.
const HEADER: usize = 16;

/// The place after the body at `place` of a reply to `form`, which is a record `R`.
#[inline(always)]
fn record_end<R: Ends, F: Asked, V: Verdict>(
    _form: &F,
    payload: &[u8],
    place: usize,
) -> Result<usize, V>
    requires within { place ≤ length payload.now }
    requires record { body_shape (F.operation _form.now) (F.part_ops _form.now) ≡ Fields R.wired.layout }
    ensures found { IfOk result (λ end. (b : Body) × IsBodyAt (F.operation _form.now) (F.part_ops _form.now) b payload.now place end) }
    ensures fault { IfErr result (Says V.tells (IsSurelyToldAt (IsShapeFault (body_shape (F.operation _form.now) (F.part_ops _form.now))) payload.now place)) }
{
    R::end::<V>(payload, place)
}

/// The place after the body at `place` of a reply to `form`.
#[inline(always)]
fn body_end<F: Asked, V: Verdict>(form: &F, payload: &[u8], place: usize) -> Result<usize, V>
    requires { place ≤ length payload.now }
    ensures found { IfOk result (λ end. (b : Body) × IsBodyAt (F.operation form.now) (F.part_ops form.now) b payload.now place end) }
    ensures fault { IfErr result (Says V.tells (IsSurelyToldAt (IsShapeFault (body_shape (F.operation form.now) (F.part_ops form.now))) payload.now place)) }
{
    macro_rules! row {
        ($form:ident: $($($one:ident)|+: $only:ident $name:ident $kind:ident),+;
         $($both:ident: $first:ident $first_name:ident $first_kind:ident $borrowed:ident),+; $($bare:ident)|+) => {
            match $form.op() {
                $($(Op::$one)|+ => record_end::<borrowed!($kind), F, V>($form, payload, place),)+
                $(Op::$both => record_end::<$borrowed, F, V>($form, payload, place),)+
                $(Op::$bare)|+ => Ok(place),
                Op::Multi => results_end::<F, V>($form, payload, place),
            }
        };
    }
    body_rows!(row, form)
}

/// The place after what follows a header with the error `err`: nothing if it isn't 0, else the body.
#[inline(always)]
fn outcome_end<F: Asked, V: Verdict>(form: &F, err: i32, payload: &[u8]) -> Result<usize, V>
    requires { 16 ≤ length payload.now }
    ensures found { IfOk result (λ end. (o : Outcome) × IsOutcomeAt (F.operation form.now) (F.part_ops form.now) err o payload.now 16 end) }
    ensures fault { IfErr result (Says V.tells (IsSurelyToldAt (IsShapeFault (rest_shape (F.operation form.now) (F.part_ops form.now) err)) payload.now 16)) }
{
    match Failure::new(err) {
        Some(_) => Ok(HEADER),
        None => body_end::<F, V>(form, payload, HEADER),
    }
}

/// Judges whether `payload`, which begins with the header `head`, is a reply to `form`.
///
/// # Errors
///
/// The fault that `borrow_reply` returns, where `V` is `ItemFault`; `Undecided` says nothing.
#[inline(always)]
pub fn judge_reply<F: Asked, V: Verdict>(
    form: &F,
    head: &ReplyHeader,
    payload: &[u8],
) -> Result<(), V>
    requires head { (rest : List ℕ) × IsHead payload.now head.now rest }
    requires reply { head.now.xid ≢ negsuc 0 }
    ensures found { IsOk result → IsReplyUnder head.now.xid (F.operation form.now) (F.part_ops form.now) payload.now }
    ensures fault { IfErr result (Says V.tells (IsSurelyTold (IsReplyFault (F.operation form.now) (F.part_ops form.now) payload.now))) }
{
    let end = outcome_end::<F, V>(form, head.err, payload)?;
    if end < payload.len() {
        return Err(V::at(end, Reason::Trailing));
    }
    Ok(())
}

/// Judges whether `payload`, which begins with the header `head`, is an event.
///
/// # Errors
///
/// The fault that `borrow_event` returns, where `V` is `ItemFault`; `Undecided` says nothing.
#[inline(always)]
pub fn judge_event<V: Verdict>(head: &ReplyHeader, payload: &[u8]) -> Result<(), V>
    requires head { (rest : List ℕ) × IsHead payload.now head.now rest }
    requires event { head.now.xid ≡ negsuc 0 }
    ensures found { IsOk result → (s : ServerFrame) × IsEvent s × IsSent s × (payload.now ≡ sent.payload s) }
    ensures fault { IfErr result (Says V.tells (IsSurelyTold (IsEventFault payload.now))) }
{
    if head.err != 0 {
        return Err(V::at(12, Reason::EventErr));
    }
    let end = WatcherEventRef::end::<V>(payload, HEADER)?;
    if end < payload.len() {
        return Err(V::at(end, Reason::Trailing));
    }
    Ok(())
}
