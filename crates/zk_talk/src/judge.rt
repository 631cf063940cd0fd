//! Whether a payload may come next, and what waits after it. There is one judge; its `Verdict` reports the fault, or
//! nothing.
ghost use Rattle.std.specs.Prelude.{◌≡◌, ◌≢◌, ◌<◌, ◌^◌, ◌↔◌, ℕ, List, length, IsOk, IfOk, IfErr, OnOk, OnErr, IsTrue, MatchBool, false, Some};
ghost use Rattle.zk_jute.specs.{declared.fault.Reason.TheVariants.NoMemory, Told.IsSurelyTold, Verdict.Says};
ghost use Rattle.zk_records.specs.declared.op.Op.TheVariants as ops;
ghost use Rattle.zk_asks.specs.Codes.{event_xid};
ghost use Rattle.zk_waiting.specs.Lane.{lane_of};
ghost use Rattle.zk_asks.specs.Held as asks;
ghost use Rattle.zk_asks.specs.Frames.{IsFirst, MaySend};
ghost use Rattle.zk_answers.specs.Faults.{IsHead, IsEventFault};
ghost use Rattle.zk_answers.specs.Held as answered;
ghost use Rattle.zk_answers.specs.Frames as answers;
ghost use Rattle.zk_talk.specs.{Payloads.client_payload, SaidPayload.HearsFault};
ghost use Rattle.zk_talk.specs.Settled.{IsAsking, IsComing, IsAwaited, IsDueReply, IsHeard, IsSettled, Answers, replied_of};
ghost use Rattle.zk_talk.specs.Judged.{TellsLater, TellsClient, TellsServer, IsTurnFault, IsPutRefusal, HasRoomFor, IsNumbered, IsRemembered, HasAsk, IsForgotten};

use crate::replied::Replied;
use std::alloc::Global;
use zk_answers::{ServerFrame, form_of, judge_event, judge_reply, reply_head, scan_connected};
use zk_asks::{Alone, Asked, ClientFrame, Outline, judge_ask, judged_multi, scan_first};
use zk_jute::{ItemFault, Reason, Verdict};
use zk_records::{Op, Profile, ReplyHeader};
use zk_waiting::{Awaited, Lane, PutFault, lane_of};

/// Judges the client's payload after `count` frames, and returns what it asks: the outline of a request, or `None`
/// for a connect request.
#[inline(always)]
pub fn judge_client<V: Verdict>(
    profile: Profile,
    count: u64,
    payload: &[u8],
) -> Result<Option<Outline>, V>
    ensures found { IfOk result (λ asked. (f : asks.ClientFrame) × IsComing profile count payload.now asked f) }
    ensures fault { IfErr result (Says V.tells (λ e. (e.reason ≢ NoMemory) × IsTurnFault profile count payload.now e)) }
{
    if count == 0 {
        V::on(scan_first(payload))?;
        Ok(None)
    } else {
        let asked = judge_ask::<V>(profile, payload)?;
        Ok(Some(asked))
    }
}

/// Whether there is room for what is asked to wait for its reply.
pub fn has_room(waiting: &Awaited, payload: &[u8], asked: Option<Outline>) -> bool
    requires small { length payload.now < 2 ^ 32 }
    requires asks { (f : asks.ClientFrame) × IsAsking asked payload.now f }
    ensures { (f : asks.ClientFrame) → IsAsking asked payload.now f → IsTrue result ↔ HasRoomFor f waiting.now }
{
    let Some(outline) = asked else {
        return true;
    };
    match outline.op {
        Op::Multi => waiting.has_room(&judged_multi(payload, outline.parts)),
        op => waiting.has_room(&Alone { op }),
    }
}

/// Lets the multi that `payload` was judged to be, the client's frame `number`, wait for its reply, if there is room for
/// it; false: nothing changed.
#[inline(never)]
fn put_multi(waiting: &mut Awaited, payload: &[u8], outline: Outline, number: u64) -> bool
    requires small { length payload.now < 2 ^ 32 }
    requires multi { outline.op ≡ ops.Multi }
    requires asks { (f : asks.ClientFrame) × IsAsking (Some outline) payload.now f }
    ensures max { waiting.new.max ≡ waiting.old.max }
    ensures put { IsTrue result → (f : asks.ClientFrame) → IsAsking (Some outline) payload.now f → IsNumbered number f waiting.old waiting.new }
    ensures full { result ≡ false → (f : asks.ClientFrame) → IsAsking (Some outline) payload.now f → HasRoomFor f waiting.old → ⊥ }
    ensures same { result ≡ false → waiting.new ≡ waiting.old }
{
    let multi = judged_multi(payload, outline.parts);
    match waiting.put_numbered(outline.xid, &multi, number) {
        Ok(()) => true,
        Err(PutFault::QueueFull) => false,
    }
}

/// Lets what is asked, the client's frame `number`, wait for its reply, if there is room for it; false: nothing changed.
#[inline(always)]
pub fn put_asked(waiting: &mut Awaited, payload: &[u8], asked: Option<Outline>, number: u64) -> bool
    requires small { length payload.now < 2 ^ 32 }
    requires asks { (f : asks.ClientFrame) × IsAsking asked payload.now f }
    ensures max { waiting.new.max ≡ waiting.old.max }
    ensures put { IsTrue result → (f : asks.ClientFrame) → IsAsking asked payload.now f → IsNumbered number f waiting.old waiting.new }
    ensures full { result ≡ false → (f : asks.ClientFrame) → IsAsking asked payload.now f → HasRoomFor f waiting.old → ⊥ }
    ensures same { result ≡ false → waiting.new ≡ waiting.old }
{
    let Some(outline) = asked else {
        return true;
    };
    match outline.op {
        Op::Multi => put_multi(waiting, payload, outline, number),
        op => match waiting.put_numbered(outline.xid, &Alone { op }, number) {
            Ok(()) => true,
            Err(PutFault::QueueFull) => false,
        },
    }
}

/// Lets the client's payload after `count` frames wait for its reply as its frame `number`, if it is one that may come next
/// and there is room for it.
#[inline(always)]
pub fn await_ask<V: Verdict>(
    profile: Profile,
    count: u64,
    number: u64,
    waiting: &mut Awaited,
    payload: &[u8],
) -> Result<(), V>
    requires { length payload.now < 2 ^ 32 }
    ensures max { waiting.new.max ≡ waiting.old.max }
    ensures found { OnOk result ((f : asks.ClientFrame) × IsAwaited profile count number payload.now waiting.old waiting.new f) }
    ensures same { OnErr result (waiting.new ≡ waiting.old) }
    ensures fault { IfErr result (Says V.tells (λ e. (e.reason ≢ NoMemory) × TellsClient profile count waiting.old payload.now e)) }
{
    let asked = judge_client::<V>(profile, count, payload)?;
    if put_asked(waiting, payload, asked, number) {
        Ok(())
    } else {
        Err(V::at(0, Reason::QueueFull))
    }
}

/// Lets `frame` wait for its reply, if it is to have one.
pub fn remember(alloc: Global, waiting: &mut Awaited, frame: &ClientFrame) -> Result<(), ItemFault>
    requires may { MaySend frame.now }
    requires small { length (client_payload frame.now) < 2 ^ 32 }
    ensures max { waiting.new.max ≡ waiting.old.max }
    ensures ok { OnOk result (IsRemembered frame.now waiting.old waiting.new) }
    ensures err { IfErr result (λ e. (waiting.new ≡ waiting.old) × IsPutRefusal frame.now waiting.old e) }
    // A connect request waits in no lane, and allocates nothing.
    ensures connect { IsFirst frame.now → IsOk result }
{
    let ClientFrame::Ask { xid, ask } = frame else {
        return Ok(());
    };
    let Ok(form) = form_of(alloc, ask) else {
        return Err(ItemFault::at(0, Reason::NoMemory));
    };
    match waiting.put(*xid, &form) {
        Ok(()) => Ok(()),
        Err(PutFault::QueueFull) => Err(ItemFault::at(0, Reason::QueueFull)),
    }
}

/// The oldest request of the lane, if `payload`, which has the header `head`, is a reply to it.
#[inline(always)]
fn judge_answer<V: Verdict>(
    lane: Lane,
    head: &ReplyHeader,
    waiting: &Awaited,
    payload: &[u8],
) -> Result<Replied, V>
    requires lane { lane ≡ lane_of head.now.xid }
    requires head { (rest : List ℕ) × IsHead payload.now head.now rest }
    requires reply { head.now.xid ≢ event_xid }
    ensures found { IfOk result (λ told. (r : answered.Reply) × IsDueReply head.now.xid payload.now told waiting.now r) }
    ensures fault { IfErr result (Says V.tells (λ e. (e.reason ≢ NoMemory) × TellsLater waiting.now payload.now e)) }
{
    let Some(slot) = waiting.oldest(lane) else {
        return Err(V::at(0, Reason::Unasked));
    };
    let expected = slot.xid();
    if expected != head.xid {
        let got = head.xid;
        return Err(V::at(0, Reason::XidOrder { expected, got }));
    }
    judge_reply::<_, V>(&slot, head, payload)?;
    let (op, frame) = (slot.op(), slot.frame());
    Ok(Replied { op, frame })
}

/// `judge_answer` of the lane of the header's xid.
// Not inlined, so that the way of the plain lane holds no values of the others.
#[inline(never)]
fn judge_special<V: Verdict>(
    head: &ReplyHeader,
    waiting: &Awaited,
    payload: &[u8],
) -> Result<Replied, V>
    requires head { (rest : List ℕ) × IsHead payload.now head.now rest }
    requires reply { head.now.xid ≢ event_xid }
    ensures found { IfOk result (λ told. (r : answered.Reply) × IsDueReply head.now.xid payload.now told waiting.now r) }
    ensures fault { IfErr result (Says V.tells (λ e. (e.reason ≢ NoMemory) × TellsLater waiting.now payload.now e)) }
{
    judge_answer::<V>(lane_of(head.xid), head, waiting, payload)
}

/// Judges whether `payload`, which begins with the header `head`, is an event.
// Not inlined: with it the way of replies is too long to be inlined itself.
#[inline(never)]
fn judge_change<V: Verdict>(head: &ReplyHeader, payload: &[u8]) -> Result<(), V>
    requires head { (rest : List ℕ) × IsHead payload.now head.now rest }
    requires event { head.now.xid ≡ event_xid }
    ensures found { OnOk result ((s : answered.ServerFrame) × answers.IsEvent s × answers.IsSent s × (payload.now ≡ answers.payload s)) }
    ensures fault { IfErr result (Says V.tells (IsSurelyTold (IsEventFault payload.now))) }
{
    judge_event::<V>(head, payload)
}

/// Judges the server's payload, and returns the lane of the request that it replies to, and the request, or `None` if it
/// is no reply; `asked`: whether the client has spoken, `welcomed`: whether the server has.
#[inline(always)]
pub fn judge_server<V: Verdict>(
    asked: bool,
    welcomed: bool,
    waiting: &Awaited,
    payload: &[u8],
) -> Result<Option<(Lane, Replied)>, V>
    ensures found { IfOk result (λ answer. (s : answered.ServerFrame) × IsHeard asked welcomed payload.now waiting.now answer s) }
    ensures fault { IfErr result (Says V.tells (λ e. (e.reason ≢ NoMemory) × HearsFault asked welcomed waiting.now payload.now e)) }
{
    if welcomed {
        let head = V::on(reply_head(payload))?;
        if head.xid == -1 {
            judge_change::<V>(&head, payload)?;
            return Ok(None);
        }
        match lane_of(head.xid) {
            Lane::Plain => {
                let told = judge_answer::<V>(Lane::Plain, &head, waiting, payload)?;
                Ok(Some((Lane::Plain, told)))
            }
            lane => {
                let told = judge_special::<V>(&head, waiting, payload)?;
                Ok(Some((lane, told)))
            }
        }
    } else if asked {
        V::on(scan_connected(payload))?;
        Ok(None)
    } else {
        Err(V::at(0, Reason::Unasked))
    }
}

/// Whether a side has spoken, of which `count` frames have come.
pub fn has_spoken(count: u64) -> bool
    ensures { MatchBool result (count ≡ 0 → ⊥) (count ≡ 0) }
{
    count > 0
}

/// The request that is replied to.
#[inline(always)]
pub fn replied(answer: Option<(Lane, Replied)>) -> Option<Replied>
    ensures { result ≡ replied_of answer }
{
    let (_lane, told) = answer?;
    Some(told)
}

/// Drops the request that is replied to.
#[inline(always)]
pub fn forget_asked(waiting: &mut Awaited, answer: Option<(Lane, Replied)>)
    requires { (s : answered.ServerFrame) × Answers s waiting.old answer × HasAsk s waiting.old }
    ensures max { waiting.new.max ≡ waiting.old.max }
    ensures forgotten { (s : answered.ServerFrame) → Answers s waiting.old answer → IsForgotten s waiting.old waiting.new }
{
    if let Some((lane, _told)) = answer {
        waiting.drop_oldest(lane);
    }
}

/// Judges the server's payload after `asked` frames of the client and `count` of the server; drops the request that it
/// replies to, and returns it, or `None` if it is no reply.
#[inline(always)]
pub fn settle<V: Verdict>(
    asked: u64,
    count: u64,
    waiting: &mut Awaited,
    payload: &[u8],
) -> Result<Option<Replied>, V>
    ensures max { waiting.new.max ≡ waiting.old.max }
    ensures found { IfOk result (λ told. (s : answered.ServerFrame) × IsSettled asked count payload.now told waiting.old waiting.new s) }
    ensures same { OnErr result (waiting.new ≡ waiting.old) }
    ensures fault { IfErr result (Says V.tells (λ e. (e.reason ≢ NoMemory) × TellsServer asked count waiting.old payload.now e)) }
{
    let answer = judge_server::<V>(has_spoken(asked), has_spoken(count), waiting, payload)?;
    let told = replied(answer);
    forget_asked(waiting, answer);
    Ok(told)
}

/// Drops the request that `frame` replies to.
pub fn forget(waiting: &mut Awaited, frame: &ServerFrame)
    requires { HasAsk frame.now waiting.old }
    ensures max { waiting.new.max ≡ waiting.old.max }
    ensures forgotten { IsForgotten frame.now waiting.old waiting.new }
{
    if let ServerFrame::Answered(reply) = frame {
        waiting.drop_oldest(lane_of(reply.xid));
    }
}
