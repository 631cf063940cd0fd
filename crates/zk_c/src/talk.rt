//! `zk_talk_new` and its like: a conversation that a handle owns.
#![tactic(auto, using(crate::proofs::Handles::answers))]

ghost use Rattle.std.specs.Prelude.{◌≡◌, ◌≢◌, Some, None, IfSome, MatchOption};
ghost use Rattle.std.specs.Option.{is_some};
ghost use Rattle.zk_c.specs.{Numbers.side_of, Read.no_read};
ghost use Rattle.zk_c.specs.Answer.{no_step, no_ending, ending_answer, no_message, no_line, no_waiting, no_held};
ghost use Rattle.zk_c.specs.Handle.{AreNumbers, IsNew, IsRenewed, Tells, TellsOffer, IsAnswerOf, IsStep, IsPass, IsFinish, IsView, IsLine, IsEndingLine, IsFields, IsPayload, IsWaiting, IsHeld, AreNoLimits};
ghost use Rattle.zk_c.specs.Calls.{IsMaking, OnHeld, OnSide, Renews, TakesOn, WritesOn};

use crate::answer::{
    EndingAnswer, HeldAnswer, LineAnswer, MessageAnswer, StepAnswer, WaitingAnswer,
};
use crate::boxes::TalkBox;
use crate::conversation::Conversation;
use crate::handle::{fill, put_in, take_out, with_value};
use crate::number::{EMPTY, WELL};
use crate::read_answer::ReadAnswer;
use std::alloc::Global;
use zk_fields::Field;
use zk_records::Profile;
use zk_talk::Limits;

/// The handle of a talk, or of none: all bytes 0.
// It has no `Drop`, so that what it holds isn't lost unnoticed.
#[repr(C)]
pub struct TalkHandle {
    /// The pointer.
    pub held: TalkBox,
    live: bool,
    ghost tied: { live ≡ is_some held.value },
}

impl TalkHandle {
    /// Takes the talk out.
    fn take(&mut self, alloc: Global) -> Option<Box<Conversation, Global>>
        ensures talk { MatchOption result (self.old.held.value ≡ None) (λ b. self.old.held.value ≡ Some b.value) }
        ensures left { self.new.held.value ≡ None }
    {
        take_out!(self, alloc, TalkHandle, TalkBox)
    }

    /// Puts a talk in, where there is none.
    fn put(&mut self, talk: Box<Conversation, Global>)
        requires { self.old.held.value ≡ None }
        ensures { self.new.held.value ≡ Some talk.value }
    {
        put_in!(self, talk, TalkHandle, TalkBox);
    }
}

/// The limits of these numbers; `None` if one is out of its range.
pub fn limits_of(client: u32, server: u32, waiting: u32, profile: u32) -> Option<Limits>
    ensures none { result ≡ None → AreNoLimits client server waiting profile }
    ensures value { IfSome result (λ l. AreNumbers client server waiting profile l) }
{
    let profile = Profile::of_number(profile)?;
    let limits = Limits::new(client, server, waiting)?;
    Some(limits.with_profile(profile))
}

/// Makes a talk of which nothing has come, with the limits of `Limits::new` and a profile by its number, 34 or 35.
/// Returns the status: `WELL`, `IN_USE` if the handle holds one, `RANGE` if a number is out of its range, or
/// `NO_MEMORY`.
#[unsafe(no_mangle)]
pub extern "C" fn zk_talk_new(
    alloc: Global,
    handle: &mut TalkHandle,
    client: u32,
    server: u32,
    waiting: u32,
    profile: u32,
) -> u32
    ensures status { IsMaking client server waiting profile handle.old.held.value result }
    // What is made has come through the empty history.
    ensures new { result ≡ 0 → IsNew client server waiting profile handle.new.held.value }
    // Nothing is changed if it is refused.
    ensures same { result ≢ 0 → handle.new ≡ handle.old }
{
    fill!(handle, alloc, limits_of(client, server, waiting, profile)
        => |limits| Conversation::new(alloc, limits))
}

/// Begins the talk anew with the same limits. Returns the status: `WELL`, or `EMPTY` if the handle holds none.
#[unsafe(no_mangle)]
pub extern "C" fn zk_talk_renew(alloc: Global, handle: &mut TalkHandle) -> u32
    // The handle's talk has come through the empty history.
    ensures renew { Renews IsRenewed handle.old.held.value handle.new.held.value result }
{
    with_value!(handle, alloc, EMPTY => |talk| {
        talk.renew();
        WELL
    })
}

/// Takes the piece's bytes up to the end of the first frame that becomes whole, or all of them, and keeps that frame,
/// as `Talk::step`. `side` is 0 for the client and 1 for the server, here and in all calls.
#[unsafe(no_mangle)]
pub extern "C" fn zk_talk_step(
    alloc: Global,
    handle: &mut TalkHandle,
    side: u32,
    piece: &[u8],
) -> StepAnswer
    // The handle's talk makes the step.
    ensures step { TakesOn no_step (Tells IsStep) side piece.now handle.old.held.value handle.new.held.value result }
    // A number that is no side's changes nothing.
    ensures range { side_of side ≡ None → handle.new ≡ handle.old }
{
    with_value!(handle, alloc, side, StepAnswer => |talk| StepAnswer::of(talk.step(side, piece)))
}

/// Takes the piece's bytes as `zk_talk_step` does, and keeps no frame, as `Talk::pass`.
#[unsafe(no_mangle)]
pub extern "C" fn zk_talk_pass(
    alloc: Global,
    handle: &mut TalkHandle,
    side: u32,
    piece: &[u8],
) -> StepAnswer
    // The handle's talk passes over the bytes.
    ensures pass { TakesOn no_step (Tells IsPass) side piece.now handle.old.held.value handle.new.held.value result }
    // A number that is no side's changes nothing.
    ensures range { side_of side ≡ None → handle.new ≡ handle.old }
{
    with_value!(handle, alloc, side, StepAnswer => |talk| StepAnswer::of(talk.pass(side, piece)))
}

/// Takes the side's whole frame if it may come next; else nothing changes.
#[unsafe(no_mangle)]
pub extern "C" fn zk_talk_offer(
    alloc: Global,
    handle: &mut TalkHandle,
    side: u32,
    frame: &[u8],
) -> StepAnswer
    // The handle's talk judges the frame.
    ensures offer { TakesOn no_step TellsOffer side frame.now handle.old.held.value handle.new.held.value result }
    // A number that is no side's changes nothing.
    ensures range { side_of side ≡ None → handle.new ≡ handle.old }
{
    with_value!(handle, alloc, side, StepAnswer => |talk| {
        StepAnswer::of_offer(talk.offer(side, frame), frame.len())
    })
}

/// The message of the frame that the side keeps.
#[unsafe(no_mangle)]
pub extern "C" fn zk_talk_view(alloc: Global, handle: &mut TalkHandle, side: u32) -> MessageAnswer
    // The message is the talk's.
    ensures view { OnSide side handle.old.held.value (λ n. result ≡ no_message n) (λ s t. IsView t s result) }
    // The talk stays as it is.
    ensures same { handle.new.held.value ≡ handle.old.held.value }
{
    with_value!(handle, alloc, side, MessageAnswer => |talk| talk.view(side))
}

/// Writes the line of the message whose frame the side keeps, without line feed, if there is room for it; else the
/// status is `ROOM`, and the answer has the line's length.
#[unsafe(no_mangle)]
pub extern "C" fn zk_talk_line(
    alloc: Global,
    handle: &mut TalkHandle,
    side: u32,
    out: &mut [u8],
) -> LineAnswer
    // The line is that of the talk's message.
    ensures line { WritesOn no_line IsLine side handle.old.held.value out.old out.new result }
    // The talk stays as it is.
    ensures same { handle.new.held.value ≡ handle.old.held.value }
{
    with_value!(handle, alloc, side, LineAnswer => |talk| talk.line(side, out))
}

/// Writes the fields of the message whose frame the side keeps, as many as `room` has places for; if there are more,
/// the status is `ROOM`.
#[unsafe(no_mangle)]
pub extern "C" fn zk_talk_fields(
    alloc: Global,
    handle: &mut TalkHandle,
    side: u32,
    room: &mut [Field],
) -> ReadAnswer
    // The fields are those of the talk's message.
    ensures fields { WritesOn no_read IsFields side handle.old.held.value room.old room.new result }
    // The talk stays as it is.
    ensures same { handle.new.held.value ≡ handle.old.held.value }
{
    with_value!(handle, alloc, side, ReadAnswer => |talk| talk.fields(side, room))
}

/// Writes the payload of the message whose frame the side keeps, if there is room for it; else the status is `ROOM`,
/// and the answer has its length.
#[unsafe(no_mangle)]
pub extern "C" fn zk_talk_payload(
    alloc: Global,
    handle: &mut TalkHandle,
    side: u32,
    out: &mut [u8],
) -> LineAnswer
    // The payload is that of the talk's message.
    ensures payload { WritesOn no_line IsPayload side handle.old.held.value out.old out.new result }
    // The talk stays as it is.
    ensures same { handle.new.held.value ≡ handle.old.held.value }
{
    with_value!(handle, alloc, side, LineAnswer => |talk| talk.payload(side, out))
}

/// How many requests of the history so far wait for their replies, and what they weigh.
#[unsafe(no_mangle)]
pub extern "C" fn zk_talk_waiting(alloc: Global, handle: &mut TalkHandle) -> WaitingAnswer
    // The requests are the talk's.
    ensures waiting { OnHeld handle.old.held.value (λ n. result ≡ no_waiting n) (λ t. IsWaiting t result) }
    // The talk stays as it is.
    ensures same { handle.new.held.value ≡ handle.old.held.value }
{
    with_value!(handle, alloc, WaitingAnswer::none(EMPTY) => |talk| talk.waiting())
}

/// How many bytes of the side are held of a frame that isn't whole.
#[unsafe(no_mangle)]
pub extern "C" fn zk_talk_held(alloc: Global, handle: &mut TalkHandle, side: u32) -> HeldAnswer
    // The bytes are the talk's.
    ensures held { OnSide side handle.old.held.value (λ n. result ≡ no_held n) (λ s t. IsHeld t s result) }
    // The talk stays as it is.
    ensures same { handle.new.held.value ≡ handle.old.held.value }
{
    with_value!(handle, alloc, side, HeldAnswer => |talk| talk.held(side))
}

/// How the history so far ends.
#[unsafe(no_mangle)]
pub extern "C" fn zk_talk_finish(alloc: Global, handle: &mut TalkHandle) -> EndingAnswer
    // The ending is the talk's.
    ensures ending { OnHeld handle.old.held.value (λ n. result ≡ no_ending n) (IsAnswerOf ending_answer (λ e t. IsFinish t e) result) }
    // The talk stays as it is.
    ensures same { handle.new.held.value ≡ handle.old.held.value }
{
    with_value!(handle, alloc, EndingAnswer::none(EMPTY) => |talk| EndingAnswer::of(talk.finish()))
}

/// Writes the line of the ending of the history so far, if there is room for it.
#[unsafe(no_mangle)]
pub extern "C" fn zk_talk_ending_line(
    alloc: Global,
    handle: &mut TalkHandle,
    out: &mut [u8],
) -> LineAnswer
    // The line is that of the talk's ending.
    ensures line { OnHeld handle.old.held.value (λ n. (result ≡ no_line n) × (out.new ≡ out.old)) (λ t. IsEndingLine t out.old out.new result) }
    // The talk stays as it is.
    ensures same { handle.new.held.value ≡ handle.old.held.value }
{
    with_value!(handle, alloc, LineAnswer::none(EMPTY) => |talk| talk.ending_line(alloc, out))
}

/// Frees the talk and its memory; with no talk nothing is done.
#[unsafe(no_mangle)]
pub extern "C" fn zk_talk_free(alloc: Global, handle: &mut TalkHandle)
    ensures { handle.new.held.value ≡ None }
{
    drop(handle.take(alloc));
}
