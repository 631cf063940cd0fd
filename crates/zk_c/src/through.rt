//! `zk_through_new` and its like: a conversation that goes on where its profile ends, which a handle owns.
#![tactic(auto, using(crate::proofs::Handles::answers))]

ghost use Rattle.std.specs.Prelude.{◌≡◌, ◌≢◌, Some, None, MatchOption};
ghost use Rattle.std.specs.Option.{is_some};
ghost use Rattle.zk_c.specs.{Numbers.side_of, Handle.IsAnswerOf, Read.no_read};
ghost use Rattle.zk_c.specs.Answer.{no_step, no_message, no_line, no_ending, no_waiting, no_held, ending_answer};
ghost use Rattle.zk_c.specs.Calls.{IsMaking, OnHeld, OnSide, Changes, Renews, TakesOn, WritesOn};
ghost use Rattle.zk_c.specs.Passing.{no_passed, IsNew, IsJoined, IsRenewed, TellsStep, IsView, IsLine, IsFields, IsFinish};
ghost use Rattle.zk_c.specs.PassingOn.{TellsPass, TellsOffer, TellsResumed, IsPayload, IsWaiting, IsHeld, IsEndingLine};

use crate::answer::{
    EndingAnswer, HeldAnswer, LineAnswer, MessageAnswer, StepAnswer, WaitingAnswer,
};
use crate::boxes::PassageBox;
use crate::handle::{fill, put_in, take_out, with_value};
use crate::number::{EMPTY, WELL};
use crate::passage::Passage;
use crate::passed::{PassedAnswer, resumed_answer};
use crate::read_answer::ReadAnswer;
use crate::talk::limits_of;
use std::alloc::Global;
use zk_fields::Field;

/// The handle of a passage, or of none: all bytes 0.
// It has no `Drop`, so that what it holds isn't lost unnoticed.
#[repr(C)]
pub struct ThroughHandle {
    /// The pointer.
    pub held: PassageBox,
    live: bool,
    ghost tied: { live ≡ is_some held.value },
}

impl ThroughHandle {
    /// Takes the passage out.
    fn take(&mut self, alloc: Global) -> Option<Box<Passage, Global>>
        ensures passage { MatchOption result (self.old.held.value ≡ None) (λ b. self.old.held.value ≡ Some b.value) }
        ensures left { self.new.held.value ≡ None }
    {
        take_out!(self, alloc, ThroughHandle, PassageBox)
    }

    /// Puts a passage in, where there is none.
    fn put(&mut self, passage: Box<Passage, Global>)
        requires { self.old.held.value ≡ None }
        ensures { self.new.held.value ≡ Some passage.value }
    {
        put_in!(self, passage, ThroughHandle, PassageBox);
    }
}

/// Makes a passage of which nothing has come. Its limits and the status are as those of `zk_talk_new`.
#[unsafe(no_mangle)]
pub extern "C" fn zk_through_new(
    alloc: Global,
    handle: &mut ThroughHandle,
    client: u32,
    server: u32,
    waiting: u32,
    profile: u32,
) -> u32
    ensures status { IsMaking client server waiting profile handle.old.held.value result }
    // What is made has come through the empty history.
    ensures new { result ≡ 0 → IsNew client server waiting profile handle.new.held.value }
    // Nothing is changed if it is refused.
    ensures same { result ≢ 0 → handle.new ≡ handle.old }
{
    fill!(handle, alloc, limits_of(client, server, waiting, profile)
        => |limits| Passage::new(alloc, limits, false))
}

/// Makes a passage of a connection that is seen late, as `Through::join`. Its limits and the status are as those of
/// `zk_talk_new`.
#[unsafe(no_mangle)]
pub extern "C" fn zk_through_join(
    alloc: Global,
    handle: &mut ThroughHandle,
    client: u32,
    server: u32,
    waiting: u32,
    profile: u32,
) -> u32
    ensures status { IsMaking client server waiting profile handle.old.held.value result }
    // What is made has come through a connect request and its answer, which nobody sent.
    ensures join { result ≡ 0 → IsJoined client server waiting profile handle.new.held.value }
    // Nothing is changed if it is refused.
    ensures same { result ≢ 0 → handle.new ≡ handle.old }
{
    fill!(handle, alloc, limits_of(client, server, waiting, profile)
        => |limits| Passage::new(alloc, limits, true))
}

/// Begins the passage anew with the same limits. Returns the status: `WELL`, or `EMPTY` if the handle holds none.
#[unsafe(no_mangle)]
pub extern "C" fn zk_through_renew(alloc: Global, handle: &mut ThroughHandle) -> u32
    // Of the handle's passage nothing has come.
    ensures renew { Renews IsRenewed handle.old.held.value handle.new.held.value result }
{
    with_value!(handle, alloc, EMPTY => |passage| {
        passage.renew();
        WELL
    })
}

/// Takes the piece's bytes up to the end of the first frame that becomes whole, or all of them, as `Through::step`.
#[unsafe(no_mangle)]
pub extern "C" fn zk_through_step(
    alloc: Global,
    handle: &mut ThroughHandle,
    side: u32,
    piece: &[u8],
) -> PassedAnswer
    // The handle's passage makes the step.
    ensures step { TakesOn no_passed TellsStep side piece.now handle.old.held.value handle.new.held.value result }
    // A number that is no side's changes nothing.
    ensures range { side_of side ≡ None → handle.new ≡ handle.old }
{
    with_value!(handle, alloc, side, PassedAnswer => |passage| PassedAnswer::of(passage.step(side, piece)))
}

/// Takes the piece's bytes as `zk_through_step` does, and the side shows no message and keeps no frame then.
#[unsafe(no_mangle)]
pub extern "C" fn zk_through_pass(
    alloc: Global,
    handle: &mut ThroughHandle,
    side: u32,
    piece: &[u8],
) -> PassedAnswer
    // The handle's passage makes the step, and keeps nothing of it.
    ensures pass { TakesOn no_passed TellsPass side piece.now handle.old.held.value handle.new.held.value result }
    // A number that is no side's changes nothing.
    ensures range { side_of side ≡ None → handle.new ≡ handle.old }
{
    with_value!(handle, alloc, side, PassedAnswer => |passage| PassedAnswer::of(passage.pass(side, piece)))
}

/// Takes the side's whole frame if it may come next, as `Through::offer`; else nothing changes.
#[unsafe(no_mangle)]
pub extern "C" fn zk_through_offer(
    alloc: Global,
    handle: &mut ThroughHandle,
    side: u32,
    frame: &[u8],
) -> PassedAnswer
    // The handle's passage judges the frame.
    ensures offer { TakesOn no_passed TellsOffer side frame.now handle.old.held.value handle.new.held.value result }
    // A number that is no side's changes nothing.
    ensures range { side_of side ≡ None → handle.new ≡ handle.old }
{
    with_value!(handle, alloc, side, PassedAnswer => |passage| PassedAnswer::of_offer(passage.offer(side, frame)))
}

/// Goes on after the frame that was refused, as a connection that is seen late.
#[unsafe(no_mangle)]
pub extern "C" fn zk_through_resume(alloc: Global, handle: &mut ThroughHandle) -> StepAnswer
    // The handle's passage goes on, or its fault stays.
    ensures resume { Changes no_step TellsResumed handle.old.held.value handle.new.held.value result }
{
    with_value!(handle, alloc, StepAnswer::none(EMPTY) => |passage| resumed_answer(passage.resume()))
}

/// The message of the side's newest whole frame.
#[unsafe(no_mangle)]
pub extern "C" fn zk_through_view(
    alloc: Global,
    handle: &mut ThroughHandle,
    side: u32,
) -> MessageAnswer
    // The message is the passage's.
    ensures view { OnSide side handle.old.held.value (λ n. result ≡ no_message n) (λ s p. IsView p s result) }
    // The passage stays as it is.
    ensures same { handle.new.held.value ≡ handle.old.held.value }
{
    with_value!(handle, alloc, side, MessageAnswer => |passage| passage.view(side))
}

/// Writes the line of that message, if there is room for it.
#[unsafe(no_mangle)]
pub extern "C" fn zk_through_line(
    alloc: Global,
    handle: &mut ThroughHandle,
    side: u32,
    out: &mut [u8],
) -> LineAnswer
    // The line is that of the passage's message.
    ensures line { WritesOn no_line IsLine side handle.old.held.value out.old out.new result }
    // The passage stays as it is.
    ensures same { handle.new.held.value ≡ handle.old.held.value }
{
    with_value!(handle, alloc, side, LineAnswer => |passage| passage.line(side, out))
}

/// Writes the fields of that message, as far as there is room.
#[unsafe(no_mangle)]
pub extern "C" fn zk_through_fields(
    alloc: Global,
    handle: &mut ThroughHandle,
    side: u32,
    room: &mut [Field],
) -> ReadAnswer
    // The fields are those of the passage's message.
    ensures fields { WritesOn no_read IsFields side handle.old.held.value room.old room.new result }
    // The passage stays as it is.
    ensures same { handle.new.held.value ≡ handle.old.held.value }
{
    with_value!(handle, alloc, side, ReadAnswer => |passage| passage.fields(side, room))
}

/// Writes the payload of the frame that the side's last step left out or passed over, or else of its newest message, if there
/// is room for it.
#[unsafe(no_mangle)]
pub extern "C" fn zk_through_payload(
    alloc: Global,
    handle: &mut ThroughHandle,
    side: u32,
    out: &mut [u8],
) -> LineAnswer
    // The payload is that of the passage's frame.
    ensures payload { WritesOn no_line IsPayload side handle.old.held.value out.old out.new result }
    // The passage stays as it is.
    ensures same { handle.new.held.value ≡ handle.old.held.value }
{
    with_value!(handle, alloc, side, LineAnswer => |passage| passage.payload(side, out))
}

/// How many requests wait for their replies, those left out too, and what they weigh.
#[unsafe(no_mangle)]
pub extern "C" fn zk_through_waiting(alloc: Global, handle: &mut ThroughHandle) -> WaitingAnswer
    // The requests are the passage's.
    ensures waiting { OnHeld handle.old.held.value (λ n. result ≡ no_waiting n) (λ p. IsWaiting p result) }
    // The passage stays as it is.
    ensures same { handle.new.held.value ≡ handle.old.held.value }
{
    with_value!(handle, alloc, WaitingAnswer::none(EMPTY) => |passage| passage.waiting())
}

/// How many bytes of the side are held of a frame that isn't whole, or is refused.
#[unsafe(no_mangle)]
pub extern "C" fn zk_through_held(
    alloc: Global,
    handle: &mut ThroughHandle,
    side: u32,
) -> HeldAnswer
    // The bytes are the passage's.
    ensures held { OnSide side handle.old.held.value (λ n. result ≡ no_held n) (λ s p. IsHeld p s result) }
    // The passage stays as it is.
    ensures same { handle.new.held.value ≡ handle.old.held.value }
{
    with_value!(handle, alloc, side, HeldAnswer => |passage| passage.held(side))
}

/// How the history so far ends.
#[unsafe(no_mangle)]
pub extern "C" fn zk_through_finish(alloc: Global, handle: &mut ThroughHandle) -> EndingAnswer
    // The ending is the passage's.
    ensures ending { OnHeld handle.old.held.value (λ n. result ≡ no_ending n) (IsAnswerOf ending_answer (λ e p. IsFinish p e) result) }
    // The passage stays as it is.
    ensures same { handle.new.held.value ≡ handle.old.held.value }
{
    with_value!(handle, alloc, EndingAnswer::none(EMPTY) => |passage| EndingAnswer::of(passage.finish()))
}

/// Writes the line of the ending of the history so far, if there is room for it.
#[unsafe(no_mangle)]
pub extern "C" fn zk_through_ending_line(
    alloc: Global,
    handle: &mut ThroughHandle,
    out: &mut [u8],
) -> LineAnswer
    // The line is that of the passage's ending.
    ensures line { OnHeld handle.old.held.value (λ n. (result ≡ no_line n) × (out.new ≡ out.old)) (λ p. IsEndingLine p out.old out.new result) }
    // The passage stays as it is.
    ensures same { handle.new.held.value ≡ handle.old.held.value }
{
    with_value!(handle, alloc, LineAnswer::none(EMPTY) => |passage| passage.ending_line(alloc, out))
}

/// Frees the passage and its memory; with no passage nothing is done.
#[unsafe(no_mangle)]
pub extern "C" fn zk_through_free(alloc: Global, handle: &mut ThroughHandle)
    ensures { handle.new.held.value ≡ None }
{
    drop(handle.take(alloc));
}
