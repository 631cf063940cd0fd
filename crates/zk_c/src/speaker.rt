//! `zk_speaker_new` and its like: a speaker that a handle owns.

ghost use Rattle.std.specs.Prelude.{◌≡◌, ◌≢◌, Some, None, MatchOption};
ghost use Rattle.std.specs.Option.{is_some};
ghost use Rattle.zk_c.specs.{Numbers.side_of, Answer.no_line, Handle.TellsText, Calls.Changes, Calls.IsMaking, Calls.OnHeld, Calls.Renews, Calls.TakesOn, Judged.payload_answer};
ghost use Rattle.zk_c.specs.Saying.{say_answer, SaysLine, SaysBytes, IsSilent, IsRenewed};

use crate::answer::LineAnswer;
use crate::boxes::SpeakerBox;
use crate::handle::{fill, put_in, take_out, with_value};
use crate::held_speaker::HeldSpeaker;
use crate::number::{EMPTY, WELL};
use crate::payload::PayloadAnswer;
use crate::say_result::SayAnswer;
use crate::talk::limits_of;
use std::alloc::Global;

/// The handle of a speaker, or of none: all bytes 0.
// It has no `Drop`, so that what it holds isn't lost unnoticed.
#[repr(C)]
pub struct SpeakerHandle {
    /// The pointer.
    pub held: SpeakerBox,
    live: bool,
    ghost tied: { live ≡ is_some held.value },
}

impl SpeakerHandle {
    /// Takes the speaker out.
    fn take(&mut self, alloc: Global) -> Option<Box<HeldSpeaker, Global>>
        ensures speaker { MatchOption result (self.old.held.value ≡ None) (λ b. self.old.held.value ≡ Some b.value) }
        ensures left { self.new.held.value ≡ None }
    {
        take_out!(self, alloc, SpeakerHandle, SpeakerBox)
    }

    /// Puts a speaker in, where there is none.
    fn put(&mut self, speaker: Box<HeldSpeaker, Global>)
        requires { self.old.held.value ≡ None }
        ensures { self.new.held.value ≡ Some speaker.value }
    {
        put_in!(self, speaker, SpeakerHandle, SpeakerBox);
    }
}

/// Makes a speaker that has said nothing. Its limits and the status are as those of `zk_talk_new`.
#[unsafe(no_mangle)]
pub extern "C" fn zk_speaker_new(
    alloc: Global,
    handle: &mut SpeakerHandle,
    client: u32,
    server: u32,
    waiting: u32,
    profile: u32,
) -> u32
    ensures status { IsMaking client server waiting profile handle.old.held.value result }
    // What is made has said nothing.
    ensures new { result ≡ 0 → IsSilent client server waiting profile handle.new.held.value }
    // Nothing is changed if it is refused.
    ensures same { result ≢ 0 → handle.new ≡ handle.old }
{
    fill!(handle, alloc, limits_of(client, server, waiting, profile)
        => |limits| HeldSpeaker::new(alloc, limits))
}

/// Begins the speaker anew with the same limits. Returns the status: `WELL`, or `EMPTY` if the handle holds none.
#[unsafe(no_mangle)]
pub extern "C" fn zk_speaker_renew(alloc: Global, handle: &mut SpeakerHandle) -> u32
    // The handle's speaker has said nothing.
    ensures renew { Renews IsRenewed handle.old.held.value handle.new.held.value result }
{
    with_value!(handle, alloc, EMPTY => |speaker| {
        speaker.renew();
        WELL
    })
}

/// Says the message whose line the bytes are, without line feed; its frame is kept until the next message is said.
#[unsafe(no_mangle)]
pub extern "C" fn zk_speaker_say(
    alloc: Global,
    handle: &mut SpeakerHandle,
    line: &[u8],
) -> SayAnswer
    // The handle's speaker says the line.
    ensures say { Changes (λ n. say_answer n 0 0) (λ v. SaysLine v line.now) handle.old.held.value handle.new.held.value result }
{
    with_value!(handle, alloc, SayAnswer::none(EMPTY) => |speaker| speaker.say(line))
}

/// Says the message of the side whose payload the bytes are; its frame is kept until the next message is said.
#[unsafe(no_mangle)]
pub extern "C" fn zk_speaker_say_payload(
    alloc: Global,
    handle: &mut SpeakerHandle,
    side: u32,
    payload: &[u8],
) -> PayloadAnswer
    // The handle's speaker says the payload.
    ensures say { TakesOn (λ n. payload_answer n 0) SaysBytes side payload.now handle.old.held.value handle.new.held.value result }
    // A number that is no side's changes nothing.
    ensures range { side_of side ≡ None → handle.new ≡ handle.old }
{
    with_value!(handle, alloc, side, PayloadAnswer => |speaker| speaker.say_payload(side, payload))
}

/// Writes the frame that was said last, if there is room for it.
#[unsafe(no_mangle)]
pub extern "C" fn zk_speaker_frame(
    alloc: Global,
    handle: &mut SpeakerHandle,
    out: &mut [u8],
) -> LineAnswer
    // The frame is the speaker's.
    ensures frame { OnHeld handle.old.held.value (λ n. (result ≡ no_line n) × (out.new ≡ out.old)) (λ v. TellsText v.frame out.old out.new result) }
    // Nothing is allocated.
    ensures ample { result.status ≢ 5 }
    // The speaker stays as it is.
    ensures same { handle.new.held.value ≡ handle.old.held.value }
{
    with_value!(handle, alloc, LineAnswer::none(EMPTY) => |speaker| speaker.frame(out))
}

/// Frees the speaker and its memory; with no speaker nothing is done.
#[unsafe(no_mangle)]
pub extern "C" fn zk_speaker_free(alloc: Global, handle: &mut SpeakerHandle)
    ensures { handle.new.held.value ≡ None }
{
    drop(handle.take(alloc));
}
