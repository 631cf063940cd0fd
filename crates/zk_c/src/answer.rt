//! The structs that calls return to C.
ghost use Rattle.std.specs.Prelude.{◌≡◌, ◌≢◌, pos, Some, None, MatchOption};
ghost use Rattle.zk_talk.specs.Held.{Message};
ghost use Rattle.zk_c.specs.{Handle.TellsText, Numbers.expected_of, Numbers.got_of};
ghost use Rattle.zk_c.specs.Answer.{no_fault, fault_numbers, no_step, step_answer, offer_answer, no_ending, ending_answer, no_message, message_answer, no_line, no_waiting, no_held};

use crate::head::Head;
use crate::number::{NO_MESSAGE, RANGE, ROOM, WELL, reason_number, side_number};
use zk_jute::Reason;
use zk_talk::{Ending, Fault, MessageRef, Stepped};

/// Why a conversation is refused, and where; all 0 if it isn't.
#[repr(C)]
#[derive(Clone, Copy)]
pub struct FaultNumbers {
    /// The number of the side's frame, from 0.
    pub frame: u64,
    /// The number of the side's bytes up to and with the one that decided it.
    pub offset: u64,
    /// The side whose byte decided it.
    pub side: u32,
    /// The offset in the frame's payload, in bytes.
    pub place: u32,
    /// The number of the reason.
    pub reason: u32,
    /// The xid that was expected, of `XidOrder`.
    pub expected: i32,
    /// The xid that came, of `XidOrder`.
    pub got: i32,
}

/// What a step returns.
#[repr(C)]
#[derive(Clone, Copy)]
pub struct StepAnswer {
    /// The number of bytes of the piece that were used.
    pub used: usize,
    /// 0, the number of the fault's reason, or why no step was made.
    pub status: u32,
    /// Whether the last of them made a frame whole: a message of the conversation.
    pub whole: bool,
    /// The fault of the conversation.
    pub fault: FaultNumbers,
}

/// How the history of a talk ends.
#[repr(C)]
#[derive(Clone, Copy)]
pub struct EndingAnswer {
    /// 0, or why there is no answer.
    pub status: u32,
    /// 1: both sides end with a whole frame. 2: a side ends within a frame. 3: it is refused.
    pub kind: u32,
    /// The number of the client's frames without a reply, of kind 1.
    pub unanswered: u32,
    /// The side that ends within a frame, of kind 2.
    pub side: u32,
    /// The number of bytes of that frame that came.
    pub got: u32,
    /// The number of that frame.
    pub frame: u64,
    /// The fault, of kind 3.
    pub fault: FaultNumbers,
}

/// What message a frame is.
#[repr(C)]
#[derive(Clone, Copy)]
pub struct MessageAnswer {
    /// 0, or why there is no answer.
    pub status: u32,
    /// 1: a connect request. 2: a request. 3: the reply to a connect request. 4: a reply. 5: an event.
    pub kind: u32,
    /// The xid of a request, a reply or an event.
    pub xid: i32,
    /// The number of a request's operation, or of the operation that a reply answers.
    pub operation: i32,
    /// The number of bytes of the frame, its length included: the last that were used of its side.
    pub size: u32,
    /// That of a reply.
    pub err: i32,
    /// That of a reply or an event.
    pub zxid: i64,
    /// The number of the side's frame, from 0.
    pub frame: u64,
    /// The number of the client's frame that a reply answers; else 0.
    pub answers: u64,
}

/// How many requests of a talk wait for their replies.
#[repr(C)]
#[derive(Clone, Copy)]
pub struct WaitingAnswer {
    /// 0, or why there is no answer.
    pub status: u32,
    /// The number of the requests.
    pub requests: u32,
    /// Their weight: 1 each, and 1 more for each part of a multi.
    pub weight: u32,
}

/// How many bytes of a side are held of a frame that isn't whole.
#[repr(C)]
#[derive(Clone, Copy)]
pub struct HeldAnswer {
    /// 0, or why there is no answer.
    pub status: u32,
    /// The number of the bytes, those of the frame's length included.
    pub bytes: u32,
}

/// What a call returns that writes text: a line, a listing, a payload or a frame.
#[repr(C)]
#[derive(Clone, Copy)]
pub struct LineAnswer {
    /// 0, or why no text is written.
    pub status: u32,
    /// The length of the text in bytes, also if there is no room for it.
    pub length: usize,
}

fn expected_of(reason: Reason) -> i32
    ensures { result ≡ expected_of reason }
{
    match reason {
        Reason::XidOrder { expected, .. } => expected,
        _ => 0,
    }
}

fn got_of(reason: Reason) -> i32
    ensures { result ≡ got_of reason }
{
    match reason {
        Reason::XidOrder { got, .. } => got,
        _ => 0,
    }
}

/// The numbers of a conversation that isn't refused.
pub fn no_fault() -> FaultNumbers
    ensures { result ≡ no_fault }
{
    FaultNumbers {
        frame: 0,
        offset: 0,
        side: 0,
        place: 0,
        reason: 0,
        expected: 0,
        got: 0,
    }
}

/// Why a conversation is refused, and where, in numbers.
pub fn fault_numbers(fault: Fault) -> FaultNumbers
    ensures { result ≡ fault_numbers fault }
{
    FaultNumbers {
        frame: fault.frame,
        offset: fault.offset,
        side: side_number(fault.side),
        place: fault.place,
        reason: reason_number(fault.reason),
        expected: expected_of(fault.reason),
        got: got_of(fault.reason),
    }
}

impl StepAnswer {
    /// No step was made, for this reason.
    pub fn none(status: u32) -> StepAnswer
        ensures { result ≡ no_step status }
    {
        StepAnswer {
            used: 0,
            status,
            whole: false,
            fault: no_fault(),
        }
    }

    /// The result of a step, in numbers.
    pub fn of(step: Result<Stepped, Fault>) -> StepAnswer
        ensures { result ≡ step_answer step }
    {
        match step {
            Ok(stepped) => {
                StepAnswer {
                    used: stepped.used,
                    status: WELL,
                    whole: stepped.whole,
                    fault: no_fault(),
                }
            }
            Err(fault) => {
                StepAnswer {
                    used: 0,
                    status: reason_number(fault.reason),
                    whole: false,
                    fault: fault_numbers(fault),
                }
            }
        }
    }
}

impl StepAnswer {
    /// The result of the offer of `length` bytes, in numbers.
    pub fn of_offer(offer: Result<bool, Fault>, length: usize) -> StepAnswer
        ensures { result ≡ offer_answer length offer }
    {
        match offer {
            Ok(false) => StepAnswer::none(RANGE),
            Ok(true) => StepAnswer::of(Ok(Stepped {
                used: length,
                whole: true,
            })),
            Err(fault) => StepAnswer::of(Err(fault)),
        }
    }
}

impl EndingAnswer {
    /// There is no ending, for this reason.
    pub fn none(status: u32) -> EndingAnswer
        ensures { result ≡ no_ending status }
    {
        EndingAnswer {
            status,
            kind: 0,
            unanswered: 0,
            side: 0,
            got: 0,
            frame: 0,
            fault: no_fault(),
        }
    }

    /// The ending in numbers.
    pub fn of(ending: Ending) -> EndingAnswer
        ensures { result ≡ ending_answer ending }
    {
        let none = EndingAnswer::none(WELL);
        match ending {
            Ending::Whole { unanswered } => {
                EndingAnswer {
                    kind: 1,
                    unanswered,
                    ..none
                }
            }
            Ending::Cut { side, frame, got } => {
                EndingAnswer {
                    kind: 2,
                    side: side_number(side),
                    frame,
                    got,
                    ..none
                }
            }
            Ending::Refused(fault) => {
                EndingAnswer {
                    kind: 3,
                    fault: fault_numbers(fault),
                    ..none
                }
            }
        }
    }
}

impl MessageAnswer {
    /// There is no message, for this reason.
    pub fn none(status: u32) -> MessageAnswer
        ensures { result ≡ no_message status }
    {
        MessageAnswer {
            status,
            kind: 0,
            xid: 0,
            operation: 0,
            size: 0,
            err: 0,
            zxid: 0,
            frame: 0,
            answers: 0,
        }
    }

    /// The message that is shown, if one is, in numbers, with the size of its frame, the frame's number, and that of the
    /// frame that it answers.
    #[inline(always)]
    pub fn of(
        shown: Option<MessageRef<'_>>,
        size: u32,
        frames: u64,
        answered: Option<u64>,
    ) -> MessageAnswer
        ensures none { shown.entry ≡ None → result ≡ no_message 69 }
        ensures some { (m : Message) → shown.entry ≡ Some m → result ≡ message_answer size frames answered m }
    {
        let Some(message) = shown else {
            return MessageAnswer::none(NO_MESSAGE);
        };
        let head = Head::of(&message);
        MessageAnswer {
            status: WELL,
            kind: head.kind,
            xid: head.xid,
            operation: head.operation,
            size,
            err: head.err,
            zxid: head.zxid,
            frame: frames.saturating_sub(1),
            answers: answered.unwrap_or(0),
        }
    }
}

impl WaitingAnswer {
    /// There is no answer, for this reason.
    pub fn none(status: u32) -> WaitingAnswer
        ensures { result ≡ no_waiting status }
    {
        WaitingAnswer {
            status,
            requests: 0,
            weight: 0,
        }
    }
}

impl HeldAnswer {
    /// There is no answer, for this reason.
    pub fn none(status: u32) -> HeldAnswer
        ensures { result ≡ no_held status }
    {
        HeldAnswer { status, bytes: 0 }
    }
}

impl LineAnswer {
    /// There is no text, for this reason.
    pub fn none(status: u32) -> LineAnswer
        ensures { result ≡ no_line status }
    {
        LineAnswer { status, length: 0 }
    }

    /// Writes `text` to the front of `out`, if there is one, and `out` is long enough.
    pub fn of(text: Option<&[u8]>, out: &mut [u8]) -> LineAnswer
        ensures { MatchOption text.entry ((result ≡ no_line 69) × (out.new ≡ out.old)) (λ t. TellsText t.now out.old out.new result) }
    {
        match text {
            Some(text) => LineAnswer::put(text, out),
            None => LineAnswer::none(NO_MESSAGE),
        }
    }

    /// Writes `text` to the front of `out`, if that is long enough.
    pub fn put(text: &[u8], out: &mut [u8]) -> LineAnswer
        ensures told { TellsText text.now out.old out.new result }
        ensures ample { result.status ≢ 5 }
    {
        let length = text.len();
        if length > out.len() {
            return LineAnswer {
                status: ROOM,
                length,
            };
        }
        out[..length].copy_from_slice(text);
        LineAnswer {
            status: WELL,
            length,
        }
    }
}
