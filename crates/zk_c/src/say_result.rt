//! What calls return that say a line or a payload.
ghost use Rattle.std.specs.Prelude.{◌≡◌};
ghost use Rattle.zk_c.specs.Saying.{say_number, line_number, say_answer, refused_payload};

use crate::number::{MISFIT, NO_MEMORY, WELL};
use crate::payload::PayloadAnswer;
use zk_lines::{LineFault, LineReason};
use zk_talk::{PayloadFault, SayFault};

/// Whether a line was said, and if not, why.
#[repr(C)]
#[derive(Clone, Copy)]
pub struct SayAnswer {
    /// 0, or why it wasn't.
    pub status: u32,
    /// The number of bytes of its frame.
    pub length: usize,
    /// The column of the line's fault, from 1, if the line is no message's.
    pub column: u32,
}

/// The number of the reason why a message can't be said.
fn say_number(fault: SayFault) -> u32
    ensures { result ≡ say_number fault }
{
    match fault {
        SayFault::NotFirst => 81,
        SayFault::Unasked => 13,
        SayFault::XidOrder { .. } => 14,
        SayFault::Misfit => MISFIT,
        SayFault::TooLong => 83,
        SayFault::QueueFull => 12,
        SayFault::NoMemory => NO_MEMORY,
    }
}

/// The number of the reason why a line is no message's.
fn line_number(reason: LineReason) -> u32
    ensures { result ≡ line_number reason }
{
    match reason {
        LineReason::Word => 91,
        LineReason::Number => 92,
        LineReason::Text => 93,
        LineReason::Blob => 94,
        LineReason::Name => 95,
        LineReason::Rest => 96,
        LineReason::NoMemory => NO_MEMORY,
        LineReason::Ending => 97,
    }
}

impl SayAnswer {
    /// Nothing was said, for this reason.
    pub fn none(status: u32) -> SayAnswer
        ensures { result ≡ say_answer status 0 0 }
    {
        SayAnswer {
            status,
            length: 0,
            column: 0,
        }
    }

    /// A frame of `length` bytes was said.
    pub fn said(length: usize) -> SayAnswer
        ensures { result ≡ say_answer 0 length 0 }
    {
        SayAnswer {
            status: WELL,
            length,
            column: 0,
        }
    }

    /// The message was refused.
    pub fn refused(fault: SayFault) -> SayAnswer
        ensures { result ≡ say_answer (say_number fault) 0 0 }
    {
        SayAnswer::none(say_number(fault))
    }

    /// The line is no message's.
    pub fn no_line(fault: LineFault) -> SayAnswer
        ensures { result ≡ say_answer (line_number fault.reason) 0 fault.column }
    {
        SayAnswer {
            status: line_number(fault.reason),
            length: 0,
            column: fault.column,
        }
    }
}

/// The payload can't be said.
pub fn refused_payload(fault: PayloadFault) -> PayloadAnswer
    ensures { result ≡ refused_payload fault }
{
    match fault {
        PayloadFault::Item(item) => PayloadAnswer::refused(item),
        PayloadFault::Say(say) => PayloadAnswer::none(say_number(say)),
    }
}
