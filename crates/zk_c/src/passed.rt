//! `PassedAnswer`: what a step of a passage returns to C.
ghost use Rattle.std.specs.Prelude.{◌≡◌, pos};
ghost use Rattle.zk_c.specs.{Passing.no_passed, Passing.outcome_answer, Passing.passed_answer, PassingOn.offered_answer, PassingOn.resumed_answer};

use crate::answer::{FaultNumbers, StepAnswer, fault_numbers, no_fault};
use crate::number::{RANGE, WELL, reason_number};
use zk_talk::{Fault, Stepped};
use zk_through::{Passed, StepOutcome};

/// What a step used of a piece, and what became of it.
#[repr(C)]
#[derive(Clone, Copy)]
pub struct PassedAnswer {
    /// The number of bytes of the piece that were used.
    pub used: usize,
    /// 0, the number of the fault's reason, or why no step was made.
    pub status: u32,
    /// 0: no frame is whole. 1: a message. 2: a request that is left out. 3: the reply to one. 4: no room. 5: a reply to a
    /// request that wasn't seen.
    pub went: u32,
    /// The xid of a request that is left out, also of its reply; or of a reply to what wasn't seen.
    pub xid: i32,
    /// The number of its operation.
    pub operation: i32,
    /// The fault of the conversation.
    pub fault: FaultNumbers,
    /// The number of its frame among the client's, from 0; 0 if no frame is left out.
    pub frame: u64,
    /// The zxid of a reply to what wasn't seen.
    pub zxid: i64,
    /// Its err.
    pub err: i32,
}

/// The number of bytes that were used, and what became of them, in numbers.
#[cold]
#[inline(never)]
fn outcome_answer(used: usize, outcome: StepOutcome) -> PassedAnswer
    ensures { result ≡ outcome_answer used outcome }
{
    let (number, xid, operation, frame) = match outcome {
        StepOutcome::Within => (0, 0, 0, 0),
        StepOutcome::Message => (1, 0, 0, 0),
        StepOutcome::Asked(turn) => (2, turn.xid, turn.number, turn.frame),
        StepOutcome::Answered(turn) => (3, turn.xid, turn.number, turn.frame),
        StepOutcome::Full => (4, 0, 0, 0),
        StepOutcome::Unseen { xid, .. } => (5, xid, 0, 0),
    };
    let (zxid, err) = match outcome {
        StepOutcome::Unseen { zxid, err, .. } => (zxid, err),
        _ => (0, 0),
    };
    PassedAnswer {
        used,
        went: number,
        xid,
        operation,
        frame,
        zxid,
        err,
        ..PassedAnswer::none(WELL)
    }
}

/// The same, fast for a message and within a frame.
fn step_answer(used: usize, outcome: StepOutcome) -> PassedAnswer
    ensures { result ≡ outcome_answer used outcome }
{
    match outcome {
        StepOutcome::Within => PassedAnswer {
            used,
            ..PassedAnswer::none(WELL)
        },
        StepOutcome::Message => PassedAnswer {
            used,
            went: 1,
            ..PassedAnswer::none(WELL)
        },
        _ => outcome_answer(used, outcome),
    }
}

impl PassedAnswer {
    /// No step was made, for this reason.
    pub fn none(status: u32) -> PassedAnswer
        ensures { result ≡ no_passed status }
    {
        PassedAnswer {
            used: 0,
            status,
            went: 0,
            xid: 0,
            operation: 0,
            fault: no_fault(),
            frame: 0,
            zxid: 0,
            err: 0,
        }
    }

    /// The result of a step, in numbers.
    pub fn of(step: Result<Passed, Fault>) -> PassedAnswer
        ensures { result ≡ passed_answer step }
    {
        match step {
            Ok(passed) => step_answer(passed.used, passed.outcome),
            Err(fault) => {
                PassedAnswer {
                    fault: fault_numbers(fault),
                    ..PassedAnswer::none(reason_number(fault.reason))
                }
            }
        }
    }
}

impl PassedAnswer {
    /// The result of an offer, in numbers.
    pub fn of_offer(offer: Result<Option<Passed>, Fault>) -> PassedAnswer
        ensures { result ≡ offered_answer offer }
    {
        match offer {
            Ok(None) => PassedAnswer::none(RANGE),
            Ok(Some(passed)) => PassedAnswer::of(Ok(passed)),
            Err(fault) => PassedAnswer::of(Err(fault)),
        }
    }
}

/// How many bytes of the refused piece a passage that goes on after a refused frame has used, in numbers.
pub fn resumed_answer(resumed: Result<usize, Fault>) -> StepAnswer
    ensures { result ≡ resumed_answer resumed }
{
    match resumed {
        Ok(used) => StepAnswer::of(Ok(Stepped { used, whole: false })),
        Err(fault) => StepAnswer::of(Err(fault)),
    }
}
