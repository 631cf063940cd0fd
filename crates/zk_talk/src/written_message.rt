//! `await_written`, `forget_written`, `put_in_length`: a message that is given as its kind and its payload's bytes.
ghost use Rattle.std.specs.Prelude.{◌≡◌, ◌+◌, ◌≤◌, ◌<◌, ◌^◌, ◌++◌, length, take, drop, false, IsTrue, MatchBool};
ghost use Rattle.zk_frames.specs.Framing.{frame};
ghost use Rattle.zk_answers.specs.Held.{ServerFrame};
ghost use Rattle.zk_waiting.specs.Waiting.{Lanes};
ghost use Rattle.zk_talk.specs.declared.message.Kind.TheVariants.{Connect, Ask};
ghost use Rattle.zk_talk.specs.{declared.message.MessageOf.TheVariants.Server, Settled.IsTurn, Settled.Answers, Written.SaysClientKind, Written.SaysServerKind, Written.SaysClientWritten, Written.SaysServerWritten, Written.kind_of};

use crate::judge::{await_ask, forget_asked, judge_server};
use crate::limits::Limits;
use crate::message::Kind;
use crate::replied::Replied;
use zk_jute::Undecided;
use zk_records::Op;
use zk_waiting::{Awaited, Lane};

/// Whether a client's message of this kind may come, by whether the client has spoken; false: undecided.
fn is_next(asked: bool, kind: Kind) -> bool
    ensures { IsTrue result → MatchBool asked (kind ≡ Ask) (kind ≡ Connect) }
{
    match kind {
        Kind::Connect => !asked,
        Kind::Ask => asked,
        Kind::Connected | Kind::Answered(_) | Kind::Event => false,
    }
}

/// Lets the client's message of this kind and payload wait for its reply, if it may be said; false: undecided, and nothing
/// changed. It allocates nothing.
pub fn await_written(
    limits: Limits,
    asked: bool,
    kind: Kind,
    waiting: &mut Awaited,
    payload: &[u8],
) -> bool
    requires room { waiting.old.max ≡ limits.waiting }
    ensures max { waiting.new.max ≡ waiting.old.max }
    ensures small { IsTrue result → length payload.now ≤ limits.client }
    ensures said { IsTrue result → SaysClientWritten limits asked kind waiting.old payload.now waiting.new }
    ensures there { IsTrue result → SaysClientKind limits asked kind waiting.old payload.now waiting.new }
    ensures same { result ≡ false → waiting.new ≡ waiting.old }
{
    if payload.len() > limits.client() as usize || !is_next(asked, kind) {
        return false;
    }
    match await_ask::<Undecided>(limits.profile(), u64::from(asked), 0, waiting, payload) {
        Ok(()) => true,
        Err(_undecided) => false,
    }
}

/// Whether these are one operation.
fn is_same(a: Op, b: Op) -> bool
    ensures { IsTrue result → a ≡ b }
{
    a == b
}

/// Whether a server's message that replies to `answer` is of this kind, by whether the server has spoken; false: undecided.
fn is_answer(welcomed: bool, kind: Kind, answer: Option<(Lane, Replied)>) -> bool
    ensures { IsTrue result → (s : ServerFrame) (w : Lanes) → IsTurn welcomed s → Answers s w answer → kind_of (Server s) ≡ kind }
{
    match answer {
        Some((_lane, told)) => match kind {
            Kind::Answered(asked) => is_same(told.op, asked),
            Kind::Connect | Kind::Ask | Kind::Connected | Kind::Event => false,
        },
        None => match kind {
            Kind::Connected => !welcomed,
            Kind::Event => welcomed,
            Kind::Connect | Kind::Ask | Kind::Answered(_) => false,
        },
    }
}

/// Drops the request that the server's message of this kind and payload replies to, if it may be said; false: undecided,
/// and nothing changed. It allocates nothing.
pub fn forget_written(
    limits: Limits,
    asked: bool,
    welcomed: bool,
    kind: Kind,
    waiting: &mut Awaited,
    payload: &[u8],
) -> bool
    ensures max { waiting.new.max ≡ waiting.old.max }
    ensures small { IsTrue result → length payload.now ≤ limits.server }
    ensures said { IsTrue result → SaysServerWritten limits asked welcomed kind waiting.old payload.now waiting.new }
    ensures there { IsTrue result → SaysServerKind limits asked welcomed kind waiting.old payload.now waiting.new }
    ensures same { result ≡ false → waiting.new ≡ waiting.old }
{
    if payload.len() > limits.server() as usize {
        return false;
    }
    let Ok(answer) = judge_server::<Undecided>(asked, welcomed, waiting, payload) else {
        return false;
    };
    if !is_answer(welcomed, kind, answer) {
        return false;
    }
    forget_asked(waiting, answer);
    true
}

/// Puts the length of the payload that comes after the four bytes at `start` into these.
pub fn put_in_length(start: usize, out: &mut [u8])
    requires room { start + 4 ≤ length out.old }
    requires small { length out.old < start + 4 + 2 ^ 31 }
    ensures { out.new ≡ take start out.old ++ frame (drop (start + 4) out.old) }
{
    let size = (out.len() - start - 4) as i32;
    out[start..start + 4].copy_from_slice(&size.to_be_bytes());
}
