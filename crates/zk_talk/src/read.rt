//! `read_all`: a whole history, from a list of pieces to its messages and its ending.
ghost use Rattle.std.specs.Prelude.{◌≡◌, ◌≤◌, ◌++◌, ◌↔◌, length, drop, IsTrue, IfOk, OnOk};
ghost use Rattle.std.specs.Option.{option_to_list};
ghost use Rattle.zk_jute.specs.declared.fault.Reason.TheVariants.{NoMemory};
ghost use Rattle.zk_talk.specs.{declared.message.Ending.TheVariants.Refused, declared.message.Fault.Fault, Held.Message, Fault.IsFaultOf, Ending.IsEnding};
ghost use Rattle.zk_talk.specs.Answer.{history_of, AreMessages, EndsWhole, IsOnlyOrder, TakesAll};

use crate::limits::Limits;
use crate::message::{Ended, Ending, Fault, Message, Side};
use crate::talk::Talk;
use std::alloc::{AllocError, Global};
use zk_jute::Reason;

fn keep(messages: &mut Vec<Message>, message: Option<Message>) -> Result<(), AllocError>
    ensures { OnOk result (messages.new.items ≡ messages.old.items ++ option_to_list message) }
{
    if let Some(message) = message {
        messages.push(message)?;
    }
    Ok(())
}

fn wants_memory(fault: Fault) -> bool
    ensures { IsTrue result ↔ (fault.reason ≡ NoMemory) }
{
    match fault.reason {
        Reason::NoMemory => true,
        _ => false,
    }
}

fn rest(bytes: &[u8], at: usize) -> &[u8]
    requires { at ≤ length bytes.now }
    ensures { result.now ≡ drop at bytes.now }
{
    &bytes[at..]
}

/// Takes all of a piece, up to the history's fault.
fn take_all(
    talk: &mut Talk,
    side: Side,
    bytes: &[u8],
    messages: &mut Vec<Message>,
) -> Result<Option<Fault>, AllocError>
    ensures limits { talk.new.limits ≡ talk.old.limits }
    ensures fed { IfOk result (λ fault. TakesAll talk.old messages.old.items side bytes.now fault talk.new messages.new.items) }
{
    let mut at = 0;
    while at < bytes.len() {
        match talk.take(side, rest(bytes, at)) {
            Ok(taken) => {
                at += taken.used;
                keep(messages, taken.message)?;
            }
            Err(fault) => {
                if wants_memory(fault) {
                    return Err(AllocError);
                }
                return Ok(Some(fault));
            }
        }
    }
    Ok(None)
}

/// The conversation that `pieces` spell, however they were cut: its messages in the order of their last bytes, and how
/// it ends. Nothing is read after a fault.
///
/// # Errors
///
/// `AllocError` if memory is refused, for the talk or for a message.
pub fn read_all(
    alloc: Global,
    limits: Limits,
    pieces: &[(Side, &[u8])],
) -> Result<Ended, AllocError>
    // A history that spells a conversation gives it back, in the order of the last bytes.
    ensures whole { IfOk result (λ e. EndsWhole limits (history_of pieces.now) e.messages.items e.ending) }
    // There is one such order.
    ensures order { IfOk result (λ e. IsOnlyOrder limits (history_of pieces.now) e.messages.items) }
    // A history with a fault is refused with just that fault.
    ensures refused { IfOk result (λ e. (f : Fault) → IsFaultOf limits (history_of pieces.now) f → e.ending ≡ Refused f) }
    // Any history gives its messages up to its fault, and its ending.
    ensures messages { IfOk result (λ e. AreMessages limits (history_of pieces.now) e.messages.items e.ending) }
    ensures ending { IfOk result (λ e. IsEnding limits (history_of pieces.now) e.ending) }
{
    let mut talk = Talk::new(alloc, limits)?;
    let mut messages = Vec::new(alloc);
    for piece in pieces {
        if let Some(fault) = take_all(&mut talk, piece.0, piece.1, &mut messages)? {
            return Ok(Ended {
                messages,
                ending: Ending::Refused(fault),
            });
        }
    }
    Ok(Ended {
        messages,
        ending: talk.finish(),
    })
}
