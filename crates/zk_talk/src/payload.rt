//! `say_client_payload`, `say_server_payload`, `PayloadFault`: whether one payload more may be said, and its frame.
ghost use Rattle.std.specs.Prelude.{◌≡◌, ◌<◌, ◌^◌, ◌++◌, ◌⊎◌, length, OnOk, OnErr, IfErr};
ghost use Rattle.zk_frames.specs.Framing.{frame};
ghost use Rattle.zk_talk.specs.{declared.limits.Limits.Limits, declared.say.SayFault.TheVariants.NoMemory, declared.payload.PayloadFault.TheVariants.Say};
ghost use Rattle.zk_talk.specs.SaidPayload.{SaysClientPayload, StandsClientPayload, RefusesClientPayload, SaysServerPayload, StandsServerPayload, RefusesServerPayload};

use crate::judge::{forget_asked, has_room, judge_client, judge_server, put_asked};
use crate::limits::Limits;
use crate::say::{SayFault, put_length};
use std::alloc::AllocError;
use std::error::Error;
use std::fmt;
use std::fmt::Display;
use zk_jute::ItemFault;
use zk_waiting::Awaited;

/// Why a payload can't be said.
#[derive(Clone, Copy, Debug, PartialEq, Eq)]
pub enum PayloadFault {
    /// No message that may come next has the payload: the fault that a talk finds in it, if it takes payloads of this
    /// length, and its place.
    Item(ItemFault),
    /// Its message can't be said: `TooLong`, `QueueFull` or `NoMemory`.
    Say(SayFault),
}

/// The fault, and its place if it is the payload's.
impl Display for PayloadFault {
    fn fmt<W: fmt::Write>(&self, f: &mut fmt::Formatter<W>) -> fmt::Result {
        match self {
            PayloadFault::Item(fault) => write!(f, "{fault}"),
            PayloadFault::Say(fault) => write!(f, "{fault}"),
        }
    }
}

impl Error for PayloadFault {}

/// Appends the frame of `payload`.
fn put_frame(payload: &[u8], out: &mut Vec<u8>) -> Result<(), AllocError>
    requires { length payload.now < 2 ^ 31 }
    ensures ok { OnOk result (out.new.items ≡ out.old.items ++ frame payload.now) }
    ensures err { OnErr result (out.new.items ≡ out.old.items) }
{
    let start = out.len();
    put_length(payload.len() as u32, out)?;
    match out.extend_from_slice(payload) {
        Ok(()) => Ok(()),
        Err(e) => {
            out.truncate(start);
            Err(e)
        }
    }
}

/// Says a payload of the client, whose request then waits for its reply.
// The frame is appended before the request is queued, as in `say_client`.
pub fn say_client_payload(
    limits: Limits,
    asked: bool,
    waiting: &mut Awaited,
    payload: &[u8],
    out: &mut Vec<u8>,
) -> Result<(), PayloadFault>
    requires room { waiting.old.max ≡ limits.waiting }
    ensures max { waiting.new.max ≡ waiting.old.max }
    ensures bytes { OnOk result (out.new.items ≡ out.old.items ++ frame payload.now) }
    ensures said { OnOk result (SaysClientPayload limits asked waiting.old payload.now waiting.new) }
    ensures same { OnErr result ((waiting.new ≡ waiting.old) × (out.new.items ≡ out.old.items)) }
    ensures err { IfErr result (λ e. (e ≡ Say NoMemory) ⊎ RefusesClientPayload limits asked waiting.old payload.now e) }
    // Memory is needed only for what may be said.
    ensures lacks { IfErr result (λ e. e ≡ Say NoMemory → StandsClientPayload limits asked waiting.old payload.now) }
{
    let count = u64::from(asked);
    let ask = match judge_client::<ItemFault>(limits.profile(), count, payload) {
        Ok(ask) => ask,
        Err(item) => return Err(PayloadFault::Item(item)),
    };
    if payload.len() > limits.client() as usize {
        return Err(PayloadFault::Say(SayFault::TooLong));
    }
    if !has_room(waiting, payload, ask) {
        return Err(PayloadFault::Say(SayFault::QueueFull));
    }
    let Ok(()) = put_frame(payload, out) else {
        return Err(PayloadFault::Say(SayFault::NoMemory));
    };
    put_asked(waiting, payload, ask, 0);
    Ok(())
}

/// Says a payload of the server, and drops the request that it replies to.
pub fn say_server_payload(
    limits: Limits,
    asked: bool,
    welcomed: bool,
    waiting: &mut Awaited,
    payload: &[u8],
    out: &mut Vec<u8>,
) -> Result<(), PayloadFault>
    ensures max { waiting.new.max ≡ waiting.old.max }
    ensures bytes { OnOk result (out.new.items ≡ out.old.items ++ frame payload.now) }
    ensures said { OnOk result (SaysServerPayload limits asked welcomed waiting.old payload.now waiting.new) }
    ensures same { OnErr result ((waiting.new ≡ waiting.old) × (out.new.items ≡ out.old.items)) }
    ensures err { IfErr result (λ e. (e ≡ Say NoMemory) ⊎ RefusesServerPayload limits asked welcomed waiting.old payload.now e) }
    // Memory is needed only for what may be said.
    ensures lacks { IfErr result (λ e. e ≡ Say NoMemory → StandsServerPayload limits asked welcomed waiting.old payload.now) }
{
    let answer = match judge_server::<ItemFault>(asked, welcomed, waiting, payload) {
        Ok(answer) => answer,
        Err(item) => return Err(PayloadFault::Item(item)),
    };
    if payload.len() > limits.server() as usize {
        return Err(PayloadFault::Say(SayFault::TooLong));
    }
    let Ok(()) = put_frame(payload, out) else {
        return Err(PayloadFault::Say(SayFault::NoMemory));
    };
    forget_asked(waiting, answer);
    Ok(())
}
