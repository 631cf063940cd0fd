//! `Speaker`: messages to bytes, as long as they are a conversation.
ghost use Rattle.std.specs.Prelude.{◌≡◌, ◌≢◌, ◌+◌, ◌≤◌, ◌++◌, ◌⊎◌, ◌∷◌, [], List, length, take, drop, false, IsTrue, OnOk, OnErr, IfOk, IfErr};
ghost use Rattle.zk_frames.specs.Framing.{frame};
ghost use Rattle.zk_talk.specs.{Held.Message, declared.say.SayFault.TheVariants.NoMemory, Ending.unanswered, declared.payload.PayloadFault.TheVariants.Say};
ghost use Rattle.zk_talk.specs.{Said.Says, Said.MaySay, Said.IsSayFault, Said.payload_of, Said.side_of, Said.conversation_of, Fault.side_limit};
ghost use Rattle.zk_talk.specs.Written.{IsWritten, SaysKind, SaysWritten, RefusesWritten, CannotSayWritten};
ghost use Rattle.zk_talk.specs.SaidPayload.{SaysPayload, RefusesPayload, StandsPayload, CannotSay};

use crate::limits::Limits;
use crate::message::{Kind, Message, Side};
use crate::payload::{PayloadFault, say_client_payload, say_server_payload};
use crate::say::{SayFault, say_client, say_server};
use crate::view::boxed_message;
use crate::written_message::{await_written, forget_written, put_in_length};
use std::alloc::{AllocError, Global};
use std::marker::Model;
use zk_waiting::Awaited;

/// What was said so far of a conversation.
#[derive(Drop)]
pub struct Speaker {
    alloc: Global,
    limits: Limits,
    asked: bool,
    welcomed: bool,
    waiting: Awaited,
}

impl Model for Speaker {
    ghost use Rattle.std.specs.Prelude.{◌≡◌};
    ghost use Rattle.zk_talk.specs.Said.{SpeakerState};

    ghost Value = { SpeakerState };

    ghost view = { λ s. record { limits = s.limits; asked = s.asked; welcomed = s.welcomed; waiting = s.waiting } };

    ghost invariant = { λ s. s.waiting.max ≡ s.limits.waiting };
}

/// What is said of a side, which then has spoken.
macro_rules! said {
    ($speaker:ident.$spoken:ident => $said:expr) => {
        match $said {
            Ok(()) => {
                $speaker.$spoken = true;
                Ok(())
            }
            Err(e) => Err(e),
        }
    };
}

impl Speaker {
    /// A speaker that has said nothing.
    ///
    /// # Errors
    ///
    /// `AllocError` if memory for the requests that wait is refused.
    pub fn new(alloc: Global, limits: Limits) -> Result<Self, AllocError>
        ensures limits { IfOk result (λ s. s.limits ≡ limits) }
        ensures says { IfOk result (λ s. Says s []) }
    {
        let waiting = Awaited::new(alloc, limits.waiting())?;
        Ok(Speaker {
            alloc,
            limits,
            asked: false,
            welcomed: false,
            waiting,
        })
    }

    /// Begins anew with the same limits: a speaker that has said nothing. Allocates nothing.
    pub fn renew(&mut self)
        ensures limits { self.new.limits ≡ self.old.limits }
        ensures says { Says self.new [] }
    {
        self.asked = false;
        self.welcomed = false;
        self.waiting.renew();
    }

    /// Appends the frame of `message` to `out` if the messages said so far and it, frame after frame, are a conversation
    /// within the limits, and only then.
    ///
    /// # Errors
    ///
    /// The first of `SayFault`'s cases that applies; `NoMemory` if memory is refused. The speaker and `out` are then
    /// unchanged.
    pub fn say(&mut self, message: &Message, out: &mut Vec<u8>) -> Result<(), SayFault>
        ensures limits { self.new.limits ≡ self.old.limits }
        ensures bytes { OnOk result (out.new.items ≡ out.old.items ++ frame (payload_of message.now)) }
        // Its payload is no longer than its side's limit.
        ensures within { OnOk result (length (payload_of message.now) ≤ side_limit self.old.limits (side_of message.now)) }
        // It may be said, and was said.
        ensures said { OnOk result ((M : List Message) → Says self.old M → MaySay self.old.limits M message.now × Says self.new (M ++ message.now ∷ [])) }
        ensures same { OnErr result ((self.new ≡ self.old) × (out.new.items ≡ out.old.items)) }
        // Memory was refused, or the message is, by this case.
        ensures err { IfErr result (λ e. (e ≡ NoMemory) ⊎ ((before : List Message) → Says self.old before → IsSayFault self.old.limits before message.now e)) }
        // Memory is needed only for a message that may be said.
        ensures lacks { IfErr result (λ e. e ≡ NoMemory → (before : List Message) → Says self.old before → MaySay self.old.limits before message.now) }
        // Only what may not be said is refused, unless memory was.
        ensures exact { IfErr result (λ e. e ≢ NoMemory → (before : List Message) → Says self.old before → MaySay self.old.limits before message.now → ⊥) }
    {
        match message {
            Message::Client(frame) => said!(self.asked => say_client(
                self.alloc, self.limits, self.asked, &mut self.waiting, frame, out
            )),
            Message::Server(frame) => said!(self.welcomed => say_server(
                self.limits, self.asked, self.welcomed, &mut self.waiting, frame, out
            )),
        }
    }

    /// Appends the frame of the side's `payload` to `out` if its message may be said next, as `say` does, and only then. The
    /// message isn't made: nothing is allocated but room in `out`.
    ///
    /// # Errors
    ///
    /// `Item` if no message that may come next has the payload, `Say` if it is too long, if there is no room in the queue, or
    /// if memory is refused. The speaker and `out` are then unchanged.
    pub fn say_payload(
        &mut self,
        side: Side,
        payload: &[u8],
        out: &mut Vec<u8>,
    ) -> Result<(), PayloadFault>
        ensures limits { self.new.limits ≡ self.old.limits }
        ensures bytes { OnOk result (out.new.items ≡ out.old.items ++ frame payload.now) }
        // The payload is a message's, which may be said, and was said.
        ensures said { OnOk result (SaysPayload self.old side payload.now self.new) }
        ensures same { OnErr result ((self.new ≡ self.old) × (out.new.items ≡ out.old.items)) }
        // Memory was refused, or the payload is, by this case.
        ensures err { IfErr result (λ e. (e ≡ Say NoMemory) ⊎ RefusesPayload self.old side payload.now e) }
        // Memory is needed only for a payload whose message may be said.
        ensures lacks { IfErr result (λ e. e ≡ Say NoMemory → StandsPayload self.old side payload.now) }
        // Only a payload of which no message may be said is refused, unless memory was.
        ensures exact { IfErr result (λ e. e ≢ Say NoMemory → CannotSay self.old side payload.now) }
    {
        match side {
            Side::Client => said!(self.asked => say_client_payload(
                self.limits, self.asked, &mut self.waiting, payload, out
            )),
            Side::Server => said!(self.welcomed => say_server_payload(
                self.limits, self.asked, self.welcomed, &mut self.waiting, payload, out
            )),
        }
    }

    /// Judges the message of this kind and payload, and says it, but for its bytes; false: undecided, and nothing changed.
    fn judge_written(&mut self, kind: Kind, payload: &[u8]) -> bool
        ensures limits { self.new.limits ≡ self.old.limits }
        ensures small { IsTrue result → length payload.now ≤ 16777216 }
        ensures said { IsTrue result → SaysWritten self.old kind payload.now self.new }
        ensures there { IsTrue result → SaysKind self.old kind payload.now self.new }
        ensures same { result ≡ false → self.new ≡ self.old }
    {
        match kind.side() {
            Side::Client => {
                if !await_written(self.limits, self.asked, kind, &mut self.waiting, payload) {
                    return false;
                }
                self.asked = true;
            }
            Side::Server => {
                if !forget_written(
                    self.limits,
                    self.asked,
                    self.welcomed,
                    kind,
                    &mut self.waiting,
                    payload,
                ) {
                    return false;
                }
                self.welcomed = true;
            }
        }
        true
    }

    /// Says the message in the box, but for its bytes.
    fn say_alone(&mut self, held: &Box<Message>) -> Result<(), SayFault>
        ensures limits { self.new.limits ≡ self.old.limits }
        ensures within { OnOk result (length (payload_of held.now.value) ≤ side_limit self.old.limits (side_of held.now.value)) }
        ensures said { OnOk result ((M : List Message) → Says self.old M → MaySay self.old.limits M held.now.value × Says self.new (M ++ held.now.value ∷ [])) }
        ensures same { OnErr result (self.new ≡ self.old) }
        ensures err { IfErr result (λ e. (e ≡ NoMemory) ⊎ ((before : List Message) → Says self.old before → IsSayFault self.old.limits before held.now.value e)) }
        ensures exact { IfErr result (λ e. e ≢ NoMemory → (before : List Message) → Says self.old before → MaySay self.old.limits before held.now.value → ⊥) }
    {
        let mut frame = Vec::new(self.alloc);
        match self.say(&**held, &mut frame) {
            Ok(()) => Ok(()),
            Err(e) => Err(e),
        }
    }

    /// Says the message of this kind and payload, which is made, but for its bytes.
    // For a message that `judge_written` leaves undecided: `say` knows why it can't be said.
    #[inline(never)]
    fn say_made(&mut self, kind: Kind, payload: &[u8]) -> Result<(), SayFault>
        requires written { (m : Message) × IsWritten kind payload.now m }
        ensures limits { self.new.limits ≡ self.old.limits }
        ensures small { OnOk result (length payload.now ≤ 16777216) }
        ensures said { OnOk result (SaysWritten self.old kind payload.now self.new) }
        ensures there { OnOk result (SaysKind self.old kind payload.now self.new) }
        ensures same { OnErr result (self.new ≡ self.old) }
        ensures err { IfErr result (λ e. (e ≡ NoMemory) ⊎ RefusesWritten self.old kind payload.now e) }
        ensures exact { IfErr result (λ e. e ≢ NoMemory → CannotSayWritten self.old kind payload.now) }
    {
        let Ok(message) = boxed_message(self.alloc, kind, payload) else {
            return Err(SayFault::NoMemory);
        };
        match self.say_alone(&message) {
            Ok(()) => Ok(()),
            Err(e) => Err(e),
        }
    }

    /// Says the message of this kind and payload, but for its bytes.
    fn say_known(&mut self, kind: Kind, payload: &[u8]) -> Result<(), SayFault>
        requires written { (m : Message) × IsWritten kind payload.now m }
        ensures limits { self.new.limits ≡ self.old.limits }
        ensures small { OnOk result (length payload.now ≤ 16777216) }
        ensures said { OnOk result (SaysWritten self.old kind payload.now self.new) }
        ensures there { OnOk result (SaysKind self.old kind payload.now self.new) }
        ensures same { OnErr result (self.new ≡ self.old) }
        ensures err { IfErr result (λ e. (e ≡ NoMemory) ⊎ RefusesWritten self.old kind payload.now e) }
        ensures exact { IfErr result (λ e. e ≢ NoMemory → CannotSayWritten self.old kind payload.now) }
    {
        if self.judge_written(kind, payload) {
            return Ok(());
        }
        self.say_made(kind, payload)
    }

    /// Says the message of this kind whose payload is `out[start + 4..]`, as `say` does: the payload's length is put into
    /// the four bytes at `start`. A message that may be said isn't made, and nothing is allocated.
    ///
    /// # Errors
    ///
    /// Those of `say`. The speaker and `out` are then unchanged.
    pub fn say_written(
        &mut self,
        kind: Kind,
        start: usize,
        out: &mut Vec<u8>,
    ) -> Result<(), SayFault>
        requires room { start + 4 ≤ length out.old.items }
        requires written { (m : Message) × IsWritten kind (drop (start + 4) out.old.items) m }
        ensures limits { self.new.limits ≡ self.old.limits }
        ensures bytes { OnOk result (out.new.items ≡ take start out.old.items ++ frame (drop (start + 4) out.old.items)) }
        // The message of the kind that has the payload may be said, and was said.
        ensures said { OnOk result (SaysWritten self.old kind (drop (start + 4) out.old.items) self.new) }
        // There is such a message.
        ensures there { OnOk result (SaysKind self.old kind (drop (start + 4) out.old.items) self.new) }
        ensures same { OnErr result ((self.new ≡ self.old) × (out.new.items ≡ out.old.items)) }
        // Memory was refused, or the message is, by this case.
        ensures err { IfErr result (λ e. (e ≡ NoMemory) ⊎ RefusesWritten self.old kind (drop (start + 4) out.old.items) e) }
        // Only what may not be said is refused, unless memory was.
        ensures exact { IfErr result (λ e. e ≢ NoMemory → CannotSayWritten self.old kind (drop (start + 4) out.old.items)) }
    {
        match self.say_known(kind, &out[start + 4..]) {
            Ok(()) => {}
            Err(e) => return Err(e),
        }
        put_in_length(start, out.as_mut_slice());
        Ok(())
    }

    /// The number of the client's messages without a reply, the connect request included.
    pub fn unanswered(&self) -> u32
        ensures { (before : List Message) → Says self.now before → result ≡ unanswered (conversation_of before) }
    {
        let waiting = self.waiting.count();
        if self.asked && !self.welcomed {
            waiting + 1
        } else {
            waiting
        }
    }
}
