//! `Conversation`: a talk, and a buffer for the lines of its messages.
ghost use Rattle.std.specs.Prelude.{◌≡◌, [], Some, None, IfOk};
ghost use Rattle.zk_talk.specs.{Held.Message, Stands.kept_on};
ghost use Rattle.zk_lines.specs.{Lines.line, Endings.ending_text};
ghost use Rattle.zk_c.specs.Answer.{no_line};
ghost use Rattle.zk_c.specs.Handle.{HasBegun, IsRenewed, IsStep, IsPass, IsOffer, IsFinish, AnswersOn, IsView, IsLine, IsEndingLine, IsFields, IsPayload, IsWaiting, IsHeld, TellsText};

use crate::answer::{HeldAnswer, LineAnswer, MessageAnswer, WaitingAnswer};
use crate::number::{NO_MEMORY, NO_MESSAGE, WELL};
use crate::read_answer::{ReadAnswer, read_shown};
use std::alloc::{AllocError, Global};
use std::marker::Model;
use zk_fields::Field;
use zk_lines::{ending_line, put_line_ref};
use zk_talk::{Ending, Fault, Limits, MessageRef, Side, Stepped, Talk};

/// The first room of a line, more than glibc's malloc keeps for itself of small blocks. Such a block would lie above those
/// of the talk, and then nothing below it goes back to the system when the talk is freed.
const FIRST_ROOM: usize = 1056;

/// A talk, and a buffer for a line.
#[derive(Drop)]
pub struct Conversation {
    talk: Talk,
    line: Vec<u8>,
}

/// Makes the first room of a line.
#[cold]
#[inline(never)]
fn make_room(text: &mut Vec<u8>) -> Result<(), AllocError>
    ensures { text.new.items ≡ text.old.items }
{
    text.reserve(FIRST_ROOM)
}

/// Writes the line of the message that is shown to `out`, if one is, and there is room for it. It is made in `text`, whose
/// memory is kept.
pub fn write_line(text: &mut Vec<u8>, shown: Option<MessageRef<'_>>, out: &mut [u8]) -> LineAnswer
    ensures none { shown.entry ≡ None → (result ≡ no_line 69) × (out.new ≡ out.old) }
    ensures some { (m : Message) → shown.entry ≡ Some m → TellsText (line m) out.old out.new result }
{
    let Some(message) = shown else {
        return LineAnswer::none(NO_MESSAGE);
    };
    if text.capacity() == 0 && make_room(text).is_err() {
        return LineAnswer::none(NO_MEMORY);
    }
    text.clear();
    let Ok(()) = put_line_ref(text, &message) else {
        return LineAnswer::none(NO_MEMORY);
    };
    LineAnswer::put(text, out)
}

/// Writes the line of the ending to `out`, if there is room for it.
pub fn write_ending(alloc: Global, ending: Ending, out: &mut [u8]) -> LineAnswer
    ensures { TellsText (ending_text ending) out.old out.new result }
{
    let Ok(line) = ending_line(alloc, &ending) else {
        return LineAnswer::none(NO_MEMORY);
    };
    LineAnswer::put(&line, out)
}

impl Model for Conversation {
    ghost use Rattle.zk_talk.specs.Stands.{TalkState};

    ghost Value = { TalkState };

    ghost view = { λ c. c.talk };
}

impl Conversation {
    /// A conversation of which nothing has come.
    pub fn new(alloc: Global, limits: Limits) -> Result<Self, AllocError>
        ensures limits { IfOk result (λ t. t.limits ≡ limits) }
        ensures begun { IfOk result HasBegun }
    {
        let talk = Talk::new(alloc, limits)?;
        let line = Vec::new(alloc);
        Ok(Conversation { talk, line })
    }

    /// Begins anew with the same limits: a conversation of which nothing has come.
    pub fn renew(&mut self)
        ensures { IsRenewed self.old self.new }
    {
        self.talk.renew();
    }

    /// Takes the piece up to the end of the first frame that becomes whole, or all of it.
    ///
    /// # Errors
    ///
    /// Those of `Talk::step`.
    pub fn step(&mut self, side: Side, piece: &[u8]) -> Result<Stepped, Fault>
        ensures { IsStep self.old side piece.now result self.new }
    {
        self.talk.step(side, piece)
    }

    /// Takes the piece up to the end of the first frame that becomes whole, or all of it, and keeps no frame.
    ///
    /// # Errors
    ///
    /// Those of `Talk::pass`.
    pub fn pass(&mut self, side: Side, piece: &[u8]) -> Result<Stepped, Fault>
        ensures { IsPass self.old side piece.now result self.new }
    {
        self.talk.pass(side, piece)
    }

    /// Takes the side's whole frame if it may come next; else nothing changes.
    ///
    /// # Errors
    ///
    /// Those of `Talk::offer`.
    pub fn offer(&mut self, side: Side, frame: &[u8]) -> Result<bool, Fault>
        ensures { IsOffer self.old side frame.now result self.new }
    {
        self.talk.offer(side, frame)
    }

    /// How many requests wait for their replies.
    pub fn waiting(&self) -> WaitingAnswer
        ensures { IsWaiting self.now result }
    {
        WaitingAnswer {
            status: WELL,
            requests: self.talk.requests(),
            weight: self.talk.waiting(),
        }
    }

    /// How many bytes of the side are held of a frame that isn't whole.
    pub fn held(&self, side: Side) -> HeldAnswer
        ensures { IsHeld self.now side result }
    {
        HeldAnswer {
            status: WELL,
            bytes: self.talk.begun(side),
        }
    }

    /// How the history so far ends.
    pub fn finish(&self) -> Ending
        ensures { IsFinish self.now result }
    {
        self.talk.finish()
    }

    /// The number of the client's frame that the side's kept frame answers; a client's answers none.
    fn answered(&self, side: Side) -> Option<u64>
        ensures { (kept_on side self.now ≡ [] → ⊥) → AnswersOn side self.now result }
    {
        match side {
            Side::Client => None,
            Side::Server => self.talk.answered(),
        }
    }

    /// The message of the side's kept frame.
    pub fn view(&self, side: Side) -> MessageAnswer
        ensures { IsView self.now side result }
    {
        let (size, frames) = (self.talk.held(side), self.talk.frames(side));
        MessageAnswer::of(self.talk.view(side), size, frames, self.answered(side))
    }

    /// Writes the line of the side's kept frame, if there is room for it.
    pub fn line(&mut self, side: Side, out: &mut [u8]) -> LineAnswer
        ensures same { self.new ≡ self.old }
        ensures line { IsLine self.old side out.old out.new result }
    {
        write_line(&mut self.line, self.talk.view(side), out)
    }

    /// Writes the fields of the side's kept frame, as far as there is room.
    pub fn fields(&self, side: Side, room: &mut [Field]) -> ReadAnswer
        ensures { IsFields self.now side room.old room.new result }
    {
        let _held = self.talk.held(side);
        read_shown(self.talk.view(side), room)
    }

    /// Writes the payload of the side's kept frame, if there is room for it.
    pub fn payload(&self, side: Side, out: &mut [u8]) -> LineAnswer
        ensures { IsPayload self.now side out.old out.new result }
    {
        LineAnswer::of(self.talk.payload(side), out)
    }

    /// Writes the line of the ending, if there is room for it.
    pub fn ending_line(&self, alloc: Global, out: &mut [u8]) -> LineAnswer
        ensures { IsEndingLine self.now out.old out.new result }
    {
        write_ending(alloc, self.finish(), out)
    }
}
