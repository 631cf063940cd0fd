//! `Passage`: a conversation that goes on where its profile ends, and whether each side's newest frame is a message.
ghost use Rattle.std.specs.Prelude.{◌≡◌, false, IfOk};
ghost use Rattle.zk_c.specs.Passage.{newest_on, answered_on};
ghost use Rattle.zk_c.specs.Passing.{Begins, IsRenewed, IsPassing, IsView, IsLine, IsFields, IsFinish, newest};
ghost use Rattle.zk_c.specs.PassingOn.{IsPass, IsOffer, IsResuming, IsPayload, IsWaiting, IsHeld, IsEndingLine};

use crate::answer::{HeldAnswer, LineAnswer, MessageAnswer, WaitingAnswer};
use crate::conversation::{write_ending, write_line};
use crate::number::{NO_MESSAGE, WELL};
use crate::read_answer::{ReadAnswer, read_shown};
use std::alloc::{AllocError, Global};
use std::marker::Model;
use zk_fields::Field;
use zk_talk::{Ending, Fault, Limits, Side};
use zk_through::{Passed, StepOutcome, Through};

/// A conversation, of which what its profile lacks is left out.
#[derive(Drop)]
pub struct Passage {
    through: Through,
    /// Whether the client's newest whole frame is a message.
    client: bool,
    /// Whether the server's is.
    server: bool,
    line: Vec<u8>,
}

impl Model for Passage {
    ghost use Rattle.zk_c.specs.Passage.{PassageState};

    ghost Value = { PassageState };

    ghost view = { λ p. record { through = p.through; client = p.client; server = p.server } };
}

/// Whether the side's newest whole frame is a message after a step of this outcome, if `was` says whether it was before.
fn newest(outcome: StepOutcome, was: bool) -> bool
    ensures { result ≡ newest outcome was }
{
    match outcome {
        StepOutcome::Within | StepOutcome::Full => was,
        StepOutcome::Message => true,
        StepOutcome::Asked(_) | StepOutcome::Answered(_) | StepOutcome::Unseen { .. } => false,
    }
}

/// A passage of which nothing has come; or one of a connection that is seen `late`.
fn begin(alloc: Global, limits: Limits, late: bool) -> Result<Through, AllocError>
    ensures limits { IfOk result (λ t. t.talk.limits ≡ limits) }
    ensures begun { IfOk result (λ t. Begins late (record { through = t; client = false; server = false })) }
{
    if late {
        Through::join(alloc, limits)
    } else {
        Through::new(alloc, limits)
    }
}

impl Passage {
    /// A conversation of which nothing has come; or one that is seen `late`.
    pub fn new(alloc: Global, limits: Limits, late: bool) -> Result<Self, AllocError>
        ensures limits { IfOk result (λ p. p.through.talk.limits ≡ limits) }
        ensures begun { IfOk result (Begins late) }
    {
        let through = begin(alloc, limits, late)?;
        let line = Vec::new(alloc);
        Ok(Passage {
            through,
            client: false,
            server: false,
            line,
        })
    }

    /// Begins anew with the same limits: a conversation of which nothing has come.
    pub fn renew(&mut self)
        ensures { IsRenewed self.old self.new }
    {
        self.through.renew();
        self.client = false;
        self.server = false;
    }

    /// As `step`.
    // `STEPS`: whether `step` calls it, and not `pass`. Each has an instance of its own, which is inlined; a call would cost a
    // step.
    fn advance<const STEPS: bool>(&mut self, side: Side, piece: &[u8]) -> Result<Passed, Fault>
        ensures { IsPassing self.old side piece.now result self.new }
    {
        let passed = match self.through.step(side, piece) {
            Ok(passed) => passed,
            Err(fault) => return Err(fault),
        };
        match side {
            Side::Client => self.client = newest(passed.outcome, self.client),
            Side::Server => self.server = newest(passed.outcome, self.server),
        }
        Ok(passed)
    }

    /// Takes the piece up to the end of the first frame that becomes whole, or all of it.
    ///
    /// # Errors
    ///
    /// Those of `Through::step`.
    pub fn step(&mut self, side: Side, piece: &[u8]) -> Result<Passed, Fault>
        ensures { IsPassing self.old side piece.now result self.new }
    {
        self.advance::<true>(side, piece)
    }

    /// The same, and the side shows no message and keeps no frame then.
    ///
    /// # Errors
    ///
    /// Those of `Through::step`.
    pub fn pass(&mut self, side: Side, piece: &[u8]) -> Result<Passed, Fault>
        ensures { IsPass self.old side piece.now result self.new }
    {
        let passed = self.advance::<false>(side, piece);
        self.through.let_go(side);
        passed
    }

    /// Takes the side's whole frame if it may come next; else nothing changes.
    ///
    /// # Errors
    ///
    /// Those of `Through::offer`.
    pub fn offer(&mut self, side: Side, frame: &[u8]) -> Result<Option<Passed>, Fault>
        ensures { IsOffer self.old side frame.now result self.new }
    {
        let offered = match self.through.offer(side, frame) {
            Ok(offered) => offered,
            Err(fault) => return Err(fault),
        };
        let Some(passed) = offered else {
            return Ok(None);
        };
        match side {
            Side::Client => self.client = newest(passed.outcome, self.client),
            Side::Server => self.server = newest(passed.outcome, self.server),
        }
        Ok(Some(passed))
    }

    /// Goes on after the refused frame, as a connection that is seen late. Returns how many bytes of the refused piece are
    /// the refused frame's.
    ///
    /// # Errors
    ///
    /// Those of `Through::resume`.
    pub fn resume(&mut self) -> Result<usize, Fault>
        ensures { IsResuming self.old result self.new }
    {
        self.through.resume()
    }

    /// Whether the side's newest whole frame is a message.
    fn is_newest(&self, side: Side) -> bool
        ensures { result ≡ newest_on side self.now }
    {
        match side {
            Side::Client => self.client,
            Side::Server => self.server,
        }
    }

    /// The number of the client's frame that the side's newest frame answers; a client's answers none.
    fn answered(&self, side: Side) -> Option<u64>
        ensures { result ≡ answered_on side self.now }
    {
        match side {
            Side::Client => None,
            Side::Server => self.through.answered(),
        }
    }

    /// The message of the side's newest whole frame.
    pub fn view(&self, side: Side) -> MessageAnswer
        ensures { IsView self.now side result }
    {
        if !self.is_newest(side) {
            return MessageAnswer::none(NO_MESSAGE);
        }
        let (size, frames) = (self.through.size(side), self.through.frames(side));
        MessageAnswer::of(self.through.view(side), size, frames, self.answered(side))
    }

    /// Writes the line of that message, if there is room for it.
    pub fn line(&mut self, side: Side, out: &mut [u8]) -> LineAnswer
        ensures same { self.new ≡ self.old }
        ensures line { IsLine self.old side out.old out.new result }
    {
        if !self.is_newest(side) {
            return LineAnswer::none(NO_MESSAGE);
        }
        write_line(&mut self.line, self.through.view(side), out)
    }

    /// Writes the fields of that message, as far as there is room.
    pub fn fields(&self, side: Side, room: &mut [Field]) -> ReadAnswer
        ensures { IsFields self.now side room.old room.new result }
    {
        if !self.is_newest(side) {
            return ReadAnswer::none(NO_MESSAGE);
        }
        let _size = self.through.size(side);
        read_shown(self.through.view(side), room)
    }

    /// Writes the payload of the frame that the side's last step left out or passed over, or else of its newest message, if
    /// there is room for it.
    pub fn payload(&self, side: Side, out: &mut [u8]) -> LineAnswer
        ensures { IsPayload self.now side out.old out.new result }
    {
        if let Some(left) = self.through.left_out(side) {
            return LineAnswer::of(Some(left), out);
        }
        if !self.is_newest(side) {
            return LineAnswer::none(NO_MESSAGE);
        }
        LineAnswer::of(self.through.payload(side), out)
    }

    /// How many requests wait for their replies, those left out too.
    pub fn waiting(&self) -> WaitingAnswer
        ensures { IsWaiting self.now result }
    {
        WaitingAnswer {
            status: WELL,
            requests: self.through.requests(),
            weight: self.through.waiting(),
        }
    }

    /// How many bytes of the side are held of a frame that isn't whole, or is refused.
    pub fn held(&self, side: Side) -> HeldAnswer
        ensures { IsHeld self.now side result }
    {
        HeldAnswer {
            status: WELL,
            bytes: self.through.held(side),
        }
    }

    /// How the conversation so far ends.
    pub fn finish(&self) -> Ending
        ensures { IsFinish self.now result }
    {
        self.through.finish()
    }

    /// Writes the line of the ending, if there is room for it.
    pub fn ending_line(&self, alloc: Global, out: &mut [u8]) -> LineAnswer
        ensures { IsEndingLine self.now out.old out.new result }
    {
        write_ending(alloc, self.finish(), out)
    }
}
