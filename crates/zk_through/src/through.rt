//! `Through`: a conversation, with what its profile lacks left out.
ghost use Rattle.std.specs.Prelude.{◌≡◌, ◌≤◌, ◌<◌, ◌+◌, ◌-◌, ℕ, List, [], length, true, false, None, Some, Err, OnOk, OnErr, IfOk, IfErr, MatchOption};
ghost use Rattle.zk_frames.specs.Framing.{frame};
ghost use Rattle.zk_talk.specs.{declared.message.Fault.Fault, declared.message.Ending.TheVariants.Refused, Fault.side_limit, Conversation.load, Good.clients, Good.servers, History.History, Sound.IsKnown, Streams.IsAtFrame, Streams.passed};
ghost use Rattle.zk_talk.specs.declared.message.Side.TheVariants.{Client, Server};
ghost use Rattle.zk_talk.specs.{Held.Message, Stands.Stands, Stands.WhereItStands, Stands.kept_on, Ending.unwelcomed, Viewed.Leaves, Viewed.Shows, Viewed.other_side};
ghost use Rattle.zk_through.specs.{Came.Came, declared.through.Passed.Passed, declared.through.StepOutcome.StepOutcome, Turns.HaveRoom, Turns.left_out};
ghost use Rattle.zk_through.specs.Runs.{ThroughState, HasOutcome, IsRefused, IsTold, IsNotTold, IsKeptAt, IsNeverFull, IsEndOf, Runs, WaitsAfter, KeepsTalk, KeepsWaiting, KeepsNothing, KeepsNone, dropped, silenced, stream_on, left_on, LeavesSide};

use crate::fate::{ClientFate, ServerFate, client_fate, server_fate};
use crate::turn::Turn;
use crate::turns::Turns;
use std::alloc::{AllocError, Global};
use std::marker::Model;
use zk_jute::ItemFault;
use zk_talk::{Ending, Fault, Limits, MessageRef, Side, Stream, Talk, receive, refuse};

/// What became of the bytes that a step used.
#[derive(Clone, Copy, Debug, PartialEq, Eq)]
pub enum StepOutcome {
    /// No frame is whole, and all bytes were used.
    Within,
    /// A frame is whole: a message of the conversation.
    Message,
    /// A request is whole whose operation the profile lacks, or a multi with a part of a later profile.
    Asked(Turn),
    /// The reply to such a request, the oldest that waits, is whole.
    Answered(Turn),
    /// A reply is whole to a request that wasn't seen, with what its header says: see `Through::join`.
    Unseen { xid: i32, zxid: i64, err: i32 },
    /// With the client's frame more would wait than may: it is not taken, and nothing of the piece was used. Where
    /// nothing waits, the frame alone is too heavy.
    Full,
}

/// What a step took of a piece.
#[derive(Clone, Copy, Debug, PartialEq, Eq)]
pub struct Passed {
    /// The number of bytes of the piece that were used.
    pub used: usize,
    /// What became of them.
    pub outcome: StepOutcome,
}

impl Passed {
    pub(crate) fn of(used: usize, outcome: StepOutcome) -> Passed
        ensures { result ≡ record { used = used; outcome = outcome } }
    {
        Passed { used, outcome }
    }
}

/// A conversation of which a talk gets what its profile has.
#[derive(Drop)]
pub struct Through {
    pub(crate) talk: Talk,
    pub(crate) client: Stream,
    pub(crate) server: Stream,
    pub(crate) turns: Turns,
    pub(crate) limits: Limits,
    /// Whether the connection is seen late.
    pub(crate) late: bool,
    /// Whether a reply of the plain lane came to a request that was seen, if the connection is seen late.
    pub(crate) matched: bool,
    /// The number of the client's frame that the server's newest frame answers.
    pub(crate) answered: Option<u64>,
    pub(crate) fault: Option<Fault>,
}

impl Model for Through {
    ghost use Rattle.std.specs.Prelude.{◌≡◌};
    ghost use Rattle.zk_talk.specs.Sound.{IsSide, IsKnown};
    ghost use Rattle.zk_through.specs.Turns.{HaveRoom};
    ghost use Rattle.zk_through.specs.Runs.{ThroughState};

    ghost Value = { ThroughState };

    ghost view = { λ t. record { talk = t.talk; client = t.client; server = t.server; turns = t.turns; late = t.late; matched = t.matched; answered = t.answered; fault = t.fault } };

    ghost invariant = { λ t. (t.talk.limits ≡ t.limits) × IsSide t.limits.client t.fault t.client × IsSide t.limits.server t.fault t.server × IsKnown t.fault × HaveRoom t.limits.waiting t.turns };
}

/// Gives the talk the side's whole frame, whose last `new` bytes are new. A refusal stays, at the side's own frame
/// and offset.
fn tell(
    talk: &mut Talk,
    kept: &mut Option<Fault>,
    side: Side,
    stream: &mut Stream,
    new: usize,
) -> Result<(), Fault>
    requires at { IsAtFrame stream.old new }
    requires limit { stream.old.limit ≡ side_limit talk.old.limits side }
    ensures limits { talk.new.limits ≡ talk.old.limits }
    ensures ok { OnOk result ((p : List ℕ) → stream.old.held ≡ frame p → IsTold talk.old side p talk.new) }
    ensures passed { OnOk result ((stream.new ≡ passed stream.old new) × (kept.new ≡ kept.old)) }
    ensures err { IfErr result (λ e. (p : List ℕ) → stream.old.held ≡ frame p → IsNotTold talk.old side p e) }
    ensures waits { OnErr result (KeepsTalk talk.old talk.new) }
    ensures other { Leaves (other_side side) talk.old talk.new }
    ensures known { IsKnown kept.old → IsKnown kept.new }
    ensures told { IfErr result (λ e. IsKeptAt side stream.old new e kept.new) }
    ensures same { OnErr result (stream.new ≡ stream.old) }
{
    match talk.step(side, stream.frame()) {
        Ok(_stepped) => {
            stream.pass(new);
            Ok(())
        }
        Err(fault) => {
            let (place, reason) = (fault.place, fault.reason);
            Err(refuse(kept, side, stream, new, ItemFault { place, reason }))
        }
    }
}

/// 1 if a connect request has no reply, else 0.
fn unwelcomed(talk: &Talk) -> u32
    ensures value { (h : History) (M : List Message) (st : Stands talk.now h M) → result ≡ unwelcomed st.conversation.client st.conversation.server }
    ensures most { result ≤ 1 }
{
    if talk.frames(Side::Client) == 0 {
        return 0;
    }
    if talk.frames(Side::Server) == 0 { 1 } else { 0 }
}

impl Through {
    /// A conversation of which nothing has come. Memory for a frame of each side twice, and for all that may wait, is
    /// allocated now.
    ///
    /// # Errors
    ///
    /// `AllocError` if it is refused.
    pub fn new(alloc: Global, limits: Limits) -> Result<Self, AllocError>
        ensures limits { IfOk result (λ t. t.talk.limits ≡ limits) }
        ensures late { IfOk result (λ t. t.late ≡ false) }
        ensures runs { IfOk result (λ t. Runs t [] [] [] []) }
        ensures none { IfOk result KeepsNothing }
    {
        let talk = Talk::new(alloc, limits)?;
        let client = Stream::new(alloc, limits.client())?;
        let server = Stream::new(alloc, limits.server())?;
        let turns = Turns::new(alloc, limits.waiting())?;
        Ok(Through {
            talk,
            client,
            server,
            turns,
            limits,
            late: false,
            matched: false,
            answered: None,
            fault: None,
        })
    }

    /// Takes the client's piece up to the end of the first frame that becomes whole, or all of it.
    #[inline(always)]
    fn client_step(&mut self, piece: &[u8]) -> Result<Passed, Fault>
        requires good { self.old.fault ≡ None }
        requires dropped { self.old.client.kept ≡ [] }
        ensures limits { self.new.talk.limits ≡ self.old.talk.limits }
        ensures late { self.new.late ≡ self.old.late }
        ensures ok { IfOk result (λ s. HasOutcome self.old Client piece.now s.used s.outcome self.new) }
        ensures err { IfErr result (λ e. IsRefused self.old Client piece.now e self.new) }
        ensures waits { OnErr result (KeepsWaiting self.old self.new) }
        ensures other { LeavesSide Server self.old self.new }
        ensures left { OnErr result (self.new.client.kept ≡ []) }
        ensures frames { OnErr result (self.new.client.count ≡ self.old.client.count) }
        ensures sizes { OnErr result (self.new.client.size ≡ self.old.client.size) }
        ensures answered { self.new.answered ≡ self.old.answered }
    {
        let side = Side::Client;
        let received = receive(&mut self.fault, side, &mut self.client, piece)?;
        let Some(new) = received else {
            return Ok(Passed::of(piece.len(), StepOutcome::Within));
        };
        let (number, payload) = (self.client.count(), self.client.payload());
        match client_fate(self.limits, &self.talk, &self.turns, number, payload) {
            ClientFate::Full => {
                self.client.take_back(new);
                Ok(Passed::of(0, StepOutcome::Full))
            }
            ClientFate::LeftOut(turn) => {
                self.turns.leave(turn);
                self.client.keep(new);
                Ok(Passed::of(new, StepOutcome::Asked(turn)))
            }
            ClientFate::Told(turn) => {
                tell(&mut self.talk, &mut self.fault, side, &mut self.client, new)?;
                self.turns.ask(turn);
                Ok(Passed::of(new, StepOutcome::Message))
            }
        }
    }

    /// Takes the server's piece up to the end of the first frame that becomes whole, or all of it.
    #[inline(always)]
    fn server_step(&mut self, piece: &[u8]) -> Result<Passed, Fault>
        requires good { self.old.fault ≡ None }
        requires dropped { self.old.server.kept ≡ [] }
        ensures limits { self.new.talk.limits ≡ self.old.talk.limits }
        ensures late { self.new.late ≡ self.old.late }
        ensures ok { IfOk result (λ s. HasOutcome self.old Server piece.now s.used s.outcome self.new) }
        ensures err { IfErr result (λ e. IsRefused self.old Server piece.now e self.new) }
        ensures waits { OnErr result (KeepsWaiting self.old self.new) }
        ensures other { LeavesSide Client self.old self.new }
        ensures left { OnErr result (self.new.server.kept ≡ []) }
        ensures frames { OnErr result (self.new.server.count ≡ self.old.server.count) }
        ensures sizes { OnErr result (self.new.server.size ≡ self.old.server.size) }
        ensures answered { OnErr result (self.new.answered ≡ self.old.answered) }
    {
        let side = Side::Server;
        let received = receive(&mut self.fault, side, &mut self.server, piece)?;
        let Some(new) = received else {
            return Ok(Passed::of(piece.len(), StepOutcome::Within));
        };
        let (number, payload) = (self.server.count(), self.server.payload());
        match server_fate(self.late, &mut self.matched, &self.turns, number, payload) {
            ServerFate::Unseen { xid, zxid, err } => {
                self.server.keep(new);
                Ok(Passed::of(new, StepOutcome::Unseen { xid, zxid, err }))
            }
            ServerFate::Refused(reason) => {
                let item = ItemFault::at(0, reason);
                Err(refuse(&mut self.fault, side, &self.server, new, item))
            }
            ServerFate::LeftOut(turn) => {
                self.turns.answer(turn.xid);
                self.server.keep(new);
                self.answered = Some(turn.frame);
                Ok(Passed::of(new, StepOutcome::Answered(turn)))
            }
            ServerFate::Told { xid, frame } => {
                tell(&mut self.talk, &mut self.fault, side, &mut self.server, new)?;
                self.turns.reply(xid);
                self.answered = frame;
                Ok(Passed::of(new, StepOutcome::Message))
            }
        }
    }

    /// Drops the side's frame that was left out last.
    pub(crate) fn drop_kept(&mut self, side: Side)
        ensures { self.new ≡ dropped side self.old }
    {
        match side {
            Side::Client => self.client.drop_kept(),
            Side::Server => self.server.drop_kept(),
        }
    }

    /// `step`; but a refused side shows what it showed, unless the talk refused it.
    #[tactic(auto, using(crate::proofs::Given::leaves_then, crate::proofs::Given::waits_then))]
    #[inline(always)]
    fn advance(&mut self, side: Side, piece: &[u8]) -> Result<Passed, Fault>
        ensures limits { self.new.talk.limits ≡ self.old.talk.limits }
        ensures late { self.new.late ≡ self.old.late }
        ensures ok { IfOk result (λ s. HasOutcome self.old side piece.now s.used s.outcome self.new) }
        ensures err { IfErr result (λ e. IsRefused self.old side piece.now e self.new) }
        ensures room { IfErr result (λ e. IsNeverFull self.old e) }
        ensures waits { OnErr result (KeepsWaiting self.old self.new) }
        ensures other { LeavesSide (other_side side) self.old self.new }
        ensures left { OnErr result (left_on side self.new ≡ []) }
        ensures frames { OnErr result ((stream_on side self.new).count ≡ (stream_on side self.old).count) }
        ensures sizes { OnErr result ((stream_on side self.new).size ≡ (stream_on side self.old).size) }
        ensures answered { OnErr result (self.new.answered ≡ self.old.answered) }
        ensures kept { (f : Fault) → self.old.fault ≡ Some f → (result ≡ Err f) × (self.new ≡ dropped side self.old) }
    {
        self.drop_kept(side);
        if let Some(fault) = self.fault {
            return Err(fault);
        }
        match side {
            Side::Client => self.client_step(piece),
            Side::Server => self.server_step(piece),
        }
    }

    /// Takes the piece up to the end of the first frame that becomes whole, or all of it. The talk gets the frame, or
    /// it is left out and kept until the side's next call. Allocates nothing.
    ///
    /// # Errors
    ///
    /// Why the frame is refused, at the side's own frame and offset, those left out counted; never `QueueFull`. It
    /// stays, and each later call returns it and uses nothing.
    #[inline(always)]
    pub fn step(&mut self, side: Side, piece: &[u8]) -> Result<Passed, Fault>
        ensures limits { self.new.talk.limits ≡ self.old.talk.limits }
        ensures late { self.new.late ≡ self.old.late }
        // What is used goes on with the history: by a message, by a frame that is left out or passed over, or by none.
        ensures ok { IfOk result (λ s. HasOutcome self.old side piece.now s.used s.outcome self.new) }
        // A refusal is that of the frame: the talk's own, or of its length, its turn or the stream.
        ensures err { IfErr result (λ e. IsRefused self.old side piece.now e self.new) }
        // It is never that too much waits.
        ensures room { IfErr result (λ e. IsNeverFull self.old e) }
        // What waits after it is what waited before the frame.
        ensures waits { OnErr result (KeepsWaiting self.old self.new) }
        // The other side's frames stay as they are, and show what they show.
        ensures other { LeavesSide (other_side side) self.old self.new }
        // A refused side keeps and shows nothing, and its refused frame isn't counted.
        ensures none { OnErr result (KeepsNone side self.old self.new) }
        // A fault stays.
        ensures kept { (f : Fault) → self.old.fault ≡ Some f → (result ≡ Err f) × (self.new ≡ silenced side (dropped side self.old)) }
    {
        match self.advance(side, piece) {
            Ok(passed) => Ok(passed),
            Err(fault) => {
                self.talk.drop_kept(side);
                Err(fault)
            }
        }
    }

    /// The message of the side's newest frame that the talk got, borrowed; `None` if it got none, or if the side's last
    /// step was refused.
    pub fn view(&self, side: Side) -> Option<MessageRef<'_>>
        ensures shown { MatchOption result (kept_on side self.now.talk ≡ []) (λ m. Shows self.now.talk side m) }
        ensures none { kept_on side self.now.talk ≡ [] → result ≡ None }
        ensures only { (m : Message) → Shows self.now.talk side m → result ≡ Some m }
    {
        self.talk.view(side)
    }

    /// How the bytes so far end, those left out too: whole, within a frame, or refused.
    pub fn finish(&self) -> Ending
        ensures runs { (h : History) (c k : Came) (M : List Message) (r : Runs self.now h c k M) → IsEndOf self.now r.all k result }
        ensures refused { (f : Fault) → self.now.fault ≡ Some f → result ≡ Refused f }
    {
        if let Some(fault) = self.fault {
            return Ending::Refused(fault);
        }
        let (frame, got) = (self.client.count(), self.client.held());
        if got > 0 {
            let side = Side::Client;
            return Ending::Cut { side, frame, got };
        }
        let (frame, got) = (self.server.count(), self.server.held());
        if got > 0 {
            let side = Side::Server;
            return Ending::Cut { side, frame, got };
        }
        let waiting = self.talk.requests() + self.turns.left();
        let unanswered = waiting + unwelcomed(&self.talk);
        Ending::Whole { unanswered }
    }

    /// Begins anew with the same limits: a conversation of which nothing has come, as `new` makes it. Allocates nothing.
    pub fn renew(&mut self)
        ensures limits { self.new.talk.limits ≡ self.old.talk.limits }
        ensures late { self.new.late ≡ false }
        ensures runs { Runs self.new [] [] [] [] }
        ensures none { KeepsNothing self.new }
    {
        self.talk.renew();
        self.client.renew();
        self.server.renew();
        self.turns.renew();
        self.late = false;
        self.matched = false;
        self.answered = None;
        self.fault = None;
    }
}
