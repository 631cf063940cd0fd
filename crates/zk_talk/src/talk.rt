//! `Talk`: the conversation, judged as its bytes come.
ghost use Rattle.std.specs.Prelude.{false, true, ◌≡◌, ◌≢◌, ◌≤◌, ◌+◌, List, [], ◌∷◌, length, take, Some, None, Err, IsOk, IfOk, IfErr, OnErr, IfSome, IfNone, MatchOption};
ghost use Rattle.std.specs.Option.{option_to_list};
ghost use Rattle.zk_jute.specs.declared.fault.Reason.TheVariants.{NoMemory};
ghost use Rattle.zk_frames.specs.Framing.{frame};
ghost use Rattle.zk_talk.specs.{declared.message.Fault.Fault, Held.Message, declared.message.Ending.TheVariants.Refused, History.History, Conversation.load, Fault.side_limit, Fault.rest_on, Ending.IsEnding, Numbers.NewestAnswers};
ghost use Rattle.zk_talk.specs.{declared.message.Side.TheVariants.Server, Refused.TellsRefusedBody};
ghost use Rattle.zk_talk.specs.Stands.{held_on, kept_on, frames_on, Stands, Refuses, WhereItStands, WhereItRefuses, WhereKept};
ghost use Rattle.zk_records.specs.declared.op.Op.TheVariants as ops;
ghost use Rattle.zk_answers.specs.declared.layout.Layout.TheVariants as layouts;
ghost use Rattle.zk_talk.specs.{Viewed.Shows, Viewed.Leaves, Viewed.other_side, Taking.TakesOn, Taking.StepsOn, Taking.IsRefused, Taking.Fails, Taking.dropped};

use crate::limits::Limits;
use crate::message::{Ending, Fault, Message, MessageOf, MessageRef, Side};
use crate::refused::{answered_body, asked_body, is_in_body};
use crate::replied::Replied;
use crate::stream::Stream;
use crate::view::{shown_client, shown_server};
use std::alloc::{AllocError, Global};
use std::marker::Model;
use zk_answers::Layout;
use zk_waiting::Awaited;

/// What `Talk::take` took of a piece.
#[derive(Drop)]
pub struct Taken {
    /// The number of bytes of the piece that were used.
    pub used: usize,
    /// The message that the last of them made whole.
    pub message: Option<Message>,
}

/// What `Talk::step` took of a piece.
#[derive(Clone, Copy, Debug, PartialEq, Eq)]
pub struct Stepped {
    /// The number of bytes of the piece that were used.
    pub used: usize,
    /// Whether the last of them made a frame whole: a message of the conversation.
    pub whole: bool,
}

/// Ends where the side's stream is within a frame.
macro_rules! cut {
    ($talk:ident.$stream:ident, $side:expr) => {{
        let got = $talk.$stream.held();
        if got > 0 {
            let frame = $talk.$stream.count();
            return Ending::Cut {
                side: $side,
                frame,
                got,
            };
        }
    }};
}

/// What is known of a conversation after the bytes so far. The bytes of both sides come in any pieces; a reply may not
/// end before its request has ended.
#[derive(Drop)]
pub struct Talk {
    pub(crate) alloc: Global,
    pub(crate) limits: Limits,
    pub(crate) client: Stream,
    pub(crate) server: Stream,
    pub(crate) waiting: Awaited,
    /// The request that the server's kept frame replies to; `None` if that is no reply.
    pub(crate) answered: Option<Replied>,
    pub(crate) fault: Option<Fault>,
}

impl Model for Talk {
    ghost use Rattle.std.specs.Prelude.{◌≡◌};
    ghost use Rattle.zk_talk.specs.Stands.{TalkState};
    ghost use Rattle.zk_talk.specs.Sound.{IsSide, IsKnown};
    ghost use Rattle.zk_talk.specs.Viewed.{ClientKeeps, ServerKeeps};

    ghost Value = { TalkState };

    ghost view = { λ t. record { limits = t.limits; client_held = t.client.held; server_held = t.server.held; client_kept = t.client.kept; server_kept = t.server.kept; waiting = t.waiting; client_frames = t.client.count; server_frames = t.server.count; client_size = t.client.size; server_size = t.server.size; answered = t.answered; fault = t.fault } };

    ghost invariant = { λ t. IsSide t.limits.client t.fault t.client × IsSide t.limits.server t.fault t.server × (t.waiting.max ≡ t.limits.waiting) × IsKnown t.fault × ClientKeeps t.client × ServerKeeps t.server t.answered };
}

impl Talk {
    /// A conversation of which nothing has come.
    ///
    /// # Errors
    ///
    /// `AllocError` if memory for the frames and the requests that wait is refused.
    pub fn new(alloc: Global, limits: Limits) -> Result<Self, AllocError>
        ensures limits { IfOk result (λ t. t.limits ≡ limits) }
        ensures stands { IfOk result (λ t. Stands t [] []) }
        ensures none { IfOk result (λ t. (t.client_kept ≡ []) × (t.server_kept ≡ [])) }
    {
        let client = Stream::new(alloc, limits.client())?;
        let server = Stream::new(alloc, limits.server())?;
        let waiting = Awaited::new(alloc, limits.waiting())?;
        Ok(Talk {
            alloc,
            limits,
            client,
            server,
            waiting,
            answered: None,
            fault: None,
        })
    }

    /// Begins anew with the same limits: a conversation of which nothing has come, whatever came before. Allocates nothing.
    pub fn renew(&mut self)
        ensures limits { self.new.limits ≡ self.old.limits }
        ensures stands { Stands self.new [] [] }
        ensures none { (self.new.client_kept ≡ []) × (self.new.server_kept ≡ []) }
    {
        self.client.renew();
        self.server.renew();
        self.waiting.renew();
        self.answered = None;
        self.fault = None;
    }

    /// Drops the frame that the side keeps, if it keeps one. Whatever comes then is judged as it would have been.
    #[inline(always)]
    pub fn drop_kept(&mut self, side: Side)
        ensures { self.new ≡ dropped side self.old }
    {
        match side {
            Side::Client => self.client.drop_kept(),
            Side::Server => self.server.drop_kept(),
        }
    }

    /// Steps over the whole frame at the front of `piece`, if none is begun and it is seen at once that it may come next, and
    /// returns the number of its bytes; `None`: undecided, and only what was kept on the side is dropped.
    #[inline(always)]
    fn step_fast(&mut self, side: Side, piece: &[u8]) -> Option<usize>
        ensures limits { self.new.limits ≡ self.old.limits }
        ensures some { IfSome result (λ used. StepsOn self.old side piece.now used true self.new) }
        ensures good { IfSome result (λ used. self.old.fault ≡ None) }
        ensures other { Leaves (other_side side) self.old self.new }
        ensures same { IfNone result (self.new ≡ dropped side self.old) }
    {
        self.drop_kept(side);
        match self.fault {
            None => self.step_whole_frame(side, piece),
            Some(_) => None,
        }
    }

    /// Passes the whole frame at the front of `piece`, as `step_fast` steps over it, and keeps nothing; `None`: undecided.
    #[inline(always)]
    pub(crate) fn pass_fast(&mut self, side: Side, piece: &[u8]) -> Option<usize>
        ensures limits { self.new.limits ≡ self.old.limits }
        ensures some { IfSome result (λ used. (m : Message) × TakesOn self.old side piece.now used (m ∷ []) self.new) }
        ensures whole { IfSome result (λ used. (held_on side self.new ≡ []) × (self.old.fault ≡ None)) }
        ensures other { Leaves (other_side side) self.old self.new }
        ensures dropped { kept_on side self.new ≡ [] }
        ensures same { IfNone result (self.new ≡ dropped side self.old) }
    {
        self.drop_kept(side);
        match self.fault {
            None => self.pass_whole_frame(side, piece),
            Some(_) => None,
        }
    }

    /// `step` of any piece, where no frame is kept on the side. If it is refused its fault stays, and the result is void.
    // A call of its own whose result is in registers: where `step` is inlined, most frames have no result in memory.
    #[inline(never)]
    pub(crate) fn step_slow(&mut self, side: Side, piece: &[u8]) -> Stepped
        requires dropped { kept_on side self.old ≡ [] }
        ensures limits { self.new.limits ≡ self.old.limits }
        ensures ok { self.new.fault ≡ None → StepsOn self.old side piece.now result.used result.whole self.new }
        ensures exact { self.new.fault ≡ None → result.whole ≡ false → result.used ≡ length piece.now }
        ensures other { Leaves (other_side side) self.old self.new }
        ensures err { (f : Fault) → self.new.fault ≡ Some f → (f.reason ≢ NoMemory) × IsRefused self.old side piece.now f self.new }
        ensures none { (f : Fault) → self.new.fault ≡ Some f → kept_on side self.new ≡ [] }
        ensures kept { (f : Fault) → self.old.fault ≡ Some f → self.new ≡ self.old }
    {
        let void = Stepped {
            used: 0,
            whole: false,
        };
        if let Some(_fault) = self.fault {
            return void;
        }
        match self.step_piece(side, piece) {
            Ok(stepped) => stepped,
            Err(_refused) => void,
        }
    }

    /// Takes the piece up to the end of the first frame that becomes whole, or all of it. A whole frame is judged in place
    /// and kept until the side's next call; nothing is allocated.
    ///
    /// # Errors
    ///
    /// The fault of the history so far with the piece. It stays, and each later call returns it and uses nothing. Never
    /// `NoMemory`.
    #[inline(always)]
    pub fn step(&mut self, side: Side, piece: &[u8]) -> Result<Stepped, Fault>
        ensures limits { self.new.limits ≡ self.old.limits }
        // What is used goes on with the history; a frame that it makes whole is the newest message's.
        ensures ok { IfOk result (λ s. StepsOn self.old side piece.now s.used s.whole self.new) }
        // With no whole frame all was used.
        ensures exact { IfOk result (λ s. s.whole ≡ false → s.used ≡ length piece.now) }
        // The other side's frame stays as it is, and shows what it shows.
        ensures other { Leaves (other_side side) self.old self.new }
        // A refusal is the history's fault, and never that memory was refused.
        ensures err { IfErr result (λ e. (e.reason ≢ NoMemory) × IsRefused self.old side piece.now e self.new) }
        // A refused side keeps nothing.
        ensures none { OnErr result (kept_on side self.new ≡ []) }
        // A fault stays.
        ensures kept { (f : Fault) → self.old.fault ≡ Some f → (result ≡ Err f) × (self.new ≡ dropped side self.old) }
    {
        if let Some(used) = self.step_fast(side, piece) {
            return Ok(Stepped { used, whole: true });
        }
        let stepped = self.step_slow(side, piece);
        if let Some(fault) = self.fault {
            return Err(fault);
        }
        Ok(stepped)
    }

    /// Takes the piece up to the end of the first frame that becomes whole, or all of it, and returns the message of a whole
    /// frame, owned.
    ///
    /// # Errors
    ///
    /// The fault of the history so far with the piece. It stays, and each later call returns it and uses nothing.
    /// `NoMemory` in place of a message whose memory was refused: the talk is then as before the call.
    pub fn take(&mut self, side: Side, piece: &[u8]) -> Result<Taken, Fault>
        ensures limits { self.new.limits ≡ self.old.limits }
        // What is used goes on with the history, and what it makes whole is the newest message.
        ensures ok { IfOk result (λ t. TakesOn self.old side piece.now t.used (option_to_list t.message) self.new) }
        // With no message all was used, and with one nothing past its frame.
        ensures exact { IfOk result (λ t. MatchOption t.message (t.used ≡ length piece.now) (λ m. held_on side self.new ≡ [])) }
        // Refused memory comes in place of a message and changes nothing; another refusal is the history's fault.
        ensures err { IfErr result (λ e. Fails self.old side piece.now e self.new) }
        // What a step kept on the side is dropped; the other side's frame stays as it is, and shows what it shows.
        ensures dropped { kept_on side self.new ≡ [] }
        ensures other { Leaves (other_side side) self.old self.new }
        // An empty piece allocates nothing.
        ensures empty { length piece.now ≡ 0 → self.old.fault ≡ None → IsOk result }
        // A fault stays.
        ensures kept { (f : Fault) → self.old.fault ≡ Some f → (result ≡ Err f) × (self.new ≡ dropped side self.old) }
    {
        self.drop_kept(side);
        if let Some(fault) = self.fault {
            return Err(fault);
        }
        self.piece(side, piece)
    }

    /// The message of the frame that the side keeps: its texts and blobs are borrowed from the frame, its lists walked by
    /// iterators, and nothing is allocated. `Some` exactly if the side's last call that wasn't a refused offer was a step that
    /// made a frame whole, or an offer.
    pub fn view(&self, side: Side) -> Option<MessageRef<'_>>
        ensures shown { MatchOption result (kept_on side self.now ≡ []) (λ m. Shows self.now side m) }
        ensures none { kept_on side self.now ≡ [] → result ≡ None }
        ensures only { (m : Message) → Shows self.now side m → result ≡ Some m }
    {
        match side {
            Side::Client => {
                let payload = self.client.kept_payload()?;
                Some(MessageOf::Client(shown_client(self.client.count(), payload)))
            }
            Side::Server => {
                let payload = self.server.kept_payload()?;
                Some(MessageOf::Server(shown_server(self.server.count(), self.answered, payload)))
            }
        }
    }

    /// The number, from 0, of the client's frame that the frame which the server keeps answers: 0 for the reply to the
    /// connect request. `None` if it is an event, or if none is kept.
    pub fn answered(&self) -> Option<u64>
        ensures none { kept_on Server self.now ≡ [] → result ≡ None }
        // A reply answers the request that has as many of its lane before it as the reply has replies.
        ensures stands { WhereItStands self.now (λ v client_rest server_rest. WhereKept self.now (NewestAnswers v result)) }
        ensures refuses { WhereItRefuses self.now (λ v. WhereKept self.now (NewestAnswers v result)) }
    {
        let _payload = self.server.kept_payload()?;
        match self.answered {
            Some(request) => Some(request.frame),
            None if self.server.count() == 1 => Some(0),
            None => None,
        }
    }

    /// The payload of the frame that the side keeps; `None` if none is kept.
    pub fn payload(&self, side: Side) -> Option<&[u8]>
        ensures { MatchOption result (kept_on side self.now ≡ []) (λ p. kept_on side self.now ≡ frame p.now) }
    {
        match side {
            Side::Client => self.client.kept_payload(),
            Side::Server => self.server.kept_payload(),
        }
    }

    /// The number of the side's frames that were whole, a kept one too.
    pub fn frames(&self, side: Side) -> u64
        ensures { result ≡ frames_on side self.now }
    {
        match side {
            Side::Client => self.client.count(),
            Side::Server => self.server.count(),
        }
    }

    /// How the history so far ends.
    pub fn finish(&self) -> Ending
        ensures stands { (h : History) (M : List Message) → Stands self.now h M → IsEnding self.now.limits h result }
        ensures refuses { (h : History) (M : List Message) (f : Fault) → Refuses self.now h M f → result ≡ Refused f }
    {
        if let Some(fault) = self.fault {
            return Ending::Refused(fault);
        }
        cut!(self.client, Side::Client);
        cut!(self.server, Side::Server);
        let asks = self.waiting.count();
        if self.client.count() > 0 && self.server.count() == 0 {
            Ending::Whole {
                unanswered: asks + 1,
            }
        } else {
            Ending::Whole { unanswered: asks }
        }
    }

    /// The layout and the bytes of the body in which the talk's fault is found: those after the header of a request, of an
    /// event, or of a reply with err 0 to another operation than multi. `None` if it is found elsewhere, in a side's frame 0,
    /// or if the talk has no fault.
    pub fn refused_body(&self) -> Option<(Layout, &[u8])>
        ensures stands { (h : History) (M : List Message) → Stands self.now h M → result ≡ None }
        ensures refuses { (h : History) (M : List Message) (f : Fault) (r : Refuses self.now h M f) → TellsRefusedBody self.now.limits h f r.is result }
        ensures small { IfSome result (λ b. length b.1.now ≤ 16777216) }
        ensures known { IfSome result (λ b. b.0 ≢ layouts.Answered ops.Multi) }
    {
        let fault = self.fault?;
        if !is_in_body(fault) {
            return None;
        }
        match fault.side {
            Side::Client => asked_body(self.client.refused_payload()?),
            Side::Server => answered_body(self.server.refused_payload()?, &self.waiting),
        }
    }

    /// The number of the side's bytes that are held: those of the frame that isn't whole, or of the frame that a step kept,
    /// its length included.
    pub fn held(&self, side: Side) -> u32
        ensures value { result ≡ length (held_on side self.now) + length (kept_on side self.now) }
        // If no frame is kept it is the length of the side's beginning.
        ensures stands { WhereItStands self.now (λ v client_rest server_rest. result ≡ length (rest_on side client_rest server_rest) + length (kept_on side self.now)) }
        ensures most { result ≤ 4 + side_limit self.now.limits side }
    {
        match side {
            Side::Client => self.client.held_and_kept(),
            Side::Server => self.server.held_and_kept(),
        }
    }

    /// The weight of the requests that wait for their replies: 1 each, and 1 more for each part of a multi. After a fault
    /// those before the byte that decided it.
    pub fn waiting(&self) -> u32
        ensures stands { WhereItStands self.now (λ v client_rest server_rest. result ≡ load v.client v.server) }
        ensures refuses { WhereItRefuses self.now (λ v. result ≡ load v.client v.server) }
        ensures most { result ≤ self.now.limits.waiting }
    {
        self.waiting.weight()
    }
}
