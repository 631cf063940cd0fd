//! What a talk does with a piece of the client's, and with one of the server's.
ghost use Rattle.std.specs.Prelude.{false, true, ◌≡◌, ◌≢◌, [], ◌∷◌, length, None, Some, IsOk, IfOk, IfErr, OnErr, IfSome, IfNone, MatchOption};
ghost use Rattle.std.specs.Option.{option_to_list};
ghost use Rattle.zk_jute.specs.declared.fault.Reason.TheVariants.{NoMemory};
ghost use Rattle.zk_talk.specs.{Held.Message, Stands.held_on, Stands.kept_on, Viewed.Leaves, Viewed.other_side, Taking.TakesOn, Taking.StepsOn, Taking.IsRefused, Taking.Fails};

use crate::frame::{client_frame, keep_client, keep_server, server_frame};
use crate::judge::{await_ask, settle};
use crate::message::{Fault, Message, Side};
use crate::receive_piece::{receive, refuse};
use crate::stream::carried;
use crate::talk::{Stepped, Taken, Talk};
use zk_jute::Undecided;

/// What a piece gives: `$none` where it makes no frame whole; else the frame is judged, and it gives `$told`, or the fault.
macro_rules! judged {
    (
        $talk:ident.$stream:ident, $side:ident, $piece:ident, $judge:ident($($given:expr),*),
        $made:ident.$field:ident: $none:expr, $found:pat => $told:expr
    ) => {{
        let Some(used) = receive(&mut $talk.fault, $side, &mut $talk.$stream, $piece)? else {
            return Ok($made {
                used: $piece.len(),
                $field: $none,
            });
        };
        match $judge($($given,)* &mut $talk.$stream, &mut $talk.waiting, used) {
            Ok($found) => Ok($made {
                used,
                $field: $told,
            }),
            Err(item) => Err(refuse(&mut $talk.fault, $side, &$talk.$stream, used, item)),
        }
    }};
}

/// The whole frame at the front of a piece is passed, if its payload is judged to be one that may come next.
macro_rules! passed {
    ($talk:ident.$stream:ident, $piece:ident => $judge:ident($($given:expr),*)) => {{
        let used = $talk.$stream.front($piece)?;
        match $judge::<Undecided>($($given,)* &mut $talk.waiting, carried($piece, used)) {
            Ok(_told) => {
                $talk.$stream.pass_whole(used);
                Some(used)
            }
            Err(_undecided) => None,
        }
    }};
}

impl Talk {
    /// `take` of a piece, before any fault and where no frame is kept on the side.
    pub(crate) fn piece(&mut self, side: Side, piece: &[u8]) -> Result<Taken, Fault>
        requires good { self.old.fault ≡ None }
        requires dropped { kept_on side self.old ≡ [] }
        ensures limits { self.new.limits ≡ self.old.limits }
        ensures ok { IfOk result (λ t. TakesOn self.old side piece.now t.used (option_to_list t.message) self.new) }
        ensures exact { IfOk result (λ t. MatchOption t.message (t.used ≡ length piece.now) (λ m. held_on side self.new ≡ [])) }
        ensures other { Leaves (other_side side) self.old self.new }
        ensures err { IfErr result (λ e. Fails self.old side piece.now e self.new) }
        ensures dropped { kept_on side self.new ≡ [] }
        ensures empty { length piece.now ≡ 0 → IsOk result }
    {
        let alloc = self.alloc;
        match side {
            Side::Client => judged!(
                self.client, side, piece, client_frame(alloc, self.limits.profile()),
                Taken.message: None, frame => Some(Message::Client(frame))
            ),
            Side::Server => judged!(
                self.server, side, piece, server_frame(alloc, self.client.count()),
                Taken.message: None, frame => Some(Message::Server(frame))
            ),
        }
    }

    /// Keeps the side's whole frame at the front of `piece` if none is begun and it may come next, and returns the number of
    /// its bytes; `None`: undecided, and nothing changed.
    // Most frames come so; no fault, and no frame as a value, is made on the way.
    #[inline(always)]
    pub(crate) fn step_whole_frame(&mut self, side: Side, piece: &[u8]) -> Option<usize>
        requires good { self.old.fault ≡ None }
        requires dropped { kept_on side self.old ≡ [] }
        ensures limits { self.new.limits ≡ self.old.limits }
        ensures some { IfSome result (λ used. StepsOn self.old side piece.now used true self.new) }
        ensures other { Leaves (other_side side) self.old self.new }
        ensures none { IfNone result (self.new ≡ self.old) }
    {
        match side {
            Side::Client => {
                let used = self.client.take_whole(piece)?;
                let profile = self.limits.profile();
                match keep_client::<Undecided>(profile, &mut self.client, &mut self.waiting, used) {
                    Ok(()) => Some(used),
                    Err(_undecided) => {
                        self.client.take_back(used);
                        None
                    }
                }
            }
            Side::Server => {
                let used = self.server.take_whole(piece)?;
                let asked = self.client.count();
                match keep_server::<Undecided>(asked, &mut self.server, &mut self.waiting, used) {
                    Ok(answered) => {
                        self.answered = answered;
                        Some(used)
                    }
                    Err(_undecided) => {
                        self.server.take_back(used);
                        None
                    }
                }
            }
        }
    }

    /// Passes the side's whole frame at the front of `piece` if none is begun and it may come next, and returns the number of
    /// its bytes; `None`: undecided, and nothing changed. Copies nothing.
    #[inline(always)]
    pub(crate) fn pass_whole_frame(&mut self, side: Side, piece: &[u8]) -> Option<usize>
        requires good { self.old.fault ≡ None }
        requires dropped { kept_on side self.old ≡ [] }
        ensures limits { self.new.limits ≡ self.old.limits }
        ensures some { IfSome result (λ used. (m : Message) × TakesOn self.old side piece.now used (m ∷ []) self.new) }
        ensures whole { IfSome result (λ used. held_on side self.new ≡ []) }
        ensures other { Leaves (other_side side) self.old self.new }
        ensures dropped { kept_on side self.new ≡ [] }
        ensures none { IfNone result (self.new ≡ self.old) }
    {
        match side {
            Side::Client => {
                let count = self.client.count();
                passed!(self.client, piece => await_ask(self.limits.profile(), count, count))
            }
            Side::Server => {
                let frames = self.server.count();
                passed!(self.server, piece => settle(self.client.count(), frames))
            }
        }
    }

    /// `step` of a piece, before any fault and where no frame is kept on the side.
    pub(crate) fn step_piece(&mut self, side: Side, piece: &[u8]) -> Result<Stepped, Fault>
        requires good { self.old.fault ≡ None }
        requires dropped { kept_on side self.old ≡ [] }
        ensures limits { self.new.limits ≡ self.old.limits }
        ensures ok { IfOk result (λ s. (self.new.fault ≡ None) × StepsOn self.old side piece.now s.used s.whole self.new) }
        ensures exact { IfOk result (λ s. s.whole ≡ false → s.used ≡ length piece.now) }
        ensures other { Leaves (other_side side) self.old self.new }
        ensures err { IfErr result (λ e. (self.new.fault ≡ Some e) × (e.reason ≢ NoMemory) × IsRefused self.old side piece.now e self.new) }
        ensures none { OnErr result (kept_on side self.new ≡ []) }
    {
        match side {
            Side::Client => judged!(
                self.client, side, piece, keep_client(self.limits.profile()),
                Stepped.whole: false, () => true
            ),
            Side::Server => judged!(
                self.server, side, piece, keep_server(self.client.count()),
                Stepped.whole: false, answered => {
                    self.answered = answered;
                    true
                }
            ),
        }
    }
}
