//! `Talk::offer`: a frame that is taken only if it may come next.
ghost use Rattle.std.specs.Prelude.{true, false, ◌≡◌, ◌≢◌, length, Ok, Err, Some, None, IfOk, IfErr, MatchBool};
ghost use Rattle.zk_jute.specs.declared.fault.Reason.TheVariants.{NoMemory};
ghost use Rattle.zk_talk.specs.{declared.message.Fault.Fault, Viewed.Leaves, Viewed.other_side, Taking.StepsOn};
ghost use Rattle.zk_talk.specs.Offered.{IsOneFrame, IsNotOneFrame, WouldRefuse};

use crate::judge::{await_ask, settle};
use crate::message::{Fault, Side};
use crate::receive_piece::next_fault;
use crate::stream::{Advance, carried};
use crate::talk::Talk;
use zk_jute::ItemFault;

/// A frame is kept, if its payload is judged to be one that may come next; else nothing changes.
macro_rules! offered {
    (
        $talk:ident.$stream:ident, $side:ident, $frame:ident, $judge:ident($($given:expr),*),
        $told:pat => $then:expr
    ) => {{
        match $talk.$stream.offered($frame) {
            Advance::Within => Ok(false),
            Advance::Refused(used, reason) => {
                let item = ItemFault::at(0, reason);
                Err(next_fault($side, &$talk.$stream, used, item))
            }
            Advance::Whole(used) => {
                let payload = carried($frame, used);
                match $judge::<ItemFault>($($given,)* &mut $talk.waiting, payload) {
                    Ok($told) => {
                        $talk.$stream.keep_whole($frame);
                        $then;
                        Ok(true)
                    }
                    Err(item) => Err(next_fault($side, &$talk.$stream, used, item)),
                }
            }
        }
    }};
}

impl Talk {
    /// Takes the side's whole frame, its length included, as `step` does, but only if it may come next; a frame that is
    /// refused changes nothing, so that another may be offered. Returns whether it was taken; false: the bytes are not one
    /// frame, or the side has begun another, and nothing was judged. Allocates nothing.
    ///
    /// # Errors
    ///
    /// The fault with which `step` would refuse it. It doesn't stay.
    pub fn offer(&mut self, side: Side, frame: &[u8]) -> Result<bool, Fault>
        ensures limits { self.new.limits ≡ self.old.limits }
        // What is taken goes on with the history as the step that keeps it does.
        ensures taken { IfOk result (λ took. took ≡ true → StepsOn self.old side frame.now (length frame.now) true self.new) }
        // One frame is taken, and less than one, or more, or what comes within another is not.
        ensures one { IfOk result (λ took. MatchBool took (IsOneFrame self.old side frame.now) (IsNotOneFrame self.old side frame.now)) }
        // Such bytes are not judged.
        ensures only { IsNotOneFrame self.old side frame.now → self.old.fault ≡ None → result ≡ Ok false }
        // What isn't taken leaves the talk as it was, the frames that it keeps too.
        ensures same { result ≢ Ok true → self.new ≡ self.old }
        // The other side's frame stays as it is, and shows what it shows.
        ensures other { Leaves (other_side side) self.old self.new }
        // A refusal is a step's, and never that memory was refused.
        ensures err { IfErr result (λ e. (e.reason ≢ NoMemory) × WouldRefuse self.old side frame.now e) }
        // After a fault nothing is taken.
        ensures kept { (f : Fault) → self.old.fault ≡ Some f → result ≡ Err f }
    {
        if let Some(fault) = self.fault {
            return Err(fault);
        }
        match side {
            Side::Client => {
                let (profile, count) = (self.limits.profile(), self.client.count());
                offered!(self.client, side, frame, await_ask(profile, count, count), () => {})
            }
            Side::Server => {
                let (asked, count) = (self.client.count(), self.server.count());
                offered!(
                    self.server, side, frame, settle(asked, count),
                    answered => self.answered = answered
                )
            }
        }
    }
}
