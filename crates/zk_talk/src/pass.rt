//! `Talk::pass`: a step after which no frame is kept.
ghost use Rattle.std.specs.Prelude.{false, ◌≡◌, ◌≢◌, [], length, None, Some, Err, IfOk, IfErr};
ghost use Rattle.zk_jute.specs.declared.fault.Reason.TheVariants.{NoMemory};
ghost use Rattle.zk_talk.specs.{declared.message.Fault.Fault, Stands.kept_on, Viewed.Leaves, Viewed.other_side, Taking.PassesOn, Taking.IsRefused, Taking.dropped};

use crate::message::{Fault, Side};
use crate::talk::{Stepped, Talk};

impl Talk {
    /// `step_slow`, and what it keeps is dropped.
    #[inline(never)]
    fn pass_slow(&mut self, side: Side, piece: &[u8]) -> Stepped
        requires dropped { kept_on side self.old ≡ [] }
        ensures limits { self.new.limits ≡ self.old.limits }
        ensures ok { self.new.fault ≡ None → PassesOn self.old side piece.now result.used result.whole self.new }
        ensures exact { self.new.fault ≡ None → result.whole ≡ false → result.used ≡ length piece.now }
        ensures other { Leaves (other_side side) self.old self.new }
        ensures err { (f : Fault) → self.new.fault ≡ Some f → (f.reason ≢ NoMemory) × IsRefused self.old side piece.now f self.new }
        ensures dropped { kept_on side self.new ≡ [] }
        ensures kept { (f : Fault) → self.old.fault ≡ Some f → self.new ≡ dropped side self.old }
    {
        let stepped = self.step_slow(side, piece);
        self.drop_kept(side);
        stepped
    }

    /// Takes the piece up to the end of the first frame that becomes whole, or all of it, as `step`, and keeps no frame. One
    /// that is whole in `piece` and comes in its turn isn't copied; nothing is allocated.
    ///
    /// # Errors
    ///
    /// Those of `step`.
    #[inline(always)]
    pub fn pass(&mut self, side: Side, piece: &[u8]) -> Result<Stepped, Fault>
        ensures limits { self.new.limits ≡ self.old.limits }
        // What is used goes on with the history; a frame that it makes whole is the newest message's.
        ensures ok { IfOk result (λ s. PassesOn self.old side piece.now s.used s.whole self.new) }
        // With no whole frame all was used.
        ensures exact { IfOk result (λ s. s.whole ≡ false → s.used ≡ length piece.now) }
        // The other side's frame stays as it is, and shows what it shows.
        ensures other { Leaves (other_side side) self.old self.new }
        // A refusal is the history's fault, and never that memory was refused.
        ensures err { IfErr result (λ e. (e.reason ≢ NoMemory) × IsRefused self.old side piece.now e self.new) }
        // The side keeps nothing, and what it kept is dropped.
        ensures dropped { kept_on side self.new ≡ [] }
        // A fault stays.
        ensures kept { (f : Fault) → self.old.fault ≡ Some f → (result ≡ Err f) × (self.new ≡ dropped side self.old) }
    {
        if let Some(used) = self.pass_fast(side, piece) {
            return Ok(Stepped { used, whole: true });
        }
        let stepped = self.pass_slow(side, piece);
        if let Some(fault) = self.fault {
            return Err(fault);
        }
        Ok(stepped)
    }
}
