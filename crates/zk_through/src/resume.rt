//! `Through::resume`: a connection goes on after a refused frame.
ghost use Rattle.std.specs.Prelude.{◌≡◌, ◌-◌, ◌↔◌, ℕ, Some, None, Ok, Err, IsTrue};
ghost use Rattle.zk_talk.specs.declared.message.Fault.{Fault};
ghost use Rattle.zk_through.specs.{Resumed.HasNoEnd, Resumed.EndsFrame, Resumed.IsLate, Runs.stream_on};

use crate::through::Through;
use zk_jute::Reason;
use zk_talk::{Fault, Side};

/// Whether no frame ends where the fault is.
fn has_no_end(fault: Fault) -> bool
    ensures { IsTrue result ↔ HasNoEnd fault }
{
    matches!(fault.reason, Reason::LengthRange | Reason::StreamEnd)
}

impl Through {
    /// How many bytes of the refused piece are up to the fault.
    fn used_to_fault(&self, fault: Fault) -> usize
        ensures { result ≡ fault.offset - (stream_on fault.side self.now).size }
    {
        let before = match fault.side {
            Side::Client => self.client.size(),
            Side::Server => self.server.size(),
        };
        fault.offset.saturating_sub(before) as usize
    }

    /// Goes on after the refused frame as a connection that is seen late from there on, as `join` begins one, with the same
    /// limits. Allocates nothing. Returns how many bytes of the refused piece are the refused frame's: give those after
    /// them next.
    ///
    /// Each side begins anew at the beginning of a frame. So what the other side has begun of one, as many bytes as `held`
    /// returned before, is to be given again. No request waits; the reply to one from before the refusal is
    /// `StepOutcome::Unseen`. Frame 0 of each side and its first 32 and 24 bytes are those that nobody sent. Where nothing was
    /// refused nothing is changed, and the result is 0.
    ///
    /// # Errors
    ///
    /// The fault, if no frame ends where it is: `LengthRange` and `StreamEnd`. It stays, and nothing is changed.
    pub fn resume(&mut self) -> Result<usize, Fault>
        ensures limits { self.new.talk.limits ≡ self.old.talk.limits }
        // Where nothing was refused it goes on as it is.
        ensures none { self.old.fault ≡ None → (result ≡ Ok 0) × (self.new ≡ self.old) }
        // A refusal where no frame ends stays.
        ensures stays { (f : Fault) → self.old.fault ≡ Some f → HasNoEnd f → (result ≡ Err f) × (self.new ≡ self.old) }
        // From the end of any other refused frame on it is seen late, as `join` begins.
        ensures late { (f : Fault) → self.old.fault ≡ Some f → (HasNoEnd f → ⊥) → IsLate self.new }
        // The result is how many bytes of the refused piece end the frame.
        ensures used { (f : Fault) → self.old.fault ≡ Some f → (HasNoEnd f → ⊥) → (n : ℕ) × (result ≡ Ok n) × EndsFrame n self.old }
    {
        let Some(fault) = self.fault else {
            return Ok(0);
        };
        if has_no_end(fault) {
            return Err(fault);
        }
        let used = self.used_to_fault(fault);
        self.be_late();
        Ok(used)
    }
}
