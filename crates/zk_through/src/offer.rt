//! `Through::offer`: a frame that is taken only if it may come next.
ghost use Rattle.std.specs.Prelude.{◌≡◌, ◌≤◌, ◌<◌, ◌^◌, Ok, Err, Some, None, IfErr};
ghost use Rattle.zk_talk.specs.{declared.message.Fault.Fault, declared.stream.Advance.TheVariants.Whole, Fault.side_limit, Offered.IsOffered, Viewed.Leaves, Viewed.other_side};
ghost use Rattle.zk_talk.specs.declared.message.Side.TheVariants.{Client, Server};
ghost use Rattle.zk_through.specs.{Runs.IsNeverFull, Runs.LeavesSide, Offered.IsNotOneFrame, Offered.Offers, Offered.IsWholeFrame, Offered.Cuts, Offered.TellsNext};

use crate::fate::{ClientFate, ServerFate, client_fate, server_fate};
use crate::through::{Passed, StepOutcome, Through};
use zk_jute::ItemFault;
use zk_talk::{Advance, Fault, Side, Stream, Talk, carried, next_fault};

/// The number of the bytes, if the side has begun no frame, and they are one.
fn whole_frame(side: Side, stream: &Stream, bytes: &[u8]) -> Result<Option<usize>, Fault>
    requires { stream.now.size < 2 ^ 62 }
    ensures { IsWholeFrame side stream.now bytes.now result }
{
    match stream.offered(bytes) {
        Advance::Within => Ok(None),
        Advance::Whole(used) => Ok(Some(used)),
        Advance::Refused(used, reason) => {
            let item = ItemFault::at(0, reason);
            Err(next_fault(side, stream, used, item))
        }
    }
}

/// Gives the talk the side's whole frame of `used` bytes, if it may come next, and counts it; else nothing changes. Returns
/// whether the talk took it; false: the talk has begun a frame.
fn tell_next(
    talk: &mut Talk,
    side: Side,
    stream: &mut Stream,
    bytes: &[u8],
    used: usize,
) -> Result<bool, Fault>
    requires whole { IsOffered stream.old bytes.now (Whole used) }
    requires limit { stream.old.limit ≡ side_limit talk.old.limits side }
    requires count { stream.old.count ≤ stream.old.size }
    ensures told { TellsNext talk.old stream.old side bytes.now used result talk.new stream.new }
    ensures other { Leaves (other_side side) talk.old talk.new }
{
    let took = match talk.offer(side, bytes) {
        Ok(took) => took,
        Err(fault) => {
            let (place, reason) = (fault.place, fault.reason);
            let item = ItemFault { place, reason };
            return Err(next_fault(side, stream, used, item));
        }
    };
    if !took {
        return Ok(false);
    }
    stream.drop_kept();
    stream.pass_whole(used);
    Ok(true)
}

impl Through {
    /// The number of the bytes, if the side has begun no frame, and they are one.
    fn whole(&self, side: Side, bytes: &[u8]) -> Result<Option<usize>, Fault>
        requires { self.now.fault ≡ None }
        ensures { Cuts side self.now bytes.now result }
    {
        match side {
            Side::Client => whole_frame(side, &self.client, bytes),
            Side::Server => whole_frame(side, &self.server, bytes),
        }
    }

    /// Takes the client's whole frame of `used` bytes, if it may come next; else nothing changes.
    fn client_offer(&mut self, frame: &[u8], used: usize) -> Result<Option<Passed>, Fault>
        requires good { self.old.fault ≡ None }
        requires whole { IsOffered self.old.client frame.now (Whole used) }
        ensures limits { self.new.talk.limits ≡ self.old.talk.limits }
        ensures late { self.new.late ≡ self.old.late }
        ensures offered { Offers self.old Client frame.now result self.new }
        ensures other { LeavesSide Server self.old self.new }
    {
        let side = Side::Client;
        let (number, payload) = (self.client.count(), carried(frame, used));
        match client_fate(self.limits, &self.talk, &self.turns, number, payload) {
            ClientFate::Full => Ok(Some(Passed::of(0, StepOutcome::Full))),
            ClientFate::LeftOut(turn) => {
                self.turns.leave(turn);
                self.client.keep_whole(frame);
                Ok(Some(Passed::of(used, StepOutcome::Asked(turn))))
            }
            ClientFate::Told(turn) => {
                let told = tell_next(&mut self.talk, side, &mut self.client, frame, used)?;
                if !told {
                    return Ok(None);
                }
                self.turns.ask(turn);
                Ok(Some(Passed::of(used, StepOutcome::Message)))
            }
        }
    }

    /// Takes the server's whole frame of `used` bytes, if it may come next; else nothing changes.
    fn server_offer(&mut self, frame: &[u8], used: usize) -> Result<Option<Passed>, Fault>
        requires good { self.old.fault ≡ None }
        requires whole { IsOffered self.old.server frame.now (Whole used) }
        ensures limits { self.new.talk.limits ≡ self.old.talk.limits }
        ensures late { self.new.late ≡ self.old.late }
        ensures offered { Offers self.old Server frame.now result self.new }
        ensures other { LeavesSide Client self.old self.new }
    {
        let side = Side::Server;
        let (number, payload) = (self.server.count(), carried(frame, used));
        let mut matched = self.matched;
        match server_fate(self.late, &mut matched, &self.turns, number, payload) {
            ServerFate::Unseen { xid, zxid, err } => {
                self.server.keep_whole(frame);
                self.matched = matched;
                Ok(Some(Passed::of(used, StepOutcome::Unseen { xid, zxid, err })))
            }
            ServerFate::Refused(reason) => {
                let item = ItemFault::at(0, reason);
                Err(next_fault(side, &self.server, used, item))
            }
            ServerFate::LeftOut(turn) => {
                self.turns.answer(turn.xid);
                self.server.keep_whole(frame);
                self.matched = matched;
                self.answered = Some(turn.frame);
                Ok(Some(Passed::of(used, StepOutcome::Answered(turn))))
            }
            ServerFate::Told { xid, frame: asked } => {
                let told = tell_next(&mut self.talk, side, &mut self.server, frame, used)?;
                if !told {
                    return Ok(None);
                }
                self.turns.reply(xid);
                self.matched = matched;
                self.answered = asked;
                Ok(Some(Passed::of(used, StepOutcome::Message)))
            }
        }
    }

    /// Takes the side's whole frame, its length included, as `step` does, but only if it may come next. A frame that is
    /// refused, or for which there is no room, changes nothing, so that another may be offered. `None`: the bytes are not
    /// one frame, or the side has begun another, and nothing was judged. Allocates nothing.
    ///
    /// # Errors
    ///
    /// The fault with which `step` would refuse it. It doesn't stay.
    pub fn offer(&mut self, side: Side, frame: &[u8]) -> Result<Option<Passed>, Fault>
        ensures limits { self.new.talk.limits ≡ self.old.talk.limits }
        ensures late { self.new.late ≡ self.old.late }
        // What is taken goes on with the history as the step that uses it does. What isn't taken changes nothing: what is
        // less or more than one frame, what is refused, as by a step, and that for which there is no room.
        ensures offered { Offers self.old side frame.now result self.new }
        // Less than one frame, or more, or what comes within another, isn't judged.
        ensures only { IsNotOneFrame self.old side frame.now → self.old.fault ≡ None → result ≡ Ok None }
        // A refusal is never that too much waits.
        ensures room { IfErr result (λ e. IsNeverFull self.old e) }
        // The other side's frames stay as they are, and show what they show.
        ensures other { LeavesSide (other_side side) self.old self.new }
        // After a fault nothing is taken.
        ensures kept { (f : Fault) → self.old.fault ≡ Some f → result ≡ Err f }
    {
        if let Some(fault) = self.fault {
            return Err(fault);
        }
        let whole = self.whole(side, frame)?;
        let Some(used) = whole else {
            return Ok(None);
        };
        match side {
            Side::Client => self.client_offer(frame, used),
            Side::Server => self.server_offer(frame, used),
        }
    }
}
