//! What a passage holds, in numbers.
ghost use Rattle.std.specs.Prelude.{◌≡◌, ◌≤◌, ◌+◌, List, [], length, MatchOption};
ghost use Rattle.zk_frames.specs.Framing.{frame};
ghost use Rattle.zk_talk.specs.{Conversation.load, Conversation.number_waiting, Good.clients, Good.servers, Held.Message, History.History, Stands.WhereItStands, Stands.held_on, Stands.kept_on};
ghost use Rattle.zk_through.specs.{Came.Came, LeftOut.NewestAnswers, Turns.HaveRoom, Turns.left_out, Runs.ThroughState, Runs.Runs, Runs.WhereItRuns, Runs.WaitsAfter, Runs.KeepsWaiting, Runs.stream_on, Runs.left_on, Runs.dropped, Runs.silenced};

use crate::through::Through;
use crate::turns::Turns;
use zk_talk::{Side, Talk};

/// The number of the requests that wait, those that are left out too.
fn requests_waiting(talk: &Talk, turns: &Turns) -> u32
    requires { HaveRoom talk.now.limits.waiting turns.now }
    ensures stands { WhereItStands talk.now (λ v c s. result ≡ number_waiting v.client v.server + left_out turns.now) }
    ensures after { (h : History) (M : List Message) → WaitsAfter talk.now h M → result ≡ number_waiting (clients M) (servers M) + left_out turns.now }
{
    talk.requests() + turns.left()
}

/// The weight of the requests that wait, those that are left out too.
pub fn weight_waiting(talk: &Talk, turns: &Turns) -> u32
    requires { HaveRoom talk.now.limits.waiting turns.now }
    ensures stands { WhereItStands talk.now (λ v c s. result ≡ load v.client v.server + left_out turns.now) }
    ensures after { (h : History) (M : List Message) → WaitsAfter talk.now h M → result ≡ load (clients M) (servers M) + left_out turns.now }
    ensures left { left_out turns.now ≤ result }
{
    talk.waiting() + turns.left()
}

impl Through {
    /// The payload of the frame that the side's last step left out or passed over; `None` if there is none.
    pub fn left_out(&self, side: Side) -> Option<&[u8]>
        ensures { MatchOption result (left_on side self.now ≡ []) (λ p. left_on side self.now ≡ frame p.now) }
    {
        match side {
            Side::Client => self.client.kept_payload(),
            Side::Server => self.server.kept_payload(),
        }
    }

    /// The payload of the message that `view` borrows; `None` if there is none.
    pub fn payload(&self, side: Side) -> Option<&[u8]>
        ensures { MatchOption result (kept_on side self.now.talk ≡ []) (λ p. kept_on side self.now.talk ≡ frame p.now) }
    {
        self.talk.payload(side)
    }

    /// The number of the side's bytes that are held of a frame that isn't whole, or is refused, its length included.
    pub fn held(&self, side: Side) -> u32
        ensures { result ≡ length (stream_on side self.now).held }
    {
        match side {
            Side::Client => self.client.held(),
            Side::Server => self.server.held(),
        }
    }

    /// The side shows no message from now on, and keeps no frame that was left out. Whatever comes then is judged as it
    /// would have been.
    pub fn let_go(&mut self, side: Side)
        ensures { self.new ≡ silenced side (dropped side self.old) }
    {
        self.drop_kept(side);
        self.talk.drop_kept(side);
    }

    /// The number of the side's frames that were whole, those left out too.
    pub fn frames(&self, side: Side) -> u64
        ensures { result ≡ (stream_on side self.now).count }
    {
        match side {
            Side::Client => self.client.count(),
            Side::Server => self.server.count(),
        }
    }

    /// The number of bytes of the frame whose message `view` borrows, its length included.
    pub fn size(&self, side: Side) -> u32
        ensures { result ≡ length (held_on side self.now.talk) + length (kept_on side self.now.talk) }
    {
        self.talk.held(side)
    }

    /// The number of the client's frame that the server's newest whole frame answers, those left out counted: 0 for the
    /// reply to the connect request. `None` if that is an event, or none came. `StepOutcome::Unseen` leaves it as it is.
    pub fn answered(&self) -> Option<u64>
        ensures value { result ≡ self.now.answered }
        // The k-th reply of a lane answers the lane's k-th request.
        ensures answers { (h : History) (c k : Came) (M : List Message) → Runs self.now h c k M → NewestAnswers c result }
    {
        self.answered
    }

    /// The weight of the requests that wait for their replies: 1 each, those left out too, and 1 more for each part of
    /// a multi. After a fault those that waited before the frame.
    pub fn waiting(&self) -> u32
        ensures value { WhereItRuns self.now (λ v. result ≡ load v.client v.server + left_out self.now.turns) }
        // After a refusal: what waited at it.
        ensures refused { (old : ThroughState) → KeepsWaiting old self.now → WhereItRuns old (λ v. result ≡ load v.client v.server + left_out old.turns) }
        ensures left { left_out self.now.turns ≤ result }
        ensures most { WhereItRuns self.now (λ v. result ≤ self.now.talk.limits.waiting) }
    {
        weight_waiting(&self.talk, &self.turns)
    }

    /// How many requests wait for their replies, those left out too. After a fault those that waited before the frame.
    pub fn requests(&self) -> u32
        ensures value { WhereItRuns self.now (λ v. result ≡ number_waiting v.client v.server + left_out self.now.turns) }
        // After a refusal: how many waited at it.
        ensures refused { (old : ThroughState) → KeepsWaiting old self.now → WhereItRuns old (λ v. result ≡ number_waiting v.client v.server + left_out old.turns) }
    {
        requests_waiting(&self.talk, &self.turns)
    }
}
