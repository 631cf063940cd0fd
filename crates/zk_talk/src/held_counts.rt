//! What a talk holds, in numbers.
ghost use Rattle.std.specs.Prelude.{◌≡◌, ◌≤◌, ◌+◌, length};
ghost use Rattle.zk_talk.specs.{Conversation.number_waiting, Fault.side_limit, Fault.rest_on, Stands.held_on, Stands.WhereItStands, Stands.WhereItRefuses};

use crate::message::Side;
use crate::talk::Talk;

impl Talk {
    /// The number of requests that wait for their replies. After a fault those before the byte that decided it.
    pub fn requests(&self) -> u32
        ensures stands { WhereItStands self.now (λ v client_rest server_rest. result ≡ number_waiting v.client v.server) }
        ensures refuses { WhereItRefuses self.now (λ v. result ≡ number_waiting v.client v.server) }
        ensures most { result ≤ self.now.limits.waiting }
    {
        self.waiting.count()
    }

    /// The number of the side's bytes that are held of a frame that isn't whole, its length included.
    pub fn begun(&self, side: Side) -> u32
        ensures value { result ≡ length (held_on side self.now) }
        // It is the length of the side's beginning.
        ensures stands { WhereItStands self.now (λ v client_rest server_rest. result ≡ length (rest_on side client_rest server_rest)) }
        ensures most { result ≤ 4 + side_limit self.now.limits side }
    {
        match side {
            Side::Client => self.client.held(),
            Side::Server => self.server.held(),
        }
    }
}
