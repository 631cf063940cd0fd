//! What becomes of a side's whole frame: whether the talk gets it.
ghost use Rattle.std.specs.Prelude.{◌≡◌, ◌≤◌, ◌+◌, ◌-◌, length};
ghost use Rattle.zk_talk.specs.{Conversation.load, Stands.WhereItStands};
ghost use Rattle.zk_through.specs.{Turns.HaveRoom, Turns.left_out, Fates.HasClientFate, Fates.HasServerFate};

use crate::frame_header::{asked, lacking, replied, weight};
use crate::held_counts::weight_waiting;
use crate::turn::Turn;
use crate::turns::{Due, Turns, frame_answered};
use crate::unseen::unseen;
use zk_jute::Reason;
use zk_talk::{Limits, Talk};

/// What becomes of a client's frame.
#[derive(Clone, Copy)]
pub enum ClientFate {
    /// Nothing: with it more would wait than may.
    Full,
    /// It is left out, and is this request.
    LeftOut(Turn),
    /// The talk gets it: this request, if it is one of a lane.
    Told(Option<Turn>),
}

/// What becomes of a server's frame.
#[derive(Clone, Copy)]
pub enum ServerFate {
    /// It is passed over: the reply to a request that wasn't seen, with what its header says.
    Unseen {
        xid: i32,
        zxid: i64,
        err: i32,
    },
    /// It is refused for its turn.
    Refused(Reason),
    /// It is left out: the reply to this request.
    LeftOut(Turn),
    /// The talk gets it: a reply with this xid, if it is one of a lane, to the client's frame of this number.
    Told {
        xid: Option<i32>,
        frame: Option<u64>,
    },
}

/// What more may wait, by weight, if no more than `most` may.
fn room(talk: &Talk, turns: &Turns, most: u32) -> u64
    requires { HaveRoom talk.now.limits.waiting turns.now }
    ensures stands { WhereItStands talk.now (λ v c s. result ≡ most - (load v.client v.server + left_out turns.now)) }
    ensures left { result ≤ most - left_out turns.now }
{
    u64::from(most.saturating_sub(weight_waiting(talk, turns)))
}

/// What becomes of the client's frame of this number and payload.
#[inline(always)]
pub fn client_fate(
    limits: Limits,
    talk: &Talk,
    turns: &Turns,
    number: u64,
    payload: &[u8],
) -> ClientFate
    requires limits { limits ≡ talk.now.limits }
    requires room { HaveRoom talk.now.limits.waiting turns.now }
    requires small { length payload.now ≤ 16777216 }
    ensures { HasClientFate talk.now turns.now number payload.now result }
{
    let turn = asked(number, payload);
    let profile = limits.profile();
    let out = lacking(profile, turn, payload);
    let room = room(talk, turns, limits.waiting());
    let weight = weight(profile, out, number, payload, room);
    if weight > room {
        return ClientFate::Full;
    }
    match out {
        Some(turn) => ClientFate::LeftOut(turn),
        None => ClientFate::Told(turn),
    }
}

/// What becomes of the server's frame of this number and payload, of a connection that is seen `late` or not. If it isn't
/// passed over, it counts for `matched`.
#[inline(always)]
pub fn server_fate(
    late: bool,
    matched: &mut bool,
    turns: &Turns,
    number: u64,
    payload: &[u8],
) -> ServerFate
    ensures { HasServerFate late matched.old turns.now number payload.now result matched.new }
{
    let ahead = replied(number, payload);
    if let Some((xid, zxid, err)) = unseen(late, matched, turns, payload, ahead) {
        return ServerFate::Unseen { xid, zxid, err };
    }
    let due = match turns.due(ahead) {
        Ok(due) => due,
        Err(reason) => return ServerFate::Refused(reason),
    };
    let frame = frame_answered(due, number);
    if let Due::LeftOut(turn) = due {
        return ServerFate::LeftOut(turn);
    }
    let xid = ahead;
    ServerFate::Told { xid, frame }
}
