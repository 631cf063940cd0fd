//! `Turns`: which requests wait for their replies, by lanes, and how many of them are left out.
ghost use Rattle.std.specs.Prelude.{◌≡◌, ◌<◌, ◌+◌, ◌-◌, ◌^◌, drop, slice_get, IfOk, MatchBool};
ghost use Rattle.std.specs.{List.list_any, Ordering.int_eq};
ghost use Rattle.zk_waiting.specs.Lane.{lane_of};
ghost use Rattle.zk_through.specs.Turns.{Judges, TellsFrame, no_turns, and_turn, waits_on, with_waits, after_request, after_left, after_reply, after_answer, IsEarlier, matched_after};

use crate::turn::Turn;
use circular_buffer::HeapCircularBuffer;
use std::alloc::{AllocError, Global};
use std::marker::Model;
use zk_jute::Reason;
use zk_waiting::{Lane, lane_of};

/// Which request a server's frame is to answer.
#[derive(Clone, Copy)]
pub enum Due {
    /// None: the frame is no reply.
    Nothing,
    /// One that the talk got.
    Told(Turn),
    /// One that is left out, with the frame's xid.
    LeftOut(Turn),
}

/// The number of the client's frame that the server's frame answers, after `frames` others: the first answers the
/// connect request.
pub fn frame_answered(due: Due, frames: u64) -> Option<u64>
    ensures { TellsFrame due frames result }
{
    match due {
        Due::Told(turn) | Due::LeftOut(turn) => Some(turn.frame),
        Due::Nothing if frames == 0 => Some(0),
        Due::Nothing => None,
    }
}

/// Whether a reply of the plain lane came, with one more of this xid, if it is one of a lane.
pub fn has_matched(xid: Option<i32>, was: bool) -> bool
    ensures { result ≡ matched_after xid was }
{
    let Some(xid) = xid else {
        return was;
    };
    match lane_of(xid) {
        Lane::Plain => true,
        Lane::Ping | Lane::Auth | Lane::Watches => was,
    }
}

/// Whether one of these requests has the xid.
fn is_asked(turns: &HeapCircularBuffer<Turn>, xid: i32) -> bool
    ensures { result ≡ list_any (λ turn. int_eq turn.xid xid) turns.now.items }
{
    turns.iter().any(|turn| turn.xid == xid)
}

/// The requests that wait, by lanes, the oldest first. A lane has room for all that may wait.
#[derive(Drop)]
pub struct Turns {
    ping: HeapCircularBuffer<Turn>,
    auth: HeapCircularBuffer<Turn>,
    watches: HeapCircularBuffer<Turn>,
    plain: HeapCircularBuffer<Turn>,
    /// How many of them are left out.
    left: u32,
}

impl Model for Turns {
    ghost use Rattle.std.specs.Prelude.{◌≡◌};
    ghost use Rattle.zk_through.specs.Turns.{TurnsState};

    ghost Value = { TurnsState };

    ghost view = { λ t. record { ping = t.ping.items; auth = t.auth.items; watches = t.watches.items; plain = t.plain.items; left = t.left; room = t.plain.capacity } };

    ghost invariant = { λ t. (t.ping.capacity ≡ t.plain.capacity) × (t.auth.capacity ≡ t.plain.capacity) × (t.watches.capacity ≡ t.plain.capacity) };
}

impl Turns {
    /// No requests, and room for `room` in each lane, which is allocated now.
    pub fn new(alloc: Global, room: u32) -> Result<Self, AllocError>
        ensures { IfOk result (λ t. t ≡ no_turns room) }
    {
        let ping = HeapCircularBuffer::with_capacity(alloc, room as usize)?;
        let auth = HeapCircularBuffer::with_capacity(alloc, room as usize)?;
        let watches = HeapCircularBuffer::with_capacity(alloc, room as usize)?;
        let plain = HeapCircularBuffer::with_capacity(alloc, room as usize)?;
        Ok(Turns {
            ping,
            auth,
            watches,
            plain,
            left: 0,
        })
    }

    /// The lanes as `new` makes them. Allocates nothing.
    pub fn renew(&mut self)
        ensures { self.new ≡ no_turns self.old.room }
    {
        self.ping.clear();
        self.auth.clear();
        self.watches.clear();
        self.plain.clear();
        self.left = 0;
    }

    /// Lets the request wait, the newest of its lane; a full lane loses its oldest.
    fn push(&mut self, turn: Turn)
        ensures now { self.new ≡ with_waits (lane_of turn.xid) (and_turn self.old.room turn) self.old }
        ensures same { (self.new.left ≡ self.old.left) × (self.new.room ≡ self.old.room) }
    {
        match lane_of(turn.xid) {
            Lane::Ping => self.ping.push_back(turn),
            Lane::Auth => self.auth.push_back(turn),
            Lane::Watches => self.watches.push_back(turn),
            Lane::Plain => self.plain.push_back(turn),
        };
    }

    /// Drops the oldest request of the lane.
    fn pop(&mut self, lane: Lane)
        ensures now { self.new ≡ with_waits lane (drop 1) self.old }
        ensures same { (self.new.left ≡ self.old.left) × (self.new.room ≡ self.old.room) }
    {
        match lane {
            Lane::Ping => self.ping.pop_front(),
            Lane::Auth => self.auth.pop_front(),
            Lane::Watches => self.watches.pop_front(),
            Lane::Plain => self.plain.pop_front(),
        };
    }

    /// The oldest request of the lane.
    #[inline(always)]
    fn oldest(&self, lane: Lane) -> Option<Turn>
        ensures { result ≡ slice_get (waits_on lane self.now) 0 }
    {
        match lane {
            Lane::Ping => self.ping.front().copied(),
            Lane::Auth => self.auth.front().copied(),
            Lane::Watches => self.watches.front().copied(),
            Lane::Plain => self.plain.front().copied(),
        }
    }

    /// Lets the request wait, if it is one of a lane; the talk gets it.
    pub fn ask(&mut self, turn: Option<Turn>)
        ensures now { self.new ≡ after_request turn self.old }
        ensures same { (self.new.left ≡ self.old.left) × (self.new.room ≡ self.old.room) }
    {
        if let Some(turn) = turn {
            self.push(turn);
        }
    }

    /// Lets the request wait, which is left out.
    pub fn leave(&mut self, turn: Turn)
        requires { self.old.left < 2 ^ 31 }
        ensures now { self.new ≡ after_left turn self.old }
        ensures left { (self.new.left ≡ self.old.left + 1) × (self.new.room ≡ self.old.room) }
    {
        self.push(turn);
        self.left += 1;
    }

    /// The request that the server's frame with this xid is to answer; with no xid it is no reply.
    ///
    /// # Errors
    ///
    /// `Unasked` if nothing of the lane waits; `XidOrder` if it is the turn of a request that is left out, with another
    /// xid.
    #[inline(always)]
    pub fn due(&self, xid: Option<i32>) -> Result<Due, Reason>
        ensures { Judges self.now xid result }
    {
        let Some(xid) = xid else {
            return Ok(Due::Nothing);
        };
        let Some(turn) = self.oldest(lane_of(xid)) else {
            return Err(Reason::Unasked);
        };
        if !turn.out {
            return Ok(Due::Told(turn));
        }
        if turn.xid == xid {
            Ok(Due::LeftOut(turn))
        } else {
            let expected = turn.xid;
            let got = xid;
            Err(Reason::XidOrder { expected, got })
        }
    }

    /// Whether the reply with this xid, if it is one of a lane, is to a request from before those that wait, in a
    /// connection that is seen late; `matched`: a reply of the plain lane came.
    pub fn is_earlier(&self, xid: Option<i32>, matched: bool) -> bool
        ensures { MatchBool result (IsEarlier matched self.now xid) (IsEarlier matched self.now xid → ⊥) }
    {
        let Some(xid) = xid else {
            return false;
        };
        match lane_of(xid) {
            Lane::Plain => !matched && !is_asked(&self.plain, xid),
            lane => self.oldest(lane).is_none(),
        }
    }

    /// Drops the request that the reply with this xid answers, if it is one of a lane; the talk gets the reply.
    pub fn reply(&mut self, xid: Option<i32>)
        ensures now { self.new ≡ after_reply xid self.old }
        ensures same { (self.new.left ≡ self.old.left) × (self.new.room ≡ self.old.room) }
    {
        if let Some(xid) = xid {
            self.pop(lane_of(xid));
        }
    }

    /// Drops the request that the reply with this xid answers, which is left out.
    pub fn answer(&mut self, xid: i32)
        ensures now { self.new ≡ after_answer xid self.old }
        ensures left { (self.new.left ≡ self.old.left - 1) × (self.new.room ≡ self.old.room) }
    {
        self.pop(lane_of(xid));
        self.left = self.left.saturating_sub(1);
    }

    /// The number of requests that are left out and wait.
    pub fn left(&self) -> u32
        ensures { result ≡ self.now.left }
    {
        self.left
    }
}
