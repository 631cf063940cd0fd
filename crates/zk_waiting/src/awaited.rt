//! `Awaited`: as `Waiting`, where each request has an xid that its operation allows. So of a request in a special lane
//! only the number of its frame is kept.
ghost use Rattle.std.specs.Prelude.{◌^◌, ◌≡◌, ◌+◌, ◌<◌, ◌≤◌, ◌↔◌, [], ◌∷◌, ◌++◌, length, drop, IfOk, OnOk, IfErr, IfSome, IsTrue};
ghost use Rattle.std.specs.List.{slice_get};
ghost use Rattle.circular_buffer.specs.Buffer.{buffer};
ghost use Rattle.zk_asks.specs.Codes.{IsAllowed};
ghost use Rattle.zk_waiting.specs.{Awaited.bare_of, Lane.lane_of};
ghost use Rattle.zk_waiting.specs.Waiting.{weight_of, count_of, queue_on, IsPut, IsDropped, IsPutFault, IsFit};

use crate::lane::{Lane, lane_of};
use crate::queue::{Queue, push};
use crate::slot::Slot;
use crate::waiting::PutFault;
use circular_buffer::HeapCircularBuffer;
use std::alloc::{AllocError, Global};
use std::marker::Model;
use zk_asks::Asked;
use zk_records::Op;

/// Four lists of requests, each with the oldest first, up to a weight of `max`. Memory is allocated once, by `new`.
#[derive(Drop)]
pub struct Awaited {
    max: u32,
    weight: u32,
    pings: HeapCircularBuffer<u64>,
    auths: HeapCircularBuffer<u64>,
    watches: HeapCircularBuffer<u64>,
    plain: Queue,
}

impl Model for Awaited {
    ghost use Rattle.zk_waiting.specs.Awaited.{numbered};
    ghost use Rattle.zk_waiting.specs.Waiting.{Lanes, IsWeighed};
    ghost use Rattle.std.specs.Prelude.{◌≡◌};

    ghost Value = { Lanes };

    ghost view = { λ w. numbered w.max w.pings.items w.auths.items w.watches.items w.plain.requests };

    ghost invariant = { λ w. IsWeighed w.weight (numbered w.max w.pings.items w.auths.items w.watches.items w.plain.requests) × (w.pings.capacity ≡ w.max) × (w.auths.capacity ≡ w.max) × (w.watches.capacity ≡ w.max) × (w.plain.max ≡ w.max) };
}

// The calls of a special lane are not inlined: with them the way of the plain lane is too long to be inlined itself.

/// Appends the number of a frame to those of its lane, which has room for it.
#[inline(never)]
fn put_number(numbers: &mut HeapCircularBuffer<u64>, frame: u64)
    requires { length numbers.old.items < numbers.old.capacity }
    ensures { numbers.new ≡ buffer (numbers.old.items ++ frame ∷ []) numbers.old.capacity }
{
    push(numbers, frame);
}

/// The oldest number.
#[inline(never)]
fn first_number(numbers: &HeapCircularBuffer<u64>) -> Option<u64>
    ensures { result ≡ slice_get numbers.now.items 0 }
{
    numbers.front().copied()
}

/// Removes the oldest number.
#[inline(never)]
fn drop_number(numbers: &mut HeapCircularBuffer<u64>)
    ensures { numbers.new ≡ buffer (drop 1 numbers.old.items) numbers.old.capacity }
{
    numbers.pop_front();
}

impl Awaited {
    /// No requests, and room for a weight of `max`.
    ///
    /// # Errors
    ///
    /// `AllocError` if memory is refused.
    pub fn new(alloc: Global, max: u32) -> Result<Self, AllocError>
        ensures { IfOk result (λ w. w ≡ record { max = max; ping = []; auth = []; watches = []; plain = [] }) }
    {
        let pings = HeapCircularBuffer::with_capacity(alloc, max as usize)?;
        let auths = HeapCircularBuffer::with_capacity(alloc, max as usize)?;
        let watches = HeapCircularBuffer::with_capacity(alloc, max as usize)?;
        let plain = Queue::new(alloc, max)?;
        Ok(Awaited {
            max,
            weight: 0,
            pings,
            auths,
            watches,
            plain,
        })
    }

    /// Whether there is room for a request of `parts` parts.
    #[inline(always)]
    pub fn has_room_for(&self, parts: u64) -> bool
        requires { parts < 2 ^ 63 }
        ensures { IsTrue result ↔ (weight_of self.now + (1 + parts) ≤ self.now.max) }
    {
        u64::from(self.weight) + 1 + parts <= u64::from(self.max)
    }

    /// Whether there is room for the request `form`.
    #[inline(always)]
    pub fn has_room<F: Asked>(&self, form: &F) -> bool
        ensures { IsTrue result ↔ (weight_of self.now + (1 + length (F.part_ops form.now)) ≤ self.now.max) }
    {
        self.has_room_for(u64::from(form.parts()))
    }

    /// Appends the request `form` with the xid `xid` to its lane. It weighs 1, and 1 more for each part of a multi.
    ///
    /// # Errors
    ///
    /// `QueueFull` if the weight would pass `max`. The queue is then unchanged.
    #[inline(always)]
    pub fn put<F: Asked>(&mut self, xid: i32, form: &F) -> Result<(), PutFault>
        requires { IsAllowed xid (F.operation form.now) }
        ensures fits { OnOk result (weight_of self.old + (1 + length (F.part_ops form.now)) ≤ self.old.max) }
        ensures ok { OnOk result (IsPut (lane_of xid) (record { xid = xid; op = F.operation form.now; parts = F.part_ops form.now; frame = 0 }) self.old self.new) }
        ensures err { IfErr result (λ e. (self.new ≡ self.old) × IsPutFault e (weight_of self.old + (1 + length (F.part_ops form.now))) self.old.max) }
    {
        self.put_numbered(xid, form, 0)
    }

    /// `put` of the request `form` of the client's frame with the number `frame`.
    ///
    /// # Errors
    ///
    /// Those of `put`.
    #[inline(always)]
    pub fn put_numbered<F: Asked>(&mut self, xid: i32, form: &F, frame: u64) -> Result<(), PutFault>
        requires { IsAllowed xid (F.operation form.now) }
        ensures fits { OnOk result (weight_of self.old + (1 + length (F.part_ops form.now)) ≤ self.old.max) }
        ensures ok { OnOk result (IsPut (lane_of xid) (record { xid = xid; op = F.operation form.now; parts = F.part_ops form.now; frame = frame }) self.old self.new) }
        ensures err { IfErr result (λ e. (self.new ≡ self.old) × IsPutFault e (weight_of self.old + (1 + length (F.part_ops form.now))) self.old.max) }
    {
        if !self.has_room(form) {
            return Err(PutFault::QueueFull);
        }
        self.append(lane_of(xid), xid, form, frame);
        Ok(())
    }

    #[inline(always)]
    fn append<F: Asked>(&mut self, lane: Lane, xid: i32, form: &F, frame: u64)
        requires lane { lane ≡ lane_of xid }
        requires allowed { IsAllowed xid (F.operation form.now) }
        requires room { weight_of self.old + (1 + length (F.part_ops form.now)) ≤ self.old.max }
        ensures { IsPut lane (record { xid = xid; op = F.operation form.now; parts = F.part_ops form.now; frame = frame }) self.old self.new }
    {
        self.weight = self.weight + 1 + form.parts();
        match lane {
            Lane::Ping => put_number(&mut self.pings, frame),
            Lane::Auth => put_number(&mut self.auths, frame),
            Lane::Watches => put_number(&mut self.watches, frame),
            Lane::Plain => self.plain.put(xid, form, frame),
        }
    }

    /// The request without parts of the frame `frame`, if there is one.
    #[inline(always)]
    fn bare(&self, xid: i32, op: Op, frame: Option<u64>) -> Option<Slot<'_>>
        ensures value { result ≡ bare_of xid op frame }
        ensures fit { IfSome result IsFit }
    {
        match frame {
            Some(frame) => Some(self.plain.bare(xid, op, frame)),
            None => None,
        }
    }

    /// The lane's oldest request; `None` if none waits there.
    #[inline(always)]
    pub fn oldest(&self, lane: Lane) -> Option<Slot<'_>>
        ensures value { result ≡ slice_get (queue_on lane self.now) 0 }
        // Only a multi has parts.
        ensures fit { IfSome result IsFit }
    {
        match lane {
            Lane::Ping => self.bare(-2, Op::Ping, first_number(&self.pings)),
            Lane::Auth => self.bare(-4, Op::Auth, first_number(&self.auths)),
            Lane::Watches => self.bare(-8, Op::SetWatches, first_number(&self.watches)),
            Lane::Plain => self.plain.oldest(),
        }
    }

    /// Removes the lane's oldest request.
    #[inline(always)]
    pub fn drop_oldest(&mut self, lane: Lane)
        requires { 0 < length (queue_on lane self.old) }
        ensures { IsDropped lane self.old self.new }
    {
        match lane {
            Lane::Plain => self.weight -= self.plain.pop(),
            _ => self.drop_oldest_of(lane),
        }
    }

    /// `drop_oldest` of any lane.
    #[inline(never)]
    fn drop_oldest_of(&mut self, lane: Lane)
        requires { 0 < length (queue_on lane self.old) }
        ensures { IsDropped lane self.old self.new }
    {
        match lane {
            Lane::Ping => {
                drop_number(&mut self.pings);
                self.weight -= 1;
            }
            Lane::Auth => {
                drop_number(&mut self.auths);
                self.weight -= 1;
            }
            Lane::Watches => {
                drop_number(&mut self.watches);
                self.weight -= 1;
            }
            Lane::Plain => {
                let weight = self.plain.pop();
                self.weight -= weight;
            }
        }
    }

    /// Removes all requests. Allocates nothing.
    pub fn renew(&mut self)
        ensures { self.new ≡ record { max = self.old.max; ping = []; auth = []; watches = []; plain = [] } }
    {
        self.weight = 0;
        self.pings.clear();
        self.auths.clear();
        self.watches.clear();
        self.plain.renew();
    }

    /// The weight of all requests that wait: 1 each, and 1 more for each part of a multi.
    pub fn weight(&self) -> u32
        ensures value { result ≡ weight_of self.now }
        ensures within { result ≤ self.now.max }
    {
        self.weight
    }

    /// The number of requests that wait.
    pub fn count(&self) -> u32
        ensures value { result ≡ count_of self.now }
        ensures within { result ≤ self.now.max }
    {
        (self.pings.len() + self.auths.len() + self.watches.len() + self.plain.len()) as u32
    }
}
