//! `Frames`: the newest frame of one direction, taken piece by piece.
ghost use Rattle.std.specs.Prelude.{◌≡◌, ◌≤◌, ◌+◌, ◌-◌, ℕ, List, [], ◌++◌, ◌↔◌, length, take, drop, IfOk, IfErr, IfSome, IfNone, OnOk, OnErr, IsTrue, MatchBool, false, Ok, Err, vec_capacity};
ghost use Rattle.zk_frames.specs.{declared.frames.FrameFault.TheVariants.LengthRange, Framing.frame, FramePart.left_of, FramePart.IsAnswer};
ghost use Rattle.zk_frames.specs.Framing.{IsFrame, IsBadLength, IsLessOrMore};
ghost use Rattle.zk_frames.specs.Held.{IsWhole, IsRefused, IsHeld, IsNow, IsLeft, IsTaken, IsRefusal, GoesOnAlways, IsFront};

use crate::cutter::{Standing, cut};
use std::alloc::{AllocError, Global};
use std::marker::Model;

/// What a call took of a piece.
#[derive(Clone, Copy, Debug, PartialEq, Eq)]
pub struct Took {
    /// The number of bytes that were taken, from the front of the piece.
    pub used: usize,
    /// Whether the last of them made a frame whole.
    pub whole: bool,
}

/// Why no more bytes are taken.
#[derive(Clone, Copy, Debug, PartialEq, Eq)]
pub enum FrameFault {
    /// A frame's length is below 0 or above the limit (ZooKeeper's `jute.maxbuffer`).
    LengthRange,
}

/// The newest frame of one direction, its four bytes of length included, in one block of memory that `new` allocates.
#[derive(Drop)]
pub struct Frames {
    limit: u32,
    bytes: Vec<u8>,
    standing: Standing,
}

impl Model for Frames {
    ghost use Rattle.zk_frames.specs.Held.{Held};
    ghost use Rattle.zk_frames.specs.FramePart.{IsSound, HasRoom};

    ghost Value = { Held };

    ghost view = { λ f. record { limit = f.limit; bytes = f.bytes.items } };

    ghost invariant = { λ f. IsSound f.limit f.standing f.bytes.items × HasRoom f.limit f.bytes };
}

impl Frames {
    /// Holds no bytes yet. Payloads are at most `limit` bytes (ZooKeeper's `jute.maxbuffer`); memory for a frame of
    /// that size is allocated now, and no later call allocates.
    ///
    /// # Errors
    ///
    /// `AllocError` if that memory is refused.
    pub fn new(alloc: Global, limit: u32) -> Result<Self, AllocError>
        requires { limit ≤ 16777216 }
        ensures { IfOk result (λ f. f ≡ record { limit = limit; bytes = [] }) }
    {
        let bytes = Vec::with_capacity(alloc, 4 + limit as usize)?;
        Ok(Frames {
            limit,
            bytes,
            standing: Standing::Open,
        })
    }

    /// Takes `piece` up to the end of the first frame that becomes whole, or all of it. A frame that was whole before the
    /// call is dropped first, whatever the result.
    ///
    /// # Errors
    ///
    /// `LengthRange` at the fourth byte of a length below 0 or above the limit, where ZooKeeper's `readLength` closes
    /// the connection. These four bytes are then held, and each later call returns the same and takes nothing.
    pub fn take(&mut self, piece: &[u8]) -> Result<Took, FrameFault>
        ensures limit { self.new.limit ≡ self.old.limit }
        ensures now { IfOk result (λ t. IsNow t.whole self.new) }
        ensures ready { OnOk result (IsRefused self.new → ⊥) }
        // The shortest front of the piece that makes a frame whole, or all of it.
        ensures ok { IfOk result (λ t. (before : List ℕ) → IsLeft self.old before → IsTaken self.old.limit before piece.now t self.new.bytes) }
        ensures err { IfErr result (λ e. (before : List ℕ) → IsLeft self.old before → IsRefusal self.old.limit before piece.now e self.new.bytes) }
        // A length out of range is refused for good.
        ensures again { IsRefused self.old → (result ≡ Err LengthRange) × (self.new ≡ self.old) }
        // The bytes that were taken are whole frames and what is held.
        ensures stream { IfOk result (λ t. GoesOnAlways self.old (take t.used piece.now) t.whole self.new.bytes) }
    {
        if let Standing::Refused = self.standing {
            return Err(FrameFault::LengthRange);
        }
        drop_whole(self.standing, &mut self.bytes);
        let part = cut(self.limit, &self.bytes, piece);
        append(&mut self.bytes, &piece[..part.used]);
        self.standing = part.standing;
        answer(part.standing, part.used)
    }

    /// The number of bytes of the whole frame at the front of `piece`, its length included, if no byte is held; `None`:
    /// undecided. Takes nothing.
    #[inline(always)]
    pub fn front(&self, piece: &[u8]) -> Option<usize>
        ensures { IfSome result (λ used. IsFront self.now.bytes piece.now used (record { limit = self.now.limit; bytes = take used piece.now })) }
    {
        if !self.bytes.is_empty() {
            return None;
        }
        let front = cut(self.limit, &self.bytes, piece);
        match front.standing {
            Standing::Whole => Some(front.used),
            _ => None,
        }
    }

    /// Takes the whole frame at the front of `piece`, if no byte is held, and returns the number of its bytes; `None`:
    /// undecided, and nothing changed.
    #[inline(always)]
    pub fn take_whole(&mut self, piece: &[u8]) -> Option<usize>
        ensures limit { self.new.limit ≡ self.old.limit }
        ensures some { IfSome result (λ used. IsFront self.old.bytes piece.now used self.new) }
        ensures none { IfNone result (self.new ≡ self.old) }
    {
        let used = self.front(piece)?;
        append(&mut self.bytes, &piece[..used]);
        self.standing = Standing::Whole;
        Some(used)
    }

    /// Whether `bytes` are one whole frame; false: they are less than one, or more. What is held doesn't matter.
    ///
    /// # Errors
    ///
    /// `LengthRange` if they begin with a length below 0 or above the limit.
    pub fn is_one(&self, bytes: &[u8]) -> Result<bool, FrameFault>
        ensures ok { IfOk result (λ one. MatchBool one (IsFrame self.now.limit bytes.now) (IsLessOrMore self.now.limit bytes.now)) }
        ensures err { OnErr result ((4 ≤ length bytes.now) × IsBadLength self.now.limit (take 4 bytes.now)) }
        ensures only { IsLessOrMore self.now.limit bytes.now → result ≡ Ok false }
    {
        let front = cut(self.limit, &[], bytes);
        match front.standing {
            Standing::Open => Ok(false),
            Standing::Whole => Ok(front.used == bytes.len()),
            Standing::Refused => Err(FrameFault::LengthRange),
        }
    }

    /// Holds this whole frame, whatever was held. Allocates nothing.
    pub fn put(&mut self, frame: &[u8])
        requires { IsFrame self.old.limit frame.now }
        ensures { self.new ≡ record { limit = self.old.limit; bytes = frame.now } }
    {
        self.renew();
        append(&mut self.bytes, frame);
        self.standing = Standing::Whole;
    }

    /// The payload of the whole frame: its bytes after the length.
    #[inline(always)]
    pub fn payload(&self) -> &[u8]
        requires { IsWhole self.now }
        ensures { self.now.bytes ≡ frame result.now }
    {
        after_header(&self.bytes)
    }

    /// The bytes that are held, those of the length included.
    #[inline(always)]
    pub fn bytes(&self) -> &[u8]
        ensures { result.now ≡ self.now.bytes }
    {
        &self.bytes
    }

    /// Whether the frame is whole.
    pub fn is_whole(&self) -> bool
        ensures { IsTrue result ↔ IsWhole self.now }
    {
        matches!(self.standing, Standing::Whole)
    }

    /// The number of bytes that are held, those of the length included.
    #[inline(always)]
    pub fn held(&self) -> u32
        ensures count { result ≡ length self.now.bytes }
        ensures within { result ≤ 4 + self.now.limit }
        ensures state { IsHeld self.now }
    {
        self.bytes.len() as u32
    }

    /// Forgets the last `count` bytes, all of them held. A frame that loses a byte isn't whole any more.
    pub fn untake(&mut self, count: u32)
        requires taken { IsRefused self.old → ⊥ }
        requires held { count ≤ length self.old.bytes }
        ensures { self.new ≡ record { limit = self.old.limit; bytes = take (length self.old.bytes - count) self.old.bytes } }
    {
        if count == 0 {
            return;
        }
        let left = self.bytes.len() - count as usize;
        self.bytes.truncate(left);
        self.standing = Standing::Open;
    }

    /// Forgets all that is held, a length that was refused too. Allocates nothing.
    #[inline(always)]
    pub fn renew(&mut self)
        ensures { self.new ≡ record { limit = self.old.limit; bytes = [] } }
    {
        self.bytes.clear();
        self.standing = Standing::Open;
    }

    /// Drops the whole frame.
    #[inline(always)]
    pub fn drop_frame(&mut self)
        requires { IsWhole self.old }
        ensures { self.new ≡ record { limit = self.old.limit; bytes = [] } }
    {
        self.renew();
    }
}

/// Appends `more`, for which there is room: allocates nothing.
#[inline(always)]
fn append(bytes: &mut Vec<u8>, more: &[u8])
    requires { length bytes.old.items + length more.now ≤ vec_capacity bytes.old }
    ensures items { bytes.new.items ≡ bytes.old.items ++ more.now }
    ensures room { vec_capacity bytes.old ≤ vec_capacity bytes.new }
{
    match bytes.extend_from_slice(more) {
        Ok(()) => {}
        Err(_) => unreachable!(),
    }
}

/// Drops a frame that is whole.
fn drop_whole(standing: Standing, bytes: &mut Vec<u8>)
    ensures left { bytes.new.items ≡ left_of standing bytes.old.items }
    ensures room { vec_capacity bytes.new ≡ vec_capacity bytes.old }
{
    if let Standing::Whole = standing {
        bytes.clear();
    }
}

/// The result of a call that used `used` bytes, by what is held now.
fn answer(standing: Standing, used: usize) -> Result<Took, FrameFault>
    ensures { IsAnswer standing used result }
{
    match standing {
        Standing::Open => Ok(Took { used, whole: false }),
        Standing::Whole => Ok(Took { used, whole: true }),
        Standing::Refused => Err(FrameFault::LengthRange),
    }
}

#[inline(always)]
fn after_header(frame: &[u8]) -> &[u8]
    requires { 4 ≤ length frame.now }
    ensures { result.now ≡ drop 4 frame.now }
{
    &frame[4..]
}
