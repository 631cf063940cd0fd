//! `Stream`: one side's bytes, and what a piece does to its frame.
ghost use Rattle.std.specs.Prelude.{◌≡◌, ◌≤◌, ◌<◌, ◌+◌, ◌^◌, ℕ, [], length, take, IfOk, IfSome, IfNone, MatchOption};
ghost use Rattle.zk_frames.specs.Framing.{frame, IsBeginning, IsFrame};
ghost use Rattle.zk_talk.specs.{Advance.IsAdvance, Streams.IsAtFrame, Streams.TakenBack, Streams.passed, Streams.kept_now, Streams.held_in, Offered.IsOffered};
ghost use Rattle.zk_talk.specs.declared.stream.Advance.TheVariants.{Within, Whole};

use std::alloc::{AllocError, Global};
use std::marker::Model;
use zk_frames::{FrameFault, Frames};
use zk_jute::Reason;

/// What a piece does to the frame that a side is at.
pub enum Advance {
    /// All of it was taken, and the frame isn't whole.
    Within,
    /// This number of its bytes was taken, and the frame is whole.
    Whole(usize),
    /// The last of this number of its bytes is refused, for this reason.
    Refused(usize, Reason),
}

/// One side of a conversation: how many frames and bytes of it have come, and those of its newest frame.
#[derive(Drop)]
pub struct Stream {
    frames: Frames,
    /// Whether the frame is whole and counted, and kept until the side's next call.
    kept: bool,
    count: u64,
    size: u64,
}

impl Model for Stream {
    ghost use Rattle.std.specs.Prelude.{◌≡◌, true};
    ghost use Rattle.zk_frames.specs.Framing.{IsFrame};
    ghost use Rattle.zk_talk.specs.Streams.{StreamState, held_where, kept_where};

    ghost Value = { StreamState };

    ghost view = { λ s. record { limit = s.frames.limit; held = held_where s.kept s.frames.bytes; kept = kept_where s.kept s.frames.bytes; count = s.count; size = s.size } };

    ghost invariant = { λ s. s.kept ≡ true → IsFrame s.frames.limit s.frames.bytes };
}

/// The number of bytes of `piece` that a side may still send after `size` bytes.
#[inline(always)]
fn within(size: u64, piece: &[u8]) -> usize
    requires { size < 2 ^ 62 }
    ensures fits { size + result < 2 ^ 62 }
    ensures part { result ≤ length piece.now }
    ensures rest { result < length piece.now → size + result + 1 ≡ 2 ^ 62 }
{
    let room = 4611686018427387903 - size;
    if piece.len() as u64 > room {
        room as usize
    } else {
        piece.len()
    }
}

#[inline(always)]
fn first_bytes(piece: &[u8], used: usize) -> &[u8]
    requires { used ≤ length piece.now }
    ensures { result.now ≡ take used piece.now }
{
    &piece[..used]
}

/// The payload of the frame `piece[..used]`.
#[inline(always)]
pub fn carried(piece: &[u8], used: usize) -> &[u8]
    requires part { used ≤ length piece.now }
    requires whole { (limit : ℕ) × IsFrame limit (take used piece.now) }
    ensures { take used piece.now ≡ frame result.now }
{
    &piece[4..used]
}

/// What `piece` does to the frame of a side that has sent `size` bytes.
fn go_forward(frames: &mut Frames, size: u64, piece: &[u8]) -> Advance
    requires begins { IsBeginning frames.old.limit frames.old.bytes }
    requires size { size < 2 ^ 62 }
    ensures limit { frames.new.limit ≡ frames.old.limit }
    ensures advance { IsAdvance frames.old.limit size frames.old.bytes piece.now result frames.new.bytes }
{
    let room = within(size, piece);
    let held = frames.held();
    match frames.take(first_bytes(piece, room)) {
        Ok(took) => {
            if took.whole {
                Advance::Whole(took.used)
            } else if room < piece.len() {
                Advance::Refused(room + 1, Reason::StreamEnd)
            } else {
                Advance::Within
            }
        }
        Err(FrameFault::LengthRange) => Advance::Refused(4 - held as usize, Reason::LengthRange),
    }
}

impl Stream {
    /// A side that has sent nothing; its payloads are at most `limit` bytes.
    pub fn new(alloc: Global, limit: u32) -> Result<Self, AllocError>
        requires { limit ≤ 16777216 }
        ensures { IfOk result (λ s. s ≡ record { limit = limit; held = []; kept = []; count = 0; size = 0 }) }
    {
        let frames = Frames::new(alloc, limit)?;
        Ok(Stream {
            frames,
            kept: false,
            count: 0,
            size: 0,
        })
    }

    /// The side as `new` makes it with the same limit. Allocates nothing.
    pub fn renew(&mut self)
        ensures { self.new ≡ record { limit = self.old.limit; held = []; kept = []; count = 0; size = 0 } }
    {
        self.frames.renew();
        self.kept = false;
        self.count = 0;
        self.size = 0;
    }

    /// The number of frames that were whole.
    #[inline(always)]
    pub fn count(&self) -> u64
        ensures { result ≡ self.now.count }
    {
        self.count
    }

    /// The number of bytes before the frame that is whole now, or of all if none is.
    #[inline(always)]
    pub fn size(&self) -> u64
        ensures { result ≡ self.now.size }
    {
        self.size
    }

    /// The number of bytes that are held of a frame that isn't counted.
    pub fn held(&self) -> u32
        ensures count { result ≡ length self.now.held }
        ensures within { result ≤ 4 + self.now.limit }
    {
        if self.kept { 0 } else { self.frames.held() }
    }

    /// The number of bytes that are held, those of a kept frame included.
    pub fn held_and_kept(&self) -> u32
        ensures count { result ≡ length self.now.held + length self.now.kept }
        ensures within { result ≤ 4 + self.now.limit }
    {
        self.frames.held()
    }

    /// The payload of the frame that is whole and isn't counted.
    #[inline(always)]
    pub fn payload(&self) -> &[u8]
        requires { IsFrame self.now.limit self.now.held }
        ensures { self.now.held ≡ frame result.now }
    {
        self.frames.payload()
    }

    /// The frame that is whole and isn't counted, its length included.
    #[inline(always)]
    pub fn frame(&self) -> &[u8]
        requires { IsFrame self.now.limit self.now.held }
        ensures { result.now ≡ self.now.held }
    {
        self.frames.bytes()
    }

    /// The payload of the frame that is whole and isn't counted; `None` if there is none.
    pub fn refused_payload(&self) -> Option<&[u8]>
        ensures { MatchOption result (IsFrame self.now.limit self.now.held → ⊥) (λ p. (self.now.held ≡ frame p.now) × (length p.now ≤ self.now.limit)) }
    {
        if !self.kept && self.frames.is_whole() {
            Some(self.frames.payload())
        } else {
            None
        }
    }

    /// The payload of the kept frame; `None` if there is none.
    pub fn kept_payload(&self) -> Option<&[u8]>
        ensures { MatchOption result (self.now.kept ≡ []) (λ p. self.now.kept ≡ frame p.now) }
    {
        if self.kept {
            Some(self.frames.payload())
        } else {
            None
        }
    }

    /// Drops the kept frame.
    #[inline(always)]
    pub fn drop_kept(&mut self)
        ensures { self.new ≡ record self.old { kept = [] } }
    {
        if self.kept {
            self.frames.drop_frame();
            self.kept = false;
        }
    }

    /// Takes the piece up to the end of the first frame that becomes whole, or all of it.
    pub fn take(&mut self, piece: &[u8]) -> Advance
        requires begins { IsBeginning self.old.limit self.old.held }
        requires dropped { self.old.kept ≡ [] }
        requires size { self.old.size < 2 ^ 62 }
        ensures stays { self.new ≡ record self.old { held = self.new.held } }
        ensures advance { IsAdvance self.old.limit self.old.size self.old.held piece.now result self.new.held }
    {
        go_forward(&mut self.frames, self.size, piece)
    }

    /// The number of bytes of the whole frame at the front of `piece`, its length included, if no byte is held; `None`:
    /// undecided. Takes nothing.
    #[inline(always)]
    pub fn front(&self, piece: &[u8]) -> Option<usize>
        requires dropped { self.now.kept ≡ [] }
        requires size { self.now.size < 2 ^ 62 }
        ensures { IfSome result (λ used. (self.now.held ≡ []) × IsAdvance self.now.limit self.now.size self.now.held piece.now (Whole used) (take used piece.now)) }
    {
        let room = within(self.size, piece);
        self.frames.front(first_bytes(piece, room))
    }

    /// What `take` would do with these bytes, if they are one frame, or begin with a length out of range; else `Within`: they
    /// are less than one frame, or more, or another is begun. Takes nothing, and a kept frame doesn't matter.
    pub fn offered(&self, bytes: &[u8]) -> Advance
        requires size { self.now.size < 2 ^ 62 }
        ensures { IsOffered self.now bytes.now result }
    {
        if self.held() > 0 {
            return Advance::Within;
        }
        let room = within(self.size, bytes);
        match self.frames.is_one(bytes) {
            Ok(false) => Advance::Within,
            Ok(true) => {
                if room < bytes.len() {
                    Advance::Refused(room + 1, Reason::StreamEnd)
                } else {
                    Advance::Whole(bytes.len())
                }
            }
            Err(FrameFault::LengthRange) => {
                if room < 4 {
                    Advance::Refused(room + 1, Reason::StreamEnd)
                } else {
                    Advance::Refused(4, Reason::LengthRange)
                }
            }
        }
    }

    /// Takes the whole frame at the front of `piece`, if no byte is held, and returns the number of its bytes; `None`:
    /// undecided, and nothing changed.
    #[inline(always)]
    pub fn take_whole(&mut self, piece: &[u8]) -> Option<usize>
        requires dropped { self.old.kept ≡ [] }
        requires size { self.old.size < 2 ^ 62 }
        ensures stays { self.new ≡ record self.old { held = self.new.held } }
        ensures some { IfSome result (λ used. (self.old.held ≡ []) × IsAdvance self.old.limit self.old.size self.old.held piece.now (Whole used) self.new.held) }
        ensures none { IfNone result (self.new ≡ self.old) }
    {
        let room = within(self.size, piece);
        self.frames.take_whole(first_bytes(piece, room))
    }

    /// Counts the `used` bytes that came; the frame isn't whole.
    pub fn go_on(&mut self, used: usize)
        requires size { self.old.size + used < 2 ^ 62 }
        ensures { self.new ≡ record self.old { size = self.old.size + used } }
    {
        self.size += used as u64;
    }

    /// The last `used` bytes are not taken after all.
    pub fn take_back(&mut self, used: usize)
        requires { IsAtFrame self.old used }
        ensures { TakenBack self.old used self.new }
    {
        self.frames.untake(used as u32);
    }

    /// Counts the whole frame, whose last `used` bytes are new, and drops it.
    pub fn pass(&mut self, used: usize)
        requires { IsAtFrame self.old used }
        ensures { self.new ≡ passed self.old used }
    {
        self.frames.drop_frame();
        self.count += 1;
        self.size += used as u64;
    }

    /// Counts a whole frame of `used` bytes, none of which is held.
    #[inline(always)]
    pub fn pass_whole(&mut self, used: usize)
        requires none { (self.old.held ≡ []) × (self.old.kept ≡ []) }
        requires fits { (self.old.size + used < 2 ^ 62) × (self.old.count ≤ self.old.size) }
        ensures { self.new ≡ passed self.old used }
    {
        self.count += 1;
        self.size += used as u64;
    }

    /// Counts a whole frame, none of which is held, and keeps it in place of the kept one.
    pub fn keep_whole(&mut self, bytes: &[u8])
        requires none { self.old.held ≡ [] }
        requires whole { IsFrame self.old.limit bytes.now }
        requires fits { (self.old.size + length bytes.now < 2 ^ 62) × (self.old.count ≤ self.old.size) }
        ensures { self.new ≡ kept_now (held_in self.old bytes.now) (length bytes.now) }
    {
        self.frames.put(bytes);
        self.kept = true;
        self.count += 1;
        self.size += bytes.len() as u64;
    }

    /// Counts the whole frame, whose last `used` bytes are new, and keeps it.
    #[inline(always)]
    pub fn keep(&mut self, used: usize)
        requires { IsAtFrame self.old used }
        ensures { self.new ≡ kept_now self.old used }
    {
        self.kept = true;
        self.count += 1;
        self.size += used as u64;
    }
}
