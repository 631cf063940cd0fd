//! Long frames that go on after a block: their bytes are read one after another, and given to the conversation when they are
//! whole, so that they aren't copied.
ghost use Rattle.std.specs.Prelude.{◌≡◌, ◌≢◌, ◌+◌, ◌^◌, ◌<◌, ◌≤◌, ◌++◌, [], None, List, ℕ, pos, IfOk, IsTrue, IfSome, length};
ghost use Rattle.zk_frames.specs.Framing.{IsBeginning};
ghost use Rattle.zk_talk.specs.{Fault.side_limit, History.on, declared.limits.Limits.Limits as limits_of};
ghost use Rattle.zk_listings.specs.{declared.listing.Listing.TheVariants.Last, Following.Takes};
ghost use Rattle.zk_listings.specs.Gathering.{Begins, Gathers, GathersIn, Flushes, IsNextRead, StepsBut, TakesRead, Turns};
ghost use Rattle.zk_recordings.specs.Reading.{IsInContent, content_of, place_in};

use crate::engines::BLOCK;
use crate::long_frame::Gathered;
use crate::progress::{Progress, ended_by, judge};
use crate::summary::Summary;
use std::alloc::AllocError;
use zk_jute::int_at;
use zk_talk::{Fault, Limits, Side, Talk};

/// The least number of bytes of a long piece, for whose head a read of its own is worth while.
const LONG: u32 = 32_768;

/// The number of bytes that are read for the head of a piece; it has 5 or 13.
const HEAD: usize = 16;

/// What a run reads next.
#[derive(Clone, Copy)]
pub(crate) enum NextRead {
    /// At most this number of bytes, whatever they are.
    Block(usize),
    /// At most this number of bytes of content, which come after those that are gathered.
    Content(usize),
}

/// The longest payload of `side`, in bytes.
fn limit_of(limits: &Limits, side: Side) -> u32
    ensures { result ≡ side_limit limits.now side }
{
    match side {
        Side::Client => limits.client(),
        Side::Server => limits.server(),
    }
}

/// `length`, if it is that of a payload of at least a block, and of at most `limit` bytes.
fn long_within(limit: u32, length: i32) -> Option<u32>
    ensures { IfSome result (λ n. (length ≡ pos n) × (n ≤ limit)) }
{
    if length < BLOCK as i32 || length as u32 > limit {
        return None;
    }
    Some(length as u32)
}

/// Whether `bytes` end within a long frame that begins with them, and whose payload has at most `limit` bytes.
fn begins_long(limit: u32, bytes: &[u8]) -> bool
    ensures { IsTrue result → IsBeginning limit bytes.now }
{
    let Ok((length, place)) = int_at(bytes, 0) else {
        return false;
    };
    match long_within(limit, length) {
        Some(length) => bytes.len() - place < length as usize,
        None => false,
    }
}

/// Whether `bytes` of `side` begin a long frame, and the conversation holds none of that side.
fn may_wait(talk: &Talk, limits: &Limits, side: Side, bytes: &[u8]) -> bool
    ensures { IsTrue result → Begins limits.now talk.now (record { side = side; bytes = bytes.now }) }
{
    talk.begun(side) == 0 && begins_long(limit_of(limits, side), bytes)
}

/// Gives what is gathered to the conversation; what is gathered next is of `side`.
fn settle(talk: &mut Talk, gathered: &mut Gathered, side: Side) -> Option<Fault>
    ensures limits { talk.new.limits ≡ talk.old.limits }
    ensures empty { gathered.new ≡ record { side = side; bytes = [] } }
    ensures taken { (lines : List ℕ) → Takes Last talk.old lines (on gathered.old.side gathered.old.bytes) result talk.new lines }
{
    let refused = judge(talk, gathered.side(), gathered.bytes());
    gathered.begin(side);
    refused
}

/// Gives what is gathered to the conversation, unless it is the beginning of a frame.
fn hand_over(talk: &mut Talk, gathered: &mut Gathered, limits: &Limits) -> Option<Fault>
    ensures limits { talk.new.limits ≡ talk.old.limits }
    ensures gathers { Gathers limits.now talk.old gathered.old [] result talk.new gathered.new }
{
    let side = gathered.side();
    if may_wait(talk, limits, side, gathered.bytes()) {
        return None;
    }
    settle(talk, gathered, side)
}

/// Gives what is gathered to the conversation, if it isn't of `side`.
fn turn_to(talk: &mut Talk, gathered: &mut Gathered, side: Side) -> Option<Fault>
    ensures limits { talk.new.limits ≡ talk.old.limits }
    ensures side { gathered.new.side ≡ side }
    ensures turns { (limits : limits_of) → Turns limits talk.old gathered.old result talk.new gathered.new }
{
    if side == gathered.side() {
        return None;
    }
    settle(talk, gathered, side)
}

/// Takes content: it is gathered if it goes on with what is, or begins a long frame, else given to the
/// conversation, after what is gathered.
fn gather(
    talk: &mut Talk,
    gathered: &mut Gathered,
    limits: &Limits,
    side: Side,
    bytes: &[u8],
) -> Result<Option<Fault>, AllocError>
    ensures limits { talk.new.limits ≡ talk.old.limits }
    ensures gathers { IfOk result (λ refused. Gathers limits.now talk.old gathered.old (on side bytes.now) refused talk.new gathered.new) }
{
    if let Some(fault) = turn_to(talk, gathered, side) {
        return Ok(Some(fault));
    }
    if gathered.is_empty() && !may_wait(talk, limits, side, bytes) {
        return Ok(judge(talk, side, bytes));
    }
    gathered.append(bytes)?;
    Ok(hand_over(talk, gathered, limits))
}

/// Takes content, or bytes that are none. The conversation has begun.
fn gather_run(
    talk: &mut Option<Talk>,
    gathered: &mut Gathered,
    limits: &Limits,
    side: Option<Side>,
    bytes: &[u8],
) -> Result<Option<Fault>, AllocError>
    requires { talk.old ≢ None }
    ensures gathers { IfOk result (λ refused. GathersIn limits.now talk.old gathered.old (content_of side bytes.now) refused talk.new gathered.new) }
{
    let Some(side) = side else {
        return Ok(None);
    };
    let Some(talk) = talk else { unreachable!() };
    gather(talk, gathered, limits, side, bytes)
}

impl Progress {
    /// `advance`; content is gathered, where it goes on with what is gathered or begins a long frame. The conversation has
    /// begun.
    #[inline(never)]
    pub(crate) fn advance_gathering(
        &mut self,
        block: &[u8],
        gathered: &mut Gathered,
        found: &mut Option<Summary>,
    ) -> Result<usize, AllocError>
        requires begun { self.old.talk ≢ None }
        requires some { 0 < length block.now }
        requires room { place_in self.old.reader + length block.now < 2 ^ 64 }
        ensures within { IfOk result (λ used. (0 < used) × (used ≤ length block.now)) }
        ensures place { IfOk result (λ used. place_in self.new.reader ≤ place_in self.old.reader + used) }
        ensures steps { IfOk result (λ used. (lines : List ℕ) → StepsBut gathered.old Last self.old lines block.now used found.new gathered.new self.new lines) }
    {
        let run = self.reader.next(block);
        let limits = self.reader.limits(self.limits);
        let bytes = &block[..run.used];
        let refused = gather_run(&mut self.talk, gathered, &limits, run.side, bytes)?;
        *found = self.lasting_summary(refused);
        Ok(run.used)
    }

    /// What is read next: where a long frame is gathered, its pieces are long and earlier frames left room, its content as far
    /// as the piece has it, and then no more than the head of the next one and some bytes; else a block.
    pub fn next_read(&self, gathered: &Gathered) -> NextRead
        ensures { IsNextRead self.now gathered.now result }
    {
        let spare = gathered.spare();
        if gathered.is_empty() || spare == 0 {
            return NextRead::Block(BLOCK);
        }
        if self.talk.is_none() || self.reader.piece_size() < LONG {
            return NextRead::Block(BLOCK);
        }
        match self.reader.content() {
            Some((side, left)) if side == gathered.side() => {
                let most = BLOCK.min(left as usize);
                if most > spare {
                    return NextRead::Block(BLOCK);
                }
                NextRead::Content(most)
            }
            Some(_) => NextRead::Block(BLOCK),
            None => NextRead::Block(HEAD),
        }
    }

    /// Takes the last `count` gathered bytes, content that was read after the others. Returns the recording's summary if it is
    /// decided, whatever follows.
    pub fn take_read(&mut self, gathered: &mut Gathered, count: usize) -> Option<Summary>
        requires begun { self.old.talk ≢ None }
        requires within { (left : ℕ) × IsInContent self.old.reader gathered.old.side left × (count ≤ left) }
        requires small { count ≤ 65536 }
        requires room { place_in self.old.reader + count < 2 ^ 64 }
        ensures place { place_in self.new.reader ≤ place_in self.old.reader + count }
        ensures advances { TakesRead self.old gathered.old count result self.new gathered.new }
    {
        self.reader.take_content(count as u32);
        let limits = self.reader.limits(self.limits);
        let Some(talk) = &mut self.talk else {
            unreachable!()
        };
        ended_by(hand_over(talk, gathered, &limits))
    }

    /// Gives what is gathered to the conversation. Returns the recording's summary if it is decided, whatever follows.
    pub fn flush(&mut self, gathered: &mut Gathered) -> Option<Summary>
        ensures advances { Flushes gathered.old self.old result gathered.new self.new }
        ensures empty { gathered.new.bytes ≡ [] }
    {
        if gathered.is_empty() {
            return None;
        }
        let side = gathered.side();
        let Some(talk) = &mut self.talk else {
            gathered.begin(side);
            return None;
        };
        ended_by(settle(talk, gathered, side))
    }
}
