//! `Progress`: a recording that is read block by block, and the conversation in it.
ghost use Rattle.std.specs.Prelude.{◌≡◌, ◌≢◌, ◌+◌, ◌^◌, ◌<◌, ◌≤◌, ℕ, List, [], Some, None, IfOk, IfSome, length, take, drop};
ghost use Rattle.zk_talk.specs.{Held.Message, Ending.IsEnding, History.History, History.on, declared.message.Fault.Fault as fault_of};
ghost use Rattle.zk_records.specs.declared.op.Op.TheVariants as ops;
ghost use Rattle.zk_answers.specs.declared.layout.Layout.TheVariants as layouts;
ghost use Rattle.zk_listings.specs.declared.listing.Listing.TheVariants.{All, Last};
ghost use Rattle.zk_listings.specs.Earliest.{TellsBody};
ghost use Rattle.zk_recordings.specs.Reading.{content_of, place_in};
ghost use Rattle.zk_listings.specs.Following as following;
ghost use Rattle.zk_listings.specs.Following.{Follows, Finishes, HasRefused, IsLastingSummary, Takes, TakesTo, TakesContent, Has, Steps};
ghost use Rattle.zk_listings.specs.Gathering.{AdvancesBut, StepsBut};

use crate::listing::{Listing, tell};
use crate::long_frame::Gathered;
use crate::summary::Summary;
use std::alloc::{AllocError, Global};
use zk_answers::Layout;
use zk_recordings::RecordingReader;
use zk_talk::{Ending, Fault, Limits, Side, Talk};

/// The bytes from `at` on.
pub fn rest(bytes: &[u8], at: usize) -> &[u8]
    requires { at ≤ length bytes.now }
    ensures { result.now ≡ drop at bytes.now }
{
    &bytes[at..]
}

/// Gives bytes of one side to the conversation, and appends no line.
#[inline(always)]
fn pass_all(talk: &mut Talk, side: Side, bytes: &[u8]) -> Option<Fault>
    ensures limits { talk.new.limits ≡ talk.old.limits }
    ensures taken { (lines : List ℕ) → Takes Last talk.old lines (on side bytes.now) result talk.new lines }
{
    let mut at = 0;
    while at < bytes.len() {
        let piece = rest(bytes, at);
        match talk.pass(side, piece) {
            Ok(stepped) => at += stepped.used,
            Err(fault) => return Some(fault),
        }
    }
    None
}

/// `pass_all`.
// A loop of its own for each side: a test of the side for each frame is 1 to 2% of the instructions of `check`.
pub(crate) fn judge(talk: &mut Talk, side: Side, bytes: &[u8]) -> Option<Fault>
    ensures limits { talk.new.limits ≡ talk.old.limits }
    ensures taken { (lines : List ℕ) → Takes Last talk.old lines (on side bytes.now) result talk.new lines }
{
    match side {
        Side::Client => pass_all(talk, Side::Client, bytes),
        Side::Server => pass_all(talk, Side::Server, bytes),
    }
}

/// Gives bytes of one side to the conversation, and appends the lines of its messages, each borrowed from its frame.
fn list(
    talk: &mut Talk,
    side: Side,
    bytes: &[u8],
    lines: &mut Vec<u8>,
) -> Result<Option<Fault>, AllocError>
    ensures limits { talk.new.limits ≡ talk.old.limits }
    ensures taken { IfOk result (λ refused. Takes All talk.old lines.old.items (on side bytes.now) refused talk.new lines.new.items) }
{
    let mut at = 0;
    while at < bytes.len() {
        let piece = rest(bytes, at);
        match talk.step(side, piece) {
            Ok(stepped) => at += stepped.used,
            Err(fault) => return Ok(Some(fault)),
        }
        tell(talk.view(side), lines)?;
    }
    Ok(None)
}

/// Gives bytes of one side to the conversation, and appends what `listing` has of its messages.
#[inline(always)]
fn take(
    talk: &mut Talk,
    side: Side,
    bytes: &[u8],
    listing: Listing,
    lines: &mut Vec<u8>,
) -> Result<Option<Fault>, AllocError>
    ensures limits { talk.new.limits ≡ talk.old.limits }
    ensures taken { IfOk result (λ refused. Takes listing talk.old lines.old.items (on side bytes.now) refused talk.new lines.new.items) }
{
    match listing {
        Listing::All => list(talk, side, bytes, lines),
        Listing::Last => Ok(judge(talk, side, bytes)),
    }
}

/// `take`; `found` becomes the summary of a fault.
// Where no lines are listed the first frame is passed here: most pieces are one frame, of which no result in memory is made.
#[inline(always)]
fn take_piece(
    talk: &mut Talk,
    side: Side,
    bytes: &[u8],
    listing: Listing,
    lines: &mut Vec<u8>,
    found: &mut Option<Summary>,
) -> Result<(), AllocError>
    requires { found.old ≡ None }
    ensures limits { talk.new.limits ≡ talk.old.limits }
    ensures taken { IfOk result (λ _. TakesTo listing talk.old lines.old.items (on side bytes.now) found.new talk.new lines.new.items) }
{
    match listing {
        Listing::All => {
            let Some(fault) = list(talk, side, bytes, lines)? else {
                return Ok(());
            };
            *found = ended_by(Some(fault));
            Ok(())
        }
        Listing::Last => match talk.pass(side, bytes) {
            Ok(stepped) => {
                if stepped.used == bytes.len() {
                    return Ok(());
                }
                let behind = rest(bytes, stepped.used);
                *found = ended_by(judge(talk, side, behind));
                Ok(())
            }
            Err(fault) => {
                *found = Some(Summary::Ended(Ending::Refused(fault)));
                Ok(())
            }
        },
    }
}

/// Gives the first bytes of a block to the conversation, if they are content of a side. The conversation begins with the
/// first of them, and isn't moved after that.
fn take_content(
    alloc: Global,
    limits: Limits,
    talk: &mut Option<Talk>,
    side: Option<Side>,
    bytes: &[u8],
    listing: Listing,
    lines: &mut Vec<u8>,
) -> Result<Option<Fault>, AllocError>
    ensures gives { IfOk result (λ refused. TakesContent limits listing talk.old lines.old.items (content_of side bytes.now) refused talk.new lines.new.items) }
    ensures same { side ≡ None → talk.new ≡ talk.old }
{
    let Some(side) = side else {
        return Ok(None);
    };
    match talk {
        Some(now) => take(now, side, bytes, listing, lines),
        None => {
            let mut now = Talk::new(alloc, limits)?;
            let refused = take(&mut now, side, bytes, listing, lines)?;
            *talk = Some(now);
            Ok(refused)
        }
    }
}

/// A recording as far as it was read, and the conversation in it.
#[derive(Drop)]
pub(crate) struct Progress {
    alloc: Global,
    /// The limits of a recording that has none.
    pub(crate) limits: Limits,
    pub(crate) reader: RecordingReader,
    /// The conversation, from the first byte of content on.
    pub(crate) talk: Option<Talk>,
}

impl Progress {
    /// Nothing was read yet. Recordings that have no limits are read under `limits`.
    pub fn new(alloc: Global, limits: Limits) -> Progress
        ensures start { Follows limits [] [] result }
        ensures place { place_in result.reader ≡ 0 }
    {
        Progress {
            alloc,
            limits,
            reader: RecordingReader::new(),
            talk: None,
        }
    }

    /// Takes the first bytes of a block, and returns how many. `found` becomes the recording's summary, if the block
    /// decides it, whatever follows.
    fn advance(
        &mut self,
        block: &[u8],
        listing: Listing,
        lines: &mut Vec<u8>,
        found: &mut Option<Summary>,
    ) -> Result<usize, AllocError>
        requires some { 0 < length block.now }
        requires room { place_in self.old.reader + length block.now < 2 ^ 64 }
        ensures within { IfOk result (λ used. (0 < used) × (used ≤ length block.now)) }
        ensures place { IfOk result (λ used. place_in self.new.reader ≤ place_in self.old.reader + used) }
        ensures steps { IfOk result (λ used. Steps listing self.old lines.old.items block.now used found.new self.new lines.new.items) }
    {
        let run = self.reader.next(block);
        let limits = self.reader.limits(self.limits);
        let bytes = &block[..run.used];
        let refused = take_content(
            self.alloc,
            limits,
            &mut self.talk,
            run.side,
            bytes,
            listing,
            lines,
        )?;
        *found = self.lasting_summary(refused);
        Ok(run.used)
    }

    /// The recording's summary that stays, whatever follows: `Refused`, if the conversation was refused for the fault in
    /// `refused`; else by the damage of what was read. `None` if there is neither: what follows may decide.
    #[inline(always)]
    pub fn lasting_summary(&self, refused: Option<Fault>) -> Option<Summary>
        ensures { IsLastingSummary self.now.reader refused result }
    {
        match refused {
            Some(_) => ended_by(refused),
            None => match self.reader.damage() {
                Some(damage) => Some(Summary::Broken(damage)),
                None => None,
            },
        }
    }

    /// `advance`; a piece that is whole at the front of the block is taken at once, head and content, if the conversation
    /// has begun. If no line is listed, long frames are gathered then.
    // Stands for two calls of `advance` there, which take the head and the content.
    #[inline(always)]
    fn advance_far(
        &mut self,
        block: &[u8],
        listing: Listing,
        gathered: &mut Gathered,
        lines: &mut Vec<u8>,
        found: &mut Option<Summary>,
    ) -> Result<usize, AllocError>
        requires none { found.old ≡ None }
        requires some { 0 < length block.now }
        requires room { place_in self.old.reader + length block.now < 2 ^ 64 }
        requires listed { listing ≡ All → gathered.old.bytes ≡ [] }
        ensures within { IfOk result (λ used. (0 < used) × (used ≤ length block.now)) }
        ensures place { IfOk result (λ used. place_in self.new.reader ≤ place_in self.old.reader + used) }
        ensures listed { IfOk result (λ _. listing ≡ All → gathered.new.bytes ≡ []) }
        ensures steps { IfOk result (λ used. StepsBut gathered.old listing self.old lines.old.items block.now used found.new gathered.new self.new lines.new.items) }
    {
        let Some(talk) = &mut self.talk else {
            return self.advance(block, listing, lines, found);
        };
        if gathered.is_empty() {
            if let Some(piece) = self.reader.next_piece(block) {
                let content = &block[piece.head..piece.used];
                take_piece(talk, piece.side, content, listing, lines, found)?;
                return Ok(piece.used);
            }
        }
        match listing {
            Listing::All => self.advance(block, listing, lines, found),
            Listing::Last => self.advance_gathering(block, gathered, found),
        }
    }

    /// Takes a block, and appends the lines of its messages. Returns the recording's summary if it is decided, whatever
    /// follows.
    pub fn feed(
        &mut self,
        block: &[u8],
        listing: Listing,
        gathered: &mut Gathered,
        lines: &mut Vec<u8>,
    ) -> Result<Option<Summary>, AllocError>
        requires room { place_in self.old.reader + length block.now < 2 ^ 64 }
        requires listed { listing ≡ All → gathered.old.bytes ≡ [] }
        ensures place { IfOk result (λ found. found ≡ None → place_in self.new.reader ≤ place_in self.old.reader + length block.now) }
        ensures listed { IfOk result (λ _. listing ≡ All → gathered.new.bytes ≡ []) }
        ensures advances { IfOk result (λ found. AdvancesBut gathered.old listing self.old lines.old.items block.now found gathered.new self.new lines.new.items) }
    {
        let mut at = 0;
        let mut found = None;
        while at < block.len() {
            at += self.advance_far(rest(block, at), listing, gathered, lines, &mut found)?;
            if let Some(summary) = found {
                return Ok(Some(summary));
            }
        }
        Ok(None)
    }

    /// The layout and the bytes of the body in which the fault was found.
    pub fn refused_body(&self) -> Option<(Layout, &[u8])>
        ensures tells { (limits : Limits) (h : History) (M : List Message) (f : fault_of) → HasRefused limits self.now.talk h M f → TellsBody limits h f result }
        ensures small { IfSome result (λ b. length b.1.now ≤ 16777216) }
        ensures known { IfSome result (λ b. b.0 ≢ layouts.Answered ops.Multi) }
    {
        match &self.talk {
            Some(talk) => talk.refused_body(),
            None => None,
        }
    }

    /// The summary of the recording if it ends here.
    pub fn finish(&self) -> Summary
        ensures { (limits : Limits) (x : List ℕ) (messages : List Message) → Follows limits x messages self.now → Finishes limits x messages self.now.talk result }
    {
        match self.reader.finish() {
            Some(damage) => Summary::Broken(damage),
            None => Summary::Ended(ending(&self.talk)),
        }
    }
}

/// The summary of a recording whose conversation was refused for the fault in `refused`; `None` if it wasn't refused.
#[inline(always)]
pub(crate) fn ended_by(refused: Option<Fault>) -> Option<Summary>
    ensures { result ≡ following.ended_by refused }
{
    match refused {
        Some(fault) => Some(Summary::Ended(Ending::Refused(fault))),
        None => None,
    }
}

/// How the history of a talk ends; without a talk it has no bytes.
fn ending(talk: &Option<Talk>) -> Ending
    ensures { (limits : Limits) (h : History) (messages : List Message) → Has limits talk.now h messages → IsEnding limits h result }
{
    match talk {
        Some(talk) => talk.finish(),
        None => Ending::Whole { unanswered: 0 },
    }
}
