//! `Builder`: lines that are read block by block, and the pieces of their messages.
ghost use Rattle.std.specs.Prelude.{◌≡◌, ◌≢◌, ◌+◌, ◌^◌, ◌<◌, ◌≤◌, ◌++◌, ℕ, List, [], true, false, IfOk, IfErr, IsErrOf, Err, OnOk, OnErr, IsTrue, ◌↔◌, length, take, slice_index};
ghost use Rattle.std.specs.{List.All, Int.to_be_bytes};
ghost use Rattle.zk_talk.specs.declared.limits.Limits.{Limits};
ghost use Rattle.zk_runs.specs.{declared.builder.Halt.TheVariants.Fails, Building.IsDotted, Accepting.IfSpared};
ghost use Rattle.zk_listings.specs.declared.listing.RunFault.TheVariants.{Read, Write, Memory};
ghost use Rattle.zk_runs.specs.Stepping.{IsBegun, TakesLine, HaltsOn, GathersIn, StopsGathering, TakesIn, HaltsWithin, IsAnswered, HasWrittenFirst};

use crate::build_result::Built;
use crate::piece::put_head;
use memchr::memchr;
use std::alloc::{AllocError, Global};
use zk_lines::{LineFault, LineReason, encode_line, ending_line};
use zk_listings::{RunFault, Sink, rest, write_whole};
use zk_talk::{Ending, Limits, SayFault, Speaker};

/// The fault of a line that begins with a dot and isn't the ending line that is due, or of a line after that one.
const NO_ENDING: LineFault = LineFault {
    column: 1,
    reason: LineReason::Ending,
};

/// Why no more lines are taken: one is refused, or the run fails.
#[derive(Clone, Copy)]
pub(crate) enum Halt {
    Refused(Built),
    Fails(RunFault),
}

impl Halt {
    ghost use Rattle.zk_runs.specs.Accepting.{line_halt, say_halt, answer_of};

    fn at_line(line: u64, fault: LineFault) -> Halt
        ensures { result ≡ line_halt line fault }
    {
        match fault.reason {
            LineReason::NoMemory => Halt::Fails(RunFault::Memory),
            _ => Halt::Refused(Built::LineRefused { line, fault }),
        }
    }

    fn at_message(line: u64, fault: SayFault) -> Halt
        ensures { result ≡ say_halt line fault }
    {
        match fault {
            SayFault::NoMemory => Halt::Fails(RunFault::Memory),
            _ => Halt::Refused(Built::SayRefused { line, fault }),
        }
    }

    /// What a run returns that halts here.
    pub fn answer(self) -> Result<Built, RunFault>
        ensures { result ≡ answer_of self }
    {
        match self {
            Halt::Refused(built) => Ok(built),
            Halt::Fails(fault) => Err(fault),
        }
    }
}

impl From<AllocError> for Halt {
    ghost from_gives = { λ _ halt. halt ≡ Fails Memory };

    fn from(_error: AllocError) -> Halt {
        Halt::Fails(RunFault::Memory)
    }
}

/// The number of bytes before the first line feed, or of all of them.
fn len_before_feed(bytes: &[u8]) -> usize
    ensures within { result ≤ length bytes.now }
    ensures before { All (λ b. b ≢ 10) (take result bytes.now) }
    ensures found { result < length bytes.now → slice_index bytes.now result ≡ 10 }
{
    match memchr(b'\n', bytes) {
        Some(at) => at,
        None => bytes.len(),
    }
}

fn is_dotted(line: &[u8]) -> bool
    ensures { IsTrue result ↔ IsDotted line.now }
{
    line.first() == Some(&b'.')
}

/// Takes lines, one after another: says their messages, and makes the pieces.
#[derive(Drop)]
struct Scribe {
    speaker: Speaker,
    lines: u64,
    ended: bool,
}

impl Scribe {
    /// Takes the line of a message: its payload is read into its place in `due`, and said there.
    #[inline(always)]
    fn say(&mut self, line: &[u8], due: &mut Vec<u8>) -> Result<(), Halt>
        requires room { self.old.lines + 1 < 2 ^ 64 }
        requires going { self.old.ended ≡ false }
        requires plain { IsDotted line.now → ⊥ }
        ensures count { OnOk result (self.new.lines ≡ self.old.lines + 1) }
        ensures kept { OnErr result (self.new.lines ≡ self.old.lines) }
        ensures goes_on { OnOk result (TakesLine self.old self.new line.now due.old.items due.new.items) }
        ensures halts { IfErr result (HaltsOn self.old line.now) }
        ensures same { OnErr result (due.new.items ≡ due.old.items) }
        ensures no_read { result ≢ Err (Fails Read) }
        ensures no_write { result ≢ Err (Fails Write) }
    {
        let before = due.len();
        due.extend_from_slice(&[0; 9])?;
        let kind = match encode_line(line, due) {
            Ok(kind) => kind,
            Err(fault) => {
                due.truncate(before);
                return Err(Halt::at_line(self.lines + 1, fault));
            }
        };
        match self.speaker.say_written(kind, before + 5, due) {
            Ok(()) => {}
            Err(fault) => {
                due.truncate(before);
                return Err(Halt::at_message(self.lines + 1, fault));
            }
        }
        put_head(kind.side(), before, due);
        self.lines += 1;
        Ok(())
    }

    /// Takes the line, which begins with a dot, as the ending line.
    fn end(&mut self, alloc: Global, line: &[u8]) -> Result<(), Halt>
        requires room { self.old.lines + 1 < 2 ^ 64 }
        requires going { self.old.ended ≡ false }
        requires dotted { IsDotted line.now }
        ensures count { OnOk result (self.new.lines ≡ self.old.lines + 1) }
        ensures kept { OnErr result (self.new.lines ≡ self.old.lines) }
        ensures goes_on { OnOk result ((due : List ℕ) → TakesLine self.old self.new line.now due due) }
        ensures halts { IfErr result (HaltsOn self.old line.now) }
        ensures no_read { result ≢ Err (Fails Read) }
        ensures no_write { result ≢ Err (Fails Write) }
    {
        let unanswered = self.speaker.unanswered();
        let due = ending_line(alloc, &Ending::Whole { unanswered })?;
        if line == due.as_slice() {
            self.ended = true;
            self.lines += 1;
            Ok(())
        } else {
            Err(Halt::at_line(self.lines + 1, NO_ENDING))
        }
    }

    /// Takes a whole line.
    fn close(&mut self, alloc: Global, line: &[u8], due: &mut Vec<u8>) -> Result<(), Halt>
        requires room { self.old.lines + 1 < 2 ^ 64 }
        ensures count { OnOk result (self.new.lines ≡ self.old.lines + 1) }
        ensures kept { OnErr result (self.new.lines ≡ self.old.lines) }
        ensures goes_on { OnOk result (TakesLine self.old self.new line.now due.old.items due.new.items) }
        ensures halts { IfErr result (HaltsOn self.old line.now) }
        ensures same { OnErr result (due.new.items ≡ due.old.items) }
        ensures no_read { result ≢ Err (Fails Read) }
        ensures no_write { result ≢ Err (Fails Write) }
    {
        if self.ended {
            return Err(Halt::at_line(self.lines + 1, NO_ENDING));
        }
        if is_dotted(line) {
            return self.end(alloc, line);
        }
        self.say(line, due)
    }
}

/// What was taken of the lines so far, and the bytes after the last line feed.
#[derive(Drop)]
pub(crate) struct Builder {
    scribe: Scribe,
    begun: Vec<u8>,
}

impl Builder {
    /// A builder that has read nothing.
    pub fn new(alloc: Global, limits: Limits) -> Result<Builder, AllocError>
        ensures start { IfOk result (IsBegun limits) }
        ensures count { IfOk result (λ b. b.scribe.lines ≡ 0) }
    {
        let speaker = Speaker::new(alloc, limits)?;
        let scribe = Scribe {
            speaker,
            lines: 0,
            ended: false,
        };
        Ok(Builder {
            scribe,
            begun: Vec::new(alloc),
        })
    }

    /// Takes the first bytes of a block, up to a line feed, and returns how many. A line is copied only where it is
    /// begun in an earlier block or ends in a later one.
    fn advance(&mut self, alloc: Global, block: &[u8], due: &mut Vec<u8>) -> Result<usize, Halt>
        requires some { 0 < length block.now }
        requires room { self.old.scribe.lines + length block.now < 2 ^ 64 }
        ensures progress { IfOk result (λ n. 0 < n) }
        ensures used { IfOk result (λ n. n ≤ length block.now) }
        ensures count { IfOk result (λ n. self.new.scribe.lines ≤ self.old.scribe.lines + n) }
        ensures goes_on { IfOk result (λ n. GathersIn self.old self.new (take n block.now) due.old.items due.new.items) }
        ensures halts { IfErr result (StopsGathering self.old self.new block.now due.old.items due.new.items) }
        ensures no_read { result ≢ Err (Fails Read) }
        ensures no_write { result ≢ Err (Fails Write) }
    {
        let used = len_before_feed(block);
        if used == block.len() {
            self.begun.extend_from_slice(&block[..used])?;
            return Ok(used);
        }
        if !self.begun.is_empty() {
            self.begun.extend_from_slice(&block[..used])?;
            self.scribe.close(alloc, &self.begun, due)?;
            self.begun.clear();
            return Ok(used + 1);
        }
        self.scribe.close(alloc, &block[..used], due)?;
        Ok(used + 1)
    }

    /// Takes a block, of which nothing is written here.
    fn gather(&mut self, alloc: Global, block: &[u8], due: &mut Vec<u8>) -> Result<(), Halt>
        requires room { self.old.scribe.lines + length block.now < 2 ^ 64 }
        ensures count { OnOk result (self.new.scribe.lines ≤ self.old.scribe.lines + length block.now) }
        ensures goes_on { OnOk result (GathersIn self.old self.new block.now due.old.items due.new.items) }
        ensures halts { IfErr result (StopsGathering self.old self.new block.now due.old.items due.new.items) }
        ensures no_read { result ≢ Err (Fails Read) }
        ensures no_write { result ≢ Err (Fails Write) }
    {
        let mut at = 0;
        while at < block.len() {
            at += self.advance(alloc, rest(block, at), due)?;
        }
        Ok(())
    }

    /// Takes a whole block, and writes at once the pieces of the lines that end in it; if one of them is refused, or
    /// memory is, those of the lines before. It stands for taking line by line and writing each piece.
    pub fn feed<W: Sink>(&mut self, alloc: Global, block: &[u8], writer: &mut W) -> Result<(), Halt>
        requires room { self.old.scribe.lines + length block.now < 2 ^ 64 }
        requires live { W.has_failed writer.old ≡ false }
        ensures count { OnOk result (self.new.scribe.lines ≤ self.old.scribe.lines + length block.now) }
        ensures goes_on { OnOk result (TakesIn self.old self.new block.now (W.contents writer.old) (W.contents writer.new)) }
        ensures halts { IfErr result (HaltsWithin self.old self.new block.now (W.contents writer.old) (W.contents writer.new)) }
        ensures live { OnOk result (W.has_failed writer.new ≡ false) }
        ensures spared { IfErr result (λ halt. IfSpared halt (W.has_failed writer.new ≡ false)) }
        ensures failed { IsErrOf result (Fails Write) → W.has_failed writer.new ≡ true }
        ensures no_read { result ≢ Err (Fails Read) }
    {
        let mut due = Vec::new(alloc);
        let gathered = self.gather(alloc, block, &mut due);
        match write_whole(writer, &due) {
            Ok(()) => gathered,
            Err(_failed) => Err(Halt::Fails(RunFault::Write)),
        }
    }

    /// Takes the end of the input: a line that is begun there has no line feed.
    pub fn finish<W: Sink>(&mut self, alloc: Global, writer: &mut W) -> Result<Built, RunFault>
        requires room { self.old.scribe.lines + 1 < 2 ^ 64 }
        requires live { W.has_failed writer.old ≡ false }
        ensures built { IfOk result (IsAnswered self.old (W.contents writer.old) (W.contents writer.new)) }
        ensures begun { OnErr result (HasWrittenFirst self.old (W.contents writer.old) (W.contents writer.new)) }
        ensures open { IfOk result (λ _. W.has_failed writer.new ≡ false) }
        ensures spared { IsErrOf result Memory → W.has_failed writer.new ≡ false }
        ensures failed { IsErrOf result Write → W.has_failed writer.new ≡ true }
        ensures no_read { result ≢ Err Read }
    {
        if self.begun.is_empty() {
            return Ok(Built::Whole);
        }
        let mut piece = Vec::new(alloc);
        if let Err(halt) = self.scribe.close(alloc, &self.begun, &mut piece) {
            return halt.answer();
        }
        write_whole(writer, &piece)?;
        Ok(Built::Whole)
    }
}
