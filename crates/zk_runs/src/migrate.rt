//! `migrate_run`: the engine that makes a recording of the second format from one of either.
ghost use Rattle.std.specs.Prelude.{◌≡◌, ◌+◌, ◌^◌, ◌<◌, ◌≤◌, ◌++◌, ℕ, List, [], Option, None, Some, Err, false, true, IfOk, OnOk, OnErr, IsErrOf, length, take, drop};
ghost use Rattle.zk_talk.specs.declared.limits.Limits.{Limits};
ghost use Rattle.zk_runs.specs.Migrating as migrating;
ghost use Rattle.zk_runs.specs.Migrating.{HasBegunMigrating, HasMigrated, HasMigratedSoFar, HasMigratedTo, MovesOn, MovesBy};
ghost use Rattle.zk_recordings.specs.{Reading.IsAt, Reading.IsUndamaged, Reading.place_in, Recording.Recording, Recording.damage_of, Recording.head_bytes};
ghost use Rattle.zk_listings.specs.Running.{AreReady, LeavesDevices, OnRead};

use std::alloc::{AllocError, Global};
use std::fmt::Display;
use std::{fmt, mem};
use zk_listings::{BLOCK, MOST_READS, RunFault, Sink, Source, damage_name, rest, write_whole};
use zk_recordings::{Damage, DamageAt, Format, RecordingReader};
use zk_talk::Limits;

/// How a recording was migrated: whole, or up to a damage.
#[derive(Clone, Copy, Debug, PartialEq, Eq)]
pub enum Migrated {
    /// All of it is written.
    Whole,
    /// Its whole pieces before this damage are written; nothing if the head is damaged.
    Damaged { offset: u64, reason: Damage },
}

/// The damage and its place, in one line; nothing if there is none.
impl Display for Migrated {
    fn fmt<W: fmt::Write>(&self, f: &mut fmt::Formatter<W>) -> fmt::Result {
        match self {
            Migrated::Whole => Ok(()),
            Migrated::Damaged { offset, reason } => {
                let reason = damage_name(*reason);
                write!(f, "recording offset={offset} reason={reason}")
            }
        }
    }
}

fn answered(damage: Option<DamageAt>) -> Migrated
    ensures { result ≡ migrating.answered damage }
{
    match damage {
        None => Migrated::Whole,
        Some(DamageAt { offset, reason }) => Migrated::Damaged { offset, reason },
    }
}

/// Appends the head of the second format that has these limits.
fn put_head(limits: Limits, head: &mut Vec<u8>) -> Result<(), AllocError>
    ensures { OnOk result (head.new.items ≡ head.old.items ++ head_bytes (migrating.head_of limits)) }
{
    head.extend_from_slice(&Format::Zkr2.letters())?;
    head.extend_from_slice(&limits.client().to_be_bytes())?;
    head.extend_from_slice(&limits.server().to_be_bytes())?;
    head.extend_from_slice(&limits.waiting().to_be_bytes())?;
    head.extend_from_slice(&limits.profile().number().to_be_bytes())?;
    Ok(())
}

/// Appends the first bytes after a head or a piece of this format, or more bytes of what is begun. A piece that has no
/// time gets the time 0 after its side's byte.
fn put_taken(after: Option<Format>, bytes: &[u8], held: &mut Vec<u8>) -> Result<(), AllocError>
    requires { 0 < length bytes.now }
    ensures { OnOk result (held.new.items ≡ held.old.items ++ migrating.taken after bytes.now) }
{
    match after {
        Some(Format::Zkr1) => {
            held.extend_from_slice(&bytes[..1])?;
            held.extend_from_slice(&[0; 8])?;
            held.extend_from_slice(&bytes[1..])
        }
        Some(Format::Zkr2) | None => held.extend_from_slice(bytes),
    }
}

/// Turns a whole head or piece of this format, which is held from `due` on, into what is written for it.
fn convert(
    limits: Limits,
    headed: bool,
    format: Format,
    due: usize,
    held: &mut Vec<u8>,
) -> Result<(), AllocError>
    requires { due ≤ length held.old.items }
    ensures { OnOk result (held.new.items ≡ take due held.old.items ++ migrating.sent limits format headed (drop due held.old.items)) }
{
    match format {
        Format::Zkr1 if !headed => {
            held.truncate(due);
            put_head(limits, held)
        }
        Format::Zkr1 | Format::Zkr2 => Ok(()),
    }
}

/// A recording as far as it was read, and what of it is not written yet.
#[derive(Drop)]
struct Migrator {
    reader: RecordingReader,
    /// Whether the head is whole.
    headed: bool,
    /// What isn't written yet: what is due, then all before the head is whole, or the piece that is begun.
    held: Vec<u8>,
    /// The number of bytes that are due.
    due: usize,
    /// Where what is begun is copied to, when what is due was written.
    spare: Vec<u8>,
}

impl Migrator {
    /// A migrator that has read nothing.
    fn new(alloc: Global) -> Migrator
        ensures start { (limits : Limits) (now : Option (List ℕ)) → HasMigratedTo limits [] now now result }
        ensures due { result.due ≡ 0 }
        ensures place { place_in result.reader ≡ 0 }
    {
        Migrator {
            reader: RecordingReader::new(),
            headed: false,
            held: Vec::new(alloc),
            due: 0,
            spare: Vec::new(alloc),
        }
    }

    /// Takes the first bytes of a block, and returns how many; what becomes whole with them is due. A recording that
    /// has no limits gets `limits`.
    fn advance(&mut self, limits: Limits, block: &[u8]) -> Result<usize, AllocError>
        requires some { 0 < length block.now }
        requires room { place_in self.old.reader + length block.now < 2 ^ 64 }
        requires marked { self.old.due ≤ length self.old.held.items }
        ensures marked { OnOk result (self.new.due ≤ length self.new.held.items) }
        ensures progress { IfOk result (λ n. 0 < n) }
        ensures used { IfOk result (λ n. n ≤ length block.now) }
        ensures place { IfOk result (λ n. place_in self.new.reader ≤ place_in self.old.reader + n) }
        ensures goes_on { IfOk result (λ n. MovesOn limits self.old self.new (take n block.now)) }
    {
        let after = self.reader.between();
        let run = self.reader.next(block);
        put_taken(after, &block[..run.used], &mut self.held)?;
        if let Some(format) = self.reader.between() {
            convert(limits, self.headed, format, self.due, &mut self.held)?;
            self.due = self.held.len();
            self.headed = true;
        }
        Ok(run.used)
    }

    /// `advance`; a piece that is whole at the front of the block is taken at once, head and content.
    // Stands for two calls of `advance` there, of which the second finds the head whole, and converts nothing.
    #[inline(always)]
    fn advance_far(&mut self, limits: Limits, block: &[u8]) -> Result<usize, AllocError>
        requires some { 0 < length block.now }
        requires room { place_in self.old.reader + length block.now < 2 ^ 64 }
        requires marked { self.old.due ≤ length self.old.held.items }
        ensures marked { OnOk result (self.new.due ≤ length self.new.held.items) }
        ensures progress { IfOk result (λ n. 0 < n) }
        ensures used { IfOk result (λ n. n ≤ length block.now) }
        ensures place { IfOk result (λ n. place_in self.new.reader ≤ place_in self.old.reader + n) }
        ensures goes_on { IfOk result (λ n. MovesOn limits self.old self.new (take n block.now)) }
    {
        let after = self.reader.between();
        if let Some(piece) = self.reader.next_piece(block) {
            put_taken(after, &block[..piece.used], &mut self.held)?;
            self.due = self.held.len();
            return Ok(piece.used);
        }
        self.advance(limits, block)
    }

    /// Takes a block; what becomes whole in it is due. Returns the damage in it, if there is one whatever follows.
    fn feed(&mut self, limits: Limits, block: &[u8]) -> Result<Option<DamageAt>, AllocError>
        requires some { 0 < length block.now }
        requires room { place_in self.old.reader + length block.now < 2 ^ 64 }
        requires marked { self.old.due ≤ length self.old.held.items }
        ensures marked { OnOk result (self.new.due ≤ length self.new.held.items) }
        ensures place { IfOk result (λ found. found ≡ None → place_in self.new.reader ≤ place_in self.old.reader + length block.now) }
        ensures undamaged { IfOk result (λ found. found ≡ None → IsUndamaged self.new.reader) }
        ensures goes_on { IfOk result (MovesBy limits self.old self.new block.now) }
    {
        let mut at = 0;
        while at < block.len() {
            at += self.advance_far(limits, rest(block, at))?;
            if let Some(damage) = self.reader.damage() {
                return Ok(Some(damage));
            }
        }
        Ok(None)
    }

    /// What is due to be written.
    fn due(&self) -> &[u8]
        requires { self.now.due ≤ length self.now.held.items }
        ensures { result.now ≡ take self.now.due self.now.held.items }
    {
        &self.held[..self.due]
    }

    /// Lets go of what was due.
    fn let_go(&mut self) -> Result<(), AllocError>
        requires { self.old.due ≤ length self.old.held.items }
        ensures reader { OnOk result (self.new.reader ≡ self.old.reader) }
        ensures headed { OnOk result (self.new.headed ≡ self.old.headed) }
        ensures due { OnOk result (self.new.due ≡ 0) }
        ensures held { OnOk result (self.new.held.items ≡ drop self.old.due self.old.held.items) }
    {
        if self.due > 0 {
            self.spare.clear();
            self.spare.extend_from_slice(&self.held[self.due..])?;
            mem::swap(&mut self.held, &mut self.spare);
            self.due = 0;
        }
        Ok(())
    }

    /// The damage of the recording if it ends here.
    fn finish(&self) -> Option<DamageAt>
        ensures { (x : List ℕ) (r : Recording) → IsAt self.now.reader x r → damage_of r ≡ result }
    {
        self.reader.finish()
    }
}

/// Reads a recording of either format, and writes one of the second format: a head, of `limits` if the recording has
/// none, and each piece once it is whole, with the time 0 if it has none, those of each read before the next one. The
/// frames in it are not read. A piece that is cut is not written, and nothing if the head is damaged. It holds one piece
/// at most, as far as it came, and what a block makes whole.
///
/// # Errors
///
/// `Read` if the reader failed or was read 4,294,967,296 times and came to no end, `Write` if the writer failed or took
/// nothing, `Memory` if memory is refused.
pub fn migrate_run<R: Source, W: Sink>(
    alloc: Global,
    limits: Limits,
    reader: &mut R,
    writer: &mut W,
) -> Result<Migrated, RunFault>
    requires { AreReady (R.read_count reader.old) (R.has_failed reader.old) (W.has_failed writer.old) }

    // What was read is migrated, all there is or what is damaged whatever follows, and its damage is returned.
    ensures ok { IfOk result (HasMigrated limits (R.remaining reader.old) (R.remaining reader.new) (W.contents writer.old) (W.contents writer.new)) }

    // After a failed read, or one too many, what was read is migrated as far as its pieces are whole.
    ensures read { OnRead result (HasMigratedSoFar limits (R.remaining reader.old) (R.remaining reader.new) (W.contents writer.old) (W.contents writer.new)) }

    // A run that stops early has written a front of what the bytes that it read are migrated to.
    ensures begun { OnErr result (HasBegunMigrating limits (R.remaining reader.old) (R.remaining reader.new) (W.contents writer.old) (W.contents writer.new)) }

    ensures devices { LeavesDevices result (R.read_count reader.old) (R.read_count reader.new) (R.has_failed reader.new) (W.has_failed writer.new) }
{
    let mut migrator = Migrator::new(alloc);
    let mut buf = [0; BLOCK];
    for _turn in 0..MOST_READS {
        let Ok(count) = reader.read(&mut buf) else {
            return Err(RunFault::Read);
        };
        if count == 0 {
            return Ok(answered(migrator.finish()));
        }
        let found = migrator.feed(limits, &buf[..count])?;
        write_whole(writer, migrator.due())?;
        if let Some(damage) = found {
            return Ok(answered(Some(damage)));
        }
        migrator.let_go()?;
    }
    Err(RunFault::Read)
}
