//! `show_run`, `check_run`: the engines that read a recording and write its listing, or its last line.
ghost use Rattle.std.specs.Prelude.{◌≡◌, ◌≢◌, ◌+◌, ◌^◌, ◌<◌, ◌≤◌, ℕ, List, [], false, true, None, Err, length, IfOk, OnErr, IsErrOf};
ghost use Rattle.std.specs.Io.KnownBytes.{Consumes, IsAtEnd, Keeps};
ghost use Rattle.zk_recordings.specs.Reading.{place_in};
ghost use Rattle.zk_listings.specs.{declared.listing.RunFault.TheVariants.Write, Gathering.HasTaken};
ghost use Rattle.zk_listings.specs.declared.listing.Listing.TheVariants.{All, Last};
ghost use Rattle.zk_listings.specs.Running.{AreReady, LeavesDevices, OnRead, HasFoundWith, HasBegunLines, HasListed, HasReached, HasStopped};

use crate::listing::{Listing, RunFault};
use crate::long_frame::Gathered;
use crate::progress::Progress;
use crate::read_long_frames::NextRead;
use crate::streams::{Sink, Source, write_whole};
use crate::summary::{Status, Summary};
use std::alloc::Global;
use zk_talk::Limits;

/// How often a run reads, at most.
pub const MOST_READS: u64 = 4_294_967_296;

/// How many bytes a run reads at once, at most.
pub const BLOCK: usize = 65_536;

/// Reads once, takes what came, and appends the lines of its messages. Returns the number of bytes, 0 only at the end, and the
/// recording's summary if it is decided, whatever follows.
fn read_once<R: Source>(
    progress: &mut Progress,
    reader: &mut R,
    gathered: &mut Gathered,
    buf: &mut [u8],
    listing: Listing,
    lines: &mut Vec<u8>,
) -> Result<(usize, Option<Summary>), RunFault>
    requires block { length buf.old ≡ 65536 }
    requires reader { R.has_failed reader.old ≡ false }
    requires reads { R.read_count reader.old < 2 ^ 63 }
    requires room { place_in progress.old.reader + 65536 < 2 ^ 64 }
    requires listed { listing ≡ All → gathered.old.bytes ≡ [] }
    ensures block { length buf.new ≡ 65536 }
    ensures most { IfOk result (λ t. t.0 ≤ 65536) }
    ensures place { IfOk result (λ t. t.1 ≡ None → place_in progress.new.reader ≤ place_in progress.old.reader + t.0) }
    ensures listed { IfOk result (λ t. listing ≡ All → gathered.new.bytes ≡ []) }
    ensures has { IfOk result (λ t. HasTaken listing R.remaining reader.old reader.new gathered.old progress.old lines.old t gathered.new progress.new lines.new) }
    ensures end { IfOk result (λ t. t.0 ≡ 0 → IsAtEnd (R.remaining reader.new)) }
    ensures counted { IfOk result (λ t. R.read_count reader.new ≡ R.read_count reader.old + 1) }
    ensures live { IfOk result (λ t. R.has_failed reader.new ≡ false) }
    ensures read { IsErrOf result RunFault.Read → Keeps (R.remaining reader.old) (R.remaining reader.new) }
    ensures failed { IsErrOf result RunFault.Read → R.has_failed reader.new ≡ true }
    ensures memory { IsErrOf result RunFault.Memory → R.has_failed reader.new ≡ false }
    ensures begun { OnErr result ((bytes : List ℕ) × Consumes (R.remaining reader.old) (R.remaining reader.new) bytes) }
    ensures no_write { result ≢ Err Write }
    ensures bound { R.read_count reader.new ≤ R.read_count reader.old + 1 }
{
    match progress.next_read(gathered) {
        NextRead::Block(most) => {
            let Ok(count) = reader.read(&mut buf[..most]) else {
                return Err(RunFault::Read);
            };
            let found = progress.feed(&buf[..count], listing, gathered, lines)?;
            Ok((count, found))
        }
        NextRead::Content(most) => {
            let count = gathered.read(reader, most, buf)?;
            Ok((count, progress.take_read(gathered, count)))
        }
    }
}

/// Reads until the recording's summary is decided, whatever follows, or to the end, and writes the lines of its messages:
/// those of each read before the next one. One buffer holds them, as long as the run.
// If no line is listed, the bytes of a long frame wait in `gathered`.
pub(crate) fn read_on<R: Source, W: Sink>(
    alloc: Global,
    limits: Limits,
    listing: Listing,
    reader: &mut R,
    writer: &mut W,
) -> Result<(Summary, Progress), RunFault>
    requires { AreReady (R.read_count reader.old) (R.has_failed reader.old) (W.has_failed writer.old) }
    ensures ok { IfOk result (HasFoundWith limits listing (R.remaining reader.old) (R.remaining reader.new) (W.contents writer.old) (W.contents writer.new)) }
    ensures read { OnRead result (HasReached limits listing (R.remaining reader.old) (R.remaining reader.new) (W.contents writer.old) (W.contents writer.new)) }
    ensures begun { OnErr result (HasBegunLines limits listing (R.remaining reader.old) (R.remaining reader.new) (W.contents writer.old) (W.contents writer.new)) }
    ensures devices { LeavesDevices result (R.read_count reader.old) (R.read_count reader.new) (R.has_failed reader.new) (W.has_failed writer.new) }
{
    let mut progress = Progress::new(alloc, limits);
    let mut gathered = Gathered::new(alloc);
    let mut lines = Vec::new(alloc);
    let mut buf = [0; BLOCK];
    for _turn in 0..MOST_READS {
        let (count, found) = read_once(
            &mut progress,
            reader,
            &mut gathered,
            &mut buf,
            listing,
            &mut lines,
        )?;
        write_whole(writer, lines.as_slice())?;
        lines.clear();
        if let Some(summary) = found {
            return Ok((summary, progress));
        }
        if count == 0 {
            if let Some(summary) = progress.flush(&mut gathered) {
                return Ok((summary, progress));
            }
            return Ok((progress.finish(), progress));
        }
    }
    Err(RunFault::Read)
}

/// Reads a recording until a fault, a damage or its end, and writes its listing.
fn run<R: Source, W: Sink>(
    alloc: Global,
    limits: Limits,
    listing: Listing,
    reader: &mut R,
    writer: &mut W,
) -> Result<Status, RunFault>
    requires { AreReady (R.read_count reader.old) (R.has_failed reader.old) (W.has_failed writer.old) }
    ensures ok { IfOk result (HasListed limits listing (R.remaining reader.old) (R.remaining reader.new) (W.contents writer.old) (W.contents writer.new)) }
    ensures read { OnRead result (HasReached limits listing (R.remaining reader.old) (R.remaining reader.new) (W.contents writer.old) (W.contents writer.new)) }
    ensures begun { OnErr result (HasStopped limits listing (R.remaining reader.old) (R.remaining reader.new) (W.contents writer.old) (W.contents writer.new)) }
    ensures devices { LeavesDevices result (R.read_count reader.old) (R.read_count reader.new) (R.has_failed reader.new) (W.has_failed writer.new) }
{
    let (summary, _progress) = read_on(alloc, limits, listing, reader, writer)?;
    let line = summary.last_line(alloc)?;
    write_whole(writer, &line)?;
    Ok(summary.status())
}

/// Reads a recording until a fault, a damage or its end, and writes the last line of its listing.
///
/// # Errors
///
/// `Read` if the reader failed or was read 4,294,967,296 times and came to no end, `Write` if the writer failed or took
/// nothing, `Memory` if memory is refused.
pub fn check_run<R: Source, W: Sink>(
    alloc: Global,
    limits: Limits,
    reader: &mut R,
    writer: &mut W,
) -> Result<Status, RunFault>
    requires { AreReady (R.read_count reader.old) (R.has_failed reader.old) (W.has_failed writer.old) }

    // The last line is written of what was read: all there is, or what decides.
    ensures ok { IfOk result (HasListed limits Last (R.remaining reader.old) (R.remaining reader.new) (W.contents writer.old) (W.contents writer.new)) }

    // A failed read, or one too many, leaves nothing written.
    ensures read { OnRead result (HasReached limits Last (R.remaining reader.old) (R.remaining reader.new) (W.contents writer.old) (W.contents writer.new)) }

    // A run that stops early has written a front of the last line of every listing of what it read.
    ensures begun { OnErr result (HasStopped limits Last (R.remaining reader.old) (R.remaining reader.new) (W.contents writer.old) (W.contents writer.new)) }

    ensures devices { LeavesDevices result (R.read_count reader.old) (R.read_count reader.new) (R.has_failed reader.new) (W.has_failed writer.new) }
{
    run(alloc, limits, Listing::Last, reader, writer)
}

/// Reads a recording until a fault, a damage or its end, and writes its listing. Each message's line is written before
/// the next read.
///
/// # Errors
///
/// Those of `check_run`.
pub fn show_run<R: Source, W: Sink>(
    alloc: Global,
    limits: Limits,
    reader: &mut R,
    writer: &mut W,
) -> Result<Status, RunFault>
    requires { AreReady (R.read_count reader.old) (R.has_failed reader.old) (W.has_failed writer.old) }

    // The listing is written of what was read: all there is, or what decides.
    ensures ok { IfOk result (HasListed limits All (R.remaining reader.old) (R.remaining reader.new) (W.contents writer.old) (W.contents writer.new)) }

    // After a failed read, or one too many, the line of each message that is whole in what was read is written.
    ensures read { OnRead result (HasReached limits All (R.remaining reader.old) (R.remaining reader.new) (W.contents writer.old) (W.contents writer.new)) }

    // A run that stops early has written a front of every listing of what it read.
    ensures begun { OnErr result (HasStopped limits All (R.remaining reader.old) (R.remaining reader.new) (W.contents writer.old) (W.contents writer.new)) }

    ensures devices { LeavesDevices result (R.read_count reader.old) (R.read_count reader.new) (R.has_failed reader.new) (W.has_failed writer.new) }
{
    run(alloc, limits, Listing::All, reader, writer)
}
