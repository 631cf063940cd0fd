//! `check_earliest_run`, the engine of `check --earliest`: the last line, and the first impossible byte.
ghost use Rattle.std.specs.Prelude.{◌≡◌, ◌≢◌, ◌+◌, ◌^◌, ◌<◌, ◌≤◌, length, false, true, IfOk, OnErr, IsErrOf, IfSome};
ghost use Rattle.zk_records.specs.declared.op.Op.TheVariants as ops;
ghost use Rattle.zk_answers.specs.declared.layout.Layout.TheVariants as layouts;
ghost use Rattle.zk_talk.specs.Refused.{header_size as size_of};
ghost use Rattle.zk_listings.specs.{declared.listing.Listing.TheVariants.Last, Earliest.answer_line as line_of, Earliest.IsToldOf, Earliest.HasToldEarliest, Earliest.HasStoppedEarliest};
ghost use Rattle.zk_listings.specs.Running.{AreReady, LeavesDevices, OnRead, HasReached};

use crate::engines::read_on;
use crate::listing::{Listing, RunFault};
use crate::streams::{Sink, Source, write_whole};
use crate::summary::{Status, Summary};
use std::alloc::{AllocError, Global};
use zk_answers::Layout;
use zk_earliest::earliest;
use zk_talk::{Ending, Limits, Side};

/// The number of bytes of a header of the side, of a frame after its first.
fn header_size(side: Side) -> usize
    ensures { result ≡ size_of side }
{
    match side {
        Side::Client => 8,
        Side::Server => 16,
    }
}

/// The line of the `answer` of `earliest` about a body of `side`.
fn answer_line(alloc: Global, side: Side, answer: Option<usize>) -> Result<Vec<u8>, AllocError>
    requires { IfSome answer (λ count. count ≤ 16777216) }
    ensures { IfOk result (λ line. line.items ≡ line_of side answer) }
{
    let line = match answer {
        Some(count) => {
            let place = header_size(side) + count;
            format!(in alloc; ". earliest={place}\n")?
        }
        None => format!(in alloc; ". earliest=-\n")?,
    };
    Ok(line.into_bytes())
}

/// The line of the first impossible byte, if the recording is refused for a body; else nothing.
fn earliest_line(
    alloc: Global,
    summary: Summary,
    body: Option<(Layout, &[u8])>,
) -> Result<Vec<u8>, AllocError>
    requires small { IfSome body (λ b. length b.1.now ≤ 16777216) }
    requires known { IfSome body (λ b. b.0 ≢ layouts.Answered ops.Multi) }
    ensures { IfOk result (λ line. IsToldOf summary body.entry line.items) }
{
    let Some((layout, bytes)) = body else {
        return Ok(Vec::new(alloc));
    };
    match summary {
        Summary::Ended(Ending::Refused(fault)) => {
            answer_line(alloc, fault.side, earliest(layout, bytes))
        }
        _ => Ok(Vec::new(alloc)),
    }
}

/// Reads a recording until a fault, a damage or its end, and writes the last line of its listing; and after it, if the
/// recording is refused for a body, the line of the first byte that no body of this layout and length has there.
///
/// # Errors
///
/// Those of `check_run`.
pub fn check_earliest_run<R: Source, W: Sink>(
    alloc: Global,
    limits: Limits,
    reader: &mut R,
    writer: &mut W,
) -> Result<Status, RunFault>
    requires { AreReady (R.read_count reader.old) (R.has_failed reader.old) (W.has_failed writer.old) }

    // The last line is written of what was read, and then that of the first impossible byte.
    ensures ok { IfOk result (HasToldEarliest limits (R.remaining reader.old) (R.remaining reader.new) (W.contents writer.old) (W.contents writer.new)) }

    // A failed read, or one too many, leaves nothing written.
    ensures read { OnRead result (HasReached limits Last (R.remaining reader.old) (R.remaining reader.new) (W.contents writer.old) (W.contents writer.new)) }

    // A run that stops early has written a front of both lines of what it read.
    ensures begun { OnErr result (HasStoppedEarliest limits (R.remaining reader.old) (R.remaining reader.new) (W.contents writer.old) (W.contents writer.new)) }

    ensures devices { LeavesDevices result (R.read_count reader.old) (R.read_count reader.new) (R.has_failed reader.new) (W.has_failed writer.new) }
{
    let (summary, progress) = read_on(alloc, limits, Listing::Last, reader, writer)?;
    let mut lines = summary.last_line(alloc)?;
    let tail = earliest_line(alloc, summary, progress.refused_body())?;
    lines.extend_from_slice(&tail)?;
    write_whole(writer, &lines)?;
    Ok(summary.status())
}
