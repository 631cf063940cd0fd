//! `build_run`: the engine that makes a recording of lines.
ghost use Rattle.std.specs.Prelude.{◌≡◌, ◌+◌, ◌^◌, ◌<◌, ◌≤◌, false, true, IfOk, OnErr, IsErrOf};
ghost use Rattle.zk_listings.specs.Running.{AreReady, LeavesDevices, OnRead};
ghost use Rattle.zk_runs.specs.Building.{HasBuilt, HasBuiltSoFar, HasBegunBuilding};

use crate::build_result::Built;
use crate::builder::Builder;
use std::alloc::Global;
use zk_listings::{BLOCK, MOST_READS, RunFault, Sink, Source, write_whole};
use zk_recordings::ZKR1;
use zk_talk::Limits;

/// Reads lines, each one that of a message, and writes the recording of these messages, each message's piece before
/// the next read. The last line may be the ending line that is due. At the first line that is refused no more is read;
/// the recording of the lines before it is written.
///
/// # Errors
///
/// `Read` if the reader failed or was read 4,294,967,296 times and came to no end, `Write` if the writer failed or took
/// nothing, `Memory` if memory is refused.
pub fn build_run<R: Source, W: Sink>(
    alloc: Global,
    limits: Limits,
    reader: &mut R,
    writer: &mut W,
) -> Result<Built, RunFault>
    requires { AreReady (R.read_count reader.old) (R.has_failed reader.old) (W.has_failed writer.old) }

    // The recording is written of the lines that were read: all there are, or those before one that is refused.
    ensures ok { IfOk result (HasBuilt limits (R.remaining reader.old) (R.remaining reader.new) (W.contents writer.old) (W.contents writer.new)) }

    // After a failed read, or one too many, the piece of each line that is whole in what was read is written.
    ensures read { OnRead result (HasBuiltSoFar limits (R.remaining reader.old) (R.remaining reader.new) (W.contents writer.old) (W.contents writer.new)) }

    // A run that stops early has written a front of the recording.
    ensures begun { OnErr result (HasBegunBuilding limits (R.remaining reader.old) (R.remaining reader.new) (W.contents writer.old) (W.contents writer.new)) }

    ensures devices { LeavesDevices result (R.read_count reader.old) (R.read_count reader.new) (R.has_failed reader.new) (W.has_failed writer.new) }
{
    let mut builder = Builder::new(alloc, limits)?;
    write_whole(writer, &ZKR1)?;
    let mut buf = [0; BLOCK];
    for _turn in 0..MOST_READS {
        let Ok(count) = reader.read(&mut buf) else {
            return Err(RunFault::Read);
        };
        if count == 0 {
            return builder.finish(alloc, writer);
        }
        if let Err(halt) = builder.feed(alloc, &buf[..count], writer) {
            return halt.answer();
        }
    }
    Err(RunFault::Read)
}
