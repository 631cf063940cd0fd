//! What the tests share: a recording, what the commands make of it, runs of the whole program, and a comparison.
ghost use Rattle.std.specs.Prelude.{◌≡◌, ◌<◌, ◌^◌, false};

use super::memory::MemorySink;
use std::alloc::Global;
use std::fmt::Debug;
use std::process::Abort;
use std::test::Fail;
use zk_listings::{Sink, Source};
use zk_runs::run_words;

/// A recording of a connect request and its reply, and of an exists request of `/a` and its reply, which is NONODE.
pub(crate) const RECORDING: &str = "\
5a4b5231\
43000000310000002d0000000000000000000000000000753000000000000000000000001000000000000000000000000000000000\
00\
53000000290000002500000000000075300100000000000001\
00000010000102030405060708090a0b0c0d0e0f00\
43000000130000000f0000000100000003000000022f6101\
530000001400000010000000010000000000000005ffffff9b";

/// What it is migrated to without options.
pub(crate) const MIGRATED: &str = "\
5a4b523200400000004000000001000000000022\
430000000000000000000000310000002d0000000000000000000000000000753000000000000000000000001000000000000000000000000000000000\
00\
530000000000000000000000290000002500000000000075300100000000000001\
00000010000102030405060708090a0b0c0d0e0f00\
430000000000000000000000130000000f0000000100000003000000022f6101\
5300000000000000000000001400000010000000010000000000000005ffffff9b";

/// Its messages.
pub(crate) const MESSAGES: &str =
    "C connect version=0 zxid=0 timeout=30000 session=0 passwd=#00000000000000000000000000000000 ro=0
S connect version=0 timeout=30000 session=72057594037927937 passwd=#000102030405060708090a0b0c0d0e0f ro=0
C 1 exists path=\"/a\" watch=1
S 1 exists zxid=5 err=-101/NONODE
";

/// The last line of its listing.
pub(crate) const WHOLE: &str = ". whole unanswered=0\n";

/// The value of this row is the one that is wanted.
pub(crate) fn same<T: PartialEq + Debug>(rt: &impl Abort, got: &T, want: &T, of: &impl Debug) {
    assert_eq!(rt; got, want, "of {of:?}");
}

/// The bytes of hexadecimal digits.
pub(crate) fn hex(alloc: Global, digits: &str) -> Result<Vec<u8>, Fail> {
    Ok(hex::decode(alloc, digits)?)
}

/// The words of a command line after the program's own name.
pub(crate) fn words(alloc: Global, line: &str) -> Result<Vec<String>, Fail> {
    let mut words = Vec::new(alloc);
    words.push(String::from_str(alloc, "zkdump")?)?;
    for word in line.split(' ') {
        words.push(String::from_str(alloc, word)?)?;
    }
    Ok(words)
}

/// Runs the program: its status, and what it reports of faults.
pub(crate) fn run<R: Source, W: Sink>(
    alloc: Global,
    line: &str,
    reader: &mut R,
    writer: &mut W,
) -> Result<(u8, String), Fail>
    requires reader { R.has_failed reader.old ≡ false }
    requires reads { R.read_count reader.old < 2 ^ 62 }
    requires writer { W.has_failed writer.old ≡ false }
{
    let words = words(alloc, line)?;
    let mut faults = MemorySink::new(alloc);
    let status = run_words(alloc, words, reader, writer, &mut faults);
    Ok((status, String::from_utf8_lossy(alloc, faults.bytes())?))
}
