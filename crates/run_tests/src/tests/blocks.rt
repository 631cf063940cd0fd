//! Tests of lines that `build` takes block by block: what is written is that of taking them line by line.
ghost use Rattle.std.specs.Prelude.{◌<◌};

use super::memory::{MemorySink, MemorySource};
use super::samples::{MESSAGES, RECORDING, WHOLE, hex, run, same};
use std::alloc::Global;
use std::process::Abort;
use std::test::Fail;

/// The sizes of blocks: lines that are whole in one, that end where one ends, and that go on in several.
const SIZES: [usize; 10] = [1, 2, 7, 64, 96, 97, 98, 150, 203, 1_000];

/// Blocks of this size are built into the recording of the messages, with the status and the words on standard error
/// that are wanted.
fn expect_built(
    rt: &impl Abort,
    alloc: Global,
    lines: &str,
    size: usize,
    want: (u8, &str),
) -> Result<(), Fail>
    requires { 0 < size }
{
    let recording = hex(alloc, RECORDING)?;
    let mut reader = MemorySource::by_steps(lines.as_bytes(), size);
    let mut writer = MemorySink::new(alloc);
    let (got, says) = run(alloc, "build", &mut reader, &mut writer)?;
    same(rt, &(got, says.as_str()), &want, &size);
    same(rt, &writer.bytes(), &recording.as_slice(), &size);
    Ok(())
}

#[test]
fn lines_across_blocks(rt: HostRuntime) -> Result<(), Fail> {
    let whole = format!(in rt.alloc(); "{MESSAGES}{WHOLE}")?;
    let refused = format!(in rt.alloc(); "{MESSAGES}no line\n{MESSAGES}")?;
    for size in SIZES {
        expect_built(&rt, rt.alloc(), &whole, size.max(1), (0, ""))?;
        let told = (1, "line 5: column 1: Word\n");
        expect_built(&rt, rt.alloc(), &refused, size.max(1), told)?;
    }
    Ok(())
}

/// A line is refused in the one block, and a write before it fails: that is what is reported, and the bytes before are
/// written.
#[test]
fn write_fails_before_a_refused_line(rt: HostRuntime) -> Result<(), Fail> {
    let recording = hex(rt.alloc(), RECORDING)?;
    let refused = format!(in rt.alloc(); "{MESSAGES}no line\n")?;
    for before in 0..recording.len() {
        let mut reader = MemorySource::new(refused.as_bytes());
        let mut writer = MemorySink::failing_at(rt.alloc(), (before as u64).saturating_add(1));
        let (status, says) = run(rt.alloc(), "build", &mut reader, &mut writer)?;
        let want = (3, "zkdump: write failed\n");
        same(&rt, &(status, says.as_str()), &want, &before);
        same(&rt, &writer.bytes(), &&recording[..before], &before);
    }
    Ok(())
}
