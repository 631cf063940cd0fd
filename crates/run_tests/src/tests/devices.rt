//! Tests of runs of each command over a standard input, output and error that fail.
use super::memory::{MemorySink, MemorySource};
use super::samples::{MESSAGES, MIGRATED, RECORDING, WHOLE, hex, run, same, words};
use std::alloc::Global;
use std::process::Abort;
use std::test::Fail;
use zk_runs::run_words;

/// A command over bytes, its output and its status; and how much of the output is written before the read after the last
/// byte.
#[derive(Clone, Copy)]
struct Run<'a> {
    line: &'a str,
    input: &'a [u8],
    output: &'a [u8],
    status: u8,
    before_the_end: usize,
}

/// Over a reader and a writer of single bytes.
fn expect_single_bytes(rt: &impl Abort, alloc: Global, of: &Run<'_>) -> Result<(), Fail> {
    let mut reader = MemorySource::by_steps(of.input, 1);
    let mut writer = MemorySink::by_steps(alloc, 1);
    let (status, says) = run(alloc, of.line, &mut reader, &mut writer)?;
    same(rt, &writer.bytes(), &of.output, &of.line);
    same(rt, &(status, says.as_str()), &(of.status, ""), &of.line);
    Ok(())
}

/// Over single bytes where a read fails: what is written is a front of the whole output.
fn expect_read_failed(rt: &impl Abort, alloc: Global, of: &Run<'_>, call: u64) -> Result<(), Fail> {
    let mut reader = MemorySource::failing_at(of.input, call);
    let mut writer = MemorySink::by_steps(alloc, 1);
    let (status, says) = run(alloc, of.line, &mut reader, &mut writer)?;
    let (want, at) = ((3, "zkdump: read failed\n"), (of.line, call));
    same(rt, &(status, says.as_str()), &want, &at);
    same(rt, &of.output.starts_with(writer.bytes()), &true, &at);
    if call > of.input.len() as u64 {
        same(rt, &writer.bytes().len(), &of.before_the_end, &at);
    }
    Ok(())
}

/// Over a writer of single bytes that fails, or takes none, after some bytes: these are written.
fn expect_write_failed(
    rt: &impl Abort,
    alloc: Global,
    of: &Run<'_>,
    (takes_none, before): (bool, usize),
) -> Result<(), Fail> {
    let call = (before as u64).saturating_add(1);
    let mut reader = MemorySource::new(of.input);
    let mut writer = if takes_none {
        MemorySink::taking_none_at(alloc, call)
    } else {
        MemorySink::failing_at(alloc, call)
    };
    let (status, says) = run(alloc, of.line, &mut reader, &mut writer)?;
    let (want, at) = ((3, "zkdump: write failed\n"), (of.line, call));
    same(rt, &(status, says.as_str()), &want, &at);
    same(rt, &writer.bytes().len(), &before, &at);
    same(rt, &of.output.starts_with(writer.bytes()), &true, &at);
    Ok(())
}

/// Each read and each write of the run fails, one a run.
fn each_in_vain(rt: &impl Abort, alloc: Global, of: &Run<'_>) -> Result<(), Fail> {
    expect_single_bytes(rt, alloc, of)?;
    // What refuses a recording ends the reads.
    let reads = match of.status {
        0 => of.input.len() as u64 + 1,
        _ => of.input.len() as u64,
    };
    for call in 0..reads {
        expect_read_failed(rt, alloc, of, call + 1)?;
    }
    for before in 0..of.output.len() {
        expect_write_failed(rt, alloc, of, (false, before))?;
        expect_write_failed(rt, alloc, of, (true, before))?;
    }
    Ok(())
}

/// The recording of a connect request, and of an exists request of `/a` with a watch that is no boolean.
const BAD_WATCH: &str = "\
5a4b5231\
43000000310000002d0000000000000000000000000000753000000000000000000000001000000000000000000000000000000000\
00\
43000000130000000f0000000100000003000000022f6102";

/// The output of a check of it: the path must have two bytes, so the watch is the first impossible byte.
const BAD_WATCH_LINES: &str =
    ". refused side=C frame=1 offset=68 place=14 reason=BadBool\n. earliest=14\n";

#[test]
fn each_call_in_vain(rt: HostRuntime) -> Result<(), Fail> {
    let recording = hex(rt.alloc(), RECORDING)?;
    let migrated = hex(rt.alloc(), MIGRATED)?;
    let bad = hex(rt.alloc(), BAD_WATCH)?;
    let listing = format!(in rt.alloc(); "{MESSAGES}{WHOLE}")?;
    let rows: [(&str, u8, &[u8], &[u8], usize); 5] = [
        ("show", 0, &recording, listing.as_bytes(), MESSAGES.len()),
        ("check", 0, &recording, WHOLE.as_bytes(), 0),
        ("check --earliest", 1, &bad, BAD_WATCH_LINES.as_bytes(), 0),
        ("build", 0, listing.as_bytes(), &recording, recording.len()),
        ("migrate", 0, &recording, &migrated, migrated.len()),
    ];
    for (line, status, input, output, before_the_end) in rows {
        let of = Run {
            line,
            input,
            output,
            status,
            before_the_end,
        };
        each_in_vain(&rt, rt.alloc(), &of)?;
    }
    Ok(())
}

/// A command, its input, and the read that fails, if one does; its status and output, whatever becomes of the words on
/// standard error.
const UNTOLD: &[(&str, &[u8], u64, u8, &[u8])] = &[
    ("build", b"no line\n", 0, 1, b"ZKR1"),
    ("other", b"", 0, 2, b""),
    ("check", b"ZKR1", 1, 3, b""),
];

#[test]
fn fault_is_not_told(rt: HostRuntime) -> Result<(), Fail> {
    for (line, input, read, status, out) in UNTOLD {
        let mut reader = MemorySource::failing_at(input, *read);
        let mut writer = MemorySink::new(rt.alloc());
        let mut faults = MemorySink::failing_at(rt.alloc(), 2);
        let words = words(rt.alloc(), line)?;
        let got = run_words(rt.alloc(), words, &mut reader, &mut writer, &mut faults);
        same(&rt, &(got, writer.bytes()), &(*status, *out), line);
        same(&rt, &faults.bytes().len(), &1, line);
    }
    Ok(())
}

/// A command, and bytes of which the last decides: its output, and what it reports.
const DECIDED: &[(&str, &[u8], &[u8], &str)] = &[
    (
        "show",
        b"ZKR1X",
        b". recording offset=4 reason=BadSide\n",
        "",
    ),
    (
        "check",
        b"ZKR1X",
        b". recording offset=4 reason=BadSide\n",
        "",
    ),
    (
        "check --earliest",
        b"ZKR1X",
        b". recording offset=4 reason=BadSide\n",
        "",
    ),
    ("build", b"\n", b"ZKR1", "line 1: column 1: Word\n"),
    (
        "migrate",
        b"ZKR1X",
        b"ZKR2\0\x40\0\0\0\x40\0\0\0\x01\0\0\0\0\0\x22",
        "recording offset=4 reason=BadSide\n",
    ),
];

/// A read after that byte would fail.
#[test]
fn no_read_behind_what_decides(rt: HostRuntime) -> Result<(), Fail> {
    for (line, input, output, wanted) in DECIDED {
        let mut reader = MemorySource::failing_at(input, input.len() as u64 + 1);
        let mut writer = MemorySink::new(rt.alloc());
        let (status, says) = run(rt.alloc(), line, &mut reader, &mut writer)?;
        same(&rt, &(status, says.as_str()), &(1, *wanted), line);
        same(&rt, &writer.bytes(), output, line);
    }
    Ok(())
}
