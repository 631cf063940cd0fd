//! Tests of when output is written: before each read all that the bytes so far have given.
ghost use Rattle.std.specs.Prelude.{None, false};

use super::samples::{MESSAGES, MIGRATED, RECORDING, WHOLE, hex, run, same};
use std::alloc::Global;
use std::cell::Cell;
use std::process::Abort;
use std::test::Fail;
use zk_listings::{Failed, Sink, Source};

/// A writer that counts its bytes where others see them.
#[derive(Drop)]
struct Counted<'a> {
    written: &'a Cell<u64>,
}

impl Sink for Counted<'_> {
    ghost contents = { λ _. None };

    ghost has_failed = { λ _. false };

    fn write(&mut self, bytes: &[u8]) -> Result<usize, Failed> {
        let so_far = self.written.get();
        self.written.set(so_far.saturating_add(bytes.len() as u64));
        Ok(bytes.len())
    }

    fn failed(&self) -> bool {
        false
    }
}

/// A reader of one byte a call, which notes before each how much was written.
#[derive(Drop)]
struct Watching<'a> {
    bytes: &'a [u8],
    next: usize,
    written: &'a Cell<u64>,
    seen: Vec<u64>,
    reads: u64,
    failed: bool,
}

impl Source for Watching<'_> {
    ghost remaining = { λ _. None };

    ghost read_count = { λ s. s.reads };

    ghost has_failed = { λ s. s.failed };

    fn read(&mut self, buf: &mut [u8]) -> Result<usize, Failed> {
        self.reads = self.reads.saturating_add(1);
        if self.seen.push(self.written.get()).is_err() {
            self.failed = true;
            return Err(Failed);
        }
        let rest = self.bytes.get(self.next..).unwrap_or(&[]);
        let count = rest.len().min(buf.len()).min(1);
        buf[..count].copy_from_slice(&rest[..count]);
        self.next = self.next.saturating_add(count);
        Ok(count)
    }

    fn reads(&self) -> u64 {
        self.reads
    }

    fn failed(&self) -> bool {
        self.failed
    }
}

/// A command over single bytes: where each message ends in its input and in its output.
#[derive(Clone, Copy)]
struct Run<'a> {
    line: &'a str,
    input: &'a [u8],
    ends: [usize; 4],
    outputs: [u64; 4],
}

/// Before the read after a message's last byte its part of the output is written.
fn expect_written(rt: &impl Abort, alloc: Global, of: &Run<'_>) -> Result<(), Fail> {
    let written = Cell::new(0);
    let mut reader = Watching {
        bytes: of.input,
        next: 0,
        written: &written,
        seen: Vec::new(alloc),
        reads: 0,
        failed: false,
    };
    let mut writer = Counted { written: &written };
    let (status, says) = run(alloc, of.line, &mut reader, &mut writer)?;
    same(rt, &(status, says.as_str()), &(0, ""), &of.line);
    for (end, output) in of.ends.iter().zip(of.outputs) {
        let seen = reader.seen.get(*end).copied();
        same(rt, &seen, &Some(output), &(of.line, end));
    }
    Ok(())
}

/// Where the pieces of `RECORDING` end, those of `MIGRATED`, and the lines of `MESSAGES`.
const PIECES: [usize; 4] = [58, 104, 128, 153];

const MIGRATED_PIECES: [usize; 4] = [82, 136, 168, 201];

const LINES: [usize; 4] = [97, 203, 232, 266];

fn numbers(ends: [usize; 4]) -> [u64; 4] {
    [
        ends[0] as u64,
        ends[1] as u64,
        ends[2] as u64,
        ends[3] as u64,
    ]
}

#[test]
fn lines_before_the_next_read(rt: HostRuntime) -> Result<(), Fail> {
    let recording = hex(rt.alloc(), RECORDING)?;
    let migrated = hex(rt.alloc(), MIGRATED)?;
    let listing = format!(in rt.alloc(); "{MESSAGES}{WHOLE}")?;
    let rows: [(&str, &[u8], [usize; 4], [usize; 4]); 4] = [
        ("show", &recording, PIECES, LINES),
        ("build", listing.as_bytes(), LINES, PIECES),
        ("migrate", &recording, PIECES, MIGRATED_PIECES),
        ("migrate", &migrated, MIGRATED_PIECES, MIGRATED_PIECES),
    ];
    for (line, input, ends, outputs) in rows {
        let of = Run {
            line,
            input,
            ends,
            outputs: numbers(outputs),
        };
        expect_written(&rt, rt.alloc(), &of)?;
    }
    Ok(())
}
