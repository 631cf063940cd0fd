//! `Source` and `Sink`: what the engines read and write, with a memory of failures.
ghost use Rattle.std.specs.Prelude.{◌≡◌, ◌+◌, ◌-◌, ◌^◌, ◌<◌, ◌≤◌, ◌||◌, ◌&&◌, ◌==◌, ℕ, List, Option, Bool, false, min, length, take, IfOk, OnOk, OnErr, is_err};
ghost use Rattle.std.specs.Io.KnownBytes.{Appends, ReadConsumes, WriteAppends};
ghost use Rattle.zk_listings.specs.Streams.{takes_none};

use std::io::{Read, Write};
use std::marker::Model;

/// A read or a write that failed.
#[derive(Clone, Copy, Debug, PartialEq, Eq)]
pub struct Failed;

/// A reader that counts its calls and remembers a failure.
pub trait Source {
    // The bytes that reads will give from here on, if they are known.
    ghost remaining: { Self → Option (List ℕ) };

    // How often `read` was called.
    ghost read_count: { Self → ℕ };

    // Whether a call has failed.
    ghost has_failed: { Self → Bool };

    /// Reads into `buf`, which isn't empty, and returns the number of bytes that came; 0 only at the end.
    ///
    /// # Errors
    ///
    /// `Failed` if the device reports an error, which `failed` remembers.
    fn read(&mut self, buf: &mut [u8]) -> Result<usize, Failed>
        requires { 0 < length buf.old }
        ensures bound { IfOk result (λ n. n ≤ length buf.new) }
        ensures bytes { ReadConsumes (remaining self.old) (remaining self.new) result buf.new }
        ensures counted { read_count self.new ≡ min (read_count self.old + 1) (2 ^ 64 - 1) }
        ensures failed { has_failed self.new ≡ (has_failed self.old || is_err result) };

    /// How often `read` was called. The number stops at its greatest value.
    fn reads(&self) -> u64
        ensures { result ≡ read_count self.now };

    /// Whether a call of `read` has failed.
    fn failed(&self) -> bool
        ensures { result ≡ has_failed self.now };
}

/// A writer that remembers a failure.
pub trait Sink {
    // The bytes that the writer holds, if they are known.
    ghost contents: { Self → Option (List ℕ) };

    // Whether a call has failed.
    ghost has_failed: { Self → Bool };

    /// Takes some of `bytes`, and returns how many. It is a failure to take none if there are some.
    fn write(&mut self, bytes: &[u8]) -> Result<usize, Failed>
        ensures bound { IfOk result (λ n. n ≤ length bytes.now) }
        ensures bytes { WriteAppends (contents self.old) (contents self.new) result bytes.now }
        ensures failed { has_failed self.new ≡ (has_failed self.old || takes_none result bytes.now) };

    /// Whether a call of `write` has failed.
    fn failed(&self) -> bool
        ensures { result ≡ has_failed self.now };
}

/// A reader of the standard library as a source.
#[derive(Drop)]
pub struct FromRead<R> {
    reader: R,
    reads: u64,
    failed: bool,
}

impl<R> Model for FromRead<R> {
    ghost use Rattle.zk_listings.specs.Streams.{Reading};

    ghost Value = { Reading R };

    ghost view = { λ s. record { reader = s.reader; reads = s.reads; failed = s.failed } };
}

impl<R: Read> FromRead<R> {
    /// A source of what `reader` has left.
    pub fn new(reader: R) -> Self
        ensures remaining { ⟦<FromRead<R> as Source>⟧.remaining result ≡ R.remaining reader }
        ensures count { ⟦<FromRead<R> as Source>⟧.read_count result ≡ 0 }
        ensures failed { ⟦<FromRead<R> as Source>⟧.has_failed result ≡ false }
    {
        FromRead {
            reader,
            reads: 0,
            failed: false,
        }
    }
}

impl<R: Read> Source for FromRead<R> {
    ghost remaining = { λ s. R.remaining s.reader };

    ghost read_count = { λ s. s.reads };

    ghost has_failed = { λ s. s.failed };

    fn read(&mut self, buf: &mut [u8]) -> Result<usize, Failed> {
        self.reads = self.reads.saturating_add(1);
        let result = self.reader.read(buf).map_err(|_| Failed);
        self.failed = self.failed || result.is_err();
        result
    }

    fn reads(&self) -> u64 {
        self.reads
    }

    fn failed(&self) -> bool {
        self.failed
    }
}

/// A writer of the standard library as a sink.
#[derive(Drop)]
pub struct FromWrite<W> {
    writer: W,
    failed: bool,
}

impl<W> Model for FromWrite<W> {
    ghost use Rattle.zk_listings.specs.Streams.{Writing};

    ghost Value = { Writing W };

    ghost view = { λ s. record { writer = s.writer; failed = s.failed } };
}

impl<W: Write> FromWrite<W> {
    /// A sink that adds to what `writer` holds.
    pub fn new(writer: W) -> Self
        ensures contents { ⟦<FromWrite<W> as Sink>⟧.contents result ≡ W.contents writer }
        ensures failed { ⟦<FromWrite<W> as Sink>⟧.has_failed result ≡ false }
    {
        FromWrite {
            writer,
            failed: false,
        }
    }
}

impl<W: Write> Sink for FromWrite<W> {
    ghost contents = { λ s. W.contents s.writer };

    ghost has_failed = { λ s. s.failed };

    fn write(&mut self, bytes: &[u8]) -> Result<usize, Failed> {
        match self.writer.write(bytes) {
            Ok(taken) => {
                self.failed = self.failed || taken == 0 && !bytes.is_empty();
                Ok(taken)
            }
            Err(_error) => {
                self.failed = true;
                Err(Failed)
            }
        }
    }

    fn failed(&self) -> bool {
        self.failed
    }
}

/// Writes all of the bytes, in as many calls as it takes.
///
/// # Errors
///
/// `Failed` at the first call that fails, or takes none.
pub fn write_whole<W: Sink>(writer: &mut W, bytes: &[u8]) -> Result<(), Failed>
    requires { W.has_failed writer.old ≡ false }
    ensures ok { OnOk result (Appends (W.contents writer.old) (W.contents writer.new) bytes.now) }
    ensures err { OnErr result ((k : ℕ) × Appends (W.contents writer.old) (W.contents writer.new) (take k bytes.now)) }
    ensures failed { W.has_failed writer.new ≡ is_err result }
{
    let mut at = 0;
    while at < bytes.len() {
        let taken = writer.write(&bytes[at..])?;
        if taken == 0 {
            return Err(Failed);
        }
        at += taken;
    }
    Ok(())
}
