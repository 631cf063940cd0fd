//! A source and a sink over memory, for the tests: they go by small steps, and fail at one call.
ghost use Rattle.std.specs.Prelude.{◌≡◌, ◌<◌, Some, [], false};

use std::alloc::Global;
use zk_listings::{Failed, Sink, Source};

/// Bytes to be read, at most `step` a call.
#[derive(Drop)]
pub(crate) struct MemorySource<'a> {
    rest: &'a [u8],
    step: usize,
    fails_at: u64,
    reads: u64,
    failed: bool,
    ghost some: { 0 < step },
}

impl<'a> MemorySource<'a> {
    /// Gives at most `step` bytes a call, and fails at the call `fails_at`, the first being 1.
    fn of(bytes: &'a [u8], step: usize, fails_at: u64) -> Self
        requires { 0 < step }
        ensures remaining { ⟦<MemorySource<'a> as Source>⟧.remaining result ≡ Some bytes.now }
        ensures count { ⟦<MemorySource<'a> as Source>⟧.read_count result ≡ 0 }
        ensures live { ⟦<MemorySource<'a> as Source>⟧.has_failed result ≡ false }
    {
        MemorySource {
            rest: bytes,
            step,
            fails_at,
            reads: 0,
            failed: false,
        }
    }

    pub(crate) fn new(bytes: &'a [u8]) -> Self
        ensures remaining { ⟦<MemorySource<'a> as Source>⟧.remaining result ≡ Some bytes.now }
        ensures count { ⟦<MemorySource<'a> as Source>⟧.read_count result ≡ 0 }
        ensures live { ⟦<MemorySource<'a> as Source>⟧.has_failed result ≡ false }
    {
        MemorySource::of(bytes, usize::MAX, 0)
    }

    /// Gives at most `step` bytes a call.
    pub(crate) fn by_steps(bytes: &'a [u8], step: usize) -> Self
        requires { 0 < step }
        ensures count { ⟦<MemorySource<'a> as Source>⟧.read_count result ≡ 0 }
        ensures live { ⟦<MemorySource<'a> as Source>⟧.has_failed result ≡ false }
    {
        MemorySource::of(bytes, step, 0)
    }

    /// Gives a byte a call, and fails at one, the first being 1.
    pub(crate) fn failing_at(bytes: &'a [u8], call: u64) -> Self
        ensures count { ⟦<MemorySource<'a> as Source>⟧.read_count result ≡ 0 }
        ensures live { ⟦<MemorySource<'a> as Source>⟧.has_failed result ≡ false }
    {
        MemorySource::of(bytes, 1, call)
    }
}

impl Source for MemorySource<'_> {
    ghost remaining = { λ s. Some s.rest.now };

    ghost read_count = { λ s. s.reads };

    ghost has_failed = { λ s. s.failed };

    fn read(&mut self, buf: &mut [u8]) -> Result<usize, Failed> {
        self.reads = self.reads.saturating_add(1);
        if self.reads == self.fails_at {
            self.failed = true;
            return Err(Failed);
        }
        let count = self.rest.len().min(buf.len()).min(self.step);
        let (front, rest) = self.rest.split_at(count);
        buf[..count].copy_from_slice(front);
        self.rest = rest;
        Ok(count)
    }

    fn reads(&self) -> u64 {
        self.reads
    }

    fn failed(&self) -> bool {
        self.failed
    }
}

/// Bytes that were written, at most `step` a call.
#[derive(Drop)]
pub(crate) struct MemorySink {
    bytes: Vec<u8>,
    step: usize,
    fails_at: u64,
    takes_none_at: u64,
    writes: u64,
    failed: bool,
}

impl MemorySink {
    /// Takes at most `step` bytes a call, fails at the call `fails_at`, the first being 1, and takes none at `takes_none_at`.
    fn of(alloc: Global, step: usize, fails_at: u64, takes_none_at: u64) -> Self
        ensures contents { ⟦<MemorySink as Sink>⟧.contents result ≡ Some [] }
        ensures live { ⟦<MemorySink as Sink>⟧.has_failed result ≡ false }
    {
        MemorySink {
            bytes: Vec::new(alloc),
            step,
            fails_at,
            takes_none_at,
            writes: 0,
            failed: false,
        }
    }

    pub(crate) fn new(alloc: Global) -> Self
        ensures contents { ⟦<MemorySink as Sink>⟧.contents result ≡ Some [] }
        ensures live { ⟦<MemorySink as Sink>⟧.has_failed result ≡ false }
    {
        MemorySink::of(alloc, usize::MAX, 0, 0)
    }

    /// Takes at most `step` bytes a call; with a step of 0 the first call fails.
    pub(crate) fn by_steps(alloc: Global, step: usize) -> Self
        ensures { ⟦<MemorySink as Sink>⟧.has_failed result ≡ false }
    {
        MemorySink::of(alloc, step, 0, 0)
    }

    /// Takes a byte a call, and fails at the call `call`, the first being 1.
    pub(crate) fn failing_at(alloc: Global, call: u64) -> Self
        ensures { ⟦<MemorySink as Sink>⟧.has_failed result ≡ false }
    {
        MemorySink::of(alloc, 1, call, 0)
    }

    /// Takes a byte a call, and none at the call `call`, the first being 1.
    pub(crate) fn taking_none_at(alloc: Global, call: u64) -> Self
        ensures { ⟦<MemorySink as Sink>⟧.has_failed result ≡ false }
    {
        MemorySink::of(alloc, 1, 0, call)
    }

    /// What was written.
    pub(crate) fn bytes(&self) -> &[u8]
        ensures { ⟦<MemorySink as Sink>⟧.contents self.now ≡ Some result.now }
    {
        self.bytes.as_slice()
    }
}

impl Sink for MemorySink {
    ghost contents = { λ s. Some s.bytes.items };

    ghost has_failed = { λ s. s.failed };

    fn write(&mut self, bytes: &[u8]) -> Result<usize, Failed> {
        self.writes = self.writes.saturating_add(1);
        if self.writes == self.fails_at {
            self.failed = true;
            return Err(Failed);
        }
        let step = if self.writes == self.takes_none_at {
            0
        } else {
            self.step
        };
        let count = bytes.len().min(step);
        if self.bytes.extend_from_slice(&bytes[..count]).is_err() {
            self.failed = true;
            return Err(Failed);
        }
        self.failed = self.failed || count == 0 && !bytes.is_empty();
        Ok(count)
    }

    fn failed(&self) -> bool {
        self.failed
    }
}
