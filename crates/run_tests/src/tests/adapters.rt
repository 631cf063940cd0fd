//! Tests of `FromRead` and `FromWrite` over a reader and a writer that fail at their first call and work at the next.
//!
//! The failure is returned at that call, and remembered.
use super::samples::same;
use std::io;
use std::io::{ErrorKind, Read, Write};
use std::test::Fail;
use zk_runs::{Failed, FromRead, FromWrite, Sink, Source};

/// Fails at its first call, and then reads `Z` for ever, and takes whatever is written.
#[derive(Drop)]
struct FailsOnce {
    kind: ErrorKind,
    calls: u8,
}

impl FailsOnce {
    fn new(kind: ErrorKind) -> Self {
        FailsOnce { kind, calls: 0 }
    }

    fn call(&mut self) -> io::Result<()> {
        self.calls = self.calls.saturating_add(1);
        if self.calls == 1 {
            return Err(io::Error::from(self.kind));
        }
        Ok(())
    }
}

impl Read for FailsOnce {
    fn read(&mut self, buf: &mut [u8]) -> io::Result<usize> {
        self.call()?;
        buf.fill(b'Z');
        Ok(buf.len())
    }
}

impl Write for FailsOnce {
    fn write(&mut self, buf: &[u8]) -> io::Result<usize> {
        self.call()?;
        Ok(buf.len())
    }

    fn flush(&mut self) -> io::Result<()> {
        Ok(())
    }
}

/// An interruption, a device with nothing at hand, and a device that is broken.
const KINDS: [ErrorKind; 3] = [
    ErrorKind::Interrupted,
    ErrorKind::WouldBlock,
    ErrorKind::Other,
];

#[test]
fn failed_read_is_told(rt: HostRuntime) -> Result<(), Fail> {
    for kind in KINDS {
        let mut source = FromRead::new(FailsOnce::new(kind));
        let mut buf = [0; 4];
        same(&rt, &source.read(&mut buf), &Err(Failed), &kind);
        same(&rt, &(source.failed(), source.reads()), &(true, 1), &kind);
        same(&rt, &source.read(&mut buf), &Ok(4), &kind);
        same(&rt, &(source.failed(), source.reads()), &(true, 2), &kind);
    }
    Ok(())
}

#[test]
fn failed_write_is_told(rt: HostRuntime) -> Result<(), Fail> {
    for kind in KINDS {
        let mut sink = FromWrite::new(FailsOnce::new(kind));
        same(&rt, &sink.write(b"line"), &Err(Failed), &kind);
        assert!(rt; sink.failed());
        same(&rt, &sink.write(b"line"), &Ok(4), &kind);
        assert!(rt; sink.failed());
    }
    Ok(())
}
