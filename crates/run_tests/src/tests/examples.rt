//! The examples of the crates' own pages, each in the same lines (`dev/architecture.py` compares them).
use super::memory::MemorySink;
use super::samples::words;
use std::process::Abort;
use std::test::Fail;
use zk_listings::{FromRead, Status, check_run};
use zk_recordings::RecordingReader;
use zk_runs::run_words;
use zk_talk::Limits;

/// `zk_recordings`: the letters of a recording.
#[test]
fn letters_are_read(rt: HostRuntime) {
    let mut reader = RecordingReader::new();
    let run = reader.next(b"Z"); // the first run.used bytes are taken: content of run.side, or of neither
    assert!(rt; run.used == 1 && run.side.is_none());
    assert!(rt; reader.damage().is_none() && reader.finish().is_some()); // no recording ends here
}

/// `zk_listings`: a recording of nothing is good.
#[test]
fn recording_is_checked(rt: HostRuntime) -> Result<(), Fail> {
    let limits = Limits::new(64, 64, 1).ok_or("no limits")?;
    let mut writer = MemorySink::new(rt.alloc());
    let mut reader = FromRead::new(b"ZKR1".as_slice());
    let status = check_run(rt.alloc(), limits, &mut reader, &mut writer)?; // writer is any Sink
    assert!(rt; status == Status::Good); // and ". whole unanswered=0" is written
    Ok(())
}

/// `zk_runs`: the program.
#[test]
fn program_checks(rt: HostRuntime) -> Result<(), Fail> {
    let words = words(rt.alloc(), "check")?;
    let mut writer = MemorySink::new(rt.alloc());
    let mut faults = MemorySink::new(rt.alloc());
    let mut reader = FromRead::new(b"ZKR1".as_slice());
    let status = run_words(rt.alloc(), words, &mut reader, &mut writer, &mut faults);
    assert!(rt; status == 0);
    Ok(())
}
