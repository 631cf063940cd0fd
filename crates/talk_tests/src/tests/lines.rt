//! Tests of the lines of messages and of endings, and of faults in words. Other lines, and those that are refused, are
//! stored cases of the program.
use super::frames::same;
use std::alloc::Global;
use std::fmt::Display;
use std::process::Abort;
use std::test::Fail;
use zk_jute::Reason;
use zk_lines::{
    LineFault, LineReason, ending_laws, ending_line, line_laws, line_reason_name, put_line,
    read_line,
};
use zk_talk::{Ending, Fault, SayFault, Side};

/// Appends the line of the message that `line` is read as to `lines`.
fn put_again(lines: &mut Vec<u8>, alloc: Global, line: &[u8]) -> Result<(), Fail> {
    let Ok(message) = read_line(alloc, line) else {
        return Err("not read")?;
    };
    let put = put_line(lines, &message);
    drop(message);
    Ok(put?)
}

#[test]
fn line_behind_another(rt: HostRuntime) -> Result<(), Fail> {
    let mut lines = Vec::from_slice(rt.alloc(), b"one\n")?;
    put_again(&mut lines, rt.alloc(), b"C 1 sync path=\"/a\"")?;
    let want = b"one\nC 1 sync path=\"/a\"";
    same(&rt, &lines.as_slice(), &want.as_slice());
    Ok(())
}

/// The value is shown in these words.
fn is_shown<T: Display>(rt: &impl Abort, alloc: Global, value: &T, want: &str) -> Result<(), Fail> {
    let told = format!(in alloc; "{value}")?;
    same(rt, &told.as_str(), &want);
    Ok(())
}

/// Faults in words.
#[test]
fn faults_in_words(rt: HostRuntime) -> Result<(), Fail> {
    let fault = Fault {
        side: Side::Client,
        frame: 2,
        offset: 87,
        place: 0,
        reason: Reason::QueueFull,
    };
    let want = "side=C frame=2 offset=87 place=0 reason=QueueFull";
    is_shown(&rt, rt.alloc(), &fault, want)?;
    let order = SayFault::XidOrder {
        expected: 1,
        got: -2,
    };
    is_shown(&rt, rt.alloc(), &order, "XidOrder expected=1 got=-2")?;
    let word = LineFault {
        column: 28,
        reason: LineReason::Word,
    };
    is_shown(&rt, rt.alloc(), &word, "column 28: Word")?;
    same(&rt, &line_reason_name(&LineReason::Word), &"Word");
    Ok(())
}

/// The ending has this line.
fn ends(rt: &impl Abort, alloc: Global, ending: &Ending, line: &str) -> Result<(), Fail> {
    let told = ending_line(alloc, ending)?;
    same(rt, &told.as_slice(), &line.as_bytes());
    Ok(())
}

/// Endings with the greatest numbers, and one with a number below 0.
#[test]
fn endings(rt: HostRuntime) -> Result<(), Fail> {
    let order = Ending::Refused(Fault {
        side: Side::Server,
        frame: 1,
        offset: 61,
        place: 0,
        reason: Reason::XidOrder {
            expected: 1,
            got: -2,
        },
    });
    let cut = Ending::Cut {
        side: Side::Client,
        frame: u64::MAX,
        got: 3,
    };
    let rows = [
        (
            Ending::Whole {
                unanswered: u32::MAX,
            },
            ". whole unanswered=4294967295",
        ),
        (cut, ". cut side=C frame=18446744073709551615 got=3"),
        (
            order,
            ". refused side=S frame=1 offset=61 place=0 reason=XidOrder expected=1 got=-2",
        ),
    ];
    for (ending, line) in rows {
        ends(&rt, rt.alloc(), &ending, line)?;
    }
    Ok(())
}

#[test]
fn laws(_rt: HostRuntime) {
    line_laws();
    ending_laws();
}
