//! `Built`: what is built of lines, and which line is refused.

use std::fmt;
use std::fmt::Display;
use zk_lines::LineFault;
use zk_talk::SayFault;

/// What is built of lines: the recording of all of their messages, or of those before the first line that is refused,
/// which is counted from 1.
#[derive(Clone, Copy, Debug, PartialEq, Eq)]
pub enum Built {
    /// No line is refused.
    Whole,
    /// The line is that of no message, or it isn't the ending line that is due, or it comes after that line.
    LineRefused { line: u64, fault: LineFault },
    /// The message can't be said after those of the lines before it.
    SayRefused { line: u64, fault: SayFault },
}

/// Which line is refused and why, in one line; nothing if none is.
impl Display for Built {
    fn fmt<W: fmt::Write>(&self, f: &mut fmt::Formatter<W>) -> fmt::Result {
        match self {
            Built::Whole => Ok(()),
            Built::LineRefused { line, fault } => write!(f, "line {line}: {fault}"),
            Built::SayRefused { line, fault } => write!(f, "line {line}: {fault}"),
        }
    }
}
