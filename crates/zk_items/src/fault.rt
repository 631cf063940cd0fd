//! `LineReason` and `LineFault`: why a line is refused, and at which column.

ghost use Rattle.std.specs.Prelude.{◌≡◌};
ghost use Rattle.zk_items.specs.Reasons.{reason_name};

use std::alloc::{AllocError, AllocFailed};
use std::fmt;
use std::fmt::Display;
use thiserror::Error;

/// Why a line is refused.
#[derive(Clone, Copy, Debug, PartialEq, Eq)]
pub enum LineReason {
    /// Not the fixed word, name of an operation or part, bit or sign that comes next.
    Word,
    /// Not a number of the range.
    Number,
    /// Not a text.
    Text,
    /// Not a blob.
    Blob,
    /// A number's name doesn't follow it, or a name follows a number that has none.
    Name,
    /// Bytes after the last item.
    Rest,
    /// The system refused memory.
    NoMemory,
    /// A line that begins with `.` isn't the ending line that is due, or isn't the last.
    Ending,
}

/// The item at which a line is refused. Columns count bytes from 1 and stop at 4,294,967,295; that of `NoMemory` is 0.
#[derive(Clone, Copy, Debug, PartialEq, Eq, Error)]
#[error("column {column}: {reason}")]
pub struct LineFault {
    /// The column of the item's first byte.
    pub column: u32,
    /// What is wrong with it.
    pub reason: LineReason,
}

impl From<AllocError> for LineFault {
    ghost use Rattle.std.specs.Prelude.{◌≡◌};
    ghost use Rattle.zk_items.specs.declared.fault.LineReason.TheVariants.{NoMemory};

    ghost from_gives = { λ _ e. e.reason ≡ NoMemory };

    fn from(_e: AllocError) -> LineFault {
        LineFault {
            column: 0,
            reason: LineReason::NoMemory,
        }
    }
}

impl<T: Drop> From<AllocFailed<T>> for LineFault {
    ghost use Rattle.std.specs.Prelude.{◌≡◌};
    ghost use Rattle.zk_items.specs.declared.fault.LineReason.TheVariants.{NoMemory};

    ghost from_gives = { λ _ e. e.reason ≡ NoMemory };

    fn from(_e: AllocFailed<T>) -> LineFault {
        LineFault {
            column: 0,
            reason: LineReason::NoMemory,
        }
    }
}

/// The name of the reason, as the program reports it.
pub fn line_reason_name(reason: &LineReason) -> &'static str
    ensures { result.now ≡ reason_name reason.now }
{
    match reason {
        LineReason::Word => "Word",
        LineReason::Number => "Number",
        LineReason::Text => "Text",
        LineReason::Blob => "Blob",
        LineReason::Name => "Name",
        LineReason::Rest => "Rest",
        LineReason::NoMemory => "NoMemory",
        LineReason::Ending => "Ending",
    }
}

impl Display for LineReason {
    fn fmt<W: fmt::Write>(&self, f: &mut fmt::Formatter<W>) -> fmt::Result {
        f.write_str(line_reason_name(self))
    }
}
