//! `RunFault`, `Listing`: what a run writes, and why it fails.
ghost use Rattle.std.specs.Prelude.{◌≡◌, ◌++◌, OnOk};
ghost use Rattle.std.specs.Option.{option_to_list};
ghost use Rattle.zk_listings.specs.{Lines.text_of, declared.listing.Listing.TheVariants.All};

use crate::streams::Failed;
use std::alloc::AllocError;
use thiserror::Error;
use zk_lines::put_line_ref;
use zk_talk::MessageRef;

/// Why a run failed.
#[derive(Clone, Copy, Debug, PartialEq, Eq, Error)]
pub enum RunFault {
    /// The reader failed, or was read 4,294,967,296 times and came to no end.
    #[error("zkdump: read failed")]
    Read,
    /// The writer failed, or took no byte.
    #[error("zkdump: write failed")]
    Write,
    /// The system refused memory.
    #[error("zkdump: out of memory")]
    Memory,
}

impl From<AllocError> for RunFault {
    ghost use Rattle.zk_listings.specs.declared.listing.RunFault.TheVariants.{Memory};

    ghost from_gives = { λ _ fault. fault ≡ Memory };

    fn from(_error: AllocError) -> RunFault {
        RunFault::Memory
    }
}

impl From<Failed> for RunFault {
    ghost use Rattle.zk_listings.specs.declared.listing.RunFault.TheVariants.{Write};

    ghost from_gives = { λ _ fault. fault ≡ Write };

    fn from(_failed: Failed) -> RunFault {
        RunFault::Write
    }
}

/// Which lines are written: all of them, or the last one alone.
#[derive(Clone, Copy, Debug, PartialEq, Eq)]
pub enum Listing {
    /// The lines of all messages, and the last line.
    All,
    /// The last line alone.
    Last,
}

/// Appends the line of `message`, with its line feed, if there is one.
#[inline(always)]
pub fn tell(message: Option<MessageRef<'_>>, lines: &mut Vec<u8>) -> Result<(), AllocError>
    ensures { OnOk result (lines.new.items ≡ lines.old.items ++ text_of All (option_to_list message.entry)) }
{
    match message {
        Some(message) => {
            put_line_ref(lines, &message)?;
            lines.extend_from_slice(b"\n")
        }
        None => Ok(()),
    }
}
