//! `Summary`, `Status`: how a recording ends, and its last line.
ghost use Rattle.std.specs.Prelude.{◌≡◌, IfOk};
ghost use Rattle.zk_listings.specs.Lines.{damage_word, damage_text, summary_text, last_line, status_of};

use std::alloc::{AllocError, Global};
use zk_lines::ending_line;
use zk_recordings::{Damage, DamageAt};
use zk_talk::Ending;

/// How a recording ends: as the conversation in it does, or by a damage.
#[derive(Clone, Copy, Debug, PartialEq, Eq)]
pub enum Summary {
    /// The recording is undamaged up to its end or to a fault of its conversation, which ends so.
    Ended(Ending),
    /// The recording is damaged, and its conversation has no fault before that.
    Broken(DamageAt),
}

/// Whether a recording is that of a whole conversation.
#[derive(Clone, Copy, Debug, PartialEq, Eq)]
pub enum Status {
    /// A whole conversation, undamaged.
    Good,
    /// A fault, a damage, or a side that ends within a frame.
    Bad,
}

/// The name of a damage, as the last line of a listing has it (docs/REASONS.md).
pub fn damage_name(reason: Damage) -> &'static str
    ensures { result.now ≡ damage_word reason }
{
    match reason {
        Damage::BadHead => "BadHead",
        Damage::BadLimits => "BadLimits",
        Damage::BadSide => "BadSide",
        Damage::BadTime => "BadTime",
        Damage::BadSize => "BadSize",
        Damage::Short => "Short",
    }
}

impl Summary {
    /// Good if the conversation is whole and the recording has no damage.
    pub fn status(self) -> Status
        ensures { result ≡ status_of self }
    {
        match self {
            Summary::Ended(Ending::Whole { .. }) => Status::Good,
            _ => Status::Bad,
        }
    }

    /// The last line of the listing, with its line feed.
    pub fn last_line(self, alloc: Global) -> Result<Vec<u8>, AllocError>
        ensures { IfOk result (λ line. line.items ≡ last_line self) }
    {
        let mut line = self.line(alloc)?;
        line.extend_from_slice(b"\n")?;
        Ok(line)
    }

    fn line(self, alloc: Global) -> Result<Vec<u8>, AllocError>
        ensures { IfOk result (λ line. line.items ≡ summary_text self) }
    {
        match self {
            Summary::Ended(ending) => ending_line(alloc, &ending),
            Summary::Broken(damage) => damage_line(alloc, damage),
        }
    }
}

fn damage_line(alloc: Global, damage: DamageAt) -> Result<Vec<u8>, AllocError>
    ensures { IfOk result (λ line. line.items ≡ damage_text damage) }
{
    let offset = damage.offset;
    let reason = damage_name(damage.reason);
    let line = format!(in alloc; ". recording offset={offset} reason={reason}")?;
    Ok(line.into_bytes())
}
