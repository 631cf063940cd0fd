//! `zk_listing`: the listing of a conversation that is there whole.
ghost use Rattle.std.specs.Prelude.{◌≡◌, ◌++◌, OnOk, IfOk, MatchOption};
ghost use Rattle.zk_talk.specs.History.{History};
ghost use Rattle.zk_c.specs.{Answer.no_line, Handle.AreNoLimits, Cut.AreCut, Cut.AreNotCut};
ghost use Rattle.zk_c.specs.Listing.{message_line, listing, IsListed, ListsUnder, ListsNothing};

use crate::answer::LineAnswer;
use crate::number::{NO_MEMORY, RANGE};
use crate::pieces::{Piece, cut_of};
use crate::talk::limits_of;
use std::alloc::{AllocError, Global};
use zk_lines::{ending_line, put_line};
use zk_talk::{Ended, Limits, Message, read_all};

/// Appends the message's line, with its line feed.
fn put_message(text: &mut Vec<u8>, message: &Message) -> Result<(), AllocError>
    ensures { OnOk result (text.new.items ≡ text.old.items ++ message_line message.now) }
{
    put_line(text, message)?;
    text.extend_from_slice(b"\n")
}

/// The lines of the messages and of the ending, each with its line feed.
fn lines_of(alloc: Global, ended: &Ended) -> Result<Vec<u8>, AllocError>
    ensures { IfOk result (λ text. text.items ≡ listing ended.now.messages.items ended.now.ending) }
{
    let mut text = Vec::new(alloc);
    for message in ended.messages.iter() {
        put_message(&mut text, message)?;
    }
    let ending = ending_line(alloc, &ended.ending)?;
    text.extend_from_slice(&ending)?;
    text.extend_from_slice(b"\n")?;
    Ok(text)
}

/// The listing of the pieces; `None` if they aren't the bytes.
fn listed(
    alloc: Global,
    limits: Limits,
    pieces: &[Piece],
    bytes: &[u8],
) -> Result<Option<Vec<u8>>, AllocError>
    ensures { IfOk result (λ found. MatchOption found (AreNotCut pieces.now bytes.now) (λ text. IsListed limits pieces.now bytes.now text.items)) }
{
    let Some(cut) = cut_of(alloc, pieces, bytes)? else {
        return Ok(None);
    };
    let ended = read_all(alloc, limits, &cut)?;
    let text = lines_of(alloc, &ended)?;
    Ok(Some(text))
}

/// Writes the listing of the pieces, whose bytes come one after the other, if there is room for it; else the status is
/// `ROOM`, and the answer has its length. The limits are those of `zk_talk_new`.
#[unsafe(no_mangle)]
pub extern "C" fn zk_listing(
    alloc: Global,
    pieces: &[Piece],
    bytes: &[u8],
    client: u32,
    server: u32,
    waiting: u32,
    profile: u32,
    out: &mut [u8],
) -> LineAnswer
    // Limits out of their ranges are refused.
    ensures limits { AreNoLimits client server waiting profile → (result ≡ no_line 67) × (out.new ≡ out.old) }
    // So are pieces that aren't just the bytes.
    ensures pieces { AreNotCut pieces.now bytes.now → ListsNothing out.old out.new result }
    // Else the listing is that of the pieces.
    ensures listing { (h : History) → AreCut pieces.now bytes.now h → ListsUnder client server waiting profile h out.old out.new result }
{
    let Some(limits) = limits_of(client, server, waiting, profile) else {
        return LineAnswer::none(RANGE);
    };
    match listed(alloc, limits, pieces, bytes) {
        Ok(Some(text)) => LineAnswer::put(&text, out),
        Ok(None) => LineAnswer::none(RANGE),
        Err(_refused) => LineAnswer::none(NO_MEMORY),
    }
}
