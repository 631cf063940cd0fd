//! `Piece`: the pieces of a conversation whose bytes come one after the other.
ghost use Rattle.std.specs.Prelude.{IfOk, MatchOption};
ghost use Rattle.zk_talk.specs.Answer.{history_of};
ghost use Rattle.zk_c.specs.Cut.{AreNotCut, AreJust};

use crate::number::side_of;
use std::alloc::{AllocError, Global};
use zk_talk::Side;

/// A side, and how many bytes of it come next.
#[repr(C)]
#[derive(Clone, Copy)]
pub struct Piece {
    /// 0 for the client, 1 for the server.
    pub side: u32,
    /// The number of bytes.
    pub length: usize,
}

/// The pieces with their bytes; `None` if a number is no side's, or the bytes are more or fewer.
pub fn cut_of<'a>(
    alloc: Global,
    pieces: &[Piece],
    bytes: &'a [u8],
) -> Result<Option<Vec<(Side, &'a [u8])>>, AllocError>
    ensures { IfOk result (λ found. MatchOption found (AreNotCut pieces.now bytes.now) (λ cut. AreJust pieces.now bytes.now (history_of cut.items))) }
{
    let mut rest = bytes;
    let mut cut = Vec::new(alloc);
    for piece in pieces {
        let Some(side) = side_of(piece.side) else {
            return Ok(None);
        };
        let Some((mine, others)) = rest.split_at_checked(piece.length) else {
            return Ok(None);
        };
        cut.push((side, mine))?;
        rest = others;
    }
    if rest.is_empty() {
        Ok(Some(cut))
    } else {
        Ok(None)
    }
}
