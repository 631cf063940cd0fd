//! The limits of a head; the head of a piece, and a whole piece, read at once where a block begins with them.
ghost use Rattle.std.specs.Prelude.{◌≡◌, ◌≤◌, ◌+◌, true, IfSome, length, take, drop};
ghost use Rattle.zk_recordings.specs.{declared.parts.Part.TheVariants.Size, HeadLimits.limits_or, HeadLimits.profile_by};
ghost use Rattle.zk_recordings.specs.Parts as parts;
ghost use Rattle.zk_recordings.specs.{Recording.side_byte, Reading.chosen, Heads.IsTimeIn, Pieces.IsHeadIn, Pieces.IsPieceIn};

use crate::parts::{Format, Part, number};
use zk_records::Profile;
use zk_talk::{Limits, Side};

/// The head of a piece.
#[derive(Clone, Copy)]
pub struct PieceHead {
    /// The side whose content follows.
    pub side: Side,
    /// The number of bytes of the content.
    pub size: u32,
    /// The number of bytes of the head.
    pub used: usize,
}

/// A piece with all its content, at the front of a block.
#[derive(Clone, Copy, Debug, PartialEq, Eq)]
pub struct WholePiece {
    /// The side whose content it is.
    pub side: Side,
    /// The number of bytes of the head, which isn't 0. The content follows them.
    pub head: usize,
    /// The number of bytes of head and content.
    pub used: usize,
}

/// The profile whose number is `number`, in a head; that of 3.4 where it is none's.
pub fn profile_of(number: u32) -> Profile
    ensures { result ≡ profile_by number }
{
    Profile::of_number(number).unwrap_or(Profile::V34)
}

/// The limits that a head's numbers make; `None` if one is out of range.
pub fn head_limits(client: u32, server: u32, waiting: u32, profile: Profile) -> Option<Limits>
    ensures { (options : Limits) → chosen result options ≡ limits_or options client server waiting profile }
{
    let limits = Limits::new(client, server, waiting)?;
    Some(limits.with_profile(profile))
}

/// The side that `byte` is the letter of; `None` if it is of none.
pub fn side_named(byte: u8) -> Option<Side>
    ensures { IfSome result (λ side. byte ≡ side_byte side) }
{
    match byte {
        b'C' => Some(Side::Client),
        b'S' => Some(Side::Server),
        _ => None,
    }
}

/// The place of a piece's size in `block`: after the side's byte and a good time, or, in a format without times, after
/// the side's byte. `None`: undecided.
pub fn behind_time(format: Format, block: &[u8]) -> Option<usize>
    ensures { IfSome result (IsTimeIn format block.now) }
{
    match format {
        Format::Zkr1 => Some(1),
        Format::Zkr2 => {
            if block.len() < 9 {
                return None;
            }
            let time = [
                block[1], block[2], block[3], block[4], block[5], block[6], block[7], block[8],
            ];
            Part::Time.is_good(time).then_some(9)
        }
    }
}

/// The size at `at` of `block`, if it is whole and good; `None`: undecided.
pub fn size_in(block: &[u8], at: usize) -> Option<u32>
    requires { at ≤ 9 }
    ensures within { IfSome result (λ size. at + 4 ≤ length block.now) }
    ensures good { IfSome result (λ size. parts.is_good Size (take 4 (drop at block.now)) ≡ true) }
    ensures value { IfSome result (λ size. size ≡ parts.number (take 4 (drop at block.now))) }
{
    if block.len() < at + 4 {
        return None;
    }
    let size = [
        block[at],
        block[at + 1],
        block[at + 2],
        block[at + 3],
        0,
        0,
        0,
        0,
    ];
    Part::Size.is_good(size).then_some(number(size))
}

/// The head of a piece, if it is whole and good at the front of `block`; `None`: undecided.
#[inline(always)]
pub fn head_in(format: Format, block: &[u8]) -> Option<PieceHead>
    ensures { IfSome result (IsHeadIn format block.now) }
{
    let side = side_named(*block.first()?)?;
    let at = behind_time(format, block)?;
    let size = size_in(block, at)?;
    let used = at + 4;
    Some(PieceHead { side, size, used })
}

/// The piece that is whole at the front of `block`; `None`: undecided.
#[inline(always)]
pub fn piece_in(format: Format, block: &[u8]) -> Option<WholePiece>
    ensures { IfSome result (IsPieceIn format block.now) }
{
    let PieceHead {
        side,
        size,
        used: head,
    } = head_in(format, block)?;
    let used = head + size as usize;
    if used <= block.len() {
        Some(WholePiece { side, head, used })
    } else {
        None
    }
}
