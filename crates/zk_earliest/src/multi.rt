//! The parts of a multi request; how far they are possible.
ghost use Rattle.std.specs.Prelude.{◌≡◌, ◌≢◌, ℕ, ◌+◌, ◌-◌, ◌<◌, ◌≤◌, ◌^◌, length, take, drop, slice_index, MatchResult, MatchOption, pos};
ghost use Rattle.zk_jute.specs.Layout.{IsValueOf};
ghost use Rattle.zk_records.specs.Codes as codes;
ghost use Rattle.zk_records.specs.declared.op.PartOp.{PartOp};
ghost use Rattle.zk_asks.specs.Parts.{IsMulti, part_layout};
ghost use Rattle.zk_earliest.specs.{Earliest.Spells, Earliest.IsEarliest, Marks.part_mark, Marks.end_mark, Marks.part_sizes, Marks.multi_sizes, Marks.IsDifference, Marks.IsMarkAt, Sizes.IsAmong, Sizes.nothing, Sizes.plus};
ghost use Rattle.zk_earliest.specs.Stops.{Reaches, then_among};

use crate::bodies::{value, values};
use crate::first_impossible::Stretch;
use crate::sizes::Sizes;
use zk_asks::part_rows;
use zk_jute::{Blob, List, Text};
use zk_records::{PartOp, fields_of};

/// The lengths of a multi's body: of the end marker alone, or with parts.
const SIZES: Sizes = Sizes {
    least: 9,
    gap: Some(17),
};

/// The header before a part of the operation `op`, as bytes.
fn part_mark(op: PartOp) -> [u8; 9]
    ensures { result ≡ part_mark op }
{
    let number = match op {
        PartOp::Create => 1,
        PartOp::Delete => 2,
        PartOp::SetData => 5,
        PartOp::Check => 13,
    };
    [0, 0, 0, number, 0, 255, 255, 255, 255]
}

/// The least number of bytes of a part's record.
fn least_of(op: PartOp) -> usize
    ensures { result ≡ (part_sizes op).least }
{
    match op {
        PartOp::Create => 16,
        PartOp::Delete => 8,
        PartOp::SetData => 12,
        PartOp::Check => 8,
    }
}

/// The part's operation whose number is `number`; `None` if there is none.
fn part_of(number: u8) -> Option<PartOp>
    ensures { MatchOption result ((op : PartOp) → pos number ≢ codes.part_number op) (λ op. pos number ≡ codes.part_number op) }
{
    match number {
        1 => Some(PartOp::Create),
        2 => Some(PartOp::Delete),
        5 => Some(PartOp::SetData),
        13 => Some(PartOp::Check),
        _ => None,
    }
}

/// The part's operation whose number is `number`, if its record and the end marker fit into `room` bytes; else one for
/// which they do.
fn part_for(number: u8, room: usize) -> PartOp
    requires { 17 ≤ room }
    ensures fits { (part_sizes result).least + 9 ≤ room }
    ensures only { (op : PartOp) → (part_sizes op).least + 9 ≤ room → codes.part_number op ≡ pos number → op ≡ result }
{
    match part_of(number) {
        Some(op) => {
            if least_of(op) + 9 <= room {
                op
            } else {
                PartOp::Delete
            }
        }
        None => PartOp::Delete,
    }
}

/// `None` if `rest` begins with `mark`; else how many of the mark's bytes it begins with.
fn differs(rest: &[u8], mark: &[u8; 9]) -> Option<usize>
    requires { 9 ≤ length rest.now }
    ensures { IsDifference rest.now mark.now result }
{
    for i in 0..9 {
        if rest[i] != mark[i] {
            return Some(i);
        }
    }
    None
}

/// The operation of the header at `place`, `None` for the header after the last part; else the first impossible byte.
fn mark_at(src: &[u8], place: usize) -> Result<Option<PartOp>, usize>
    requires place { place ≤ length src.now }
    requires room { IsAmong multi_sizes (length src.now - place) }
    ensures { IsMarkAt src.now place result }
{
    let rest = &src[place..];
    if rest.len() == 9 {
        return match differs(rest, &[255, 255, 255, 255, 1, 255, 255, 255, 255]) {
            None => Ok(None),
            Some(known) => Err(place + known),
        };
    }
    let op = part_for(rest[3], rest.len() - 9);
    match differs(rest, &part_mark(op)) {
        None => Ok(Some(op)),
        Some(known) => Err(place + known),
    }
}

/// The place after the record at `place` of a part of the operation `op`; else the first impossible byte.
fn part_reach(op: PartOp, src: &[u8], place: usize) -> Result<usize, usize>
    requires place { place ≤ length src.now }
    requires frame { length src.now < 2 ^ 31 }
    requires room { IsAmong (plus (part_sizes op) multi_sizes) (length src.now - place) }
    ensures { Reaches (Spells (IsValueOf (part_layout op))) (then_among multi_sizes) src.now place result }
{
    macro_rules! row {
        ($op:ident: $($part:ident: $record:ident $borrowed:ident),+) => {
            match $op {
                $(PartOp::$part => <fields_of!($record, values, type)>::reach(src, place, SIZES),)+
            }
        };
    }
    part_rows!(row, op)
}

fn parts(src: &[u8]) -> Result<usize, usize>
    requires frame { length src.now < 2 ^ 31 }
    requires room { IsAmong multi_sizes (length src.now) }
    ensures { Reaches (Spells IsMulti) (then_among nothing) src.now 0 result }
{
    let mut at = 0;
    loop {
        let op = match mark_at(src, at) {
            Ok(Some(op)) => op,
            Ok(None) => return Ok(at + 9),
            Err(stuck) => return Err(stuck),
        };
        at = match part_reach(op, src, at + 9) {
            Ok(end) => end,
            Err(stuck) => return Err(stuck),
        };
    }
}

/// The number of bytes at the front that the body of a multi request of just as many bytes can begin with.
pub(crate) fn longest_multi(bytes: &[u8]) -> Option<usize>
    requires frame { length bytes.now < 2 ^ 31 }
    ensures { IsEarliest (Spells IsMulti) bytes.now result }
{
    if !SIZES.has(bytes.len()) {
        return None;
    }
    match parts(bytes) {
        Ok(end) => Some(end),
        Err(stuck) => Some(stuck),
    }
}
