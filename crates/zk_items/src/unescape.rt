//! The bytes of escapes that follow one another, read five at a time.
ghost use Rattle.std.specs.Prelude.{◌≡◌, ◌*◌, ◌<◌, ◌≤◌, ℕ, length, take};
ghost use Rattle.std.specs.List.{AllByRecursion, flat_map};
ghost use Rattle.zk_items.specs.Leaf.{symbol_spell};

use crate::class::{Class, Odd, first_set};
use crate::escape::five_escapes;
use std::simd::prelude::*;

/// The bytes that five escapes in front spell, if there are five.
fn decoded(chars: u8x16) -> u8x16 {
    let letters = chars.simd_gt(u8x16::splat(b'9'));
    let values = (chars & u8x16::splat(15)) + letters.select(u8x16::splat(9), u8x16::splat(0));
    let high: u8x16 = values.swizzle([1, 4, 7, 10, 13, 15, 15, 15, 15, 15, 15, 15, 15, 15, 15, 15]);
    let low: u8x16 = values.swizzle([2, 5, 8, 11, 14, 15, 15, 15, 15, 15, 15, 15, 15, 15, 15, 15]);
    high << u8x16::splat(4) | low
}

/// The number of lanes before the first at which `a` and `b` differ.
#[tactic(auto, using(crate::proofs::Escapes::same_front, crate::proofs::Escapes::same_within))]
#[inline(always)]
fn same_len(a: u8x16, b: u8x16) -> usize
    ensures same { take result a ≡ take result b }
    ensures within { result ≤ 16 }
{
    first_set(a.simd_ne(b).to_bitmask(), 16)
}

/// The bytes of the escapes in front, at most five, and how many these are.
// It stands for `Reader::symbol`. What was decoded is spelled again: so only the one spelling of each byte is taken.
#[inline(always)]
#[tactic(auto, using(crate::proofs::Escapes::respelled))]
pub fn escapes_in(chars: u8x16) -> (u8x16, usize)
    ensures few { result.1 ≤ 5 }
    ensures read { (n : ℕ) → n ≤ result.1 → take (3 * n) chars ≡ flat_map symbol_spell (take n result.0) }
    ensures bytes { (length result.0 ≡ 16) × AllByRecursion (λ b. b < 256) result.0 }
{
    let bytes = decoded(chars);
    let same = same_len(chars, five_escapes(bytes)) / 3;
    (bytes, same.min(Odd::run_in(bytes)))
}
