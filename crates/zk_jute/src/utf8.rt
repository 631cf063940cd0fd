//! Tests whether bytes are UTF-8: less than 256 sixteen at a time, each by a look-up of the pair that it ends, and by the
//! two bytes before that. It stands for `simdutf8`, which judges less than 64 bytes one by one, and is asked of more.
//!
//! After Keiser and Lemire, "Validating UTF-8 In Less Than One Instruction Per Byte", whose tables these are.
ghost use Rattle.std.specs.Prelude.{◌≡◌, ℕ, suc, ◌-◌, ◌<◌, ◌≤◌, ◌∷◌, ◌++◌, length, map, replicate, slice_index, IsTrue, IsUtf8};
ghost use Rattle.simdutf8.specs.{Classes.IsClass, Steps.AreZero, Tables.first_high, Tables.first_low, Tables.second_high};
ghost use Rattle.zk_jute.specs.Follow.{EndsClosed, Follow, FollowsAt};

use crate::ascii::{is_plain, plain_front};
use simdutf8::is_utf8;
use std::simd::prelude::*;

/// The faults that a pair of bytes can have, by the upper half of the first.
const FIRST_HIGH: [u8; 16] = [2, 2, 2, 2, 2, 2, 2, 2, 128, 128, 128, 128, 33, 1, 21, 73];

/// The same, by the lower half of the first.
const FIRST_LOW: [u8; 16] = [
    231, 163, 131, 131, 139, 203, 203, 203, 203, 203, 203, 203, 203, 219, 203, 203,
];

/// The same, by the upper half of the second.
const SECOND_HIGH: [u8; 16] = [1, 1, 1, 1, 1, 1, 1, 1, 230, 174, 186, 186, 1, 1, 1, 1];

fn by_first_high(first: u8x16) -> u8x16
    ensures { result ≡ map first_high first }
{
    u8x16::from_array(FIRST_HIGH).swizzle_dyn(first >> u8x16::splat(4))
}

fn by_first_low(first: u8x16) -> u8x16
    ensures { result ≡ map first_low first }
{
    u8x16::from_array(FIRST_LOW).swizzle_dyn(first & u8x16::splat(15))
}

fn by_second_high(second: u8x16) -> u8x16
    ensures { result ≡ map second_high second }
{
    u8x16::from_array(SECOND_HIGH).swizzle_dyn(second >> u8x16::splat(4))
}

/// The faults of each pair: those that all three tables have.
fn classes(first: u8x16, second: u8x16) -> u8x16
    ensures len { length result ≡ 16 }
    ensures lanes { (i : ℕ) → i < 16 → IsClass (slice_index first i) (slice_index second i) (slice_index result i) }
{
    by_first_high(first) & by_first_low(first) & by_second_high(second)
}

/// By how much each byte is above the other one's; zero where it isn't.
fn excess(a: u8x16, b: u8x16) -> u8x16
    ensures len { length result ≡ 16 }
    ensures lanes { (i : ℕ) → i < 16 → slice_index result i ≡ slice_index a i - slice_index b i }
{
    a.saturating_sub(b)
}

/// Zero where each byte of the block may follow the three before it.
fn faults(three_back: u8x16, two_back: u8x16, one_back: u8x16, block: u8x16) -> u8x16
    ensures { AreZero result → Follow three_back two_back one_back block }
{
    let pair = classes(one_back, block);
    let third = excess(two_back, u8x16::splat(0xe0 - 0x80));
    let fourth = excess(three_back, u8x16::splat(0xf0 - 0x80));
    ((third | fourth) & u8x16::splat(0x80)) ^ pair
}

/// Zero where both are.
fn either(a: u8x16, b: u8x16) -> u8x16
    ensures { AreZero result → AreZero a × AreZero b }
{
    a | b
}

fn is_zero(block: u8x16) -> bool
    ensures { IsTrue result → AreZero block }
{
    block.simd_ne(u8x16::splat(0)).to_bitmask() == 0
}

/// The block's bytes, each moved on by one place, after a zero.
fn one_back(block: u8x16) -> u8x16
    ensures { (i : ℕ) → i < 16 → slice_index result i ≡ slice_index (0 ∷ 0 ∷ 0 ∷ block) (suc (suc i)) }
{
    u8x16::splat(0).shuffle(
        block,
        [
            15, 16, 17, 18, 19, 20, 21, 22, 23, 24, 25, 26, 27, 28, 29, 30,
        ],
    )
}

fn two_back(block: u8x16) -> u8x16
    ensures { (i : ℕ) → i < 16 → slice_index result i ≡ slice_index (0 ∷ 0 ∷ 0 ∷ block) (suc i) }
{
    u8x16::splat(0).shuffle(
        block,
        [
            14, 15, 16, 17, 18, 19, 20, 21, 22, 23, 24, 25, 26, 27, 28, 29,
        ],
    )
}

fn three_back(block: u8x16) -> u8x16
    ensures { (i : ℕ) → i < 16 → slice_index result i ≡ slice_index (0 ∷ 0 ∷ 0 ∷ block) i }
{
    u8x16::splat(0).shuffle(
        block,
        [
            13, 14, 15, 16, 17, 18, 19, 20, 21, 22, 23, 24, 25, 26, 27, 28,
        ],
    )
}

/// Zero where the first sixteen bytes may follow one another, from the beginning of a text.
fn first_faults(bytes: &[u8]) -> u8x16
    requires { 16 ≤ length bytes.now }
    ensures { AreZero result → (i : ℕ) → i < 16 → FollowsAt (0 ∷ 0 ∷ 0 ∷ bytes.now) i }
{
    let block = u8x16::from_slice(bytes);
    let (three, two, one) = (three_back(block), two_back(block), one_back(block));
    faults(three, two, one, block)
}

/// Zero where each of the sixteen bytes after the first three may follow the three before it.
fn next_faults(bytes: &[u8]) -> u8x16
    requires { 19 ≤ length bytes.now }
    ensures { AreZero result → (i : ℕ) → i < 16 → FollowsAt bytes.now i }
{
    faults(
        u8x16::from_slice(bytes),
        u8x16::from_slice(&bytes[1..]),
        u8x16::from_slice(&bytes[2..]),
        u8x16::from_slice(&bytes[3..]),
    )
}

/// Whether no character is left open at the end.
fn is_closed(bytes: &[u8]) -> bool
    requires { 3 ≤ length bytes.now }
    ensures { IsTrue result → EndsClosed bytes.now }
{
    let end = bytes.len();
    bytes[end - 3] < 0xf0 && bytes[end - 2] < 0xe0 && bytes[end - 1] < 0xc0
}

/// Whether nineteen bytes or more are UTF-8. The last window overlaps the one before it.
fn is_text_by_windows(bytes: &[u8]) -> bool
    requires { 19 ≤ length bytes.now }
    ensures { IsTrue result → IsUtf8 bytes.now }
{
    let mut wrong = first_faults(bytes);
    let last = bytes.len() - 19;
    let mut at = 13;
    while at < last {
        wrong = either(wrong, next_faults(&bytes[at..]));
        at += 16;
    }
    is_closed(bytes) && is_zero(either(wrong, next_faults(&bytes[last..])))
}

/// The bytes, three zeros before them, and zeros after them up to one window.
fn one_window(bytes: &[u8]) -> [u8; 19]
    requires { length bytes.now ≤ 13 }
    ensures { result ≡ 0 ∷ 0 ∷ 0 ∷ (bytes.now ++ replicate (16 - length bytes.now) 0) }
{
    let mut room = [0; 19];
    room[3..3 + bytes.len()].copy_from_slice(bytes);
    room
}

/// The same up to two windows.
fn two_windows(bytes: &[u8]) -> [u8; 35]
    requires { length bytes.now ≤ 29 }
    ensures { result ≡ 0 ∷ 0 ∷ 0 ∷ (bytes.now ++ replicate (32 - length bytes.now) 0) }
{
    let mut room = [0; 35];
    room[3..3 + bytes.len()].copy_from_slice(bytes);
    room
}

fn is_text_in_one(bytes: &[u8]) -> bool
    requires { length bytes.now ≤ 13 }
    ensures { IsTrue result → IsUtf8 bytes.now }
{
    let room = one_window(bytes);
    is_zero(next_faults(&room))
}

fn is_text_in_two(bytes: &[u8]) -> bool
    requires { length bytes.now ≤ 29 }
    ensures { IsTrue result → IsUtf8 bytes.now }
{
    let room = two_windows(bytes);
    let (first, second) = (next_faults(&room), next_faults(&room[16..]));
    is_zero(either(first, second))
}

/// Whether the bytes are UTF-8, as `simdutf8` says; false: undecided, or too few or too many to gain by it.
fn is_short_text(bytes: &[u8]) -> bool
    ensures { IsTrue result → IsUtf8 bytes.now }
{
    match bytes.len() {
        0..6 => false,
        6..14 => is_text_in_one(bytes),
        14..19 => is_text_in_two(bytes),
        19..256 => is_text_by_windows(bytes),
        _ => false,
    }
}

/// Whether the bytes are UTF-8, sought first as of a text with bytes outside ASCII.
fn is_text_outside_ascii(bytes: &[u8]) -> bool
    ensures { IsTrue result → IsUtf8 bytes.now }
{
    is_short_text(bytes) || is_utf8(bytes)
}

/// Whether the bytes that `plain_front` leaves are UTF-8.
#[tactic(auto, using(crate::proofs::Primitives::ascii_text))]
// Not inlined: without it `is_long_text` saves no registers.
#[inline(never)]
fn is_text_after_front(bytes: &[u8]) -> bool
    ensures { IsTrue result → IsUtf8 bytes.now }
{
    bytes.len() < 64 && is_plain(bytes) || is_text_outside_ascii(bytes)
}

/// Whether the bytes are UTF-8; a front of ASCII is passed over.
pub(crate) fn is_long_text(bytes: &[u8]) -> bool
    ensures { IsTrue result → IsUtf8 bytes.now }
{
    let front = plain_front(bytes);
    front == bytes.len() || is_text_after_front(&bytes[front..])
}

/// Whether the bytes are UTF-8; false: undecided.
#[tactic(auto, using(crate::proofs::Primitives::ascii_text))]
pub(crate) fn is_text(bytes: &[u8]) -> bool
    ensures { IsTrue result → IsUtf8 bytes.now }
{
    if bytes.len() < 128 {
        is_plain(bytes) || is_short_text(bytes)
    } else {
        is_long_text(bytes)
    }
}
