//! The escapes of bytes that aren't plain, made many at a time.
ghost use Rattle.std.specs.Prelude.{◌≡◌, ◌+◌, ◌*◌, ◌<◌, ◌≤◌, ◌++◌, ℕ, OnOk, false, length, take};
ghost use Rattle.std.specs.List.{AllByRecursion, flat_map, prefix_len};
ghost use Rattle.zk_items.specs.{Form.Keeps, Leaf.is_plain, Leaf.symbol_spell, Odd.escape, Odd.is_odd};

use crate::append::append_first;
use crate::class::{Class, Odd};
use crate::text_byte::is_odd;
use crate::write_hex::pairs;
use std::alloc::AllocError;
use std::simd::prelude::*;

/// Writes a block to `room` from `at` on.
#[inline(always)]
fn lay(room: &mut [u8], at: usize, block: u8x16)
    requires { at + 16 ≤ length room.old }
    ensures room { length room.new ≡ length room.old }
    ensures written { take (at + 16) room.new ≡ take at room.old ++ block }
{
    block.copy_to_slice(&mut room[at..]);
}

/// Three blocks, one after the other.
#[inline(always)]
fn in_row(first: u8x16, middle: u8x16, last: u8x16) -> [u8; 48]
    ensures { result ≡ first ++ (middle ++ last) }
{
    let mut room = [0; 48];
    lay(&mut room, 0, first);
    lay(&mut room, 16, middle);
    lay(&mut room, 32, last);
    room
}

/// The escapes of the first five bytes, and the backslash of the next.
#[inline(always)]
pub fn five_escapes(bytes: u8x16) -> u8x16
    ensures escapes { result ≡ take 16 (flat_map escape bytes) }
    ensures lanes { (length bytes ≡ 16) × AllByRecursion (λ b. b < 256) bytes }
{
    pairs(bytes).shuffle(
        u8x32::splat(b'\\'),
        [32, 0, 1, 32, 2, 3, 32, 4, 5, 32, 6, 7, 32, 8, 9, 32],
    )
}

/// A backslash and the two digits of each byte.
fn escapes(bytes: u8x16) -> [u8; 48]
    ensures { result ≡ flat_map escape bytes }
{
    let digits = pairs(bytes);
    let slash = u8x32::splat(b'\\');
    let middle = digits.shuffle(
        slash,
        [
            10, 11, 32, 12, 13, 32, 14, 15, 32, 16, 17, 32, 18, 19, 32, 20,
        ],
    );
    let last = digits.shuffle(
        slash,
        [
            21, 32, 22, 23, 32, 24, 25, 32, 26, 27, 32, 28, 29, 32, 30, 31,
        ],
    );
    in_row(five_escapes(bytes), middle, last)
}

/// The first sixteen bytes; where there are fewer, zeros after them.
#[inline(always)]
pub fn block_of(bytes: &[u8]) -> u8x16
    ensures { (n : ℕ) → n ≤ 16 → n ≤ length bytes.now → take n result ≡ take n bytes.now }
{
    if bytes.len() >= 16 {
        return u8x16::from_slice(bytes);
    }
    let mut block = [0; 16];
    block[..bytes.len()].copy_from_slice(bytes);
    u8x16::from_array(block)
}

/// Appends the escapes of the first `count` bytes, none of them plain.
pub fn put_escapes(out: &mut Vec<u8>, bytes: u8x16, count: usize) -> Result<(), AllocError>
    requires few { count ≤ 16 }
    requires odd { AllByRecursion (λ b. is_plain b ≡ false) (take count bytes) }
    ensures spelled { OnOk result (out.new.items ≡ out.old.items ++ flat_map symbol_spell (take count bytes)) }
    ensures keeps { Keeps out.old.items out.new.items }
{
    if count <= 5 {
        append_first(out, five_escapes(bytes).as_array(), 3 * count)
    } else {
        append_first(out, &escapes(bytes), 3 * count)
    }
}

/// The number of bytes in front that aren't plain, counted one by one.
fn odd_run(bytes: &[u8]) -> usize
    ensures { result ≡ prefix_len is_odd bytes.now }
{
    bytes.iter().take_while(|b| is_odd(**b)).count()
}

/// The number of bytes in front that aren't plain, of the first sixteen.
#[inline(always)]
pub fn odd_len(bytes: &[u8]) -> usize
    ensures { result ≡ prefix_len is_odd (take 16 bytes.now) }
{
    if bytes.len() >= 16 {
        Odd::run_in(u8x16::from_slice(bytes))
    } else {
        odd_run(bytes)
    }
}
