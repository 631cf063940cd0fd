//! Runs of plain bytes, which a text needs no escape for, found many bytes at a time.
ghost use Rattle.std.specs.Prelude.{◌≡◌, ◌≤◌, length, IsTrue};
ghost use Rattle.std.specs.List.{prefix_len};
ghost use Rattle.zk_items.specs.Leaf.{is_plain};

use crate::class::{Class, Plain, run_by};
use crate::text_byte::is_plain;
use std::simd::prelude::*;

/// The length of the run of plain bytes in front.
pub fn plain_len(bytes: &[u8]) -> usize
    ensures value { result ≡ prefix_len is_plain bytes.now }
    ensures within { result ≤ length bytes.now }
{
    if bytes.len() >= 16 {
        run_by::<16, Plain>(bytes)
    } else if bytes.len() >= 8 {
        run_by::<8, Plain>(bytes)
    } else {
        bytes.iter().take_while(|b| is_plain(**b)).count()
    }
}

/// Whether each of 16 to 32 bytes is plain: the first sixteen and the last sixteen, in one test.
fn are_plain_by_16(bytes: &[u8]) -> bool
    requires { (16 ≤ length bytes.now) × (length bytes.now ≤ 32) }
    ensures { IsTrue result → prefix_len is_plain bytes.now ≡ length bytes.now }
{
    let first = u8x16::from_slice(bytes);
    let last = u8x16::from_slice(&bytes[bytes.len() - 16..]);
    let both: u8x32 = first.shuffle(
        last,
        [
            0, 1, 2, 3, 4, 5, 6, 7, 8, 9, 10, 11, 12, 13, 14, 15, 16, 17, 18, 19, 20, 21, 22, 23,
            24, 25, 26, 27, 28, 29, 30, 31,
        ],
    );
    Plain::run_in(both) == 32
}

/// Whether each of 8 to 16 bytes is plain: the first eight and the last eight, in one test.
fn are_plain_by_8(bytes: &[u8]) -> bool
    requires { (8 ≤ length bytes.now) × (length bytes.now ≤ 16) }
    ensures { IsTrue result → prefix_len is_plain bytes.now ≡ length bytes.now }
{
    let first = u8x8::from_slice(bytes);
    let last = u8x8::from_slice(&bytes[bytes.len() - 8..]);
    let both: u8x16 = first.shuffle(last, [0, 1, 2, 3, 4, 5, 6, 7, 8, 9, 10, 11, 12, 13, 14, 15]);
    Plain::run_in(both) == 16
}

/// Whether each byte is plain; one test for up to 32 bytes.
pub fn are_plain(bytes: &[u8]) -> bool
    ensures { IsTrue result → prefix_len is_plain bytes.now ≡ length bytes.now }
{
    match bytes.len() {
        8..=15 => are_plain_by_8(bytes),
        16..=32 => are_plain_by_16(bytes),
        _ => plain_len(bytes) == bytes.len(),
    }
}
