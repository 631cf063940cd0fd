//! Tests whether bytes are ASCII, sixty-four, sixteen, eight or four at a time.
ghost use Rattle.std.specs.Prelude.{◌≤◌, length, take, IsTrue};
ghost use Rattle.std.specs.Str.{IsAscii};

use std::simd::prelude::*;

/// Whether each byte of the block is ASCII.
#[inline(always)]
fn is_low(block: u8x16) -> bool
    ensures { IsTrue result → IsAscii block }
{
    block.simd_ge(u8x16::splat(0x80)).to_bitmask() == 0
}

/// The same of sixty-four bytes.
fn is_low_64(block: u8x64) -> bool
    ensures { IsTrue result → IsAscii block }
{
    block.simd_ge(u8x64::splat(0x80)).to_bitmask() == 0
}

/// The same of eight bytes.
fn is_low_8(block: u8x8) -> bool
    ensures { IsTrue result → IsAscii block }
{
    block.simd_ge(u8x8::splat(0x80)).to_bitmask() == 0
}

/// The same of four bytes.
fn is_low_4(block: u8x4) -> bool
    ensures { IsTrue result → IsAscii block }
{
    block.simd_ge(u8x4::splat(0x80)).to_bitmask() == 0
}

/// Whether each byte is ASCII, of less than sixteen. The second block overlaps the first.
fn is_plain_few(bytes: &[u8]) -> bool
    requires { length bytes.now ≤ 16 }
    ensures { IsTrue result → IsAscii bytes.now }
{
    let end = bytes.len();
    if end >= 8 {
        is_low_8(u8x8::from_slice(bytes)) && is_low_8(u8x8::from_slice(&bytes[end - 8..]))
    } else if end >= 4 {
        is_low_4(u8x4::from_slice(bytes)) && is_low_4(u8x4::from_slice(&bytes[end - 4..]))
    } else {
        bytes.is_ascii()
    }
}

/// Whether each byte is ASCII. The last block overlaps the one before it.
#[inline(always)]
pub(crate) fn is_plain(bytes: &[u8]) -> bool
    ensures { IsTrue result → IsAscii bytes.now }
{
    if bytes.len() < 16 {
        return is_plain_few(bytes);
    }
    let last = bytes.len() - 16;
    let mut at = 0;
    while at < last {
        if !is_low(u8x16::from_slice(&bytes[at..])) {
            return false;
        }
        at += 16;
    }
    is_low(u8x16::from_slice(&bytes[last..]))
}

/// The length of a front of the bytes that is ASCII, found sixty-four bytes at a time: zero of fewer. The last block overlaps
/// the one before it.
pub(crate) fn plain_front(bytes: &[u8]) -> usize
    ensures { (result ≤ length bytes.now) × IsAscii (take result bytes.now) }
{
    let mut at = 0;
    while bytes.len() - at >= 64 {
        if !is_low_64(u8x64::from_slice(&bytes[at..])) {
            return at;
        }
        at += 64;
    }
    if bytes.len() >= 64 && is_low_64(u8x64::from_slice(&bytes[bytes.len() - 64..])) {
        return bytes.len();
    }
    at
}
