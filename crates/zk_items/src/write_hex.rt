//! The hexadecimal digits of bytes, made sixteen bytes at a time.
ghost use Rattle.std.specs.Prelude.{◌≡◌, ◌+◌, ◌*◌, ◌<◌, ◌≤◌, ◌++◌, OnOk, length, map, take, drop};
ghost use Rattle.std.specs.List.{AllByRecursion};
ghost use Rattle.hex.specs.Hex.{encode_lower};
ghost use Rattle.zk_items.specs.{Form.Keeps, Leaf.hex_digit};

use std::alloc::AllocError;
use std::simd::prelude::*;

/// The lower-case digit of each value.
fn digits(values: u8x16) -> u8x16
    requires { AllByRecursion (λ n. n < 16) values }
    ensures { result ≡ map hex_digit values }
{
    u8x16::from_array(*b"0123456789abcdef").swizzle_dyn(values)
}

/// The two digits of each byte, side by side.
pub fn pairs(bytes: u8x16) -> u8x32
    ensures { result ≡ encode_lower bytes }
{
    let high = digits(bytes >> u8x16::splat(4));
    let low = digits(bytes & u8x16::splat(15));
    high.shuffle(
        low,
        [
            0, 16, 1, 17, 2, 18, 3, 19, 4, 20, 5, 21, 6, 22, 7, 23, 8, 24, 9, 25, 10, 26, 11, 27,
            12, 28, 13, 29, 14, 30, 15, 31,
        ],
    )
}

/// Writes the digits of the sixteen bytes from `at` on to `room`, from `2 * at` on.
fn write_block(room: &mut [u8], bytes: &[u8], at: usize)
    requires block { at + 16 ≤ length bytes.now }
    requires room { length room.old ≡ 2 * length bytes.now }
    ensures room { length room.new ≡ length room.old }
    ensures written { take (2 * at + 32) room.new ≡ take (2 * at) room.old ++ encode_lower (take 16 (drop at bytes.now)) }
{
    pairs(u8x16::from_slice(&bytes[at..])).copy_to_slice(&mut room[2 * at..]);
}

/// Writes the digits of sixteen bytes or more.
// The first block is written for the bytes beyond a multiple of sixteen, and the next one begins after these: so the last
// one ends with the bytes, and none is written one by one.
fn write_blocks(room: &mut [u8], bytes: &[u8])
    requires some { 16 ≤ length bytes.now }
    requires room { length room.old ≡ 2 * length bytes.now }
    ensures { room.new ≡ encode_lower bytes.now }
{
    write_block(room, bytes, 0);
    let mut at = bytes.len() % 16;
    while at < bytes.len() {
        write_block(room, bytes, at);
        at += 16;
    }
}

/// Writes two lower-case digits for each byte to `room`.
fn write_digits(room: &mut [u8], bytes: &[u8])
    requires { length room.old ≡ 2 * length bytes.now }
    ensures { room.new ≡ encode_lower bytes.now }
{
    if bytes.len() < 16 {
        hex::encode_to_slice(bytes, room).unwrap();
    } else {
        write_blocks(room, bytes);
    }
}

/// Appends two lower-case digits for each byte.
// Memory is reserved once, and the digits are written in place.
pub fn put_digits(out: &mut Vec<u8>, bytes: &[u8]) -> Result<(), AllocError>
    ensures spelled { OnOk result (out.new.items ≡ out.old.items ++ encode_lower bytes.now) }
    ensures keeps { Keeps out.old.items out.new.items }
{
    let start = out.len();
    let room = bytes.len().checked_mul(2).ok_or(AllocError)?;
    let end = start.checked_add(room).ok_or(AllocError)?;
    out.resize(end, 0)?;
    write_digits(&mut out[start..], bytes);
    Ok(())
}
