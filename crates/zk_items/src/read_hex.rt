//! The bytes that lower-case hexadecimal digits spell, read thirty-two digits at a time.
ghost use Rattle.std.specs.Prelude.{◌≡◌, ◌+◌, ◌*◌, ◌%◌, ◌<◌, ◌≤◌, ◌++◌, OnOk, length, map, take, drop, true};
ghost use Rattle.std.specs.List.{AllByRecursion};
ghost use Rattle.hex.specs.Hex.{encode_lower};
ghost use Rattle.zk_items.specs.{Form.Keeps, Leaf.in_hex, Leaf.hex_digit};

use std::alloc::AllocError;
use std::simd::prelude::*;

/// The value of each digit.
fn values(digits: u8x16) -> u8x16
    requires { AllByRecursion (λ c. in_hex c ≡ true) digits }
    ensures value { map hex_digit result ≡ digits }
    ensures low { AllByRecursion (λ n. n < 16) result }
{
    (digits & u8x16::splat(15)) + (digits >> u8x16::splat(6)) * u8x16::splat(9)
}

/// The byte of each two digits.
fn joined(digits: u8x32) -> u8x16
    requires { AllByRecursion (λ c. in_hex c ≡ true) digits }
    ensures { encode_lower result ≡ digits }
{
    let high = values(digits.shuffle(
        digits,
        [0, 2, 4, 6, 8, 10, 12, 14, 16, 18, 20, 22, 24, 26, 28, 30],
    ));
    let low = values(digits.shuffle(
        digits,
        [1, 3, 5, 7, 9, 11, 13, 15, 17, 19, 21, 23, 25, 27, 29, 31],
    ));
    high << u8x16::splat(4) | low
}

/// Reads the thirty-two digits from `2 * at` on into `room`, from `at` on.
fn read_block(room: &mut [u8], digits: &[u8], at: usize)
    requires hex { AllByRecursion (λ c. in_hex c ≡ true) digits.now }
    requires block { 2 * at + 32 ≤ length digits.now }
    requires room { 2 * length room.old ≡ length digits.now }
    ensures room { length room.new ≡ length room.old }
    ensures read { encode_lower (take (at + 16) room.new) ≡ encode_lower (take at room.old) ++ take 32 (drop (2 * at) digits.now) }
{
    joined(u8x32::from_slice(&digits[2 * at..])).copy_to_slice(&mut room[at..]);
}

/// Reads thirty-two digits or more into `room`.
// The first block is read for the bytes beyond a multiple of sixteen, and the next one begins after these: so the last one
// ends with the digits, and none is read pair by pair.
fn read_blocks(room: &mut [u8], digits: &[u8])
    requires hex { AllByRecursion (λ c. in_hex c ≡ true) digits.now }
    requires some { 16 ≤ length room.old }
    requires room { 2 * length room.old ≡ length digits.now }
    ensures { encode_lower room.new ≡ digits.now }
{
    read_block(room, digits, 0);
    let mut at = room.len() % 16;
    while at < room.len() {
        read_block(room, digits, at);
        at += 16;
    }
}

/// Reads digits into `room`.
fn read_digits(room: &mut [u8], digits: &[u8])
    requires hex { AllByRecursion (λ c. in_hex c ≡ true) digits.now }
    requires room { 2 * length room.old ≡ length digits.now }
    ensures { encode_lower room.new ≡ digits.now }
{
    if room.len() < 16 {
        hex::decode_to_slice(digits, room).unwrap();
    } else {
        read_blocks(room, digits);
    }
}

/// Appends the bytes that lower-case digits spell, an even number of them. Whatever `out` began with, it begins with.
// Memory is asked for once, and the bytes are read in place.
pub fn append_bytes(out: &mut Vec<u8>, digits: &[u8]) -> Result<(), AllocError>
    requires hex { AllByRecursion (λ c. in_hex c ≡ true) digits.now }
    requires even { length digits.now % 2 ≡ 0 }
    ensures appended { OnOk result (out.new.items ≡ out.old.items ++ drop (length out.old.items) out.new.items) }
    ensures read { OnOk result (encode_lower (drop (length out.old.items) out.new.items) ≡ digits.now) }
    ensures keeps { Keeps out.old.items out.new.items }
{
    let start = out.len();
    out.resize(start + digits.len() / 2, 0)?;
    read_digits(&mut out[start..], digits);
    Ok(())
}
