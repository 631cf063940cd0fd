//! Runs of digits or letters in front of bytes, and the numbers that they spell.
ghost use Rattle.std.specs.Prelude.{◌≡◌, ◌≢◌, ◌≤◌, length, IfSome, IfNone, bytes_eq, ℤ, true, false};
ghost use Rattle.std.specs.{List.prefix_len, Fmt.signed_decimal};
ghost use Rattle.zk_items.specs.Leaf as leaf;
ghost use Rattle.zk_items.specs.Leaf.{in_number, in_name, in_hex, in_word};

use crate::class::{Digit, run_by};
use itoa::Buffer;

pub fn is_in_number(b: u8) -> bool
    ensures { result ≡ in_number b }
{
    b.is_ascii_digit() || b == b'-'
}

/// The length of the run of digits and `-` in front of `bytes`.
pub fn number_len(bytes: &[u8]) -> usize
    ensures value { result ≡ prefix_len in_number bytes.now }
    ensures within { result ≤ length bytes.now }
{
    bytes.iter().take_while(|b| is_in_number(**b)).count()
}

fn is_in_name(b: u8) -> bool
    ensures { result ≡ in_name b }
{
    b.is_ascii_alphanumeric()
}

/// The length of the run of letters and digits in front of `bytes`.
pub fn name_len(bytes: &[u8]) -> usize
    ensures value { result ≡ prefix_len in_name bytes.now }
    ensures within { result ≤ length bytes.now }
{
    bytes.iter().take_while(|b| is_in_name(**b)).count()
}

fn is_in_word(b: u8) -> bool
    ensures { result ≡ in_word b }
{
    b.is_ascii_alphabetic()
}

/// The length of the run of letters in front of `bytes`.
pub fn letters_len(bytes: &[u8]) -> usize
    ensures value { result ≡ prefix_len in_word bytes.now }
    ensures within { result ≤ length bytes.now }
{
    bytes.iter().take_while(|b| is_in_word(**b)).count()
}

fn is_in_hex(b: u8) -> bool
    ensures { result ≡ in_hex b }
{
    matches!(b, b'0'..=b'9' | b'a'..=b'f')
}

/// The length of the run of lower-case hexadecimal digits in front of `bytes`.
pub fn hex_len(bytes: &[u8]) -> usize
    ensures value { result ≡ prefix_len in_hex bytes.now }
    ensures within { result ≤ length bytes.now }
{
    if bytes.len() >= 16 {
        run_by::<16, Digit>(bytes)
    } else {
        bytes.iter().take_while(|b| is_in_hex(**b)).count()
    }
}

fn is_long(n: i64, run: &[u8]) -> bool
    ensures { (z : ℤ) → z ≡ n → result ≡ bytes_eq (signed_decimal z) run.now }
{
    Buffer::new().format(n).as_bytes() == run
}

/// The long that `run` spells, in its only spelling: no sign but `-`, no leading zero; `None` if it spells none.
pub fn long_of(run: &[u8]) -> Option<i64>
    ensures found { IfSome result (λ n. (run.now ≡ signed_decimal n) × (leaf.in_range 63 n ≡ true)) }
    ensures none { IfNone result ((z : ℤ) → leaf.in_range 63 z ≡ true → run.now ≢ signed_decimal z) }
{
    let text = match std::str::from_utf8(run) {
        Ok(text) => text,
        Err(_) => return None,
    };
    let n = match text.parse::<i64>() {
        Ok(n) => n,
        Err(_) => return None,
    };
    if !is_long(n, run) {
        return None;
    }
    Some(n)
}

/// The int `n`; `None` if it isn't one.
pub fn narrow(n: i64) -> Option<i32>
    ensures found { IfSome result (λ m. (m ≡ n) × (leaf.in_range 31 m ≡ true)) }
    ensures none { IfNone result (leaf.in_range 31 n ≡ false) }
{
    i32::try_from(n).ok()
}

/// The int that `run` spells, as `long_of` reads a long; `None` if it spells none.
pub fn int_of(run: &[u8]) -> Option<i32>
    ensures found { IfSome result (λ n. (run.now ≡ signed_decimal n) × (leaf.in_range 31 n ≡ true)) }
    ensures none { IfNone result ((z : ℤ) → leaf.in_range 31 z ≡ true → run.now ≢ signed_decimal z) }
{
    let n = long_of(run)?;
    narrow(n)
}
