//! Numbers found by their digits alone, in one pass.
ghost use Rattle.std.specs.Prelude.{◌≡◌, ◌≤◌, ◌<◌, length, take, drop, slice_index, IfSome, Some, false, ◌^◌, pos, neg_ℤ};
ghost use Rattle.std.specs.{List.prefix_len, Fmt.decimal, Str.Parse.AllDigits, Str.Parse.digits_value};
ghost use Rattle.zk_items.specs.Leaf.{in_number, num_at};

use crate::number::{is_in_number, narrow};

/// The number that the digits in front of `bytes` spell, of nineteen at most, and how many these are.
fn digits_ahead(bytes: &[u8]) -> (u64, usize)
    ensures digits { AllDigits 10 (take result.1 bytes.now) }
    ensures value { result.0 ≡ digits_value 10 (take result.1 bytes.now) }
    ensures within { (result.1 ≤ length bytes.now) × (result.1 ≤ 19) }
{
    let most = bytes.len().min(19);
    let mut value = 0;
    let mut count = 0;
    while count < most {
        if !bytes[count].is_ascii_digit() {
            return (value, count);
        }
        value = value * 10 + u64::from(bytes[count] - b'0');
        count += 1;
    }
    (value, count)
}

/// Whether a digit or a sign is at `at`.
fn is_in_number_at(bytes: &[u8], at: usize) -> bool
    ensures { result ≡ false → at < length bytes.now → in_number (slice_index bytes.now at) ≡ false }
{
    at < bytes.len() && is_in_number(bytes[at])
}

/// Whether `count` digits begin with a zero that their number doesn't need.
fn is_padded(digits: &[u8], count: usize) -> bool
    requires { (0 < count) × (count ≤ length digits.now) }
    ensures { result ≡ false → slice_index digits.now 0 ≡ 48 → count ≤ 1 }
{
    digits[0] == b'0' && count > 1
}

/// The number that begins `bytes`, without a sign, and the length of its spelling; `None` where nineteen digits at most,
/// none of them a leading zero, don't decide.
#[tactic(auto, using(crate::proofs::Numerals::spelled, crate::proofs::Numerals::run_of_digits))]
fn unsigned_ahead(bytes: &[u8]) -> Option<(u64, usize)>
    ensures { IfSome result (λ q. (take q.1 bytes.now ≡ decimal q.0) × (prefix_len in_number bytes.now ≡ q.1) × (q.1 ≤ length bytes.now)) }
{
    let (value, count) = digits_ahead(bytes);
    if count == 0 || is_in_number_at(bytes, count) {
        return None;
    }
    if is_padded(bytes, count) {
        return None;
    }
    Some((value, count))
}

/// The long `value`; `None` if none is.
fn above_zero(value: u64) -> Option<i64>
    ensures { IfSome result (λ n. (n ≡ pos value) × (value < 2 ^ 63)) }
{
    i64::try_from(value).ok()
}

/// The long `-value`; `None` for 0, and where none is.
fn below_zero(value: u64) -> Option<i64>
    ensures { IfSome result (λ n. (n ≡ neg_ℤ (pos value)) × (0 < value) × (value ≤ 2 ^ 63)) }
{
    match 0_i64.checked_sub_unsigned(value) {
        Some(n) if n < 0 => Some(n),
        _ => None,
    }
}

/// The long that begins `bytes`, and the length of its spelling; `None` where its digits alone don't decide.
// Stands for `long_of` of the run in front.
#[tactic(auto, using(crate::proofs::Numerals::read_plain, crate::proofs::Numerals::read_minus))]
pub fn long_ahead(bytes: &[u8]) -> Option<(i64, usize)>
    ensures read { IfSome result (λ q. num_at 63 bytes.now ≡ Some (q.0, drop q.1 bytes.now)) }
    ensures within { IfSome result (λ q. q.1 ≤ length bytes.now) }
{
    if let Some((b'-', rest)) = bytes.split_first() {
        let (value, len) = unsigned_ahead(rest)?;
        let n = below_zero(value)?;
        return Some((n, len + 1));
    }
    let (value, len) = unsigned_ahead(bytes)?;
    let n = above_zero(value)?;
    Some((n, len))
}

/// The int that begins `bytes`, and the length of its spelling; `None` where its digits alone don't decide.
// Stands for `int_of` of the run in front.
#[tactic(auto, using(crate::proofs::Numerals::read_narrow))]
pub fn int_ahead(bytes: &[u8]) -> Option<(i32, usize)>
    ensures read { IfSome result (λ q. num_at 31 bytes.now ≡ Some (q.0, drop q.1 bytes.now)) }
    ensures within { IfSome result (λ q. q.1 ≤ length bytes.now) }
{
    let (n, len) = long_ahead(bytes)?;
    let n = narrow(n)?;
    Some((n, len))
}
