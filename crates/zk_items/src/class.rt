//! Classes of bytes, and the runs of a class in front, found many bytes at a time.
ghost use Rattle.std.specs.Prelude.{◌≡◌, ◌==◌, ◌<◌, ◌≤◌, ℕ, Bool, if◌then◌else◌, length};
ghost use Rattle.std.specs.{Int.Count.count_trailing_zeros, List.prefix_len};
ghost use Rattle.zk_items.specs.{Leaf.in_hex, Leaf.is_plain, Odd.is_odd};

use std::simd::prelude::*;

/// A class of bytes.
pub trait Class<const N: usize> {
    ghost has: { ℕ → Bool };

    /// The number of lanes before the first that isn't of the class.
    fn run_in(v: Simd<u8, N>) -> usize
        requires { N ≤ 64 }
        ensures { result ≡ prefix_len has v.entry };
}

/// The place of the lowest bit that is set; `lanes` if none is.
#[inline(always)]
pub fn first_set(mask: u64, lanes: usize) -> usize
    ensures { result ≡ (if mask == 0 then lanes else count_trailing_zeros 64 mask) }
{
    if mask == 0 {
        lanes
    } else {
        mask.trailing_zeros() as usize
    }
}

/// The bytes that a text needs no escape for: 20 to 7e, but for `"` and `\`.
pub struct Plain;

impl<const N: usize> Class<N> for Plain {
    ghost has = { is_plain };

    fn run_in(v: Simd<u8, N>) -> usize
        requires { N ≤ 64 }
        ensures { result ≡ prefix_len is_plain v.entry }
    {
        let odd = v.simd_lt(Simd::splat(b' '))
            | v.simd_eq(Simd::splat(b'"'))
            | v.simd_eq(Simd::splat(b'\\'))
            | v.simd_ge(Simd::splat(0x7f));
        first_set(odd.to_bitmask(), N)
    }
}

/// The bytes that a text needs an escape for.
pub struct Odd;

impl<const N: usize> Class<N> for Odd {
    ghost has = { is_odd };

    fn run_in(v: Simd<u8, N>) -> usize
        requires { N ≤ 64 }
        ensures { result ≡ prefix_len is_odd v.entry }
    {
        let plain = v.simd_ge(Simd::splat(b' '))
            & v.simd_ne(Simd::splat(b'"'))
            & v.simd_ne(Simd::splat(b'\\'))
            & v.simd_lt(Simd::splat(0x7f));
        first_set(plain.to_bitmask(), N)
    }
}

/// The lower-case hexadecimal digits.
pub struct Digit;

impl<const N: usize> Class<N> for Digit {
    ghost has = { in_hex };

    fn run_in(v: Simd<u8, N>) -> usize
        requires { N ≤ 64 }
        ensures { result ≡ prefix_len in_hex v.entry }
    {
        let odd = v.simd_lt(Simd::splat(b'0'))
            | v.simd_ge(Simd::splat(b':')) & v.simd_lt(Simd::splat(b'a'))
            | v.simd_ge(Simd::splat(b'g'));
        first_set(odd.to_bitmask(), N)
    }
}

/// The length of the run of a class in front, found N bytes at a time. The last block overlaps the one before it.
pub fn run_by<const N: usize, C: Class<N>>(bytes: &[u8]) -> usize
    requires some { (0 < N) × (N ≤ 64) }
    requires room { N ≤ length bytes.now }
    ensures value { result ≡ prefix_len C.has bytes.now }
    ensures within { result ≤ length bytes.now }
{
    let last = bytes.len() - N;
    let mut at = 0;
    while at < last {
        let run = C::run_in(Simd::<u8, N>::from_slice(&bytes[at..]));
        if run < N {
            return at + run;
        }
        at += N;
    }
    last + C::run_in(Simd::<u8, N>::from_slice(&bytes[last..]))
}
