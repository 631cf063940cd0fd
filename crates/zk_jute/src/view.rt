//! `View`: a value that is borrowed from a payload, where it is known to be there.
ghost use Rattle.std.specs.Prelude.{◌≡◌, ◌≤◌, length, Ok, IsOk};
ghost use Rattle.zk_jute.specs.Reading.{items_at};

use crate::ends::Ends;
use crate::length_prefixed::{known_run, known_text};
use crate::number::{bool_of, int_of, long_of};
use crate::value::{BlobRef, BytesRef, CharsRef, TextRef};

/// A value that is borrowed from a payload. What is known to be there is not judged again.
pub trait View<'a>: Ends {
    /// The value at `place` of `src`, and the place after it: the fields, one after the other.
    fn view(src: &'a [u8], place: usize) -> (Self, usize)
        requires place { place ≤ length src.now }
        requires known { IsOk (items_at Self.wired.layout src.now place) }
        ensures exact { items_at Self.wired.layout src.now place ≡ Ok (Self.wired.items result.0, result.1) }
        ensures within { result.1 ≤ length src.now };
}

impl<'a> View<'a> for i32 {
    #[inline(always)]
    fn view(src: &'a [u8], place: usize) -> (Self, usize) {
        (int_of(src, place), place + 4)
    }
}

impl<'a> View<'a> for i64 {
    #[inline(always)]
    fn view(src: &'a [u8], place: usize) -> (Self, usize) {
        (long_of(src, place), place + 8)
    }
}

impl<'a> View<'a> for bool {
    #[inline(always)]
    fn view(src: &'a [u8], place: usize) -> (Self, usize) {
        (bool_of(src, place), place + 1)
    }
}

impl<'a, A: View<'a>, B: View<'a>> View<'a> for (A, B) {
    #[tactic(auto, using(crate::proofs::Chains::reads))]
    #[inline(always)]
    fn view(src: &'a [u8], place: usize) -> (Self, usize) {
        let (first, place) = A::view(src, place);
        let (second, place) = B::view(src, place);
        ((first, second), place)
    }
}

impl<'a> View<'a> for TextRef<'a> {
    #[tactic(auto, using(crate::proofs::Fields::text_is))]
    #[inline(always)]
    fn view(src: &'a [u8], place: usize) -> (Self, usize) {
        let (text, after) = known_text(src, place);
        match text {
            None => (TextRef::Null, after),
            Some(text) => (TextRef::Full(CharsRef::new(text)), after),
        }
    }
}

impl<'a> View<'a> for BlobRef<'a> {
    #[tactic(auto, using(crate::proofs::Fields::run_is))]
    #[inline(always)]
    fn view(src: &'a [u8], place: usize) -> (Self, usize) {
        let (bytes, after) = known_run(src, place);
        match bytes {
            None => (BlobRef::Null, after),
            Some(bytes) => (BlobRef::Full(BytesRef::new(bytes)), after),
        }
    }
}
