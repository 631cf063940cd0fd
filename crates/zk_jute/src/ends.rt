//! `Ends`: where a value ends in a payload, found without making the value.
ghost use Rattle.std.specs.Prelude.{◌≡◌, ℕ, ◌≤◌, ◌<◌, ◌%◌, ◌+◌, length, option_copied, IsTrue, IfOk, IfErr, IfSome};
ghost use Rattle.zk_jute.specs.{Layout.IsValueOf, Reading.items_at, Reading.times_at, Told.HasSureFault, Verdict.Says, Verdict.Judges, Verdict.IsValueAt, Shown.Stretch, Values.text_items};
ghost use Rattle.zk_jute.specs.Wired.{Wired, int, long, boolean, ustring, buffer, vector, ◌and◌};
ghost use Rattle.zk_jute.specs.Ends.{IsUtf8Between, TextsIfUtf8, IsRunOfLowSize};

use crate::length_prefixed::{run_at, size_at, text_at};
use crate::number::{bool_at, int_at, long_at};
use crate::series::{Element, Series};
use crate::utf8::is_long_text;
use crate::value::{Blob, BlobRef, List, Text, TextRef};
use crate::verdict::Verdict;

/// How many bytes of a list's texts get one look: about as many, in whole texts.
const LOOK: usize = 1024;

/// A type whose values are items, be their texts, blobs and lists owned or borrowed. Their ends are found without making them.
pub trait Ends: Sized + Drop {
    /// Its layout, the items of each value, and their laws.
    ghost wired: { Wired Self };

    /// The step of `end` that each impl writes: the fields, one after the other.
    fn find<V: Verdict>(payload: &[u8], place: usize) -> Result<usize, V>
        requires { place ≤ length payload.now }
        ensures exact { Judges V.tells result (items_at Self.wired.layout payload.now place) }
        ensures within { IfOk result (λ end. end ≤ length payload.now) };

    /// The same of `count` values, the first of them at `place`.
    fn find_all<V: Verdict>(payload: &[u8], count: usize, place: usize) -> Result<usize, V>
        requires { place ≤ length payload.now }
        ensures exact { Judges V.tells result (times_at (items_at Self.wired.layout payload.now) count place) }
        ensures within { IfOk result (λ end. end ≤ length payload.now) }
    {
        let mut at = place;
        for _ in 0..count {
            let end = Self::find::<V>(payload, at)?;
            at = end;
        }
        Ok(at)
    }

    /// The place after the value at `place` of `payload`.
    ///
    /// # Errors
    ///
    /// The first fault from the left, its place counted from the beginning of the payload. `Undecided` says nothing.
    #[inline]
    final fn end<V: Verdict>(payload: &[u8], place: usize) -> Result<usize, V>
        requires { place ≤ length payload.now }
        // A value is there.
        ensures found { IfOk result (λ end. IsValueAt (IsValueOf Self.wired.layout) payload.now place end) }
        // No value is there where a fault is reported, and the bytes fix which one it is.
        ensures fault { IfErr result (Says V.tells (HasSureFault (IsValueOf Self.wired.layout) payload.now place)) }
        ensures within { IfOk result (λ end. end ≤ length payload.now) }
    {
        Self::find(payload, place)
    }
}

impl Ends for i32 {
    ghost wired = { int };

    #[inline(always)]
    fn find<V: Verdict>(payload: &[u8], place: usize) -> Result<usize, V> {
        V::behind(int_at(payload, place))
    }
}

impl Ends for i64 {
    ghost wired = { long };

    #[inline(always)]
    fn find<V: Verdict>(payload: &[u8], place: usize) -> Result<usize, V> {
        V::behind(long_at(payload, place))
    }
}

impl Ends for bool {
    ghost wired = { boolean };

    #[inline(always)]
    fn find<V: Verdict>(payload: &[u8], place: usize) -> Result<usize, V> {
        V::behind(bool_at(payload, place))
    }
}

impl Ends for Text {
    ghost wired = { ustring };

    #[inline(always)]
    fn find<V: Verdict>(payload: &[u8], place: usize) -> Result<usize, V> {
        V::behind(text_at(payload, place))
    }
}

impl<'a> Ends for BlobRef<'a> {
    ghost wired = { buffer };

    fn find<V: Verdict>(payload: &[u8], place: usize) -> Result<usize, V>
        requires { place ≤ length payload.now }
        ensures exact { Judges V.tells result (items_at buffer.layout payload.now place) }
        ensures within { IfOk result (λ end. end ≤ length payload.now) }
    {
        V::behind(run_at(payload, place))
    }
}

impl Ends for Blob {
    ghost wired = { buffer };

    fn find<V: Verdict>(payload: &[u8], place: usize) -> Result<usize, V> {
        BlobRef::find(payload, place)
    }
}

impl<A: Ends, B: Ends> Ends for (A, B) {
    ghost wired = { A.wired and B.wired };

    fn find<V: Verdict>(payload: &[u8], place: usize) -> Result<usize, V> {
        let middle = A::find::<V>(payload, place)?;
        B::find::<V>(payload, middle)
    }
}

/// Whether the four bytes of a length are ASCII.
fn is_low_size(size: usize) -> bool
    ensures { IsTrue result → (size < 32768) × (size % 256 < 128) }
{
    size < 32768 && size % 256 < 128
}

/// The place after the run at `place` if its length is four bytes of ASCII; `None`: it isn't, as null's, or not whole.
fn low_end(payload: &[u8], place: usize) -> Option<usize>
    requires { place ≤ length payload.now }
    ensures some { IfSome result (IsRunOfLowSize payload.now place) }
    ensures within { IfSome result (λ end. end ≤ length payload.now) }
{
    let Ok((number, after)) = int_at(payload, place) else {
        return None;
    };
    let size = number.cast_unsigned() as usize;
    let end = after + size;
    if is_low_size(size) && end <= payload.len() {
        Some(end)
    } else {
        None
    }
}

/// How many texts, of at most `count`, are null from `place` on, and the place after them.
fn nulls_end(payload: &[u8], count: usize, place: usize) -> (usize, usize)
    requires { place ≤ length payload.now }
    ensures texts { Stretch text_items payload.now place result.1 result.0 }
    ensures count { result.0 ≤ count }
    ensures within { result.1 ≤ length payload.now }
{
    let mut at = place;
    for passed in 0..count {
        match size_at(payload, at) {
            Ok((None, end)) => at = end,
            _ => return (passed, at),
        }
    }
    (count, at)
}

/// Whether the bytes from `place` to `end` are UTF-8; false: undecided.
fn are_text(payload: &[u8], place: usize, end: usize) -> bool
    requires { (place ≤ end) × (end ≤ length payload.now) }
    ensures { IsTrue result → IsUtf8Between payload.now place end }
{
    if place == end {
        return true;
    }
    is_long_text(&payload[place..end])
}

/// Passes over the text at `place`, where the bytes from `from` on aren't judged yet: the place from which on they aren't
/// then, and the place after the text; `None`: undecided. A length of four bytes of ASCII is judged with the texts, since no
/// character reaches over it; before any other length, what isn't judged yet is judged.
fn next_text(payload: &[u8], from: usize, place: usize) -> Option<(usize, usize)>
    requires { (from ≤ place) × (place ≤ length payload.now) }
    ensures one { IfSome result (λ x. (first count : ℕ) → TextsIfUtf8 payload.now from first place count → TextsIfUtf8 payload.now x.0 first x.1 (count + 1)) }
    ensures within { IfSome result (λ x. (x.0 ≤ x.1) × (x.1 ≤ length payload.now)) }
{
    if let Some(end) = low_end(payload, place) {
        return Some((from, end));
    }
    let Ok((_, end)) = run_at(payload, place) else {
        return None;
    };
    if are_text(payload, from, place) {
        Some((place + 4, end))
    } else {
        None
    }
}

/// The place after `count` texts, the first of them at `place`; `None`: undecided. One look at the bytes of many stands
/// for a look at each.
fn texts_end(payload: &[u8], count: usize, place: usize) -> Option<usize>
    requires { place ≤ length payload.now }
    ensures some { IfSome result (λ end. Stretch text_items payload.now place end count) }
    ensures within { IfSome result (λ end. end ≤ length payload.now) }
{
    let mut from = place;
    let mut at = place;
    for _ in 0..count {
        let (due, end) = next_text(payload, from, at)?;
        from = due;
        at = end;
    }
    if are_text(payload, from, at) {
        Some(at)
    } else {
        None
    }
}

/// How many texts get one look, if all are as long as the one at `place`. Any number is right: it costs only time.
fn texts_of_a_look(payload: &[u8], place: usize) -> usize
    requires { place ≤ length payload.now }
    ensures { 0 < result }
{
    match size_at(payload, place) {
        Ok((Some(size), _)) if is_low_size(size) => (LOOK / (size + 4)).max(1),
        // Any other text gets a look of its own.
        _ => LOOK,
    }
}

/// How many texts, of at most `count`, were judged from `place` on, and the place after them; `None`: undecided.
fn some_texts_end(payload: &[u8], count: usize, place: usize) -> Option<(usize, usize)>
    requires place { place ≤ length payload.now }
    requires some { 0 < count }
    ensures texts { IfSome result (λ x. Stretch text_items payload.now place x.1 x.0) }
    ensures count { IfSome result (λ x. (0 < x.0) × (x.0 ≤ count)) }
    ensures within { IfSome result (λ x. x.1 ≤ length payload.now) }
{
    let (nulls, end) = nulls_end(payload, count, place);
    if nulls > 0 {
        return Some((nulls, end));
    }
    let some = count.min(texts_of_a_look(payload, place));
    let end = texts_end(payload, some, place)?;
    Some((some, end))
}

/// The place after `count` texts, the first of them at `place`; `None`: undecided.
fn all_texts_end(payload: &[u8], count: usize, place: usize) -> Option<usize>
    requires { place ≤ length payload.now }
    ensures some { IfSome result (λ end. Stretch text_items payload.now place end count) }
    ensures within { IfSome result (λ end. end ≤ length payload.now) }
{
    let mut at = place;
    let mut left = count;
    while left > 0 {
        let (some, end) = some_texts_end(payload, left, at)?;
        at = end;
        left -= some;
    }
    Some(at)
}

impl<'a> Ends for TextRef<'a> {
    ghost wired = { ustring };

    fn find<V: Verdict>(payload: &[u8], place: usize) -> Result<usize, V>
        requires { place ≤ length payload.now }
        ensures exact { Judges V.tells result (items_at ustring.layout payload.now place) }
        ensures within { IfOk result (λ end. end ≤ length payload.now) }
    {
        Text::find(payload, place)
    }

    fn find_all<V: Verdict>(payload: &[u8], count: usize, place: usize) -> Result<usize, V>
        requires { place ≤ length payload.now }
        ensures exact { Judges V.tells result (times_at (items_at ustring.layout payload.now) count place) }
        ensures within { IfOk result (λ end. end ≤ length payload.now) }
    {
        if count == 1 {
            return Self::find(payload, place);
        }
        // One look may stand for many texts; each is looked at alone where a fault is sought.
        if let Some(end) = all_texts_end(payload, count, place) {
            return Ok(end);
        }
        match V::silent() {
            Some(verdict) => Err(verdict),
            None => Text::find_all(payload, count, place),
        }
    }
}

/// The place after the list at `place`, whose elements are each a `T`.
fn list_end<T: Ends, V: Verdict>(payload: &[u8], place: usize) -> Result<usize, V>
    requires { place ≤ length payload.now }
    ensures exact { Judges V.tells result (items_at (vector T.wired).layout payload.now place) }
    ensures within { IfOk result (λ end. end ≤ length payload.now) }
{
    let (count, start) = V::on(size_at(payload, place))?;
    match count {
        None => Ok(start),
        Some(count) => T::find_all::<V>(payload, count, start),
    }
}

impl<'a, R: Element> Ends for Series<'a, R> {
    ghost wired = { vector R.wired };

    fn find<V: Verdict>(payload: &[u8], place: usize) -> Result<usize, V>
        requires { place ≤ length payload.now }
        ensures exact { Judges V.tells result (items_at (vector R.wired).layout payload.now place) }
        ensures within { IfOk result (λ end. end ≤ length payload.now) }
    {
        list_end::<R, V>(payload, place)
    }
}

impl<T: Ends> Ends for List<T> {
    ghost wired = { vector T.wired };

    fn find<V: Verdict>(payload: &[u8], place: usize) -> Result<usize, V> {
        list_end::<T, V>(payload, place)
    }
}
