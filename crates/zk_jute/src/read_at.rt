//! `read_ref` and `scan` judge a value at a place of a payload; `known_at` and `at` return one that is known to be there.
ghost use Rattle.std.specs.Prelude.{◌≡◌, ◌≤◌, ℕ, length, IfOk, IfErr};
ghost use Rattle.zk_jute.specs.{Held.Text, Held.Blob, Held.Vector, Item.HaveBytes, Layout.IsValueOf, Told.StandsAt, Told.HasSureFault, Standing.OneStands, Values.text_items, Values.blob_items, Values.list_items};

use crate::fault::ItemFault;
use crate::series::TextList;
use crate::value::{BlobRef, TextRef};
use crate::view::View;

/// The value at `place` of `src`, and the place after it; nothing is allocated.
///
/// # Errors
///
/// The first fault from the left, its place counted from the beginning of `src`.
#[inline(always)]
pub fn read_ref<'a, T: View<'a>>(src: &'a [u8], place: usize) -> Result<(T, usize), ItemFault>
    requires { place ≤ length src.now }
    ensures found { IfOk result (λ x. IsValueOf T.wired.layout (T.wired.items x.0) × StandsAt (T.wired.items x.0) src.now place x.1) }
    ensures fault { IfErr result (HasSureFault (IsValueOf T.wired.layout) src.now place) }
    ensures within { IfOk result (λ x. x.1 ≤ length src.now) }
{
    T::end::<ItemFault>(src, place)?;
    Ok(T::view(src, place))
}

/// The place after the value at `place` of `src`; else the first fault from the left, its place counted from the
/// beginning of `src`. Decides as `Wire::read` does, and allocates nothing: `T` is a borrowed type.
pub fn scan<'a, T: View<'a>>(src: &'a [u8], place: usize) -> Result<usize, ItemFault>
    requires { place ≤ length src.now }
    ensures found { IfOk result (λ end. (x : T) × HaveBytes (T.wired.items x) × StandsAt (T.wired.items x) src.now place end) }
    ensures fault { IfErr result (HasSureFault (IsValueOf T.wired.layout) src.now place) }
    ensures within { IfOk result (λ end. end ≤ length src.now) }
{
    let (_, end) = read_ref::<T>(src, place)?;
    Ok(end)
}

/// The value that is known to be at `place` of `src`, and the place after it. It isn't judged again.
#[inline(always)]
pub fn known_at<'a, T: View<'a>>(src: &'a [u8], place: usize) -> (T, usize)
    requires place { place ≤ length src.now }
    requires stands { OneStands T.wired.items src.now place }
    ensures { (v : T) (end : ℕ) → HaveBytes (T.wired.items v) → StandsAt (T.wired.items v) src.now place end → result ≡ (v, end) }
{
    T::view(src, place)
}

impl<'a> TextRef<'a> {
    /// The text that is known to be at `place` of `src`, and the place after it.
    pub fn at(src: &'a [u8], place: usize) -> (Self, usize)
        requires place { place ≤ length src.now }
        requires stands { OneStands text_items src.now place }
        ensures { (v : Text) (end : ℕ) → HaveBytes (text_items v) → StandsAt (text_items v) src.now place end → result ≡ (v, end) }
    {
        known_at(src, place)
    }
}

impl<'a> BlobRef<'a> {
    /// The blob that is known to be at `place` of `src`, and the place after it.
    pub fn at(src: &'a [u8], place: usize) -> (Self, usize)
        requires place { place ≤ length src.now }
        requires stands { OneStands blob_items src.now place }
        ensures { (v : Blob) (end : ℕ) → HaveBytes (blob_items v) → StandsAt (blob_items v) src.now place end → result ≡ (v, end) }
    {
        known_at(src, place)
    }
}

impl<'a> TextList<'a> {
    /// The list that is known to be at `place` of `src`, and the place after it.
    pub fn at(src: &'a [u8], place: usize) -> (Self, usize)
        requires place { place ≤ length src.now }
        requires stands { OneStands (list_items text_items) src.now place }
        ensures { (v : Vector Text) (end : ℕ) → HaveBytes (list_items text_items v) → StandsAt (list_items text_items v) src.now place end → result ≡ (v, end) }
    {
        known_at(src, place)
    }
}
