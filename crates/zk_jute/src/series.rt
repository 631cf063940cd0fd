//! `Series`: a list that is borrowed from a payload.
ghost use Rattle.std.specs.Prelude.{◌≡◌, ◌≤◌, ◌↔◌, ℕ, List, length, refl, Ok, IsTrue, IsOk};
ghost use Rattle.zk_jute.specs.{Held.Text, Held.Vector, Item.HaveBytes, Told.StandsAt, Reading.end_of, Reading.items_at, Reading.read_map, Reading.times_at, Standing.OneStands, Values.text_items, Values.list_items};
ghost use Rattle.zk_jute.specs.Shown.{ListIsThere, IsNull, count_of, elements_of, list_at, text_value, text_is_value};

use crate::ends::Ends;
use crate::length_prefixed::known_size;
use crate::read_at::known_at;
use crate::sequence::{KnownIn, Member, Members, Sequence};
use crate::value::{Nullable, TextRef};
use crate::view::View;

/// An element of a borrowed list: a member that has one layout, that of its `Ends`.
pub trait Element: Ends + Member {
    ghost is_value: { (src : List ℕ) (place : ℕ) → items_at Self.wired.layout src place ≡ read_map Self.wired.items (Self.value src place) };

    ghost is_wired: { Self.items ≡ Self.wired.items };
}

impl<'a> Member for TextRef<'a> {
    type Mark = ();

    ghost items = { text_items };

    ghost value = { text_value };

    ghost mark = { λ _. tt };

    fn pass(payload: &[u8], place: usize) -> ((), usize)
        requires place { place ≤ length payload.now }
        requires known { OneStands text_items payload.now place }
        ensures value { (x : Text) × (text_value payload.now place ≡ Ok (x, result.1)) × (tt ≡ result.0) }
        ensures only { (x : Text) (end : ℕ) → HaveBytes (text_items x) → StandsAt (text_items x) payload.now place end → result.1 ≡ end }
    {
        let (_, end) = known_at::<TextRef<'_>>(payload, place);
        ((), end)
    }
}

impl<'a> KnownIn<'a> for TextRef<'a> {
    #[inline(always)]
    fn known_in(payload: &'a [u8], place: usize) -> (Self, usize) {
        known_at(payload, place)
    }
}

impl<'a> Element for TextRef<'a> {
    ghost is_value = { text_is_value };

    ghost is_wired = { refl };
}

/// A borrowed `vector`: null, or elements.
pub type Series<'a, R> = Nullable<Sequence<'a, R>>;

/// A borrowed list of texts.
pub type TextList<'a> = Series<'a, TextRef<'a>>;

impl<'a, R: Member> Series<'a, R> {
    /// Whether the list is null; an empty list isn't.
    pub fn is_null(&self) -> bool
        ensures { IsTrue result ↔ IsNull self.now }
    {
        matches!(self, Series::Null)
    }

    /// The number of elements; 0 for null.
    pub fn count(&self) -> usize
        ensures { result ≡ count_of self.now }
    {
        match self {
            Series::Null => 0,
            Series::Full(elements) => elements.count(),
        }
    }

    /// The elements, in order; none for null.
    #[inline(always)]
    pub fn items(&self) -> Members<'a, R>
        ensures { result ≡ elements_of self.now }
    {
        match self {
            Series::Null => Sequence::none().items(),
            Series::Full(elements) => elements.items(),
        }
    }
}

/// The list of `count` elements that are known to be in `payload` from `place` on; null for `None`.
#[inline(always)]
fn lying<'a, R: Element>(payload: &'a [u8], count: Option<usize>, place: usize) -> Series<'a, R>
    requires { ListIsThere R.items (R.value payload.now) payload.now count place }
    ensures { result ≡ list_at (R.value payload.now) count place }
{
    match count {
        None => Series::Null,
        Some(count) => Series::Full(Sequence::known(payload, count, place)),
    }
}

/// The list that is known to be at `place` of `payload`. It isn't walked to its end.
pub fn known_list<'a, R: Element>(payload: &'a [u8], place: usize) -> Series<'a, R>
    requires place { place ≤ length payload.now }
    requires stands { OneStands (list_items R.wired.items) payload.now place }
    ensures { (v : Vector R) (end : ℕ) → HaveBytes (list_items R.wired.items v) → StandsAt (list_items R.wired.items v) payload.now place end → result ≡ v }
{
    let (count, start) = known_size(payload, place);
    lying(payload, count, start)
}

/// The place after the `count` elements that are known to be in `src` from `place` on.
fn elements_end<'a, R: View<'a>>(src: &'a [u8], count: usize, place: usize) -> usize
    requires place { place ≤ length src.now }
    requires known { IsOk (times_at (items_at R.wired.layout src.now) count place) }
    ensures exact { end_of (times_at (items_at R.wired.layout src.now) count place) ≡ Ok result }
    ensures within { result ≤ length src.now }
{
    let mut after = place;
    for _ in 0..count {
        let (_, next) = R::view(src, after);
        after = next;
    }
    after
}

impl<'a, R: Element + View<'a>> View<'a> for Series<'a, R> {
    #[tactic(auto, using(crate::proofs::Fields::list_none))]
    #[inline(always)]
    fn view(src: &'a [u8], place: usize) -> (Self, usize) {
        let (count, start) = known_size(src, place);
        match count {
            None => (lying(src, None, start), start),
            Some(count) => {
                let end = elements_end::<R>(src, count, start);
                (lying(src, Some(count), start), end)
            }
        }
    }
}
