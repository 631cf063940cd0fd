//! `Sequence`: values of a payload that follow one another, and the iterator over them.
ghost use Rattle.std.specs.Prelude.{◌≡◌, ◌≤◌, ◌∷◌, ℕ, List, [], length, Ok, Some, IfSome, MatchOption};
ghost use Rattle.std.specs.{Iterator.YieldsFirst, Iterator.UpTo, Iterator.item_count, Iterator.SizeHint.IsWithinCount};
ghost use Rattle.zk_jute.specs.{Item.Item, Item.HaveBytes, Reading.Read, Shown.AreThere, Shown.values_at, Standing.OneStands, Told.StandsAt};

use std::marker::{Model, PhantomData};

/// A value of a sequence. The layout may differ from value to value.
pub trait Member: Drop {
    /// What is known of a value that was passed over.
    type Mark: Drop;

    /// The items of each value.
    ghost items: { Self → List Item };

    /// The value at a place of a payload.
    ghost value: { List ℕ → ℕ → Read Self };

    /// The mark of each value.
    ghost mark: { Self → Self.Mark };

    /// The mark of the value that is known to be at `place` of `payload`, and the place after it.
    fn pass(payload: &[u8], place: usize) -> (Self::Mark, usize)
        requires place { place ≤ length payload.now }
        requires known { OneStands items payload.now place }
        ensures value { (x : Self) × (value payload.now place ≡ Ok (x, result.1)) × (mark x ≡ result.0) }
        ensures only { (x : Self) (end : ℕ) → HaveBytes (items x) → StandsAt (items x) payload.now place end → result.1 ≡ end };
}

/// A member that is borrowed from a payload.
pub trait KnownIn<'a>: Member {
    /// The value that is known to be at `place` of `payload`, and the place after it: `known_at` for any layout.
    fn known_in(payload: &'a [u8], place: usize) -> (Self, usize)
        requires place { place ≤ length payload.now }
        requires known { OneStands Self.items payload.now place }
        ensures value { Self.value payload.now place ≡ Ok result }
        ensures only { (x : Self) (end : ℕ) → HaveBytes (Self.items x) → StandsAt (Self.items x) payload.now place end → result ≡ (x, end) };
}

/// Values of a payload, one after the other. A vector's count is no part of it.
#[derive(Drop)]
pub struct Sequence<'a, M: Member> {
    payload: &'a [u8],
    count: usize,
    place: usize,
    of: PhantomData<M>,
}

impl<'a, M: Member> Model for Sequence<'a, M> {
    ghost use Rattle.std.specs.Prelude.{List};
    ghost use Rattle.zk_jute.specs.Shown.{AreThere, values_at};

    ghost Value = { List M };

    ghost view = { λ l. values_at (M.value l.payload.now) l.count l.place };

    ghost invariant = { λ l. AreThere M.items (M.value l.payload.now) l.payload.now l.count l.place };
}

impl<'a, M: Member> Sequence<'a, M> {
    /// The `count` values that are known to be in `payload` from `place` on.
    #[inline(always)]
    pub fn known(payload: &'a [u8], count: usize, place: usize) -> Self
        requires { AreThere M.items (M.value payload.now) payload.now count place }
        ensures { result ≡ values_at (M.value payload.now) count place }
    {
        Sequence {
            payload,
            count,
            place,
            of: PhantomData,
        }
    }

    /// No values.
    pub(crate) fn none() -> Self
        ensures { result ≡ [] }
    {
        Sequence {
            payload: &[],
            count: 0,
            place: 0,
            of: PhantomData,
        }
    }

    /// The number of values.
    pub fn count(&self) -> usize
        ensures { result ≡ length self.now }
    {
        self.count
    }

    /// The values, in order.
    #[inline(always)]
    pub fn items(&self) -> Members<'a, M>
        ensures { result ≡ self.now }
    {
        Members {
            payload: self.payload,
            left: self.count,
            place: self.place,
            of: PhantomData,
        }
    }
}

/// The iterator over a sequence: the values that are left.
#[derive(Drop)]
pub struct Members<'a, M: Member> {
    payload: &'a [u8],
    left: usize,
    place: usize,
    of: PhantomData<M>,
}

impl<'a, M: Member> Model for Members<'a, M> {
    ghost use Rattle.std.specs.Prelude.{List};
    ghost use Rattle.zk_jute.specs.Shown.{AreThere, values_at};

    ghost Value = { List M };

    ghost view = { λ l. values_at (M.value l.payload.now) l.left l.place };

    ghost invariant = { λ l. AreThere M.items (M.value l.payload.now) l.payload.now l.left l.place };
}

impl<'a, M: Member> Members<'a, M> {
    /// Passes over the next value and returns its mark; `None` if no value is left.
    #[inline(always)]
    pub fn pass(&mut self) -> Option<M::Mark>
        ensures { MatchOption result ((self.old ≡ []) × (self.new ≡ [])) (λ m. (x : M) × (M.mark x ≡ m) × (self.old ≡ x ∷ self.new)) }
    {
        if self.left == 0 {
            return None;
        }
        let (mark, place) = M::pass(self.payload, self.place);
        self.place = place;
        self.left -= 1;
        Some(mark)
    }
}

impl<'a, M: KnownIn<'a>> Iterator for Members<'a, M> {
    type Item = M;

    ghost next_gives = { YieldsFirst (λ s. s) };

    ghost remaining = { item_count (λ s. s) };

    fn next(&mut self) -> Option<M> {
        if self.left == 0 {
            return None;
        }
        // All values that are left are known to be there.
        let (value, place) = M::known_in(self.payload, self.place);
        self.place = place;
        self.left -= 1;
        Some(value)
    }

    fn size_hint(&self) -> (usize, Option<usize>)
        ensures lower { IsWithinCount result.0 (item_count (λ s. s) self.now) }
        ensures upper { IfSome result.1 (UpTo (item_count (λ s. s) self.now)) }
        ensures exact { (result.0 ≡ length self.now) × (result.1 ≡ Some (length self.now)) }
    {
        let left = self.len();
        (left, Some(left))
    }
}

impl<'a, M: KnownIn<'a>> ExactSizeIterator for Members<'a, M> {
    fn len(&self) -> usize {
        let Members { left, .. } = self;
        *left
    }
}
