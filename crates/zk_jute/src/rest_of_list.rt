//! `Left`: a list by what is left of it, owned or borrowed.
ghost use Rattle.std.specs.Prelude.{◌≡◌, List};
ghost use Rattle.std.specs.{Iterator.YieldsFirst, Slice.Iter.iter_rest};

use crate::sequence::{KnownIn, Members};
use std::marker::Model;
use std::slice::Iter;

/// What is left of a list. No definition says what is left of an `Iterator`.
pub trait Left: Drop {
    /// An element.
    type One: Drop;

    /// The elements that are left, in order.
    ghost left: { Self → List Self.One };

    /// Takes the next element; `None` if none is left.
    fn take(&mut self) -> Option<Self::One>
        ensures { YieldsFirst left self.old result self.new };
}

impl<'a, M: KnownIn<'a>> Left for Members<'a, M> {
    type One = M;

    ghost left = { λ items. items };

    fn take(&mut self) -> Option<M> {
        self.next()
    }
}

/// An element of an owned list, by reference.
#[derive(Drop)]
pub struct Lent<'a, T> {
    item: &'a T,
}

impl<'a, T> Model for Lent<'a, T> {
    ghost Value = { T };

    ghost view = { λ l. l.item.now };
}

impl<'a, T> Lent<'a, T> {
    /// The element.
    #[inline(always)]
    pub fn get(&self) -> &T
        ensures { result.now ≡ self.now }
    {
        self.item
    }
}

impl<'a, T> Left for Iter<'a, T> {
    type One = Lent<'a, T>;

    ghost left = { iter_rest };

    fn take(&mut self) -> Option<Lent<'a, T>> {
        match self.next() {
            None => None,
            Some(item) => Some(Lent { item }),
        }
    }
}
