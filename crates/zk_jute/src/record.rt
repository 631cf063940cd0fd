//! `Record`: a value that is its fields in order, judged, borrowed and copied as nested pairs of these.
ghost use Rattle.std.specs.Prelude.{◌≡◌};
ghost use Rattle.zk_jute.specs.Wired.{Wired};

use crate::ends::Ends;
use crate::verdict::Verdict;
use crate::view::View;
use crate::wire::{Spell, Wire};
use std::alloc::{AllocError, Global};

/// A record of jute, as `Record` of ZooKeeper's jute is, be its texts, blobs and lists owned or borrowed.
pub trait Record: Sized + Drop {
    /// Its fields, in order, as nested pairs: of the fields a, b and c, (a, (b, c)).
    type Row: Ends;

    /// Its layout, the items of each value, and their laws.
    ghost record: { Wired Self };

    /// The record that has these fields.
    fn of(row: Self::Row) -> Self
        ensures { Self.record.items result ≡ Self.Row.wired.items row };

    ghost in_order: { Self.record.layout ≡ Self.Row.wired.layout };
}

/// A record that is written as it is read: what is put of it are its row's items.
pub trait Written: Record + Spell {
    ghost same: { Self.Spell.items ≡ Self.record.items };
}

impl<R: Record> Ends for R {
    ghost wired = { R.record };

    #[inline(always)]
    fn find<V: Verdict>(payload: &[u8], place: usize) -> Result<usize, V> {
        R::Row::find(payload, place)
    }
}

impl<'a, R: Record> View<'a> for R
where
    R::Row: View<'a>,
{
    #[inline(always)]
    fn view(src: &'a [u8], place: usize) -> (Self, usize) {
        let (row, end) = <R::Row as View<'a>>::view(src, place);
        (R::of(row), end)
    }
}

impl<R: Written> Wire for R
where
    R::Row: Wire,
{
    ghost written = { R.same };

    fn copied(alloc: Global, src: &[u8], place: usize) -> Result<(Self, usize), AllocError> {
        match <R::Row as Wire>::copied(alloc, src, place) {
            Ok((row, end)) => Ok((R::of(row), end)),
            Err(error) => Err(error),
        }
    }
}
