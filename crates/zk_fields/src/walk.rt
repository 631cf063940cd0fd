//! `Walk`: the fields of a payload that may be cut, item by item, as far as the items are whole.
ghost use Rattle.std.specs.Prelude.{◌≡◌, ◌≤◌, ℕ, List, length, [], Some, IfSome, refl};
ghost use Rattle.zk_jute.specs.Reading as reading;
ghost use Rattle.zk_jute.specs.Reading.{items_at};
ghost use Rattle.zk_fields.specs.declared.field.Field as fields;
ghost use Rattle.zk_fields.specs.{Fields.named, Named.Nothing};
ghost use Rattle.zk_fields.specs.Walks.{Met, Walks, walk, item_met, met_then, times_met, list_met};

use crate::field::{At, Field};
use crate::list::{show_count, show_null};
use crate::show::Show;
use std::marker::PhantomData;
use zk_jute::{BlobRef, Ends, ItemFault, TextRef, View, size_at};

/// What the fields came to, and the place after them; `None` if the next item isn't whole there.
#[derive(Clone, Copy)]
pub struct Walked {
    pub at: At,
    pub end: Option<usize>,
}

/// No items.
#[tactic(auto, using(crate::proofs::Walking::walks_nothing))]
pub(crate) fn walk_nothing(place: usize, at: At) -> Walked
    ensures walks { (room : List fields.Field) → Walks at room (walk Nothing [] place) result room }
    ensures end { result.end ≡ Some place }
{
    Walked {
        at,
        end: Some(place),
    }
}

/// What a payload may hold at a place.
pub(crate) trait Walk<'a>: Sized {
    /// The entries that are whole there.
    ghost met: { List ℕ → ℕ → Met };

    /// Writes their fields, as many as `room` has places for.
    fn walk(payload: &'a [u8], place: usize, room: &mut [Field], at: At) -> Walked
        requires { place ≤ length payload.now }
        ensures walks { Walks at room.old (met payload.now place) result room.new }
        ensures within { IfSome result.end (λ end. end ≤ length payload.now) };
}

/// One item.
pub(crate) trait Item: Ends + Show {
    ghost alone: { (name : ℕ) (x : Self) → Self.entries name x ≡ named name (Self.wired.items x) };
}

impl Item for i32 {
    ghost alone = { λ _ _. refl };
}

impl Item for i64 {
    ghost alone = { λ _ _. refl };
}

impl Item for bool {
    ghost alone = { λ _ _. refl };
}

impl<'a> Item for TextRef<'a> {
    ghost alone = { λ _ _. refl };
}

impl<'a> Item for BlobRef<'a> {
    ghost alone = { λ _ _. refl };
}

/// One item, under its name.
#[derive(Drop)]
pub(crate) struct Column<const NAME: u16, T> {
    of: PhantomData<T>,
}

impl<'a, const NAME: u16, T: Item + View<'a>> Walk<'a> for Column<NAME, T> {
    ghost met = { λ src place. item_met NAME (items_at T.wired.layout src place) };

    fn walk(payload: &'a [u8], place: usize, room: &mut [Field], at: At) -> Walked {
        match T::find::<ItemFault>(payload, place) {
            Ok(_) => {
                let (item, end) = T::view(payload, place);
                Walked {
                    at: item.show(NAME, room, at),
                    end: Some(end),
                }
            }
            Err(_fault) => Walked { at, end: None },
        }
    }
}

impl<'a, A: Walk<'a>, B: Walk<'a>> Walk<'a> for (A, B) {
    ghost met = { λ src place. met_then (A.met src place) (B.met src) };

    #[tactic(auto, using(crate::proofs::Walking::walks_stop, crate::proofs::Walking::walks_both))]
    fn walk(payload: &'a [u8], place: usize, room: &mut [Field], at: At) -> Walked {
        let first = A::walk(payload, place, room, at);
        match first.end {
            None => first,
            Some(place) => B::walk(payload, place, room, first.at),
        }
    }
}

/// A field of a record by its name and its kind; of a record within another, the fields.
macro_rules! walked {
    ($name:ident texts) => { Many<$name, walked!($name text)> };
    ($name:ident rights) => { Many<$name, fields_of!(Acl, walk_fields, as)> };
    ($name:ident id) => { fields_of!(Id, walk_fields, as) };
    ($name:ident stat) => { fields_of!(Stat, walk_fields, as) };
    ($name:ident $kind:ident) => { Column<$name, borrowed!($kind)> };
}

/// `fields_of!(R, walk_fields, payload, place, room, at)` walks the fields of the record, each under its name, in order;
/// `fields_of!(R, walk_fields, as)` is their type.
macro_rules! walk_fields {
    (as: $field:ident $name:ident $kind:ident) => { walked!($name $kind) };
    (as: $field:ident $name:ident $kind:ident, $($rest:tt)+) => { (walked!($name $kind), walk_fields!(as: $($rest)+)) };
    ($payload:ident, $place:ident, $room:ident, $at:ident: $($columns:tt)+) => {
        <walk_fields!(as: $($columns)+)>::walk($payload, $place, $room, $at)
    };
}

pub(crate) use walk_fields;
pub(crate) use walked;

/// Walks `count` of a kind, one after the other.
pub(crate) fn walk_times<'a, T: Walk<'a>>(
    payload: &'a [u8],
    count: usize,
    place: usize,
    room: &mut [Field],
    at: At,
) -> Walked
    requires { place ≤ length payload.now }
    ensures walks { Walks at room.old (times_met (T.met payload.now) count place) result room.new }
    ensures within { IfSome result.end (λ end. end ≤ length payload.now) }
{
    let mut at = at;
    let mut place = place;
    for _ in 0..count {
        let walked = T::walk(payload, place, room, at);
        let Some(end) = walked.end else {
            return walked;
        };
        at = walked.at;
        place = end;
    }
    Walked {
        at,
        end: Some(place),
    }
}

/// A list, under its name: its count, and its elements.
#[derive(Drop)]
pub(crate) struct Many<const NAME: u16, T> {
    of: PhantomData<T>,
}

impl<'a, const NAME: u16, T: Walk<'a>> Walk<'a> for Many<NAME, T> {
    ghost met = { λ src place. list_met NAME (T.met src) (reading.size_at src place) };

    fn walk(payload: &'a [u8], place: usize, room: &mut [Field], at: At) -> Walked {
        match size_at(payload, place) {
            Ok((None, after)) => Walked {
                at: show_null(NAME, room, at),
                end: Some(after),
            },
            Ok((Some(count), after)) => {
                let at = show_count(NAME, count, room, at);
                walk_times::<T>(payload, count, after, room, at)
            }
            Err(_fault) => Walked { at, end: None },
        }
    }
}
