//! The fields of lists: the count, and the fields of each element.
ghost use Rattle.std.specs.Prelude.{◌≡◌, ◌<◌, ◌^◌, ◌∷◌, [], List, Some, None, pos};
ghost use Rattle.std.specs.List.{flat_map};
ghost use Rattle.zk_jute.specs.Item.{ACount};
ghost use Rattle.zk_fields.specs.{Fields.Under, Named.list_entries, Room.Takes};

use crate::field::{At, Field, put};
use crate::kind::LIST;
use crate::show::{Show, number_field};
use zk_jute::{KnownIn, Left, Sequence, Series};

/// Writes the fields of each of `items`, one after the other.
fn show_all<I: Left>(items: I, name: u16, room: &mut [Field], at: At) -> At
where
    I::One: Show,
    ensures { Takes at room.old (flat_map (I.One.entries name) (I.left items)) result room.new }
{
    let mut items = items;
    let mut at = at;
    while let Some(item) = items.take() {
        at = item.show(name, room, at);
    }
    at
}

/// The count as a field's number.
fn count_number(count: usize) -> i64
    ensures { count < 2 ^ 31 → result ≡ pos count }
{
    i64::try_from(count).unwrap_or(i64::MAX)
}

/// Writes the field of a list's `count`.
#[tactic(auto, using(crate::proofs::Rooms::takes_count))]
pub(crate) fn show_count(name: u16, count: usize, room: &mut [Field], at: At) -> At
    ensures { Takes at room.old (Under name (ACount (Some count)) ∷ []) result room.new }
{
    number_field(name, LIST, 4, count_number(count), room, at)
}

/// Writes the field of a list that is null.
#[tactic(auto, using(crate::proofs::Rooms::takes_one))]
pub(crate) fn show_null(name: u16, room: &mut [Field], at: At) -> At
    ensures { Takes at room.old (Under name (ACount None) ∷ []) result room.new }
{
    let field = Field {
        place: at.place,
        length: 4,
        number: 0,
        name,
        kind: LIST,
        null: 1,
    };
    put(field, 4, room, at)
}

impl<'a, M: KnownIn<'a> + Show> Show for Sequence<'a, M> {
    ghost entries = { λ name ms. flat_map (M.entries name) ms };

    fn show(&self, name: u16, room: &mut [Field], at: At) -> At {
        show_all(self.items(), name, room, at)
    }
}

impl<'a, R: KnownIn<'a> + Show> Show for Series<'a, R> {
    ghost entries = { list_entries R.entries };

    fn show(&self, name: u16, room: &mut [Field], at: At) -> At {
        match self {
            Series::Null => show_null(name, room, at),
            Series::Full(elements) => {
                let at = show_count(name, elements.count(), room, at);
                elements.show(name, room, at)
            }
        }
    }
}
