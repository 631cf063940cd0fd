//! `Show`: the fields of a value, written.
ghost use Rattle.std.specs.Prelude.{◌≡◌, ◌++◌, ℕ, List, option_copied};
ghost use Rattle.zk_fields.specs.{Fields.Entry, Fields.named, Fields.bool_number, Fields.run_field, Fields.run_size, Room.Takes, Room.Puts};
ghost use Rattle.zk_jute.specs.Wired.{int, long, boolean, ustring, buffer};

use crate::field::{At, Field, put, size_of};
use crate::kind::{BLOB, BOOLEAN, INT, LONG, TEXT};
use zk_jute::{BlobRef, TextRef};

/// A value that has fields.
pub trait Show {
    /// Its entries; under the given name if it is one item.
    ghost entries: { ℕ → Self → List Entry };

    /// Writes their fields from `at` on, as many as `room` has places for, and returns what comes after them.
    fn show(&self, name: u16, room: &mut [Field], at: At) -> At
        ensures { Takes at room.old (entries name self.now) result room.new };
}

/// Writes the field of a number, which has `size` bytes.
#[inline(always)]
pub(crate) fn number_field(
    name: u16,
    kind: u8,
    size: u32,
    number: i64,
    room: &mut [Field],
    at: At,
) -> At
    ensures { Puts at room.old (record { place = at.place; length = size; number = number; name = name; kind = kind; null = 0 }) size result room.new }
{
    let field = Field {
        place: at.place,
        length: size,
        number,
        name,
        kind,
        null: 0,
    };
    put(field, size, room, at)
}

impl Show for i32 {
    ghost entries = { λ name n. named name (int.items n) };

    #[tactic(auto, using(crate::proofs::Rooms::takes_one))]
    fn show(&self, name: u16, room: &mut [Field], at: At) -> At {
        number_field(name, INT, 4, i64::from(*self), room, at)
    }
}

impl Show for i64 {
    ghost entries = { λ name n. named name (long.items n) };

    #[tactic(auto, using(crate::proofs::Rooms::takes_one))]
    fn show(&self, name: u16, room: &mut [Field], at: At) -> At {
        number_field(name, LONG, 8, *self, room, at)
    }
}

/// 1 for true, 0 for false.
fn bool_number(b: bool) -> i64
    ensures { result ≡ bool_number b }
{
    if b { 1 } else { 0 }
}

impl Show for bool {
    ghost entries = { λ name b. named name (boolean.items b) };

    #[tactic(auto, using(crate::proofs::Rooms::takes_one))]
    fn show(&self, name: u16, room: &mut [Field], at: At) -> At {
        number_field(name, BOOLEAN, 1, bool_number(*self), room, at)
    }
}

/// Writes the field of a text or a blob: `None` is null, `bytes` are its content.
fn run_field(name: u16, kind: u8, bytes: Option<&[u8]>, room: &mut [Field], at: At) -> At
    ensures { Puts at room.old (run_field at.place name kind (option_copied bytes.entry)) (run_size (option_copied bytes.entry)) result room.new }
{
    let length = match bytes {
        None => 0,
        Some(bytes) => size_of(bytes),
    };
    let field = Field {
        place: at.place.saturating_add(4),
        length,
        number: 0,
        name,
        kind,
        null: if bytes.is_none() { 1 } else { 0 },
    };
    put(field, length.saturating_add(4), room, at)
}

impl<'a> Show for TextRef<'a> {
    ghost entries = { λ name t. named name (ustring.items t) };

    #[tactic(auto, using(crate::proofs::Rooms::takes_text))]
    fn show(&self, name: u16, room: &mut [Field], at: At) -> At {
        match self {
            TextRef::Null => run_field(name, TEXT, None, room, at),
            TextRef::Full(text) => run_field(name, TEXT, Some(text.as_str().as_bytes()), room, at),
        }
    }
}

impl<'a> Show for BlobRef<'a> {
    ghost entries = { λ name b. named name (buffer.items b) };

    #[tactic(auto, using(crate::proofs::Rooms::takes_blob))]
    fn show(&self, name: u16, room: &mut [Field], at: At) -> At {
        match self {
            BlobRef::Null => run_field(name, BLOB, None, room, at),
            BlobRef::Full(bytes) => run_field(name, BLOB, Some(bytes.as_slice()), room, at),
        }
    }
}

/// A field of a record, under its name.
#[derive(Drop)]
pub(crate) struct Named<'a, T> {
    pub name: u16,
    pub value: &'a T,
}

impl<'a, T: Show> Show for Named<'a, T> {
    ghost entries = { λ _ f. T.entries f.name f.value.now };

    fn show(&self, _name: u16, room: &mut [Field], at: At) -> At {
        self.value.show(self.name, room, at)
    }
}

impl<A: Show, B: Show> Show for (A, B) {
    ghost entries = { λ name p. A.entries name p.0 ++ B.entries name p.1 };

    #[tactic(auto, using(crate::proofs::Rooms::takes_both))]
    fn show(&self, name: u16, room: &mut [Field], at: At) -> At {
        let at = self.0.show(name, room, at);
        self.1.show(name, room, at)
    }
}
