//! Jute, ZooKeeper's serialization: its primitives, lists and pairs, read from bytes and written as bytes.
//!
//! A value unfolds into items: ints, longs, booleans, texts (`ustring`), blobs (`buffer`), and the counts of lists. A
//! record is its fields' items in order, as nested pairs. `BinaryInputArchive` and `BinaryOutputArchive` of ZooKeeper
//! fix the bytes of each item.
//!
//! - `Ends::end` judges whether a value is at a place of a payload, finds where it ends, and makes no value. Its `Verdict`
//!   is what it returns of a fault: an `ItemFault`, or `Undecided`, which costs nothing.
//! - `View::view` borrows the texts, blobs and lists of a value from a payload where the value is known to be.
//! - `Wire::read` judges a value and copies it; `read_ref` judges one and borrows it.
//! - A `Record` is judged, borrowed and copied as the nested pairs of its fields.
//! - `Spell::write` writes a value; `Spell::size_within` counts its bytes.
//! - A payload that is refused has an `ItemFault`: the first byte that no value has there, and the reason.
//!
//! Bytes have at most one value and at most one fault; `laws` says so for each type. The crate rests on `simdutf8` for
//! UTF-8 and on `thiserror`.
//!
//! ```text
//! let payload = b"\0\0\0\x02\0\0\0\x02/a\xff\xff\xff\xff"; // the text "/a", and null
//! let (list, end) = read_ref::<TextList>(payload, 0)?;
//! assert!(rt; list.count() == 2 && end == 14);
//! ```
//!
//! # Choices
//!
//! **Writing, judging, borrowing and copying are four traits.** `Spell` writes (`put`, `write`, `size_within`), `Ends`
//! judges (`find`, `end`), `View` borrows (`view`), and `Wire` copies (`copied`, `read`) and says that what is written of
//! a value are the items that are judged. Some things are only written: references and pairs of references, an optional
//! boolean, the elements of a list without their count. So a record is written from references to its parts. `put`,
//! `find`, `view` and `copied` are the steps that an implementation gives; `write`, `end` and `read` are final, and carry
//! the contracts. The steps promise what reading as a function on lists gives. `end` and `read` promise what is in the
//! bytes (found, only, fault), since a person relies on that.
//!
//! **A record is its fields in order.** A `Record` says which nested pairs they are, its `Row`, and is made of one. It is
//! judged, borrowed and copied as its row is, by one text for all records. It is written from references to its fields,
//! since a row of references has a lifetime that `Record` can't name; `Written` says that the items are those of the row.
//!
//! **What is known to be in a payload is not judged again.** `Ends` alone judges, and all types, owned or borrowed. A
//! view and a copy have no fault; their condition is that the value is there. So the bytes that are left for an int, a
//! long or a length are not counted, nor the characters of a text looked at. What a frame shows, the iterator over a
//! sequence, and the walk to a multi's end marker read this way, by `known_at`.
//!
//! **A borrowed list is a place and a count.** Its value is computed from the bytes (`Member`). That all its values are
//! there is its invariant, so `count` is exact. `Sequence` is that list for all: for the elements of a vector that isn't
//! null (`Series`), and for a multi's parts and its results, whose layouts differ.
//!
//! **What is known of a type is one ghost member**, the `wired` of its `Ends`: its layout, its items, that these are of
//! the layout, and that values of equal items are equal. All else is proved once, over layouts.
//!
//! **A value is written once, to any output.** `put` gives its bytes to an `Output`: a `Vec`, or a count. So `write`
//! and `size_within` are each one call over `put`, and can't disagree. `put` has no condition; for a value without
//! bytes, as a text of 2 GiB, it returns the output's refusal. After a refused allocation `put` leaves a beginning, and
//! `write` removes it.
#![tactic(auto)]

mod ascii;
mod ends;
mod fault;
mod length_prefixed;
mod list;
mod number;
mod output;
mod pair;
mod payload;
mod read_at;
mod record;
mod rest_of_list;
mod sequence;
mod series;
mod text;
mod utf8;
mod value;
mod verdict;
mod view;
mod wire;

pub use ends::Ends;
pub use fault::{ItemFault, Reason, reason_name};
pub use length_prefixed::size_at;
pub use number::{bool_at, int_at, long_at};
pub use output::Output;
pub use payload::{known_flagged, read_flagged, scan_flagged};
pub use read_at::{known_at, read_ref, scan};
pub use record::{Record, Written};
pub use rest_of_list::{Left, Lent};
pub use sequence::{KnownIn, Member, Members, Sequence};
pub use series::{Element, Series, TextList, known_list};
pub use value::{
    Blob, BlobRef, Bytes, BytesRef, Chars, CharsRef, Items, List, Nullable, Text, TextRef,
};
pub use verdict::{Undecided, Verdict};
pub use view::View;
pub use wire::{Spell, Wire, laws};
