//! The fields of a message: its items in order, each with its name and its place.
//!
//! `client_fields` and `server_fields` are the main calls: they write the fields of a borrowed frame into the caller's
//! array, as many as it has room for, and return how many there are. `opened_fields` does the same for the items of any
//! payload that end before a place, such as that of a fault. `field_laws` says that the fields are the message's items,
//! all and in order, and that each one's place and length are those of its content. Nothing is allocated.
//!
//! `write_request`, `write_first`, `write_reply`, `write_event` and `write_connected` are the inverse: they write the
//! frame of a message from its fields. Of the fields that were read of a message, and its payload, they write its frame
//! again.
//!
//! The names are those of docs/FORMATS.md, sections 3 and 4. A list is a field with its count, and then its elements'
//! fields; a multi is, for each part or result, a field for the header and then the fields of its record. The numbers of
//! a frame's own header (xid, operation, zxid, err) are no fields: `zk_c` returns them beside these.
//!
//! The crate rests on `zk_asks` and `zk_answers` for frames, on `zk_records` for records and on `zk_jute` for items.
//!
//! ```text
//! let frame = borrow_ask(Profile::V34, b"\0\0\0\x01\0\0\0\x03\0\0\0\x02/a\x01")?;
//! assert!(rt; client_fields(&frame, &mut room) == 2); // the path "/a", and whether to watch it
//! ```
//!
//! # Choices
//!
//! **Fields are written by a walk over the borrowed message** (`Show`), into a room that the caller passes. A cursor
//! counts them and the payload's bytes after them, so a field's place is the number of bytes of the items before it.
//! The cursor saturates, so no function has a condition, and one lemma serves records, lists and whole messages. If the
//! room is too small all are counted, as `snprintf` does.
//!
//! **What comes before a fault is found by a second walk** (`Walk`), up to the fault's place. So no reader that judges
//! payloads has to write fields. Of a whole message both walks write the same fields (`field_laws`). A record's names
//! are in the same line of its definition for both walks.
//!
//! **A header's numbers are in the answer and are no fields**, and a multi's end marker is none: fields are what a
//! caller loops over. A part's or a result's header is one field, of which only the number is kept: the err of an
//! error's header is that of the int after it, and is written from there.
#![tactic(auto)]

mod ask;
mod body;
mod field;
mod frame;
mod kind;
mod laws;
mod list;
mod name;
mod payload_fields;
mod record;
mod show;
mod value;
mod walk;
mod write;

pub use field::{At, Field};
pub use frame::{client_fields, server_fields};
pub use laws::field_laws;
pub use payload_fields::{Opened, opened_fields};
pub use show::Show;
pub use walk::Walked;
pub use write::{Unwritten, write_connected, write_event, write_first, write_reply, write_request};
