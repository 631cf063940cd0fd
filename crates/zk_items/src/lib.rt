//! The items of a line: numbers, texts, blobs, bits, and numbers with names, written and read back exactly.
//!
//! A `Reader` goes over a line from left to right: `Reader::int`, `bit` and their like read the next item, `encode_text`
//! and `encode_blob` append its bytes, as they are in a payload; each returns the `LineFault` of its column. The
//! functions `put_*` append an item to a vector, and leave what the vector began with. Each value has one spelling, and
//! only that is read: no leading zero, no upper-case digit, no escape for a byte that needs none. `item_laws` says so
//! for each item.
//!
//! Texts are written between quotation marks, with `\` and two hexadecimal digits for each byte but 20 to 7e, `"` and
//! `\`; blobs as `#` and their digits; null as `~`. docs/FORMATS.md has them all.
//!
//! The crate rests on `zk_jute` and `zk_records` for values and names, and on `itoa`, `hex` and `thiserror`.
//!
//! ```text
//! let mut line = Reader::new(b"7 \"/a\"");
//! assert!(rt; line.int()? == 7);
//! line.literal(b" ")?;
//! line.encode_text(&mut text)?;
//! assert!(rt; text.as_slice() == b"\0\0\0\x02/a".as_slice()); // as it is in a payload
//! ```
//!
//! # Choices
//!
//! **An item of a line is a form**: the values that fit, their spelling, and parsing from the left as a function on
//! lists. Two laws hold of each: a spelling is parsed again whatever an item may be followed by, and what is parsed was
//! spelled. Every item may be followed by the end, or by any byte but a letter, a digit, `-` and `/`; with that one
//! set, unique parsing follows from the first law. Columns are not in the definitions.
//!
//! **Writers promise that what the output began with it still begins with** (`Keeps`) and undo nothing; only `put_line`
//! of `zk_lines` cuts back. They also promise that what they wrote fits, since they look at each part in any case.
//!
//! **A last look at a text takes in some bytes again**, so no tail is gone over byte by byte. Of a blob the first block
//! of digits is written whole, and the next begins after the odd bytes.
#![tactic(auto)]

mod append;
mod class;
mod code;
mod decimal;
mod encode;
mod escape;
mod fault;
mod laws;
mod number;
mod plain;
mod read_hex;
mod reader;
mod text_byte;
mod unescape;
mod write;
mod write_hex;

pub use code::{
    put_error_code, put_event_code, read_error_code, read_event_code, read_failure_code,
};
pub use encode::set_count;
pub use fault::{LineFault, LineReason, line_reason_name};
pub use laws::item_laws;
pub use reader::Reader;
pub use write::{
    int_before, long_before, put_bit, put_blob, put_blob_ref, put_int, put_long, put_read_only,
    put_text, put_text_ref,
};
