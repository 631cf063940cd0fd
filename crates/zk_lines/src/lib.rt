//! One line a message, and back: the text form of a conversation, of ASCII characters alone.
//!
//! - `put_line` and `line_of` write the line of a message, `put_line_ref` and `line_of_ref` that of a borrowed one.
//! - `read_line` reads a line as its message; else it returns the column and the reason (`LineFault` of `zk_items`).
//! - `ending_line` writes the line of an `Ending`, which begins with a dot, as no message's does.
//!
//! A line has the side, `C` or `S`; the xid; the operation's name; and the record's fields in order, each after a fixed
//! word. Each message has one line and each line one message, whether a conversation can have it or not; `line_laws`
//! says so. docs/FORMATS.md has the words.
//!
//! Each record is written and read by its row in a macro of a lower crate (`fields_of!`, `ask_rows!`, `body_rows!`), so
//! that writer and reader can't differ. The crate rests on `zk_items` for items, on `zk_talk` for messages and endings,
//! on the types and names of the crates below, and on `hex` and `itoa`.
//!
//! ```text
//! let message = read_line(rt.alloc(), b"C 1 sync path=\"/a\"")?;
//! let line = line_of(rt.alloc(), &message);
//! drop(message);
//! let line = line?;
//! assert!(rt; line.as_slice() == b"C 1 sync path=\"/a\"".as_slice());
//! ```
//!
//! # Choices
//!
//! **An operation's line is a row.** `row_of` of `zk_asks` and `zk_answers` says of what an operation's request or
//! reply is made; `ask_line` and `body_line` name its form, and parsing is projected from `line_of`. `line_of` is stuck
//! where the operation isn't known, since `search` can't rewrite an operation on which a form's type depends. `by_op`
//! gives for each value what is given for each row. The laws of a form are one record, and a table has them if each of
//! its forms has.
//!
//! **A list is written over what is left of it** (`Left` of `zk_jute`), not over an `Iterator`.
#![tactic(auto)]

mod answer;
mod ask;
mod body;
mod encode_answer;
mod encode_ask;
mod encode_item;
mod encode_lines;
mod ending;
mod laws;
mod line;
mod list;
mod multi_result;
mod name;
mod put;
mod record;
mod request;
mod word;

pub use encode_lines::encode_line;
pub use ending::ending_line;
pub use laws::{ending_laws, line_laws};
pub use line::{line_of, line_of_ref, put_line, put_line_ref, read_line};
pub use zk_items::{LineFault, LineReason, line_reason_name};
