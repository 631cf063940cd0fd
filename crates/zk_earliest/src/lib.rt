//! The first impossible byte of a body: the first that no body of its layout and length has there.
//!
//! A reader refuses a payload at the first item that can't be read. The byte that was damaged may come before that: a
//! length that is too great, and yet leaves room for what is read as a text. `earliest` looks for it: given the `Layout`
//! of a body and its bytes, it returns how many bytes at the front can begin a body of just that length. docs/CONVERSATION.md
//! has its definition.
//!
//! Each type of value says which lengths it can have (`Sizes`), and how far it is possible in bytes of which some must be
//! left for what follows (`Stretch::reach`). Nothing is allocated, and each byte is looked at a bounded number of times.
//!
//! The crate rests on `zk_jute`, `zk_records`, `zk_asks` and `zk_answers` for layouts, and on `simdutf8`.
//!
//! ```text
//! if layout == Layout::Answered(Op::Multi) || body.len() > 1_000_000 {
//!     return None; // the results of a multi have no layout of their own
//! }
//! earliest(layout, body) // Some(3) of an exists request's b"\0\0\0\x05/a\x01": with 7 bytes in all its path has 2
//! ```
//!
//! # Choices
//!
//! **What may still follow is a set of lengths**: one number and, where a text, blob or list is among it, every number
//! from some gap after it on. Sums of such sets are such sets, so `earliest` carries one small value from left to right
//! and never allocates. The definition has none of this; `crates/talk_tests/make_bodies.py` tries it out on bodies of
//! every layout.
#![tactic(auto)]

mod bodies;
mod first_impossible;
mod laws;
mod length_prefixed;
mod list;
mod multi;
mod number;
mod pair;
mod possible_lengths;
mod sizes;
mod text;

pub use bodies::earliest;
pub use laws::earliest_law;
