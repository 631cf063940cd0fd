//! A client's payloads: the connect request, and the requests of the operations that a `Profile` has.
//!
//! - `read_first` and `read_ask` read a payload as an owned `ClientFrame`; `borrow_first` and `borrow_ask` decide the
//!   same and borrow, without memory; `client_ref`, `written_ref` and `judged_ref` borrow what is already known.
//! - `scan_ask` keeps of a request what its reply is read by, an `Asked`: the operation, and those of a multi's parts.
//! - `judge_ask` judges a payload by where its records end, and keeps an `Outline` of it in numbers: its xid, its
//!   operation, and how many parts it has. Of a fault it returns the verdict that is asked for: the `ItemFault`, or
//!   `Undecided`, which costs nothing.
//! - `write_client` writes a frame's payload, and `size_within` counts it.
//!
//! A payload is read exactly if it is one of a client's forms; else the `ItemFault` of the first item that can't come
//! next is returned. The order of checks is that of `ZooKeeperServer.processConnectRequest` and
//! `FinalRequestProcessor.processRequest`; the parts of a multi follow `MultiTransactionRecord`.
//!
//! The crate rests on `zk_jute` and `zk_records`.
//!
//! ```text
//! let payload = b"\0\0\0\x01\0\0\0\x03\0\0\0\x02/a\x01"; // exists "/a", with a watch
//! let outline = judge_ask::<ItemFault>(Profile::V34, payload)?;
//! assert!(rt; outline.xid == 1 && outline.op == Op::Exists);
//! ```
//!
//! # Choices
//!
//! **Two languages of items for payloads.** A body is the fields of a layout, or a multi's parts, whose headers decide
//! what follows. What may come next is one definition for both.
//!
//! **A borrowed multi is read by its own headers.** `PartList` is a `Sequence` of `zk_jute`; each part is chosen by the
//! number before it. `known_multi` walks to the end marker, over parts here and over results in `zk_answers`.
//!
//! **A reply's reader takes what the request left as a trait** (`Asked`: the operation, the number of parts, each
//! part), so the queue can answer it without a form. Requests don't implement it: their parts may be too many for 32
//! bits. A `Form`, a `RequestRef`, a `Scan` and a `MultiRef` do. `put_ops` puts all parts' operations into a `Room` in
//! one walk; asking for one after another would be quadratic.
//!
//! **Client frames do not implement `Spell`**: only `write_client` writes one, so its condition on the xid cannot be
//! avoided. A frame is counted and then written, so a text that is too long for the limit is TooLong, not a lack of
//! memory.
//!
//! **A `Form` has at most 4,294,967,295 parts**, and none if the operation is not multi.
//!
//! **Some public calls wrap a private one** (`borrow_ask` and `ask_ref`). The private one promises what was read and
//! which fault it is; that every form is read follows from the laws.
#![tactic(auto)]

mod allowed_xids;
mod asked;
mod borrow;
mod frame;
mod judge;
mod known;
mod laws;
mod multi;
mod own;
mod part_list;
mod read;
mod request;
mod scan;
mod without_parts;
mod write;

pub use allowed_xids::allowed;
pub use asked::{Asked, Room, asked_laws};
pub use borrow::{borrow_ask, borrow_first};
pub use frame::{Ask, AskOf, AskRef, ClientFrame, ClientFrameOf, ClientRef, Part, PartOf, PartRef};
pub use judge::{Outline, judge_ask, judged_multi};
pub use known::{client_ref, judged_ref, written_ref};
pub use laws::{ask_laws, first_laws, form_laws, opening_laws};
pub use multi::{is_end, known_multi};
pub use part_list::PartList;
pub use read::{read_ask, read_first};
pub use request::{MultiRef, RequestRef};
pub use scan::{Scan, scan_ask, scan_first};
pub use without_parts::Alone;
pub use write::write_client;
