//! A server's payloads: the reply to the connect request, replies, each read by its request, and events.
//!
//! A reply doesn't say which operation it replies to. So each call takes the request as an `Asked` (`zk_asks`): its
//! operation, and those of a multi's parts.
//!
//! - `reply_head` reads the header, whose xid is -1 if an event follows.
//! - `read_connected`, `read_reply` and `read_event` read a payload as an owned `ServerFrame`; `borrow_connected`,
//!   `borrow_reply` and `borrow_event` decide the same and borrow, without memory; `connected_ref`, `event_ref`, `reply_ref`
//!   and `written_reply_ref` borrow what is already known.
//! - `scan_connected`, `scan_reply` and `scan_event` only decide. `judge_reply` and `judge_event` judge by where the body
//!   ends; of a fault they return the verdict that is asked for, the `ItemFault` or `Undecided`, which costs nothing.
//! - `write_server` writes a frame's payload; `fits` says whether a reply fits a request.
//!
//! The records are those of zookeeper.jute, and the results of a multi those of `MultiResponse`. A payload that is
//! refused has the `ItemFault` of the first item that can't come next.
//!
//! The crate rests on `zk_jute`, `zk_records` and `zk_asks`.
//!
//! ```text
//! let head = reply_head(payload)?;
//! if head.xid == -1 {
//!     return read_event(alloc, payload);
//! }
//! read_reply(alloc, form, payload)
//! ```
//!
//! # Choices
//!
//! **A reply is judged by its header and then by a shape**: the operation's body or a multi's results if err is 0, and
//! nothing otherwise. So Trailing at 16 is no case of its own. What is written needs no request, since each result has
//! its number; `fits` decides whether results answer their parts.
//!
//! **`Failure` is never 0**, by its invariant.
#![tactic(auto)]

mod asked_form;
mod borrow;
mod done_list;
mod frame;
mod judge;
mod known;
mod laws;
mod layout;
mod multi;
mod own;
mod read;
mod reply_fits;
mod scan;
mod write;

pub use asked_form::{Form, form_of};
pub use borrow::{borrow_connected, borrow_event, borrow_reply};
pub use done_list::DoneList;
pub use frame::{
    Body, BodyOf, BodyRef, Failure, Outcome, OutcomeOf, OutcomeRef, PartDone, PartDoneOf,
    PartDoneRef, Reply, ReplyOf, ReplyRef, ServerFrame, ServerFrameOf, ServerRef,
};
pub use judge::{judge_event, judge_reply};
pub use known::{connected_ref, event_ref, reply_ref, written_reply_ref};
pub use laws::{connected_laws, event_laws, form_laws, head_laws, opening_laws, reply_laws};
pub use layout::Layout;
pub use read::{read_connected, read_event, read_reply, reply_head};
pub use reply_fits::fits;
pub use scan::{scan_connected, scan_event, scan_reply};
pub use write::write_server;
