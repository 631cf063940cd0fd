//! A client's conversation with a server: two streams of frames, in any pieces, judged message by message.
//!
//! A `Talk` is fed the bytes of both sides, piece by piece, in the order in which they came. `Talk::step` is the main
//! call: it takes a piece up to the end of the first frame that becomes whole, judges the frame, and keeps it until the
//! side's next call; `Talk::view` shows its message, borrowed. `Talk::pass` keeps no frame, and `Talk::take` returns an
//! owned message. `Talk::offer` takes a whole frame only if it may come next.
//! `Talk::finish` says how the bytes so far end: whole, within a frame, or refused with a `Fault`. `read_all` is all of
//! it for a list of pieces.
//!
//! A conversation is good if each side's bytes are frames of its payloads, if each reply answers the oldest request of
//! its lane (`zk_waiting`) and comes after it, and if the requests that wait weigh no more than the `Limits`. Else it
//! has one fault, at the first byte with which it is no longer good. ZooKeeper's client checks the order of replies in
//! `ClientCnxn.SendThread.readResponse`.
//!
//! A `Speaker` goes the other way: `Speaker::say` appends the frame of a message, if the messages so far and it are a
//! conversation. `said_is_read` and `read_is_said` say that the two agree.
//!
//! `Talk::new` allocates a frame for each side and what may wait; after it only `take` allocates, for its message.
//! `Talk::renew` and `Speaker::renew` begin anew in the same memory. The crate rests on `zk_jute`, `zk_records`,
//! `zk_asks`, `zk_answers`, `zk_frames`, `zk_waiting` and `thiserror`.
//!
//! ```text
//! let mut talk = Talk::new(rt.alloc(), limits)?;
//! let stepped = talk.step(Side::Client, CONNECT)?; // the bytes of a frame: a connect request
//! assert!(rt; stepped.whole && talk.view(Side::Client).is_some());
//! assert!(rt; talk.finish() == Ending::Whole { unanswered: 1 });
//! ```
//!
//! # Choices
//!
//! **`take` decides as `step` does, and then makes the message.** Both ask one judge, which makes no frame, so each fault
//! is decided in one place, before anything changes. `step` then changes the queue and keeps the frame. `take` makes the
//! message first, so if memory runs out, neither the queue nor the counts have changed, and the piece's bytes are taken
//! back.
//!
//! **A kept frame is no part of the history.** `TalkState` has it beside what is held, so dropping it changes nothing
//! that is known. The next call on that side drops it, whatever it returns. A refused frame stays held.
//!
//! **An offer is judged in the caller's bytes.** The judge changes nothing unless the frame may come; only then is it
//! copied, over the one that is kept. So a refusal leaves all as it was.
//!
//! **A view needs the kept bytes and one word.** A reply doesn't name its operation, and its request has left the
//! queue; so the talk keeps the operation beside the frame. The invariant says that what is kept is such a frame, so
//! `view` has no fault to return. That a view is dropped in time is the borrow checker's matter
//! (`tests/library/must_not_compile.py`).
//!
//! **What the speaker accepts is a condition on each message and those before it**, and laws tie that to histories.
//! Each case of a refusal denies the conditions of the cases before it, so at most one holds. The frame is appended
//! before the request is queued, since a vector can be cut back and a queue cannot. A speaker has no bound on the bytes
//! said; only a reader refuses a byte too many.
#![tactic(auto)]

mod client_and_server;
mod frame;
mod fronts;
mod held_counts;
mod judge;
mod laws;
mod limits;
mod message;
mod offer;
mod pass;
mod payload;
mod read;
mod receive_piece;
mod refused;
mod replied;
mod say;
mod saying_laws;
mod speaker;
mod stream;
mod talk;
mod view;
mod written_message;

pub use fronts::front_comes_first;
pub use laws::history_laws;
pub use limits::Limits;
pub use message::{Ended, Ending, Fault, Kind, Message, MessageOf, MessageRef, Side};
pub use payload::PayloadFault;
pub use read::read_all;
pub use receive_piece::{next_fault, receive, refuse};
pub use say::{SayFault, say_name};
pub use saying_laws::{order_is_said, read_is_said, said_is_read, say_laws};
pub use speaker::Speaker;
pub use stream::{Advance, Stream, carried};
pub use talk::{Stepped, Taken, Talk};
pub use view::message_ref;
