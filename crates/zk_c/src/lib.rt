//! What C calls: a conversation that is read as it comes, or said, of which C has a handle.
//!
//! `zk_talk_new`, `zk_talk_step` and their like wrap a `Talk` (`zk_talk`), `zk_speaker_new` and `zk_speaker_say` a
//! `Speaker`, `zk_through_new` a `Through` (`zk_through`); each is in a box that a handle owns, which is all zeros
//! while it holds nothing. `zk_judge_first` and its like judge single payloads without a handle, and `zk_write_request`
//! and its like write a frame from its fields. `zk_listing` lists a conversation that is there whole.
//!
//! Each call returns numbers: a status, 0 if the call did what it is for, and a struct that include/zk.h declares too.
//! The contracts repeat those of `Talk`, `Through` and `Speaker` over these numbers. What a caller owes, the header
//! says; its safe calls check the pointers first. docs/LIBRARY.md is the page for who links the library.
//!
//! The crate rests on `zk_lines`, `zk_talk` and the types and names of the crates below.
//!
//! ```text
//! while (length > 0) {
//!     struct zk_step step = zk_talk_step(talk, side, bytes, length);
//!     if (step.status != ZK_WELL) return false;
//!     if (step.whole) put_message(talk, side, text);
//!     bytes += step.used;
//!     length -= step.used;
//! }
//! ```
//!
//! # Choices
//!
//! **A handle is a struct that owns what its pointer leads to** (`TalkBox`): its `also_owns` is that of a box, or
//! nothing. A struct that crosses to C may not hold a `Vec` or a `Box`, so the pointer is one to bytes, and a ghost
//! field has the value. Only three functions make or open it, with proofs by hand: one of each, over whatever the
//! pointer leads to (`proofs/Boxed.antt`), which each box's proofs name. Each call takes the box out, works on it as
//! safe code does, and puts it back (`with_value!`).
//!
//! **Each type has its own box and handle** (`TalkBox`, `PassageBox`, `SpeakerBox`). A function that C calls takes no
//! struct with type arguments, nor one that has such a field: the compiler refuses both (`unsupported-generic-in-c`,
//! `cell-in-c`). The gate refuses an impl that a macro writes, so macros write bodies alone.
//!
//! **What C asks for is written into its memory.** A line is copied out. For a message's bytes, the caller learns how
//! many of those that it passed are the frame's. A frame that is said is kept until the next one, so the room can't be
//! too small after the speaker has counted the message.
//!
//! **A single reply is judged by numbers**, read from the caller's memory, so no judging call allocates. The xid
//! decides between reply and event, so the other kind's xid is ZK_MISFIT, and no fault of either kind.
//!
//! **`zk_listing` copies its messages**, since it is `read_all`. Callers that can't spare the memory make the steps.
#![tactic(auto)]

mod answer;
mod asked;
mod boxes;
mod conversation;
mod handle;
mod head;
mod held_speaker;
mod listing;
mod number;
mod passage;
mod passed;
mod payload;
mod pieces;
mod raw_box;
mod read;
mod read_answer;
mod say_result;
mod speaker;
mod talk;
mod through;
mod version;
mod write;

pub use listing::zk_listing;
pub use payload::{
    zk_judge_connected, zk_judge_event, zk_judge_first, zk_judge_reply, zk_judge_request,
};
pub use read::{zk_read_connected, zk_read_event, zk_read_first, zk_read_reply, zk_read_request};
pub use speaker::{
    zk_speaker_frame, zk_speaker_free, zk_speaker_new, zk_speaker_renew, zk_speaker_say,
    zk_speaker_say_payload,
};
pub use talk::{
    zk_talk_ending_line, zk_talk_fields, zk_talk_finish, zk_talk_free, zk_talk_held, zk_talk_line,
    zk_talk_new, zk_talk_offer, zk_talk_pass, zk_talk_payload, zk_talk_renew, zk_talk_step,
    zk_talk_view, zk_talk_waiting,
};
pub use through::{
    zk_through_ending_line, zk_through_fields, zk_through_finish, zk_through_free, zk_through_held,
    zk_through_join, zk_through_line, zk_through_new, zk_through_offer, zk_through_pass,
    zk_through_payload, zk_through_renew, zk_through_resume, zk_through_step, zk_through_view,
    zk_through_waiting,
};
pub use version::zk_version;
pub use write::{
    zk_write_connected, zk_write_event, zk_write_first, zk_write_reply, zk_write_request,
};
