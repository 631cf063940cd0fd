//! A conversation that goes on where the profile ends: requests of other operations, and their replies, are left out.
//!
//! A newer client asks what the profile lacks (addWatch, getEphemerals, setWatches2). A `Talk` refuses the first of
//! these, for good. `Through` cuts the frames itself, and gives the talk whole frames: all but a client's request whose
//! operation the profile lacks, and the reply with its xid when its turn in its lane has come. `Through::step` is the
//! main call; `Through::offer` takes a whole frame only if it may come next.
//!
//! Requests are left out of two lanes: the plain one, and that of setWatches, with the xid -8. Under the xids of pings
//! and auths, and under an event's, all goes to the talk.
//!
//! As much may wait as in a talk, those left out too, 1 each. `Full` says that the client's frame would take it above
//! the limit; the talk isn't asked then, so it never refuses with QueueFull.
//!
//! The talk gets the conversation with those pairs left out; `specs/LeftOut.antt` says which these are, by
//! counts of the frames before them. Faults are at the frame and offset of the streams as they came.
//!
//! What is left out is known by its header alone: its body is not read, and `Through::payload` gives its bytes.
//!
//! Replies of one lane answer its requests in order: `Through::answered` is the number of the client's frame that the
//! server's newest answers.
//!
//! Memory is allocated once, by `Through::new`. The crate rests on `zk_jute`, `zk_records`, `zk_asks`, `zk_answers`,
//! `zk_frames`, `zk_waiting`, `zk_talk` and `circular_buffer`.
//!
//! ```text
//! let mut through = Through::new(rt.alloc(), limits)?;
//! assert!(rt; through.step(Side::Client, CONNECT).is_ok());
//! let passed = through.step(Side::Client, ADD_WATCH)?; // an operation that no profile has
//! let is_asked = matches!(passed.outcome, StepOutcome::Asked(_));
//! assert!(rt; is_asked && through.left_out(Side::Client).is_some());
//! ```
#![tactic(auto)]

mod fate;
mod frame_header;
mod held_counts;
mod join;
mod laws;
mod offer;
mod resume;
mod through;
mod turn;
mod turns;
mod unseen;

pub use laws::kept_laws;
pub use through::{Passed, StepOutcome, Through};
pub use turn::Turn;
