//! The listing of a recording: a line for each message, and one for how the recording ends.
//!
//! `show_run` reads a recording from a `Source` and writes its listing to a `Sink`; `check_run` writes the last line
//! alone; `check_earliest_run` adds the first impossible byte of a refused body (`zk_earliest`). They read blocks of at
//! most 65,536 bytes, write each message's line before the next read, and stop at a fault or a damage. Each returns a
//! `Status`, or a `RunFault` if the reader, the writer or memory failed.
//!
//! `Source` and `Sink` are `std`'s reader and writer with a memory of failures; `FromRead` and `FromWrite` wrap any of
//! them. The contracts say what was written of what was read, also when a run fails.
//!
//! The crate rests on `zk_recordings`, `zk_lines`, `zk_earliest`, `zk_talk`, the types of the crates below, and
//! `thiserror`.
//!
//! ```text
//! let mut reader = FromRead::new(b"ZKR1".as_slice());
//! let status = check_run(rt.alloc(), limits, &mut reader, &mut writer)?; // writer is any Sink
//! assert!(rt; status == Status::Good); // and ". whole unanswered=0" is written
//! ```
//!
//! # Choices
//!
//! **The talk begins with the first byte of content**, since its limits may be the head's.
//!
//! **What was read is all that left the reader**, also the rest of a block after a fault: a fault, and a damage other
//! than the end, remain whatever follows (`recording_laws`). A recording's summary is its damage only if its history has
//! no fault.
//!
//! **A long frame is gathered where no line is listed.** A frame that a block holds whole is judged there. Of one that goes
//! on, and whose payload has at least 65,536 bytes, the bytes are gathered. The first such frame is copied from the blocks;
//! later ones are read into the room that it leaves, where the pieces are long, with a read of its own for each head. The
//! conversation is given them when the frame is whole, a byte of the other side comes, or the input ends. Until then they
//! are the beginning of a frame, which adds no message.
//!
//! **`show` and `check` are one loop**, and differ in which lines they write. `show` keeps the lines of a block in one
//! buffer and writes them before the next read. If memory runs out within a block, its lines are not written.
#![tactic(auto)]

mod earliest_run;
mod engines;
mod listing;
mod long_frame;
mod progress;
mod read_long_frames;
mod recordings;
mod streams;
mod summary;

pub use earliest_run::check_earliest_run;
pub use engines::{BLOCK, MOST_READS, check_run, show_run};
pub use listing::{Listing, RunFault};
pub use progress::rest;
pub use recordings::recording_laws;
pub use streams::{Failed, FromRead, FromWrite, Sink, Source, write_whole};
pub use summary::{Status, Summary, damage_name};
