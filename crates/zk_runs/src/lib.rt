//! The commands of the program over a source and sinks: listing, checking, building, migrating, and the command line.
//!
//! `run_words` is the whole program: it reads the words of a command line, does what they say over a `Source` and two
//! `Sink`s, and returns the exit status. `settings` reads the words; `run_settings` does what they say.
//!
//! - `build_run` reads the lines of messages and writes their recording; it is the way back from `show_run`.
//! - `migrate_run` reads a recording of either format and writes it in the second.
//! - `show_run`, `check_run` and `check_earliest_run` are those of `zk_listings`, named again here, with sources, sinks,
//!   statuses and faults: a caller of the program needs this crate alone.
//!
//! The contracts say what was written of what was read, also when a run fails; the laws say that a listing is built into
//! the recording that it lists, and that a migrated recording is listed as it was.
//!
//! The crate rests on `zk_listings`, `zk_recordings`, `zk_lines`, `zk_items`, `zk_talk`, `zk_frames`, `zk_records`,
//! `clap`, `memchr` and `thiserror`.
//!
//! ```text
//! let mut reader = FromRead::new(b"ZKR1".as_slice());
//! let status = run_words(rt.alloc(), words, &mut reader, &mut writer, &mut faults);
//! assert!(rt; status == 0);
//! ```
//!
//! # Choices
//!
//! **`build` judges a line once it is whole**, so its memory is a line and the pieces of the lines that end in one block.
//! These are put into one buffer, which is written once the block is taken, also where a line in it is refused or memory
//! is. A line's payload is read into its place there. Only where that is undecided, as for a line that is refused, the
//! line's message is made. A line is copied only where it goes on from one block to the next. A builder's contract holds
//! for every list of lines that it may have taken, so its calls compose.
//!
//! **`migrate` puts what it writes into one buffer**: what a block made whole, which is written before the next read,
//! and then the piece that is begun, which is copied to a second buffer once the first is written. A piece without a
//! time gets it with its first byte. If memory runs out within a block, its pieces are not written.
//!
//! **`Limits::new` judges the numbers of the command line**, so a number out of range cannot reach a command. Words
//! that the system cannot give as texts `main` refuses by itself (`refuse`). These are three crates and not one, so
//! each is proved beside others, and its edits are tried while the crates above are proved.
#![tactic(auto)]

mod build_lines;
mod build_result;
mod builder;
mod laws;
mod migrate;
mod options;
mod piece;
mod run;
mod words;

pub use build_lines::build_run;
pub use build_result::Built;
pub use laws::{
    begun_is_a_front, built_is_listed, built_once, listing_is_built, migrated_is_listed,
};
pub use migrate::{Migrated, migrate_run};
pub use options::{Command, Settings, UsageFault};
pub use run::{refuse, run_settings, run_words};
pub use words::settings;
pub use zk_listings::{
    Failed, FromRead, FromWrite, RunFault, Sink, Source, Status, check_earliest_run, check_run,
    show_run,
};
pub use zk_recordings::Damage;
