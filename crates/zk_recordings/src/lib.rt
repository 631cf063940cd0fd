//! Recordings of a conversation, of two formats, ZKR1 and ZKR2, read block by block.
//!
//! A recording is a head and pieces; a piece is some bytes of one side, as they came, after the side's letter, their time
//! (ZKR2) and their number. `Format` and `Part` are the table of the parts whose width is fixed: a further format adds
//! rows there.
//!
//! `RecordingReader::next` is the main call: it takes the first bytes of a block of any size and returns how many it
//! took, and the side whose content they are, if they are content. `next_piece` takes a piece at once, head and content,
//! if a block begins with it whole, as two calls of `next` would. Within a content, `content` says how many bytes are to
//! come, and `take_content` takes bytes that lie elsewhere. `limits` returns the limits of the head, `damage` the
//! first damage, `finish` the damage of a recording that ends here. Any bytes are one recording, which may be damaged.
//!
//! Nothing is allocated. The crate rests on `zk_talk` for sides and limits, and on `zk_records` for profiles.
//! docs/FORMATS.md has the bytes.
//!
//! ```text
//! let mut reader = RecordingReader::new();
//! let run = reader.next(b"Z"); // the first run.used bytes are taken: content of run.side, or of neither
//! assert!(rt; run.used == 1 && run.side.is_none());
//! assert!(rt; reader.damage().is_none() && reader.finish().is_some()); // no recording ends here
//! ```
//!
//! # Choices
//!
//! **A recording is a grammar by its spelling.** The fixed parts of both formats are rows of one table: width, good
//! values, and the damage of a bad or cut one. A further format adds rows, not cases.
//!
//! **The head of a piece is read at once if a block begins with it whole** (`head_in`); else byte by byte, which finds
//! the damage.
#![tactic(auto)]

mod content;
mod heads;
mod parts;
mod recording;

pub use heads::WholePiece;
pub use parts::{Damage, DamageAt, Format, ZKR1};
pub use recording::{RecordingReader, Run};
