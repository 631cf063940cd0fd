//! The kinds of fields, by number (`ZK_KIND_INT` and so on in the header for C).

/// An int: 4 bytes.
pub const INT: u8 = 1;

/// A long: 8 bytes.
pub const LONG: u8 = 2;

/// A boolean: 1 byte.
pub const BOOLEAN: u8 = 3;

/// A text, jute's `ustring`.
pub const TEXT: u8 = 4;

/// A blob, jute's `buffer`.
pub const BLOB: u8 = 5;

/// A list's count; the fields of its elements come after it.
pub const LIST: u8 = 6;

/// The header of a multi's part or result; the fields of its record come after it.
pub const PART: u8 = 7;
