//! `Format`, `Part`, `Damage`: the parts of recordings whose width is fixed, row by row.
ghost use Rattle.std.specs.Prelude.{◌≡◌, length, take};
ghost use Rattle.zk_recordings.specs.Parts as parts;

use zk_records::Profile;

/// Why a recording ends before its bytes do, or in the middle of a piece.
#[derive(Clone, Copy, Debug, PartialEq, Eq)]
pub enum Damage {
    /// It doesn't begin with the letters of a format.
    BadHead,
    /// A number of the head is out of range.
    BadLimits,
    /// A byte that is the letter of no side.
    BadSide,
    /// A time below 0.
    BadTime,
    /// A number of bytes that no piece may have.
    BadSize,
    /// It ends within a number, a time or a content.
    Short,
}

/// The first damage of a recording, and its place in it.
#[derive(Clone, Copy, Debug, PartialEq, Eq)]
pub struct DamageAt {
    /// The offset in bytes from the beginning of the recording.
    pub offset: u64,
    /// What is wrong there.
    pub reason: Damage,
}

/// The formats of recordings.
#[derive(Clone, Copy, Debug, PartialEq, Eq)]
pub enum Format {
    /// Pieces alone.
    Zkr1,
    /// The limits of the conversation, and pieces with their times.
    Zkr2,
}

/// The parts of a recording whose width is fixed.
#[derive(Clone, Copy, Debug, PartialEq, Eq)]
pub enum Part {
    /// The letters that a recording begins with.
    Letters,
    /// An int: the longest payload of the client, in bytes.
    ClientLimit,
    /// An int: the longest payload of the server, in bytes.
    ServerLimit,
    /// An int: the greatest weight of the requests that wait for their replies.
    Waiting,
    /// An int: the number of a profile.
    Profile,
    /// A byte: `C` or `S`.
    SideByte,
    /// A long: milliseconds, 0 or more, counted from any moment and in any order.
    Time,
    /// An int: the number of bytes of content that follow.
    Size,
}

/// The letters of the first format.
pub const ZKR1: [u8; 4] = *b"ZKR1";

/// The bytes of a part, which come first; what follows them is 0 or of no account.
pub type Bytes = [u8; 8];

impl Format {
    /// The letters that a recording of the format begins with.
    pub fn letters(self) -> [u8; 4]
        ensures { result ≡ parts.letters self }
    {
        match self {
            Format::Zkr1 => ZKR1,
            Format::Zkr2 => *b"ZKR2",
        }
    }
}

/// The first four bytes.
pub fn word(bytes: Bytes) -> [u8; 4]
    ensures { result ≡ take 4 bytes }
{
    let [a, b, c, d, ..] = bytes;
    [a, b, c, d]
}

/// The number that the first four bytes spell, big-endian.
pub fn number(bytes: Bytes) -> u32
    ensures { result ≡ parts.number (take 4 bytes) }
{
    u32::from_be_bytes(word(bytes))
}

fn is_within(least: u32, most: u32, n: u32) -> bool
    ensures { result ≡ parts.is_within least most n }
{
    least <= n && n <= most
}

impl Part {
    /// The number of bytes of the part.
    pub fn width(self) -> usize
        ensures { result ≡ parts.width self }
    {
        match self {
            Part::SideByte => 1,
            Part::Letters
            | Part::ClientLimit
            | Part::ServerLimit
            | Part::Waiting
            | Part::Profile
            | Part::Size => 4,
            Part::Time => 8,
        }
    }

    /// Whether a recording may go on after these bytes of the part.
    pub fn is_good(self, bytes: Bytes) -> bool
        requires { length bytes ≡ 8 }
        ensures { result ≡ parts.is_good self (take (parts.width self) bytes) }
    {
        match self {
            Part::Letters => {
                word(bytes) == Format::Zkr1.letters() || word(bytes) == Format::Zkr2.letters()
            }
            Part::ClientLimit | Part::ServerLimit => is_within(64, 16_777_216, number(bytes)),
            Part::Waiting => is_within(1, 1_048_576, number(bytes)),
            Part::Profile => Profile::of_number(number(bytes)).is_some(),
            Part::SideByte => bytes[0] == b'C' || bytes[0] == b'S',
            Part::Time => u64::from_be_bytes(bytes) < 1 << 63,
            Part::Size => is_within(1, 16_777_220, number(bytes)),
        }
    }

    /// The damage if the part's bytes aren't good.
    pub fn damage_bad(self) -> Damage
        ensures { result ≡ parts.damage_bad self }
    {
        match self {
            Part::Letters => Damage::BadHead,
            Part::ClientLimit | Part::ServerLimit | Part::Waiting | Part::Profile => {
                Damage::BadLimits
            }
            Part::SideByte => Damage::BadSide,
            Part::Time => Damage::BadTime,
            Part::Size => Damage::BadSize,
        }
    }

    /// The damage of a recording that ends before the part does; `None` if it may end there.
    pub fn damage_cut(self) -> Option<Damage>
        ensures { result ≡ parts.damage_cut self }
    {
        match self {
            Part::Letters => Some(Damage::BadHead),
            Part::SideByte => None,
            Part::ClientLimit
            | Part::ServerLimit
            | Part::Waiting
            | Part::Profile
            | Part::Time
            | Part::Size => Some(Damage::Short),
        }
    }
}
