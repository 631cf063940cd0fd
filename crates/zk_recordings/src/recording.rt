//! `RecordingReader`: reads recordings of both formats, a head, and pieces of either side.
ghost use Rattle.std.specs.Prelude.{◌≡◌, ◌+◌, ◌-◌, ◌^◌, ◌<◌, ◌≤◌, ◌∷◌, ℕ, List, [], true, None, Some, MatchOption, IfSome, IfNone, length, take, drop};
ghost use Rattle.zk_recordings.specs.{declared.parts.DamageAt.DamageAt, declared.parts.Format.TheVariants.Zkr1, declared.parts.Format.TheVariants.Zkr2};
ghost use Rattle.zk_recordings.specs.declared.parts.Part.TheVariants.{Letters, ClientLimit, SideByte, Time, Size};
ghost use Rattle.zk_recordings.specs.Parts as parts;
ghost use Rattle.zk_recordings.specs.{Reader.Content, Reader.state_of, Heads.PassesHead, Pieces.ReadsPiece};
ghost use Rattle.zk_recordings.specs.Recording.{Recording, Breaks, AtLetters, Cut, damage_of, limits_of, place_of, side_byte};
ghost use Rattle.zk_recordings.specs.Reading.{GoesOnFrom, Accepts, IsAt, IsBetweenOf, IsNeverBetween, IsDamagedBy, IsUndamaged, IsHeaded, IsSound, ReadsOn, place_in, then_at};

use crate::heads::{WholePiece, head_in, head_limits, piece_in, profile_of};
use crate::parts::{Bytes, Damage, DamageAt, Format, Part, number, word};
use std::marker::Model;
use zk_talk::{Limits, Side};

/// What the first `used` bytes of a block are: content of `side`, or of neither.
#[derive(Clone, Copy, Debug, PartialEq, Eq)]
pub struct Run {
    /// The number of bytes, which isn't 0.
    pub used: usize,
    /// The side whose content they are; `None` if they are no content.
    pub side: Option<Side>,
}

/// What the reader is in: a part, a content, or what comes after a damage.
#[derive(Clone, Copy)]
pub(crate) enum Stage {
    Fixed {
        part: Part,
        bytes: Bytes,
        got: usize,
    },
    Content {
        got: u32,
    },
    Damaged(DamageAt),
}

/// Where in a recording the reader is, and what it has read of the head and of the piece.
#[derive(Clone, Copy)]
pub(crate) struct State {
    /// The place of the part or content that the reader is in.
    at: u64,
    pub(crate) stage: Stage,
    format: Format,
    client: u32,
    server: u32,
    waiting: u32,
    /// The limits of the head, if it is whole and has them.
    limits: Option<Limits>,
    pub(crate) side: Side,
    pub(crate) size: u32,
}

/// Reads a recording that comes in blocks of any size.
#[derive(Drop)]
pub struct RecordingReader {
    pub(crate) state: State,
}

impl Model for RecordingReader {
    ghost use Rattle.zk_recordings.specs.Reader.{ReaderState, state_of};
    ghost use Rattle.zk_recordings.specs.Reading.{IsSound};

    ghost Value = { ReaderState };

    ghost view = { λ r. state_of r.state };

    ghost invariant = { λ r. IsSound (state_of r.state) };
}

/// The side whose letter `byte` is.
fn side_of(byte: u8) -> Side
    ensures { parts.is_good SideByte (byte ∷ []) ≡ true → side_byte result ≡ byte }
{
    if byte == b'C' {
        Side::Client
    } else {
        Side::Server
    }
}

impl State {
    /// At `part`, after a part of `wide` bytes.
    fn then(self, part: Part, wide: u64) -> State
        requires { self.at + wide < 2 ^ 64 }
        ensures { state_of result ≡ then_at (state_of self) part wide }
    {
        State {
            at: self.at + wide,
            stage: Stage::Fixed {
                part,
                bytes: [0; 8],
                got: 0,
            },
            ..self
        }
    }

    /// After the letters of a format.
    fn headed(self, letters: [u8; 4]) -> State
        requires { self.at + 4 < 2 ^ 64 }
        ensures first { letters ≡ parts.letters Zkr1 → state_of result ≡ then_at (record (state_of self) { format = Zkr1; limits = None }) SideByte 4 }
        ensures second { letters ≡ parts.letters Zkr2 → state_of result ≡ then_at (record (state_of self) { format = Zkr2; limits = None }) ClientLimit 4 }
    {
        if letters == Format::Zkr1.letters() {
            State {
                format: Format::Zkr1,
                limits: None,
                ..self
            }
            .then(Part::SideByte, 4)
        } else {
            State {
                format: Format::Zkr2,
                limits: None,
                ..self
            }
            .then(Part::ClientLimit, 4)
        }
    }

    /// After a side's byte.
    fn sided(self, side: Side) -> State
        requires { self.at + 1 < 2 ^ 64 }
        ensures first { self.format ≡ Zkr1 → state_of result ≡ then_at (record (state_of self) { side = side }) Size 1 }
        ensures second { self.format ≡ Zkr2 → state_of result ≡ then_at (record (state_of self) { side = side }) Time 1 }
    {
        let state = State { side, ..self };
        match self.format {
            Format::Zkr1 => state.then(Part::Size, 1),
            Format::Zkr2 => state.then(Part::Time, 1),
        }
    }

    /// After a good value of `part`.
    fn accept(self, part: Part, bytes: Bytes) -> State
        requires room { self.at + parts.width part < 2 ^ 64 }
        requires eight { length bytes ≡ 8 }
        requires good { parts.is_good part (take (parts.width part) bytes) ≡ true }
        ensures sound { IsSound (state_of result) }
        ensures place { place_in (state_of result) ≤ self.at + parts.width part }
        ensures reads { Accepts (state_of self) part (take (parts.width part) bytes) (state_of result) }
    {
        match part {
            Part::Letters => self.headed(word(bytes)),
            Part::ClientLimit => {
                let client = number(bytes);
                State { client, ..self }.then(Part::ServerLimit, 4)
            }
            Part::ServerLimit => {
                let server = number(bytes);
                State { server, ..self }.then(Part::Waiting, 4)
            }
            Part::Waiting => {
                let waiting = number(bytes);
                State { waiting, ..self }.then(Part::Profile, 4)
            }
            Part::Profile => {
                let profile = profile_of(number(bytes));
                let limits = head_limits(self.client, self.server, self.waiting, profile);
                State { limits, ..self }.then(Part::SideByte, 4)
            }
            Part::SideByte => self.sided(side_of(bytes[0])),
            Part::Time => self.then(Part::Size, 8),
            Part::Size => State {
                at: self.at + 4,
                size: number(bytes),
                stage: Stage::Content { got: 0 },
                ..self
            },
        }
    }

    /// After `byte`, one more byte of `part`.
    fn take_byte(self, part: Part, mut bytes: Bytes, got: usize, byte: u8) -> State
        requires got { got < parts.width part }
        requires eight { length bytes ≡ 8 }
        requires room { self.at + got + 1 < 2 ^ 64 }
        ensures sound { IsSound (state_of result) }
        ensures place { place_in (state_of result) ≤ self.at + got + 1 }
        ensures reads { GoesOnFrom (state_of self) part bytes got (byte ∷ []) (state_of result) }
    {
        bytes[got] = byte;
        if got + 1 < part.width() {
            let got = got + 1;
            let stage = Stage::Fixed { part, bytes, got };
            return State { stage, ..self };
        }
        if part.is_good(bytes) {
            return self.accept(part, bytes);
        }
        let damage = DamageAt {
            offset: self.at,
            reason: part.damage_bad(),
        };
        State {
            stage: Stage::Damaged(damage),
            ..self
        }
    }

    /// Takes the whole head of a piece at the front of `block`, and returns its length; `None`: undecided, and nothing changed.
    // Stands for `take_byte` with each byte of the head. Most pieces come so, with all their content in the block.
    #[inline(always)]
    fn pass_head(&mut self, block: &[u8]) -> Option<usize>
        requires { self.old.at + length block.now < 2 ^ 64 }
        ensures some { IfSome result (λ used. PassesHead (state_of self.old) block.now used (state_of self.new)) }
        ensures none { IfNone result (self.new ≡ self.old) }
    {
        let head = head_in(self.format, block)?;
        self.at += head.used as u64;
        self.stage = Stage::Content { got: 0 };
        self.side = head.side;
        self.size = head.size;
        Some(head.used)
    }

    /// Within `part`: takes the next byte, or the whole head of a piece, and returns the number of bytes that is.
    #[inline(always)]
    fn in_part(&mut self, part: Part, bytes: Bytes, got: usize, block: &[u8]) -> usize
        requires some { 0 < length block.now }
        requires got { got < parts.width part }
        requires eight { length bytes ≡ 8 }
        requires room { self.old.at + got + length block.now < 2 ^ 64 }
        ensures sound { IsSound (state_of self.new) }
        ensures progress { 0 < result }
        ensures used { result ≤ length block.now }
        ensures place { place_in (state_of self.new) ≤ self.old.at + got + result }
        ensures reads { GoesOnFrom (state_of self.old) part bytes got (take result block.now) (state_of self.new) }
    {
        if let Part::SideByte = part {
            if let Some(used) = self.pass_head(block) {
                return used;
            }
        }
        *self = self.take_byte(part, bytes, got, block[0]);
        1
    }

    /// Within a content: takes some of it, so that `got` bytes of it have come.
    #[inline(always)]
    pub(crate) fn grow(&mut self, got: u32)
        ensures { state_of self.new ≡ record (state_of self.old) { stage = Content got } }
    {
        self.stage = Stage::Content { got };
    }

    /// Within a content: takes the last of it.
    #[inline(always)]
    pub(crate) fn end_piece(&mut self)
        requires { self.old.at + self.old.size < 2 ^ 64 }
        ensures { state_of self.new ≡ then_at (state_of self.old) SideByte self.old.size }
    {
        self.at += u64::from(self.size);
        self.stage = Stage::Fixed {
            part: Part::SideByte,
            bytes: [0; 8],
            got: 0,
        };
    }
}

impl RecordingReader {
    /// A reader that has read nothing.
    pub fn new() -> RecordingReader
        ensures start { IsAt result [] (Breaks AtLetters (record { before = []; part = Letters; end = Cut [] })) }
        ensures place { place_in result ≡ 0 }
    {
        RecordingReader {
            state: State {
                at: 0,
                stage: Stage::Fixed {
                    part: Part::Letters,
                    bytes: [0; 8],
                    got: 0,
                },
                format: Format::Zkr1,
                client: 0,
                server: 0,
                waiting: 0,
                limits: None,
                side: Side::Client,
                size: 0,
            },
        }
    }

    /// Takes the first bytes of `block`, which isn't empty, and returns what they are.
    pub fn next(&mut self, block: &[u8]) -> Run
        requires some { 0 < length block.now }
        requires room { place_in self.old + length block.now < 2 ^ 64 }
        ensures progress { 0 < result.used }
        ensures used { result.used ≤ length block.now }
        ensures place { place_in self.new ≤ place_in self.old + result.used }
        ensures reads { (x : List ℕ) (r : Recording) → IsAt self.old x r → ReadsOn self.new x r (take result.used block.now) result.side }
    {
        match self.state.stage {
            Stage::Fixed { part, bytes, got } => {
                let used = self.state.in_part(part, bytes, got, block);
                Run { used, side: None }
            }
            Stage::Content { got } => {
                let side = Some(self.state.side);
                let left = self.state.size - got;
                if block.len() < left as usize {
                    self.state.grow(got + block.len() as u32);
                    let used = block.len();
                    Run { used, side }
                } else {
                    self.state.end_piece();
                    let used = left as usize;
                    Run { used, side }
                }
            }
            Stage::Damaged(_) => Run {
                used: block.len(),
                side: None,
            },
        }
    }

    /// Takes the piece that is whole at the front of `block`, if a head or a piece has just ended; `None`: undecided, and
    /// nothing changed.
    // Stands for two calls of `next`, which take its head and its content.
    #[inline(always)]
    pub fn next_piece(&mut self, block: &[u8]) -> Option<WholePiece>
        requires { place_in self.old + length block.now < 2 ^ 64 }
        ensures none { IfNone result (self.new ≡ self.old) }
        ensures within { IfSome result (λ p. (0 < p.head) × (p.head < p.used) × (p.used ≤ length block.now)) }
        ensures place { IfSome result (λ p. place_in self.new ≤ place_in self.old + p.used) }
        ensures reads { IfSome result (λ p. ReadsPiece self.old (take p.head block.now) (take (p.used - p.head) (drop p.head block.now)) p.side self.new) }
    {
        match self.state.stage {
            Stage::Fixed {
                part: Part::SideByte,
                ..
            } => {
                let piece = piece_in(self.state.format, block)?;
                self.state.at += piece.used as u64;
                Some(piece)
            }
            _ => None,
        }
    }

    /// The limits of the conversation: those of the head if it has them, else `options`.
    pub fn limits(&self, options: Limits) -> Limits
        ensures { (x : List ℕ) (r : Recording) → IsAt self.now x r → IsHeaded (place_of r) → result ≡ limits_of options r }
    {
        self.state.limits.unwrap_or(options)
    }

    /// The format, if a head or a whole piece has just ended; `None` within them.
    pub fn between(&self) -> Option<Format>
        ensures { MatchOption result (IsNeverBetween self.now) (IsBetweenOf self.now) }
    {
        match self.state.stage {
            Stage::Fixed {
                part: Part::SideByte,
                ..
            } => Some(self.state.format),
            _ => None,
        }
    }

    /// The damage so far, which stays whatever follows.
    pub fn damage(&self) -> Option<DamageAt>
        ensures { MatchOption result (IsUndamaged self.now) (IsDamagedBy self.now) }
    {
        match self.state.stage {
            Stage::Damaged(found) => Some(found),
            _ => None,
        }
    }

    /// The damage of the recording if it ends here.
    pub fn finish(&self) -> Option<DamageAt>
        ensures { (x : List ℕ) (r : Recording) → IsAt self.now x r → damage_of r ≡ result }
    {
        let offset = self.state.at;
        match self.state.stage {
            Stage::Fixed { part, .. } => match part.damage_cut() {
                Some(reason) => Some(DamageAt { offset, reason }),
                None => None,
            },
            Stage::Content { .. } => Some(DamageAt {
                offset,
                reason: Damage::Short,
            }),
            Stage::Damaged(damage) => Some(damage),
        }
    }
}
