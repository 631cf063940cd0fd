//! `Feed`: a recording of many turns, or their lines, as a source.
ghost use Rattle.std.specs.Prelude.{◌≡◌, ◌≤◌, None, false, length};

use crate::place::{Place, number_lines};
use crate::random::Random;
use crate::script::{GREETING, Script};
use crate::streams::{Cut, Streams};
use std::alloc::{AllocError, Global};
use zk_runs::{Failed, Source};
use zk_talk::Side;

/// The longest content of a piece: what a proxy reads at once.
const LONGEST: usize = 65_536;

/// The bytes of a piece's head.
const HEAD: usize = 5;

/// What is read piece by piece.
pub(crate) trait Puts {
    /// Puts the next bytes into `room`, which isn't empty, and returns how many; 0 at the end, or if what comes next doesn't fit.
    fn put(&mut self, room: &mut [u8]) -> usize
        ensures { result ≤ length room.new };
}

/// A source of what `from` puts.
#[derive(Drop)]
pub(crate) struct Given<P> {
    from: P,
    reads: u64,
}

impl<P: Puts> Given<P> {
    pub(crate) fn new(from: P) -> Self
        ensures { ⟦<Given<P> as Source>⟧.read_count result ≡ 0 }
    {
        Given { from, reads: 0 }
    }
}

impl<P: Puts> Source for Given<P> {
    ghost remaining = { λ _. None };

    ghost read_count = { λ s. s.reads };

    ghost has_failed = { λ _. false };

    fn read(&mut self, buf: &mut [u8]) -> Result<usize, Failed> {
        let reads = self.reads.saturating_add(1);
        let mut filled = 0;
        for _ in 0..buf.len() {
            if filled >= buf.len() {
                break;
            }
            let count = self.from.put(&mut buf[filled..]);
            if count == 0 {
                break;
            }
            filled += count;
        }
        self.reads = reads;
        Ok(filled.min(buf.len()))
    }

    fn reads(&self) -> u64 {
        self.reads
    }

    fn failed(&self) -> bool {
        false
    }
}

/// A recording: the pieces of a conversation of many turns.
#[derive(Drop)]
pub(crate) struct Feed {
    streams: Streams,
    cut: Cut,
    random: Random,
    opening: Vec<u8>,
    opened: usize,
    turn: u64,
    turns: u64,
    /// The stretch that is being given, and how many bytes of each stream were.
    stretch: usize,
    client: usize,
    server: usize,
    /// What is left of a piece of this side.
    side: Side,
    left: usize,
}

fn letter(side: Side) -> u8 {
    match side {
        Side::Client => b'C',
        Side::Server => b'S',
    }
}

fn head(side: Side, size: usize) -> [u8; HEAD] {
    let [a, b, c, d] = u32::try_from(size).unwrap_or(0).to_be_bytes();
    [letter(side), a, b, c, d]
}

fn opening(alloc: Global, streams: &Streams) -> Result<Vec<u8>, AllocError> {
    let mut opening = Vec::new(alloc);
    opening.extend_from_slice(b"ZKR1")?;
    opening.extend_from_slice(&head(Side::Client, streams.greeting.len()))?;
    opening.extend_from_slice(&streams.greeting)?;
    opening.extend_from_slice(&head(Side::Server, streams.welcome.len()))?;
    opening.extend_from_slice(&streams.welcome)?;
    Ok(opening)
}

/// Copies as many bytes of `from` as fit, and returns how many.
fn copy(from: &[u8], room: &mut [u8]) -> usize
    ensures { result ≤ length room.new }
{
    let count = from.len().min(room.len());
    room[..count].copy_from_slice(&from[..count]);
    count
}

impl Feed {
    /// The recording of `turns` turns of a script's conversation.
    pub(crate) fn new(
        alloc: Global,
        streams: Streams,
        cut: Cut,
        seed: u64,
        turns: u64,
    ) -> Result<Feed, AllocError> {
        let opening = opening(alloc, &streams)?;
        Ok(Feed {
            streams,
            cut,
            random: Random::new(seed),
            opening,
            opened: 0,
            turn: 0,
            turns,
            stretch: 0,
            client: 0,
            server: 0,
            side: Side::Client,
            left: 0,
        })
    }

    /// How many bytes of a side's stream were given.
    fn given(&mut self, side: Side) -> &mut usize {
        match side {
            Side::Client => &mut self.client,
            Side::Server => &mut self.server,
        }
    }

    /// Begins the next piece; false at the end.
    fn begin(&mut self) -> bool {
        for _ in 0..self.streams.stretches.len().saturating_add(1) {
            let Some(stretch) = self.streams.stretches.get(self.stretch).copied() else {
                return self.go_round() && self.begin_first();
            };
            let available = stretch.end.saturating_sub(*self.given(stretch.side));
            if available > 0 {
                self.side = stretch.side;
                self.left = self.size_of(available);
                return true;
            }
            self.stretch = self.stretch.saturating_add(1);
        }
        false
    }

    /// Begins the first piece of a turn.
    fn begin_first(&mut self) -> bool {
        let Some(stretch) = self.streams.stretches.first().copied() else {
            return false;
        };
        self.side = stretch.side;
        self.left = self.size_of(stretch.end);
        self.left > 0
    }

    /// Goes on to the next turn; false at the end.
    fn go_round(&mut self) -> bool {
        self.turn = self.turn.saturating_add(1);
        self.stretch = 0;
        self.client = 0;
        self.server = 0;
        if self.turn < self.turns {
            self.streams.number(self.turn);
        }
        self.turn < self.turns
    }

    /// The size of a piece at the front of `available` bytes.
    fn size_of(&mut self, available: usize) -> usize {
        match self.cut {
            Cut::Frames => available,
            Cut::Bursts => {
                let most = available.min(LONGEST);
                if self.random.below(3) == 0 {
                    (self.random.below(most as u64) as usize).saturating_add(1)
                } else {
                    most
                }
            }
        }
    }
}

impl Puts for Feed {
    fn put(&mut self, room: &mut [u8]) -> usize {
        if let Some(rest) = self.opening.get(self.opened..) {
            if !rest.is_empty() {
                let count = copy(rest, room);
                self.opened = self.opened.saturating_add(count);
                return count;
            }
        }
        if self.left == 0 {
            if self.turn >= self.turns || room.len() < HEAD || !self.begin() {
                return 0;
            }
            return copy(&head(self.side, self.left), room);
        }
        let (side, left) = (self.side, self.left);
        let from = *self.given(side);
        let rest = self.streams.of(side).get(from..).unwrap_or(&[]);
        let count = copy(&rest[..left.min(rest.len())], room);
        *self.given(side) = from.saturating_add(count);
        self.left = left.saturating_sub(count);
        count
    }
}

/// The lines of a conversation of many turns.
#[derive(Drop)]
pub(crate) struct Lines {
    text: Vec<u8>,
    places: Vec<Place>,
    opened: usize,
    at: usize,
    turn: u64,
    turns: u64,
}

impl Lines {
    /// The lines of `turns` turns of a script's conversation.
    pub(crate) fn new(alloc: Global, script: Script, turns: u64) -> Result<Lines, AllocError> {
        let text = Vec::from_slice(alloc, script.lines.as_bytes())?;
        Ok(Lines {
            text,
            places: script.into_places(),
            opened: 0,
            at: 0,
            turn: 0,
            turns,
        })
    }
}

impl Puts for Lines {
    fn put(&mut self, room: &mut [u8]) -> usize {
        if let Some(rest) = GREETING.as_bytes().get(self.opened..) {
            if !rest.is_empty() {
                let count = copy(rest, room);
                self.opened = self.opened.saturating_add(count);
                return count;
            }
        }
        if self.at >= self.text.len() {
            self.turn = self.turn.saturating_add(1);
            if self.turn >= self.turns {
                return 0;
            }
            self.at = 0;
            number_lines(&mut self.text, &self.places, self.turn);
        }
        let count = copy(self.text.get(self.at..).unwrap_or(&[]), room);
        self.at = self.at.saturating_add(count);
        count
    }
}
