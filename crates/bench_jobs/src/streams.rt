//! `Streams`: the two byte streams of a turn, and in which order their stretches come.
ghost use Rattle.std.specs.Prelude.{◌≡◌, ◌<◌, ◌^◌, false, None};

use crate::place::{FIRST_XID, Number, Place, number_frames, put};
use crate::script::{GREETING, Script};
use anyhow::{Result, ensure};
use std::alloc::{AllocError, Global};
use std::io::Read;
use zk_runs::{FromRead, FromWrite, build_run};
use zk_talk::{Limits, Side};

/// What a stretch is.
#[derive(Clone, Copy)]
pub(crate) enum Cut {
    /// All that comes of a side before the other one.
    Bursts,
    /// A frame.
    Frames,
}

/// Bytes of one side, from a place of its stream to another.
#[derive(Clone, Copy)]
pub(crate) struct Stretch {
    pub(crate) side: Side,
    from: usize,
    pub(crate) end: usize,
}

/// One side's stream of a turn.
#[derive(Drop)]
pub(crate) struct Stream {
    pub(crate) bytes: Vec<u8>,
    places: Vec<Place>,
}

/// A conversation's first two frames, and the streams of a turn, which is written again and again with other numbers.
#[derive(Drop)]
pub(crate) struct Streams {
    pub(crate) greeting: Vec<u8>,
    pub(crate) welcome: Vec<u8>,
    pub(crate) client: Stream,
    pub(crate) server: Stream,
    pub(crate) stretches: Vec<Stretch>,
}

/// The limits of a program that is given none.
pub(crate) fn limits() -> Result<Limits> {
    match Limits::new(4_194_304, 4_194_304, 65_536) {
        Some(limits) => Ok(limits),
        None => anyhow::bail!("no limits"),
    }
}

fn int_at(bytes: &[u8], at: usize) -> u64 {
    match bytes.get(at..).and_then(|rest| rest.first_chunk::<4>()) {
        Some(four) => u64::from(u32::from_be_bytes(*four)),
        None => 0,
    }
}

fn long_at(bytes: &[u8], at: usize) -> u64 {
    match bytes.get(at..).and_then(|rest| rest.first_chunk::<8>()) {
        Some(eight) => u64::from_be_bytes(*eight),
        None => 0,
    }
}

/// The side, the content and what follows of the piece at the front of `bytes`.
fn split_piece(bytes: &[u8]) -> Option<(Side, &[u8], &[u8])> {
    let (letter, rest) = bytes.split_first()?;
    let side = if *letter == b'C' {
        Side::Client
    } else {
        Side::Server
    };
    let size = int_at(rest, 0) as usize;
    let rest = rest.get(4..)?;
    Some((side, rest.get(..size)?, rest.get(size..)?))
}

impl Stream {
    fn new(alloc: Global) -> Stream {
        Stream {
            bytes: Vec::new(alloc),
            places: Vec::new(alloc),
        }
    }

    fn note(&mut self, what: Number, within: usize, first: u64) -> Result<(), AllocError> {
        let at = self.bytes.len().saturating_add(within);
        self.places.push(Place { at, what, first })?;
        Ok(())
    }

    /// Notes where the xid of a frame is, a reply's zxid, and the digits at the end of a request's path.
    fn add(&mut self, side: Side, frame: &[u8]) -> Result<(), AllocError> {
        let xid = int_at(frame, 4);
        if (FIRST_XID..1 << 31).contains(&xid) {
            self.note(Number::Xid, 4, xid)?;
            match side {
                Side::Server => self.note(Number::Zxid, 8, long_at(frame, 8))?,
                Side::Client => {
                    let end = (int_at(frame, 12) as usize).saturating_add(16);
                    let digits = frame.get(..end).and_then(|front| front.last_chunk::<4>());
                    if let Some(digits) = digits {
                        if int_at(frame, 8) != 14 {
                            self.note(Number::Digits, end.saturating_sub(4), number_of(digits))?;
                        }
                    }
                }
            }
        }
        self.bytes.extend_from_slice(frame)
    }
}

/// The number of four digits.
fn number_of(digits: &[u8; 4]) -> u64 {
    let mut number = 0u64;
    for digit in digits {
        number = number.wrapping_mul(10).wrapping_add(u64::from(digit & 15));
    }
    number
}

impl Streams {
    /// The streams of a script's conversation.
    pub(crate) fn new(alloc: Global, script: &Script, cut: Cut) -> Result<Streams> {
        let lines = GREETING.as_bytes().chain(script.lines.as_bytes());
        let mut reader = FromRead::new(lines);
        let mut recording = Vec::new(alloc);
        let mut writer = FromWrite::new(&mut recording);
        let _built = build_run(alloc, limits()?, &mut reader, &mut writer)?;
        let mut streams = Streams {
            greeting: Vec::new(alloc),
            welcome: Vec::new(alloc),
            client: Stream::new(alloc),
            server: Stream::new(alloc),
            stretches: Vec::new(alloc),
        };
        let mut rest = recording.get(4..).unwrap_or(&[]);
        for number in 0..rest.len() {
            let Some((side, frame, behind)) = split_piece(rest) else {
                break;
            };
            streams.add(number, side, frame, cut)?;
            rest = behind;
        }
        ensure!(rest.is_empty(), "a script's line is refused");
        Ok(streams)
    }

    fn add(&mut self, number: usize, side: Side, frame: &[u8], cut: Cut) -> Result<(), AllocError> {
        if number == 0 {
            return self.greeting.extend_from_slice(frame);
        }
        if number == 1 {
            return self.welcome.extend_from_slice(frame);
        }
        let stream = match side {
            Side::Client => &mut self.client,
            Side::Server => &mut self.server,
        };
        let from = stream.bytes.len();
        stream.add(side, frame)?;
        let end = stream.bytes.len();
        if let (Cut::Bursts, Some(last)) = (cut, self.stretches.last_mut()) {
            if last.side == side {
                last.end = end;
                return Ok(());
            }
        }
        self.stretches.push(Stretch { side, from, end })?;
        Ok(())
    }

    /// Writes the numbers of a turn: also the client's last zxid and the session into the first two frames.
    pub(crate) fn number(&mut self, turn: u64) {
        put(&mut self.greeting, 8, &turn.to_be_bytes());
        put(&mut self.welcome, 12, &turn.to_be_bytes());
        number_frames(&mut self.client.bytes, &self.client.places, turn);
        number_frames(&mut self.server.bytes, &self.server.places, turn);
    }

    /// The bytes of a stretch.
    pub(crate) fn part(&self, stretch: &Stretch) -> &[u8] {
        let stream = self.of(stretch.side);
        stream.get(stretch.from..stretch.end).unwrap_or(&[])
    }

    /// The stream of a side.
    pub(crate) fn of(&self, side: Side) -> &[u8] {
        match side {
            Side::Client => &self.client.bytes,
            Side::Server => &self.server.bytes,
        }
    }
}
