//! The places of a conversation's numbers that differ from turn to turn.

/// What is at a place.
#[derive(Clone, Copy)]
pub(crate) enum Number {
    Xid,
    Zxid,
    /// Four digits of a path.
    Digits,
}

/// The place of a number, and that number in the first turn.
#[derive(Clone, Copy)]
pub(crate) struct Place {
    pub(crate) at: usize,
    pub(crate) what: Number,
    pub(crate) first: u64,
}

/// The least xid: all have ten digits, as those of the C client have, which counts from the time on.
pub(crate) const FIRST_XID: u64 = 1_000_000_000;

/// The least zxid, which has ten digits, too.
pub(crate) const FIRST_ZXID: u64 = 4_300_000_000;

/// The number of xids and zxids of a turn.
pub(crate) const STEP: u64 = 16_384;

impl Place {
    /// The number at this place in a turn.
    pub(crate) fn number(self, turn: u64) -> u64 {
        match self.what {
            Number::Xid | Number::Zxid => self.first.wrapping_add(turn.wrapping_mul(STEP)),
            Number::Digits => self.first.wrapping_add(turn.wrapping_mul(7919)) % 10_000,
        }
    }
}

/// Puts `value` in the place of as many bytes.
#[inline(always)]
pub(crate) fn put(bytes: &mut [u8], at: usize, value: &[u8]) {
    let length = bytes.len();
    if at <= length && value.len() <= length - at {
        bytes[at..at + value.len()].copy_from_slice(value);
    }
}

/// The four last digits of a number, in ASCII.
pub(crate) fn four_digits(number: u64) -> [u8; 4] {
    let digit = |unit: u64| b'0' + (number / unit % 10) as u8;
    [digit(1000), digit(100), digit(10), digit(1)]
}

/// Writes the numbers of a turn into the bytes of frames.
pub(crate) fn number_frames(bytes: &mut [u8], places: &[Place], turn: u64) {
    for place in places {
        let number = place.number(turn);
        match place.what {
            Number::Xid => {
                let [_, _, _, _, a, b, c, d] = number.to_be_bytes();
                put(bytes, place.at, &[a, b, c, d]);
            }
            Number::Zxid => put(bytes, place.at, &number.to_be_bytes()),
            Number::Digits => put(bytes, place.at, &four_digits(number)),
        }
    }
}

/// Writes the numbers of a turn into lines.
pub(crate) fn number_lines(bytes: &mut [u8], places: &[Place], turn: u64) {
    for place in places {
        let number = place.number(turn);
        match place.what {
            Number::Xid | Number::Zxid => {
                put(bytes, place.at, &four_digits(number / 1_000_000));
                put(
                    bytes,
                    place.at.saturating_add(2),
                    &four_digits(number / 10_000),
                );
                put(bytes, place.at.saturating_add(6), &four_digits(number));
            }
            Number::Digits => put(bytes, place.at, &four_digits(number)),
        }
    }
}
