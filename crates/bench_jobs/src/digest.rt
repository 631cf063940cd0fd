//! `Digest`: a sum over bytes, in whatever pieces they come.
ghost use Rattle.std.specs.Prelude.{◌≡◌, ◌≤◌, ◌+◌, None, false, length};

use zk_runs::{Failed, Sink};

const ROOM: usize = 65_536;

/// The sum of the bytes so far, in blocks of eight, and those that don't make a whole room yet.
#[derive(Drop)]
pub(crate) struct Digest {
    sums: [u64; 4],
    room: [u8; ROOM],
    filled: usize,
    ghost within: { filled ≤ 65536 },
}

/// The sums after some more bytes, eight at a time.
fn added(sums: [u64; 4], bytes: &[u8]) -> [u64; 4] {
    let [mut a, mut b, mut c, mut d] = sums;
    let (blocks, rest) = bytes.as_chunks::<32>();
    for block in blocks {
        let (words, _) = block.as_chunks::<8>();
        if words.len() == 4 {
            a = a.rotate_left(5).wrapping_add(u64::from_le_bytes(words[0]));
            b = b.rotate_left(7).wrapping_add(u64::from_le_bytes(words[1]));
            c = c.rotate_left(11).wrapping_add(u64::from_le_bytes(words[2]));
            d = d.rotate_left(13).wrapping_add(u64::from_le_bytes(words[3]));
        }
    }
    for byte in rest {
        a = a.rotate_left(5).wrapping_add(u64::from(*byte));
    }
    [a, b, c, d]
}

impl Digest {
    pub(crate) fn new() -> Self
        ensures { ⟦<Digest as Sink>⟧.has_failed result ≡ false }
    {
        Digest {
            sums: [1, 2, 3, 4],
            room: [0; ROOM],
            filled: 0,
        }
    }

    /// Adds `bytes`.
    pub(crate) fn add(&mut self, bytes: &[u8]) {
        let mut rest = bytes;
        for _ in 0..bytes.len() {
            if rest.is_empty() {
                return;
            }
            let count = rest.len().min(ROOM - self.filled);
            let (front, behind) = rest.split_at(count);
            self.room[self.filled..self.filled + count].copy_from_slice(front);
            self.filled += count;
            rest = behind;
            if self.filled == ROOM {
                self.sums = added(self.sums, &self.room);
                self.filled = 0;
            }
        }
    }

    /// Adds a number.
    pub(crate) fn add_number(&mut self, number: u64) {
        self.sums[0] = self.sums[0]
            .rotate_left(9)
            .wrapping_add(number)
            .wrapping_mul(0x9e37_79b9_7f4a_7c15);
    }

    /// The sum of all.
    pub(crate) fn sum(&self) -> u64 {
        let [a, b, c, d] = added(self.sums, &self.room[..self.filled]);
        let mut sum = 0u64;
        for part in [a, b, c, d] {
            sum = (sum ^ part)
                .rotate_left(29)
                .wrapping_mul(0xbf58_476d_1ce4_e5b9);
        }
        sum
    }
}

impl Sink for Digest {
    ghost contents = { λ _. None };

    ghost has_failed = { λ _. false };

    fn write(&mut self, bytes: &[u8]) -> Result<usize, Failed> {
        self.add(bytes);
        Ok(bytes.len())
    }

    fn failed(&self) -> bool {
        false
    }
}
