//! `RecordingReader::content` and its like: content whose bytes lie elsewhere.
ghost use Rattle.std.specs.Prelude.{◌≡◌, ◌+◌, ◌^◌, ◌<◌, ◌≤◌, ℕ, List, MatchOption, IfSome, length};
ghost use Rattle.zk_talk.specs.declared.message.Side.{Side as side_of};
ghost use Rattle.zk_recordings.specs.Reading.{IsInContent, IsInNoContent, IsUndamaged, ReadsContent, place_in};

use crate::recording::{RecordingReader, Stage};
use zk_talk::Side;

impl RecordingReader {
    /// The side of the content that the reader is within, and the number of its bytes that are to come; `None` if it is within
    /// none.
    pub fn content(&self) -> Option<(Side, u32)>
        ensures is { MatchOption result (IsInNoContent self.now) (λ c. IsInContent self.now c.0 c.1) }
        ensures some { IfSome result (λ c. 0 < c.1) }
    {
        match self.state.stage {
            Stage::Content { got } => Some((self.state.side, self.state.size - got)),
            Stage::Fixed { .. } => None,
            Stage::Damaged(_) => None,
        }
    }

    /// Takes the next `count` bytes of the content that the reader is within, wherever they lie: at most as many as `content`
    /// returns.
    // Stands for `next` with these bytes.
    pub fn take_content(&mut self, count: u32)
        requires within { (side : side_of) × (left : ℕ) × IsInContent self.old side left × (count ≤ left) }
        requires room { place_in self.old + count < 2 ^ 64 }
        ensures place { place_in self.new ≤ place_in self.old + count }
        ensures reads { (bytes : List ℕ) → length bytes ≡ count → ReadsContent self.old self.old.side bytes self.new }
        ensures still { IsUndamaged self.new }
    {
        if let Stage::Content { got } = self.state.stage {
            if count < self.state.size - got {
                self.state.grow(got + count);
            } else {
                self.state.end_piece();
            }
        }
    }

    /// The number of bytes of the newest piece whose head is read; 0 before the first.
    pub fn piece_size(&self) -> u32
        ensures { result ≡ self.now.size }
    {
        self.state.size
    }
}
