//! `put_head`: the head of a piece that is built.
ghost use Rattle.std.specs.Prelude.{◌≡◌, ◌+◌, ◌^◌, ◌<◌, ◌≤◌, length, take, drop};
ghost use Rattle.zk_recordings.specs.Recording.{side_byte};
ghost use Rattle.zk_runs.specs.Building.{PutsPiece};

use zk_talk::Side;

fn byte_of(side: Side) -> u8
    ensures { result ≡ side_byte side }
{
    match side {
        Side::Client => b'C',
        Side::Server => b'S',
    }
}

/// The number of a piece's bytes, where four bytes hold it.
fn size_of(len: usize) -> u32
    ensures { len < 2 ^ 32 → result ≡ len }
{
    u32::try_from(len).unwrap_or(u32::MAX)
}

/// Puts the side and the size of the piece whose content comes after the five bytes at `start` into these.
fn fill_head(side: Side, start: usize, due: &mut [u8])
    requires { start + 5 ≤ length due.old }
    ensures { PutsPiece side (drop (start + 5) due.old) (take start due.old) due.new }
{
    let size = size_of(due.len() - start - 5);
    due[start..start + 1].copy_from_slice(&[byte_of(side)]);
    due[start + 1..start + 5].copy_from_slice(&size.to_be_bytes());
}

/// Makes the five bytes at `start` the head of the piece whose content comes after them.
pub fn put_head(side: Side, start: usize, due: &mut Vec<u8>)
    requires { start + 5 ≤ length due.old.items }
    ensures { PutsPiece side (drop (start + 5) due.old.items) (take start due.old.items) due.new.items }
{
    fill_head(side, start, due.as_mut_slice());
}
