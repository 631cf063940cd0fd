//! Which lengths and counts are possible in a given number of bytes.
ghost use Rattle.std.specs.Prelude.{◌≡◌, ℕ, ◌+◌, ◌-◌, ◌<◌, ◌≤◌, ◌^◌, ◌↔◌, length};
ghost use Rattle.zk_earliest.specs.{declared.sizes.Sizes.Sizes, Numbers.IsOne, Numbers.IsNumberAt, Runs.MayRun, Runs.MayCount, Runs.list_sizes, Runs.of_free, Sizes.IsAmong, Sizes.plus};

use crate::possible_lengths::{Numbers, front};
use crate::sizes::Sizes;

/// The possible lengths of a run with `room` bytes after its length, if what follows the run has a length in `behind`.
pub(crate) fn lengths(room: usize, behind: Sizes) -> Numbers
    requires frame { room < 2 ^ 31 }
    requires least { behind.least ≤ room }
    ensures some { result.from ≤ result.to }
    ensures value { (n : ℕ) → IsOne result n ↔ MayRun behind room n }
{
    let spare = room - behind.least;
    match behind.past(room) {
        Some(most) => Numbers {
            null: true,
            from: 0,
            to: most as u32,
            also: spare as u32,
        },
        None => Numbers {
            null: spare == 0,
            from: spare as u32,
            to: spare as u32,
            also: spare as u32,
        },
    }
}

/// The number in the four bytes at `place`, if it is one of `numbers`; else the first byte that none of them has.
pub(crate) fn number_at(src: &[u8], place: usize, numbers: Numbers) -> Result<u32, usize>
    requires within { place + 4 ≤ length src.now }
    requires some { numbers.from ≤ numbers.to }
    ensures { IsNumberAt numbers src.now place result }
{
    let number = u32::from_be_bytes([src[place], src[place + 1], src[place + 2], src[place + 3]]);
    match front(number, numbers) {
        None => Ok(number),
        Some(known) => Err(place + known),
    }
}

/// The least count of a list: 0 if what follows can be all of the bytes that are left.
fn least_count(free: bool) -> u32
    ensures { result ≡ of_free free }
{
    if free { 0 } else { 1 }
}

/// The possible counts of a list with `room` bytes after its count, if each element has any number of bytes from `least`
/// on, and what follows the list has a length in `behind`.
pub(crate) fn counts(room: usize, least: usize, behind: Sizes) -> Numbers
    requires frame { room < 2 ^ 31 }
    requires some { 0 < least }
    requires among { IsAmong (plus (list_sizes least) behind) (room + 4) }
    ensures some { result.from ≤ result.to }
    ensures value { (n : ℕ) → IsOne result n ↔ MayCount least behind room n }
{
    let free = behind.has(room);
    let most = ((room - behind.least) / least) as u32;
    Numbers {
        null: free,
        from: least_count(free),
        to: most,
        also: most,
    }
}
