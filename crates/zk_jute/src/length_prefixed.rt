//! Runs: a length, and as many bytes; texts and blobs are runs.
ghost use Rattle.std.specs.Prelude.{◌≡◌, ◌+◌, ◌<◌, ◌≤◌, ◌^◌, ◌++◌, length, option_copied, Ok, IsOk, IfOk, OnOk, OnErr, IfSome, MatchOption};
ghost use Rattle.zk_jute.specs.{Item.ACount, Item.HasBytes, Item.HasLength, Item.item_bytes, Item.run_bytes, Reading.Tells};
ghost use Rattle.zk_jute.specs.Reading as reading;

use crate::fault::{ItemFault, Reason};
use crate::number::{int_at, int_of};
use crate::output::Output;
use crate::utf8::is_text;
use simdutf8::compat::from_utf8;

/// The length or count at `place` of `src`, `None` for null, which is -1, and the place after it.
///
/// # Errors
///
/// `Short` if the payload ends within it, `BadLength` if it is below -1.
#[inline(always)]
pub fn size_at(src: &[u8], place: usize) -> Result<(Option<usize>, usize), ItemFault>
    requires { place ≤ length src.now }
    ensures exact { Tells (λ x. x) result (reading.size_at src.now place) }
    ensures within { IfOk result (λ x. (x.1 ≡ place + 4) × (x.1 ≤ length src.now)) }
{
    let (number, after) = int_at(src, place)?;
    match number {
        -1 => Ok((None, after)),
        0.. => Ok((Some(number as usize), after)),
        _ => Err(ItemFault::at(place, Reason::BadLength)),
    }
}

/// The length or count that is known to be at `place` of `src`, `None` for null, and the place after it.
#[inline(always)]
pub(crate) fn known_size(src: &[u8], place: usize) -> (Option<usize>, usize)
    requires place { place ≤ length src.now }
    requires known { IsOk (reading.size_at src.now place) }
    ensures exact { reading.size_at src.now place ≡ Ok result }
    ensures within { (result.1 ≡ place + 4) × (result.1 ≤ length src.now) }
{
    let number = int_of(src, place);
    let size = if number < 0 {
        None
    } else {
        Some(number as usize)
    };
    (size, place + 4)
}

/// The bytes of the run at `place` of `src`, `None` for null, and the place after them.
#[inline(always)]
pub(crate) fn run_at(src: &[u8], place: usize) -> Result<(Option<&[u8]>, usize), ItemFault>
    requires { place ≤ length src.now }
    ensures exact { Tells (λ x. (option_copied x.0, x.1)) result (reading.run_at src.now place) }
    ensures within { IfOk result (λ x. (x.1 ≤ length src.now) × IfSome x.0 (λ b. x.1 ≡ place + 4 + length b.now)) }
{
    let (size, after) = size_at(src, place)?;
    let Some(size) = size else {
        return Ok((None, after));
    };
    let rest = &src[after..];
    if rest.len() < size {
        return Err(ItemFault::at(place, Reason::Short));
    }
    Ok((Some(&rest[..size]), after + size))
}

/// The bytes of the run that is known to be at `place` of `src`, `None` for null, and the place after them.
#[inline(always)]
pub(crate) fn known_run(src: &[u8], place: usize) -> (Option<&[u8]>, usize)
    requires place { place ≤ length src.now }
    requires known { IsOk (reading.run_at src.now place) }
    ensures exact { reading.run_at src.now place ≡ Ok (option_copied result.0, result.1) }
    ensures within { result.1 ≤ length src.now }
{
    let (size, after) = known_size(src, place);
    let Some(size) = size else {
        return (None, after);
    };
    let rest = &src[after..];
    (Some(&rest[..size]), after + size)
}

/// The text of the run at `place` of `src`, `None` for null, and the place after it.
#[tactic(auto, using(crate::proofs::Primitives::whole_text, crate::proofs::Primitives::ascii_text))]
#[inline(always)]
pub(crate) fn text_at(src: &[u8], place: usize) -> Result<(Option<&str>, usize), ItemFault>
    requires { place ≤ length src.now }
    ensures exact { Tells (λ x. (option_copied x.0, x.1)) result (reading.text_at src.now place) }
    ensures within { IfOk result (λ x. x.1 ≤ length src.now) }
{
    let (bytes, after) = run_at(src, place)?;
    let Some(bytes) = bytes else {
        return Ok((None, after));
    };
    if is_text(bytes) {
        return Ok((Some(unsafe { std::str::from_utf8_unchecked(bytes) }), after));
    }
    match from_utf8(bytes) {
        Ok(text) => Ok((Some(text), after)),
        Err(e) => Err(ItemFault::at(place + 4 + e.valid_up_to(), Reason::BadText)),
    }
}

/// The text of the run that is known to be at `place` of `src`, `None` for null, and the place after it.
#[tactic(auto, using(crate::proofs::Primitives::ascii_text))]
#[inline(always)]
pub(crate) fn known_text(src: &[u8], place: usize) -> (Option<&str>, usize)
    requires place { place ≤ length src.now }
    requires known { IsOk (reading.text_at src.now place) }
    ensures exact { reading.text_at src.now place ≡ Ok (option_copied result.0, result.1) }
    ensures within { result.1 ≤ length src.now }
{
    let (bytes, after) = known_run(src, place);
    match bytes {
        None => (None, after),
        Some(bytes) => (Some(unsafe { std::str::from_utf8_unchecked(bytes) }), after),
    }
}

/// The four bytes of a length or a count, -1 for null; `None` where no int can say it.
fn count_bytes(count: Option<usize>) -> Option<[u8; 4]>
    ensures { MatchOption result (HasBytes (ACount count) → ⊥) (λ bytes. HasBytes (ACount count) × (bytes ≡ item_bytes (ACount count))) }
{
    match count {
        None => Some((-1i32).to_be_bytes()),
        Some(count) => Some(i32::try_from(count).ok()?.to_be_bytes()),
    }
}

/// Writes a length or a count to `out`, -1 for null.
pub(crate) fn put_count<O: Output>(out: &mut O, count: Option<usize>) -> Result<(), O::Error>
    ensures ok { OnOk result (HasBytes (ACount count) × O.takes out.old (item_bytes (ACount count)) out.new) }
    ensures err { OnErr result (HasBytes (ACount count) → O.stops out.old (item_bytes (ACount count)) out.new) }
{
    match count_bytes(count) {
        None => Err(out.refuse()),
        Some(bytes) => out.take(&bytes),
    }
}

/// Writes a length and the bytes to `out`, or null.
pub(crate) fn put_run<O: Output>(out: &mut O, bytes: Option<&[u8]>) -> Result<(), O::Error>
    ensures ok { OnOk result (HasLength (option_copied bytes.entry) × O.takes out.old (run_bytes (option_copied bytes.entry)) out.new) }
    ensures err { OnErr result (HasLength (option_copied bytes.entry) → O.stops out.old (run_bytes (option_copied bytes.entry)) out.new) }
{
    match bytes {
        None => put_count(out, None),
        Some(bytes) => {
            put_count(out, Some(bytes.len()))?;
            out.take(bytes)
        }
    }
}
