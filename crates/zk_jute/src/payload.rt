//! A payload that is a value, and then nothing or one boolean: those that open a connection.
//!
//! Old peers leave the boolean out (`ClientCnxnSocket.readConnectResult` of ZooKeeper 3.4).
ghost use Rattle.std.specs.Prelude.{◌≡◌, ◌≢◌, ◌≤◌, Option, Bool, length, Ok, IfOk, IfErr};
ghost use Rattle.zk_jute.specs.{declared.fault.Reason.TheVariants.NoMemory, Item.bytes_of, Item.HaveBytes, Layout.IsValueOf, Told.StandsAt, Told.IsReadAs, Told.IsToldFault, Told.IsTold, Told.HasSureFault, Told.IsSurelyTold};
ghost use Rattle.zk_jute.specs.Flagged.{flag_items, flagged, IsFlaggedFault, OneIsFlagged};

use crate::ends::Ends;
use crate::fault::{ItemFault, Reason};
use crate::output::Output;
use crate::read_at::read_ref;
use crate::view::View;
use crate::wire::{Spell, Wire};
use std::alloc::Global;

impl Spell for Option<bool> {
    ghost items = { flag_items };

    fn put<O: Output>(&self, out: &mut O) -> Result<(), O::Error> {
        match self {
            None => Ok(()),
            Some(flag) => flag.put(out),
        }
    }
}

/// The value that was read at the beginning of `payload`, and the boolean after it, if there is one.
#[tactic(auto, using(crate::proofs::Flagged::refusals))]
fn with_flag<T: Ends>(
    payload: &[u8],
    read: Result<(T, usize), ItemFault>,
) -> Result<(T, Option<bool>), ItemFault>
    requires found { IfOk read (λ x. IsValueOf T.wired.layout (T.wired.items x.0) × StandsAt (T.wired.items x.0) payload.now 0 x.1) }
    requires fault { IfErr read (IsToldFault (IsValueOf T.wired.layout) payload.now 0) }
    requires within { IfOk read (λ x. x.1 ≤ length payload.now) }
    ensures found { IfOk result (λ x. HaveBytes (flagged T.wired x.0 x.1) × (payload.now ≡ bytes_of (flagged T.wired x.0 x.1))) }
    ensures fault { IfErr result (λ e. IsTold (IsFlaggedFault T.wired.layout payload.now) e) }
    ensures plain { IfErr read (HasSureFault (IsValueOf T.wired.layout) payload.now 0) → IfErr result (λ e. e.reason ≢ NoMemory) }
{
    let (value, place) = read?;
    let end = payload.len();
    if place == end {
        return Ok((value, None));
    }
    let (flag, place) = read_ref::<bool>(payload, place)?;
    if place < end {
        return Err(ItemFault::at(place, Reason::Trailing));
    }
    Ok((value, Some(flag)))
}

/// The value that `payload` is, and the boolean after it, if there is one.
///
/// # Errors
///
/// The first fault of the value or of the boolean; `Trailing` at bytes after the boolean; `NoMemory` if it is refused.
pub fn read_flagged<T: Wire>(alloc: Global, payload: &[u8]) -> Result<(T, Option<bool>), ItemFault>
    // What is read is the whole payload.
    ensures found { IfOk result (λ x. HaveBytes (flagged T.wired x.0 x.1) × (payload.now ≡ bytes_of (flagged T.wired x.0 x.1))) }
    // What has the form is read, unless memory is refused.
    ensures only { (x : T) (flag : Option Bool) → HaveBytes (flagged T.wired x flag) → payload.now ≡ bytes_of (flagged T.wired x flag) → IsReadAs (x, flag) result }
    // Else the first case that applies is reported, unless memory is refused.
    ensures fault { IfErr result (λ e. IsTold (IsFlaggedFault T.wired.layout payload.now) e) }
{
    with_flag(payload, T::read(alloc, payload, 0))
}

/// The value that `payload` is, and the boolean after it, borrowed; errors as those of `read_flagged` but `NoMemory`.
pub fn scan_flagged<'a, T: View<'a>>(payload: &'a [u8]) -> Result<(T, Option<bool>), ItemFault>
    // What is read is the whole payload.
    ensures found { IfOk result (λ x. HaveBytes (flagged T.wired x.0 x.1) × (payload.now ≡ bytes_of (flagged T.wired x.0 x.1))) }
    // What has the form is read.
    ensures only { (x : T) (flag : Option Bool) → HaveBytes (flagged T.wired x flag) → payload.now ≡ bytes_of (flagged T.wired x flag) → result ≡ Ok (x, flag) }
    // Else the first case that applies is reported.
    ensures fault { IfErr result (IsSurelyTold (IsFlaggedFault T.wired.layout payload.now)) }
{
    with_flag(payload, read_ref::<T>(payload, 0))
}

/// The value that `payload` is known to be, and the boolean after it, borrowed.
pub fn known_flagged<'a, T: View<'a>>(payload: &'a [u8]) -> (T, Option<bool>)
    requires { OneIsFlagged T.wired payload.now }
    ensures { (x : T) (flag : Option Bool) → HaveBytes (flagged T.wired x flag) → payload.now ≡ bytes_of (flagged T.wired x flag) → result ≡ (x, flag) }
{
    let (value, place) = T::view(payload, 0);
    if place == payload.len() {
        return (value, None);
    }
    let (flag, _) = bool::view(payload, place);
    (value, Some(flag))
}
