//! `Spell`, what is written as bytes; `Wire`, what is read and written alike; and their laws.
//!
//! They follow `BinaryInputArchive` and `BinaryOutputArchive` of ZooKeeper's jute.
ghost use Rattle.std.specs.Prelude.{◌≡◌, ℕ, ◌≤◌, ◌<◌, ◌++◌, List, length, Ok, IsOk, IfOk, IfErr, IsTrue, OnOk, OnErr};
ghost use Rattle.zk_jute.specs.{Faults.IsFault, Item.Item, Item.bytes_of, Item.HaveBytes, Item.Fit, Item.IsSizeWithin, Layout.IsValueOf, Layout.takes_none, Reading.Fails, Reading.Gives, Reading.items_at};
ghost use Rattle.zk_jute.specs.{Told.StandsAt, Told.IsReadAs, Told.IsToldFault, Told.HasSureFault, Once.HaveOneFault, Once.IsReadFirst, Once.BeginAlike};

use crate::ends::Ends;
use crate::fault::ItemFault;
use crate::output::{Full, Output, Room};
use std::alloc::{AllocError, Global};

/// What is written as bytes: a value of jute, references to values, and pairs of these.
pub trait Spell {
    /// The items that it unfolds into.
    ghost items: { Self → List Item };

    /// Writes the value's bytes to `out`, field by field.
    fn put<O: Output>(&self, out: &mut O) -> Result<(), O::Error>
        ensures ok { OnOk result (HaveBytes (items self.now) × O.takes out.old (bytes_of (items self.now)) out.new) }
        ensures err { OnErr result (HaveBytes (items self.now) → O.stops out.old (bytes_of (items self.now)) out.new) };

    /// Appends the value's bytes to `out`.
    ///
    /// # Errors
    ///
    /// `AllocError` if memory is refused; then `out` is unchanged.
    final fn write(&self, out: &mut Vec<u8>) -> Result<(), AllocError>
        requires { Fit 2147483647 (items self.now) }
        ensures ok { OnOk result (out.new.items ≡ out.old.items ++ bytes_of (items self.now)) }
        ensures err { OnErr result (out.new.items ≡ out.old.items) }
    {
        let start = out.len();
        if let Err(e) = self.put(out) {
            out.truncate(start);
            return Err(e);
        }
        Ok(())
    }

    /// The number of the value's bytes; `None` if it has no bytes, or more than `limit`.
    final fn size_within(&self, limit: u32) -> Option<u32>
        ensures { IsSizeWithin limit (items self.now) result }
    {
        let mut room = Room { left: limit };
        match self.put(&mut room) {
            Ok(()) => Some(limit - room.left),
            Err(Full) => None,
        }
    }
}

/// A value of jute: a primitive, a list or a record; what is written of it is what is read.
pub trait Wire: Spell + Ends {
    /// The step of `read` that each impl writes: a copy of the value that is known to be at `place` of `src`, and the
    /// place after it.
    fn copied(alloc: Global, src: &[u8], place: usize) -> Result<(Self, usize), AllocError>
        requires place { place ≤ length src.now }
        requires known { IsOk (items_at Self.wired.layout src.now place) }
        ensures exact { IfOk result (λ x. items_at Self.wired.layout src.now place ≡ Ok (Self.wired.items x.0, x.1)) }
        ensures plain { IsTrue (takes_none Self.wired.layout) → IsOk result }
        ensures within { IfOk result (λ x. x.1 ≤ length src.now) };

    /// What is written of a value is its items.
    ghost written: { Self.Spell.items ≡ Self.wired.items };

    /// The value at `place` of `src`, and the place after it.
    ///
    /// # Errors
    ///
    /// The first fault from the left, its place counted from the beginning of `src`; `NoMemory`.
    final fn read(alloc: Global, src: &[u8], place: usize) -> Result<(Self, usize), ItemFault>
        requires { place ≤ length src.now }
        // What is read is there, each byte of it.
        ensures found { IfOk result (λ x. IsValueOf Self.wired.layout (Self.wired.items x.0) × StandsAt (Self.wired.items x.0) src.now place x.1) }
        // What is there is read, unless memory is refused.
        ensures only { (x : Self) (end : ℕ) → HaveBytes (Self.wired.items x) → StandsAt (Self.wired.items x) src.now place end → IsReadAs (x, end) result }
        // Nothing is there where a fault is returned, and the items fix which one it is.
        ensures fault { IfErr result (λ e. IsToldFault (IsValueOf Self.wired.layout) src.now place e) }
        // Numbers, booleans and records of these never allocate.
        ensures plain { IsTrue (takes_none Self.wired.layout) → IfErr result (HasSureFault (IsValueOf Self.wired.layout) src.now place) }
        ensures within { IfOk result (λ x. x.1 ≤ length src.now) }
    {
        copy_at(alloc, src, place)
    }
}

/// The value at `place` of `src`, judged and then copied, and the place after it.
#[tactic(auto, using(crate::proofs::Fields::refuses_fails, crate::proofs::Fields::refuses_memory))]
fn copy_at<T: Wire>(alloc: Global, src: &[u8], place: usize) -> Result<(T, usize), ItemFault>
    requires { place ≤ length src.now }
    ensures exact { Gives (λ x. (T.wired.items x.0, x.1)) result (items_at T.wired.layout src.now place) }
    ensures plain { IsTrue (takes_none T.wired.layout) → IfErr result (λ e. Fails e (items_at T.wired.layout src.now place)) }
    ensures within { IfOk result (λ x. x.1 ≤ length src.now) }
{
    T::find::<ItemFault>(src, place)?;
    Ok(T::copied(alloc, src, place)?)
}

/// The laws of each type's values as bytes; the function does nothing.
pub fn laws<T: Wire>()
    // What is written of a value is the items that are read.
    ensures written { (x : T) → T.items x ≡ T.wired.items x }
    // The bytes of a value are read again, whatever follows them.
    ensures again { (x : T) (more : List ℕ) → HaveBytes (T.items x) → IsReadFirst T.wired.layout (T.items x) (bytes_of (T.items x) ++ more) }
    // No two values' bytes are at one place, so those of no value begin those of another.
    ensures only { (x y : T) (more others : List ℕ) → BeginAlike (T.items x) more (T.items y) others → (x ≡ y) × (more ≡ others) }
    // Bytes that are those of no value have one fault.
    ensures fault { HaveOneFault (IsFault (IsValueOf T.wired.layout)) }
    // Each value has a byte.
    ensures byte { (x : T) → 0 < length (bytes_of (T.items x)) }
{}
