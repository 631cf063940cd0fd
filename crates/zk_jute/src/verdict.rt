//! `Verdict`: what a judge returns of a payload that it refuses, the fault or nothing.
ghost use Rattle.std.specs.Prelude.{◌≡◌, Option, Some, None, IfSome};
ghost use Rattle.zk_jute.specs.{declared.fault.ItemFault.ItemFault, Reading.told_place, Verdict.Says, Verdict.Keeps, Verdict.KeepsPlace};

use crate::fault::{ItemFault, Reason};

/// What a judge returns of a payload that it refuses. `ItemFault` is the fault; `Undecided` says nothing, and costs nothing.
pub trait Verdict: Sized + Drop {
    /// The fault that is reported; `None`: nothing is said.
    ghost tells: { Self → Option ItemFault };

    /// The verdict on a payload that has `fault`.
    fn of(fault: ItemFault) -> Self
        ensures { Says tells (λ e. e ≡ fault) result };

    /// The verdict that says nothing; `None` if each reports a fault.
    fn silent() -> Option<Self>
        ensures { IfSome result (λ v. tells v ≡ None) };

    /// The verdict on a payload that has a fault at `place`.
    #[inline]
    final fn at(place: usize, reason: Reason) -> Self
        ensures { Says tells (λ e. e ≡ record { place = told_place place; reason = reason }) result }
    {
        Self::of(ItemFault::at(place, reason))
    }

    /// The result of reading, its fault as a verdict.
    #[inline]
    final fn on<T: Drop>(answer: Result<T, ItemFault>) -> Result<T, Self>
        ensures { Keeps tells result answer }
    {
        match answer {
            Ok(x) => Ok(x),
            Err(fault) => Err(Self::of(fault)),
        }
    }

    /// The place after a value that was read, or the fault of reading as a verdict.
    #[inline]
    final fn behind<T: Drop>(answer: Result<(T, usize), ItemFault>) -> Result<usize, Self>
        ensures { KeepsPlace tells result answer }
    {
        match answer {
            Ok((_, end)) => Ok(end),
            Err(fault) => Err(Self::of(fault)),
        }
    }
}

impl Verdict for ItemFault {
    ghost tells = { λ e. Some e };

    #[inline(always)]
    fn of(fault: ItemFault) -> Self {
        fault
    }

    #[inline(always)]
    fn silent() -> Option<Self> {
        None
    }
}

/// No fault is reported: the payload may have a fault or none.
#[derive(Drop)]
pub struct Undecided;

impl Verdict for Undecided {
    ghost tells = { λ _. None };

    #[inline(always)]
    fn of(_fault: ItemFault) -> Self {
        Undecided
    }

    #[inline(always)]
    fn silent() -> Option<Self> {
        Some(Undecided)
    }
}
