//! `Sizes`: the set of lengths that a value can have.
ghost use Rattle.std.specs.Prelude.{◌≡◌, ℕ, ◌↔◌, ◌<◌, ◌≤◌, ◌+◌, ◌*◌, ◌^◌, IsTrue, Some, None, MatchOption};
ghost use Rattle.zk_earliest.specs.{Runs.repeated, Sizes.IsAmong, Sizes.IsPast, Sizes.plus, Sizes.min_gap};

/// The lengths that a value can have: `least`, and, if there is a gap, every number from `least + gap` on.
#[derive(Clone, Copy)]
pub(crate) struct Sizes {
    pub(crate) least: usize,
    pub(crate) gap: Option<usize>,
}

fn min_gap(a: Option<usize>, b: Option<usize>) -> Option<usize>
    ensures { result ≡ min_gap a b }
{
    match a {
        None => b,
        Some(g) => match b {
            None => Some(g),
            Some(h) => Some(g.min(h)),
        },
    }
}

impl Sizes {
    /// Just this length.
    pub(crate) fn only(length: usize) -> Sizes
        ensures { result ≡ record { least = length; gap = None } }
    {
        Sizes {
            least: length,
            gap: None,
        }
    }

    /// The lengths of a value of the one kind and then one of the other.
    pub(crate) fn plus(self, other: Sizes) -> Sizes
        requires { self.least + other.least < 2 ^ 32 }
        ensures { result ≡ plus self other }
    {
        Sizes {
            least: self.least + other.least,
            gap: min_gap(self.gap, other.gap),
        }
    }

    /// Whether `length` is one of the lengths.
    pub(crate) fn has(self, length: usize) -> bool
        ensures { IsTrue result ↔ IsAmong self length }
    {
        if length == self.least {
            return true;
        }
        match self.gap {
            None => false,
            Some(gap) => length >= self.least && length - self.least >= gap,
        }
    }

    /// How far `length` is past `least + gap`; `None` if there is no gap, or it is below.
    pub(crate) fn past(self, length: usize) -> Option<usize>
        requires { self.least ≤ length }
        ensures { IsPast self length result }
    {
        match self.gap {
            None => None,
            Some(gap) => (length - self.least).checked_sub(gap),
        }
    }

    /// The lengths of `count` values, each of which has any length from `least` on.
    pub(crate) fn repeated(least: usize, count: usize) -> Sizes
        requires { count * least < 2 ^ 32 }
        ensures { result ≡ repeated least count }
    {
        if count == 0 {
            return Sizes::only(0);
        }
        Sizes {
            least: count * least,
            gap: Some(0),
        }
    }
}
