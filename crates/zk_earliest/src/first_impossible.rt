//! `Stretch`, a value of which the first impossible byte can be found; and `longest`, which finds it.
ghost use Rattle.std.specs.Prelude.{◌≡◌, ◌≤◌, ◌<◌, ◌-◌, ◌^◌, length};
ghost use Rattle.zk_jute.specs.Layout.{IsValueOf};
ghost use Rattle.zk_earliest.specs.{declared.sizes.Sizes.Sizes, Sizes.IsAmong, Sizes.IsElastic, Sizes.AreSizes, Sizes.plus, Earliest.Spells, Earliest.IsEarliest, Stops.Reaches, Stops.then_among};

use crate::sizes::Sizes;
use zk_jute::Ends;

/// A kind of value of which the first impossible byte can be found.
pub(crate) trait Stretch: Ends {
    /// The lengths of its values.
    ghost sizes: { Sizes };

    fn sizes() -> Sizes
        requires { sizes.least < 2 ^ 32 }
        ensures value { result ≡ sizes }
        ensures are_sizes { AreSizes (Spells (IsValueOf Self.wired.layout)) sizes };

    /// The place after the value at `place`, if there is one that leaves a number of bytes in `behind`; else the first
    /// byte that no such value has there.
    fn reach(src: &[u8], place: usize, behind: Sizes) -> Result<usize, usize>
        requires place { place ≤ length src.now }
        requires frame { length src.now < 2 ^ 31 }
        requires room { IsAmong (plus sizes behind) (length src.now - place) }
        ensures { Reaches (Spells (IsValueOf Self.wired.layout)) (then_among behind) src.now place result };
}

/// A kind of value that can have any number of bytes from its least on, which is not 0.
pub(crate) trait Elastic: Stretch {
    ghost elastic: { IsElastic Self.sizes };
}

/// The number of bytes at the front that a value of just as many bytes can begin with; `None` if there is no such value.
pub(crate) fn longest<T: Stretch>(bytes: &[u8]) -> Option<usize>
    requires frame { length bytes.now < 2 ^ 31 }
    requires least { T.sizes.least < 2 ^ 32 }
    ensures { IsEarliest (Spells (IsValueOf T.wired.layout)) bytes.now result }
{
    let nothing = Sizes {
        least: 0,
        gap: None,
    };
    if !T::sizes().has(bytes.len()) {
        return None;
    }
    match T::reach(bytes, 0, nothing) {
        Ok(end) => Some(end),
        Err(stuck) => Some(stuck),
    }
}
