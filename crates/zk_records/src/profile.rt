//! `Profile`: which operations requests may have.
ghost use Rattle.std.specs.Prelude.{◌≡◌, ◌≢◌, ◌↔◌, MatchOption, IsTrue};
ghost use Rattle.zk_records.specs.Codes.{profile_number, IsSince};

/// The operations of a conversation's requests, by the release of ZooKeeper that brought the last
/// of them (`ZooDefs.OpCode`).
#[derive(Clone, Copy, Debug, PartialEq, Eq)]
pub enum Profile {
    /// Those of ZooKeeper 3.4.
    V34,
    /// Those of 3.4, and `create2`.
    V35,
    /// Those of 3.5, and what came with 3.6 and 3.7; later releases have no others.
    V37,
}

/// The profile that has every operation.
pub const NEWEST: Profile = Profile::V37;

impl Profile {
    /// The number of the profile: its release, without the point.
    pub fn number(self) -> u32
        ensures { result ≡ profile_number self }
    {
        match self {
            Profile::V34 => 34,
            Profile::V35 => 35,
            Profile::V37 => 37,
        }
    }

    /// Whether this is the profile `first`, or a later one.
    pub fn is_since(self, first: Profile) -> bool
        ensures { IsTrue result ↔ IsSince first self }
    {
        match first {
            Profile::V34 => true,
            Profile::V35 | Profile::V37 => first.number() <= self.number(),
        }
    }

    /// The profile whose number is `number`; `None` if there is none.
    pub fn of_number(number: u32) -> Option<Profile>
        ensures { MatchOption result ((profile : Profile) → number ≢ profile_number profile) (λ profile. number ≡ profile_number profile) }
    {
        match number {
            34 => Some(Profile::V34),
            35 => Some(Profile::V35),
            37 => Some(Profile::V37),
            _ => None,
        }
    }
}
