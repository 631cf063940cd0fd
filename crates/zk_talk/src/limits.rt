//! `Limits`: the limits of a conversation, and its profile.
ghost use Rattle.std.specs.Prelude.{◌≡◌, ◌↔◌, IsSome, IfSome};
ghost use Rattle.zk_records.specs.declared.profile.Profile.TheVariants.{V34};
ghost use Rattle.zk_talk.specs.Ranges.{AreLimits};

use zk_records::Profile;

/// The longest payload of each side in bytes (ZooKeeper's `jute.maxbuffer`); the greatest weight of the requests that
/// wait for their replies, each of which weighs 1, and 1 more for each part of a multi; and the profile, of which each
/// request's operation is.
#[derive(Clone, Copy, Debug, PartialEq, Eq)]
pub struct Limits {
    pub client: u32,
    pub server: u32,
    pub waiting: u32,
    pub profile: Profile,
    pub ghost in_range: { AreLimits client server waiting },
}

impl Limits {
    /// The longest payloads of the `client` and the `server`, 64 to 16,777,216 bytes each, and the greatest weight `waiting`, 1
    /// to 1,048,576, under profile 3.4; `None` if one is out of range.
    pub fn new(client: u32, server: u32, waiting: u32) -> Option<Limits>
        ensures when { IsSome result ↔ AreLimits client server waiting }
        ensures value { IfSome result (λ l. (l.client ≡ client) × (l.server ≡ server) × (l.waiting ≡ waiting) × (l.profile ≡ V34)) }
    {
        let frames = 64..=16_777_216;
        if frames.contains(&client)
            && frames.contains(&server)
            && (1..=1_048_576).contains(&waiting)
        {
            Some(Limits {
                client,
                server,
                waiting,
                profile: Profile::V34,
            })
        } else {
            None
        }
    }

    /// The same numbers under `profile`.
    pub fn with_profile(self, profile: Profile) -> Limits
        ensures numbers { (result.client ≡ self.client) × (result.server ≡ self.server) × (result.waiting ≡ self.waiting) }
        ensures profile { result.profile ≡ profile }
    {
        Limits {
            client: self.client,
            server: self.server,
            waiting: self.waiting,
            profile,
        }
    }

    /// The longest payload of the client, in bytes; ZooKeeper's server has `jute.maxbuffer` for it.
    pub fn client(&self) -> u32
        ensures { result ≡ self.now.client }
    {
        self.client
    }

    /// The longest payload of the server, in bytes.
    pub fn server(&self) -> u32
        ensures { result ≡ self.now.server }
    {
        self.server
    }

    /// The greatest weight of the requests that wait: 1 each, and 1 more for each part of a multi.
    pub fn waiting(&self) -> u32
        ensures { result ≡ self.now.waiting }
    {
        self.waiting
    }

    /// Which operations a request may have.
    pub fn profile(&self) -> Profile
        ensures { result ≡ self.now.profile }
    {
        self.profile
    }
}
