//! `Output`: where a value's bytes go, memory or a count of them.
ghost use Rattle.std.specs.Prelude.{◌≡◌, ℕ, ◌++◌, List, [], OnOk, OnErr};
ghost use Rattle.zk_jute.specs.Item.{Keeps};
ghost use Rattle.zk_jute.specs.Outputs.{Appends, Uses, Lacks, appends_nothing, appends_both, keeps_front, uses_nothing, uses_both, lacks_first, lacks_later};

use std::alloc::AllocError;

/// What takes bytes, as `OutputArchive` of ZooKeeper's jute does.
pub trait Output: Sized {
    /// Why bytes are refused.
    type Error: Drop;

    /// The state after it took the bytes.
    ghost takes: { Self → List ℕ → Self → Type 0 };

    /// The state after it was given the bytes and did not take all of them.
    ghost stops: { Self → List ℕ → Self → Type 0 };

    /// Takes the bytes.
    fn take(&mut self, bytes: &[u8]) -> Result<(), Self::Error>
        ensures ok { OnOk result (takes self.old bytes.now self.new) }
        ensures err { OnErr result (stops self.old bytes.now self.new) };

    /// The error for a value that has no bytes: one with a run of 2 GiB or more.
    fn refuse(&self) -> Self::Error;

    ghost takes_nothing: { (a : Self) → takes a [] a };

    ghost takes_both: { (a b c : Self) (x y : List ℕ) → takes a x b → takes b y c → takes a (x ++ y) c };

    ghost stops_first: { (a b : Self) (x y : List ℕ) → stops a x b → stops a (x ++ y) b };

    ghost stops_later: { (a b c : Self) (x y : List ℕ) → takes a x b → stops b y c → stops a (x ++ y) c };
}

impl Output for Vec<u8> {
    type Error = AllocError;

    ghost takes = { λ a x b. Appends a.items x b.items };

    ghost stops = { λ a _ b. Keeps a.items b.items };

    fn take(&mut self, bytes: &[u8]) -> Result<(), AllocError> {
        self.extend_from_slice(bytes)
    }

    fn refuse(&self) -> AllocError {
        AllocError
    }

    ghost takes_nothing = { λ a. appends_nothing a.items };

    ghost takes_both = { λ a b c x y p q. appends_both a.items b.items c.items x y p q };

    ghost stops_first = { λ _ _ _ _ p. p };

    ghost stops_later = { λ a b c x _ p q. keeps_front a.items b.items c.items x p q };
}

/// A limit that bytes are counted against; none is kept.
#[derive(Drop)]
pub(crate) struct Room {
    /// The number of bytes that may still come.
    pub left: u32,
}

/// More bytes came than the limit allows.
#[derive(Drop)]
pub(crate) struct Full;

impl Output for Room {
    type Error = Full;

    ghost takes = { λ a x b. Uses a.left x b.left };

    ghost stops = { λ a x _. Lacks a.left x };

    fn take(&mut self, bytes: &[u8]) -> Result<(), Full> {
        if bytes.len() > self.left as usize {
            return Err(Full);
        }
        self.left -= bytes.len() as u32;
        Ok(())
    }

    fn refuse(&self) -> Full {
        Full
    }

    ghost takes_nothing = { λ a. uses_nothing a.left };

    ghost takes_both = { λ a b c x y p q. uses_both a.left b.left c.left x y p q };

    ghost stops_first = { λ a _ x y p. lacks_first a.left x y p };

    ghost stops_later = { λ a b _ x y p q. lacks_later a.left b.left x y p q };
}
