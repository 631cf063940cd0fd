//! The laws of recordings: any bytes are one recording, with one summary.
ghost use Rattle.std.specs.Prelude.{◌≡◌, ◌<◌, ℕ, List, ◌++◌};
ghost use Rattle.std.specs.List.{AllByRecursion};
ghost use Rattle.zk_talk.specs.declared.limits.Limits.{Limits};
ghost use Rattle.zk_listings.specs.Outcome.{IsDecided, ComesToSome, HasOneOutcome, KeepsOutcome};
ghost use Rattle.zk_recordings.specs.Recording.{Recording, Spells};

/// Any bytes are one recording, and it has one outcome.
pub fn recording_laws()
    // Any bytes are a recording.
    ensures any { (x : List ℕ) → (r : Recording) × Spells x r }
    // They are no other.
    ensures once { (x : List ℕ) (r s : Recording) → Spells x r → Spells x s → s ≡ r }
    // It has the same messages and the same summary.
    ensures outcome { (limits : Limits) (r : Recording) → HasOneOutcome limits r }
    // What the first bytes decide stays, whatever follows them.
    ensures decided { (limits : Limits) (x more : List ℕ) (r s : Recording) → Spells x r → Spells (x ++ more) s → IsDecided limits x r → KeepsOutcome limits r s }
    // It has some messages and a summary.
    ensures comes { (limits : Limits) (x : List ℕ) (r : Recording) → AllByRecursion (λ b. b < 256) x → Spells x r → ComesToSome limits r }
{}
