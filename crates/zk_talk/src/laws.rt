//! The laws of histories: a history is good or has a fault, and one alone, whatever is read of it.
ghost use Rattle.std.specs.Prelude.{◌≡◌, ◌<◌, ◌⊎◌, ◌++◌};
ghost use Rattle.std.specs.List.{AllByRecursion};
ghost use Rattle.zk_talk.specs.{declared.limits.Limits.Limits, declared.message.Fault.Fault, History.History, Good.IsGood, Good.Spelt, Good.AreSpeltAlike, Good.HasOneOrder, Fault.IsFaultOf};

/// A history of bytes is good or has a fault, and never both; it has one conversation, one order of its messages and
/// one fault at most. The function does nothing.
pub fn history_laws()
    // It spells one conversation, with one beginning of a frame after each side's last whole frame.
    ensures conversation { (limits : Limits) (h : History) (a b : Spelt limits h) → AreSpeltAlike a b }
    // Its messages have one order.
    ensures order { (limits : Limits) (h : History) (a : Spelt limits h) → HasOneOrder limits h a.conversation }
    // It has one fault.
    ensures fault { (limits : Limits) (h : History) (fault other : Fault) → IsFaultOf limits h fault → IsFaultOf limits h other → fault ≡ other }
    // If it has a fault, it spells no conversation.
    ensures never_both { (limits : Limits) (h : History) (fault : Fault) → IsFaultOf limits h fault → IsGood limits h → ⊥ }
    // The fault stays, whatever follows it.
    ensures decided { (limits : Limits) (h rest : History) (fault : Fault) → IsFaultOf limits h fault → IsFaultOf limits (h ++ rest) fault }
    // A history of bytes is good or has a fault.
    ensures decides { (limits : Limits) (h : History) → AllByRecursion (λ x. x.1 < 256) h → IsGood limits h ⊎ ((fault : Fault) × IsFaultOf limits h fault) }
{}
