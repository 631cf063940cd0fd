//! The law of the first impossible byte.
ghost use Rattle.std.specs.Prelude.{◌≡◌, ℕ, List, Option};
ghost use Rattle.zk_earliest.specs.Earliest.{IsEarliestOf};
ghost use Rattle.zk_answers.specs.declared.layout.Layout.{Layout as Kind};

/// Bytes have one answer. The function does nothing.
#[tactic(auto, using(crate::proofs::Determined::one_answer))]
pub fn earliest_law()
    ensures { (layout : Kind) (bytes : List ℕ) (a b : Option ℕ) → IsEarliestOf layout bytes a → IsEarliestOf layout bytes b → a ≡ b }
{}
