//! Laws of the comparison of references: each is the contract of a function that does nothing.
#![tactic(auto, using(crate::proofs::KeyLemmas::laws))]

ghost use Rattle.std.specs.{Prelude.{true, ◌≡◌, ◌↔◌}, Cmp.{IsTotalOrder}, Ordering.{on}};
ghost use Rattle.iref_grammar.specs.Reference.{ReferenceValue};
ghost use Rattle.iref_grammar.specs.Key.{AreAlike, are_alike, key, key_cmp};

/// References are in a total order, that of their keys, and the comparison of two is Equal exactly
/// where their keys are the same.
pub fn references_are_in_total_order()
    ensures total { IsTotalOrder (on key key_cmp) }
    ensures ties { (r s : ReferenceValue) → (are_alike r s ≡ true) ↔ AreAlike r s }
{}
