//! The laws of the shortest reference: each is the contract of a function that does nothing.
#![tactic(auto, using(crate::proofs::RelativizedLawLemmas::laws))]

ghost use Rattle.std.specs.Prelude.{◌≡◌, ◌≢◌, ◌≤◌, length, is_some, true, Some, None};
ghost use Rattle.iref_grammar.specs.{CharTests, Text, ReferenceValue, is_readable, is_reference, read_reference, spell};
ghost use Rattle.iref_grammar.specs.{Resolution.{resolved}, Key.{AreAlike}, Relativized.{relativized}};
ghost use Rattle.iref_grammar.specs.{RelativizedTests.{leading_candidates, shortest}, RelativizedChoice.{chosen}};
ghost use Rattle.iref_grammar.specs.RelativizedLaws.{AreReadable, LeadsExactly, IsNotLonger};

/// From the base, the answer leads to the target's text, character for character; so does what is
/// read from the answer's text, and what it leads to is equal to the target.
pub fn shortest_reference_leads_to_the_text()
    ensures value { (target base r : ReferenceValue) → relativized target base ≡ Some r
        → LeadsExactly base r target }
    ensures read { (set : CharTests) (target base r : ReferenceValue)
        → AreReadable set target base → relativized target base ≡ Some r
        → LeadsExactly base (read_reference (spell r)) target }
    ensures equal { (set : CharTests) (target base r : ReferenceValue)
        → AreReadable set target base → relativized target base ≡ Some r
        → AreAlike (resolved base r) target }
{}

/// The answer is readable, and so it is read back from its text.
pub fn shortest_reference_is_readable()
    ensures test { (set : CharTests) (target base r : ReferenceValue)
        → is_readable set target ≡ true → relativized target base ≡ Some r
        → is_readable set r ≡ true }
    ensures read_back { (set : CharTests) (target base r : ReferenceValue)
        → AreReadable set target base → relativized target base ≡ Some r
        → read_reference (spell r) ≡ r }
{}

/// Where there is no answer, no reference leads to the target's text.
pub fn no_reference_leads_where_there_is_no_answer()
    ensures value { (set : CharTests) (target base s : ReferenceValue)
        → AreReadable set target base → relativized target base ≡ None
        → is_readable set s ≡ true → spell (resolved base s) ≢ spell target }
    ensures text { (set : CharTests) (target base : ReferenceValue) (text : Text)
        → AreReadable set target base → relativized target base ≡ None
        → is_reference set text ≡ true
        → spell (resolved base (read_reference text)) ≢ spell target }
{}

/// Each reference that leads to the target's text has at least as many bytes of UTF-8 as the answer.
pub fn no_reference_is_shorter_than_the_answer()
    ensures value { (set : CharTests) (target base r s : ReferenceValue)
        → AreReadable set target base → relativized target base ≡ Some r
        → is_readable set s ≡ true → LeadsExactly base s target → IsNotLonger r s }
    ensures text { (set : CharTests) (target base r : ReferenceValue) (text : Text)
        → AreReadable set target base → relativized target base ≡ Some r
        → is_reference set text ≡ true → LeadsExactly base (read_reference text) target
        → length (spell r) ≤ length text }
{}

/// There is an answer where some reference leads to the target's text, as where the target resolves
/// to itself.
pub fn some_reference_leads_where_there_is_an_answer()
    ensures some { (set : CharTests) (target base s : ReferenceValue)
        → AreReadable set target base → is_readable set s ≡ true → LeadsExactly base s target
        → is_some (relativized target base) ≡ true }
    ensures itself { (set : CharTests) (target base : ReferenceValue)
        → AreReadable set target base → LeadsExactly base target target
        → is_some (relativized target base) ≡ true }
{}

/// Tests of both paths tell which candidates lead to the text of a target with a scheme, so the
/// answer is found without resolution.
pub fn answer_is_the_shortest_that_passes_tests()
    ensures { (set : CharTests) (target base : ReferenceValue) → AreReadable set target base
        → is_some target.scheme ≡ true
        → relativized target base ≡ shortest (leading_candidates target base) }
{}

/// Of most candidates it is known which is the shorter, so few are compared.
pub fn answer_is_chosen_by_tests()
    ensures { (set : CharTests) (target base : ReferenceValue) → AreReadable set target base
        → is_some target.scheme ≡ true → relativized target base ≡ chosen target base }
{}
