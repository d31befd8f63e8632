//! Laws of faults: each is the contract of a function that does nothing.
#![tactic(auto, using(crate::proofs::FaultLemmas::laws))]

ghost use Rattle.std.specs.Prelude.{◌≡◌, ◌↔◌, ℕ, ◌≤◌, length, take, drop, true, false, Some, None, map};
ghost use Rattle.std.specs.{Str.{is_utf8, IsValidUpTo}, List.{AllByRecursion}};
ghost use Rattle.iref_grammar.specs.{Text, InUtf8, IsUri, IsUriReference, IsAuthority, is_authority, is_reference};
ghost use Rattle.iref_grammar.specs.{read_authority, read_reference};
ghost use Rattle.iref_fault.specs.Places.{PartRule, is_bare, rule_of, IsPlaceIn};
ghost use Rattle.iref_fault.specs.Cut.{authority_pieces, pieces_of, has_cut_scheme};
ghost use Rattle.iref_fault.specs.Faults.{FaultValue, fault_of_part, fault_of_authority};
ghost use Rattle.iref_fault.specs.Faults.{fault_of_reference, fault_of_uri, not_utf8, no_scheme};
ghost use Rattle.iref_fault.specs.FirstFault.{IsFirstFault, IsPartFault};
ghost use Rattle.iref_fault.specs.Components.{component_text, authority_components, components_of};

use iref_grammar::chars::CharSet;

/// A single text has no fault exactly if it is in its rule.
pub fn part_without_fault<S: CharSet>()
    ensures { (rule : PartRule) (text : Text) → is_bare rule ≡ false
        → (fault_of_part S.tests rule text ≡ None) ↔ InUtf8 (rule_of S.tests rule) text }
{}

/// A text has no fault exactly if it is in the grammar.
pub fn text_without_fault<S: CharSet>()
    ensures authority { (text : Text)
        → (fault_of_authority S.tests text ≡ None) ↔ InUtf8 (IsAuthority S.tests) text }
    ensures reference { (text : Text)
        → (fault_of_reference S.tests text ≡ None) ↔ InUtf8 (IsUriReference S.tests) text }
    ensures uri { (text : Text)
        → (fault_of_uri S.tests text ≡ None) ↔ InUtf8 (IsUri S.tests) text }
{}

/// The fault of a single text has the one place where the text is outside its rule.
pub fn part_fault<S: CharSet>()
    ensures fault { (rule : PartRule) (text : Text) (f : FaultValue) → is_bare rule ≡ false
        → is_utf8 text ≡ true
        → (fault_of_part S.tests rule text ≡ Some f) ↔ IsPartFault S.tests rule text f }
    ensures one_place { (rule : PartRule) (text : Text) (m n : ℕ)
        → IsPlaceIn S.tests rule text m → IsPlaceIn S.tests rule text n → m ≡ n }
{}

/// The fault of a text is that of its first piece, in the order in which they stand, that is
/// outside its rule.
pub fn first_fault<S: CharSet>()
    ensures authority { (text : Text) (f : FaultValue) → is_utf8 text ≡ true
        → (fault_of_authority S.tests text ≡ Some f)
        ↔ IsFirstFault S.tests text (authority_pieces 0 text) f }
    ensures reference { (text : Text) (f : FaultValue) → is_utf8 text ≡ true
        → (fault_of_reference S.tests text ≡ Some f)
        ↔ IsFirstFault S.tests text (pieces_of text) f }
    ensures uri { (text : Text) (f : FaultValue) → is_utf8 text ≡ true
        → has_cut_scheme text ≡ true
        → (fault_of_uri S.tests text ≡ Some f)
        ↔ IsFirstFault S.tests text (pieces_of text) f }
    ensures no_scheme { (text : Text) → is_utf8 text ≡ true → has_cut_scheme text ≡ false
        → fault_of_uri S.tests text ≡ Some no_scheme }
{}

/// Bytes that are not UTF-8 have this fault, whatever else is wrong with them: it stands behind the
/// longest beginning that is UTF-8.
pub fn fault_of_bytes<S: CharSet>()
    ensures part { (rule : PartRule) (text : Text) → is_utf8 text ≡ false
        → fault_of_part S.tests rule text ≡ Some (not_utf8 text) }
    ensures authority { (text : Text) → is_utf8 text ≡ false
        → fault_of_authority S.tests text ≡ Some (not_utf8 text) }
    ensures reference { (text : Text) → is_utf8 text ≡ false
        → fault_of_reference S.tests text ≡ Some (not_utf8 text) }
    ensures uri { (text : Text) → is_utf8 text ≡ false
        → fault_of_uri S.tests text ≡ Some (not_utf8 text) }
    ensures place { (text : Text) → is_utf8 text ≡ false → IsValidUpTo text (not_utf8 text).at }
{}

/// A fault is at a place within the text, and what stands before it is UTF-8.
pub fn fault_within_text<S: CharSet>()
    ensures part { (rule : PartRule) (text : Text) (f : FaultValue) → is_bare rule ≡ false
        → fault_of_part S.tests rule text ≡ Some f
        → (f.at ≤ length text) × (is_utf8 (take f.at text) ≡ true) }
    ensures authority { (text : Text) (f : FaultValue)
        → fault_of_authority S.tests text ≡ Some f
        → (f.at ≤ length text) × (is_utf8 (take f.at text) ≡ true) }
    ensures reference { (text : Text) (f : FaultValue)
        → fault_of_reference S.tests text ≡ Some f
        → (f.at ≤ length text) × (is_utf8 (take f.at text) ≡ true) }
    ensures uri { (text : Text) (f : FaultValue)
        → fault_of_uri S.tests text ≡ Some f
        → (f.at ≤ length text) × (is_utf8 (take f.at text) ≡ true) }
{}

/// Of a text that is UTF-8, no character is found at the fault exactly if the text ends there.
pub fn found_unless_the_text_ends<S: CharSet>()
    ensures part { (rule : PartRule) (text : Text) (f : FaultValue) → is_bare rule ≡ false
        → is_utf8 text ≡ true → fault_of_part S.tests rule text ≡ Some f
        → (f.found ≡ None) ↔ (f.at ≡ length text) }
    ensures authority { (text : Text) (f : FaultValue) → is_utf8 text ≡ true
        → fault_of_authority S.tests text ≡ Some f
        → (f.found ≡ None) ↔ (f.at ≡ length text) }
    ensures reference { (text : Text) (f : FaultValue) → is_utf8 text ≡ true
        → fault_of_reference S.tests text ≡ Some f
        → (f.found ≡ None) ↔ (f.at ≡ length text) }
    ensures uri { (text : Text) (f : FaultValue) → is_utf8 text ≡ true
        → has_cut_scheme text ≡ true → fault_of_uri S.tests text ≡ Some f
        → (f.found ≡ None) ↔ (f.at ≡ length text) }
{}

/// Each piece of a text stands where it says.
pub fn pieces_stand_in_the_text()
    ensures authority { (text : Text) → is_utf8 text ≡ true
        → AllByRecursion (λ p. take (length p.text) (drop p.start text) ≡ p.text)
        (authority_pieces 0 text) }
    ensures reference { (text : Text) → is_utf8 text ≡ true
        → AllByRecursion (λ p. take (length p.text) (drop p.start text) ≡ p.text)
        (pieces_of text) }
{}

/// On a text of the grammar the cut gives the components that are read from it.
pub fn cut_of_the_grammar<S: CharSet>()
    ensures authority { (start : ℕ) (text : Text) → is_authority S.tests text ≡ true
        → map component_text (authority_pieces start text)
        ≡ authority_components (read_authority text) }
    ensures reference { (text : Text) → is_reference S.tests text ≡ true
        → map component_text (pieces_of text) ≡ components_of (read_reference text) }
{}
