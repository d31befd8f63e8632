//! Laws of references: each is the contract of a function that does nothing.
#![tactic(auto)]

ghost use Rattle.std.specs.Prelude.{◌≡◌, ◌↔◌, IsSome, option_map, true};
ghost use Rattle.iref_grammar.specs.{Characters.{uri_chars}, Rules.{Text, AcceptsExactly, InUtf8}};
ghost use Rattle.iref_grammar.specs.{Grammar.{IsUri, IsUriReference}, Authority.{spell_authority}};
ghost use Rattle.iref_grammar.specs.{ComponentOffsets.{offsets_of, text_at}, PathValue.{spell_path}};
ghost use Rattle.iref_grammar.specs.Reference.{ReferenceValue, IsReadable, IsReadAsReference, is_uri};
ghost use Rattle.iref_grammar.specs.Reference.{is_readable, spell, read_reference, is_reference};
ghost use Rattle.iref_grammar.specs.Readings.{HasOneReading};
ghost use Rattle.iref_grammar.specs.ComponentTexts.{ComponentTexts, AreComponents, read_components};

use crate::chars::CharSet;

/// The tests decide the rules `URI` and `URI-reference`, and what it is to be readable.
pub fn reference_grammar<S: CharSet>()
    ensures uri { AcceptsExactly (is_uri S.tests) (IsUri S.tests) }
    ensures reference { AcceptsExactly (is_reference S.tests) (IsUriReference S.tests) }
    ensures readable { (r : ReferenceValue) → (is_readable S.tests r ≡ true)
        ↔ IsReadable S.tests r }
{}

/// A text has one reading: the components that are read from it spell it, no other readable
/// reference does, and this one is readable where the text is in the grammar.
pub fn reference_reading<S: CharSet>()
    ensures reading { HasOneReading spell read_reference (IsReadable S.tests) }
    ensures computed { (text : Text) (r : ReferenceValue) → IsReadAsReference S.tests text r
        ↔ ((is_reference S.tests text ≡ true) × (read_reference text ≡ r)) }
{}

/// A text is in the grammar exactly if a readable reference spells it, and a URI exactly if one
/// with a scheme does.
pub fn references_spelled<S: CharSet>()
    ensures reference { (bytes : Text) → InUtf8 (IsUriReference S.tests) bytes
        ↔ ((r : ReferenceValue) × IsReadable S.tests r × (spell r ≡ bytes)) }
    ensures uri { (bytes : Text) → InUtf8 (IsUri S.tests) bytes
        ↔ ((r : ReferenceValue) × IsReadable S.tests r × IsSome r.scheme × (spell r ≡ bytes)) }
{}

/// Each component that is read from a text is at its offsets in it.
pub fn offsets_hold_the_components()
    ensures scheme { (text : Text)
        → option_map (text_at text) (offsets_of text).scheme ≡ (read_reference text).scheme }
    ensures authority { (text : Text)
        → option_map (text_at text) (offsets_of text).authority
        ≡ option_map spell_authority (read_reference text).authority }
    ensures path { (text : Text)
        → text_at text (offsets_of text).path ≡ spell_path (read_reference text).path }
    ensures query { (text : Text)
        → option_map (text_at text) (offsets_of text).query ≡ (read_reference text).query }
    ensures fragment { (text : Text)
        → option_map (text_at text) (offsets_of text).fragment ≡ (read_reference text).fragment }
{}

/// What is readable as a URI is so in each grammar, by the same components, and a URI reference is
/// in each grammar.
pub fn uris_in_each_grammar<S: CharSet>()
    ensures readable { (r : ReferenceValue) → IsReadable uri_chars r → IsReadable S.tests r }
    ensures text { (bytes : Text) → is_reference uri_chars bytes ≡ true
        → is_reference S.tests bytes ≡ true }
{}

/// The path that is read from a text may stand where it does, so a text is a reference exactly if
/// each of its components is in its rule.
pub fn components_tested<S: CharSet>()
    ensures { (text : Text) (s : ComponentTexts) → read_components s ≡ read_reference text
        → (is_reference S.tests text ≡ true) ↔ AreComponents S.tests s }
{}
