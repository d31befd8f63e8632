//! Laws of canonical texts: each is the contract of a function that does nothing.

ghost use Rattle.std.specs.{Prelude.{◌≡◌, ◌↔◌, true, is_some}, List.{list_all}, Char.{is_ascii}};
ghost use Rattle.iref_grammar.specs.{Characters.{uri_chars}, Rules.{Text, InUtf8}, Grammar.{IsUri, IsUriReference}};
ghost use Rattle.iref_grammar.specs.Reference.{ReferenceValue, IsReadable, read_reference, is_reference, is_uri};
ghost use Rattle.iref_grammar.specs.{Key.{AreAlike, key}, Mapping.{mapped}};
ghost use Rattle.iref_canonical.specs.Canonical.{canonical, canonical_text};

use iref_grammar::chars::CharSet;

/// The canonical reference of a readable reference is readable as a URI reference, and has a scheme
/// exactly if that has one. Its text is ASCII, and is read as it.
pub fn canonical_is_readable<S: CharSet>()
    ensures readable { (r : ReferenceValue) → IsReadable S.tests r
        → IsReadable uri_chars (canonical (key r)) }
    ensures scheme { (r : ReferenceValue) → is_some (canonical (key r)).scheme ≡ is_some r.scheme }
    ensures ascii { (r : ReferenceValue) → IsReadable S.tests r
        → list_all is_ascii (canonical_text (key r)) ≡ true }
    ensures read { (r : ReferenceValue) → IsReadable S.tests r
        → read_reference (canonical_text (key r)) ≡ canonical (key r) }
{}

/// The canonical text of an IRI reference is a URI reference, and that of an IRI a URI. It is read
/// as the canonical reference.
pub fn canonical_texts_are_uris<S: CharSet>()
    ensures reference { (bytes : Text) → InUtf8 (IsUriReference S.tests) bytes
        → InUtf8 (IsUriReference uri_chars) (canonical_text (key (read_reference bytes))) }
    ensures full { (bytes : Text) → InUtf8 (IsUri S.tests) bytes
        → InUtf8 (IsUri uri_chars) (canonical_text (key (read_reference bytes))) }
    ensures reference_tested { (text : Text) → is_reference S.tests text ≡ true
        → is_reference uri_chars (canonical_text (key (read_reference text))) ≡ true }
    ensures full_tested { (text : Text) → is_uri S.tests text ≡ true
        → is_uri uri_chars (canonical_text (key (read_reference text))) ≡ true }
    ensures read { (bytes : Text) → InUtf8 (IsUriReference S.tests) bytes
        → read_reference (canonical_text (key (read_reference bytes)))
        ≡ canonical (key (read_reference bytes)) }
{}

/// The key of a canonical reference is the key that it was made of, and so is that of its text.
#[tactic(auto, using(crate::proofs::CanonicalTextLemmas::key_kept, crate::proofs::CanonicalTextLemmas::text_keeps_key))]
pub fn canonical_keeps_the_key<S: CharSet>()
    ensures value { (r : ReferenceValue) → IsReadable S.tests r
        → key (canonical (key r)) ≡ key r }
    ensures text { (bytes : Text) → InUtf8 (IsUriReference S.tests) bytes
        → key (read_reference (canonical_text (key (read_reference bytes))))
        ≡ key (read_reference bytes) }
{}

/// Two references have the same canonical text exactly if they are equal, also a URI and an IRI.
pub fn canonical_texts_are_the_same_where_keys_are<S: CharSet, T: CharSet>()
    ensures { (r s : ReferenceValue) → IsReadable S.tests r → IsReadable T.tests s
        → (canonical_text (key r) ≡ canonical_text (key s)) ↔ AreAlike r s }
{}

/// What is canonical stays so: its canonical reference is it, and its canonical text its text.
#[tactic(auto, using(crate::proofs::CanonicalTextLemmas::again))]
pub fn canonical_again_changes_nothing<S: CharSet>()
    ensures value { (r : ReferenceValue) → IsReadable S.tests r
        → canonical (key (canonical (key r))) ≡ canonical (key r) }
    ensures text { (bytes : Text) → InUtf8 (IsUriReference S.tests) bytes
        → canonical_text (key (read_reference (canonical_text (key (read_reference bytes)))))
        ≡ canonical_text (key (read_reference bytes)) }
{}

/// An IRI reference and its mapping have one canonical text.
#[tactic(auto, using(crate::proofs::CanonicalTextLemmas::text_of_mapping))]
pub fn mapping_keeps_the_canonical_text<S: CharSet>()
    ensures { (bytes : Text) → InUtf8 (IsUriReference S.tests) bytes
        → canonical_text (key (read_reference (mapped bytes)))
        ≡ canonical_text (key (read_reference bytes)) }
{}
