//! Laws of the mapping of IRIs to URIs: each is the contract of a function that does nothing.
#![tactic(auto, using(crate::proofs::MappingLawLemmas::laws))]

ghost use Rattle.std.specs.Prelude.{◌≡◌, ◌↔◌, ℕ, ◌+◌, ◌*◌, ◌<◌, ◌≤◌, ◌++◌, length, take, drop};
ghost use Rattle.std.specs.{Prelude.{slice_index, true, chars}, List.{list_all}, Char.{is_ascii}};
ghost use Rattle.percent_encoding.specs.Percent.{percent_encode};
ghost use Rattle.iref_grammar.specs.{uri_chars, Text, InUtf8, IsUri, IsUriReference, offsets_of, ReferenceValue, spell};
ghost use Rattle.iref_grammar.specs.{IsReadable, read_reference, is_reference, is_uri, PathValue.{PathValue}};
ghost use Rattle.iref_grammar.specs.{NormalList.{normal}, Resolution.{resolved}, Relative.{relative_to}};
ghost use Rattle.iref_grammar.specs.Key.{AreAlike, are_alike, key};
ghost use Rattle.iref_grammar.specs.Mapping.{mapped_byte, mapped, mapped_chars, count_escaped, mapped_reference};
ghost use Rattle.iref_grammar.specs.Mapping.{mapped_index, mapped_offsets, mapped_path};

use crate::chars::CharSet;

/// The mapping of an IRI reference is a URI reference, and that of an IRI a URI.
pub fn mapped_iris_are_uris<S: CharSet>()
    ensures reference { (bytes : Text) → InUtf8 (IsUriReference S.tests) bytes
        → InUtf8 (IsUriReference uri_chars) (mapped bytes) }
    ensures full { (bytes : Text) → InUtf8 (IsUri S.tests) bytes
        → InUtf8 (IsUri uri_chars) (mapped bytes) }
{}

/// A URI reference stays the same text, and no other IRI reference does.
pub fn mapping_keeps_uris<S: CharSet>()
    ensures { (bytes : Text) → InUtf8 (IsUriReference S.tests) bytes
        → (mapped bytes ≡ bytes) ↔ InUtf8 (IsUriReference uri_chars) bytes }
{}

/// An IRI reference is a URI reference, and an IRI a URI, exactly if it is ASCII.
pub fn iris_of_ascii_are_uris<S: CharSet>()
    ensures reference { (bytes : Text) → InUtf8 (IsUriReference S.tests) bytes
        → (list_all is_ascii bytes ≡ true) ↔ InUtf8 (IsUriReference uri_chars) bytes }
    ensures full { (bytes : Text) → InUtf8 (IsUri S.tests) bytes
        → (list_all is_ascii bytes ≡ true) ↔ InUtf8 (IsUri uri_chars) bytes }
{}

/// The mapping of an IRI passes the tests of URIs, and its value is the mapped value.
pub fn mapped_iris_pass_the_tests_of_uris<S: CharSet>()
    ensures reference { (text : Text) → is_reference S.tests text ≡ true
        → is_reference uri_chars (mapped text) ≡ true }
    ensures full { (text : Text) → is_uri S.tests text ≡ true
        → is_uri uri_chars (mapped text) ≡ true }
    ensures ascii_reference { (text : Text) → is_reference S.tests text ≡ true
        → is_reference uri_chars text ≡ list_all is_ascii text }
    ensures ascii_full { (text : Text) → is_uri S.tests text ≡ true
        → is_uri uri_chars text ≡ list_all is_ascii text }
    ensures value { (text : Text) → is_reference S.tests text ≡ true
        → read_reference (mapped text) ≡ mapped_reference (read_reference text) }
{}

/// The mapping of an IRI reference, read as a URI reference, has its key.
pub fn mapping_keeps_the_key<S: CharSet>()
    ensures { (bytes : Text) → InUtf8 (IsUriReference S.tests) bytes
        → key (read_reference (mapped bytes)) ≡ key (read_reference bytes) }
{}

/// Two IRI references are equal exactly if their mappings are.
pub fn mapping_keeps_equality<S: CharSet>()
    ensures fact { (a b : Text) → InUtf8 (IsUriReference S.tests) a
        → InUtf8 (IsUriReference S.tests) b
        → AreAlike (read_reference (mapped a)) (read_reference (mapped b))
        ↔ AreAlike (read_reference a) (read_reference b) }
    ensures test { (a b : Text) → InUtf8 (IsUriReference S.tests) a
        → InUtf8 (IsUriReference S.tests) b
        → are_alike (read_reference (mapped a)) (read_reference (mapped b))
        ≡ are_alike (read_reference a) (read_reference b) }
{}

/// The mapping of a reference has its components mapped, each alone.
pub fn mapping_maps_each_component<S: CharSet>()
    ensures spelled { (r : ReferenceValue) → spell (mapped_reference r) ≡ mapped (spell r) }
    ensures readable { (r : ReferenceValue) → IsReadable S.tests r
        → IsReadable uri_chars (mapped_reference r) }
    ensures read { (bytes : Text) → InUtf8 (IsUriReference S.tests) bytes
        → read_reference (mapped bytes) ≡ mapped_reference (read_reference bytes) }
{}

/// A reference is mapped in the words of RFC 3987 section 3.1: each character that the set adds is
/// escaped, all others stay.
pub fn mapping_escapes_what_the_set_adds<S: CharSet>()
    ensures { (bytes : Text) → InUtf8 (IsUriReference S.tests) bytes
        → mapped bytes ≡ mapped_chars S.tests (chars bytes) }
{}

/// Each component of a mapping stands where the mapping of what stands before it ends.
pub fn mapping_moves_offsets<S: CharSet>()
    ensures { (bytes : Text) → InUtf8 (IsUriReference S.tests) bytes
        → offsets_of (mapped bytes) ≡ mapped_offsets bytes (offsets_of bytes) }
{}

/// To resolve, to normalize and to make relative commute with the mapping.
pub fn mapping_commutes_with_resolution<S: CharSet>()
    ensures resolved { (base r : ReferenceValue)
        → resolved (mapped_reference base) (mapped_reference r)
        ≡ mapped_reference (resolved base r) }
    ensures normal { (p : PathValue) → normal (mapped_path p) ≡ mapped_path (normal p) }
    ensures relative { (target base : ReferenceValue) → IsReadable S.tests target
        → IsReadable S.tests base
        → relative_to (mapped_reference target) (mapped_reference base)
        ≡ mapped_reference (relative_to target base) }
{}

/// To map twice is to map once.
pub fn mapping_again_changes_nothing()
    ensures { (text : Text) → mapped (mapped text) ≡ mapped text }
{}

/// Texts are mapped byte by byte.
pub fn mapping_goes_byte_by_byte()
    ensures append { (front back : Text) → mapped (front ++ back) ≡ mapped front ++ mapped back }
    ensures length { (text : Text) → length (mapped text) ≡ length text + 2 * count_escaped text }
    ensures ascii { (text : Text) → list_all is_ascii (mapped text) ≡ true }
    ensures stays { (text : Text) → list_all is_ascii text ≡ true → mapped text ≡ text }
    ensures none { (text : Text) → (count_escaped text ≡ 0) ↔ (list_all is_ascii text ≡ true) }
{}

/// A mapping is written from the back to the front, in place: what is left of the text stands
/// before where it goes.
pub fn mapping_from_the_back()
    ensures next { (text : Text) (i : ℕ) → i < length text → mapped (drop i text)
        ≡ mapped_byte (slice_index text i) ++ mapped (drop (i + 1) text) }
    ensures index { (text : Text) (i : ℕ) → i < length text
        → mapped_index text (i + 1)
        ≡ mapped_index text i + length (mapped_byte (slice_index text i)) }
    ensures room { (text : Text) (i : ℕ) → i ≤ length text → mapped_index text i
        ≡ i + 2 * count_escaped (take i text) }
    ensures whole { (text : Text) → mapped_index text (length text) ≡ length (mapped text) }
    ensures rest { (text : Text) (i : ℕ) → mapped text
        ≡ mapped (take i text) ++ mapped (drop i text) }
{}

/// The mapping is percent-encoding with no ASCII byte in the set.
pub fn mapping_is_percent_encoding()
    ensures { (text : Text) → percent_encode (record { mask = 0 }) text ≡ mapped text }
{}
