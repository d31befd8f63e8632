//! The one split of a reference into its components (RFC 3986 section 4.1 and appendix B).

ghost use Rattle.std.specs.Prelude.{◌≡◌, ◌<◌, ◌↔◌, [], ◌∷◌, IfSome, MatchOption, codes, is_some, true};
ghost use Rattle.std.specs.{Option.{option_copied}, Str.{IsUtf8}};
ghost use Rattle.iref_grammar.specs.Reference as spec;
ghost use Rattle.iref_grammar.specs.{hash_sign, question_mark, before, after, hierarchy, read_reference, is_reference};
ghost use Rattle.iref_grammar.specs.{spell_components, AreComponents, none_or, Texts.{begins_with}};
ghost use Rattle.iref_grammar.specs.Authority as authority;
ghost use Rattle.iref_grammar.specs.Tests as test;
ghost use Rattle.iref_parse.specs.Encoded.{AreEncoded, are_encoded, is_authority_char, is_plain_char};
ghost use Rattle.iref_parse.specs.{ReferenceSlices.{texts_of, value_of}, Splits.{SplitsBefore}};

use crate::authority::{is_authority, is_port_part};
use crate::cut::{cut, split_before, strip_mark};
use crate::encoded::is_encoded_text;
use crate::position::{position_of, position_of_either};
use crate::scan::{is_fragment, is_path, is_query, is_scheme};
use iref_grammar::chars::CharSet;
use std::str;

/// The components of a reference, as slices of its text (RFC 3986 appendix B): of `s://h/p?q#f`
/// they are `s`, `h`, `/p`, `q` and `f`.
#[derive(Clone, Copy, Debug, PartialEq, Eq)]
pub struct ReferenceSlices<'a> {
    /// What stands before the first `:`.
    pub scheme: Option<&'a str>,
    /// What stands between `//` and the path.
    pub authority: Option<&'a str>,
    /// What stands between the authority and the query.
    pub path: &'a str,
    /// What stands between `?` and the fragment.
    pub query: Option<&'a str>,
    /// What follows `#`.
    pub fragment: Option<&'a str>,
}

// What stands before the first of two delimiters, and the text from there on.
#[inline(always)]
#[tactic(auto, using(crate::proofs::PositionLemmas::boundary_at_position))]
fn split_before_either(text: &str, first: u8, second: u8) -> (&str, &str)
    requires first_is_ascii { first < 128 }
    requires second_is_ascii { second < 128 }
    ensures { SplitsBefore first second text.now result.0.now result.1.now }
{
    text.split_at(position_of_either(text.as_bytes(), first, second))
}

/// The scheme, if a `:` stands before each `/`, and what follows it: of `a:b` they are `a` and `b`.
#[inline(always)]
#[tactic(auto, using(std::proofs::lemmas::Grind::common_steps, iref_grammar::proofs::SplitLemmas::schemes))]
pub fn split_scheme(text: &str) -> (Option<&str>, &str)
    ensures scheme { option_copied result.0 ≡ (spec.split_scheme text.now).0 }
    ensures rest { result.1.now ≡ (spec.split_scheme text.now).1 }
{
    let (scheme, rest) = split_before_either(text, b':', b'/');
    match strip_mark(rest, ':') {
        Some(rest) => (Some(scheme), rest),
        None => (None, text),
    }
}

// Whether the text begins with `//`.
#[inline(always)]
fn begins_with_slashes(text: &str) -> bool
    ensures { result ≡ begins_with (codes "//") text.now }
{
    let bytes = text.as_bytes();
    bytes.len() >= 2 && bytes[0] == b'/' && bytes[1] == b'/'
}

/// The authority between `//` and the next `/`, and the path: of `//h/a` they are `h` and `/a`.
#[inline(always)]
pub fn split_authority(text: &str) -> (Option<&str>, &str)
    ensures authority { option_copied result.0 ≡ (spec.split_authority text.now).0 }
    ensures path { result.1.now ≡ (spec.split_authority text.now).1 }
{
    if begins_with_slashes(text) {
        let (authority, path) = split_before(&text[2..], '/');
        (Some(authority), path)
    } else {
        (None, text)
    }
}

// What stands before the query and the fragment, and these two.
#[inline(always)]
fn split_tail(text: &str) -> (&str, Option<&str>, Option<&str>)
    ensures front { result.0.now ≡ hierarchy text.now }
    ensures query { option_copied result.1 ≡ after question_mark
        (before (hash_sign ∷ []) text.now) }
    ensures fragment { option_copied result.2 ≡ after hash_sign text.now }
{
    let (front, tail) = split_before_either(text, b'?', b'#');
    if tail.is_empty() {
        return (front, None, None);
    }
    match strip_mark(tail, '#') {
        Some(fragment) => (front, None, Some(fragment)),
        None => {
            let (query, fragment) = cut(&tail[1..], '#');
            (front, Some(query), fragment)
        }
    }
}

/// Splits a text into the components that it has as a reference (RFC 3986 section 4.1).
#[tactic(auto, unfolding(iref_grammar::specs::Reference::read_reference))]
#[inline(always)]
pub fn split_reference(text: &str) -> ReferenceSlices<'_>
    ensures value { value_of result ≡ read_reference text.now }
    ensures texts { texts_of result ≡ spell_components (read_reference text.now) }
{
    let (text, query, fragment) = split_tail(text);
    let (scheme, text) = split_scheme(text);
    let (authority, path) = split_authority(text);
    ReferenceSlices {
        scheme,
        authority,
        path,
        query,
        fragment,
    }
}

// Whether each slice is in the rule of its component, by a scan of each.
fn are_scanned_components<C: CharSet>(slices: ReferenceSlices<'_>) -> bool
    ensures { (result ≡ true) ↔ AreComponents C.tests (texts_of slices.entry) }
{
    slices.scheme.is_none_or(|scheme| is_scheme(scheme))
        && slices
            .authority
            .is_none_or(|authority| is_authority::<C>(authority))
        && is_path::<C>(slices.path)
        && slices.query.is_none_or(|query| is_query::<C>(query))
        && slices
            .fragment
            .is_none_or(|fragment| is_fragment::<C>(fragment))
}

// Whether the authority, which is encoded, is in its rule. Up to the first `:` or `@` it is a
// registered name.
#[tactic(auto, using(crate::proofs::PlainTextLemmas::encoded_authority))]
fn is_encoded_authority<C: CharSet>(part: Option<&str>) -> bool
    requires { none_or (are_encoded (is_authority_char C.tests)) (option_copied part) ≡ true }
    ensures { result ≡ none_or (authority.is_authority C.tests) (option_copied part.entry) }
{
    let Some(text) = part else {
        return true;
    };
    let (_, end) = split_before_either(text, b':', b'@');
    is_port_part(end.as_bytes()) || is_authority::<C>(text)
}

// Whether the fragment, which is encoded, is in its rule, as it is without `#`.
#[tactic(auto, using(std::proofs::lemmas::Grind::common_steps, crate::proofs::PlainTextLemmas::encoded_fragment))]
fn is_encoded_fragment<C: CharSet>(part: Option<&str>) -> bool
    requires { none_or (are_encoded (is_plain_char C.tests)) (option_copied part) ≡ true }
    ensures { result ≡ none_or (test.is_fragment C.tests) (option_copied part.entry) }
{
    let Some(text) = part else {
        return true;
    };
    position_of(text.as_bytes(), b'#') == text.len() || is_fragment::<C>(text)
}

// Whether each slice is in the rule of its component. In a text that passed `is_encoded_text` only
// the scheme, the authority and the fragment are left to test.
#[inline(always)]
fn are_components<C: CharSet>(slices: ReferenceSlices<'_>, is_encoded: bool) -> bool
    requires { is_encoded ≡ true → AreEncoded C.tests (texts_of slices) }
    ensures { (result ≡ true) ↔ AreComponents C.tests (texts_of slices.entry) }
{
    if !is_encoded {
        return are_scanned_components::<C>(slices);
    }
    slices.scheme.is_none_or(|scheme| is_scheme(scheme))
        && is_encoded_authority::<C>(slices.authority)
        && is_encoded_fragment::<C>(slices.fragment)
}

/// The components of a text that is a reference (RFC 3986 section 4.1).
#[inline(always)]
pub fn parse_reference<C: CharSet>(text: &str) -> Option<ReferenceSlices<'_>>
    ensures accepted { is_some result ≡ is_reference C.tests text.now }
    ensures value { IfSome result (λ s. value_of s ≡ read_reference text.now) }
    ensures texts { IfSome result (λ s. texts_of s ≡ spell_components (read_reference text.now)) }
    ensures components { IfSome result (λ s. AreComponents C.tests (texts_of s)) }
{
    let slices = split_reference(text);
    if are_components::<C>(slices, is_encoded_text::<C, true>(text.as_bytes())) {
        Some(slices)
    } else {
        None
    }
}

// The bytes as a text, if they are UTF-8. What is encoded is, so no byte is read again.
#[inline(always)]
fn text_of(bytes: &[u8], is_encoded: bool) -> Option<&str>
    requires { is_encoded ≡ true → IsUtf8 bytes.now }
    ensures { MatchOption result (¬ (IsUtf8 bytes.now)) (λ text. text.now ≡ bytes.now) }
{
    if is_encoded {
        Some(unsafe { str::from_utf8_unchecked(bytes) })
    } else {
        str::from_utf8(bytes).ok()
    }
}

/// The components of bytes of UTF-8 that are a reference (RFC 3986 section 4.1). Most often one
/// pass tests the bytes and decodes them.
#[inline(always)]
pub fn parse_bytes<C: CharSet>(bytes: &[u8]) -> Option<ReferenceSlices<'_>>
    ensures accepted { is_some result ≡ is_reference C.tests bytes.now }
    ensures value { IfSome result (λ s. value_of s ≡ read_reference bytes.now) }
    ensures texts { IfSome result (λ s. texts_of s ≡ spell_components (read_reference bytes.now)) }
    ensures components { IfSome result (λ s. AreComponents C.tests (texts_of s)) }
{
    let is_encoded = is_encoded_text::<C, false>(bytes);
    let slices = split_reference(text_of(bytes, is_encoded)?);
    if are_components::<C>(slices, is_encoded) {
        Some(slices)
    } else {
        None
    }
}

/// Whether the text is a reference (RFC 3986 section 4.1).
pub fn is_reference<C: CharSet>(text: &str) -> bool
    ensures { result ≡ spec.is_reference C.tests text.now }
{
    parse_reference::<C>(text).is_some()
}

/// Whether the text is a reference with a scheme (RFC 3986 section 3).
pub fn is_uri<C: CharSet>(text: &str) -> bool
    ensures { result ≡ spec.is_uri C.tests text.now }
{
    match parse_reference::<C>(text) {
        Some(slices) => slices.scheme.is_some(),
        None => false,
    }
}
