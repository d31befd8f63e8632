//! Where a single text is outside its rule, in bytes: the first character that may not stand there,
//! or the end, if more has to follow.
ghost use Rattle.std.specs.{Prelude.{◌≡◌, [], ◌∷◌, not}, List.{position}, Char.{is_ascii_digit}};
ghost use Rattle.iref_grammar.specs.Grammar as grammar;
ghost use Rattle.iref_grammar.specs.Tests as test;
ghost use Rattle.iref_grammar.specs.Texts.{begins_with};
ghost use Rattle.iref_parse.specs.CharRules.{allowed_by};
ghost use Rattle.iref_fault.specs.Places as spec;
ghost use Rattle.iref_fault.specs.{Places.{encoded_place}, BytePlaces.{byte_place}};

use crate::part::PartRule;
use iref_grammar::chars::CharSet;
use iref_parse::ascii::{FRAGMENT, PATH, QUERY, REG_NAME, SEGMENT, USER_INFO};
use iref_parse::host::is_ip_literal;
use iref_parse::scan::{allows, is_scheme_char, split_first_char};

/// Whether the text begins with the byte.
pub(crate) fn begins_with(text: &str, mark: u8) -> bool
    ensures { result ≡ begins_with (mark ∷ []) text.now }
{
    text.as_bytes().starts_with(&[mark])
}

// How many hexadecimal digits are owed after one more character, if it may stand there.
#[tactic(auto, unfolding(iref_grammar::specs::Tests::owed_after))]
fn owed_after<C: CharSet, const RULE: u8>(owed: u8, c: char) -> Option<u8>
    ensures { result ≡ test.owed_after (allowed_by C.tests RULE) owed c }
{
    if owed > 0 {
        if c.is_ascii_hexdigit() {
            Some(owed - 1)
        } else {
            None
        }
    } else if c == '%' {
        Some(2)
    } else if allows::<C, RULE>(c) {
        Some(0)
    } else {
        None
    }
}

// Where a text of characters that the rule allows, and of escapes, is wrong.
#[tactic(auto, using(crate::proofs::BytePlaceLemmas::scan))]
fn encoded_place<C: CharSet, const RULE: u8>(text: &str) -> Option<usize>
    ensures { result ≡ byte_place (encoded_place (allowed_by C.tests RULE)) text.now }
{
    let mut owed = 0;
    let mut rest = text;
    while let Some((c, after)) = split_first_char(rest) {
        match owed_after::<C, RULE>(owed, c) {
            Some(left) => owed = left,
            None => return Some(text.len() - rest.len()),
        }
        rest = after;
    }
    if owed == 0 { None } else { Some(text.len()) }
}

// The first byte that is no character of schemes.
fn first_outside_scheme(bytes: &[u8]) -> Option<usize>
    ensures { result ≡ position (λ byte. not (grammar.is_scheme_char byte)) bytes.now }
{
    bytes
        .iter()
        .position(|byte| !is_scheme_char(char::from(*byte)))
}

// Where a scheme is wrong: `a b` at 1.
fn scheme_place(text: &str) -> Option<usize>
    ensures { result ≡ byte_place spec.scheme_place text.now }
{
    let bytes = text.as_bytes();
    if bytes.is_empty() || !bytes[0].is_ascii_alphabetic() {
        return Some(0);
    }
    first_outside_scheme(bytes)
}

// Where a host is wrong: `a b` at 1, and `[::1` at 0, as each that begins with `[`.
#[tactic(auto, using(crate::proofs::FirstCharLemmas::by_first_char), unfolding(iref_parse::specs::CharRules::allowed_by))]
fn host_place<C: CharSet>(text: &str) -> Option<usize>
    ensures { result ≡ byte_place (spec.host_place C.tests) text.now }
{
    if !begins_with(text, b'[') {
        encoded_place::<C, REG_NAME>(text)
    } else if is_ip_literal(text) {
        None
    } else {
        Some(0)
    }
}

// The first byte that is no digit.
fn first_outside_digits(bytes: &[u8]) -> Option<usize>
    ensures { result ≡ position (λ byte. not (is_ascii_digit byte)) bytes.now }
{
    bytes.iter().position(|byte| !byte.is_ascii_digit())
}

// Where a port is wrong: `8x0` at 1.
#[tactic(auto, using(crate::proofs::OnesPlaceLemmas::digits_in_bytes))]
fn port_place(text: &str) -> Option<usize>
    ensures { result ≡ byte_place (spec.ones_place is_ascii_digit) text.now }
{
    first_outside_digits(text.as_bytes())
}

// Where a path is wrong that stands alone, and so does not begin with `:` (RFC 3986 section 4.2).
#[tactic(auto, using(crate::proofs::FirstCharLemmas::by_first_char), unfolding(iref_parse::specs::CharRules::allowed_by))]
fn bare_path_place<C: CharSet>(text: &str) -> Option<usize>
    ensures { result ≡ byte_place (spec.bare_path_place C.tests) text.now }
{
    if begins_with(text, b':') {
        Some(0)
    } else {
        encoded_place::<C, PATH>(text)
    }
}

/// Where a text is outside the rule: the port `8x0` at 1.
#[tactic(auto, unfolding(crate::specs::Places::place_in, iref_parse::specs::CharRules::allowed_by))]
pub(crate) fn place_in<C: CharSet>(rule: PartRule, text: &str) -> Option<usize>
    ensures { result ≡ byte_place (spec.place_in C.tests rule) text.now }
{
    match rule {
        PartRule::Scheme => scheme_place(text),
        PartRule::UserInfo => encoded_place::<C, USER_INFO>(text),
        PartRule::Host => host_place::<C>(text),
        PartRule::Port => port_place(text),
        PartRule::Path => encoded_place::<C, PATH>(text),
        PartRule::BarePath => bare_path_place::<C>(text),
        PartRule::Segment => encoded_place::<C, SEGMENT>(text),
        PartRule::Query => encoded_place::<C, QUERY>(text),
        PartRule::Fragment => encoded_place::<C, FRAGMENT>(text),
    }
}
