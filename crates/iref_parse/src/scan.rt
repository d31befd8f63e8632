//! Whether a text is in a rule of single characters and escapes.

ghost use Rattle.std.specs.Prelude.{◌≡◌, ◌&&◌, ℕ, ◌+◌, ◌<◌, Bool, ◌∷◌, ◌≤◌, chars};
ghost use Rattle.std.specs.{Prelude.{length, slice_index, true, IfSome, MatchOption}, List.{list_all}};
ghost use Rattle.std.specs.Char.{is_ascii, is_ascii_digit};
ghost use Rattle.iref_grammar.specs.Grammar as grammar;
ghost use Rattle.iref_grammar.specs.Tests as test;
ghost use Rattle.iref_grammar.specs.{is_not_percent, ScansTo};
ghost use Rattle.iref_parse.specs.{CharRules.{allowed_by}, declared.ascii.TheConstants.{PCT_STR}};

use crate::ascii::{FRAGMENT, PATH, PCT_STR, QUERY, REG_NAME, SEGMENT, USER_INFO, first_rule};
use crate::encoded::is_encoded_text;
use crate::position::position_of_either;
use iref_grammar::chars::{CharSet, UriChars};

// Whether the character is `unreserved` (RFC 3986 section 2.3).
fn is_unreserved<C: CharSet>(c: char) -> bool
    ensures { result ≡ grammar.is_unreserved C.tests c }
{
    c.is_ascii_alphanumeric() || matches!(c, '-' | '.' | '_' | '~') || C::is_extra(c)
}

// Whether the character is one of `sub-delims` (RFC 3986 section 2.2).
fn is_sub_delim(c: char) -> bool
    ensures { result ≡ grammar.is_sub_delim c }
{
    matches!(
        c,
        '!' | '$' | '&' | '\'' | '(' | ')' | '*' | '+' | ',' | ';' | '='
    )
}

/// Whether a scheme may hold the character after its first letter (RFC 3986 section 3.1).
pub fn is_scheme_char(c: char) -> bool
    ensures { result ≡ grammar.is_scheme_char c }
{
    c.is_ascii_alphanumeric() || matches!(c, '+' | '-' | '.')
}

/// Whether an IPvFuture address may hold the character after its version (RFC 3986 section 3.2.2).
pub fn is_future_char(c: char) -> bool
    ensures { result ≡ grammar.is_future_char c }
{
    c.is_ascii_alphanumeric() || matches!(c, '-' | '.' | '_' | '~') || is_sub_delim(c) || c == ':'
}

// Whether a registered name may hold the character (RFC 3986 section 3.2.2).
#[tactic(auto, unfolding(iref_grammar::specs::Grammar::is_reg_name_char))]
fn is_reg_name_char<C: CharSet>(c: char) -> bool
    ensures { result ≡ grammar.is_reg_name_char C.tests c }
{
    is_unreserved::<C>(c) || is_sub_delim(c)
}

// Whether a user info may hold the character (RFC 3986 section 3.2.1).
#[tactic(auto, unfolding(iref_grammar::specs::Grammar::is_user_info_char))]
fn is_user_info_char<C: CharSet>(c: char) -> bool
    ensures { result ≡ grammar.is_user_info_char C.tests c }
{
    is_reg_name_char::<C>(c) || c == ':'
}

// Whether a segment may hold the character (RFC 3986 section 3.3).
#[tactic(auto, unfolding(iref_grammar::specs::Grammar::is_path_char))]
fn is_path_char<C: CharSet>(c: char) -> bool
    ensures { result ≡ grammar.is_path_char C.tests c }
{
    is_user_info_char::<C>(c) || c == '@'
}

// Whether a fragment may hold the character (RFC 3986 section 3.5).
#[tactic(auto, unfolding(iref_grammar::specs::Grammar::is_fragment_char))]
fn is_fragment_char<C: CharSet>(c: char) -> bool
    ensures { result ≡ grammar.is_fragment_char C.tests c }
{
    is_path_char::<C>(c) || c == '/' || c == '?'
}

/// Whether the character stands for itself in the rule of this number.
#[tactic(auto, unfolding(crate::specs::CharRules::allowed_by, iref_grammar::specs::Grammar::is_query_char))]
pub fn allows<C: CharSet, const RULE: u8>(c: char) -> bool
    ensures { result ≡ allowed_by C.tests RULE c }
{
    match RULE {
        REG_NAME => is_reg_name_char::<C>(c),
        USER_INFO => is_user_info_char::<C>(c),
        SEGMENT => is_path_char::<C>(c),
        PATH => is_path_char::<C>(c) || c == '/',
        FRAGMENT => is_fragment_char::<C>(c),
        QUERY => is_fragment_char::<C>(c) || C::is_private(c),
        _ => c != '%',
    }
}

// Whether the byte is a character of the rule that is ASCII, and no `%`.
#[tactic(auto, using(crate::proofs::AsciiLemmas::rule_byte))]
fn allows_byte<C: CharSet, const RULE: u8>(byte: u8) -> bool
    requires { RULE ≤ PCT_STR }
    ensures { result ≡ (is_ascii byte && (is_not_percent byte && allowed_by C.tests RULE byte)) }
{
    first_rule(byte) <= RULE
}

/// The first character, and what follows it: of `é/` they are `é` and `/`.
#[tactic(auto, using(crate::proofs::ScanLemmas::first_char))]
pub fn split_first_char(text: &str) -> Option<(char, &str)>
    ensures { MatchOption result (length text.now ≡ 0)
        (λ x. (chars text.now ≡ x.0 ∷ chars x.1.now) × (length x.1.now < length text.now)) }
{
    let mut chars = text.chars();
    let c = chars.next()?;
    Some((c, chars.as_str()))
}

// What follows the first character, if that is a hexadecimal digit.
fn after_digit(text: &str) -> Option<&str>
    ensures { (allowed : ℕ → Bool) (owed : ℕ) → ScansTo allowed (owed + 1) owed text.now result }
{
    let (c, rest) = split_first_char(text)?;
    if c.is_ascii_hexdigit() {
        Some(rest)
    } else {
        None
    }
}

// What follows the first character or escape, if the rule has it.
fn after_char_or_escape<C: CharSet, const RULE: u8>(text: &str) -> Option<&str>
    requires { 0 < length text.now }
    ensures { ScansTo (allowed_by C.tests RULE) 0 0 text.now result }
{
    let (c, rest) = split_first_char(text)?;
    if c == '%' {
        after_digit(after_digit(rest)?)
    } else if allows::<C, RULE>(c) {
        Some(rest)
    } else {
        None
    }
}

// What follows the first character, which is ASCII.
fn after_ascii(text: &str) -> &str
    requires not_empty { 0 < length text.now }
    requires ascii { slice_index text.now 0 < 128 }
    ensures chars { chars text.now ≡ slice_index text.now 0 ∷ chars result.now }
    ensures shorter { length result.now < length text.now }
{
    &text[1..]
}

// What follows the first character, if it is one byte that the rule's table has.
#[tactic(auto, using(std::proofs::lemmas::Grind::common_steps, crate::proofs::ScanLemmas::after_byte))]
fn after_one<C: CharSet, const RULE: u8>(text: &str) -> Option<&str>
    requires { RULE ≤ PCT_STR }
    ensures { IfSome result (λ _. ScansTo (allowed_by C.tests RULE) 0 0 text.now result) }
{
    if !text.is_empty() && allows_byte::<C, RULE>(text.as_bytes()[0]) {
        Some(after_ascii(text))
    } else {
        None
    }
}

// What follows the first four characters, if each is such a byte.
fn after_four<C: CharSet, const RULE: u8>(text: &str) -> Option<&str>
    requires { RULE ≤ PCT_STR }
    ensures { IfSome result (λ _. ScansTo (allowed_by C.tests RULE) 0 0 text.now result) }
{
    if text.len() < 4 {
        return None;
    }
    let text = after_one::<C, RULE>(after_one::<C, RULE>(text)?)?;
    after_one::<C, RULE>(after_one::<C, RULE>(text)?)
}

// What is left from the first character on that is no such byte.
fn after_plain<C: CharSet, const RULE: u8>(text: &str) -> &str
    requires { RULE ≤ PCT_STR }
    ensures same { test.is_encoded (allowed_by C.tests RULE) (chars result.now)
        ≡ test.is_encoded (allowed_by C.tests RULE) (chars text.now) }
    ensures no_longer { length result.now ≤ length text.now }
{
    let mut rest = text;
    while let Some(after) = after_four::<C, RULE>(rest) {
        rest = after;
    }
    while let Some(after) = after_one::<C, RULE>(rest) {
        rest = after;
    }
    rest
}

// Whether the text is one of characters that the rule allows, and of escapes.
fn is_encoded<C: CharSet, const RULE: u8>(text: &str) -> bool
    requires { RULE ≤ PCT_STR }
    ensures { result ≡ test.is_encoded (allowed_by C.tests RULE) (chars text.now) }
{
    let mut rest = after_plain::<C, RULE>(text);
    while !rest.is_empty() {
        match after_char_or_escape::<C, RULE>(rest) {
            Some(after) => rest = after_plain::<C, RULE>(after),
            None => return false,
        }
    }
    true
}

/// Whether the text is a user info (RFC 3986 section 3.2.1).
#[tactic(auto, using(crate::proofs::ScanLemmas::utf8), unfolding(iref_grammar::specs::Tests::is_user_info, crate::specs::CharRules::allowed_by))]
pub fn is_user_info<C: CharSet>(text: &str) -> bool
    ensures { result ≡ test.is_user_info C.tests text.now }
{
    is_encoded::<C, USER_INFO>(text)
}

/// Whether the text is a registered name (RFC 3986 section 3.2.2).
#[tactic(auto, using(crate::proofs::ScanLemmas::utf8), unfolding(iref_grammar::specs::Tests::is_reg_name, crate::specs::CharRules::allowed_by))]
pub fn is_reg_name<C: CharSet>(text: &str) -> bool
    ensures { result ≡ test.is_reg_name C.tests text.now }
{
    is_encoded::<C, REG_NAME>(text)
}

/// Whether the text is a segment (RFC 3986 section 3.3).
#[tactic(auto, using(crate::proofs::ScanLemmas::utf8), unfolding(iref_grammar::specs::Tests::is_segment, crate::specs::CharRules::allowed_by))]
pub fn is_segment<C: CharSet>(text: &str) -> bool
    ensures { result ≡ test.is_segment C.tests text.now }
{
    is_encoded::<C, SEGMENT>(text)
}

// Whether the text has 16 bytes at least, and is found to be a path by a scan of vectors.
#[inline(always)]
#[tactic(auto, using(std::proofs::lemmas::Grind::common_steps, crate::proofs::PlainTextLemmas::encoded_path))]
fn is_encoded_path<C: CharSet>(text: &str) -> bool
    ensures { result ≡ true → test.is_path C.tests text.now ≡ true }
{
    let bytes = text.as_bytes();
    if bytes.len() < 16 || !is_encoded_text::<C, true>(bytes) {
        return false;
    }
    position_of_either(bytes, b'?', b'#') == bytes.len()
}

/// Whether the text is a path: any text of the characters of segments and `/`.
#[tactic(auto, using(crate::proofs::ScanLemmas::utf8), unfolding(iref_grammar::specs::Tests::is_path, crate::specs::CharRules::allowed_by))]
pub fn is_path<C: CharSet>(text: &str) -> bool
    ensures { result ≡ test.is_path C.tests text.now }
{
    is_encoded_path::<C>(text) || is_encoded::<C, PATH>(text)
}

/// Whether the text is a query (RFC 3986 section 3.4).
#[tactic(auto, using(crate::proofs::ScanLemmas::utf8), unfolding(iref_grammar::specs::Tests::is_query, crate::specs::CharRules::allowed_by))]
pub fn is_query<C: CharSet>(text: &str) -> bool
    ensures { result ≡ test.is_query C.tests text.now }
{
    is_encoded::<C, QUERY>(text)
}

/// Whether the text is a fragment (RFC 3986 section 3.5).
#[tactic(auto, using(crate::proofs::ScanLemmas::utf8), unfolding(iref_grammar::specs::Tests::is_fragment, crate::specs::CharRules::allowed_by))]
pub fn is_fragment<C: CharSet>(text: &str) -> bool
    ensures { result ≡ test.is_fragment C.tests text.now }
{
    is_encoded::<C, FRAGMENT>(text)
}

// Whether a scheme may hold each of the bytes after its first letter.
fn are_scheme_chars(bytes: &[u8]) -> bool
    ensures { result ≡ list_all grammar.is_scheme_char bytes.now }
{
    bytes.iter().all(|b| is_scheme_char(char::from(*b)))
}

/// Whether the text is a scheme (RFC 3986 section 3.1).
#[tactic(auto, unfolding(iref_grammar::specs::Tests::is_scheme))]
pub fn is_scheme(text: &str) -> bool
    ensures { result ≡ test.is_scheme text.now }
{
    let Some((first, others)) = text.as_bytes().split_first() else {
        return false;
    };
    first.is_ascii_alphabetic() && are_scheme_chars(others)
}

/// Whether each byte is a decimal digit.
pub(crate) fn are_digits(bytes: &[u8]) -> bool
    ensures { result ≡ list_all is_ascii_digit bytes.now }
{
    bytes.iter().all(|b| b.is_ascii_digit())
}

/// Whether the text is a port (RFC 3986 section 3.2.3).
#[tactic(auto, unfolding(iref_grammar::specs::Tests::is_port))]
pub fn is_port(text: &str) -> bool
    ensures { result ≡ test.is_port text.now }
{
    are_digits(text.as_bytes())
}

/// Whether each `%` of the text stands before two hexadecimal digits (RFC 3986 section 2.1).
#[tactic(auto, using(crate::proofs::ScanLemmas::utf8), unfolding(iref_grammar::specs::Tests::is_pct_str, crate::specs::CharRules::allowed_by))]
pub fn is_pct_str(text: &str) -> bool
    ensures { result ≡ test.is_pct_str text.now }
{
    is_encoded::<UriChars, PCT_STR>(text)
}
