//! Whether a text is of plain bytes, of escapes and of the characters that a set has beyond ASCII.
ghost use Rattle.std.specs.Prelude.{◌≡◌, ◌+◌, ◌%◌, ◌<◌, ◌≤◌, true, length};
ghost use Rattle.std.specs.{Prelude.{IfSome, ◌∷◌, [], slice_index, drop, nat_le, ◌==◌, ◌||◌}, Str.{IsUtf8}};
ghost use Rattle.iref_grammar.specs.{Characters.{HasCommon}, Grammar.{percent_sign}};
ghost use Rattle.iref_parse.specs.Encoded.{are_encoded, is_plain_char, BeginsWide, IsWide, BeginsCommon, StepsTo};
ghost use Rattle.iref_parse.specs.Plain.{begins_common};

use crate::plain::{common_first, plain_first};
use iref_grammar::chars::CharSet;

// The low six bits of a byte that continues a character.
#[inline(always)]
fn low_bits(byte: u8) -> Option<u32>
    ensures { IfSome result (λ low. (byte ≡ 128 + low) × (low < 64)) }
{
    if byte / 64 == 2 {
        Some(u32::from(byte % 64))
    } else {
        None
    }
}

// The character of two bytes, if they are one.
#[inline(always)]
#[tactic(auto, using(crate::proofs::WideLemmas::encode_two))]
fn of_two(first: u8, second: u8) -> Option<u32>
    requires { first < 224 }
    ensures { IfSome result (IsWide (first ∷ second ∷ [])) }
{
    if first < 194 {
        return None;
    }
    Some(u32::from(first - 192) * 64 + low_bits(second)?)
}

// The code of three bytes, if they are one's. It may be a surrogate's.
#[inline(always)]
#[tactic(auto, using(crate::proofs::WideLemmas::encode_three))]
fn of_three(first: u8, second: u8, third: u8) -> Option<u32>
    requires least { 224 ≤ first }
    requires most { first < 240 }
    ensures { IfSome result (IsWide (first ∷ second ∷ third ∷ [])) }
{
    let high = u32::from(first - 224) * 64 + low_bits(second)?;
    if high < 32 {
        return None;
    }
    Some(high * 64 + low_bits(third)?)
}

// The code of four bytes, if they are one's. It may be beyond the last character's.
#[inline(always)]
#[tactic(auto, using(crate::proofs::WideLemmas::encode_four))]
fn of_four(first: u8, second: u8, third: u8, fourth: u8) -> Option<u32>
    requires { 240 ≤ first }
    ensures { IfSome result (IsWide (first ∷ second ∷ third ∷ fourth ∷ [])) }
{
    let high = u32::from(first - 240) * 64 + low_bits(second)?;
    if high < 16 {
        return None;
    }
    Some((high * 64 + low_bits(third)?) * 64 + low_bits(fourth)?)
}

// Whether the byte continues a character.
#[inline(always)]
fn continues(byte: u8) -> bool
    ensures { result ≡ true → byte ≡ 128 + byte % 64 }
{
    byte / 64 == 2
}

// The character of two bytes, if they are one from U+00C0 on.
#[inline(always)]
#[tactic(auto, using(crate::proofs::WideLemmas::encode_two))]
fn of_common_two(first: u8, second: u8) -> Option<u32>
    requires { first < 224 }
    ensures { IfSome result (IsWide (first ∷ second ∷ [])) }
{
    if 195 <= first && continues(second) {
        Some(u32::from(first - 192) * 64 + u32::from(second % 64))
    } else {
        None
    }
}

// The character of three bytes, if they are one from U+0800 to U+CFFF.
#[inline(always)]
#[tactic(auto, using(crate::proofs::WideLemmas::encode_three))]
fn of_common_three(first: u8, second: u8, third: u8) -> Option<u32>
    requires least { 224 ≤ first }
    requires most { first < 237 }
    ensures { IfSome result (IsWide (first ∷ second ∷ third ∷ [])) }
{
    let high = u32::from(first - 224) * 64 + u32::from(second % 64);
    if 0x800 / 64 <= high && continues(second) && continues(third) {
        Some(high * 64 + u32::from(third % 64))
    } else {
        None
    }
}

// The code of the first character, which is beyond ASCII, and what follows it.
#[inline(always)]
fn split_wide(text: &[u8]) -> Option<(u32, &[u8])>
    ensures { IfSome result (λ found. BeginsWide found.0 text.now found.1.now) }
{
    match text {
        [a, b, rest @ ..] if *a < 224 => Some((of_two(*a, *b)?, rest)),
        [a, b, c, rest @ ..] if 224 <= *a && *a < 240 => Some((of_three(*a, *b, *c)?, rest)),
        [a, b, c, d, rest @ ..] if 240 <= *a => Some((of_four(*a, *b, *c, *d)?, rest)),
        _ => None,
    }
}

// What follows the first character of a text, which is of this code, if the set has it.
#[inline(always)]
fn after_code<'a, C: CharSet>(text: &'a [u8], code: u32, rest: &'a [u8]) -> Option<&'a [u8]>
    requires { BeginsWide code text.now rest.now }
    ensures { IfSome result (λ rest. StepsTo (is_plain_char C.tests) text.now rest.now) }
{
    if C::is_extra(char::from_u32(code)?) {
        Some(rest)
    } else {
        None
    }
}

// What follows the first character, if the set has it and it is one of two bytes from U+00C0 on, or
// of three from U+0800 to U+CFFF. The set is asked in each arm, where the compiler knows the range
// of the code.
#[inline(always)]
fn after_common<C: CharSet>(text: &[u8]) -> Option<&[u8]>
    ensures { IfSome result (λ rest. StepsTo (is_plain_char C.tests) text.now rest.now) }
{
    match text {
        [a, b, rest @ ..] if *a < 224 => after_code::<C>(text, of_common_two(*a, *b)?, rest),
        [a, b, c, rest @ ..] if 224 <= *a && *a < 237 => {
            after_code::<C>(text, of_common_three(*a, *b, *c)?, rest)
        }
        _ => None,
    }
}

// What follows the first character, if the set has it beyond ASCII.
#[inline(always)]
fn after_extra<C: CharSet>(text: &[u8]) -> Option<&[u8]>
    ensures { IfSome result (λ rest. StepsTo (is_plain_char C.tests) text.now rest.now) }
{
    let (code, rest) = split_wide(text)?;
    after_code::<C>(text, code, rest)
}

// What follows the first three bytes, of which the first is `%`, if they are an escape.
#[inline(always)]
fn after_escape<C: CharSet>(text: &[u8]) -> Option<&[u8]>
    requires { slice_index text.now 0 ≡ 37 }
    ensures { IfSome result (λ rest. StepsTo (is_plain_char C.tests) text.now rest.now) }
{
    match text {
        [_, high, low, rest @ ..] if high.is_ascii_hexdigit() && low.is_ascii_hexdigit() => {
            Some(rest)
        }
        _ => None,
    }
}

// Whether the text is known to be UTF-8, and the set has all characters from U+00C0 to U+D7FF. The
// compiler knows the answer.
#[inline(always)]
fn passes_common<C: CharSet, const IS_UTF8: bool>() -> bool
    ensures { result ≡ true → (IS_UTF8 ≡ true) × HasCommon C.tests }
{
    IS_UTF8 && C::has_common()
}

// How many plain bytes stand first. If `passes_common`, bytes of those characters are plain too.
#[inline(always)]
fn passed_first<C: CharSet, const IS_UTF8: bool>(text: &[u8]) -> usize
    requires { IS_UTF8 ≡ true → IsUtf8 text.now }
    ensures within { result ≤ length text.now }
    ensures step { 0 < result
        → StepsTo (is_plain_char C.tests) text.now (drop result text.now) }
{
    if passes_common::<C, IS_UTF8>() {
        common_first(text)
    } else {
        plain_first(text)
    }
}

// What follows the plain bytes that stand first, if there are any.
#[inline(always)]
fn after_plain<C: CharSet, const IS_UTF8: bool>(text: &[u8]) -> Option<&[u8]>
    requires { IS_UTF8 ≡ true → IsUtf8 text.now }
    ensures { IfSome result (λ rest. StepsTo (is_plain_char C.tests) text.now rest.now) }
{
    let len = passed_first::<C, IS_UTF8>(text);
    if len > 0 { Some(&text[len..]) } else { None }
}

// Whether a character from U+00C0 to U+D7FF begins with the byte, in UTF-8.
#[inline(always)]
fn begins_common(byte: u8) -> bool
    ensures { result ≡ begins_common byte }
{
    matches!(byte, 0xC3..=0xED)
}

// What follows the first character, which is from U+00C0 to U+D7FF: its first byte tells how many
// bytes it has.
#[inline(always)]
#[tactic(auto, using(crate::proofs::CommonLemmas::common_of_two, crate::proofs::CommonLemmas::common_of_three))]
fn after_common_char(text: &[u8]) -> &[u8]
    requires utf8 { IsUtf8 text.now }
    requires common { begins_common (slice_index text.now 0) ≡ true }
    ensures { BeginsCommon text.now result.now }
{
    if text[0] < 224 {
        &text[2..]
    } else {
        &text[3..]
    }
}

// What follows the first character, which is beyond ASCII, if the set has it.
#[inline(always)]
fn after_wide<C: CharSet, const IS_UTF8: bool>(text: &[u8]) -> Option<&[u8]>
    requires not_empty { 0 < length text.now }
    requires utf8 { IS_UTF8 ≡ true → IsUtf8 text.now }
    ensures { IfSome result (λ rest. StepsTo (is_plain_char C.tests) text.now rest.now) }
{
    if passes_common::<C, IS_UTF8>() {
        if begins_common(text[0]) {
            return Some(after_common_char(text));
        }
    } else {
        let common = after_common::<C>(text);
        if common.is_some() {
            return common;
        }
    }
    after_extra::<C>(text)
}

// What follows the first piece of the text: a run of plain bytes, one escape, or one character of
// the set beyond ASCII. `IS_UTF8` says that the text is known to be UTF-8.
#[inline(always)]
fn after_front<C: CharSet, const IS_UTF8: bool>(text: &[u8]) -> Option<&[u8]>
    requires not_empty { 0 < length text.now }
    requires utf8 { IS_UTF8 ≡ true → IsUtf8 text.now }
    ensures { IfSome result (λ rest. StepsTo (is_plain_char C.tests) text.now rest.now) }
{
    if text[0] >= 128 {
        after_wide::<C, IS_UTF8>(text)
    } else if text[0] == b'%' {
        after_escape::<C>(text)
    } else {
        after_plain::<C, IS_UTF8>(text)
    }
}

// Whether an escape or a character beyond ASCII begins with the byte.
#[inline(always)]
fn is_percent_or_wide(byte: u8) -> bool
    ensures { result ≡ (nat_le 128 byte || byte == percent_sign) }
{
    byte >= 128 || byte == b'%'
}

// Whether the bytes are found to be such a text, from the front on. The first byte, if any,
// is not plain.
#[tactic(auto, using(std::proofs::lemmas::Bool::Decides::nat_tests, crate::proofs::EncodedTextLemmas::encoded_nothing))]
fn is_encoded_rest<C: CharSet, const IS_UTF8: bool>(text: &[u8]) -> bool
    requires { IS_UTF8 ≡ true → IsUtf8 text.now }
    ensures { result ≡ true → are_encoded (is_plain_char C.tests) text.now ≡ true }
{
    if !text.is_empty() && !is_percent_or_wide(text[0]) {
        return false;
    }
    let mut rest = text;
    while !rest.is_empty() {
        match after_front::<C, IS_UTF8>(rest) {
            Some(after) => rest = after,
            None => return false,
        }
    }
    true
}

/// Whether the bytes are found to be the UTF-8 of plain bytes, escapes and characters that the set
/// has beyond ASCII. Most often all are plain.
#[inline(always)]
#[tactic(auto, using(std::proofs::lemmas::Grind::common_steps, crate::proofs::EncodedTextLemmas::encoded_nothing))]
pub(crate) fn is_encoded_text<C: CharSet, const IS_UTF8: bool>(text: &[u8]) -> bool
    requires { IS_UTF8 ≡ true → IsUtf8 text.now }
    ensures { result ≡ true → are_encoded (is_plain_char C.tests) text.now ≡ true }
{
    match after_plain::<C, IS_UTF8>(text) {
        Some(rest) => rest.is_empty() || is_encoded_rest::<C, IS_UTF8>(rest),
        None => is_encoded_rest::<C, IS_UTF8>(text),
    }
}
