//! The bytes that a text decodes to, encoded anew (RFC 3986 section 2.1).
ghost use Rattle.std.specs.{Prelude.{◌≡◌, false, [], MatchOption}, List.{list_all}, Str.{str_to_ascii_lowercase}};
ghost use Rattle.percent_encoding.specs.Percent.{percent_decode};
ghost use Rattle.iref_canonical.specs.{Canonical.{is_raw}, Decoded.{SplitsLast, ends_in_escape}};
ghost use Rattle.iref_canonical.specs.Decoded.{SparesNames, is_escaped, is_passed, is_unchanged, recoded, recoded_byte};

use iref_parse::unescaped::{has_name_bytes, has_no_percent};
use iref_splice::backward::Backward;
use percent_encoding::{AsciiSet, NON_ALPHANUMERIC, ascii_set, percent_encode_byte};

/// What is escaped in a registered name (RFC 3986 section 3.2.2).
pub const REG_NAME: AsciiSet = ascii_set!(
    NON_ALPHANUMERIC
        .remove(b'-')
        .remove(b'.')
        .remove(b'_')
        .remove(b'~')
        .remove(b'!')
        .remove(b'$')
        .remove(b'&')
        .remove(b'\'')
        .remove(b'(')
        .remove(b')')
        .remove(b'*')
        .remove(b'+')
        .remove(b',')
        .remove(b';')
        .remove(b'=')
);

/// What is escaped in a user info (RFC 3986 section 3.2.1).
pub const USER_INFO: AsciiSet = ascii_set!(REG_NAME.remove(b':'));

/// What is escaped in a segment (RFC 3986 section 3.3).
pub const SEGMENT: AsciiSet = ascii_set!(USER_INFO.remove(b'@'));

/// What is escaped in a query and in a fragment (RFC 3986 sections 3.4 and 3.5).
pub const QUERY: AsciiSet = ascii_set!(SEGMENT.remove(b'/').remove(b'?'));

// The byte of the escape that ends the text, and what stands before it.
#[inline(always)]
#[tactic(auto, using(crate::proofs::DecodedLemmas::splits, std::proofs::lemmas::Grind::common_steps))]
fn split_last_escape(text: &[u8]) -> Option<(&[u8], u8)>
    ensures { MatchOption result (ends_in_escape text.now ≡ false)
        (λ split. SplitsLast percent_decode text.now split.0.now split.1) }
{
    let at = text.len().checked_sub(3)?;
    if text[at] != b'%' {
        return None;
    }
    let high = char::from(text[at + 1]).to_digit(16)?;
    let low = char::from(text[at + 2]).to_digit(16)?;
    Some((&text[..at], (16 * high + low) as u8))
}

/// The last byte that the text decodes to, and what stands before it.
#[inline(always)]
#[tactic(auto, using(crate::proofs::DecodedLemmas::splits))]
pub fn split_last_decoded(text: &[u8]) -> Option<(&[u8], u8)>
    ensures { MatchOption result (text.now ≡ [])
        (λ split. SplitsLast percent_decode text.now split.0.now split.1) }
{
    let (last, front) = text.split_last()?;
    match split_last_escape(text) {
        Some(split) => Some(split),
        None => Some((front, *last)),
    }
}

// Whether the byte is beyond ASCII, but for 255, which ends what is hashed.
#[inline(always)]
fn is_raw(byte: u8) -> bool
    ensures { result ≡ is_raw byte }
{
    !byte.is_ascii() && byte != 0xff
}

// Whether the byte is in the set, or beyond ASCII if such bytes do not stand raw.
#[inline(always)]
#[tactic(auto, unfolding(crate::specs::Decoded::is_escaped))]
fn is_escaped(raw: bool, set: AsciiSet, byte: u8) -> bool
    ensures { result ≡ is_escaped raw set byte }
{
    set.should_percent_encode(byte) && !(raw && is_raw(byte))
}

// Puts a byte, or its escape.
#[inline(always)]
#[tactic(auto, unfolding(crate::specs::Decoded::recoded_byte))]
fn put_byte<O: Backward>(out: &mut O, raw: bool, set: AsciiSet, byte: u8)
    requires { O.fits out.old (recoded_byte raw set byte) }
    ensures { out.new ≡ O.after out.old (recoded_byte raw set byte) }
{
    if is_escaped(raw, set, byte) {
        out.put(percent_encode_byte(byte).as_bytes());
    } else {
        out.put(&[byte]);
    }
}

// Whether no byte of the text is escaped.
#[inline(always)]
fn are_unchanged(raw: bool, set: AsciiSet, text: &str) -> bool
    ensures { result ≡ list_all (is_unchanged raw set) text.now }
{
    text.bytes().all(|byte| !is_escaped(raw, set, byte))
}

// Whether no byte of the text is `%` or escaped, so that decoded and encoded anew it stands.
#[inline(always)]
#[tactic(auto, unfolding(crate::specs::Decoded::is_passed))]
fn is_passed(raw: bool, set: AsciiSet, text: &str) -> bool
    ensures { result ≡ is_passed raw set text.now }
{
    has_no_percent(text.as_bytes()) && are_unchanged(raw, set, text)
}

/// Puts the bytes that the text decodes to, those of the set escaped, and those beyond ASCII if they
/// do not stand raw. Most texts stand as they are.
#[tactic(auto, using(crate::proofs::EncodedLemmas::lasts))]
pub(crate) fn put_encoded<O: Backward>(out: &mut O, raw: bool, set: AsciiSet, text: &str)
    requires names { SparesNames set }
    requires fits { O.fits out.old (recoded raw set (percent_decode text.now)) }
    ensures { out.new ≡ O.after out.old (recoded raw set (percent_decode text.now)) }
{
    if has_name_bytes(text.as_bytes()) || is_passed(raw, set, text) {
        out.put(text.as_bytes());
        return;
    }
    let mut rest = text.as_bytes();
    while let Some((front, byte)) = split_last_decoded(rest) {
        put_byte(out, raw, set, byte);
        rest = front;
    }
}

/// Puts the text in lower case.
pub(crate) fn put_lower<O: Backward>(out: &mut O, text: &str)
    requires { O.fits out.old (str_to_ascii_lowercase text.now) }
    ensures { out.new ≡ O.after out.old (str_to_ascii_lowercase text.now) }
{
    let mut rest = text.as_bytes();
    while let Some((last, front)) = rest.split_last() {
        out.put(&[last.to_ascii_lowercase()]);
        rest = front;
    }
}
