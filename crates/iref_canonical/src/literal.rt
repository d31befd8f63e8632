//! Whether a host decodes to an IP literal (RFC 3986 section 3.2.2).
ghost use Rattle.std.specs.Prelude.{◌≡◌, ◌&&◌, length, nat_le};
ghost use Rattle.percent_encoding.specs.Percent.{percent_decode};
ghost use Rattle.iref_grammar.specs.Tests as test;
ghost use Rattle.iref_canonical.specs.FutureLiteral as future;

use iref_parse::host::is_ip_literal;
use iref_parse::scan::is_future_char;
use percent_encoding::percent_decode_str;
use std::str;

// The most bytes that an IPv6 address in brackets has.
const LONGEST: usize = 47;

// How far the bytes of an address of a future version were read.
#[derive(Clone, Copy)]
enum Progress {
    Nothing,
    Bracket,
    V,
    Version,
    Stop,
    Address,
    Whole,
    Other,
}

// How far they are read after one more byte.
fn after_byte(progress: Progress, byte: u8) -> Progress
    ensures { result ≡ future.after_byte progress byte }
{
    match progress {
        Progress::Nothing if byte == b'[' => Progress::Bracket,
        Progress::Bracket if byte == b'v' || byte == b'V' => Progress::V,
        Progress::V if byte.is_ascii_hexdigit() => Progress::Version,
        Progress::Version if byte.is_ascii_hexdigit() => Progress::Version,
        Progress::Version if byte == b'.' => Progress::Stop,
        Progress::Stop if is_future_char(char::from(byte)) => Progress::Address,
        Progress::Address if is_future_char(char::from(byte)) => Progress::Address,
        Progress::Address if byte == b']' => Progress::Whole,
        _ => Progress::Other,
    }
}

// Whether the text decodes to an address of a future version in brackets.
#[tactic(auto, using(crate::proofs::FutureLiteralLemmas::reads))]
fn decodes_to_future(text: &str) -> bool
    ensures { result ≡ test.some_and test.is_ipvfuture
        (test.in_brackets (percent_decode text.now)) }
{
    let mut progress = Progress::Nothing;
    for byte in percent_decode_str(text) {
        progress = after_byte(progress, byte);
    }
    matches!(progress, Progress::Whole)
}

// Whether the bytes are an IP literal.
#[tactic(auto, using(crate::proofs::LiteralLengthLemmas::not_literal))]
fn are_ip_literal(bytes: &[u8]) -> bool
    ensures { result ≡ test.is_ip_literal bytes.now }
{
    match str::from_utf8(bytes) {
        Ok(text) => is_ip_literal(text),
        Err(_) => false,
    }
}

// Whether the text decodes to few bytes that are an IP literal.
fn few_decode(text: &str) -> bool
    ensures { result ≡ (nat_le (length (percent_decode text.now)) 47
        && test.is_ip_literal (percent_decode text.now)) }
{
    let mut bytes = [0; LONGEST];
    let mut len = 0;
    for byte in percent_decode_str(text) {
        if len == LONGEST {
            return false;
        }
        bytes[len] = byte;
        len += 1;
    }
    are_ip_literal(&bytes[..len])
}

/// Whether the text decodes to an IP literal. Of most hosts the first byte tells that they do not.
#[tactic(auto, using(crate::proofs::LiteralLengthLemmas::no_literal, crate::proofs::LiteralLengthLemmas::literal_left))]
pub(crate) fn decodes_to_ip_literal(text: &str) -> bool
    ensures { result ≡ test.is_ip_literal (percent_decode text.now) }
{
    let may_be = text.starts_with('[') || text.starts_with('%');
    may_be && (few_decode(text) || decodes_to_future(text))
}
