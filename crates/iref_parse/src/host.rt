//! Whether a text is a host (RFC 3986 section 3.2.2).

ghost use Rattle.std.specs.{Prelude.{◌≡◌, ◌&&◌, [], ◌∷◌, Some}, List.{list_all}, Option.{option_copied}};
ghost use Rattle.iref_grammar.specs.Grammar as grammar;
ghost use Rattle.iref_grammar.specs.Texts.{before, after};
ghost use Rattle.iref_grammar.specs.Tests as test;

use crate::cut::cut;
use crate::ip::{are_hexadecimal, ipv4_value};
use crate::ipv6::is_ipv6;
use crate::scan::{is_future_char, is_reg_name};
use iref_grammar::chars::CharSet;

// Whether the text is hexadecimal digits, one at least.
fn is_future_version(text: &str) -> bool
    ensures { result ≡ test.is_future_version text.now }
{
    !text.is_empty() && are_hexadecimal(text.as_bytes())
}

// Whether each byte may stand in an address of a future version.
fn are_future_chars(bytes: &[u8]) -> bool
    ensures { result ≡ list_all grammar.is_future_char bytes.now }
{
    bytes.iter().all(|byte| is_future_char(char::from(*byte)))
}

// Whether the text is characters that may stand in an address of a future version, one at least.
fn is_future_address(text: &str) -> bool
    ensures { result ≡ test.is_future_address (Some text.now) }
{
    !text.is_empty() && are_future_chars(text.as_bytes())
}

// Whether the text is a version, a `.` and an address.
fn is_after_v(text: &str) -> bool
    ensures { result ≡ (test.is_future_version (before (grammar.full_stop ∷ []) text.now) &&
        test.is_future_address (after grammar.full_stop text.now)) }
{
    match cut(text, '.') {
        (version, Some(address)) => { is_future_version(version) && is_future_address(address) }
        (_, None) => false,
    }
}

/// Whether the text is an address of a future version of IP.
#[tactic(auto, unfolding(iref_grammar::specs::Tests::is_ipvfuture))]
pub fn is_ipvfuture(text: &str) -> bool
    ensures { result ≡ test.is_ipvfuture text.now }
{
    match text.strip_prefix('v') {
        Some(rest) => is_after_v(rest),
        None => match text.strip_prefix('V') {
            Some(rest) => is_after_v(rest),
            None => false,
        },
    }
}

/// What stands between brackets that begin and end the text, where no `]` is between.
pub fn in_brackets(text: &str) -> Option<&str>
    ensures { option_copied result ≡ test.in_brackets text.now }
{
    let (inside, rest) = cut(text.strip_prefix('[')?, ']');
    if rest?.is_empty() { Some(inside) } else { None }
}

/// Whether the text is an IPv6 address, or one of a future version, in brackets.
#[tactic(auto, unfolding(iref_grammar::specs::Tests::is_ip_literal))]
pub fn is_ip_literal(text: &str) -> bool
    ensures { result ≡ test.is_ip_literal text.now }
{
    in_brackets(text).is_some_and(|address| is_ipv6(address) || is_ipvfuture(address))
}

/// Whether the text is an IPv4 address.
#[tactic(auto, unfolding(iref_grammar::specs::Tests::is_ipv4))]
pub fn is_ipv4(text: &str) -> bool
    ensures { result ≡ test.is_ipv4 text.now }
{
    ipv4_value(text).is_some()
}

/// Whether the text is a host: an IP literal or a registered name, of which IPv4 addresses are
/// some.
#[tactic(auto, unfolding(iref_grammar::specs::Tests::is_host))]
pub fn is_host<C: CharSet>(text: &str) -> bool
    ensures { result ≡ test.is_host C.tests text.now }
{
    is_ip_literal(text) || is_reg_name::<C>(text)
}
