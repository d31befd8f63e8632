//! The split of an authority (RFC 3986 section 3.2), and whether a text is one.

ghost use Rattle.std.specs.{Prelude.{◌≡◌, true}, Option.{option_copied}};
ghost use Rattle.iref_grammar.specs.Authority.{read_authority, read_host_and_port, bracketed};
ghost use Rattle.iref_grammar.specs.Authority.{after_bracketed, has_authority_parts};
ghost use Rattle.iref_grammar.specs.Authority as authority;
ghost use Rattle.iref_grammar.specs.{Characters.{CharTests, AreAboveAscii}};
ghost use Rattle.iref_parse.specs.AuthoritySlices.{authority_of, is_port_part};

use crate::cut::{cut, split_before};
use crate::host::is_host;
use crate::ipv6::is_ipv6;
use crate::scan::{are_digits, is_port, is_user_info};
use iref_grammar::chars::CharSet;

/// The parts of an authority, as slices of its text (RFC 3986 section 3.2): of `u@h:80` they are
/// `u`, `h` and `80`.
#[derive(Clone, Copy)]
pub struct AuthoritySlices<'a> {
    /// What stands before the first `@`.
    pub user_info: Option<&'a str>,
    /// What stands before the port.
    pub host: &'a str,
    /// What follows the `:` after the host.
    pub port: Option<&'a str>,
}

// The front in which no `:` ends the host, up to the `]` of a bracketed address, and what follows.
#[inline(always)]
fn split_address(text: &str) -> (&str, &str)
    ensures front { result.0.now ≡ bracketed text.now }
    ensures back { result.1.now ≡ after_bracketed text.now }
{
    if text.starts_with('[') {
        split_before(text, ']')
    } else {
        ("", text)
    }
}

// The host and the port, beside the user info that stands before them.
#[inline(always)]
#[tactic(auto, using(std::proofs::lemmas::Grind::common_steps, iref_grammar::proofs::AuthorityLemmas::hosts))]
fn split_host<'a>(user_info: Option<&'a str>, text: &'a str) -> AuthoritySlices<'a>
    ensures { authority_of result ≡ read_host_and_port (option_copied user_info.entry) text.now }
{
    let (address, rest) = split_address(text);
    let (name, port) = cut(rest, ':');
    let (host, _) = text.split_at(address.len() + name.len());
    AuthoritySlices {
        user_info,
        host,
        port,
    }
}

/// The parts of the text as an authority.
#[tactic(auto, unfolding(iref_grammar::specs::Authority::read_authority))]
pub fn split_parts(text: &str) -> AuthoritySlices<'_>
    ensures { authority_of result ≡ read_authority text.now }
{
    match cut(text, '@') {
        (user_info, Some(rest)) => split_host(Some(user_info), rest),
        (_, None) => split_host(None, text),
    }
}

/// Whether the bytes are nothing, or `:` and a port.
pub(crate) fn is_port_part(bytes: &[u8]) -> bool
    ensures { result ≡ is_port_part bytes.now }
{
    let Some((first, port)) = bytes.split_first() else {
        return true;
    };
    *first == b':' && are_digits(port)
}

// Whether the text is an IPv6 address in brackets, and a port, if any.
fn is_ipv6_and_port(text: &str) -> bool
    ensures { result ≡ true → (set : CharTests) → AreAboveAscii set
        → authority.is_authority set text.now ≡ true }
{
    let Some(rest) = text.strip_prefix('[') else {
        return false;
    };
    match cut(rest, ']') {
        (inside, Some(end)) => is_ipv6(inside) && is_port_part(end.as_bytes()),
        (_, None) => false,
    }
}

// Whether each part is in its rule.
#[tactic(auto, unfolding(iref_grammar::specs::Authority::has_authority_parts))]
fn are_parts<C: CharSet>(parts: AuthoritySlices<'_>) -> bool
    ensures { result ≡ has_authority_parts C.tests (authority_of parts.entry) }
{
    parts.user_info.is_none_or(|text| is_user_info::<C>(text))
        && is_host::<C>(parts.host)
        && parts.port.is_none_or(|text| is_port(text))
}

/// Whether the text is an authority (RFC 3986 section 3.2). Most often it is a host alone, or an
/// IPv6 address and a port.
#[tactic(auto, using(crate::proofs::AuthorityLemmas::host_alone), unfolding(iref_grammar::specs::is_authority))]
pub fn is_authority<C: CharSet>(text: &str) -> bool
    ensures { result ≡ authority.is_authority C.tests text.now }
{
    is_ipv6_and_port(text) || is_host::<C>(text) || are_parts::<C>(split_parts(text))
}
