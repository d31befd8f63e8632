//! The numbers of hosts, and their texts (RFC 3986 section 3.2.2, RFC 5952 section 4).
ghost use Rattle.std.specs.{Prelude.{◌≡◌, Some, IfOk, is_some, ◌+◌, ◌≤◌, ◌++◌, ◌==◌, length}, List.{prefix_len}};
ghost use Rattle.std.specs.String.{string_bytes};
ghost use Rattle.iref_grammar.specs.{is_ip_literal, is_ipv4, ipv4_value};
ghost use Rattle.iref_grammar.specs.{ipv4_text, ipv6_host_text, literal_value, groups_of, groups_text, longest_run};
ghost use Rattle.iref_grammar.specs.{run_start, ipv6_text};
ghost use Rattle.iref_component.specs.Components.{text_of};

use crate::component_rules::HostRule;
use crate::named_texts::HostBuf;
use crate::rule_text::{RuleText, Storage};
use iref_grammar::chars::CharSet;
use iref_parse::{host, ip};
use iref_splice::Memory;
use std::alloc::{AllocError, Global};
use std::fmt::Write;

// How many zero groups are at the front.
fn zeros_at_front(groups: &[u16]) -> usize
    ensures { result ≡ prefix_len (λ group. group == 0) groups.now }
{
    groups.iter().take_while(|group| **group == 0).count()
}

// Where the first of the longest runs of zero groups begins, and how many groups it has.
fn longest_zero_run(groups: &[u16]) -> (usize, usize)
    ensures start { result.0 ≡ run_start groups.now }
    ensures len { result.1 ≡ longest_run groups.now }
    ensures within { result.0 + result.1 ≤ length groups.now }
{
    let [_, rest @ ..] = groups else {
        return (0, 0);
    };
    let len = zeros_at_front(groups);
    let (start, later) = longest_zero_run(rest);
    if len < later {
        (start + 1, later)
    } else {
        (0, len)
    }
}

// Adds the groups in hexadecimal digits, with `:` between.
fn push_groups(text: &mut String, groups: &[u16]) -> Result<(), AllocError>
    ensures { IfOk result
        (λ _. string_bytes text.new ≡ string_bytes text.old ++ groups_text groups.now) }
{
    match groups {
        [] => Ok(()),
        [last] => write!(text, "{last:x}"),
        [first, rest @ ..] => {
            write!(text, "{first:x}:")?;
            push_groups(text, rest)
        }
    }
}

// Adds the groups with the first longest run of zeros, where it is two at least, as `::`.
fn push_address(text: &mut String, groups: &[u16]) -> Result<(), AllocError>
    ensures { IfOk result
        (λ _. string_bytes text.new ≡ string_bytes text.old ++ ipv6_text groups.now) }
{
    let (start, len) = longest_zero_run(groups);
    if len < 2 {
        return push_groups(text, groups);
    }
    push_groups(text, &groups[..start])?;
    text.push_str("::")?;
    push_groups(text, &groups[start + len..])
}

// The eight groups of a number, the highest first.
fn groups_of_number(number: u128) -> [u16; 8]
    ensures { result ≡ groups_of number }
{
    [
        (number >> 112) as u16,
        ((number >> 96) % 0x1_0000) as u16,
        ((number >> 80) % 0x1_0000) as u16,
        ((number >> 64) % 0x1_0000) as u16,
        ((number >> 48) % 0x1_0000) as u16,
        ((number >> 32) % 0x1_0000) as u16,
        ((number >> 16) % 0x1_0000) as u16,
        (number % 0x1_0000) as u16,
    ]
}

impl<S: Storage, C: CharSet> RuleText<S, HostRule, C> {
    /// Whether it is an IP address in brackets (RFC 3986 section 3.2.2), such as `[::1]` and
    /// `[v1.x]`.
    pub fn is_ip_literal(&self) -> bool
        ensures { result ≡ is_ip_literal (text_of self.now) }
    {
        host::is_ip_literal(self.as_borrowed().as_str())
    }

    /// Whether it is an IPv4 address (RFC 3986 section 3.2.2): `10.0.0.7` is one, `10.0.0.07` is a
    /// name.
    pub fn is_ipv4(&self) -> bool
        ensures { result ≡ is_ipv4 (text_of self.now) }
    {
        host::is_ipv4(self.as_borrowed().as_str())
    }

    /// Whether it is an IPv6 address in brackets (RFC 3986 section 3.2.2): `[::1]` is one, `[v1.x]`
    /// is not.
    pub fn is_ipv6(&self) -> bool
        ensures { result ≡ is_some (literal_value (text_of self.now)) }
    {
        self.to_ipv6().is_some()
    }

    /// The number of the IPv4 address, its first octet highest: of `0.0.1.2` 258, of `a.org` None.
    pub fn to_ipv4(&self) -> Option<u32>
        ensures { result ≡ ipv4_value (text_of self.now) }
    {
        ip::ipv4_value(self.as_borrowed().as_str())
    }

    /// The number of the IPv6 address in brackets, its first group highest: of `[::1:2]` 65,538, of
    /// `a.org` None.
    pub fn to_ipv6(&self) -> Option<u128>
        ensures { result ≡ literal_value (text_of self.now) }
    {
        ip::ipv6_value(host::in_brackets(self.as_borrowed().as_str())?)
    }
}

impl<C: CharSet> HostBuf<C> {
    /// The host of the IPv4 address with this number, its first octet highest: of 258, `0.0.1.2`.
    /// Out of memory, it returns `Memory`.
    #[tactic(auto, using(iref_grammar::proofs::HostNumberLemmas::written))]
    pub fn from_ipv4(alloc: Global, number: u32) -> Result<Self, Memory>
        ensures text { IfOk result (λ host. text_of host ≡ ipv4_text number) }
        ensures read_back { IfOk result (λ host. ipv4_value (text_of host) ≡ Some number) }
    {
        let text = format!(in alloc;
            "{}.{}.{}.{}",
            number / 0x100_0000,
            number / 0x1_0000 % 0x100,
            number / 0x100 % 0x100,
            number % 0x100
        );
        Ok(HostBuf::new_unchecked(text?))
    }

    /// The host of the IPv6 address with this number, its first group highest, in brackets and in
    /// the form of RFC 5952 section 4: of 65,538, `[::1:2]`. Out of memory, it returns `Memory`.
    #[tactic(auto, using(iref_grammar::proofs::Ipv6TextLemmas::written))]
    pub fn from_ipv6(alloc: Global, number: u128) -> Result<Self, Memory>
        ensures text { IfOk result (λ host. text_of host ≡ ipv6_host_text number) }
        ensures read_back { IfOk result (λ host. literal_value (text_of host) ≡ Some number) }
    {
        let mut text = String::new(alloc);
        text.push('[')?;
        push_address(&mut text, &groups_of_number(number))?;
        text.push(']')?;
        Ok(HostBuf::new_unchecked(text))
    }
}
