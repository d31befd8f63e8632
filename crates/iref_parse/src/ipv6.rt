//! Whether a text is an IPv6 address (RFC 3986 section 3.2.2), most often in one scan.

ghost use Rattle.std.specs.Prelude.{◌≡◌, ◌<◌, drop};
ghost use Rattle.iref_grammar.specs.Tests as test;
ghost use Rattle.iref_parse.specs.Ipv6Scan as scan;

use crate::ip::ipv6_value;

// Whether the bytes are the rest of an octet of an IPv4 address, and then exactly `room` more
// octets, each after a `.`. `octet` is the value of the digits that were read of the first one, and
// `is_begun` says whether there were any.
fn ends_in_octets(bytes: &[u8], room: u8, is_begun: bool, octet: u16) -> bool
    requires { octet < 256 }
    ensures { result ≡ scan.ends_in_octets room is_begun octet bytes.now }
{
    let Some((first, others)) = bytes.split_first() else {
        return room == 0 && is_begun;
    };
    if first.is_ascii_digit() {
        let next = octet * 10 + u16::from(*first - b'0');
        !(is_begun && octet == 0) && next < 256 && ends_in_octets(others, room, true, next)
    } else {
        *first == b'.' && is_begun && room > 0 && ends_in_octets(others, room - 1, false, 0)
    }
}

// Whether the first bytes are digits of a group, and the bytes end in groups for which there is
// room.
fn ends_in_groups(group: &[u8], digits: usize, room: u8) -> bool
    ensures { result ≡ scan.ends_in_groups room group.now digits (drop digits group.now) }
{
    let Some(byte) = group.get(digits) else {
        return digits > 0;
    };
    if byte.is_ascii_hexdigit() {
        digits < 4 && ends_in_groups(group, digits + 1, room)
    } else if *byte == b':' {
        digits > 0 && room > 0 && ends_in_groups(&group[digits + 1..], 0, room - 1)
    } else {
        *byte == b'.' && room > 0 && ends_in_octets(group, 3, false, 0)
    }
}

// Whether the bytes may follow `::`, with at most this number of groups.
fn is_after_gap(bytes: &[u8], room: u8) -> bool
    ensures { result ≡ scan.is_after_gap room bytes.now }
{
    bytes.is_empty() || (room > 0 && ends_in_groups(bytes, 0, room - 1))
}

// Whether the first bytes are digits of a group, and the bytes fill the room for groups or hold
// `::`.
fn has_groups(group: &[u8], digits: usize, room: u8) -> bool
    ensures { result ≡ scan.has_groups room group.now digits (drop digits group.now) }
{
    let Some(byte) = group.get(digits) else {
        return room == 0 && digits > 0;
    };
    if byte.is_ascii_hexdigit() {
        digits < 4 && has_groups(group, digits + 1, room)
    } else if *byte != b':' {
        *byte == b'.' && room == 1 && ends_in_octets(group, 3, false, 0)
    } else if digits > 0 {
        room > 0 && has_groups(&group[digits + 1..], 0, room - 1)
    } else {
        room < 7 && is_after_gap(&group[1..], room)
    }
}

// Whether the bytes are `::` and what may follow it at the front of an address.
fn opens_with_gap(bytes: &[u8]) -> bool
    ensures { result ≡ scan.opens_with_gap bytes.now }
{
    let Some((first, others)) = bytes.split_first() else {
        return false;
    };
    let Some((second, rest)) = others.split_first() else {
        return false;
    };
    *first == b':' && *second == b':' && is_after_gap(rest, 7)
}

// Whether the bytes are found to be an IPv6 address in one scan.
#[inline(always)]
fn is_scanned_ipv6(bytes: &[u8]) -> bool
    ensures { result ≡ scan.is_scanned_ipv6 bytes.now }
{
    has_groups(bytes, 0, 7) || opens_with_gap(bytes)
}

/// Whether the text is an IPv6 address, without brackets.
#[tactic(auto, using(crate::proofs::Ipv6ScanLemmas::scanned_address))]
#[inline(always)]
pub fn is_ipv6(text: &str) -> bool
    ensures { result ≡ test.is_ipv6 text.now }
{
    is_scanned_ipv6(text.as_bytes()) || ipv6_value(text).is_some()
}
