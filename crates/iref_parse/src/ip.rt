//! IP addresses and their numbers (RFC 3986 section 3.2.2).

ghost use Rattle.std.specs.{List.{list_all}, Char.{is_ascii_hexdigit}, Prelude.{◌≡◌, ◌+◌, ◌-◌}};
ghost use Rattle.std.specs.Prelude.{◌*◌, ◌^◌, ◌<◌, ◌≤◌, ◌==◌, ◌&&◌, ℕ, nat_lt, nat_le, List, ◌∷◌};
ghost use Rattle.std.specs.Prelude.{length, slice_index, Option, None, Some, option_map};
ghost use Rattle.std.specs.Prelude.{option_and_then, map, IfSome, MatchOption, if◌then◌else◌};
ghost use Rattle.iref_grammar.specs.{pieces_at, colon, Text};
ghost use Rattle.iref_parse.specs.IpGroups.{counted, counted_after, filled_number};
ghost use Rattle.iref_grammar.specs.IpAddresses as ip;

// Whether a zero stands before another character.
fn has_leading_zero(text: &str) -> bool
    ensures { result ≡ (slice_index text.now 0 == 48 && nat_lt 1 (length text.now)) }
{
    text.starts_with('0') && text.len() > 1
}

// The number below 256 that the text writes in decimal digits without leading zeros.
fn octet_value(text: &str) -> Option<u8>
    ensures { result ≡ ip.octet_value text.now }
{
    if text.starts_with('+') || has_leading_zero(text) {
        return None;
    }
    text.parse().ok()
}

// The octet before the first `.`, and what follows.
fn take_octet(text: &str) -> Option<(u8, &str)>
    ensures { MatchOption result (IfSome (ip.octet_values text.now) (λ octets. length octets < 2))
        (λ taken. ip.octet_values text.now
        ≡ option_map (λ octets. taken.0 ∷ octets) (ip.octet_values taken.1.now)) }
{
    let (octet, rest) = text.split_once('.')?;
    Some((octet_value(octet)?, rest))
}

/// The number of an IPv4 address, if the text is one.
pub fn ipv4_value(text: &str) -> Option<u32>
    ensures { result ≡ ip.ipv4_value text.now }
{
    let (first, rest) = take_octet(text)?;
    let (second, rest) = take_octet(rest)?;
    let (third, rest) = take_octet(rest)?;
    let fourth = octet_value(rest)?;
    Some(u32::from_be_bytes([first, second, third, fourth]))
}

/// Whether each byte is a hexadecimal digit.
pub(crate) fn are_hexadecimal(bytes: &[u8]) -> bool
    ensures { result ≡ list_all is_ascii_hexdigit bytes.now }
{
    bytes.iter().all(|b| b.is_ascii_hexdigit())
}

// Whether the text is at most four hexadecimal digits.
fn is_short_hexadecimal(text: &str) -> bool
    ensures { result ≡ (nat_le (length text.now) 4 && list_all is_ascii_hexdigit text.now) }
{
    text.len() <= 4 && are_hexadecimal(text.as_bytes())
}

// The number that the text writes in one to four hexadecimal digits.
fn group_value(text: &str) -> Option<u16>
    ensures { result ≡ ip.group_value text.now }
{
    if is_short_hexadecimal(text) {
        u16::from_str_radix(text, 16).ok()
    } else {
        None
    }
}

// Groups of an IPv6 address: how many, and the number that they write.
#[derive(Clone, Copy)]
struct Groups {
    count: u32,
    value: u128,
    ghost few: { count ≤ 8 },
    ghost in_range: { value < 65536 ^ count },
}

impl Groups {
    // No group.
    fn none() -> Self
        ensures count { result.count ≡ 0 }
        ensures value { result.value ≡ 0 }
    {
        Groups { count: 0, value: 0 }
    }

    // With one group more at the end, if there were fewer than eight.
    fn push(self, group: u16) -> Option<Self>
        ensures { MatchOption result (self.count ≡ 8)
            (λ more. (more.count ≡ self.count + 1) × (more.value ≡ 65536 * self.value + group)) }
    {
        if self.count == 8 {
            return None;
        }
        Some(Groups {
            count: self.count + 1,
            value: self.value * 65536 + u128::from(group),
        })
    }

    // With the group that the text writes, if it writes one and they are eight at most.
    fn push_text(self, text: &str) -> Option<Self>
        ensures { let groups = option_and_then (counted_after self.count self.value)
            (ip.one_group text.now) in MatchOption result (groups ≡ None)
            (λ more. groups ≡ Some (more.count, more.value)) }
    {
        self.push(group_value(text)?)
    }

    // With one group more or with the two of an IPv4 address, if the text is either and they are
    // eight at most.
    fn push_last(self, text: &str) -> Option<Self>
        ensures { let groups = option_and_then (counted_after self.count self.value)
            (ip.last_group_values text.now) in MatchOption result (groups ≡ None)
            (λ more. groups ≡ Some (more.count, more.value)) }
    {
        if let Some(group) = group_value(text) {
            return self.push(group);
        }
        let address = ipv4_value(text)?;
        self.push((address / 65536) as u16)?
            .push((address % 65536) as u16)
    }

    // Their number, if they are eight.
    fn eight(self) -> Option<u128>
        ensures { result ≡ (if self.count == 8 then Some self.value else None) }
    {
        (self.count == 8).then_some(self.value)
    }

    // The number of eight groups that begin with these and end with zeros.
    #[tactic(auto, using(crate::proofs::GroupLemmas::room_fits, crate::proofs::GroupLemmas::zeros_fit))]
    fn followed_by_zeros(self) -> u128
        ensures { result ≡ self.value * 65536 ^ (8 - self.count) }
    {
        if self.count == 0 {
            return 0;
        }
        self.value * 65536_u128.pow(8 - self.count)
    }

    // The number of eight groups that begin with these, end with the others and are zeros between,
    // one at least.
    #[tactic(auto, using(crate::proofs::GroupLemmas::filled_fits))]
    fn fill(self, end: Groups) -> Option<u128>
        ensures { result ≡ filled_number self.count self.value end.count end.value }
    {
        if self.count + end.count > 7 {
            return None;
        }
        Some(self.followed_by_zeros() + end.value)
    }
}

// The groups before the last `:`, and what follows it.
#[tactic(auto, using(crate::proofs::GroupLemmas::reads))]
fn groups_before_last(text: &str) -> Option<(Groups, &str)>
    ensures { MatchOption result
        ((last : Text → Option (List ℕ))
        → counted (ip.groups_then last (pieces_at colon text.now)) ≡ None)
        (λ read. (last : Text → Option (List ℕ))
        → counted (ip.groups_then last (pieces_at colon text.now))
        ≡ option_and_then (counted_after read.0.count read.0.value) (last read.1.now)) }
{
    let mut groups = Groups::none();
    let mut rest = text;
    while let Some((piece, after)) = rest.split_once(':') {
        groups = groups.push(group_value(piece)?)?;
        rest = after;
    }
    Some((groups, rest))
}

// The groups before `::`.
#[tactic(auto, using(crate::proofs::GroupLemmas::groups_alone))]
fn start_groups(text: &str) -> Option<Groups>
    ensures { let groups = counted (ip.all_some (map ip.group_value (ip.group_pieces text.now))) in
        MatchOption result (groups ≡ None) (λ read. groups ≡ Some (read.count, read.value)) }
{
    if text.is_empty() {
        return Some(Groups::none());
    }
    let (groups, last) = groups_before_last(text)?;
    groups.push_text(last)
}

// The groups after `::` or without it, of which the last two may be written as an IPv4 address.
fn end_groups(text: &str) -> Option<Groups>
    ensures { let groups = counted (ip.last_groups_of (ip.group_pieces text.now)) in MatchOption
        result (groups ≡ None) (λ read. groups ≡ Some (read.count, read.value)) }
{
    if text.is_empty() {
        return Some(Groups::none());
    }
    let (groups, last) = groups_before_last(text)?;
    groups.push_last(last)
}

/// The number of an IPv6 address, if the text is one.
#[tactic(auto, using(crate::proofs::DoubleColonLemmas::groups_by_colons))]
pub fn ipv6_value(text: &str) -> Option<u128>
    ensures { result ≡ ip.ipv6_value text.now }
{
    match text.split_once("::") {
        Some((before, after)) => start_groups(before)?.fill(end_groups(after)?),
        None => end_groups(text)?.eight(),
    }
}
