//! Laws of single components: each is the contract of a function that does nothing.
#![tactic(auto)]

ghost use Rattle.std.specs.Prelude.{◌≡◌, ◌↔◌, ℕ, Some};
ghost use Rattle.iref_grammar.specs.{Rules.{Text, AcceptsExactly}, IpAddresses.{IsIpv4, IsIpv6}};
ghost use Rattle.iref_grammar.specs.{IpAddresses.{ipv4_value, ipv6_value}, Grammar.{IsScheme}};
ghost use Rattle.iref_grammar.specs.Grammar.{IsUserInfo, IsRegName, IsIpvFuture, IsIpLiteral};
ghost use Rattle.iref_grammar.specs.Grammar.{IsHost, IsPort, IsSegment, IsPath, IsQuery};
ghost use Rattle.iref_grammar.specs.Grammar.{IsFragment, IsPctStr, IsIpv4Address, IsIpv6Address};
ghost use Rattle.iref_grammar.specs.Tests.{is_scheme, is_user_info, is_reg_name, is_ipv4, is_ipv6};
ghost use Rattle.iref_grammar.specs.Tests.{is_ipvfuture, is_ip_literal, is_host, is_port};
ghost use Rattle.iref_grammar.specs.Tests.{is_segment, is_path, is_query, is_fragment, is_pct_str};

use crate::chars::CharSet;

/// The test of each component decides its rule; that of paths is true of any text of path
/// characters and `/`.
pub fn component_grammar<S: CharSet>()
    ensures scheme { AcceptsExactly is_scheme IsScheme }
    ensures user_info { AcceptsExactly (is_user_info S.tests) (IsUserInfo S.tests) }
    ensures reg_name { AcceptsExactly (is_reg_name S.tests) (IsRegName S.tests) }
    ensures ipv4 { AcceptsExactly is_ipv4 IsIpv4Address }
    ensures ipv6 { AcceptsExactly is_ipv6 IsIpv6Address }
    ensures ipvfuture { AcceptsExactly is_ipvfuture IsIpvFuture }
    ensures ip_literal { AcceptsExactly is_ip_literal IsIpLiteral }
    ensures host { AcceptsExactly (is_host S.tests) (IsHost S.tests) }
    ensures port { AcceptsExactly is_port IsPort }
    ensures segment { AcceptsExactly (is_segment S.tests) (IsSegment S.tests) }
    ensures path { AcceptsExactly (is_path S.tests) (IsPath S.tests) }
    ensures query { AcceptsExactly (is_query S.tests) (IsQuery S.tests) }
    ensures fragment { AcceptsExactly (is_fragment S.tests) (IsFragment S.tests) }
    ensures pct_str { AcceptsExactly is_pct_str IsPctStr }
{}

/// The number that is computed from a text is that of the IPv4 address; and what is in the rule
/// `IPv4address` is what writes four numbers below 256 in decimal digits.
pub fn ipv4_numbers()
    ensures value { (text : Text) (n : ℕ) → (ipv4_value text ≡ Some n) ↔ IsIpv4 text n }
    ensures rule { (text : Text) → IsIpv4Address text ↔ ((n : ℕ) × IsIpv4 text n) }
{}

/// The number that is computed from a text is that of the IPv6 address; and what is in the rule
/// `IPv6address`, of nine alternatives, is what writes eight groups, in full or with `::`.
pub fn ipv6_numbers()
    ensures value { (text : Text) (n : ℕ) → (ipv6_value text ≡ Some n) ↔ IsIpv6 text n }
    ensures rule { (text : Text) → IsIpv6Address text ↔ ((n : ℕ) × IsIpv6 text n) }
{}
