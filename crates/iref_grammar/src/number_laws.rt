//! Laws of the numbers of hosts and ports: each is the contract of a function that does nothing.

ghost use Rattle.std.specs.Prelude.{◌≡◌, ℕ, ◌<◌, ◌^◌, true, Some};
ghost use Rattle.iref_grammar.specs.{ipv4_value, is_host, is_port};
ghost use Rattle.iref_grammar.specs.HostNumbers.{ipv4_text, ipv6_host_text, literal_value};
ghost use Rattle.iref_grammar.specs.PortNumbers.{port_value, port_text};

use crate::chars::CharSet;

/// The port that is written for a number is a port, and is read as this number.
#[tactic(auto, using(crate::proofs::PortNumberLemmas::written))]
pub fn port_numbers_are_read_back()
    ensures rule { (n : ℕ) → n < 2 ^ 128 → is_port (port_text n) ≡ true }
    ensures value { (n : ℕ) → n < 2 ^ 128 → port_value (port_text n) ≡ Some n }
{}

/// The IPv4 address that is written for a number is a host in each grammar, and is read as this
/// number.
#[tactic(auto, using(crate::proofs::HostNumberLemmas::written))]
pub fn ipv4_numbers_are_read_back<S: CharSet>()
    ensures rule { (n : ℕ) → n < 2 ^ 32 → is_host S.tests (ipv4_text n) ≡ true }
    ensures value { (n : ℕ) → n < 2 ^ 32 → ipv4_value (ipv4_text n) ≡ Some n }
{}

/// The IPv6 address in brackets that is written for a number is a host in each grammar, and is
/// read as this number.
#[tactic(auto, using(crate::proofs::Ipv6TextLemmas::written))]
pub fn ipv6_numbers_are_read_back<S: CharSet>()
    ensures rule { (n : ℕ) → n < 2 ^ 128 → is_host S.tests (ipv6_host_text n) ≡ true }
    ensures value { (n : ℕ) → n < 2 ^ 128 → literal_value (ipv6_host_text n) ≡ Some n }
{}
