//! Where a text is wrong, and why.
#![tactic(auto, using(crate::proofs::FaultValueLemmas::part_value))]

ghost use Rattle.std.specs.Prelude.{◌≡◌, option_map, false, chars, IfSome, MatchResult};
ghost use Rattle.std.specs.Str.{IsCharBoundary, is_utf8};
ghost use Rattle.iref_fault.specs.BytePlaces.{fault_value, invalid_component, value_at};
ghost use Rattle.iref_fault.specs.{Faults.{fault_of_part, first_char, not_utf8}, Printed.{component_name, fault_text}};
ghost use Rattle.iref_fault.specs.Faults as spec;

use crate::component::{Cause, Component};
use crate::part::PartRule;
use crate::pieces::{Place, has_scheme, place_in_authority, place_in_part, place_in_reference};
use iref_grammar::chars::CharSet;
use iref_parse::scan::split_first_char;
use std::{fmt, str};

/// Where a text is wrong, and why: of the URI `http://h:8x/`, that its port is invalid at byte 10,
/// where `x` stands. It is printed as `invalid port at byte 10: 'x'`.
#[derive(Clone, Copy, Debug, PartialEq, Eq)]
pub struct Fault {
    cause: Cause,
    at: usize,
    found: Option<char>,
}

impl Fault {
    /// Why the text is refused: of the URI `a/b`, `Cause::NoScheme`.
    pub fn cause(&self) -> Cause
        ensures { result ≡ (fault_value self.now).cause }
    {
        self.cause
    }

    /// The component that is outside its rule: of `http://h:8x/` the port. Of a URI without scheme,
    /// and of bytes that are not UTF-8, none is.
    pub fn component(&self) -> Option<Component>
        ensures { result ≡ invalid_component (fault_value self.now).cause }
    {
        match self.cause {
            Cause::Invalid(component) => Some(component),
            Cause::NoScheme | Cause::NotUtf8 => None,
        }
    }

    /// How many bytes of the whole text stand before the place: of `http://h:8x/` there are 10.
    pub fn at(&self) -> usize
        ensures { result ≡ (fault_value self.now).at }
    {
        self.at
    }

    /// The character that stands there: of `http://h:8x/` the `x`. None does if the text ends there,
    /// if there is no scheme, and if the bytes are not UTF-8.
    pub fn found(&self) -> Option<char>
        ensures { result ≡ (fault_value self.now).found }
    {
        self.found
    }
}

/// What a component is called in print: `Component::UserInfo` is `user info`.
pub fn component_name(component: Component) -> &'static str
    ensures { result.now ≡ component_name component }
{
    match component {
        Component::Scheme => "scheme",
        Component::UserInfo => "user info",
        Component::Host => "host",
        Component::Port => "port",
        Component::Path => "path",
        Component::Query => "query",
        Component::Fragment => "fragment",
    }
}

/// What is wrong, at which byte, and the character there as `{:?}` writes it, such as
/// `invalid port at byte 10: 'x'`.
impl fmt::Display for Fault {
    ghost output = { λ fault. fault_text (fault_value fault) };

    fn fmt<W: fmt::Write>(&self, f: &mut fmt::Formatter<W>) -> fmt::Result {
        match self.cause {
            Cause::NoScheme => f.write_str("no scheme"),
            Cause::NotUtf8 => write!(f, "not UTF-8 at byte {}", self.at),
            Cause::Invalid(component) => {
                let name = component_name(component);
                write!(f, "invalid {name} at byte {}: ", self.at)?;
                match self.found {
                    Some(c) => write!(f, "{c:?}"),
                    None => f.write_str("the text ends"),
                }
            }
        }
    }
}

// The first character.
fn first_char(text: &str) -> Option<char>
    ensures { result ≡ first_char (chars text.now) }
{
    let (first, _) = split_first_char(text)?;
    Some(first)
}

// The fault at this place of the text, if there is one.
fn fault_at(text: &str, place: Option<Place>) -> Option<Fault>
    requires { IfSome place (λ p. IsCharBoundary text.now p.at) }
    ensures { option_map fault_value result ≡ option_map (value_at text.now) place }
{
    let Place { component, at } = place?;
    let (_, rest) = text.split_at(at);
    Some(Fault {
        cause: Cause::Invalid(component),
        at,
        found: first_char(rest),
    })
}

/// The fault of a single text, if it is outside the rule: of the port `8x0`, at 1. Of a segment the
/// component is the path.
pub fn fault_of_part<C: CharSet>(rule: PartRule, text: &str) -> Option<Fault>
    ensures { option_map fault_value result ≡ fault_of_part C.tests rule text.now }
{
    fault_at(text, place_in_part::<C>(rule, 0, text))
}

/// The fault of an authority (RFC 3986 section 3.2), if it is wrong: of `u@h:8x`, in the port, at 5.
pub fn fault_of_authority<C: CharSet>(text: &str) -> Option<Fault>
    ensures { option_map fault_value result ≡ spec.fault_of_authority C.tests text.now }
{
    fault_at(text, place_in_authority::<C>(0, text))
}

/// The fault of a reference (RFC 3986 section 4.1), if it is wrong: of `a/b c`, in the path, at 3.
pub fn fault_of_reference<C: CharSet>(text: &str) -> Option<Fault>
    ensures { option_map fault_value result ≡ spec.fault_of_reference C.tests text.now }
{
    fault_at(text, place_in_reference::<C>(text))
}

/// The fault of a URI (RFC 3986 section 3), if it is wrong: of `a/b`, that it has no scheme.
pub fn fault_of_uri<C: CharSet>(text: &str) -> Option<Fault>
    ensures { option_map fault_value result ≡ spec.fault_of_uri C.tests text.now }
{
    if has_scheme(text) {
        fault_of_reference::<C>(text)
    } else {
        Some(Fault {
            cause: Cause::NoScheme,
            at: 0,
            found: None,
        })
    }
}

/// The text of bytes that are UTF-8; else the fault at the first byte that is not: of the bytes 97
/// and 255, at 1.
pub fn text_of_bytes(bytes: &[u8]) -> Result<&str, Fault>
    ensures { MatchResult result (λ text. text.now ≡ bytes.now)
        (λ fault. (is_utf8 bytes.now ≡ false) × (fault_value fault ≡ not_utf8 bytes.now)) }
{
    match str::from_utf8(bytes) {
        Ok(text) => Ok(text),
        Err(error) => Err(Fault {
            cause: Cause::NotUtf8,
            at: error.valid_up_to(),
            found: None,
        }),
    }
}
