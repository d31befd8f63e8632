//! The cut of any text into components and parts (RFC 3986 appendix B), and the first of them that
//! is outside its rule.
ghost use Rattle.std.specs.{Prelude.{◌≡◌, ◌+◌, ◌<◌, ◌^◌, length, IfSome, is_some, ◌||◌}, Option.{option_copied}};
ghost use Rattle.iref_grammar.specs.{Grammar.{right_bracket}, Reference.{hierarchy}};
ghost use Rattle.iref_grammar.specs.Texts.{after};
ghost use Rattle.iref_fault.specs.Cut as spec;
ghost use Rattle.iref_fault.specs.Cut.{piece, piece_if, authority_pieces, authority_pieces_if};
ghost use Rattle.iref_fault.specs.Cut.{host_pieces, pieces_of, has_cut_scheme};
ghost use Rattle.iref_fault.specs.CutSteps.{after_last, hierarchy_pieces, path_rule, pieces_after_scheme};
ghost use Rattle.iref_fault.specs.BytePlaces.{first_place, placed};

use crate::component::Component;
use crate::part::PartRule;
use crate::scan;
use iref_grammar::chars::CharSet;
use iref_parse::cut::cut;
use iref_parse::split::{split_authority, split_scheme};

/// A component that is outside its rule, and where, in bytes of the whole text.
#[derive(Clone, Copy)]
pub struct Place {
    /// The component.
    pub component: Component,
    /// How many bytes stand before the place.
    pub at: usize,
}

// The place in a component that begins at `start`.
fn placed(component: Component, start: usize, at: Option<usize>) -> Option<Place>
    requires { IfSome at (λ n. start + n < 2 ^ 64) }
    ensures { result ≡ placed component start at }
{
    let at = start + at?;
    Some(Place { component, at })
}

// Of a text that begins at `start`.
#[tactic(auto, using(crate::proofs::FirstPlaceLemmas::place_within))]
pub(crate) fn place_in_part<C: CharSet>(rule: PartRule, start: usize, text: &str) -> Option<Place>
    requires { start + length text.now < 2 ^ 64 }
    ensures { result ≡ first_place C.tests (piece rule start text.now) }
{
    placed(rule.component(), start, scan::place_in::<C>(rule, text))
}

// Of a text, if there is one.
fn place_if<C: CharSet>(rule: PartRule, start: usize, part: Option<&str>) -> Option<Place>
    requires { IfSome (option_copied part) (λ t. start + length t < 2 ^ 64) }
    ensures { result ≡ first_place C.tests (piece_if rule start (option_copied part.entry)) }
{
    place_in_part::<C>(rule, start, part?)
}

// What follows the first `]`.
fn after_bracket(text: &str) -> Option<&str>
    ensures after { option_copied result ≡ after right_bracket text.now }
    ensures shorter { IfSome result (λ rest. length rest.now < length text.now) }
{
    cut(text, ']').1
}

// What follows the last `]`, or all of the text.
fn after_last(text: &str) -> &str
    ensures { result.now ≡ after_last text.now }
{
    let mut rest = text;
    while let Some(after) = after_bracket(rest) {
        rest = after;
    }
    rest
}

// The port of a text that begins with `[`: it follows the first `:` behind the last `]`.
#[tactic(auto, using(crate::proofs::BracketLemmas::port_none, crate::proofs::BracketLemmas::port_after_last))]
fn port_behind_brackets(text: &str) -> Option<&str>
    ensures { option_copied result ≡ spec.bracket_port text.now }
{
    let rest = after_last(text);
    if rest.len() == text.len() {
        None
    } else {
        cut(rest, ':').1
    }
}

// The port, where no user info stands before the host.
fn port_of(text: &str) -> Option<&str>
    ensures { option_copied result ≡ spec.cut_port text.now }
{
    if scan::begins_with(text, b'[') {
        port_behind_brackets(text)
    } else {
        cut(text, ':').1
    }
}

// The host, where no user info stands before it, and this port follows it.
fn host_before<'a>(text: &'a str, port: Option<&str>) -> &'a str
    requires { option_copied port ≡ spec.cut_port text.now }
    ensures { result.now ≡ spec.cut_host text.now }
{
    match port {
        Some(port) => &text[..text.len() - port.len() - 1],
        None => text,
    }
}

// Of a host and a port.
fn place_in_host_and_port<C: CharSet>(start: usize, text: &str) -> Option<Place>
    requires { start + length text.now < 2 ^ 64 }
    ensures { result ≡ first_place C.tests (host_pieces start text.now) }
{
    let port = port_of(text);
    let host = host_before(text, port);
    let place = place_in_part::<C>(PartRule::Host, start, host);
    match port {
        Some(_) => place.or(place_if::<C>(PartRule::Port, start + host.len() + 1, port)),
        None => place,
    }
}

/// Of an authority.
#[tactic(auto, unfolding(crate::specs::Cut::authority_pieces))]
pub(crate) fn place_in_authority<C: CharSet>(start: usize, text: &str) -> Option<Place>
    requires { start + length text.now < 2 ^ 64 }
    ensures { result ≡ first_place C.tests (authority_pieces start text.now) }
{
    let (front, rest) = cut(text, '@');
    match rest {
        Some(rest) => {
            let place = place_in_host_and_port::<C>(start + front.len() + 1, rest);
            place_in_part::<C>(PartRule::UserInfo, start, front).or(place)
        }
        None => place_in_host_and_port::<C>(start, text),
    }
}

// Of an authority, if there is one.
fn place_in_authority_part<C: CharSet>(start: usize, part: Option<&str>) -> Option<Place>
    requires { IfSome (option_copied part) (λ t. start + length t < 2 ^ 64) }
    ensures { result ≡ first_place C.tests (authority_pieces_if start (option_copied part.entry)) }
{
    place_in_authority::<C>(start, part?)
}

// The scheme, which is not empty, and what follows it.
fn cut_scheme(text: &str) -> (Option<&str>, &str)
    ensures scheme { option_copied result.0 ≡ (spec.cut_scheme text.now).0 }
    ensures rest { result.1.now ≡ (spec.cut_scheme text.now).1 }
{
    if scan::begins_with(text, b':') {
        (None, text)
    } else {
        split_scheme(text)
    }
}

// The rule of a path, behind a scheme and an authority, if there are any.
fn path_rule(scheme: Option<&str>, authority: Option<&str>) -> PartRule
    ensures { result ≡ path_rule
        (is_some (option_copied scheme.entry) || is_some (option_copied authority.entry)) }
{
    if scheme.is_some() || authority.is_some() {
        PartRule::Path
    } else {
        PartRule::BarePath
    }
}

// Of an authority and a path, which stand behind a scheme, if there is one.
#[tactic(auto, using(std::proofs::lemmas::Grind::common_steps, crate::proofs::HierarchyPlaceLemmas::place_behind))]
fn place_after_scheme<C: CharSet>(start: usize, scheme: Option<&str>, text: &str) -> Option<Place>
    requires { start + length text.now < 2 ^ 64 }
    ensures { result ≡ first_place C.tests
        (pieces_after_scheme start (option_copied scheme.entry) text.now) }
{
    let (authority, path) = split_authority(text);
    let before = match authority {
        Some(_) => place_in_authority_part::<C>(start + 2, authority),
        None => None,
    };
    let path_start = start + (text.len() - path.len());
    before.or(place_in_part::<C>(path_rule(scheme, authority), path_start, path))
}

// Of what stands before the query and the fragment.
fn place_in_hierarchy<C: CharSet>(text: &str) -> Option<Place>
    ensures { result ≡ first_place C.tests (hierarchy_pieces text.now) }
{
    let (scheme, rest) = cut_scheme(text);
    let start = text.len() - rest.len();
    place_if::<C>(PartRule::Scheme, 0, scheme).or(place_after_scheme::<C>(start, scheme, rest))
}

/// Of a reference (RFC 3986 section 4.1).
pub(crate) fn place_in_reference<C: CharSet>(text: &str) -> Option<Place>
    ensures { result ≡ first_place C.tests (pieces_of text.now) }
{
    let (front, fragment) = cut(text, '#');
    let (hierarchy, query) = cut(front, '?');
    let query_place = place_if::<C>(PartRule::Query, hierarchy.len() + 1, query);
    place_in_hierarchy::<C>(hierarchy).or(query_place).or(place_if::<C>(
        PartRule::Fragment,
        front.len() + 1,
        fragment,
    ))
}

/// Whether the text has a scheme, right or wrong.
pub(crate) fn has_scheme(text: &str) -> bool
    ensures { result ≡ has_cut_scheme text.now }
{
    let (front, _) = cut(text, '#');
    let (hierarchy, _) = cut(front, '?');
    let (scheme, _) = cut_scheme(hierarchy);
    scheme.is_some()
}
