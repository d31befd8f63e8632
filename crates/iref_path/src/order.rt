//! The order of paths, by their keys. It takes no memory.
//!
//! What two paths have in common up to their last common `/` does not count in their order, if no
//! `..` follows it. So where no two dots stand side by side behind it, or no segment there begins
//! with a dot, what follows is compared from the front. Else both normal lists are read from the
//! back.

ghost use Rattle.std.specs.{Cmp.Lexicographic.{slice_cmp}, List.{list_any}};
ghost use Rattle.std.specs.Prelude.{◌≡◌, ◌∷◌, ◌<◌, ◌≤◌, IfSome, MatchOption, false, length, map};
ghost use Rattle.percent_encoding.specs.Percent.{percent_decode};
ghost use Rattle.iref_grammar.specs.{read_path, slash, text_order, Texts.{pieces_at}};
ghost use Rattle.iref_grammar.specs.{is_dot_dot, normal_segments, path_key, path_key_cmp};
ghost use Rattle.iref_path.specs.{Named.{begins_with_dot_slash, named, rank}, Pieces.{pieces_if_some}};

use crate::compare_lists::{Decoded, Sameness, compare_lists};
use crate::normal_items::NormalItems;
use crate::segments::{behind_directory, first_segment, split_root};
use iref_parse::cut::strip_mark;
use iref_parse::decoded::kept_front;
use iref_parse::dots::{has_dot_pair, has_dots};
use std::cmp::Ordering;

// What follows the `./` that a text begins with.
#[inline(always)]
fn strip_dot(text: &str) -> Option<&str>
    ensures { MatchOption result (begins_with_dot_slash text.now ≡ false)
        (λ rest. text.now ≡ 0x2E ∷ slash ∷ rest.now) }
{
    strip_mark(strip_mark(text, '.')?, '/')
}

// What follows each `./` that a text begins with.
#[tactic(auto, using(crate::proofs::NamedLemmas::dot_slash))]
#[inline(always)]
fn strip_dots(text: &str) -> &str
    ensures names { named (pieces_at slash result.now) ≡ named (pieces_at slash text.now) }
    ensures parents { list_any is_dot_dot (pieces_at slash result.now)
        ≡ list_any is_dot_dot (pieces_at slash text.now) }
    ensures fewer { length (pieces_at slash result.now) ≤ length (pieces_at slash text.now) }
    ensures none { begins_with_dot_slash result.now ≡ false }
{
    let mut left = text;
    while let Some(rest) = strip_dot(left) {
        left = rest;
    }
    left
}

// The first item of segments among which no `..` is, and the text of the segments behind it.
fn first_name(text: &str) -> (&str, Option<&str>)
    ensures items { named (pieces_at slash text.now)
        ≡ result.0.now ∷ named (pieces_if_some result.1) }
    ensures fewer { length (pieces_if_some result.1) < length (pieces_at slash text.now) }
{
    let (segment, rest) = first_segment(strip_dots(text));
    if segment == "." {
        ("", None)
    } else {
        (segment, rest)
    }
}

// The order of two lists of segments among which no `..` is: the first difference decides, and then
// the shorter is less.
#[tactic(auto, using(crate::proofs::NamedLemmas::longer_left, crate::proofs::NamedLemmas::longer_right))]
fn compare_names(mut left: Option<&str>, mut right: Option<&str>) -> Ordering
    ensures { result ≡ slice_cmp text_order (map percent_decode (named (pieces_if_some left.entry)))
        (map percent_decode (named (pieces_if_some right.entry))) }
{
    while let Some(text) = left {
        let Some(other_text) = right else {
            return Ordering::Greater;
        };
        let (name, names) = first_name(text);
        let (other, others) = first_name(other_text);
        let order = Decoded::compare(name, other);
        if order.is_ne() {
            return order;
        }
        left = names;
        right = others;
    }
    if right.is_none() {
        Ordering::Equal
    } else {
        Ordering::Less
    }
}

// How a text counts in the order of segments, from its first difference from another on: the end of
// a text is least, then a `/`, then other bytes. None for an escape, which is not decoded here.
#[inline(always)]
fn rank(rest: &[u8]) -> Option<u16>
    ensures { result ≡ rank rest.now }
{
    match rest {
        [] => Some(0),
        [b'%', ..] => None,
        [b'/', ..] => Some(1),
        [byte, ..] => Some(2 + u16::from(*byte)),
    }
}

// The order of the segments of two texts by their first difference. None where an escape stands
// before it or there, since segments are compared decoded.
#[tactic(auto, using(std::proofs::lemmas::Slice::between_to_end, crate::proofs::DifferenceLemmas::order_at_difference))]
fn compare_at_difference(left: &[u8], right: &[u8]) -> Option<Ordering>
    ensures { IfSome result (λ order. order ≡ slice_cmp text_order
        (map percent_decode (pieces_at slash left.now))
        (map percent_decode (pieces_at slash right.now))) }
{
    let front = kept_front(left, right);
    Some(rank(&left[front..])?.cmp(&rank(&right[front..])?))
}

// The order of the segments of two texts. Their first difference decides, and behind segments that
// are the same in other escapes the next one.
#[tactic(auto, using(crate::proofs::FrontOrderLemmas::order_behind_first))]
fn compare_segments<'a>(mut left: &'a str, mut right: &'a str) -> Ordering
    ensures { result ≡ slice_cmp text_order
        (map percent_decode (pieces_at slash left.entry.now))
        (map percent_decode (pieces_at slash right.entry.now)) }
{
    loop {
        if let Some(order) = compare_at_difference(left.as_bytes(), right.as_bytes()) {
            return order;
        }
        let (name, names) = first_segment(left);
        let (other, others) = first_segment(right);
        let order = Decoded::compare(name, other);
        if order.is_ne() {
            return order;
        }
        match (names, others) {
            (Some(names), Some(others)) => (left, right) = behind_directory(names, others),
            (Some(_), None) => return Ordering::Greater,
            (None, Some(_)) => return Ordering::Less,
            (None, None) => return Ordering::Equal,
        }
    }
}

// The order of the segments of two texts but for each `.`, unless one of them may be `..`.
#[tactic(auto, using(crate::proofs::NamedLemmas::without_parents))]
fn compare_without_parents(left: &str, right: &str) -> Option<Ordering>
    ensures left { IfSome result (λ order.
        list_any is_dot_dot (pieces_at slash left.now) ≡ false) }
    ensures right { IfSome result (λ order.
        list_any is_dot_dot (pieces_at slash right.now) ≡ false) }
    ensures order { IfSome result (λ order. order ≡ slice_cmp text_order
        (map percent_decode (named (pieces_at slash left.now)))
        (map percent_decode (named (pieces_at slash right.now)))) }
{
    let (left, right) = (strip_dots(left), strip_dots(right));
    let (a, b) = (left.as_bytes(), right.as_bytes());
    if !has_dots(a) && !has_dots(b) {
        return Some(compare_segments(left, right));
    }
    if has_dot_pair(a) || has_dot_pair(b) {
        return None;
    }
    Some(compare_names(Some(left), Some(right)))
}

// The order of the normal lists of two paths.
#[tactic(auto, using(crate::proofs::OrderLemmas::of_decoded))]
fn compare_normal(a: &str, b: &str) -> Ordering
    ensures { result ≡ slice_cmp text_order
        (map percent_decode (normal_segments (read_path a.now)))
        (map percent_decode (normal_segments (read_path b.now))) }
{
    compare_lists::<Decoded>(NormalItems::new(a), NormalItems::new(b)).1
}

/// The order of the paths of two texts: relative before absolute, then segment by segment, the
/// shorter list first.
#[tactic(auto, using(crate::proofs::NamedLemmas::whole_lists))]
pub fn path_texts_cmp(a: &str, b: &str) -> Ordering
    ensures { result ≡ path_key_cmp (path_key (read_path a.now)) (path_key (read_path b.now)) }
{
    let (absolute, left) = split_root(a);
    let (other_absolute, right) = split_root(b);
    let flags = absolute.cmp(&other_absolute);
    if flags.is_ne() {
        return flags;
    }
    if let (Some(left), Some(right)) = (left, right) {
        let (left, right) = behind_directory(left, right);
        if let Some(order) = compare_without_parents(left, right) {
            return order;
        }
    }
    compare_normal(a, b)
}
