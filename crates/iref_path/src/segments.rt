//! The segments of a text, taken from either end.

ghost use Rattle.std.specs.Prelude.{◌≡◌, ◌+◌, ◌≤◌, ◌++◌, ◌∷◌, ◌==◌, [], length, true, false, MatchOption, count_by};
ghost use Rattle.std.specs.Prelude.{drop, take};
ghost use Rattle.iref_grammar.specs.{slash, pieces_at, read_path, Texts.{all_but_last}};
ghost use Rattle.iref_path.specs.Pieces.{ShareFront, pieces_if_some};
ghost use Rattle.iref_path.specs.Slashes.{IsLastSlash, LacksSlashFrom, slash_mask};

use iref_parse::cut::{cut, strip_mark};
use iref_parse::front::common_front;
use std::simd::prelude::*;

/// The first segment, and the text of the others.
pub fn first_segment(text: &str) -> (&str, Option<&str>)
    ensures { pieces_at slash text.now ≡ result.0.now ∷ pieces_if_some result.1 }
{
    cut(text, '/')
}

// A bit for each of the 16 bytes from an index on that is a `/`.
#[inline(always)]
fn slashes(bytes: &[u8], at: usize) -> u64
    requires { at + 16 ≤ length bytes.now }
    ensures { result ≡ slash_mask (take 16 (drop at bytes.now)) }
{
    u8x16::from_slice(&bytes[at..])
        .simd_eq(u8x16::splat(b'/'))
        .to_bitmask()
}

// Where the last `/` is.
#[inline(always)]
pub(crate) fn last_slash(bytes: &[u8]) -> Option<usize>
    ensures { MatchOption result (LacksSlashFrom bytes.now 0) (IsLastSlash bytes.now) }
{
    let mut end = bytes.len();
    while 16 <= end {
        let bits = slashes(bytes, end - 16);
        if bits != 0 {
            let highest = 63 - bits.leading_zeros() as usize;
            return Some(end - 16 + highest);
        }
        end -= 16;
    }
    while 0 < end {
        end -= 1;
        if bytes[end] == b'/' {
            return Some(end);
        }
    }
    None
}

/// The text of the segments before the last one, and the last one.
#[tactic(auto, using(std::proofs::lemmas::Grind::common_steps, crate::proofs::SlashLemmas::last_cut))]
#[inline(always)]
pub fn last_segment(text: &str) -> (Option<&str>, &str)
    ensures { pieces_at slash text.now ≡ pieces_if_some result.0 ++ result.1.now ∷ [] }
{
    match last_slash(text.as_bytes()) {
        Some(at) => (Some(&text[..at]), &text[at + 1..]),
        None => (None, text),
    }
}

/// What follows the directories that both texts begin with, byte by byte.
#[tactic(auto, using(crate::proofs::DirectoryLemmas::directory_of_texts))]
pub(crate) fn behind_directory<'a>(left: &'a str, right: &'a str) -> (&'a str, &'a str)
    ensures shared { ShareFront (pieces_at slash left.now) (pieces_at slash right.now)
        (pieces_at slash result.0.now) (pieces_at slash result.1.now) }
    ensures left { length result.0.now ≤ length left.now }
    ensures right { length result.1.now ≤ length right.now }
{
    let common = common_front(left.as_bytes(), right.as_bytes());
    match last_slash(&left.as_bytes()[..common]) {
        Some(at) => (&left[at + 1..], &right[at + 1..]),
        None => (left, right),
    }
}

/// The text of all segments but the last.
#[tactic(auto, using(crate::proofs::DirectoryLemmas::one_less))]
pub fn without_last(segments: Option<&str>) -> Option<&str>
    ensures { pieces_if_some result ≡ all_but_last (pieces_if_some segments.entry) }
{
    match segments {
        Some(text) => last_segment(text).0,
        None => None,
    }
}

/// Whether the path is absolute, and the text of its segments if it has any.
#[tactic(auto, using(crate::proofs::SlashLemmas::counts))]
pub fn split_root(path: &str) -> (bool, Option<&str>)
    ensures path { read_path path.now
        ≡ record { absolute = result.0; segments = pieces_if_some result.1 } }
    ensures fewer { length (pieces_if_some result.1) ≤ length path.now + 1 }
{
    let (absolute, segments) = match strip_mark(path, '/') {
        Some(text) => (true, text),
        None => (false, path),
    };
    if segments.is_empty() {
        (absolute, None)
    } else {
        (absolute, Some(segments))
    }
}

// How many `/` a part has. So small a count is kept in a byte, so that one instruction counts in 16
// bytes.
fn count_in_part(part: &[u8]) -> u8
    requires { length part.now ≤ 255 }
    ensures { result ≡ count_by (λ c. c == slash) part.now }
{
    let mut count = 0;
    for byte in part {
        count += u8::from(*byte == b'/');
    }
    count
}

/// How many `/` the text has. A part of 240 bytes is of whole pieces of 16; a text of few bytes is
/// one part.
#[tactic(auto, using(std::proofs::lemmas::Grind::common_steps, crate::proofs::SlashLemmas::counted))]
pub(crate) fn slash_count(text: &str) -> usize
    ensures { result ≡ count_by (λ c. c == slash) text.now }
{
    let bytes = text.as_bytes();
    if bytes.len() < 8 {
        return usize::from(count_in_part(bytes));
    }
    let mut count = 0;
    for part in bytes.chunks(240) {
        count += usize::from(count_in_part(part));
    }
    count
}

/// How many segments the text has.
#[tactic(auto, using(crate::proofs::SlashLemmas::counts))]
pub fn count_segments(text: &str) -> usize
    ensures { result ≡ length (pieces_at slash text.now) }
{
    slash_count(text) + 1
}
