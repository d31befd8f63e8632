//! Whether a segment of a path begins with a dot, where the first behind a `/` does, and whether two
//! dots stand side by side.
ghost use Rattle.std.specs.Prelude.{◌≡◌, ℕ, ◌+◌, ◌<◌, ◌≤◌, if◌then◌else◌, length, false, true};
ghost use Rattle.iref_parse.specs.{Lanes.{HasLanes}, Dots.{begins_with_dot, has_dotted_segment, is_slash_dot}};
ghost use Rattle.iref_parse.specs.Dots.{has_dot_pair, has_pair, is_pair};

use crate::lanes::{both, common_lanes, either, equal_to, is_clear, load};
use crate::position::ends_of;
use std::simd::prelude::*;

// All bits of a lane where the bytes from it on are these two, and else none.
#[inline(always)]
fn pairs(path: &[u8], at: usize, first: u8, second: u8) -> u8x16
    requires { at + 17 ≤ length path.now }
    ensures { HasLanes result (λ k. if is_pair first second path.now (at + k) then 255 else 0) }
{
    both(
        equal_to(load(path, at), first),
        equal_to(load(path, at + 1), second),
    )
}

// Where two such bytes stand side by side first, from an index on, or the length. The bytes are
// read one by one.
fn pair_near(path: &[u8], from: usize, first: u8, second: u8) -> usize
    requires { from ≤ length path.now }
    ensures within { result ≤ length path.now }
    ensures none_before { (k : ℕ) → from ≤ k → k < result → k + 1 < length path.now
        → is_pair first second path.now k ≡ false }
    ensures found { result < length path.now
        → (result + 1 < length path.now) × (is_pair first second path.now result ≡ true) }
{
    let len = path.len();
    let mut at = from;
    while 2 <= len - at {
        if path[at + 1] == second && path[at] == first {
            return at;
        }
        at += 1;
    }
    len
}

// Whether two such bytes stand side by side in 9 to 16. A lane of the ends of the path without its
// last byte is a byte, and the same lane of the ends without its first is the next.
#[inline(always)]
fn has_pair_in_ends(path: &[u8], first: u8, second: u8) -> bool
    requires least { 9 ≤ length path.now }
    requires most { length path.now ≤ 16 }
    ensures { result ≡ has_pair first second path.now }
{
    let firsts = equal_to(load(&ends_of(&path[..path.len() - 1]), 0), first);
    let seconds = equal_to(load(&ends_of(&path[1..]), 0), second);
    !is_clear(both(firsts, seconds))
}

// Whether two such bytes stand side by side.
#[inline(always)]
#[tactic(auto, using(crate::proofs::PairLemmas::near_found))]
fn has_pair(path: &[u8], first: u8, second: u8) -> bool
    ensures { result ≡ has_pair first second path.now }
{
    let len = path.len();
    if len < 9 {
        return pair_near(path, 0, first, second) < len;
    }
    if len < 17 {
        return has_pair_in_ends(path, first, second);
    }
    let mut seen = pairs(path, len - 17, first, second);
    let mut at = 0;
    while 17 <= len - at {
        seen = either(seen, pairs(path, at, first, second));
        at += 16;
    }
    !is_clear(seen)
}

// Whether the text begins with a dot.
#[inline(always)]
fn begins_with_dot(text: &[u8]) -> bool
    ensures { result ≡ begins_with_dot text.now }
{
    match text {
        [first, ..] => *first == b'.',
        [] => false,
    }
}

/// Whether a segment of the path begins with a dot, as each `.` and each `..` does. Where none
/// does, the path has no dot segment.
#[inline(always)]
#[tactic(auto, using(crate::proofs::DotSegmentLemmas::dots_by_pairs))]
pub fn has_dots(path: &[u8]) -> bool
    ensures { result ≡ has_dotted_segment path.now }
{
    begins_with_dot(path) || has_pair(path, b'/', b'.')
}

/// Whether two dots stand side by side, as they do in each `..`.
pub fn has_dot_pair(path: &[u8]) -> bool
    ensures { result ≡ has_dot_pair path.now }
{
    has_pair(path, b'.', b'.')
}

/// Where the first `/.` stands, or the length. No segment that ends before it begins with a dot,
/// unless it is the first.
#[inline(always)]
pub fn position_of_slash_dot(path: &[u8]) -> usize
    ensures within { result ≤ length path.now }
    ensures none_before { (k : ℕ) → k < result → is_slash_dot path.now k ≡ false }
    ensures found { result < length path.now → is_slash_dot path.now result ≡ true }
{
    let len = path.len();
    let mut at = 0;
    while 17 <= len - at {
        let lane = common_lanes(pairs(path, at, b'/', b'.'), u8x16::splat(0));
        if lane < 16 {
            return at + lane;
        }
        at += 16;
    }
    pair_near(path, at, b'/', b'.')
}
