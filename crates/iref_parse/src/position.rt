//! Where the first of two bytes stands.
ghost use Rattle.std.specs.Prelude.{◌≡◌, ◌+◌, ◌-◌, ◌<◌, ◌≤◌, if◌then◌else◌};
ghost use Rattle.std.specs.Prelude.{[], ◌∷◌, ◌++◌, take, drop, length, slice_index};
ghost use Rattle.std.specs.{List.{position_or_len}, Char.{char_set_contains}};
ghost use Rattle.iref_parse.specs.Lanes.{HasLanes};

use crate::lanes::{common_lanes, either, equal_to, load};
use crate::marked::{Marks, first_marked};
use std::simd::prelude::*;

// The position of the first byte that is one of two, or the length. The bytes are read one by one.
#[inline(always)]
fn position_near(bytes: &[u8], first: u8, second: u8) -> usize
    ensures { result ≡ position_or_len (char_set_contains (first ∷ second ∷ [])) bytes.now }
{
    let mut at = 0;
    while at < bytes.len() && bytes[at] != first && bytes[at] != second {
        at += 1;
    }
    at
}

// All bits of a lane where the byte is one of two, and else none.
#[inline(always)]
fn marks(bytes: &[u8], at: usize, first: u8, second: u8) -> u8x16
    requires { at + 16 ≤ length bytes.now }
    ensures { HasLanes result (λ k.
        if char_set_contains (first ∷ second ∷ []) (slice_index bytes.now (at + k))
        then 255 else 0) }
{
    let v = load(bytes, at);
    either(equal_to(v, first), equal_to(v, second))
}

// A text in which the bytes that are one of two are marked.
#[derive(Drop)]
struct EitherOf<'a> {
    bytes: &'a [u8],
    first: u8,
    second: u8,
}

impl Marks for EitherOf<'_> {
    ghost count = { λ s. length s.bytes.now };

    ghost mark = { λ s k. if char_set_contains (s.first ∷ s.second ∷ [])
        (slice_index s.bytes.now k) then 255 else 0 };

    #[inline(always)]
    fn lanes(&self, at: usize) -> u8x16 {
        marks(self.bytes, at, self.first, self.second)
    }
}

// The first eight bytes and the last eight, which may be some of the first.
#[inline(always)]
pub(crate) fn ends_of(bytes: &[u8]) -> [u8; 16]
    requires { 8 ≤ length bytes.now }
    ensures { result ≡ take 8 bytes.now ++ drop (length bytes.now - 8) bytes.now }
{
    let mut ends = [0; 16];
    ends[..8].copy_from_slice(&bytes[..8]);
    ends[8..].copy_from_slice(&bytes[bytes.len() - 8..]);
    ends
}

// The position of the first byte that is one of two, or the length, of 8 to 15 bytes.
#[inline(always)]
#[tactic(auto, using(std::proofs::lemmas::Grind::common_steps, crate::proofs::PositionLemmas::at_ends))]
fn position_in_ends(bytes: &[u8], first: u8, second: u8) -> usize
    requires least { 8 ≤ length bytes.now }
    requires most { length bytes.now < 16 }
    ensures { result ≡ position_or_len (char_set_contains (first ∷ second ∷ [])) bytes.now }
{
    let found = marks(&ends_of(bytes), 0, first, second);
    let lane = common_lanes(found, u8x16::splat(0));
    if lane < 8 {
        lane
    } else {
        lane + bytes.len() - 16
    }
}

/// The position of the first byte that is one of two, or the length of the text.
#[inline(always)]
#[tactic(auto, using(crate::proofs::PositionLemmas::position_from_clear))]
pub fn position_of_either(bytes: &[u8], first: u8, second: u8) -> usize
    ensures { result ≡ position_or_len (char_set_contains (first ∷ second ∷ [])) bytes.now }
{
    let len = bytes.len();
    if 16 <= len {
        let text = EitherOf {
            bytes,
            first,
            second,
        };
        return first_marked(&text, len);
    }
    if len < 8 {
        position_near(bytes, first, second)
    } else {
        position_in_ends(bytes, first, second)
    }
}

/// The position of the first such byte, or the length of the text.
#[inline(always)]
pub fn position_of(bytes: &[u8], mark: u8) -> usize
    ensures { result ≡ position_or_len (char_set_contains (mark ∷ [])) bytes.now }
{
    position_of_either(bytes, mark, mark)
}
