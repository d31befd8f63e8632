//! How many bytes of a text stand before the first that is not plain.
ghost use Rattle.std.specs.{Prelude.{◌≡◌, ◌+◌, ◌≤◌, length, slice_index}, List.{prefix_len}};
ghost use Rattle.iref_parse.specs.Lanes.{HasLanes};
ghost use Rattle.iref_parse.specs.Plain as plain;

use crate::lanes::{both, by_high_half, by_low_half, load};
use crate::marked::{Marks, first_marked};
use std::simd::prelude::*;

/// Groups of bytes, by a table for each half of a byte. A byte is plain if no group has both of its
/// halves.
pub(crate) struct Groups {
    low: [u8; 16],
    high: [u8; 16],
}

/// Plain are the bytes of a path, `?` and `#`.
static ASCII: Groups = Groups {
    low: [
        163, 129, 131, 129, 129, 131, 129, 129, 129, 129, 129, 209, 213, 209, 149, 193,
    ],
    high: [
        1, 1, 2, 4, 8, 16, 32, 64, 128, 128, 128, 128, 128, 128, 128, 128,
    ],
};

/// Plain are also the bytes of the characters from U+00C0 to U+D7FF in UTF-8: those from 128 on but
/// for 0xC0 to 0xC2 and 0xEE to 0xFF.
static COMMON: Groups = Groups {
    low: [43, 9, 11, 1, 1, 3, 1, 1, 1, 1, 1, 81, 85, 81, 149, 193],
    high: [1, 1, 2, 4, 0, 16, 32, 64, 0, 0, 0, 0, 8, 0, 128, 1],
};

/// Plain are the bytes of a registered name that are no escapes.
pub(crate) static NAME: Groups = Groups {
    low: [11, 1, 3, 3, 1, 3, 1, 1, 1, 1, 5, 49, 53, 49, 21, 39],
    high: [1, 1, 2, 4, 8, 16, 8, 32, 1, 1, 1, 1, 1, 1, 1, 1],
};

/// Plain are the bytes of a path that are no escapes.
pub(crate) static PATH: Groups = Groups {
    low: [67, 1, 3, 3, 1, 3, 1, 1, 1, 1, 1, 49, 53, 49, 21, 37],
    high: [1, 1, 2, 4, 0, 16, 64, 32, 1, 1, 1, 1, 1, 1, 1, 1],
};

/// Whether the byte is plain by the groups.
#[inline(always)]
pub(crate) fn is_plain_byte(groups: &Groups, byte: u8) -> bool
    ensures { result ≡ plain.is_in_no_group groups.now byte }
{
    groups.low[usize::from(byte % 16)] & groups.high[usize::from(byte / 16)] == 0
}

/// The groups of 16 bytes: no group for a byte that is plain.
#[inline(always)]
pub(crate) fn other_lanes(groups: &Groups, bytes: &[u8], at: usize) -> u8x16
    requires { at + 16 ≤ length bytes.now }
    ensures { HasLanes result (λ k.
        plain.other_groups groups.now (slice_index bytes.now (at + k))) }
{
    let v = load(bytes, at);
    both(by_low_half(&groups.low, v), by_high_half(&groups.high, v))
}

// A text in which the bytes that are not plain by the groups are marked.
#[derive(Drop)]
struct OtherThan<'a> {
    groups: &'a Groups,
    bytes: &'a [u8],
}

impl Marks for OtherThan<'_> {
    ghost count = { λ s. length s.bytes.now };

    ghost mark = { λ s k. plain.other_groups s.groups.now (slice_index s.bytes.now k) };

    #[inline(always)]
    fn lanes(&self, at: usize) -> u8x16 {
        other_lanes(self.groups, self.bytes, at)
    }
}

// How many bytes stand first that are plain by the groups. They are read one by one.
#[inline(always)]
fn few_plain_first(groups: &Groups, bytes: &[u8]) -> usize
    ensures { result ≡ prefix_len (plain.is_in_no_group groups.now) bytes.now }
{
    let mut at = 0;
    while at < bytes.len() && is_plain_byte(groups, bytes[at]) {
        at += 1;
    }
    at
}

// How many bytes stand first that are plain by the groups.
#[inline(always)]
#[tactic(auto, using(crate::proofs::PlainLemmas::plain_front_from_marks))]
fn first_by(groups: &Groups, bytes: &[u8]) -> usize
    ensures { result ≡ prefix_len (plain.is_in_no_group groups.now) bytes.now }
{
    if bytes.len() < 16 {
        few_plain_first(groups, bytes)
    } else {
        first_marked(&OtherThan { groups, bytes }, bytes.len())
    }
}

/// How many bytes stand first that are of a path, `?` or `#`.
#[inline(always)]
#[tactic(auto, using(crate::proofs::PlainLemmas::ascii_front))]
pub(crate) fn plain_first(bytes: &[u8]) -> usize
    ensures { result ≡ prefix_len plain.is_plain_byte bytes.now }
{
    first_by(&ASCII, bytes)
}

/// How many bytes stand first that are such a byte or, in UTF-8, one of a character from U+00C0 to
/// U+D7FF.
#[inline]
#[tactic(auto, using(crate::proofs::PlainLemmas::common_front))]
pub(crate) fn common_first(bytes: &[u8]) -> usize
    ensures { result ≡ prefix_len plain.is_common_byte bytes.now }
{
    first_by(&COMMON, bytes)
}
