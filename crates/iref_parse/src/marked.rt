//! The first position that is marked, by the marks of 16 at a time.
ghost use Rattle.std.specs.Prelude.{◌≡◌, ℕ, ◌+◌, ◌≤◌};
ghost use Rattle.iref_parse.specs.Lanes.{HasLanes, IsFirstMarked};

use crate::lanes::{common_lanes, is_clear};
use std::simd::prelude::*;

/// Positions of a text, of which some are marked.
pub(crate) trait Marks {
    /// How many positions there are.
    ghost count: { Self → ℕ };

    /// The mark of a position: 0 if it is not marked.
    ghost mark: { Self → ℕ → ℕ };

    /// The marks of 16 positions.
    fn lanes(&self, at: usize) -> u8x16
        requires { at + 16 ≤ count self.now }
        ensures { HasLanes result (λ k. mark self.now (at + k)) };
}

/// The first position that is marked, or the count of all, which are 16 at least.
#[inline(always)]
pub(crate) fn first_marked<M: Marks>(marks: &M, len: usize) -> usize
    requires least { 16 ≤ len }
    requires count { len ≡ M.count marks.now }
    ensures { IsFirstMarked (M.mark marks.now) len result }
{
    let last = len - 16;
    let mut at = 0;
    while at < last {
        let found = marks.lanes(at);
        if !is_clear(found) {
            return at + common_lanes(found, u8x16::splat(0));
        }
        at += 16;
    }
    last + common_lanes(marks.lanes(last), u8x16::splat(0))
}
