//! Vectors of 16 bytes, lane by lane.
ghost use Rattle.std.specs.Prelude.{◌≡◌, ◌+◌, ◌/◌, ◌%◌, ◌≤◌, ◌==◌, if◌then◌else◌, length};
ghost use Rattle.std.specs.{Prelude.{slice_index, bit_and, bit_or, bit_xor, min}, List.{list_all}};
ghost use Rattle.iref_parse.specs.Lanes.{HasLanes, DifferFirstAt};

use std::simd::prelude::*;

// The 16 bytes from `at` on, a byte in each lane.
#[inline(always)]
pub(crate) fn load(bytes: &[u8], at: usize) -> u8x16
    requires { at + 16 ≤ length bytes.now }
    ensures { HasLanes result (λ k. slice_index bytes.now (at + k)) }
{
    u8x16::from_slice(&bytes[at..])
}

// The bits that both have, lane by lane.
#[inline(always)]
pub(crate) fn both(a: u8x16, b: u8x16) -> u8x16
    ensures { HasLanes result (λ k. bit_and (slice_index a k) (slice_index b k)) }
{
    a & b
}

// The bits that either has, lane by lane.
#[inline(always)]
pub(crate) fn either(a: u8x16, b: u8x16) -> u8x16
    ensures { HasLanes result (λ k. bit_or (slice_index a k) (slice_index b k)) }
{
    a | b
}

// The lesser byte of the two, lane by lane.
#[inline(always)]
pub(crate) fn lesser(a: u8x16, b: u8x16) -> u8x16
    ensures { HasLanes result (λ k. min (slice_index a k) (slice_index b k)) }
{
    a.simd_min(b)
}

// A lane is 0 where the two are the same, and else not.
#[inline(always)]
pub(crate) fn apart(a: u8x16, b: u8x16) -> u8x16
    ensures { HasLanes result (λ k. bit_xor (slice_index a k) (slice_index b k)) }
{
    a ^ b
}

// All bits of a lane that is this byte, and none of another.
#[inline(always)]
pub(crate) fn equal_to(v: u8x16, byte: u8) -> u8x16
    ensures { HasLanes result (λ k. if slice_index v k == byte then 255 else 0) }
{
    v.simd_eq(u8x16::splat(byte))
        .select(u8x16::splat(255), u8x16::splat(0))
}

// Reads the table at the low four bits of each lane.
#[inline(always)]
pub(crate) fn by_low_half(table: &[u8; 16], v: u8x16) -> u8x16
    ensures { HasLanes result (λ k. slice_index table.now (slice_index v k % 16)) }
{
    u8x16::from_slice(table).swizzle_dyn(v & u8x16::splat(15))
}

// Reads the table at the high four bits of each lane.
#[inline(always)]
pub(crate) fn by_high_half(table: &[u8; 16], v: u8x16) -> u8x16
    ensures { HasLanes result (λ k. slice_index table.now (slice_index v k / 16)) }
{
    u8x16::from_slice(table).swizzle_dyn(v >> u8x16::splat(4))
}

// Whether each lane is 0.
#[inline(always)]
pub(crate) fn is_clear(v: u8x16) -> bool
    ensures { result ≡ list_all (λ x. x == 0) v }
{
    v.simd_ne(u8x16::splat(0)).to_bitmask() == 0
}

// How many lanes come before the first in which the two differ.
#[inline(always)]
pub(crate) fn common_lanes(a: u8x16, b: u8x16) -> usize
    ensures { DifferFirstAt a b 16 result }
{
    let others = a.simd_ne(b).to_bitmask();
    if others == 0 {
        16
    } else {
        others.trailing_zeros() as usize
    }
}
