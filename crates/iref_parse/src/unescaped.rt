//! Whether each byte of a text is of a kind: other than `%`, also ASCII, also at least 2, or of a name or
//! a path.
ghost use Rattle.std.proofs.{Common.{refl}, lemmas.Bool.{agree_below_at}};
ghost use Rattle.std.specs.Prelude.{◌≡◌, ℕ, ◌+◌, ◌%◌, ◌<◌, ◌≤◌, ◌==◌, if◌then◌else◌};
ghost use Rattle.std.specs.{Prelude.{Bool, bit_and, length, slice_index}, List.{list_all}};
ghost use Rattle.iref_grammar.specs.Grammar.{is_not_percent};
ghost use Rattle.iref_parse.specs.{Lanes.{HasLanes}, Plain.{is_kept_byte, is_unescaped_byte, kept_mark}};
ghost use Rattle.iref_parse.specs.Plain.{is_in_no_group, is_name_byte, is_path_byte};
ghost use Rattle.iref_parse.specs.Plain.{other_groups, percent_mark, unescaped_mark};
ghost use Rattle.iref_parse.specs.declared.plain.TheConstants.{NAME, PATH};

use crate::lanes::{both, either, equal_to, is_clear, lesser, load};
use crate::plain::{NAME, PATH, is_plain_byte, other_lanes};
use crate::position::ends_of;
use std::simd::prelude::*;

/// The bytes that a text may have. 16 of them can be tested at once.
trait ByteRule {
    /// What proofs see of them.
    ghost allowed: { ℕ → Bool };

    /// What a byte is marked with: 0 exactly if it is allowed.
    ghost mark: { ℕ → ℕ };

    /// Whether the byte is allowed.
    fn allows(byte: u8) -> bool
        ensures { result ≡ allowed byte };

    /// The marks of 16 bytes.
    fn marks(bytes: &[u8], at: usize) -> u8x16
        requires { at + 16 ≤ length bytes.now }
        ensures { HasLanes result (λ k. mark (slice_index bytes.now (at + k))) };

    /// The marks tell which bytes are allowed.
    ghost tells: { (b : ℕ) → b < 256 → (mark b == 0) ≡ allowed b };
}

// ASCII other than `%`.
struct UnescapedBytes;

// All bytes but 0, 1 and `%`.
struct KeptBytes;

// All bytes but `%`.
struct OtherBytes;

// The bytes of a registered name that are no escapes.
struct NameBytes;

// The bytes of a path that are no escapes.
struct PathBytes;

impl ByteRule for UnescapedBytes {
    ghost allowed = { is_unescaped_byte };

    ghost mark = { unescaped_mark };

    ghost tells = { λ b l.
        agree_below_at (λ x. unescaped_mark x == 0) is_unescaped_byte 256 b refl l };

    #[inline(always)]
    fn allows(byte: u8) -> bool {
        byte.is_ascii() && byte != b'%'
    }

    #[inline(always)]
    fn marks(bytes: &[u8], at: usize) -> u8x16 {
        let v = load(bytes, at);
        either(both(v, u8x16::splat(128)), equal_to(v, b'%'))
    }
}

// All bits of a lane of 0 or 1, and none of another.
#[inline(always)]
fn below_two(v: u8x16) -> u8x16
    ensures { HasLanes result (λ k. if bit_and (slice_index v k) 254 == 0 then 255 else 0) }
{
    equal_to(both(v, u8x16::splat(254)), 0)
}

impl ByteRule for KeptBytes {
    ghost allowed = { is_kept_byte };

    ghost mark = { kept_mark };

    ghost tells = { λ b l. agree_below_at (λ x. kept_mark x == 0) is_kept_byte 256 b refl l };

    #[inline(always)]
    fn allows(byte: u8) -> bool {
        byte >= 2 && byte != b'%'
    }

    #[inline(always)]
    fn marks(bytes: &[u8], at: usize) -> u8x16 {
        let v = load(bytes, at);
        either(below_two(v), equal_to(v, b'%'))
    }
}

impl ByteRule for OtherBytes {
    ghost allowed = { is_not_percent };

    ghost mark = { percent_mark };

    ghost tells = { λ b l. agree_below_at (λ x. percent_mark x == 0) is_not_percent 256 b refl l };

    #[inline(always)]
    fn allows(byte: u8) -> bool {
        byte != b'%'
    }

    #[inline(always)]
    fn marks(bytes: &[u8], at: usize) -> u8x16 {
        equal_to(load(bytes, at), b'%')
    }
}

impl ByteRule for NameBytes {
    ghost allowed = { is_name_byte };

    ghost mark = { other_groups NAME };

    ghost tells = { λ b l. agree_below_at (is_in_no_group NAME) is_name_byte 256 b refl l };

    // Most are letters in lower case.
    #[inline(always)]
    #[tactic(auto, using(crate::proofs::PlainLemmas::name_byte))]
    fn allows(byte: u8) -> bool {
        byte.is_ascii_lowercase() || is_plain_byte(&NAME, byte)
    }

    #[inline(always)]
    fn marks(bytes: &[u8], at: usize) -> u8x16 {
        other_lanes(&NAME, bytes, at)
    }
}

impl ByteRule for PathBytes {
    ghost allowed = { is_path_byte };

    ghost mark = { other_groups PATH };

    ghost tells = { λ b l. agree_below_at (is_in_no_group PATH) is_path_byte 256 b refl l };

    #[inline(always)]
    #[tactic(auto, using(crate::proofs::PlainLemmas::path_byte))]
    fn allows(byte: u8) -> bool {
        is_plain_byte(&PATH, byte)
    }

    #[inline(always)]
    fn marks(bytes: &[u8], at: usize) -> u8x16 {
        other_lanes(&PATH, bytes, at)
    }
}

// Whether each byte is allowed. The bytes are read one by one.
fn allows_few<R: ByteRule>(bytes: &[u8]) -> bool
    ensures { result ≡ list_all R.allowed bytes.now }
{
    bytes.iter().all(|byte| R::allows(*byte))
}

// Whether each byte of 8 to 15 is allowed.
#[inline(always)]
fn allows_ends<R: ByteRule>(bytes: &[u8]) -> bool
    requires least { 8 ≤ length bytes.now }
    requires most { length bytes.now < 16 }
    ensures { result ≡ list_all R.allowed bytes.now }
{
    is_clear(R::marks(&ends_of(bytes), 0))
}

// Whether each byte is allowed.
#[inline(always)]
fn allows_all<R: ByteRule>(bytes: &[u8]) -> bool
    ensures { result ≡ list_all R.allowed bytes.now }
{
    let len = bytes.len();
    if len < 8 {
        return allows_few::<R>(bytes);
    }
    if len < 16 {
        return allows_ends::<R>(bytes);
    }
    let mut seen = R::marks(bytes, len - 16);
    let mut at = 0;
    while 16 <= len - at {
        seen = either(seen, R::marks(bytes, at));
        at += 16;
    }
    is_clear(seen)
}

/// Whether each byte of the text is of a registered name, and no escape. Such a text stands in each
/// component.
#[inline(always)]
pub fn has_name_bytes(bytes: &[u8]) -> bool
    ensures { result ≡ list_all is_name_byte bytes.now }
{
    allows_all::<NameBytes>(bytes)
}

/// Whether each byte of the text is of a path, and no escape.
#[inline(always)]
pub fn has_path_bytes(bytes: &[u8]) -> bool
    ensures { result ≡ list_all is_path_byte bytes.now }
{
    allows_all::<PathBytes>(bytes)
}

/// Whether no byte of the text is `%`.
#[inline(always)]
pub fn has_no_percent(bytes: &[u8]) -> bool
    ensures { result ≡ list_all is_not_percent bytes.now }
{
    allows_all::<OtherBytes>(bytes)
}

/// Whether each byte of the text is ASCII other than `%`.
#[inline(always)]
pub fn is_unescaped(bytes: &[u8]) -> bool
    ensures { result ≡ list_all is_unescaped_byte bytes.now }
{
    allows_all::<UnescapedBytes>(bytes)
}

/// Whether no byte of the text is 0, 1 or `%`.
pub fn is_kept(bytes: &[u8]) -> bool
    ensures { result ≡ list_all is_kept_byte bytes.now }
{
    allows_all::<KeptBytes>(bytes)
}

/// Whether no byte is 0, 1 or `%`, of whole blocks of 16.
#[inline(always)]
pub fn are_kept_blocks(bytes: &[u8]) -> bool
    requires { length bytes.now % 16 ≡ 0 }
    ensures { result ≡ list_all is_kept_byte bytes.now }
{
    let mut least = u8x16::splat(255);
    let mut percent = u8x16::splat(0);
    let mut at = 0;
    while at < bytes.len() {
        let block = load(bytes, at);
        least = lesser(least, block);
        percent = either(percent, equal_to(block, b'%'));
        at += 16;
    }
    is_clear(either(below_two(least), percent))
}
