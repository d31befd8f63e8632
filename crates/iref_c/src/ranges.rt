//! Where the components of a text stand in it, as C sees them (RFC 3986 sections 3 and 5.3).
ghost use Rattle.std.specs.Prelude.{◌≡◌, ◌+◌, ◌<◌, ◌^◌, [], ◌∷◌, length, option_map, IfSome, Some};
ghost use Rattle.std.specs.Option.{option_copied};
ghost use Rattle.iref.specs.{Authority.{read_authority, spell_authority}, Grammar.{at_sign, colon}};
ghost use Rattle.iref.specs.{ComponentOffsets.{range_from}, Texts.{part_then, then_part}};
ghost use Rattle.iref.specs.{AuthoritySlices.{authority_of}, ReferenceSlices.{value_of}};
ghost use Rattle.iref.specs.Reference.{read_reference, spell};
ghost use Rattle.iref_c.specs.PartRanges.{all_ranges, authority_ranges, range_for_c, ranges_from};

use iref_parse::authority::{AuthoritySlices, split_parts};
use iref_parse::split::{ReferenceSlices, split_reference};
use iref_reference_text::lengths::offsets_of;
use std::ops::Range;

/// Where a component stands in its text, in bytes.
#[repr(C)]
#[derive(Clone, Copy)]
pub struct ByteRange {
    /// 1 where the component is there, else 0, and then the others are 0 too.
    pub is_there: usize,
    /// Where it begins.
    pub start: usize,
    /// Where it ends: the offset of the byte after its last.
    pub end: usize,
}

/// Where the components of a text stand, without `:`, `//`, `@`, `?` and `#`.
#[repr(C)]
#[derive(Clone, Copy)]
pub struct Ranges {
    /// The scheme (RFC 3986 section 3.1).
    pub scheme: ByteRange,
    /// The authority (section 3.2).
    pub authority: ByteRange,
    /// The user info of the authority (section 3.2.1).
    pub user_info: ByteRange,
    /// The host, which is there where the authority is (section 3.2.2).
    pub host: ByteRange,
    /// The port (section 3.2.3).
    pub port: ByteRange,
    /// The path, which is always there (section 3.3).
    pub path: ByteRange,
    /// The query (section 3.4).
    pub query: ByteRange,
    /// The fragment (section 3.5).
    pub fragment: ByteRange,
}

/// The ranges of the parts of an authority.
#[derive(Clone, Copy)]
pub struct AuthorityRanges {
    /// The user info.
    pub user_info: ByteRange,
    /// The host.
    pub host: ByteRange,
    /// The port.
    pub port: ByteRange,
}

/// A component that is not there.
pub const ABSENT: ByteRange = ByteRange {
    is_there: 0,
    start: 0,
    end: 0,
};

// The range of what may be there.
fn range_of(range: Option<Range<usize>>) -> ByteRange
    ensures { result ≡ range_for_c range }
{
    match range {
        Some(range) => ByteRange {
            is_there: 1,
            start: range.start,
            end: range.end,
        },
        None => ABSENT,
    }
}

// A part that begins at `start`.
fn part_from(start: usize, part: &str) -> ByteRange
    requires { start + length part.now < 2 ^ 64 }
    ensures { result ≡ range_for_c (Some (range_from start part.now)) }
{
    ByteRange {
        is_there: 1,
        start,
        end: start + part.len(),
    }
}

// A part that may begin at `start`, and where its `@` ends.
fn part_before(start: usize, part: Option<&str>) -> (ByteRange, usize)
    requires { start + length (part_then (at_sign ∷ []) (option_copied part)) < 2 ^ 64 }
    ensures range { result.0
        ≡ range_for_c (option_map (range_from start) (option_copied part.entry)) }
    ensures end { result.1
        ≡ start + length (part_then (at_sign ∷ []) (option_copied part.entry)) }
{
    match part {
        Some(part) => (part_from(start, part), start + part.len() + 1),
        None => (ABSENT, start),
    }
}

// A part that may follow a `:`, which begins at `start`.
fn part_after(start: usize, part: Option<&str>) -> ByteRange
    requires { start + length (then_part (colon ∷ []) (option_copied part)) < 2 ^ 64 }
    ensures { result
        ≡ range_for_c (option_map (range_from (start + 1)) (option_copied part.entry)) }
{
    match part {
        Some(part) => part_from(start + 1, part),
        None => ABSENT,
    }
}

// The parts of an authority that begins at `start`.
fn ranges_from(start: usize, parts: AuthoritySlices<'_>) -> AuthorityRanges
    requires { start + length (spell_authority (authority_of parts)) < 2 ^ 64 }
    ensures { result ≡ ranges_from start (authority_of parts.entry) }
{
    let (user_info, host_start) = part_before(start, parts.user_info);
    let host = part_from(host_start, parts.host);
    let port = part_after(host.end, parts.port);
    AuthorityRanges {
        user_info,
        host,
        port,
    }
}

// The ranges of the parts of an authority that is at `range`, where there is one.
fn ranges_at(range: ByteRange, authority: Option<&str>) -> AuthorityRanges
    requires fits { range.end < 2 ^ 64 }
    requires ends { IfSome (option_copied authority) (λ text.
        range.end ≡ range.start + length text) }
    ensures { result ≡ authority_ranges range.start
        (option_map read_authority (option_copied authority.entry)) }
{
    match authority {
        Some(authority) => ranges_from(range.start, split_parts(authority)),
        None => AuthorityRanges {
            user_info: ABSENT,
            host: ABSENT,
            port: ABSENT,
        },
    }
}

impl Ranges {
    // What the slices of a text show.
    fn of_slices(slices: ReferenceSlices<'_>) -> Ranges
        requires { length (spell (value_of slices)) < 2 ^ 64 }
        ensures { result ≡ all_ranges (value_of slices.entry) }
    {
        let offsets = offsets_of(slices);
        let authority = range_of(offsets.authority);
        let parts = ranges_at(authority, slices.authority);
        Ranges {
            scheme: range_of(offsets.scheme),
            authority,
            user_info: parts.user_info,
            host: parts.host,
            port: parts.port,
            path: range_of(Some(offsets.path)),
            query: range_of(offsets.query),
            fragment: range_of(offsets.fragment),
        }
    }

    /// Where the components of a text stand, and the parts of its authority.
    pub fn of_text(text: &str) -> Ranges
        ensures { result ≡ all_ranges (read_reference text.now) }
    {
        Ranges::of_slices(split_reference(text))
    }
}
