//! Functions as a caller writes them, proved from public clauses and laws of `iref`: here those of
//! one reference or path, and a module for each longer example. `validator` and `context` also cut
//! texts by `iref_parse`, and the proofs of `below` and `cache` use lemmas of crates below `iref`.
//! Those of `chosen` know nothing of references: `iref_bench` draws from its tables by them.
#![tactic(auto)]

ghost use Rattle.std.specs.Prelude.{◌≡◌, ◌↔◌, IfOk, MatchOption, count_by, fold, length, map, max, reverse, true};
ghost use Rattle.iref.specs.{Characters.{uri_chars}, ComponentTexts.{spell_components}, Grammar.{IsUriReference}};
ghost use Rattle.iref.specs.{Reference.{read_reference}, Rules.{InUtf8}, Parts.{uri_ref_part_texts}, Texts.{is_empty}};
ghost use Rattle.iref.specs.{NormalList.{normal_segments}, Components.{text_of}, Paths.{path_value}, Key.{are_alike}};
ghost use Rattle.iref.specs.{References.{reference_value}, CountedEquality.{IsCountedAnswer}, PathKey.{path_key}};

pub mod below;
pub mod cache;
pub mod chosen;
pub mod context;
pub mod editors;
pub mod inside;
pub mod mapping;
pub mod mirror;
pub mod validator;
pub mod wrong_lines;

use iref::uri::{
    Path, Segment, Steps, Uri, UriRef, UriRefParts, new_steps_have_room, path_eq_counted,
};
use std::alloc::{AllocError, Global};

/// The components of a reference, as slices of its text: of `http://a/b` the scheme is `http`. None
/// exactly where the text is no reference, such as `1:2`.
pub fn parts_of(text: &str) -> Option<UriRefParts<'_>>
    ensures { MatchOption result (¬ (InUtf8 (IsUriReference uri_chars) text.now))
        (λ parts. InUtf8 (IsUriReference uri_chars) text.now
        × (uri_ref_part_texts parts ≡ spell_components (read_reference text.now))) }
{
    Some(UriRef::new(text).ok()?.parts())
}

/// Whether two URIs are equal by `==`, as `HTTP://a/%7Eb/./c` and `http://a/~b/c` are.
pub fn mean_the_same(a: Uri<'_>, b: Uri<'_>) -> bool
    ensures { result ≡ are_alike (reference_value a.entry) (reference_value b.entry) }
{
    a == b
}

/// Whether two paths are equal, and how many segments were read to decide it: of `a/b/c` and
/// `a/../a/./b/../b/c` they are `true` and 11.
pub fn compared(a: Path<'_>, b: Path<'_>) -> (bool, u128)
    ensures equal { (result.0 ≡ true)
        ↔ (path_key (path_value a.entry) ≡ path_key (path_value b.entry)) }
    ensures counted { IsCountedAnswer (path_value a.entry) (path_value b.entry)
        result.0 result.1 }
{
    new_steps_have_room(a, b);
    let mut steps = Steps::new();
    let equal = path_eq_counted(a, b, &mut steps);
    (equal, steps.count())
}

/// How many segments of the path are empty: of `//a/b/foo//bar/` there are 3.
pub fn empty_segment_count(path: Path<'_>) -> usize
    ensures { result ≡ count_by is_empty (path_value path.entry).segments }
{
    let mut count = 0;
    for segment in path.segments() {
        if segment.is_empty() {
            count += 1;
        }
    }
    count
}

/// The segments of the path, in a vector: of `//a/b/foo//bar/` there are 7. Out of memory, it
/// returns `AllocError`.
pub fn segment_list<'a>(path: Path<'a>, alloc: Global) -> Result<Vec<Segment<'a>>, AllocError>
    ensures { IfOk result (λ list. map text_of list.items ≡ (path_value path.entry).segments) }
{
    path.segments().collect(alloc)
}

/// The segments of the path, the last one first: of `a/b` they are `b` and `a`. Out of memory, it
/// returns `AllocError`.
pub fn reversed_segment_list<'a>(
    path: Path<'a>,
    alloc: Global,
) -> Result<Vec<Segment<'a>>, AllocError>
    ensures { IfOk result
        (λ list. map text_of list.items ≡ reverse (path_value path.entry).segments) }
{
    path.segments().rev().collect(alloc)
}

/// The normal segments of the path, in a vector (RFC 3986 section 5.2.4): of `a/..//b` they are an
/// empty one and `b`. Out of memory, it returns `AllocError`.
pub fn normal_segment_list<'a>(
    path: Path<'a>,
    alloc: Global,
) -> Result<Vec<Segment<'a>>, AllocError>
    ensures { IfOk result
        (λ list. map text_of list.items ≡ normal_segments (path_value path.entry)) }
{
    path.normalized_segments().collect(alloc)
}

/// The length of the longest of the path's segments, in bytes: of `//a/b/foo//bar/` it is 3. It is
/// 0 where the path has none.
pub fn longest_segment_length(path: Path<'_>) -> usize
    ensures { result ≡ fold (λ longest segment. max longest (length segment)) 0
        (path_value path.entry).segments }
{
    let mut longest = 0;
    for segment in path {
        if segment.len() > longest {
            longest = segment.len();
        }
    }
    longest
}
