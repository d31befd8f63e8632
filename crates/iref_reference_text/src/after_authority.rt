//! The text of what a reference resolves to against a base with an authority, written from the front
//! (RFC 3986 sections 5.2.2 and 5.3).
ghost use Rattle.std.specs.Prelude.{◌≡◌, ◌≢◌, ◌+◌, ◌||◌, ◌++◌, [], IfOk, IfSome, is_some, length, true};
ghost use Rattle.iref_grammar.specs.{AreComponents, is_empty, read_path, Reference.{context_of}};
ghost use Rattle.iref_grammar.specs.{fits, read_reference, resolved};
ghost use Rattle.iref_parse.specs.{texts_of, value_of};
ghost use Rattle.iref_reference_text.specs.{ComponentLengths.{lengths_of_texts}, Rows.{has_path, row_of}};
ghost use Rattle.iref_reference_text.specs.Fronts.{IsAround, IsSpelled, StaysBefore};

use crate::base::base_slice;
use crate::lengths::Lengths;
use crate::row::Row;
use iref_grammar::chars::CharSet;
use iref_parse::dots::has_dots;
use iref_parse::split::ReferenceSlices;
use iref_path::forward::append_normal_after;
use iref_path::segments::split_root;
use iref_splice::Memory;
use std::alloc::{AllocError, Global};

// The front part of the base's text that stays before the path of a reference. Of `//h/x/y` it is `//h`
// before `/a`, and `//h/x/` before `a`. There is none where a segment of the path begins with a dot.
// Before a relative path there is none either where the base's path is relative, or where one of its
// segments begins with a dot.
#[inline(always)]
#[tactic(auto, using(crate::proofs::LengthLemmas::totals))]
fn front_before<'a, C: CharSet>(
    text: &'a str,
    base: ReferenceSlices<'a>,
    lengths: Lengths,
    reference: ReferenceSlices<'_>,
    row: Row,
) -> Option<&'a str>
    requires value { value_of base ≡ read_reference text.now }
    requires components { AreComponents C.tests (texts_of base) }
    requires lengths { lengths ≡ lengths_of_texts (texts_of base) }
    requires authority { is_some base.authority ≡ true }
    requires row { row ≡ row_of (texts_of reference) }
    requires path { has_path row ≡ true }
    ensures { IfSome result (λ front.
        StaysBefore (texts_of base.entry) reference.entry.path.now front.now) }
{
    if has_dots(reference.path.as_bytes()) {
        return None;
    }
    if let Row::Rooted = row {
        return Some(&text[..lengths.path_start()]);
    }
    if !split_root(base.path).0 || has_dots(base.path.as_bytes()) {
        return None;
    }
    Some(base_slice::<C>(text, base, lengths))
}

// The bytes of two texts, one after the other. Memory is requested once.
#[inline(always)]
fn joined(alloc: Global, front: &str, back: &str) -> Result<Vec<u8>, Memory>
    ensures { IfOk result (λ bytes. bytes.items ≡ front.now ++ back.now) }
{
    let len = front.len().checked_add(back.len()).ok_or(AllocError)?;
    let mut bytes = Vec::with_capacity(alloc, len)?;
    bytes.extend_from_slice(front.as_bytes())?;
    bytes.extend_from_slice(back.as_bytes())?;
    Ok(bytes)
}

// How many bytes two paths take, what stands around them, and a `/`, if that can be counted.
fn room_for(base: &str, path: &str, front: &[u8], behind: &[u8]) -> Option<usize>
    ensures { IfSome result (λ room. room ≡ length base.now + length path.now
        + (length front.now + length behind.now) + 1) }
{
    let paths = base.len().checked_add(path.len())?;
    let around = front.len().checked_add(behind.len())?;
    paths.checked_add(around)?.checked_add(1)
}

// The normalized path of a reference, between what stands before the path of its base, after an
// authority, and what stands behind its own; and how long the path is.
#[tactic(auto, using(std::proofs::lemmas::Grind::common_steps))]
fn path_between(
    alloc: Global,
    front: &[u8],
    base: &str,
    path: &str,
    behind: &[u8],
) -> Result<(Vec<u8>, usize), Memory>
    requires base { (read_path base.now).absolute || is_empty (read_path base.now).segments ≡ true }
    requires path { path.now ≢ [] }
    ensures { IfOk result (λ written. IsAround front.now base.now path.now behind.now
        written.0.items written.1) }
{
    let room = room_for(base, path, front, behind).ok_or(AllocError)?;
    let mut bytes = Vec::with_capacity(alloc, room)?;
    bytes.extend_from_slice(front)?;
    append_normal_after(&mut bytes, base, path)?;
    let len = bytes.len() - front.len();
    bytes.extend_from_slice(behind)?;
    Ok((bytes, len))
}

/// The bytes of what a reference resolves to against a base, and the lengths of its components, given
/// both texts and their components. None where the reference's row has no path of its own after the
/// base's authority, where the base has none, and where there is no room for both paths. The room
/// that a normal path does not need stays in the vector.
#[inline(always)]
#[tactic(auto, using(crate::proofs::LengthLemmas::totals))]
pub fn resolved_after_authority<C: CharSet>(
    alloc: Global,
    base_text: &str,
    base: ReferenceSlices<'_>,
    text: &str,
    reference: ReferenceSlices<'_>,
) -> Result<Option<(Vec<u8>, Lengths)>, Memory>
    requires base { value_of base ≡ read_reference base_text.now }
    requires components { AreComponents C.tests (texts_of base) }
    requires fits { fits (context_of (value_of base)) (value_of base).path ≡ true }
    requires reference { value_of reference ≡ read_reference text.now }
    ensures { IfOk result (λ written. IfSome written (λ spelled. IsSpelled
        (resolved (value_of base.entry) (value_of reference.entry)) spelled.0.items spelled.1)) }
{
    let row = Row::of(reference);
    if !row.has_path() || base.authority.is_none() {
        return Ok(None);
    }
    let lengths = Lengths::of(base);
    let start = lengths.path_start();
    if let Some(front) = front_before::<C>(base_text, base, lengths, reference, row) {
        let bytes = joined(alloc, front, text)?;
        let path = front.len() + reference.path.len() - start;
        return Ok(Some((bytes, lengths.before(path, reference))));
    }
    let front = &base_text.as_bytes()[..start];
    let (_, behind) = text.as_bytes().split_at(reference.path.len());
    match path_between(alloc, front, base.path, reference.path, behind) {
        Ok((bytes, path)) => Ok(Some((bytes, lengths.before(path, reference)))),
        Err(_) => Ok(None),
    }
}
