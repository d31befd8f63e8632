//! A path rewritten over its own bytes, from the back (RFC 3986 section 5.2.4). What is written
//! never passes what is not yet read.

ghost use Rattle.std.specs.Prelude.{◌≡◌, ◌+◌, ◌-◌, ◌<◌, ◌≤◌, ◌^◌, ◌∷◌, ◌++◌, [], false, length, slice_range, take};
ghost use Rattle.std.specs.{Prelude.{codes, replicate, vec_len}, List.{splice}};
ghost use Rattle.std.specs.{Str.{IsUtf8}, String.{string_bytes, string_len}};
ghost use Rattle.iref_grammar.specs.{read_path, spell_path, open_before, staying_before, normalized};
ghost use Rattle.iref_splice.specs.Changes.{part_at};
ghost use Rattle.iref_path.specs.Rewriting.{items_text, pieces_before, rewritten, rewritten_at};
ghost use Rattle.iref_path.specs.{Spelling.{each_closed}, Written.{WritesBefore}};

use crate::normal_items::{leading_parents, survey_items};
use crate::segments::split_root;
use crate::spell::guard_in;
use crate::staying_names::name_stays;
use crate::steps::EMPTY;
use iref_grammar::context::PathContext;
use iref_splice::bytes::replace;
use iref_splice::change::{Change, Span};
use memchr::memrchr;
use std::mem;
use std::ops::Range;

// Where the segment begins that ends, with the `/` after it, at `end`.
#[tactic(auto, using(crate::proofs::RewritingLemmas::found_before))]
fn segment_before(bytes: &[u8], end: usize) -> usize
    requires some { 0 < end }
    requires within { end ≤ length bytes.now + 1 }
    ensures pieces { pieces_before bytes.now end ≡ pieces_before bytes.now result
        ++ slice_range bytes.now result (end - 1) ∷ [] }
    ensures less { result < end }
{
    match memrchr(b'/', &bytes[..end - 1]) {
        Some(slash) => slash + 1,
        None => 0,
    }
}

// Moves a segment, if it is a name that stays, so that it ends, with a `/` after it, at `end`, and
// returns where that begins.
#[tactic(auto, using(std::proofs::lemmas::Grind::common_steps, crate::proofs::RewritingLemmas::moved))]
fn move_segment(
    bytes: &mut [u8],
    segment: usize,
    segment_end: usize,
    end: usize,
    open_parents: &mut usize,
) -> usize
    requires countable { open_parents.old + 1 < 2 ^ 64 }
    requires start_le_end { segment ≤ segment_end }
    requires before { segment_end < end }
    requires within { end ≤ length bytes.old }
    ensures text { WritesBefore end (each_closed (staying_before
        (slice_range bytes.old segment segment_end ∷ []) open_parents.old))
        bytes.old bytes.new result }
    ensures parents { open_parents.new
        ≡ open_before (slice_range bytes.old segment segment_end ∷ []) open_parents.old }
    ensures unread { take segment bytes.new ≡ take segment bytes.old }
{
    if !name_stays(&bytes[segment..segment_end], open_parents) {
        return end;
    }
    bytes[end - 1] = b'/';
    let start = end - 1 - (segment_end - segment);
    bytes.copy_within(segment..segment_end, start);
    start
}

// Moves the names that stay before `unread`, with a `/` after each, so that they end at `end`, and
// returns where they begin then, and how many `..` are open before them.
#[tactic(auto, using(std::proofs::lemmas::Grind::common_steps, crate::proofs::RewritingLemmas::names_moved))]
fn move_names(
    bytes: &mut [u8],
    mut unread: usize,
    mut open_parents: usize,
    end: usize,
) -> (usize, usize)
    requires countable { unread + open_parents < 2 ^ 64 }
    requires before { unread ≤ end }
    requires within { end ≤ length bytes.old }
    ensures text { WritesBefore end
        (each_closed (staying_before (pieces_before bytes.old unread) open_parents))
        bytes.old bytes.new result.0 }
    ensures parents { result.1 ≡ open_before (pieces_before bytes.old unread) open_parents }
{
    let mut start = end;
    while unread > 0 {
        let segment = segment_before(bytes, unread);
        start = move_segment(bytes, segment, unread - 1, start, &mut open_parents);
        unread = segment;
    }
    (start, open_parents)
}

// Writes a text so that it ends at `end`, and returns where it begins.
#[inline(always)]
fn write_before(bytes: &mut [u8], end: usize, text: &str) -> usize
    requires room { length text.now ≤ end }
    requires within { end ≤ length bytes.old }
    ensures { WritesBefore end text.now bytes.old bytes.new result }
{
    let start = end - text.len();
    bytes[start..end].copy_from_slice(text.as_bytes());
    start
}

// Writes `..` this many times, with a `/` after each, so that they end at a position, and returns
// where they begin.
#[tactic(auto, using(crate::proofs::SpellLemmas::parent_sizes))]
fn write_parents(bytes: &mut [u8], count: usize, end: usize) -> usize
    requires room { length (each_closed (replicate count (codes ".."))) ≤ end }
    requires within { end ≤ length bytes.old }
    ensures { WritesBefore end (each_closed (replicate count (codes "..")))
        bytes.old bytes.new result }
{
    let mut start = end;
    for _ in 0..count {
        start = write_before(bytes, start, "../");
    }
    start
}

// Writes the normal list of the segments over them, with `/` between, so that it ends where they
// end, and returns where it begins.
fn write_list(bytes: &mut [u8], absolute: bool) -> usize
    requires { absolute ≡ false
        → length (items_text absolute bytes.old) ≤ length bytes.old }
    ensures { WritesBefore (length bytes.old) (items_text absolute bytes.old)
        bytes.old bytes.new result }
{
    let len = bytes.len();
    let last = segment_before(bytes, len + 1);
    let mut open_parents: usize = 0;
    let stays = name_stays(&bytes[last..], &mut open_parents);
    // A name that comes last stays where it is.
    let end = if stays { last } else { len };
    let (start, open_parents) = move_names(bytes, last, open_parents, end);
    write_parents(bytes, leading_parents(absolute, open_parents), start)
}

// Writes what stands first and the normal list of the path over the path, so that they end where it
// ends, and returns where they begin.
fn write_over(path: &mut [u8], guard: &str) -> usize
    requires { length (rewritten guard.now path.old) ≤ length path.old }
    ensures { WritesBefore (length path.old) (rewritten guard.now path.old)
        path.old path.new result }
{
    let absolute = path.starts_with(b"/");
    let root = usize::from(absolute);
    let start = write_list(&mut path[root..], absolute);
    write_before(path, root + start, guard)
}

// Writes it over the path that is at `at`, and returns how many bytes of the path stand before it.
// Inlined beside what cuts, its loops would take an instruction more a segment.
#[tactic(auto, using(std::proofs::lemmas::Grind::common_steps, crate::proofs::RewritingLemmas::cut_to_text))]
#[inline(never)]
fn write_at(bytes: &mut [u8], at: Span, guard: &str) -> usize
    requires start_le_end { at.start ≤ at.end }
    requires in_bounds { at.end ≤ length bytes.old }
    requires shorter { length (rewritten guard.now (part_at bytes.old at)) ≤ at.end - at.start }
    ensures index { result + length (rewritten guard.now (part_at bytes.old at))
        ≡ at.end - at.start }
    ensures written { splice bytes.new at.start (at.start + result) []
        ≡ rewritten_at guard.now bytes.old at }
    ensures len { length bytes.new ≡ length bytes.old }
{
    write_over(&mut bytes[at.start..at.end], guard)
}

// Takes the bytes of the range away.
fn cut(bytes: &mut Vec<u8>, within: Range<usize>)
    requires start_le_end { within.start ≤ within.end }
    requires in_bounds { within.end ≤ vec_len bytes.old }
    ensures { bytes.new.items ≡ splice bytes.old.items within.start within.end [] }
{
    replace(bytes, Change { within, ..EMPTY }).unwrap();
}

/// Replaces the path that is at `at` by what stands first and the path's normal list, and returns
/// where that ends. It takes no memory.
pub fn rewrite(bytes: &mut Vec<u8>, at: Span, guard: &str) -> usize
    requires start_le_end { at.start ≤ at.end }
    requires in_bounds { at.end ≤ vec_len bytes.old }
    requires shorter { length (rewritten guard.now (part_at bytes.old.items at))
        ≤ at.end - at.start }
    ensures items { bytes.new.items ≡ rewritten_at guard.now bytes.old.items at }
    ensures end { result ≡ at.start + length (rewritten guard.now (part_at bytes.old.items at)) }
{
    let unused = write_at(bytes.as_mut_slice(), at, guard);
    cut(bytes, at.start..at.start + unused);
    at.end - unused
}

/// Replaces the path that is at `at` of a text, as `rewrite` does.
pub fn rewrite_text(text: &mut String, at: Span, guard: &str) -> usize
    requires start_le_end { at.start ≤ at.end }
    requires in_bounds { at.end ≤ string_len text.old }
    requires shorter { length (rewritten guard.now (part_at (string_bytes text.old) at))
        ≤ at.end - at.start }
    requires utf8 { IsUtf8 (rewritten_at guard.now (string_bytes text.old) at) }
    ensures bytes { string_bytes text.new ≡ rewritten_at guard.now (string_bytes text.old) at }
    ensures end { result
        ≡ at.start + length (rewritten guard.now (part_at (string_bytes text.old) at)) }
{
    let empty = String::new(*text.allocator());
    let mut bytes = mem::replace(text, empty).into_bytes();
    let end = rewrite(&mut bytes, at, guard);
    // What is left is text, so no byte is read again.
    *text = unsafe { String::from_utf8_unchecked(bytes) };
    end
}

/// What stands first in the normal form of a path in its context, and how many bytes the whole form
/// has.
#[tactic(auto, using(crate::proofs::SpellLemmas::guarded_sizes))]
pub fn normal_guard(context: PathContext, path: &str) -> (&'static str, usize)
    ensures text { rewritten result.0.now path.now
        ≡ spell_path (normalized context (read_path path.now)) }
    ensures len { result.1 ≡ length (rewritten result.0.now path.now) }
{
    let (absolute, segments) = split_root(path);
    let all = survey_items(absolute, None, segments);
    let guard = guard_in(context, absolute, all.size, all.first);
    (guard, guard.len() + all.size.saturating_sub(1))
}
