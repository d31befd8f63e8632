//! Sort keys of short texts whose bytes stand in them as they are, written from the front.

ghost use Rattle.std.specs.Prelude.{◌≡◌, ℕ, ◌+◌, ◌<◌, ◌≤◌, ◌++◌, [], ◌∷◌, take, false, IfSome, length};
ghost use Rattle.std.specs.{Prelude.{option_map, true}, Option.{option_copied}, Str.{str_to_ascii_lowercase}};
ghost use Rattle.iref_grammar.specs.{Authority.{read_authority}, ComponentTexts.{spell_components}};
ghost use Rattle.iref_grammar.specs.{PathValue.{read_path, segments_of}, Tests.{none_or}};
ghost use Rattle.iref_grammar.specs.Reference.{read_reference};
ghost use Rattle.iref_grammar.specs.Key.{key};
ghost use Rattle.iref_parse.specs.{Dots.{has_dotted_segment}, ReferenceSlices.{texts_of, value_of}};
ghost use Rattle.iref_canonical.specs.{Padded.{BeginsWith, IsPadded, text_in}, SortBytes.{is_kept, are_kept_parts}};
ghost use Rattle.iref_canonical.specs.{SortKey.{sort_authority, sort_item, sort_key, sort_list}};
ghost use Rattle.iref_canonical.specs.{SortKey.{sort_option, sort_path, sort_text}, SortPuts.{AreKeptSlices, Puts}};
ghost use Rattle.iref_canonical.specs.SortPuts.{segment_bytes, sorted_slices, sorted_tail};
ghost use Rattle.iref_canonical.specs.SortPuts.{spelled_slices, spelled_tail};

use crate::padded::Padded;
use iref_parse::authority::split_parts;
use iref_parse::position::{position_of, position_of_either};
use iref_parse::split::ReferenceSlices;
use iref_parse::unescaped::are_kept_blocks;
use iref_splice::text::marked_len;
use std::simd::prelude::*;

// The length of the longest text whose sort key is written so.
pub(crate) const LONGEST: usize = 96;
// The longest text, and a block behind it.
const PADDED: usize = 112;
// Two bytes for each of the longest text, nine more, and a block: with these a sort key is written.
pub(crate) const ROOM: usize = 224;

// Puts a byte at an index, and returns where it ends.
#[inline(always)]
fn put(buffer: &mut [u8], at: usize, byte: u8) -> usize
    requires { at < length buffer.old }
    ensures { Puts at (byte ∷ []) buffer.old buffer.new result }
{
    buffer[at] = byte;
    at + 1
}

// Stores bytes at an index. Any number of the first are put so.
#[inline(always)]
fn store(buffer: &mut [u8], at: usize, bytes: &[u8])
    requires { at + length bytes.now ≤ length buffer.old }
    ensures { (count : ℕ) → count ≤ length bytes.now
        → Puts at (take count bytes.now) buffer.old buffer.new (at + count) }
{
    buffer[at..at + bytes.len()].copy_from_slice(bytes);
}

// Stores the first 16 bytes at an index. Any number of the first are put so.
#[inline(always)]
fn store_block(buffer: &mut [u8], at: usize, bytes: &[u8])
    requires block { 16 ≤ length bytes.now }
    requires room { at + 16 ≤ length buffer.old }
    ensures { (count : ℕ) → count ≤ 16
        → Puts at (take count bytes.now) buffer.old buffer.new (at + count) }
{
    u8x16::from_slice(bytes).copy_to_slice(&mut buffer[at..]);
}

// Puts a text and its end.
#[inline(always)]
#[tactic(auto, using(crate::proofs::SortPutLemmas::puts))]
fn put_text(buffer: &mut [u8], at: usize, text: &str) -> usize
    requires { at + length text.now + 1 ≤ length buffer.old }
    ensures { Puts at (text.now ++ 0 ∷ []) buffer.old buffer.new result }
{
    store(buffer, at, text.as_bytes());
    put(buffer, at + text.len(), 0)
}

// Puts a text and its end. Most texts are in one block.
#[inline(always)]
fn put_padded(buffer: &mut [u8], at: usize, text: Padded<'_>) -> usize
    requires padded { IsPadded text }
    requires room { at + length (text_in text) + 16 ≤ length buffer.old }
    ensures { Puts at (text_in text.entry ++ 0 ∷ []) buffer.old buffer.new result }
{
    if text.len <= 16 {
        store_block(buffer, at, text.bytes);
    } else {
        store(buffer, at, &text.bytes[..text.len]);
    }
    put(buffer, at + text.len, 0)
}

// Puts a part of an authority that may not be there.
#[inline(always)]
#[tactic(auto, using(crate::proofs::SortPutLemmas::puts))]
fn put_text_option(buffer: &mut [u8], at: usize, text: Option<&str>) -> usize
    requires kept { none_or is_kept (option_copied text) ≡ true }
    requires room { at + length (sort_option sort_text (option_copied text)) ≤ length buffer.old }
    ensures { Puts at (sort_option sort_text (option_copied text.entry))
        buffer.old buffer.new result }
{
    match text {
        Some(text) => {
            let at = put(buffer, at, 1);
            put_text(buffer, at, text)
        }
        None => put(buffer, at, 0),
    }
}

// Puts a part behind a delimiter of one byte, which may not be there.
#[inline(always)]
#[tactic(auto, using(crate::proofs::SortPutLemmas::puts))]
fn put_option(buffer: &mut [u8], at: usize, text: Padded<'_>, part: Option<&str>) -> usize
    requires kept { none_or is_kept (option_copied part) ≡ true }
    requires begins { BeginsWith 1 (option_copied part) (text_in text) }
    requires padded { IsPadded text }
    requires room { at + length (sort_option sort_text (option_copied part)) + 16
        ≤ length buffer.old }
    ensures { Puts at (sort_option sort_text (option_copied part.entry))
        buffer.old buffer.new result }
{
    match part {
        Some(part) => {
            let at = put(buffer, at, 1);
            put_padded(buffer, at, text.part(1, part))
        }
        None => put(buffer, at, 0),
    }
}

// Puts where a segment ends and the next begins.
#[inline(always)]
fn put_slash(buffer: &mut [u8], at: usize) -> usize
    requires { at + 1 < length buffer.old }
    ensures { Puts at (0 ∷ 1 ∷ []) buffer.old buffer.new result }
{
    let at = put(buffer, at, 0);
    put(buffer, at, 1)
}

// Puts segments, but for where the first begins and the last ends, unless one begins with a dot. 16
// bytes are stored at once, and those behind a `/` are written over.
#[inline(always)]
fn put_segments(buffer: &mut [u8], at: usize, text: Padded<'_>) -> Option<usize>
    requires padded { IsPadded text }
    requires room { at + length (segment_bytes (text_in text)) + 16 ≤ length buffer.old }
    ensures put { IfSome result (λ end.
        Puts at (segment_bytes (text_in text.entry)) buffer.old buffer.new end) }
    ensures dotless { IfSome result (λ end. has_dotted_segment (text_in text.entry) ≡ false) }
{
    if text.bytes[0] == b'.' {
        return None;
    }
    let mut end = at;
    let mut from = 0;
    loop {
        let block = &text.bytes[from..from + 16];
        let found = position_of(block, b'/');
        store_block(buffer, end, block);
        let left = text.len - from;
        if found == 16 && 16 < left {
            end += 16;
            from += 16;
        } else {
            if left <= found {
                return Some(end + left);
            }
            end = put_slash(buffer, end + found);
            from += found + 1;
            if text.bytes[from] == b'.' {
                return None;
            }
        }
    }
}

// Puts the items of a path without its root, and their end, unless one begins with a dot.
#[inline(always)]
#[tactic(auto, using(crate::proofs::SortPutLemmas::items))]
fn put_items(buffer: &mut [u8], at: usize, text: Padded<'_>) -> Option<usize>
    requires kept { is_kept (text_in text) ≡ true }
    requires padded { IsPadded text }
    requires room { at + length (sort_list sort_item (segments_of (text_in text))) + 16
        ≤ length buffer.old }
    ensures put { IfSome result (λ end.
        Puts at (sort_list sort_item (segments_of (text_in text.entry)))
        buffer.old buffer.new end) }
    ensures dotless { IfSome result (λ end. has_dotted_segment (text_in text.entry) ≡ false) }
{
    if text.len == 0 {
        return Some(put(buffer, at, 0));
    }
    let at = put(buffer, at, 1);
    let at = put_segments(buffer, at, text)?;
    let at = put(buffer, at, 0);
    Some(put(buffer, at, 0))
}

// Puts a path, unless a segment begins with a dot.
#[inline(always)]
#[tactic(auto, using(crate::proofs::SortCutLemmas::paths), unfolding(crate::specs::SortKey::sort_path))]
fn put_path(buffer: &mut [u8], at: usize, path: Padded<'_>) -> Option<usize>
    requires kept { is_kept (text_in path) ≡ true }
    requires padded { IsPadded path }
    requires room { at + length (sort_path (read_path (text_in path))) + 16 ≤ length buffer.old }
    ensures put { IfSome result (λ end.
        Puts at (sort_path (read_path (text_in path.entry))) buffer.old buffer.new end) }
    ensures dotless { IfSome result (λ end. has_dotted_segment (text_in path.entry) ≡ false) }
{
    if 0 < path.len && path.bytes[0] == b'/' {
        let at = put(buffer, at, 1);
        put_items(buffer, at, path.skip(1))
    } else {
        let at = put(buffer, at, 0);
        put_items(buffer, at, path)
    }
}

// Puts a text in lower case and its end. The bytes are written one by one.
#[tactic(auto, using(crate::proofs::SortPutLemmas::puts))]
fn put_lower(buffer: &mut [u8], at: usize, text: &str) -> usize
    requires { at + length text.now + 1 ≤ length buffer.old }
    ensures { Puts at (str_to_ascii_lowercase text.now ++ 0 ∷ []) buffer.old buffer.new result }
{
    let mut end = at;
    for byte in text.as_bytes() {
        end = put(buffer, end, byte.to_ascii_lowercase());
    }
    put(buffer, end, 0)
}

// Puts a scheme in lower case, which may not be there. Most schemes are `http` and `https`.
#[inline(always)]
#[tactic(auto, using(crate::proofs::SortPutLemmas::schemes))]
fn put_scheme(buffer: &mut [u8], at: usize, scheme: Option<&str>) -> usize
    requires kept { none_or is_kept (option_copied scheme) ≡ true }
    requires room { at + length (sort_option sort_text (option_copied scheme))
        ≤ length buffer.old }
    ensures { Puts at (sort_option sort_text
        (option_map str_to_ascii_lowercase (option_copied scheme.entry)))
        buffer.old buffer.new result }
{
    let Some(scheme) = scheme else {
        return put(buffer, at, 0);
    };
    let at = put(buffer, at, 1);
    match scheme {
        "http" => put_text(buffer, at, "http"),
        "https" => put_text(buffer, at, "https"),
        _ => put_lower(buffer, at, scheme),
    }
}

// Puts the parts of an authority.
#[tactic(auto, using(crate::proofs::SortCutLemmas::parts))]
fn put_parts(buffer: &mut [u8], at: usize, text: &str) -> usize
    requires kept { are_kept_parts (read_authority text.now) ≡ true }
    requires room { at + length (sort_authority (read_authority text.now)) ≤ length buffer.old }
    ensures { Puts at (sort_authority (read_authority text.now)) buffer.old buffer.new result }
{
    let parts = split_parts(text);
    let at = put_text_option(buffer, at, parts.user_info);
    let at = put_text(buffer, at, parts.host);
    put_text_option(buffer, at, parts.port)
}

// Puts an authority. Most are a host of at most 16 bytes.
#[inline(always)]
#[tactic(auto, using(crate::proofs::SortCutLemmas::lone))]
fn put_authority(buffer: &mut [u8], at: usize, block: &[u8], text: &str) -> usize
    requires kept { are_kept_parts (read_authority text.now) ≡ true }
    requires begins { take (length text.now) block.now ≡ text.now }
    requires block { 16 ≤ length block.now }
    requires room { at + length (sort_authority (read_authority text.now)) + 16
        ≤ length buffer.old }
    ensures { Puts at (sort_authority (read_authority text.now)) buffer.old buffer.new result }
{
    if position_of_either(&block[..16], b'@', b':') < text.len() {
        return put_parts(buffer, at, text);
    }
    let at = put(buffer, at, 0);
    store_block(buffer, at, block);
    let at = put(buffer, at + text.len(), 0);
    put(buffer, at, 0)
}

// Puts an authority behind its `//`, which may not be there.
#[inline(always)]
fn put_authority_option(buffer: &mut [u8], at: usize, text: Padded<'_>, part: Option<&str>) -> usize
    requires kept { none_or are_kept_parts
        (option_map read_authority (option_copied part)) ≡ true }
    requires begins { BeginsWith 2 (option_copied part) (text_in text) }
    requires padded { IsPadded text }
    requires room { at + length (sort_option sort_authority
        (option_map read_authority (option_copied part))) + 16 ≤ length buffer.old }
    ensures { Puts at (sort_option sort_authority
        (option_map read_authority (option_copied part.entry))) buffer.old buffer.new result }
{
    match part {
        Some(part) => {
            let at = put(buffer, at, 1);
            put_authority(buffer, at, text.part(2, part).bytes, part)
        }
        None => put(buffer, at, 0),
    }
}

// Puts the query and the fragment of a text that begins with them.
#[inline(always)]
#[tactic(auto, using(crate::proofs::SortPutLemmas::puts, crate::proofs::SortCutLemmas::cuts))]
fn put_tail(buffer: &mut [u8], at: usize, text: Padded<'_>, slices: ReferenceSlices<'_>) -> usize
    requires spelled { text_in text ≡ spelled_tail slices }
    requires kept { AreKeptSlices slices }
    requires padded { IsPadded text }
    requires room { at + length (sorted_tail slices) + 16 ≤ length buffer.old }
    ensures { Puts at (sorted_tail slices.entry) buffer.old buffer.new result }
{
    let at = put_option(buffer, at, text, slices.query);
    let rest = text.skip(marked_len(1, slices.query));
    put_option(buffer, at, rest, slices.fragment)
}

// Puts the sort key of the reference of these components, from the front of the buffer.
#[inline(always)]
#[tactic(auto, using(crate::proofs::SortPutLemmas::puts, crate::proofs::SortCutLemmas::cuts))]
fn put_all(buffer: &mut [u8], text: Padded<'_>, slices: ReferenceSlices<'_>) -> Option<usize>
    requires spelled { text_in text ≡ spelled_slices slices }
    requires kept { AreKeptSlices slices }
    requires padded { IsPadded text }
    requires room { length (sorted_slices slices) + 16 ≤ length buffer.old }
    ensures put { IfSome result (λ end.
        Puts 0 (sorted_slices slices.entry) buffer.old buffer.new end) }
    ensures dotless { IfSome result (λ end.
        has_dotted_segment slices.entry.path.now ≡ false) }
{
    let at = put_scheme(buffer, 0, slices.scheme);
    let rest = text.skip(marked_len(1, slices.scheme));
    let at = put_authority_option(buffer, at, rest, slices.authority);
    let rest = rest.skip(marked_len(2, slices.authority));
    let at = put_path(buffer, at, rest.part(0, slices.path))?;
    Some(put_tail(buffer, at, rest.skip(slices.path.len()), slices))
}

// Puts the sort key of a short text, unless a byte stands in it otherwise or a segment of the path
// begins with a dot.
#[inline(always)]
#[tactic(auto, using(crate::proofs::SortShortLemmas::shorts))]
pub(crate) fn put_short(
    buffer: &mut [u8; ROOM],
    text: &str,
    slices: ReferenceSlices<'_>,
) -> Option<usize>
    requires short { length text.now ≤ 96 }
    requires value { value_of slices ≡ read_reference text.now }
    requires texts { texts_of slices ≡ spell_components (read_reference text.now) }
    ensures { IfSome result (λ end.
        Puts 0 (sort_key (key (read_reference text.now))) buffer.old buffer.new end) }
{
    let mut padded = [b' '; PADDED];
    padded[..text.len()].copy_from_slice(text.as_bytes());
    if !are_kept_blocks(&padded) {
        return None;
    }
    let whole = Padded {
        bytes: &padded,
        len: text.len(),
    };
    put_all(buffer, whole, slices)
}
