//! The normal list of a path that stands after an authority, written forward (RFC 3986 section
//! 5.2.4). A `..` cuts off what was written last.

ghost use Rattle.std.specs.Prelude.{◌≡◌, ◌≢◌, ◌<◌, ◌≤◌, ◌||◌, [], ◌∷◌, ◌++◌, List, drop, IfOk, length, MatchOption};
ghost use Rattle.std.specs.Prelude.{OnOk, take, true, vec_len};
ghost use Rattle.iref_grammar.specs.{is_empty, pieces_at, read_path, slash, spell_path, Text};
ghost use Rattle.iref_grammar.specs.{declared.context.PathContext.{PathContext}, Texts.{all_but_last}};
ghost use Rattle.iref_grammar.specs.{PathSteps.{normalized}, NormalList.{is_name}};
ghost use Rattle.iref_path.specs.{Forward.{Follows, IsBehindDots, forward, popped_text}, MergedPaths.{path_after}};
ghost use Rattle.iref_path.specs.Spelling.{each_closed};

use crate::segments::{last_slash, split_root};
use iref_parse::cut::{cut_bytes, strip_mark};
use iref_parse::dots::position_of_slash_dot;
use iref_splice::Memory;

// Where the last segment of a text begins.
#[tactic(auto, using(crate::proofs::ForwardLemmas::closed_if_one, crate::proofs::ForwardLemmas::closed_to_last))]
#[inline(always)]
fn last_start(text: &[u8]) -> usize
    ensures before { take result text.now
        ≡ each_closed (all_but_last (pieces_at slash text.now)) }
    ensures within { result ≤ length text.now }
{
    match last_slash(text) {
        Some(slash) => slash + 1,
        None => 0,
    }
}

// Cuts off the last of the segments that stand from `floor` on, each with a `/` after it.
#[tactic(auto, using(crate::proofs::ForwardLemmas::cut_off), unfolding(crate::specs::Forward::popped_text))]
fn pop(out: &mut Vec<u8>, floor: usize)
    requires { floor ≤ vec_len out.old }
    ensures { out.new.items
        ≡ take floor out.old.items ++ popped_text (drop floor out.old.items) }
{
    if floor < out.len() {
        let text = &out[floor..];
        let start = last_start(&text[..text.len() - 1]);
        out.truncate(floor + start);
    }
}

// Where the names end that begin a text, if its first segment is one: behind the `/` before the
// first of the other segments that begins with a dot.
#[tactic(auto, using(crate::proofs::ForwardLemmas::names_to_dot, crate::proofs::ForwardLemmas::names_to_end))]
#[inline(always)]
fn names_end(text: &[u8]) -> usize
    requires some { text.now ≢ [] }
    requires name { (s : Text) (rest : List Text) → pieces_at slash text.now ≡ s ∷ rest
        → is_name s ≡ true }
    ensures some { 0 < result }
    ensures within { result ≤ length text.now }
    ensures names { (written : Text) → forward written (pieces_at slash text.now)
        ≡ forward (written ++ take result text.now) (pieces_at slash (drop result text.now)) }
{
    let slash = position_of_slash_dot(text);
    if slash < text.len() { slash + 1 } else { slash }
}

// What follows the first segment, if this is `.` or `..`, and whether it is `..`.
#[inline(always)]
fn behind_dot_segment(text: &[u8]) -> Option<(bool, &[u8])>
    requires { text.now ≢ [] }
    ensures { MatchOption result
        ((s : Text) (rest : List Text) → pieces_at slash text.now ≡ s ∷ rest → is_name s ≡ true)
        (λ dots. IsBehindDots text.now dots.0 dots.1.now) }
{
    if text[0] != b'.' {
        return None;
    }
    let (segment, rest) = cut_bytes(text, b'/');
    if segment == b"..".as_slice() {
        return Some((true, rest.unwrap_or(&[])));
    }
    if segment == b".".as_slice() {
        return Some((false, rest.unwrap_or(&[])));
    }
    None
}

// Writes the first segments of a text, and returns the text of the others.
#[inline(always)]
fn follow<'t>(out: &mut Vec<u8>, floor: usize, text: &'t [u8]) -> Result<&'t [u8], Memory>
    requires floor { floor ≤ vec_len out.old }
    requires some { text.now ≢ [] }
    ensures follows { IfOk result (λ left.
        Follows floor out.old.items out.new.items text.now left.now) }
    ensures shorter { IfOk result (λ left. length left.now < length text.now) }
{
    match behind_dot_segment(text) {
        Some((is_parent, rest)) => {
            if is_parent {
                pop(out, floor);
            }
            Ok(rest)
        }
        None => {
            let (names, rest) = text.split_at(names_end(text));
            out.extend_from_slice(names)?;
            Ok(rest)
        }
    }
}

// Writes the segments of a text from `floor` on, behind those that stand there.
fn put_all(out: &mut Vec<u8>, floor: usize, text: &[u8]) -> Result<(), Memory>
    requires { floor ≤ vec_len out.old }
    ensures { OnOk result (out.new.items ≡ take floor out.old.items
        ++ forward (drop floor out.old.items) (pieces_at slash text.now)) }
{
    let mut left = text;
    while !left.is_empty() {
        left = follow(out, floor, left)?;
    }
    Ok(())
}

/// Appends the normalized path of a reference to the text that stands before the path of its base,
/// after an authority (RFC 3986 sections 5.2.3 and 5.2.4): for `/b/c` and `../g` this is `/g`. It
/// takes no more room on the way than for both paths and a `/`.
#[tactic(auto, using(std::proofs::lemmas::Grind::common_steps, crate::proofs::ForwardLemmas::appended))]
pub fn append_normal_after(out: &mut Vec<u8>, base: &str, path: &str) -> Result<(), Memory>
    requires base { (read_path base.now).absolute || is_empty (read_path base.now).segments ≡ true }
    requires path { path.now ≢ [] }
    ensures { OnOk result ((context : PathContext) → context.has_authority ≡ true
        → out.new.items ≡ out.old.items ++ spell_path (normalized context
        (path_after true (read_path base.now) (read_path path.now)))) }
{
    out.extend_from_slice(b"/")?;
    let floor = out.len();
    if let Some(segments) = strip_mark(path, '/') {
        return put_all(out, floor, segments.as_bytes());
    }
    let segments = split_root(base).1.unwrap_or("").as_bytes();
    put_all(out, floor, &segments[..last_start(segments)])?;
    put_all(out, floor, path.as_bytes())
}
