//! The steps that lead from one text of segments to another, found on the texts: what both begin
//! with is passed over.

ghost use Rattle.std.specs.Prelude.{◌≡◌, ◌+◌, ◌*◌, ◌^◌, ◌<◌, ◌≤◌, ◌++◌, IfNone, IfSome, [], codes, length, replicate};
ghost use Rattle.std.specs.Prelude.{false};
ghost use Rattle.iref_grammar.specs.{slash, Texts.{all_but_last, pieces_at}};
ghost use Rattle.iref_grammar.specs.{normal_segments, read_path, Relative.{directory_names, steps_between}};
ghost use Rattle.iref_grammar.specs.NormalList.{kept_segments};
ghost use Rattle.iref_parse.specs.Dots.{has_dotted_segment};
ghost use Rattle.iref_path.specs.{NormalItems.{IsSound, first_or, normal_left}, Spelling.{each_closed}};
ghost use Rattle.iref_path.specs.ShortestPaths.{directory_at};
ghost use Rattle.iref_path.specs.StepsBetween.{steps_with, text_steps, text_steps_with, with_last};

use crate::compare_lists::{Sameness, compare_lists};
use crate::normal_items::NormalItems;
use crate::segments::{first_segment, slash_count, split_root, without_last};
use iref_parse::dots::has_dots;

// What follows the first segments of both, where these are the same and neither is the last.
#[tactic(auto, using(crate::proofs::RelativeStepLemmas::apart))]
fn behind_first<'a, S: Sameness>(base: &'a str, path: &'a str) -> Option<(&'a str, &'a str)>
    ensures steps { IfSome result (λ left. text_steps_with S.same left.0.now left.1.now
        ≡ text_steps_with S.same base.now path.now) }
    ensures dotless { IfSome result (λ left.
        has_dotted_segment path.now ≡ false → has_dotted_segment left.1.now ≡ false) }
    ensures base { IfSome result (λ left. length left.0.now < length base.now) }
    ensures path { IfSome result (λ left. length left.1.now ≤ length path.now) }
    ensures apart { IfNone result (text_steps_with S.same base.now path.now
        ≡ replicate (length (all_but_last (pieces_at slash base.now))) (codes "..")
        ++ pieces_at slash path.now) }
{
    let (name, below) = first_segment(base);
    let Some(below) = below else {
        return None;
    };
    let (other, rest) = first_segment(path);
    let Some(rest) = rest else {
        return None;
    };
    if S::are_same(name, other) {
        Some((below, rest))
    } else {
        None
    }
}

/// The steps from the directory of `base` to `path`: how many `..`, and the text of the segments
/// after them. From `a/b/c` to `a/d` they are one `..` and `d`.
#[tactic(auto, using(crate::proofs::RelativeStepLemmas::climbs))]
pub(crate) fn steps_apart<'a, S: Sameness>(mut base: &'a str, mut path: &'a str) -> (usize, &'a str)
    ensures steps { text_steps_with S.same base.entry.now path.entry.now
        ≡ replicate result.0 (codes "..") ++ pieces_at slash result.1.now }
    ensures dotless { has_dotted_segment path.entry.now ≡ false
        → has_dotted_segment result.1.now ≡ false }
    ensures up { result.0 ≤ length base.entry.now }
    ensures down { length result.1.now ≤ length path.entry.now }
{
    while let Some((below, rest)) = behind_first::<S>(base, path) {
        base = below;
        path = rest;
    }
    (slash_count(base), path)
}

/// The first of a number of `..` and the segments of a text.
pub(crate) fn first_step(up: usize, path: &str) -> &str
    ensures { result.now
        ≡ first_or [] (replicate up (codes "..") ++ pieces_at slash path.now) }
{
    if up > 0 {
        return "..";
    }
    first_segment(path).0
}

/// What follows the roots of two absolute paths, where no segment of either begins with a dot.
#[tactic(auto, using(crate::proofs::DotlessLemmas::behind_roots))]
pub(crate) fn behind_roots<'a>(base: &'a str, path: &'a str) -> Option<(&'a str, &'a str)>
    ensures steps { IfSome result (λ left. text_steps left.0.now left.1.now ≡ steps_between
        (directory_names (read_path base.now)) (normal_segments (read_path path.now))) }
    ensures base { IfSome result (λ left. length left.0.now ≤ length base.now) }
    ensures path { IfSome result (λ left. length left.1.now ≤ length path.now) }
{
    let base = base.strip_prefix('/')?;
    let path = path.strip_prefix('/')?;
    if has_dots(base.as_bytes()) | has_dots(path.as_bytes()) {
        return None;
    }
    Some((base, path))
}

/// What is kept of a base's path without its last segment, with a flag of its own.
pub(crate) fn kept_directory(absolute: bool, base: &str) -> NormalItems<'_>
    ensures items { normal_left result
        ≡ kept_segments (directory_at absolute (read_path base.now)) }
    ensures fewer { length (normal_left result) ≤ length base.now + 1 }
    ensures sound { IsSound result }
{
    NormalItems::kept(absolute, without_last(split_root(base).1))
}

// The items of a path, or an empty one where there are none.
#[tactic(auto, using(std::proofs::lemmas::Bool::Decides::nat_tests, crate::proofs::StepsBetweenLemmas::whole_divided))]
pub(crate) fn some_items(path: &str) -> NormalItems<'_>
    ensures items { normal_left result ≡ with_last (normal_segments (read_path path.now)) }
    ensures some { 0 < length (normal_left result) }
    ensures sound { IsSound result }
{
    let items = NormalItems::new(path);
    if items.len() == 0 {
        NormalItems::one_empty()
    } else {
        items
    }
}

/// The steps from a directory to the items of a path: up to their common beginning, and down.
#[tactic(auto, using(crate::proofs::StepsBetweenLemmas::between))]
pub(crate) fn items_between<'a, S: Sameness>(
    directory: NormalItems<'_>,
    items: NormalItems<'a>,
) -> NormalItems<'a>
    requires directory { IsSound directory }
    requires items { IsSound items }
    requires some { 0 < length (normal_left items) }
    requires room { 3 * length (normal_left directory)
        + length (each_closed (normal_left items)) + 5 < 2 ^ 64 }
    ensures items { normal_left result
        ≡ steps_with S.same (normal_left directory.entry) (normal_left items.entry) }
    ensures room { length (each_closed (normal_left result)) + 4 < 2 ^ 64 }
    ensures sound { IsSound result }
{
    let (common, _) = compare_lists::<S>(directory, items.without_last(1));
    items.last_after(directory.len() - common, items.len() - common)
}
