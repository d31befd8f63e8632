//! The shortest relative path that leads to a path, whose names are compared as they stand (RFC 3986
//! sections 4.2 and 5.2.3).

ghost use Rattle.std.specs.Prelude.{◌≡◌, ◌+◌, ◌*◌, ◌^◌, ◌<◌, ◌≤◌, ◌++◌, ◌&&◌, ◌||◌, not, IfSome, codes};
ghost use Rattle.std.specs.Prelude.{false, is_some, length, nat_le, replicate};
ghost use Rattle.iref_grammar.specs.{slash, alone, read_path, spell_path, segments_of};
ghost use Rattle.iref_grammar.specs.Texts.{all_but_last, is_empty, pieces_at};
ghost use Rattle.iref_grammar.specs.{Guard.{guarded}, normal_segments, NormalList.{count_parents, kept_segments}};
ghost use Rattle.iref_parse.specs.Dots.{has_dotted_segment};
ghost use Rattle.iref_path.specs.MeasuredPaths.{IsMeasured, measured_text};
ghost use Rattle.iref_path.specs.{NormalItems.{IsSound, normal_left}, Spelling.{each_closed}};
ghost use Rattle.iref_path.specs.ShortestPaths.{directory_at, directory_of};
ghost use Rattle.iref_grammar.specs.Relativized.{is_climb, path_from, shortened};
ghost use Rattle.iref_grammar.specs.RelativizedTests.{is_reachable_from};

use crate::compare_lists::ByText;
use crate::measured::MeasuredPath;
use crate::normal_items::NormalItems;
use crate::relative_steps::{items_between, kept_directory, some_items, steps_apart};
use crate::segments::split_root;
use iref_parse::cut::strip_mark;
use iref_parse::dots::has_dots;

// The text of a number of `..` and the segments of a text, of which none begins with a dot. It is
// shortened: `..` stands for `../`, and `.` for the empty segment alone.
#[tactic(auto, using(crate::proofs::TextStepLemmas::ends))]
fn of_text_steps(up: usize, path: &str) -> MeasuredPath<'_>
    requires dotless { has_dotted_segment path.now ≡ false }
    requires room { 3 * up + length path.now + 8 < 2 ^ 64 }
    ensures text { measured_text result ≡ spell_path (guarded alone (record {
      absolute = false;
      segments = shortened (replicate up (codes "..") ++ pieces_at slash path.now);
    })) }
    ensures measured { IsMeasured result }
{
    if !path.is_empty() {
        return MeasuredPath::up(up, path);
    }
    match up.checked_sub(1) {
        Some(up) => MeasuredPath::up(up, ".."),
        None => MeasuredPath::up(0, "."),
    }
}

// The text of a relative path of these items, shortened so.
fn of_item_steps(items: NormalItems<'_>) -> MeasuredPath<'_>
    requires sound { IsSound items }
    requires room { length (each_closed (normal_left items)) + 4 < 2 ^ 64 }
    ensures text { measured_text result ≡ spell_path (guarded alone (record {
      absolute = false;
      segments = shortened (normal_left items.entry);
    })) }
    ensures measured { IsMeasured result }
{
    if items.is_climb() {
        return MeasuredPath::relative(items.without_last(1));
    }
    if items.is_one_empty() {
        return MeasuredPath::up(0, ".");
    }
    MeasuredPath::relative(items)
}

// Whether the path is absolute, and the text of its segments, which is empty where there are none.
fn behind_root(path: &str) -> (bool, &str)
    ensures path { read_path path.now
        ≡ record { absolute = result.0; segments = segments_of result.1.now } }
    ensures shorter { length result.1.now ≤ length path.now }
{
    match strip_mark(path, '/') {
        Some(rest) => (true, rest),
        None => (false, path),
    }
}

// Whether a base's directory begins at the root, given the base's flag and its text behind the root.
fn is_rooted(has_authority: bool, absolute: bool, below: &str) -> bool
    ensures { result ≡ absolute || has_authority && is_empty below.now }
{
    absolute | has_authority & below.is_empty()
}

// The path from a base's directory to a path, where segments may begin with a dot. There is none where
// the directory has more leading `..`. Inlined, it would take the way of most paths a tenth more.
#[inline(never)]
fn by_items<'a>(absolute: bool, base: &str, path: &'a str) -> Option<MeasuredPath<'a>>
    requires { 3 * length base.now + length path.now + 16 < 2 ^ 64 }
    ensures some { is_some result ≡ nat_le
        (count_parents (kept_segments (directory_at absolute (read_path base.now))))
        (count_parents (normal_segments (read_path path.now))) }
    ensures text { IfSome result (λ steps. measured_text steps ≡ spell_path
        (path_from (directory_at absolute (read_path base.now)) (read_path path.now))) }
    ensures measured { IfSome result IsMeasured }
{
    let directory = kept_directory(absolute, base);
    let items = some_items(path);
    if directory.parents() > items.parents() {
        return None;
    }
    Some(of_item_steps(items_between::<ByText>(directory, items)))
}

impl<'a> MeasuredPath<'a> {
    /// The text of the shortest relative path that leads from the base's directory to the normal path,
    /// after an authority or without one: from `/b/c/d` to `/b/c/` it is `.`, and to `/b/` it is `..`.
    /// There is none where one of both begins at the root and the other does not, or where the
    /// directory has more leading `..`.
    pub fn relativized(has_authority: bool, base: &'a str, path: &'a str) -> Option<Self>
        requires { 3 * length base.now + length path.now + 16 < 2 ^ 64 }
        ensures some { is_some result ≡ is_reachable_from
            (directory_of has_authority (read_path base.now)) (read_path path.now) }
        ensures text { IfSome result (λ steps. measured_text steps ≡ spell_path (path_from
            (directory_of has_authority (read_path base.now)) (read_path path.now))) }
        ensures measured { IfSome result IsMeasured }
    {
        let (absolute, below) = behind_root(base);
        let (rooted, rest) = behind_root(path);
        let absolute = is_rooted(has_authority, absolute, below);
        if absolute != rooted {
            return None;
        }
        if has_dots(below.as_bytes()) | has_dots(rest.as_bytes()) {
            return by_items(absolute, base, path);
        }
        let (up, rest) = steps_apart::<ByText>(below, rest);
        Some(of_text_steps(up, rest))
    }

    /// The text of a relative path whose normal list is some `..` and an empty segment, without its last
    /// `/`: of `../` it is `..`.
    pub fn climb(path: &'a str) -> Option<Self>
        requires { length path.now + 16 < 2 ^ 64 }
        ensures some { is_some result ≡ not (read_path path.now).absolute
            && is_climb (normal_segments (read_path path.now)) }
        ensures text { IfSome result (λ climb. measured_text climb ≡ spell_path (record {
          absolute = false;
          segments = all_but_last (normal_segments (read_path path.now));
        })) }
        ensures measured { IfSome result IsMeasured }
    {
        if split_root(path).0 {
            return None;
        }
        let items = NormalItems::new(path);
        if items.is_climb() {
            Some(MeasuredPath::relative(items.without_last(1)))
        } else {
            None
        }
    }
}
