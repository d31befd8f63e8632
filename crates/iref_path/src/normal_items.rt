//! The items of the normal list of a path, which are read from both ends of its text (RFC 3986
//! sections 5.2.3 and 5.2.4).

ghost use Rattle.std.specs.Iterator.{YieldsFirstBy, YieldsLastBy};
ghost use Rattle.std.specs.Prelude.{◌≡◌, ◌+◌, ◌-◌, ◌<◌, ◌≤◌, ◌^◌, ◌==◌, ◌&&◌, if◌then◌else◌};
ghost use Rattle.std.specs.Prelude.{◌∷◌, ◌++◌, [], codes, false, length, replicate, take, IfNone, IfSome, None};
ghost use Rattle.std.specs.List.{list_any};
ghost use Rattle.iref_grammar.specs.{is_empty, read_path};
ghost use Rattle.iref_grammar.specs.{normal_segments, open_before, staying_before, NormalList.{is_dot_dot}};
ghost use Rattle.iref_path.specs.{MergedPaths.{both_names, merged_list, merged_path}, Pieces.{pieces_if_some, text_at}};
ghost use Rattle.iref_path.specs.{Spelling.{each_closed}, NormalItems.{IsEnd, IsPlain, IsReadable, IsSettled, IsSound}};
ghost use Rattle.iref_path.specs.NormalItems.{IsWhole, KeepsEnds, both_left, first_or, names_behind, names_staying};
ghost use Rattle.iref_path.specs.NormalItems.{normal_left, open_at_start, open_behind, to_read, unread_items};
ghost use Rattle.iref_path.specs.StepsBetween.{last_ones};
ghost use Rattle.iref_grammar.specs.NormalList as list;

mod climbs;
pub mod rooted;
pub mod stack;

use crate::segments::{first_segment, last_segment, split_root};
use crate::staying_names::{is_name, name_stays};
use iref_parse::dots::has_dot_pair;

/// The items that are left: first the `..`, then the names that stay, then the empty segment that
/// closes the list. The segments stand in one text, or in two that are read as one.
#[derive(Clone, Copy, Default)]
pub struct NormalItems<'a> {
    parents: usize,
    // How many names are left: the last of those that stay.
    names_left: usize,
    closes: bool,
    // The text of the segments in front, until those behind have been read.
    front: Option<&'a str>,
    // The text of the segments behind that have been read from neither end.
    back: Option<&'a str>,
    // How many `..` are open behind them.
    open_parents: usize,
}

/// All items of a list, and what was found of them.
#[derive(Clone, Copy)]
pub struct Survey<'a> {
    /// The items.
    pub items: NormalItems<'a>,
    /// How many bytes they have with a `/` after each.
    pub size: usize,
    /// The first of them, or nothing.
    pub first: &'a str,
}

/// Whether the last segment is `.` or `..`.
#[tactic(auto, using(crate::proofs::NormalItemsLemmas::closed_at_end))]
#[inline(always)]
fn ends_in_dots(rest: Option<&str>) -> bool
    ensures { result ≡ list.ends_in_dots (pieces_if_some rest.entry) }
{
    match rest {
        Some(text) => !is_name(last_segment(text).1),
        None => false,
    }
}

/// How many `..` stand first in a list before which this number is open.
pub(crate) fn leading_parents(absolute: bool, open_parents: usize) -> usize
    ensures { result ≡ (if absolute then 0 else open_parents) }
{
    if absolute { 0 } else { open_parents }
}

/// Whether a list is one empty segment: by how many `..` and names it has, and whether it closes.
#[inline(always)]
fn is_one_empty(parents: usize, names: usize, first: &str, closes: bool) -> bool
    requires { names + 1 < 2 ^ 64 }
    ensures { result
        ≡ (parents == 0) && (is_empty first.now && (names + (if closes then 1 else 0) == 1)) }
{
    parents == 0 && first.is_empty() && names + usize::from(closes) == 1
}

// Whether a segment may be `..`.
#[tactic(auto, using(crate::proofs::NamedLemmas::without_parents))]
fn may_have_parents(segments: Option<&str>) -> bool
    ensures { result ≡ false → list_any is_dot_dot (pieces_if_some segments.entry) ≡ false }
{
    has_dot_pair(segments.unwrap_or("").as_bytes())
}

// How many names follow the last `..` among the segments, and the text of those behind it.
#[tactic(auto, using(crate::proofs::NormalItemsLemmas::scanned))]
fn behind_parents(segments: Option<&str>) -> (usize, Option<&str>)
    requires { length (pieces_if_some segments) < 2 ^ 64 }
    ensures end { IsEnd (pieces_if_some result.1) (pieces_if_some segments.entry) }
    ensures settled { list_any is_dot_dot (pieces_if_some result.1) ≡ false }
    ensures names { result.0 ≡ length (staying_before (pieces_if_some result.1) 0) }
{
    let mut names: usize = 0;
    let mut behind = segments;
    let mut left = segments;
    while let Some(text) = left {
        let (segment, rest) = first_segment(text);
        left = rest;
        if is_name(segment) {
            names += 1;
        } else if segment == ".." {
            names = 0;
            behind = rest;
        }
    }
    (names, behind)
}

// Finds the names that stay of the segments of both texts, and the `..` that are open before them.
// Their size, and the first, are those of the names. Each segment is read once, the last first.
#[tactic(auto, using(crate::proofs::SpellLemmas::kept_size, crate::proofs::SpellLemmas::list_size))]
#[inline(always)]
fn survey_names<'a>(front: Option<&'a str>, back: Option<&'a str>) -> Survey<'a>
    requires { length (each_closed (merged_list front back)) < 2 ^ 64 }
    ensures items { result.items
        ≡ unread_items (open_before (merged_list front.entry back.entry) 0)
        (length (both_names front.entry back.entry)) front.entry back.entry false }
    ensures size { result.size ≡ length (each_closed (both_names front.entry back.entry)) }
    ensures first { result.first.now ≡ first_or [] (both_names front.entry back.entry) }
    ensures fewer { open_before (merged_list front.entry back.entry) 0
        + length (both_names front.entry back.entry)
        ≤ length (merged_list front.entry back.entry) }
{
    let mut left = NormalItems::unread(0, 0, front, back, false);
    let mut names: usize = 0;
    let mut size: usize = 0;
    let mut first = "";
    while let Some(name) = left.next_back_name() {
        names += 1;
        size += name.len() + 1;
        first = name;
    }
    let items = NormalItems::unread(left.open_parents, names, front, back, false);
    Survey { items, size, first }
}

/// All items of the path of these segments. Only a relative list keeps the `..` that nothing
/// cancels.
#[tactic(auto, using(crate::proofs::MergedPathLemmas::surveyed), unfolding(crate::specs::NormalItems::normal_left))]
#[inline(always)]
pub fn survey_items<'a>(absolute: bool, front: Option<&'a str>, back: Option<&'a str>) -> Survey<'a>
    requires { length (each_closed (merged_list front back)) + 1 < 2 ^ 64 }
    ensures items { normal_left result.items
        ≡ normal_segments (merged_path absolute front.entry back.entry) }
    ensures size { result.size ≡ length (each_closed (normal_left result.items)) }
    ensures first { result.first.now ≡ first_or [] (normal_left result.items) }
    ensures whole { front.entry ≡ None → IsWhole result.items }
    ensures sound { IsSound result.items }
{
    let found = survey_names(front, back);
    let parents = leading_parents(absolute, found.items.parents);
    let names = found.items.names_left;
    let closes = ends_in_dots(back.or(front));
    if is_one_empty(parents, names, found.first, closes) {
        return Survey {
            items: NormalItems::unread(0, 0, None, None, false),
            size: 0,
            first: "",
        };
    }
    Survey {
        items: NormalItems::unread(parents, names, front, back, closes),
        size: 3 * parents + found.size + usize::from(closes),
        first: if parents == 0 { found.first } else { ".." },
    }
}

impl<'a> NormalItems<'a> {
    /// All items of a path. Only a relative list keeps the `..` that nothing cancels.
    pub fn new(path: &'a str) -> Self
        ensures items { normal_left result ≡ normal_segments (read_path path.now) }
        ensures whole { IsWhole result }
    {
        let (absolute, segments) = split_root(path);
        survey_items(absolute, None, segments).items
    }

    /// One empty item.
    #[tactic(auto, unfolding(crate::specs::NormalItems::normal_left))]
    pub(crate) fn one_empty() -> Self
        ensures items { normal_left result ≡ [] ∷ [] }
        ensures sound { IsSound result }
    {
        NormalItems::unread(0, 0, None, None, true)
    }

    // The items of a list, of which none has been given.
    fn unread(
        parents: usize,
        names_left: usize,
        front: Option<&'a str>,
        back: Option<&'a str>,
        closes: bool,
    ) -> Self
        ensures { result ≡ unread_items parents names_left front.entry back.entry closes }
    {
        NormalItems {
            parents,
            names_left,
            closes,
            front,
            back,
            open_parents: 0,
        }
    }

    /// How many items are left.
    #[tactic(auto, using(crate::proofs::MergedPathLemmas::last_parts), unfolding(crate::specs::NormalItems::normal_left))]
    #[inline(always)]
    pub fn len(&self) -> usize
        requires { IsSound self.now }
        ensures { result ≡ length (normal_left self.now) }
    {
        self.parents + self.names_left + usize::from(self.closes)
    }

    /// A number of `..`, and after them the last items, this many.
    #[tactic(auto, using(crate::proofs::MergedPathLemmas::last_parts), unfolding(crate::specs::NormalItems::normal_left))]
    pub fn last_after(self, up: usize, count: usize) -> Self
        requires sound { IsSound self }
        requires within { count ≤ length (normal_left self) }
        requires countable { up + count < 2 ^ 64 }
        ensures items { normal_left result
            ≡ replicate up (codes "..") ++ last_ones count (normal_left self.entry) }
        ensures sound { IsSound result }
    {
        let closes = self.closes && count > 0;
        let others = count - usize::from(closes);
        let names_left = others.min(self.names_left);
        NormalItems {
            parents: up + (others - names_left),
            names_left,
            closes,
            ..self
        }
    }

    /// The items without this many of the last.
    #[tactic(auto, using(crate::proofs::ShownLemmas::none_less, crate::proofs::ShownLemmas::one_less))]
    #[inline(always)]
    pub fn without_last(self, count: usize) -> Self
        requires { IsSound self }
        ensures items { normal_left result
            ≡ take (length (normal_left self.entry) - count) (normal_left self.entry) }
        ensures sound { IsSound result }
    {
        let mut left = self;
        for _ in 0..count {
            left.next_back();
        }
        left
    }

    /// The items behind the last `..` of the text: the last of all, which can be read from the front
    /// too.
    #[tactic(auto, unfolding(crate::specs::NormalItems::normal_left))]
    pub fn settled_end(&self) -> Self
        requires { IsWhole self.now }
        ensures items { normal_left result
            ≡ last_ones (length (normal_left result)) (normal_left self.now) }
        ensures within { length (normal_left result) ≤ length (normal_left self.now) }
        ensures plain { IsPlain result }
    {
        if !may_have_parents(self.back) {
            return *self;
        }
        let (names, behind) = behind_parents(self.back);
        NormalItems::unread(0, names, None, behind, self.closes)
    }

    /// The first item that is left of those that no `..` follows.
    #[tactic(auto, unfolding(crate::specs::NormalItems::normal_left))]
    pub fn next(&mut self) -> Option<&'a str>
        requires { IsPlain self.old }
        ensures item { YieldsFirstBy text_at normal_left self.old result self.new }
        ensures plain { IsPlain self.new }
    {
        if self.parents > 0 {
            self.parents -= 1;
            return Some("..");
        }
        if self.names_left > 0 {
            self.names_left -= 1;
            return self.next_name();
        }
        if self.closes {
            self.closes = false;
            return Some("");
        }
        None
    }

    /// The last item that is left.
    #[tactic(auto, unfolding(crate::specs::NormalItems::normal_left))]
    #[inline(always)]
    pub fn next_back(&mut self) -> Option<&'a str>
        requires { IsSound self.old }
        ensures item { YieldsLastBy text_at normal_left self.old result self.new }
        ensures sound { IsSound self.new }
        ensures plain { IsPlain self.old → IsPlain self.new }
    {
        if self.closes {
            self.closes = false;
            return Some("");
        }
        if self.names_left > 0 {
            self.names_left -= 1;
            return self.next_back_name();
        }
        self.parents = self.parents.checked_sub(1)?;
        Some("..")
    }

    // The first name, in a text without a `..`, where each name stays.
    #[tactic(auto, using(crate::proofs::NamedLemmas::none_open))]
    fn next_name(&mut self) -> Option<&'a str>
        requires { IsSettled self.old }
        ensures name { YieldsFirstBy text_at names_behind self.old result self.new }
        ensures ends { KeepsEnds self.old self.new }
        ensures settled { IsSettled self.new }
        ensures no_more { to_read self.new ≤ to_read self.old }
    {
        while let Some(text) = self.back {
            let (segment, rest) = first_segment(text);
            self.back = rest;
            if is_name(segment) {
                return Some(segment);
            }
        }
        None
    }

    // The last name that stays. The `..` that are open before the segments behind take names of
    // those in front.
    #[tactic(auto, using(crate::proofs::MergedPathLemmas::from_both))]
    #[inline(always)]
    fn next_back_name(&mut self) -> Option<&'a str>
        requires { IsReadable self.old }
        ensures name { YieldsLastBy text_at names_staying self.old result self.new }
        ensures start { open_at_start self.new ≡ open_at_start self.old }
        ensures ends { KeepsEnds self.old self.new }
        ensures settled { IsSettled self.old → IsSettled self.new }
        ensures readable { IsReadable self.new }
        ensures done { IfNone result (both_left self.new ≡ []) }
        ensures no_more { to_read self.new ≤ to_read self.old }
        ensures fewer { IfSome result (λ name. to_read self.new < to_read self.old) }
    {
        if let Some(name) = self.next_back_name_behind() {
            return Some(name);
        }
        self.back = self.front;
        self.front = None;
        self.next_back_name_behind()
    }

    // The last name that stays of the segments behind.
    #[tactic(auto, using(std::proofs::lemmas::Grind::common_steps, crate::proofs::NormalItemsLemmas::staying))]
    #[inline(always)]
    fn next_back_name_behind(&mut self) -> Option<&'a str>
        requires { IsReadable self.old }
        ensures name { YieldsLastBy text_at names_behind self.old result self.new }
        ensures start { open_behind self.new ≡ open_behind self.old }
        ensures ends { KeepsEnds self.old self.new }
        ensures front { self.new.front ≡ self.old.front }
        ensures settled { IsSettled self.old → IsSettled self.new }
        ensures readable { IsReadable self.new }
        ensures done { IfNone result (pieces_if_some self.new.back ≡ []) }
        ensures no_more { to_read self.new ≤ to_read self.old }
        ensures fewer { IfSome result (λ name. to_read self.new < to_read self.old) }
    {
        while let Some(text) = self.back {
            let (rest, segment) = last_segment(text);
            self.back = rest;
            if name_stays(segment.as_bytes(), &mut self.open_parents) {
                return Some(segment);
            }
        }
        None
    }
}
