//! The text of a path, which is measured before it is written (RFC 3986 sections 5.2.3 and 5.2.4).

ghost use Rattle.std.specs.Prelude.{◌||◌, ◌&&◌, ◌≡◌, ◌+◌, ◌*◌, ◌<◌, ◌^◌, ◌++◌, Bool, Some, [], codes, false};
ghost use Rattle.std.specs.{Prelude.{length, replicate, true, ℕ}, Fmt.{WritesOnOk}};
ghost use Rattle.iref_grammar.specs.{alone, slash, read_path, spell_path, is_empty, Texts.{pieces_at}};
ghost use Rattle.iref_grammar.specs.{Guard.{guarded}, PathSteps.{normalized}};
ghost use Rattle.iref_parse.specs.Dots.{has_dotted_segment};
ghost use Rattle.iref_path.specs.Bodies.{after_front, parents_then};
ghost use Rattle.iref_path.specs.MergedPaths.{merged_list, merged_path, path_after};
ghost use Rattle.iref_path.specs.{MeasuredPaths.{IsMeasured, measured_text}, Pieces.{pieces_if_some}};
ghost use Rattle.iref_path.specs.{Spelling.{each_closed}, NormalItems.{IsSound, normal_left, first_or}};
ghost use Rattle.iref_path.specs.StepsBetween.{path_between};
ghost use Rattle.iref_path.specs.Spelling as spelling;

use crate::compare_lists::Decoded;
use crate::measured_body::Body;
use crate::normal_items::{NormalItems, survey_items};
use crate::relative_steps::{
    behind_roots, first_step, items_between, kept_directory, some_items, steps_apart,
};
use crate::segments::{first_segment, split_root, without_last};
use crate::spell::{guard_in, measure};
use iref_grammar::context::PathContext;
use iref_parse::dots::has_dots;
use iref_splice::backward::Backward;
use iref_splice::unwritten::Unwritten;
use std::fmt;

// Nothing stands before the path.
const ALONE: PathContext = PathContext {
    has_scheme: false,
    has_authority: false,
};

/// The text of a path, not written yet: texts that are kept, a number of `..` and a text, or the items
/// of a normal list.
#[derive(Clone, Copy)]
pub struct MeasuredPath<'a> {
    // The root, and `./` where it is needed.
    guard: &'a str,
    body: Body<'a>,
}

// Whether a merged path is absolute: the base's is, or the base has an authority and no segments.
#[tactic(auto, using(crate::proofs::SlashLemmas::some_pieces))]
fn is_merged_absolute(has_authority: bool, absolute: bool, segments: Option<&str>) -> bool
    ensures { result ≡ absolute || (has_authority && is_empty (pieces_if_some segments.entry)) }
{
    absolute || has_authority && segments.is_none()
}

// Whether a segment of the two texts begins with a dot.
#[tactic(auto, using(crate::proofs::DotlessLemmas::both_dotted))]
fn have_dots(front: Option<&str>, back: &str) -> bool
    ensures { result ≡ has_dotted_segment (after_front front.entry back.now) }
{
    match front {
        Some(front) => has_dots(front.as_bytes()) | has_dots(back.as_bytes()),
        None => has_dots(back.as_bytes()),
    }
}

// The first segment of a text, which decides on a guard. After an authority none is needed, and the
// text is returned unread.
#[tactic(auto, using(crate::proofs::DotlessLemmas::unguarded))]
#[inline(always)]
fn first_to_guard(context: PathContext, text: &str) -> &str
    ensures { (absolute : Bool) (size : ℕ) → spelling.guard_in context absolute size result.now
        ≡ spelling.guard_in context absolute size (first_or [] (pieces_at slash text.now)) }
{
    if context.has_authority {
        return text;
    }
    first_segment(text).0
}

// Puts the guard. Mostly it is the root alone.
#[inline(always)]
fn put_guard<O: Backward>(out: &mut O, guard: &str)
    requires { O.fits out.old guard.now }
    ensures { out.new ≡ O.after out.old guard.now }
{
    if guard == "/" {
        out.put(b"/");
    } else {
        out.put(guard.as_bytes());
    }
}

impl<'a> MeasuredPath<'a> {
    /// The text as it stands.
    #[tactic(auto, unfolding(crate::specs::MeasuredPaths::measured_text))]
    pub fn kept(path: &'a str) -> Self
        ensures text { measured_text result ≡ path.now }
        ensures measured { IsMeasured result }
    {
        MeasuredPath {
            guard: "",
            body: Body::Kept(None, path),
        }
    }

    /// The text of the normalized path in its context.
    #[inline(always)]
    pub fn normalized(context: PathContext, path: &'a str) -> Self
        ensures text { measured_text result ≡ spell_path (normalized context (read_path path.now)) }
        ensures measured { IsMeasured result }
    {
        let (absolute, segments) = split_root(path);
        MeasuredPath::of_segments(context, absolute, None, segments)
    }

    /// The text of the normalized path of a reference in the context of its base, to whose
    /// directory a relative path is added (RFC 3986 section 5.2.3).
    #[inline(always)]
    pub fn normalized_after(context: PathContext, base: &'a str, path: &'a str) -> Self
        requires { length base.now + length path.now + 6 < 2 ^ 64 }
        ensures text { measured_text result ≡ spell_path (normalized context
            (path_after context.has_authority (read_path base.now) (read_path path.now))) }
        ensures measured { IsMeasured result }
    {
        let (absolute, segments) = split_root(path);
        if absolute {
            return MeasuredPath::of_segments(context, true, None, segments);
        }
        let (absolute, front) = split_root(base);
        let absolute = is_merged_absolute(context.has_authority, absolute, front);
        MeasuredPath::of_segments(context, absolute, without_last(front), segments)
    }

    /// The text of the normalized path of these segments, in its context.
    #[tactic(auto, using(crate::proofs::DotlessLemmas::sizes))]
    pub fn of_segments(
        context: PathContext,
        absolute: bool,
        front: Option<&'a str>,
        back: Option<&'a str>,
    ) -> Self
        requires { length (each_closed (merged_list front back)) + 4 < 2 ^ 64 }
        ensures text { measured_text result
            ≡ spell_path (normalized context (merged_path absolute front.entry back.entry)) }
        ensures measured { IsMeasured result }
    {
        if let Some(back) = back {
            if !have_dots(front, back) {
                return MeasuredPath::dotless(context, absolute, front, back);
            }
        }
        let all = survey_items(absolute, front, back);
        let guard = guard_in(context, absolute, all.size, all.first);
        let body = Body::Items(all.items, all.size);
        MeasuredPath { guard, body }
    }

    // The text of segments of which none begins with a dot: they stay as they are.
    fn dotless(context: PathContext, absolute: bool, front: Option<&'a str>, back: &'a str) -> Self
        requires dotless { has_dotted_segment (after_front front back.now) ≡ false }
        requires room { length (after_front front back.now) + 3 < 2 ^ 64 }
        ensures text { measured_text result ≡ spell_path
            (normalized context (merged_path absolute front.entry (Some back.entry))) }
        ensures measured { IsMeasured result }
    {
        let first = first_to_guard(context, front.unwrap_or(back));
        let body = Body::Kept(front, back);
        let guard = guard_in(context, absolute, body.len(), first);
        MeasuredPath { guard, body }
    }

    /// The text of a relative path of these items, which stands alone.
    #[tactic(auto, using(crate::proofs::SpellLemmas::relative), unfolding(crate::specs::MeasuredPaths::measured_text))]
    pub fn relative(items: NormalItems<'a>) -> Self
        requires sound { IsSound items }
        requires room { length (each_closed (normal_left items)) + 4 < 2 ^ 64 }
        ensures text { measured_text result ≡ spell_path (guarded alone (record {
          absolute = false;
          segments = normal_left items.entry;
        })) }
        ensures measured { IsMeasured result }
    {
        let (size, first) = measure(items);
        let guard = guard_in(ALONE, false, size, first);
        let body = Body::Items(items, size);
        MeasuredPath { guard, body }
    }

    // The text of a relative path of a number of `..` and the segments of a text, which stands
    // alone.
    #[tactic(auto, using(crate::proofs::StepsBetweenLemmas::steps_up), unfolding(crate::specs::MeasuredPaths::measured_text))]
    pub(crate) fn up(up: usize, path: &'a str) -> Self
        requires { length (parents_then up path.now) + 4 < 2 ^ 64 }
        ensures text { measured_text result ≡ spell_path (guarded alone (record {
          absolute = false;
          segments = replicate up (codes "..") ++ pieces_at slash path.now;
        })) }
        ensures measured { IsMeasured result }
    {
        let body = Body::Up(up, path);
        let guard = guard_in(ALONE, false, body.len() + 1, first_step(up, path));
        MeasuredPath { guard, body }
    }

    /// The text of the path that leads from a base's to this one: from the base's directory where
    /// the base is absolute, and else the normalized path.
    pub fn between(base: &'a str, path: &'a str) -> Self
        requires { 3 * length base.now + length path.now + 16 < 2 ^ 64 }
        ensures text { measured_text result
            ≡ spell_path (path_between (read_path base.now) (read_path path.now)) }
        ensures measured { IsMeasured result }
    {
        if !split_root(base).0 {
            return MeasuredPath::normalized(ALONE, path);
        }
        if let Some((base, path)) = behind_roots(base, path) {
            let (up, path) = steps_apart::<Decoded>(base, path);
            return MeasuredPath::up(up, path);
        }
        let directory = kept_directory(true, base);
        MeasuredPath::relative(items_between::<Decoded>(directory, some_items(path)))
    }

    /// How many bytes the text has.
    #[tactic(auto, unfolding(crate::specs::MeasuredPaths::measured_text))]
    pub fn len(&self) -> usize
        requires { IsMeasured self.now }
        ensures { result ≡ length (measured_text self.now) }
    {
        self.guard.len() + self.body.len()
    }

    /// Writes the text to a formatter, from the front. Items that are read from the back are read once
    /// for each halving of their number.
    #[tactic(auto, unfolding(crate::specs::MeasuredPaths::measured_text))]
    pub fn show<W: fmt::Write>(self, f: &mut fmt::Formatter<W>) -> fmt::Result
        requires { IsMeasured self }
        ensures { WritesOnOk W.write_str_gives f.old result (measured_text self.entry) f.new }
    {
        f.write_str(self.guard)?;
        self.body.show(f)
    }
}

impl Unwritten for MeasuredPath<'_> {
    ghost text = { measured_text };

    ghost is_sound = { IsMeasured };

    fn known_len(&self) -> Option<usize> {
        Some(self.len())
    }

    #[tactic(auto, unfolding(crate::specs::MeasuredPaths::measured_text))]
    fn put<O: Backward>(&self, out: &mut O) {
        if !out.put_len(self.len()) {
            self.body.put(out);
            put_guard(out, self.guard);
        }
    }
}
