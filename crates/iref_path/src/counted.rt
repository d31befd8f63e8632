//! Equality of paths: one scan of both from the back, which counts the segments that it reads.
//!
//! Two functions here are passed the texts: `CountedPath::new`, which looks for the `/` at the front,
//! and `path_texts_eq_counted`, which makes two values with it. All others read by
//! `CountedSegments`, which counts.

ghost use Rattle.std.specs.Prelude.{◌≡◌, ◌≢◌, ◌↔◌, ◌+◌, ◌-◌, ◌<◌, ◌≤◌, ◌^◌, ◌∷◌, true};
ghost use Rattle.iref_grammar.specs.{read_path, items_compared, IsCountedAnswer, path_key};
ghost use Rattle.iref_grammar.specs.PathFunctions.{segment_count};
ghost use Rattle.iref_path.specs.CountedPath.{IsAnswer, IsCountable, IsWhole, all_items_unread, both_counted};
ghost use Rattle.iref_path.specs.{CountedPath.{items_unread, path_unread, segments_of}, CountedSegments.{IsCounted}};

use crate::counted_segments::CountedSegments;
use crate::segments::split_root;
use crate::staying_names::name_stays;
use iref_parse::decoded::decoded_eq;

/// What has not been read of a path, which is read from the back.
#[derive(Drop)]
pub struct CountedPath<'a> {
    absolute: bool,
    // How many `..` are open behind the segments.
    open_parents: usize,
    segments: CountedSegments<'a>,
}

impl<'a> CountedPath<'a> {
    ghost use Rattle.iref_path.specs.CountedPath.{GivesItem, IsCountable, IsWhole, segments_of};
    ghost use Rattle.iref_path.specs.CountedPath.{all_items_unread, item_given, items_unread, path_unread};

    /// The path, of which nothing has been read.
    #[tactic(auto, using(crate::proofs::CountedPathLemmas::sizes), unfolding(crate::specs::CountedSegments::unread))]
    fn new(path: &'a str) -> Self
        ensures path { path_unread result ≡ read_path path.now }
        ensures whole { IsWhole result }
    {
        let (absolute, segments) = split_root(path);
        CountedPath {
            absolute,
            open_parents: 0,
            segments: CountedSegments::new(segments),
        }
    }

    /// The last item of a path of which nothing has been read: its last segment, or the empty
    /// segment that closes a path that ends in `.` or `..`.
    fn first_back(&mut self) -> &'a str
        requires { IsWhole self.old }
        ensures item { all_items_unread self.old
            ≡ item_given result self.new ∷ items_unread self.new }
        ensures countable { IsCountable self.new }
        ensures counted { IsCounted (segments_of self.old) (segments_of self.new) }
    {
        let Some(segment) = self.segments.read() else {
            return "";
        };
        if name_stays(segment.as_bytes(), &mut self.open_parents) {
            segment
        } else {
            ""
        }
    }

    /// The last item that is left.
    #[tactic(auto, unfolding(crate::specs::CountedPath::items_unread))]
    fn next_back(&mut self) -> Option<&'a str>
        requires { IsCountable self.old }
        ensures item { GivesItem self.old result self.new }
        ensures countable { IsCountable self.new }
        ensures counted { IsCounted (segments_of self.old) (segments_of self.new) }
    {
        while let Some(segment) = self.segments.read() {
            if name_stays(segment.as_bytes(), &mut self.open_parents) {
                return Some(segment);
            }
        }
        if self.absolute || self.open_parents == 0 {
            return None;
        }
        self.open_parents -= 1;
        Some("..")
    }
}

/// Whether what is left of both paths decodes to the same items.
fn items_eq(left: &mut CountedPath<'_>, right: &mut CountedPath<'_>) -> bool
    requires left { IsCountable left.old }
    requires right { IsCountable right.old }
    ensures answer { IsAnswer
        (items_compared (items_unread left.old) (items_unread right.old))
        result left.new right.new }
    ensures left { IsCounted (segments_of left.old) (segments_of left.new) }
    ensures right { IsCounted (segments_of right.old) (segments_of right.new) }
{
    while let Some(item) = left.next_back() {
        let Some(other) = right.next_back() else {
            return false;
        };
        if !decoded_eq(item, other) {
            return false;
        }
    }
    right.next_back().is_none()
}

/// Whether the paths are equal.
#[tactic(auto, using(crate::proofs::CountedPathLemmas::decided))]
fn paths_eq(left: &mut CountedPath<'_>, right: &mut CountedPath<'_>) -> bool
    requires left { IsWhole left.old }
    requires right { IsWhole right.old }
    ensures counted { IsCountedAnswer (path_unread left.old) (path_unread right.old) result
        (both_counted left.new right.new) }
    ensures flags { (path_unread left.old).absolute ≢ (path_unread right.old).absolute
        → both_counted left.new right.new ≡ 0 }
{
    if left.absolute != right.absolute {
        return false;
    }
    let item = left.first_back();
    let other = right.first_back();
    if !decoded_eq(item, other) {
        return false;
    }
    items_eq(left, right)
}

/// Whether the texts of two paths are those of equal paths. The count grows by the segments that
/// are read.
#[tactic(auto, using(crate::proofs::CountedPathLemmas::within))]
pub fn path_texts_eq_counted(a: &str, b: &str, steps: &mut u128) -> bool
    requires { steps.old + segment_count (read_path a.now) + segment_count (read_path b.now)
        < 2 ^ 128 }
    ensures counted { IsCountedAnswer (read_path a.now) (read_path b.now) result
        (steps.new - steps.old) }
    ensures flags { (read_path a.now).absolute ≢ (read_path b.now).absolute
        → steps.new ≡ steps.old }
    ensures grown { steps.old ≤ steps.new }
{
    let mut left = CountedPath::new(a);
    let mut right = CountedPath::new(b);
    let equal = paths_eq(&mut left, &mut right);
    *steps += left.segments.count() + right.segments.count();
    equal
}

/// Whether the texts of two paths are those of equal paths.
#[tactic(auto, using(crate::proofs::SlashLemmas::segment_counts, iref_grammar::proofs::CountedLemmas::decided))]
pub fn path_texts_eq(a: &str, b: &str) -> bool
    ensures { (result ≡ true) ↔ (path_key (read_path a.now) ≡ path_key (read_path b.now)) }
{
    path_texts_eq_counted(a, b, &mut 0)
}
