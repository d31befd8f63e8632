//! Equality of paths with a count of the segments read.
ghost use Rattle.std.specs.Prelude.{◌≡◌, ◌≢◌, ◌↔◌, ◌+◌, ◌<◌, ◌≤◌, ◌^◌, true};
ghost use Rattle.iref_grammar.specs.{IsCountedAnswer, path_key, segment_count};
ghost use Rattle.iref_component.specs.{Paths.{path_value}, CountedPath.{HasRoomFor, steps_count, steps_taken}};

use crate::path::Path;
use iref_grammar::chars::CharSet;
use iref_path::counted::path_texts_eq_counted;

/// How many segments comparisons have read.
#[derive(Clone, Copy, Debug)]
pub struct Steps {
    count: u128,
}

impl Steps {
    /// No segment has been read: `count` is 0.
    pub fn new() -> Self
        ensures { steps_count result ≡ 0 }
    {
        Steps { count: 0 }
    }

    /// How many segments have been read: 4 once `path_eq_counted` has compared `/a/b` with `/a/b`.
    pub fn count(&self) -> u128
        ensures { result ≡ steps_count self.now }
    {
        self.count
    }
}

/// A new count has room for the segments of any two paths.
#[tactic(auto, using(iref_path::proofs::SlashLemmas::segment_counts))]
pub fn new_steps_have_room<C: CharSet>(a: Path<'_, C>, b: Path<'_, C>)
    ensures { segment_count (path_value a.entry) + segment_count (path_value b.entry) < 2 ^ 128 }
{
    let _text_of_a = a.as_str();
    let _text_of_b = b.as_str();
}

/// Whether two paths are equal, as `==` has it. The count grows by the segments that are read, each
/// of them once and from the back, and by none where one path is absolute and the other is not.
///
/// A new count has room for any two paths, as `new_steps_have_room` says.
#[tactic(auto, using(iref_grammar::proofs::CountedLemmas::decided))]
pub fn path_eq_counted<C: CharSet>(a: Path<'_, C>, b: Path<'_, C>, steps: &mut Steps) -> bool
    requires { HasRoomFor steps.old (path_value a) (path_value b) }
    ensures equal { (result ≡ true)
        ↔ (path_key (path_value a.entry) ≡ path_key (path_value b.entry)) }
    ensures counted { IsCountedAnswer (path_value a.entry) (path_value b.entry) result
        (steps_taken steps.old steps.new) }
    ensures flags { (path_value a.entry).absolute ≢ (path_value b.entry).absolute
        → steps_count steps.new ≡ steps_count steps.old }
    ensures grown { steps_count steps.old ≤ steps_count steps.new }
{
    path_texts_eq_counted(a.as_str(), b.as_str(), &mut steps.count)
}
