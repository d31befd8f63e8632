//! The `..` of a normal list that is read from its end (RFC 3986 section 5.2.4).

ghost use Rattle.std.specs.Prelude.{◌≡◌, ◌<◌, ◌^◌, length};
ghost use Rattle.iref_grammar.specs.{NormalList.{count_parents, kept_segments}, Relativized.{is_climb}};
ghost use Rattle.iref_grammar.specs.PathValue.{is_one_empty};
ghost use Rattle.iref_path.specs.{NormalItems.{IsSound, normal_left}, Pieces.{pieces_if_some}, Spelling.{each_closed}};
ghost use Rattle.iref_path.specs.{ShortestPaths.{are_some_parents}, Stacks.{path_of}};

use super::{NormalItems, leading_parents, survey_names};

impl<'a> NormalItems<'a> {
    /// What stays of a directory's segments: the `..` that nothing cancels, where it is relative, and
    /// the names.
    #[tactic(auto, using(crate::proofs::ClimbLemmas::kept), unfolding(crate::specs::NormalItems::normal_left))]
    pub(crate) fn kept(absolute: bool, segments: Option<&'a str>) -> Self
        requires { length (each_closed (pieces_if_some segments)) < 2 ^ 64 }
        ensures items { normal_left result ≡ kept_segments (path_of absolute segments.entry) }
        ensures sound { IsSound result }
    {
        let found = survey_names(None, segments).items;
        let parents = leading_parents(absolute, found.parents);
        NormalItems::unread(parents, found.names_left, None, segments, false)
    }

    /// How many `..` are left.
    #[tactic(auto, using(crate::proofs::ClimbLemmas::counted), unfolding(crate::specs::NormalItems::normal_left))]
    pub(crate) fn parents(&self) -> usize
        requires { IsSound self.now }
        ensures { result ≡ count_parents (normal_left self.now) }
    {
        self.parents
    }

    // Whether `..` are left, one or more, and nothing else.
    #[tactic(auto, using(crate::proofs::ClimbLemmas::counted), unfolding(crate::specs::NormalItems::normal_left))]
    fn are_parents(&self) -> bool
        requires { IsSound self.now }
        ensures { result ≡ are_some_parents (normal_left self.now) }
    {
        (self.parents > 0) & (self.names_left == 0) & !self.closes
    }

    /// Whether `..` are left, one or more, and an empty item after them.
    #[tactic(auto, using(crate::proofs::ClimbLemmas::ends))]
    pub(crate) fn is_climb(self) -> bool
        requires { IsSound self }
        ensures { result ≡ is_climb (normal_left self.entry) }
    {
        let mut left = self;
        match left.next_back() {
            Some(last) => last.is_empty() & left.are_parents(),
            None => false,
        }
    }

    /// Whether one empty item is left.
    #[tactic(auto, using(crate::proofs::ClimbLemmas::ends))]
    pub(crate) fn is_one_empty(self) -> bool
        requires { IsSound self }
        ensures { result ≡ is_one_empty (normal_left self.entry) }
    {
        let mut left = self;
        match left.next_back() {
            Some(last) => last.is_empty() & (left.len() == 0),
            None => false,
        }
    }
}
