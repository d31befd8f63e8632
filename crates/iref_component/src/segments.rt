//! The segments of a path, from both ends.

ghost use Rattle.std.specs.{Prelude.{◌≡◌, true, length, Some, IfSome}, List.{list_all}};
ghost use Rattle.std.specs.Iterator.{YieldsFirstBy, YieldsLastBy, item_count, UpTo};
ghost use Rattle.std.specs.Iterator.SizeHint.{IsWithinCount};
ghost use Rattle.iref_grammar.specs.{is_segment};
ghost use Rattle.iref_path.specs.{pieces_if_some};
ghost use Rattle.iref_component.specs.Components.{text_of};

use crate::named_texts::Segment;
use iref_grammar::chars::CharSet;
use iref_path::segments::{count_segments, first_segment, last_segment};
use std::marker::PhantomData;

/// The segments of a path that are left, from both ends (RFC 3986 section 3.3): of `/a//b` they are
/// `a`, the empty one and `b`.
#[derive(Drop)]
pub struct Segments<'a, C: CharSet> {
    // The text of those segments, with `/` between.
    rest: Option<&'a str>,
    chars: PhantomData<C>,
    ghost in_grammar: { list_all (is_segment C.tests) (pieces_if_some rest) ≡ true },
}

impl<'a, C: CharSet> Segments<'a, C> {
    ghost use Rattle.iref_component.specs.Paths.{segments_left};

    /// The segments of a text, if it is there.
    pub(crate) fn of_text(rest: Option<&'a str>) -> Self
        requires { list_all (is_segment C.tests) (pieces_if_some rest) ≡ true }
        ensures { segments_left result ≡ pieces_if_some rest.entry }
    {
        let chars = PhantomData;
        Segments { rest, chars }
    }
}

impl<'a, C: CharSet> Iterator for Segments<'a, C> {
    ghost use Rattle.iref_component.specs.Paths.{segments_left};

    type Item = Segment<'a, C>;

    ghost next_gives = { YieldsFirstBy text_of segments_left };

    ghost remaining = { item_count segments_left };

    fn next(&mut self) -> Option<Segment<'a, C>> {
        let text = self.rest?;
        let (segment, rest) = first_segment(text);
        self.rest = rest;
        Some(Segment::new_unchecked(segment))
    }

    fn size_hint(&self) -> (usize, Option<usize>)
        ensures lower { IsWithinCount result.0 (item_count segments_left self.now) }
        ensures upper { IfSome result.1 (UpTo (item_count segments_left self.now)) }
        ensures value { let left = length (segments_left self.now) in result ≡ (left, Some left) }
    {
        let len = self.len();
        (len, Some(len))
    }
}

impl<'a, C: CharSet> DoubleEndedIterator for Segments<'a, C> {
    ghost use Rattle.iref_component.specs.Paths.{segments_left};

    ghost next_back_gives = { YieldsLastBy text_of segments_left };

    fn next_back(&mut self) -> Option<Segment<'a, C>> {
        let text = self.rest?;
        let (rest, segment) = last_segment(text);
        self.rest = rest;
        Some(Segment::new_unchecked(segment))
    }
}

impl<C: CharSet> ExactSizeIterator for Segments<'_, C> {
    fn len(&self) -> usize {
        match self.rest {
            Some(text) => count_segments(text),
            None => 0,
        }
    }
}
