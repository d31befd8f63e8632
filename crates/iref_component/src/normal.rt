//! The normal segments of a path, from both ends (RFC 3986 section 5.2.4).

ghost use Rattle.std.specs.{Prelude.{◌≡◌, true, length, Some, IfSome}, List.{list_all}};
ghost use Rattle.std.specs.Iterator.{YieldsFirstBy, YieldsLastBy, item_count, UpTo};
ghost use Rattle.std.specs.Iterator.SizeHint.{IsWithinCount};
ghost use Rattle.iref_grammar.specs.{is_path, is_segment, read_path};
ghost use Rattle.iref_grammar.specs.{normal_segments};
ghost use Rattle.iref_component.specs.{Components.{text_of}, NormalLeft.{IsLeft, left_of}};

mod left;

use crate::named_texts::Segment;
use iref_grammar::chars::CharSet;
use iref_path::normal_items::NormalItems;
use left::Left;
use std::marker::PhantomData;

/// The normal segments of a path that are left, from both ends (RFC 3986 section 5.2.4): of
/// `a/../b/./c` they are `b` and `c`.
#[derive(Drop)]
pub struct NormalizedSegments<'a, C: CharSet> {
    left: Left<'a>,
    count: usize,
    chars: PhantomData<C>,
    ghost sound: { IsLeft left },
    ghost counted: { count ≡ length (left_of left) },
    ghost in_grammar: { list_all (is_segment C.tests) (left_of left) ≡ true },
}

impl<'a, C: CharSet> NormalizedSegments<'a, C> {
    ghost use Rattle.iref_component.specs.NormalPaths.{normal_segments_left};

    /// The normal segments of the path of a text.
    pub(crate) fn of_text(path: &'a str) -> Self
        requires { is_path C.tests path.now ≡ true }
        ensures { normal_segments_left result ≡ normal_segments (read_path path.now) }
    {
        let items = NormalItems::new(path);
        NormalizedSegments {
            left: Left::new(items),
            count: items.len(),
            chars: PhantomData,
        }
    }
}

impl<'a, C: CharSet> Iterator for NormalizedSegments<'a, C> {
    ghost use Rattle.iref_component.specs.NormalPaths.{normal_segments_left};

    type Item = Segment<'a, C>;

    ghost next_gives = { YieldsFirstBy text_of normal_segments_left };

    ghost remaining = { item_count normal_segments_left };

    fn next(&mut self) -> Option<Segment<'a, C>> {
        let text = self.left.next()?;
        self.count -= 1;
        Some(Segment::new_unchecked(text))
    }

    fn size_hint(&self) -> (usize, Option<usize>)
        ensures lower { IsWithinCount result.0 (item_count normal_segments_left self.now) }
        ensures upper { IfSome result.1 (UpTo (item_count normal_segments_left self.now)) }
        ensures value { let left = length (normal_segments_left self.now) in
            result ≡ (left, Some left) }
    {
        (self.count, Some(self.count))
    }
}

impl<'a, C: CharSet> DoubleEndedIterator for NormalizedSegments<'a, C> {
    ghost use Rattle.iref_component.specs.NormalPaths.{normal_segments_left};

    ghost next_back_gives = { YieldsLastBy text_of normal_segments_left };

    fn next_back(&mut self) -> Option<Segment<'a, C>> {
        let text = self.left.next_back()?;
        self.count -= 1;
        Some(Segment::new_unchecked(text))
    }
}

impl<C: CharSet> ExactSizeIterator for NormalizedSegments<'_, C> {
    fn len(&self) -> usize {
        self.count
    }
}
