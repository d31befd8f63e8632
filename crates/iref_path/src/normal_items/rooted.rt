//! The items of the normal list of an absolute path, which are read from the last and are not
//! counted before (RFC 3986 section 5.2.4).

ghost use Rattle.std.specs.{Iterator.{YieldsLastBy}, Prelude.{◌≡◌, ◌<◌, ◌^◌, length, true}};
ghost use Rattle.iref_grammar.specs.NormalList.{normal_segments, without_lone_empty};
ghost use Rattle.iref_path.specs.{Pieces.{pieces_if_some, text_at}, Spelling.{each_closed}, Stacks.{path_of}};

use super::{NormalItems, ends_in_dots};
use std::marker::Model;

/// The items that are left: the names that stay, then the empty segment that closes the list. Of a
/// list that would be one empty item, that is given.
#[derive(Drop)]
pub struct RootedItems<'a> {
    left: NormalItems<'a>,
}

impl<'a> Model for RootedItems<'a> {
    ghost use Rattle.std.specs.Prelude.{List};
    ghost use Rattle.iref_grammar.specs.Rules.{Text};
    ghost use Rattle.iref_path.specs.NormalItems.{IsReadable, names_and_closing};

    ghost Value = { List Text };

    ghost view = { λ r. names_and_closing r.left };

    ghost invariant = { λ r. IsReadable r.left };
}

impl<'a> RootedItems<'a> {
    /// All items of the absolute path of these segments.
    #[tactic(auto, using(crate::proofs::SpellLemmas::list_size))]
    pub fn new(segments: Option<&'a str>) -> Self
        requires { length (each_closed (pieces_if_some segments)) < 2 ^ 64 }
        ensures { without_lone_empty result ≡ normal_segments (path_of true segments.entry) }
    {
        let closes = ends_in_dots(segments);
        let left = NormalItems::unread(0, 0, None, segments, closes);
        RootedItems { left }
    }

    /// The last item that is left.
    #[inline(always)]
    pub fn next_back(&mut self) -> Option<&'a str>
        ensures { YieldsLastBy text_at (λ list. list) self.old result self.new }
    {
        if self.left.closes {
            self.left.closes = false;
            return Some("");
        }
        self.left.next_back_name()
    }
}
