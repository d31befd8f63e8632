//! A normal list on a stack, which one reading of the segments from the back fills (RFC 3986
//! section 5.2.4).

ghost use Rattle.std.specs.Prelude.{◌≡◌, ◌+◌, ◌<◌, ◌^◌, ◌∷◌, ◌*◌, ◌++◌, List, [], codes, length, replicate, true};
ghost use Rattle.iref_grammar.specs.Rules.{Text};
ghost use Rattle.iref_grammar.specs.NormalList.{normal_segments, without_lone_empty};
ghost use Rattle.iref_grammar.specs.NormalReading.{closing, open_before, staying_before};
ghost use Rattle.iref_path.specs.{Pieces.{pieces_if_some}, Spelling.{each_closed}, Stacks.{Completes, path_of}};

use super::{NormalItems, ends_in_dots, leading_parents};
use smallvec::SmallVec;
use std::alloc::Global;

/// Items, the last first, of which those that come last in the list find room: sixteen in the
/// value, and more where there is memory.
#[derive(Drop)]
pub struct Stack<'a> {
    /// The items that found room.
    pub items: SmallVec<&'a str, 16>,
    /// How many bytes all of them have with a `/` after each.
    pub size: usize,
    /// The first of the list, or nothing.
    pub first: &'a str,
    /// Whether each item found room.
    pub is_whole: bool,
    /// The root, and `./` where it is needed, which are to stand before them.
    pub guard: &'static str,
}

impl<'a> Stack<'a> {
    /// No items.
    #[inline(always)]
    pub fn new(alloc: Global) -> Self
        ensures { (whole : List Text) → Completes result whole whole }
    {
        Stack {
            items: SmallVec::new(alloc),
            size: 0,
            first: "",
            is_whole: true,
            guard: "",
        }
    }

    // Puts an item before the others.
    #[inline(always)]
    fn put(&mut self, item: &'a str)
        requires { self.old.size + length item.now + 1 < 2 ^ 64 }
        ensures items { (front whole : List Text)
            → Completes self.old (front ++ item.now ∷ []) whole
            → Completes self.new front whole }
        ensures size { self.new.size ≡ self.old.size + length item.now + 1 }
    {
        self.size += item.len() + 1;
        self.first = item;
        self.is_whole = self.is_whole && self.items.push(item).is_ok();
    }

    // Puts the empty segment that closes a list, if it does.
    fn put_closing(&mut self, closes: bool)
        requires { self.old.size + 1 < 2 ^ 64 }
        ensures items { (front whole : List Text)
            → Completes self.old (front ++ closing closes) whole
            → Completes self.new front whole }
        ensures size { self.new.size ≡ self.old.size + length (each_closed (closing closes)) }
    {
        if closes {
            self.put("");
        }
    }

    // Puts the names that stay, and returns how many `..` are open before them.
    #[tactic(auto, using(crate::proofs::SpellLemmas::list_size))]
    fn put_names(&mut self, segments: Option<&'a str>) -> usize
        requires { self.old.size + length (each_closed (pieces_if_some segments)) < 2 ^ 64 }
        ensures parents { result ≡ open_before (pieces_if_some segments.entry) 0 }
        ensures items { (front whole : List Text)
            → Completes self.old
            (front ++ staying_before (pieces_if_some segments.entry) 0) whole
            → Completes self.new front whole }
        ensures size { self.new.size ≡ self.old.size
            + length (each_closed (staying_before (pieces_if_some segments.entry) 0)) }
    {
        let mut left = NormalItems::unread(0, 0, None, segments, false);
        while let Some(name) = left.next_back_name() {
            self.put(name);
        }
        left.open_parents
    }

    // Puts this number of `..`.
    #[tactic(auto, using(std::proofs::lemmas::Grind::common_steps))]
    fn put_parents(&mut self, count: usize)
        requires { self.old.size + 3 * count < 2 ^ 64 }
        ensures items { (whole : List Text)
            → Completes self.old (replicate count (codes "..")) whole
            → Completes self.new [] whole }
    {
        let mut left = count;
        while left > 0 {
            left -= 1;
            self.put("..");
        }
    }

    // Takes the only item away, if that is an empty one.
    fn drop_lone(&mut self)
        ensures { (whole : List Text) → Completes self.old [] whole
            → Completes self.new [] (without_lone_empty whole) }
    {
        if self.size == 1 {
            self.items.clear();
            self.size = 0;
            self.first = "";
        }
    }

    /// Puts the items of the path of these segments, which are read once.
    pub fn read(&mut self, absolute: bool, segments: Option<&'a str>)
        requires empty { (whole : List Text) → Completes self.old whole whole }
        requires fits { length (each_closed (pieces_if_some segments)) + 1 < 2 ^ 64 }
        ensures { Completes self.new [] (normal_segments (path_of absolute segments.entry)) }
    {
        let closes = ends_in_dots(segments);
        self.put_closing(closes);
        let open_parents = self.put_names(segments);
        let parents = leading_parents(absolute, open_parents);
        self.put_parents(parents);
        self.drop_lone();
    }
}
