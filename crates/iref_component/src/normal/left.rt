//! The items of a normal list that are left, from both ends.

ghost use Rattle.std.specs.{Prelude.{◌≡◌, ◌+◌, ◌<◌, ◌≤◌, ◌++◌, length, true}, Iterator.{YieldsFirstBy, YieldsLastBy}};
ghost use Rattle.iref_path.specs.{NormalItems.{IsSound, IsWhole, normal_left}, Pieces.{text_at}};
ghost use Rattle.iref_component.specs.NormalLeft.{IsLeft, IsPart, left_of};

use arrayvec::ArrayVec;
use iref_path::normal_items::NormalItems;

/// The items of a list that are left: parts, of which the last stands first, and the items behind
/// the last `..` of the path, which are read from either end.
///
/// A part is read from its back. So its first eighth is found by reading the others, which become a
/// part of their own, and so is the first eighth of that, until one item is left. An item is read
/// about twice for each doubling of the number of all, and one of the last five times.
#[derive(Drop)]
pub(super) struct Left<'a> {
    parts: ArrayVec<NormalItems<'a>, 6>,
    rest: NormalItems<'a>,
}

// How many of the items of a part come first: an eighth, but one where no further part finds room.
fn first_eighth(count: usize, is_last: bool) -> usize
    requires { 1 < count }
    ensures some { 0 < result }
    ensures fewer { result < count }
    ensures last { is_last ≡ true → result ≡ 1 }
{
    if is_last { 1 } else { 1.max(count / 8) }
}

impl<'a> Left<'a> {
    /// All items of a list.
    #[tactic(auto, unfolding(crate::specs::NormalLeft::left_of))]
    pub(super) fn new(all: NormalItems<'a>) -> Self
        requires { IsWhole all }
        ensures items { left_of result ≡ normal_left all.entry }
        ensures sound { IsLeft result }
    {
        let rest = all.settled_end();
        let mut parts = ArrayVec::new();
        if rest.len() < all.len() {
            parts.push(all.without_last(rest.len()));
        }
        Left { parts, rest }
    }

    // The first items of a part, this many. Those behind them become a part.
    #[tactic(auto, unfolding(crate::specs::NormalLeft::left_of))]
    fn keep_first(&mut self, part: NormalItems<'a>, count: usize) -> NormalItems<'a>
        requires sound { IsLeft self.old }
        requires room { length self.old.parts.items < 6 }
        requires part { IsSound part }
        requires some { 0 < count }
        requires fewer { count < length (normal_left part) }
        ensures items { normal_left result ++ left_of self.new
            ≡ normal_left part.entry ++ left_of self.old }
        ensures count { length (normal_left result) ≡ count }
        ensures first { IsPart result }
        ensures parts { length self.new.parts.items ≡ length self.old.parts.items + 1 }
        ensures sound { IsLeft self.new }
    {
        let others = part.len() - count;
        self.parts.push(part.last_after(0, others));
        part.without_last(others)
    }

    // The first item of a part. Those behind it become parts.
    fn first_of(&mut self, part: NormalItems<'a>) -> NormalItems<'a>
        requires sound { IsLeft self.old }
        requires room { length self.old.parts.items < 6 }
        requires part { IsPart part }
        ensures items { normal_left result ++ left_of self.new
            ≡ normal_left part.entry ++ left_of self.old }
        ensures first { IsPart result }
        ensures one { length (normal_left result) ≤ 1 }
        ensures sound { IsLeft self.new }
    {
        let mut first = part;
        while first.len() > 1 {
            let count = first_eighth(first.len(), self.parts.remaining_capacity() == 1);
            first = self.keep_first(first, count);
        }
        first
    }

    /// The first item.
    #[tactic(auto, unfolding(crate::specs::NormalLeft::left_of))]
    pub(super) fn next(&mut self) -> Option<&'a str>
        requires { IsLeft self.old }
        ensures item { YieldsFirstBy text_at left_of self.old result self.new }
        ensures sound { IsLeft self.new }
    {
        let Some(part) = self.parts.pop() else {
            return self.rest.next();
        };
        let mut first = self.first_of(part);
        first.next_back()
    }

    /// The last item.
    #[tactic(auto, unfolding(crate::specs::NormalLeft::left_of))]
    pub(super) fn next_back(&mut self) -> Option<&'a str>
        requires { IsLeft self.old }
        ensures item { YieldsLastBy text_at left_of self.old result self.new }
        ensures sound { IsLeft self.new }
    {
        if let Some(item) = self.rest.next_back() {
            return Some(item);
        }
        let last = self.parts.get_mut(0)?;
        let item = last.next_back();
        if last.len() == 0 {
            self.parts.remove(0);
        }
        item
    }
}
