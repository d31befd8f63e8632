//! The first entries of texts, by the texts: a tree of nodes that each tell texts apart by one bit.
ghost use Rattle.std.specs.Prelude.{◌≡◌, ◌≢◌, ℕ, ◌-◌, ◌*◌, ◌<◌, ◌≤◌, ◌++◌, [], ◌∷◌, List, false, length};
ghost use Rattle.std.specs.Prelude.{◌+◌, min, nat_lt, slice_index_or, MatchOption, OnOk, Option, Some, None};
ghost use Rattle.std.specs.{List.{find}, Option.{option_copied}, Vec.{vec_len, vec_capacity}};
ghost use Rattle.iref_grammar.specs.Rules.{Text};
ghost use Rattle.iref.specs.{PrefixTable.{longest_fit}, PrefixPlaces.{table_of, AreWithin}};
ghost use Rattle.iref.specs.declared.compact.entry.Key.TheVariants.{Iri};
ghost use Rattle.iref.specs.PrefixTree.{has_key, keys_of, lead_at, symbol, bit, place_of, child, spot, IsWay, SameBits};
ghost use Rattle.iref.specs.PrefixTree.{all_of, leads_of, places_of, with_child, HasRoom, IsAbsent, IsAdded};
ghost use Rattle.iref.specs.PrefixTree.{IsFirstDifference, IsFirstOf, IsFit, IsLedIn, IsNear, IsNew, IsTree};

use super::entry::{Entries, Entry, Key, Lead};
use iref_parse::front::common_front;
use iref_splice::Memory;
use std::alloc::Global;

// A bit of a text's symbol at a place. Of a symbol the greater bits come first.
#[derive(Clone, Copy)]
struct Bit {
    at: usize,
    shift: usize,
}

// The bit of a symbol that says that the text has not ended.
const GOES_ON: usize = 8;

// What stands below a node.
#[derive(Clone, Copy)]
enum Child {
    // a node, by its place in the tree's list
    Inner(usize),
    // an entry, by its number
    Leaf(usize),
}

// The texts below a node are alike up to its bit. Those that have the bit stand on the right.
#[derive(Clone, Copy)]
struct Node {
    bit: Bit,
    // one of the entries below; the one whose text ends there, where the bit says that others go on
    entry: usize,
    left: Child,
    right: Child,
    // A node takes 64 bytes so, and its place in the list is found by a shift.
    spare: usize,
}

// The first entries of texts, by the texts.
#[derive(Drop)]
pub(super) struct Tree {
    root: Option<Child>,
    nodes: Vec<Node>,
    // no text is shorter
    least: usize,
    // how many bytes all texts begin with, as the root node says, and the last of them; 0 where no
    // node is the root
    front: usize,
    last: u8,
}

// Where a text leads in a tree.
#[derive(Clone, Copy)]
struct Near<'a> {
    // an entry that has as many bytes in common with the text from the front on as any other
    number: usize,
    // the text of that entry
    text: &'a [u8],
    // the last entry on the way whose text ends where others go on, and which has a place
    ended: Option<Lead>,
}

// The symbol of a text at a place: its byte with the bit `GOES_ON`, or 0 behind the text.
#[tactic(auto, unfolding(crate::specs::PrefixTree::symbol))]
#[inline(always)]
fn symbol(text: &[u8], at: usize) -> usize
    ensures value { result ≡ symbol text.now at }
    ensures small { result < 512 }
{
    if at < text.len() {
        256 + text[at] as usize
    } else {
        0
    }
}

impl Near<'_> {
    // Where the nearest entry leads to by its IRI, if the whole text is what is in common.
    #[inline(always)]
    fn lead_of_whole(self, entries: &Entries, common: usize) -> Option<Lead>
        requires { self.number < length entries.now.rows.items }
        ensures whole { common ≡ length self.entry.text.now
            → result ≡ lead_at (leads_of Iri entries.now) self.entry.number }
        ensures part { common ≢ length self.entry.text.now → result ≡ None }
    {
        if common == self.text.len() {
            entries.lead(Key::Iri, self.number)
        } else {
            None
        }
    }
}

impl Bit {
    // The first bit by which two texts differ, whose symbols differ at a place, and none before.
    #[tactic(auto, using(crate::proofs::PrefixBitLemmas::differences))]
    fn of_difference(a: &[u8], b: &[u8], at: usize) -> Self
        requires same { SameBits (9 * at) a.now b.now }
        requires differ { symbol a.now at ≢ symbol b.now at }
        ensures split { IsFirstDifference result a.now b.now }
        ensures at { result.at ≡ at }
    {
        let mut shift = GOES_ON;
        while symbol(a, at) >> shift == symbol(b, at) >> shift {
            shift -= 1;
        }
        Bit { at, shift }
    }

    // Whether the text has the bit.
    #[tactic(auto, using(crate::proofs::PrefixBitLemmas::bit_of_symbol))]
    #[inline(always)]
    fn is_in(self, text: &[u8]) -> bool
        requires { self.shift ≤ 8 }
        ensures { result ≡ bit text.now (place_of self) }
    {
        (symbol(text, self.at) >> self.shift) % 2 == 1
    }

    // Whether this bit comes before the other.
    fn is_before(self, other: Bit) -> bool
        requires shift { self.shift ≤ 8 }
        requires other { other.shift ≤ 8 }
        ensures { result ≡ nat_lt (place_of self) (place_of other) }
    {
        self.at < other.at || (self.at == other.at && other.shift < self.shift)
    }
}

impl Node {
    // The child on the side of the texts that have the bit, or on the other side.
    #[inline(always)]
    fn child(&self, side: bool) -> Child
        ensures { result ≡ child self.now side }
    {
        if side { self.right } else { self.left }
    }

    fn set_child(&mut self, side: bool, child: Child)
        ensures { self.new ≡ with_child self.old side child }
    {
        if side {
            self.right = child;
        } else {
            self.left = child;
        }
    }
}

// The end of what is read of a text of this size: behind the first bytes and the next one. Where the
// text is read whole the compiler finds so, which it does not by `min`.
#[inline(always)]
fn end_of(len: usize, size: usize) -> usize
    ensures { result ≡ min size (len + 1) }
{
    if len < size { len + 1 } else { size }
}

// The byte before a place of a text, or 0 where the text begins.
fn byte_before(text: &[u8], at: usize) -> u8
    requires { at ≤ length text.now }
    ensures { 0 < at → result ≡ slice_index_or text.now (at - 1) 0 }
{
    if at == 0 { 0 } else { text[at - 1] }
}

impl Tree {
    pub(super) fn new(alloc: Global) -> Self
        ensures { IsTree [] result }
    {
        let nodes = Vec::new(alloc);
        let least = usize::MAX;
        Tree {
            root: None,
            nodes,
            least,
            front: 0,
            last: 0,
        }
    }

    // Makes room for one more text. The first takes no node.
    pub(super) fn reserve(&mut self) -> Result<(), Memory>
        ensures tree { (texts : List Text) → IsTree texts self.old → IsTree texts self.new }
        ensures room { OnOk result (HasRoom self.new) }
    {
        if self.root.is_some() {
            self.nodes.reserve(1)?;
        }
        Ok(())
    }

    // Where a text leads by the bits of its symbols up to this place.
    #[inline(always)]
    fn near<'a>(&self, entries: &'a Entries, key: Key, text: &[u8], len: usize) -> Option<Near<'a>>
        requires tree { IsTree (keys_of key (all_of entries.now)) self.now }
        requires led { IsLedIn key entries.now }
        requires len { len ≤ length text.now }
        ensures { let texts = keys_of key (all_of entries.now) in
            MatchOption result (texts ≡ [])
            (IsNear texts (places_of entries.now) text.now len) }
    {
        let end = end_of(len, text.len());
        let mut child = self.root?;
        let mut ended = None;
        while let Child::Inner(at) = child {
            let node = &self.nodes[at];
            if end <= node.bit.at {
                break;
            }
            if node.bit.shift == GOES_ON {
                ended = entries.lead(key, node.entry).or(ended);
                child = node.right;
            } else {
                child = node.child(node.bit.is_in(text));
            }
        }
        let number = match child {
            Child::Inner(at) => self.nodes[at].entry,
            Child::Leaf(number) => number,
        };
        let text = entries.text(key, number);
        Some(Near {
            number,
            text,
            ended,
        })
    }

    // Whether an entry's text may be a beginning of this one: not if this one is shorter than all,
    // or differs from all in the last byte that these have in common from the front on.
    #[inline(always)]
    fn may_fit(&self, text: &[u8]) -> bool
        ensures { result ≡ false → (texts : List Text) → IsTree texts self.now
            → (n : ℕ) → IsFit texts text.now n → ⊥ }
    {
        if text.len() < self.least {
            return false;
        }
        let front = self.front;
        front == 0 || (front <= text.len() && text[front - 1] == self.last)
    }

    // The first entry that was ever added under a text, by its number.
    pub(super) fn number_of(&self, entries: &Entries, key: Key, text: &[u8]) -> Option<usize>
        requires tree { IsTree (keys_of key (all_of entries.now)) self.now }
        requires led { IsLedIn key entries.now }
        ensures { let texts = keys_of key (all_of entries.now) in
            MatchOption result (IsAbsent texts text.now) (IsFirstOf texts text.now) }
    {
        if !self.may_fit(text) {
            return None;
        }
        let near = self.near(entries, key, text, text.len())?;
        if near.text == text {
            Some(near.number)
        } else {
            None
        }
    }

    // The first entry of the table that has this text.
    pub(super) fn entry_of<'a>(
        &self,
        entries: &'a Entries,
        key: Key,
        text: &[u8],
    ) -> Option<&'a Entry>
        requires tree { IsTree (keys_of key (all_of entries.now)) self.now }
        requires led { IsLedIn key entries.now }
        requires within { AreWithin (all_of entries.now) (places_of entries.now) }
        ensures { option_copied result
            ≡ find (has_key key text.now) (table_of entries.now) }
    {
        let number = self.number_of(entries, key, text)?;
        let lead = entries.lead(key, number)?;
        Some(entries.entry(lead.number))
    }

    // The first of the longest entries of the table whose text is a beginning of this one.
    pub(super) fn longest_fit<'a>(&self, entries: &'a Entries, text: &[u8]) -> Option<&'a Entry>
        requires tree { IsTree (keys_of Iri (all_of entries.now)) self.now }
        requires led { IsLedIn Iri entries.now }
        requires within { AreWithin (all_of entries.now) (places_of entries.now) }
        ensures { option_copied result ≡ longest_fit text.now (table_of entries.now) }
    {
        if !self.may_fit(text) {
            return None;
        }
        let near = self.near(entries, Key::Iri, text, text.len())?;
        let common = common_front(near.text, text);
        if let Some(lead) = near.lead_of_whole(entries, common) {
            return Some(entries.entry(lead.number));
        }
        let ended = near.ended?;
        let entry = entries.entry(ended.number);
        if entry.text().len() <= common {
            return Some(entry);
        }
        let last = self.near(entries, Key::Iri, text, common)?;
        let ended = last.ended?;
        Some(entries.entry(ended.number))
    }

    // Adds the next entry under its text, unless an entry has the text, and returns the first entry
    // that was ever added under it.
    pub(super) fn add(&mut self, entries: &Entries, key: Key, text: &[u8]) -> usize
        requires tree { IsTree (keys_of key (all_of entries.now)) self.old }
        requires led { IsLedIn key entries.now }
        requires room { HasRoom self.old }
        ensures tree { IsTree (keys_of key (all_of entries.now) ++ text.now ∷ []) self.new }
        ensures first { IsFirstOf (keys_of key (all_of entries.now) ++ text.now ∷ [])
            text.now result }
    {
        let number = entries.rows.len();
        self.least = self.least.min(text.len());
        let Some(near) = self.near(entries, key, text, text.len()) else {
            self.root = Some(Child::Leaf(number));
            return number;
        };
        let at = common_front(near.text, text);
        if at == text.len() && at == near.text.len() {
            return near.number;
        }
        let bit = Bit::of_difference(near.text, text, at);
        let entry = if at == near.text.len() {
            near.number
        } else {
            number
        };
        self.put(bit, entry, text, number);
        number
    }

    // Where a new text leads above this bit: below which node, on which side, and to which child.
    fn way(&self, bit: Bit, text: &[u8]) -> (Option<(usize, bool)>, Child)
        requires { (texts : List Text) × (n : ℕ) × IsNew texts self.now text.now n bit }
        ensures { (texts : List Text) (n : ℕ) → IsNew texts self.now text.now n bit
            → IsWay texts self.now text.now n bit result.0 result.1
            × (place_of bit < (spot texts self.now.nodes.items result.1).place) }
    {
        let mut above = None;
        let mut child = self.root.unwrap_or(Child::Leaf(0));
        while let Child::Inner(at) = child {
            let node = &self.nodes[at];
            if !node.bit.is_before(bit) {
                break;
            }
            let side = node.bit.is_in(text);
            above = Some((at, side));
            child = node.child(side);
        }
        (above, child)
    }

    // Adds a node of this bit, which tells the entry of a new text from those where the text leads.
    fn put(&mut self, bit: Bit, entry: usize, text: &[u8], number: usize)
        requires added { (texts : List Text) × (n : ℕ)
            × IsAdded texts self.old text.now n bit entry number }
        requires room { vec_len self.old.nodes < vec_capacity self.old.nodes }
        ensures { (texts : List Text) (n : ℕ)
            → IsAdded texts self.old text.now n bit entry number
            → IsTree (texts ++ text.now ∷ []) self.new }
    {
        let (above, below) = self.way(bit, text);
        let leaf = Child::Leaf(number);
        let node = if bit.is_in(text) {
            Node {
                bit,
                entry,
                left: below,
                right: leaf,
                spare: 0,
            }
        } else {
            Node {
                bit,
                entry,
                left: leaf,
                right: below,
                spare: 0,
            }
        };
        let new = Child::Inner(self.nodes.len());
        self.nodes.push_reserved(node);
        let Some((at, side)) = above else {
            self.root = Some(new);
            self.front = bit.at;
            self.last = byte_before(text, bit.at);
            return;
        };
        self.nodes[at].set_child(side, new);
    }
}
