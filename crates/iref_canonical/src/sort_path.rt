//! Paths in sort keys, put from the end.

ghost use Rattle.std.specs.{List.{flat_map}, Prelude.{◌≡◌, IfSome, false, length, true}};
ghost use Rattle.iref_grammar.specs.PathValue.{read_path};
ghost use Rattle.iref_grammar.specs.PathKey.{path_key};
ghost use Rattle.iref_path.specs.{NormalItems.{IsSound, decoded_left}, Pieces.{pieces_if_some}};
ghost use Rattle.iref_canonical.specs.{SortItems.{AreItems, AreKept, items_of}, SortKey.{sort_item}};
ghost use Rattle.iref_canonical.specs.SortBytes as bytes;

use crate::sort_text::put_text;
use iref_parse::dots::has_dots;
use iref_parse::unescaped::is_kept;
use iref_path::normal_items::NormalItems;
use iref_path::segments::{count_segments, last_segment, split_root};
use iref_splice::backward::Backward;

/// The items of a path's normal list.
#[derive(Clone, Copy)]
pub(crate) enum Items<'a> {
    /// The segments of a text: none begins with a dot, and each byte is written as it is.
    Kept(Option<&'a str>),
    /// Items that are found from the end.
    Normal(NormalItems<'a>),
}

// How many bytes a sort key has for segments, each byte of which stands as it is.
#[tactic(auto, using(crate::proofs::SortItemLemmas::kept_size))]
fn segments_len(segments: Option<&str>) -> Option<usize>
    requires { AreKept (pieces_if_some segments) }
    ensures { IfSome result (λ len.
        len ≡ length (flat_map sort_item (pieces_if_some segments.entry))) }
{
    match segments {
        Some(text) => text.len().checked_add(count_segments(text))?.checked_add(1),
        None => Some(0),
    }
}

// Puts segments, each byte of which stands as it is, at once, if only their length matters.
#[inline(always)]
fn put_size<O: Backward>(out: &mut O, segments: Option<&str>) -> bool
    requires { AreKept (pieces_if_some segments) }
    ensures put { result ≡ true → out.new ≡ O.after out.old
        (flat_map sort_item (pieces_if_some segments.entry)) }
    ensures not_put { result ≡ false → out.new ≡ out.old }
{
    match segments_len(segments) {
        Some(len) => out.put_len(len),
        None => false,
    }
}

// Puts segments, each byte of which stands as it is.
#[tactic(auto, using(crate::proofs::SortItemLemmas::kept_lasts))]
fn put_segments<O: Backward>(out: &mut O, segments: Option<&str>)
    requires kept { AreKept (pieces_if_some segments) }
    requires fits { O.fits out.old (flat_map sort_item (pieces_if_some segments)) }
    ensures { out.new ≡ O.after out.old (flat_map sort_item (pieces_if_some segments.entry)) }
{
    let mut left = segments;
    while let Some(text) = left {
        let (front, last) = last_segment(text);
        put_text(out, last, true);
        out.put(&[1]);
        left = front;
    }
}

// Puts items.
#[tactic(auto, using(crate::proofs::SortItemLemmas::decoded_last))]
fn put_items<O: Backward>(out: &mut O, mut left: NormalItems<'_>)
    requires sound { IsSound left }
    requires fits { O.fits out.old (flat_map sort_item (decoded_left left)) }
    ensures { out.new ≡ O.after out.old (flat_map sort_item (decoded_left left.entry)) }
{
    while let Some(item) = left.next_back() {
        put_text(out, item, is_kept(item.as_bytes()));
        out.put(&[1]);
    }
}

impl<'a> Items<'a> {
    /// The items of a path, and whether it is absolute. `kept` says that each byte is written as it
    /// is.
    #[tactic(auto, using(crate::proofs::SortItemLemmas::kept_key), unfolding(iref_grammar::specs::PathKey::path_key))]
    pub(crate) fn of_path(path: &'a str, kept: bool) -> (bool, Self)
        requires { kept ≡ true → bytes.is_kept path.now ≡ true }
        ensures absolute { result.0 ≡ (read_path path.now).absolute }
        ensures items { items_of result.1 ≡ (path_key (read_path path.now)).segments }
        ensures sound { AreItems result.1 }
    {
        let (absolute, segments) = split_root(path);
        if kept && !has_dots(path.as_bytes()) {
            (absolute, Items::Kept(segments))
        } else {
            (absolute, Items::Normal(NormalItems::new(path)))
        }
    }

    /// Puts the items, which more can follow.
    #[inline(always)]
    pub(crate) fn put<O: Backward>(self, out: &mut O)
        requires sound { AreItems self }
        requires fits { O.fits out.old (flat_map sort_item (items_of self)) }
        ensures { out.new ≡ O.after out.old (flat_map sort_item (items_of self.entry)) }
    {
        match self {
            Items::Kept(segments) => {
                if !put_size(out, segments) {
                    put_segments(out, segments);
                }
            }
            Items::Normal(left) => put_items(out, left),
        }
    }
}
