//! Where two normal lists, which are read from the back, differ first: that takes no memory.

ghost use Rattle.std.specs.{List.{common_prefix_len}, Prelude.{◌≡◌, ◌-◌, Bool, bytes_eq, length}};
ghost use Rattle.std.specs.{Cmp.Lexicographic.{slice_cmp}, Ordering.{is_eq}};
ghost use Rattle.std.specs.declared.cmp.Ordering.{Ordering};
ghost use Rattle.iref_grammar.specs.Rules.{Text};
ghost use Rattle.iref_grammar.specs.PathSuffix.{same_decoded};
ghost use Rattle.iref_path.specs.ItemOrders.{decoded-decides, decoded_order, equal_or_less, text-decides};
ghost use Rattle.iref_path.specs.NormalItems.{IsSound, normal_left};

use crate::normal_items::NormalItems;
use iref_parse::decoded::{decoded_cmp, decoded_eq};
use std::cmp::Ordering;

/// When two items are the same, and which of two comes first.
pub(crate) trait Sameness {
    /// Whether they are the same.
    ghost same: { Text → Text → Bool };

    /// Their order.
    ghost order: { Text → Text → Ordering };

    /// Which of two items comes first.
    fn compare(item: &str, other: &str) -> Ordering
        ensures { result ≡ order item.now other.now };

    /// Whether two items are the same.
    fn are_same(item: &str, other: &str) -> bool
        ensures { result ≡ same item.now other.now };

    /// They are the same where neither comes first.
    ghost decides: { (item other : Text) → is_eq (order item other) ≡ same item other };
}

/// Items that decode to the same bytes, in the order of these.
pub(crate) struct Decoded;

/// Items of the same characters. The order of others does not matter.
pub(crate) struct ByText;

impl Sameness for Decoded {
    ghost same = { same_decoded };

    ghost order = { decoded_order };

    // Most are the same text, which is not decoded.
    #[tactic(auto, using(crate::proofs::CompareListLemmas::same_texts))]
    #[inline(always)]
    fn compare(item: &str, other: &str) -> Ordering {
        if item == other {
            Ordering::Equal
        } else {
            decoded_cmp(item, other)
        }
    }

    fn are_same(item: &str, other: &str) -> bool {
        decoded_eq(item, other)
    }

    ghost decides = { decoded-decides };
}

impl Sameness for ByText {
    ghost same = { bytes_eq };

    ghost order = { equal_or_less };

    #[inline(always)]
    fn compare(item: &str, other: &str) -> Ordering {
        if item == other {
            Ordering::Equal
        } else {
            Ordering::Less
        }
    }

    fn are_same(item: &str, other: &str) -> bool {
        item == other
    }

    ghost decides = { text-decides };
}

// Two lists of this number of items each: the foremost difference decides, and is read last.
#[tactic(auto, using(crate::proofs::CompareListLemmas::compared))]
fn compare_same_length<S: Sameness>(
    mut left: NormalItems<'_>,
    mut right: NormalItems<'_>,
    len: usize,
) -> (usize, Ordering)
    requires left { IsSound left }
    requires right { IsSound right }
    requires left_len { length (normal_left left) ≡ len }
    requires right_len { length (normal_left right) ≡ len }
    ensures common { result.0
        ≡ common_prefix_len S.same (normal_left left.entry) (normal_left right.entry) }
    ensures order { result.1
        ≡ slice_cmp S.order (normal_left left.entry) (normal_left right.entry) }
{
    let mut common = len;
    let mut order = Ordering::Equal;
    let mut index = len;
    while let Some(item) = left.next_back() {
        let Some(other) = right.next_back() else {
            return (common, order);
        };
        index -= 1;
        let here = S::compare(item, other);
        if !here.is_eq() {
            common = index;
        }
        order = here.then(order);
    }
    (common, order)
}

/// How many items two lists have in common from the front, each pair the same, and their order: the
/// first difference decides, and then the shorter is less.
///
/// Of `a`, `b`, `c` and `a`, `%62`, `d`, `e`, decoded, it is 2 and `Less`. Each segment that is left
/// is read once.
pub(crate) fn compare_lists<S: Sameness>(
    left: NormalItems<'_>,
    right: NormalItems<'_>,
) -> (usize, Ordering)
    requires left { IsSound left }
    requires right { IsSound right }
    ensures common { result.0
        ≡ common_prefix_len S.same (normal_left left.entry) (normal_left right.entry) }
    ensures order { result.1
        ≡ slice_cmp S.order (normal_left left.entry) (normal_left right.entry) }
{
    let left_len = left.len();
    let right_len = right.len();
    let left = left.without_last(left_len.saturating_sub(right_len));
    let right = right.without_last(right_len.saturating_sub(left_len));
    let (common, order) = compare_same_length::<S>(left, right, left_len.min(right_len));
    (common, order.then(left_len.cmp(&right_len)))
}
