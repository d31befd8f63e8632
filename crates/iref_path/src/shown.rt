//! Items that are written from the front, though they are read from the back.

ghost use Rattle.std.specs.{Fmt.{WritesOnOk}, List.{join_with_byte}, Prelude.{◌-◌, ◌<◌, ◌≤◌, codes, length, replicate}};
ghost use Rattle.iref_grammar.specs.{slash};
ghost use Rattle.iref_path.specs.{Spelling.{each_closed}, NormalItems.{IsSound, normal_left}, StepsBetween.{last_ones}};

use crate::normal_items::NormalItems;
use std::fmt;

/// Writes `..` this many times, with a `/` after each.
pub(crate) fn show_parents<W: fmt::Write>(count: usize, f: &mut fmt::Formatter<W>) -> fmt::Result
    ensures { WritesOnOk W.write_str_gives f.old result
        (each_closed (replicate count (codes ".."))) f.new }
{
    for _ in 0..count {
        f.write_str("../")?;
    }
    Ok(())
}

// Writes the last item with a `/` after it.
fn show_last<W: fmt::Write>(mut items: NormalItems<'_>, f: &mut fmt::Formatter<W>) -> fmt::Result
    requires { IsSound items }
    ensures { WritesOnOk W.write_str_gives f.old result
        (each_closed (last_ones 1 (normal_left items.entry))) f.new }
{
    let Some(item) = items.next_back() else {
        return Ok(());
    };
    f.write_str(item)?;
    f.write_str("/")
}

// Writes the last items, this many, each with a `/` after it. Each half is found from the back, so an
// item is read once for each halving of their number.
#[tactic(auto, using(std::proofs::lemmas::Grind::put_two, crate::proofs::ShownLemmas::halves_closed))]
fn show_last_ones<W: fmt::Write>(
    items: NormalItems<'_>,
    count: usize,
    f: &mut fmt::Formatter<W>,
) -> fmt::Result
    requires sound { IsSound items }
    requires some { 0 < count }
    requires within { count ≤ length (normal_left items) }
    ensures { WritesOnOk W.write_str_gives f.old result
        (each_closed (last_ones count (normal_left items.entry))) f.new }
{
    if count == 1 {
        return show_last(items, f);
    }
    let half = count / 2;
    show_last_ones(items.without_last(half), count - half, f)?;
    show_last_ones(items, half, f)
}

// Writes the items, each with a `/` after it.
fn show_closed<W: fmt::Write>(items: NormalItems<'_>, f: &mut fmt::Formatter<W>) -> fmt::Result
    requires sound { IsSound items }
    ensures { WritesOnOk W.write_str_gives f.old result
        (each_closed (normal_left items.entry)) f.new }
{
    let count = items.len();
    if count == 0 {
        return Ok(());
    }
    show_last_ones(items, count, f)
}

/// Writes the items with `/` between.
#[tactic(auto, using(std::proofs::lemmas::Grind::put_two, crate::proofs::SpellLemmas::joined_before))]
pub(crate) fn show_items<W: fmt::Write>(
    mut items: NormalItems<'_>,
    f: &mut fmt::Formatter<W>,
) -> fmt::Result
    requires sound { IsSound items }
    ensures { WritesOnOk W.write_str_gives f.old result
        (join_with_byte slash (normal_left items.entry)) f.new }
{
    let Some(last) = items.next_back() else {
        return Ok(());
    };
    show_closed(items, f)?;
    f.write_str(last)
}
