//! What follows the root and the guard in the text of a path.

ghost use Rattle.std.specs.{Fmt.{WritesOnOk}, Prelude.{◌≡◌, ◌<◌, ◌^◌, length}};
ghost use Rattle.iref_path.specs.Bodies.{IsBody, after_front, body_text, parents_then};

use crate::normal_items::NormalItems;
use crate::shown::{show_items, show_parents};
use crate::spell::{put_items, put_parents, put_segment};
use iref_splice::backward::Backward;
use std::fmt;

/// What follows the root and the guard.
#[derive(Clone, Copy)]
pub enum Body<'a> {
    /// A text, and before it another one with a `/` after it, if there is one.
    Kept(Option<&'a str>, &'a str),
    /// A number of `..`, each with a `/` after it, and a text.
    Up(usize, &'a str),
    /// Items with `/` between, and how many bytes they have with a `/` after each.
    Items(NormalItems<'a>, usize),
}

// How many bytes a text has, and before it another one with a `/` after it.
fn joined_len(front: Option<&str>, back: &str) -> usize
    requires { length (after_front front back.now) < 2 ^ 64 }
    ensures { result ≡ length (after_front front.entry back.now) }
{
    match front {
        Some(front) => front.len() + 1 + back.len(),
        None => back.len(),
    }
}

// Puts a text, and before it another one with a `/` after it.
#[tactic(auto, using(crate::proofs::SpellLemmas::closed_then))]
fn put_joined<O: Backward>(out: &mut O, front: Option<&str>, back: &str)
    requires { O.fits out.old (after_front front back.now) }
    ensures { out.new ≡ O.after out.old (after_front front.entry back.now) }
{
    match front {
        Some(front) => {
            out.put(back.as_bytes());
            put_segment(out, front);
        }
        None => out.put(back.as_bytes()),
    }
}

// Writes a text to a formatter, and before it another one with a `/` after it.
fn show_joined<W: fmt::Write>(
    front: Option<&str>,
    back: &str,
    f: &mut fmt::Formatter<W>,
) -> fmt::Result
    ensures { WritesOnOk W.write_str_gives f.old result (after_front front.entry back.now) f.new }
{
    match front {
        Some(front) => {
            f.write_str(front)?;
            f.write_str("/")?;
            f.write_str(back)
        }
        None => f.write_str(back),
    }
}

// Writes a number of `..` to a formatter, each with a `/` after it, and a text.
fn show_up<W: fmt::Write>(up: usize, text: &str, f: &mut fmt::Formatter<W>) -> fmt::Result
    ensures { WritesOnOk W.write_str_gives f.old result (parents_then up text.now) f.new }
{
    show_parents(up, f)?;
    f.write_str(text)
}

impl<'a> Body<'a> {
    /// How many bytes the text has.
    #[tactic(auto, using(crate::proofs::RelativeStepLemmas::sizes))]
    pub fn len(&self) -> usize
        requires { IsBody self.now }
        ensures { result ≡ length (body_text self.now) }
    {
        match *self {
            Body::Kept(front, back) => joined_len(front, back),
            Body::Up(up, text) => 3 * up + text.len(),
            Body::Items(_, size) => size.saturating_sub(1),
        }
    }

    /// Puts the text.
    pub fn put<O: Backward>(&self, out: &mut O)
        requires body { IsBody self.now }
        requires fits { O.fits out.old (body_text self.now) }
        ensures { out.new ≡ O.after out.old (body_text self.now) }
    {
        match *self {
            Body::Kept(front, back) => put_joined(out, front, back),
            Body::Up(up, text) => {
                out.put(text.as_bytes());
                put_parents(out, up);
            }
            Body::Items(items, _) => put_items(out, items),
        }
    }

    /// Writes the text to a formatter.
    pub fn show<W: fmt::Write>(self, f: &mut fmt::Formatter<W>) -> fmt::Result
        requires { IsBody self }
        ensures { WritesOnOk W.write_str_gives f.old result (body_text self.entry) f.new }
    {
        match self {
            Body::Kept(front, back) => show_joined(front, back, f),
            Body::Up(up, text) => show_up(up, text, f),
            Body::Items(items, _) => show_items(items, f),
        }
    }
}
