//! Where a text is wrong, and why, as a person reads it.
ghost use Rattle.std.specs.{Prelude.{◌≡◌, [], IfOk, IfSome}};
ghost use Rattle.iref.specs.BytePlaces.{fault_value};
ghost use Rattle.iref_tool.specs.Notes.{IsFound, found_of, why_text};

use crate::shown::{Shown, is_replaced};
use iref::{Cause, Fault};
use iref_fault::fault::component_name;
use std::fmt::{self, InlineText, Write};
use unicode_width::{UnicodeWidthChar, UnicodeWidthStr};

/// What stands where a text is wrong, as a person reads it: `' '`, or that the text ends. `{:?}` of a
/// character takes at most 12 bytes.
#[derive(Clone, Copy)]
pub struct Found(InlineText<16>);

impl Found {
    /// Nothing.
    pub fn nothing() -> Self
        ensures { found_of result ≡ [] }
    {
        Found(InlineText::new())
    }

    /// What stands at the fault.
    pub fn new(fault: Fault) -> Result<Self, fmt::Error>
        ensures { IfOk result (λ found. IsFound (fault_value fault) (found_of found)) }
    {
        match fault.found() {
            Some(found) => Found::of(format_args!("{found:?}")),
            None => Found::of("the text ends"),
        }
    }

    // The text of a value.
    fn of<D: fmt::Display + Drop>(value: D) -> Result<Self, fmt::Error>
        ensures { IfOk result (λ found.
            IfSome (D.output value) (λ text. found_of found ≡ text)) }
    {
        let mut text = InlineText::new();
        text.write(value)?;
        Ok(Found(text))
    }
}

/// Why a text is refused, without the place: `invalid host: ' '`, `no scheme`, `not UTF-8`.
#[derive(Clone, Copy)]
pub struct Why(pub Fault, pub Found);

impl fmt::Display for Why {
    ghost output = { λ why. why_text (fault_value why.0) (found_of why.1) };

    fn fmt<W: fmt::Write>(&self, f: &mut fmt::Formatter<W>) -> fmt::Result {
        match self.0.cause() {
            Cause::NoScheme => f.write_str("no scheme"),
            Cause::NotUtf8 => f.write_str("not UTF-8"),
            Cause::Invalid(component) => {
                let found = self.1.0.as_str();
                write!(f, "invalid {}: {found}", component_name(component))
            }
        }
    }
}

// How many columns of a terminal a text takes. What is shown in place of a character takes one.
fn columns_of(text: &str) -> usize {
    let mut columns = text.chars().filter(|c| is_replaced(*c)).count();
    for part in text.split(is_replaced) {
        columns = columns.saturating_add(part.width());
    }
    columns
}

// The room that is left behind a character, where each takes at least a column; None if it has none.
fn room_behind(c: char, room: usize) -> Option<usize> {
    room.checked_sub(c.width().unwrap_or(1).max(1))
}

// The longest beginning of a text for which there are so many columns.
fn beginning(text: &str, room: usize) -> &str {
    let mut room = room;
    for (at, c) in text.char_indices() {
        match room_behind(c, room) {
            Some(left) => room = left,
            None => return text.get(..at).unwrap_or(text),
        }
    }
    text
}

// The longest end of a text for which there are so many columns.
fn end(text: &str, room: usize) -> &str {
    let mut room = room;
    for (at, c) in text.char_indices().rev() {
        match room_behind(c, room) {
            Some(left) => room = left,
            None => return text.get(at.saturating_add(c.len_utf8())..).unwrap_or(text),
        }
    }
    text
}

// What stands before a byte of a text, and the rest.
fn split(text: &str, at: usize) -> (&str, &str) {
    match (text.get(..at), text.get(at..)) {
        (Some(front), Some(back)) => (front, back),
        _ => (text, ""),
    }
}

/// The part of a word around a place, and a caret below the place, in so many columns of a terminal.
/// `..` stands for what is left out.
#[derive(Clone, Copy)]
pub struct Excerpt<'a> {
    pub word: &'a str,
    /// The place, in bytes of the word.
    pub at: usize,
    pub columns: usize,
}

// What stands before each line.
const INDENT: &str = "    ";

impl<'a> Excerpt<'a> {
    // The beginning and the end of the word that are shown, up to the place and from it on.
    fn parts(self) -> (&'a str, &'a str) {
        let (front, back) = split(self.word, self.at);
        // The caret may stand behind the word.
        let room = self.columns.saturating_sub(INDENT.len() + 1);
        if beginning(self.word, room).len() == self.word.len() {
            return (front, back);
        }
        let room = room.saturating_sub(4) / 2;
        let front = end(front, room);
        let back = beginning(back, room.max(1));
        (front, back)
    }
}

impl fmt::Display for Excerpt<'_> {
    fn fmt<W: fmt::Write>(&self, f: &mut fmt::Formatter<W>) -> fmt::Result {
        let (front, back) = self.parts();
        let before = if front.len() < self.at { ".." } else { "" };
        let shown = self.at.saturating_add(back.len());
        let behind = if shown < self.word.len() { ".." } else { "" };
        writeln!(f, "{INDENT}{before}{}{}{behind}", Shown(front), Shown(back))?;
        f.write_str(INDENT)?;
        for _ in 0..before.len().saturating_add(columns_of(front)) {
            f.write_char(' ')?;
        }
        f.write_str("^\n")
    }
}
