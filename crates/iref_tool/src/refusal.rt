//! Words that have no answer, and why.
ghost use Rattle.std.specs.Prelude.{◌≡◌};
ghost use Rattle.iref_tool.specs.Words.{status_of};

use crate::place::{Excerpt, Found, Why};
use crate::shown::Shown;
use crate::words::EDITS;
use iref::compact::Labels;
use iref::{Fault, Memory};
use iref_batch::columns::column;
use iref_batch::status::Status;
use std::fmt;

/// What is wrong with a word.
#[derive(Clone, Copy)]
pub enum Reason {
    /// The word, from the byte `start` on, is no text of this kind.
    Text {
        kind: &'static str,
        start: usize,
        fault: Fault,
    },
    /// It names no edit.
    NoEdit,
    /// It names an edit that needs a value.
    NoValue,
    /// It names an edit that takes no value.
    Value,
    /// It edits a part of an authority, and there is none.
    NoAuthority,
    /// It has no `=` after a label.
    NoEntry,
    /// Its label is outside this rule.
    Label(Labels),
    /// Its label was given before.
    Taken,
    /// It has no `:` after a label.
    NoColon,
    /// Its label is none of those that were given.
    UnknownLabel,
    /// It expands to a text that is no IRI.
    NotAnIri,
    /// No prefix fits it.
    NoPrefix,
    /// No reference resolves to it.
    NoReference,
}

// What is wrong with the word of an argument, as a sentence.
#[derive(Clone, Copy)]
struct Complaint(&'static str, Reason);

impl fmt::Display for Complaint {
    fn fmt<W: fmt::Write>(&self, f: &mut fmt::Formatter<W>) -> fmt::Result {
        let Complaint(argument, reason) = *self;
        let what = match reason {
            Reason::NoReference => return write!(f, "no reference resolves to {argument}"),
            Reason::Text { kind, fault, .. } => {
                let why = Why(fault, Found::new(fault)?);
                return write!(f, "{argument} is no {kind}: {why}");
            }
            Reason::Label(labels) => return write!(f, "{argument} has a wrong label: {labels}"),
            Reason::NoEdit => "names no edit",
            Reason::NoValue => "names an edit that needs =VALUE",
            Reason::Value => "names an edit that takes no value",
            Reason::NoAuthority => "edits a part of an authority, and there is none",
            Reason::NoEntry => "has no =",
            Reason::Taken => "has a label that was given before",
            Reason::NoColon => "has no : after a label",
            Reason::UnknownLabel => "has a label that no LABEL=IRI gives",
            Reason::NotAnIri => "expands to a text that is no IRI",
            Reason::NoPrefix => "begins with none of the IRIs of the labels",
        };
        write!(f, "{argument} {what}")
    }
}

/// Why there is no answer.
#[derive(Clone, Copy)]
pub enum Refusal<'a> {
    /// Of this argument this word is wrong, and why.
    Word(&'static str, &'a str, Reason),
    /// Memory was refused.
    Memory,
}

impl From<Memory> for Refusal<'_> {
    ghost use Rattle.iref_tool.specs.declared.refusal.Refusal.TheVariants as refusal;

    ghost from_gives = { λ _ refused. refused ≡ refusal.Memory };

    fn from(_error: Memory) -> Self {
        Refusal::Memory
    }
}

impl Refusal<'_> {
    /// The status of the program.
    pub fn status(&self) -> Status
        ensures { result ≡ status_of self.now }
    {
        match self {
            Refusal::Word(
                _,
                _,
                Reason::NoEdit | Reason::NoValue | Reason::Value | Reason::NoEntry,
            ) => Status::Misused,
            _ => Status::Wrong,
        }
    }
}

/// Why there is no answer, on a terminal of so many columns: two lines, and a third with a caret below
/// the place where there is one: `iref: BASE is no IRI: invalid host: ' '`, the place in characters,
/// and the word, or what stands around the place. Where memory was refused one line says so.
#[derive(Clone, Copy)]
pub struct Told<'a> {
    pub refusal: Refusal<'a>,
    pub columns: usize,
}

impl fmt::Display for Told<'_> {
    fn fmt<W: fmt::Write>(&self, f: &mut fmt::Formatter<W>) -> fmt::Result {
        let Refusal::Word(argument, word, reason) = self.refusal else {
            return f.write_str("iref: out of memory\n");
        };
        write!(f, "iref: {}", Complaint(argument, reason))?;
        if let Reason::Text { start, fault, .. } = reason {
            let at = start.saturating_add(fault.at());
            let column = column(word.as_bytes(), at);
            let columns = self.columns;
            let excerpt = Excerpt { word, at, columns };
            return write!(f, ", at character {column}\n{excerpt}");
        }
        write!(f, "\n    {}\n", Shown(word))?;
        if let Reason::NoEdit = reason {
            return write!(f, "The edits:\n{EDITS}\n");
        }
        Ok(())
    }
}
