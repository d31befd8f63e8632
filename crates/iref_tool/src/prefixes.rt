//! IRIs made short, and texts expanded, by entries: words `LABEL=IRI`.
ghost use Rattle.std.specs.Prelude.{map};
ghost use Rattle.iref.specs.PrefixTable.{PrefixesValue};
ghost use Rattle.iref_reference.specs.References.{reference_text};
ghost use Rattle.iref_tool.specs.EntryWords.{compacted_by_words, expanded_by_words};
ghost use Rattle.iref_tool.specs.EntryWords.{table_of_words, with_entry};
ghost use Rattle.iref_tool.specs.Replies.{EndsAs, Returns};

use crate::read::iri_at_end;
use crate::refusal::{Reason, Refusal};
use iref::compact::{ExpandFault, Labels, PrefixFault, Prefixes};
use iref::iri::Iri;
use iref_parse::cut::cut;
use std::alloc::Global;

/// What usage calls an entry.
const ENTRY: &str = "LABEL=IRI";

// Adds the entry of a word to the table.
fn insert<'a>(table: &mut Prefixes, word: &'a str) -> Result<(), Refusal<'a>>
    ensures { Returns (λ _. table.new) (with_entry table.old word.now) result }
{
    let (label, Some(text)) = cut(word, '=') else {
        return Err(Refusal::Word(ENTRY, word, Reason::NoEntry));
    };
    let iri = iri_at_end(ENTRY, word, text)?;
    let labels = table.labels();
    let reason = match table.insert(label, iri) {
        Ok(()) => return Ok(()),
        Err(PrefixFault::BadLabel) => Reason::Label(labels),
        Err(PrefixFault::Taken) => Reason::Taken,
        Err(PrefixFault::Memory) => return Err(Refusal::Memory),
    };
    Err(Refusal::Word(ENTRY, word, reason))
}

// The table of the entries.
fn table_of<'a>(alloc: Global, entries: &[&'a str]) -> Result<Prefixes, Refusal<'a>>
    ensures { Returns (λ (table : PrefixesValue). table)
        (table_of_words (map (λ word. word.now) entries.now)) result }
{
    let mut table = Prefixes::with_labels(alloc, Labels::Turtle);
    for entry in entries {
        insert(&mut table, *entry)?;
    }
    Ok(table)
}

/// The IRI made short by the entry with the longest IRI that fits.
pub fn compacted<'a>(
    alloc: Global,
    iri: Iri<'a>,
    entries: &[&'a str],
) -> Result<String, Refusal<'a>>
    ensures { EndsAs (compacted_by_words (reference_text iri.entry)
        (map (λ word. word.now) entries.now)) result }
{
    let table = table_of(alloc, entries)?;
    match table.compact(iri) {
        Some(short) => Ok(short.to_text(alloc)?),
        None => Err(Refusal::Word("IRI", iri.as_str(), Reason::NoPrefix)),
    }
}

/// The IRI that the text stands for.
pub fn expanded<'a>(
    alloc: Global,
    text: &'a str,
    entries: &[&'a str],
) -> Result<String, Refusal<'a>>
    ensures { EndsAs (expanded_by_words text.now (map (λ word. word.now) entries.now)) result }
{
    let table = table_of(alloc, entries)?;
    match table.expand(alloc, text) {
        Ok(iri) => Ok(iri.into_string()),
        Err(ExpandFault::Memory) => Err(Refusal::Memory),
        Err(ExpandFault::NoColon) => Err(Refusal::Word("TEXT", text, Reason::NoColon)),
        Err(ExpandFault::UnknownLabel) => Err(Refusal::Word("TEXT", text, Reason::UnknownLabel)),
        Err(ExpandFault::NotAnIri) => Err(Refusal::Word("TEXT", text, Reason::NotAnIri)),
    }
}
