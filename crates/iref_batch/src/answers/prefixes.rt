//! The answers to `compact` and `expand`, by a table of the entries that the fields name.
ghost use Rattle.std.specs.{Prelude.{◌≡◌, ◌∷◌, Some, true, OnOk, OnErr, IfErr}, Option.{option_copied}};
ghost use Rattle.iref_batch.specs.Lines.{Answered, answer_text, are_valid_entries, part_field, read_entry};
ghost use Rattle.iref_batch.specs.{Lines.{text_and_entries}, EditFields.{IsRead}, Fields.{fields_of}};
ghost use Rattle.iref_batch.specs.{Gathering.{Puts, PutsReply}, PrefixFields.{entries_read, HasTaken, TakesNot}};
ghost use Rattle.iref_batch.specs.{Requests.{asked_of}, Runs.{reply_to}};
ghost use Rattle.iref.specs.{Characters.{iri_chars}, PrefixTable.{compact_text, PrefixesValue}};
ghost use Rattle.iref.specs.{Prefixes.{compact_value}, declared.compact.label.Labels.TheVariants.{Ascii}};
ghost use Rattle.iref_batch.specs.Lines as spec;

use super::{put_answered, put_refused, put_text};
use crate::edit_fields::FieldError;
use crate::request::{TableVerb, next_field};
use iref::Memory;
use iref::compact::{Compact, ExpandFault, PrefixFault, Prefixes};
use iref::iri::Iri;
use iref_parse::cut::cut_bytes;
use std::alloc::Global;
use std::str;

// Adds the entry of a field, `label=IRI`, to the table.
fn insert_field(table: &mut Prefixes, field: &[u8]) -> Result<(), FieldError>
    requires { table.old.labels ≡ Ascii }
    ensures ok { OnOk result (HasTaken (read_entry field.now) table.old table.new) }
    ensures err { IfErr result (TakesNot (read_entry field.now) table.old) }
    ensures unchanged { OnErr result (table.new ≡ table.old) }
{
    let (label, iri) = cut_bytes(field, b'=');
    let Some(iri) = iri else {
        return Err(FieldError::Command);
    };
    let Ok(label) = str::from_utf8(label) else {
        return Err(FieldError::Invalid);
    };
    let Ok(iri) = Iri::from_bytes(iri) else {
        return Err(FieldError::Invalid);
    };
    match table.insert(label, iri) {
        Ok(()) => Ok(()),
        Err(PrefixFault::BadLabel) => Err(FieldError::Invalid),
        Err(PrefixFault::Taken) => Err(FieldError::Invalid),
        Err(PrefixFault::Memory) => Err(FieldError::Memory),
    }
}

// The table of the entries that the fields name. All fields are read, since one without `=` goes
// before entries that no table takes.
fn read_table(alloc: Global, fields: Option<&[u8]>) -> Result<Prefixes, FieldError>
    ensures { IsRead (λ (table : PrefixesValue). table.entries) (are_valid_entries iri_chars)
        (entries_read (fields_of (option_copied fields.entry))) result }
{
    let mut table = Prefixes::new(alloc);
    let mut are_valid = true;
    let mut left = fields;
    while let Some(field) = next_field(&mut left) {
        match insert_field(&mut table, field) {
            Ok(()) => {}
            Err(FieldError::Invalid) => are_valid = false,
            Err(error) => return Err(error),
        }
    }
    if are_valid {
        Ok(table)
    } else {
        Err(FieldError::Invalid)
    }
}

// Puts the answer of an IRI made short: `=`, the label, `:`, and the rest.
fn put_short(short: Compact<'_>, out: &mut Vec<u8>) -> Result<(), Memory>
    ensures { Puts (answer_text (Answered
        (part_field (Some (compact_text (compact_value short.entry))))))
        out.old.items out.new.items result }
{
    put_text(b"ok\t=", out)?;
    put_text(short.label.as_bytes(), out)?;
    put_text(b":", out)?;
    put_text(short.rest.as_bytes(), out)
}

// Puts the answer of what a table makes of an IRI.
fn put_compact(table: &Prefixes, text: &[u8], out: &mut Vec<u8>) -> Result<(), Memory>
    requires { are_valid_entries iri_chars table.now.entries ≡ true }
    ensures { PutsReply (spec.Compact text.now table.now.entries)
        out.old.items out.new.items result }
{
    let Ok(iri) = Iri::from_bytes(text) else {
        return put_text(b"error invalid", out);
    };
    match table.compact(iri) {
        Some(short) => put_short(short, out),
        None => put_answered(b"-", out),
    }
}

// Puts the answer of the IRI that a text stands for in a table.
fn put_expanded(table: &Prefixes, text: &[u8], out: &mut Vec<u8>) -> Result<(), Memory>
    requires { are_valid_entries iri_chars table.now.entries ≡ true }
    ensures { PutsReply (spec.Expand text.now table.now.entries)
        out.old.items out.new.items result }
{
    let Ok(text) = str::from_utf8(text) else {
        return put_text(b"error invalid", out);
    };
    match table.expand(*out.allocator(), text) {
        Ok(iri) => put_answered(iri.as_bytes(), out),
        Err(ExpandFault::Memory) => Err(Memory),
        Err(ExpandFault::NoColon) => put_text(b"error invalid", out),
        Err(ExpandFault::UnknownLabel) => put_text(b"error invalid", out),
        Err(ExpandFault::NotAnIri) => put_text(b"error invalid", out),
    }
}

/// Puts the answer to `compact` or `expand`.
pub fn put_answer_by_table(
    verb: TableVerb,
    text: &[u8],
    fields: Option<&[u8]>,
    out: &mut Vec<u8>,
) -> Result<(), Memory>
    ensures { Puts (reply_to (text_and_entries (asked_of verb)
        (text.now ∷ fields_of (option_copied fields.entry)))) out.old.items out.new.items result }
{
    let table = match read_table(*out.allocator(), fields) {
        Ok(table) => table,
        Err(error) => return put_refused(error, out),
    };
    match verb {
        TableVerb::Compact => put_compact(&table, text, out),
        TableVerb::Expand => put_expanded(&table, text, out),
    }
}
