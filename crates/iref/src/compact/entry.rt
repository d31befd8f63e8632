//! The entries of a prefix table, and where texts lead to.
ghost use Rattle.std.specs.Prelude.{◌≡◌, ◌<◌, ◌++◌, ◌∷◌, [], None, length, true, IfOk, IfSome};
ghost use Rattle.std.specs.Vec.{vec_len, vec_capacity};
ghost use Rattle.std.proofs.Math.ListN.{set};
ghost use Rattle.iref_grammar.specs.{Characters.{iri_chars}, Reference.{is_uri}};
ghost use Rattle.iref_reference.specs.References.{reference_text};
ghost use Rattle.iref.specs.PrefixPlaces.{entry_at, first_of, lead_there, lead_to};
ghost use Rattle.iref.specs.PrefixTree.{all_of, key_of, keys_of, lead_at, leads_of, places_of, text_at};
ghost use Rattle.iref.specs.declared.compact.entry.Key.TheVariants as key;

use crate::iri::Iri;
use iref_splice::Memory;
use std::alloc::{AllocError, Global};
use std::marker::Model;

// What an entry is found by.
#[derive(Clone, Copy)]
pub(super) enum Key {
    Label,
    Iri,
}

// A label, and the text of its IRI.
#[derive(Drop)]
pub(super) struct Entry {
    // the text of the IRI, and behind it the label
    text: String,
    iri_len: usize,
}

impl Model for Entry {
    ghost use Rattle.std.specs.{Prelude.{◌≡◌, true, take, drop}, String.{string_bytes}, Str.{IsCharBoundary}};
    ghost use Rattle.iref_grammar.specs.{Characters.{iri_chars}, Reference.{is_uri}};
    ghost use Rattle.iref.specs.PrefixTable.{PrefixEntry};

    ghost Value = { PrefixEntry };

    ghost view = { λ e. record {
      label = drop e.iri_len (string_bytes e.text);
      iri = take e.iri_len (string_bytes e.text);
    } };

    ghost invariant = { λ e. IsCharBoundary (string_bytes e.text) e.iri_len
        × (is_uri iri_chars (take e.iri_len (string_bytes e.text)) ≡ true) };
}

impl Entry {
    // An entry of copies.
    pub(super) fn new(alloc: Global, label: &str, iri: &str) -> Result<Self, Memory>
        requires { is_uri iri_chars iri.now ≡ true }
        ensures { IfOk result (λ entry.
            entry ≡ record { label = label.now; iri = iri.now }) }
    {
        let iri_len = iri.len();
        let len = iri_len.checked_add(label.len()).ok_or(AllocError)?;
        let mut text = String::with_capacity(alloc, len)?;
        text.push_str(iri)?;
        text.push_str(label)?;
        Ok(Entry { text, iri_len })
    }

    pub(super) fn label(&self) -> &str
        ensures { result.now ≡ self.now.label }
    {
        self.text.split_at(self.iri_len).1
    }

    pub(super) fn text(&self) -> &str
        ensures { result.now ≡ self.now.iri }
    {
        self.text.split_at(self.iri_len).0
    }

    // What the entry is found by.
    #[inline(always)]
    pub(super) fn key(&self, key: Key) -> &str
        ensures { result.now ≡ key_of key self.now }
    {
        match key {
            Key::Label => self.label(),
            Key::Iri => self.text(),
        }
    }

    pub(super) fn iri(&self) -> Iri<'_>
        ensures { reference_text result ≡ self.now.iri }
    {
        Iri::new_unchecked(self.text.split_at(self.iri_len).0)
    }
}

// Where a text leads to: the place of an entry in the table, and its number.
#[derive(Clone, Copy)]
pub(super) struct Lead {
    pub(super) place: usize,
    pub(super) number: usize,
}

// To a place where this entry stands, if one does.
fn lead_there(place: usize, number: Option<usize>) -> Option<Lead>
    ensures { result ≡ lead_there place number }
{
    let number = number?;
    Some(Lead { place, number })
}

// An entry, and what is kept under its number.
#[derive(Drop)]
pub(super) struct Row {
    pub(super) entry: Entry,
    // the number of the entry that stands at the place of this number
    here: Option<usize>,
    // where its label and its IRI lead to, where it is the first entry that ever had them
    label: Option<Lead>,
    iri: Option<Lead>,
    // A row takes 128 bytes so, and is found by a shift.
    spare: [usize; 4],
}

// All entries that were ever added, by their numbers. There are as many places. The table has the
// entries that stand there, in that order.
#[derive(Drop)]
pub(super) struct Entries {
    pub(super) rows: Vec<Row>,
}

impl Entries {
    pub(super) fn entry(&self, number: usize) -> &Entry
        requires { number < length self.now.rows.items }
        ensures { result.now ≡ entry_at (all_of self.now) number }
    {
        &self.rows[number].entry
    }

    // What an entry is found by.
    #[inline(always)]
    pub(super) fn text(&self, key: Key, number: usize) -> &[u8]
        requires { number < length self.now.rows.items }
        ensures { result.now ≡ text_at (keys_of key (all_of self.now)) number }
    {
        self.entry(number).key(key).as_bytes()
    }

    // Where the text of an entry leads to, if the entry is the first that ever had it.
    #[inline(always)]
    pub(super) fn lead(&self, key: Key, number: usize) -> Option<Lead>
        requires { number < length self.now.rows.items }
        ensures { result ≡ lead_at (leads_of key self.now) number }
    {
        let row = &self.rows[number];
        match key {
            Key::Label => row.label,
            Key::Iri => row.iri,
        }
    }

    // The first place of an IRI, by the first entry that ever had it.
    pub(super) fn first_place(&self, iri: usize) -> Option<usize>
        requires { iri < length self.now.rows.items }
        ensures { result ≡ first_of (lead_at (leads_of key.Iri self.now) iri) }
    {
        Some(self.lead(Key::Iri, iri)?.place)
    }

    // Adds an entry. None stands at its place, and nothing leads to it.
    pub(super) fn push(&mut self, entry: Entry)
        requires { vec_len self.old.rows < vec_capacity self.old.rows }
        ensures all { all_of self.new ≡ all_of self.old ++ entry ∷ [] }
        ensures places { places_of self.new ≡ places_of self.old ++ None ∷ [] }
        ensures labels { leads_of key.Label self.new ≡ leads_of key.Label self.old ++ None ∷ [] }
        ensures iris { leads_of key.Iri self.new ≡ leads_of key.Iri self.old ++ None ∷ [] }
    {
        self.rows.push_reserved(Row {
            entry,
            here: None,
            label: None,
            iri: None,
            spare: [0; 4],
        });
    }

    // Has an entry stand at a place, where its label leads to, or none.
    pub(super) fn set_place(&mut self, place: usize, label: usize, number: Option<usize>)
        requires place { place < length self.old.rows.items }
        requires label { label < length self.old.rows.items }
        ensures all { all_of self.new ≡ all_of self.old }
        ensures places { places_of self.new ≡ set (places_of self.old) place number }
        ensures labels { leads_of key.Label self.new
            ≡ set (leads_of key.Label self.old) label (lead_there place number) }
        ensures iris { leads_of key.Iri self.new ≡ leads_of key.Iri self.old }
    {
        self.rows[place].here = number;
        self.rows[label].label = lead_there(place, number);
    }

    // Has an IRI lead to the entry that stands at a place, or to none.
    pub(super) fn set_first(&mut self, iri: usize, place: Option<usize>)
        requires iri { iri < length self.old.rows.items }
        requires place { IfSome place (λ p. p < length self.old.rows.items) }
        ensures all { all_of self.new ≡ all_of self.old }
        ensures places { places_of self.new ≡ places_of self.old }
        ensures labels { leads_of key.Label self.new ≡ leads_of key.Label self.old }
        ensures iris { leads_of key.Iri self.new
            ≡ set (leads_of key.Iri self.old) iri (lead_to (places_of self.old) place) }
    {
        let lead = self.lead_to(place);
        self.rows[iri].iri = lead;
    }

    // To the entry that stands at a place.
    fn lead_to(&self, place: Option<usize>) -> Option<Lead>
        requires { IfSome place (λ p. p < length self.now.rows.items) }
        ensures { result ≡ lead_to (places_of self.now) place }
    {
        let place = place?;
        lead_there(place, self.rows[place].here)
    }
}
