//! All entries that were ever added, those that the table has, and how both are found.
ghost use Rattle.std.specs.Prelude.{◌≡◌, ◌++◌, [], ◌∷◌, length, map, true, false, IfNone, IfOk, IfSome, OnErr, OnOk};
ghost use Rattle.std.specs.{List.{find}, Option.{option_copied}};
ghost use Rattle.iref_grammar.specs.{Characters.{iri_chars}, Reference.{is_uri}};
ghost use Rattle.iref.specs.PrefixTable.{has_label, is_taken, longest_fit, removed, with_iri};
ghost use Rattle.iref.specs.PrefixPlaces.{table_of, IsAddedTo, IsHeld, IsRoomy, IsTable};

use super::entry::{Entries, Entry, Key, Lead};
use super::shared::Shared;
use super::tree::Tree;
use iref_splice::Memory;
use std::alloc::Global;

// The entries of a prefix table. One that was removed or replaced stays among all entries, since the
// trees find texts by them. It has no place.
#[derive(Drop)]
pub(super) struct Table {
    pub(super) entries: Entries,
    // how many entries have a place
    len: usize,
    labels: Tree,
    iris: Tree,
    // the places of the entries that have one IRI, behind the first, by the first entry that ever had
    // that IRI
    shared: Shared,
}

// An entry that was added and has no place yet.
#[derive(Clone, Copy)]
struct Added {
    number: usize,
    // the first entry that ever had its label
    label: usize,
    // the first entry that ever had its IRI
    iri: usize,
}

// An entry of the table, and the first entries that ever had its label and its IRI.
#[derive(Clone, Copy)]
struct Held {
    lead: Lead,
    label: usize,
    iri: usize,
}

impl Table {
    pub(super) fn new(alloc: Global) -> Self
        ensures table { IsTable result }
        ensures none { table_of result.entries ≡ [] }
    {
        let rows = Vec::new(alloc);
        let entries = Entries { rows };
        let labels = Tree::new(alloc);
        let iris = Tree::new(alloc);
        let shared = Shared::new(alloc);
        Table {
            entries,
            len: 0,
            labels,
            iris,
            shared,
        }
    }

    pub(super) fn len(&self) -> usize
        requires { IsTable self.now }
        ensures { result ≡ length (table_of self.now.entries) }
    {
        self.len
    }

    // The entry of a label.
    pub(super) fn find(&self, label: &str) -> Option<&Entry>
        requires { IsTable self.now }
        ensures { option_copied result ≡ find (has_label label.now) (table_of self.now.entries) }
    {
        self.labels
            .entry_of(&self.entries, Key::Label, label.as_bytes())
    }

    // The first of the longest entries whose text is a beginning of the IRI's.
    pub(super) fn longest_fit(&self, iri: &str) -> Option<&Entry>
        requires { IsTable self.now }
        ensures { option_copied result ≡ longest_fit iri.now (table_of self.now.entries) }
    {
        self.iris.longest_fit(&self.entries, iri.as_bytes())
    }

    // Adds a last entry, whose label no other has.
    pub(super) fn insert(&mut self, label: &str, iri: &str) -> Result<(), Memory>
        requires table { IsTable self.old }
        requires iri { is_uri iri_chars iri.now ≡ true }
        requires free { is_taken label.now (table_of self.old.entries) ≡ false }
        ensures table { IsTable self.new }
        ensures ok { OnOk result (table_of self.new.entries
            ≡ table_of self.old.entries ++ record { label = label.now; iri = iri.now } ∷ []) }
        ensures err { OnErr result (table_of self.new.entries ≡ table_of self.old.entries) }
    {
        let added = self.add(label, iri)?;
        let place = added.number;
        let first = self.entries.first_place(added.iri);
        let first = self.shared.insert(added.iri, first, place)?;
        self.entries.set_place(place, added.label, Some(place));
        self.entries.set_first(added.iri, Some(first));
        self.len += 1;
        Ok(())
    }

    // Gives the entry of a label another IRI, and returns whether there is one.
    pub(super) fn replace(&mut self, label: &str, iri: &str) -> Result<bool, Memory>
        requires table { IsTable self.old }
        requires iri { is_uri iri_chars iri.now ≡ true }
        ensures table { IsTable self.new }
        ensures was { IfOk result (λ was. was ≡ is_taken label.now (table_of self.old.entries)) }
        ensures ok { OnOk result (table_of self.new.entries
            ≡ map (with_iri label.now iri.now) (table_of self.old.entries)) }
        ensures err { OnErr result (table_of self.new.entries ≡ table_of self.old.entries) }
    {
        let Some(held) = self.held(label) else {
            return Ok(false);
        };
        if self.entries.entry(held.lead.number).text() == iri {
            return Ok(true);
        }
        let added = self.add(label, iri)?;
        let place = held.lead.place;
        let new = self.entries.first_place(added.iri);
        let new = self.shared.insert(added.iri, new, place)?;
        let old = self.entries.first_place(held.iri);
        let old = self.shared.remove(held.iri, old, place);
        let number = Some(added.number);
        self.entries.set_place(place, held.label, number);
        self.entries.set_first(held.iri, old);
        self.entries.set_first(added.iri, Some(new));
        Ok(true)
    }

    // Takes the entry of a label away, and returns whether there was one.
    pub(super) fn remove(&mut self, label: &str) -> bool
        requires table { IsTable self.old }
        ensures table { IsTable self.new }
        ensures was { result ≡ is_taken label.now (table_of self.old.entries) }
        ensures left { table_of self.new.entries
            ≡ removed label.now (table_of self.old.entries) }
    {
        let Some(held) = self.held(label) else {
            return false;
        };
        let place = held.lead.place;
        let first = self.entries.first_place(held.iri);
        let first = self.shared.remove(held.iri, first, place);
        self.entries.set_place(place, held.label, None);
        self.entries.set_first(held.iri, first);
        self.len -= 1;
        true
    }

    // The entry of a label, if the table has one.
    fn held(&self, label: &str) -> Option<Held>
        requires { IsTable self.now }
        ensures none { IfNone result (is_taken label.now (table_of self.now.entries) ≡ false) }
        ensures some { IfSome result (IsHeld self.now.entries label.now) }
    {
        let texts = label.as_bytes();
        let label = self.labels.number_of(&self.entries, Key::Label, texts)?;
        let lead = self.entries.lead(Key::Label, label)?;
        let text = self.entries.entry(lead.number).text();
        let iri = self
            .iris
            .number_of(&self.entries, Key::Iri, text.as_bytes())?;
        Some(Held { lead, label, iri })
    }

    // Makes room for one more entry.
    #[tactic(auto, using(crate::proofs::PrefixBookLemmas::book_again))]
    fn reserve(&mut self) -> Result<(), Memory>
        requires table { IsTable self.old }
        ensures table { IsTable self.new }
        ensures rows { self.new.entries.rows.items ≡ self.old.entries.rows.items }
        ensures room { OnOk result (IsRoomy self.new) }
    {
        self.entries.rows.reserve(1)?;
        self.labels.reserve()?;
        self.iris.reserve()?;
        Ok(())
    }

    // Adds an entry that has no place yet.
    fn add(&mut self, label: &str, iri: &str) -> Result<Added, Memory>
        requires table { IsTable self.old }
        requires iri { is_uri iri_chars iri.now ≡ true }
        ensures table { IsTable self.new }
        ensures same { table_of self.new.entries ≡ table_of self.old.entries }
        ensures ok { IfOk result (IsAddedTo self.old.entries self.new.entries
            (record { label = label.now; iri = iri.now })) }
    {
        let alloc = *self.entries.rows.allocator();
        let entry = Entry::new(alloc, label, iri)?;
        self.reserve()?;
        let number = self.entries.rows.len();
        let texts = label.as_bytes();
        let label = self.labels.add(&self.entries, Key::Label, texts);
        let texts = iri.as_bytes();
        let iri = self.iris.add(&self.entries, Key::Iri, texts);
        self.entries.push(entry);
        Ok(Added { number, label, iri })
    }
}
