//! Prefix tables: labels that stand for the beginnings of IRIs, as in `ex:a` for
//! `http://example.org/a`.
ghost use Rattle.std.specs.Prelude.{◌≡◌, [], length, option_map, Ok, IfOk, IfErr, IfSome, OnOk, OnErr};
ghost use Rattle.std.specs.String.{string_bytes};
ghost use Rattle.iref.specs.PrefixTable.{ascii_table, compact_text, compacted, expanded, get};
ghost use Rattle.iref.specs.PrefixTable.{inserted, is_taken, removed, replaced};
ghost use Rattle.iref_reference.specs.References.{reference_buf_text, reference_text};
ghost use Rattle.iref.specs.Prefixes.{compact_value, RefusesExpand, RefusesInsert};

mod entry;
mod label;
mod shared;
mod table;
mod text;
mod tree;

use crate::iri::{Iri, IriBuf};
use iref_parse::cut::cut;
use iref_splice::Memory;
pub use label::Labels;
use std::alloc::Global;
use std::marker::Model;
use table::Table;
use text::{after_front, iri_of, joined};
use thiserror::Error;

/// Why an entry cannot be inserted, as one under the label `1x`.
#[derive(Clone, Copy, Debug, PartialEq, Eq, Error)]
pub enum PrefixFault {
    /// The label is outside the rule of the table's labels, which `Prefixes::labels` returns.
    #[error("the label is outside the rule of the table's labels")]
    BadLabel,
    /// The label has an entry.
    #[error("the label is taken")]
    Taken,
    /// A growth was refused, or the new length would pass what a buffer can hold.
    #[error("out of memory")]
    Memory,
}

/// Why a text cannot be expanded, as one without a `:`.
#[derive(Clone, Copy, Debug, PartialEq, Eq, Error)]
pub enum ExpandFault {
    /// The text holds no `:`.
    #[error("no colon ends a label")]
    NoColon,
    /// What stands before the first `:` is no label of the table.
    #[error("the label before the first colon has no entry")]
    UnknownLabel,
    /// A growth was refused, or the new length would pass what a buffer can hold.
    #[error("out of memory")]
    Memory,
    /// The label's IRI followed by what stands after the `:` is no IRI.
    #[error("the label's IRI and the rest are not an IRI")]
    NotAnIri,
}

impl From<Memory> for PrefixFault {
    ghost use Rattle.iref.specs.declared.compact.PrefixFault.TheVariants as prefix_fault;

    ghost from_gives = { λ _ error. error ≡ prefix_fault.Memory };

    fn from(_: Memory) -> PrefixFault {
        PrefixFault::Memory
    }
}

impl From<Memory> for ExpandFault {
    ghost use Rattle.iref.specs.declared.compact.ExpandFault.TheVariants as expand_fault;

    ghost from_gives = { λ _ error. error ≡ expand_fault.Memory };

    fn from(_: Memory) -> ExpandFault {
        ExpandFault::Memory
    }
}

/// An IRI that a table has made short, `ex:a` for `http://example.org/a`: a label, and what follows
/// the label's IRI.
#[derive(Clone, Copy, Debug, PartialEq, Eq)]
pub struct Compact<'a> {
    /// The label of an entry.
    pub label: &'a str,
    /// What follows the entry's IRI, with no escapes of a language: Turtle writes `ex:a\/b` where
    /// the rest is `a/b`.
    pub rest: &'a str,
}

impl Compact<'_> {
    /// The label, `:`, and the rest: of `ex` and `a` it is `ex:a`. Out of memory, it returns
    /// `Memory`.
    pub fn to_text(&self, alloc: Global) -> Result<String, Memory>
        ensures { IfOk result (λ text. string_bytes text ≡ compact_text (compact_value self.now)) }
    {
        joined(alloc, self.label, ":", self.rest)
    }
}

/// Labels, each with the IRI that it stands for, in the order in which they were inserted: with
/// `ex` for `http://example.org/`, `compact` of `http://example.org/a` returns `ex` and `a`, and
/// `expand` of `ex:a` returns that IRI. What `remove` and `replace` take away keeps its memory until
/// the table is dropped.
#[derive(Drop)]
pub struct Prefixes {
    rule: Labels,
    table: Table,
}

impl Model for Prefixes {
    ghost use Rattle.iref.specs.{PrefixTable.{PrefixesValue, IsPrefixTable}, PrefixPlaces.{table_of, IsTable}};

    ghost Value = { PrefixesValue };

    ghost view = { λ p. record { labels = p.rule; entries = table_of p.table.entries } };

    ghost invariant = { λ p.
        IsPrefixTable (record { labels = p.rule; entries = table_of p.table.entries })
        × IsTable p.table };
}

impl Prefixes {
    /// The empty table, whose labels are those of `Labels::Ascii`: `compact` finds nothing in it.
    pub fn new(alloc: Global) -> Self
        ensures { result ≡ ascii_table [] }
    {
        Self::with_labels(alloc, Labels::Ascii)
    }

    /// The empty table whose labels are these: with `Labels::Turtle` it takes `schema.org`, `größe`
    /// and the empty label, with `Labels::Any` every text without `:`.
    pub fn with_labels(alloc: Global, labels: Labels) -> Self
        ensures { result ≡ record { labels = labels; entries = [] } }
    {
        let rule = labels;
        let table = Table::new(alloc);
        Prefixes { rule, table }
    }

    /// Which labels the table takes: of `Prefixes::new`, `Labels::Ascii`.
    pub fn labels(&self) -> Labels
        ensures { result ≡ self.now.labels }
    {
        self.rule
    }

    /// How many entries the table has: after one `insert`, 1.
    pub fn len(&self) -> usize
        ensures { result ≡ length self.now.entries }
    {
        self.table.len()
    }

    /// The IRI of a label, if the label has an entry: after `insert` of `ex` with `http://ex.org/`,
    /// of `ex` that IRI.
    #[tactic(auto, unfolding(crate::specs::PrefixTable::get))]
    pub fn get(&self, label: &str) -> Option<Iri<'_>>
        ensures { option_map reference_text result ≡ get label.now self.now.entries }
    {
        Some(self.table.find(label)?.iri())
    }

    /// Adds a last entry: after `insert` of `ex` with `http://ex.org/`, the text `ex:a` expands to
    /// `http://ex.org/a`. The label is in the rule of the table's labels, and differs from all
    /// labels that are there, by its text. The table keeps one copy of the label and of the IRI. It
    /// finds their places by their bits, however many entries it has.
    ///
    /// # Errors
    ///
    /// `BadLabel` if the label is outside the rule of the table's labels. Else `Taken` if the label
    /// has an entry, as if `ex` is inserted once more. Else `Memory` if memory runs out. After an
    /// error the table is as it was.
    #[tactic(auto, using(crate::proofs::PrefixTableLemmas::inserts))]
    pub fn insert(&mut self, label: &str, iri: Iri<'_>) -> Result<(), PrefixFault>
        ensures ok { OnOk result (inserted label.now (reference_text iri.entry) self.old
            ≡ Ok self.new) }
        ensures err { IfErr result
            (RefusesInsert (inserted label.now (reference_text iri.entry) self.old)) }
        ensures unchanged { OnErr result (self.new ≡ self.old) }
    {
        if !self.rule.allow(label) {
            return Err(PrefixFault::BadLabel);
        }
        if self.table.find(label).is_some() {
            return Err(PrefixFault::Taken);
        }
        Ok(self.table.insert(label, iri.as_str())?)
    }

    /// Gives the entry of a label this IRI, and returns whether there was one. The entry keeps its
    /// place in the order. A label that has no entry gets a last one, as by `insert`: `replace` of
    /// `ex` in the empty table returns `false`, and of `ex` once more `true`.
    ///
    /// # Errors
    ///
    /// `BadLabel` if the label is outside the rule of the table's labels. Else `Memory` if memory
    /// runs out. After an error the table is as it was.
    #[tactic(auto, using(crate::proofs::PrefixTableLemmas::replaces))]
    pub fn replace(&mut self, label: &str, iri: Iri<'_>) -> Result<bool, PrefixFault>
        ensures ok { OnOk result (replaced label.now (reference_text iri.entry) self.old
            ≡ Ok self.new) }
        ensures was { IfOk result (λ was. was ≡ is_taken label.now self.old.entries) }
        ensures err { IfErr result
            (RefusesInsert (replaced label.now (reference_text iri.entry) self.old)) }
        ensures unchanged { OnErr result (self.new ≡ self.old) }
    {
        if !self.rule.allow(label) {
            return Err(PrefixFault::BadLabel);
        }
        let was = self.table.replace(label, iri.as_str())?;
        if !was {
            self.table.insert(label, iri.as_str())?;
        }
        Ok(was)
    }

    /// Takes the entry of a label away, and returns whether there was one: of `ex` from a table with
    /// it `true`, and once more `false`. The others keep their order. It takes no memory.
    pub fn remove(&mut self, label: &str) -> bool
        ensures left { self.new
            ≡ record self.old { entries = removed label.now self.old.entries } }
        ensures was { result ≡ is_taken label.now self.old.entries }
    {
        self.table.remove(label)
    }

    /// The IRI by its longest beginning in the table: the label of the entry whose IRI's text is a
    /// beginning of this one's, and the rest. With `ex` for `http://ex.org/` and `v` for
    /// `http://ex.org/v#`, `http://ex.org/v#name` becomes `v` and `name`. Where several entries'
    /// IRIs are as long, the first inserted one serves. None where no entry's IRI is a beginning.
    ///
    /// It takes no memory. However many entries there are, it tests at most nine bits for each byte
    /// of this IRI, and compares it with one entry's. If that entry is no beginning, and others are
    /// shorter, it may test the bits twice.
    #[tactic(auto, using(crate::proofs::PrefixTableLemmas::compacts))]
    pub fn compact<'a>(&'a self, iri: Iri<'a>) -> Option<Compact<'a>>
        ensures compacted { option_map compact_value result
            ≡ compacted (reference_text iri.entry) self.now.entries }
        ensures expands { IfSome result (λ compact. expanded
            (compact_text (compact_value compact)) self.now.entries
            ≡ Ok (reference_text iri.entry)) }
    {
        let text = iri.as_str();
        let entry = self.table.longest_fit(text)?;
        let rest = after_front(text, entry.text());
        let label = entry.label();
        Some(Compact { label, rest })
    }

    /// The IRI that a text stands for: the text is cut at its first `:`, and the IRI of the label
    /// before it is followed by what stands after it. With `ex` for `http://ex.org/`, `ex:a#b`
    /// expands to `http://ex.org/a#b`.
    ///
    /// # Errors
    ///
    /// `NoColon` if the text holds no `:`. Else `UnknownLabel` if what stands before the first `:`
    /// has no entry. Else `Memory` if memory runs out. Else `NotAnIri` if the label's IRI and the
    /// rest are no IRI, as of `ex:a b`.
    #[tactic(auto, using(crate::proofs::PrefixTableLemmas::expanding))]
    pub fn expand(&self, alloc: Global, text: &str) -> Result<IriBuf, ExpandFault>
        ensures ok { IfOk result (λ iri. expanded text.now self.now.entries
            ≡ Ok (reference_buf_text iri)) }
        ensures err { IfErr result (RefusesExpand (expanded text.now self.now.entries)) }
    {
        let (label, rest) = cut(text, ':');
        let rest = rest.ok_or(ExpandFault::NoColon)?;
        let iri = self.get(label).ok_or(ExpandFault::UnknownLabel)?;
        let text = joined(alloc, iri.as_str(), "", rest)?;
        iri_of(text)
    }
}
