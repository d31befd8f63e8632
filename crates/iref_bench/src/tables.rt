//! Prefix tables of many kinds: IRIs of a store are shortened, labels looked up, short texts expanded.
use crate::digest::Digest;
use crate::made::Numbers;
use crate::names::{put_name, put_path, put_wide_name};
use crate::namespaces::Family;
use anyhow::{Context, Result};
use iref::compact::Prefixes;
use iref::iri::{Iri, IriBuf};
use std::alloc::{AllocError, Global};

// How many IRIs a store has.
const STORE: u64 = 1000;

// A table of the first namespaces of a family, and how many times it shortens each IRI of its store in
// a round.
struct Table {
    family: Family,
    entries: u64,
    times: u64,
}

static TABLES: [Table; 15] = [
    Table {
        family: Family::Wikipedias,
        entries: 30,
        times: 8,
    },
    Table {
        family: Family::Uuids,
        entries: 30,
        times: 8,
    },
    Table {
        family: Family::Years,
        entries: 30,
        times: 6,
    },
    Table {
        family: Family::Months,
        entries: 24,
        times: 8,
    },
    Table {
        family: Family::Vocabularies,
        entries: 32,
        times: 8,
    },
    Table {
        family: Family::Vocabularies,
        entries: 20,
        times: 8,
    },
    Table {
        family: Family::Versions,
        entries: 19,
        times: 4,
    },
    Table {
        family: Family::Uuids,
        entries: 1000,
        times: 6,
    },
    Table {
        family: Family::Web,
        entries: 20,
        times: 2,
    },
    Table {
        family: Family::Ontologies,
        entries: 31,
        times: 2,
    },
    Table {
        family: Family::Catalogue,
        entries: 33,
        times: 4,
    },
    Table {
        family: Family::Vocabularies,
        entries: 300,
        times: 5,
    },
    Table {
        family: Family::Nested,
        entries: 17,
        times: 2,
    },
    Table {
        family: Family::Web,
        entries: 1,
        times: 12,
    },
    Table {
        family: Family::Web,
        entries: 5,
        times: 6,
    },
];

impl Table {
    // The prefixes of the namespaces.
    fn prefixes(&self, alloc: Global) -> Result<Prefixes> {
        let mut prefixes = Prefixes::new(alloc);
        let mut text = String::new(alloc);
        let mut label = String::new(alloc);
        for entry in 0..self.entries {
            text.clear();
            self.family.put_namespace(&mut text, entry)?;
            label.clear();
            self.family.put_label(&mut label, entry)?;
            let iri = Iri::new(text.as_str()).ok().context("no IRI")?;
            prefixes.insert(label.as_str(), iri)?;
        }
        Ok(prefixes)
    }

    // Appends an IRI of the store. Of eight, three are longer than a namespace that they begin with, one
    // is a namespace, one lacks the last character of one, one begins with a namespace that mostly has
    // no entry, one with no namespace, and one is shorter than all.
    fn put_iri(&self, text: &mut String, number: u64) -> Result<(), AllocError> {
        let entry = number / 8 % self.entries.max(1);
        let name = number / 65_536;
        match number % 8 {
            0 => text.push_str("http://www.example.net/articles/")?,
            1 => return text.push_str(if name % 2 == 0 { "http:" } else { "urn:a" }),
            2 => self
                .family
                .put_namespace(text, self.entries.wrapping_add(entry % 4))?,
            3 => return self.family.put_namespace(text, entry),
            4 => {
                self.family.put_namespace(text, entry)?;
                let _last = text.pop();
            }
            _ => self.family.put_namespace(text, entry)?,
        }
        match name % 8 {
            0 => put_wide_name(text, name),
            1 => put_path(text, name),
            _ => put_name(text, name),
        }
    }

    // The IRIs of the store.
    fn store(&self, alloc: Global, numbers: &mut Numbers) -> Result<Vec<IriBuf>> {
        let mut store = Vec::new(alloc);
        for _iri in 0..STORE {
            let mut text = String::new(alloc);
            self.put_iri(&mut text, numbers.next())?;
            let iri = IriBuf::new(text).ok().context("no IRI")?;
            store.push(iri).map_err(AllocError::from)?;
        }
        Ok(store)
    }
}

// Shortens an IRI. One of four short texts is expanded again, and of another the label is looked up. One of
// four IRIs that have no short text is taken for one, whose label is unknown.
fn shorten(
    alloc: Global,
    prefixes: &Prefixes,
    iri: Iri<'_>,
    place: usize,
    digest: &mut Digest,
) -> Result<()> {
    let found = prefixes.compact(iri);
    digest.number(u64::from(found.is_some()));
    let Some(compact) = found else {
        if place % 4 == 0 {
            let expanded = prefixes.expand(alloc, iri.as_str());
            digest.number(u64::from(expanded.is_ok()));
        }
        return Ok(());
    };
    digest.text(compact.label);
    digest.text(compact.rest);
    if place % 4 == 0 {
        let text = compact.to_text(alloc)?;
        digest.text(prefixes.expand(alloc, text.as_str())?.as_str());
    } else if place % 4 == 1 {
        let namespace = prefixes.get(compact.label).context("no entry")?;
        digest.text(namespace.as_str());
    }
    Ok(())
}

/// Shortens the IRIs of a store for each table in each of `count` rounds.
pub fn run(alloc: Global, count: u64, numbers: &mut Numbers, digest: &mut Digest) -> Result<()> {
    for table in &TABLES {
        let prefixes = table.prefixes(alloc)?;
        let store = table.store(alloc, numbers)?;
        for _round in 0..count {
            for _time in 0..table.times {
                for (place, iri) in store.iter().enumerate() {
                    shorten(alloc, &prefixes, iri.as_iri(), place, digest)?;
                }
            }
        }
    }
    Ok(())
}
