//! A writer of RDF: each IRI is shortened by a table of prefixes, of a few and of many.
use crate::digest::Digest;
use crate::made::Numbers;
use crate::names::{put_name, put_path};
use anyhow::{Context, Result};
use iref::compact::Prefixes;
use iref::iri::Iri;
use iref_examples::chosen::chosen;
use std::alloc::{AllocError, Global};

static BEGINNINGS: [&str; 5] = [
    "http://www.w3.org/ns/",
    "http://www.w3.org/2026/",
    "http://purl.org/vocabulary/",
    "http://purl.org/linked-data/",
    "https://data.example.org/ontologies/",
];

// Writes the IRI of a prefix.
fn put_namespace(text: &mut String, number: u64) -> Result<(), AllocError> {
    text.push_str(chosen(&BEGINNINGS, number))?;
    put_name(text, number)?;
    text.push_str(if number % 3 == 0 { "/" } else { "#" })
}

// A table of this many prefixes.
fn table_of(alloc: Global, entries: u64, offset: u64) -> Result<Prefixes> {
    let mut table = Prefixes::new(alloc);
    let mut text = String::new(alloc);
    let mut label = String::new(alloc);
    for entry in 0..entries {
        let number = entry.wrapping_add(offset);
        text.clear();
        put_namespace(&mut text, number)?;
        label.clear();
        put_name(&mut label, number)?;
        let iri = Iri::new(text.as_str()).ok().context("no IRI")?;
        table.insert(label.as_str(), iri)?;
    }
    Ok(table)
}

// Writes an IRI. Of eight one begins with no entry's IRI, and one begins with less than one.
fn put_iri(text: &mut String, entries: u64, offset: u64, item: u64) -> Result<(), AllocError> {
    let number = (item % entries.max(1)).wrapping_add(offset);
    match item % 8 {
        0 => text.push_str("http://www.example.net/")?,
        1 => text.push_str(chosen(&BEGINNINGS, number))?,
        _ => put_namespace(text, number)?,
    }
    put_path(text, item)
}

// Shortens the IRIs of `count` items, from this one on.
fn shorten(
    alloc: Global,
    entries: u64,
    first: u64,
    count: u64,
    offset: u64,
    digest: &mut Digest,
) -> Result<()> {
    let table = table_of(alloc, entries, offset)?;
    let mut text = String::new(alloc);
    for number in 0..count {
        let item = number.wrapping_add(first);
        text.clear();
        put_iri(&mut text, entries, offset, item)?;
        let iri = Iri::new(text.as_str()).ok().context("no IRI")?;
        match table.compact(iri) {
            Some(compact) => {
                digest.text(compact.label);
                digest.text(compact.rest);
            }
            None => digest.number(item),
        }
    }
    Ok(())
}

/// Shortens `count` IRIs by a table of 20 prefixes, and as many by one of 3,000.
pub fn run(alloc: Global, count: u64, numbers: &mut Numbers, digest: &mut Digest) -> Result<()> {
    let offset = numbers.below(65_536);
    shorten(alloc, 20, 0, count, offset, digest)?;
    shorten(alloc, 3000, count, count, offset, digest)
}
