//! A reader of RDF or JSON-LD: each IRI is parsed, expanded or resolved, and looked up in a map. Two in
//! three were seen before, in another spelling.
use crate::digest::Digest;
use crate::made::Numbers;
use crate::names::{put_name, put_wide_name};
use anyhow::{Context, Result};
use iref::compact::Prefixes;
use iref::iri::{Iri, IriBuf, IriRef};
use iref_examples::chosen::chosen;
use std::alloc::{AllocError, Global};
use std::collections::HashMap;

const BASE: &str = "http://data.example.org/library/2026/catalogue/index.ttl";

// How a name is written in full, by a prefix, and in a third way: relative to the base, or as an IRI
// that is equal.
#[derive(Clone, Copy)]
struct Namespace {
    full: &'static str,
    label: &'static str,
    other: &'static str,
}

static NAMESPACES: [Namespace; 10] = [
    Namespace {
        full: "http://data.example.org/library/2026/catalogue/index.ttl#",
        label: "here",
        other: "#",
    },
    Namespace {
        full: "http://data.example.org/library/2026/catalogue/",
        label: "item",
        other: "",
    },
    Namespace {
        full: "http://data.example.org/library/people/",
        label: "person",
        other: "../../people/",
    },
    Namespace {
        full: "http://data.example.org/library/2026/places/",
        label: "place",
        other: "../places/",
    },
    Namespace {
        full: "http://www.w3.org/1999/02/22-rdf-syntax-ns#",
        label: "rdf",
        other: "HTTP://www.w3.org/1999/02/22-rdf-syntax-ns#",
    },
    Namespace {
        full: "http://www.w3.org/2000/01/rdf-schema#",
        label: "rdfs",
        other: "http://www.w3.org/2000/./01/rdf-schema#",
    },
    Namespace {
        full: "http://purl.org/dc/terms/",
        label: "dct",
        other: "http://purl.org/dc/elements/../terms/",
    },
    Namespace {
        full: "http://xmlns.com/foaf/0.1/",
        label: "foaf",
        other: "http://xmlns.com/foaf/0%2E1/",
    },
    Namespace {
        full: "https://schema.org/",
        label: "schema",
        other: "https://schema.org/./",
    },
    Namespace {
        full: "http://www.wikidata.org/entity/statement/",
        label: "wds",
        other: "http://www.wikidata.org/entity/statemen%74/",
    },
];

// Writes the local name of an item, which is beyond ASCII once in ten times.
fn put_local(text: &mut String, item: u64, offset: u64) -> Result<(), AllocError> {
    let number = item.wrapping_add(offset);
    if item % 10 == 3 {
        put_wide_name(text, number)
    } else {
        put_name(text, number)
    }
}

// The table of the prefixes.
fn prefixes(alloc: Global) -> Result<Prefixes> {
    let mut table = Prefixes::new(alloc);
    for namespace in &NAMESPACES {
        let iri = Iri::new(namespace.full).ok().context("no IRI")?;
        table.insert(namespace.label, iri)?;
    }
    Ok(table)
}

// The namespace of an item.
fn namespace_of(item: u64) -> Namespace {
    chosen(&NAMESPACES, item / 10)
}

// The IRI of an item by the first of three ways: in full.
fn parsed(alloc: Global, text: &mut String, item: u64, offset: u64) -> Result<IriBuf> {
    text.push_str(namespace_of(item).full)?;
    put_local(text, item, offset)?;
    let iri = Iri::new(text.as_str()).ok().context("no IRI")?;
    Ok(iri.to_owned(alloc)?)
}

// By the second: by a prefix.
fn expanded(
    alloc: Global,
    text: &mut String,
    item: u64,
    offset: u64,
    table: &Prefixes,
) -> Result<IriBuf> {
    text.push_str(namespace_of(item).label)?;
    text.push_str(":")?;
    put_local(text, item, offset)?;
    Ok(table.expand(alloc, text.as_str())?)
}

// By the third: resolved against the base.
fn resolved(
    alloc: Global,
    text: &mut String,
    item: u64,
    offset: u64,
    base: Iri<'_>,
) -> Result<IriBuf> {
    text.push_str(namespace_of(item).other)?;
    put_local(text, item, offset)?;
    let reference = IriRef::new(text.as_str()).ok().context("no reference")?;
    Ok(reference.resolved(alloc, base)?)
}

// When the IRI was seen first.
fn first_seen(seen: &mut HashMap<IriBuf, u64>, iri: IriBuf, now: u64) -> Result<u64, AllocError> {
    Ok(*seen.entry(iri)?.or_insert(now))
}

/// Reads `count` items, three times each.
pub fn run(alloc: Global, count: u64, numbers: &mut Numbers, digest: &mut Digest) -> Result<()> {
    let table = prefixes(alloc)?;
    let base = Iri::new(BASE).ok().context("no base")?;
    let offset = numbers.below(65_536);
    let mut seen = HashMap::new(alloc);
    let mut text = String::new(alloc);
    for way in 0..3u8 {
        for item in 0..count {
            text.clear();
            let iri = match way {
                0 => parsed(alloc, &mut text, item, offset)?,
                1 => expanded(alloc, &mut text, item, offset, &table)?,
                _ => resolved(alloc, &mut text, item, offset, base)?,
            };
            digest.text(iri.as_str());
            digest.number(first_seen(&mut seen, iri, item)?);
        }
    }
    Ok(())
}
