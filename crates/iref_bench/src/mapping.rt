//! Links of an encyclopedia beyond ASCII, turned into URIs.
use crate::digest::Digest;
use crate::made::Numbers;
use crate::names::put_wide_name;
use anyhow::{Context, Result};
use iref::iri::{Iri, IriBuf, IriRef};
use std::alloc::{AllocError, Global};

// Writes an IRI.
fn put_iri(text: &mut String, number: u64) -> Result<(), AllocError> {
    let site = match number % 3 {
        0 => "https://ja.wikipedia.org/wiki/",
        1 => "https://ru.wikipedia.org/wiki/",
        _ => "https://hi.wikipedia.org/wiki/",
    };
    text.push_str(site)?;
    put_wide_name(text, number)
}

// The URI of a borrowed IRI.
fn mapped(alloc: Global, text: &str, digest: &mut Digest) -> Result<()> {
    let iri = Iri::new(text).ok().context("no IRI")?;
    digest.text(iri.to_uri(alloc)?.as_str());
    Ok(())
}

// The URI of an owned IRI.
fn turned(text: String, digest: &mut Digest) -> Result<()> {
    let iri = IriBuf::new(text).ok().context("no IRI")?;
    let Ok(uri) = iri.into_uri() else {
        return Err(AllocError.into());
    };
    digest.text(uri.as_str());
    Ok(())
}

// The reference of a borrowed reference.
fn mapped_reference(alloc: Global, text: &str, digest: &mut Digest) -> Result<()> {
    let link = IriRef::new(text).ok().context("no reference")?;
    digest.text(link.to_uri_ref(alloc)?.as_str());
    Ok(())
}

/// Turns `count` IRIs, and as many references, into those of URIs.
pub fn run(alloc: Global, count: u64, numbers: &mut Numbers, digest: &mut Digest) -> Result<()> {
    let offset = numbers.below(65_536);
    let mut link = String::new(alloc);
    for item in 0..count {
        let number = item.wrapping_add(offset);
        let mut text = String::new(alloc);
        put_iri(&mut text, number)?;
        if item % 2 == 0 {
            mapped(alloc, text.as_str(), digest)?;
        } else {
            turned(text, digest)?;
        }
        link.clear();
        link.push_str("../wiki/")?;
        put_wide_name(&mut link, number)?;
        mapped_reference(alloc, link.as_str(), digest)?;
    }
    Ok(())
}
