//! Long and awkward references: all that a client does with a URI, and lists of edits.
use crate::digest::Digest;
use crate::made::Numbers;
use crate::names::put_name;
use anyhow::{Context, Result};
use iref::iri::Iri;
use iref::uri::{Edit, Segment, Uri, UriBuf, UriRef, apply_all_uri};
use iref_examples::chosen::chosen;
use std::alloc::{AllocError, Global};
use std::collections::HashMap;

// What a text of each shape begins with, and repeats after that.
static SHAPES: [(&str, &str); 8] = [
    (
        "data:image/png;base64,",
        "iVBORw0KGgoAAAANSUhEUgAAAAUA/AAFCAYAAACNbyblAAAAHElEQVQI12P4",
    ),
    ("http://h/", "a/b/"),
    ("http://h/", "a/x/../"),
    ("http://h/", "%E3%81%82%41"),
    ("http://h/a?", "key=value&other=%20&x=1;2+3/4?5"),
    ("http://h/", "./../a/"),
    ("http://h/a#", "section-1.2/paragraph"),
    ("urn:example:", "a:b:%C3%A9/"),
];

// Writes a text of a shape, of about 100,000 bytes.
fn put_shape(text: &mut String, shape: u64, number: u64) -> Result<(), AllocError> {
    let (before, piece) = chosen(&SHAPES, shape);
    text.push_str(before)?;
    put_name(text, number)?;
    text.push_str(if shape % 8 == 0 { "" } else { "/" })?;
    for _piece in 0..100_000 / piece.len().max(1) {
        text.push_str(piece)?;
    }
    put_name(text, number / 2)
}

// Does with a URI what a client does.
fn visit(
    alloc: Global,
    uri: Uri<'_>,
    other: Uri<'_>,
    link: UriRef<'_>,
    digest: &mut Digest,
) -> Result<()> {
    let parts = uri.parts();
    digest.number(parts.path.segment_count() as u64);
    let normal = parts.path.normalized(alloc)?;
    digest.text(normal.as_str());
    digest.number(u64::from(uri == other));
    digest.number(u64::from(uri < other));
    digest.text(link.resolved(alloc, uri)?.as_str());
    let relative = other.as_uri_ref().relative_to(alloc, uri.as_uri_ref())?;
    digest.text(relative.as_str());
    Ok(())
}

// Hashes a URI, and maps it as an IRI.
fn store(
    alloc: Global,
    text: &str,
    seen: &mut HashMap<UriBuf, u64>,
    digest: &mut Digest,
) -> Result<()> {
    let iri = Iri::new(text).ok().context("no IRI")?;
    let uri = iri.to_uri(alloc)?;
    digest.text(uri.as_str());
    let count = seen.len() as u64;
    let first = *seen.entry(uri).map_err(AllocError::from)?.or_insert(count);
    digest.number(first);
    Ok(())
}

// Does 2,000 edits before a query of 100,000 bytes.
fn edit(alloc: Global, numbers: &mut Numbers, digest: &mut Digest) -> Result<()> {
    let mut text = String::new(alloc);
    put_shape(&mut text, 4, numbers.next())?;
    let mut uri = UriBuf::new(text).ok().context("no URI")?;
    let segment = Segment::new("next").ok().context("no segment")?;
    let mut edits = Vec::new(alloc);
    for edit in 0..2000u32 {
        let edit = match edit % 4 {
            0 => Edit::Push(segment),
            1 => Edit::SetPortU32(Some(edit)),
            2 => Edit::Pop,
            _ => Edit::LazyPush(segment),
        };
        edits.push(edit).map_err(AllocError::from)?;
    }
    let _refused = apply_all_uri(&mut uri, edits.as_slice());
    digest.text(uri.as_str());
    Ok(())
}

/// Visits `count` texts of each shape, and does as many lists of edits.
pub fn run(alloc: Global, count: u64, numbers: &mut Numbers, digest: &mut Digest) -> Result<()> {
    let mut seen = HashMap::new(alloc);
    let link = UriRef::new("../x/./y?z").ok().context("no link")?;
    for _round in 0..count {
        for shape in 0..8u64 {
            let number = numbers.below(200_000);
            let mut text = String::new(alloc);
            put_shape(&mut text, shape, number)?;
            let mut other = String::new(alloc);
            put_shape(&mut other, shape, number ^ 2)?;
            let uri = Uri::new(text.as_str()).ok().context("no URI")?;
            let next = Uri::new(other.as_str()).ok().context("no URI")?;
            visit(alloc, uri, next, link, digest)?;
            store(alloc, text.as_str(), &mut seen, digest)?;
        }
        edit(alloc, numbers, digest)?;
    }
    Ok(())
}
