//! A mirror of a site: the links of each page are resolved, compared, made relative and edited.
use crate::digest::Digest;
use crate::made::Numbers;
use crate::names::{put_name, put_path};
use anyhow::{Context, Result};
use iref::uri::{Edit, Path, Query, Segment, Uri, UriBuf, UriRef, apply_all_uri};
use std::alloc::{AllocError, Global};
use std::collections::HashMap;

// Writes the URI of a page.
fn put_page(text: &mut String, page: u64, offset: u64) -> Result<(), AllocError> {
    text.push_str("https://www.example.com/archive/")?;
    put_path(text, page.wrapping_add(offset))?;
    text.push_str("/index.html")
}

// Writes a link. One in eight has a segment with an escape.
fn put_link(text: &mut String, kind: u64, number: u64) -> Result<(), AllocError> {
    let (before, after) = match kind % 8 {
        0 => ("/archive/", ".html"),
        1 => ("../", ".html?page=2&order=newest"),
        2 => ("#", ""),
        3 => ("//cdn.example.net/assets/", ".js"),
        4 => (
            "https://www.example.com/archive/",
            "?id=1234&session=abcdef#top",
        ),
        5 => ("http://www.example.org/", "/"),
        6 => ("notes%20and%20", "/caf%C3%A9.html"),
        _ => ("./images/../../", "/./large.png"),
    };
    text.push_str(before)?;
    if kind % 8 == 2 {
        put_name(text, number)?;
    } else {
        put_path(text, number)?;
    }
    text.push_str(after)
}

// What comes into links.
#[derive(Clone, Copy)]
struct Pieces<'a> {
    query: Query<'a>,
    segment: Segment<'a>,
    path: Path<'a>,
}

// Edits what a link leads to.
fn edit(alloc: Global, target: &mut UriBuf, kind: u64, pieces: Pieces<'_>) -> Result<()> {
    match kind / 8 % 4 {
        0 => {
            target.set_fragment(None)?;
            target.set_query(Some(pieces.query))?;
        }
        1 => {
            let mut path = target.path_mut();
            path.pop()?;
            path.push(pieces.segment)?;
        }
        2 => {
            let normal = target.path().normalized(alloc)?;
            target.set_path(normal.as_path())?;
        }
        _ => {
            let edits = [
                Edit::SetFragment(None),
                Edit::JoinPath(pieces.path),
                Edit::SetPortU32(Some(8080)),
            ];
            let _refused = apply_all_uri(target, &edits);
        }
    }
    Ok(())
}

// When the URI was seen first.
fn first_seen(seen: &mut HashMap<UriBuf, u64>, uri: UriBuf, now: u64) -> Result<u64, AllocError> {
    Ok(*seen.entry(uri)?.or_insert(now))
}

// Follows a link of a page, and returns what it leads to.
fn follow(
    alloc: Global,
    link: &str,
    page: Uri<'_>,
    last: &UriBuf,
    digest: &mut Digest,
) -> Result<UriBuf> {
    let link = UriRef::new(link).ok().context("no link")?;
    let target = link.resolved(alloc, page)?;
    digest.number(u64::from(target == *last));
    let relative = target.as_uri_ref().relative_to(alloc, page.as_uri_ref())?;
    digest.text(target.as_str());
    digest.text(relative.as_str());
    Ok(target)
}

/// Follows 100 links of each of `count` pages.
pub fn run(alloc: Global, count: u64, numbers: &mut Numbers, digest: &mut Digest) -> Result<()> {
    let offset = numbers.below(65_536);
    let pieces = Pieces {
        query: Query::new("from=mirror").ok().context("no query")?,
        segment: Segment::new("copy.html").ok().context("no segment")?,
        path: Path::new("../local/files").ok().context("no path")?,
    };
    let mut text = String::new(alloc);
    let mut link = String::new(alloc);
    for page in 0..count {
        let mut seen = HashMap::new(alloc);
        text.clear();
        put_page(&mut text, page, offset)?;
        let base = Uri::new(text.as_str()).ok().context("no page")?;
        let mut last = base.to_owned(alloc)?;
        for number in 0..100u64 {
            link.clear();
            let kind = numbers.next();
            put_link(&mut link, kind, numbers.next())?;
            let target = follow(alloc, link.as_str(), base, &last, digest)?;
            edit(alloc, &mut last, kind, pieces)?;
            digest.text(last.as_str());
            digest.number(first_seen(&mut seen, last, number)?);
            last = target;
        }
    }
    Ok(())
}
