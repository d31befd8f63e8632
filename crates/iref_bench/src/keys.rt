//! The URLs of the job `list`, sorted and made unique by sort keys, each made once.
use crate::digest::Digest;
use crate::list::{owned, texts};
use crate::made::Numbers;
use anyhow::{Context, Result};
use iref::SortKey;
use iref::uri::{Uri, UriBuf};
use std::alloc::{AllocError, Global};

// A URL with its sort key. URLs that are equal stand in the order of their places in the list.
#[derive(PartialEq, Eq, PartialOrd, Ord, Drop)]
struct Keyed<'a> {
    key: SortKey,
    place: usize,
    text: &'a str,
}

// Sorts the URLs, and adds each whose key differs from that of the one before it.
fn sort(mut uris: Vec<Keyed<'_>>, digest: &mut Digest) -> Result<()> {
    uris.sort()?;
    if let Some(first) = uris.first() {
        digest.text(first.text);
    }
    for (before, uri) in uris.iter().zip(uris.iter().skip(1)) {
        if before.key != uri.key {
            digest.text(uri.text);
        }
    }
    Ok(())
}

// Owned URLs with their keys.
fn of_owned(alloc: Global, uris: &[UriBuf]) -> Result<Vec<Keyed<'_>>> {
    let mut keyed = Vec::new(alloc);
    for (place, uri) in uris.iter().enumerate() {
        let key = uri.as_uri().sort_key(alloc)?;
        let text = uri.as_str();
        keyed
            .push(Keyed { key, place, text })
            .map_err(AllocError::from)?;
    }
    Ok(keyed)
}

// The URLs of these texts with their keys.
fn of_borrowed(alloc: Global, texts: &[String]) -> Result<Vec<Keyed<'_>>> {
    let mut keyed = Vec::new(alloc);
    for (place, text) in texts.iter().enumerate() {
        let text = text.as_str();
        let key = Uri::new(text).ok().context("no URI")?.sort_key(alloc)?;
        keyed
            .push(Keyed { key, place, text })
            .map_err(AllocError::from)?;
    }
    Ok(keyed)
}

/// Sorts the owned URLs of the job `list`, and its borrowed ones.
pub fn run(alloc: Global, count: u64, numbers: &mut Numbers, digest: &mut Digest) -> Result<()> {
    let uris = owned(alloc, texts(alloc, count, numbers)?)?;
    sort(of_owned(alloc, uris.as_slice())?, digest)?;
    let texts = texts(alloc, count, numbers)?;
    sort(of_borrowed(alloc, texts.as_slice())?, digest)
}
