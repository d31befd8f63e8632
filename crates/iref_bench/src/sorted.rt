//! The URLs of the job `list`, sorted and made unique by `sorted_unique`.
use crate::digest::Digest;
use crate::list::{owned, texts};
use crate::made::Numbers;
use anyhow::{Context, Result};
use iref::uri::{Uri, UriBuf, sorted_unique};
use std::alloc::{AllocError, Global};

// Sorts the URLs, and adds each.
fn sort(alloc: Global, uris: &[Uri<'_>], digest: &mut Digest) -> Result<()> {
    for uri in &sorted_unique(alloc, uris)? {
        digest.text(uri.as_str());
    }
    Ok(())
}

// The same of owned URLs.
fn sort_owned(alloc: Global, owned: &[UriBuf], digest: &mut Digest) -> Result<()> {
    let mut uris = Vec::new(alloc);
    for uri in owned {
        uris.push(uri.as_uri()).map_err(AllocError::from)?;
    }
    sort(alloc, uris.as_slice(), digest)
}

// The same of borrowed URLs.
fn sort_borrowed(alloc: Global, texts: &[String], digest: &mut Digest) -> Result<()> {
    let mut uris = Vec::new(alloc);
    for text in texts {
        let uri = Uri::new(text.as_str()).ok().context("no URI")?;
        uris.push(uri).map_err(AllocError::from)?;
    }
    sort(alloc, uris.as_slice(), digest)
}

/// Sorts the owned URLs of the job `list`, and its borrowed ones.
pub fn run(alloc: Global, count: u64, numbers: &mut Numbers, digest: &mut Digest) -> Result<()> {
    let uris = owned(alloc, texts(alloc, count, numbers)?)?;
    sort_owned(alloc, uris.as_slice(), digest)?;
    let texts = texts(alloc, count, numbers)?;
    sort_borrowed(alloc, texts.as_slice(), digest)
}
