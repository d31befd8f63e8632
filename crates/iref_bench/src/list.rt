//! A list of URLs, sorted and made unique by their keys: owned, and borrowed.
use crate::digest::Digest;
use crate::made::Numbers;
use crate::names::put_path;
use anyhow::{Context, Result};
use iref::uri::{Uri, UriBuf};
use std::alloc::{AllocError, Global};

// Writes a URL. Three in eight are another spelling of one that is likely in the list, and some are
// in it twice.
fn put_url(text: &mut String, number: u64) -> Result<(), AllocError> {
    let (before, after) = match number / 262_144 % 8 {
        0 => ("HTTPS://www.example.com/articles/2026/11/", ".html"),
        1 => ("https://www.example.com/articles/./2026/11/", ".html"),
        2 => ("https://www.example.com/articles/2026/1%31/", ".html"),
        3 => ("https://www.example.com/articles/2026/11/", ".html?page=2"),
        4 => ("https://images.example.com/2026/11/", ".png"),
        _ => ("https://www.example.com/articles/2026/11/", ".html"),
    };
    text.push_str(before)?;
    put_path(text, number % 32_768)?;
    text.push_str(after)
}

/// A list of this many URLs, in no order.
pub fn texts(alloc: Global, count: u64, numbers: &mut Numbers) -> Result<Vec<String>> {
    let mut texts = Vec::new(alloc);
    for _url in 0..count {
        let mut text = String::new(alloc);
        put_url(&mut text, numbers.next())?;
        texts.push(text).map_err(AllocError::from)?;
    }
    Ok(texts)
}

/// The owned URLs of the texts.
pub fn owned(alloc: Global, texts: Vec<String>) -> Result<Vec<UriBuf>> {
    let mut uris = Vec::new(alloc);
    for text in texts {
        let uri = UriBuf::new(text).ok().context("no URI")?;
        uris.push(uri).map_err(AllocError::from)?;
    }
    Ok(uris)
}

// Sorts owned URLs, and adds each that differs from the one before it.
fn sort_owned(mut uris: Vec<UriBuf>, digest: &mut Digest) -> Result<()> {
    uris.sort()?;
    let mut last: Option<&UriBuf> = None;
    for uri in &uris {
        if last != Some(uri) {
            digest.text(uri.as_str());
        }
        last = Some(uri);
    }
    Ok(())
}

// The same of borrowed URLs.
fn sort_borrowed(alloc: Global, texts: &[String], digest: &mut Digest) -> Result<()> {
    let mut uris = Vec::new(alloc);
    for text in texts {
        let uri = Uri::new(text.as_str()).ok().context("no URI")?;
        uris.push(uri).map_err(AllocError::from)?;
    }
    uris.sort()?;
    let mut last = None;
    for uri in &uris {
        if last != Some(*uri) {
            digest.text(uri.as_str());
        }
        last = Some(*uri);
    }
    Ok(())
}

/// Sorts `count` owned URLs, and as many borrowed ones.
pub fn run(alloc: Global, count: u64, numbers: &mut Numbers, digest: &mut Digest) -> Result<()> {
    let uris = owned(alloc, texts(alloc, count, numbers)?)?;
    sort_owned(uris, digest)?;
    let texts = texts(alloc, count, numbers)?;
    sort_borrowed(alloc, texts.as_slice(), digest)
}
