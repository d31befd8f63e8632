//! Lists of components and of references that differ early: they are sorted by their order, and
//! references are looked up in a set.
use crate::digest::Digest;
use crate::digits::{put_letters, put_numeral};
use crate::made::Numbers;
use anyhow::{Context, Result, ensure};
use iref::chars::UriChars;
use iref::rules::{BorrowedText, Rule};
use iref::uri::{Authority, Host, Segment, Uri};
use std::alloc::{AllocError, Global};
use std::collections::HashSet;

// What the texts of a list are: hosts, segments of letters or of digits, authorities or references.
#[derive(Clone, Copy)]
enum Kind {
    Hosts,
    Words,
    Numerals,
    Authorities,
    References,
}

// The lists of a round, and how many texts each has.
static LISTS: [(Kind, u64); 5] = [
    (Kind::Hosts, 3000),
    (Kind::Words, 2500),
    (Kind::Numerals, 3000),
    (Kind::Authorities, 1000),
    (Kind::References, 600),
];

// Appends letters, this many or three more. One text in four is one of 64 that begin with an `m`, which
// half of them escape.
fn put_part(text: &mut String, number: u64, count: u64) -> Result<(), AllocError> {
    let rest = number / 4096;
    match number % 8 {
        0 => {
            text.push_str("%6D")?;
            put_letters(text, rest % 64, count)
        }
        1 => {
            text.push_str("m")?;
            put_letters(text, rest % 64, count)
        }
        2 | 3 => put_letters(text, rest, count.wrapping_add(3)),
        _ => put_letters(text, rest, count),
    }
}

// Appends an authority. One in four has a user info, and one in four a port.
fn put_authority(text: &mut String, number: u64) -> Result<(), AllocError> {
    match number / 8 % 8 {
        0 => text.push_str("reader@")?,
        1 => text.push_str("%72eader:key@")?,
        _ => {}
    }
    put_part(text, number, 5)?;
    text.push_str(match number / 64 % 8 {
        0 => ".com:8080",
        1 => ".org:443",
        _ => ".com",
    })
}

// Appends a reference on one of 1,024 hosts: to a page, in six spellings, or to its directory, in two.
fn put_reference(text: &mut String, number: u64) -> Result<(), AllocError> {
    let site = (number / 64 % 1024).wrapping_mul(0x9e37_79b9_7f4a_7c15);
    text.push_str(if number % 2 == 0 {
        "HTTPS://"
    } else {
        "https://"
    })?;
    put_letters(text, site, 6)?;
    text.push_str(match number / 2 % 4 {
        0 => ".com/a/./b/index.html",
        1 => ".com/a/%62/index.html",
        2 => ".com/a/b/",
        _ => ".com/a/b/index.html",
    })
}

// A list of this many texts, in no order.
fn texts_of(alloc: Global, kind: Kind, count: u64, numbers: &mut Numbers) -> Result<Vec<String>> {
    let mut texts = Vec::new(alloc);
    for _text in 0..count {
        let mut text = String::new(alloc);
        let number = numbers.next();
        match kind {
            Kind::Hosts => {
                put_part(&mut text, number, 4)?;
                text.push_str(".com")?;
            }
            Kind::Words => put_part(&mut text, number, 8)?,
            Kind::Numerals => put_numeral(&mut text, number / 8, number % 8 + 1)?,
            Kind::Authorities => put_authority(&mut text, number)?,
            Kind::References => put_reference(&mut text, number)?,
        }
        texts.push(text).map_err(AllocError::from)?;
    }
    Ok(texts)
}

// The components that the texts are.
fn read<'a, R: Rule>(
    alloc: Global,
    texts: &'a [String],
) -> Result<Vec<BorrowedText<'a, R, UriChars>>> {
    let mut list = Vec::new(alloc);
    for text in texts {
        let text = text.as_str();
        ensure!(R::accepts::<UriChars>(text), "no component");
        list.push(BorrowedText::new_unchecked(text))
            .map_err(AllocError::from)?;
    }
    Ok(list)
}

// Sorts components, and adds each with whether it is equal to the one before it.
fn sort<R: Rule>(mut list: Vec<BorrowedText<'_, R, UriChars>>, digest: &mut Digest) -> Result<()> {
    list.sort()?;
    let mut last = None;
    for text in &list {
        digest.text(text.as_str());
        digest.number(u64::from(last == Some(*text)));
        last = Some(*text);
    }
    Ok(())
}

// Sorts references, and adds each with whether it is in a set of the first half of the list.
fn sort_references(alloc: Global, texts: &[String], digest: &mut Digest) -> Result<()> {
    let mut list = Vec::new(alloc);
    let mut seen = HashSet::new(alloc);
    for (place, text) in texts.iter().enumerate() {
        let uri = Uri::new(text.as_str()).ok().context("no URI")?;
        list.push(uri).map_err(AllocError::from)?;
        if place < texts.len() / 2 {
            let _is_new = seen.insert(uri).map_err(AllocError::from)?;
        }
    }
    list.sort()?;
    for uri in &list {
        digest.text(uri.as_str());
        digest.number(u64::from(seen.contains(uri)));
    }
    Ok(())
}

// Sorts a list of texts of a kind.
fn sort_texts(alloc: Global, kind: Kind, texts: &[String], digest: &mut Digest) -> Result<()> {
    match kind {
        Kind::Hosts => {
            let hosts: Vec<Host<'_>> = read(alloc, texts)?;
            sort(hosts, digest)
        }
        Kind::Words | Kind::Numerals => {
            let segments: Vec<Segment<'_>> = read(alloc, texts)?;
            sort(segments, digest)
        }
        Kind::Authorities => {
            let authorities: Vec<Authority<'_>> = read(alloc, texts)?;
            sort(authorities, digest)
        }
        Kind::References => sort_references(alloc, texts, digest),
    }
}

/// Sorts a list of each kind in each of `count` rounds.
pub fn run(alloc: Global, count: u64, numbers: &mut Numbers, digest: &mut Digest) -> Result<()> {
    for _round in 0..count {
        for (kind, len) in &LISTS {
            let texts = texts_of(alloc, *kind, *len, numbers)?;
            sort_texts(alloc, *kind, texts.as_slice(), digest)?;
        }
    }
    Ok(())
}
