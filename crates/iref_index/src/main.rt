//! An index of URIs in a table of SQLite: `iref_index FILE` makes 3,072 URIs, puts them into a
//! table of the file, each under its sort key, and closes the file. It opens the file again, and
//! answers each line, a URI: how many URIs of the table are below it, the first and the last of them.
//! One range of the keys finds them, and is compared with what a scan of all URIs by `suffix` finds.
//! Only LF ends a line; one that is no URI, or is not UTF-8, is answered `error invalid`.
//! A file that is no database, or that has another table of the name, is refused and not written. After
//! a run that was killed at any of its writes the next one answers.
#![tactic(auto)]

mod made;
mod table;

use anyhow::{Context, Result, ensure};
use iref::Memory;
use iref::uri::{Uri, UriBuf};
use std::alloc::Global;
use std::env;
use std::io::BufRead;
use table::Table;

// The URIs that have a suffix after this one, in their order, one for each key.
fn scanned<'a>(alloc: Global, uris: &'a [UriBuf], above: Uri<'_>) -> Result<Vec<Uri<'a>>, Memory> {
    let mut found: Vec<Uri<'a>> = Vec::new(alloc);
    for uri in uris {
        if uri.suffix(alloc, above.as_uri_ref())?.is_some() {
            found.push(uri.as_uri())?;
        }
    }
    found.sort()?;
    found.dedup();
    Ok(found)
}

fn are_same(texts: &[String], uris: &[Uri<'_>]) -> bool {
    let mut same = texts.len() == uris.len();
    for (text, uri) in texts.iter().zip(uris) {
        same = same && Uri::new(text.as_str()).is_ok_and(|one| one == *uri);
    }
    same
}

// The URI that a line is, if it is one.
fn uri_of(line: &[u8]) -> Option<Uri<'_>> {
    Uri::new(str::from_utf8(line).ok()?).ok()
}

fn answer(alloc: Global, table: &mut Table, uris: &[UriBuf], line: &[u8]) -> Result<String> {
    let Some(above) = uri_of(line) else {
        return Ok(format!(in alloc; "error invalid")?);
    };
    let found = table.below(alloc, above)?;
    let scanned = scanned(alloc, uris, above)?;
    ensure!(
        are_same(found.as_slice(), scanned.as_slice()),
        "the table differs from a scan"
    );
    let ends = (found.as_slice().first(), found.as_slice().last());
    match ends {
        (Some(first), Some(last)) => Ok(format!(in alloc; "{}\t{first}\t{last}", found.len())?),
        _ => Ok(format!(in alloc; "0")?),
    }
}

fn answer_lines(rt: &HostRuntime, table: &mut Table, uris: &[UriBuf]) -> Result<()> {
    for line in rt.reader().split(rt.alloc(), b'\n') {
        let line = line?;
        let answer = answer(rt.alloc(), table, uris, line.as_slice())?;
        println!(rt; "{answer}")?;
    }
    Ok(())
}

fn main(rt: HostRuntime) -> Result<()> {
    let alloc = rt.alloc();
    let mut words = env::args(&rt)?;
    let _program = words.next();
    let path = words.next().context("no file is named")?;
    ensure!(words.next().is_none(), "more than one file is named");
    let uris = made::uris(alloc)?;
    let mut table = Table::open(&rt, path.as_str())?;
    let put = table.put_all(alloc, uris.as_slice());
    put.and(table.close(&rt, path.as_str()))
        .context(format_args!("cannot write {}", path.as_str()))?;
    let mut table = Table::open(&rt, path.as_str())?;
    let answered = answer_lines(&rt, &mut table, uris.as_slice());
    answered.and(table.close(&rt, path.as_str()))
}
