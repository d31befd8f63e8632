//! The lines that the examples answer, and those that `iref` answers by one call:
//!
//! |Line|Answer|
//! |---|---|
//! |`put<TAB>URI<TAB>value`|`ok`; the cache keeps the value|
//! |`get<TAB>URI`|`=` and the value of an equal URI, or `-`|
//! |`relink<TAB>page<TAB>link`|`ok<TAB>` and the link relative to its page|
//! |`prefix<TAB>label<TAB>IRI`|`ok`, or `error: ` and why there is no such entry|
//! |`shorten<TAB>IRI`|the IRI by the longest prefix, or as it stands|
//! |`expand<TAB>label:rest`|the IRI, or `error: ` and why there is none|
//! |`check<TAB>text`|`ok`, or `error ` and the component that is wrong|
//! |`canonical<TAB>reference`|`ok<TAB>` and the canonical text|
//! |`key<TAB>reference`|`ok<TAB>` and the digits of the sort key|
//! |`fault<TAB>reference`|`ok`, or `error<TAB>` and where it is wrong, in bytes from 0|
//! |`relativized<TAB>target<TAB>base`|`ok<TAB>=` and the shortest reference, or `ok<TAB>-`|
//!
//! A text outside its rule is answered `error invalid`, of `prefix` and `shorten` `error: not an
//! IRI`, and another number of fields `error command`. So is a line that is not UTF-8 answered
//! `error invalid`, but one of `fault`: `fault<TAB>a` and the byte 255 by `error<TAB>not UTF-8 at
//! byte 1`.

ghost use Rattle.std.specs.{Prelude.{◌≡◌, OnErr}, Option.{option_copied}};
ghost use Rattle.iref_tool.specs.Examples.{HaveSame, is_of_examples, is_one_field};

use iref::Memory;
use iref::compact::{ExpandFault, PrefixFault, Prefixes};
use iref::iri::{Iri, IriRef};
use iref::uri::Uri;
use iref_examples::cache::Cache;
use iref_examples::context::shortened;
use iref_examples::mirror::relinked;
use iref_examples::validator::checked;
use iref_parse::cut::cut_bytes;
use std::alloc::Global;
use std::hash::RandomState;
use std::str;

/// What lasts from line to line.
#[derive(Drop)]
pub struct Tables {
    cache: Cache<String>,
    buffer: String,
    context: Prefixes,
}

impl Tables {
    /// No entries, and a seed for hashes.
    pub fn new(alloc: Global, seed: RandomState) -> Self {
        Tables {
            cache: Cache::new(alloc, seed),
            buffer: String::new(alloc),
            context: Prefixes::new(alloc),
        }
    }
}

fn owned(alloc: Global, text: &str) -> Result<String, Memory> {
    Ok(String::from_str(alloc, text)?)
}

fn put(alloc: Global, cache: &mut Cache<String>, uri: &str, value: &str) -> Result<String, Memory>
    ensures { OnErr result (cache.new ≡ cache.old) }
{
    let Ok(uri) = Uri::new(uri) else {
        return owned(alloc, "error invalid");
    };
    let done = owned(alloc, "ok")?;
    cache.put(alloc, uri, owned(alloc, value)?)?;
    Ok(done)
}

fn get(alloc: Global, tables: &mut Tables, uri: &str) -> Result<String, Memory>
    ensures { HaveSame tables.old tables.new }
{
    let Ok(uri) = Uri::new(uri) else {
        return owned(alloc, "error invalid");
    };
    match tables.cache.get(uri, &mut tables.buffer)? {
        Some(value) => Ok(format!(in alloc; "={value}")?),
        None => owned(alloc, "-"),
    }
}

fn relink(alloc: Global, page: &str, link: &str) -> Result<String, Memory> {
    match relinked(alloc, page, link)? {
        Some(link) => Ok(format!(in alloc; "ok\t{link}")?),
        None => owned(alloc, "error invalid"),
    }
}

fn prefix(alloc: Global, context: &mut Prefixes, label: &str, iri: &str) -> Result<String, Memory>
    ensures { OnErr result (context.new ≡ context.old) }
{
    let Ok(iri) = Iri::new(iri) else {
        return owned(alloc, "error: not an IRI");
    };
    let done = owned(alloc, "ok")?;
    match context.insert(label, iri) {
        Ok(()) => Ok(done),
        Err(PrefixFault::Memory) => Err(Memory),
        Err(PrefixFault::BadLabel) => Ok(format!(in alloc; "error: {}", context.labels())?),
        Err(error) => Ok(format!(in alloc; "error: {error}")?),
    }
}

fn shorten(alloc: Global, context: &Prefixes, iri: &str) -> Result<String, Memory> {
    let Ok(iri) = Iri::new(iri) else {
        return owned(alloc, "error: not an IRI");
    };
    match shortened(alloc, context, iri)? {
        Some(short) => Ok(short),
        None => owned(alloc, iri.as_str()),
    }
}

fn expand(alloc: Global, context: &Prefixes, short: &str) -> Result<String, Memory> {
    match context.expand(alloc, short) {
        Ok(iri) => Ok(iri.into_string()),
        Err(ExpandFault::Memory) => Err(Memory),
        Err(error) => Ok(format!(in alloc; "error: {error}")?),
    }
}

fn check(alloc: Global, reference: &str) -> Result<String, Memory> {
    match checked(reference) {
        Ok(()) => owned(alloc, "ok"),
        Err(component) => Ok(format!(in alloc; "error {component}")?),
    }
}

fn canonical(alloc: Global, reference: &str) -> Result<String, Memory> {
    let Ok(reference) = IriRef::new(reference) else {
        return owned(alloc, "error invalid");
    };
    let canonical = reference.canonical(alloc)?;
    Ok(format!(in alloc; "ok\t{canonical}")?)
}

fn key(alloc: Global, reference: &str) -> Result<String, Memory> {
    let Ok(reference) = IriRef::new(reference) else {
        return owned(alloc, "error invalid");
    };
    let key = reference.sort_key(alloc)?;
    let digits = hex::encode(alloc, key.as_bytes())?;
    Ok(format!(in alloc; "ok\t{digits}")?)
}

fn relativized(alloc: Global, target: &str, base: &str) -> Result<String, Memory> {
    let (Ok(target), Ok(base)) = (Iri::new(target), Iri::new(base)) else {
        return owned(alloc, "error invalid");
    };
    match target.relativized(alloc, base)? {
        Some(reference) => Ok(format!(in alloc; "ok\t={reference}")?),
        None => owned(alloc, "ok\t-"),
    }
}

fn fault(alloc: Global, reference: &[u8]) -> Result<String, Memory> {
    match IriRef::fault_of_bytes(reference) {
        Some(fault) => Ok(format!(in alloc; "error\t{fault}")?),
        None => owned(alloc, "ok"),
    }
}

// The answer to a line of UTF-8. A verb alone is taken as one with an empty field, but for `get`.
fn answer_text(alloc: Global, tables: &mut Tables, line: &str) -> Result<String, Memory>
    ensures { OnErr result (HaveSame tables.old tables.new) }
{
    let (verb, rest) = line.split_once('\t').unwrap_or((line, ""));
    match (verb, rest.split_once('\t')) {
        ("put", Some((uri, value))) => put(alloc, &mut tables.cache, uri, value),
        ("get", None) if verb.len() < line.len() => get(alloc, tables, rest),
        ("relink", Some((page, link))) => relink(alloc, page, link),
        ("relativized", Some((target, base))) => relativized(alloc, target, base),
        ("prefix", Some((label, iri))) => prefix(alloc, &mut tables.context, label, iri),
        ("shorten", None) => shorten(alloc, &tables.context, rest),
        ("expand", None) => expand(alloc, &tables.context, rest),
        ("check", _) => check(alloc, rest),
        ("canonical", _) => canonical(alloc, rest),
        ("key", _) => key(alloc, rest),
        ("fault", _) => fault(alloc, rest.as_bytes()),
        _ => owned(alloc, "error command"),
    }
}

// The verbs of the examples, but `expand`.
const VERBS: [&[u8]; 10] = [
    b"put",
    b"get",
    b"relink",
    b"relativized",
    b"prefix",
    b"shorten",
    b"check",
    b"canonical",
    b"key",
    b"fault",
];

// Whether the fields behind a verb are one.
fn is_one_field(fields: Option<&[u8]>) -> bool
    ensures { result ≡ is_one_field (option_copied fields.entry) }
{
    match fields {
        Some(fields) => !fields.contains(&b'\t'),
        None => false,
    }
}

/// Whether the line has a verb of the examples: `expand` has it with one field, and with more that
/// of `iref_cli`.
#[tactic(auto, unfolding(crate::specs::Examples::is_of_examples))]
pub fn is_of_examples(line: &[u8]) -> bool
    ensures { result ≡ is_of_examples line.now }
{
    let (verb, fields) = cut_bytes(line, b'\t');
    VERBS.contains(&verb) || (verb == b"expand".as_slice() && is_one_field(fields))
}

/// The answer to a line with a verb of the examples. Out of memory, it leaves the cache and the
/// context as they were.
pub fn answer(alloc: Global, tables: &mut Tables, line: &[u8]) -> Result<String, Memory>
    ensures { OnErr result (HaveSame tables.old tables.new) }
{
    match (str::from_utf8(line), line.strip_prefix(b"fault\t")) {
        (Ok(text), _) => answer_text(alloc, tables, text),
        (Err(_), Some(reference)) => fault(alloc, reference),
        (Err(_), None) => owned(alloc, "error invalid"),
    }
}
