//! The IRIs of a JSON-LD document: `iref_jsonld BASE < DOCUMENT` reads one JSON document, whose IRI
//! is BASE, and prints a line for each name of a node, each `@type` and each `@id`: what it is, its
//! text as in JSON, and its IRI, or `none` (JSON-LD 1.1 Processing Algorithms and API, section 5.2).
//!
//! The document may have one `@context`, an object or an array of objects. What would change the
//! meaning of names and is not read is refused: a context by its IRI, one that is null or inside the
//! document, `@base` that is null, `@import`, `@propagate`, and of a term's definition all but `@id`
//! and `@type`. Refused are also aliases of keywords and terms for blank nodes. Names without an IRI
//! are dropped, as expansion does, with what they hold; `_:b` counts as one without.
#![tactic(auto)]

mod context;
mod nodes;

use anyhow::{Context as _, Result, ensure};
use context::Context;
use iref::Iri;
use serde_json::Value;
use std::{env, io};

fn main(rt: HostRuntime) -> Result<()> {
    let alloc = rt.alloc();
    let mut words = env::args(&rt)?;
    let _program = words.next();
    let base = words.next().context("no base is named")?;
    ensure!(words.next().is_none(), "more than one base is named");
    let base = Iri::new(base.as_str()).ok().context("the base is no IRI")?;
    let text = io::read_to_string(alloc, rt.reader())?;
    let document = Value::from_str(alloc, text.as_str())?;
    let context = Context::read(alloc, base, document.get("@context"))?;
    nodes::print_all(&rt, &context, &document)
}
