//! What a document's `@context` defines.
use anyhow::{Result, bail, ensure};
use iref::compact::{Labels, Prefixes};
use iref::iri::{Iri, IriBuf};
use iref::{IriRef, Memory};
use iref_examples::context::{Terms, located, named, typed};
use serde_json::{Map, Value};
use std::alloc::Global;
use std::collections::BTreeSet;

/// The terms of a document, those of them that serve as prefixes, `@vocab`, and the base.
#[derive(Drop)]
pub struct Context {
    alloc: Global,
    terms: Terms,
    prefixes: Prefixes,
    vocabulary: Option<IriBuf>,
    base: IriBuf,
}

/// Whether the text has the form of a keyword, as `@type`: `@` and letters.
pub fn is_keyword(text: &str) -> bool {
    match text.strip_prefix('@') {
        Some(rest) => !rest.is_empty() && rest.bytes().all(|b| b.is_ascii_alphabetic()),
        None => false,
    }
}

// The text that a term is defined by, if it is not null; whether the definition is a text alone.
fn definition<'a>(term: &'a str, value: &'a Value) -> Result<(Option<&'a str>, bool)> {
    let members = match value {
        Value::Null => return Ok((None, true)),
        Value::String(text) => return Ok((Some(text.as_str()), true)),
        Value::Object(members) => members,
        _ => bail!("the definition of {term:?} is no text and no object"),
    };
    for (name, value) in members {
        let known = match name.as_str() {
            "@id" => true,
            "@type" => value.as_str() != Some("@json"),
            _ => false,
        };
        ensure!(
            known,
            "{:?} in the definition of {term:?} is not read",
            name.as_str()
        );
    }
    match members.get("@id") {
        None => Ok((Some(term), false)),
        Some(Value::Null) => Ok((None, false)),
        Some(Value::String(text)) => Ok((Some(text.as_str()), false)),
        Some(_) => bail!("the `@id` of {term:?} is no text"),
    }
}

// Whether a text that defines a term is another one that is still open, or has such a prefix.
fn waits(open: &BTreeSet<&str>, term: &str, text: &str) -> bool {
    let label = text.split(':').next().unwrap_or(text);
    (text != term && open.contains(text)) || (label != term && open.contains(label))
}

// Whether a term is a prefix: it is defined by a text alone, whose IRI ends in a delimiter.
fn is_prefix(term: &str, iri: Iri<'_>) -> bool {
    !term.contains(':')
        && !term.contains('/')
        && iri.as_str().ends_with([':', '/', '?', '#', '[', ']', '@'])
}

impl Context {
    /// The context of a document with this IRI.
    pub fn read(alloc: Global, base: Iri<'_>, value: Option<&Value>) -> Result<Context> {
        let mut context = Context {
            alloc,
            terms: Terms::new(alloc),
            prefixes: Prefixes::with_labels(alloc, Labels::Any),
            vocabulary: None,
            base: base.to_owned(alloc)?,
        };
        match value {
            None => {}
            Some(Value::Object(members)) => context.add(members)?,
            Some(Value::Array(items)) => {
                for item in items {
                    let Value::Object(members) = item else {
                        bail!("an item of `@context` is no object");
                    };
                    context.add(members)?;
                }
            }
            Some(_) => bail!("`@context` is no object and no array"),
        }
        Ok(context)
    }

    /// The IRI of a property.
    pub fn property(&self, text: &str) -> Result<Option<IriBuf>, Memory> {
        named(
            self.alloc,
            &self.terms,
            &self.prefixes,
            self.vocabulary(),
            text,
        )
    }

    /// The IRI of a value of `@type`.
    pub fn type_iri(&self, text: &str) -> Result<Option<IriBuf>, Memory> {
        let (vocabulary, base) = (self.vocabulary(), self.base.as_iri());
        typed(
            self.alloc,
            &self.terms,
            &self.prefixes,
            vocabulary,
            base,
            text,
        )
    }

    /// The IRI of a value of `@id`.
    pub fn node_iri(&self, text: &str) -> Result<Option<IriBuf>, Memory> {
        located(self.alloc, &self.prefixes, self.base.as_iri(), text)
    }

    fn vocabulary(&self) -> Option<Iri<'_>> {
        Some(self.vocabulary.as_ref()?.as_iri())
    }

    // Adds the definitions of an object: `@base` and `@vocab` first, then each term behind those
    // that its definition needs.
    fn add(&mut self, members: &Map<String, Value>) -> Result<()> {
        self.set_base(members.get("@base"))?;
        self.set_vocabulary(members.get("@vocab"))?;
        let mut open = BTreeSet::new(self.alloc);
        for (name, _) in members {
            match name.as_str() {
                "@base" | "@vocab" | "@version" | "@language" | "@direction" => {}
                name if is_keyword(name) => bail!("{name:?} in `@context` is not read"),
                name => {
                    open.insert(name)?;
                }
            }
        }
        for _ in 0..members.len() {
            let before = open.len();
            self.define_ready(members, &mut open)?;
            ensure!(
                open.is_empty() || open.len() < before,
                "terms are defined by each other"
            );
        }
        Ok(())
    }

    // Defines each open term whose definition needs no other open one.
    fn define_ready<'a>(
        &mut self,
        members: &'a Map<String, Value>,
        open: &mut BTreeSet<&'a str>,
    ) -> Result<()> {
        for (name, value) in members {
            let term = name.as_str();
            if !open.contains(term) {
                continue;
            }
            let (text, alone) = definition(term, value)?;
            if text.is_some_and(|text| waits(open, term, text)) {
                continue;
            }
            self.define(term, text, alone)?;
            open.remove(term);
        }
        Ok(())
    }

    // Gives a term the IRI of the text, or makes it null.
    fn define(&mut self, term: &str, text: Option<&str>, alone: bool) -> Result<()> {
        self.terms.remove(term);
        self.prefixes.remove(term);
        let iri = match text {
            None => None,
            Some(text) => {
                ensure!(!is_keyword(text), "{term:?} is an alias of a keyword");
                let iri = self.property(text)?;
                ensure!(iri.is_some(), "the term {term:?} has no IRI");
                iri
            }
        };
        if let Some(iri) = &iri {
            if alone && is_prefix(term, iri.as_iri()) {
                self.prefixes.insert(term, iri.as_iri())?;
            }
        }
        self.terms.insert(String::from_str(self.alloc, term)?, iri)?;
        Ok(())
    }

    fn set_base(&mut self, value: Option<&Value>) -> Result<()> {
        let Some(value) = value else {
            return Ok(());
        };
        let Some(text) = value.as_str() else {
            bail!("`@base` is no text");
        };
        let Ok(reference) = IriRef::new(text) else {
            bail!("`@base` is no IRI reference");
        };
        self.base = reference.resolved(self.alloc, self.base.as_iri())?;
        Ok(())
    }

    fn set_vocabulary(&mut self, value: Option<&Value>) -> Result<()> {
        match value {
            None => {}
            Some(Value::Null) => self.vocabulary = None,
            Some(Value::String(text)) => {
                let iri = self.type_iri(text.as_str())?;
                ensure!(iri.is_some(), "`@vocab` has no IRI");
                self.vocabulary = iri;
            }
            Some(_) => bail!("`@vocab` is no text"),
        }
        Ok(())
    }
}
