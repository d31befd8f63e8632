//! A context of prefixes, as in JSON-LD: IRIs made short, such as `schema:name` for
//! `https://schema.org/name`, and texts of a document read by terms, prefixes, `@vocab` and `@base`
//! (JSON-LD 1.1 Processing Algorithms and API, section 5.2). Keywords, as `@type`, are left to the
//! caller, who also chooses which terms serve as prefixes.
ghost use Rattle.std.specs.{Prelude.{◌≡◌, Ok, IfOk, IfErr, IfSome, option_map}, String.{string_bytes}};
ghost use Rattle.iref.specs.{PrefixTable.{compact_text, compacted, expanded}, Prefixes.{RefusesExpand}};
ghost use Rattle.iref.specs.{References.{reference_buf_text, reference_text}, Grammar.{colon}, Texts.{after}};
ghost use Rattle.iref_examples.specs.ContextTexts.{begins_with_slashes, by_colon, itself};
ghost use Rattle.iref_examples.specs.ContextTexts.{itself_or_behind, named, term_of, OrResolved, IsLocated, IsTyped};

use iref::compact::{ExpandFault, Prefixes};
use iref::iri::{Iri, IriBuf};
use iref::{IriRef, Memory};
use iref_parse::cut::cut;
use std::alloc::Global;
use std::collections::BTreeMap;

/// The IRI made short by its longest prefix, the first one given on a tie: with `schema` for
/// `https://schema.org/`, `https://schema.org/name` becomes `schema:name`. None where it begins
/// with no prefix. `Prefixes::expand` gives the IRI of what was made short, and so do `named` and
/// `located`, unless `//` follows the colon or the label is `_`. Out of memory, it returns `Memory`.
pub fn shortened(alloc: Global, context: &Prefixes, iri: Iri<'_>) -> Result<Option<String>, Memory>
    ensures longest { IfOk result (λ short. option_map string_bytes short
        ≡ option_map compact_text (compacted (reference_text iri.entry) context.now.entries)) }
    ensures expands { IfOk result (λ short. IfSome short (λ text. expanded (string_bytes text)
        context.now.entries ≡ Ok (reference_text iri.entry))) }
{
    let Some(compact) = context.compact(iri) else {
        return Ok(None);
    };
    Ok(Some(compact.to_text(alloc)?))
}

// The text, if it is an IRI.
#[tactic(auto, using(crate::proofs::ContextLemmas::itselfs))]
fn itself(alloc: Global, text: &str) -> Result<Option<IriBuf>, Memory>
    ensures { IfOk result (λ iri. option_map reference_buf_text iri ≡ itself text.now) }
{
    match Iri::new(text) {
        Ok(iri) => Ok(Some(iri.to_owned(alloc)?)),
        Err(_) => Ok(None),
    }
}

// Whether what follows the first colon begins with `//`.
fn has_slashes(text: &str) -> bool
    ensures { result ≡ begins_with_slashes (after colon text.now) }
{
    match cut(text, ':').1 {
        Some(rest) => rest.as_bytes().starts_with(b"//"),
        None => false,
    }
}

// The IRI that a text with a colon stands for. A blank node, as `_:b`, is none, and `http://a` is
// no compact IRI, even where `http` is a prefix.
fn by_colon(alloc: Global, prefixes: &Prefixes, text: &str) -> Result<IriBuf, ExpandFault>
    ensures ok { IfOk result (λ iri.
        by_colon prefixes.now.entries text.now ≡ Ok (reference_buf_text iri)) }
    ensures err { IfErr result (RefusesExpand (by_colon prefixes.now.entries text.now)) }
{
    if text.as_bytes().starts_with(b"_:") {
        return Err(ExpandFault::NotAnIri);
    }
    if has_slashes(text) {
        return itself(alloc, text)?.ok_or(ExpandFault::NotAnIri);
    }
    prefixes.expand(alloc, text)
}

// The text, if it is an IRI, or else the IRI of the text behind this one.
#[tactic(auto, using(crate::proofs::ContextLemmas::itselfs))]
fn itself_or_behind(
    alloc: Global,
    front: Option<Iri<'_>>,
    text: &str,
) -> Result<Option<IriBuf>, Memory>
    ensures { IfOk result (λ iri. option_map reference_buf_text iri
        ≡ itself_or_behind (option_map reference_text front.entry) text.now) }
{
    if let Some(iri) = itself(alloc, text)? {
        return Ok(Some(iri));
    }
    let Some(front) = front else {
        return Ok(None);
    };
    let mut whole = String::from_str(alloc, front.as_str())?;
    whole.push_str(text)?;
    match IriBuf::new(whole) {
        Ok(iri) => Ok(Some(iri)),
        Err(_) => Ok(None),
    }
}

/// The terms of a context: for each its IRI, or None where the context makes it null.
pub type Terms = BTreeMap<String, Option<IriBuf>>;

/// The IRI of a property: a term's, that of a compact IRI, the text itself, or the text behind
/// `@vocab`. With the term `name` for `https://schema.org/name` it is that for `name`; with `@vocab`
/// `https://schema.org/` it is `https://schema.org/age` for `age`. None for a term that is null,
/// and where that is no IRI, as for `_:b`.
pub fn named(
    alloc: Global,
    terms: &Terms,
    prefixes: &Prefixes,
    vocabulary: Option<Iri<'_>>,
    text: &str,
) -> Result<Option<IriBuf>, Memory>
    ensures { IfOk result (λ iri. option_map reference_buf_text iri
        ≡ named (term_of terms.now text.now) prefixes.now.entries
        (option_map reference_text vocabulary.entry) text.now) }
{
    match terms.get(text) {
        Some(Some(iri)) => return Ok(Some(iri.as_iri().to_owned(alloc)?)),
        Some(None) => return Ok(None),
        None => {}
    }
    match by_colon(alloc, prefixes, text) {
        Ok(iri) => Ok(Some(iri)),
        Err(ExpandFault::NotAnIri) => Ok(None),
        Err(ExpandFault::Memory) => Err(Memory),
        Err(ExpandFault::NoColon) => itself_or_behind(alloc, vocabulary, text),
        Err(ExpandFault::UnknownLabel) => itself_or_behind(alloc, vocabulary, text),
    }
}

// The text, if it is an IRI, or else what it resolves to against the base.
#[tactic(auto, using(crate::proofs::ContextLemmas::itselfs))]
fn itself_or_resolved(alloc: Global, base: Iri<'_>, text: &str) -> Result<Option<IriBuf>, Memory>
    ensures { IfOk result (λ iri. OrResolved (itself text.now) (reference_text base.entry)
        text.now (option_map reference_buf_text iri)) }
{
    if let Some(iri) = itself(alloc, text)? {
        return Ok(Some(iri));
    }
    match IriRef::new(text) {
        Ok(reference) => Ok(Some(reference.resolved(alloc, base)?)),
        Err(_) => Ok(None),
    }
}

/// The IRI of an `@id`: that of a compact IRI, the text itself, or what it resolves to against
/// `@base`: with `http://h/a/` it is `http://h/a/b` for `b`. Terms are not looked at. None where
/// that is no IRI, as for `_:b`.
pub fn located(
    alloc: Global,
    prefixes: &Prefixes,
    base: Iri<'_>,
    text: &str,
) -> Result<Option<IriBuf>, Memory>
    ensures { IfOk result (λ iri. IsLocated (by_colon prefixes.now.entries text.now)
        (reference_text base.entry) text.now (option_map reference_buf_text iri)) }
{
    match by_colon(alloc, prefixes, text) {
        Ok(iri) => Ok(Some(iri)),
        Err(ExpandFault::NotAnIri) => Ok(None),
        Err(ExpandFault::Memory) => Err(Memory),
        Err(ExpandFault::NoColon) => itself_or_resolved(alloc, base, text),
        Err(ExpandFault::UnknownLabel) => itself_or_resolved(alloc, base, text),
    }
}

/// The IRI of a type, as a value of `@type`: with `@vocab` that of a property of this name, without
/// it that of an `@id`, unless the text is a term. With no term, and `http://h/a/` as `@base`, it is
/// `http://h/a/Person` for `Person`. None where that is no IRI.
pub fn typed(
    alloc: Global,
    terms: &Terms,
    prefixes: &Prefixes,
    vocabulary: Option<Iri<'_>>,
    base: Iri<'_>,
    text: &str,
) -> Result<Option<IriBuf>, Memory>
    ensures { IfOk result (λ iri. IsTyped (term_of terms.now text.now) prefixes.now.entries
        (option_map reference_text vocabulary.entry) (reference_text base.entry) text.now
        (option_map reference_buf_text iri)) }
{
    if vocabulary.is_some() || terms.get(text).is_some() {
        named(alloc, terms, prefixes, vocabulary, text)
    } else {
        located(alloc, prefixes, base, text)
    }
}
