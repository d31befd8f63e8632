//! Texts of prefix tables: those that are joined, and what follows a beginning.
ghost use Rattle.std.specs.{Prelude.{◌≡◌, ◌++◌, length, drop, true, IfOk, IfErr, Ok}, String.{string_bytes}};
ghost use Rattle.iref_grammar.specs.Texts.{begins_with};
ghost use Rattle.iref.specs.{PrefixTable.{if_iri}, Prefixes.{RefusesExpand}};
ghost use Rattle.iref_reference.specs.References.{reference_buf_text};

use super::ExpandFault;
use crate::iri::IriBuf;
use iref_splice::Memory;
use std::alloc::{AllocError, Global};

// What follows this beginning of the text.
pub(super) fn after_front<'a>(text: &'a str, front: &str) -> &'a str
    requires { begins_with front.now text.now ≡ true }
    ensures { result.now ≡ drop (length front.now) text.now }
{
    text.split_at(front.len()).1
}

// The texts one after the other.
pub(super) fn joined(alloc: Global, front: &str, mark: &str, back: &str) -> Result<String, Memory>
    ensures { IfOk result (λ text.
        string_bytes text ≡ front.now ++ mark.now ++ back.now) }
{
    let len = front.len().checked_add(mark.len()).ok_or(AllocError)?;
    let len = len.checked_add(back.len()).ok_or(AllocError)?;
    let mut text = String::with_capacity(alloc, len)?;
    text.push_str(front)?;
    text.push_str(mark)?;
    text.push_str(back)?;
    Ok(text)
}

// The IRI of a text.
#[tactic(auto, using(crate::proofs::PrefixTableLemmas::iris))]
pub(super) fn iri_of(text: String) -> Result<IriBuf, ExpandFault>
    ensures ok { IfOk result (λ iri. if_iri (string_bytes text) ≡ Ok (reference_buf_text iri)) }
    ensures err { IfErr result (RefusesExpand (if_iri (string_bytes text))) }
{
    match IriBuf::new(text) {
        Ok(iri) => Ok(iri),
        Err(_) => Err(ExpandFault::NotAnIri),
    }
}
