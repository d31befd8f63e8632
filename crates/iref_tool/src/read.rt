//! Words, or what stands at their ends, read as texts of rules.
ghost use Rattle.std.specs.Prelude.{Some, codes};
ghost use Rattle.iref.specs.{BytePlaces.{fault_value}, Components.{text_of}, Characters.{iri_chars}};
ghost use Rattle.iref.specs.Faults.{fault_of_reference, fault_of_uri};
ghost use Rattle.iref_reference.specs.References.{reference_text};
ghost use Rattle.iref_tool.specs.Words.{ReadsAtEnd, ReadsText, RefusesText};

use crate::refusal::{Reason, Refusal};
use iref::Fault;
use iref::chars::{CharSet, IriChars};
use iref::iri::{Iri, IriRef};
use iref::rules::{BorrowedText, HeldRule};
use iref_component::faults::HasFault;
use iref_reference::borrowed::Reference;

// What is wrong with the text at the end of a word.
fn refused<'a>(
    argument: &'static str,
    kind: &'static str,
    word: &'a str,
    text: &str,
    fault: Fault,
) -> Refusal<'a>
    ensures { RefusesText argument.now kind.now word.now text.now
        (Some (fault_value fault)) result }
{
    let start = word.len().saturating_sub(text.len());
    Refusal::Word(argument, word, Reason::Text { kind, start, fault })
}

/// The text at the end of a word, as a component of the rule.
pub fn component<'a, R: HasFault, C: CharSet>(
    argument: &'static str,
    kind: &'static str,
    word: &'a str,
    text: &'a str,
) -> Result<BorrowedText<'a, R, C>, Refusal<'a>>
    ensures { ReadsAtEnd text_of (R.fault_of C.tests text.now)
        argument.now kind.now word.now text.now result }
{
    match BorrowedText::<R, C>::fault(text) {
        None => Ok(BorrowedText::new_unchecked(text)),
        Some(fault) => Err(refused(argument, kind, word, text, fault)),
    }
}

/// The text as a reference of the rule: of all references of IRIs, or of IRIs; else its fault.
pub fn in_rule<R: HeldRule + HasFault>(text: &str) -> Result<Reference<'_, R, IriChars>, Fault>
    ensures { ReadsText (R.fault_of iri_chars text.now) text.now result }
{
    match Reference::<R, IriChars>::fault(text) {
        None => Ok(Reference::new_unchecked(text)),
        Some(fault) => Err(fault),
    }
}

// The text at the end of a word, as a reference of the rule.
fn read<'a, R: HeldRule + HasFault>(
    argument: &'static str,
    kind: &'static str,
    word: &'a str,
    text: &'a str,
) -> Result<Reference<'a, R, IriChars>, Refusal<'a>>
    ensures { ReadsAtEnd reference_text (R.fault_of iri_chars text.now)
        argument.now kind.now word.now text.now result }
{
    match in_rule(text) {
        Ok(reference) => Ok(reference),
        Err(fault) => Err(refused(argument, kind, word, text, fault)),
    }
}

/// The text at the end of a word, as an IRI.
pub fn iri_at_end<'a>(
    argument: &'static str,
    word: &'a str,
    text: &'a str,
) -> Result<Iri<'a>, Refusal<'a>>
    ensures { ReadsAtEnd reference_text (fault_of_uri iri_chars text.now)
        argument.now (codes "IRI") word.now text.now result }
{
    read(argument, "IRI", word, text)
}

/// The word as an IRI.
pub fn iri<'a>(argument: &'static str, word: &'a str) -> Result<Iri<'a>, Refusal<'a>>
    ensures { ReadsAtEnd reference_text (fault_of_uri iri_chars word.now)
        argument.now (codes "IRI") word.now word.now result }
{
    iri_at_end(argument, word, word)
}

/// The word as a reference of IRIs.
pub fn reference<'a>(argument: &'static str, word: &'a str) -> Result<IriRef<'a>, Refusal<'a>>
    ensures { ReadsAtEnd reference_text (fault_of_reference iri_chars word.now)
        argument.now (codes "IRI reference") word.now word.now result }
{
    read(argument, "IRI reference", word, word)
}
