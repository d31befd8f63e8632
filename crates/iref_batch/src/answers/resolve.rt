//! The answers to `resolve` and `relative`.
ghost use Rattle.iref_batch.specs.{Lines.{Answered, Relative, Resolve, answer_text}, Gathering.{Puts, PutsReply}};

use super::put_text;
use iref::Memory;
use iref::chars::CharSet;
use iref::iri::{IriParts, IriRefParts};
use iref::rules::{Composed, HeldRule};

// Puts an answer that is not written yet.
fn put_composed<R: HeldRule, C: CharSet>(
    answer: &Composed<'_, R, C>,
    out: &mut Vec<u8>,
) -> Result<(), Memory>
    ensures { Puts (answer_text (Answered answer.now)) out.old.items out.new.items result }
{
    put_text(b"ok\t", out)?;
    answer.append_to(out)
}

/// Puts the answer to `resolve`.
pub fn put_answer_to_resolve(reference: &[u8], base: &[u8], out: &mut Vec<u8>) -> Result<(), Memory>
    ensures { PutsReply (Resolve reference.now base.now) out.old.items out.new.items result }
{
    let Ok(reference) = IriRefParts::from_bytes(reference) else {
        return put_text(b"error invalid", out);
    };
    let Ok(base) = IriParts::from_bytes(base) else {
        return put_text(b"error invalid", out);
    };
    let Ok(answer) = reference.resolved(&base) else {
        return Err(Memory);
    };
    put_composed(&answer, out)
}

/// Puts the answer to `relative`.
pub fn put_answer_to_relative(target: &[u8], base: &[u8], out: &mut Vec<u8>) -> Result<(), Memory>
    ensures { PutsReply (Relative target.now base.now) out.old.items out.new.items result }
{
    let Ok(target) = IriRefParts::from_bytes(target) else {
        return put_text(b"error invalid", out);
    };
    let Ok(base) = IriRefParts::from_bytes(base) else {
        return put_text(b"error invalid", out);
    };
    let Ok(answer) = target.relative_to(&base) else {
        return Err(Memory);
    };
    put_composed(&answer, out)
}
