//! Reads two references, and writes a result, a value or a text, where the caller wants it.
ghost use Rattle.std.specs.Prelude.{◌≡◌, IfErr, IfOk, OnOk};
ghost use Rattle.iref.specs.References.{reference_text};
ghost use Rattle.iref_c.specs.Answers.{IsReference, IsWritten, ReportsInvalid};

use crate::status::{INVALID, OK, SECOND_INVALID, SHORT};
use iref::chars::CharSet;
use iref::iri::IriRef;
use iref::rules::{Composed, HeldRule};

/// The references of two texts, or the status of the first that is no reference.
pub fn two_references<'a>(
    first: &'a [u8],
    second: &'a [u8],
) -> Result<(IriRef<'a>, IriRef<'a>), u32>
    ensures are { OnOk result (IsReference first.now × IsReference second.now) }
    ensures first { IfOk result (λ read. reference_text read.0 ≡ first.now) }
    ensures second { IfOk result (λ read. reference_text read.1 ≡ second.now) }
    ensures invalid { IfErr result (λ status.
        ReportsInvalid (IsReference first.now) (IsReference second.now) status) }
{
    let first = IriRef::from_bytes(first).or(Err(INVALID))?;
    let second = IriRef::from_bytes(second).or(Err(SECOND_INVALID))?;
    Ok((first, second))
}

/// Stores the value.
pub fn store<V: Copy>(value: V, stored: &mut V) -> u32
    ensures done { result ≡ OK }
    ensures stored { stored.new ≡ value }
{
    *stored = value;
    OK
}

/// Writes the text first into the buffer where there is room, and its length in any case.
pub fn write_text(text: &[u8], out: &mut [u8], needed: &mut usize) -> u32
    ensures { IsWritten text.now out.old out.new needed.new result }
{
    *needed = text.len();
    if text.len() > out.len() {
        return SHORT;
    }
    out[..text.len()].copy_from_slice(text);
    OK
}

/// Writes a text that is composed: each byte is written into the buffer once.
pub fn write_composed<R: HeldRule, C: CharSet>(
    text: &Composed<'_, R, C>,
    out: &mut [u8],
    needed: &mut usize,
) -> u32
    ensures { IsWritten text.now out.old out.new needed.new result }
{
    let len = text.len();
    *needed = len;
    if len > out.len() {
        return SHORT;
    }
    text.write_to(out);
    OK
}
