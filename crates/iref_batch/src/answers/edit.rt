//! The answer to `edit`.
ghost use Rattle.std.specs.{Prelude.{◌≡◌, [], ◌∷◌, map, IfOk}, List.{list_all}, Option.{option_copied}};
ghost use Rattle.iref_batch.specs.{Lines.{is_valid_edit, text_and_edits}, EditFields.{IsRead, edits_read}};
ghost use Rattle.iref_batch.specs.{Fields.{fields_of}, Gathering.{Puts}, Runs.{reply_to}};
ghost use Rattle.iref.specs.{Characters.{iri_chars}, EditSteps.{edit_step}};

use super::{put_answered, put_refused, put_text};
use crate::edit_fields::{FieldError, read_edit};
use crate::request::next_field;
use iref::Memory;
use iref::iri::{Edit, EditFault, IriRefBuf, apply_all};
use smallvec::SmallVec;
use std::alloc::Global;

// So many edits of a line take no memory.
const FEW: usize = 4;

// Adds the edits that the fields name to an empty list. All fields are read, since one that is no edit
// at all goes before values outside their grammar.
fn read_edits<'a>(
    fields: Option<&'a [u8]>,
    edits: &mut SmallVec<Edit<'a>, FEW>,
) -> Result<(), FieldError>
    requires { edits.old.items ≡ [] }
    ensures { IsRead (λ _. map edit_step edits.new.items) (list_all (is_valid_edit iri_chars))
        (edits_read (fields_of (option_copied fields.entry))) result }
{
    let mut are_valid = true;
    let mut left = fields;
    while let Some(field) = next_field(&mut left) {
        match read_edit(field) {
            Ok(edit) => {
                if edits.push(edit).is_err() {
                    return Err(FieldError::Memory);
                }
            }
            Err(FieldError::Invalid) => are_valid = false,
            Err(error) => return Err(error),
        }
    }
    if are_valid {
        Ok(())
    } else {
        Err(FieldError::Invalid)
    }
}

// A copy of the text, with room for more bytes.
fn copied(alloc: Global, text: &[u8], more: usize) -> Result<Vec<u8>, Memory>
    ensures { IfOk result (λ bytes. bytes.items ≡ text.now) }
{
    let mut bytes = Vec::with_capacity(alloc, text.len().saturating_add(more))?;
    bytes.extend_from_slice(text)?;
    Ok(bytes)
}

/// Puts the answer to `edit`. The fields are read first, since one that is no edit at all goes
/// before a text that is no reference, and values outside their grammar before a refused edit.
pub fn put_answer_to_edit(
    text: &[u8],
    fields: Option<&[u8]>,
    out: &mut Vec<u8>,
) -> Result<(), Memory>
    ensures { Puts (reply_to (text_and_edits (text.now ∷ fields_of (option_copied fields.entry))))
        out.old.items out.new.items result }
{
    let mut edits = SmallVec::new(*out.allocator());
    match read_edits(fields, &mut edits) {
        Ok(()) => {}
        Err(error) => return put_refused(error, out),
    }
    let more = fields.map_or(0, |fields| fields.len());
    let bytes = copied(*out.allocator(), text, more)?;
    let Ok(mut reference) = IriRefBuf::from_bytes(bytes) else {
        return put_text(b"error invalid", out);
    };
    match apply_all(&mut reference, edits.as_slice()) {
        Ok(()) => put_answered(reference.as_bytes(), out),
        Err((_, EditFault::NoAuthority)) => put_text(b"error edit", out),
        Err((_, EditFault::SchemeNeeded)) => put_text(b"error edit", out),
        Err((_, EditFault::Memory)) => Err(Memory),
    }
}
