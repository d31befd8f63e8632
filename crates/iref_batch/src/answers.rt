//! The answer to a line.
ghost use Rattle.std.specs.Prelude.{◌≡◌, ◌+◌, ◌≤◌, ◌++◌, ◌∷◌, length, take, option_map, IfSome, OnOk, OnErr};
ghost use Rattle.std.specs.Prelude.{option_and_then};
ghost use Rattle.iref_batch.specs.Lines.{Answered, answer_text, part_field, part_fields, tab, yes_or_no, Parts};
ghost use Rattle.iref_batch.specs.{Lines.{Normal, Equal, ToUri}, EditFields.{IsRefusal}, Gathering.{Puts, PutsReply}};
ghost use Rattle.iref_batch.specs.{Requests.{request_of}, Runs.{reply_to, line_reply, with_newline}};
ghost use Rattle.iref.specs.{Components.{text_of}, Parts.{uri_ref_part_texts}, Rules.{Text}};

mod edit;
mod prefixes;
mod resolve;

use super::edit_fields::FieldError;
use super::request::{Request, read_request};
use edit::put_answer_to_edit;
use iref::Memory;
use iref::chars::CharSet;
use iref::iri::{IriRef, IriRefParts, Path};
use iref::rules::{BorrowedText, Rule};
use prefixes::put_answer_by_table;
use resolve::{put_answer_to_relative, put_answer_to_resolve};

/// Puts the text.
fn put_text(text: &[u8], out: &mut Vec<u8>) -> Result<(), Memory>
    ensures { Puts text.now out.old.items out.new.items result }
{
    Ok(out.extend_from_slice(text)?)
}

// How many bytes a TAB and the field of a part have.
#[inline(always)]
fn field_len<R: Rule, C: CharSet>(part: Option<BorrowedText<'_, R, C>>) -> Option<usize>
    ensures { IfSome result (λ n. n ≡ length (part_field (option_map text_of part.entry)) + 1) }
{
    match part {
        Some(part) => part.len().checked_add(2),
        None => Some(2),
    }
}

// The sum of a length and that of the answer whose fields are the parts of a reference.
#[inline(always)]
fn len_with(len: usize, parts: &IriRefParts<'_>) -> Option<usize>
    ensures { IfSome result (λ n. n ≡ len + length (answer_text
        (Answered (part_fields (uri_ref_part_texts parts.now))))) }
{
    let len = len.checked_add(2)?;
    let len = len.checked_add(field_len(parts.scheme)?)?;
    let len = len.checked_add(field_len(parts.authority)?)?;
    let len = len.checked_add(field_len(Some(parts.path))?)?;
    let len = len.checked_add(field_len(parts.query)?)?;
    len.checked_add(field_len(parts.fragment)?)
}

// Writes the text at an index of the buffer, and returns where it ends.
#[inline(always)]
fn write_at(out: &mut [u8], at: usize, text: &[u8]) -> usize
    requires { at + length text.now ≤ length out.old }
    ensures end { result ≡ at + length text.now }
    ensures front { take result out.new ≡ take at out.old ++ text.now }
    ensures len { length out.new ≡ length out.old }
{
    let end = at + text.len();
    out[at..end].copy_from_slice(text);
    end
}

// Writes a TAB and the field of a part at an index of the buffer, and returns where it ends: `-`
// where the part is absent, else `=` and its text.
#[inline(always)]
fn write_field<R: Rule, C: CharSet>(
    out: &mut [u8],
    at: usize,
    part: Option<BorrowedText<'_, R, C>>,
) -> usize
    requires { at + length (part_field (option_map text_of part)) + 1 ≤ length out.old }
    ensures end { result ≡ at + length (part_field (option_map text_of part.entry)) + 1 }
    ensures front { take result out.new
        ≡ take at out.old ++ tab ∷ part_field (option_map text_of part.entry) }
    ensures len { length out.new ≡ length out.old }
{
    let Some(part) = part else {
        return write_at(out, at, b"\t-");
    };
    let at = write_at(out, at, b"\t=");
    write_at(out, at, part.as_bytes())
}

/// Puts the answer whose fields are the parts of a reference. Memory is requested once.
fn put_parts(parts: &IriRefParts<'_>, out: &mut Vec<u8>) -> Result<(), Memory>
    ensures { Puts (answer_text (Answered (part_fields (uri_ref_part_texts parts.now))))
        out.old.items out.new.items result }
{
    let start = out.len();
    let len = len_with(start, parts).ok_or(Memory)?;
    out.resize(len, 0)?;
    let at = write_at(out, start, b"ok");
    let at = write_field(out, at, parts.scheme);
    let at = write_field(out, at, parts.authority);
    let at = write_field(out, at, Some(parts.path));
    let at = write_field(out, at, parts.query);
    write_field(out, at, parts.fragment);
    Ok(())
}

/// Puts the answer to `parts`.
fn put_answer_to_parts(text: &[u8], out: &mut Vec<u8>) -> Result<(), Memory>
    ensures { PutsReply (Parts text.now) out.old.items out.new.items result }
{
    let Ok(parts) = IriRefParts::from_bytes(text) else {
        return put_text(b"error invalid", out);
    };
    put_parts(&parts, out)
}

/// Puts an answer of this text.
fn put_answered(text: &[u8], out: &mut Vec<u8>) -> Result<(), Memory>
    ensures { Puts (answer_text (Answered text.now)) out.old.items out.new.items result }
{
    put_text(b"ok\t", out)?;
    put_text(text, out)
}

/// Puts what is said of fields that were not read.
fn put_refused(error: FieldError, out: &mut Vec<u8>) -> Result<(), Memory>
    ensures { (text : Text) → IsRefusal error text →
        Puts text out.old.items out.new.items result }
{
    match error {
        FieldError::Command => put_text(b"error command", out),
        FieldError::Invalid => put_text(b"error invalid", out),
        FieldError::Memory => Err(Memory),
    }
}

/// Puts the answer to `normal`.
fn put_answer_to_normal(text: &[u8], out: &mut Vec<u8>) -> Result<(), Memory>
    ensures { PutsReply (Normal text.now) out.old.items out.new.items result }
{
    let Ok(path) = Path::from_bytes(text) else {
        return put_text(b"error invalid", out);
    };
    put_text(b"ok\t", out)?;
    path.append_normalized_to(out)
}

// The answer that texts are equal, or that they are not.
fn equality(equal: bool) -> &'static [u8]
    ensures { result.now ≡ answer_text (Answered (yes_or_no equal)) }
{
    if equal { b"ok\tyes" } else { b"ok\tno" }
}

/// Puts the answer to `equal`. A text is read once where it stands twice.
fn put_answer_to_equal(left: &[u8], right: &[u8], out: &mut Vec<u8>) -> Result<(), Memory>
    ensures { PutsReply (Equal left.now right.now) out.old.items out.new.items result }
{
    let Ok(left_parts) = IriRefParts::from_bytes(left) else {
        return put_text(b"error invalid", out);
    };
    if left == right {
        return put_text(b"ok\tyes", out);
    }
    let Ok(right_parts) = IriRefParts::from_bytes(right) else {
        return put_text(b"error invalid", out);
    };
    put_text(equality(left_parts == right_parts), out)
}

/// Puts the answer to `to-uri`.
fn put_answer_to_to_uri(text: &[u8], out: &mut Vec<u8>) -> Result<(), Memory>
    ensures { PutsReply (ToUri text.now) out.old.items out.new.items result }
{
    let Ok(reference) = IriRef::from_bytes(text) else {
        return put_text(b"error invalid", out);
    };
    let Ok(mapping) = reference.to_uri_ref(*out.allocator()) else {
        return Err(Memory);
    };
    put_answered(mapping.as_bytes(), out)
}

/// Puts the answer to a request, or `error command` if there is no request.
#[inline(always)]
fn put_answer(request: Option<Request<'_>>, out: &mut Vec<u8>) -> Result<(), Memory>
    ensures { Puts (reply_to (option_and_then request_of request.entry))
        out.old.items out.new.items result }
{
    match request {
        None => put_text(b"error command", out),
        Some(Request::Parts(text)) => put_answer_to_parts(text, out),
        Some(Request::Resolve(reference, base)) => put_answer_to_resolve(reference, base, out),
        Some(Request::Relative(target, base)) => put_answer_to_relative(target, base, out),
        Some(Request::Normal(text)) => put_answer_to_normal(text, out),
        Some(Request::Equal(left, right)) => put_answer_to_equal(left, right, out),
        Some(Request::Edit(text, fields)) => put_answer_to_edit(text, fields, out),
        Some(Request::ToUri(text)) => put_answer_to_to_uri(text, out),
        Some(Request::ByTable(verb, text, fields)) => put_answer_by_table(verb, text, fields, out),
    }
}

/// Puts the answer to the line, and a newline, after what `out` holds; or leaves it where memory is
/// refused.
pub fn answer_line(line: &[u8], out: &mut Vec<u8>) -> Result<(), Memory>
    ensures ok { OnOk result (out.new.items ≡ out.old.items ++ with_newline (line_reply line.now)) }
    ensures err { OnErr result (out.new.items ≡ out.old.items) }
{
    let start = out.len();
    if put_answer(read_request(line), out).is_err() || out.push(b'\n').is_err() {
        out.truncate(start);
        return Err(Memory);
    }
    Ok(())
}
