//! The edits that the fields of a line name, each a name, or a name, `=` and a value.
ghost use Rattle.std.specs.{Prelude.{◌≡◌, Some, true, option_map}, Option.{option_copied}};
ghost use Rattle.iref_batch.specs.{Lines.{edit_names, is_valid_edit}, EditFields.{IsRead, edit_named, path_edit_names}};
ghost use Rattle.iref.specs.{Tests.{none_or}, Characters.{iri_chars}, Components.{text_of}, EditSteps.{edit_step}};
ghost use Rattle.iref_batch.specs.Lines as spec;

use super::request::is_name;
use iref::chars::CharSet;
use iref::iri::Edit;
use iref::rules::{BorrowedText, Rule};
use iref_parse::cut::cut_bytes;
use std::str;

/// Why fields cannot be read as edits or as prefix entries: `frobnicate=x` names no edit, and the value
/// of `port=x` is not a port.
#[derive(Clone, Copy)]
pub enum FieldError {
    /// No edit has this name, a value or a `=` is missing, or a value is not allowed.
    Command,
    /// A value is outside its grammar, or a label is invalid or already used.
    Invalid,
    /// Memory was refused.
    Memory,
}

// The value of this text, if it is in the rule.
fn read<R: Rule, C: CharSet>(value: &[u8]) -> Result<BorrowedText<'_, R, C>, FieldError>
    ensures { IsRead text_of (R.test C.tests) (Some value.now) result }
{
    match str::from_utf8(value) {
        Ok(text) if R::accepts::<C>(text) => Ok(BorrowedText::new_unchecked(text)),
        _ => Err(FieldError::Invalid),
    }
}

// The value of an edit that may do without.
fn optional<R: Rule, C: CharSet>(
    value: Option<&[u8]>,
) -> Result<Option<BorrowedText<'_, R, C>>, FieldError>
    ensures { IsRead (option_map text_of) (none_or (R.test C.tests))
        (Some (option_copied value.entry)) result }
{
    match value {
        Some(value) => read(value).map(Some),
        None => Ok(None),
    }
}

// The value of an edit that needs one.
fn needed<R: Rule, C: CharSet>(value: Option<&[u8]>) -> Result<BorrowedText<'_, R, C>, FieldError>
    ensures { IsRead text_of (R.test C.tests) (option_copied value.entry) result }
{
    read(value.ok_or(FieldError::Command)?)
}

// An edit that takes no value.
fn bare<'a>(edit: Edit<'a>, value: Option<&[u8]>) -> Result<Edit<'a>, FieldError>
    ensures { is_valid_edit iri_chars (edit_step edit.entry) ≡ true
        → IsRead edit_step (is_valid_edit iri_chars)
        (spec.bare (edit_step edit.entry) (option_copied value.entry)) result }
{
    match value {
        Some(_) => Err(FieldError::Command),
        None => Ok(edit),
    }
}

// The edit of a path.
fn path_edit<'a>(name: &[u8], value: Option<&'a [u8]>) -> Result<Edit<'a>, FieldError>
    ensures { IsRead edit_step (is_valid_edit iri_chars)
        (edit_named path_edit_names name.now (option_copied value.entry)) result }
{
    if is_name(b"lazy-push", name) {
        needed(value).map(|segment| Edit::LazyPush(segment))
    } else if is_name(b"push", name) {
        needed(value).map(|segment| Edit::Push(segment))
    } else if is_name(b"join", name) {
        needed(value).map(|path| Edit::JoinPath(path))
    } else if is_name(b"pop", name) {
        bare(Edit::Pop, value)
    } else if is_name(b"clear", name) {
        bare(Edit::Clear, value)
    } else if is_name(b"normalize", name) {
        bare(Edit::Normalize, value)
    } else {
        Err(FieldError::Command)
    }
}

// The edit of this name with this value.
fn edit_of<'a>(name: &[u8], value: Option<&'a [u8]>) -> Result<Edit<'a>, FieldError>
    ensures { IsRead edit_step (is_valid_edit iri_chars)
        (edit_named edit_names name.now (option_copied value.entry)) result }
{
    if is_name(b"scheme", name) {
        optional(value).map(|scheme| Edit::SetScheme(scheme))
    } else if is_name(b"authority", name) {
        optional(value).map(|authority| Edit::SetAuthority(authority))
    } else if is_name(b"replace-authority", name) {
        needed(value).map(|authority| Edit::ReplaceAuthority(authority))
    } else if is_name(b"user", name) {
        optional(value).map(|user_info| Edit::SetUserInfo(user_info))
    } else if is_name(b"host", name) {
        needed(value).map(|host| Edit::SetHost(host))
    } else if is_name(b"port", name) {
        optional(value).map(|port| Edit::SetPort(port))
    } else if is_name(b"path", name) {
        needed(value).map(|path| Edit::SetPath(path))
    } else if is_name(b"normal-path", name) {
        needed(value).map(|path| Edit::SetAndNormalizePath(path))
    } else if is_name(b"query", name) {
        optional(value).map(|query| Edit::SetQuery(query))
    } else if is_name(b"fragment", name) {
        optional(value).map(|fragment| Edit::SetFragment(fragment))
    } else {
        path_edit(name, value)
    }
}

/// The edit that a field names.
#[tactic(auto, using(crate::proofs::EditFieldLemmas::read_is_named))]
pub fn read_edit(field: &[u8]) -> Result<Edit<'_>, FieldError>
    ensures { IsRead edit_step (is_valid_edit iri_chars) (spec.read_edit field.now) result }
{
    let (name, value) = cut_bytes(field, b'=');
    edit_of(name, value)
}
