//! What a line asks for.
ghost use Rattle.std.specs.{Iterator.{YieldsFirstBy}, Option.{option_copied}};
ghost use Rattle.std.specs.Prelude.{◌≡◌, ◌∷◌, bytes_eq, List, option_and_then, option_map};
ghost use Rattle.iref_batch.specs.Lines.{tab, read_line, one_text, two_texts, all_verbs, text_and_edits};
ghost use Rattle.iref_batch.specs.{Lines.{text_and_entries}, Fields.{fields_of}, Requests.{request_of}};
ghost use Rattle.iref.specs.{Texts.{pieces_at}, Rules.{Text}, PrefixTable.{PrefixEntry}};
ghost use Rattle.iref_batch.specs.Lines as spec;

use iref_parse::cut::cut_bytes;

/// What a line asks of a prefix table.
#[derive(Clone, Copy)]
pub enum TableVerb {
    /// An IRI made short.
    Compact,
    /// The IRI that a text stands for.
    Expand,
}

/// What a line asks for.
#[derive(Clone, Copy)]
pub enum Request<'a> {
    /// The components of a reference.
    Parts(&'a [u8]),
    /// What a reference resolves to against a URI.
    Resolve(&'a [u8], &'a [u8]),
    /// What leads from a base, the second, to a target.
    Relative(&'a [u8], &'a [u8]),
    /// The normal form of a path.
    Normal(&'a [u8]),
    /// Whether two references are equal.
    Equal(&'a [u8], &'a [u8]),
    /// What a reference is after edits: the text of all their fields, if there are any.
    Edit(&'a [u8], Option<&'a [u8]>),
    /// The reference of URIs that a reference maps to.
    ToUri(&'a [u8]),
    /// What a prefix table makes of a text: the text of the fields of its entries, if there are
    /// any.
    ByTable(TableVerb, &'a [u8], Option<&'a [u8]>),
}

/// The first field, and the text of the others, if there are any.
#[inline(always)]
#[tactic(auto, using(crate::proofs::FieldLemmas::fields_cut))]
fn first_field(text: &[u8]) -> (&[u8], Option<&[u8]>)
    ensures { pieces_at tab text.now ≡ result.0.now ∷ fields_of (option_copied result.1) }
{
    cut_bytes(text, b'\t')
}

/// Takes the first of the fields, if there is one.
pub fn next_field<'a>(fields: &mut Option<&'a [u8]>) -> Option<&'a [u8]>
    ensures { YieldsFirstBy (λ field. field.now) (λ left. fields_of (option_copied left))
        fields.old result fields.new }
{
    let (field, others) = first_field((*fields)?);
    *fields = others;
    Some(field)
}

/// The one field, if there is one and no other.
#[tactic(auto, using(crate::proofs::FieldLemmas::more_fields))]
fn one_field(fields: Option<&[u8]>) -> Option<&[u8]>
    ensures { (request : Text → spec.Request) →
        one_text request (fields_of (option_copied fields.entry))
        ≡ option_map request (option_copied result) }
{
    let (field, others) = first_field(fields?);
    match others {
        Some(_) => None,
        None => Some(field),
    }
}

/// The two fields, if there are two and no other.
fn two_fields(fields: Option<&[u8]>) -> Option<(&[u8], &[u8])>
    ensures { (request : Text → Text → spec.Request) →
        two_texts request (fields_of (option_copied fields.entry))
        ≡ option_map (λ texts. request texts.0.now texts.1.now) result }
{
    let (first, others) = first_field(fields?);
    let second = one_field(others)?;
    Some((first, second))
}

/// The first field, if there is one, and the text of the others.
fn some_fields(fields: Option<&[u8]>) -> Option<(&[u8], Option<&[u8]>)>
    ensures edits { text_and_edits (fields_of (option_copied fields.entry)) ≡ option_and_then
        (λ texts. text_and_edits (texts.0.now ∷ fields_of (option_copied texts.1))) result }
    ensures entries { (request : Text → List PrefixEntry → spec.Request) →
        text_and_entries request (fields_of (option_copied fields.entry)) ≡ option_and_then
        (λ texts. text_and_entries request (texts.0.now ∷ fields_of (option_copied texts.1)))
        result }
{
    Some(first_field(fields?))
}

/// Whether the field is the name.
pub fn is_name(name: &[u8], field: &[u8]) -> bool
    ensures { result ≡ bytes_eq name.now field.now }
{
    name == field
}

/// What a line asks for, if its verb is one of the program's and its fields are as many as that
/// takes. The fields of edits and of prefix tables are not looked at yet.
pub fn read_request(line: &[u8]) -> Option<Request<'_>>
    ensures { read_line all_verbs line.now ≡ option_and_then request_of result }
{
    let (verb, fields) = first_field(line);
    if is_name(b"parts", verb) {
        one_field(fields).map(Request::Parts)
    } else if is_name(b"resolve", verb) {
        two_fields(fields).map(|texts| Request::Resolve(texts.0, texts.1))
    } else if is_name(b"relative", verb) {
        two_fields(fields).map(|texts| Request::Relative(texts.0, texts.1))
    } else if is_name(b"normal", verb) {
        one_field(fields).map(Request::Normal)
    } else if is_name(b"equal", verb) {
        two_fields(fields).map(|texts| Request::Equal(texts.0, texts.1))
    } else if is_name(b"edit", verb) {
        some_fields(fields).map(|(text, edits)| Request::Edit(text, edits))
    } else if is_name(b"to-uri", verb) {
        one_field(fields).map(Request::ToUri)
    } else if is_name(b"compact", verb) {
        some_fields(fields).map(|texts| Request::ByTable(TableVerb::Compact, texts.0, texts.1))
    } else if is_name(b"expand", verb) {
        some_fields(fields).map(|texts| Request::ByTable(TableVerb::Expand, texts.0, texts.1))
    } else {
        None
    }
}
