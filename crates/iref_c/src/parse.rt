//! Whether a text is in a rule, with the ranges of its components (RFC 3986 sections 3 and 4.1,
//! RFC 3987 section 2.2).
ghost use Rattle.iref.specs.{Characters.{iri_chars, uri_chars}, Grammar.{IsUri, IsUriReference}};
ghost use Rattle.iref_c.specs.{Answers.{StoresOf}, PartRanges.{all_ranges}};

use crate::ranges::Ranges;
use crate::status::INVALID;
use crate::store::store;
use iref::iri::{Iri, IriRef};
use iref::uri::{Uri, UriRef};

/// Whether the text is a URI.
#[unsafe(no_mangle)]
pub extern "C" fn iref_parse_uri(text: &[u8], ranges: &mut Ranges) -> u32
    ensures { StoresOf (IsUri uri_chars) all_ranges text.now ranges.old ranges.new result }
{
    match Uri::from_bytes(text) {
        Ok(uri) => store(Ranges::of_text(uri.as_str()), ranges),
        Err(_) => INVALID,
    }
}

/// Whether the text is a reference of URIs.
#[unsafe(no_mangle)]
pub extern "C" fn iref_parse_uri_reference(text: &[u8], ranges: &mut Ranges) -> u32
    ensures { StoresOf (IsUriReference uri_chars) all_ranges text.now ranges.old ranges.new result }
{
    match UriRef::from_bytes(text) {
        Ok(reference) => store(Ranges::of_text(reference.as_str()), ranges),
        Err(_) => INVALID,
    }
}

/// Whether the text is an IRI.
#[unsafe(no_mangle)]
pub extern "C" fn iref_parse_iri(text: &[u8], ranges: &mut Ranges) -> u32
    ensures { StoresOf (IsUri iri_chars) all_ranges text.now ranges.old ranges.new result }
{
    match Iri::from_bytes(text) {
        Ok(iri) => store(Ranges::of_text(iri.as_str()), ranges),
        Err(_) => INVALID,
    }
}

/// Whether the text is a reference of IRIs.
#[unsafe(no_mangle)]
pub extern "C" fn iref_parse_iri_reference(text: &[u8], ranges: &mut Ranges) -> u32
    ensures { StoresOf (IsUriReference iri_chars) all_ranges text.now ranges.old ranges.new result }
{
    match IriRef::from_bytes(text) {
        Ok(reference) => store(Ranges::of_text(reference.as_str()), ranges),
        Err(_) => INVALID,
    }
}
