//! Links rewritten relative to their page, and the shortest to a text (RFC 3986 section 5.2).
ghost use Rattle.std.specs.Prelude.{◌↔◌, IfOk, IfSome, IsSome};
ghost use Rattle.iref.specs.{Characters.{iri_chars}, Reference.{read_reference}, Shortest.{NoneIsShorter}};
ghost use Rattle.iref.specs.References.{reference_buf_text, reference_buf_value, reference_text, reference_value};
ghost use Rattle.iref_examples.specs.Links.{AreUriAndReference, IsExactLink, IsRelinked};

use iref::Memory;
use iref::iri::{Iri, IriRefBuf};
use iref::uri::{Uri, UriRef, UriRefBuf};
use std::alloc::Global;

/// The link, rewritten relative to its page: on `http://a/b/c`, `http://a/b/x/../d#e` becomes
/// `d#e`. Both resolve to equal URIs. Where scheme and authority are the page's and the path begins
/// at the root, the result has neither.
pub fn from_page(alloc: Global, page: Uri<'_>, link: UriRef<'_>) -> Result<UriRefBuf, Memory>
    ensures { IfOk result (λ answer. IsRelinked (reference_value page.entry)
        (reference_value link.entry) (reference_buf_value answer)) }
{
    let target = link.resolved(alloc, page)?;
    target.as_uri_ref().relative_to(alloc, page.as_uri_ref())
}

/// The mirrored link by texts; None exactly where the page is no URI or the link no reference.
pub fn relinked(alloc: Global, page: &str, link: &str) -> Result<Option<UriRefBuf>, Memory>
    ensures some { IfOk result (λ answer. IsSome answer
        ↔ AreUriAndReference page.now link.now) }
    ensures relinked { IfOk result (λ answer. IfSome answer (λ answer. IsRelinked
        (read_reference page.now) (read_reference link.now) (reference_buf_value answer))) }
{
    let (Ok(page), Ok(link)) = (Uri::new(page), UriRef::new(link)) else {
        return Ok(None);
    };
    Ok(Some(from_page(alloc, page, link)?))
}

/// The shortest link from a page to the very text of a target, as in RDF: on `http://a/~b/d`,
/// `http://a/%7Eb/c` becomes `/%7Eb/c`. The target stays whole where no reference leads to it.
pub fn exact_link(alloc: Global, page: Iri<'_>, target: Iri<'_>) -> Result<IriRefBuf, Memory>
    ensures exact { IfOk result (λ link. IsExactLink (reference_text page.entry)
        (reference_text target.entry) (reference_buf_text link)) }
    ensures shortest { IfOk result (λ link. NoneIsShorter iri_chars
        (reference_text target.entry) (reference_text page.entry) (reference_buf_text link)) }
{
    match target.relativized(alloc, page)? {
        Some(link) => Ok(link),
        None => target.as_iri_ref().to_owned(alloc),
    }
}
