//! References that lead from a base to a target, the way back from resolution, the shortest that
//! resolve to a text, character for character (RFC 3986 sections 4.2 and 5.2), and what is left of a
//! reference after a prefix, both by their keys.
ghost use Rattle.std.specs.Prelude.{◌≡◌, ◌&&◌, IfNone, IfOk, IfSome, IsNone, IsOk, option_map, true};
ghost use Rattle.iref_grammar.specs.Relative.{have_same_authority, have_same_scheme, relative_to};
ghost use Rattle.iref_grammar.specs.{ReferenceSuffix.{reference_suffix}, Relativized.{relativized}};
ghost use Rattle.iref_reference_text.specs.{is_readable, Steps.{Spells}};
ghost use Rattle.iref_reference.specs.Parts.{parts_value, uri_parts_value, uri_ref_parts_value};
ghost use Rattle.iref_reference.specs.ReferenceSuffixes.{SpellsReferenceSuffix};
ghost use Rattle.iref_reference.specs.References.{reference_buf_text, reference_buf_value, reference_text};
ghost use Rattle.iref_reference.specs.References.{reference_value};
ghost use Rattle.iref_reference.specs.Relatives.{ClimbsNoMore, IsRelative, LeadsThere, LeadsToTarget, WritesPathAlone};
ghost use Rattle.iref_reference.specs.Shortest.{IsRelativized, NoneIsShorter, NoneLeads, led_text};

use crate::borrowed::{Reference, Uri, UriRef};
use crate::composed::{Composed, ComposedUriRef};
use crate::owned::{ReferenceBuf, UriBuf, UriRefBuf};
use crate::parts::{Parts, SchemePart, UriParts, UriRefParts};
use iref_component::named_texts::{Fragment, Query};
use iref_component::path_buf::PathBuf;
use iref_grammar::chars::CharSet;
use iref_reference_text::reference_text::HeldRule;
use iref_splice::Memory;
use std::alloc::Global;

/// What is left of a reference after a prefix, of its path, and its query and fragment: of `/a/b?q`
/// after `/a` the path `b` and the query `q`.
pub type Suffix<'a, C> = (PathBuf<C>, Option<Query<'a, C>>, Option<Fragment<'a, C>>);

// Whether the schemes are equal, and the authorities.
#[tactic(auto, using(iref_grammar::proofs::PartTieLemmas::parts_tested), unfolding(iref_grammar::specs::Key::key))]
fn share_scheme_and_authority<C: CharSet>(
    prefix: &UriRefParts<'_, C>,
    parts: &UriRefParts<'_, C>,
) -> bool
    ensures { result
        ≡ have_same_scheme (uri_ref_parts_value prefix.now) (uri_ref_parts_value parts.now)
        && have_same_authority (uri_ref_parts_value prefix.now) (uri_ref_parts_value parts.now) }
{
    prefix.scheme == parts.scheme && prefix.authority == parts.authority
}

impl<'a, S: SchemePart<'a>, C: CharSet> Parts<'a, S, C> {
    /// What leads to the reference of these components from that of others, not written yet: from
    /// `http://a/b/c/d` to `http://a/b` it is `../../b`. `Memory` says that its length cannot be
    /// counted. These components have to be readable, as those that are read from a text are.
    pub fn relative_to(&self, base: &UriRefParts<'a, C>) -> Result<ComposedUriRef<'a, C>, Memory>
        requires { is_readable C.tests (parts_value S.text self.now) ≡ true }
        ensures { IfOk result (Spells
            (relative_to (parts_value S.text self.now) (uri_ref_parts_value base.now))) }
    {
        Composed::relative_to(self.slices(), base.slices())
    }
}

impl<'a, R: HeldRule, C: CharSet> Reference<'a, R, C> {
    /// A reference that leads from a base to this one: from `http://a/b/c/d` to `http://a/b` it is
    /// `../../b`. One with another scheme or authority is given whole, and so is one whose path does
    /// not begin with `/`, as `http://a`, unless the empty path leads to it. One that begins with
    /// `/` has the scheme of the base.
    ///
    /// Where both have schemes, it resolves against the base to a reference that equals this one by
    /// `==`, perhaps in other characters: from `http://a/~b/d` to `http://a/%7Eb/c` it is `c`, which
    /// resolves to `http://a/~b/c` (RFC 3986 section 5.2). Where the base alone has one, it resolves
    /// to what equals the resolution of this one.
    ///
    /// Where the base has a scheme, scheme and authority agree and both paths begin with `/`, its
    /// path is relative, and no relative path with a segment that leads there has fewer `..`. Its
    /// text need not be the shortest. Out of memory, it returns `Memory`.
    pub fn relative_to(&self, alloc: Global, base: UriRef<'_, C>) -> Result<UriRefBuf<C>, Memory>
        ensures text { IfOk result (λ answer. IsRelative (reference_text self.now)
            (reference_text base.entry) (reference_buf_text answer)) }
        ensures leads { IfOk result (λ answer. LeadsThere (reference_value self.now)
            (reference_value base.entry) (reference_buf_value answer)) }
        ensures target { IfOk result (λ answer. LeadsToTarget (reference_value self.now)
            (reference_value base.entry) (reference_buf_value answer)) }
        ensures alone { IfOk result (λ answer. WritesPathAlone (reference_value self.now)
            (reference_value base.entry) (reference_buf_value answer)) }
        ensures least { IfOk result (λ answer. ClimbsNoMore (reference_value self.now)
            (reference_value base.entry) (reference_buf_value answer)) }
    {
        let reference = ComposedUriRef::<C>::relative_to(self.slices(), base.slices())?;
        reference.to_owned(alloc)
    }

    /// What is left of the reference after a prefix: of `http://a/b/c?q#f` after `http://a/b?r` it
    /// is the path `c`, with the query `q` and the fragment `f`. None where scheme or authority
    /// differ, or the path has no such rest, as that of `/foo/bar` after `/foo/`, which ends in an
    /// empty segment; that takes no memory. Out of memory, it returns `Memory`.
    pub fn suffix(
        &self,
        alloc: Global,
        prefix: UriRef<'_, C>,
    ) -> Result<Option<Suffix<'a, C>>, Memory>
        ensures suffix { IfOk result
            (SpellsReferenceSuffix (reference_value prefix.entry) (reference_value self.now)) }
        ensures none { IsNone (reference_suffix
            (reference_value prefix.entry) (reference_value self.now)) → IsOk result }
    {
        let prefix = prefix.reference_parts();
        let parts = self.reference_parts();
        if !share_scheme_and_authority(&prefix, &parts) {
            return Ok(None);
        }
        let Some(path) = parts.path.suffix(alloc, prefix.path)? else {
            return Ok(None);
        };
        Ok(Some((path, parts.query, parts.fragment)))
    }
}

impl<R: HeldRule, C: CharSet> ReferenceBuf<R, C> {
    /// A reference that leads from a base to this one, as `relative_to` of the borrowed reference.
    pub fn relative_to(&self, alloc: Global, base: UriRef<'_, C>) -> Result<UriRefBuf<C>, Memory>
        ensures text { IfOk result (λ answer. IsRelative (reference_buf_text self.now)
            (reference_text base.entry) (reference_buf_text answer)) }
        ensures leads { IfOk result (λ answer. LeadsThere (reference_buf_value self.now)
            (reference_value base.entry) (reference_buf_value answer)) }
        ensures target { IfOk result (λ answer. LeadsToTarget (reference_buf_value self.now)
            (reference_value base.entry) (reference_buf_value answer)) }
        ensures alone { IfOk result (λ answer. WritesPathAlone (reference_buf_value self.now)
            (reference_value base.entry) (reference_buf_value answer)) }
        ensures least { IfOk result (λ answer. ClimbsNoMore (reference_buf_value self.now)
            (reference_value base.entry) (reference_buf_value answer)) }
    {
        self.as_reference().relative_to(alloc, base)
    }

    /// What is left of the reference after a prefix, as `suffix` of the borrowed reference.
    pub fn suffix(
        &self,
        alloc: Global,
        prefix: UriRef<'_, C>,
    ) -> Result<Option<Suffix<'_, C>>, Memory>
        ensures suffix { IfOk result
            (SpellsReferenceSuffix (reference_value prefix.entry) (reference_buf_value self.now)) }
        ensures none { IsNone (reference_suffix
            (reference_value prefix.entry) (reference_buf_value self.now)) → IsOk result }
    {
        self.as_reference().suffix(alloc, prefix)
    }
}

impl<'a, C: CharSet> UriParts<'a, C> {
    /// The shortest reference that leads to the very text of the URI of these components, not written
    /// yet: from `http://a/b/c/d` to `http://a/b/` it is `..`. `Memory` says that its length cannot be
    /// counted. Both have to be readable, as components that are read from a text are.
    pub fn relativized(
        &self,
        base: &UriParts<'a, C>,
    ) -> Result<Option<ComposedUriRef<'a, C>>, Memory>
        requires target { is_readable C.tests (uri_parts_value self.now) ≡ true }
        requires base { is_readable C.tests (uri_parts_value base.now) ≡ true }
        ensures { IfOk result
            (IsRelativized (uri_parts_value self.now) (uri_parts_value base.now)) }
    {
        Composed::relativized(self.slices(), base.slices())
    }
}

impl<'a, C: CharSet> Uri<'a, C> {
    /// The shortest reference that resolves against the base to this very text, character for
    /// character: from `http://a/b/c/d` to `http://a/b/` it is `..`, to `http://a/` it is `/`, and to
    /// `http://g/x` it is `//g/x` (RFC 3986 sections 4.2 and 5.2).
    ///
    /// No reference that resolves to this text has fewer bytes. None means that no reference does:
    /// resolution removes dot segments, so none leads to `http://a/x/../b` from `http://a/c`. Out of
    /// memory, it returns `Memory`.
    pub fn relativized(
        &self,
        alloc: Global,
        base: Uri<'_, C>,
    ) -> Result<Option<UriRefBuf<C>>, Memory>
        ensures value { IfOk result (λ answer. option_map reference_buf_value answer
            ≡ relativized (reference_value self.now) (reference_value base.entry)) }
        ensures exact { IfOk result (λ answer. IfSome answer (λ reference.
            led_text (reference_text base.entry) (reference_buf_text reference)
            ≡ reference_text self.now)) }
        ensures none { IfOk result (λ answer. IfNone answer
            (NoneLeads C.tests (reference_text self.now) (reference_text base.entry))) }
        ensures shortest { IfOk result (λ answer. IfSome answer (λ reference.
            NoneIsShorter C.tests (reference_text self.now) (reference_text base.entry)
            (reference_buf_text reference))) }
    {
        match ComposedUriRef::<C>::relativized(self.slices(), base.slices())? {
            Some(reference) => Ok(Some(reference.to_owned(alloc)?)),
            None => Ok(None),
        }
    }
}

impl<C: CharSet> UriBuf<C> {
    /// The shortest reference that resolves against the base to this very text, as `relativized` of
    /// the borrowed URI.
    pub fn relativized(
        &self,
        alloc: Global,
        base: Uri<'_, C>,
    ) -> Result<Option<UriRefBuf<C>>, Memory>
        ensures value { IfOk result (λ answer. option_map reference_buf_value answer
            ≡ relativized (reference_buf_value self.now) (reference_value base.entry)) }
        ensures exact { IfOk result (λ answer. IfSome answer (λ reference.
            led_text (reference_text base.entry) (reference_buf_text reference)
            ≡ reference_buf_text self.now)) }
        ensures none { IfOk result (λ answer. IfNone answer
            (NoneLeads C.tests (reference_buf_text self.now) (reference_text base.entry))) }
        ensures shortest { IfOk result (λ answer. IfSome answer (λ reference.
            NoneIsShorter C.tests (reference_buf_text self.now) (reference_text base.entry)
            (reference_buf_text reference))) }
    {
        self.as_reference().relativized(alloc, base)
    }
}
