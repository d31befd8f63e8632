//! References resolved against a base, strict (RFC 3986 section 5.2). An owned value becomes what it
//! resolves to: that is written into a buffer of its own, and only then takes the place of the text.
ghost use Rattle.std.specs.Prelude.{◌≡◌, IfErr, IfOk, IsSome, OnErr, OnOk, true};
ghost use Rattle.iref_grammar.specs.{Grammar.{IsUri, IsUriReference}, Rules.{InUtf8}};
ghost use Rattle.iref_grammar.specs.Resolution.{resolved};
ghost use Rattle.iref_fault.specs.Tried.{TellsInvalid};
ghost use Rattle.iref_component.specs.{is_reference, is_uri, read_reference};
ghost use Rattle.iref_reference_text.specs.{is_readable, value_of, Steps.{Spells}};
ghost use Rattle.iref_reference.specs.{HandedBack.{TellsInvalidBeside}, Parts.{parts_value, uri_parts_value}};
ghost use Rattle.iref_reference.specs.References.{reference_buf_text, reference_buf_value, reference_text};
ghost use Rattle.iref_reference.specs.Resolutions.{IsResolved};

use crate::borrowed::{Reference, Uri, UriRef};
use crate::composed::{Composed, ComposedUri};
use crate::owned::{ReferenceBuf, UriBuf, UriRefBuf};
use crate::parts::{Parts, SchemePart, UriParts};
use iref_fault::{InvalidUri, InvalidUriRef, TryError};
use iref_grammar::chars::CharSet;
use iref_parse::split::{ReferenceSlices, split_reference};
use iref_reference_text::after_authority::resolved_after_authority;
use iref_reference_text::reference_text::{HeldRule, ReferenceText};
use iref_splice::Memory;
use std::alloc::Global;

// What a reference resolves to against a base, given the components of both texts. It is written from
// the front, after an authority and where there is room for both paths, or it is measured first.
fn resolved_uri<C: CharSet>(
    alloc: Global,
    base_text: &str,
    base: ReferenceSlices<'_>,
    text: &str,
    reference: ReferenceSlices<'_>,
) -> Result<UriBuf<C>, Memory>
    requires base_text { is_uri C.tests base_text.now ≡ true }
    requires base { value_of base ≡ read_reference base_text.now }
    requires text { is_reference C.tests text.now ≡ true }
    requires reference { value_of reference ≡ read_reference text.now }
    ensures { IfOk result (λ uri. IsResolved base_text.now text.now (reference_buf_text uri)) }
{
    if let Some((bytes, lengths)) = resolved_after_authority::<C>(
        alloc, base_text, base, text, reference,
    )? {
        return Ok(ReferenceBuf::from_inner(ReferenceText::of_bytes(bytes, lengths)));
    }
    Composed::resolved(base, reference)?.to_owned(alloc)
}

impl<R: HeldRule, C: CharSet> Reference<'_, R, C> {
    /// What the reference resolves to against a base (RFC 3986 section 5.2, strict): `../g` and
    /// `http://a/b/c` give `http://a/g`. A reference without a path keeps the base's as it stands.
    /// Else its own path, or the one merged with the base's, becomes normal, as by `normalized`.
    /// Section 5.2.4 differs where that does not begin with `/`: here `../x` and `s:a` give
    /// `s:../x`, and `x/..` and `s:a` give `s:`. And a segment `.` may stand first: `../..//` and
    /// `http:/a/b` give `http:/.//`. Where dot segments are removed, the result may hold room that
    /// it does not need. Out of memory, it returns `Memory`.
    pub fn resolved(&self, alloc: Global, base: Uri<'_, C>) -> Result<UriBuf<C>, Memory>
        ensures { IfOk result (λ uri. IsResolved (reference_text base.entry)
            (reference_text self.now) (reference_buf_text uri)) }
    {
        let (base, text) = (base.as_str(), self.as_str());
        resolved_uri(
            alloc,
            base,
            split_reference(base),
            text,
            split_reference(text),
        )
    }

    /// Does as `resolved` does with a text: `Invalid` holds a text that is not a URI.
    pub fn try_resolved<'t>(
        &self,
        alloc: Global,
        base: &'t str,
    ) -> Result<UriBuf<C>, TryError<InvalidUri<&'t str>>>
        ensures ok { IfOk result (λ uri. IsResolved base.now (reference_text self.now)
            (reference_buf_text uri)) }
        ensures invalid { TellsInvalid (InUtf8 (IsUri C.tests) base.now)
            (λ error. error.0 ≡ base.entry) result }
    {
        let base = Uri::new(base).map_err(TryError::Invalid)?;
        self.resolved(alloc, base).or(Err(TryError::Memory))
    }
}

impl<'a, S: SchemePart<'a>, C: CharSet> Parts<'a, S, C> {
    /// What the reference of these components resolves to against a base, not written yet: `../g`
    /// and `http://a/b/c` give `http://a/g`. `Memory` says that its length cannot be counted.
    /// Both have to be readable, as components that are read from a text are.
    #[tactic(auto, using(crate::proofs::ResolutionLemmas::scheme_of_base))]
    pub fn resolved(&self, base: &UriParts<'a, C>) -> Result<ComposedUri<'a, C>, Memory>
        requires reference { is_readable C.tests (parts_value S.text self.now) ≡ true }
        requires base { is_readable C.tests (uri_parts_value base.now) ≡ true }
        ensures { IfOk result (Spells
            (resolved (uri_parts_value base.now) (parts_value S.text self.now))) }
    {
        Composed::resolved(base.slices(), self.slices())
    }
}

impl<C: CharSet> Uri<'_, C> {
    /// What a reference resolves to against this base, as `resolved` of the reference:
    /// `http://a/b/c` joined with `../g` is `http://a/g`. Out of memory, it returns `Memory`.
    pub fn joined(&self, alloc: Global, reference: UriRef<'_, C>) -> Result<UriBuf<C>, Memory>
        ensures { IfOk result (λ uri. IsResolved (reference_text self.now)
            (reference_text reference.entry) (reference_buf_text uri)) }
    {
        reference.resolved(alloc, *self)
    }

    /// Does as `joined` does with a text: `Invalid` holds a text that is not a reference.
    pub fn try_joined<'t>(
        &self,
        alloc: Global,
        reference: &'t str,
    ) -> Result<UriBuf<C>, TryError<InvalidUriRef<&'t str>>>
        ensures ok { IfOk result (λ uri. IsResolved (reference_text self.now) reference.now
            (reference_buf_text uri)) }
        ensures invalid { TellsInvalid (InUtf8 (IsUriReference C.tests) reference.now)
            (λ error. error.0 ≡ reference.entry) result }
    {
        let reference = UriRef::new(reference).map_err(TryError::Invalid)?;
        self.joined(alloc, reference).or(Err(TryError::Memory))
    }
}

impl<R: HeldRule, C: CharSet> ReferenceBuf<R, C> {
    /// What it resolves to against a base, as `resolved` of the borrowed reference.
    pub fn resolved(&self, alloc: Global, base: Uri<'_, C>) -> Result<UriBuf<C>, Memory>
        ensures { IfOk result (λ uri. IsResolved (reference_text base.entry)
            (reference_buf_text self.now) (reference_buf_text uri)) }
    {
        self.as_reference().resolved(alloc, base)
    }
}

impl<C: CharSet> UriRefBuf<C> {
    // What the reference resolves to against a base, in a buffer of its own.
    #[tactic(auto, using(crate::proofs::ResolutionLemmas::anew))]
    fn resolved_anew(&self, base: Uri<'_, C>) -> Result<UriBuf<C>, Memory>
        ensures ok { IfOk result (λ uri. IsResolved (reference_text base.entry)
            (reference_buf_text self.now) (reference_buf_text uri)) }
        ensures scheme { IfOk result (λ uri. IsSome (reference_buf_value uri).scheme) }
    {
        let (base, alloc) = (base.as_str(), *self.inner.allocator());
        let reference = self.inner.slices();
        resolved_uri(alloc, base, split_reference(base), self.as_str(), reference)
    }

    /// Becomes what it resolves to against a base, as `resolved` of the borrowed reference says:
    /// `../g` against `http://a/b/c` becomes `http://a/g`. It has a scheme then. Out of memory, it
    /// returns `Memory` and changes nothing.
    pub fn resolve(&mut self, base: Uri<'_, C>) -> Result<(), Memory>
        ensures ok { OnOk result (IsResolved (reference_text base.entry)
            (reference_buf_text self.old) (reference_buf_text self.new)) }
        ensures scheme { OnOk result (IsSome (reference_buf_value self.new).scheme) }
        ensures err { OnErr result (reference_buf_text self.new ≡ reference_buf_text self.old) }
    {
        *self = self.resolved_anew(base)?.into_reference();
        Ok(())
    }

    /// Does as `resolve` does with a text: `Invalid` holds a text that is not a URI.
    pub fn try_resolve<'t>(&mut self, base: &'t str) -> Result<(), TryError<InvalidUri<&'t str>>>
        ensures ok { OnOk result (IsResolved base.now
            (reference_buf_text self.old) (reference_buf_text self.new)) }
        ensures scheme { OnOk result (IsSome (reference_buf_value self.new).scheme) }
        ensures invalid { TellsInvalid (InUtf8 (IsUri C.tests) base.now)
            (λ error. error.0 ≡ base.entry) result }
        ensures err { OnErr result (reference_buf_text self.new ≡ reference_buf_text self.old) }
    {
        let base = Uri::new(base).map_err(TryError::Invalid)?;
        self.resolve(base).or(Err(TryError::Memory))
    }

    /// What it resolves to against a base, as a URI: `../g` against `http://a/b/c` becomes
    /// `http://a/g`. Out of memory, the call returns the reference itself.
    pub fn into_resolved(self, base: Uri<'_, C>) -> Result<UriBuf<C>, (UriRefBuf<C>, Memory)>
        ensures ok { IfOk result (λ uri. IsResolved (reference_text base.entry)
            (reference_buf_text self) (reference_buf_text uri)) }
        ensures err { IfErr result (λ error. error.0 ≡ self) }
    {
        match self.resolved_anew(base) {
            Ok(uri) => Ok(uri),
            Err(error) => Err((self, error)),
        }
    }

    /// Does as `into_resolved` does with a text: `Invalid` holds a text that is not a URI, with the
    /// reference.
    pub fn try_into_resolved<'t>(
        self,
        base: &'t str,
    ) -> Result<UriBuf<C>, (UriRefBuf<C>, TryError<InvalidUri<&'t str>>)>
        ensures ok { IfOk result (λ uri. IsResolved base.now
            (reference_buf_text self) (reference_buf_text uri)) }
        ensures invalid { TellsInvalidBeside (InUtf8 (IsUri C.tests) base.now)
            (λ error. error.0 ≡ base.entry) result }
        ensures err { IfErr result (λ error. error.0 ≡ self) }
    {
        match Uri::new(base) {
            Ok(base) => match self.into_resolved(base) {
                Ok(uri) => Ok(uri),
                Err((reference, Memory)) => Err((reference, TryError::Memory)),
            },
            Err(error) => Err((self, TryError::Invalid(error))),
        }
    }
}

impl<C: CharSet> UriBuf<C> {
    /// Becomes what a reference resolves to against it, as `joined` of the borrowed URI says:
    /// `http://a/b/c` joined with `../g` becomes `http://a/g`. Out of memory, it returns `Memory` and
    /// changes nothing.
    pub fn join(&mut self, reference: UriRef<'_, C>) -> Result<(), Memory>
        ensures ok { OnOk result (IsResolved (reference_buf_text self.old)
            (reference_text reference.entry) (reference_buf_text self.new)) }
        ensures err { OnErr result (reference_buf_text self.new ≡ reference_buf_text self.old) }
    {
        let (text, alloc) = (reference.as_str(), *self.inner.allocator());
        let base = self.inner.slices();
        *self = resolved_uri(alloc, self.as_str(), base, text, split_reference(text))?;
        Ok(())
    }

    /// Does as `join` does with a text: `Invalid` holds a text that is not a reference.
    pub fn try_join<'t>(
        &mut self,
        reference: &'t str,
    ) -> Result<(), TryError<InvalidUriRef<&'t str>>>
        ensures ok { OnOk result (IsResolved (reference_buf_text self.old) reference.now
            (reference_buf_text self.new)) }
        ensures invalid { TellsInvalid (InUtf8 (IsUriReference C.tests) reference.now)
            (λ error. error.0 ≡ reference.entry) result }
        ensures err { OnErr result (reference_buf_text self.new ≡ reference_buf_text self.old) }
    {
        let reference = UriRef::new(reference).map_err(TryError::Invalid)?;
        self.join(reference).or(Err(TryError::Memory))
    }
}
