//! Conversions between URIs and IRIs, and between these and references, by the names of each family.
//! Most keep the text and take no memory: a URI is an IRI (RFC 3987 section 3.1), an IRI that holds
//! ASCII alone is a URI, and a reference with a scheme is one.
//!
//! Any IRI is mapped to a URI (RFC 3987 section 3.1): each byte beyond ASCII is escaped, with
//! upper-case digits, and all else stays, escapes too. So both are equal by their keys.
#![tactic(auto, using(crate::proofs::ConversionLemmas::wider))]

ghost use Rattle.std.specs.{Char.{is_ascii}, List.{list_all}, Prelude.{◌≡◌, IfErr, IfOk, IfSome, IsOk, is_some, true}};
ghost use Rattle.iref_grammar.specs.{uri_chars, IsUri, IsUriReference, InUtf8};
ghost use Rattle.iref_reference.specs.Conversions.{BecomesUri, OwnerBecomesUri, SomeIfIn};
ghost use Rattle.iref_reference.specs.{Mappings.{IsMappingOf, KeepsEquality}, References.{key_of_reference}};
ghost use Rattle.iref_reference.specs.References.{key_of_reference_buf, reference_text, reference_value};
ghost use Rattle.iref_reference.specs.References.{reference_buf_text, reference_buf_value, ParsesReferenceBuf};
ghost use Rattle.iref_reference.specs.References.{NarrowsToUri, OwnerNarrowsToUri};

use crate::borrowed::{Reference, Uri, UriRef};
use crate::owned::{ReferenceBuf, UriBuf, UriRefBuf};
use iref_fault::{InvalidIri, InvalidUri, InvalidUriRef};
use iref_grammar::chars::{CharSet, IriChars, UriChars};
use iref_reference_text::reference_text::{HeldRule, ReferenceText};
use iref_splice::Memory;
use std::alloc::Global;
use std::convert::TryFrom;

impl<'a, R: HeldRule> Reference<'a, R, UriChars> {
    /// The reference of IRIs of the same text, with the same components: `a?q` is one, too.
    pub fn as_iri_ref(&self) -> UriRef<'a, IriChars>
        ensures text { reference_text result ≡ reference_text self.now }
        ensures value { reference_value result ≡ reference_value self.now }
    {
        UriRef::new_unchecked(self.as_str())
    }
}

impl<'a> Uri<'a, UriChars> {
    /// The IRI of the same text: each URI is one, such as `s:a`.
    pub fn as_iri(&self) -> Uri<'a, IriChars>
        ensures { reference_text result ≡ reference_text self.now }
    {
        Uri::new_unchecked(self.as_str())
    }

    /// The reference of the same text, which has a scheme: of the URI `s:a`, the reference `s:a`.
    pub fn as_uri_ref(&self) -> UriRef<'a, UriChars>
        ensures text { reference_text result ≡ reference_text self.now }
        ensures scheme { is_some (reference_value result).scheme ≡ true }
    {
        self.to_reference()
    }
}

impl<'a> UriRef<'a, UriChars> {
    /// The IRI of the same text, if the reference has a scheme, as `s:a` has; of `a`, None.
    pub fn as_iri(&self) -> Option<Uri<'a, IriChars>>
        ensures text { IfSome result (λ iri. reference_text iri ≡ reference_text self.now) }
        ensures scheme { is_some result ≡ is_some (reference_value self.now).scheme }
    {
        self.as_iri_ref().as_iri()
    }

    /// The URI of the same text, if the reference has a scheme, as `s:a` has; of `a`, None.
    pub fn as_uri(&self) -> Option<Uri<'a, UriChars>>
        ensures text { IfSome result (λ uri. reference_text uri ≡ reference_text self.now) }
        ensures scheme { is_some result ≡ is_some (reference_value self.now).scheme }
    {
        self.to_uri_rule()
    }
}

impl<'a, R: HeldRule, C: CharSet> Reference<'a, R, C> {
    // The same text in another rule, or over other characters, if it is in it.
    fn converted<S: HeldRule, D: CharSet>(&self) -> Option<Reference<'a, S, D>>
        ensures { SomeIfIn (InUtf8 (S.rule D.tests)) (reference_text self.now)
            reference_text result }
    {
        let text = self.as_str();
        if S::accepts::<D>(text) {
            Some(Reference::new_unchecked(text))
        } else {
            None
        }
    }
}

impl<'a, R: HeldRule> Reference<'a, R, IriChars> {
    /// The URI of the same text, if it is one: it has a scheme and holds ASCII alone, as `s:a`; of
    /// `s:é`, None.
    pub fn as_uri(&self) -> Option<Uri<'a, UriChars>>
        ensures { SomeIfIn (InUtf8 (IsUri uri_chars)) (reference_text self.now)
            reference_text result }
    {
        self.converted()
    }

    /// The reference of URIs of the same text, if it is one: it holds ASCII alone, as `a`; of `é`,
    /// None.
    pub fn as_uri_ref(&self) -> Option<UriRef<'a, UriChars>>
        ensures { SomeIfIn (InUtf8 (IsUriReference uri_chars)) (reference_text self.now)
            reference_text result }
    {
        self.converted()
    }

    // The mapping, in the same rule over the characters of URIs.
    fn mapped(&self, alloc: Global) -> Result<ReferenceBuf<R, UriChars>, Memory>
        ensures { IfOk result (IsMappingOf (InUtf8 (R.rule uri_chars)) (reference_text self.now)
            (key_of_reference self.now)) }
    {
        let inner = ReferenceText::mapped::<IriChars>(alloc, self.as_str())?;
        Ok(ReferenceBuf::from_inner(inner))
    }
}

impl<'a> Uri<'a, IriChars> {
    /// The reference of the same text, which has a scheme: of the IRI `s:é`, the reference `s:é`.
    pub fn as_iri_ref(&self) -> UriRef<'a, IriChars>
        ensures text { reference_text result ≡ reference_text self.now }
        ensures scheme { is_some (reference_value result).scheme ≡ true }
    {
        self.to_reference()
    }

    /// The URI that it maps to (RFC 3987 section 3.1): of `http://é`, `http://%C3%A9`. It equals
    /// this one. Out of memory, it returns `Memory`.
    pub fn to_uri(&self, alloc: Global) -> Result<UriBuf<UriChars>, Memory>
        ensures { IfOk result (IsMappingOf (InUtf8 (IsUri uri_chars)) (reference_text self.now)
            (key_of_reference self.now)) }
    {
        self.mapped(alloc)
    }
}

impl<'a> UriRef<'a, IriChars> {
    /// The IRI of the same text, if the reference has a scheme, as `s:é` has; of `é`, None.
    pub fn as_iri(&self) -> Option<Uri<'a, IriChars>>
        ensures text { IfSome result (λ iri. reference_text iri ≡ reference_text self.now) }
        ensures scheme { is_some result ≡ is_some (reference_value self.now).scheme }
    {
        self.to_uri_rule()
    }

    /// The reference of URIs that it maps to (RFC 3987 section 3.1): of `//é?%41`, `//%C3%A9?%41`.
    /// It equals this one. Out of memory, it returns `Memory`.
    pub fn to_uri_ref(&self, alloc: Global) -> Result<UriRefBuf<UriChars>, Memory>
        ensures { IfOk result (IsMappingOf (InUtf8 (IsUriReference uri_chars))
            (reference_text self.now) (key_of_reference self.now)) }
    {
        self.mapped(alloc)
    }
}

impl<'a, R: HeldRule> From<Reference<'a, R, UriChars>> for UriRef<'a, IriChars> {
    ghost from_gives = { λ uri iri. reference_text iri ≡ reference_text uri };

    fn from(uri: Reference<'a, R, UriChars>) -> Self {
        uri.as_iri_ref()
    }
}

impl<'a> From<Uri<'a, UriChars>> for Uri<'a, IriChars> {
    ghost from_gives = { λ uri iri. reference_text iri ≡ reference_text uri };

    fn from(uri: Uri<'a, UriChars>) -> Self {
        uri.as_iri()
    }
}

impl<'a, R: HeldRule> TryFrom<Reference<'a, R, IriChars>> for Uri<'a, UriChars> {
    type Error = InvalidUri<Reference<'a, R, IriChars>>;

    ghost try_from_gives = { λ iri result. BecomesUri IsUri (λ error. error.0) iri result };

    fn try_from(iri: Reference<'a, R, IriChars>) -> Result<Self, Self::Error> {
        iri.as_uri().ok_or(InvalidUri(iri))
    }
}

impl<'a, R: HeldRule> TryFrom<Reference<'a, R, IriChars>> for UriRef<'a, UriChars> {
    type Error = InvalidUriRef<Reference<'a, R, IriChars>>;

    ghost try_from_gives = { λ iri result. BecomesUri IsUriReference (λ e. e.0) iri result };

    fn try_from(iri: Reference<'a, R, IriChars>) -> Result<Self, Self::Error> {
        iri.as_uri_ref().ok_or(InvalidUriRef(iri))
    }
}

impl<'a> TryFrom<UriRef<'a, UriChars>> for Uri<'a, IriChars> {
    type Error = InvalidIri<UriRef<'a, UriChars>>;

    ghost try_from_gives = { λ reference result. NarrowsToUri (λ error. error.0) reference result };

    fn try_from(reference: UriRef<'a, UriChars>) -> Result<Self, InvalidIri<UriRef<'a, UriChars>>> {
        reference.as_iri().ok_or(InvalidIri(reference))
    }
}

impl<R: HeldRule> ReferenceBuf<R, UriChars> {
    /// The reference of IRIs of the same text, borrowed, with the same components: `a?q` is one,
    /// too.
    pub fn as_iri_ref(&self) -> UriRef<'_, IriChars>
        ensures text { reference_text result ≡ reference_buf_text self.now }
        ensures value { reference_value result ≡ reference_buf_value self.now }
    {
        self.as_reference().as_iri_ref()
    }

    /// The reference of IRIs of the same text, with no copy: `a?q` is one, too.
    pub fn into_iri_ref(self) -> UriRefBuf<IriChars>
        ensures { reference_buf_text result ≡ reference_buf_text self }
    {
        UriRefBuf::from_inner(self.inner.into_rule())
    }
}

impl UriBuf<UriChars> {
    /// The IRI of the same text, borrowed: each URI is one, such as `s:a`.
    pub fn as_iri(&self) -> Uri<'_, IriChars>
        ensures { reference_text result ≡ reference_buf_text self.now }
    {
        self.as_reference().as_iri()
    }

    /// The IRI of the same text, with no copy: each URI is one, such as `s:a`.
    pub fn into_iri(self) -> UriBuf<IriChars>
        ensures { reference_buf_text result ≡ reference_buf_text self }
    {
        UriBuf::from_inner(self.inner.into_rule())
    }

    /// The borrowed URI, such as `s:a`.
    pub fn as_uri(&self) -> Uri<'_, UriChars>
        ensures { reference_text result ≡ reference_buf_text self.now }
    {
        self.as_reference()
    }

    /// The reference of the same text, borrowed, which has a scheme: of the URI `s:a`, the
    /// reference `s:a`.
    pub fn as_uri_ref(&self) -> UriRef<'_, UriChars>
        ensures text { reference_text result ≡ reference_buf_text self.now }
        ensures scheme { is_some (reference_value result).scheme ≡ true }
    {
        self.as_reference().to_reference()
    }

    /// The reference of the same text, with no copy: of the URI `s:a`, the reference `s:a`.
    pub fn into_uri_ref(self) -> UriRefBuf<UriChars>
        ensures { reference_buf_text result ≡ reference_buf_text self }
    {
        self.into_reference()
    }
}

impl UriRefBuf<UriChars> {
    /// The IRI of the same text, borrowed, if the reference has a scheme, as `s:a` has; of `a`,
    /// None.
    pub fn as_iri(&self) -> Option<Uri<'_, IriChars>>
        ensures text { IfSome result (λ iri. reference_text iri ≡ reference_buf_text self.now) }
        ensures scheme { is_some result ≡ is_some (reference_buf_value self.now).scheme }
    {
        self.as_reference().as_iri()
    }

    /// The IRI of the same text, with no copy, if the reference has a scheme, as `s:a` has.
    /// `InvalidIri` holds one without, such as `a`.
    pub fn try_into_iri(self) -> Result<UriBuf<IriChars>, InvalidIri<Self>>
        ensures { OwnerNarrowsToUri (λ error. error.0) self result }
    {
        Ok(self.try_into_uri()?.into_iri())
    }

    /// The borrowed reference, such as `a?q`.
    pub fn as_uri_ref(&self) -> UriRef<'_, UriChars>
        ensures { reference_text result ≡ reference_buf_text self.now }
    {
        self.as_reference()
    }

    /// The URI of the same text, borrowed, if the reference has a scheme, as `s:a` has; of `a`,
    /// None.
    pub fn as_uri(&self) -> Option<Uri<'_, UriChars>>
        ensures text { IfSome result (λ uri. reference_text uri ≡ reference_buf_text self.now) }
        ensures scheme { is_some result ≡ is_some (reference_buf_value self.now).scheme }
    {
        self.as_reference().to_uri_rule()
    }

    /// The URI of the same text, with no copy, if the reference has a scheme, as `s:a` has.
    /// `InvalidUri` holds one without, such as `a`.
    pub fn try_into_uri(self) -> Result<UriBuf<UriChars>, InvalidUri<Self>>
        ensures { OwnerNarrowsToUri (λ error. error.0) self result }
    {
        self.try_into_uri_rule()
    }
}

impl<R: HeldRule, C: CharSet> ReferenceBuf<R, C> {
    // The same text in another rule, or over other characters, if it is in it, or else the owned
    // value.
    fn converted<S: HeldRule, D: CharSet>(self) -> Result<ReferenceBuf<S, D>, Self>
        ensures { ParsesReferenceBuf (S.rule D.tests) (λ owner. owner)
            (reference_buf_text self) self result }
    {
        if S::accepts::<D>(self.as_str()) {
            Ok(ReferenceBuf::from_inner(self.inner.into_rule()))
        } else {
            Err(self)
        }
    }
}

impl<R: HeldRule> ReferenceBuf<R, IriChars> {
    /// The URI of the same text, borrowed, if it is one: it has a scheme and holds ASCII alone, as
    /// `s:a`; of `s:é`, None.
    pub fn as_uri(&self) -> Option<Uri<'_, UriChars>>
        ensures { SomeIfIn (InUtf8 (IsUri uri_chars)) (reference_buf_text self.now)
            reference_text result }
    {
        self.as_reference().as_uri()
    }

    /// The reference of URIs of the same text, borrowed, if it is one: it holds ASCII alone, as
    /// `a`; of `é`, None.
    pub fn as_uri_ref(&self) -> Option<UriRef<'_, UriChars>>
        ensures { SomeIfIn (InUtf8 (IsUriReference uri_chars)) (reference_buf_text self.now)
            reference_text result }
    {
        self.as_reference().as_uri_ref()
    }

    /// The URI of the same text, with no copy, if it is one, as `s:a`. `InvalidUri` holds another
    /// owned value, such as `s:é`.
    pub fn try_into_uri(self) -> Result<UriBuf<UriChars>, InvalidUri<Self>>
        ensures { OwnerBecomesUri IsUri (λ error. error.0) self result }
    {
        self.converted().map_err(InvalidUri)
    }

    /// The reference of URIs of the same text, with no copy, if it is one, as `a`. `InvalidUriRef`
    /// holds another owned value, such as `é`.
    pub fn try_into_uri_ref(self) -> Result<UriRefBuf<UriChars>, InvalidUriRef<Self>>
        ensures { OwnerBecomesUri IsUriReference (λ error. error.0) self result }
    {
        self.converted().map_err(InvalidUriRef)
    }

    // The mapping within the buffer, in the same rule over the characters of URIs.
    fn into_mapped(self) -> Result<ReferenceBuf<R, UriChars>, (Self, Memory)>
        ensures ok { IfOk result (IsMappingOf (InUtf8 (R.rule uri_chars)) (reference_buf_text self)
            (key_of_reference_buf self)) }
        ensures ascii { list_all is_ascii (reference_buf_text self) ≡ true → IsOk result }
        ensures err { IfErr result (λ error. error.0 ≡ self) }
    {
        match self.inner.into_mapped() {
            Ok(inner) => Ok(ReferenceBuf::from_inner(inner)),
            Err(inner) => Err((ReferenceBuf::from_inner(inner), Memory)),
        }
    }
}

impl UriBuf<IriChars> {
    /// The borrowed IRI, such as `s:é`.
    pub fn as_iri(&self) -> Uri<'_, IriChars>
        ensures { reference_text result ≡ reference_buf_text self.now }
    {
        self.as_reference()
    }

    /// The reference of the same text, borrowed, which has a scheme: of the IRI `s:é`, the
    /// reference `s:é`.
    pub fn as_iri_ref(&self) -> UriRef<'_, IriChars>
        ensures text { reference_text result ≡ reference_buf_text self.now }
        ensures scheme { is_some (reference_value result).scheme ≡ true }
    {
        self.as_reference().to_reference()
    }

    /// The reference of the same text, with no copy: of the IRI `s:é`, the reference `s:é`.
    pub fn into_iri_ref(self) -> UriRefBuf<IriChars>
        ensures { reference_buf_text result ≡ reference_buf_text self }
    {
        self.into_reference()
    }

    /// The URI that it maps to, as `to_uri` says, within its buffer. A text of ASCII takes no
    /// memory. Out of memory, it returns the IRI unchanged.
    pub fn into_uri(self) -> Result<UriBuf<UriChars>, (Self, Memory)>
        ensures ok { IfOk result (IsMappingOf (InUtf8 (IsUri uri_chars)) (reference_buf_text self)
            (key_of_reference_buf self)) }
        ensures ascii { list_all is_ascii (reference_buf_text self) ≡ true → IsOk result }
        ensures err { IfErr result (λ error. error.0 ≡ self) }
    {
        self.into_mapped()
    }
}

impl UriRefBuf<IriChars> {
    /// The borrowed reference, such as `é?q`.
    pub fn as_iri_ref(&self) -> UriRef<'_, IriChars>
        ensures { reference_text result ≡ reference_buf_text self.now }
    {
        self.as_reference()
    }

    /// The IRI of the same text, borrowed, if the reference has a scheme, as `s:é` has; of `é`,
    /// None.
    pub fn as_iri(&self) -> Option<Uri<'_, IriChars>>
        ensures text { IfSome result (λ iri. reference_text iri ≡ reference_buf_text self.now) }
        ensures scheme { is_some result ≡ is_some (reference_buf_value self.now).scheme }
    {
        self.as_reference().to_uri_rule()
    }

    /// The IRI of the same text, with no copy, if the reference has a scheme, as `s:é` has.
    /// `InvalidIri` holds one without, such as `é`.
    pub fn try_into_iri(self) -> Result<UriBuf<IriChars>, InvalidUri<Self>>
        ensures { OwnerNarrowsToUri (λ error. error.0) self result }
    {
        self.try_into_uri_rule()
    }

    /// The reference of URIs that it maps to, as `to_uri_ref` says, within its buffer. A text of
    /// ASCII takes no memory. Out of memory, it returns the reference unchanged.
    pub fn into_uri_ref(self) -> Result<UriRefBuf<UriChars>, (Self, Memory)>
        ensures ok { IfOk result (IsMappingOf (InUtf8 (IsUriReference uri_chars))
            (reference_buf_text self) (key_of_reference_buf self)) }
        ensures ascii { list_all is_ascii (reference_buf_text self) ≡ true → IsOk result }
        ensures err { IfErr result (λ error. error.0 ≡ self) }
    {
        self.into_mapped()
    }
}

impl<R: HeldRule> From<ReferenceBuf<R, UriChars>> for UriRefBuf<IriChars> {
    ghost from_gives = { λ uri iri. reference_buf_text iri ≡ reference_buf_text uri };

    fn from(uri: ReferenceBuf<R, UriChars>) -> Self {
        uri.into_iri_ref()
    }
}

impl From<UriBuf<UriChars>> for UriBuf<IriChars> {
    ghost from_gives = { λ uri iri. reference_buf_text iri ≡ reference_buf_text uri };

    fn from(uri: UriBuf<UriChars>) -> Self {
        uri.into_iri()
    }
}

impl<R: HeldRule> TryFrom<ReferenceBuf<R, IriChars>> for UriBuf<UriChars> {
    type Error = InvalidUri<ReferenceBuf<R, IriChars>>;

    ghost try_from_gives = { λ iri result. OwnerBecomesUri IsUri (λ error. error.0) iri result };

    fn try_from(iri: ReferenceBuf<R, IriChars>) -> Result<Self, Self::Error> {
        iri.try_into_uri()
    }
}

impl<R: HeldRule> TryFrom<ReferenceBuf<R, IriChars>> for UriRefBuf<UriChars> {
    type Error = InvalidUriRef<ReferenceBuf<R, IriChars>>;

    ghost try_from_gives = { λ iri result. OwnerBecomesUri IsUriReference (λ e. e.0) iri result };

    fn try_from(iri: ReferenceBuf<R, IriChars>) -> Result<Self, Self::Error> {
        iri.try_into_uri_ref()
    }
}

impl TryFrom<UriRefBuf<UriChars>> for UriBuf<IriChars> {
    type Error = InvalidIri<UriRefBuf<UriChars>>;

    ghost try_from_gives = { λ reference result. OwnerNarrowsToUri (λ e. e.0) reference result };

    fn try_from(reference: UriRefBuf<UriChars>) -> Result<Self, InvalidIri<UriRefBuf<UriChars>>> {
        reference.try_into_iri()
    }
}

/// Two IRIs are equal exactly if their mappings are, by the `==` of each: of a mapping it asks for
/// the key that each call above says it has.
pub fn mappings_are_equal_as_their_iris()
    ensures references { KeepsEquality key_of_reference key_of_reference_buf
        ⟦<UriRef<'static, IriChars> as PartialEq>⟧.eq
        ⟦<UriRefBuf<UriChars> as PartialEq>⟧.eq }
    ensures uris { KeepsEquality key_of_reference key_of_reference_buf
        ⟦<Uri<'static, IriChars> as PartialEq>⟧.eq
        ⟦<UriBuf<UriChars> as PartialEq>⟧.eq }
    ensures owned_references { KeepsEquality key_of_reference_buf key_of_reference_buf
        ⟦<UriRefBuf<IriChars> as PartialEq>⟧.eq
        ⟦<UriRefBuf<UriChars> as PartialEq>⟧.eq }
    ensures owned_uris { KeepsEquality key_of_reference_buf key_of_reference_buf
        ⟦<UriBuf<IriChars> as PartialEq>⟧.eq
        ⟦<UriBuf<UriChars> as PartialEq>⟧.eq }
{}
