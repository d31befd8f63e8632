//! References that own their text (RFC 3986 sections 3 and 4.1).
ghost use Rattle.std.specs.{Prelude.{◌≡◌, ◌++◌, true, [], ◌∷◌, Some, None, IfOk, option_map}, String.{string_bytes}};
ghost use Rattle.iref_component.specs.{colon, hash_sign, spell_authority, before, spell_path, spell_components};
ghost use Rattle.iref_component.specs.{hierarchy, spell, with_query, offsets_of, with_fragment, user_info_of, host_of};
ghost use Rattle.iref_component.specs.{port_of, base_of, text_of};
ghost use Rattle.iref_reference_text.specs.{is_readable};
ghost use Rattle.iref_reference.specs.References.{reference_text, reference_value, reference_buf_text};
ghost use Rattle.iref_reference.specs.References.{reference_buf_value, OwnerNarrowsToUri, ParsesReferenceBuf};
ghost use Rattle.iref_reference.specs.Parts.{uri_ref_part_texts, uri_ref_parts_value, part_texts, parts_value};

use crate::borrowed::{Reference, UriRef};
use crate::parts::{Parts, UriRefParts};
use crate::rule::{HasScheme, ReferenceRule, UriRule};
use iref_component::authority::Authority;
use iref_component::named_texts::{Fragment, Host, Port, Query, SchemeBuf, UserInfo};
use iref_component::path::Path;
use iref_component::rule::Refuses;
use iref_fault::InvalidUri;
use iref_grammar::chars::CharSet;
use iref_grammar::offsets::Offsets;
use iref_reference_text::reference_text::{HeldRule, ReferenceText};
use iref_splice::Memory;
use std::alloc::Global;
use std::convert::TryFrom;
use std::fmt;

/// A reference of a rule that owns its text, and knows where its components are, in bytes: of
/// `s:/a?q` the query is at 5 to 6. `new` with a text outside the rule returns an error that holds
/// it (RFC 3986 sections 3 and 4.1).
#[derive(Drop)]
pub struct ReferenceBuf<R: HeldRule, C: CharSet> {
    pub(crate) inner: ReferenceText<R, C>,
}

/// A reference that owns its text, such as `../b?c` (RFC 3986 section 4.1).
pub type UriRefBuf<C> = ReferenceBuf<ReferenceRule, C>;

/// A URI that owns its text, such as `http://example.org/a` (RFC 3986 section 3).
pub type UriBuf<C> = ReferenceBuf<UriRule, C>;

impl<R: HeldRule + Refuses<String>, C: CharSet> ReferenceBuf<R, C> {
    /// The reference of this text, with no copy (RFC 3986 section 4.1): `UriRefBuf::new` takes
    /// `../b?c`. The error of a text outside the rule, such as `a b`, holds that text.
    pub fn new(text: String) -> Result<Self, R::Error>
        ensures { ParsesReferenceBuf (R.rule C.tests) R.refused (string_bytes text) text result }
    {
        match ReferenceText::new(text) {
            Ok(inner) => Ok(ReferenceBuf { inner }),
            Err(text) => Err(R::refuse(text)),
        }
    }
}

impl<R: HeldRule + Refuses<Vec<u8>>, C: CharSet> ReferenceBuf<R, C> {
    /// The reference of these bytes of UTF-8, with no copy (RFC 3986 section 4.1):
    /// `UriRefBuf::from_bytes` takes those of `../b?c`. The error of other bytes, such as those of
    /// `a b`, holds them.
    pub fn from_bytes(bytes: Vec<u8>) -> Result<Self, R::Error>
        ensures { ParsesReferenceBuf (R.rule C.tests) R.refused bytes.items bytes result }
    {
        match ReferenceText::from_bytes(bytes) {
            Ok(inner) => Ok(ReferenceBuf { inner }),
            Err(bytes) => Err(R::refuse(bytes)),
        }
    }
}

impl<R: HeldRule, C: CharSet> ReferenceBuf<R, C> {
    // The owned value of a text with its offsets.
    pub(crate) fn from_inner(inner: ReferenceText<R, C>) -> Self
        ensures { reference_buf_text result ≡ inner }
    {
        ReferenceBuf { inner }
    }

    // The borrowed value.
    pub(crate) fn as_reference(&self) -> Reference<'_, R, C>
        ensures { reference_text result ≡ reference_buf_text self.now }
    {
        Reference::new_unchecked(self.as_str())
    }

    /// The text: of the URI `s:a`, `s:a`.
    pub fn as_str(&self) -> &str
        ensures text { result.now ≡ reference_buf_text self.now }
        ensures in_rule { R.test C.tests result.now ≡ true }
    {
        self.inner.as_str()
    }

    /// The bytes of the text: of `s:a` they are `b"s:a"`.
    pub fn as_bytes(&self) -> &[u8]
        ensures { result.now ≡ reference_buf_text self.now }
    {
        self.as_str().as_bytes()
    }

    /// Where the components are, in bytes (RFC 3986 section 3): of `s:/a?q` the path is at 2 to 4,
    /// the query at 5 to 6. No other reference spells this text.
    pub fn offsets(&self) -> Offsets
        ensures { result ≡ offsets_of (reference_buf_text self.now) }
    {
        self.inner.offsets()
    }

    // The components, with a scheme if there is one.
    pub(crate) fn reference_parts(&self) -> UriRefParts<'_, C>
        ensures texts { uri_ref_part_texts result
            ≡ spell_components (reference_buf_value self.now) }
        ensures value { uri_ref_parts_value result ≡ reference_buf_value self.now }
    {
        UriRefParts::from_slices(self.inner.slices())
    }

    /// The authority, if the reference has one (RFC 3986 section 3.2): of `//u@h:80/a`, `u@h:80`.
    pub fn authority(&self) -> Option<Authority<'_, C>>
        ensures { option_map text_of result
            ≡ option_map spell_authority (reference_buf_value self.now).authority }
    {
        self.reference_parts().authority
    }

    /// The user info, if the reference has an authority with one (RFC 3986 section 3.2.1): of
    /// `//u@h/a`, `u`.
    pub fn user_info(&self) -> Option<UserInfo<'_, C>>
        ensures { option_map text_of result ≡ user_info_of (reference_buf_value self.now) }
    {
        self.reference_parts().authority_parts()?.user_info
    }

    /// The host, if the reference has an authority (RFC 3986 section 3.2.2): of `//u@h:80/a`, `h`.
    pub fn host(&self) -> Option<Host<'_, C>>
        ensures { option_map text_of result ≡ host_of (reference_buf_value self.now) }
    {
        Some(self.reference_parts().authority_parts()?.host)
    }

    /// The port, if the reference has an authority with one (RFC 3986 section 3.2.3): of
    /// `//h:80/a`, `80`.
    pub fn port(&self) -> Option<Port<'_>>
        ensures { option_map text_of result ≡ port_of (reference_buf_value self.now) }
    {
        self.reference_parts().authority_parts()?.port
    }

    /// The path, which may be empty (RFC 3986 section 3.3): of `//h/a?q`, `/a`.
    pub fn path(&self) -> Path<'_, C>
        ensures { text_of result ≡ spell_path (reference_buf_value self.now).path }
    {
        self.reference_parts().path
    }

    /// The query, if the reference has one (RFC 3986 section 3.4): of `a?q#f`, `q`; of `a?`, an
    /// empty one.
    pub fn query(&self) -> Option<Query<'_, C>>
        ensures { option_map text_of result ≡ (reference_buf_value self.now).query }
    {
        self.reference_parts().query
    }

    /// The fragment, if the reference has one (RFC 3986 section 3.5): of `a?q#f`, `f`.
    pub fn fragment(&self) -> Option<Fragment<'_, C>>
        ensures { option_map text_of result ≡ (reference_buf_value self.now).fragment }
    {
        self.reference_parts().fragment
    }

    /// The reference up to its fragment: of `a?b#c`, `a?b`.
    pub fn without_fragment(&self) -> UriRef<'_, C>
        ensures text { reference_text result
            ≡ before (hash_sign ∷ []) (reference_buf_text self.now) }
        ensures value { reference_value result ≡ with_fragment None (reference_buf_value self.now) }
    {
        UriRef::new_unchecked(self.inner.without_fragment())
    }

    /// The reference up to its query and its fragment: of `a?b#c`, `a`.
    pub fn without_query_and_fragment(&self) -> UriRef<'_, C>
        ensures text { reference_text result ≡ hierarchy (reference_buf_text self.now) }
        ensures value { reference_value result
            ≡ with_query None (with_fragment None (reference_buf_value self.now)) }
    {
        UriRef::new_unchecked(self.inner.without_query_and_fragment())
    }

    /// The reference up to the end of the path's directory: of `a/b/c?d`, `a/b/` (RFC 3986
    /// section 5.2.3).
    pub fn base(&self) -> Reference<'_, R, C>
        ensures text { reference_text result ≡ spell (base_of (reference_buf_value self.now)) }
        ensures value { reference_value result ≡ base_of (reference_buf_value self.now) }
    {
        Reference::new_unchecked(self.inner.base_text())
    }

    /// The text, with no copy: of the URI `s:a`, `s:a`.
    pub fn into_string(self) -> String
        ensures text { string_bytes result ≡ reference_buf_text self }
        ensures in_rule { R.test C.tests (string_bytes result) ≡ true }
    {
        self.inner.into_string()
    }

    /// The bytes of the text, with no copy: of `s:a` they are `b"s:a"`.
    pub fn into_bytes(self) -> Vec<u8>
        ensures { result.items ≡ reference_buf_text self }
    {
        self.into_string().into_bytes()
    }

    // The URI of the same text, with no copy, or the reference if it has no scheme.
    #[tactic(auto, using(iref_grammar::proofs::ComponentLemmas::uri_if_scheme))]
    pub(crate) fn try_into_uri_rule(self) -> Result<UriBuf<C>, InvalidUri<Self>>
        ensures { OwnerNarrowsToUri (λ error. error.0) self result }
    {
        if self.reference_parts().scheme.is_some() {
            Ok(UriBuf::from_inner(self.inner.into_rule()))
        } else {
            Err(InvalidUri(self))
        }
    }
}

impl<'a, R: HasScheme<'a>, C: CharSet> ReferenceBuf<R, C> {
    /// The components, as slices of the text (RFC 3986 section 3): of `//h/a?q` no scheme, the
    /// authority `h`, the path `/a`, the query `q` and no fragment. No other reference spells this
    /// text.
    #[tactic(auto, using(iref_reference_text::proofs::ReferenceTextLemmas::spelled))]
    pub fn parts(&'a self) -> Parts<'a, R::Scheme, C>
        ensures texts { part_texts R.Scheme.text result
            ≡ spell_components (reference_buf_value self.now) }
        ensures value { parts_value R.Scheme.text result ≡ reference_buf_value self.now }
        ensures spelled { spell (reference_buf_value self.now) ≡ reference_buf_text self.now }
        ensures readable { is_readable C.tests (parts_value R.Scheme.text result) ≡ true }
    {
        Parts::from_slices(self.inner.slices())
    }

    /// The scheme (RFC 3986 section 3.1): of the URI `s:a`, `s`. A reference may have none, as `a`.
    pub fn scheme(&'a self) -> R::Scheme
        ensures { R.Scheme.text result ≡ (reference_buf_value self.now).scheme }
    {
        self.parts().scheme
    }
}

impl<C: CharSet> UriRefBuf<C> {
    /// The empty reference (RFC 3986 section 4.4), which is equal to `a/..`. It takes no memory.
    #[tactic(auto, using(iref_grammar::proofs::EmptyLemmas::is_reference_empty))]
    pub fn empty(alloc: Global) -> Self
        ensures { reference_buf_text result ≡ [] }
    {
        UriRefBuf::from_inner(ReferenceText::new_unchecked(String::new(alloc)))
    }
}

impl<C: CharSet> UriBuf<C> {
    /// The URI that is a scheme alone: of `data`, `data:`. It takes the scheme's buffer, which
    /// grows only where it has no room for the `:`. Out of memory, it returns `Memory`.
    pub fn from_scheme(scheme: SchemeBuf) -> Result<Self, Memory>
        ensures { IfOk result (λ uri.
            reference_buf_text uri ≡ text_of scheme ++ colon ∷ []) }
    {
        Ok(UriBuf::from_inner(ReferenceText::from_scheme(scheme.into_string())?))
    }

    // The reference of the same text, with no copy.
    #[tactic(auto, using(iref_grammar::proofs::ComponentLemmas::full))]
    pub(crate) fn into_reference(self) -> UriRefBuf<C>
        ensures { reference_buf_text result ≡ reference_buf_text self }
    {
        UriRefBuf::from_inner(self.inner.into_rule())
    }
}

impl<C: CharSet> From<UriBuf<C>> for UriRefBuf<C> {
    ghost from_gives = { λ uri reference. reference_buf_text reference ≡ reference_buf_text uri };

    fn from(uri: UriBuf<C>) -> Self {
        uri.into_reference()
    }
}

impl<C: CharSet> TryFrom<UriRefBuf<C>> for UriBuf<C> {
    type Error = InvalidUri<UriRefBuf<C>>;

    ghost try_from_gives = { λ reference result. OwnerNarrowsToUri (λ e. e.0) reference result };

    fn try_from(reference: UriRefBuf<C>) -> Result<Self, InvalidUri<UriRefBuf<C>>> {
        reference.try_into_uri_rule()
    }
}

impl<R: HeldRule + Refuses<String>, C: CharSet> TryFrom<String> for ReferenceBuf<R, C> {
    type Error = R::Error;

    ghost try_from_gives = { λ text result. ParsesReferenceBuf (R.rule C.tests) R.refused
        (string_bytes text) text result };

    fn try_from(text: String) -> Result<Self, R::Error> {
        ReferenceBuf::new(text)
    }
}

impl<R: HeldRule + Refuses<Vec<u8>>, C: CharSet> TryFrom<Vec<u8>> for ReferenceBuf<R, C> {
    type Error = R::Error;

    ghost try_from_gives = { λ bytes result. ParsesReferenceBuf (R.rule C.tests) R.refused
        bytes.items bytes result };

    fn try_from(bytes: Vec<u8>) -> Result<Self, R::Error> {
        ReferenceBuf::from_bytes(bytes)
    }
}

impl<R: HeldRule, C: CharSet> fmt::Debug for ReferenceBuf<R, C> {
    fn fmt<W: fmt::Write>(&self, f: &mut fmt::Formatter<W>) -> fmt::Result {
        fmt::Debug::fmt(&self.inner, f)
    }
}

impl<R: HeldRule, C: CharSet> fmt::Display for ReferenceBuf<R, C> {
    ghost output = { λ reference. Some (reference_buf_text reference) };

    fn fmt<W: fmt::Write>(&self, f: &mut fmt::Formatter<W>) -> fmt::Result {
        f.write_str(self.as_str())
    }
}
