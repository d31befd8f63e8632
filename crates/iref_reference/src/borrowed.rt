//! Borrowed references (RFC 3986 sections 3 and 4.1).
ghost use Rattle.std.specs.Prelude.{IfOk, IfSome, is_some, ◌≡◌, ◌↔◌, true, [], ◌∷◌, Some, None, option_map};
ghost use Rattle.iref_grammar.specs.{InUtf8};
ghost use Rattle.iref_fault.specs.BytePlaces.{fault_value};
ghost use Rattle.iref_component.specs.{text_of, spell_components, hierarchy, spell, hash_sign, spell_authority, before};
ghost use Rattle.iref_component.specs.{with_query, with_fragment, user_info_of, host_of, port_of, base_of, spell_path};
ghost use Rattle.iref_reference_text.specs.{AreComponents, is_readable, texts_of, value_of};
ghost use Rattle.iref_reference.specs.Parts.{part_texts, parts_value, uri_ref_part_texts, uri_ref_parts_value};
ghost use Rattle.iref_reference.specs.References.{reference_text, reference_value, reference_buf_text, NarrowsToUri};
ghost use Rattle.iref_reference.specs.References.{ParsesReference};

use crate::owned::ReferenceBuf;
use crate::parts::{Parts, UriRefParts};
use crate::rule::{HasScheme, ReferenceRule, UriRule};
use iref_component::authority::Authority;
use iref_component::borrowed::BorrowedText;
use iref_component::faults::HasFault;
use iref_component::named_texts::{Fragment, Host, Port, Query, UserInfo};
use iref_component::path::Path;
use iref_component::rule::{AllowsEmpty, Refuses};
use iref_fault::InvalidUri;
use iref_fault::fault::Fault;
use iref_grammar::chars::CharSet;
use iref_parse::cut::cut;
use iref_parse::split::{ReferenceSlices, split_reference};
use iref_reference_text::base::base_text;
use iref_reference_text::reference_text::HeldRule;
use iref_splice::Memory;
use std::alloc::Global;
use std::convert::TryFrom;
use std::fmt;

/// A reference of a rule: of all references, or of URIs. `//h/a` and `s:a` are references, `s:a`
/// alone is a URI too; `new` with a text outside the rule returns an error that holds it (RFC 3986
/// sections 3 and 4.1).
///
/// `==`, order and hash do not compare characters: `HTTP://a/%7Eb/./c` equals `http://a/~b/c`. They
/// ignore the case of the scheme (section 6.2.2.1), dot segments (6.2.2.3), and whether a character
/// is escaped, `%26` and `&` too, which section 2.2 keeps apart. Hosts keep their case, which
/// section 6.2.2.1 ignores. `as_str` gives the characters.
#[derive_where(Clone, Copy, PartialEq, Eq, PartialOrd, Ord, Hash)]
pub struct Reference<'a, R: HeldRule, C: CharSet> {
    text: BorrowedText<'a, R, C>,
}

/// A reference: a URI, or one that is relative to a URI, such as `../b?c` (RFC 3986 section 4.1).
pub type UriRef<'a, C> = Reference<'a, ReferenceRule, C>;

/// A URI: a reference with a scheme, such as `http://example.org/a` (RFC 3986 section 3).
pub type Uri<'a, C> = Reference<'a, UriRule, C>;

impl<'a, R: HeldRule + Refuses<&'a str>, C: CharSet> Reference<'a, R, C> {
    /// The reference of this text (RFC 3986 section 4.1): `UriRef::new` takes `../b?c`. The error
    /// of a text outside the rule, such as `a b`, holds that text.
    pub fn new(text: &'a str) -> Result<Self, R::Error>
        ensures { ParsesReference (R.rule C.tests) R.refused text.now text.entry result }
    {
        match BorrowedText::new(text) {
            Ok(text) => Ok(Reference { text }),
            Err(error) => Err(error),
        }
    }
}

impl<'a, R: HeldRule + Refuses<&'a [u8]>, C: CharSet> Reference<'a, R, C> {
    /// The reference of these bytes of UTF-8 (RFC 3986 section 4.1): `UriRef::from_bytes` takes
    /// those of `../b?c`. The error of other bytes, such as those of `a b`, holds them.
    pub fn from_bytes(bytes: &'a [u8]) -> Result<Self, R::Error>
        ensures { ParsesReference (R.rule C.tests) R.refused bytes.now bytes.entry result }
    {
        match BorrowedText::from_bytes(bytes) {
            Ok(text) => Ok(Reference { text }),
            Err(error) => Err(error),
        }
    }
}

impl<'a, R: HeldRule, C: CharSet> Reference<'a, R, C> {
    /// The reference of a text that is known to be one of the rule, as `s:a` is a URI. Nothing is
    /// read.
    pub fn new_unchecked(text: &'a str) -> Self
        requires { R.test C.tests text.now ≡ true }
        ensures { reference_text result ≡ text.now }
    {
        let text = BorrowedText::new_unchecked(text);
        Reference { text }
    }

    /// The text: of the URI `s:a`, `s:a`.
    pub fn as_str(&self) -> &'a str
        ensures text { result.now ≡ reference_text self.now }
        ensures in_rule { R.test C.tests result.now ≡ true }
    {
        self.text.as_str()
    }

    /// The bytes of the text: of `s:a` they are `b"s:a"`.
    pub fn as_bytes(&self) -> &'a [u8]
        ensures { result.now ≡ reference_text self.now }
    {
        self.as_str().as_bytes()
    }

    // The components, as slices.
    #[inline(always)]
    pub(crate) fn slices(&self) -> ReferenceSlices<'a>
        ensures value { value_of result ≡ reference_value self.now }
        ensures components { AreComponents C.tests (texts_of result) }
        ensures readable { is_readable C.tests (reference_value self.now) ≡ true }
        ensures allowed { R.allows_scheme (reference_value self.now).scheme ≡ true }
    {
        split_reference(self.as_str())
    }

    // The components, with a scheme if there is one.
    pub(crate) fn reference_parts(&self) -> UriRefParts<'a, C>
        ensures texts { uri_ref_part_texts result ≡ spell_components (reference_value self.now) }
        ensures value { uri_ref_parts_value result ≡ reference_value self.now }
    {
        UriRefParts::of_text(self.as_str())
    }

    /// The authority, if the reference has one (RFC 3986 section 3.2): of `//u@h:80/a`, `u@h:80`.
    pub fn authority(&self) -> Option<Authority<'a, C>>
        ensures { option_map text_of result
            ≡ option_map spell_authority (reference_value self.now).authority }
    {
        self.reference_parts().authority
    }

    /// The user info, if the reference has an authority with one (RFC 3986 section 3.2.1): of
    /// `//u@h/a`, `u`.
    pub fn user_info(&self) -> Option<UserInfo<'a, C>>
        ensures { option_map text_of result ≡ user_info_of (reference_value self.now) }
    {
        self.reference_parts().authority_parts()?.user_info
    }

    /// The host, if the reference has an authority (RFC 3986 section 3.2.2): of `//u@h:80/a`, `h`.
    pub fn host(&self) -> Option<Host<'a, C>>
        ensures { option_map text_of result ≡ host_of (reference_value self.now) }
    {
        Some(self.reference_parts().authority_parts()?.host)
    }

    /// The port, if the reference has an authority with one (RFC 3986 section 3.2.3): of
    /// `//h:80/a`, `80`.
    pub fn port(&self) -> Option<Port<'a>>
        ensures { option_map text_of result ≡ port_of (reference_value self.now) }
    {
        self.reference_parts().authority_parts()?.port
    }

    /// The path, which may be empty (RFC 3986 section 3.3): of `//h/a?q`, `/a`.
    pub fn path(&self) -> Path<'a, C>
        ensures { text_of result ≡ spell_path (reference_value self.now).path }
    {
        self.reference_parts().path
    }

    /// The query, if the reference has one (RFC 3986 section 3.4): of `a?q#f`, `q`; of `a?`, an
    /// empty one.
    pub fn query(&self) -> Option<Query<'a, C>>
        ensures { option_map text_of result ≡ (reference_value self.now).query }
    {
        self.reference_parts().query
    }

    /// The fragment, if the reference has one (RFC 3986 section 3.5): of `a?q#f`, `f`.
    pub fn fragment(&self) -> Option<Fragment<'a, C>>
        ensures { option_map text_of result ≡ (reference_value self.now).fragment }
    {
        self.reference_parts().fragment
    }

    /// The reference up to its fragment: of `a?b#c`, `a?b`.
    #[tactic(auto, using(iref_grammar::proofs::FrontLemmas::fronts))]
    pub fn without_fragment(&self) -> UriRef<'a, C>
        ensures text { reference_text result ≡ before (hash_sign ∷ []) (reference_text self.now) }
        ensures value { reference_value result ≡ with_fragment None (reference_value self.now) }
    {
        let (head, _) = cut(self.as_str(), '#');
        UriRef::new_unchecked(head)
    }

    /// The reference up to its query and its fragment: of `a?b#c`, `a`.
    #[tactic(auto, using(iref_grammar::proofs::FrontLemmas::fronts))]
    pub fn without_query_and_fragment(&self) -> UriRef<'a, C>
        ensures text { reference_text result ≡ hierarchy (reference_text self.now) }
        ensures value { reference_value result
            ≡ with_query None (with_fragment None (reference_value self.now)) }
    {
        let (front, _) = cut(self.as_str(), '#');
        let (front, _) = cut(front, '?');
        UriRef::new_unchecked(front)
    }

    /// The reference up to the end of the path's directory: of `a/b/c?d`, `a/b/` (RFC 3986
    /// section 5.2.3).
    pub fn base(&self) -> Self
        ensures text { reference_text result ≡ spell (base_of (reference_value self.now)) }
        ensures value { reference_value result ≡ base_of (reference_value self.now) }
    {
        Reference::new_unchecked(base_text::<C>(self.as_str()))
    }

    // The URI of the same text, if the reference has a scheme.
    #[tactic(auto, using(iref_grammar::proofs::ComponentLemmas::uri_if_scheme))]
    pub(crate) fn to_uri_rule(&self) -> Option<Uri<'a, C>>
        ensures text { IfSome result (λ uri. reference_text uri ≡ reference_text self.now) }
        ensures scheme { is_some result ≡ is_some (reference_value self.now).scheme }
    {
        if self.reference_parts().scheme.is_some() {
            Some(Uri::new_unchecked(self.as_str()))
        } else {
            None
        }
    }

    /// An owned copy, with the offsets of the components: of `s:/a` the path is at 2 to 4. Out of
    /// memory, it returns `Memory`.
    pub fn to_owned(&self, alloc: Global) -> Result<ReferenceBuf<R, C>, Memory>
        ensures { IfOk result (λ copy. reference_buf_text copy ≡ reference_text self.now) }
    {
        self.copy_for(alloc, None)
    }
}

impl<'a, R: HasScheme<'a>, C: CharSet> Reference<'a, R, C> {
    /// The components, as slices of the text (RFC 3986 section 3): of `//h/a?q` no scheme, the
    /// authority `h`, the path `/a`, the query `q` and no fragment. No other reference spells this
    /// text.
    #[tactic(auto, using(iref_reference_text::proofs::ReferenceTextLemmas::spelled))]
    pub fn parts(&self) -> Parts<'a, R::Scheme, C>
        ensures texts { part_texts R.Scheme.text result
            ≡ spell_components (reference_value self.now) }
        ensures value { parts_value R.Scheme.text result ≡ reference_value self.now }
        ensures spelled { spell (reference_value self.now) ≡ reference_text self.now }
        ensures readable { is_readable C.tests (parts_value R.Scheme.text result) ≡ true }
    {
        Parts::of_text(self.as_str())
    }

    /// The scheme (RFC 3986 section 3.1): of the URI `s:a`, `s`. A reference may have none, as `a`.
    pub fn scheme(&self) -> R::Scheme
        ensures { R.Scheme.text result ≡ (reference_value self.now).scheme }
    {
        self.parts().scheme
    }
}

impl<R: HeldRule + AllowsEmpty, C: CharSet> Reference<'_, R, C> {
    /// The empty reference (RFC 3986 section 4.4), which is equal to `a/..`.
    pub fn empty() -> Self
        ensures { reference_text result ≡ [] }
    {
        let text = BorrowedText::empty();
        Reference { text }
    }
}

impl<R: HeldRule + AllowsEmpty, C: CharSet> Default for Reference<'_, R, C> {
    ghost is_default = { λ reference. reference_text reference ≡ [] };

    fn default() -> Self {
        Reference::empty()
    }
}

impl<R: HeldRule + HasFault, C: CharSet> Reference<'_, R, C> {
    /// Where the text is outside the rule, and why (RFC 3986 sections 3 and 4.1): `UriRef::fault`
    /// of `a/b c` says that the path is invalid at byte 3, `Uri::fault` of `a/b` that there is no
    /// scheme. There is none exactly where `new` takes the text.
    pub fn fault(text: &str) -> Option<Fault>
        ensures fault { option_map fault_value result ≡ R.fault_of C.tests text.now }
        ensures none { (result ≡ None) ↔ InUtf8 (R.rule C.tests) text.now }
    {
        BorrowedText::<R, C>::fault(text)
    }

    /// Where the bytes are outside the rule, and why (RFC 3986 sections 3 and 4.1): first that they
    /// are not UTF-8, as 255 alone is not, at 0. There is none exactly where `from_bytes` takes the
    /// bytes.
    pub fn fault_of_bytes(bytes: &[u8]) -> Option<Fault>
        ensures fault { option_map fault_value result ≡ R.fault_of C.tests bytes.now }
        ensures none { (result ≡ None) ↔ InUtf8 (R.rule C.tests) bytes.now }
    {
        BorrowedText::<R, C>::fault_of_bytes(bytes)
    }
}

impl<'a, C: CharSet> Uri<'a, C> {
    // The reference of the same text, which has a scheme.
    #[tactic(auto, using(iref_grammar::proofs::ComponentLemmas::full))]
    pub(crate) fn to_reference(&self) -> UriRef<'a, C>
        ensures text { reference_text result ≡ reference_text self.now }
        ensures scheme { is_some (reference_value result).scheme ≡ true }
    {
        UriRef::new_unchecked(self.as_str())
    }
}

impl<'a, C: CharSet> From<Uri<'a, C>> for UriRef<'a, C> {
    ghost from_gives = { λ uri reference. reference_text reference ≡ reference_text uri };

    fn from(uri: Uri<'a, C>) -> Self {
        uri.to_reference()
    }
}

impl<'a, C: CharSet> TryFrom<UriRef<'a, C>> for Uri<'a, C> {
    type Error = InvalidUri<UriRef<'a, C>>;

    ghost try_from_gives = { λ reference result. NarrowsToUri (λ error. error.0) reference result };

    fn try_from(reference: UriRef<'a, C>) -> Result<Self, InvalidUri<UriRef<'a, C>>> {
        reference.to_uri_rule().ok_or(InvalidUri(reference))
    }
}

impl<'a, R: HeldRule + Refuses<&'a str>, C: CharSet> TryFrom<&'a str> for Reference<'a, R, C> {
    type Error = R::Error;

    ghost try_from_gives = { λ text. ParsesReference (R.rule C.tests) R.refused text.now text };

    fn try_from(text: &'a str) -> Result<Self, R::Error> {
        Reference::new(text)
    }
}

impl<'a, R: HeldRule + Refuses<&'a [u8]>, C: CharSet> TryFrom<&'a [u8]> for Reference<'a, R, C> {
    type Error = R::Error;

    ghost try_from_gives = { λ bytes. ParsesReference (R.rule C.tests) R.refused bytes.now bytes };

    fn try_from(bytes: &'a [u8]) -> Result<Self, R::Error> {
        Reference::from_bytes(bytes)
    }
}

impl<R: HeldRule, C: CharSet> fmt::Debug for Reference<'_, R, C> {
    fn fmt<W: fmt::Write>(&self, f: &mut fmt::Formatter<W>) -> fmt::Result {
        fmt::Debug::fmt(&self.text, f)
    }
}

impl<R: HeldRule, C: CharSet> fmt::Display for Reference<'_, R, C> {
    ghost output = { λ reference. Some (reference_text reference) };

    fn fmt<W: fmt::Write>(&self, f: &mut fmt::Formatter<W>) -> fmt::Result {
        f.write_str(self.as_str())
    }
}
