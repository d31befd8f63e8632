//! The components of references and of URIs.
ghost use Rattle.std.specs.Prelude.{MatchResult, ◌≡◌, ◌↔◌, ⊤, true, Option, Some, option_map, IfOk, IfSome, is_some};
ghost use Rattle.std.specs.{Str.{str_to_ascii_lowercase}, Option.{option_copied}};
ghost use Rattle.std.proofs.{Common.{ap}, lemmas.Option.{same_Some}};
ghost use Rattle.iref_grammar.proofs.{PartTieLemmas.{lower_case_tie, parts_tie}, TieLemmas.{texts_tie}};
ghost use Rattle.iref_component.specs.{IsUri, IsUriReference, fed_components, text_of};
ghost use Rattle.iref_component.specs.{parts_value as authority_parts_value};
ghost use Rattle.iref_reference_text.specs.{texts_of, AreComponents, spell_components, is_scheme, none_or, is_readable};
ghost use Rattle.iref_reference_text.specs.{is_reference, read_reference, Text, InUtf8};
ghost use Rattle.iref_reference.specs.Parts.{part_texts, parts_value, uri_ref_part_texts, key_of_parts};
ghost use Rattle.iref_reference.specs.Parts.{scheme_key, uri_part_texts, uri_parts_value, uri_ref_parts_value};

use iref_component::authority::Authority;
use iref_component::authority_parts::AuthorityParts;
use iref_component::borrowed::{borrowed_of, text_of};
use iref_component::named_texts::{Fragment, Query, Scheme};
use iref_component::path::Path;
use iref_fault::{InvalidUri, InvalidUriRef};
use iref_grammar::chars::CharSet;
use iref_parse::split::{ReferenceSlices, parse_bytes, split_reference};
use std::alloc::AllocError;
use std::hash::{Hash, Hasher};

/// What stands for the scheme among the components: of a URI a scheme, such as `s` of `s:a`, of a
/// reference one that may be absent (RFC 3986 section 3.1).
pub trait SchemePart<'a>: Copy + Ord {
    /// The text of the scheme, if it is there.
    ghost text: { Self → Option Text };

    /// The texts that there may be.
    ghost allows: { Option Text → Type 0 };

    /// The scheme of this text, if it is there.
    fn new(slice: Option<&'a str>) -> Self
        requires scheme { none_or is_scheme (option_copied slice) ≡ true }
        requires allowed { allows (option_copied slice) }
        ensures { text result ≡ option_copied slice.entry };

    /// The scheme, if it is there.
    fn to_option(self) -> Option<Scheme<'a>>
        ensures { option_map text_of result ≡ text self };

    /// Two are equal exactly where their keys are the same.
    ghost tie: { (a b : Self) → (Self.eq a b ≡ true)
        ↔ (scheme_key (text a) ≡ scheme_key (text b)) };
}

impl<'a> SchemePart<'a> for Scheme<'a> {
    ghost text = { λ scheme. Some (text_of scheme) };

    ghost allows = { λ scheme. is_some scheme ≡ true };

    ghost tie = { λ a b. let texts = texts_tie (str_to_ascii_lowercase (text_of a))
        (str_to_ascii_lowercase (text_of b)) in
        (λ e. ap Some (texts.0 e), λ e. texts.1 (same_Some _ _ e)) };

    fn new(slice: Option<&'a str>) -> Self {
        match slice {
            Some(slice) => Scheme::new_unchecked(slice),
            None => unreachable!(),
        }
    }

    fn to_option(self) -> Option<Scheme<'a>> {
        Some(self)
    }
}

impl<'a> SchemePart<'a> for Option<Scheme<'a>> {
    ghost text = { option_map text_of };

    ghost allows = { λ _. Unit {0} };

    ghost tie = { lower_case_tie text_of };

    fn new(slice: Option<&'a str>) -> Self {
        borrowed_of(slice)
    }

    fn to_option(self) -> Option<Scheme<'a>> {
        self
    }
}

/// The components of a reference, which compare as it does: each by itself. Of `//h/a?q` they are
/// no scheme, the authority `h`, the path `/a`, the query `q` and no fragment (RFC 3986 section 3).
#[derive_where(Copy, Debug, PartialEq, Eq, PartialOrd, Ord; S)]
pub struct Parts<'a, S, C: CharSet> {
    /// What stands before the first `:`, if it is a scheme's.
    pub scheme: S,
    /// What stands between `//` and the path.
    pub authority: Option<Authority<'a, C>>,
    /// What stands between the authority and the query.
    pub path: Path<'a, C>,
    /// What stands between `?` and the fragment.
    pub query: Option<Query<'a, C>>,
    /// What follows `#`.
    pub fragment: Option<Fragment<'a, C>>,
}

impl<S: Copy, C: CharSet> Clone for Parts<'_, S, C> {
    ghost is_clone = { λ parts copy. copy ≡ parts };

    ghost is_infallible = { λ _. ⊤ };

    fn clone(&self) -> Result<Self, AllocError> {
        Ok(Parts {
            scheme: self.scheme,
            authority: self.authority,
            path: self.path,
            query: self.query,
            fragment: self.fragment,
        })
    }
}

/// The components of a reference (RFC 3986 section 4.1): of `//h?` the authority `h`, the empty
/// path and an empty query.
pub type UriRefParts<'a, C> = Parts<'a, Option<Scheme<'a>>, C>;

/// The components of a URI (RFC 3986 section 3): of `urn:isbn:1` the scheme `urn` and the path
/// `isbn:1`.
pub type UriParts<'a, C> = Parts<'a, Scheme<'a>, C>;

impl<'a, S: SchemePart<'a>, C: CharSet> Parts<'a, S, C> {
    /// The parts of the authority, if there is one (RFC 3986 section 3.2): of `u@h:80` the user
    /// info `u`, the host `h` and the port `80`.
    pub fn authority_parts(&self) -> Option<AuthorityParts<'a, C>>
        ensures { option_map authority_parts_value result
            ≡ (parts_value S.text self.now).authority }
    {
        Some(self.authority?.parts())
    }

    // The components of the text of a reference whose scheme may stand there.
    #[inline(always)]
    pub(crate) fn of_text(text: &'a str) -> Self
        requires reference { is_reference C.tests text.now ≡ true }
        requires allowed { S.allows (read_reference text.now).scheme }
        ensures texts { part_texts S.text result ≡ spell_components (read_reference text.now) }
        ensures value { parts_value S.text result ≡ read_reference text.now }
    {
        Parts::from_slices(split_reference(text))
    }

    // The components of slices that are known to be in their rules.
    pub(crate) fn from_slices(slices: ReferenceSlices<'a>) -> Self
        requires components { AreComponents C.tests (texts_of slices) }
        requires allowed { S.allows (texts_of slices).scheme }
        ensures { part_texts S.text result ≡ texts_of slices.entry }
    {
        Parts {
            scheme: S::new(slices.scheme),
            authority: borrowed_of(slices.authority),
            path: Path::new_unchecked(slices.path),
            query: borrowed_of(slices.query),
            fragment: borrowed_of(slices.fragment),
        }
    }

    // The slices of the components.
    pub(crate) fn slices(&self) -> ReferenceSlices<'a>
        ensures texts { texts_of result ≡ part_texts S.text self.now }
        ensures components { AreComponents C.tests (texts_of result) }
    {
        ReferenceSlices {
            scheme: text_of(self.scheme.to_option()),
            authority: text_of(self.authority),
            path: self.path.as_str(),
            query: text_of(self.query),
            fragment: text_of(self.fragment),
        }
    }
}

impl<'a, C: CharSet> UriRefParts<'a, C> {
    // The components of a URI, if there is a scheme.
    pub(crate) fn to_uri_parts(&self) -> Option<UriParts<'a, C>>
        ensures texts { IfSome result (λ full.
            uri_part_texts full ≡ uri_ref_part_texts self.now) }
        ensures scheme { is_some result ≡ is_some (uri_ref_part_texts self.now).scheme }
    {
        Some(UriParts {
            scheme: self.scheme?,
            authority: self.authority,
            path: self.path,
            query: self.query,
            fragment: self.fragment,
        })
    }

    /// The components of the reference of these bytes of UTF-8, or the bytes: `UriRef::from_bytes`
    /// and `parts` by one split.
    #[inline(always)]
    pub fn from_bytes(bytes: &'a [u8]) -> Result<Self, InvalidUriRef<&'a [u8]>>
        ensures parsed { MatchResult result
            (λ parts. InUtf8 (IsUriReference C.tests) bytes.now
            × (uri_ref_part_texts parts ≡ spell_components (read_reference bytes.now)))
            (λ error. ¬ (InUtf8 (IsUriReference C.tests) bytes.now)
            × (error.0 ≡ bytes.entry)) }
        ensures value { IfOk result (λ parts.
            uri_ref_parts_value parts ≡ read_reference bytes.now) }
        ensures readable { IfOk result (λ parts.
            is_readable C.tests (uri_ref_parts_value parts) ≡ true) }
    {
        match parse_bytes::<C>(bytes) {
            Some(slices) => Ok(UriRefParts::from_slices(slices)),
            None => Err(InvalidUriRef(bytes)),
        }
    }
}

impl<'a, C: CharSet> UriParts<'a, C> {
    /// The components of the URI of these bytes of UTF-8, or the bytes: `Uri::from_bytes` and
    /// `parts` by one split.
    #[inline(always)]
    pub fn from_bytes(bytes: &'a [u8]) -> Result<Self, InvalidUri<&'a [u8]>>
        ensures parsed { MatchResult result
            (λ parts. InUtf8 (IsUri C.tests) bytes.now
            × (uri_part_texts parts ≡ spell_components (read_reference bytes.now)))
            (λ error. ¬ (InUtf8 (IsUri C.tests) bytes.now)
            × (error.0 ≡ bytes.entry)) }
        ensures value { IfOk result (λ parts.
            uri_parts_value parts ≡ read_reference bytes.now) }
        ensures readable { IfOk result (λ parts.
            is_readable C.tests (uri_parts_value parts) ≡ true) }
    {
        let Ok(parts) = UriRefParts::from_bytes(bytes) else {
            return Err(InvalidUri(bytes));
        };
        match parts.to_uri_parts() {
            Some(full) => Ok(full),
            None => Err(InvalidUri(bytes)),
        }
    }
}

#[tactic(auto, unfolding(iref_grammar::specs::Key::key, iref_canonical::specs::HashedParts::fed_components))]
impl<'a, S: SchemePart<'a>, C: CharSet> Hash for Parts<'a, S, C> {
    ghost hash_input = { λ parts. fed_components (key_of_parts S.text parts) };

    ghost respects_eq = { λ a b same. ap fed_components
        ((parts_tie text_of text_of text_of _ (S.text a.scheme) (S.text b.scheme)
        (S.tie a.scheme b.scheme) a.authority b.authority (text_of a.path) (text_of b.path)
        a.query b.query a.fragment b.fragment).0 same) };

    fn hash<H: Hasher>(&self, state: &mut H) {
        self.scheme.to_option().hash(state);
        self.authority.hash(state);
        self.path.hash(state);
        self.query.hash(state);
        self.fragment.hash(state);
    }
}
