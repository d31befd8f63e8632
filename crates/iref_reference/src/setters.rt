//! Owned values edited in place, a component at a time, and copies with one component set (RFC 3986
//! sections 3 and 4.2). A text is tested before anything grows.
ghost use Rattle.std.specs.Prelude.{◌≡◌, IfErr, IfOk, IsNone, IsOk, None, OnOk, option_map, Some};
ghost use Rattle.std.specs.Option.{option_copied};
ghost use Rattle.iref_grammar.specs.Grammar.{IsAuthority, IsFragment, IsPath, IsQuery, IsScheme};
ghost use Rattle.iref_grammar.specs.ComponentSteps.{with_new_normal_path};
ghost use Rattle.iref_component.specs.{InUtf8, Tests, TestsIfSome, path_value, read_authority, read_path, text_of};
ghost use Rattle.iref_reference_text.specs.{with_authority, with_fragment, with_path, with_query, with_scheme};
ghost use Rattle.iref_reference_text.specs.{PathRanges.{RemovesDots}, Steps.{IsStep}};
ghost use Rattle.iref_reference.specs.HandedBack.{TellsInvalidBeside};
ghost use Rattle.iref_reference.specs.References.{Edits, StepsFrom, reference_buf_text, reference_buf_value};
ghost use Rattle.iref_reference.specs.References.{reference_text};

use crate::borrowed::{Reference, UriRef};
use crate::owned::{ReferenceBuf, UriBuf, UriRefBuf};
use iref_component::authority::Authority;
use iref_component::borrowed::text_of;
use iref_component::component_rules::{
    AuthorityRule, FragmentRule, PathRule, QueryRule, SchemeRule,
};
use iref_component::named_texts::{Fragment, Query, Scheme};
use iref_component::path::Path;
use iref_component::test_before_edit::{Tried, read, test};
use iref_fault::{
    InvalidAuthority, InvalidFragment, InvalidPath, InvalidQuery, InvalidScheme, TryError,
};
use iref_grammar::chars::CharSet;
use iref_reference_text::reference_text::{HeldRule, ReferenceText};
use iref_splice::Memory;
use std::alloc::Global;

impl<R: HeldRule, C: CharSet> ReferenceBuf<R, C> {
    /// Replaces, adds or removes the authority (RFC 3986 section 3.2); removing takes no memory.
    /// Where one is added, the path becomes absolute: `a` with `h` becomes `//h/a`. Where it is
    /// removed, a path that begins with `//` is guarded: `//h//a` becomes `/.//a`. Out of memory,
    /// it returns `Memory` and changes nothing.
    pub fn set_authority(&mut self, authority: Option<Authority<'_, C>>) -> Result<(), Memory>
        ensures set { Edits (with_authority (option_map read_authority
            (option_map text_of authority.entry))) self.old self.new result }
        ensures none { IsNone authority.entry → IsOk result }
    {
        self.inner.set_authority(text_of(authority))
    }

    /// Replaces the path (RFC 3986 section 3.3). After an authority a path that is not empty becomes
    /// absolute: `//h/a` with `b` becomes `//h/b`. One that would be read as something else is
    /// guarded: `x` with `1:2` becomes `./1:2`. Out of memory, it returns `Memory` and changes
    /// nothing.
    pub fn set_path(&mut self, path: Path<'_, C>) -> Result<(), Memory>
        ensures { Edits (with_path (path_value path.entry)) self.old self.new result }
    {
        self.inner.set_path(path.as_str())
    }

    /// Sets the path and normalizes it, as one edit: after an authority `/a/../b/.` leaves `/b/`
    /// (RFC 3986 section 5.2.4). Out of memory, it returns `Memory` and changes nothing.
    pub fn set_and_normalize_path(&mut self, path: Path<'_, C>) -> Result<(), Memory>
        ensures set { Edits (with_new_normal_path (path_value path.entry)) self.old self.new
            result }
        ensures rewritten { OnOk result (RemovesDots
            (with_path (path_value path.entry) (reference_buf_value self.old))
            (reference_buf_value self.new)) }
    {
        self.inner.set_and_normalize_path(path.as_str())
    }

    /// Replaces, adds or removes the query (RFC 3986 section 3.4): `a` with `q` becomes `a?q`.
    /// Removing takes no memory. Out of memory, it returns `Memory` and changes nothing.
    pub fn set_query(&mut self, query: Option<Query<'_, C>>) -> Result<(), Memory>
        ensures set { Edits (with_query (option_map text_of query.entry)) self.old self.new
            result }
        ensures none { IsNone query.entry → IsOk result }
    {
        self.inner.set_query(text_of(query))
    }

    /// Replaces, adds or removes the fragment (RFC 3986 section 3.5): `a` with `f` becomes `a#f`.
    /// Removing takes no memory. Out of memory, it returns `Memory` and changes nothing.
    pub fn set_fragment(&mut self, fragment: Option<Fragment<'_, C>>) -> Result<(), Memory>
        ensures set { Edits (with_fragment (option_map text_of fragment.entry)) self.old self.new
            result }
        ensures none { IsNone fragment.entry → IsOk result }
    {
        self.inner.set_fragment(text_of(fragment))
    }

    /// Does as `set_authority` does with a text: `Invalid` holds a text that is not an authority.
    pub fn try_set_authority<'t>(
        &mut self,
        authority: Option<&'t str>,
    ) -> Tried<InvalidAuthority<&'t str>>
        ensures set { Edits (with_authority (option_map read_authority
            (option_copied authority.entry))) self.old self.new result }
        ensures text { TestsIfSome (IsAuthority C.tests) authority.entry (λ error. error.0) result }
    {
        test::<AuthorityRule, C>(authority)?;
        self.inner
            .set_authority(authority)
            .or(Err(TryError::Memory))
    }

    /// Does as `set_path` does with a text: `Invalid` holds a text that is not a path.
    pub fn try_set_path<'t>(&mut self, path: &'t str) -> Tried<InvalidPath<&'t str>>
        ensures set { Edits (with_path (read_path path.now)) self.old self.new result }
        ensures text { Tests (IsPath C.tests) path.entry (λ error. error.0) result }
    {
        test::<PathRule, C>(Some(path))?;
        self.inner.set_path(path).or(Err(TryError::Memory))
    }

    /// Does as `set_query` does with a text: `Invalid` holds a text that is not a query.
    pub fn try_set_query<'t>(&mut self, query: Option<&'t str>) -> Tried<InvalidQuery<&'t str>>
        ensures set { Edits (with_query (option_copied query.entry)) self.old self.new result }
        ensures text { TestsIfSome (IsQuery C.tests) query.entry (λ error. error.0) result }
    {
        test::<QueryRule, C>(query)?;
        self.inner.set_query(query).or(Err(TryError::Memory))
    }

    /// Does as `set_fragment` does with a text: `Invalid` holds a text that is not a fragment.
    pub fn try_set_fragment<'t>(
        &mut self,
        fragment: Option<&'t str>,
    ) -> Tried<InvalidFragment<&'t str>>
        ensures set { Edits (with_fragment (option_copied fragment.entry)) self.old self.new
            result }
        ensures text { TestsIfSome (IsFragment C.tests) fragment.entry (λ error. error.0) result }
    {
        test::<FragmentRule, C>(fragment)?;
        self.inner.set_fragment(fragment).or(Err(TryError::Memory))
    }
}

impl<C: CharSet> UriRefBuf<C> {
    /// Replaces, adds or removes the scheme (RFC 3986 section 3.1); removing takes no memory. Where
    /// it is removed, a path whose first segment holds a `:` is guarded: `s:a:b` becomes `./a:b`.
    /// Out of memory, it returns `Memory` and changes nothing.
    pub fn set_scheme(&mut self, scheme: Option<Scheme<'_>>) -> Result<(), Memory>
        ensures set { Edits (with_scheme (option_map text_of scheme.entry)) self.old self.new
            result }
        ensures none { IsNone scheme.entry → IsOk result }
    {
        self.inner.set_scheme(text_of(scheme))
    }

    /// Does as `set_scheme` does with a text: `Invalid` holds a text that is not a scheme.
    pub fn try_set_scheme<'t>(&mut self, scheme: Option<&'t str>) -> Tried<InvalidScheme<&'t str>>
        ensures set { Edits (with_scheme (option_copied scheme.entry)) self.old self.new result }
        ensures text { TestsIfSome IsScheme scheme.entry (λ error. error.0) result }
    {
        test::<SchemeRule, C>(scheme)?;
        self.inner.set_scheme(scheme).or(Err(TryError::Memory))
    }

    /// The same reference under a scheme, with no copy where the buffer has room: `x` under `s` is
    /// `s:x`. Out of memory, it returns the reference unchanged.
    pub fn into_with_scheme(self, scheme: Scheme<'_>) -> Result<UriBuf<C>, (Self, Memory)>
        ensures ok { IfOk result (λ uri. IsStep (with_scheme (Some (text_of scheme.entry)))
            (reference_buf_text self) (reference_buf_text uri)) }
        ensures err { IfErr result (λ error. error.0 ≡ self) }
    {
        match self.inner.into_with_scheme(scheme.as_str()) {
            Ok(inner) => Ok(UriBuf::from_inner(inner)),
            Err(inner) => Err((UriRefBuf::from_inner(inner), Memory)),
        }
    }

    /// Does as `into_with_scheme` does with a text: `Invalid` holds a text that is not a scheme,
    /// with the reference.
    pub fn try_into_with_scheme<'t>(
        self,
        scheme: &'t str,
    ) -> Result<UriBuf<C>, (Self, TryError<InvalidScheme<&'t str>>)>
        ensures ok { IfOk result (λ uri. IsStep (with_scheme (Some scheme.now))
            (reference_buf_text self) (reference_buf_text uri)) }
        ensures invalid { TellsInvalidBeside (InUtf8 IsScheme scheme.now)
            (λ error. error.0 ≡ scheme.entry) result }
        ensures err { IfErr result (λ error. error.0 ≡ self) }
    {
        match read(scheme) {
            Ok(scheme) => match self.into_with_scheme(scheme) {
                Ok(uri) => Ok(uri),
                Err((reference, Memory)) => Err((reference, TryError::Memory)),
            },
            Err(error) => Err((self, error)),
        }
    }
}

impl<C: CharSet> UriBuf<C> {
    /// Replaces the scheme (RFC 3986 section 3.1): `http://a` with `s` becomes `s://a`. Out of
    /// memory, it returns `Memory` and changes nothing.
    pub fn set_scheme(&mut self, scheme: Scheme<'_>) -> Result<(), Memory>
        ensures { Edits (with_scheme (Some (text_of scheme.entry))) self.old self.new result }
    {
        self.inner.set_scheme(Some(scheme.as_str()))
    }
}

/// A copy of a reference, such as `a?x` of `a?q` with the query `x`, or `Memory` where memory runs
/// out (RFC 3986 section 4.1).
pub type Copied<R, C> = Result<ReferenceBuf<R, C>, Memory>;

impl<R: HeldRule, C: CharSet> Reference<'_, R, C> {
    // A copy with room for a component that it is to get, if there is one.
    pub(crate) fn copy_for(&self, alloc: Global, part: Option<&str>) -> Copied<R, C>
        ensures { IfOk result (λ copy. reference_buf_text copy ≡ reference_text self.now) }
    {
        Ok(ReferenceBuf::from_inner(ReferenceText::copied(alloc, self.as_str(), part)?))
    }

    /// A copy under a scheme: of `x`, under `s`, `s:x`. Out of memory, it returns `Memory`.
    pub fn with_scheme(&self, alloc: Global, scheme: Scheme<'_>) -> Result<UriBuf<C>, Memory>
        ensures { StepsFrom (with_scheme (Some (text_of scheme.entry))) self.now result }
    {
        let reference = UriRef::<C>::new_unchecked(self.as_str());
        let copy = reference.copy_for(alloc, Some(scheme.as_str()))?;
        copy.into_with_scheme(scheme).or(Err(Memory))
    }

    /// A copy with another authority or none, as `set_authority` leaves it: of `//h/a`, without
    /// one, `/a`. Out of memory, it returns `Memory`.
    pub fn with_authority(&self, alloc: Global, authority: Option<Authority<'_, C>>) -> Copied<R, C>
        ensures { StepsFrom (with_authority (option_map read_authority (option_map
            text_of authority.entry))) self.now result }
    {
        let mut copy = self.copy_for(alloc, text_of(authority))?;
        copy.set_authority(authority)?;
        Ok(copy)
    }

    /// A copy with another path, as `set_path` leaves it: of `//h/a`, with `b`, `//h/b`. Out of
    /// memory, it returns `Memory`.
    pub fn with_path(&self, alloc: Global, path: Path<'_, C>) -> Copied<R, C>
        ensures { StepsFrom (with_path (path_value path.entry)) self.now result }
    {
        let mut copy = self.copy_for(alloc, Some(path.as_str()))?;
        copy.set_path(path)?;
        Ok(copy)
    }

    /// A copy with another query or none: of `a?q`, with `r`, `a?r`. Out of memory, it returns
    /// `Memory`.
    pub fn with_query(&self, alloc: Global, query: Option<Query<'_, C>>) -> Copied<R, C>
        ensures { StepsFrom (with_query (option_map text_of query.entry)) self.now result }
    {
        let mut copy = self.copy_for(alloc, text_of(query))?;
        copy.set_query(query)?;
        Ok(copy)
    }

    /// A copy with another fragment or none: of `a#f`, with none, `a`. Out of memory, it returns
    /// `Memory`.
    pub fn with_fragment(&self, alloc: Global, fragment: Option<Fragment<'_, C>>) -> Copied<R, C>
        ensures { StepsFrom (with_fragment (option_map text_of fragment.entry))
            self.now result }
    {
        let mut copy = self.copy_for(alloc, text_of(fragment))?;
        copy.set_fragment(fragment)?;
        Ok(copy)
    }
}

/// A copy of a reference up to its query and its fragment, under the same rule, with as much room:
/// of `s:/a?q`, `s:/a` (RFC 3986 section 3). Out of memory, it returns `Memory`.
pub fn copied_hierarchy<R: HeldRule, C: CharSet>(
    reference: &ReferenceBuf<R, C>,
) -> Result<ReferenceBuf<R, C>, Memory>
    ensures { IfOk result (λ copy. reference_buf_value copy
        ≡ with_query None (with_fragment None (reference_buf_value reference.now))) }
{
    Ok(ReferenceBuf::from_inner(reference.inner.copied_hierarchy()?))
}

/// Makes room for at least this many bytes behind the text, which stays as it is. Out of memory, it
/// returns `Memory`.
pub fn reserve<R: HeldRule, C: CharSet>(
    reference: &mut ReferenceBuf<R, C>,
    additional: usize,
) -> Result<(), Memory>
    ensures { reference_buf_text reference.new ≡ reference_buf_text reference.old }
{
    reference.inner.reserve(additional)
}
