//! URIs and IRIs (RFC 3986, RFC 3987): parsed or refused, kept as they are written, compared,
//! edited, resolved and made relative.
//!
//! - [`uri`] has [`Uri`] and [`UriRef`], which borrow a text, [`UriBuf`] and [`UriRefBuf`], which own
//!   one and are edited, and their components, such as `Path`. A `Uri` has a scheme, a `UriRef` may
//!   be relative.
//! - [`iri`] has the same types, where characters beyond ASCII are allowed: [`Iri`], [`IriRef`],
//!   [`IriBuf`] and [`IriRefBuf`].
//! - [`Fault`] says where a text is wrong, and [`Memory`] that an allocation failed.
//! - [`SortKey`] is for indexes, [`lists`] sorts and makes unique, [`edits`] has lists of edits,
//!   [`compact`] tables of prefixes.
//!
//! `==`, order and hash do not compare characters: `HTTP://a/%7Eb/./c` equals `http://a/~b/c`. They
//! ignore the case of the scheme, dot segments, and whether a character is escaped, even `%26` and
//! `&`. Hosts keep their case. Where characters count, as in RDF, compare `as_str()`.
#![tactic(auto)]

mod both_families;
pub mod compact;
pub mod edits;
mod errors;
pub mod lists;
pub mod prefix_laws;

pub use both_families::{
    InvalidPort, InvalidScheme, Memory, Offsets, PathContext, Port, PortBuf, PortError, Scheme,
    SchemeBuf, TryError,
};
pub use iref_canonical::owned::SortKey;
pub use iref_component::pct;
pub use iref_fault::InvalidPctStr;
pub use iref_fault::component::{Cause, Component};
pub use iref_fault::fault::Fault;
pub use iref_grammar::chars;
pub use iri::{InvalidIri, InvalidIriRef, Iri, IriBuf, IriError, IriRef, IriRefBuf};
pub use uri::{InvalidUri, InvalidUriRef, Uri, UriBuf, UriError, UriRef, UriRefBuf};

/// The names for code that is generic over components (`Rule`, `BorrowedText`) or over references
/// (`HeldRule`, `Reference`, `ReferenceBuf`, `Composed`).
pub mod rules {
    pub use iref_component::borrowed::BorrowedText;
    pub use iref_component::rule::Rule;
    pub use iref_reference::borrowed::Reference;
    pub use iref_reference::composed::Composed;
    pub use iref_reference::owned::ReferenceBuf;
    pub use iref_reference_text::reference_text::HeldRule;
}

/// URIs and references of URIs, with their components (RFC 3986 sections 3 and 4.1).
pub mod uri {
    pub use crate::both_families::{
        AuthorityPart, InvalidAuthority, InvalidFragment, InvalidHost, InvalidPath, InvalidPort,
        InvalidQuery, InvalidScheme, InvalidSegment, InvalidUserInfo, Memory, Offsets, PathContext,
        PathPart, PathTarget, Port, PortBuf, PortError, Scheme, SchemeBuf, Steps, Target, TryError,
        new_steps_have_room, path_eq_counted,
    };
    pub use crate::edits::{Applied, EditFault, apply_all, apply_all_uri};
    pub use crate::errors::UriError;
    pub use crate::lists::{sorted, sorted_unique, unique};
    pub use iref_fault::{InvalidUri, InvalidUriRef};
    use iref_grammar::chars::UriChars;

    /// A URI (RFC 3986 section 3): `http://a/b?q#f` and `urn:isbn:1`, but not `//a/b`, which has no
    /// scheme. `==` ignores the scheme's case, dot segments and escapes; `as_str` gives the
    /// characters.
    pub type Uri<'a> = iref_reference::borrowed::Uri<'a, UriChars>;
    /// A reference of URIs (RFC 3986 section 4.1): any URI, and what is relative to one, such as
    /// `//a/b`, `../b`, `?q` and the empty text. `==` is that of `Uri`; it takes `a/..` for the
    /// empty text, though the two may resolve to different URIs.
    pub type UriRef<'a> = iref_reference::borrowed::UriRef<'a, UriChars>;
    /// A URI that owns its text (RFC 3986 section 3), and is edited in place: `set_query` with `q`
    /// turns `http://a/b` into `http://a/b?q`. It never loses its scheme.
    pub type UriBuf = iref_reference::owned::UriBuf<UriChars>;
    /// A reference of URIs that owns its text (RFC 3986 section 4.1): `resolve` against
    /// `http://a/b/c` turns `../g` into `http://a/g`.
    pub type UriRefBuf = iref_reference::owned::UriRefBuf<UriChars>;

    /// The components of a URI (RFC 3986 section 3): of `http://a/b` the scheme `http`, the
    /// authority `a`, the path `/b`, no query and no fragment.
    pub type UriParts<'a> = iref_reference::parts::UriParts<'a, UriChars>;
    /// The components of a reference (RFC 3986 section 4.1): of `?#` no scheme, no authority, the
    /// empty path, and an empty query and fragment, which are there.
    pub type UriRefParts<'a> = iref_reference::parts::UriRefParts<'a, UriChars>;

    /// A URI that is composed of the components of others and not written yet (RFC 3986 section
    /// 5.2): what `../g` resolves to against `http://a/b/c` takes 10 bytes.
    pub type ComposedUri<'a> = iref_reference::composed::ComposedUri<'a, UriChars>;
    /// A reference that is composed and not written yet (RFC 3986 section 4.1), such as `../../b`,
    /// which leads from `http://a/b/c/d` to `http://a/b`.
    pub type ComposedUriRef<'a> = iref_reference::composed::ComposedUriRef<'a, UriChars>;

    /// An authority (RFC 3986 section 3.2): in `//u@h:80/x` it is `u@h:80`, with the host `h`.
    pub type Authority<'a> = iref_component::authority::Authority<'a, UriChars>;
    /// An authority that owns its text (RFC 3986 section 3.2): `set_port` with `80` turns `h` into
    /// `h:80`.
    pub type AuthorityBuf = iref_component::authority::AuthorityBuf<UriChars>;
    /// The editor of an authority in a vector of bytes, or in an owned value such as `UriBuf` (RFC
    /// 3986 section 3.2): at the bytes from 2 up to and without 6 of `//h:80/x`, `set_port` with None
    /// leaves `//h/x`.
    pub type AuthorityMut<'a, T = Vec<u8>> = iref_component::authority_mut::AuthorityMut<
        'a,
        UriChars,
        T,
    >;
    /// The parts of an authority (RFC 3986 section 3.2): of `u@h:` the user info `u`, the host `h`
    /// and an empty port, which is there.
    pub type AuthorityParts<'a> = iref_component::authority_parts::AuthorityParts<'a, UriChars>;

    /// A user info (RFC 3986 section 3.2.1): in `//u:p@h` it is `u:p`.
    pub type UserInfo<'a> = iref_component::named_texts::UserInfo<'a, UriChars>;
    /// A user info that owns its text (RFC 3986 section 3.2.1), such as `u:p` of `//u:p@h`.
    pub type UserInfoBuf = iref_component::named_texts::UserInfoBuf<UriChars>;

    /// A host (RFC 3986 section 3.2.2): a name such as `a.org`, an address such as `10.0.0.1`, or
    /// one in brackets, such as `[::1]`. In `//u@:80` it is empty.
    pub type Host<'a> = iref_component::named_texts::Host<'a, UriChars>;
    /// A host that owns its text (RFC 3986 section 3.2.2): that of the IPv6 number 1 is `[::1]`.
    pub type HostBuf = iref_component::named_texts::HostBuf<UriChars>;

    /// A path (RFC 3986 section 3.3): `/a/b` has the segments `a` and `b`, `a/` the segments `a`
    /// and an empty one.
    pub type Path<'a> = iref_component::path::Path<'a, UriChars>;
    /// A path that owns its text (RFC 3986 section 3.3): `push` with `c` turns `/a` into
    /// `/a/c`.
    pub type PathBuf = iref_component::path_buf::PathBuf<UriChars>;
    /// The editor of a path in a vector of bytes, or in an owned value such as `UriBuf` or
    /// `PathBuf` (RFC 3986 section 3.3): at the bytes from 8 up to and without 12 of
    /// `http://h/a/b?q`, `pop` leaves `http://h/a?q`.
    pub type PathMut<'a, T = Vec<u8>> = iref_component::path_mut::PathMut<'a, UriChars, T>;

    /// A segment of a path (RFC 3986 section 3.3): `b%2Fc` and the empty text are segments, `b/c`
    /// is not.
    pub type Segment<'a> = iref_component::named_texts::Segment<'a, UriChars>;
    /// A segment that owns its text (RFC 3986 section 3.3), such as `b` of `a/b`.
    pub type SegmentBuf = iref_component::named_texts::SegmentBuf<UriChars>;

    /// A double-ended iterator over the segments of a path (RFC 3986 section 3.3): of `/a//b` they
    /// are `a`, an empty one and `b`.
    pub type Segments<'a> = iref_component::segments::Segments<'a, UriChars>;
    /// A double-ended iterator over the segments of a path's normal form (RFC 3986 section 5.2.4):
    /// of `a/../b/./c` they are `b` and `c`.
    pub type NormalizedSegments<'a> = iref_component::normal::NormalizedSegments<'a, UriChars>;

    /// A query (RFC 3986 section 3.4): in `a?x=1?y` it is `x=1?y`.
    pub type Query<'a> = iref_component::named_texts::Query<'a, UriChars>;
    /// A query that owns its text (RFC 3986 section 3.4), such as `q` of `a?q`.
    pub type QueryBuf = iref_component::named_texts::QueryBuf<UriChars>;

    /// A fragment (RFC 3986 section 3.5): in `a#b/c` it is `b/c`.
    pub type Fragment<'a> = iref_component::named_texts::Fragment<'a, UriChars>;
    /// A fragment that owns its text (RFC 3986 section 3.5), such as `f` of `a#f`.
    pub type FragmentBuf = iref_component::named_texts::FragmentBuf<UriChars>;

    /// An edit of a list, for `apply_all`: `Edit::Push` with the segment `b` turns `http://h/a`
    /// into `http://h/a/b`.
    pub type Edit<'a> = crate::edits::Edit<'a, UriChars>;
}

/// IRIs and references of IRIs, with their components (RFC 3987 section 2.2).
pub mod iri {
    pub use crate::both_families::{
        AuthorityPart, InvalidAuthority, InvalidFragment, InvalidHost, InvalidPath, InvalidPort,
        InvalidQuery, InvalidScheme, InvalidSegment, InvalidUserInfo, Memory, Offsets, PathContext,
        PathPart, PathTarget, Port, PortBuf, PortError, Scheme, SchemeBuf, Steps, Target, TryError,
        new_steps_have_room, path_eq_counted,
    };
    pub use crate::edits::{Applied, EditFault, apply_all, apply_all_uri};
    pub use crate::errors::IriError;
    pub use crate::lists::{sorted, sorted_unique, unique};
    pub use iref_fault::{InvalidIri, InvalidIriRef};
    use iref_grammar::chars::IriChars;

    /// An IRI (RFC 3987 section 2.2): `http://é/b` and each URI, but not `//é/b`, which has no
    /// scheme.
    pub type Iri<'a> = iref_reference::borrowed::Uri<'a, IriChars>;
    /// A reference of IRIs (RFC 3987 section 2.2): any IRI, and what is relative to one, such as
    /// `//é`, `../ü` and the empty text.
    pub type IriRef<'a> = iref_reference::borrowed::UriRef<'a, IriChars>;
    /// An IRI that owns its text (RFC 3987 section 2.2): `into_uri` turns `http://a/é` into the
    /// URI `http://a/%C3%A9`. It never loses its scheme.
    pub type IriBuf = iref_reference::owned::UriBuf<IriChars>;
    /// A reference of IRIs that owns its text (RFC 3987 section 2.2): `resolve` against
    /// `http://a/b/c` turns `../ü` into `http://a/ü`.
    pub type IriRefBuf = iref_reference::owned::UriRefBuf<IriChars>;

    /// The components of an IRI (RFC 3987 section 2.2): of `http://a/é` the scheme `http`, the
    /// authority `a`, the path `/é`, no query and no fragment.
    pub type IriParts<'a> = iref_reference::parts::UriParts<'a, IriChars>;
    /// The components of a reference (RFC 3987 section 2.2): of `?ü` the empty path and the query
    /// `ü`, and no others.
    pub type IriRefParts<'a> = iref_reference::parts::UriRefParts<'a, IriChars>;

    /// An IRI that is composed of the components of others and not written yet (RFC 3987 section
    /// 2.2): what `../ü` resolves to against `http://a/b/c` takes 11 bytes.
    pub type ComposedIri<'a> = iref_reference::composed::ComposedUri<'a, IriChars>;
    /// A reference that is composed and not written yet (RFC 3987 section 2.2), such as `../../é`,
    /// which leads from `http://a/b/c/d` to `http://a/é`.
    pub type ComposedIriRef<'a> = iref_reference::composed::ComposedUriRef<'a, IriChars>;

    /// An authority (RFC 3987 section 2.2): in `//u@é:80/x` it is `u@é:80`, with the host `é`.
    pub type Authority<'a> = iref_component::authority::Authority<'a, IriChars>;
    /// An authority that owns its text (RFC 3987 section 2.2): `set_port` with `80` turns `é` into
    /// `é:80`.
    pub type AuthorityBuf = iref_component::authority::AuthorityBuf<IriChars>;
    /// The editor of an authority in a vector of bytes, or in an owned value such as `IriBuf` (RFC
    /// 3987 section 2.2): at the bytes from 2 up to and without 7 of `//é:80/x`, `set_port` with None
    /// leaves `//é/x`.
    pub type AuthorityMut<'a, T = Vec<u8>> = iref_component::authority_mut::AuthorityMut<
        'a,
        IriChars,
        T,
    >;
    /// The parts of an authority (RFC 3987 section 2.2): of `u@é:` the user info `u`, the host `é`
    /// and an empty port, which is there.
    pub type AuthorityParts<'a> = iref_component::authority_parts::AuthorityParts<'a, IriChars>;

    /// A user info (RFC 3987 section 2.2): in `//é:p@h` it is `é:p`.
    pub type UserInfo<'a> = iref_component::named_texts::UserInfo<'a, IriChars>;
    /// A user info that owns its text (RFC 3987 section 2.2), such as `é` of `//é@h`.
    pub type UserInfoBuf = iref_component::named_texts::UserInfoBuf<IriChars>;

    /// A host (RFC 3987 section 2.2): a name such as `é.org`, an address such as `10.0.0.1`, or
    /// one in brackets, such as `[::1]`. In `//u@:80` it is empty.
    pub type Host<'a> = iref_component::named_texts::Host<'a, IriChars>;
    /// A host that owns its text (RFC 3987 section 2.2): that of the IPv6 number 1 is `[::1]`.
    pub type HostBuf = iref_component::named_texts::HostBuf<IriChars>;

    /// A path (RFC 3987 section 2.2): `/é/b` has the segments `é` and `b`, `é/` the segments `é`
    /// and an empty one.
    pub type Path<'a> = iref_component::path::Path<'a, IriChars>;
    /// A path that owns its text (RFC 3987 section 2.2): `push` with `ü` turns `/a` into
    /// `/a/ü`.
    pub type PathBuf = iref_component::path_buf::PathBuf<IriChars>;
    /// The editor of a path in a vector of bytes, or in an owned value such as `IriBuf` or
    /// `PathBuf` (RFC 3987 section 2.2): at the bytes from 8 up to and without 13 of
    /// `http://h/a/é?q`, `pop` leaves `http://h/a?q`.
    pub type PathMut<'a, T = Vec<u8>> = iref_component::path_mut::PathMut<'a, IriChars, T>;

    /// A segment of a path (RFC 3987 section 2.2): `é%2Fc` and the empty text are segments, `é/c`
    /// is not.
    pub type Segment<'a> = iref_component::named_texts::Segment<'a, IriChars>;
    /// A segment that owns its text (RFC 3987 section 2.2), such as `é` of `a/é`.
    pub type SegmentBuf = iref_component::named_texts::SegmentBuf<IriChars>;

    /// A double-ended iterator over the segments of a path (RFC 3987 section 2.2): of `/é//b` they
    /// are `é`, an empty one and `b`.
    pub type Segments<'a> = iref_component::segments::Segments<'a, IriChars>;
    /// A double-ended iterator over the segments of a path's normal form (RFC 3986 section 5.2.4):
    /// of `é/../b/./ü` they are `b` and `ü`.
    pub type NormalizedSegments<'a> = iref_component::normal::NormalizedSegments<'a, IriChars>;

    /// A query (RFC 3987 section 2.2): in `a?é=1` it is `é=1`. Only a query may hold private
    /// characters, such as U+E000.
    pub type Query<'a> = iref_component::named_texts::Query<'a, IriChars>;
    /// A query that owns its text (RFC 3987 section 2.2), such as `é` of `a?é`.
    pub type QueryBuf = iref_component::named_texts::QueryBuf<IriChars>;

    /// A fragment (RFC 3987 section 2.2): in `a#é/c` it is `é/c`.
    pub type Fragment<'a> = iref_component::named_texts::Fragment<'a, IriChars>;
    /// A fragment that owns its text (RFC 3987 section 2.2), such as `é` of `a#é`.
    pub type FragmentBuf = iref_component::named_texts::FragmentBuf<IriChars>;

    /// An edit of a list, for `apply_all`: `Edit::Push` with the segment `é` turns `http://h/a`
    /// into `http://h/a/é`.
    pub type Edit<'a> = crate::edits::Edit<'a, IriChars>;
}
