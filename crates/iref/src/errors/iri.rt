//! The errors of all constructors for IRIs (RFC 3987 section 2.2).
ghost use Rattle.std.specs.Prelude.{◌≡◌, ⊤};

use iref_fault::{
    InvalidAuthority, InvalidFragment, InvalidHost, InvalidPath, InvalidPort, InvalidQuery,
    InvalidScheme, InvalidSegment, InvalidUri, InvalidUriRef, InvalidUserInfo,
};
use std::alloc::AllocError;
use std::fmt;
use thiserror::Error;

/// The error of any constructor for IRIs, with its input, into which `?` converts it:
/// `Port(InvalidPort("8a"))` is printed as `invalid IRI authority port: 8a`.
#[derive(Copy, Debug, PartialEq, Eq, Drop, Error)]
#[error_bound(T: fmt::Display)]
pub enum IriError<T> {
    /// The input is not an IRI.
    #[error("invalid IRI: {0}")]
    Iri(InvalidUri<T>),
    /// The input is not a reference.
    #[error("invalid IRI reference: {0}")]
    Reference(InvalidUriRef<T>),
    /// The input is not a scheme.
    #[error("invalid IRI scheme: {0}")]
    Scheme(InvalidScheme<T>),
    /// The input is not an authority.
    #[error("invalid IRI authority: {0}")]
    Authority(InvalidAuthority<T>),
    /// The input is not a user info.
    #[error("invalid IRI authority user info: {0}")]
    UserInfo(InvalidUserInfo<T>),
    /// The input is not a host.
    #[error("invalid IRI authority host: {0}")]
    Host(InvalidHost<T>),
    /// The input is not a port.
    #[error("invalid IRI authority port: {0}")]
    Port(InvalidPort<T>),
    /// The input is not a path.
    #[error("invalid IRI path: {0}")]
    Path(InvalidPath<T>),
    /// The input is not a segment.
    #[error("invalid IRI path segment: {0}")]
    PathSegment(InvalidSegment<T>),
    /// The input is not a query.
    #[error("invalid IRI query: {0}")]
    Query(InvalidQuery<T>),
    /// The input is not a fragment.
    #[error("invalid IRI fragment: {0}")]
    Fragment(InvalidFragment<T>),
}

impl<T: Copy> Clone for IriError<T> {
    ghost is_clone = { λ error copy. copy ≡ error };

    ghost is_infallible = { λ _. ⊤ };

    fn clone(&self) -> Result<Self, AllocError> {
        Ok(*self)
    }
}
