//! The errors of all constructors for URIs (RFC 3986 section 3).
ghost use Rattle.std.specs.Prelude.{◌≡◌, ⊤};

use iref_fault::{
    InvalidAuthority, InvalidFragment, InvalidHost, InvalidPath, InvalidPort, InvalidQuery,
    InvalidScheme, InvalidSegment, InvalidUri, InvalidUriRef, InvalidUserInfo,
};
use std::alloc::AllocError;
use std::fmt;
use thiserror::Error;

/// The error of any constructor for URIs, with its input, into which `?` converts it:
/// `Port(InvalidPort("8a"))` is printed as `invalid URI authority port: 8a`.
#[derive(Copy, Debug, PartialEq, Eq, Drop, Error)]
#[error_bound(T: fmt::Display)]
pub enum UriError<T> {
    /// The input is not a URI.
    #[error("invalid URI: {0}")]
    Uri(InvalidUri<T>),
    /// The input is not a reference.
    #[error("invalid URI reference: {0}")]
    Reference(InvalidUriRef<T>),
    /// The input is not a scheme.
    #[error("invalid URI scheme: {0}")]
    Scheme(InvalidScheme<T>),
    /// The input is not an authority.
    #[error("invalid URI authority: {0}")]
    Authority(InvalidAuthority<T>),
    /// The input is not a user info.
    #[error("invalid URI authority user info: {0}")]
    UserInfo(InvalidUserInfo<T>),
    /// The input is not a host.
    #[error("invalid URI authority host: {0}")]
    Host(InvalidHost<T>),
    /// The input is not a port.
    #[error("invalid URI authority port: {0}")]
    Port(InvalidPort<T>),
    /// The input is not a path.
    #[error("invalid URI path: {0}")]
    Path(InvalidPath<T>),
    /// The input is not a segment.
    #[error("invalid URI path segment: {0}")]
    PathSegment(InvalidSegment<T>),
    /// The input is not a query.
    #[error("invalid URI query: {0}")]
    Query(InvalidQuery<T>),
    /// The input is not a fragment.
    #[error("invalid URI fragment: {0}")]
    Fragment(InvalidFragment<T>),
}

impl<T: Copy> Clone for UriError<T> {
    ghost is_clone = { λ error copy. copy ≡ error };

    ghost is_infallible = { λ _. ⊤ };

    fn clone(&self) -> Result<Self, AllocError> {
        Ok(*self)
    }
}
