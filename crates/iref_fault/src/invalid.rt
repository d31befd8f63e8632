//! The errors that return a refused input, one for each rule (RFC 3986 section 3).
mod faults;

use std::fmt;
use thiserror::Error;

/// The input is not a URI (RFC 3986 section 3), such as `a/b`, which has no scheme.
#[derive(Clone, Copy, Debug, PartialEq, Eq, Drop, Error)]
#[error_bound(T: fmt::Display)]
#[error("{0}")]
pub struct InvalidUri<T>(pub T);

/// The input is not a reference (RFC 3986 section 4.1), such as `a b`.
#[derive(Clone, Copy, Debug, PartialEq, Eq, Drop, Error)]
#[error_bound(T: fmt::Display)]
#[error("{0}")]
pub struct InvalidUriRef<T>(pub T);

/// The input is not a scheme (RFC 3986 section 3.1), such as `1a`.
#[derive(Clone, Copy, Debug, PartialEq, Eq, Drop, Error)]
#[error_bound(T: fmt::Display)]
#[error("{0}")]
pub struct InvalidScheme<T>(pub T);

/// The input is not an authority (RFC 3986 section 3.2), such as `h:8a`.
#[derive(Clone, Copy, Debug, PartialEq, Eq, Drop, Error)]
#[error_bound(T: fmt::Display)]
#[error("{0}")]
pub struct InvalidAuthority<T>(pub T);

/// The input is not a user info (RFC 3986 section 3.2.1), such as `a@b`.
#[derive(Clone, Copy, Debug, PartialEq, Eq, Drop, Error)]
#[error_bound(T: fmt::Display)]
#[error("{0}")]
pub struct InvalidUserInfo<T>(pub T);

/// The input is not a host (RFC 3986 section 3.2.2), such as `a:b`.
#[derive(Clone, Copy, Debug, PartialEq, Eq, Drop, Error)]
#[error_bound(T: fmt::Display)]
#[error("{0}")]
pub struct InvalidHost<T>(pub T);

/// The input is not a port (RFC 3986 section 3.2.3), such as `8a`.
#[derive(Clone, Copy, Debug, PartialEq, Eq, Drop, Error)]
#[error_bound(T: fmt::Display)]
#[error("{0}")]
pub struct InvalidPort<T>(pub T);

/// The input is not a path (RFC 3986 section 3.3), such as `a?b`.
#[derive(Clone, Copy, Debug, PartialEq, Eq, Drop, Error)]
#[error_bound(T: fmt::Display)]
#[error("{0}")]
pub struct InvalidPath<T>(pub T);

/// The input is not a segment (RFC 3986 section 3.3), such as `a/b`.
#[derive(Clone, Copy, Debug, PartialEq, Eq, Drop, Error)]
#[error_bound(T: fmt::Display)]
#[error("{0}")]
pub struct InvalidSegment<T>(pub T);

/// The input is not a query (RFC 3986 section 3.4), such as `a#b`.
#[derive(Clone, Copy, Debug, PartialEq, Eq, Drop, Error)]
#[error_bound(T: fmt::Display)]
#[error("{0}")]
pub struct InvalidQuery<T>(pub T);

/// The input is not a fragment (RFC 3986 section 3.5), such as `a#b`.
#[derive(Clone, Copy, Debug, PartialEq, Eq, Drop, Error)]
#[error_bound(T: fmt::Display)]
#[error("{0}")]
pub struct InvalidFragment<T>(pub T);

/// The input is not percent-encoded (RFC 3986 section 2.1): a `%` stands before less than two
/// hexadecimal digits, as in `a%2`.
#[derive(Clone, Copy, Debug, PartialEq, Eq, Drop, Error)]
#[error_bound(T: fmt::Display)]
#[error("{0}")]
pub struct InvalidPctStr<T>(pub T);
