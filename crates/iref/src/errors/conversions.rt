//! The error of each component becomes the error of its family, and its input is converted.
ghost use Rattle.iref.specs.Errors.{Becomes};
ghost use Rattle.iref.specs.declared.errors.iri.IriError.TheVariants as iri;
ghost use Rattle.iref.specs.declared.errors.uri.UriError.TheVariants as uri;

use crate::errors::iri::IriError;
use crate::errors::uri::UriError;
use iref_fault::{
    InvalidAuthority, InvalidFragment, InvalidHost, InvalidPath, InvalidPort, InvalidQuery,
    InvalidScheme, InvalidSegment, InvalidUri, InvalidUriRef, InvalidUserInfo,
};

impl<T, U: From<T>> From<InvalidUri<T>> for UriError<U> {
    ghost from_gives = { λ e. Becomes uri.Uri (λ x. record { 0 = x }) (U.from_gives e.0) };

    fn from(error: InvalidUri<T>) -> Self {
        UriError::Uri(InvalidUri(U::from(error.0)))
    }
}

impl<T, U: From<T>> From<InvalidUriRef<T>> for UriError<U> {
    ghost from_gives = { λ e. Becomes uri.Reference (λ x. record { 0 = x }) (U.from_gives e.0) };

    fn from(error: InvalidUriRef<T>) -> Self {
        UriError::Reference(InvalidUriRef(U::from(error.0)))
    }
}

impl<T, U: From<T>> From<InvalidScheme<T>> for UriError<U> {
    ghost from_gives = { λ e. Becomes uri.Scheme (λ x. record { 0 = x }) (U.from_gives e.0) };

    fn from(error: InvalidScheme<T>) -> Self {
        UriError::Scheme(InvalidScheme(U::from(error.0)))
    }
}

impl<T, U: From<T>> From<InvalidAuthority<T>> for UriError<U> {
    ghost from_gives = { λ e. Becomes uri.Authority (λ x. record { 0 = x }) (U.from_gives e.0) };

    fn from(error: InvalidAuthority<T>) -> Self {
        UriError::Authority(InvalidAuthority(U::from(error.0)))
    }
}

impl<T, U: From<T>> From<InvalidUserInfo<T>> for UriError<U> {
    ghost from_gives = { λ e. Becomes uri.UserInfo (λ x. record { 0 = x }) (U.from_gives e.0) };

    fn from(error: InvalidUserInfo<T>) -> Self {
        UriError::UserInfo(InvalidUserInfo(U::from(error.0)))
    }
}

impl<T, U: From<T>> From<InvalidHost<T>> for UriError<U> {
    ghost from_gives = { λ e. Becomes uri.Host (λ x. record { 0 = x }) (U.from_gives e.0) };

    fn from(error: InvalidHost<T>) -> Self {
        UriError::Host(InvalidHost(U::from(error.0)))
    }
}

impl<T, U: From<T>> From<InvalidPort<T>> for UriError<U> {
    ghost from_gives = { λ e. Becomes uri.Port (λ x. record { 0 = x }) (U.from_gives e.0) };

    fn from(error: InvalidPort<T>) -> Self {
        UriError::Port(InvalidPort(U::from(error.0)))
    }
}

impl<T, U: From<T>> From<InvalidPath<T>> for UriError<U> {
    ghost from_gives = { λ e. Becomes uri.Path (λ x. record { 0 = x }) (U.from_gives e.0) };

    fn from(error: InvalidPath<T>) -> Self {
        UriError::Path(InvalidPath(U::from(error.0)))
    }
}

impl<T, U: From<T>> From<InvalidSegment<T>> for UriError<U> {
    ghost from_gives = { λ e. Becomes uri.PathSegment (λ x. record { 0 = x }) (U.from_gives e.0) };

    fn from(error: InvalidSegment<T>) -> Self {
        UriError::PathSegment(InvalidSegment(U::from(error.0)))
    }
}

impl<T, U: From<T>> From<InvalidQuery<T>> for UriError<U> {
    ghost from_gives = { λ e. Becomes uri.Query (λ x. record { 0 = x }) (U.from_gives e.0) };

    fn from(error: InvalidQuery<T>) -> Self {
        UriError::Query(InvalidQuery(U::from(error.0)))
    }
}

impl<T, U: From<T>> From<InvalidFragment<T>> for UriError<U> {
    ghost from_gives = { λ e. Becomes uri.Fragment (λ x. record { 0 = x }) (U.from_gives e.0) };

    fn from(error: InvalidFragment<T>) -> Self {
        UriError::Fragment(InvalidFragment(U::from(error.0)))
    }
}

impl<T, U: From<T>> From<InvalidUri<T>> for IriError<U> {
    ghost from_gives = { λ e. Becomes iri.Iri (λ x. record { 0 = x }) (U.from_gives e.0) };

    fn from(error: InvalidUri<T>) -> Self {
        IriError::Iri(InvalidUri(U::from(error.0)))
    }
}

impl<T, U: From<T>> From<InvalidUriRef<T>> for IriError<U> {
    ghost from_gives = { λ e. Becomes iri.Reference (λ x. record { 0 = x }) (U.from_gives e.0) };

    fn from(error: InvalidUriRef<T>) -> Self {
        IriError::Reference(InvalidUriRef(U::from(error.0)))
    }
}

impl<T, U: From<T>> From<InvalidScheme<T>> for IriError<U> {
    ghost from_gives = { λ e. Becomes iri.Scheme (λ x. record { 0 = x }) (U.from_gives e.0) };

    fn from(error: InvalidScheme<T>) -> Self {
        IriError::Scheme(InvalidScheme(U::from(error.0)))
    }
}

impl<T, U: From<T>> From<InvalidAuthority<T>> for IriError<U> {
    ghost from_gives = { λ e. Becomes iri.Authority (λ x. record { 0 = x }) (U.from_gives e.0) };

    fn from(error: InvalidAuthority<T>) -> Self {
        IriError::Authority(InvalidAuthority(U::from(error.0)))
    }
}

impl<T, U: From<T>> From<InvalidUserInfo<T>> for IriError<U> {
    ghost from_gives = { λ e. Becomes iri.UserInfo (λ x. record { 0 = x }) (U.from_gives e.0) };

    fn from(error: InvalidUserInfo<T>) -> Self {
        IriError::UserInfo(InvalidUserInfo(U::from(error.0)))
    }
}

impl<T, U: From<T>> From<InvalidHost<T>> for IriError<U> {
    ghost from_gives = { λ e. Becomes iri.Host (λ x. record { 0 = x }) (U.from_gives e.0) };

    fn from(error: InvalidHost<T>) -> Self {
        IriError::Host(InvalidHost(U::from(error.0)))
    }
}

impl<T, U: From<T>> From<InvalidPort<T>> for IriError<U> {
    ghost from_gives = { λ e. Becomes iri.Port (λ x. record { 0 = x }) (U.from_gives e.0) };

    fn from(error: InvalidPort<T>) -> Self {
        IriError::Port(InvalidPort(U::from(error.0)))
    }
}

impl<T, U: From<T>> From<InvalidPath<T>> for IriError<U> {
    ghost from_gives = { λ e. Becomes iri.Path (λ x. record { 0 = x }) (U.from_gives e.0) };

    fn from(error: InvalidPath<T>) -> Self {
        IriError::Path(InvalidPath(U::from(error.0)))
    }
}

impl<T, U: From<T>> From<InvalidSegment<T>> for IriError<U> {
    ghost from_gives = { λ e. Becomes iri.PathSegment (λ x. record { 0 = x }) (U.from_gives e.0) };

    fn from(error: InvalidSegment<T>) -> Self {
        IriError::PathSegment(InvalidSegment(U::from(error.0)))
    }
}

impl<T, U: From<T>> From<InvalidQuery<T>> for IriError<U> {
    ghost from_gives = { λ e. Becomes iri.Query (λ x. record { 0 = x }) (U.from_gives e.0) };

    fn from(error: InvalidQuery<T>) -> Self {
        IriError::Query(InvalidQuery(U::from(error.0)))
    }
}

impl<T, U: From<T>> From<InvalidFragment<T>> for IriError<U> {
    ghost from_gives = { λ e. Becomes iri.Fragment (λ x. record { 0 = x }) (U.from_gives e.0) };

    fn from(error: InvalidFragment<T>) -> Self {
        IriError::Fragment(InvalidFragment(U::from(error.0)))
    }
}
