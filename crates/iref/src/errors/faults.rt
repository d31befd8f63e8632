//! Where the input of an error is wrong, and why.
ghost use Rattle.std.specs.Prelude.{◌≡◌, option_map};
ghost use Rattle.iref.specs.{BytePlaces.{fault_value}, Errors.{fault_of_iri_error, fault_of_uri_error}};

use crate::errors::iri::IriError;
use crate::errors::uri::UriError;
use iref_fault::fault::Fault;
use iref_grammar::chars::{IriChars, UriChars};

impl UriError<&str> {
    /// Where the input is wrong, and why (RFC 3986 section 3): the error that `Uri::new` returns of
    /// `http://h:8x/` becomes one whose fault is that the port is invalid at byte 10. None if the
    /// input is right after all.
    pub fn fault(&self) -> Option<Fault>
        ensures { option_map fault_value result ≡ fault_of_uri_error self.now }
    {
        match self {
            UriError::Uri(error) => error.fault::<UriChars>(),
            UriError::Reference(error) => error.fault::<UriChars>(),
            UriError::Scheme(error) => error.fault::<UriChars>(),
            UriError::Authority(error) => error.fault::<UriChars>(),
            UriError::UserInfo(error) => error.fault::<UriChars>(),
            UriError::Host(error) => error.fault::<UriChars>(),
            UriError::Port(error) => error.fault::<UriChars>(),
            UriError::Path(error) => error.fault::<UriChars>(),
            UriError::PathSegment(error) => error.fault::<UriChars>(),
            UriError::Query(error) => error.fault::<UriChars>(),
            UriError::Fragment(error) => error.fault::<UriChars>(),
        }
    }
}

impl IriError<&str> {
    /// Where the input is wrong, and why (RFC 3987 section 2.2): the error that `Iri::new` returns
    /// of `http://é:8x/` becomes one whose fault is that the port is invalid at byte 11. None if the
    /// input is right after all.
    pub fn fault(&self) -> Option<Fault>
        ensures { option_map fault_value result ≡ fault_of_iri_error self.now }
    {
        match self {
            IriError::Iri(error) => error.fault::<IriChars>(),
            IriError::Reference(error) => error.fault::<IriChars>(),
            IriError::Scheme(error) => error.fault::<IriChars>(),
            IriError::Authority(error) => error.fault::<IriChars>(),
            IriError::UserInfo(error) => error.fault::<IriChars>(),
            IriError::Host(error) => error.fault::<IriChars>(),
            IriError::Port(error) => error.fault::<IriChars>(),
            IriError::Path(error) => error.fault::<IriChars>(),
            IriError::PathSegment(error) => error.fault::<IriChars>(),
            IriError::Query(error) => error.fault::<IriChars>(),
            IriError::Fragment(error) => error.fault::<IriChars>(),
        }
    }
}
