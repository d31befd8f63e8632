//! Where a text is outside the grammar (RFC 3986 appendix B), and why, with the laws about it; and
//! the errors of the calls that refuse such a text.
#![tactic(auto)]

pub mod component;
pub mod edit;
pub mod fault;
pub mod fault_laws;
pub mod invalid;
pub mod part;
mod pieces;
pub mod port;
mod scan;

pub use edit::TryError;
pub use invalid::{
    InvalidAuthority, InvalidFragment, InvalidHost, InvalidPath, InvalidPctStr, InvalidPort,
    InvalidQuery, InvalidScheme, InvalidSegment, InvalidUri, InvalidUri as InvalidIri,
    InvalidUriRef, InvalidUriRef as InvalidIriRef, InvalidUserInfo,
};
pub use port::PortError;
