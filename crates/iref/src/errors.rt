//! The errors of all components in one type for each family.

mod conversions;
mod faults;
pub mod iri;
pub mod uri;

pub use iri::IriError;
pub use uri::UriError;
