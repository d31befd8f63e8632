//! Conversions between the owned values of `iref` and the URLs of `url`: a URI keeps its text, a
//! URL is what the URL Standard makes of one, and not every URL is a URI.
#![tactic(auto)]

pub mod error;
pub mod from_url;
pub mod to_url;

pub use error::FromUrlError;
pub use from_url::TryFromUrl;
pub use to_url::ToUrl;
pub use url::{ParseError, Url};
