//! Why nothing is made of a URL.
use thiserror::Error;
use url::Url;

/// A URL that was not converted, returned, such as `http://a/[b]`, whose text is outside RFC 3986.
#[derive(Debug, PartialEq, Eq, Drop, Error)]
pub enum FromUrlError {
    /// The text of the URL is outside the grammar.
    #[error("{0}")]
    Invalid(Url),
    /// A growth was refused, or the new length would pass what a buffer can hold. The calls of this
    /// crate move the text and grow nothing, so none of them returns it.
    #[error("out of memory")]
    Memory(Url),
}
