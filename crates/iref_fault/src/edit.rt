//! Why an edit by a text is refused.
use std::fmt;
use thiserror::Error;

/// Why an edit by a text is refused: a port set to `8a` returns `Invalid(InvalidPort("8a"))`.
#[derive(Clone, Copy, Debug, PartialEq, Eq, Drop, Error)]
#[error_bound(E: fmt::Display)]
pub enum TryError<E> {
    /// The text is outside its rule: the error holds it.
    #[error("{0}")]
    Invalid(E),
    /// A growth was refused, or the new length would pass what a buffer can hold.
    #[error("out of memory")]
    Memory,
}
