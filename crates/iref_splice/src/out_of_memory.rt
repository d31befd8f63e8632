//! Why a call that makes or edits a text is refused, whatever the text.
use std::alloc::{AllocError, AllocFailed};
use thiserror::Error;

/// A growth was refused, or the new length, in bytes, would pass what a buffer can hold:
/// `set_query` returns it and leaves `http://a` as it was. It is printed as `out of memory`.
#[derive(Clone, Copy, Debug, PartialEq, Eq, Error)]
#[error("out of memory")]
pub struct Memory;

impl From<AllocError> for Memory {
    fn from(_: AllocError) -> Memory {
        Memory
    }
}

impl<T: Drop> From<AllocFailed<T>> for Memory {
    fn from(_: AllocFailed<T>) -> Memory {
        Memory
    }
}
