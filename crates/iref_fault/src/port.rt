//! Why a port is no number of a type (RFC 3986 section 3.2.3).
use std::fmt;
use thiserror::Error;

/// Why a port is no number of a type: that of `//h:` is `Empty`, and `256` is `OutOfRange` of a
/// `u8`.
#[derive(Clone, Copy, Debug, PartialEq, Eq, Error)]
pub enum PortError {
    /// It has no digits.
    #[error("the port has no digits")]
    Empty,
    /// Its value does not fit the type.
    #[error("the port is out of range")]
    OutOfRange,
}
