//! Where the components of a reference stand in its text (RFC 3986 section 5.3).
#![tactic(auto)]

use std::ops::Range;

/// Where the components of a reference stand in its text, in bytes, without `:`, `//`, `?` and `#`
/// (RFC 3986 section 5.3).
#[derive(Clone, Debug, PartialEq, Eq, Drop)]
pub struct Offsets {
    /// The scheme, if there is one.
    pub scheme: Option<Range<usize>>,
    /// The authority, if there is one.
    pub authority: Option<Range<usize>>,
    /// The path, which may be empty.
    pub path: Range<usize>,
    /// The query, if there is one.
    pub query: Option<Range<usize>>,
    /// The fragment, if there is one.
    pub fragment: Option<Range<usize>>,
}
