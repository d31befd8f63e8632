//! What replaces a range of a text, and the range of a part that is edited so.

use std::ops::Range;

/// The range of a part in a text, in bytes.
#[derive(Clone, Copy)]
pub struct Span {
    /// Where the part begins.
    pub start: usize,
    /// Where it ends.
    pub end: usize,
}

/// A range of a text, and the three texts that replace it.
#[derive(Drop)]
pub struct Change<'a> {
    /// What is taken out, in bytes.
    pub within: Range<usize>,
    /// What comes in first.
    pub first: &'a str,
    /// What comes then.
    pub middle: &'a str,
    /// What comes last.
    pub close: &'a str,
}
