//! Percent-encoded texts (RFC 3986 section 2.1).
ghost use Rattle.std.specs.Prelude.{◌≡◌};
ghost use Rattle.percent_encoding.specs.{Iter.{decoded_bytes}, Percent.{percent_decode}};
ghost use Rattle.iref_component.specs.Components.{text_of};

use crate::borrowed::BorrowedText;
use crate::component_rules::PctStrRule;
use crate::owned::TextBuf;
use crate::rule::Escaped;
pub use iref_fault::InvalidPctStr;
use iref_grammar::chars::{CharSet, UriChars};
use percent_encoding::{PercentDecode, percent_decode_str};

/// A percent-encoded text (RFC 3986 section 2.1), where each `%` stands before two hexadecimal
/// digits: `a%20b` decodes to the three bytes of `a b`. `InvalidPctStr` holds any other, such as
/// `a%2`.
pub type PctStr<'a> = BorrowedText<'a, PctStrRule, UriChars>;

/// A percent-encoded text that owns its text (RFC 3986 section 2.1), such as `%41`, which is equal
/// to `A`.
pub type PctString = TextBuf<PctStrRule, UriChars>;

impl<'a> PctStr<'a> {
    /// The bytes that the text decodes to, each escape one byte: of `a%2Fb` those of `a/b`. They
    /// take no memory.
    pub fn bytes(&self) -> PercentDecode<'a>
        ensures { decoded_bytes result ≡ percent_decode (text_of self.now) }
    {
        percent_decode_str(self.as_str())
    }
}

impl PctString {
    /// The bytes that the text decodes to, each escape one byte: of `a%2Fb` those of `a/b`. They
    /// take no memory.
    pub fn bytes(&self) -> PercentDecode<'_>
        ensures { decoded_bytes result ≡ percent_decode (text_of self.now) }
    {
        percent_decode_str(self.as_str())
    }
}

impl<'a, R: Escaped, C: CharSet> BorrowedText<'a, R, C> {
    /// The text as a percent-encoded text: of the query `a%41`, one that decodes to `aA`.
    pub fn as_pct_str(&self) -> PctStr<'a>
        ensures { text_of result ≡ text_of self.now }
    {
        PctStr::new_unchecked(self.as_str())
    }
}

impl<R: Escaped, C: CharSet> TextBuf<R, C> {
    /// The text as a percent-encoded text: of the query `a%41`, one that decodes to `aA`.
    pub fn as_pct_str(&self) -> PctStr<'_>
        ensures { text_of result ≡ text_of self.now }
    {
        self.as_borrowed().as_pct_str()
    }

    /// The text as a percent-encoded text, with no copy: of the query `a%41`, one that decodes to
    /// `aA`.
    pub fn into_pct_string(self) -> PctString
        ensures { text_of result ≡ text_of self }
    {
        PctString::new_unchecked(self.into_string())
    }
}
