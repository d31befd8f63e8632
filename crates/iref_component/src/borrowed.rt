//! Borrowed texts of a rule: the calls that those of all rules have.
ghost use Rattle.std.specs.{Prelude.{◌≡◌, true, [], IfOk, option_map}, Option.{option_copied}};
ghost use Rattle.iref_grammar.specs.{none_or};
ghost use Rattle.iref_component.specs.{Makers.{ParsesUtf8}, Components.{text_of}};

use crate::rule::{AllowsEmpty, Refuses, Rule};
pub use crate::rule_text::BorrowedText;
use crate::rule_text::{Borrowed, RuleText, TextBuf};
use iref_grammar::chars::CharSet;
use iref_splice::Memory;
use std::alloc::Global;
use std::convert::TryFrom;
use std::marker::PhantomData;
use std::str;

impl<'a, R: Refuses<&'a str>, C: CharSet> BorrowedText<'a, R, C> {
    /// The text, if it is in the rule: `Segment::new` takes `b%2Fc`. The rule's error holds any
    /// other text, such as `b/c`.
    pub fn new(text: &'a str) -> Result<Self, R::Error>
        ensures { ParsesUtf8 (R.rule C.tests) text_of R.refused text.now text.entry result }
    {
        match RuleText::read(Borrowed(text)) {
            Ok(view) => Ok(view),
            Err(Borrowed(text)) => Err(R::refuse(text)),
        }
    }
}

impl<'a, R: Refuses<&'a [u8]>, C: CharSet> BorrowedText<'a, R, C> {
    /// The text of these bytes, if it is UTF-8 and in the rule: `Segment::from_bytes` takes those
    /// of `b%2Fc`. The rule's error holds any other bytes, such as 255 alone.
    pub fn from_bytes(bytes: &'a [u8]) -> Result<Self, R::Error>
        ensures { ParsesUtf8 (R.rule C.tests) text_of R.refused bytes.now bytes.entry result }
    {
        let Ok(text) = str::from_utf8(bytes) else {
            return Err(R::refuse(bytes));
        };
        match RuleText::read(Borrowed(text)) {
            Ok(view) => Ok(view),
            Err(_) => Err(R::refuse(bytes)),
        }
    }
}

impl<'a, R: Rule, C: CharSet> BorrowedText<'a, R, C> {
    /// The value of a text that the caller proves to be in the rule, as `b` is a segment. Nothing is
    /// read.
    pub fn new_unchecked(text: &'a str) -> Self
        requires { R.test C.tests text.now ≡ true }
        ensures { text_of result ≡ text.now }
    {
        let text = Borrowed(text);
        let rule = PhantomData;
        BorrowedText { text, rule }
    }

    /// The text: of the segment `b`, `b`.
    pub fn as_str(&self) -> &'a str
        ensures text { result.now ≡ text_of self.now }
        ensures in_rule { R.test C.tests result.now ≡ true }
    {
        self.text.0
    }

    /// The bytes of the text: of the segment `b` the byte 98.
    pub fn as_bytes(&self) -> &'a [u8]
        ensures { result.now ≡ text_of self.now }
    {
        self.text.0.as_bytes()
    }

    /// An owned copy: of the `Segment` `b`, the `SegmentBuf` `b`. Out of memory, it returns
    /// `Memory`.
    pub fn to_owned(&self, alloc: Global) -> Result<TextBuf<R, C>, Memory>
        ensures { IfOk result (λ copy. text_of copy ≡ text_of self.now) }
    {
        let text = String::from_str(alloc, self.text.0)?;
        Ok(TextBuf::new_unchecked(text))
    }
}

/// The borrowed text of a slice that is known to be in the rule, if it is there: of `80` the port
/// `80`.
pub fn borrowed_of<R: Rule, C: CharSet>(text: Option<&str>) -> Option<BorrowedText<'_, R, C>>
    requires { none_or (R.test C.tests) (option_copied text) ≡ true }
    ensures { option_map text_of result ≡ option_copied text.entry }
{
    Some(BorrowedText::new_unchecked(text?))
}

/// The slice of a borrowed text, if it is there: of the port `80` the text `80`.
pub fn text_of<'a, R: Rule, C: CharSet>(view: Option<BorrowedText<'a, R, C>>) -> Option<&'a str>
    ensures text { option_copied result ≡ option_map text_of view.entry }
    ensures in_rule { none_or (R.test C.tests) (option_copied result) ≡ true }
{
    Some(view?.as_str())
}

impl<R: AllowsEmpty, C: CharSet> BorrowedText<'_, R, C> {
    /// The empty text, where the rule takes it: `Query::empty()` is the query of `a?`.
    pub fn empty() -> Self
        ensures { text_of result ≡ [] }
    {
        BorrowedText::new_unchecked("")
    }
}

impl<R: AllowsEmpty, C: CharSet> Default for BorrowedText<'_, R, C> {
    ghost is_default = { λ view. text_of view ≡ [] };

    fn default() -> Self {
        BorrowedText::empty()
    }
}

impl<'a, R: Refuses<&'a str>, C: CharSet> TryFrom<&'a str> for BorrowedText<'a, R, C> {
    type Error = R::Error;

    ghost try_from_gives = { λ text result. ParsesUtf8 (R.rule C.tests) text_of
        R.refused text.now text result };

    fn try_from(text: &'a str) -> Result<Self, R::Error> {
        BorrowedText::new(text)
    }
}

impl<'a, R: Refuses<&'a [u8]>, C: CharSet> TryFrom<&'a [u8]> for BorrowedText<'a, R, C> {
    type Error = R::Error;

    ghost try_from_gives = { λ bytes result. ParsesUtf8 (R.rule C.tests) text_of
        R.refused bytes.now bytes result };

    fn try_from(bytes: &'a [u8]) -> Result<Self, R::Error> {
        BorrowedText::from_bytes(bytes)
    }
}
