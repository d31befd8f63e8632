//! Owned texts of a rule: the calls that those of all rules have.
ghost use Rattle.std.specs.{Prelude.{◌≡◌, true, [], OnOk, OnErr, IsOk}, String.{string_bytes}};
ghost use Rattle.iref_splice.specs.Changes.{IsNoLonger, IsWithin, changed};
ghost use Rattle.iref_component.specs.{Makers.{ParsesUtf8}, Components.{text_of}};

use crate::rule::{AllowsEmpty, Refuses, Rule};
use crate::rule_text::RuleText;
pub use crate::rule_text::TextBuf;
use iref_grammar::chars::CharSet;
use iref_splice::Memory;
use iref_splice::change::Change;
use iref_splice::text::replace;
use std::alloc::Global;
use std::convert::TryFrom;
use std::marker::PhantomData;

impl<R: Refuses<String>, C: CharSet> TextBuf<R, C> {
    /// The text, if it is in the rule, with no copy: `SegmentBuf::new` takes `b%2Fc`. The rule's
    /// error holds any other text, such as `b/c`.
    pub fn new(text: String) -> Result<Self, R::Error>
        ensures { ParsesUtf8 (R.rule C.tests) text_of R.refused (string_bytes text) text result }
    {
        match RuleText::read(text) {
            Ok(text) => Ok(text),
            Err(text) => Err(R::refuse(text)),
        }
    }
}

impl<R: Refuses<Vec<u8>>, C: CharSet> TextBuf<R, C> {
    /// The text of these bytes, if it is UTF-8 and in the rule, with no copy:
    /// `SegmentBuf::from_bytes` takes those of `b%2Fc`. The rule's error holds any other bytes,
    /// such as 255 alone.
    pub fn from_bytes(bytes: Vec<u8>) -> Result<Self, R::Error>
        ensures { ParsesUtf8 (R.rule C.tests) text_of R.refused bytes.items bytes result }
    {
        let text = match String::from_utf8(bytes) {
            Ok(text) => text,
            Err(error) => return Err(R::refuse(error.into_bytes())),
        };
        match RuleText::read(text) {
            Ok(text) => Ok(text),
            Err(text) => Err(R::refuse(text.into_bytes())),
        }
    }
}

impl<R: Rule, C: CharSet> TextBuf<R, C> {
    /// The text, which is known to be in the rule, as `b` is a segment. Nothing is read.
    pub fn new_unchecked(text: String) -> Self
        requires { R.test C.tests (string_bytes text) ≡ true }
        ensures { text_of result ≡ string_bytes text }
    {
        let rule = PhantomData;
        TextBuf { text, rule }
    }

    /// The text: of the segment `b`, `b`.
    pub fn as_str(&self) -> &str
        ensures text { result.now ≡ text_of self.now }
        ensures in_rule { R.test C.tests result.now ≡ true }
    {
        self.text.as_str()
    }

    /// The bytes of the text: of the segment `b` the byte 98.
    pub fn as_bytes(&self) -> &[u8]
        ensures { result.now ≡ text_of self.now }
    {
        self.text.as_bytes()
    }

    /// The allocator of the text.
    pub fn alloc(&self) -> Global {
        *self.text.allocator()
    }

    // Makes the change, where what this leaves is in the rule. All memory is requested first: an
    // error changes nothing, and what makes the text no longer takes no memory.
    pub(crate) fn apply(&mut self, change: Change<'_>) -> Result<(), Memory>
        requires within { IsWithin (text_of self.old) change.within }
        requires in_rule { R.test C.tests (changed (text_of self.old) change) ≡ true }
        ensures ok { OnOk result (text_of self.new
            ≡ changed (text_of self.old) change.entry) }
        ensures err { OnErr result (text_of self.new ≡ text_of self.old) }
        ensures shorter { IsNoLonger change.entry → IsOk result }
    {
        replace(&mut self.text, change).or(Err(Memory))
    }

    /// The text, with no copy: of the segment `b`, `b`.
    pub fn into_string(self) -> String
        ensures text { string_bytes result ≡ text_of self }
        ensures in_rule { R.test C.tests (string_bytes result) ≡ true }
    {
        let RuleText { text, .. } = self;
        text
    }

    /// The bytes of the text, with no copy: of the segment `b` the byte 98.
    pub fn into_bytes(self) -> Vec<u8>
        ensures { result.items ≡ text_of self }
    {
        self.into_string().into_bytes()
    }
}

impl<R: AllowsEmpty, C: CharSet> TextBuf<R, C> {
    /// The empty text, where the rule takes it: `QueryBuf::empty` makes the query of `a?`. It takes
    /// no memory.
    pub fn empty(alloc: Global) -> Self
        ensures { text_of result ≡ [] }
    {
        TextBuf::new_unchecked(String::new(alloc))
    }
}

impl<R: Refuses<String>, C: CharSet> TryFrom<String> for TextBuf<R, C> {
    type Error = R::Error;

    ghost try_from_gives = { λ text result. ParsesUtf8 (R.rule C.tests) text_of
        R.refused (string_bytes text) text result };

    fn try_from(text: String) -> Result<Self, R::Error> {
        TextBuf::new(text)
    }
}

impl<R: Refuses<Vec<u8>>, C: CharSet> TryFrom<Vec<u8>> for TextBuf<R, C> {
    type Error = R::Error;

    ghost try_from_gives = { λ bytes result. ParsesUtf8 (R.rule C.tests) text_of
        R.refused bytes.items bytes result };

    fn try_from(bytes: Vec<u8>) -> Result<Self, R::Error> {
        TextBuf::from_bytes(bytes)
    }
}
