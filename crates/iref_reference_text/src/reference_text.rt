//! A text in a rule of references, with the lengths of its components beside it.
ghost use Rattle.std.specs.{String.{string_bytes}, Prelude.{◌≡◌, ◌<◌, ◌^◌, Bool, true, [], ◌∷◌}};
ghost use Rattle.std.specs.{Prelude.{Option, None, IfSome, is_some, option_map}, Option.{option_copied}};
ghost use Rattle.iref_grammar.specs.{text_at, AreComponents, spell_components, is_readable};
ghost use Rattle.iref_grammar.specs.{is_reference, offsets_of, hash_sign, CharTests, AreAboveAscii};
ghost use Rattle.iref_grammar.specs.{before, hierarchy, read_reference, spell, Text, InUtf8};
ghost use Rattle.iref_parse.specs.{texts_of, value_of};
ghost use Rattle.iref_component.specs.{with_query, with_fragment, Parses, base_of};
ghost use Rattle.iref_reference_text.specs.ComponentLengths.{lengths_of, total_length};
ghost use Rattle.iref_reference_text.specs.RangeTexts.{AreWithin, texts_at};
ghost use Rattle.iref_splice.specs.Changes.{IsWithin};

mod authority;
mod copies;
mod edits;
mod path;

use crate::base::base_slice;
use crate::lengths::Lengths;
use iref_component::rule::Rule;
use iref_grammar::chars::CharSet;
use iref_grammar::offsets::Offsets;
use iref_parse::split::{ReferenceSlices, split_reference};
use std::alloc::Global;
use std::fmt;
use std::marker::{Model, PhantomData};
use std::ops::Range;

/// A rule of references: of all of them, or of those with a scheme, which `s:a` is in and `a` is
/// not (RFC 3986 sections 3 and 4.1).
pub trait HeldRule: Rule {
    /// The schemes that the rule allows.
    ghost allows_scheme: { Option Text → Bool };

    /// The components of a text that is in the rule.
    fn parse<C: CharSet>(text: &str) -> Option<ReferenceSlices<'_>>
        ensures accepted { is_some result ≡ Self.test C.tests text.now }
        ensures value { IfSome result (λ s. value_of s ≡ read_reference text.now) };

    /// What is in the rule is a reference.
    ghost references: { (tests : CharTests) (text : Text) → Self.test tests text ≡ true
        → is_reference tests text ≡ true };

    /// What is in the rule has a scheme that the rule allows.
    ghost has_allowed_scheme: { (tests : CharTests) (text : Text) → Self.test tests text ≡ true
        → Self.allows_scheme (read_reference text).scheme ≡ true };

    /// A reference with a scheme that the rule allows is in the rule.
    ghost by_scheme: { (tests : CharTests) (text : Text) → is_reference tests text ≡ true
        → Self.allows_scheme (read_reference text).scheme ≡ true → Self.test tests text ≡ true };

    /// Whether the rule allows a scheme depends only on whether there is one.
    ghost by_presence: { (one other : Option Text) → is_some one ≡ is_some other
        → Self.allows_scheme one ≡ true → Self.allows_scheme other ≡ true };

    /// The base of what is in the rule is in it too.
    ghost keeps_bases: { (tests : CharTests) → AreAboveAscii tests
        → (text : Text) → Self.test tests text ≡ true
        → Self.test tests (spell (base_of (read_reference text))) ≡ true };
}

/// A text in a rule of references, with the lengths of its components beside it. `new` returns a
/// text outside the rule as its error (RFC 3986 sections 3 and 4.1).
#[derive(Drop)]
pub struct ReferenceText<R: HeldRule, C: CharSet> {
    text: String,
    lengths: Lengths,
    rule: PhantomData<(R, C)>,
}

impl<R: HeldRule, C: CharSet> Model for ReferenceText<R, C> {
    ghost Value = { Text };

    ghost view = { λ h. string_bytes h.text };

    ghost invariant = { λ h. (R.test C.tests (string_bytes h.text) ≡ true)
        × (h.lengths ≡ lengths_of (read_reference (string_bytes h.text))) };
}

impl<R: HeldRule, C: CharSet> ReferenceText<R, C> {
    // The text, which is in the rule and has components of these lengths.
    #[inline(always)]
    fn with_lengths(text: String, lengths: Lengths) -> Self
        requires in_rule { R.test C.tests (string_bytes text) ≡ true }
        requires lengths { lengths ≡ lengths_of (read_reference (string_bytes text)) }
        ensures { result ≡ string_bytes text }
    {
        ReferenceText {
            text,
            lengths,
            rule: PhantomData,
        }
    }

    /// The text with the lengths of its components, if it is in the rule, or else the text itself.
    pub fn new(text: String) -> Result<Self, String>
        ensures { Parses (InUtf8 (R.rule C.tests)) (string_bytes text)
            (λ inner. inner) (λ input. input ≡ text) result }
    {
        let Some(slices) = R::parse::<C>(text.as_str()) else {
            return Err(text);
        };
        let lengths = Lengths::of(slices);
        Ok(ReferenceText::with_lengths(text, lengths))
    }

    /// The text, which is known to be in the rule, with the lengths of its components.
    #[tactic(auto, using(crate::proofs::LengthLemmas::measures))]
    pub fn new_unchecked(text: String) -> Self
        requires { R.test C.tests (string_bytes text) ≡ true }
        ensures { result ≡ string_bytes text }
    {
        let lengths = Lengths::of(split_reference(text.as_str()));
        ReferenceText::with_lengths(text, lengths)
    }

    /// The text, which is known to be in the rule, with the lengths of these components, which are
    /// its own.
    pub fn of_slices(text: String, slices: ReferenceSlices<'_>) -> Self
        requires in_rule { R.test C.tests (string_bytes text) ≡ true }
        requires slices { texts_of slices ≡ spell_components (read_reference (string_bytes text)) }
        ensures { result ≡ string_bytes text }
    {
        ReferenceText::with_lengths(text, Lengths::of(slices))
    }

    /// The text of these bytes of UTF-8, if it is in the rule, or the bytes.
    pub fn from_bytes(bytes: Vec<u8>) -> Result<Self, Vec<u8>>
        ensures { Parses (InUtf8 (R.rule C.tests)) bytes.items
            (λ inner. inner) (λ input. input ≡ bytes) result }
    {
        match String::from_utf8(bytes) {
            Ok(text) => ReferenceText::new(text).map_err(|text| text.into_bytes()),
            Err(error) => Err(error.into_bytes()),
        }
    }

    /// The text.
    pub fn as_str(&self) -> &str
        ensures text { result.now ≡ self.now }
        ensures in_rule { R.test C.tests self.now ≡ true }
    {
        self.text.as_str()
    }

    /// The allocator of the text.
    pub fn allocator(&self) -> &Global {
        self.text.allocator()
    }

    /// Where the components stand.
    #[tactic(auto, using(crate::proofs::LengthLemmas::measures))]
    pub fn offsets(&self) -> Offsets
        ensures offsets { result ≡ offsets_of self.now }
        ensures in_rule { R.test C.tests self.now ≡ true }
    {
        self.lengths().offsets()
    }

    /// How long the components are, which are those of a readable reference that the rule allows.
    #[tactic(auto, using(crate::proofs::EditLemmas::reads))]
    pub fn lengths(&self) -> Lengths
        ensures lengths { result ≡ lengths_of (read_reference self.now) }
        ensures readable { is_readable C.tests (read_reference self.now) ≡ true }
        ensures allowed { R.allows_scheme (read_reference self.now).scheme ≡ true }
        ensures in_rule { R.test C.tests self.now ≡ true }
        ensures fits { total_length result < 2 ^ 63 }
    {
        self.lengths
    }

    /// The components, read at their offsets.
    #[tactic(auto, using(crate::proofs::ReferenceTextLemmas::texts))]
    pub fn slices(&self) -> ReferenceSlices<'_>
        ensures texts { texts_of result ≡ spell_components (read_reference self.now) }
        ensures value { value_of result ≡ read_reference self.now }
        ensures components { AreComponents C.tests (texts_of result) }
        ensures in_rule { R.test C.tests self.now ≡ true }
    {
        slices_at(self.text.as_str(), &self.offsets())
    }

    /// The text up to the fragment.
    pub fn without_fragment(&self) -> &str
        ensures text { result.now ≡ before (hash_sign ∷ []) self.now }
        ensures value { read_reference result.now ≡ with_fragment None (read_reference self.now) }
        ensures in_rule { is_reference C.tests result.now ≡ true }
    {
        &self.text.as_str()[..self.lengths().fragment_mark()]
    }

    /// The text up to the query and the fragment.
    pub fn without_query_and_fragment(&self) -> &str
        ensures text { result.now ≡ hierarchy self.now }
        ensures value { read_reference result.now
            ≡ with_query None (with_fragment None (read_reference self.now)) }
        ensures in_rule { is_reference C.tests result.now ≡ true }
    {
        &self.text.as_str()[..self.lengths().query_mark()]
    }

    /// The text up to the end of the path's directory (RFC 3986 section 5.2.3).
    pub fn base_text(&self) -> &str
        ensures text { result.now ≡ spell (base_of (read_reference self.now)) }
        ensures value { read_reference result.now ≡ base_of (read_reference self.now) }
        ensures in_rule { R.test C.tests result.now ≡ true }
    {
        base_slice::<C>(self.as_str(), self.slices(), self.lengths())
    }

    /// The same text under another rule that it is in, of its own characters or of others, with
    /// its lengths.
    pub fn into_rule<S: HeldRule, D: CharSet>(self) -> ReferenceText<S, D>
        requires { R.test C.tests self ≡ true → S.test D.tests self ≡ true }
        ensures { result ≡ self }
    {
        let ReferenceText { text, lengths, .. } = self;
        ReferenceText::with_lengths(text, lengths)
    }

    /// The text, with no copy.
    pub fn into_string(self) -> String
        ensures text { string_bytes result ≡ self }
        ensures in_rule { R.test C.tests self ≡ true }
    {
        let ReferenceText { text, .. } = self;
        text
    }
}

impl<R: HeldRule, C: CharSet> fmt::Debug for ReferenceText<R, C> {
    fn fmt<W: fmt::Write>(&self, f: &mut fmt::Formatter<W>) -> fmt::Result {
        fmt::Debug::fmt(&self.as_str(), f)
    }
}

// The text of a range.
fn slice_at<'a>(text: &'a str, range: &Range<usize>) -> &'a str
    requires { IsWithin text.now range.now }
    ensures { result.now ≡ text_at text.now range.now }
{
    &text[range.start..range.end]
}

// The text of a range, if there is one.
fn slice_if<'a>(text: &'a str, range: &Option<Range<usize>>) -> Option<&'a str>
    requires { IfSome range.now (IsWithin text.now) }
    ensures { option_copied result ≡ option_map (text_at text.now) range.now }
{
    match range {
        Some(range) => Some(slice_at(text, range)),
        None => None,
    }
}

// What is at the offsets.
fn slices_at<'a>(text: &'a str, offsets: &Offsets) -> ReferenceSlices<'a>
    requires { AreWithin text.now offsets.now }
    ensures { texts_of result ≡ texts_at text.now offsets.now }
{
    ReferenceSlices {
        scheme: slice_if(text, &offsets.scheme),
        authority: slice_if(text, &offsets.authority),
        path: slice_at(text, &offsets.path),
        query: slice_if(text, &offsets.query),
        fragment: slice_if(text, &offsets.fragment),
    }
}
