//! Texts of references that are made of others, or of components that are measured: a copy, a
//! scheme alone, a reference under a scheme, and the mapping of an IRI to a URI (RFC 3986 section
//! 5.3, RFC 3987 section 3.1).
ghost use Rattle.std.specs.{Char.{is_ascii}, List.{list_all}, String.{string_bytes}};
ghost use Rattle.std.specs.Prelude.{◌≡◌, ◌++◌, true, [], ◌∷◌, None, Some, IfOk, IfErr, IsOk, length};
ghost use Rattle.iref_grammar.specs.Mapping.{mapped};
ghost use Rattle.iref_component.specs.{colon, is_scheme, with_scheme};
ghost use Rattle.iref_reference_text.specs.{HasLengths, with_fragment, with_query, Steps.{IsStep}};
ghost use Rattle.iref_reference_text.specs.MeasuredReferences.{IsComposed, spell_texts, measured_components};

use super::{HeldRule, ReferenceText};
use crate::lengths::Lengths;
use crate::mapped_bytes::{count_escaped, map_in_place, mapped};
use crate::measured::MeasuredReference;
use iref_grammar::chars::{CharSet, UriChars};
use iref_splice::Memory;
use std::alloc::{AllocError, Global};

// Room for the delimiter before a component and for the guard or the root after it.
const MARKS: usize = 3;

impl<R: HeldRule> ReferenceText<R, UriChars> {
    /// The mapping of a text that is known to be in the rule over some characters, in a buffer of
    /// its exact size.
    pub fn mapped<C: CharSet>(alloc: Global, text: &str) -> Result<Self, Memory>
        requires { R.test C.tests text.now ≡ true }
        ensures { IfOk result (λ inner. inner ≡ mapped text.now) }
    {
        Ok(ReferenceText::new_unchecked(mapped(alloc, text)?))
    }
}

impl<R: HeldRule, C: CharSet> ReferenceText<R, C> {
    /// The text of these components, which is in the rule and this long. Memory is requested once.
    #[inline(always)]
    pub fn of_components(
        alloc: Global,
        components: &MeasuredReference<'_>,
        len: usize,
    ) -> Result<Self, Memory>
        requires composed { IsComposed (R.test C.tests) components.now }
        requires len { len ≡ length (spell_texts (measured_components components.now)) }
        ensures { IfOk result (λ inner. inner ≡ spell_texts (measured_components components.now)) }
    {
        let bytes = components.bytes(alloc, len)?;
        Ok(ReferenceText::of_bytes(bytes, components.lengths()))
    }

    /// The text of these bytes, which is in the rule and has components of these lengths.
    #[inline(always)]
    #[tactic(auto, using(crate::proofs::ReferenceTextLemmas::in_rule_utf8))]
    pub fn of_bytes(bytes: Vec<u8>, lengths: Lengths) -> Self
        requires { HasLengths (R.test C.tests) lengths bytes.items }
        ensures { result ≡ bytes.items }
    {
        // What is in the rule is text, so no byte is read again.
        let text = unsafe { String::from_utf8_unchecked(bytes) };
        ReferenceText::with_lengths(text, lengths)
    }

    /// A copy of a text that is known to be in the rule, with room for a component that it is to
    /// get, if there is one.
    pub fn copied(alloc: Global, text: &str, component: Option<&str>) -> Result<Self, Memory>
        requires { R.test C.tests text.now ≡ true }
        ensures { IfOk result (λ inner. inner ≡ text.now) }
    {
        let mut len = text.len();
        if let Some(component) = component {
            len = len.checked_add(component.len()).ok_or(AllocError)?;
            len = len.checked_add(MARKS).ok_or(AllocError)?;
        }
        let mut copy = String::with_capacity(alloc, len)?;
        copy.push_str(text)?;
        Ok(ReferenceText::new_unchecked(copy))
    }

    /// The reference that is a scheme alone: of `data`, `data:`. It takes the scheme's buffer.
    pub fn from_scheme(scheme: String) -> Result<Self, Memory>
        requires scheme { is_scheme (string_bytes scheme) ≡ true }
        requires allowed { R.allows_scheme (Some (string_bytes scheme)) ≡ true }
        ensures { IfOk result (λ inner. inner ≡ string_bytes scheme ++ colon ∷ []) }
    {
        let mut text = scheme;
        text.push(':')?;
        Ok(ReferenceText::new_unchecked(text))
    }

    /// The same reference under a scheme, with no copy where the buffer has room, or the reference
    /// as it was.
    #[tactic(auto, unfolding(iref_grammar::specs::ComponentSteps::with_scheme))]
    pub fn into_with_scheme<S: HeldRule>(self, scheme: &str) -> Result<ReferenceText<S, C>, Self>
        requires scheme { is_scheme scheme.now ≡ true }
        requires allowed { R.allows_scheme (Some scheme.now) ≡ true }
        requires allows { S.allows_scheme (Some scheme.now) ≡ true }
        ensures ok { IfOk result (IsStep (with_scheme (Some scheme.now)) self) }
        ensures err { IfErr result (λ inner. inner ≡ self) }
    {
        let mut inner = self;
        match inner.set_scheme(Some(scheme)) {
            Ok(()) => Ok(inner.into_rule()),
            Err(_) => Err(inner),
        }
    }

    /// A copy of the text up to the query and the fragment, with as much room: of `s:/a?q`, `s:/a`.
    #[tactic(auto, using(crate::proofs::ReferenceTextLemmas::spelled))]
    pub fn copied_hierarchy(&self) -> Result<Self, Memory>
        ensures { IfOk result (IsStep (λ r. with_query None (with_fragment None r)) self.now) }
    {
        let mut text = String::with_capacity(*self.text.allocator(), self.text.capacity())?;
        text.push_str(self.without_query_and_fragment())?;
        let lengths = Lengths {
            query: 0,
            fragment: 0,
            ..self.lengths()
        };
        Ok(ReferenceText::with_lengths(text, lengths))
    }

    /// Makes room for at least this many bytes behind the text, which stays as it is.
    pub fn reserve(&mut self, additional: usize) -> Result<(), Memory>
        ensures { self.new ≡ self.old }
    {
        Ok(self.text.reserve(additional)?)
    }

    /// The mapping, within the buffer. A text of ASCII is its own mapping, and takes no memory. Out
    /// of memory, the call returns the text as it was.
    pub fn into_mapped(self) -> Result<ReferenceText<R, UriChars>, Self>
        ensures ok { IfOk result (λ inner. inner ≡ mapped self) }
        ensures err { IfErr result (λ inner. inner ≡ self) }
        ensures ascii { list_all is_ascii self ≡ true → IsOk result }
    {
        let escaped = count_escaped(self.as_str().as_bytes());
        if escaped == 0 {
            return Ok(self.into_rule());
        }
        let ReferenceText { text, lengths, .. } = self;
        let mut bytes = text.into_bytes();
        match map_in_place(&mut bytes, escaped) {
            Ok(()) => {
                // A mapping is ASCII, so no byte is read again.
                let mapped = unsafe { String::from_utf8_unchecked(bytes) };
                Ok(ReferenceText::new_unchecked(mapped))
            }
            Err(_) => Err(ReferenceText::of_bytes(bytes, lengths)),
        }
    }
}
