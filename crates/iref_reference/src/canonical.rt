//! Canonical texts of references. Two references are equal exactly if their canonical texts are the
//! same bytes.
ghost use Rattle.std.specs.Prelude.{◌≡◌, ◌↔◌, true, bytes_eq, IfOk, IsOk};
ghost use Rattle.iref_grammar.specs.Reference.{is_reference};
ghost use Rattle.iref_parse.specs.ReferenceSlices.{texts_of, value_of};
ghost use Rattle.iref_component.specs.{key, read_reference, spell_components, ReferenceValue, Text};
ghost use Rattle.iref_canonical.specs.Canonical.{canonical_text};
ghost use Rattle.iref_reference.specs.CanonicalTexts.{AreEqualByTexts, IsCanonicalTextOf};
ghost use Rattle.iref_reference.specs.References.{key_of_reference, key_of_reference_buf};
ghost use Rattle.iref_reference.specs.References.{reference_buf_text, reference_text};

use crate::borrowed::{Reference, Uri, UriRef};
use crate::owned::ReferenceBuf;
use iref_canonical::plain::is_plain;
use iref_canonical::text::{canonical_text, is_canonical, write_canonical_text};
use iref_grammar::chars::{CharSet, UriChars};
use iref_parse::split::{ReferenceSlices, split_reference};
use iref_reference_text::reference_text::{HeldRule, ReferenceText};
use iref_splice::Memory;
use std::alloc::Global;

impl<'a, R: HeldRule, C: CharSet> Reference<'a, R, C> {
    /// The reference of the canonical text, which a text comparison finds equal where `==` does: of
    /// `HTTP://a/%7Eb/./c`, `http://a/~b/c`. It equals this one, and of an IRI it is a URI. The
    /// scheme is in lower case (RFC 3986 section 6.2.2.1), dot segments are removed (6.2.2.3), and
    /// each escape is decoded where its component may hold the character, but in a segment that
    /// would become `.` or `..`: `/%2E` stays. Hosts keep their case, and one of escapes may become
    /// an address: `//%5B%3A%3A1%5D` becomes `//[::1]`.
    ///
    /// It is for comparison. Resolve first, and take the canonical text of the result: of `.` it is
    /// the empty text and of `%2E%2E/x` it is `../x`, which resolve to other URIs.
    ///
    /// Memory is requested once. `Memory` says that it was refused, or that the length cannot be
    /// counted.
    pub fn canonical(&self, alloc: Global) -> Result<ReferenceBuf<R, UriChars>, Memory>
        ensures text { IfOk result (λ copy.
            reference_buf_text copy ≡ canonical_text (key_of_reference self.now)) }
        ensures key { IfOk result (λ copy.
            key_of_reference_buf copy ≡ key_of_reference self.now) }
    {
        let text = self.as_str();
        canonical_of::<R, C>(alloc, text, split_reference(text))
    }

    /// The canonical text: the text itself where it is canonical, which takes no memory and leaves the
    /// buffer as it was; else it is written into the buffer in place of what stood there. Of
    /// `HTTP://a/%7Eb/./c` it is `http://a/~b/c`. A buffer that is used again takes memory only for a
    /// text that is longer than its room. `Memory` says that this was refused, or that the length
    /// cannot be counted; the buffer is as it was.
    pub fn canonical_in(&self, buffer: &'a mut String) -> Result<&'a str, Memory>
        ensures text { IfOk result (λ text.
            text.now ≡ canonical_text (key_of_reference self.now)) }
        ensures canonical { reference_text self.now ≡ canonical_text (key_of_reference self.now)
            → IsOk result }
    {
        let text = self.as_str();
        canonical_in::<C>(text, split_reference(text), buffer)
    }

    /// Whether the text is canonical, as `http://a/~b/c` is and `http://a/%7Eb/c` is not. It takes no
    /// memory.
    pub fn is_canonical(&self) -> bool
        ensures { result ≡ bytes_eq (reference_text self.now)
            (canonical_text (key_of_reference self.now)) }
    {
        let text = self.as_str();
        is_canonical::<C>(text, split_reference(text))
    }
}

impl<R: HeldRule, C: CharSet> ReferenceBuf<R, C> {
    /// The reference of the canonical text, as of the borrowed value: of `HTTP://a/%7Eb/./c`,
    /// `http://a/~b/c`. Memory is requested once. `Memory` says that it was refused, or that the
    /// length cannot be counted.
    pub fn canonical(&self, alloc: Global) -> Result<ReferenceBuf<R, UriChars>, Memory>
        ensures text { IfOk result (λ copy.
            reference_buf_text copy ≡ canonical_text (key_of_reference_buf self.now)) }
        ensures key { IfOk result (λ copy.
            key_of_reference_buf copy ≡ key_of_reference_buf self.now) }
    {
        canonical_of::<R, C>(alloc, self.as_str(), self.inner.slices())
    }

    /// The canonical text, as of the borrowed value: the text itself where it is canonical, else
    /// written into the buffer in place of what stood there. Of `HTTP://a/%7Eb/./c` it is
    /// `http://a/~b/c`. `Memory` says that memory for it was refused, or that the length cannot be
    /// counted; the buffer is as it was.
    pub fn canonical_in<'t>(&'t self, buffer: &'t mut String) -> Result<&'t str, Memory>
        ensures text { IfOk result (λ text.
            text.now ≡ canonical_text (key_of_reference_buf self.now)) }
        ensures canonical { reference_buf_text self.now
            ≡ canonical_text (key_of_reference_buf self.now) → IsOk result }
    {
        canonical_in::<C>(self.as_str(), self.inner.slices(), buffer)
    }

    /// Whether the text is canonical, as `http://a/~b/c` is and `http://a/%7Eb/c` is not. It takes no
    /// memory.
    pub fn is_canonical(&self) -> bool
        ensures { result ≡ bytes_eq (reference_buf_text self.now)
            (canonical_text (key_of_reference_buf self.now)) }
    {
        is_canonical::<C>(self.as_str(), self.inner.slices())
    }
}

// The reference of the canonical text of a text in the rule, of which the components are given too.
fn canonical_of<R: HeldRule, C: CharSet>(
    alloc: Global,
    text: &str,
    slices: ReferenceSlices<'_>,
) -> Result<ReferenceBuf<R, UriChars>, Memory>
    requires in_rule { R.test C.tests text.now ≡ true }
    requires slices { value_of slices ≡ read_reference text.now }
    requires texts { texts_of slices ≡ spell_components (read_reference text.now) }
    ensures text { IfOk result (λ copy.
        reference_buf_text copy ≡ canonical_text (key (read_reference text.now))) }
    ensures key { IfOk result (λ copy. key_of_reference_buf copy ≡ key (read_reference text.now)) }
{
    if is_plain::<C>(false, text, slices) {
        let copy = String::from_str(alloc, text)?;
        return Ok(ReferenceBuf::from_inner(ReferenceText::of_slices(copy, slices)));
    }
    let copy = canonical_text::<C>(alloc, slices)?;
    Ok(ReferenceBuf::from_inner(ReferenceText::new_unchecked(copy)))
}

// The canonical text of the text of a reference, of which the components are given too: the text
// itself where it is canonical, else written into the buffer.
fn canonical_in<'t, C: CharSet>(
    text: &'t str,
    slices: ReferenceSlices<'_>,
    buffer: &'t mut String,
) -> Result<&'t str, Memory>
    requires reference { is_reference C.tests text.now ≡ true }
    requires slices { value_of slices ≡ read_reference text.now }
    ensures text { IfOk result (λ canonical.
        canonical.now ≡ canonical_text (key (read_reference text.now))) }
    ensures canonical { text.now ≡ canonical_text (key (read_reference text.now)) → IsOk result }
{
    if is_plain::<C>(false, text, slices) || !write_canonical_text::<C>(text, slices, buffer)? {
        return Ok(text);
    }
    Ok(buffer.as_str())
}

/// Two references are equal exactly if the texts of their canonical references are the same bytes,
/// by the `==` of each: of these texts it asks for what the calls above say of them. A URI and an IRI,
/// which no `==` compares, have the same text exactly if their keys are the same.
#[tactic(auto, using(crate::proofs::CanonicalLemmas::by_texts))]
pub fn references_are_equal_as_their_canonical_texts<R: HeldRule, C: CharSet>()
    ensures references { AreEqualByTexts key_of_reference
        ⟦<UriRef<'static, C> as PartialEq>⟧.eq }
    ensures uris { AreEqualByTexts key_of_reference ⟦<Uri<'static, C> as PartialEq>⟧.eq }
    ensures owners { AreEqualByTexts key_of_reference_buf
        ⟦<ReferenceBuf<R, C> as PartialEq>⟧.eq }
    ensures both_families { (k l : ReferenceValue) (s t : Text) → IsCanonicalTextOf k s
        → IsCanonicalTextOf l t → (s ≡ t) ↔ (k ≡ l) }
{}
