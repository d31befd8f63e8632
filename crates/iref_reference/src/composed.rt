//! References that are composed of the components of others, and not written yet (RFC 3986 sections
//! 5.2 and 5.3).
ghost use Rattle.std.specs.Prelude.{◌≡◌, ◌≤◌, ◌++◌, drop, IfOk, is_some, length, OnErr, OnOk, Option, Some, true};
ghost use Rattle.iref_grammar.specs.{Rules.{Text}, Texts.{is_empty}};
ghost use Rattle.iref_grammar.specs.{Relative.{relative_to}, Resolution.{resolved}};
ghost use Rattle.iref_reference_text.specs.{AreComponents, is_readable, texts_of, value_of};
ghost use Rattle.iref_reference_text.specs.MeasuredReferences.{IsComposed, measured_components, spell_texts};
ghost use Rattle.iref_reference_text.specs.Steps.{Spells};
ghost use Rattle.iref_reference.specs.{References.{reference_buf_text}, Shortest.{IsRelativized}};

use crate::owned::ReferenceBuf;
use crate::rule::{ReferenceRule, UriRule};
use iref_grammar::chars::CharSet;
use iref_parse::split::ReferenceSlices;
use iref_reference_text::measured::{MeasuredReference, count_paths};
use iref_reference_text::reference_text::{HeldRule, ReferenceText};
use iref_splice::Memory;
use iref_splice::unwritten::Unwritten;
use std::alloc::Global;
use std::fmt;
use std::marker::{Model, PhantomData};

/// A reference of a rule, composed of borrowed components and not written yet: what `../g` resolves
/// to against `http://a/b/c` takes 10 bytes (RFC 3986 section 5.3).
#[derive(Drop)]
pub struct Composed<'a, R: HeldRule, C: CharSet> {
    components: MeasuredReference<'a>,
    len: usize,
    rule: PhantomData<(R, C)>,
}

/// A reference that is not written yet, such as `../../b`, which leads from `http://a/b/c/d` to
/// `http://a/b` (RFC 3986 section 4.1).
pub type ComposedUriRef<'a, C> = Composed<'a, ReferenceRule, C>;

/// A URI that is not written yet, such as `http://a/g`, which `../g` resolves to against
/// `http://a/b/c` (RFC 3986 section 5.2).
pub type ComposedUri<'a, C> = Composed<'a, UriRule, C>;

impl<'a, R: HeldRule, C: CharSet> Model for Composed<'a, R, C> {
    ghost Value = { Text };

    ghost view = { λ c. spell_texts (measured_components c.components) };

    ghost invariant = { λ c. IsComposed (R.test C.tests) c.components
        × (c.len ≡ length (spell_texts (measured_components c.components))) };
}

impl<'a, R: HeldRule, C: CharSet> Composed<'a, R, C> {
    // What these components spell, if its length can be counted.
    #[inline(always)]
    fn of_components(components: MeasuredReference<'a>) -> Result<Self, Memory>
        requires { IsComposed (R.test C.tests) components }
        ensures { IfOk result (λ composed.
            composed ≡ spell_texts (measured_components components.entry)) }
    {
        let len = components.count()?;
        Ok(Composed {
            components,
            len,
            rule: PhantomData,
        })
    }

    // What a reference resolves to against a base.
    pub(crate) fn resolved(
        base: ReferenceSlices<'a>,
        reference: ReferenceSlices<'a>,
    ) -> Result<Self, Memory>
        requires base { is_readable C.tests (value_of base) ≡ true }
        requires reference { is_readable C.tests (value_of reference) ≡ true }
        requires allowed { R.allows_scheme
            (resolved (value_of base) (value_of reference)).scheme ≡ true }
        ensures { IfOk result (Spells (resolved (value_of base.entry) (value_of reference.entry))) }
    {
        count_paths(base.path, reference.path)?;
        Composed::of_components(MeasuredReference::resolved(base, reference))
    }

    // What leads from a base to a target.
    pub(crate) fn relative_to(
        target: ReferenceSlices<'a>,
        base: ReferenceSlices<'a>,
    ) -> Result<Self, Memory>
        requires readable { is_readable C.tests (value_of target) ≡ true }
        requires target { AreComponents C.tests (texts_of target) }
        requires base { AreComponents C.tests (texts_of base) }
        requires allowed { R.allows_scheme
            (relative_to (value_of target) (value_of base)).scheme ≡ true }
        ensures { IfOk result (Spells (relative_to (value_of target.entry) (value_of base.entry))) }
    {
        count_paths(base.path, target.path)?;
        Composed::of_components(MeasuredReference::relative_to::<C>(target, base))
    }

    // The shortest reference that leads from a base to the target's very text, if one does.
    pub(crate) fn relativized(
        target: ReferenceSlices<'a>,
        base: ReferenceSlices<'a>,
    ) -> Result<Option<Self>, Memory>
        requires target { is_readable C.tests (value_of target) ≡ true }
        requires base { is_readable C.tests (value_of base) ≡ true }
        requires full { is_some (value_of target).scheme ≡ true }
        requires allowed { (scheme : Option Text) → R.allows_scheme scheme ≡ true }
        ensures { IfOk result (IsRelativized (value_of target.entry) (value_of base.entry)) }
    {
        count_paths(base.path, target.path)?;
        match MeasuredReference::relativized(target, base)? {
            Some(components) => Ok(Some(Composed::of_components(components)?)),
            None => Ok(None),
        }
    }

    /// How many bytes the text has: `http://a/g` has 10.
    pub fn len(&self) -> usize
        ensures { result ≡ length self.now }
    {
        self.len
    }

    /// Whether the text is empty: that of `s:` relative to `s:` is.
    pub fn is_empty(&self) -> bool
        ensures { result ≡ is_empty self.now }
    {
        self.len == 0
    }

    /// Writes the text first into a buffer, whose other bytes stay as they are: `s:g` in `abcde`
    /// leaves `s:gde`.
    pub fn write_to(&self, buffer: &mut [u8])
        requires { length self.now ≤ length buffer.old }
        ensures { buffer.new ≡ self.now ++ drop (length self.now) buffer.old }
    {
        self.components.fill(&mut buffer[..self.len]);
    }

    /// Appends the text to a vector: with `s:g`, `ok` becomes `oks:g`. Memory is requested once.
    /// Out of memory, it returns `Memory` and adds nothing.
    pub fn append_to(&self, out: &mut Vec<u8>) -> Result<(), Memory>
        ensures ok { OnOk result (out.new.items ≡ out.old.items ++ self.now) }
        ensures err { OnErr result (out.new.items ≡ out.old.items) }
    {
        self.components.append_sized(self.len, out)
    }

    /// An owned value of the text, such as `s:g`. Memory is requested once. Out of memory, it
    /// returns `Memory`.
    #[inline(always)]
    pub fn to_owned(&self, alloc: Global) -> Result<ReferenceBuf<R, C>, Memory>
        ensures { IfOk result (λ owner. reference_buf_text owner ≡ self.now) }
    {
        let inner = ReferenceText::of_components(alloc, &self.components, self.len)?;
        Ok(ReferenceBuf::from_inner(inner))
    }
}

/// The text: `{}` writes `http://a/g` so, from the front, and takes no memory. Where dots are removed,
/// the path is read again for each halving of the number of its segments.
impl<R: HeldRule, C: CharSet> fmt::Display for Composed<'_, R, C> {
    ghost output = { λ composed. Some composed };

    fn fmt<W: fmt::Write>(&self, f: &mut fmt::Formatter<W>) -> fmt::Result {
        self.components.show(f)
    }
}
