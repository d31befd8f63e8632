//! The sort prefix of a reference, with which the sort keys of all below it begin, from its text and the
//! slices of its components.

ghost use Rattle.std.specs.{BTreeMap.Range.{IsLeBy}, Prelude.{◌≡◌, ◌++◌, IfOk, OnErr, OnOk}};
ghost use Rattle.iref_grammar.specs.{ComponentTexts.{spell_components}, Keys.{text_order}, Reference.{read_reference}};
ghost use Rattle.iref_grammar.specs.Key.{key};
ghost use Rattle.iref_parse.specs.ReferenceSlices.{texts_of, value_of};
ghost use Rattle.iref_canonical.specs.SortPrefix.{sort_prefix, sort_prefix_end};
ghost use Rattle.iref_canonical.specs.SortedReferences.{IsSorted, sorted_key};

use crate::owned::SortKey;
use crate::sort_key::SortedReference;
use iref_parse::split::ReferenceSlices;
use iref_splice::Memory;
use iref_splice::backward::Backward;
use iref_splice::unwritten::Unwritten;
use std::alloc::Global;
use std::ops::Range;

// The sort prefix of a reference, not written yet.
#[derive(Clone, Copy)]
struct SortPrefix<'a> {
    reference: SortedReference<'a>,
}

impl Unwritten for SortPrefix<'_> {
    ghost text = { λ p. sort_prefix (sorted_key p.reference) };

    ghost is_sound = { λ p. IsSorted p.reference };

    fn put<O: Backward>(&self, out: &mut O) {
        self.reference.put_prefix(out);
    }
}

/// Appends the sort prefix of a reference to a vector, from the reference's text and the slices of
/// its components. Memory is requested once.
pub fn append_sort_prefix(
    text: &str,
    slices: ReferenceSlices<'_>,
    out: &mut Vec<u8>,
) -> Result<(), Memory>
    requires value { value_of slices ≡ read_reference text.now }
    requires texts { texts_of slices ≡ spell_components (read_reference text.now) }
    ensures ok { OnOk result (out.new.items
        ≡ out.old.items ++ sort_prefix (key (read_reference text.now))) }
    ensures err { OnErr result (out.new.items ≡ out.old.items) }
{
    let reference = SortedReference::new(text, slices);
    SortPrefix { reference }.append_to(out)
}

/// The range of the sort keys of a reference and of all below it, from the reference's text and the
/// slices of its components. The room of each end is taken once.
#[tactic(auto, using(crate::proofs::SortPrefixLemmas::ends))]
pub fn sort_range(
    alloc: Global,
    text: &str,
    slices: ReferenceSlices<'_>,
) -> Result<Range<SortKey>, Memory>
    requires value { value_of slices ≡ read_reference text.now }
    requires texts { texts_of slices ≡ spell_components (read_reference text.now) }
    ensures start { IfOk result
        (λ range. range.start ≡ sort_prefix (key (read_reference text.now))) }
    ensures end { IfOk result
        (λ range. range.end ≡ sort_prefix_end (key (read_reference text.now))) }
    ensures forward { IfOk result (λ range. IsLeBy text_order range.start range.end) }
{
    let mut start = Vec::new(alloc);
    append_sort_prefix(text, slices, &mut start)?;
    let mut end = Vec::with_capacity(alloc, start.len() + 1)?;
    end.extend_from_slice(start.as_slice())?;
    end.push(2)?;
    Ok(SortKey::of_bytes(start)..SortKey::of_bytes(end))
}
