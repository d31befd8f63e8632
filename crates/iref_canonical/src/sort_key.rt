//! The sort key of a reference, from its text and the slices of its components.

ghost use Rattle.std.specs.Prelude.{◌≡◌, ◌++◌, IfOk, OnErr, OnOk};
ghost use Rattle.iref_grammar.specs.{ComponentTexts.{spell_components}, Reference.{read_reference}};
ghost use Rattle.iref_grammar.specs.Key.{key};
ghost use Rattle.iref_parse.specs.ReferenceSlices.{texts_of, value_of};
ghost use Rattle.iref_canonical.specs.{SortKey.{sort_key}, SortPrefix.{sort_prefix}};
ghost use Rattle.iref_canonical.specs.SortedReferences.{IsSorted, sorted_key};

use crate::key_bytes::Lower;
use crate::sort_parts::{put_authority_option, put_option, put_part};
use crate::sort_path::Items;
use crate::sort_short::{LONGEST, ROOM, put_short};
use iref_parse::split::ReferenceSlices;
use iref_parse::unescaped::is_kept;
use iref_splice::Memory;
use iref_splice::backward::Backward;
use iref_splice::unwritten::Unwritten;
use std::alloc::Global;

/// The sort key of a reference, not written yet.
#[derive(Clone, Copy)]
pub(crate) struct SortedReference<'a> {
    /// The slices of its components.
    pub(crate) slices: ReferenceSlices<'a>,
    /// Whether its path is absolute.
    pub(crate) absolute: bool,
    /// The items of its path.
    pub(crate) items: Items<'a>,
    /// Each byte stands as it is.
    pub(crate) kept: bool,
}

impl<'a> SortedReference<'a> {
    /// The sort key of the reference of these components.
    #[tactic(auto, unfolding(iref_grammar::specs::Key::key, iref_grammar::specs::PathKey::path_key))]
    pub(crate) fn new(text: &str, slices: ReferenceSlices<'a>) -> Self
        requires value { value_of slices ≡ read_reference text.now }
        requires texts { texts_of slices ≡ spell_components (read_reference text.now) }
        ensures key { sorted_key result ≡ key (read_reference text.now) }
        ensures sorted { IsSorted result }
    {
        let kept = is_kept(text.as_bytes());
        let (absolute, items) = Items::of_path(slices.path, kept);
        SortedReference {
            slices,
            absolute,
            items,
            kept,
        }
    }

    /// Puts the sort prefix: all up to the last item of the path, which more items can follow.
    #[tactic(auto, unfolding(crate::specs::SortPrefix::sort_prefix, crate::specs::SortPrefix::sort_path_prefix))]
    pub(crate) fn put_prefix<O: Backward>(&self, out: &mut O)
        requires sorted { IsSorted self.now }
        requires fits { O.fits out.old (sort_prefix (sorted_key self.now)) }
        ensures { out.new ≡ O.after out.old (sort_prefix (sorted_key self.now)) }
    {
        self.items.put(out);
        out.put(&[u8::from(self.absolute)]);
        put_authority_option(out, self.slices.authority, self.kept);
        put_part::<Lower, _>(out, self.slices.scheme);
    }
}

impl Unwritten for SortedReference<'_> {
    ghost text = { λ r. sort_key (sorted_key r) };

    ghost is_sound = { IsSorted };

    #[tactic(auto, using(crate::proofs::SortPrefixLemmas::key_is))]
    fn put<O: Backward>(&self, out: &mut O) {
        put_option(out, self.slices.fragment, self.kept);
        put_option(out, self.slices.query, self.kept);
        out.put(&[0]);
        self.put_prefix(out);
    }
}

/// Appends the sort key of a reference to a vector, from the reference's text and the slices of its
/// components. Memory is requested once.
pub fn append_sort_key(
    text: &str,
    slices: ReferenceSlices<'_>,
    out: &mut Vec<u8>,
) -> Result<(), Memory>
    requires value { value_of slices ≡ read_reference text.now }
    requires texts { texts_of slices ≡ spell_components (read_reference text.now) }
    ensures ok { OnOk result (out.new.items
        ≡ out.old.items ++ sort_key (key (read_reference text.now))) }
    ensures err { OnErr result (out.new.items ≡ out.old.items) }
{
    if text.len() <= LONGEST {
        let mut buffer = [0; ROOM];
        if let Some(end) = put_short(&mut buffer, text, slices) {
            out.extend_from_slice(&buffer[..end])?;
            return Ok(());
        }
    }
    SortedReference::new(text, slices).append_to(out)
}

/// The sort key of a reference, from the reference's text and the slices of its components. Memory
/// is requested once, of the exact length.
pub fn sort_key(alloc: Global, text: &str, slices: ReferenceSlices<'_>) -> Result<Vec<u8>, Memory>
    requires value { value_of slices ≡ read_reference text.now }
    requires texts { texts_of slices ≡ spell_components (read_reference text.now) }
    ensures { IfOk result (λ bytes. bytes.items ≡ sort_key (key (read_reference text.now))) }
{
    if text.len() <= LONGEST {
        let mut buffer = [0; ROOM];
        if let Some(end) = put_short(&mut buffer, text, slices) {
            return Ok(Vec::from_slice(alloc, &buffer[..end])?);
        }
    }
    SortedReference::new(text, slices).to_bytes(alloc)
}
