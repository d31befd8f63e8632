//! Sort keys of references: bytes that stand in the order of the references, and the range in which a
//! reference and all below it stand.
ghost use Rattle.std.specs.{BTreeMap.Range.{IsLeBy}, Prelude.{◌≡◌, ◌++◌, IfOk, OnErr, OnOk}};
ghost use Rattle.iref_grammar.specs.Keys.{text_order};
ghost use Rattle.iref_canonical.specs.{SortKey.{sort_key}, SortPrefix.{sort_prefix, sort_prefix_end}};
ghost use Rattle.iref_reference.specs.References.{key_of_reference, key_of_reference_buf};
ghost use Rattle.iref_reference.specs.SortKeys.{SortsAs, SortsAsKeys};

use crate::borrowed::{Reference, Uri, UriRef};
use crate::owned::ReferenceBuf;
use iref_canonical::owned::SortKey;
use iref_canonical::sort_key::{append_sort_key, sort_key};
use iref_canonical::sort_prefix::{append_sort_prefix, sort_range};
use iref_grammar::chars::CharSet;
use iref_parse::split::split_reference;
use iref_reference_text::reference_text::HeldRule;
use iref_splice::Memory;
use std::alloc::Global;
use std::ops::Range;

impl<R: HeldRule, C: CharSet> Reference<'_, R, C> {
    /// The sort key: sort keys stand, byte by byte and the shorter first, in the order of the
    /// references, and are the same exactly where these are equal by `==`. `a/./b` and `%61/b` have
    /// one. Out of memory, it returns `Memory`.
    pub fn sort_key(&self, alloc: Global) -> Result<SortKey, Memory>
        ensures { IfOk result (λ bytes. bytes ≡ sort_key (key_of_reference self.now)) }
    {
        let text = self.as_str();
        let bytes = sort_key(alloc, text, split_reference(text))?;
        Ok(SortKey::of_bytes(bytes))
    }

    /// Appends the sort key to a vector: of `?` the bytes 0, 0, 0, 0, 1, 0 and 0. Memory is
    /// requested once; out of memory, it returns `Memory` and the vector is as it was.
    pub fn append_sort_key_to(&self, bytes: &mut Vec<u8>) -> Result<(), Memory>
        ensures ok { OnOk result (bytes.new.items
            ≡ bytes.old.items ++ sort_key (key_of_reference self.now)) }
        ensures err { OnErr result (bytes.new.items ≡ bytes.old.items) }
    {
        let text = self.as_str();
        append_sort_key(text, split_reference(text), bytes)
    }

    /// The range in which the sort keys of all below the reference stand, that is of all that have a
    /// `suffix` after it, and no others: for a `BTreeMap`, a sorted list, or `key >= ? AND key < ?`.
    /// Below `http://h/docs` are it itself, `http://h/docs/a`, `http://h/docs?q` and
    /// `HTTP://h/x/../docs/`, not `http://h/docsx`. Below `http://h/` is each URI of this authority
    /// with an absolute path, below `http://h` only it itself with or without a query and a
    /// fragment, and below `http://h/docs/`, which ends in an empty segment, not `http://h/docs/a`.
    /// It says nothing of files: `http://h/docs//../admin` is below `http://h/docs`, and leads out of
    /// it on a disk, where `//` is `/`. Out of memory, it returns `Memory`.
    pub fn sort_range(&self, alloc: Global) -> Result<Range<SortKey>, Memory>
        ensures start { IfOk result (λ range. range.start
            ≡ sort_prefix (key_of_reference self.now)) }
        ensures end { IfOk result (λ range. range.end
            ≡ sort_prefix_end (key_of_reference self.now)) }
        ensures forward { IfOk result (λ range. IsLeBy text_order range.start range.end) }
    {
        let text = self.as_str();
        sort_range(alloc, text, split_reference(text))
    }

    /// Appends the sort prefix to a vector, with which the sort keys of all below the reference
    /// begin, and no others: of `/a?q` the bytes 0, 0, 1, 1, 97 and 0. It is where `sort_range`
    /// begins; the range ends before the prefix and the byte 2. Memory is requested once; out of
    /// memory, it returns `Memory` and the vector is as it was.
    pub fn append_sort_prefix_to(&self, bytes: &mut Vec<u8>) -> Result<(), Memory>
        ensures ok { OnOk result (bytes.new.items
            ≡ bytes.old.items ++ sort_prefix (key_of_reference self.now)) }
        ensures err { OnErr result (bytes.new.items ≡ bytes.old.items) }
    {
        let text = self.as_str();
        append_sort_prefix(text, split_reference(text), bytes)
    }
}

impl<R: HeldRule, C: CharSet> ReferenceBuf<R, C> {
    /// The sort key, as of the borrowed value: `a/./b` and `%61/b` have one. Out of memory, it returns
    /// `Memory`.
    pub fn sort_key(&self, alloc: Global) -> Result<SortKey, Memory>
        ensures { IfOk result (λ bytes. bytes ≡ sort_key (key_of_reference_buf self.now)) }
    {
        let bytes = sort_key(alloc, self.as_str(), self.inner.slices())?;
        Ok(SortKey::of_bytes(bytes))
    }

    /// Appends the sort key to a vector: of `?` the bytes 0, 0, 0, 0, 1, 0 and 0. Memory is
    /// requested once; out of memory, it returns `Memory` and the vector is as it was.
    pub fn append_sort_key_to(&self, bytes: &mut Vec<u8>) -> Result<(), Memory>
        ensures ok { OnOk result (bytes.new.items
            ≡ bytes.old.items ++ sort_key (key_of_reference_buf self.now)) }
        ensures err { OnErr result (bytes.new.items ≡ bytes.old.items) }
    {
        append_sort_key(self.as_str(), self.inner.slices(), bytes)
    }

    /// The range in which the sort keys of all below the reference stand, as of the borrowed value:
    /// of `http://h/docs` that in which `http://h/docs/a` is, not `http://h/docsx`. Out of memory, it
    /// returns `Memory`.
    pub fn sort_range(&self, alloc: Global) -> Result<Range<SortKey>, Memory>
        ensures start { IfOk result
            (λ range. range.start ≡ sort_prefix (key_of_reference_buf self.now)) }
        ensures end { IfOk result
            (λ range. range.end ≡ sort_prefix_end (key_of_reference_buf self.now)) }
        ensures forward { IfOk result (λ range. IsLeBy text_order range.start range.end) }
    {
        sort_range(alloc, self.as_str(), self.inner.slices())
    }

    /// Appends the sort prefix to a vector, as of the borrowed value: of `/a?q` the bytes 0, 0, 1,
    /// 1, 97 and 0. Memory is requested once; out of memory, it returns `Memory` and the vector is
    /// as it was.
    pub fn append_sort_prefix_to(&self, bytes: &mut Vec<u8>) -> Result<(), Memory>
        ensures ok { OnOk result (bytes.new.items
            ≡ bytes.old.items ++ sort_prefix (key_of_reference_buf self.now)) }
        ensures err { OnErr result (bytes.new.items ≡ bytes.old.items) }
    {
        append_sort_prefix(self.as_str(), self.inner.slices(), bytes)
    }
}

/// Sort keys are in order as their references are, and equal exactly where these are, by `cmp` and
/// `==` of each: of two sort keys it asks for what each call above says of its result. Those of a
/// URI and an IRI, which no `==` compares, are in the order of their keys.
#[tactic(auto, using(crate::proofs::SortOrderLemmas::as_references))]
pub fn sort_keys_compare_as_their_references<R: HeldRule, C: CharSet>()
    ensures references { SortsAs key_of_reference
        ⟦<UriRef<'static, C> as Ord>⟧ ⟦<SortKey as Ord>⟧ }
    ensures uris { SortsAs key_of_reference ⟦<Uri<'static, C> as Ord>⟧ ⟦<SortKey as Ord>⟧ }
    ensures owned_values { SortsAs key_of_reference_buf
        ⟦<ReferenceBuf<R, C> as Ord>⟧ ⟦<SortKey as Ord>⟧ }
    ensures both_families { SortsAsKeys ⟦<SortKey as Ord>⟧ }
{}
