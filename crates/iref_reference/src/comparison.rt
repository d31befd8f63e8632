//! References and URIs, borrowed and owned, are compared by their keys.
ghost use Rattle.std.specs.Cmp.{on_total, on_equiv, po, partial_equiv_from_equiv, eq_by_cmp_equiv};
ghost use Rattle.std.specs.{Prelude.{◌≡◌, true}, Ordering.{on, as_partial_cmp, eq_by_cmp}, Cmp.Rules.{comparing}};
ghost use Rattle.std.proofs.Common.{rules, refl, ap};
ghost use Rattle.iref_grammar.proofs.KeyOrderLemmas.{keys_separate, keys_total};
ghost use Rattle.iref_canonical.specs.{Hashed.{IsReadableKey}, HashedParts.{HasPathKey}};
ghost use Rattle.iref_component.specs.{fed_components, fed_reference, is_reference, key, key_cmp, read_reference, Text};
ghost use Rattle.iref_component.specs.Comparisons.{AreFedApart, AreKnown, ComparesBy};
ghost use Rattle.iref_reference.specs.Parts.{uri_ref_parts_key, uri_parts_key};
ghost use Rattle.iref_reference.specs.References.{key_of_reference, key_of_reference_buf};

use crate::borrowed::{Uri, UriRef};
use crate::owned::ReferenceBuf;
use crate::parts::{UriParts, UriRefParts};
use iref_canonical::text::feed_reference;
use iref_grammar::chars::CharSet;
use iref_reference_text::reference_text::HeldRule;
use std::cmp::Ordering;
use std::hash::{Hash, Hasher};

impl<R: HeldRule, C: CharSet> Ord for ReferenceBuf<R, C> {
    ghost cmp = { on key_of_reference_buf key_cmp };

    ghost total = { on_total key_of_reference_buf keys_total };

    ghost matches_partial_cmp = { Prim.search (comparing, rules) };

    ghost matches_eq = { λ _ _. refl };

    #[tactic(auto, unfolding(iref_grammar::specs::Key::key, iref_grammar::specs::Key::key_cmp))]
    fn cmp(&self, other: &Self) -> Ordering {
        self.reference_parts().cmp(&other.reference_parts())
    }
}

impl<R: HeldRule, C: CharSet> PartialOrd for ReferenceBuf<R, C> {
    ghost partial_cmp = { as_partial_cmp (on key_of_reference_buf key_cmp) };

    ghost laws = { po (on_total key_of_reference_buf keys_total) (λ _ _. refl) };

    fn partial_cmp(&self, other: &Self) -> Option<Ordering> {
        Some(self.cmp(other))
    }
}

// Whether the components of both are equal.
fn have_equal_parts<R: HeldRule, C: CharSet>(a: &ReferenceBuf<R, C>, b: &ReferenceBuf<R, C>) -> bool
    ensures { result
        ≡ eq_by_cmp key_cmp (key_of_reference_buf a.now) (key_of_reference_buf b.now) }
{
    a.reference_parts() == b.reference_parts()
}

impl<R: HeldRule, C: CharSet> PartialEq for ReferenceBuf<R, C> {
    ghost eq = { on key_of_reference_buf (eq_by_cmp key_cmp) };

    ghost laws = { partial_equiv_from_equiv
        (on_equiv key_of_reference_buf (eq_by_cmp_equiv keys_total)) };

    #[tactic(auto, using(crate::proofs::PartLemmas::same_texts))]
    fn eq(&self, other: &Self) -> bool {
        self.as_str() == other.as_str() || have_equal_parts(self, other)
    }
}

impl<R: HeldRule, C: CharSet> Eq for ReferenceBuf<R, C> {
    ghost laws = { on_equiv key_of_reference_buf (eq_by_cmp_equiv keys_total) };
}

impl<R: HeldRule, C: CharSet> Hash for ReferenceBuf<R, C> {
    ghost hash_input = { λ v. fed_reference (key_of_reference_buf v) };

    ghost respects_eq = { λ _ _ same. ap fed_reference (keys_separate _ _ same) };

    fn hash<H: Hasher>(&self, state: &mut H) {
        feed_reference::<C, H>(self.as_str(), self.inner.slices(), state);
    }
}

/// References and URIs are equal, in order and hashed by the key of the reference, so a URI as its
/// reference.
pub fn references_compare_by_key<C: CharSet>()
    ensures references { ComparesBy key_of_reference key_cmp IsReadableKey fed_reference
        ⟦<UriRef<'static, C> as Ord>⟧ ⟦<UriRef<'static, C> as Hash>⟧ }
    ensures uris { ComparesBy key_of_reference key_cmp IsReadableKey fed_reference
        ⟦<Uri<'static, C> as Ord>⟧ ⟦<Uri<'static, C> as Hash>⟧ }
    ensures known_references { AreKnown key_of_reference IsReadableKey
        ⟦<UriRef<'static, C> as Hash>⟧ }
    ensures known_uris { AreKnown key_of_reference IsReadableKey ⟦<Uri<'static, C> as Hash>⟧ }
{}

/// What a hasher reads of two references differs where their keys differ, whatever it reads after
/// them: of two references, two URIs, or one of each, of URIs and of IRIs.
pub fn unequal_references_are_hashed_apart<C: CharSet, D: CharSet>()
    ensures references { AreFedApart key_of_reference key_of_reference
        ⟦<UriRef<'static, C> as Hash>⟧ ⟦<UriRef<'static, D> as Hash>⟧ }
    ensures uris { AreFedApart key_of_reference key_of_reference
        ⟦<Uri<'static, C> as Hash>⟧ ⟦<Uri<'static, D> as Hash>⟧ }
    ensures one_of_each { AreFedApart key_of_reference key_of_reference
        ⟦<UriRef<'static, C> as Hash>⟧ ⟦<Uri<'static, D> as Hash>⟧ }
{}

/// Owned values of any rule are equal, in order and hashed by the key of the reference, as borrowed
/// ones are.
pub fn owners_compare_by_key<R: HeldRule, C: CharSet>()
    ensures by_key { ComparesBy key_of_reference_buf key_cmp IsReadableKey fed_reference
        ⟦<ReferenceBuf<R, C> as Ord>⟧ ⟦<ReferenceBuf<R, C> as Hash>⟧ }
    ensures known { (text : Text) → is_reference C.tests text ≡ true
        → IsReadableKey (key (read_reference text)) }
{}

/// The components of references and of URIs are equal, in order and hashed by the key of the
/// reference.
pub fn parts_compare_by_key<C: CharSet>()
    ensures references { ComparesBy uri_ref_parts_key key_cmp HasPathKey fed_components
        ⟦<UriRefParts<'static, C> as Ord>⟧ ⟦<UriRefParts<'static, C> as Hash>⟧ }
    ensures uris { ComparesBy uri_parts_key key_cmp HasPathKey fed_components
        ⟦<UriParts<'static, C> as Ord>⟧ ⟦<UriParts<'static, C> as Hash>⟧ }
    ensures known_references { AreKnown uri_ref_parts_key HasPathKey
        ⟦<UriRefParts<'static, C> as Hash>⟧ }
    ensures known_uris { AreKnown uri_parts_key HasPathKey ⟦<UriParts<'static, C> as Hash>⟧ }
{}
