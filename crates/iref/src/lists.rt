//! Lists of references, sorted and made unique by sort keys, which stand in one buffer and are made
//! once.
ghost use Rattle.std.specs.Cmp.{on_total, on_equiv, po, partial_equiv_from_equiv, eq_by_cmp_equiv};
ghost use Rattle.std.specs.{Ordering.{on, as_partial_cmp, eq_by_cmp}, Cmp.Rules.{comparing}};
ghost use Rattle.std.specs.{List.Sorted.{IsPermutation, IsSorted, IsStable}, Prelude.{◌≡◌, IfOk, map}};
ghost use Rattle.std.proofs.Common.{rules, refl};
ghost use Rattle.iref_grammar.specs.Keys.{text_order};
ghost use Rattle.iref_grammar.{proofs.KeyOrderLemmas.{keys_total}, specs.Key.{key_cmp}};
ghost use Rattle.iref_canonical.specs.SortKey.{sort_key};
ghost use Rattle.iref_reference.specs.References.{key_of_reference, reference_text, reference_value};
ghost use Rattle.iref.specs.Lists.{AreKeysOf, IsSortedUnique, firsts, key_of_text};

use iref_grammar::chars::CharSet;
use iref_parse::front::common_front;
use iref_reference::borrowed::Reference;
use iref_reference_text::reference_text::HeldRule;
use iref_splice::Memory;
use std::alloc::Global;
use std::cmp::Ordering;
use std::collections::BTreeSet;
use std::marker::Model;

// The order of two texts, byte by byte and the shorter first. What they begin with alike is passed over
// by vectors.
#[tactic(auto, using(crate::proofs::TextOrderLemmas::order_at_bytes, crate::proofs::TextOrderLemmas::order_at_end))]
fn order_of(a: &[u8], b: &[u8]) -> Ordering
    ensures { result ≡ text_order a.now b.now }
{
    let at = common_front(a, b);
    if at < a.len() && at < b.len() {
        a[at].cmp(&b[at])
    } else {
        a.len().cmp(&b.len())
    }
}

// A reference with its sort key. Its value is the reference's text.
#[derive(Drop)]
struct Keyed<'k, 'a, R: HeldRule, C: CharSet> {
    key: &'k [u8],
    reference: Reference<'a, R, C>,
}

impl<'k, 'a, R: HeldRule, C: CharSet> Model for Keyed<'k, 'a, R, C> {
    ghost use Rattle.std.specs.Prelude.{◌≡◌};
    ghost use Rattle.iref_grammar.specs.Rules.{Text};
    ghost use Rattle.iref_canonical.specs.SortKey.{sort_key};
    ghost use Rattle.iref_reference.specs.References.{key_of_reference, reference_text};

    ghost Value = { Text };

    ghost view = { λ k. reference_text k.reference };

    ghost invariant = { λ k. k.key.now ≡ sort_key (key_of_reference k.reference) };
}

impl<R: HeldRule, C: CharSet> Ord for Keyed<'_, '_, R, C> {
    ghost cmp = { on key_of_text key_cmp };

    ghost total = { on_total key_of_text keys_total };

    ghost matches_partial_cmp = { Prim.search (comparing, rules) };

    ghost matches_eq = { λ _ _. refl };

    fn cmp(&self, other: &Self) -> Ordering {
        order_of(self.key, other.key)
    }
}

impl<R: HeldRule, C: CharSet> PartialOrd for Keyed<'_, '_, R, C> {
    ghost partial_cmp = { as_partial_cmp (on key_of_text key_cmp) };

    ghost laws = { po (on_total key_of_text keys_total) (λ _ _. refl) };

    fn partial_cmp(&self, other: &Self) -> Option<Ordering> {
        Some(self.cmp(other))
    }
}

impl<R: HeldRule, C: CharSet> PartialEq for Keyed<'_, '_, R, C> {
    ghost eq = { on key_of_text (eq_by_cmp key_cmp) };

    ghost laws = { partial_equiv_from_equiv (on_equiv key_of_text (eq_by_cmp_equiv keys_total)) };

    fn eq(&self, other: &Self) -> bool {
        self.key == other.key
    }
}

impl<R: HeldRule, C: CharSet> Eq for Keyed<'_, '_, R, C> {
    ghost laws = { on_equiv key_of_text (eq_by_cmp_equiv keys_total) };
}

// A reference, and how many bytes its sort key has.
#[derive(Drop)]
struct Measured<'a, R: HeldRule, C: CharSet> {
    reference: Reference<'a, R, C>,
    length: usize,
}

// The sort keys of references, one after the other, and the length of each.
fn keys_of<'a, R: HeldRule, C: CharSet>(
    alloc: Global,
    references: &[Reference<'a, R, C>],
) -> Result<(Vec<u8>, Vec<Measured<'a, R, C>>), Memory>
    ensures { IfOk result (λ made. AreKeysOf (λ r. sort_key (key_of_reference r))
        (λ m. m.reference) (λ m. m.length) references.now made.0.items made.1.items) }
{
    let mut keys = Vec::new(alloc);
    let mut measured = Vec::with_capacity(alloc, references.len())?;
    for reference in references {
        let start = keys.len();
        reference.append_sort_key_to(&mut keys)?;
        let length = keys.len() - start;
        let reference = *reference;
        measured.push(Measured { reference, length })?;
    }
    Ok((keys, measured))
}

// The references with their sort keys, which stand one after the other.
fn with_keys<'k, 'a, R: HeldRule, C: CharSet>(
    alloc: Global,
    keys: &'k [u8],
    measured: &[Measured<'a, R, C>],
) -> Result<Vec<Keyed<'k, 'a, R, C>>, Memory>
    requires { AreKeysOf (λ r. sort_key (key_of_reference r)) (λ m. m.reference) (λ m. m.length)
        (map (λ m. m.reference) measured.now) keys.now measured.now }
    ensures { IfOk result (λ keyed.
        keyed.items ≡ map (λ m. reference_text m.reference) measured.now) }
{
    let mut keyed = Vec::with_capacity(alloc, measured.len())?;
    let mut rest = keys;
    for it in measured {
        let (key, behind) = rest.split_at(it.length);
        let reference = it.reference;
        keyed.push(Keyed { key, reference })?;
        rest = behind;
    }
    Ok(keyed)
}

// The references without their keys.
fn without_keys<'a, R: HeldRule, C: CharSet>(
    alloc: Global,
    keyed: &[Keyed<'_, 'a, R, C>],
) -> Result<Vec<Reference<'a, R, C>>, Memory>
    ensures { IfOk result (λ references. map reference_text references.items ≡ keyed.now) }
{
    let mut references = Vec::with_capacity(alloc, keyed.len())?;
    for it in keyed {
        references.push(it.reference)?;
    }
    Ok(references)
}

/// The references in the order of `cmp`, those that are equal in the order in which they stand: of
/// `b`, `a`, `./b` first `a`, then `b` and `./b`. Of each the sort key is made once. It takes a buffer
/// for all sort keys, and four lists as long as this one. Out of memory, it returns `Memory`.
pub fn sorted<'a, R: HeldRule, C: CharSet>(
    alloc: Global,
    references: &[Reference<'a, R, C>],
) -> Result<Vec<Reference<'a, R, C>>, Memory>
    ensures same { IfOk result (λ sorted.
        IsPermutation (map reference_text references.now) (map reference_text sorted.items)) }
    ensures order { IfOk result (λ sorted.
        IsSorted (on key_of_text key_cmp) (map reference_text sorted.items)) }
    ensures stable { IfOk result (λ sorted. IsStable (on key_of_text key_cmp)
        (map reference_text references.now) (map reference_text sorted.items)) }
{
    let (keys, measured) = keys_of(alloc, references)?;
    let mut keyed = with_keys(alloc, keys.as_slice(), measured.as_slice())?;
    keyed.sort()?;
    let sorted = without_keys(alloc, keyed.as_slice())?;
    Ok(sorted)
}

/// What `sorted` returns, without those that are equal to one before them: of `b`, `a`, `./b` it is
/// `a` and `b`. This costs less than `sorted` and `dedup`, since sort keys are compared. Out of memory,
/// it returns `Memory`.
pub fn sorted_unique<'a, R: HeldRule, C: CharSet>(
    alloc: Global,
    references: &[Reference<'a, R, C>],
) -> Result<Vec<Reference<'a, R, C>>, Memory>
    ensures { IfOk result (λ kept.
        IsSortedUnique (map reference_text references.now) (map reference_text kept.items)) }
{
    let (keys, measured) = keys_of(alloc, references)?;
    let mut keyed = with_keys(alloc, keys.as_slice(), measured.as_slice())?;
    keyed.sort()?;
    keyed.dedup();
    let kept = without_keys(alloc, keyed.as_slice())?;
    Ok(kept)
}

/// The references without those that are equal to one before them, in the order in which they stand:
/// of `b`, `a`, `./b` it is `b` and `a`. It takes a sort key of each, and a set of those of the
/// result. Out of memory, it returns `Memory`.
pub fn unique<'a, R: HeldRule, C: CharSet>(
    alloc: Global,
    references: &[Reference<'a, R, C>],
) -> Result<Vec<Reference<'a, R, C>>, Memory>
    ensures { IfOk result (λ kept. map reference_value kept.items
        ≡ firsts (map reference_value references.now)) }
{
    let mut seen = BTreeSet::new(alloc);
    let mut kept = Vec::new(alloc);
    for reference in references {
        if seen.insert(reference.sort_key(alloc)?)? {
            kept.push(*reference)?;
        }
    }
    Ok(kept)
}
