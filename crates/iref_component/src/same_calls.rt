//! Texts of a rule, borrowed or owned: the calls that both have.
ghost use Rattle.std.specs.{Prelude.{◌≡◌, length, Some}, Ordering.{on, as_partial_cmp, eq_by_cmp}};
ghost use Rattle.std.specs.Cmp.{on_total, on_equiv, po, partial_equiv_from_equiv, eq_by_cmp_equiv};
ghost use Rattle.std.specs.Cmp.Rules.{comparing};
ghost use Rattle.std.proofs.Common.{rules, ap, refl};
ghost use Rattle.iref_grammar.specs.{is_empty};
ghost use Rattle.iref_component.specs.{Comparisons.{AreFedApart, AreKnown, ComparesBy}, Makers.{ParsesUtf8}};
ghost use Rattle.iref_component.specs.Components.{text_of};

use crate::key::Key;
use crate::rule::{Escaped, Rule};
use crate::rule_text::{BorrowedText, RuleText, Storage};
use iref_grammar::chars::CharSet;
use std::cmp::Ordering;
use std::fmt;
use std::hash::{Hash, Hasher};
use std::marker::PhantomData;

impl<S: Storage, R: Rule, C: CharSet> RuleText<S, R, C> {
    // The text of the rule, or what holds a text that is in none.
    pub(crate) fn read(text: S) -> Result<Self, S>
        ensures { ParsesUtf8 (R.rule C.tests) text_of (λ t. t) (S.bytes text) text result }
    {
        if R::accepts::<C>(text.text()) {
            let rule = PhantomData;
            Ok(RuleText { text, rule })
        } else {
            Err(text)
        }
    }

    /// The borrowed text: of the `SegmentBuf` `b`, the `Segment` `b`.
    pub fn as_borrowed(&self) -> BorrowedText<'_, R, C>
        ensures { text_of result ≡ text_of self.now }
    {
        BorrowedText::new_unchecked(self.text.text())
    }

    /// How many bytes the text has: `a%20` has 4.
    pub fn len(&self) -> usize
        ensures { result ≡ length (text_of self.now) }
    {
        self.text.text().len()
    }
}

impl<S: Storage, R: Escaped, C: CharSet> RuleText<S, R, C> {
    /// Whether the text is empty: so is the second segment of `a/`.
    pub fn is_empty(&self) -> bool
        ensures { result ≡ is_empty (text_of self.now) }
    {
        self.text.text().is_empty()
    }
}

impl<S: Storage, R: Rule, C: CharSet> Ord for RuleText<S, R, C> {
    ghost cmp = { on (λ v. R.Key.comparison.key (text_of v)) R.Key.comparison.order };

    ghost total = { on_total (λ v. R.Key.comparison.key (text_of v)) R.Key.comparison.total };

    ghost matches_partial_cmp = { Prim.search (comparing, rules) };

    ghost matches_eq = { λ _ _. refl };

    fn cmp(&self, other: &Self) -> Ordering {
        R::Key::compare::<C>(self.text.text(), other.text.text())
    }
}

impl<S: Storage, R: Rule, C: CharSet> PartialOrd for RuleText<S, R, C> {
    ghost partial_cmp = { as_partial_cmp (on (λ v. R.Key.comparison.key (text_of v))
        R.Key.comparison.order) };

    ghost laws = { po (on_total (λ v. R.Key.comparison.key (text_of v)) R.Key.comparison.total)
        (λ _ _. refl) };

    fn partial_cmp(&self, other: &Self) -> Option<Ordering> {
        Some(self.cmp(other))
    }
}

impl<S: Storage, R: Rule, C: CharSet> PartialEq for RuleText<S, R, C> {
    ghost eq = { on (λ v. R.Key.comparison.key (text_of v)) (eq_by_cmp R.Key.comparison.order) };

    ghost laws = { partial_equiv_from_equiv (on_equiv (λ v. R.Key.comparison.key (text_of v))
        (eq_by_cmp_equiv R.Key.comparison.total)) };

    fn eq(&self, other: &Self) -> bool {
        let (a, b) = (self.text.text(), other.text.text());
        a == b || R::Key::is_equal::<C>(a, b)
    }
}

impl<S: Storage, R: Rule, C: CharSet> Eq for RuleText<S, R, C> {
    ghost laws = { on_equiv (λ v. R.Key.comparison.key (text_of v))
        (eq_by_cmp_equiv R.Key.comparison.total) };
}

impl<S: Storage, R: Rule, C: CharSet> Hash for RuleText<S, R, C> {
    ghost hash_input = { λ v. R.Key.comparison.fed (R.Key.comparison.key (text_of v)) };

    ghost respects_eq = { λ _ _ same.
        ap R.Key.comparison.fed (R.Key.comparison.separates _ _ same) };

    fn hash<H: Hasher>(&self, state: &mut H) {
        R::Key::feed::<C, H>(self.text.text(), state);
    }
}

impl<S: Storage, R: Rule, C: CharSet> fmt::Display for RuleText<S, R, C> {
    ghost output = { λ view. Some (text_of view) };

    fn fmt<W: fmt::Write>(&self, f: &mut fmt::Formatter<W>) -> fmt::Result {
        f.write_str(self.text.text())
    }
}

impl<S: Storage, R: Rule, C: CharSet> fmt::Debug for RuleText<S, R, C> {
    fn fmt<W: fmt::Write>(&self, f: &mut fmt::Formatter<W>) -> fmt::Result {
        fmt::Debug::fmt(&self.text.text(), f)
    }
}

/// The texts of a rule, borrowed or owned, compare by its key: in `==`, in order and in what a
/// hasher reads.
pub fn texts_compare_by_key<S: Storage, R: Rule, C: CharSet>()
    ensures by_key { ComparesBy (λ v. R.Key.comparison.key (text_of v)) R.Key.comparison.order
        R.Key.comparison.Known R.Key.comparison.fed
        ⟦<RuleText<S, R, C> as Ord>⟧ ⟦<RuleText<S, R, C> as Hash>⟧ }
    ensures known { AreKnown (λ v. R.Key.comparison.key (text_of v)) R.Key.comparison.Known
        ⟦<RuleText<S, R, C> as Hash>⟧ }
{}

/// What a hasher reads of two texts of a rule differs where their keys differ, whatever it reads after
/// them: of texts of URIs and of IRIs, borrowed and owned.
pub fn unequal_texts_are_hashed_apart<S: Storage, T: Storage, R: Rule, C: CharSet, D: CharSet>()
    ensures { AreFedApart (λ v. R.Key.comparison.key (text_of v))
        (λ w. R.Key.comparison.key (text_of w))
        ⟦<RuleText<S, R, C> as Hash>⟧ ⟦<RuleText<T, R, D> as Hash>⟧ }
{}
