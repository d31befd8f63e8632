//! The places of the entries that have one IRI.
ghost use Rattle.std.specs.Prelude.{◌≡◌, ◌≢◌, ℕ, ◌+◌, ◌^◌, ◌<◌, ◌==◌, ◌&&◌, ◌||◌, not, true, false, Bool};
ghost use Rattle.std.specs.Prelude.{MatchOption, IfOk, OnErr, Some};
ghost use Rattle.iref.specs.PrefixPlaces.{holds, ArePlaces};

use iref_splice::Memory;
use std::alloc::Global;
use std::collections::BTreeSet;

// Pairs of the number of an IRI and of one of its places behind the first. So an IRI that stands at
// one place has none.
#[derive(Drop)]
pub(super) struct Shared {
    pairs: BTreeSet<(usize, usize)>,
}

impl Shared {
    pub(super) fn new(alloc: Global) -> Self
        ensures { (m p : ℕ) → holds result m p ≡ false }
    {
        let pairs = BTreeSet::new(alloc);
        Shared { pairs }
    }

    // Adds a place of an IRI that has this first place, and returns the first one then.
    pub(super) fn insert(
        &mut self,
        iri: usize,
        first: Option<usize>,
        place: usize,
    ) -> Result<usize, Memory>
        ensures others { (m p : ℕ) → m ≢ iri → holds self.new m p ≡ holds self.old m p }
        ensures ok { IfOk result (λ now. (h : ℕ → Bool) → h place ≡ false
            → ArePlaces self.old iri first h
            → ArePlaces self.new iri (Some now) (λ p. p == place || h p)) }
        ensures err { OnErr result ((m p : ℕ) → holds self.new m p ≡ holds self.old m p) }
    {
        let Some(first) = first else {
            return Ok(place);
        };
        self.pairs.insert((iri, first.max(place)))?;
        Ok(first.min(place))
    }

    // Takes a place of an IRI away that has this first place, and returns the first one then.
    pub(super) fn remove(&mut self, iri: usize, first: Option<usize>, place: usize) -> Option<usize>
        requires { iri + 1 < 2 ^ 64 }
        ensures others { (m p : ℕ) → m ≢ iri → holds self.new m p ≡ holds self.old m p }
        ensures left { (h : ℕ → Bool) → ArePlaces self.old iri first h
            → ArePlaces self.new iri result (λ p. not (p == place) && h p) }
    {
        if first != Some(place) {
            self.pairs.remove(&(iri, place));
            return first;
        }
        let next = self.least(iri)?;
        self.pairs.remove(&(iri, next));
        Some(next)
    }

    // The least place of an IRI behind its first.
    fn least(&self, iri: usize) -> Option<usize>
        requires { iri + 1 < 2 ^ 64 }
        ensures { MatchOption result ((p : ℕ) → holds self.now iri p ≡ false)
            (λ p. (holds self.now iri p ≡ true)
            × ((q : ℕ) → q < p → holds self.now iri q ≡ false)) }
    {
        let pair = self.pairs.range((iri, 0)..(iri + 1, 0)).next()?;
        Some(pair.1)
    }
}
