//! Sort keys that own their bytes.

ghost use Rattle.std.specs.{Prelude.{◌≡◌}, Cmp.{partial_equiv_from_equiv}, Ordering.{as_partial_cmp}};
ghost use Rattle.std.specs.Cmp.Lexicographic.{nat_list_cmp_total, nat_list_eq_equiv, texts_po, texts_ties};
ghost use Rattle.std.specs.Cmp.Rules.{comparing, hashing};
ghost use Rattle.std.proofs.Common.{rules};
ghost use Rattle.iref_grammar.specs.{Keys.{is_same_text, text_order}, Rules.{Text}};
ghost use Rattle.std.specs.Hash as fed;

use std::cmp::Ordering;
use std::hash::{Hash, Hasher};
use std::marker::Model;

/// The sort key of a reference: bytes in whose order, byte by byte and the shorter first, the
/// references stand in theirs.
#[derive(Debug, Drop)]
pub struct SortKey {
    bytes: Vec<u8>,
}

impl Model for SortKey {
    ghost Value = { Text };

    ghost view = { λ key. key.bytes.items };
}

impl SortKey {
    /// The sort key of these bytes, which are not read.
    pub fn of_bytes(bytes: Vec<u8>) -> Self
        ensures { result ≡ bytes.items }
    {
        SortKey { bytes }
    }

    /// The bytes: of `?` they are 0, 0, 0, 0, 1, 0 and 0.
    pub fn as_bytes(&self) -> &[u8]
        ensures { result.now ≡ self.now }
    {
        self.bytes.as_slice()
    }

    /// The bytes, owned: of `?` they are 0, 0, 0, 0, 1, 0 and 0.
    pub fn into_bytes(self) -> Vec<u8>
        ensures { result.items ≡ self }
    {
        self.bytes
    }
}

impl Ord for SortKey {
    ghost cmp = { text_order };

    ghost total = { nat_list_cmp_total };

    ghost matches_partial_cmp = { Prim.search (comparing, rules) };

    ghost matches_eq = { texts_ties };

    fn cmp(&self, other: &Self) -> Ordering {
        self.as_bytes().cmp(other.as_bytes())
    }
}

impl PartialOrd for SortKey {
    ghost partial_cmp = { as_partial_cmp text_order };

    ghost laws = { texts_po };

    fn partial_cmp(&self, other: &Self) -> Option<Ordering> {
        Some(self.cmp(other))
    }
}

impl PartialEq for SortKey {
    ghost eq = { is_same_text };

    ghost laws = { partial_equiv_from_equiv nat_list_eq_equiv };

    fn eq(&self, other: &Self) -> bool {
        self.as_bytes() == other.as_bytes()
    }
}

impl Eq for SortKey {
    ghost laws = { nat_list_eq_equiv };
}

impl Hash for SortKey {
    ghost hash_input = { fed.slice fed.u8 };

    ghost respects_eq = { Prim.search (hashing, rules) };

    fn hash<H: Hasher>(&self, state: &mut H) {
        self.as_bytes().hash(state);
    }
}
