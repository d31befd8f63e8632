//! Laws of lengths: each is the contract of a function that does nothing.

ghost use Rattle.std.specs.Prelude.{◌≤◌, ◌+◌, ◌*◌, length};
ghost use Rattle.iref_grammar.specs.{Reference.{read_reference}, Rules.{Text}};
ghost use Rattle.iref_grammar.specs.Key.{key};
ghost use Rattle.iref_canonical.specs.{Canonical.{canonical_text}, SortKey.{sort_key}};

/// The sort key of a reference has at most twice the bytes of its text and ten more: of the two of
/// `..` it has twelve.
#[tactic(auto, using(crate::proofs::SortLengthLemmas::sizes))]
pub fn sort_keys_are_short()
    ensures { (bytes : Text)
        → length (sort_key (key (read_reference bytes))) ≤ 2 * length bytes + 10 }
{}

/// The canonical text of a reference has at most three times the bytes of its text and nine more: of
/// the two of `é` it has six.
#[tactic(auto, using(crate::proofs::CanonicalLengthLemmas::sizes))]
pub fn canonical_texts_are_short()
    ensures { (bytes : Text)
        → length (canonical_text (key (read_reference bytes))) ≤ 3 * length bytes + 9 }
{}
