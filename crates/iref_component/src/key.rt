//! What texts are compared by, in their order, and hashed by.
ghost use Rattle.std.specs.{Prelude.{◌≡◌, fold, true}, Ordering.{eq_by_cmp}, Str.{str_to_ascii_lowercase}};
ghost use Rattle.percent_encoding.specs.Percent.{percent_decode};
ghost use Rattle.iref_grammar.specs.{AreAboveAscii, CharTests, Text, text_order, is_path, Authority.{is_authority}};
ghost use Rattle.iref_canonical.specs.HashedParts.{fed_part};
ghost use Rattle.iref_component.specs.Comparisons.{Comparison, by_parts, by_segments, by_text};
ghost use Rattle.iref_canonical.proofs.KnownKeyLemmas.{path_known};

use crate::authority_parts::parts_of;
use iref_canonical::hashed::{feed, feed_path};
use iref_canonical::key_bytes::{Decoded, Lower, Same};
use iref_grammar::chars::CharSet;
use iref_parse::decoded::decoded_cmp;
use iref_path::counted::path_texts_eq;
use iref_path::order::path_texts_cmp;
use std::cmp::Ordering;
use std::hash::{Hash, Hasher};

/// What texts are compared by: of schemes their lower case (RFC 3986 section 6.2.2.1), so that
/// `HTTP` and `http` have one key.
pub trait Key {
    /// The key of a text, the order of keys, and how a key is hashed.
    ghost comparison: { Comparison };

    /// The texts that have a key: all, where an impl does not say.
    ghost has_key: { CharTests → Text → Type 0 } = { λ _ _. Unit {0} };

    /// Their keys are known: what a hasher reads of one differs from what it reads of another.
    ghost known: { (tests : CharTests) → AreAboveAscii tests → (text : Text)
        → Self.has_key tests text → Self.comparison.Known (Self.comparison.key text) };

    /// The order of the keys: of the schemes `HTTP` and `http` it is `Equal`.
    fn compare<C: CharSet>(a: &str, b: &str) -> Ordering
        requires a { has_key C.tests a.now }
        requires b { has_key C.tests b.now }
        ensures { result ≡ comparison.order (comparison.key a.now) (comparison.key b.now) };

    /// Whether the keys are the same: those of the schemes `HTTP` and `http` are.
    fn is_equal<C: CharSet>(a: &str, b: &str) -> bool
        requires a { has_key C.tests a.now }
        requires b { has_key C.tests b.now }
        ensures { result
            ≡ eq_by_cmp comparison.order (comparison.key a.now) (comparison.key b.now) }
    {
        Self::compare::<C>(a, b).is_eq()
    }

    /// Feeds the key to the hasher: the schemes `HTTP` and `http` feed the same bytes.
    fn feed<C: CharSet, H: Hasher>(text: &str, state: &mut H)
        requires { has_key C.tests text.now }
        ensures { state.new ≡ fold H.write state.old (comparison.fed (comparison.key text.now)) };
}

/// The bytes that a text decodes to (RFC 3986 section 2.1): each escape is one byte, so `%41` and
/// `A` have one key.
pub struct DecodedBytes;

impl Key for DecodedBytes {
    ghost comparison = { by_text percent_decode };

    ghost known = { λ _ _ _ _. record {} };

    fn compare<C: CharSet>(a: &str, b: &str) -> Ordering {
        decoded_cmp(a, b)
    }

    fn feed<C: CharSet, H: Hasher>(text: &str, state: &mut H) {
        feed::<Decoded, H>(text, state);
    }
}

/// The text with its ASCII letters in lower case (RFC 3986 section 6.2.2.1): `HTTP` has `http`.
pub struct LowerCase;

impl Key for LowerCase {
    ghost comparison = { by_text str_to_ascii_lowercase };

    ghost known = { λ _ _ _ _. record {} };

    fn compare<C: CharSet>(a: &str, b: &str) -> Ordering {
        if a == b {
            return Ordering::Equal;
        }
        let lower = |byte: u8| byte.to_ascii_lowercase();
        a.bytes().map(lower).cmp(b.bytes().map(lower))
    }

    fn feed<C: CharSet, H: Hasher>(text: &str, state: &mut H) {
        feed::<Lower, H>(text, state);
    }
}

/// The text itself: `80` and `080` have two keys.
pub struct SameText;

impl Key for SameText {
    ghost comparison = { by_text (λ text. text) };

    ghost known = { λ _ _ _ _. record {} };

    fn compare<C: CharSet>(a: &str, b: &str) -> Ordering {
        a.cmp(b)
    }

    fn feed<C: CharSet, H: Hasher>(text: &str, state: &mut H) {
        feed::<Same, H>(text, state);
    }
}

/// The parts of an authority: user info and host as decoded bytes, the port as text.
pub struct PartsKey;

impl Key for PartsKey {
    ghost comparison = { by_parts };

    ghost has_key = { λ tests text. is_authority tests text ≡ true };

    ghost known = { λ _ _ _ _. record {} };

    fn compare<C: CharSet>(a: &str, b: &str) -> Ordering {
        if a == b {
            return Ordering::Equal;
        }
        parts_of::<C>(a).cmp(&parts_of::<C>(b))
    }

    fn feed<C: CharSet, H: Hasher>(text: &str, state: &mut H) {
        parts_of::<C>(text).hash(state);
    }
}

/// Whether a path is absolute, and its normal segments as decoded bytes.
pub struct PathKey;

impl Key for PathKey {
    ghost comparison = { by_segments };

    ghost has_key = { λ tests text. is_path tests text ≡ true };

    ghost known = { path_known };

    fn compare<C: CharSet>(a: &str, b: &str) -> Ordering {
        if a == b {
            return Ordering::Equal;
        }
        path_texts_cmp(a, b)
    }

    fn is_equal<C: CharSet>(a: &str, b: &str) -> bool {
        path_texts_eq(a, b)
    }

    fn feed<C: CharSet, H: Hasher>(text: &str, state: &mut H) {
        feed_path(text, state);
    }
}

/// What decoded bytes are as a key.
pub fn decoded_bytes_are_a_key()
    ensures key { ⟦<DecodedBytes as Key>⟧.comparison.key ≡ percent_decode }
    ensures order { ⟦<DecodedBytes as Key>⟧.comparison.order ≡ text_order }
    ensures fed { ⟦<DecodedBytes as Key>⟧.comparison.fed ≡ fed_part }
{}
