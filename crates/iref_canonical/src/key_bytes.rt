//! The bytes of the keys of components, found from the end of a text.
ghost use Rattle.std.specs.{Prelude.{◌≡◌, [], MatchOption, true}, Str.{str_to_ascii_lowercase}};
ghost use Rattle.percent_encoding.specs.Percent.{percent_decode};
ghost use Rattle.iref_grammar.specs.Rules.{Text};
ghost use Rattle.iref_canonical.specs.{Decoded.{SplitsLast}, HashedParts.{hashed_bytes}};

use crate::encoded::split_last_decoded;
use crate::plain::is_lower;
use iref_parse::unescaped::is_unescaped;

/// What bytes the key of a component has.
pub trait KeyBytes {
    /// The bytes of the key of a text.
    ghost bytes: { Text → Text };

    /// The last byte, and the text of those before it.
    fn split_last(text: &[u8]) -> Option<(&[u8], u8)>
        ensures { MatchOption result (bytes text.now ≡ [])
            (λ split. SplitsLast bytes text.now split.0.now split.1) };

    /// Whether one scan finds that the bytes are those of the text, and are hashed as they stand.
    fn stands(text: &str) -> bool
        ensures { result ≡ true → hashed_bytes (bytes text.now) ≡ text.now };
}

/// What a text decodes to (RFC 3986 section 2.1).
pub struct Decoded;

impl KeyBytes for Decoded {
    ghost bytes = { percent_decode };

    #[inline(always)]
    #[tactic(auto, using(crate::proofs::KeyByteLemmas::splits))]
    fn split_last(text: &[u8]) -> Option<(&[u8], u8)> {
        split_last_decoded(text)
    }

    #[inline(always)]
    #[tactic(auto, using(crate::proofs::HashedPartLemmas::stands))]
    fn stands(text: &str) -> bool {
        is_unescaped(text.as_bytes())
    }
}

/// A text in lower case.
pub struct Lower;

impl KeyBytes for Lower {
    ghost bytes = { str_to_ascii_lowercase };

    #[inline(always)]
    #[tactic(auto, using(crate::proofs::KeyByteLemmas::splits))]
    fn split_last(text: &[u8]) -> Option<(&[u8], u8)> {
        let (last, front) = text.split_last()?;
        Some((front, last.to_ascii_lowercase()))
    }

    #[inline(always)]
    #[tactic(auto, using(crate::proofs::HashedPartLemmas::stands))]
    fn stands(text: &str) -> bool {
        is_lower(text) && is_unescaped(text.as_bytes())
    }
}

/// A text as it stands.
pub struct Same;

impl KeyBytes for Same {
    ghost bytes = { λ text. text };

    #[inline(always)]
    #[tactic(auto, using(crate::proofs::KeyByteLemmas::splits))]
    fn split_last(text: &[u8]) -> Option<(&[u8], u8)> {
        let (last, front) = text.split_last()?;
        Some((front, *last))
    }

    #[inline(always)]
    #[tactic(auto, using(crate::proofs::HashedPartLemmas::stands))]
    fn stands(text: &str) -> bool {
        is_unescaped(text.as_bytes())
    }
}
