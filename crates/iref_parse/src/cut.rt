//! A text cut at the first of a delimiter.

ghost use Rattle.std.specs.{Prelude.{◌≡◌, ◌≢◌, ◌<◌, [], ◌∷◌, MatchOption}, Option.{option_copied}};
ghost use Rattle.iref_grammar.specs.{Rules.{Text}, Texts.{before, from_first, after}};

use crate::position::position_of;

/// What stands before the first of the delimiter, or all of the text, and what follows it.
#[inline(always)]
pub fn cut(text: &str, mark: char) -> (&str, Option<&str>)
    requires { mark < 128 }
    ensures before { result.0.now ≡ before (mark ∷ []) text.now }
    ensures after { option_copied result.1 ≡ after mark text.now }
{
    let (front, rest) = split_before(text, mark);
    if rest.is_empty() {
        (front, None)
    } else {
        (front, Some(&rest[1..]))
    }
}

/// The bytes before the first of the delimiter, or all of them, and those after it, if it is there.
#[inline(always)]
pub fn cut_bytes(text: &[u8], mark: u8) -> (&[u8], Option<&[u8]>)
    ensures before { result.0.now ≡ before (mark ∷ []) text.now }
    ensures after { option_copied result.1 ≡ after mark text.now }
{
    let (front, rest) = text.split_at(position_of(text, mark));
    match rest {
        [] => (front, None),
        [_, rest @ ..] => (front, Some(rest)),
    }
}

/// What stands before the first of the delimiter, or all of the text, and the text from the
/// delimiter on.
#[inline(always)]
pub fn split_before(text: &str, mark: char) -> (&str, &str)
    requires { mark < 128 }
    ensures before { result.0.now ≡ before (mark ∷ []) text.now }
    ensures from_first { result.1.now ≡ from_first (mark ∷ []) text.now }
{
    text.split_at(position_of(text.as_bytes(), mark as u8))
}

/// What follows the delimiter, if the text begins with it. As one byte is compared, it costs less
/// than `strip_prefix`.
#[inline(always)]
pub fn strip_mark(text: &str, mark: char) -> Option<&str>
    requires { mark < 128 }
    ensures { MatchOption result ((rest : Text) → text.now ≢ mark ∷ rest)
        (λ rest. text.now ≡ mark ∷ rest.now) }
{
    match text.as_bytes() {
        [first, ..] if *first == mark as u8 => Some(&text[1..]),
        _ => None,
    }
}
