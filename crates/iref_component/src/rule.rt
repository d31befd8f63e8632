//! The rules of the grammar for texts, and what a rule gives its texts.
ghost use Rattle.std.specs.Prelude.{◌≡◌, Bool, true, []};
ghost use Rattle.iref_grammar.specs.{CharTests, AreAboveAscii, Text, AcceptsExactly, is_pct_str};

use crate::key::Key;
use iref_grammar::chars::CharSet;

/// A rule of the grammar, over any set of characters: that of ports has `80` and the empty text
/// (RFC 3986 appendix A).
pub trait Rule {
    /// What the texts of the rule are compared by.
    type Key: Key;

    /// The rule, of texts.
    ghost rule: { CharTests → Text → Type 0 };

    /// Its test, of bytes.
    ghost test: { CharTests → Text → Bool };

    /// The test is true exactly of the UTF-8 of the texts of the rule.
    ghost decided: { (tests : CharTests) → AreAboveAscii tests
        → AcceptsExactly (Self.test tests) (Self.rule tests) };

    /// Whether the text is in the rule: in that of ports `80` is, `8a` is not.
    fn accepts<C: CharSet>(text: &str) -> bool
        ensures { result ≡ test C.tests text.now };

    /// The texts of the rule have a key.
    ghost keyed: { (tests : CharTests) (text : Text) → Self.test tests text ≡ true
        → Self.Key.has_key tests text };
}

/// A rule whose refused inputs are returned in an error of its own.
pub trait Refuses<T>: Rule {
    /// The error.
    type Error;

    /// The input that an error holds.
    ghost refused: { Self.Error → T };

    /// The error that holds this input: by the rule of ports, of `8a` it is `InvalidPort("8a")`.
    fn refuse(input: T) -> Self::Error
        ensures { refused result ≡ input };
}

/// A rule that the empty text is in.
pub trait AllowsEmpty: Rule {
    /// The empty text is in the rule.
    ghost allows_empty: { (tests : CharTests) → Self.test tests [] ≡ true };
}

/// A rule whose texts are percent-encoded (RFC 3986 section 2.1).
pub trait Escaped: Rule {
    /// Each `%` has two hexadecimal digits after it.
    ghost escaped: { (tests : CharTests) (text : Text) → Self.test tests text ≡ true
        → is_pct_str text ≡ true };
}
