//! A text of a rule, borrowed or owned.
ghost use Rattle.std.specs.{Prelude.{◌≡◌, ⊤, true}, String.{string_bytes}};
ghost use Rattle.iref_grammar.specs.{Text};

use crate::rule::Rule;
use iref_grammar::chars::CharSet;
use std::alloc::AllocError;
use std::marker::PhantomData;

/// What holds a text: a [`Borrowed`] one, or a `String`.
pub trait Storage {
    /// The bytes of the text.
    ghost bytes: { Self → Text };

    /// The text.
    fn text(&self) -> &str
        ensures { result.now ≡ bytes self.now };
}

/// A borrowed text.
#[derive(Clone, Copy)]
pub struct Borrowed<'a>(pub(crate) &'a str);

impl Storage for Borrowed<'_> {
    ghost bytes = { λ text. text.0.now };

    fn text(&self) -> &str {
        self.0
    }
}

impl Storage for String {
    ghost bytes = { string_bytes };

    fn text(&self) -> &str {
        self.as_str()
    }
}

/// A text of a rule, borrowed or owned, as the port `80` within `//h:80`. Its length is in bytes.
#[derive(Drop)]
pub struct RuleText<S: Storage, R: Rule, C: CharSet> {
    pub(crate) text: S,
    pub(crate) rule: PhantomData<(R, C)>,
    ghost in_rule: { R.test C.tests (S.bytes text) ≡ true },
}

/// A borrowed text of a rule, which copies.
pub type BorrowedText<'a, R, C> = RuleText<Borrowed<'a>, R, C>;

/// An owned text of a rule.
pub type TextBuf<R, C> = RuleText<String, R, C>;

impl<S: Storage + Copy, R: Rule, C: CharSet> Clone for RuleText<S, R, C> {
    ghost is_clone = { λ v w. w ≡ v };

    ghost is_infallible = { λ _. ⊤ };

    fn clone(&self) -> Result<Self, AllocError> {
        let RuleText { text, rule } = self;
        Ok(RuleText {
            text: *text,
            rule: *rule,
        })
    }
}

impl<S: Storage + Copy, R: Rule, C: CharSet> Copy for RuleText<S, R, C> {}
