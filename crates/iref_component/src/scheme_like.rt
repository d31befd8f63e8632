//! Segments (RFC 3986 section 3.3).
ghost use Rattle.std.specs.Prelude.{◌≡◌};
ghost use Rattle.iref_component.specs.Components.{text_of};
ghost use Rattle.iref_grammar.specs.PathFunctions as function;

use crate::component_rules::SegmentRule;
use crate::rule_text::{RuleText, Storage};
use iref_grammar::chars::CharSet;
use iref_parse::cut::cut;
use iref_parse::scan;

impl<S: Storage, C: CharSet> RuleText<S, SegmentRule, C> {
    /// Whether what stands before the first `:` is a scheme (RFC 3986 section 4.2): in `a:b` it is,
    /// in `1a:b` it is not.
    pub fn looks_like_scheme(&self) -> bool
        ensures { result ≡ function.looks_like_scheme (text_of self.now) }
    {
        looks_like_scheme(self.as_borrowed().as_str())
    }
}

/// Whether what stands before the first `:` is a scheme: in `a:b` it is, and `a` has no `:`, so the
/// answer is false.
pub fn looks_like_scheme(text: &str) -> bool
    ensures { result ≡ function.looks_like_scheme text.now }
{
    let (front, rest) = cut(text, ':');
    rest.is_some() && scan::is_scheme(front)
}
