//! The authority of a reference's text as a part that is edited in place (RFC 3986 section 3.2).
ghost use Rattle.iref_reference_text.specs.AuthorityRanges.{IsAuthorityOf, one_authority, authority_is_within};

use super::{HeldRule, ReferenceText};
use iref_component::authority_mut::AuthorityPart;
use iref_grammar::chars::CharSet;
use iref_splice::Memory;
use iref_splice::change::{Change, Span};
use iref_splice::target::Target;
use iref_splice::text::replace_part;
use std::alloc::Global;

impl<R: HeldRule, C: CharSet> Target<AuthorityPart, C> for ReferenceText<R, C> {
    ghost text = { λ inner. inner };

    ghost stands = { λ text _. IsAuthorityOf C.tests text };

    ghost one_range = { λ text _. one_authority C.tests text };

    ghost is_within = { λ text _. authority_is_within C.tests text };

    fn alloc(&self) -> Global {
        *self.text.allocator()
    }

    fn part(&self, after: (), at: Span) -> &str {
        &self.text.as_str()[at.start..at.end]
    }

    fn replace(&mut self, after: (), at: Span, by: Change<'_>) -> Result<usize, Memory> {
        let end = replace_part(&mut self.text, at, by)?;
        self.lengths.authority = 2 + (end - at.start);
        Ok(end)
    }
}
