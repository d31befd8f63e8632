//! Editors of the parts of owned values, in place (RFC 3986 section 3).
ghost use Rattle.std.specs.{Prelude.{◌≡◌, true, is_some, IfSome}, Borrow.{sem, RestsIfNone}};
ghost use Rattle.iref_grammar.specs.{context_of, is_reference, offsets_of};
ghost use Rattle.iref_component.specs.PathEdits.{Borrows, IsEditorOf};
ghost use Rattle.iref_reference_text.specs.PathRanges.{IsPathOf, one_path, path_is_within};
ghost use Rattle.iref_reference_text.specs.AuthorityRanges.{IsAuthorityOf, one_authority, authority_is_within};
ghost use Rattle.iref_reference.specs.contracts.owned.ReferenceBuf.{the_row};
ghost use Rattle.iref_reference.specs.References.{reference_buf_text, reference_buf_value};

use crate::owned::ReferenceBuf;
use iref_component::authority_mut::{AuthorityMut, AuthorityPart};
use iref_component::path_mut::PathMut;
use iref_grammar::chars::CharSet;
use iref_grammar::context::PathContext;
use iref_path::path_part::PathPart;
use iref_path::target::PathTarget;
use iref_reference_text::reference_text::HeldRule;
use iref_splice::Memory;
use iref_splice::change::{Change, Span};
use iref_splice::target::Target;
use std::alloc::Global;

impl<R: HeldRule, C: CharSet> Target<PathPart, C> for ReferenceBuf<R, C> {
    ghost text = { reference_buf_text };

    ghost stands = { IsPathOf C.tests };

    ghost one_range = { one_path C.tests };

    ghost is_within = { path_is_within C.tests };

    fn alloc(&self) -> Global {
        Target::<PathPart, C>::alloc(&self.inner)
    }

    fn part(&self, after: PathContext, at: Span) -> &str {
        Target::<PathPart, C>::part(&self.inner, after, at)
    }

    fn replace(&mut self, after: PathContext, at: Span, by: Change<'_>) -> Result<usize, Memory> {
        Target::<PathPart, C>::replace(&mut self.inner, after, at, by)
    }
}

impl<R: HeldRule, C: CharSet> PathTarget<C> for ReferenceBuf<R, C> {
    fn rewrite(&mut self, after: PathContext, at: Span, guard: &str) -> usize {
        self.inner.rewrite(after, at, guard)
    }
}

impl<R: HeldRule, C: CharSet> Target<AuthorityPart, C> for ReferenceBuf<R, C> {
    ghost text = { reference_buf_text };

    ghost stands = { λ text _. IsAuthorityOf C.tests text };

    ghost one_range = { λ text _. one_authority C.tests text };

    ghost is_within = { λ text _. authority_is_within C.tests text };

    fn alloc(&self) -> Global {
        Target::<AuthorityPart, C>::alloc(&self.inner)
    }

    fn part(&self, after: (), at: Span) -> &str {
        Target::<AuthorityPart, C>::part(&self.inner, after, at)
    }

    fn replace(&mut self, after: (), at: Span, by: Change<'_>) -> Result<usize, Memory> {
        Target::<AuthorityPart, C>::replace(&mut self.inner, after, at, by)
    }
}

impl<R: HeldRule, C: CharSet> ReferenceBuf<R, C> {
    ghost use Rattle.iref_component.specs.AuthorityEdits as authority;

    /// The editor of the authority, if there is one (RFC 3986 section 3.2): on `//h/a?q`,
    /// `set_port` with `80` leaves `//h:80/a?q`. Each of its edits is one of the reference, and
    /// keeps the other components as they are.
    pub fn authority_mut(&mut self) -> Option<AuthorityMut<'_, C, ReferenceBuf<R, C>>>
        ensures* unchanged_if_none { sem 𝓛 (RestsIfNone (the_row R.row C.row R.Key.row
            (record { allows_scheme = R.allows_scheme }) R.Rule R.Key.Key C.CharSet)
            self.entry authority.borrowed_name result
            (λ last. reference_buf_text last ≡ reference_buf_text self.old)) }
        ensures some { is_some result ≡ is_some (reference_buf_value self.old).authority }
        ensures same_reference { IfSome result (λ editor.
            authority.Borrows editor self.entry.ghost_name) }
        ensures editor { IfSome result (λ editor. authority.IsEditorAt editor
            (reference_buf_text self.old) (offsets_of (reference_buf_text self.old)).authority) }
        ensures reference { is_reference C.tests (reference_buf_text self.old) ≡ true }
    {
        let Some(range) = self.inner.offsets().authority else {
            return None;
        };
        Some(AuthorityMut::of_target(self, range))
    }

    /// The editor of the path (RFC 3986 section 3.3): on `http://h/a?q`, `push` with `b` leaves
    /// `http://h/a/b?q`. Each of its edits is one of the reference, and keeps the other components
    /// as they are.
    pub fn path_mut(&mut self) -> PathMut<'_, C, ReferenceBuf<R, C>>
        ensures same_reference { Borrows result self.entry.ghost_name }
        ensures editor { IsEditorOf result (reference_buf_text self.old)
            (context_of (reference_buf_value self.old))
            (offsets_of (reference_buf_text self.old)).path.start
            (offsets_of (reference_buf_text self.old)).path.end }
        ensures reference { is_reference C.tests (reference_buf_text self.old) ≡ true }
    {
        let lengths = self.inner.lengths();
        let start = lengths.path_start();
        PathMut::of_target(self, lengths.context(), start..start + lengths.path)
    }
}
