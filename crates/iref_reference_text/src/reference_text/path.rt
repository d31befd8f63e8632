//! The path of a reference's text as a part that is edited in place, and as a normal one (RFC 3986
//! sections 3.3 and 5.2.4).
ghost use Rattle.std.specs.Prelude.{◌≡◌, ◌||◌, ◌&&◌, not, true, OnErr, OnOk};
ghost use Rattle.iref_grammar.specs.ComponentSteps.{with_new_normal_path};
ghost use Rattle.iref_component.specs.{read_path, read_reference, spell, is_path, is_empty, with_path};
ghost use Rattle.iref_reference_text.specs.PathRanges.{IsPathOf, one_path, path_is_within, RemovesDots};

use super::{HeldRule, ReferenceText};
use crate::lengths::Lengths;
use iref_grammar::chars::CharSet;
use iref_grammar::context::PathContext;
use iref_path::path_part::PathPart;
use iref_path::rewriting::rewrite_text;
use iref_path::segments::split_root;
use iref_path::spell::normalized_text;
use iref_path::target::PathTarget;
use iref_splice::Memory;
use iref_splice::change::{Change, Span};
use iref_splice::target::Target;
use iref_splice::text::replace_part;
use std::alloc::Global;

impl<R: HeldRule, C: CharSet> Target<PathPart, C> for ReferenceText<R, C> {
    ghost text = { λ inner. inner };

    ghost stands = { IsPathOf C.tests };

    ghost one_range = { one_path C.tests };

    ghost is_within = { path_is_within C.tests };

    fn alloc(&self) -> Global {
        *self.text.allocator()
    }

    fn part(&self, after: PathContext, at: Span) -> &str {
        &self.text.as_str()[at.start..at.end]
    }

    fn replace(&mut self, after: PathContext, at: Span, by: Change<'_>) -> Result<usize, Memory> {
        let end = replace_part(&mut self.text, at, by)?;
        self.lengths.path = end - at.start;
        Ok(end)
    }
}

impl<R: HeldRule, C: CharSet> PathTarget<C> for ReferenceText<R, C> {
    fn rewrite(&mut self, after: PathContext, at: Span, guard: &str) -> usize {
        let end = rewrite_text(&mut self.text, at, guard);
        self.lengths.path = end - at.start;
        end
    }
}

impl<R: HeldRule, C: CharSet> ReferenceText<R, C> {
    /// Sets the path and normalizes it, as one edit.
    pub fn set_and_normalize_path(&mut self, path: &str) -> Result<(), Memory>
        requires { is_path C.tests path.now ≡ true }
        ensures text { OnOk result (self.new
            ≡ spell (with_new_normal_path (read_path path.now) (read_reference self.old))) }
        ensures value { OnOk result (read_reference self.new
            ≡ with_new_normal_path (read_path path.now) (read_reference self.old)) }
        ensures rewritten { OnOk result (RemovesDots
            (with_path (read_path path.now) (read_reference self.old))
            (read_reference self.new)) }
        ensures err { OnErr result (self.new ≡ self.old) }
    {
        let old = self.lengths();
        let context = old.context();
        let absolute = is_absolute_after(context, path);
        let normal = normalized_text::<C>(*self.text.allocator(), context, absolute, path)?;
        let normal = normal.as_str();
        let lengths = Lengths {
            path: normal.len(),
            ..old
        };
        let change = Change {
            within: self.path_range(),
            first: normal,
            middle: "",
            close: "",
        };
        self.step(lengths, change)
    }
}

// Whether the path is absolute where it stands: after an authority every path with segments is.
#[tactic(auto, using(iref_path::proofs::SlashLemmas::some_pieces))]
fn is_absolute_after(context: PathContext, path: &str) -> bool
    ensures { result ≡ ((read_path path.now).absolute
        || context.has_authority && not (is_empty (read_path path.now).segments)) }
{
    let (absolute, segments) = split_root(path);
    absolute | (context.has_authority & segments.is_some())
}
