//! What holds a path that is rewritten in its own bytes (RFC 3986 section 5.2.4).
ghost use Rattle.std.specs.Prelude.{◌≡◌, ◌+◌, ◌-◌, ◌≤◌, true, length};
ghost use Rattle.iref_grammar.specs.Contexts.{is_path_in};
ghost use Rattle.iref_splice.specs.Changes.{part_at};
ghost use Rattle.iref_path.specs.{PathParts.{is_path_after}, Rewriting.{rewritten, rewritten_at}};

use crate::path_part::PathPart;
use crate::rewriting::rewrite;
use iref_grammar::chars::CharSet;
use iref_grammar::context::PathContext;
use iref_splice::change::Span;
use iref_splice::target::Target;

/// What holds a path, and rewrites it in its own bytes: of `/a/../b` it leaves `/b` there.
pub trait PathTarget<C: CharSet>: Target<PathPart, C> {
    /// Replaces the path by what stands first and the normal list, and returns where that
    /// ends. It takes no memory.
    fn rewrite(&mut self, after: PathContext, at: Span, guard: &str) -> usize
        requires stands { Self.stands (Self.text self.old) after at.start at.end }
        requires shorter { length (rewritten guard.now (part_at (Self.text self.old) at))
            ≤ at.end - at.start }
        requires test { is_path_after C.tests after
            (rewritten guard.now (part_at (Self.text self.old) at)) ≡ true }
        requires reads { is_path_in C.tests after (part_at (Self.text self.old) at) ≡ true
            → is_path_in C.tests after (rewritten guard.now (part_at (Self.text self.old) at))
            ≡ true }
        ensures text { Self.text self.new ≡ rewritten_at guard.now (Self.text self.old) at }
        ensures stands { Self.stands (Self.text self.new) after at.start result }
        ensures end { result
            ≡ at.start + length (rewritten guard.now (part_at (Self.text self.old) at)) };
}

impl<C: CharSet> PathTarget<C> for Vec<u8> {
    fn rewrite(&mut self, after: PathContext, at: Span, guard: &str) -> usize {
        rewrite(self, at, guard)
    }
}
