//! What holds a part of a text that is edited in place.
ghost use Rattle.std.specs.{Prelude.{◌≡◌, ◌+◌, ◌≤◌, ℕ, Bool, true, length, OnOk, OnErr, IfOk, IsOk}, Str.{IsUtf8}};
ghost use Rattle.iref_grammar.specs.{Characters.{CharTests, AreAboveAscii}, Rules.{Text}};
ghost use Rattle.iref_splice.specs.Changes.{IsNoLonger, IsWithin, changed_at, changed_part, part_at};

use crate::change::{Change, Span};
use crate::out_of_memory::Memory;
use iref_grammar::chars::CharSet;
use std::alloc::Global;

/// A kind of part, as the path of a reference, with what it may be in a context.
pub trait Part {
    /// What stands before a part, as far as it matters.
    type Context: Copy;

    /// What may stand there.
    ghost test: { CharTests → Self.Context → Text → Bool };

    /// What is also read there as the part, and as nothing else.
    ghost reads: { CharTests → Self.Context → Text → Bool };

    /// What may stand there is text.
    ghost is_text: { (tests : CharTests) → AreAboveAscii tests → (context : Self.Context)
        → (part : Text) → test tests context part ≡ true → IsUtf8 part };
}

/// What holds a part: a vector of bytes, or an owned value.
pub trait Target<P: Part, C: CharSet> {
    /// The bytes.
    ghost text: { Self → Text };

    /// The part stands there, in its context.
    ghost stands: { Text → P.Context → ℕ → ℕ → Type 0 };

    /// There is one proof of it.
    ghost one_range: { (text : Text) (context : P.Context) (start end : ℕ)
        → IsProp (stands text context start end) };

    /// It is within the bytes.
    ghost is_within: { (text : Text) (context : P.Context) (start end : ℕ)
        → stands text context start end → (start ≤ end) × (end ≤ length text) };

    /// The allocator of the text.
    fn alloc(&self) -> Global;

    /// The part.
    fn part(&self, after: P::Context, at: Span) -> &str
        requires { stands (text self.now) after at.start at.end }
        ensures value { result.now ≡ part_at (text self.now) at }
        ensures test { P.test C.tests after result.now ≡ true };

    /// Changes the part, and returns where it ends then. All room is taken first: an `Err` changes
    /// nothing, and what makes the part no longer takes no memory.
    fn replace(&mut self, after: P::Context, at: Span, by: Change<'_>) -> Result<usize, Memory>
        requires stands { stands (text self.old) after at.start at.end }
        requires within { IsWithin (part_at (text self.old) at) by.within }
        requires test { P.test C.tests after (changed_part (text self.old) at by) ≡ true }
        requires reads { P.reads C.tests after (part_at (text self.old) at) ≡ true
            → P.reads C.tests after (changed_part (text self.old) at by) ≡ true }
        ensures text { OnOk result (text self.new ≡ changed_at (text self.old) at by.entry) }
        ensures stands { IfOk result (λ end. stands (text self.new) after at.start end) }
        ensures end { IfOk result (λ end.
            end ≡ at.start + length (changed_part (text self.old) at by.entry)) }
        ensures err { OnErr result (text self.new ≡ text self.old) }
        ensures shorter { IsNoLonger by.entry → IsOk result };
}
