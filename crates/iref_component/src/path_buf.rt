//! Paths that own their text, and their edits (RFC 3986 sections 3.3 and 5.2.4).
ghost use Rattle.std.specs.Prelude.{◌≡◌, ◌<◌, ◌^◌, length, option_map, ◌&&◌, ◌≤◌, not, IfOk, IsOk, map};
ghost use Rattle.std.specs.Iterator.{IsFiniteIterable};
ghost use Rattle.iref_grammar.specs.{normal_segments};
ghost use Rattle.iref_component.specs.{Components.{text_of}, NormalPaths.{normal_segments_left}, Paths.{path_value}};
ghost use Rattle.iref_component.specs.{Paths.{segments_left}, PathEdits.{Borrows, EditsOwner, IsEditorOf, SpellsPath}};
ghost use Rattle.iref_component.specs.{PathEdits.{OwnerBecomes}, WholePaths.{IsWholePath, one_whole_path}};
ghost use Rattle.iref_component.specs.{Appends.{Appends, TakesAll, following, lazily, TriesAppends}, Tries.{Tests}};
ghost use Rattle.iref_grammar.specs.{alone, is_empty, spell_path, IsPath, IsSegment, read_path};
ghost use Rattle.iref_splice.proofs.PartLemmas.{whole_is_within};
ghost use Rattle.iref_grammar.specs.PathFunctions as function;
ghost use Rattle.iref_grammar.specs.PathSteps as step;

use crate::component_rules::PathRule;
use crate::named_texts::Segment;
use crate::normal::NormalizedSegments;
use crate::owned::TextBuf;
use crate::path::Path;
use crate::path_mut::PathMut;
use crate::segments::Segments;
use crate::test_before_edit::Tried;
use iref_fault::{InvalidPath, InvalidSegment};
use iref_grammar::chars::CharSet;
use iref_grammar::context::PathContext;
use iref_path::path_part::PathPart;
use iref_path::rewriting::rewrite_text;
use iref_path::target::PathTarget;
use iref_splice::Memory;
use iref_splice::change::{Change, Span};
use iref_splice::target::Target;
use std::alloc::Global;
use std::mem;

/// A path that owns its text (RFC 3986 section 3.3), such as `/a`, which is edited in place to
/// `/a/b`.
pub type PathBuf<C> = TextBuf<PathRule, C>;

impl<C: CharSet> PathBuf<C> {
    /// The borrowed path, such as `/a`.
    pub fn as_path(&self) -> Path<'_, C>
        ensures { text_of result ≡ text_of self.now }
    {
        self.as_borrowed()
    }

    /// The segments (RFC 3986 section 3.3): of `/a//b` they are `a`, an empty one and `b`.
    pub fn segments(&self) -> Segments<'_, C>
        ensures left { segments_left result ≡ (path_value self.now).segments }
        ensures fits { length (segments_left result) < 2 ^ 64 }
    {
        self.as_path().segments()
    }

    /// The normal segments: of `a/../b/./c` they are `b` and `c`. The `..` that nothing cancels
    /// stand first where the path is relative.
    ///
    /// This reads the path from its end, and the iterator then reads each segment once more. But
    /// what stands before the last `..` the front reads two to five times for each doubling of the
    /// number of segments there.
    pub fn normalized_segments(&self) -> NormalizedSegments<'_, C>
        ensures { normal_segments_left result ≡ normal_segments (path_value self.now) }
    {
        self.as_path().normalized_segments()
    }

    /// The first segment: of `/a/b`, `a`.
    pub fn first(&self) -> Option<Segment<'_, C>>
        ensures { option_map text_of result ≡ function.first (path_value self.now) }
    {
        self.as_path().first()
    }

    /// The last segment: of `/a/b`, `b`; of `a/`, an empty one.
    pub fn last(&self) -> Option<Segment<'_, C>>
        ensures { option_map text_of result ≡ function.last (path_value self.now) }
    {
        self.as_path().last()
    }

    /// The last segment unless it is empty: of `/a/b`, `b`; of `a/`, None; of `/a/..`, `..`. It may
    /// hold escapes, and is no safe name for a file.
    pub fn file_name(&self) -> Option<Segment<'_, C>>
        ensures { option_map text_of result ≡ function.file_name (path_value self.now) }
    {
        self.as_path().file_name()
    }

    /// All up to and with the last `/` (RFC 3986 section 5.2.3): of `/foo/bar`, `/foo/`; of `foo`,
    /// which has none, the empty path.
    pub fn directory(&self) -> Path<'_, C>
        ensures text { text_of result ≡ function.directory_text (text_of self.now) }
        ensures value { path_value result ≡ function.directory (path_value self.now) }
    {
        self.as_path().directory()
    }

    /// The path without its last segment: of `/a/b`, `/a`. None of a path without segments, and of
    /// one relative segment: of `/` and of `a`.
    pub fn parent(&self) -> Option<Path<'_, C>>
        ensures { option_map path_value result ≡ function.parent (path_value self.now) }
    {
        self.as_path().parent()
    }

    /// The parent, or else the empty path that is absolute where this one is: of `/a/b`, `/a`; of
    /// `a`, the empty path; of `/`, `/`.
    pub fn parent_or_empty(&self) -> Path<'_, C>
        ensures { path_value result ≡ function.parent_or_empty (path_value self.now) }
    {
        self.as_path().parent_or_empty()
    }
}

impl<C: CharSet> Target<PathPart, C> for PathBuf<C> {
    ghost text = { text_of };

    ghost stands = { IsWholePath C.tests };

    ghost one_range = { one_whole_path C.tests };

    ghost is_within = { λ _ _ _ _ stands. whole_is_within stands.0 stands.1 };

    fn alloc(&self) -> Global {
        self.alloc()
    }

    fn part(&self, after: PathContext, at: Span) -> &str {
        self.as_str()
    }

    fn replace(&mut self, after: PathContext, at: Span, by: Change<'_>) -> Result<usize, Memory> {
        self.apply(by)?;
        Ok(self.len())
    }
}

impl<C: CharSet> PathTarget<C> for PathBuf<C> {
    fn rewrite(&mut self, after: PathContext, at: Span, guard: &str) -> usize {
        let empty = PathBuf::empty(self.alloc());
        let mut text = mem::replace(self, empty).into_string();
        let end = rewrite_text(&mut text, at, guard);
        *self = PathBuf::new_unchecked(text);
        end
    }
}

#[tactic(auto, using(crate::proofs::PathEditLemmas::whole_steps))]
impl<C: CharSet> PathBuf<C> {
    /// The editor of the path: with it, `push` with `b` turns `/a` into `/a/b`.
    pub fn as_path_mut(&mut self) -> PathMut<'_, C, PathBuf<C>>
        ensures same_reference { Borrows result self.entry.ghost_name }
        ensures editor { IsEditorOf result (text_of self.old) alone
            0 (length (text_of self.old)) }
    {
        PathMut::from_path(self)
    }

    /// Appends a segment as it is, `.` and `..` too: `a` with `..` becomes `a/..`. Out of memory,
    /// it returns `Memory` and changes nothing.
    pub fn lazy_push(&mut self, segment: Segment<'_, C>) -> Result<(), Memory>
        ensures { EditsOwner (step.lazy_pushed alone (text_of segment.entry))
            self.old self.new result }
    {
        self.as_path_mut().lazy_push(segment)
    }

    /// Appends a segment, but follows dots (RFC 3986 section 5.2.4). `.` appends an empty segment
    /// where there are segments: `foo` becomes `foo/`, `foo/` becomes `foo//`, and `/` and the
    /// empty path stay. `..` does as `pop` does and then as `.` does, so that `foo/bar` becomes
    /// `foo/`. Out of memory, it returns `Memory` and changes nothing.
    pub fn push(&mut self, segment: Segment<'_, C>) -> Result<(), Memory>
        ensures { EditsOwner (step.pushed alone (text_of segment.entry))
            self.old self.new result }
    {
        self.as_path_mut().push(segment)
    }

    /// Removes the last segment: `/a/b` becomes `/a`, and `//a` becomes `/./`. `/` stays as it is. A
    /// path that ends in `..` gains a `..`, and so does a relative one without segments: `../..`
    /// becomes `../../..`, and the empty path `..`. Out of memory, it returns `Memory` and changes
    /// nothing.
    pub fn pop(&mut self) -> Result<(), Memory>
        ensures { EditsOwner (step.popped alone) self.old self.new result }
    {
        self.as_path_mut().pop()
    }

    /// Pops, and returns whether the path changed: `/a` becomes `/`, an absolute path without
    /// segments stays. Out of memory, it returns `Memory` and changes nothing.
    pub fn try_pop(&mut self) -> Result<bool, Memory>
        ensures edit { EditsOwner (step.popped alone) self.old self.new result }
        ensures changed { IfOk result (λ changed. changed ≡ not ((path_value self.old).absolute
            && is_empty (path_value self.old).segments)) }
    {
        self.as_path_mut().try_pop()
    }

    /// Replaces the path, with a guard where it would be read as something else: alone, `x` by
    /// `1:2` is `./1:2`. Out of memory, it returns `Memory` and changes nothing.
    pub fn replace(&mut self, path: Path<'_, C>) -> Result<(), Memory>
        ensures { EditsOwner (step.replaced alone (path_value path.entry))
            self.old self.new result }
    {
        self.as_path_mut().replace(path)
    }

    /// Replaces the path by its normal form, guarded where that is needed (RFC 3986 section 5.2.4):
    /// `a/..//b` becomes `.//b`. Memory is taken only where that path is longer, such as `./a:b`
    /// for `a:b`. Out of memory, it returns `Memory` and changes nothing.
    pub fn normalize(&mut self) -> Result<(), Memory>
        ensures edit { EditsOwner (step.normalized alone) self.old self.new result }
        ensures shorter { length (spell_path (step.normalized alone (path_value self.old)))
            ≤ length (text_of self.old) → IsOk result }
    {
        self.as_path_mut().normalize()
    }

    /// Removes all segments: `/a/b` becomes `/`, and `a/b` becomes the empty path.
    pub fn clear(&mut self)
        ensures { SpellsPath self.new (step.cleared (path_value self.old)) }
    {
        self.as_path_mut().clear();
    }

    /// Appends each segment as it is: `..` and `b` after `/a` give `/a/../b`. The iterator is asked
    /// up to its first `None`. Out of memory, it returns `Memory`, and the segments before the
    /// refused one stand.
    pub fn lazy_append<'s, I>(&mut self, segments: I) -> Result<(), Memory>
    where
        I: IntoIterator<Item = Segment<'s, C>>,
        requires { IsFiniteIterable I.into_iter_gives I.IntoIter.can_next I.IntoIter.remaining
            segments }
        ensures { Appends lazily I.into_iter_gives I.IntoIter.next_gives segments
            (OwnerBecomes self.old self.new) result }
    {
        self.as_path_mut().lazy_append(segments)
    }

    /// Follows each segment: `.` does nothing, `..` does as `pop` does, and another is appended. After
    /// a last `.` or `..` it closes the path, as `push` does after each: `..` and `baz` after
    /// `/foo/bar` give `/foo/baz`, where pushing both gives `/foo//baz`. The iterator is asked up to
    /// its first `None`. Out of memory, it returns `Memory`: the segments before the refused one
    /// stand, and the path is not closed.
    pub fn append<'s, I>(&mut self, segments: I) -> Result<(), Memory>
    where
        I: IntoIterator<Item = Segment<'s, C>>,
        requires { IsFiniteIterable I.into_iter_gives I.IntoIter.can_next I.IntoIter.remaining
            segments }
        ensures { Appends following I.into_iter_gives I.IntoIter.next_gives segments
            (OwnerBecomes self.old self.new) result }
    {
        self.as_path_mut().append(segments)
    }

    /// Replaces the path by an absolute one, or appends the segments of a relative one: `../b`
    /// after `/x/a` gives `/x/b`. This is one edit: out of memory, it returns `Memory` and changes
    /// nothing.
    pub fn join(&mut self, path: Path<'_, C>) -> Result<(), Memory>
        ensures { EditsOwner (step.joined alone (path_value path.entry)) self.old self.new result }
    {
        self.as_path_mut().join(path)
    }

    /// The path that pushing these segments one by one on the empty or the absolute path gives:
    /// absolute and `a`, `b`, `..` is `/a/`. A segment behind `.` or `..` comes after the `/` that
    /// closes the path: `a`, `b`, `..` and `c` are `/a//c`. Out of memory, it returns `Memory`.
    pub fn from_segments<'s, I: IntoIterator<Item = Segment<'s, C>> + Drop>(
        alloc: Global,
        absolute: bool,
        segments: I,
    ) -> Result<PathBuf<C>, Memory>
        requires { IsFiniteIterable I.into_iter_gives I.IntoIter.can_next I.IntoIter.remaining
            segments }
        ensures { IfOk result (λ path. TakesAll I.into_iter_gives I.IntoIter.next_gives segments
            (λ items. SpellsPath path (step.from_segments absolute (map text_of items)))) }
    {
        let mut path = Path::<C>::without_segments(absolute).to_owned(alloc)?;
        for segment in segments {
            path.push(segment)?;
        }
        Ok(path)
    }

    /// Appends a text as a segment, as it is: `a` with `..` becomes `a/..`. `Invalid` holds a text
    /// that is no segment, such as `b/c`. Out of memory, it returns `Memory`; an `Err` changes
    /// nothing.
    pub fn try_lazy_push<'t>(&mut self, segment: &'t str) -> Tried<InvalidSegment<&'t str>>
        ensures edit { EditsOwner (step.lazy_pushed alone segment.now) self.old self.new result }
        ensures text { Tests (IsSegment C.tests) segment.entry (λ error. error.0) result }
    {
        self.as_path_mut().try_lazy_push(segment)
    }

    /// Appends a text as a segment, but follows dots, as `push` does: `foo/bar` with `..` becomes
    /// `foo/`. `Invalid` holds a text that is no segment, such as `b/c`. Out of memory, it returns
    /// `Memory`; an `Err` changes nothing.
    pub fn try_push<'t>(&mut self, segment: &'t str) -> Tried<InvalidSegment<&'t str>>
        ensures edit { EditsOwner (step.pushed alone segment.now) self.old self.new result }
        ensures text { Tests (IsSegment C.tests) segment.entry (λ error. error.0) result }
    {
        self.as_path_mut().try_push(segment)
    }

    /// Appends each text as a segment, as it is. The iterator is asked up to its first `None`.
    /// `Invalid` holds a text that is no segment, and `Memory` says that memory ran out. At an
    /// `Err` the segments before the refused text stand: `b`, `..` and `c/d` after `/a` are refused
    /// at `c/d`, and leave `/a/b/..`.
    pub fn try_lazy_append<'t, I>(&mut self, segments: I) -> Tried<InvalidSegment<&'t str>>
    where
        I: IntoIterator<Item = &'t str>,
        requires { IsFiniteIterable I.into_iter_gives I.IntoIter.can_next I.IntoIter.remaining
            segments }
        ensures { TriesAppends lazily C.tests I.into_iter_gives I.IntoIter.next_gives segments
            (OwnerBecomes self.old self.new) result }
    {
        self.as_path_mut().try_lazy_append(segments)
    }

    /// Appends each text as a segment, and closes the path after a last `.` or `..`, as `append`
    /// does. The iterator is asked up to its first `None`. `Invalid` holds a text that is no
    /// segment, and `Memory` says that memory ran out. At an `Err` the segments before the refused
    /// text stand, and the path is not closed: `b`, `c`, `..` and `c/d` after `/a` are refused at
    /// `c/d`, and leave `/a/b`.
    pub fn try_append<'t, I>(&mut self, segments: I) -> Tried<InvalidSegment<&'t str>>
    where
        I: IntoIterator<Item = &'t str>,
        requires { IsFiniteIterable I.into_iter_gives I.IntoIter.can_next I.IntoIter.remaining
            segments }
        ensures { TriesAppends following C.tests I.into_iter_gives I.IntoIter.next_gives segments
            (OwnerBecomes self.old self.new) result }
    {
        self.as_path_mut().try_append(segments)
    }

    /// Replaces the path by that of a text, as `replace` does: alone, `x` by `1:2` is `./1:2`.
    /// `Invalid` holds a text that is no path, such as `a?b`. Out of memory, it returns `Memory`;
    /// an `Err` changes nothing.
    pub fn try_replace<'t>(&mut self, path: &'t str) -> Tried<InvalidPath<&'t str>>
        ensures edit { EditsOwner (step.replaced alone (read_path path.now))
            self.old self.new result }
        ensures text { Tests (IsPath C.tests) path.entry (λ error. error.0) result }
    {
        self.as_path_mut().try_replace(path)
    }

    /// Joins the path of a text, as `join` does: `../b` after `/x/a` gives `/x/b`. `Invalid` holds
    /// a text that is no path, such as `a?b`. Out of memory, it returns `Memory`; an `Err` changes
    /// nothing.
    pub fn try_join<'t>(&mut self, path: &'t str) -> Tried<InvalidPath<&'t str>>
        ensures edit { EditsOwner (step.joined alone (read_path path.now))
            self.old self.new result }
        ensures text { Tests (IsPath C.tests) path.entry (λ error. error.0) result }
    {
        self.as_path_mut().try_join(path)
    }
}
