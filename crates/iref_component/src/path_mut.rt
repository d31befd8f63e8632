//! Edits of a path in place (RFC 3986 sections 3.3 and 5.2.4).
ghost use Rattle.std.specs.Prelude.{◌≡◌, ◌&&◌, true, not, length, Some, IfOk, IsOk, ◌≤◌, take, slice_range, vec_len};
ghost use Rattle.std.specs.{Prelude.{[], OnOk}, Iterator.{IsFiniteIterable}, Borrow.{RestsIfErr, sem}};
ghost use Rattle.iref_grammar.specs.{alone, is_empty, is_path_in, read_path, IsPath, is_path, IsSegment};
ghost use Rattle.iref_grammar.specs.{PathValue.{PathValue}, Contexts.{follows_authority, context_from}};
ghost use Rattle.iref_splice.specs.Changes.{IsNoLonger, IsWithin, changed};
ghost use Rattle.iref_path.specs.PathParts.{is_path_after, StepsTo};
ghost use Rattle.iref_component.specs.{Components.{text_of}, Paths.{path_value}, BytePaths.{MayFollow}};
ghost use Rattle.iref_component.specs.{Makers.{ParsesUtf8}, Rows.{bytes_row}, Tries.{Tests}};
ghost use Rattle.iref_grammar.specs.{spell_path, RemovesDotSegments};
ghost use Rattle.iref_grammar.specs.PathSteps as step;

use crate::component_rules::{PathRule, SegmentRule};
use crate::named_texts::Segment;
use crate::path::Path;
use crate::path_buf::PathBuf;
use crate::test_before_edit::{Tried, read};
use iref_fault::{InvalidPath, InvalidSegment, TryError};
use iref_grammar::chars::CharSet;
use iref_grammar::context::PathContext;
use iref_path::path_part::PathPart;
use iref_path::rewriting::normal_guard;
use iref_path::segments::split_root;
use iref_path::spell::normalized_text;
use iref_path::staying_names::is_name;
use iref_path::steps;
use iref_path::target::PathTarget;
use iref_splice::Memory;
use iref_splice::change::{Change, Span};
use iref_splice::target::Target;
use std::alloc::Global;
use std::fmt;
use std::marker::PhantomData;
use std::ops::Range;

/// The editor of a path that stands in a vector of bytes, or in another text that it borrows (RFC
/// 3986 section 3.3): at the bytes from 8 up to and without 12 of `http://h/a/b?q`, `pop` leaves
/// `http://h/a?q`.
#[derive(Drop)]
pub struct PathMut<'a, C: CharSet, T: Target<PathPart, C> = Vec<u8>> {
    target: &'a mut T,
    context: PathContext,
    range: Span,
    chars: PhantomData<C>,
    ghost placed: { T.stands (T.text target.now) context
        range.start range.end } by { T.one_range _ _ _ _ },
}

// Room for the `/` or the guard before the first segment that is appended, and the `/` at the end.
const MARKS: usize = 4;

// A copy of the text, with room for a path of this length to be appended.
fn copied(alloc: Global, text: &str, more: usize) -> Result<Vec<u8>, Memory>
    ensures { IfOk result (λ bytes. bytes.items ≡ text.now) }
{
    let room = text.len().saturating_add(more).saturating_add(MARKS);
    let mut bytes = Vec::with_capacity(alloc, room)?;
    bytes.extend_from_slice(text.as_bytes())?;
    Ok(bytes)
}

impl<'a, C: CharSet, T: Target<PathPart, C>> PathMut<'a, C, T> {
    ghost use Rattle.iref_component.specs.PathEdits.{Borrows, path_mut_context, path_mut_start, path_mut_end};
    ghost use Rattle.iref_component.specs.PathEdits.{path_mut_text, path_mut_value, IsEditorOf, IsSameEditor};
    ghost use Rattle.iref_component.specs.PathEdits.{Becomes, BecomesPath, Edits, EditsBy, EditsTo};
    ghost use Rattle.iref_component.specs.Appends.{Appends, TriesAppends, following, lazily};

    /// The path in a range of what holds it, with what stands before it: that of `http://h/a/b?q`
    /// at 8 to 12, after a scheme and an authority.
    pub fn of_target(target: &'a mut T, context: PathContext, range: Range<usize>) -> Self
        requires { T.stands (T.text target.old) context range.start range.end }
        ensures same_reference { Borrows result target.entry.ghost_name }
        ensures editor { IsEditorOf result (T.text target.old) context range.start range.end }
    {
        PathMut {
            target,
            context,
            range: Span {
                start: range.start,
                end: range.end,
            },
            chars: PhantomData,
        }
    }

    // The text of the path.
    fn text(&self) -> &str
        ensures value { result.now ≡ path_mut_text self.now }
        ensures test { is_path_after C.tests (path_mut_context self.now) result.now ≡ true }
    {
        self.target.part(self.context, self.range)
    }

    /// The path: at 8 to 12 of `http://h/a/b?q`, `/a/b`.
    pub fn as_path(&self) -> Path<'_, C>
        ensures { text_of result ≡ path_mut_text self.now }
    {
        Path::new_unchecked(self.text())
    }

    /// Where the path stands, in bytes: in `http://h/a/b?q` at 8 to 12, and after `pop` at 8 to 10.
    pub fn range(&self) -> Range<usize>
        ensures start { result.start ≡ path_mut_start self.now }
        ensures end { result.end ≡ path_mut_end self.now }
    {
        self.range.start..self.range.end
    }

    // The allocator of what holds the path.
    fn alloc(&self) -> Global {
        self.target.alloc()
    }

    // Makes the change of the path, as one edit.
    fn apply(&mut self, change: Change<'_>) -> Result<(), Memory>
        requires within { IsWithin (path_mut_text self.old) change.within }
        requires path { is_path_after C.tests (path_mut_context self.old)
            (changed (path_mut_text self.old) change) ≡ true }
        requires reads { is_path_in C.tests (path_mut_context self.old) (path_mut_text self.old)
            ≡ true → is_path_in C.tests (path_mut_context self.old)
            (changed (path_mut_text self.old) change) ≡ true }
        ensures edit { (value : PathValue) → StepsTo C.tests (path_mut_context self.old)
            (path_mut_text self.old) (changed (path_mut_text self.old) change.entry) value
            → EditsTo value self.old self.new result }
        ensures shorter { IsNoLonger change.entry → IsOk result }
    {
        self.range.end = self.target.replace(self.context, self.range, change)?;
        Ok(())
    }

    // Replaces the whole path by a text that may stand there.
    fn put(&mut self, text: &str) -> Result<(), Memory>
        requires path { is_path_after C.tests (path_mut_context self.old) text.now ≡ true }
        requires reads { is_path_in C.tests (path_mut_context self.old) (path_mut_text self.old)
            ≡ true → is_path_in C.tests (path_mut_context self.old) text.now ≡ true }
        ensures { EditsTo (read_path text.now) self.old self.new result }
    {
        self.apply(Change {
            within: 0..self.text().len(),
            first: "",
            middle: text,
            close: "",
        })
    }

    /// Appends a segment as it is, `.` and `..` too: `a` with `..` becomes `a/..`. Out of memory,
    /// it returns `Memory` and changes nothing.
    pub fn lazy_push(&mut self, segment: Segment<'_, C>) -> Result<(), Memory>
        ensures { EditsBy step.lazy_pushed (text_of segment.entry) self.old self.new result }
    {
        let step = steps::lazy_pushed::<C>(self.context, self.text(), segment.as_str());
        self.apply(step)
    }

    /// Appends a segment, but follows dots (RFC 3986 section 5.2.4). `.` appends an empty segment
    /// where there are segments: `foo` becomes `foo/`, `foo/` becomes `foo//`, and `/` and the
    /// empty path stay. `..` does as `pop` does and then as `.` does, so that `foo/bar` becomes
    /// `foo/`. Out of memory, it returns `Memory` and changes nothing.
    pub fn push(&mut self, segment: Segment<'_, C>) -> Result<(), Memory>
        ensures { EditsBy step.pushed (text_of segment.entry) self.old self.new result }
    {
        let step = steps::pushed::<C>(self.context, self.text(), segment.as_str());
        self.apply(step)
    }

    /// Removes the last segment: `/a/b` becomes `/a`, and `//a` becomes `/./`. `/` stays as it is. A
    /// path that ends in `..` gains a `..`, and so does a relative one without segments: `../..`
    /// becomes `../../..`, and the empty path `..`. Out of memory, it returns `Memory` and changes
    /// nothing.
    pub fn pop(&mut self) -> Result<(), Memory>
        ensures { Edits step.popped self.old self.new result }
    {
        let step = steps::popped::<C>(self.context, self.text());
        self.apply(step)
    }

    /// Pops, and returns whether the path changed: `/a` becomes `/`, an absolute path without
    /// segments stays. Out of memory, it returns `Memory` and changes nothing.
    pub fn try_pop(&mut self) -> Result<bool, Memory>
        ensures edit { Edits step.popped self.old self.new result }
        ensures changed { IfOk result (λ changed. changed ≡ not ((path_mut_value self.old).absolute
            && is_empty (path_mut_value self.old).segments)) }
    {
        let path = self.as_path();
        let changes = path.is_relative() || !path.is_empty();
        self.pop()?;
        Ok(changes)
    }

    /// Replaces the path, with a guard where it would be read as something else: alone, `x` by
    /// `1:2` is `./1:2`. After an authority a relative path with segments is made absolute: `/a` of
    /// `//h/a` by `b` is `/b`. Out of memory, it returns `Memory` and changes nothing.
    pub fn replace(&mut self, path: Path<'_, C>) -> Result<(), Memory>
        ensures { EditsBy step.replaced (path_value path.entry) self.old self.new result }
    {
        let step = steps::replaced::<C>(self.context, self.text(), path.as_str());
        self.apply(step)
    }

    /// Removes all segments: `/a/b` becomes `/`, and `a/b` becomes the empty path.
    pub fn clear(&mut self)
        ensures same { IsSameEditor self.old self.new }
        ensures value { BecomesPath self.old self.new (step.cleared (path_mut_value self.old)) }
    {
        let step = steps::cleared::<C>(self.context, self.text());
        self.apply(step).unwrap();
    }

    // Follows a segment, without closing the path.
    fn follow(&mut self, segment: Segment<'_, C>) -> Result<(), Memory>
        ensures { Edits (λ context path. step.followed context path (text_of segment.entry))
            self.old self.new result }
    {
        let step = steps::followed::<C>(self.context, self.text(), segment.as_str());
        self.apply(step)
    }

    // Closes the path.
    fn close(&mut self) -> Result<(), Memory>
        ensures { Edits step.closed_path self.old self.new result }
    {
        let step = steps::closed::<C>(self.context, self.text());
        self.apply(step)
    }

    /// Appends each segment as it is: `..` and `b` after `/a` give `/a/../b`. The iterator is asked
    /// up to its first `None`. Out of memory, it returns `Memory`, and the segments before the
    /// refused one stand.
    pub fn lazy_append<'s, I>(&mut self, segments: I) -> Result<(), Memory>
    where
        I: IntoIterator<Item = Segment<'s, C>>,
        requires { IsFiniteIterable I.into_iter_gives I.IntoIter.can_next I.IntoIter.remaining
            segments }
        ensures same { IsSameEditor self.old self.new }
        ensures edit { Appends lazily I.into_iter_gives I.IntoIter.next_gives segments
            (Becomes self.old self.new) result }
    {
        for segment in segments {
            self.lazy_push(segment)?;
        }
        Ok(())
    }

    /// Follows each segment: `.` does nothing, `..` does as `pop` does, and another is appended. After
    /// a last `.` or `..` it closes the path, as `push` does after each: `..` and `baz` after
    /// `/foo/bar` give `/foo/baz`, where pushing both gives `/foo//baz`. The iterator is asked up to
    /// its first `None`. Out of memory, it returns `Memory`: the segments before the refused one
    /// stand, and the path is not closed.
    pub fn append<'s, I>(&mut self, segments: I) -> Result<(), Memory>
    where
        I: IntoIterator<Item = Segment<'s, C>>,
        requires { IsFiniteIterable I.into_iter_gives I.IntoIter.can_next I.IntoIter.remaining
            segments }
        ensures same { IsSameEditor self.old self.new }
        ensures edit { Appends following I.into_iter_gives I.IntoIter.next_gives segments
            (Becomes self.old self.new) result }
    {
        let mut ends_in_dots = false;
        for segment in segments {
            self.follow(segment)?;
            ends_in_dots = !is_name(segment.as_str());
        }
        if ends_in_dots {
            self.close()?;
        }
        Ok(())
    }

    /// Replaces the path by an absolute one, or appends the segments of a relative one: `../b`
    /// after `/x/a` gives `/x/b`. This is one edit: out of memory, it returns `Memory` and changes
    /// nothing.
    pub fn join(&mut self, path: Path<'_, C>) -> Result<(), Memory>
        ensures { EditsBy step.joined (path_value path.entry) self.old self.new result }
    {
        if path.is_absolute() {
            return self.replace(path);
        }
        let mut bytes = copied(self.alloc(), self.text(), path.as_str().len())?;
        let len = bytes.len();
        let mut copy: PathMut<'_, C> = PathMut::of_target(&mut bytes, self.context, 0..len);
        copy.append(path)?;
        self.put(copy.text())
    }

    /// Appends a text as a segment, as it is: `a` with `..` becomes `a/..`. `Invalid` holds a text
    /// that is no segment, such as `b/c`. Out of memory, it returns `Memory`; an `Err` changes
    /// nothing.
    pub fn try_lazy_push<'t>(&mut self, segment: &'t str) -> Tried<InvalidSegment<&'t str>>
        ensures edit { EditsBy step.lazy_pushed segment.now self.old self.new result }
        ensures text { Tests (IsSegment C.tests) segment.entry (λ error. error.0) result }
    {
        let segment = read::<SegmentRule, C>(segment)?;
        self.lazy_push(segment).or(Err(TryError::Memory))
    }

    /// Appends a text as a segment, but follows dots, as `push` does: `foo/bar` with `..` becomes
    /// `foo/`. `Invalid` holds a text that is no segment, such as `b/c`. Out of memory, it returns
    /// `Memory`; an `Err` changes nothing.
    pub fn try_push<'t>(&mut self, segment: &'t str) -> Tried<InvalidSegment<&'t str>>
        ensures edit { EditsBy step.pushed segment.now self.old self.new result }
        ensures text { Tests (IsSegment C.tests) segment.entry (λ error. error.0) result }
    {
        let segment = read::<SegmentRule, C>(segment)?;
        self.push(segment).or(Err(TryError::Memory))
    }

    /// Appends each text as a segment, as it is. The iterator is asked up to its first `None`.
    /// `Invalid` holds a text that is no segment, and `Memory` says that memory ran out. At an
    /// `Err` the segments before the refused text stand: `b`, `..` and `c/d` after `/a` are refused
    /// at `c/d`, and leave `/a/b/..`.
    pub fn try_lazy_append<'t, I>(&mut self, segments: I) -> Tried<InvalidSegment<&'t str>>
    where
        I: IntoIterator<Item = &'t str>,
        requires { IsFiniteIterable I.into_iter_gives I.IntoIter.can_next I.IntoIter.remaining
            segments }
        ensures same { IsSameEditor self.old self.new }
        ensures edit { TriesAppends lazily C.tests I.into_iter_gives I.IntoIter.next_gives segments
            (Becomes self.old self.new) result }
    {
        for segment in segments {
            self.try_lazy_push(segment)?;
        }
        Ok(())
    }

    /// Appends each text as a segment, and closes the path after a last `.` or `..`, as `append`
    /// does. The iterator is asked up to its first `None`. `Invalid` holds a text that is no
    /// segment, and `Memory` says that memory ran out. At an `Err` the segments before the refused
    /// text stand, and the path is not closed: `b`, `c`, `..` and `c/d` after `/a` are refused at
    /// `c/d`, and leave `/a/b`.
    pub fn try_append<'t, I>(&mut self, segments: I) -> Tried<InvalidSegment<&'t str>>
    where
        I: IntoIterator<Item = &'t str>,
        requires { IsFiniteIterable I.into_iter_gives I.IntoIter.can_next I.IntoIter.remaining
            segments }
        ensures same { IsSameEditor self.old self.new }
        ensures edit { TriesAppends following C.tests I.into_iter_gives I.IntoIter.next_gives
            segments (Becomes self.old self.new) result }
    {
        let mut ends_in_dots = false;
        for segment in segments {
            self.try_follow(segment)?;
            ends_in_dots = !is_name(segment);
        }
        if ends_in_dots {
            self.close().or(Err(TryError::Memory))
        } else {
            Ok(())
        }
    }

    /// Replaces the path by that of a text, as `replace` does: alone, `x` by `1:2` is `./1:2`.
    /// `Invalid` holds a text that is no path, such as `a?b`. Out of memory, it returns `Memory`;
    /// an `Err` changes nothing.
    pub fn try_replace<'t>(&mut self, path: &'t str) -> Tried<InvalidPath<&'t str>>
        ensures edit { EditsBy step.replaced (read_path path.now) self.old self.new result }
        ensures text { Tests (IsPath C.tests) path.entry (λ error. error.0) result }
    {
        let path = read::<PathRule, C>(path)?;
        self.replace(path).or(Err(TryError::Memory))
    }

    /// Joins the path of a text, as `join` does: `../b` after `/x/a` gives `/x/b`. `Invalid` holds
    /// a text that is no path, such as `a?b`. Out of memory, it returns `Memory`; an `Err` changes
    /// nothing.
    pub fn try_join<'t>(&mut self, path: &'t str) -> Tried<InvalidPath<&'t str>>
        ensures edit { EditsBy step.joined (read_path path.now) self.old self.new result }
        ensures text { Tests (IsPath C.tests) path.entry (λ error. error.0) result }
    {
        let path = read::<PathRule, C>(path)?;
        self.join(path).or(Err(TryError::Memory))
    }

    // Follows a text as a segment, without closing the path.
    fn try_follow<'t>(&mut self, segment: &'t str) -> Tried<InvalidSegment<&'t str>>
        ensures edit { Edits (λ context path. step.followed context path segment.now)
            self.old self.new result }
        ensures text { Tests (IsSegment C.tests) segment.entry (λ error. error.0) result }
    {
        let segment = read::<SegmentRule, C>(segment)?;
        self.follow(segment).or(Err(TryError::Memory))
    }
}

impl<C: CharSet, T: PathTarget<C>> PathMut<'_, C, T> {
    ghost use Rattle.iref_component.specs.PathEdits.{Edits, path_mut_context, path_mut_text, path_mut_value};

    /// Replaces the path by its normal form, guarded where that is needed (RFC 3986 section 5.2.4):
    /// `a/..//b` becomes `.//b`. After an authority that is what `remove_dot_segments` leaves.
    /// Memory is taken only where that path is longer, such as `../` for `..`, and alone `./a:b`
    /// for `a:b`. Out of memory, it returns `Memory` and changes nothing.
    pub fn normalize(&mut self) -> Result<(), Memory>
        ensures edit { Edits step.normalized self.old self.new result }
        ensures dots { (path_mut_context self.old).has_authority ≡ true
            → (path_mut_value self.old).absolute ≡ true → OnOk result
            (RemovesDotSegments (path_mut_text self.old) [] (path_mut_text self.new)) }
        ensures shorter { length (spell_path (step.normalized
            (path_mut_context self.old) (path_mut_value self.old)))
            ≤ length (path_mut_text self.old) → IsOk result }
    {
        let path = self.text();
        let (guard, len) = normal_guard(self.context, path);
        if len > path.len() {
            return self.put_normal();
        }
        self.range.end = self.target.rewrite(self.context, self.range, guard);
        Ok(())
    }

    // Puts the normal form in its place, once it is made beside the path.
    fn put_normal(&mut self) -> Result<(), Memory>
        ensures { Edits step.normalized self.old self.new result }
    {
        let path = self.text();
        let (absolute, _) = split_root(path);
        let text = normalized_text::<C>(self.alloc(), self.context, absolute, path)?;
        self.put(text.as_str())
    }
}

impl<'a, C: CharSet> PathMut<'a, C, Vec<u8>> {
    ghost use Rattle.iref_component.specs.PathEdits.{Borrows, IsEditorOf, borrowed_name, path_mut_text};

    /// The editor of the path in a range of the bytes, by what stands before it: of
    /// `http://h/a/b?q` that at 8 to 12. The error holds the bytes of a range that are no path,
    /// such as `?q`.
    pub fn new(buffer: &'a mut Vec<u8>, range: Range<usize>) -> Result<Self, InvalidPath<&'a [u8]>>
        requires start_le_end { range.start ≤ range.end }
        requires in_bounds { range.end ≤ vec_len buffer.old }
        requires follows { MayFollow C.tests buffer.old.items range.start range.end }
        ensures* unchanged_if_refused { sem 𝓛 (RestsIfErr bytes_row buffer.entry borrowed_name
            result (λ last. last.items ≡ buffer.old.items)) }
        ensures parses { let part = slice_range buffer.old.items range.start range.end in
            ParsesUtf8 (IsPath C.tests) path_mut_text (λ e. e.0.now) part part result }
        ensures same_reference { IfOk result (λ p. Borrows p buffer.entry.ghost_name) }
        ensures editor { IfOk result (λ p. IsEditorOf p buffer.old.items
            (context_from (take range.start buffer.old.items)) range.start range.end) }
    {
        match Path::<C>::from_bytes(&buffer[range.start..range.end]) {
            Ok(_) => Ok(PathMut::new_unchecked(buffer, range)),
            Err(_) => Err(InvalidPath(&buffer[range.start..range.end])),
        }
    }

    /// The editor of a range of bytes that is known to be a path, as that of `http://h/a/b?q` at 8
    /// to 12.
    pub fn new_unchecked(buffer: &'a mut Vec<u8>, range: Range<usize>) -> Self
        requires start_le_end { range.start ≤ range.end }
        requires in_bounds { range.end ≤ vec_len buffer.old }
        requires path { is_path C.tests (slice_range buffer.old.items range.start range.end)
            ≡ true }
        requires follows { MayFollow C.tests buffer.old.items range.start range.end }
        ensures same_reference { Borrows result buffer.entry.ghost_name }
        ensures editor { IsEditorOf result buffer.old.items
            (context_from (take range.start buffer.old.items)) range.start range.end }
    {
        let context = PathContext::from_bytes(&buffer[..range.start]);
        PathMut::of_target(buffer, context, range)
    }
}

impl<'a, C: CharSet> PathMut<'a, C, PathBuf<C>> {
    ghost use Rattle.iref_component.specs.PathEdits.{Borrows, IsEditorOf};

    /// The editor of a path that stands alone: `pop` turns `/a/b` into `/a`.
    pub fn from_path(path: &'a mut PathBuf<C>) -> Self
        ensures same_reference { Borrows result path.entry.ghost_name }
        ensures editor { IsEditorOf result (text_of path.old) alone
            0 (length (text_of path.old)) }
    {
        PathMut::from_path_with_context(path, PathContext::default())
    }

    /// The editor of a path, with what it is to stand after: `push` with `1:2` turns the empty path
    /// into `/1:2` after an authority, into `1:2` after a scheme alone, and into `./1:2` after
    /// neither. After an authority the path has to be empty or to begin with `/`.
    pub fn from_path_with_context(path: &'a mut PathBuf<C>, context: PathContext) -> Self
        requires { follows_authority context (path_value path.old) ≡ true }
        ensures same_reference { Borrows result path.entry.ghost_name }
        ensures editor { IsEditorOf result (text_of path.old) context
            0 (length (text_of path.old)) }
    {
        let len = path.as_str().len();
        PathMut::of_target(path, context, 0..len)
    }
}

impl<C: CharSet, T: Target<PathPart, C>> fmt::Display for PathMut<'_, C, T> {
    ghost use Rattle.iref_component.specs.PathEdits.{path_mut_text};

    ghost output = { λ editor. Some (path_mut_text editor) };

    fn fmt<W: fmt::Write>(&self, f: &mut fmt::Formatter<W>) -> fmt::Result {
        f.write_str(self.text())
    }
}
