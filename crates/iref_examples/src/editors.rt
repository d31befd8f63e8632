//! Paths edited in place, whatever holds them.
ghost use Rattle.std.specs.Prelude.{codes};
ghost use Rattle.iref.specs.{PathEdits.{Edits, EditsBy}, PathSteps.{popped, pushed}};

use iref::Memory;
use iref::chars::UriChars;
use iref::uri::{PathMut, PathPart, Segment, Target, UriBuf};

/// Closes a path, in whatever holds it: `/a` becomes `/a/`. Out of memory, it returns `Memory`.
pub fn close<T: Target<PathPart, UriChars>>(path: &mut PathMut<'_, T>) -> Result<(), Memory>
    ensures { EditsBy pushed (codes ".") path.old path.new result }
{
    path.push(Segment::current())
}

/// Takes the last segment of a URI's path away: `http://h/a/b?q` becomes `http://h/a?q`. Out of
/// memory, it returns `Memory`.
pub fn climb(path: &mut PathMut<'_, UriBuf>) -> Result<(), Memory>
    ensures { Edits popped path.old path.new result }
{
    path.pop()
}
