//! The edits of a path, each one step, by its text (RFC 3986 sections 3.3 and 5.2.4).
ghost use Rattle.std.specs.Prelude.{◌≡◌, ◌++◌, true};
ghost use Rattle.iref_grammar.specs.{is_segment, is_path, read_path, spell_path};
ghost use Rattle.iref_grammar.specs.PathSteps.{lazy_pushed, pushed, followed, popped, closed_path, cleared, replaced};
ghost use Rattle.iref_splice.specs.Changes.{IsNoLonger, IsWithin, changed};
ghost use Rattle.iref_path.specs.{PathParts.{is_path_after, StepsBy}, StepTexts.{closed_by}};

use crate::guard::guard_of;
use crate::segments::{last_segment, split_root};
use crate::spell::{first_needs_guard, guard};
use iref_grammar::chars::CharSet;
use iref_grammar::context::PathContext;
use iref_splice::change::Change;

/// Nothing is taken out, and nothing comes in.
pub(crate) const EMPTY: Change<'static> = Change {
    within: 0..0,
    first: "",
    middle: "",
    close: "",
};

/// A segment at the end, as it is: a first one that would be read as something else stands after
/// `./`, and after an authority it stands after `/`.
pub fn lazy_pushed<'a, C: CharSet>(context: PathContext, path: &str, segment: &'a str) -> Change<'a>
    requires path { is_path_after C.tests context path.now ≡ true }
    requires segment { is_segment C.tests segment.now ≡ true }
    ensures { StepsBy (lazy_pushed context segment.now) C.tests context path.now result }
{
    push_text(context, path, segment, "")
}

/// Appends a segment, but `.` only closes the path with a `/`, and `..` removes the last segment and
/// closes the path (RFC 3986 section 5.2.4): `foo/bar` and `..` give `foo/`.
pub fn pushed<'a, C: CharSet>(context: PathContext, path: &str, segment: &'a str) -> Change<'a>
    requires path { is_path_after C.tests context path.now ≡ true }
    requires segment { is_segment C.tests segment.now ≡ true }
    ensures { StepsBy (pushed context segment.now) C.tests context path.now result }
{
    if segment == "." {
        closed::<C>(context, path)
    } else if segment == ".." {
        pop_text(context, path, "/")
    } else {
        push_text(context, path, segment, "")
    }
}

/// A segment at the end, where `.` does nothing and `..` is a pop: `foo/bar` and `..` give `foo`.
#[tactic(auto, using(std::proofs::lemmas::Grind::common_steps, crate::proofs::PopTextLemmas::follows))]
pub fn followed<'a, C: CharSet>(context: PathContext, path: &str, segment: &'a str) -> Change<'a>
    requires path { is_path_after C.tests context path.now ≡ true }
    requires segment { is_segment C.tests segment.now ≡ true }
    ensures { StepsBy (λ p. followed context p segment.now) C.tests context path.now result }
{
    if segment == "." {
        Change {
            within: path.len()..path.len(),
            ..EMPTY
        }
    } else if segment == ".." {
        popped::<C>(context, path)
    } else {
        lazy_pushed::<C>(context, path, segment)
    }
}

/// Removes the last segment. A path that ends in `..`, or a relative one without segments, gains a
/// `..`. `/` stays, and `//a` gives `/./`.
pub fn popped<C: CharSet>(context: PathContext, path: &str) -> Change<'static>
    requires path { is_path_after C.tests context path.now ≡ true }
    ensures { StepsBy (popped context) C.tests context path.now result }
{
    pop_text(context, path, "")
}

/// An empty segment at the end, which is a `/` there, where there are segments.
pub fn closed<C: CharSet>(context: PathContext, path: &str) -> Change<'static>
    requires path { is_path_after C.tests context path.now ≡ true }
    ensures { StepsBy (closed_path context) C.tests context path.now result }
{
    let has_segments = split_root(path).1.is_some();
    Change {
        within: path.len()..path.len(),
        close: if has_segments { "/" } else { "" },
        ..EMPTY
    }
}

/// No segments, so that the path is `/` or empty.
pub fn cleared<C: CharSet>(context: PathContext, path: &str) -> Change<'static>
    requires path { is_path_after C.tests context path.now ≡ true }
    ensures step { StepsBy cleared C.tests context path.now result }
    ensures shorter { IsNoLonger result }
{
    Change {
        within: usize::from(split_root(path).0)..path.len(),
        ..EMPTY
    }
}

/// The new path, after what guards it there.
pub fn replaced<'a, C: CharSet>(context: PathContext, path: &str, new: &'a str) -> Change<'a>
    requires path { is_path_after C.tests context path.now ≡ true }
    requires new { is_path C.tests new.now ≡ true }
    ensures { StepsBy (replaced context (read_path new.now)) C.tests context path.now result }
{
    Change {
        within: 0..path.len(),
        first: guard_of(context, new),
        middle: new,
        close: "",
    }
}

// The text with a segment at the end, and what closes it.
#[tactic(auto, using(crate::proofs::StepTextLemmas::ends))]
fn push_text<'a>(
    context: PathContext,
    path: &str,
    segment: &'a str,
    close: &'static str,
) -> Change<'a>
    ensures within { IsWithin path.now result.within }
    ensures text { changed path.now result
        ≡ spell_path (lazy_pushed context segment.now (read_path path.now)) ++ close.now }
{
    let (absolute, segments) = split_root(path);
    if segments.is_some() {
        return Change {
            within: path.len()..path.len(),
            first: "/",
            middle: segment,
            close,
        };
    }
    let rooted = absolute | context.has_authority;
    Change {
        within: 0..path.len(),
        first: guard(rooted, first_needs_guard(context, rooted, segment)),
        middle: segment,
        close,
    }
}

// The text after a pop, and what closes it where segments are left.
fn pop_text(context: PathContext, path: &str, close: &'static str) -> Change<'static>
    ensures within { IsWithin path.now result.within }
    ensures text { changed path.now result
        ≡ closed_by close.now (popped context (read_path path.now)) }
{
    let (absolute, segments) = split_root(path);
    let root = usize::from(absolute);
    let Some(segments) = segments else {
        return if absolute {
            Change {
                within: root..path.len(),
                ..EMPTY
            }
        } else {
            push_text(context, path, "..", close)
        };
    };
    let (front, last) = last_segment(segments);
    if last == ".." {
        return push_text(context, path, "..", close);
    }
    match front {
        Some(front) => Change {
            within: root + front.len()..path.len(),
            first: if front.is_empty() { "./" } else { "" },
            middle: "",
            close,
        },
        None => Change {
            within: root..path.len(),
            ..EMPTY
        },
    }
}
