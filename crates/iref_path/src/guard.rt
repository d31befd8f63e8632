//! What stands before a path, so that it is read as it was meant (RFC 3986 sections 3.3 and 4.2).
ghost use Rattle.std.specs.Prelude.{◌≡◌, ◌≤◌, ◌++◌, true, length};
ghost use Rattle.iref_grammar.specs.{read_path, spell_path, guarded};

use crate::segments::{first_segment, split_root};
use crate::spell::{first_needs_guard, guard};
use iref_grammar::context::PathContext;

/// What guards a path in this context: `/` after an authority, and before a first segment that is
/// empty or holds a `:` a segment `.`, where that would be read as something else.
pub fn guard_of(context: PathContext, path: &str) -> &'static str
    ensures spelled { result.now ++ path.now ≡ spell_path (guarded context (read_path path.now)) }
    ensures short { length result.now ≤ 2 }
{
    let (absolute, segments) = split_root(path);
    let Some(segments) = segments else {
        return "";
    };
    let first = first_segment(segments).0;
    let dotted = !context.has_authority && first_needs_guard(context, absolute, first);
    match (absolute, dotted) {
        (false, _) => guard(context.has_authority, dotted),
        (true, true) => "/.",
        (true, false) => "",
    }
}

/// What makes a path absolute.
pub fn root_of(path: &str) -> &'static str
    ensures { result.now ++ path.now
        ≡ spell_path (record (read_path path.now) { absolute = true }) }
{
    if split_root(path).0 { "" } else { "/" }
}
