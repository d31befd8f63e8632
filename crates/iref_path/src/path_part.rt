//! Paths as parts of a text that are edited in place (RFC 3986 sections 3.3 and 4.2).
ghost use Rattle.iref_grammar.specs.Contexts.{is_path_in};
ghost use Rattle.iref_path.specs.PathParts.{is_path_after, path_is_text};

use iref_grammar::context::PathContext;
use iref_splice::target::Part;

/// A path, in the context of what stands before it.
pub struct PathPart;

impl Part for PathPart {
    type Context = PathContext;

    ghost test = { is_path_after };

    ghost reads = { is_path_in };

    ghost is_text = { path_is_text };
}
