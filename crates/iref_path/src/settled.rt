//! Whether a path stands as normalizing leaves it (RFC 3986 section 5.2.4).

ghost use Rattle.std.specs.Prelude.{◌≡◌, true, bytes_eq};
ghost use Rattle.iref_grammar.specs.{Contexts.{fits}, read_path, spell_path};
ghost use Rattle.iref_grammar.specs.PathSteps.{normalized};

use crate::measured::MeasuredPath;
use iref_grammar::context::PathContext;
use iref_parse::dots::has_dots;
use iref_splice::unwritten::Unwritten;

/// Whether the path of a reference is the text of its normalized path: `/a/b` is, and `/a/../b` is
/// not. A path of which no segment begins with a dot is.
#[tactic(auto, using(crate::proofs::SettledTextLemmas::settled))]
pub fn is_settled(context: PathContext, path: &str) -> bool
    requires { fits context (read_path path.now) ≡ true }
    ensures { result ≡ bytes_eq (spell_path (normalized context (read_path path.now))) path.now }
{
    !has_dots(path.as_bytes()) || MeasuredPath::normalized(context, path).is(path.as_bytes())
}
