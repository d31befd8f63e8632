//! What is asked of a path, by its text.

ghost use Rattle.std.specs.Prelude.{◌≡◌, true, IfSome, option_map};
ghost use Rattle.iref_grammar.specs.{is_path, read_path};
ghost use Rattle.iref_path.specs.Pieces.{value_at};
ghost use Rattle.iref_grammar.specs.PathFunctions as function;

use iref_grammar::chars::CharSet;

/// All up to and with the last `/`.
#[tactic(auto, using(crate::proofs::PathTextLemmas::directories))]
pub fn directory_text<C: CharSet>(path: &str) -> &str
    requires { is_path C.tests path.now ≡ true }
    ensures text { result.now ≡ function.directory_text path.now }
    ensures path { is_path C.tests result.now ≡ true }
{
    match path.rfind('/') {
        Some(at) => &path[..at + 1],
        None => "",
    }
}

/// The text of the path without its last segment, if that is a parent.
#[tactic(auto, using(std::proofs::lemmas::Grind::common_steps, crate::proofs::PathTextLemmas::parents))]
pub fn parent_text<C: CharSet>(path: &str) -> Option<&str>
    requires { is_path C.tests path.now ≡ true }
    ensures parent { option_map value_at result ≡ function.parent (read_path path.now) }
    ensures path { IfSome result (λ text. is_path C.tests text.now ≡ true) }
{
    let (front, last) = path.rsplit_once('/')?;
    if front.is_empty() {
        return if last.is_empty() { None } else { Some("/") };
    }
    if front == "/" {
        Some("/./")
    } else {
        Some(front)
    }
}
