//! What is left of a path after a prefix, by normal lists.

ghost use Rattle.std.specs.Prelude.{◌≡◌, ◌+◌, ◌<◌, ◌^◌, IfOk, IfSome, IsNone, IsOk, length, option_map, true};
ghost use Rattle.std.specs.String.{string_bytes};
ghost use Rattle.iref_grammar.specs.{PathValue.{read_path, spell_path}, Tests.{is_path}};
ghost use Rattle.iref_grammar.specs.PathSuffix.{path_suffix};
ghost use Rattle.iref_path.specs.{Spelling.{each_closed}, Suffixes.{items_path}, NormalItems.{IsSound, normal_left}};

use crate::compare_lists::{Decoded, compare_lists};
use crate::measured::MeasuredPath;
use crate::normal_items::NormalItems;
use crate::segments::split_root;
use iref_grammar::chars::CharSet;
use iref_splice::Memory;
use iref_splice::unwritten::Unwritten;
use std::alloc::Global;

// The items of the path after those of the prefix, if these are a beginning of them, and both paths
// are absolute or both relative.
#[tactic(auto, using(crate::proofs::SuffixLemmas::beginnings), unfolding(iref_grammar::specs::PathSuffix::path_suffix))]
fn rest_after<'a>(prefix: &str, path: &'a str) -> Option<NormalItems<'a>>
    ensures rest { option_map items_path result
        ≡ path_suffix (read_path prefix.now) (read_path path.now) }
    ensures sound { IfSome result (λ rest. IsSound rest) }
    ensures room { IfSome result (λ rest. length (each_closed (normal_left rest)) + 4 < 2 ^ 64) }
{
    if split_root(prefix).0 != split_root(path).0 {
        return None;
    }
    let start = NormalItems::new(prefix);
    let items = NormalItems::new(path);
    let (common, _) = compare_lists::<Decoded>(start, items);
    let len = start.len();
    if common < len {
        return None;
    }
    Some(items.last_after(0, items.len() - len))
}

/// The text of what is left of a path after a prefix, as a relative path: of `/foo/bar` after
/// `/foo` it is `bar`. None where the normal list of the prefix is not a beginning of the path's,
/// segment by segment after decoding, or where only one of both is absolute; that takes no memory.
///
/// The room is taken once; out of memory, it returns an `Err`.
pub fn suffix_text<C: CharSet>(
    alloc: Global,
    prefix: &str,
    path: &str,
) -> Result<Option<String>, Memory>
    requires { is_path C.tests path.now ≡ true }
    ensures text { IfOk result (λ found. option_map string_bytes found
        ≡ option_map spell_path (path_suffix (read_path prefix.now) (read_path path.now))) }
    ensures value { IfOk result (λ found. option_map (λ text. read_path (string_bytes text)) found
        ≡ path_suffix (read_path prefix.now) (read_path path.now)) }
    ensures path { IfOk result (λ found. IfSome found (λ text.
        is_path C.tests (string_bytes text) ≡ true)) }
    ensures none { IsNone (path_suffix (read_path prefix.now) (read_path path.now))
        → IsOk result }
{
    let Some(rest) = rest_after(prefix, path) else {
        return Ok(None);
    };
    let bytes = MeasuredPath::relative(rest).to_bytes(alloc)?;
    // What spells a path is text, so no byte is read again.
    let text = unsafe { String::from_utf8_unchecked(bytes) };
    Ok(Some(text))
}
